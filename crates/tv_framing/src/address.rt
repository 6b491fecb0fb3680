//! Where a body is found in a composite file.
ghost use Rattle.std.specs.Prelude.{◌≡◌};
ghost use Rattle.tv_framing.specs.Composite.{is_at};

use tv_base::Field;

/// A field, and the index of one of its bodies. Addresses are in order of their fields, then of their
/// indexes.
#[derive(Clone, Copy, Debug, PartialEq, Eq, PartialOrd, Ord, Hash)]
pub struct FileAddr {
    /// The field.
    pub field: Field,
    /// Which of its bodies, often 0. tantivy has a `usize`.
    pub idx: u64,
}

/// Whether both are the same.
pub(crate) fn is_at(addr: &FileAddr, other: &FileAddr) -> bool
    ensures { result ≡ is_at addr.now other.now }
{
    other.field.field_id() == addr.field.field_id() && other.idx == addr.idx
}
