//! Why a shared store gives no answer.
use crate::entry::{Entry, Receipt};
use tv_base::TantivyError;
use tv_formats::Memory;

/// Why a shared store gives no answer.
#[derive(Drop)]
pub enum SharedError {
    /// The store was refused something, or memory was wanting.
    Store(TantivyError),
    /// An earlier event failed. The history has so many entries.
    Ended(u64),
    /// A receipt isn't the entry at its place: that entry, or the last one where there is no such place.
    Differs { receipt: Receipt, kept: Entry },
    /// The callers have another number of receipts than there are entries after the first.
    Uneven { receipts: u64, entries: u64 },
}

impl From<Memory> for SharedError {
    ghost use Rattle.std.specs.Prelude.{◌≡◌};
    ghost use Rattle.tv_base.specs.declared.error.TantivyError.TheVariants.{Memory};
    ghost use Rattle.tv_histories.specs.declared.shared_error.SharedError.TheVariants.{Store};

    ghost from_gives = { λ a b. b ≡ Store Memory };

    fn from(_memory: Memory) -> SharedError {
        SharedError::Store(TantivyError::Memory)
    }
}
