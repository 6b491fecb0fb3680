//! Reads a composite file.
ghost use Rattle.std.specs.Prelude.{◌≡◌, ◌≤◌, ◌<◌, ◌^◌, ◌++◌, ℕ, List, [], IfOk, IfErr, IfSome, MatchOption, false, true, length, map, string_bytes, take};
ghost use Rattle.tv_formats.specs.Footer.{four_bytes};
ghost use Rattle.tv_base.specs.declared.io.IoKind.TheVariants.{InvalidData};
ghost use Rattle.tv_framing.specs.Composite.{AreTheParts, IsComposite, IsNotComposite, address, bodies, body_at, fields_below, not_composite};
ghost use Rattle.tv_framing.specs.Faults.{IsFault, OfFault};
ghost use Rattle.tv_framing.specs.PerField.{AreByName, UsesBytes};
ghost use Rattle.tv_framing.specs.Reports.{index_too_large, indexes_fit, usages};
ghost use Rattle.std.specs.Option.{IsSomeAnd};

use crate::address::FileAddr;
use crate::cursor::Cursor;
use crate::entries::starts_in;
use crate::faults::refusal;
use crate::per_field_usage::PerFieldSpaceUsage;
use crate::ranges::range_of;
use crate::reports::usage_by_name;
use crate::starts::{Start, are_below, are_small};
use std::alloc::Global;
use std::marker::Model;
use tv_base::{Field, FileSlice, IoError, IoKind, Memory};

/// A file that is made of the bodies of several fields. To a contract it is the list of its parts, in
/// the order of the file.
#[derive(Drop)]
pub struct CompositeFile {
    bytes: FileSlice,
    starts: Vec<Start>,
}

impl Model for CompositeFile {
    ghost use Rattle.std.specs.Prelude.{List, length};
    ghost use Rattle.tv_framing.specs.Composite.{Part};
    ghost use Rattle.tv_framing.specs.Starts.{Fill, parts_of};

    ghost Value = { List Part };

    ghost view = { λ c. parts_of c.bytes c.starts.items };

    ghost invariant = { λ c. Fill c.starts.items (length c.bytes) };
}

impl CompositeFile {
    /// The parts of the file. `InvalidData` comes exactly where it isn't made of parts.
    pub fn open(alloc: Global, file: &FileSlice) -> Result<CompositeFile, IoError>
        ensures ok { IfOk result (IsComposite file.now) }
        ensures only { IfOk result (AreTheParts file.now) }
        ensures err { IfErr result (OfFault (IsFault InvalidData not_composite)) }
        ensures outside { IfErr result (OfFault (λ _. IsNotComposite file.now)) }
    {
        match parts_in(alloc, file)? {
            Some(parts) => Ok(parts),
            None => Err(refusal(
                alloc,
                IoKind::InvalidData,
                "Composite file is not of the stated form.",
            )),
        }
    }

    /// No parts. Takes no memory.
    pub fn empty(alloc: Global) -> CompositeFile
        ensures empty { result ≡ [] }
    {
        CompositeFile {
            bytes: FileSlice::empty(),
            starts: Vec::new(alloc),
        }
    }

    /// Whether every field has a number below this one. Takes no memory.
    pub fn fields_below(&self, n: u32) -> bool
        ensures below { result ≡ fields_below n self.now }
    {
        are_below(self.starts.as_slice(), n)
    }

    /// The field's body of index 0, and `None` where there is none.
    pub fn open_read(&self, field: Field) -> Result<Option<FileSlice>, Memory>
        ensures body { IfOk result (λ found. found ≡ body_at (address field 0) self.now) }
    {
        self.open_read_with_idx(field, 0)
    }

    /// The field's body of this index, and `None` where there is none.
    pub fn open_read_with_idx(&self, field: Field, idx: u64) -> Result<Option<FileSlice>, Memory>
        ensures body { IfOk result (λ found. found ≡ body_at (address field idx) self.now) }
    {
        let addr = FileAddr { field, idx };
        match range_of(self.starts.as_slice(), &addr, self.bytes.len()) {
            Some(range) => Ok(Some(self.bytes.slice(range)?)),
            None => Ok(None),
        }
    }

    /// How many bytes the bodies take, under the names of their fields: the name of field 0 comes first.
    /// `InvalidData` comes exactly where an index is above 65,535.
    pub fn space_usage(&self, names: &[String]) -> Result<PerFieldSpaceUsage, IoError>
        requires below { fields_below (length names.now) self.now ≡ true }
        ensures ok { IfOk result (AreByName (usages (map string_bytes names.now) self.now)) }
        ensures total { IfOk result (λ usage. UsesBytes usage (length (bodies self.now))) }
        ensures fits { IfOk result (λ _. indexes_fit self.now ≡ true) }
        ensures err { IfErr result (OfFault (IsFault InvalidData index_too_large)) }
        ensures above { IfErr result (OfFault (λ _. indexes_fit self.now ≡ false)) }
    {
        let alloc = *self.starts.allocator();
        if !are_small(self.starts.as_slice()) {
            return Err(refusal(
                alloc,
                IoKind::InvalidData,
                "An index of the composite file is above 65535.",
            ));
        }
        let end = self.bytes.len();
        Ok(usage_by_name(alloc, self.starts.as_slice(), end, names)?)
    }
}

// The parts of the file, if it is made of parts.
fn parts_in(alloc: Global, file: &FileSlice) -> Result<Option<CompositeFile>, Memory>
    ensures { IfOk result (λ found. MatchOption found (IsNotComposite file.now)
        (λ parts. IsComposite file.now parts × AreTheParts file.now parts)) }
{
    let bytes = file.read_bytes()?;
    let Some((len, footing)) = split_footing(bytes.as_slice()) else {
        return Ok(None);
    };
    let Some(starts) = starts_in(alloc, footing, len as u64)? else {
        return Ok(None);
    };
    let bytes = file.slice_to(len)?;
    Ok(Some(CompositeFile { bytes, starts }))
}

// How many bytes stand before the list of the parts, and that list, as the last four bytes say.
fn split_footing(bytes: &[u8]) -> Option<(usize, &[u8])>
    ensures found { (front footing : List ℕ) → length footing < 2 ^ 32
        → bytes.now ≡ front ++ (footing ++ four_bytes (length footing))
        → IsSomeAnd result (λ r. (r.0 ≡ length front) × (r.1.now ≡ footing)) }
    ensures only { IfSome result (λ r. (r.0 < 2 ^ 64) × ((r.0 ≤ length bytes.now)
        × (length r.1.now < 2 ^ 32)
        × (bytes.now ≡ take r.0 bytes.now ++ (r.1.now ++ four_bytes (length r.1.now))))) }
{
    let end = bytes.len().checked_sub(4)?;
    let (front, last) = bytes.split_at(end);
    let len = Cursor::new(last).four_bytes()? as usize;
    let start = end.checked_sub(len)?;
    Some((start, &front[start..]))
}
