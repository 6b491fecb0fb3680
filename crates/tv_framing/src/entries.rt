//! Reads the list of a composite file.
ghost use Rattle.std.specs.Prelude.{◌≡◌, ◌<◌, ◌^◌, ◌++◌, ◌↔◌, ℕ, IsTrue, List, Some, IfOk, IfSome, MatchOption, length, option_map};
ghost use Rattle.std.specs.List.{AllByRecursion};
ghost use Rattle.tv_formats.specs.VInt.{vint};
ghost use Rattle.tv_framing.specs.Entries.{BeginsAtFirst, IsLayout, entry_text, entries_text, starts_after};
ghost use Rattle.tv_framing.specs.Fitting.{AreListed, EntryFits, SpellsEntries};

use crate::address::FileAddr;
use crate::cursor::Cursor;
use crate::starts::Start;
use std::alloc::Global;
use std::collections::BTreeSet;
use tv_base::{Field, Memory};

/// A body's address, and how far the body begins behind the one before.
#[derive(Clone, Copy)]
pub(crate) struct PartEntry {
    pub(crate) gap: u64,
    pub(crate) addr: FileAddr,
}

// The entry that comes next.
fn next_entry(cursor: &mut Cursor<'_>) -> Option<PartEntry>
    ensures found { (entry : PartEntry) (rest : List ℕ) → EntryFits entry
        → cursor.old ≡ entry_text entry ++ rest
        → (result ≡ Some entry) × (cursor.new ≡ rest) }
    ensures only { IfSome result (λ entry. EntryFits entry
        × (cursor.old ≡ entry_text entry ++ cursor.new)) }
{
    let gap = cursor.vint()?;
    let field = Field::from_field_id(cursor.four_bytes()?);
    let idx = cursor.vint()?;
    let addr = FileAddr { field, idx };
    Some(PartEntry { gap, addr })
}

/// Where the bodies of a list begin in so many bytes. Nothing where the bytes are no list, or its bodies
/// don't fit.
pub(crate) fn starts_in(
    alloc: Global,
    footing: &[u8],
    len: u64,
) -> Result<Option<Vec<Start>>, Memory>
    ensures found { (entries : List PartEntry) → length entries < 2 ^ 64
        → SpellsEntries footing.now entries → IsLayout entries len
        → IfOk result (λ found. option_map (λ v. v.items) found
        ≡ Some (starts_after 0 entries)) }
    ensures only { IfOk result (λ found. IfSome found
        (λ v. AreListed footing.now len v.items)) }
{
    match entries_in(alloc, footing)? {
        Some(entries) => starts_of(alloc, entries.as_slice(), len),
        None => Ok(None),
    }
}

// The entries that the bytes spell behind their number, and nothing for all other bytes.
fn entries_in(alloc: Global, footing: &[u8]) -> Result<Option<Vec<PartEntry>>, Memory>
    ensures found { (entries : List PartEntry) → length entries < 2 ^ 64
        → AllByRecursion EntryFits entries
        → footing.now ≡ vint (length entries) ++ entries_text entries
        → IfOk result (λ found. option_map (λ v. v.items) found ≡ Some entries) }
    ensures only { IfOk result (λ found. IfSome found (λ v. SpellsEntries footing.now v.items)) }
{
    let mut cursor = Cursor::new(footing);
    let Some(count) = cursor.vint() else {
        return Ok(None);
    };
    let mut entries = Vec::new(alloc);
    for _ in 0..count {
        match next_entry(&mut cursor) {
            Some(entry) => entries.push(entry)?,
            None => return Ok(None),
        }
    }
    if cursor.is_at_end() {
        Ok(Some(entries))
    } else {
        Ok(None)
    }
}

// Where the bodies of these entries begin in so many bytes, if they can.
fn starts_of(alloc: Global, entries: &[PartEntry], len: u64) -> Result<Option<Vec<Start>>, Memory>
    ensures { IfOk result (λ found. MatchOption found (IsLayout entries.now len → ⊥)
        (λ v. IsLayout entries.now len × (v.items ≡ starts_after 0 entries.now))) }
{
    if !begins_at_first(entries, len) {
        return Ok(None);
    }
    let mut starts = Vec::new(alloc);
    let mut seen = BTreeSet::new(alloc);
    let mut offset = 0;
    for entry in entries {
        if len - offset < entry.gap {
            return Ok(None);
        }
        if !seen.insert(entry.addr)? {
            return Ok(None);
        }
        offset += entry.gap;
        starts.push(Start {
            addr: entry.addr,
            offset,
        })?;
    }
    Ok(Some(starts))
}

// Whether the first body begins at 0. Without a body there are no bytes.
fn begins_at_first(entries: &[PartEntry], len: u64) -> bool
    ensures { IsTrue result ↔ BeginsAtFirst entries.now len }
{
    match entries.first() {
        Some(entry) => entry.gap == 0,
        None => len == 0,
    }
}
