//! Segments as a writer knows them.
ghost use Rattle.std.specs.Prelude.{◌≡◌, [], ◌∷◌, IfOk, option_copied};
ghost use Rattle.std.specs.Borrow.{Lends, sem};
ghost use Rattle.tv_base.specs.Entries.{released};
ghost use Rattle.tv_registers.specs.Sharing.{SharesEach};
ghost use Rattle.tv_registers.specs.contracts.delete_cursor.DeleteCursor.{the_row as cursor_row};
ghost use Rattle.tv_registers.specs.contracts.segment_entry.SegmentEntry.{the_row as entry_row};

use crate::bit_set::BitSet;
use crate::delete_cursor::DeleteCursor;
use crate::sharing::{Counted, share_meta};
use std::marker::Model;
use std::mem;
use tv_base::TantivyError;
use tv_formats::{Memory, SegmentId};
use tv_metas::{SegmentMeta, SegmentMetaInventory};

/// A share of a segment, which deletes are applied to it, and which of its documents are alive,
/// where that is known. To a contract it is the record of these.
#[derive(Drop)]
pub struct SegmentEntry {
    pub(crate) meta: SegmentMeta,
    delete_cursor: DeleteCursor,
    alive: Option<BitSet>,
}

impl Model for SegmentEntry {
    ghost use Rattle.tv_registers.specs.Registers.{EntryState};

    ghost Value = { EntryState };

    ghost view = { λ a. record { meta = a.meta; cursor = a.delete_cursor; alive = a.alive } };
}

impl SegmentEntry {
    /// The entry of these. Takes no memory.
    pub fn new(meta: SegmentMeta, cursor: DeleteCursor, alive: Option<BitSet>) -> SegmentEntry
        ensures { result ≡ record { meta = meta; cursor = cursor; alive = alive } }
    {
        SegmentEntry {
            meta,
            delete_cursor: cursor,
            alive,
        }
    }

    /// Which of its documents are alive, where that is known.
    pub fn alive_bitset(&self) -> Option<&BitSet>
        ensures { option_copied result ≡ self.now.alive }
    {
        self.alive.as_ref()
    }

    /// The share of the segment.
    pub fn meta(&self) -> &SegmentMeta
        ensures { result.now ≡ self.now.meta }
    {
        &self.meta
    }

    /// The id of the segment.
    pub fn segment_id(&self) -> SegmentId
        ensures { result ≡ self.now.meta.1.0 }
    {
        self.meta.id()
    }

    /// Takes another share in place of the former one, which is given back. Takes no memory.
    pub fn set_meta(&mut self, meta: SegmentMeta, inventory: &mut SegmentMetaInventory)
        ensures entry { self.new ≡ record self.old { meta = meta } }
        ensures released { inventory.new ≡ released self.old.meta.0 inventory.old }
    {
        let former = mem::replace(&mut self.meta, meta);
        inventory.release(former);
    }

    /// Which deletes are applied to it, which the caller may change: the entry has what the caller
    /// leaves, and else stays.
    pub fn delete_cursor(&mut self) -> &mut DeleteCursor
        ensures value { result.now ≡ self.old.cursor }
        ensures* lends { sem 𝓛 (Lends entry_row cursor_row self.entry result
            (λ w. record self.old { cursor = w })) }
    {
        &mut self.delete_cursor
    }

    /// An equal entry, with one more share of the segment.
    pub fn share(&self, inventory: &mut SegmentMetaInventory) -> Result<SegmentEntry, TantivyError>
        ensures entry { IfOk result (λ entry. entry ≡ self.now) }
        ensures shares { SharesEach (self.now.meta.0 ∷ []) inventory.old inventory.new result }
    {
        let alive = copy_of(&self.alive)?;
        let meta = share_meta(&self.meta, inventory)?;
        Ok(SegmentEntry {
            meta,
            delete_cursor: self.delete_cursor,
            alive,
        })
    }

    /// Gives the share back. Takes no memory.
    pub fn release(self, inventory: &mut SegmentMetaInventory)
        ensures released { inventory.new ≡ released self.meta.0 inventory.old }
    {
        inventory.release(self.meta);
    }
}

// The same set, where there is one.
fn copy_of(alive: &Option<BitSet>) -> Result<Option<BitSet>, Memory>
    ensures { IfOk result (λ copy. copy ≡ alive.now) }
{
    match alive {
        Some(set) => Ok(Some(set.copy()?)),
        None => Ok(None),
    }
}
