//! Segments by their ids.
ghost use Rattle.std.specs.Prelude.{◌≡◌, [], ◌∷◌, IfErr, IfOk, OnErr, OnOk, Some, map, option_map};
ghost use Rattle.std.specs.List.Sorted.{IsStrictlySortedBy};
ghost use Rattle.std.specs.Option.{option_to_list};
ghost use Rattle.tv_base.specs.Entries.{released};
ghost use Rattle.tv_formats.specs.Names.{at, byte_cmp};
ghost use Rattle.tv_registers.specs.Registers.{emptied, entries_in, entry_of, has_all, id_of, metas_in};
ghost use Rattle.tv_registers.specs.Registers.{empty_in, living_in, outside, put, put_each, ticket_of, tickets_in, with_entry, without_id};
ghost use Rattle.tv_registers.specs.Sharing.{ShareCause, SharesEach, releases, shared};

use crate::choosing::{
    choose_all, choose_living, choose_metas, choose_others, ids_of_all, ids_of_empty,
};
use crate::delete_cursor::DeleteCursor;
use crate::replacing::{put_entry, take_all, take_each, take_entry};
use crate::segment_entry::SegmentEntry;
use crate::sharing::share_each;
use std::alloc::Global;
use std::collections::{BTreeMap, BTreeSet};
use std::marker::Model;
use tv_base::TantivyError;
use tv_formats::{Memory, SegmentId};
use tv_metas::{SegmentMeta, SegmentMetaInventory};

/// Segments by their ids. To a contract it is the map of them, in the order of the ids.
#[derive(Drop)]
pub struct SegmentRegister {
    pub(crate) alloc: Global,
    pub(crate) segments: BTreeMap<SegmentId, SegmentEntry>,
}

impl Model for SegmentRegister {
    ghost use Rattle.tv_registers.specs.Registers.{Register};

    ghost Value = { Register };

    ghost view = { λ a. a.segments.entries };
}

impl SegmentRegister {
    /// The register of these segments, to which the deletes up to a cursor are applied. Of two
    /// segments with one id the later one stays. No inventory is lent: the share of the other one
    /// stays counted, and where memory is wanted those of all do.
    pub fn new(
        alloc: Global,
        metas: Vec<SegmentMeta>,
        cursor: &DeleteCursor,
    ) -> Result<SegmentRegister, Memory>
        ensures { IfOk result
            (λ register. register ≡ put_each (map (entry_of cursor.now) metas.items) []) }
    {
        let mut segments = BTreeMap::new(alloc);
        for meta in metas {
            let entry = SegmentEntry::new(meta, *cursor, None);
            put_new(&mut segments, entry)?;
        }
        Ok(SegmentRegister { alloc, segments })
    }

    /// Takes all segments out, and gives their shares back. Takes no memory.
    pub fn clear(&mut self, inventory: &mut SegmentMetaInventory)
        ensures { (self.new, inventory.new) ≡ emptied (self.old, inventory.old) }
    {
        take_all(&mut self.segments, inventory);
    }

    /// Takes the segment of an id out, if there is one, and gives its share back. Takes no memory.
    pub fn remove_segment(&mut self, id: &SegmentId, inventory: &mut SegmentMetaInventory)
        ensures { (self.new, inventory.new) ≡ without_id id.now (self.old, inventory.old) }
    {
        take_entry(&mut self.segments, id, inventory);
    }

    /// Whether it has a segment of each of these ids. Takes no memory.
    pub fn contains_all(&self, ids: &[SegmentId]) -> bool
        ensures { result ≡ has_all self.now ids.now }
    {
        ids.iter().all(|id| self.segments.contains_key(id))
    }

    /// Puts a segment in. One that had its id goes out, and its share is given back. Where memory
    /// is wanted, the share of the new one is given back, and else nothing changes.
    pub fn add_segment_entry(
        &mut self,
        entry: SegmentEntry,
        inventory: &mut SegmentMetaInventory,
    ) -> Result<(), Memory>
        ensures ok { OnOk result
            ((self.new, inventory.new) ≡ with_entry entry (self.old, inventory.old)) }
        ensures err { OnErr result
            ((self.new ≡ self.old) × (inventory.new ≡ released (ticket_of entry) inventory.old)) }
    {
        put_entry(&mut self.segments, entry, inventory)
    }

    /// A share of the segment of an id, if there is one.
    pub fn get(
        &self,
        id: &SegmentId,
        inventory: &mut SegmentMetaInventory,
    ) -> Result<Option<SegmentEntry>, TantivyError>
        ensures entry { IfOk result (λ entry. entry ≡ at self.now id.now) }
        ensures shares { SharesEach (map ticket_of (option_to_list (at self.now id.now)))
            inventory.old inventory.new result }
    {
        match self.segments.get(id) {
            Some(entry) => Ok(Some(entry.share(inventory)?)),
            None => Ok(None),
        }
    }

    /// The ids of the segments, in their order.
    pub fn segment_ids(&self) -> Result<Vec<SegmentId>, Memory>
        ensures ids { IfOk result (λ ids. ids.items ≡ map (λ e. e.0) self.now) }
        ensures ordered { IfOk result (λ ids. IsStrictlySortedBy byte_cmp ids.items) }
    {
        ids_of_all(self.alloc, &self.segments)
    }

    /// A share of each segment, in the order of the ids.
    pub fn segment_entries(
        &self,
        inventory: &mut SegmentMetaInventory,
    ) -> Result<Vec<SegmentEntry>, TantivyError>
        ensures entries { IfOk result (λ entries. entries.items ≡ entries_in self.now) }
        ensures shares { SharesEach (tickets_in self.now) inventory.old inventory.new result }
    {
        let mut chosen = Vec::new(self.alloc);
        choose_all(&self.segments, &mut chosen)?;
        share_each(self.alloc, chosen.as_slice(), inventory)
    }

    /// A share of what is known of each segment, in the order of the ids.
    pub fn segment_metas(
        &self,
        inventory: &mut SegmentMetaInventory,
    ) -> Result<Vec<SegmentMeta>, TantivyError>
        ensures metas { IfOk result (λ metas. metas.items ≡ metas_in self.now) }
        ensures shares { SharesEach (tickets_in self.now) inventory.old inventory.new result }
    {
        let chosen = choose_metas(self.alloc, &self.segments)?;
        share_each(self.alloc, chosen.as_slice(), inventory)
    }

    /// A share of what is known of each segment that isn't in a merge, in the order of the ids.
    pub fn get_mergeable_segments(
        &self,
        in_merge: &BTreeSet<SegmentId>,
        inventory: &mut SegmentMetaInventory,
    ) -> Result<Vec<SegmentMeta>, TantivyError>
        ensures metas { IfOk result
            (λ metas. metas.items ≡ metas_in (outside in_merge.now.keys self.now)) }
        ensures shares { SharesEach (tickets_in (outside in_merge.now.keys self.now))
            inventory.old inventory.new result }
    {
        let chosen = choose_others(self.alloc, &self.segments, in_merge)?;
        share_each(self.alloc, chosen.as_slice(), inventory)
    }

    // A share of what is known of each segment that has living documents, in the order of the ids.
    // The others go out, and their shares are given back.
    pub(crate) fn keep_living(
        &mut self,
        inventory: &mut SegmentMetaInventory,
    ) -> Result<Vec<SegmentMeta>, TantivyError>
        ensures metas { IfOk result (λ metas. metas.items ≡ metas_in (living_in self.old)) }
        ensures ok { OnOk result (self.new ≡ living_in self.old) }
        ensures shares { OnOk result (option_map (releases (tickets_in (empty_in self.old)))
            (shared (tickets_in (living_in self.old)) inventory.old) ≡ Some inventory.new) }
        ensures err { OnErr result ((self.new ≡ self.old) × (inventory.new ≡ inventory.old)) }
        ensures cause { IfErr result (ShareCause (tickets_in (living_in self.old)) inventory.old) }
    {
        let empty = ids_of_empty(self.alloc, &self.segments)?;
        let metas = share_living(self.alloc, &self.segments, inventory)?;
        take_each(&mut self.segments, empty.as_slice(), inventory);
        Ok(metas)
    }
}

// Puts a segment in. The share of one that had its id stays counted.
fn put_new(
    segments: &mut BTreeMap<SegmentId, SegmentEntry>,
    entry: SegmentEntry,
) -> Result<(), Memory>
    ensures { OnOk result (segments.new.entries ≡ put entry segments.old.entries) }
{
    segments.insert(entry.segment_id(), entry)?;
    Ok(())
}

// A share of what is known of each segment that has living documents.
fn share_living(
    alloc: Global,
    segments: &BTreeMap<SegmentId, SegmentEntry>,
    inventory: &mut SegmentMetaInventory,
) -> Result<Vec<SegmentMeta>, TantivyError>
    ensures metas { IfOk result (λ metas. metas.items ≡ metas_in (living_in segments.now.entries)) }
    ensures shares { SharesEach (tickets_in (living_in segments.now.entries))
        inventory.old inventory.new result }
{
    let chosen = choose_living(alloc, segments)?;
    share_each(alloc, chosen.as_slice(), inventory)
}
