//! The segments of a writer.
ghost use Rattle.std.specs.Prelude.{◌≡◌, [], ◌++◌, IfErr, IfOk, OnErr, OnOk, Some, map, option_map};
ghost use Rattle.tv_base.specs.Entries.{released};
ghost use Rattle.tv_registers.specs.Managers.{EndCause, RefusesMerge, StartCause, commit, emptied_both, merge, merged_entries, status_of, with_uncommitted};
ghost use Rattle.tv_registers.specs.Registers.{empty_in, entries_in, entry_of, given_back, living_in, metas_in, outside, put_each, ticket_of, tickets_in, with_entry};
ghost use Rattle.tv_registers.specs.Sharing.{ShareCause, SharesEach, releases, shared};

use crate::choosing::{choose_all, choose_ids};
use crate::delete_cursor::DeleteCursor;
use crate::replacing::{by_id, replace_each};
use crate::segment_entry::SegmentEntry;
use crate::segment_register::SegmentRegister;
use crate::segments_status::SegmentsStatus;
use crate::sharing::{release_each, share_each};
use std::alloc::Global;
use std::collections::{BTreeMap, BTreeSet};
use std::marker::Model;
use tv_base::TantivyError;
use tv_formats::{Memory, SegmentId};
use tv_metas::{SegmentMeta, SegmentMetaInventory};

/// The segments of a writer: those of the last commit, and those that aren't committed yet. To a
/// contract it is the two maps.
#[derive(Drop)]
pub struct SegmentManager {
    uncommitted: SegmentRegister,
    committed: SegmentRegister,
}

impl Model for SegmentManager {
    ghost use Rattle.tv_registers.specs.Managers.{ManagerState};

    ghost Value = { ManagerState };

    ghost view = { λ a. record { uncommitted = a.uncommitted; committed = a.committed } };
}

impl SegmentManager {
    /// The segments of the last commit, to which the deletes up to a cursor are applied, and none
    /// that aren't committed. Of two segments with one id the later one stays, and shares stay
    /// counted as in `SegmentRegister::new`.
    pub fn from_segments(
        alloc: Global,
        metas: Vec<SegmentMeta>,
        cursor: &DeleteCursor,
    ) -> Result<SegmentManager, Memory>
        ensures { IfOk result (λ manager. manager ≡ record {
          uncommitted = [];
          committed = put_each (map (entry_of cursor.now) metas.items) [];
        }) }
    {
        Ok(SegmentManager {
            uncommitted: SegmentRegister {
                alloc,
                segments: BTreeMap::new(alloc),
            },
            committed: SegmentRegister::new(alloc, metas, cursor)?,
        })
    }

    /// A share of what is known of each segment that isn't in a merge: of the committed ones, and
    /// of the others.
    pub fn get_mergeable_segments(
        &self,
        in_merge: &BTreeSet<SegmentId>,
        inventory: &mut SegmentMetaInventory,
    ) -> Result<(Vec<SegmentMeta>, Vec<SegmentMeta>), TantivyError>
        ensures committed { IfOk result (λ metas.
            metas.0.items ≡ metas_in (outside in_merge.now.keys self.now.committed)) }
        ensures uncommitted { IfOk result (λ metas.
            metas.1.items ≡ metas_in (outside in_merge.now.keys self.now.uncommitted)) }
        ensures shares { SharesEach (tickets_in (outside in_merge.now.keys self.now.committed)
            ++ tickets_in (outside in_merge.now.keys self.now.uncommitted))
            inventory.old inventory.new result }
    {
        let committed = self.committed.get_mergeable_segments(in_merge, inventory)?;
        match self.uncommitted.get_mergeable_segments(in_merge, inventory) {
            Ok(uncommitted) => Ok((committed, uncommitted)),
            Err(error) => {
                release_each(committed, inventory);
                Err(error)
            }
        }
    }

    /// A share of each segment: of those that aren't committed, then of the others.
    pub fn segment_entries(
        &self,
        inventory: &mut SegmentMetaInventory,
    ) -> Result<Vec<SegmentEntry>, TantivyError>
        ensures entries { IfOk result (λ entries. entries.items
            ≡ entries_in self.now.uncommitted ++ entries_in self.now.committed) }
        ensures shares { SharesEach
            (tickets_in self.now.uncommitted ++ tickets_in self.now.committed)
            inventory.old inventory.new result }
    {
        let alloc = self.committed.alloc;
        let mut chosen = Vec::new(alloc);
        choose_all(&self.uncommitted.segments, &mut chosen)?;
        choose_all(&self.committed.segments, &mut chosen)?;
        share_each(alloc, chosen.as_slice(), inventory)
    }

    /// Puts a segment in that isn't committed. One that had its id and wasn't committed goes out,
    /// and its share is given back. Where memory is wanted, the share of the new one is given back,
    /// and else nothing changes.
    pub fn add_segment(
        &mut self,
        entry: SegmentEntry,
        inventory: &mut SegmentMetaInventory,
    ) -> Result<(), Memory>
        ensures ok { OnOk result ((self.new, inventory.new) ≡ with_uncommitted
            (with_entry entry (self.old.uncommitted, inventory.old)) self.old) }
        ensures err { OnErr result
            ((self.new ≡ self.old) × (inventory.new ≡ released (ticket_of entry) inventory.old)) }
    {
        self.uncommitted.add_segment_entry(entry, inventory)
    }

    /// Takes all segments out, and gives their shares back. Takes no memory.
    pub fn remove_all_segments(&mut self, inventory: &mut SegmentMetaInventory)
        ensures { (self.new, inventory.new) ≡ emptied_both (self.old, inventory.old) }
    {
        self.uncommitted.clear(inventory);
        self.committed.clear(inventory);
    }

    /// Commits: these segments become all that there are, and the shares of the former ones are
    /// given back. Of two segments with one id the later one stays. Where memory is wanted, the
    /// shares of these are given back, and else nothing changes.
    pub fn commit(
        &mut self,
        entries: Vec<SegmentEntry>,
        inventory: &mut SegmentMetaInventory,
    ) -> Result<(), Memory>
        ensures ok { OnOk result
            ((self.new, inventory.new) ≡ commit entries.items (self.old, inventory.old)) }
        ensures err { OnErr result ((self.new ≡ self.old)
            × (inventory.new ≡ releases (map ticket_of entries.items) inventory.old)) }
    {
        let segments = by_id(self.committed.alloc, entries, inventory)?;
        self.remove_all_segments(inventory);
        self.committed.segments = segments;
        Ok(())
    }

    /// A share of each of the segments that are to be merged, in the order of their ids here: of
    /// those that aren't committed, if all ids are there, and else of the committed ones.
    pub fn start_merge(
        &self,
        ids: &[SegmentId],
        inventory: &mut SegmentMetaInventory,
    ) -> Result<Vec<SegmentEntry>, TantivyError>
        ensures entries { IfOk result
            (λ entries. merged_entries self.now ids.now ≡ Some entries.items) }
        ensures shares { IfOk result (λ entries.
            shared (map ticket_of entries.items) inventory.old ≡ Some inventory.new) }
        ensures err { OnErr result (inventory.new ≡ inventory.old) }
        ensures cause { IfErr result (StartCause self.now ids.now inventory.old) }
    {
        let alloc = self.committed.alloc;
        let register = match self.status(ids) {
            Some(SegmentsStatus::Uncommitted) => &self.uncommitted,
            Some(SegmentsStatus::Committed) => &self.committed,
            None => return Err(refusal(alloc)),
        };
        let chosen = choose_ids(alloc, &register.segments, ids)?;
        share_each(alloc, chosen.as_slice(), inventory)
    }

    /// Ends a merge: the segments of these ids go out of the register where they are, and the
    /// segment into which they were merged, if there is one, comes in there. Answers which register
    /// that is.
    ///
    /// Where neither has all ids, or memory is wanted, the share of that segment is given back, and
    /// else nothing changes.
    pub fn end_merge(
        &mut self,
        before: &[SegmentId],
        after: Option<SegmentEntry>,
        inventory: &mut SegmentMetaInventory,
    ) -> Result<SegmentsStatus, TantivyError>
        ensures status { IfOk result (λ status. status_of self.old before.now ≡ Some status) }
        ensures ok { IfOk result (λ status. (self.new, inventory.new)
            ≡ merge status before.now after (self.old, inventory.old)) }
        ensures err { OnErr result
            ((self.new ≡ self.old) × (inventory.new ≡ given_back after inventory.old)) }
        ensures cause { IfErr result (EndCause self.old before.now) }
    {
        let Some(status) = self.status(before) else {
            if let Some(entry) = after {
                entry.release(inventory);
            }
            return Err(refusal(self.committed.alloc));
        };
        match status {
            SegmentsStatus::Uncommitted => {
                replace_each(&mut self.uncommitted.segments, before, after, inventory)?
            }
            SegmentsStatus::Committed => {
                replace_each(&mut self.committed.segments, before, after, inventory)?
            }
        }
        Ok(status)
    }

    /// A share of what is known of each committed segment that has living documents, in the order
    /// of the ids. The others go out, and their shares are given back.
    pub fn committed_segment_metas(
        &mut self,
        inventory: &mut SegmentMetaInventory,
    ) -> Result<Vec<SegmentMeta>, TantivyError>
        ensures metas { IfOk result
            (λ metas. metas.items ≡ metas_in (living_in self.old.committed)) }
        ensures ok { OnOk result
            (self.new ≡ record self.old { committed = living_in self.old.committed }) }
        ensures shares { OnOk result
            (option_map (releases (tickets_in (empty_in self.old.committed)))
            (shared (tickets_in (living_in self.old.committed)) inventory.old)
            ≡ Some inventory.new) }
        ensures err { OnErr result ((self.new ≡ self.old) × (inventory.new ≡ inventory.old)) }
        ensures cause { IfErr result
            (ShareCause (tickets_in (living_in self.old.committed)) inventory.old) }
    {
        self.committed.keep_living(inventory)
    }

    // Which register has all of these ids. Where both have, it is that of those that aren't
    // committed.
    fn status(&self, ids: &[SegmentId]) -> Option<SegmentsStatus>
        ensures { result ≡ status_of self.now ids.now }
    {
        if self.uncommitted.contains_all(ids) {
            Some(SegmentsStatus::Uncommitted)
        } else if self.committed.contains_all(ids) {
            Some(SegmentsStatus::Committed)
        } else {
            None
        }
    }
}

// Why the segments can't be merged.
fn refusal(alloc: Global) -> TantivyError
    ensures { RefusesMerge (Unit {0}) ⊥ result }
{
    let why = "the segments of a merge are neither all uncommitted nor all committed";
    match String::from_str(alloc, why) {
        Ok(text) => TantivyError::InvalidArgument(text),
        Err(_) => TantivyError::Memory,
    }
}
