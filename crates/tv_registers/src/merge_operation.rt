//! Merges that are under way.
ghost use Rattle.std.specs.Prelude.{◌≡◌, ◌||◌, [], ℕ, List, IfOk, None, OnErr, OnOk, find};
ghost use Rattle.std.specs.List.{list_any};
ghost use Rattle.tv_base.specs.Entries.{is_numbered, released};
ghost use Rattle.tv_formats.specs.Names.{has};
ghost use Rattle.tv_registers.specs.Merges.{is_in_merge, started};

use std::alloc::Global;
use std::collections::BTreeSet;
use std::marker::Model;
use tv_base::{Inventory, Opstamp, Ticket};
use tv_formats::{Memory, SegmentId};

/// The segments of a merge, in their order. To a contract it is the list of their ids.
#[derive(Drop)]
struct MergedIds {
    ids: Vec<SegmentId>,
}

impl Model for MergedIds {
    ghost use Rattle.std.specs.Prelude.{ℕ, List};

    ghost Value = { List (List ℕ) };

    ghost view = { λ a. a.ids.items };
}

/// A merge that is under way. To a contract it is the record of its number among the merges, its
/// stamp and the ids of its segments.
#[derive(Drop)]
pub struct MergeOperation {
    ticket: Ticket,
    target_opstamp: Opstamp,
    segment_ids: Vec<SegmentId>,
}

impl Model for MergeOperation {
    ghost use Rattle.tv_registers.specs.Merges.{MergeState};

    ghost Value = { MergeState };

    ghost view = { λ a. record {
      number = a.ticket;
      target_opstamp = a.target_opstamp;
      segment_ids = a.segment_ids.items;
    } };
}

/// The merges that are under way. To a contract it is the list of them by their numbers, and the
/// number that the next one gets.
#[derive(Drop)]
pub struct MergeOperationInventory {
    alloc: Global,
    merges: Inventory<MergedIds>,
}

impl Model for MergeOperationInventory {
    ghost use Rattle.tv_registers.specs.Merges.{MergesState};

    ghost Value = { MergesState };

    ghost view = { λ a. a.merges };
}

impl MergeOperationInventory {
    /// No merges. Takes no memory.
    pub fn new(alloc: Global) -> MergeOperationInventory
        ensures empty { result ≡ record { next = 0; entries = [] } }
    {
        MergeOperationInventory {
            alloc,
            merges: Inventory::new(alloc),
        }
    }

    /// The ids of all segments that are in a merge.
    pub fn segment_in_merge(&self) -> Result<BTreeSet<SegmentId>, Memory>
        ensures { IfOk result (λ ids. (id : List ℕ) → has ids.keys id ≡ is_in_merge self.now id) }
    {
        let mut all = BTreeSet::new(self.alloc);
        for entry in self.merges.entries() {
            put_all(&mut all, entry.value.ids.as_slice())?;
        }
        Ok(all)
    }

    /// Ends a merge: its segments aren't in it any more. Takes no memory.
    pub fn release(&mut self, op: MergeOperation)
        ensures { self.new ≡ record self.old { entries = released op.number self.old.entries } }
    {
        self.merges.release(op.ticket);
    }
}

impl MergeOperation {
    /// Starts a merge of these segments, into one of this stamp. Where memory is wanted, nothing
    /// changes.
    pub fn new(
        inventory: &mut MergeOperationInventory,
        target_opstamp: Opstamp,
        segment_ids: Vec<SegmentId>,
    ) -> Result<MergeOperation, Memory>
        ensures merge { IfOk result (λ op. op ≡ record {
          number = inventory.old.next;
          target_opstamp = target_opstamp;
          segment_ids = segment_ids.items;
        }) }
        ensures fresh { IfOk result
            (λ op. find (is_numbered op.number) inventory.old.entries ≡ None) }
        ensures ok { OnOk result (inventory.new ≡ started segment_ids.items inventory.old) }
        ensures err { OnErr result (inventory.new ≡ inventory.old) }
    {
        let ids = segment_ids.as_slice().to_vec(inventory.alloc)?;
        let ticket = inventory.merges.track(MergedIds { ids })?;
        Ok(MergeOperation {
            ticket,
            target_opstamp,
            segment_ids,
        })
    }

    /// The stamp of the segment that the merge makes. Takes no memory.
    pub fn target_opstamp(&self) -> Opstamp
        ensures { result ≡ self.now.target_opstamp }
    {
        self.target_opstamp
    }

    /// The ids of its segments. Takes no memory.
    pub fn segment_ids(&self) -> &[SegmentId]
        ensures { result.now ≡ self.now.segment_ids }
    {
        self.segment_ids.as_slice()
    }
}

// Puts ids into a set.
fn put_all(all: &mut BTreeSet<SegmentId>, ids: &[SegmentId]) -> Result<(), Memory>
    ensures { OnOk result ((id : List ℕ)
        → has all.new.keys id ≡ (has all.old.keys id || has ids.now id)) }
{
    for id in ids {
        all.insert(*id)?;
    }
    Ok(())
}
