//! Laws on which a user of this crate may rely. Each function makes the calls of which it speaks;
//! its contract is the law.
ghost use Rattle.std.specs.Prelude.{◌≡◌, ◌≢◌, ◌<◌, [], ℕ, List, None, Some, true, false, All, Contains, IfOk, OnErr, OnOk, find, is_some, map};
ghost use Rattle.tv_base.specs.Entries.{is_numbered, released};
ghost use Rattle.tv_formats.specs.Names.{at, has, is};
ghost use Rattle.tv_formats.specs.Segments.{num_docs};
ghost use Rattle.tv_registers.specs.Managers.{register_of};
ghost use Rattle.tv_registers.specs.Registers.{EntryState, entries_at, given_back, has_all, id_of, ticket_of};

use crate::merge_operation::{MergeOperation, MergeOperationInventory};
use crate::segment_entry::SegmentEntry;
use crate::segment_manager::SegmentManager;
use crate::segment_register::SegmentRegister;
use crate::segments_status::SegmentsStatus;
use tv_base::{Opstamp, TantivyError};
use tv_formats::{Memory, SegmentId};
use tv_metas::{SegmentMeta, SegmentMetaInventory};

/// Where both registers have all segments of a merge, it takes the uncommitted ones.
pub fn starts_with_uncommitted_segments(
    manager: &SegmentManager,
    ids: &[SegmentId],
    inventory: &mut SegmentMetaInventory,
) -> Result<Vec<SegmentEntry>, TantivyError>
    ensures { has_all manager.now.uncommitted ids.now ≡ true
        → IfOk result (λ entries. entries.items ≡ entries_at manager.now.uncommitted ids.now) }
{
    manager.start_merge(ids, inventory)
}

/// Where both registers have all segments of a merge, it ends in that of the uncommitted ones, and
/// the committed ones stay.
pub fn ends_among_uncommitted_segments(
    manager: &mut SegmentManager,
    before: &[SegmentId],
    after: Option<SegmentEntry>,
    inventory: &mut SegmentMetaInventory,
) -> Result<SegmentsStatus, TantivyError>
    ensures status { has_all manager.old.uncommitted before.now ≡ true
        → IfOk result (λ status. status ≡ SegmentsStatus.Uncommitted) }
    ensures stays { has_all manager.old.uncommitted before.now ≡ true
        → OnOk result (manager.new.committed ≡ manager.old.committed) }
{
    manager.end_merge(before, after, inventory)
}

/// A merge that ends without a segment leaves none of its ids.
pub fn takes_every_merged_segment_out(
    manager: &mut SegmentManager,
    before: &[SegmentId],
    inventory: &mut SegmentMetaInventory,
) -> Result<SegmentsStatus, TantivyError>
    ensures { IfOk result (λ status. (id : List ℕ) → has before.now id ≡ true
        → at (register_of status manager.new) id ≡ None) }
{
    manager.end_merge(before, None, inventory)
}

/// A merge that ends with a segment leaves it under its id, and none of the other ids.
pub fn puts_one_segment_in_place_of_others(
    manager: &mut SegmentManager,
    before: &[SegmentId],
    after: SegmentEntry,
    inventory: &mut SegmentMetaInventory,
) -> Result<SegmentsStatus, TantivyError>
    ensures there { IfOk result
        (λ status. at (register_of status manager.new) (id_of after) ≡ Some after) }
    ensures gone { IfOk result (λ status. (id : List ℕ) → has before.now id ≡ true
        → is (id_of after) id ≡ false → at (register_of status manager.new) id ≡ None) }
{
    manager.end_merge(before, Some(after), inventory)
}

/// A merge that is refused changes no register, and gives the share of its segment back.
pub fn refuses_a_merge_with_no_change(
    manager: &mut SegmentManager,
    before: &[SegmentId],
    after: Option<SegmentEntry>,
    inventory: &mut SegmentMetaInventory,
) -> Result<SegmentsStatus, TantivyError>
    ensures registers { OnErr result (manager.new ≡ manager.old) }
    ensures share { OnErr result (inventory.new ≡ given_back after inventory.old) }
{
    manager.end_merge(before, after, inventory)
}

/// What is shown of a commit has living documents, and each committed segment that has some is
/// shown.
pub fn shows_living_segments(
    manager: &mut SegmentManager,
    inventory: &mut SegmentMetaInventory,
) -> Result<Vec<SegmentMeta>, TantivyError>
    ensures living { IfOk result (λ metas. All (λ m. 0 < num_docs m.1.1) metas.items) }
    ensures each { IfOk result (λ metas. (id : List ℕ) (entry : EntryState)
        → at manager.old.committed id ≡ Some entry → 0 < num_docs entry.meta.1.1
        → Contains metas.items entry.meta) }
{
    manager.committed_segment_metas(inventory)
}

/// After a commit exactly the segments of these ids are committed, and none is uncommitted.
pub fn commits_these_segments_alone(
    manager: &mut SegmentManager,
    entries: Vec<SegmentEntry>,
    inventory: &mut SegmentMetaInventory,
) -> Result<(), Memory>
    ensures ids { OnOk result ((id : List ℕ)
        → is_some (at manager.new.committed id) ≡ has (map id_of entries.items) id) }
    ensures none { OnOk result (manager.new.uncommitted ≡ []) }
{
    manager.commit(entries, inventory)
}

/// A segment that is given back leaves the counts of the others.
pub fn gives_one_share_back(entry: SegmentEntry, inventory: &mut SegmentMetaInventory)
    ensures { (number : ℕ) → number ≢ ticket_of entry
        → find (is_numbered number) inventory.new ≡ find (is_numbered number) inventory.old }
{
    entry.release(inventory);
}

/// A segment that comes into a register which lacks its id, and goes out again, has one share less.
pub fn counts_a_segment_that_comes_and_goes(
    register: &mut SegmentRegister,
    entry: SegmentEntry,
    inventory: &mut SegmentMetaInventory,
) -> Result<(), Memory>
    ensures { at register.old (id_of entry) ≡ None
        → inventory.new ≡ released (ticket_of entry) inventory.old }
{
    let id = entry.segment_id();
    register.add_segment_entry(entry, inventory)?;
    register.remove_segment(&id, inventory);
    Ok(())
}

/// A merge that is given back leaves the others under way.
pub fn ends_one_merge_alone(op: MergeOperation, merges: &mut MergeOperationInventory)
    ensures { (number : ℕ) → number ≢ op.number
        → find (is_numbered number) merges.new.entries
        ≡ find (is_numbered number) merges.old.entries }
{
    merges.release(op);
}

/// A merge that is started and given back leaves no segment in a merge that wasn't in one before.
pub fn ends_a_merge_whole(
    merges: &mut MergeOperationInventory,
    target_opstamp: Opstamp,
    segment_ids: Vec<SegmentId>,
) -> Result<(), Memory>
    ensures { OnOk result (merges.new.entries ≡ merges.old.entries) }
{
    let op = MergeOperation::new(merges, target_opstamp, segment_ids)?;
    merges.release(op);
    Ok(())
}
