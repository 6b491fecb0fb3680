//! Segments of a writer, and merges.
use std::alloc::Global;
use std::collections::BTreeSet;
use std::process::Abort;
use tv_base::TantivyError;
use tv_index::{SegmentId, SegmentMeta, SegmentMetaInventory};
use tv_registers::{
    BitSet, DeleteCursor, MergeOperation, MergeOperationInventory, SegmentEntry, SegmentManager,
    SegmentRegister, SegmentsStatus,
};

const A: u8 = 0xa5;

const B: u8 = 1;

const C: u8 = 2;

fn id_of(last: u8) -> SegmentId {
    SegmentId::from_bytes([0, 0, 0, 0, 0, 0, 0, 0, 0, 0, 0, 0, 0, 0, 0, last])
}

fn meta_of<R: Abort>(rt: &R, inventory: &mut SegmentMetaInventory, last: u8) -> SegmentMeta {
    inventory
        .new_segment_meta(id_of(last), 3)
        .expect(rt, "memory")
}

fn entry_of<R: Abort>(rt: &R, inventory: &mut SegmentMetaInventory, last: u8) -> SegmentEntry {
    SegmentEntry::new(meta_of(rt, inventory, last), DeleteCursor(0), None)
}

// Looks whether these are the ids.
fn are_ids<R: Abort>(rt: &R, ids: &[SegmentId], want: &[u8]) {
    assert_eq!(rt; ids.len(), want.len());
    for (id, last) in ids.iter().zip(want) {
        assert!(rt; *id == id_of(*last));
    }
}

// Looks whether these are the segments.
fn are_metas<R: Abort>(rt: &R, metas: &[SegmentMeta], want: &[u8]) {
    assert_eq!(rt; metas.len(), want.len());
    for (meta, last) in metas.iter().zip(want) {
        assert!(rt; meta.id() == id_of(*last));
    }
}

// Looks whether the register has these ids.
fn has_ids<R: Abort>(rt: &R, register: &SegmentRegister, want: &[u8]) {
    let ids = register.segment_ids().expect(rt, "memory");
    are_ids(rt, ids.as_slice(), want);
}

// Puts a segment into the register.
fn add<R: Abort>(
    rt: &R,
    register: &mut SegmentRegister,
    inventory: &mut SegmentMetaInventory,
    last: u8,
) {
    let entry = entry_of(rt, inventory, last);
    register
        .add_segment_entry(entry, inventory)
        .expect(rt, "memory");
}

// Looks whether a segment isn't in the register, and the shares of the others are these.
fn has_but<R: Abort>(
    rt: &R,
    register: &SegmentRegister,
    inventory: &mut SegmentMetaInventory,
    last: u8,
    others: &[u8],
) {
    let found = register.get(&id_of(last), inventory).expect(rt, "memory");
    assert!(rt; found.is_none());
    let metas = register.segment_metas(inventory).expect(rt, "memory");
    are_metas(rt, metas.as_slice(), others);
}

#[test]
fn segments_come_into_a_register_and_go_out(rt: HostRuntime) {
    let alloc = rt.alloc();
    let mut inventory = SegmentMetaInventory::new(alloc);
    let made = SegmentRegister::new(alloc, Vec::new(alloc), &DeleteCursor(0));
    let mut register = made.expect(&rt, "memory");
    add(&rt, &mut register, &mut inventory, A);
    has_ids(&rt, &register, &[A]);
    add(&rt, &mut register, &mut inventory, B);
    has_ids(&rt, &register, &[B, A]);
    register.remove_segment(&id_of(A), &mut inventory);
    register.remove_segment(&id_of(B), &mut inventory);
    has_ids(&rt, &register, &[]);
    add(&rt, &mut register, &mut inventory, C);
    has_ids(&rt, &register, &[C]);
    has_but(&rt, &register, &mut inventory, A, &[C]);
}

// Starts a merge of segments that aren't all in one register.
fn starts_none<R: Abort>(
    rt: &R,
    manager: &SegmentManager,
    inventory: &mut SegmentMetaInventory,
    ids: &[SegmentId],
) {
    let refused = manager.start_merge(ids, inventory);
    assert!(rt; matches!(refused, Err(TantivyError::InvalidArgument(_))));
}

// Starts a merge of no segments.
fn starts_empty<R: Abort>(rt: &R, manager: &SegmentManager, inventory: &mut SegmentMetaInventory) {
    let entries = manager.start_merge(&[], inventory).expect(rt, "memory");
    assert!(rt; entries.is_empty());
}

#[test]
fn a_merge_ends_in_the_register_of_its_segments(rt: HostRuntime) {
    let alloc = rt.alloc();
    let mut inventory = SegmentMetaInventory::new(alloc);
    let mut metas = Vec::new(alloc);
    metas
        .push(meta_of(&rt, &mut inventory, A))
        .expect(&rt, "memory");
    let made = SegmentManager::from_segments(alloc, metas, &DeleteCursor(0));
    let mut manager = made.expect(&rt, "memory");
    let added = entry_of(&rt, &mut inventory, B);
    manager
        .add_segment(added, &mut inventory)
        .expect(&rt, "memory");
    starts_empty(&rt, &manager, &mut inventory);
    starts_none(&rt, &manager, &mut inventory, &[id_of(A), id_of(B)]);
    let merged = entry_of(&rt, &mut inventory, C);
    let status = manager
        .end_merge(&[id_of(B)], Some(merged), &mut inventory)
        .expect(&rt, "memory");
    assert_eq!(rt; status, SegmentsStatus::Uncommitted);
    let committed = manager
        .committed_segment_metas(&mut inventory)
        .expect(&rt, "memory");
    are_metas(&rt, committed.as_slice(), &[A]);
}

// Looks whether these segments are in a merge.
fn are_in_merge<R: Abort>(rt: &R, operations: &MergeOperationInventory, want: &[u8]) {
    let ids = operations.segment_in_merge().expect(rt, "memory");
    assert_eq!(rt; ids.len(), want.len());
    for last in want {
        assert!(rt; ids.contains(&id_of(*last)));
    }
}

// The ids of these.
fn ids_of<R: Abort>(rt: &R, alloc: Global, lasts: &[u8]) -> Vec<SegmentId> {
    let mut ids = Vec::new(alloc);
    for last in lasts {
        ids.push(id_of(*last)).expect(rt, "memory");
    }
    ids
}

#[test]
fn segments_are_in_a_merge_until_it_is_released(rt: HostRuntime) {
    let alloc = rt.alloc();
    let mut operations = MergeOperationInventory::new(alloc);
    let first = MergeOperation::new(&mut operations, 7, ids_of(&rt, alloc, &[A, B])).expect(
        &rt, "memory",
    );
    let second = MergeOperation::new(&mut operations, 8, ids_of(&rt, alloc, &[C])).expect(
        &rt, "memory",
    );
    assert_eq!(rt; first.target_opstamp(), 7);
    are_ids(&rt, first.segment_ids(), &[A, B]);
    are_in_merge(&rt, &operations, &[A, B, C]);
    operations.release(first);
    are_in_merge(&rt, &operations, &[C]);
    assert_eq!(rt; second.target_opstamp(), 8);
}

// All segments go, and what is committed comes in their place.
fn commits_one<R: Abort>(
    rt: &R,
    alloc: Global,
    manager: &mut SegmentManager,
    inventory: &mut SegmentMetaInventory,
) {
    let mut entries = Vec::new(alloc);
    entries
        .push(entry_of(rt, inventory, C))
        .expect(rt, "memory");
    manager.commit(entries, inventory).expect(rt, "memory");
    assert!(rt; !inventory.has_id(id_of(A)));
    assert!(rt; inventory.has_id(id_of(C)));
}

// Gives shares back.
fn give_back(inventory: &mut SegmentMetaInventory, metas: Vec<SegmentMeta>) {
    for meta in metas {
        inventory.release(meta);
    }
}

// Looks whether these can be merged: of the committed ones, and of the others.
fn can_be_merged<R: Abort>(
    rt: &R,
    manager: &SegmentManager,
    inventory: &mut SegmentMetaInventory,
    in_merge: &BTreeSet<SegmentId>,
    want: (&[u8], &[u8]),
) {
    let found = manager
        .get_mergeable_segments(in_merge, inventory)
        .expect(rt, "memory");
    are_metas(rt, found.0.as_slice(), want.0);
    are_metas(rt, found.1.as_slice(), want.1);
    give_back(inventory, found.0);
    give_back(inventory, found.1);
}

// Looks whether these are all segments.
fn are_all<R: Abort>(
    rt: &R,
    manager: &SegmentManager,
    inventory: &mut SegmentMetaInventory,
    want: &[u8],
) {
    let entries = manager.segment_entries(inventory).expect(rt, "memory");
    assert_eq!(rt; entries.len(), want.len());
    for (entry, last) in entries.as_slice().iter().zip(want) {
        assert!(rt; entry.segment_id() == id_of(*last));
    }
}

// A manager of one committed segment, and of another one that isn't.
fn manager_of_two<R: Abort>(
    rt: &R,
    alloc: Global,
    inventory: &mut SegmentMetaInventory,
) -> SegmentManager {
    let mut metas = Vec::new(alloc);
    metas.push(meta_of(rt, inventory, A)).expect(rt, "memory");
    let made = SegmentManager::from_segments(alloc, metas, &DeleteCursor(0));
    let mut manager = made.expect(rt, "memory");
    let added = entry_of(rt, inventory, B);
    manager.add_segment(added, inventory).expect(rt, "memory");
    manager
}

#[test]
fn a_commit_takes_the_place_of_all_segments(rt: HostRuntime) {
    let alloc = rt.alloc();
    let mut inventory = SegmentMetaInventory::new(alloc);
    let mut manager = manager_of_two(&rt, alloc, &mut inventory);
    let mut in_merge = BTreeSet::new(alloc);
    can_be_merged(&rt, &manager, &mut inventory, &in_merge, (&[A], &[B]));
    in_merge.insert(id_of(A)).expect(&rt, "memory");
    can_be_merged(&rt, &manager, &mut inventory, &in_merge, (&[], &[B]));
    commits_one(&rt, alloc, &mut manager, &mut inventory);
    are_all(&rt, &manager, &mut inventory, &[C]);
    manager.remove_all_segments(&mut inventory);
    are_all(&rt, &manager, &mut inventory, &[]);
}
