//! What a writer knows of one segment.
ghost use Rattle.std.specs.Prelude.{◌≡◌, length};

use std::alloc::Global;
use std::collections::BTreeSet;
use std::process::Abort;
use tv_index::{SegmentId, SegmentMeta, SegmentMetaInventory};
use tv_registers::{BitSet, DeleteCursor, SegmentEntry, SegmentRegister};

fn id_of(last: u8) -> SegmentId {
    SegmentId::from_bytes([0, 0, 0, 0, 0, 0, 0, 0, 0, 0, 0, 0, 0, 0, 0, last])
}

fn meta_of<R: Abort>(rt: &R, inventory: &mut SegmentMetaInventory, last: u8) -> SegmentMeta {
    inventory
        .new_segment_meta(id_of(last), 3)
        .expect(rt, "memory")
}

// No numbers, of three.
fn set_of_three<R: Abort>(rt: &R, alloc: Global) -> BitSet
    ensures { length result ≡ 3 }
{
    BitSet::with_max_value(alloc, 3).expect(rt, "memory")
}

// Numbers come into a set and go out of it.
fn holds_numbers<R: Abort>(rt: &R, set: &mut BitSet)
    requires { length set.old ≡ 3 }
{
    set.insert(1);
    set.insert(2);
    set.remove(2);
    assert!(rt; set.contains(1));
    assert!(rt; !set.contains(2));
    assert_eq!(rt; set.len(), 1);
}

#[test]
fn numbers_are_in_a_set_until_they_are_removed(rt: HostRuntime) {
    let mut set = set_of_three(&rt, rt.alloc());
    holds_numbers(&rt, &mut set);
}

// Looks whether it is known that no document is alive.
fn knows_none<R: Abort>(rt: &R, entry: &SegmentEntry) {
    let alive = entry.alive_bitset().expect(rt, "a set");
    assert_eq!(rt; alive.len(), 0);
}

// An entry is shared, changed and given back.
fn is_shared<R: Abort>(rt: &R, inventory: &mut SegmentMetaInventory, mut entry: SegmentEntry) {
    let share = entry.share(inventory).expect(rt, "memory");
    *entry.delete_cursor() = DeleteCursor(7);
    let other = meta_of(rt, inventory, 2);
    entry.set_meta(other, inventory);
    assert!(rt; entry.meta().id() == id_of(2));
    assert!(rt; share.segment_id() == id_of(1));
    knows_none(rt, &share);
    share.release(inventory);
    assert!(rt; !inventory.has_id(id_of(1)));
    entry.release(inventory);
    assert!(rt; !inventory.has_id(id_of(2)));
}

#[test]
fn a_segment_is_kept_as_long_as_it_has_shares(rt: HostRuntime) {
    let alloc = rt.alloc();
    let mut inventory = SegmentMetaInventory::new(alloc);
    let meta = meta_of(&rt, &mut inventory, 1);
    let entry = SegmentEntry::new(meta, DeleteCursor(0), Some(set_of_three(&rt, alloc)));
    is_shared(&rt, &mut inventory, entry);
}

// Looks whether the only segment of a register is found.
fn finds_one<R: Abort>(
    rt: &R,
    alloc: Global,
    register: &SegmentRegister,
    inventory: &mut SegmentMetaInventory,
) {
    assert!(rt; register.contains_all(&[id_of(1)]));
    assert!(rt; !register.contains_all(&[id_of(1), id_of(2)]));
    assert!(rt;
        register
            .get(&id_of(1), inventory)
            .expect(rt, "memory")
            .is_some()
    );
    let entries = register.segment_entries(inventory).expect(rt, "memory");
    assert_eq!(rt; entries.len(), 1);
    let none = BTreeSet::new(alloc);
    let metas = register
        .get_mergeable_segments(&none, inventory)
        .expect(rt, "memory");
    assert_eq!(rt; metas.len(), 1);
}

#[test]
fn a_register_is_cleared(rt: HostRuntime) {
    let alloc = rt.alloc();
    let mut inventory = SegmentMetaInventory::new(alloc);
    let mut metas = Vec::new(alloc);
    metas
        .push(meta_of(&rt, &mut inventory, 1))
        .expect(&rt, "memory");
    let made = SegmentRegister::new(alloc, metas, &DeleteCursor(0));
    let mut register = made.expect(&rt, "memory");
    finds_one(&rt, alloc, &register, &mut inventory);
    register.clear(&mut inventory);
    assert!(rt; !register.contains_all(&[id_of(1)]));
}
