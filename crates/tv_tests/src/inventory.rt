//! Values that are kept as long as a ticket of theirs is out.
use std::process::Abort;
use tv_base::{Inventory, Visit};

#[derive(Clone, Copy, PartialEq, Eq)]
struct Letter(char);

impl Visit for Letter {
    ghost visited = { λ _ _. Unit {0} };

    fn visit(&mut self) {
        self.0.make_ascii_uppercase();
    }
}

// Looks whether these are the values.
fn lists<R: Abort>(rt: &R, inventory: &Inventory<Letter>, want: &[&Letter]) {
    let values = inventory.list().expect(rt, "memory");
    assert!(rt; values.as_slice() == want);
}

// Both values are there as long as each has a ticket, then the other one alone, and then none.
fn keeps_values<R: Abort>(rt: &R, inventory: &mut Inventory<Letter>) {
    let first = inventory.track(Letter('x')).expect(rt, "memory");
    let second = inventory.track(Letter('y')).expect(rt, "memory");
    let shared = inventory.share(&first).expect(rt, "few tickets");
    inventory.release(first);
    lists(rt, inventory, &[&Letter('x'), &Letter('y')]);
    inventory.visit_all();
    lists(rt, inventory, &[&Letter('X'), &Letter('Y')]);
    inventory.release(shared);
    lists(rt, inventory, &[&Letter('Y')]);
    inventory.release(second);
    lists(rt, inventory, &[]);
    // A ticket that is dropped isn't given back.
    inventory.track(Letter('z')).expect(rt, "memory");
    lists(rt, inventory, &[&Letter('z')]);
}

#[test]
fn tickets_keep_their_values(rt: HostRuntime) {
    let mut inventory = Inventory::new(rt.alloc());
    keeps_values(&rt, &mut inventory);
}

#[test]
#[tactic(auto, using(crate::proofs::Found::last_found))]
fn a_ticket_has_its_value(rt: HostRuntime) {
    let mut inventory = Inventory::new(rt.alloc());
    let ticket = inventory.track('y').expect(&rt, "memory");
    assert!(rt; *inventory.get(&ticket) == 'y');
}
