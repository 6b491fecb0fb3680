//! Values that are kept as long as a ticket of theirs is out.
ghost use Rattle.std.specs.Prelude.{◌≡◌, ◌<◌, ◌+◌, ℕ, [], ◌↔◌, None, true, All, IfOk, IfSome, IsSome, IsErr, OnOk, OnErr, MatchOption, find, map, position, vec_len};
ghost use Rattle.std.specs.List.{AllZip, list_any};
ghost use Rattle.std.specs.Option.{IsSomeAnd};
ghost use Rattle.tv_base.specs.Entries.{IsFull, is_full, is_last, is_numbered, one_more, released, tracked};
ghost use Rattle.std.specs.Map.{values_of};
ghost use Rattle.std.specs.Map.Iter.{ShowsInOrder, deref};
ghost use Rattle.std.specs.Option.{option_copied};
ghost use Rattle.tv_base.specs.Keyed.{counted, keyed};
ghost use Rattle.tv_base.specs.Places.{change_at};
ghost use Rattle.tv_base.specs.Visits.{IsVisited};

use crate::exhausted::Exhausted;
use std::alloc::Global;
use std::collections::BTreeMap;
use std::collections::btree_map::Values;
use std::marker::Model;
use tv_formats::Memory;

/// What can be visited.
pub trait Visit {
    /// What a visit may do to it: before, and after.
    ghost visited: { Self → Self → Type 0 };

    /// Visits it once.
    fn visit(&mut self)
        ensures visited { visited self.old self.new };
}

/// A share of one value of an inventory. To a contract it is the value's number.
#[derive(Drop)]
pub struct Ticket {
    number: u64,
}

impl Model for Ticket {
    ghost use Rattle.std.specs.Prelude.{ℕ};

    ghost Value = { ℕ };

    ghost view = { λ t. t.number };

    ghost inverse = { λ number. record { number = number } };
}

impl Ticket {
    /// The ticket of this number. It isn't counted by any inventory.
    pub fn new(number: u64) -> Ticket
        ensures number { result ≡ number }
    {
        Ticket { number }
    }

    /// The number of the value.
    pub fn number(&self) -> u64
        ensures number { result ≡ self.now }
    {
        self.number
    }
}

/// A value, its number, and how many tickets of it are out.
#[derive(Drop)]
pub struct Entry<T> {
    /// Its number, which no other value of the inventory has or had: it is below the number of the
    /// next value, and that only rises.
    pub number: u64,
    /// How many tickets of it are out, at least one.
    pub count: u64,
    /// The value.
    pub value: T,
}

/// Values in the order in which they were tracked. To a contract it is the list of its entries, and
/// the number that the next value gets.
#[derive(Drop)]
pub struct Inventory<T> {
    alloc: Global,
    next: u64,
    // Numbers rise, so the order of the keys is that of tracking.
    entries: BTreeMap<u64, Entry<T>>,
}

impl<T> Model for Inventory<T> {
    ghost use Rattle.std.specs.Prelude.{◌≡◌, ◌<◌, All};
    ghost use Rattle.std.specs.Map.{values_of};
    ghost use Rattle.tv_base.specs.Entries.{InventoryState};
    ghost use Rattle.tv_base.specs.Keyed.{keyed};

    ghost Value = { InventoryState T };

    ghost view = { λ a. record { next = a.next; entries = values_of a.entries.entries } };

    ghost invariant = { λ a. (a.entries.entries ≡ keyed (values_of a.entries.entries))
        × All (λ e. e.number < a.next) (values_of a.entries.entries) };
}

impl<T> Inventory<T> {
    /// No values. Takes no memory.
    pub fn new(alloc: Global) -> Inventory<T>
        ensures empty { result ≡ record { next = 0; entries = [] } }
    {
        Inventory {
            alloc,
            next: 0,
            entries: BTreeMap::new(alloc),
        }
    }
}

impl<T: Drop> Inventory<T> {
    /// Takes a value in, and answers its first ticket, with the next number, which no value has or
    /// had. Where memory is wanted, or no number is left, nothing changes and the value is dropped.
    pub fn track(&mut self, value: T) -> Result<Ticket, Memory>
        ensures next { IfOk result (λ ticket. ticket ≡ self.old.next) }
        ensures fresh { IfOk result (λ ticket. find (is_numbered ticket) self.old.entries ≡ None) }
        ensures ok { IfOk result (λ ticket. self.new ≡ record {
          next = ticket + 1;
          entries = tracked ticket value self.old.entries;
        }) }
        ensures err { OnErr result (self.new ≡ self.old) }
    {
        let number = self.next;
        if number == u64::MAX {
            return Err(Memory);
        }
        put_last(&mut self.entries, number, value)?;
        self.next = number + 1;
        Ok(Ticket { number })
    }

    /// One more ticket of the same number, unless as many are out as can be counted. A ticket of no
    /// entry has a further one without effect. Takes no memory.
    pub fn share(&mut self, t: &Ticket) -> Result<Ticket, Exhausted>
        ensures number { IfOk result (λ other. other ≡ t.now) }
        ensures ok { OnOk result (self.new ≡ record self.old {
          entries = change_at (is_numbered t.now) one_more self.old.entries;
        }) }
        ensures err { OnErr result (self.new ≡ self.old) }
        ensures full { IsErr result ↔ IsSomeAnd (find (is_numbered t.now) self.old.entries) IsFull }
    {
        count_more(&mut self.entries, t.number)?;
        Ok(Ticket::new(t.number))
    }

    /// The value of a ticket.
    pub fn get(&self, t: &Ticket) -> &T
        requires here { IsSome (find (is_numbered t.now) self.now.entries) }
        ensures value { IfSome (find (is_numbered t.now) self.now.entries)
            (λ e. result.now ≡ e.value) }
    {
        let Some(entry) = find_entry(&self.entries, t.number) else {
            unreachable!()
        };
        &entry.value
    }

    /// Gives a ticket back. With the last one the value is dropped; its number isn't given again. A
    /// ticket of no entry is dropped without effect. Takes no memory.
    pub fn release(&mut self, t: Ticket)
        ensures released { self.new ≡ record self.old { entries = released t self.old.entries } }
    {
        count_less(&mut self.entries, t.number);
    }

    /// The values, in the order in which they were tracked.
    pub fn list(&self) -> Result<Vec<&T>, Memory>
        ensures values { IfOk result
            (λ values. map (λ v. v.now) values.items ≡ map (λ e. e.value) self.now.entries) }
    {
        let mut values = Vec::new(self.alloc);
        for e in self.entries.values() {
            values.push(&e.value)?;
        }
        Ok(values)
    }

    /// The values with their numbers, and how many tickets of each are out, in the order in which
    /// they were tracked. Each number is below the next one. Takes no memory.
    pub fn entries(&self) -> Values<'_, u64, Entry<T>>
        ensures entries { result ≡ self.now.entries }
        ensures runs { ShowsInOrder (deref {X = Entry T}) }
        ensures below { All (λ e. e.number < self.now.next) self.now.entries }
    {
        self.entries.values()
    }

    /// One more ticket of each value is out. Where one has as many as can be counted, none has a
    /// further one. Takes no memory.
    pub fn share_all(&mut self) -> Result<(), Exhausted>
        ensures ok { OnOk result (self.new ≡ record self.old {
          entries = map one_more self.old.entries;
        }) }
        ensures err { OnErr result (self.new ≡ self.old) }
        ensures full { IsErr result ↔ (list_any is_full self.old.entries ≡ true) }
    {
        if has_full(&self.entries) {
            return Err(Exhausted);
        }
        count_each(&mut self.entries);
        Ok(())
    }
}

impl<T: Visit + Drop> Inventory<T> {
    /// Visits each value once, in the order in which they were tracked.
    pub fn visit_all(&mut self)
        ensures visited { AllZip (IsVisited T.visited) self.old.entries self.new.entries }
        ensures next { self.new.next ≡ self.old.next }
    {
        visit_entries(&mut self.entries);
    }
}

// The entry of a number, if there is one.
fn find_entry<T>(entries: &BTreeMap<u64, Entry<T>>, number: u64) -> Option<&Entry<T>>
    requires { entries.now.entries ≡ keyed (values_of entries.now.entries) }
    ensures { option_copied result ≡ find (is_numbered number) (values_of entries.now.entries) }
{
    entries.get(&number)
}

// Puts a value in under a number above all others. One share of it is out.
fn put_last<T: Drop>(
    entries: &mut BTreeMap<u64, Entry<T>>,
    number: u64,
    value: T,
) -> Result<(), Memory>
    requires keyed { entries.old.entries ≡ keyed (values_of entries.old.entries) }
    requires below { All (λ e. e.number < number) (values_of entries.old.entries) }
    ensures ok { OnOk result (entries.new.entries
        ≡ keyed (tracked number value (values_of entries.old.entries))) }
    ensures err { OnErr result (entries.new.entries ≡ entries.old.entries) }
{
    let entry = Entry {
        number,
        count: 1,
        value,
    };
    entries.insert(number, entry)?;
    Ok(())
}

// One share more of the entry of a number, if there is one.
fn count_more<T>(entries: &mut BTreeMap<u64, Entry<T>>, number: u64) -> Result<(), Exhausted>
    requires { entries.old.entries ≡ keyed (values_of entries.old.entries) }
    ensures ok { OnOk result (entries.new.entries
        ≡ keyed (change_at (is_numbered number) one_more (values_of entries.old.entries))) }
    ensures err { OnErr result (entries.new.entries ≡ entries.old.entries) }
    ensures full { IsErr result
        ↔ IsSomeAnd (find (is_numbered number) (values_of entries.old.entries)) IsFull }
{
    let Some(entry) = entries.get_mut(&number) else {
        return Ok(());
    };
    if entry.count == u64::MAX {
        return Err(Exhausted);
    }
    entry.count += 1;
    Ok(())
}

// Whether at most one share of the entry of a number is out.
fn has_last<T>(entries: &BTreeMap<u64, Entry<T>>, number: u64) -> bool
    requires { entries.now.entries ≡ keyed (values_of entries.now.entries) }
    ensures { result ≡ is_last (find (is_numbered number) (values_of entries.now.entries)) }
{
    match find_entry(entries, number) {
        Some(entry) => entry.count < 2,
        None => false,
    }
}

// One share less of the entry of a number, if there is one. With the last one it is dropped.
fn count_less<T: Drop>(entries: &mut BTreeMap<u64, Entry<T>>, number: u64)
    requires { entries.old.entries ≡ keyed (values_of entries.old.entries) }
    ensures { entries.new.entries ≡ keyed (released number (values_of entries.old.entries)) }
{
    if has_last(entries, number) {
        entries.remove(&number);
    } else if let Some(entry) = entries.get_mut(&number) {
        entry.count -= 1;
    }
}

// Whether one of the entries has as many shares as can be counted.
fn has_full<T>(entries: &BTreeMap<u64, Entry<T>>) -> bool
    ensures { result ≡ list_any is_full (values_of entries.now.entries) }
{
    entries.values().any(|e| e.count == u64::MAX)
}

// One share more of each entry, where it can be counted.
fn count_each<T: Drop>(entries: &mut BTreeMap<u64, Entry<T>>)
    ensures { entries.new.entries ≡ map (λ p. (p.0, counted p.1)) entries.old.entries }
{
    // All are retained: this is the walk through a map that tells what is written.
    entries.retain(|_, entry| {
        entry.count = entry.count.saturating_add(1);
        true
    });
}

// Visits each value once, in order.
fn visit_entries<T: Visit + Drop>(entries: &mut BTreeMap<u64, Entry<T>>)
    requires { entries.old.entries ≡ keyed (values_of entries.old.entries) }
    ensures keyed { entries.new.entries ≡ keyed (values_of entries.new.entries) }
    ensures visited { AllZip (IsVisited T.visited)
        (values_of entries.old.entries) (values_of entries.new.entries) }
{
    // All are retained: this is the walk through a map that tells what is written.
    entries.retain(|_, entry| {
        entry.value.visit();
        true
    });
}
