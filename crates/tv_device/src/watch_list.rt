//! Callbacks that are registered, in order of subscription.
ghost use Rattle.std.specs.Prelude.{◌≡◌, ℕ, ◌++◌, [], ◌∷◌, ◌↔◌, Some, None, Ok, false, true, find, map, IfOk, IfSome, IsErr, OnErr};
ghost use Rattle.std.specs.Option.{IsSomeAnd};
ghost use Rattle.tv_base.specs.Entries.{is_numbered, is_last};
ghost use Rattle.tv_device.specs.Watch.{called, called_once, delivered, has_number, subscribed, unsubscribed};
ghost use Rattle.tv_device.specs.WatchList.{CallsAll, released_by, seen, shared_by, watch_state_of};

use crate::watch::{WatchCall, WatchCallback, WatchHandle};
use std::alloc::Global;
use std::marker::Model;
use tv_base::{Exhausted, FutureResult, Inventory, Ticket, Visit};
use tv_formats::Memory;

/// A callback in an inventory. To visit it is to call it.
#[derive(Drop)]
pub(crate) struct Watcher<C> {
    pub callback: C,
}

impl<C: WatchCall> Visit for Watcher<C> {
    ghost visited = { λ a b. C.calls b.callback ≡ called (C.calls a.callback) };

    fn visit(&mut self) {
        self.callback.call();
    }
}

/// What a directory keeps of its watchers: who is registered, and whether a notice stands. For
/// those that implement `Directory`.
#[derive(Drop)]
pub struct Watchers<C> {
    list: Inventory<Watcher<C>>,
    notice: bool,
}

impl<C> Watchers<C> {
    /// Nobody, and no notice. Takes no memory.
    pub fn new(alloc: Global) -> Watchers<C>
        ensures nobody { (calls : C → ℕ)
            → watch_state_of calls result ≡ record { registered = []; notice = false } }
    {
        Watchers {
            list: Inventory::new(alloc),
            notice: false,
        }
    }

    /// A notice stands from now on.
    pub fn note(&mut self)
        ensures noted { (calls : C → ℕ) → watch_state_of calls self.new
            ≡ record (watch_state_of calls self.old) { notice = true } }
        ensures others { self.new ≡ record self.old { notice = true } }
    {
        self.notice = true;
    }
}

impl<C: WatchCall> Watchers<C> {
    /// Registers a callback under a number that nobody has. Where memory is wanted, it is dropped.
    pub fn watch(&mut self, callback: C) -> Result<WatchHandle, Memory>
        ensures ok { IfOk result (λ handle. (n : ℕ) × (handle ≡ Some n)
            × (find (has_number n) (watch_state_of C.calls self.old).registered ≡ None)
            × (watch_state_of C.calls self.new
            ≡ subscribed n (C.calls callback) (watch_state_of C.calls self.old))) }
        ensures err { OnErr result
            (watch_state_of C.calls self.new ≡ watch_state_of C.calls self.old) }
        ensures kept { OnErr result (self.new ≡ self.old) }
    {
        let ticket = self.list.track(Watcher { callback })?;
        Ok(WatchHandle::new(ticket.number()))
    }

    /// Gives a handle back; with the last one the callback goes. Takes no memory.
    pub fn unwatch(&mut self, handle: WatchHandle)
        ensures unsubscribed { watch_state_of C.calls self.new ≡ unsubscribed handle
            (watch_state_of C.calls self.old) }
    {
        if let Some(number) = handle.number() {
            self.list.release(Ticket::new(number));
        }
    }

    /// Where a notice stands, calls everybody once, and ends it. Answers whether one stood. Takes
    /// no memory.
    pub fn deliver(&mut self) -> bool
        ensures answer { result ≡ (watch_state_of C.calls self.old).notice }
        ensures delivered { watch_state_of C.calls self.new
            ≡ delivered (watch_state_of C.calls self.old) }
    {
        if !self.notice {
            return false;
        }
        call_all(&mut self.list);
        self.notice = false;
        true
    }
}

/// Callbacks in the order of their subscription. To a contract it is the list of its entries: the
/// number of each, how many handles of it are out, and the callback.
#[derive(Drop)]
pub struct CallbackList<C> {
    entries: Inventory<Watcher<C>>,
}

/// Boxes in the order of their subscription.
pub type WatchCallbackList = CallbackList<WatchCallback>;

impl<C> Model for CallbackList<C> {
    ghost use Rattle.std.specs.Prelude.{List};
    ghost use Rattle.tv_base.specs.declared.inventory.Entry.{Entry};
    ghost use Rattle.tv_device.specs.declared.watch_list.Watcher.{Watcher};
    ghost use Rattle.tv_device.specs.WatchList.{AreApart};

    ghost Value = { List (Entry (Watcher C)) };

    ghost view = { λ a. a.entries.entries };

    ghost invariant = { λ a. AreApart a.entries.entries };
}

impl<C> CallbackList<C> {
    /// Nobody is registered. Takes no memory.
    pub fn new(alloc: Global) -> CallbackList<C>
        ensures empty { result ≡ [] }
    {
        CallbackList {
            entries: Inventory::new(alloc),
        }
    }
}

impl<C: Drop> CallbackList<C> {
    /// Registers a callback under a number that no registered one has. Where memory is wanted, it
    /// is dropped.
    pub fn subscribe(&mut self, callback: C) -> Result<WatchHandle, Memory>
        ensures ok { IfOk result
            (λ handle. (n : ℕ) × (handle ≡ Some n) × (find (is_numbered n) self.old ≡ None)
            × (self.new ≡ self.old
            ++ record { number = n; count = 1; value = record { callback = callback } } ∷ [])) }
        ensures err { OnErr result (self.new ≡ self.old) }
    {
        let ticket = self.entries.track(Watcher { callback })?;
        Ok(WatchHandle::new(ticket.number()))
    }

    /// One more handle of the same callback, unless as many are out as can be counted. A handle that
    /// names nobody has a further one without effect. Takes no memory.
    pub fn share(&mut self, handle: &WatchHandle) -> Result<WatchHandle, Exhausted>
        ensures number { IfOk result (λ other. other ≡ handle.now) }
        ensures ok { IfOk result (λ _. self.new ≡ shared_by handle.now self.old) }
        ensures err { OnErr result (self.new ≡ self.old) }
        ensures full { IsErr result ↔ IsSomeAnd handle.now (λ n.
            IsSomeAnd (find (is_numbered n) self.old) (λ e. e.count ≡ 18446744073709551615)) }
    {
        let Some(number) = handle.number() else {
            return Ok(WatchHandle::empty());
        };
        self.entries.share(&Ticket::new(number))?;
        Ok(WatchHandle::new(number))
    }

    /// Gives a handle back. With the last one the callback goes, and nobody has its number any
    /// more. A handle that names nobody is given back without effect. Takes no memory.
    #[tactic(auto, using(crate::proofs::WatchLists::apart_released, crate::proofs::WatchLists::last_gone))]
    pub fn release(&mut self, handle: WatchHandle)
        ensures released { self.new ≡ released_by handle self.old }
        ensures gone { IfSome handle (λ n.
            is_last (find (is_numbered n) self.old) ≡ true → find (is_numbered n) self.new ≡ None) }
    {
        if let Some(number) = handle.number() {
            self.entries.release(Ticket::new(number));
        }
    }
}

impl<C: WatchCall> CallbackList<C> {
    /// Calls each registered callback once, in order of subscription, and nobody else. The result
    /// is there at once. Takes no memory.
    pub fn broadcast(&mut self) -> FutureResult<()>
        ensures called { map (seen C.calls) self.new ≡ map called_once
            (map (seen C.calls) self.old) }
        ensures gone { (n : ℕ) → find (is_numbered n) self.old ≡ None
            → find (is_numbered n) self.new ≡ None }
        ensures finished { result.finished ≡ Some (Ok tt) }
        ensures unanswered { result.answered ≡ false }
    {
        call_all(&mut self.entries);
        FutureResult::done(Ok(()))
    }
}

// Calls everybody once, in order.
fn call_all<C: WatchCall>(entries: &mut Inventory<Watcher<C>>)
    ensures { CallsAll C.calls entries.old.entries entries.new.entries }
{
    entries.visit_all();
}
