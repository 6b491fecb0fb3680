//! A store that threads share.
ghost use Rattle.std.specs.Prelude.{◌≡◌, ◌<◌, ◌≤◌, length, true, IfOk, IfErr};
ghost use Rattle.tv_histories.specs.Histories.{has_reader};
ghost use Rattle.tv_histories.specs.Receipts.{AllStand, DiffersAmong};
ghost use Rattle.tv_shared.specs.Begins.{AreFresh, IsNotShared};
ghost use Rattle.tv_shared.specs.Closing.{HasClosed, IsNotClosed, publications};
ghost use Rattle.tv_shared.specs.Logs.{IsStart};
ghost use Rattle.tv_shared.specs.Names.{name_of};

use crate::begun::Begun;
use crate::closed::Closed;
use crate::locked::Locked;
use crate::opening::Opening;
use std::alloc::Global;
use std::sync::{Mutex, MutexGuard, Wait};
use tv_base::TantivyError;
use tv_events::Event;
use tv_formats::Memory;
use tv_histories::{Receipt, SharedError};
use tv_publishing::{Publisher, ReadHandle};
use tv_stepping::EventStore;

/// A store that threads share under one lock. It isn't `Drop`: `close` it.
pub struct SharedStore<S: EventStore, N: Opening> {
    locked: Mutex<Begun<S, N>>,
}

/// Why a store isn't shared, and the store.
pub struct NotShared<S> {
    pub error: TantivyError,
    pub store: S,
}

// The error of a store that wasn't shared before.
fn error_of(error: SharedError) -> TantivyError
    ensures { (why : _) → error ≡ SharedError.Store why → result ≡ why }
{
    match error {
        SharedError::Store(error) => error,
        _ => TantivyError::Memory,
    }
}

// The first reader of a store is made, which handles follow.
fn begin<S: EventStore, N: Opening, R: Wait>(
    rt: &R,
    alloc: Global,
    store: S,
    handles: usize,
) -> Result<Begun<S, N>, NotShared<S>>
    requires start { IsStart S.EventStore (name_of N.Opening) store }
    requires handles { (0 < handles) × (handles ≤ 8) }
    ensures refused { IfErr result (λ no.
        IsNotShared S.EventStore (name_of N.Opening) store no.store no.error) }
    ensures one { IfOk result (λ begun. length begun.history ≡ 1) }
{
    let publisher = match Publisher::new(alloc, handles) {
        Ok(publisher) => publisher,
        Err(_) => {
            return Err(NotShared {
                error: TantivyError::Memory,
                store,
            });
        }
    };
    match Begun::start(rt, Locked::new(alloc, store, publisher)) {
        Ok(begun) => Ok(begun),
        Err((locked, error)) => Err(NotShared {
            error: error_of(error),
            store: locked.end(rt),
        }),
    }
}

impl<S: EventStore, N: Opening> SharedStore<S, N> {
    /// Shares a store that was just opened: makes its first reader, which reloads where it is asked to, and
    /// so many handles, which follow this reader.
    pub fn new<R: Wait>(
        rt: &R,
        alloc: Global,
        store: S,
        handles: usize,
    ) -> Result<(SharedStore<S, N>, Vec<ReadHandle>), NotShared<S>>
        requires start { IsStart S.EventStore (name_of N.Opening) store }
        requires handles { (0 < handles) × (handles ≤ 8) }
        ensures handles { IfOk result (λ made. AreFresh handles made.1.items) }
        // Why it isn't shared, and what is left of it.
        ensures refused { IfErr result (λ no.
            IsNotShared S.EventStore (name_of N.Opening) store no.store no.error) }
    {
        let begun = match begin(rt, alloc, store, handles) {
            Ok(begun) => begun,
            Err(refused) => {
                return Err(refused);
            }
        };
        match begun.handles(alloc, handles) {
            Ok(list) => {
                let shared = SharedStore {
                    locked: Mutex::new(begun),
                };
                Ok((shared, list))
            }
            Err(_) => {
                let Begun { locked } = begun;
                Err(NotShared {
                    error: TantivyError::Memory,
                    store: locked.end(rt),
                })
            }
        }
    }

    /// Takes the lock, and applies the event as `Locked::apply` does. May wait.
    pub fn apply<R: Wait>(&self, rt: &R, event: &Event) -> Result<Receipt, SharedError>
        ensures { IfOk result (λ receipt. receipt.event ≡ event.now) }
    {
        let mut guard = self.locked.lock(rt);
        let receipt = guard.apply(rt, event);
        MutexGuard::unlock(guard);
        receipt
    }

    /// How many snapshots were published. May wait.
    pub fn published<R: Wait>(&self, rt: &R) -> u64 {
        let guard = self.locked.lock(rt);
        let number = guard.published();
        MutexGuard::unlock(guard);
        number
    }

    /// Shares the store no more, and looks for each receipt at its place of the history.
    pub fn close(self, alloc: Global, receipts: &[Receipt]) -> Closed<S, N>
        ensures closed { IfOk result.outcome (λ history.
            HasClosed S.EventStore (name_of N.Opening) result.store history.items
            (publications result)) }
        ensures receipts { IfOk result.outcome (λ history. AllStand history.items receipts.now) }
        ensures differs { IfErr result.outcome
            (IsNotClosed S.EventStore (name_of N.Opening) result.store (publications result)
            receipts.now) }
    {
        let Self { locked: shared } = self;
        let Begun { locked } = shared.into_inner();
        Closed::of(alloc, locked, receipts)
    }
}
