//! A store that is shared no more.
ghost use Rattle.std.specs.Prelude.{◌≡◌, length, true, IfErr, IfOk};
ghost use Rattle.tv_histories.specs.Histories.{has_reader};
ghost use Rattle.tv_histories.specs.Receipts.{AllStand};
ghost use Rattle.tv_shared.specs.Closing.{HasClosed, IsNotClosed, publications};
ghost use Rattle.tv_shared.specs.Names.{name_of};

use crate::locked::Locked;
use crate::opening::Opening;
use std::alloc::Global;
use std::marker::PhantomData;
use std::sync::Wait;
use tv_histories::{Entry, Receipt, SharedError, compare};
use tv_publishing::Publisher;
use tv_stepping::EventStore;

/// A store that is shared no more, and its history, where each receipt was found in it. Handles read as
/// before, until it is taken apart. It isn't `Drop`: take it apart by `into_parts`.
pub struct Closed<S: EventStore, N: Opening> {
    pub store: S,
    pub outcome: Result<Vec<Entry>, SharedError>,
    publisher: Publisher,
    of: PhantomData<N>,
}

#[tactic(auto, using(crate::proofs::Keeping::as_ended))]
impl<S: EventStore, N: Opening> Closed<S, N> {
    // What stood under the lock, once each receipt was looked for.
    pub(crate) fn of(alloc: Global, locked: Locked<S, N>, receipts: &[Receipt]) -> Closed<S, N>
        requires { has_reader locked.history ≡ true }
        ensures closed { IfOk result.outcome (λ history.
            HasClosed S.EventStore (name_of N.Opening) result.store history.items
            (publications result)) }
        ensures receipts { IfOk result.outcome (λ history. AllStand history.items receipts.now) }
        ensures differs { IfErr result.outcome
            (IsNotClosed S.EventStore (name_of N.Opening) result.store (publications result)
            receipts.now) }
    {
        let Locked {
            store,
            history,
            publisher,
            has_ended: _,
            of: _,
        } = locked;
        let outcome = match compare(alloc, history.as_slice(), receipts) {
            Ok(()) => Ok(history),
            Err(error) => Err(error),
        };
        Closed {
            store,
            outcome,
            publisher,
            of: PhantomData,
        }
    }

    /// How many snapshots were published. Takes no memory.
    pub fn published(&self) -> u64
        ensures { result ≡ length (publications self.now) }
    {
        self.publisher.published()
    }

    /// The store, and its history. Nothing is published afterwards: a handle still reads the last snapshot
    /// that it knows of. May wait for handles that are just reading. Takes no memory.
    pub fn into_parts<R: Wait>(self, rt: &R) -> (S, Result<Vec<Entry>, SharedError>)
        ensures { (result.0 ≡ self.store) × (result.1 ≡ self.outcome) }
    {
        let Self {
            store,
            outcome,
            publisher,
            of: _,
        } = self;
        publisher.end(rt);
        (store, outcome)
    }
}
