//! What stands under the lock.
ghost use Rattle.std.specs.Prelude.{◌≡◌, ◌+◌, ◌≤◌, [], false, true, IfOk, IfErr, OnOk, vec_capacity, vec_len};
ghost use Rattle.tv_shared.specs.Logs.{IsStart, Keeps, log_of};
ghost use Rattle.tv_shared.specs.Moves.{Advances, IsNotApplied, PublishesAnswer, Stops};
ghost use Rattle.tv_shared.specs.Names.{name_of};

use crate::opening::Opening;
use std::alloc::Global;
use std::marker::{Model, PhantomData};
use std::sync::Wait;
use tv_base::TantivyError;
use tv_events::{Answer, Event};
use tv_formats::Memory;
use tv_histories::{Entry, Receipt, SharedError, publishes, share_answer, share_event};
use tv_publishing::Publisher;
use tv_stepping::{Ending, EventStore};

/// What stands under the lock: a store, the history of its events with their answers, and the side that
/// publishes what its first reader shows. It isn't `Drop`: `end` it.
pub struct Locked<S: EventStore, N: Opening> {
    pub(crate) store: S,
    pub(crate) history: Vec<Entry>,
    pub(crate) publisher: Publisher,
    // Whether an event failed.
    pub(crate) has_ended: bool,
    pub(crate) of: PhantomData<N>,
}

impl<S: EventStore, N: Opening> Model for Locked<S, N> {
    ghost use Rattle.tv_shared.specs.Logs.{Keeps, Log, log_of};
    ghost use Rattle.tv_shared.specs.Names.{name_of};

    ghost Value = { Log S };

    ghost view = { λ l. log_of l.store l.history.items l.publisher l.has_ended };

    ghost invariant = { λ l. Keeps S.EventStore (name_of N.Opening)
        (log_of l.store l.history.items l.publisher l.has_ended) };
}

// Room for one entry more, and an event for it.
fn make_room(history: &mut Vec<Entry>, event: &Event) -> Result<(Event, Event), Memory>
    ensures same { history.new.items ≡ history.old.items }
    ensures events { IfOk result (λ both. (both.0 ≡ event.now) × (both.1 ≡ event.now)) }
    ensures room { OnOk result (vec_len history.new + 1 ≤ vec_capacity history.new) }
{
    let alloc = *history.allocator();
    let both = (share_event(alloc, event)?, share_event(alloc, event)?);
    history.reserve(1)?;
    Ok(both)
}

// Publishes what the first reader shows, where the answer tells of it.
fn publish_for<S: EventStore, R: Wait>(
    rt: &R,
    store: &S,
    publisher: &mut Publisher,
    answer: &Answer,
) -> Result<(), Memory>
    ensures { PublishesAnswer S.EventStore store.now answer.now publisher.old publisher.new result }
{
    if !publishes(answer) {
        return Ok(());
    }
    match store.shown_first()? {
        Some(snapshot) => publisher.publish(rt, snapshot),
        None => Ok(()),
    }
}

// One event more, with its entry, and what it publishes.
fn advance<S: EventStore, R: Wait>(
    rt: &R,
    store: &mut S,
    history: &mut Vec<Entry>,
    publisher: &mut Publisher,
    event: &Event,
) -> Result<Receipt, TantivyError>
    requires { S.stands store.old ≡ Ending.Open }
    ensures ok { IfOk result (Advances S.EventStore
        (log_of store.old history.old.items publisher.old false)
        (log_of store.new history.new.items publisher.new false) event.now) }
    ensures err { IfErr result (Stops S.EventStore
        (log_of store.old history.old.items publisher.old false)
        (log_of store.new history.new.items publisher.new true) event.now) }
{
    let alloc = *history.allocator();
    let (kept, given) = make_room(history, event)?;
    let place = history.len() as u64;
    let answer = store.apply(event)?;
    let copy = share_answer(alloc, &answer);
    let published = publish_for(rt, store, publisher, &answer);
    history.push_reserved(Entry {
        event: kept,
        answer,
    });
    published?;
    Ok(Receipt {
        place,
        event: given,
        answer: copy?,
    })
}

impl<S: EventStore, N: Opening> Locked<S, N> {
    /// No event was applied yet, and nothing is published.
    pub fn new(alloc: Global, store: S, publisher: Publisher) -> Locked<S, N>
        requires state { IsStart S.EventStore (name_of N.Opening) store }
        requires publisher { publisher ≡ [] }
        ensures { result ≡ log_of store [] [] false }
    {
        Locked {
            store,
            history: Vec::new(alloc),
            publisher,
            has_ended: false,
            of: PhantomData,
        }
    }

    /// Applies the event to the store, enters it with its answer into the history, and publishes what the
    /// first reader shows, where the answer tells of it. An event whose line was told is in the history,
    /// though memory is wanting afterwards. `Store` is the error of the store, or want of memory; after an
    /// error each call answers `Ended`, with the number of entries.
    pub fn apply<R: Wait>(&mut self, rt: &R, event: &Event) -> Result<Receipt, SharedError>
        ensures ok { IfOk result (Advances S.EventStore self.old self.new event.now) }
        ensures err { IfErr result (IsNotApplied S.EventStore self.old self.new event.now) }
    {
        if self.has_ended {
            return Err(SharedError::Ended(self.history.len() as u64));
        }
        self.has_ended = true;
        let advanced = advance(
            rt,
            &mut self.store,
            &mut self.history,
            &mut self.publisher,
            event,
        );
        match advanced {
            Ok(receipt) => {
                self.has_ended = false;
                Ok(receipt)
            }
            Err(error) => Err(SharedError::Store(error)),
        }
    }

    /// What always holds of it.
    pub fn know(&self)
        ensures { Keeps S.EventStore (name_of N.Opening) self.now }
    {
        let _len = self.history.len();
    }

    /// Ends what publishes, and gives the store. May wait for handles that are just reading. Takes no memory.
    pub fn end<R: Wait>(self, rt: &R) -> S
        ensures store { result ≡ self.store }
        ensures keeps { Keeps S.EventStore (name_of N.Opening) self }
    {
        let Self {
            store,
            history: _,
            publisher,
            has_ended: _,
            of: _,
        } = self;
        publisher.end(rt);
        store
    }
}
