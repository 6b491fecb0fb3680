//! Several scripts, applied to one store at once.
ghost use Rattle.std.specs.Prelude.{◌≡◌, ◌<◌, ◌≤◌, ◌⊎◌, ℕ, map, length, false, true, Ok, IfOk, IfErr, slice_index_or};
ghost use Rattle.tv_histories.specs.Histories.{has_reader};
ghost use Rattle.tv_histories.specs.Races.{Follows, IsMergedFrom, IsOfStore, IsRace};
ghost use Rattle.tv_histories.specs.Receipts.{AllStand};
ghost use Rattle.tv_shared.specs.Logs.{IsStart, as_opened};
ghost use Rattle.tv_shared.specs.Names.{name_of};
ghost use Rattle.tv_shared.specs.Raced.{FailsToSettle, HasFailed, HasNotBegun, IsRaced};

use crate::opening::Opening;
use crate::shared_store::{NotShared, SharedStore};
use std::alloc::{AllocError, Global};
use std::collections::VecDeque;
use std::marker::Brand;
use std::sync::Wait;
use std::thread;
use std::thread::{Threads, join};
use tv_base::TantivyError;
use tv_events::Event;
use tv_formats::Memory;
use tv_histories::{Entry, Merged, Receipt, SharedError, gather, is_interleaving, merge_of};
use tv_publishing::{ReadHandle, Seen};
use tv_stepping::{Ending, EventStore};

/// Who is asked before a script begins.
pub trait Gate: Sync {
    /// Comes before the first event of this script, in its thread.
    fn before(&self, caller: usize);
}

/// Nobody is asked.
pub struct NoGate;

impl Gate for NoGate {
    fn before(&self, _caller: usize) {}
}

/// A store after a race, whether it was shared, and what each handle read last.
pub struct RacedStore<S> {
    pub store: S,
    pub was_shared: bool,
    pub outcome: Result<Vec<Seen>, SharedError>,
}

// Applies the events of one caller.
fn run_script<S: EventStore, N: Opening, R: Wait>(
    rt: &R,
    alloc: Global,
    shared: &SharedStore<S, N>,
    events: &[Event],
) -> Result<VecDeque<Receipt>, SharedError>
    ensures { IfOk result (λ receipts. map (λ r. r.event) receipts.items ≡ events.now) }
{
    let mut receipts = VecDeque::new(alloc);
    for event in events {
        let receipt = shared.apply(rt, event)?;
        if receipts.push_back(receipt).is_err() {
            return Err(SharedError::from(Memory));
        }
    }
    Ok(receipts)
}

// Asks the gate, and applies the events of this caller.
fn run_behind<S: EventStore, N: Opening, R: Wait, G: Gate>(
    rt: &R,
    alloc: Global,
    shared: &SharedStore<S, N>,
    events: &[Event],
    gate: &G,
    caller: usize,
) -> Result<VecDeque<Receipt>, SharedError>
    ensures { IfOk result (λ receipts. map (λ r. r.event) receipts.items ≡ events.now) }
{
    gate.before(caller);
    run_script(rt, alloc, shared, events)
}

// A thread for each script, which asks the gate first.
fn run_each<S: EventStore + Send, N: Opening + Send, R: Threads + Wait + Sync, G: Gate>(
    rt: &R,
    alloc: Global,
    shared: &SharedStore<S, N>,
    scripts: &[Vec<Event>],
    gate: &G,
) -> Result<Vec<Result<VecDeque<Receipt>, SharedError>>, AllocError>
    ensures count { IfOk result (λ v. length v.items ≡ length scripts.now) }
    ensures each { IfOk result (λ v. (i : ℕ) (d e : _) → i < length scripts.now
        → IfOk (slice_index_or v.items i d) (λ receipts.
        map (λ r. r.event) receipts.items ≡ (slice_index_or scripts.now i e).items)) }
{
    thread::map_indices(
        rt,
        alloc,
        scripts.len(),
        &|k|
            requires { k < length scripts.now }
            ensures { (e : _) → IfOk result (λ receipts. map (λ r. r.event) receipts.items
                ≡ (slice_index_or scripts.entry.now k e).items) }
        { run_behind(rt, alloc, shared, scripts[k].as_slice(), gate, k) },
    )
}

// The receipts of each script, which all run at once.
fn run_all<S: EventStore + Send, N: Opening + Send, R: Threads + Wait + Sync, G: Gate>(
    rt: &R,
    alloc: Global,
    shared: &SharedStore<S, N>,
    scripts: &[Vec<Event>],
    gate: &G,
) -> Result<Vec<VecDeque<Receipt>>, SharedError>
    ensures lists { IfOk result (λ lists.
        Follows (λ s. s.items) (λ l. l.items) scripts.now lists.items) }
    ensures fault { IfErr result IsOfStore }
{
    match run_each(rt, alloc, shared, scripts, gate) {
        Ok(answers) => gather(alloc, scripts, answers),
        Err(_) => Err(SharedError::from(Memory)),
    }
}

// A thread for each script, and one for each handle, which reads once.
fn side_by_side<S: EventStore + Send, N: Opening + Send, R: Threads + Wait + Sync, G: Gate>(
    rt: &R,
    alloc: Global,
    shared: &SharedStore<S, N>,
    scripts: &[Vec<Event>],
    handles: &mut [ReadHandle],
    gate: &G,
) -> Result<Vec<VecDeque<Receipt>>, SharedError>
    ensures lists { IfOk result (λ lists.
        Follows (λ s. s.items) (λ l. l.items) scripts.now lists.items) }
    ensures fault { IfErr result IsOfStore }
    ensures same { length handles.new ≡ length handles.old }
{
    let (lists, ()) = join(
        rt,
        || run_all(rt, alloc, shared, scripts, gate),
        || {
            thread::for_each_mut(
                rt,
                handles,
                8,
                &|_, handle| {
                    handle.read();
                },
            );
        },
    );
    lists
}

// The receipts of all scripts, merged.
fn merge_all(
    alloc: Global,
    scripts: &[Vec<Event>],
    lists: Result<Vec<VecDeque<Receipt>>, SharedError>,
) -> Result<Merged, SharedError>
    requires lists { IfOk lists (λ all.
        Follows (λ s. s.items) (λ l. l.items) scripts.now all.items) }
    requires fault { IfErr lists IsOfStore }
    ensures merged { IfOk result (λ m. IsMergedFrom (map (λ s. s.items) scripts.now)
        m.callers.items m.receipts.items) }
    ensures fault { IfErr result IsOfStore }
{
    let lists = lists?;
    let merged = merge_of(alloc, scripts, lists)?;
    Ok(merged)
}

// Reads once more with each handle, once it knows of so many snapshots.
fn read_all<R: Wait>(
    rt: &R,
    alloc: Global,
    handles: &mut [ReadHandle],
    published: u64,
) -> Result<Vec<Seen>, Memory>
    ensures { IfOk result (λ seen. length seen.items ≡ length handles.old) }
{
    let mut seen = Vec::new(alloc);
    for handle in handles {
        handle.learn(rt, published);
        seen.push(handle.read())?;
    }
    Ok(seen)
}

// Why a script failed: the error where the store says so, and else want of memory.
fn failed_as(ending: Ending, error: SharedError) -> SharedError
    requires { IsOfStore error }
    ensures { (result ≡ SharedError.Store TantivyError.Memory)
        ⊎ ((ending ≡ Ending.Failed) × IsOfStore result) }
{
    match ending {
        Ending::Failed => error,
        _ => SharedError::from(Memory),
    }
}

// What was seen, where the receipts are all entries of the history but the first, and the store is open.
fn settled(
    scripts: &[Vec<Event>],
    history: Result<Vec<Entry>, SharedError>,
    merged: &Merged,
    ending: Ending,
    seen: Result<Vec<Seen>, Memory>,
) -> Result<Vec<Seen>, SharedError>
    requires merged { IsMergedFrom (map (λ s. s.items) scripts.now)
        merged.now.callers.items merged.now.receipts.items }
    requires stand { IfOk history (λ h. AllStand h.items merged.now.receipts.items) }
    requires reads { IfOk history (λ h. has_reader h.items ≡ true) }
    ensures race { IfOk result (λ _. (h : _) × (history ≡ Ok h) × (ending ≡ Ending.Open)
        × IsRace (map (λ s. s.items) scripts.now) h.items) }
    ensures seen { IfOk result (λ all. seen ≡ Ok all) }
    ensures fails { IfErr result
        (FailsToSettle (λ h. h.items) (map (λ s. s.items) scripts.now) history) }
{
    let history = history?;
    is_interleaving(scripts, history.as_slice(), merged)?;
    match ending {
        Ending::Open => Ok(seen?),
        _ => Err(SharedError::from(Memory)),
    }
}

// Races these scripts, under a name of what the store was opened with.
fn race_named<S: EventStore + Send, N: Opening + Send, R: Threads + Wait + Sync, G: Gate>(
    rt: &R,
    alloc: Global,
    store: S,
    scripts: &[Vec<Event>],
    handles: usize,
    gate: &G,
) -> RacedStore<S>
    requires start { IsStart S.EventStore (name_of N.Opening) store }
    requires handles { (0 < handles) × (handles ≤ 8) }
    ensures race { IfOk result.outcome (λ _. (result.was_shared ≡ true)
        × IsRaced S.EventStore (name_of N.Opening) result.store (map (λ s. s.items) scripts.now)) }
    ensures seen { IfOk result.outcome (λ seen. length seen.items ≡ handles) }
    ensures fails { IfErr result.outcome (λ error. result.was_shared ≡ true
        → HasFailed S.EventStore (name_of N.Opening) result.store
        (map (λ s. s.items) scripts.now) error) }
    ensures begins { IfErr result.outcome (λ error. result.was_shared ≡ false
        → HasNotBegun S.EventStore (name_of N.Opening) store result.store error) }
{
    let (shared, mut handles) = match SharedStore::<S, N>::new(rt, alloc, store, handles) {
        Ok(made) => made,
        Err(NotShared { error, store }) => {
            return RacedStore {
                store,
                was_shared: false,
                outcome: Err(SharedError::Store(error)),
            };
        }
    };
    let lists = side_by_side(rt, alloc, &shared, scripts, handles.as_mut_slice(), gate);
    let merged = match merge_all(alloc, scripts, lists) {
        Ok(merged) => merged,
        Err(error) => {
            let (store, _) = shared.close(alloc, &[]).into_parts(rt);
            let outcome = Err(failed_as(store.ending(), error));
            return RacedStore {
                store,
                was_shared: true,
                outcome,
            };
        }
    };
    let closed = shared.close(alloc, merged.receipts.as_slice());
    let seen = read_all(rt, alloc, handles.as_mut_slice(), closed.published());
    let (store, history) = closed.into_parts(rt);
    let outcome = settled(scripts, history, &merged, store.ending(), seen);
    RacedStore {
        store,
        was_shared: true,
        outcome,
    }
}

/// Shares a store that was just opened, applies these scripts to it at once, each in a thread of its own
/// that asks the gate first, while so many handles read; and closes it. Then each handle reads once more, as
/// soon as it knows of all that was published.
///
/// Ok means that all events were applied. Where one was refused, the error is the first one in the order of
/// the scripts that isn't want of memory, or else that. `Differs` and `Uneven` say that the callers' receipts
/// aren't the history.
pub fn race_gated<S: EventStore + Send, R: Threads + Wait + Sync, G: Gate>(
    rt: &R,
    alloc: Global,
    store: S,
    scripts: &[Vec<Event>],
    handles: usize,
    gate: &G,
) -> RacedStore<S>
    requires start { IsStart S.EventStore (as_opened S.EventStore store) store }
    requires handles { (0 < handles) × (handles ≤ 8) }
    // The history is that of a reader and then an interleaving of the scripts, and a run of the machine
    // from each state that the store held.
    ensures race { IfOk result.outcome (λ _. (result.was_shared ≡ true)
        × IsRaced S.EventStore (as_opened S.EventStore store) result.store
        (map (λ s. s.items) scripts.now)) }
    // Each handle read once more.
    ensures seen { IfOk result.outcome (λ seen. length seen.items ≡ handles) }
    // An error of an event, but want of memory, comes only where the closed store says that it failed.
    ensures fails { IfErr result.outcome (λ error. result.was_shared ≡ true
        → HasFailed S.EventStore (as_opened S.EventStore store) result.store
        (map (λ s. s.items) scripts.now) error) }
    // Why the store wasn't shared, and what is left of it.
    ensures begins { IfErr result.outcome (λ error. result.was_shared ≡ false
        → HasNotBegun S.EventStore (as_opened S.EventStore store) store result.store error) }
{
    race_named::<S, Brand, R, G>(rt, alloc, store, scripts, handles, gate)
}
