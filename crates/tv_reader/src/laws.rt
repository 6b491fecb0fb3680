//! Laws of readers: what a user relies on, of the calls that each makes.
ghost use Rattle.std.specs.Prelude.{◌≡◌, ◌<◌, ◌+◌, ◌⊎◌, ℕ, List, None, Result, Err, IfErr, IfOk, IfSome, Ok, OnErr, OnOk, Some, eqb, false, is_some, length, map, not, true};
ghost use Rattle.std.specs.List.{AllByRecursion, AllZip, enumerate_from, list_any};
ghost use Rattle.tv_base.specs.Maps.{IsOf, first_error};
ghost use Rattle.tv_formats.specs.Commits.{Commit};
ghost use Rattle.tv_managed.specs.Collecting.{meta_lock_name};
ghost use Rattle.tv_reader.specs.Bodies.{IsRead};
ghost use Rattle.tv_reader.specs.Readers.{IsLocked, IsReadOut, OfNoted, live_generations};
ghost use Rattle.tv_reader.specs.ReaderStates.{seen, warming_of};
ghost use Rattle.tv_reader.specs.Reloads.{LoadCause, NotesLast};
ghost use Rattle.tv_reader.specs.Searchers.{snapshot_of};
ghost use Rattle.tv_reader.specs.Searching.{GivesChild, IsRefused};
ghost use Rattle.tv_reader.specs.Segments.{SegmentShown};
ghost use Rattle.tv_reader.specs.Warming.{EndsAtError, HasAnswered};
ghost use Rattle.tv_reader.specs.WarmingStates.{warmers_of};

use crate::generation::SearcherGeneration;
use crate::index_reader::IndexReader;
use crate::search::{Collector, Query};
use crate::searcher::Searcher;
use crate::warming_state::WarmingState;
use std::thread::Threads;
use tv_base::{Executor, Memory, Opstamp, TantivyError};
use tv_device::Directory;
use tv_index::Index;

/// No segment is dropped, and none is taken twice: what is merged is what each of them gives by a weight
/// of the query, in their order, by any number of threads.
pub fn a_search_drops_no_segment<R: Threads + Sync, Q: Query, C: Collector>(
    searcher: &Searcher,
    rt: &R,
    query: &Q,
    collector: &C,
    executor: &Executor,
) -> Result<C::Fruit, TantivyError>
    ensures { IfOk result (λ fruit. (w : Q.W) × (children : List C.Child)
        × Q.weighed query.now (Ok w)
        × (length children ≡ length searcher.now.shown.segments)
        × AllZip (λ at child. GivesChild (Q.W.matched w) (C.collected collector.now) at (Ok child))
        (enumerate_from 0 searcher.now.shown.segments) children
        × C.merged collector.now children (Ok fruit)) }
{
    searcher.search(rt, query, collector, executor)
}

/// No later error is answered: where what a segment gives is determined by each weight of the query, the
/// error is the one of the first segment that gives one, by any number of threads.
pub fn a_search_answers_the_first_error<R: Threads + Sync, Q: Query, C: Collector>(
    searcher: &Searcher,
    rt: &R,
    query: &Q,
    collector: &C,
    executor: &Executor,
) -> Result<C::Fruit, TantivyError>
    ensures { (g : ℕ × SegmentShown → Result C.Child TantivyError)
        → ((w : Q.W) → Q.weighed query.now (Ok w)
        → IsOf (GivesChild (Q.W.matched w) (C.collected collector.now)) g)
        → IfErr result (λ e. IsRefused TantivyError.Memory (Q.weighed query.now)
        (C.checked collector.now searcher.now.shown.schema) (C.merged collector.now) e
        ⊎ (first_error (map g (enumerate_from 0 searcher.now.shown.segments)) ≡ Some e)) }
{
    searcher.search(rt, query, collector, executor)
}

/// A `reload` that fails leaves what is shown: a searcher that is taken then shows what was shown before.
pub fn a_failed_reload_leaves_what_is_shown<D: Directory>(
    reader: &mut IndexReader,
    index: &mut Index<D>,
) -> Result<Option<Searcher>, TantivyError>
    requires idle { (seen reader.old).reload ≡ None }
    ensures { IfOk result (λ taken. IfSome taken (λ searcher. searcher ≡ (seen reader.old).shown)) }
{
    match reader.reload(index) {
        Ok(()) => Ok(None),
        Err(_) => Ok(Some(reader.searcher()?)),
    }
}

/// Each commit is shown under a larger number than the one before, whichever call shows it.
pub fn each_reload_shows_a_larger_number<D: Directory>(
    reader: &mut IndexReader,
    index: &mut Index<D>,
) -> Result<u64, TantivyError>
    requires idle { (seen reader.old).reload ≡ None }
    ensures first { IfOk result (λ id. (seen reader.old).next < id) }
    ensures last { IfOk result (λ id. (seen reader.new).shown.shown.generation.id ≡ id) }
{
    reader.reload(index)?;
    reader.reload_lock(index)?;
    reader.reload_open(index)?;
    reader.reload_publish()
}

/// No commit is shown under a number whose successor would pass `u64::MAX`.
pub fn no_number_passes_the_last_one<D: Directory>(
    reader: &mut IndexReader,
    index: &mut Index<D>,
) -> Result<u64, TantivyError>
    requires idle { (seen reader.old).reload ≡ None }
    ensures left { OnOk result ((seen reader.old).next < 18446744073709551615) }
    ensures next { IfOk result (λ next. next ≡ (seen reader.old).next + 1) }
{
    reader.reload(index)?;
    Ok(reader.next_generation())
}

/// A reload in steps shows the commit that was the last one when it began, with the bodies that its files
/// had: not the one with which the reader was built.
pub fn a_reload_in_steps_shows_the_last_commit<D: Directory>(
    reader: &mut IndexReader,
    index: &mut Index<D>,
) -> Result<Opstamp, TantivyError>
    requires idle { (seen reader.old).reload ≡ None }
    ensures commit { IfOk result (λ opstamp. (schema : List ℕ) × (commit : Commit)
        × NotesLast D.Directory index.old schema commit × (opstamp ≡ commit.opstamp)
        × ((snapshot_of (seen reader.new).shown.shown).commit ≡ commit)) }
    ensures bodies { D.told.content → OnOk result
        (AllByRecursion (IsRead (D.view index.old.directory.0).reads)
        (seen reader.new).shown.shown.segments) }
{
    let opstamp = reader.reload_lock(index)?;
    reader.reload_open(index)?;
    reader.reload_publish()?;
    Ok(opstamp)
}

/// The end of a reload shows the commit that it has noted, whatever was committed since.
pub fn a_reload_in_steps_shows_what_it_noted<D: Directory>(
    reader: &mut IndexReader,
    index: &mut Index<D>,
) -> Result<u64, TantivyError>
    requires locked { IsLocked (seen reader.old).reload }
    ensures { OnOk result (OfNoted (seen reader.old).reload (λ schema commit lock.
        ((seen reader.new).shown.shown.schema ≡ schema)
        × ((snapshot_of (seen reader.new).shown.shown).commit ≡ commit))) }
{
    reader.reload_open(index)?;
    reader.reload_publish()
}

/// A warming ends at the first error: where a warmer answers one, those behind it aren't called.
pub fn a_warming_ends_at_the_first_error(
    state: &mut WarmingState,
    searcher: &Searcher,
) -> Result<(), TantivyError>
    ensures { EndsAtError (λ w. errors w) (warmers_of state.old).left (warmers_of state.new).left }
{
    state.warm_new_searcher_generation(searcher)
}

/// A `reload` invents no warmer's error: where it isn't another cause, the count of one of the reader's
/// warmers rose, and this one answers such errors.
pub fn a_reload_invents_no_warmers_error<D: Directory>(
    reader: &mut IndexReader,
    index: &mut Index<D>,
) -> Result<(), TantivyError>
    requires idle { (seen reader.old).reload ≡ None }
    ensures { IfErr result (λ e. LoadCause D.Directory index.old index.new e
        ⊎ (((e ≡ TantivyError.Exhausted) ⊎ (e ≡ TantivyError.Memory))
        ⊎ HasAnswered (λ w. errors w) (λ w. test w) e (warmers_of (warming_of reader.old)).left
        (warmers_of (warming_of reader.new)).left)) }
{
    reader.reload(index)
}

/// The end of a reload in steps invents no warmer's error either.
pub fn a_reload_in_steps_invents_no_warmers_error(
    reader: &mut IndexReader,
) -> Result<u64, TantivyError>
    requires read { IsReadOut (seen reader.old).reload }
    ensures { IfErr result (λ e. ((e ≡ TantivyError.Exhausted) ⊎ (e ≡ TantivyError.Memory))
        ⊎ HasAnswered (λ w. errors w) (λ w. test w) e (warmers_of (warming_of reader.old)).left
        (warmers_of (warming_of reader.new)).left) }
{
    reader.reload_publish()
}

/// A collection comes once a generation that was warmed isn't live any more, where a warmer is left.
pub fn a_collection_comes_once_a_warmed_one_ended(
    state: &mut WarmingState,
    searcher: &Searcher,
) -> Result<bool, TantivyError>
    ensures { IfOk result (λ called.
        list_any is_some (warmers_of state.old).left ≡ true → called ≡ true) }
{
    state.warm_new_searcher_generation(searcher)?;
    Ok(state.gc_maybe(&[])?)
}

/// A collection comes once only: where the live ones are the same, there is no second one.
pub fn a_collection_comes_once_only(
    state: &mut WarmingState,
    live: &[SearcherGeneration],
) -> Result<bool, Memory>
    ensures { IfOk result (λ called. called ≡ false) }
{
    state.gc_maybe(live)?;
    state.gc_maybe(live)
}

/// A reload that is given up frees its lock.
pub fn a_reload_given_up_frees_its_lock<D: Directory>(
    reader: &mut IndexReader,
    index: &mut Index<D>,
) -> Result<(), TantivyError>
    requires idle { (seen reader.old).reload ≡ None }
    ensures { D.told.locks
        → OnOk result ((D.view index.new.directory.0).locks meta_lock_name ≡ false) }
{
    reader.reload_lock(index)?;
    reader.reload_abandon(index);
    Ok(())
}

/// A reload that has begun holds the meta lock until its files are read, and no longer: where they are, the
/// answer is true.
pub fn a_reload_holds_the_lock_until_its_files_are_read<D: Directory>(
    reader: &mut IndexReader,
    index: &mut Index<D>,
) -> Result<bool, TantivyError>
    requires idle { (seen reader.old).reload ≡ None }
    ensures { D.told.locks → IfOk result (λ read.
        (D.view index.new.directory.0).locks meta_lock_name ≡ not read) }
{
    reader.reload_lock(index)?;
    match reader.reload_open(index) {
        Ok(()) => Ok(true),
        Err(_) => Ok(false),
    }
}

/// What a reload shows is live: a collection behind it doesn't take it for one that ended.
pub fn what_a_reload_shows_is_live<D: Directory>(
    reader: &mut IndexReader,
    index: &mut Index<D>,
) -> Result<(), TantivyError>
    requires idle { (seen reader.old).reload ≡ None }
    ensures { OnOk result
        (list_any (λ g. eqb g.id (seen reader.new).shown.shown.generation.id)
        (live_generations (seen reader.new)) ≡ true) }
{
    reader.reload(index)
}
