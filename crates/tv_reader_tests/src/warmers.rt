//! Warmers: how often each is called, and what comes of an error of one.
ghost use Rattle.std.specs.Prelude.{◌≡◌, None, true};
ghost use Rattle.tv_reader.specs.ReaderStates.{seen};

use crate::compare::is_number;
use crate::fixtures::{NONE, TestIndex, close, is_shown, new_index, save, shows};
use crate::locks::is_free;
use std::alloc::Global;
use std::process::Abort;
use std::sync::Arc;
use std::sync::atomic::{AtomicU64, Ordering};
use tv_base::TantivyError;
use tv_reader::{
    IndexReader, IndexReaderBuilder, ReaderOf, ReloadPolicy, Searcher, SearcherGeneration, Warmer,
    WarmingState, gc_interval,
};
use tv_test_support::{done, told};

// How often a warmer was called, which commit it warmed last, and how many generations were live when it
// was told of them last. It answers an error while it is to fail.
#[derive(Drop)]
struct Calls {
    warmed: AtomicU64,
    opstamp: AtomicU64,
    collected: AtomicU64,
    live: AtomicU64,
    fails: AtomicU64,
}

// A warmer that counts its calls.
#[derive(Drop)]
struct Counts {
    calls: Arc<Calls>,
    errors: u64,
}

// One more.
fn count(number: &AtomicU64) {
    number.fetch_add(1, Ordering::SeqCst);
}

impl Warmer for Counts {
    ghost errors = { λ c. c.errors };

    ghost test = { λ _ _. true };

    ghost called_for = { λ _. None };

    fn warm(&mut self, searcher: &Searcher) -> Result<(), TantivyError> {
        count(&self.calls.warmed);
        if self.calls.fails.load(Ordering::SeqCst) > 0 {
            self.errors = self.errors.saturating_add(1);
            return Err(TantivyError::Poisoned);
        }
        self.calls
            .opstamp
            .store(searcher.opstamp(), Ordering::SeqCst);
        Ok(())
    }

    fn garbage_collect(&mut self, live: &[SearcherGeneration]) {
        count(&self.calls.collected);
        self.calls.live.store(live.len() as u64, Ordering::SeqCst);
    }
}

// What is answered where a warmer fails.
const FAILS: &str = "Err(Poisoned)";

// Counts of a warmer that wasn't called.
fn no_calls<R: Abort>(rt: &R, alloc: Global) -> Arc<Calls> {
    let calls = Calls {
        warmed: AtomicU64::new(0),
        opstamp: AtomicU64::new(0),
        collected: AtomicU64::new(0),
        live: AtomicU64::new(0),
        fails: AtomicU64::new(0),
    };
    Arc::new(alloc, calls).expect(rt, "memory")
}

// A warmer with these counts.
fn counting<R: Abort>(rt: &R, alloc: Global, calls: &Arc<Calls>) -> Box<dyn Warmer + Send + Drop> {
    let counts = Counts {
        calls: Arc::try_clone(calls).expect(rt, "few clones"),
        errors: 0,
    };
    Box::new(alloc, counts).expect(rt, "memory")
}

// Two warmers with these counts.
fn two<R: Abort>(
    rt: &R,
    alloc: Global,
    first: &Arc<Calls>,
    second: &Arc<Calls>,
) -> Vec<Box<dyn Warmer + Send + Drop>> {
    let mut warmers = Vec::new(alloc);
    warmers
        .push(counting(rt, alloc, first))
        .expect(rt, "memory");
    warmers
        .push(counting(rt, alloc, second))
        .expect(rt, "memory");
    warmers
}

// Looks how often a warmer was called to warm, and how often to collect.
fn was_called<R: Abort>(rt: &R, calls: &Calls, warmed: u64, collected: u64) {
    is_number(rt, calls.warmed.load(Ordering::SeqCst), warmed);
    is_number(rt, calls.collected.load(Ordering::SeqCst), collected);
}

// The warmer is to fail from now on.
fn fail(calls: &Calls) {
    calls.fails.store(1, Ordering::SeqCst);
}

// The warmer isn't to fail any more.
fn mend(calls: &Calls) {
    calls.fails.store(0, Ordering::SeqCst);
}

// A reader with these two warmers.
fn warmed<R: Abort>(
    rt: &R,
    alloc: Global,
    index: &mut TestIndex,
    first: &Arc<Calls>,
    second: &Arc<Calls>,
) -> IndexReader
    ensures { (seen result).reload ≡ None }
{
    IndexReaderBuilder::new()
        .reload_policy(ReloadPolicy::Manual)
        .num_warming_threads(2)
        .warmers(two(rt, alloc, first, second))
        .try_into(alloc, index)
        .expect(rt, "no warmer fails")
}

// Looks whether the warmers are called for generations that aren't live any more.
fn collects<R: Abort + Eprint>(rt: &R, alloc: Global, reader: &mut IndexReader, want: &str)
    ensures { (seen reader.new).reload ≡ (seen reader.old).reload }
{
    assert!(rt; told(rt, alloc, reader.gc_maybe(), want));
}

// Takes the warmer of a number, which is left or isn't.
fn takes<R: Abort>(rt: &R, reader: &mut IndexReader, number: usize, is_left: bool)
    ensures { (seen reader.new).reload ≡ (seen reader.old).reload }
{
    assert!(rt; reader.release_warmer(number).is_some() == is_left);
}

// Two warmers of an index are called as generations come and go.
fn follow<R: Abort + Eprint>(rt: &R, alloc: Global, index: &mut TestIndex) {
    let first = no_calls(rt, alloc);
    let second = no_calls(rt, alloc);
    let mut reader = warmed(rt, alloc, index, &first, &second);
    collects(rt, alloc, &mut reader, "Ok(false)");
    was_called(rt, &first, 1, 0);
    was_called(rt, &second, 1, 0);
    // The second warmer is left alone: it warms the next commit, and collects once no searcher shows the first.
    let searcher = reader.searcher().expect(rt, "few searchers");
    save(rt, index, NONE);
    takes(rt, &mut reader, 0, true);
    reader.reload(index).expect(rt, "a commit");
    collects(rt, alloc, &mut reader, "Ok(false)");
    was_called(rt, &first, 1, 0);
    was_called(rt, &second, 2, 0);
    reader.release(searcher);
    collects(rt, alloc, &mut reader, "Ok(true)");
    was_called(rt, &first, 1, 0);
    was_called(rt, &second, 2, 1);
    // It warmed the last commit, whose generation alone is live.
    is_number(rt, second.opstamp.load(Ordering::SeqCst), 2);
    is_number(rt, second.live.load(Ordering::SeqCst), 1);
    // What is live was taken as warmed.
    collects(rt, alloc, &mut reader, "Ok(false)");
    was_called(rt, &second, 2, 1);
}

#[test]
fn warmers_follow_the_live_generations(rt: HostRuntime) {
    let mut index = new_index(&rt, rt.alloc());
    follow(&rt, rt.alloc(), &mut index);
    close(index);
}

// Takes the warmers of a reader, each once.
fn take_each<R: Abort>(rt: &R, alloc: Global, index: &mut TestIndex) {
    let first = no_calls(rt, alloc);
    let second = no_calls(rt, alloc);
    let mut reader = warmed(rt, alloc, index, &first, &second);
    for (number, is_left) in [(2, false), (1, true), (1, false), (0, true), (0, false)] {
        takes(rt, &mut reader, number, is_left);
    }
}

#[test]
fn a_warmer_is_taken_once(rt: HostRuntime) {
    let mut index = new_index(&rt, rt.alloc());
    take_each(&rt, rt.alloc(), &mut index);
    close(index);
}

// What comes of building a reader with two warmers.
fn built<R: Abort>(
    rt: &R,
    alloc: Global,
    index: &mut TestIndex,
    first: &Arc<Calls>,
    second: &Arc<Calls>,
) -> Result<(), TantivyError> {
    let builder = index
        .reader_builder()
        .warmers(two(rt, alloc, first, second));
    done(builder.try_into(alloc, index))
}

// A reader isn't built where a warmer fails.
fn is_not_built<R: Abort + Eprint>(rt: &R, alloc: Global, index: &mut TestIndex) {
    let first = no_calls(rt, alloc);
    let second = no_calls(rt, alloc);
    fail(&second);
    let answer = built(rt, alloc, index, &first, &second);
    assert!(rt; told(rt, alloc, answer, FAILS));
    was_called(rt, &first, 1, 0);
    was_called(rt, &second, 1, 0);
    // The one behind the error isn't called.
    fail(&first);
    let answer = built(rt, alloc, index, &first, &second);
    assert!(rt; told(rt, alloc, answer, FAILS));
    was_called(rt, &first, 2, 0);
    was_called(rt, &second, 1, 0);
    is_free(rt, index);
}

#[test]
fn no_reader_is_built_where_a_warmer_fails(rt: HostRuntime) {
    let mut index = new_index(&rt, rt.alloc());
    is_not_built(&rt, rt.alloc(), &mut index);
    close(index);
}

// A reload fails where a warmer does: the number is counted, and what was shown is shown.
fn leaves_what_is_shown<R: Abort + Eprint>(rt: &R, alloc: Global, index: &mut TestIndex) {
    let first = no_calls(rt, alloc);
    let second = no_calls(rt, alloc);
    let mut reader = warmed(rt, alloc, index, &first, &second);
    save(rt, index, NONE);
    fail(&first);
    assert!(rt; told(rt, alloc, reader.reload(index), FAILS));
    was_called(rt, &first, 2, 0);
    was_called(rt, &second, 1, 0);
    shows(rt, &mut reader, 0, 0);
    is_number(rt, reader.next_generation(), 2);
    is_free(rt, index);
    mend(&first);
    reader.reload(index).expect(rt, "no warmer fails");
    shows(rt, &mut reader, 2, 2);
    was_called(rt, &second, 2, 0);
    // The generation of the failed warming was recorded, and isn't live, nor is the first one.
    collects(rt, alloc, &mut reader, "Ok(true)");
    was_called(rt, &second, 2, 1);
}

#[test]
fn a_reload_fails_where_a_warmer_does(rt: HostRuntime) {
    let mut index = new_index(&rt, rt.alloc());
    leaves_what_is_shown(&rt, rt.alloc(), &mut index);
    close(index);
}

// A reload in steps stands where a warmer fails at its end, which can be asked for again.
fn ends_later<R: Abort + Eprint>(rt: &R, alloc: Global, index: &mut TestIndex) {
    let first = no_calls(rt, alloc);
    let second = no_calls(rt, alloc);
    let mut reader = warmed(rt, alloc, index, &first, &second);
    save(rt, index, NONE);
    reader.reload_lock(index).expect(rt, "a commit");
    reader.reload_open(index).expect(rt, "no files");
    fail(&second);
    match reader.reload_publish() {
        Ok(_) => panic!(rt; "a warmer fails"),
        Err(error) => {
            let answer: Result<u64, TantivyError> = Err(error);
            assert!(rt; told(rt, alloc, answer, FAILS));
        }
    }
    shows(rt, &mut reader, 0, 0);
    mend(&second);
    assert!(rt; told(rt, alloc, reader.reload_publish(), "Ok(2)"));
    shows(rt, &mut reader, 2, 2);
    was_called(rt, &first, 3, 0);
    was_called(rt, &second, 3, 0);
}

#[test]
fn a_reload_in_steps_stands_where_a_warmer_fails(rt: HostRuntime) {
    let mut index = new_index(&rt, rt.alloc());
    ends_later(&rt, rt.alloc(), &mut index);
    close(index);
}

// Warms a searcher, and collects.
fn warms<R: Abort + Eprint>(rt: &R, alloc: Global, state: &mut WarmingState, searcher: &Searcher) {
    assert!(rt; told(rt, alloc, state.gc_maybe(&[]), "Ok(false)"));
    assert!(rt;
        told(
            rt,
            alloc,
            state.warm_new_searcher_generation(searcher),
            "Ok(())"
        )
    );
    assert!(rt; told(rt, alloc, state.gc_maybe(&[]), "Ok(true)"));
    assert!(rt; told(rt, alloc, state.gc_maybe(&[]), "Ok(false)"));
}

// A state whose second warmer is left alone warms a searcher and collects.
fn state_warms<R: Abort + Eprint>(rt: &R, alloc: Global, searcher: &Searcher) {
    let first = no_calls(rt, alloc);
    let second = no_calls(rt, alloc);
    let mut state = WarmingState::new(alloc, 1, two(rt, alloc, &first, &second)).expect(
        rt, "memory",
    );
    assert!(rt; state.release_warmer(2).is_none());
    assert!(rt; state.release_warmer(0).is_some());
    warms(rt, alloc, &mut state, searcher);
    was_called(rt, &first, 0, 0);
    was_called(rt, &second, 1, 1);
    is_number(rt, second.live.load(Ordering::SeqCst), 0);
}

// A state without warmers records nothing.
fn empty_state_warms<R: Abort + Eprint>(rt: &R, alloc: Global, searcher: &Searcher) {
    let mut state = WarmingState::new(alloc, 1, Vec::new(alloc)).expect(rt, "memory");
    assert!(rt;
        told(
            rt,
            alloc,
            state.warm_new_searcher_generation(searcher),
            "Ok(())"
        )
    );
    assert!(rt; told(rt, alloc, state.gc_maybe(&[]), "Ok(false)"));
}

// States of warmers warm a searcher of the index.
fn states_warm<R: Abort + Eprint>(rt: &R, alloc: Global, index: &mut TestIndex) {
    let mut reader = index.reader(alloc).expect(rt, "no files");
    let searcher = reader.searcher().expect(rt, "few searchers");
    is_shown(rt, &searcher, 0, 0);
    state_warms(rt, alloc, &searcher);
    empty_state_warms(rt, alloc, &searcher);
    reader.release(searcher);
}

#[test]
fn a_state_of_warmers_warms_and_collects(rt: HostRuntime) {
    let mut index = new_index(&rt, rt.alloc());
    states_warm(&rt, rt.alloc(), &mut index);
    close(index);
}

#[test]
fn collections_are_a_second_apart(rt: HostRuntime) {
    assert!(rt; gc_interval().as_secs() == 1 && gc_interval().subsec_nanos() == 0);
}
