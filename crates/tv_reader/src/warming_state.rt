//! What a reader has of its warmers.
ghost use Rattle.std.specs.Prelude.{◌≡◌, IfOk, None, OnErr, get_or};
ghost use Rattle.tv_reader.specs.Warming.{Collects, Warms, new_warmers, without_warmer};
ghost use Rattle.tv_reader.specs.WarmingStates.{threads_of, warmers_of};

use crate::generation::SearcherGeneration;
use crate::searcher::Searcher;
use crate::warmer::Warmer;
use crate::warmers::Warmers;
use std::alloc::Global;
use tv_base::{Memory, TantivyError};

/// The warmers of a reader that are left, by their numbers, and which generations they warmed. They are
/// called by the caller, one after the other.
#[derive(Drop)]
pub struct WarmingState {
    pub(crate) num_warming_threads: usize,
    pub(crate) warmers: Warmers<Box<dyn Warmer + Send + Drop>>,
}

impl WarmingState {
    /// These warmers, whose numbers count from 0. None of them warmed anything. The number of threads
    /// is kept, and used by nobody.
    pub fn new(
        alloc: Global,
        num_warming_threads: usize,
        warmers: Vec<Box<dyn Warmer + Send + Drop>>,
    ) -> Result<WarmingState, Memory>
        ensures threads { IfOk result (λ state. threads_of state ≡ num_warming_threads) }
        ensures warmers { IfOk result (λ state. warmers_of state ≡ new_warmers warmers.items) }
    {
        Ok(WarmingState {
            num_warming_threads,
            warmers: Warmers::new(alloc, warmers)?,
        })
    }

    /// Warms a new searcher by each warmer in order, up to the first error. Its generation is recorded
    /// as warmed, also where a warmer answers an error. Without warmers nothing is recorded. Where
    /// memory is wanted for the record, no warmer is called, and nothing is recorded.
    pub fn warm_new_searcher_generation(&mut self, searcher: &Searcher) -> Result<(), TantivyError>
        ensures warms { Warms (λ w. errors w) (λ w. test w) (λ w. called_for w) searcher.now.shown
            (warmers_of self.old) (warmers_of self.new) result }
    {
        self.warmers.warm_new(searcher)
    }

    /// Calls the warmers exactly where a generation that was warmed isn't among the live ones any more,
    /// and tells whether it did. Then the live ones are taken as warmed.
    pub fn gc_maybe(&mut self, live: &[SearcherGeneration]) -> Result<bool, Memory>
        ensures collects { IfOk result (Collects (λ w. errors w) (λ w. test w) (λ w. called_for w)
            live.now (warmers_of self.old) (warmers_of self.new)) }
        ensures err { OnErr result (self.new ≡ self.old) }
    {
        self.warmers.collect_ended(live)
    }

    /// The warmer of a number, taken out; `None` exactly where none of this number is left. Takes no
    /// memory.
    pub fn release_warmer(&mut self, number: usize) -> Option<Box<dyn Warmer + Send + Drop>>
        ensures warmer { result ≡ get_or (warmers_of self.old).left number None }
        ensures left { warmers_of self.new ≡ without_warmer number (warmers_of self.old) }
    {
        self.warmers.take_warmer(number)
    }
}
