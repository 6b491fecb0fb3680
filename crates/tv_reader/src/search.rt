//! A search over the segments that a searcher shows.
ghost use Rattle.std.specs.Prelude.{◌≡◌, ◌⊎◌, Err, IfErr, IfOk, map};
ghost use Rattle.std.specs.List.{enumerate_from};
ghost use Rattle.tv_base.specs.Maps.{Answers, IsFirstError};
ghost use Rattle.tv_reader.specs.Searching.{GivesChild, MergesBy, Searched};

use crate::searcher::Searcher;
use crate::segment_reader::SegmentReader;
use std::alloc::Global;
use std::thread::Threads;
use tv_base::{DocId, Executor, Memory, TantivyError};
use tv_metas::Schema;

/// Which documents of a segment a query matches.
pub trait Weight: Sync + Drop {
    ghost use Rattle.std.specs.Prelude.{ℕ, List, Result, Ok, Err, IfOk, IfErr};
    ghost use Rattle.tv_base.specs.declared.error.TantivyError.{TantivyError};
    ghost use Rattle.tv_reader.specs.Segments.{SegmentShown};

    /// What `matches` may answer for a segment at a place.
    ghost matched: { Self → ℕ → SegmentShown → Result (List ℕ) TantivyError → Type 0 };

    /// The documents of the segment at this place that match.
    fn matches(&self, ord: u32, reader: &SegmentReader) -> Result<Vec<DocId>, TantivyError>
        ensures ok { IfOk result (λ docs. matched self.now ord reader.now (Ok docs.items)) }
        ensures err { IfErr result (λ e. matched self.now ord reader.now (Err e)) };
}

/// What is asked.
pub trait Query: Drop {
    ghost use Rattle.std.specs.Prelude.{Result};
    ghost use Rattle.tv_base.specs.declared.error.TantivyError.{TantivyError};

    /// By what it matches documents.
    type W: Weight;

    /// What `weight` may answer.
    ghost weighed: { Self → Result Self.W TantivyError → Type 0 };

    /// By what it matches documents.
    fn weight(&self) -> Result<Self::W, TantivyError>
        ensures { weighed self.now result };
}

/// What is made of the documents that match.
pub trait Collector: Sync + Drop {
    ghost use Rattle.std.specs.Prelude.{ℕ, List, Result};
    ghost use Rattle.tv_base.specs.declared.error.TantivyError.{TantivyError};
    ghost use Rattle.tv_reader.specs.Segments.{SegmentShown};

    /// What is made of a segment's documents.
    type Child: Send + Drop;

    /// What is made of all.
    type Fruit;

    /// What `check_schema` may answer.
    ghost checked: { Self → List ℕ → Result (Unit {0}) TantivyError → Type 0 };

    /// What `collect_segment` may answer for the documents of a segment at a place.
    ghost collected: { Self → List ℕ → ℕ → SegmentShown → Result Self.Child TantivyError → Type 0 };

    /// What `merge_fruits` may answer.
    ghost merged: { Self → List Self.Child → Result Self.Fruit TantivyError → Type 0 };

    /// Whether it can collect from an index with this schema.
    fn check_schema(&self, schema: &Schema) -> Result<(), TantivyError>
        ensures { checked self.now schema.now result };

    /// What it makes of the documents of the segment at this place.
    fn collect_segment(
        &self,
        docs: Vec<DocId>,
        ord: u32,
        reader: &SegmentReader,
    ) -> Result<Self::Child, TantivyError>
        ensures { collected self.now docs.items ord reader.now result };

    /// What it makes of all, in the order of the segments.
    fn merge_fruits(&self, children: Vec<Self::Child>) -> Result<Self::Fruit, TantivyError>
        ensures { merged self.now children.items result };
}

// The segments, each with its place.
fn in_places(
    alloc: Global,
    readers: &[SegmentReader],
) -> Result<Vec<(usize, &SegmentReader)>, Memory>
    ensures { IfOk result (λ places.
        map (λ at. (at.0, at.1.now)) places.items ≡ enumerate_from 0 readers.now) }
{
    let mut places = Vec::new(alloc);
    for (i, reader) in readers.iter().enumerate() {
        places.push((i, reader))?;
    }
    Ok(places)
}

// What the segment at this place gives.
fn child_of<W: Weight, C: Collector>(
    weight: &W,
    collector: &C,
    i: usize,
    reader: &SegmentReader,
) -> Result<C::Child, TantivyError>
    ensures { GivesChild (W.matched weight.now) (C.collected collector.now) (i, reader.now) result }
{
    let ord = u32::try_from(i).unwrap_or(u32::MAX);
    match weight.matches(ord, reader) {
        Ok(docs) => collector.collect_segment(docs, ord, reader),
        Err(error) => Err(error),
    }
}

// What each of the segments gives, or the error of the first that gives one.
fn children_of<R: Threads + Sync, W: Weight, C: Collector>(
    rt: &R,
    alloc: Global,
    executor: &Executor,
    readers: &[SegmentReader],
    weight: &W,
    collector: &C,
) -> Result<Vec<C::Child>, TantivyError>
    ensures ok { IfOk result (λ children. Answers
        (GivesChild (W.matched weight.now) (C.collected collector.now))
        (enumerate_from 0 readers.now) children.items) }
    ensures err { IfErr result (λ e. (e ≡ TantivyError.Memory) ⊎ IsFirstError
        (GivesChild (W.matched weight.now) (C.collected collector.now))
        (enumerate_from 0 readers.now) e) }
{
    let places = in_places(alloc, readers)?;
    executor.map(
        rt,
        alloc,
        |(i, reader)| child_of(weight, collector, i, reader),
        places.into_iter(),
    )
}

// The merge of what the segments give.
fn merge_of<R: Threads + Sync, W: Weight, C: Collector>(
    rt: &R,
    alloc: Global,
    executor: &Executor,
    readers: &[SegmentReader],
    weight: &W,
    collector: &C,
) -> Result<C::Fruit, TantivyError>
    ensures { (result ≡ Err TantivyError.Memory) ⊎ MergesBy (W.matched weight.now)
        (C.collected collector.now) (C.merged collector.now) readers.now result }
{
    match children_of(rt, alloc, executor, readers, weight, collector) {
        Ok(children) => collector.merge_fruits(children),
        Err(error) => Err(error),
    }
}

impl Searcher {
    /// The collector's merge of what the segments give, in their order: the documents that match by the
    /// query's weight, as the collector takes them. The weight is asked for first, then whether the
    /// collector takes the schema. An error is the first in this order, and of segments the one of the
    /// first; each but `Memory` is one that the query, the weight or the collector answered. A segment is
    /// told its place, which stays at `u32::MAX`. It is so by any number of threads.
    pub fn search<R: Threads + Sync, Q: Query, C: Collector>(
        &self,
        rt: &R,
        query: &Q,
        collector: &C,
        executor: &Executor,
    ) -> Result<C::Fruit, TantivyError>
        ensures searched { Searched TantivyError.Memory (Q.weighed query.now)
            (C.checked collector.now self.now.shown.schema) Q.W.matched (C.collected collector.now)
            (C.merged collector.now) self.now.shown.segments result }
    {
        let alloc = self.allocator();
        match query.weight() {
            Ok(weight) => match collector.check_schema(self.schema()) {
                Ok(()) => {
                    merge_of(
                        rt,
                        alloc,
                        executor,
                        self.segment_readers(),
                        &weight,
                        collector,
                    )
                },
                Err(error) => Err(error),
            },
            Err(error) => Err(error),
        }
    }

    /// The old name of `search`.
    pub fn search_with_executor<R: Threads + Sync, Q: Query, C: Collector>(
        &self,
        rt: &R,
        query: &Q,
        collector: &C,
        executor: &Executor,
    ) -> Result<C::Fruit, TantivyError>
        ensures searched { Searched TantivyError.Memory (Q.weighed query.now)
            (C.checked collector.now self.now.shown.schema) Q.W.matched (C.collected collector.now)
            (C.merged collector.now) self.now.shown.segments result }
    {
        self.search(rt, query, collector, executor)
    }
}
