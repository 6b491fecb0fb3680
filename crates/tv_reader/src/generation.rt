//! Which segments a searcher shows.
ghost use Rattle.std.specs.Prelude.{◌≡◌, IfOk};
ghost use Rattle.tv_reader.specs.Searchers.{generation_of};

use crate::segment_reader::SegmentReader;
use std::alloc::Global;
use std::collections::BTreeMap;
use std::marker::Model;
use tv_base::Opstamp;
use tv_formats::{Memory, SegmentId};

/// Which segments a searcher shows, each with the number of its delete, and under which number of its
/// reader.
#[derive(Drop)]
pub struct SearcherGeneration {
    segments: BTreeMap<SegmentId, Option<Opstamp>>,
    generation_id: u64,
}

impl Model for SearcherGeneration {
    ghost use Rattle.tv_reader.specs.Searchers.{Generation};

    ghost Value = { Generation };

    ghost view = { λ g. record { id = g.generation_id; segments = g.segments.entries } };
}

impl SearcherGeneration {
    /// The generation of a searcher with these segments. Of two segments with one id the last counts.
    pub fn from_segment_readers(
        alloc: Global,
        segment_readers: &[SegmentReader],
        generation_id: u64,
    ) -> Result<SearcherGeneration, Memory>
        ensures generation { IfOk result (λ g.
            g ≡ generation_of generation_id segment_readers.now) }
    {
        let mut segments = BTreeMap::new(alloc);
        for reader in segment_readers {
            segments.insert(reader.segment_id(), reader.delete_opstamp())?;
        }
        Ok(SearcherGeneration {
            segments,
            generation_id,
        })
    }

    /// The number under which its reader shows it.
    pub fn generation_id(&self) -> u64
        ensures id { result ≡ self.now.id }
    {
        self.generation_id
    }

    /// The numbers of the segments' deletes by the ids of the segments.
    pub fn segments(&self) -> &BTreeMap<SegmentId, Option<Opstamp>>
        ensures segments { result.now.entries ≡ self.now.segments }
    {
        &self.segments
    }
}
