//! How much space the segments of a searcher take.
ghost use Rattle.std.specs.Prelude.{◌≡◌, ◌++◌, ◌∷◌, [], OnOk, OnErr};
ghost use Rattle.tv_framing.specs.Segments.{segments_sum};
ghost use Rattle.tv_framing.specs.Usage.{capped};

use crate::segment_usage::SegmentSpaceUsage;
use std::alloc::Global;
use std::marker::Model;
use tv_base::{ByteCount, Memory};

/// The space that segments take. To a contract it is the list of what each takes.
#[derive(Drop)]
pub struct SearcherSpaceUsage {
    segments: Vec<SegmentSpaceUsage>,
}

impl Model for SearcherSpaceUsage {
    ghost use Rattle.std.specs.Prelude.{List};
    ghost use Rattle.tv_framing.specs.Segments.{SegmentSpace};

    ghost Value = { List SegmentSpace };

    ghost view = { λ u. u.segments.items };
}

impl SearcherSpaceUsage {
    /// Of no segments. Takes no memory.
    pub fn new(alloc: Global) -> SearcherSpaceUsage
        ensures none { result ≡ [] }
    {
        SearcherSpaceUsage {
            segments: Vec::new(alloc),
        }
    }

    /// One segment more.
    pub fn add_segment(&mut self, s: SegmentSpaceUsage) -> Result<(), Memory>
        ensures ok { OnOk result (self.new ≡ self.old ++ s ∷ []) }
        ensures err { OnErr result (self.new ≡ self.old) }
    {
        self.segments.push(s)?;
        Ok(())
    }

    /// What each segment takes.
    pub fn segments(&self) -> &[SegmentSpaceUsage]
        ensures segments { result.now ≡ self.now }
    {
        self.segments.as_slice()
    }

    /// The sum of all segments, which stays at `u64::MAX`.
    pub fn total(&self) -> ByteCount
        ensures total { result.0 ≡ capped (segments_sum self.now) }
    {
        sum_of(self.segments.as_slice())
    }
}

// The sum of these segments.
fn sum_of(segments: &[SegmentSpaceUsage]) -> ByteCount
    ensures { result.0 ≡ capped (segments_sum segments.now) }
{
    let mut sum = ByteCount(0);
    for segment in segments {
        sum = sum.plus(segment.total());
    }
    sum
}
