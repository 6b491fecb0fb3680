//! What is reported of a segment.
ghost use Rattle.std.specs.Prelude.{◌≡◌, ℕ, IfOk, IfErr, map, string_bytes};
ghost use Rattle.tv_framing.specs.Faults.{OfFault};
ghost use Rattle.tv_reader.specs.Searchers.{OfSegment};
ghost use Rattle.tv_reader.specs.Spaces.{HasNoSpace, IsInvalid};
ghost use Rattle.tv_space.specs.Measuring.{AreMeasured};

use std::alloc::Global;
use std::marker::Model;
use tv_base::IoError;
use tv_formats::SegmentId;
use tv_framing::SegmentSpaceUsage;
use tv_reader::SegmentReader;

/// A segment's id, and what its files take.
#[derive(Drop)]
pub(crate) struct SegmentReport {
    pub(crate) id: SegmentId,
    pub(crate) space: SegmentSpaceUsage,
}

impl Model for SegmentReport {
    ghost use Rattle.tv_space.specs.ReportLines.{SegmentReport};

    ghost Value = { SegmentReport };

    ghost view = { λ s. record { id = s.id; space = s.space } };
}

/// What each of these segments takes, under these names of fields.
pub(crate) fn measure_all(
    alloc: Global,
    segments: &[SegmentReader],
    names: &[String],
) -> Result<Vec<SegmentReport>, IoError>
    ensures each { IfOk result (λ reports.
        AreMeasured (map string_bytes names.now) segments.now reports.items) }
    ensures err { IfErr result (OfFault IsInvalid) }
    ensures outside { IfErr result (OfFault (λ _. (ord : ℕ)
        × OfSegment segments.now ord (HasNoSpace (map string_bytes names.now)))) }
{
    let mut reports = Vec::new(alloc);
    for segment in segments {
        let space = segment.space_usage(names)?;
        reports.push(SegmentReport {
            id: segment.segment_id(),
            space,
        })?;
    }
    Ok(reports)
}
