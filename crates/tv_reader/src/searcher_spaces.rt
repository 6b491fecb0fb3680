//! How much space several segments take.
ghost use Rattle.std.specs.Prelude.{◌≡◌, IfOk, IfErr, ℕ, map, string_bytes};
ghost use Rattle.tv_framing.specs.Faults.{OfFault};
ghost use Rattle.tv_reader.specs.Searchers.{AreSpaces, OfSegment};
ghost use Rattle.tv_reader.specs.Spaces.{HasNoSpace, IsInvalid};

use crate::segment_reader::SegmentReader;
use std::alloc::Global;
use tv_base::IoError;
use tv_framing::SearcherSpaceUsage;

/// What each of these segments takes, under these names of fields.
pub(crate) fn spaces_of(
    alloc: Global,
    segment_readers: &[SegmentReader],
    names: &[String],
) -> Result<SearcherSpaceUsage, IoError>
    ensures each { IfOk result (AreSpaces (map string_bytes names.now) segment_readers.now) }
    ensures err { IfErr result (OfFault IsInvalid) }
    ensures outside { IfErr result (OfFault (λ _. (ord : ℕ)
        × OfSegment segment_readers.now ord (HasNoSpace (map string_bytes names.now)))) }
{
    let mut usage = SearcherSpaceUsage::new(alloc);
    for reader in segment_readers {
        usage.add_segment(reader.space_usage(names)?)?;
    }
    Ok(usage)
}
