//! Which live segments a commit takes.
ghost use Rattle.std.specs.Prelude.{◌≡◌, nat_lt, ◌&&◌, find, is_none, None, Some, IfOk, IfErr, OnOk};
ghost use Rattle.std.specs.List.{AllByRecursion, filter};
ghost use Rattle.tv_formats.specs.Commits.{IsSegment};
ghost use Rattle.tv_formats.specs.Names.{at, has};
ghost use Rattle.tv_formats.specs.Segments.{num_docs};

use crate::registers::Registers;
use std::alloc::Global;
use std::collections::BTreeMap;
use tv_formats::{LiveSegment, Memory, SegmentId};

/// The named live segments that have living documents, or the first name that isn't live.
pub fn choose(
    alloc: Global,
    live: &BTreeMap<SegmentId, LiveSegment>,
    ids: &[SegmentId],
) -> Result<Result<BTreeMap<SegmentId, LiveSegment>, SegmentId>, Memory>
    ensures segments { IfOk result (λ found. IfOk found (λ segments. segments.entries
        ≡ filter (λ e. has ids.now e.0 && nat_lt 0 (num_docs e.1)) live.now.entries)) }
    ensures sound { IfOk result (λ found. IfOk found
        (λ segments. AllByRecursion IsSegment segments.entries)) }
    ensures known { IfOk result (λ found. OnOk found
        (find (λ id. is_none (at live.now.entries id)) ids.now ≡ None)) }
    ensures unknown { IfOk result (λ found. IfErr found
        (λ id. find (λ id. is_none (at live.now.entries id)) ids.now ≡ Some id)) }
{
    // A contract learns from the length that the live ids stand in their order.
    let _count = live.len();
    let mut registers = Registers::new(alloc)?;
    for id in ids {
        let Some(segment) = live.get(id).copied() else {
            return Ok(Err(*id));
        };
        registers.add(*id, segment)?;
    }
    let segments = registers.commit()?;
    Ok(Ok(segments))
}
