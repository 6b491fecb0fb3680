//! Segments that are taken into an inventory together, as segments of an index.
ghost use Rattle.std.specs.Prelude.{◌≡◌, ◌≤◌, [], All, IfOk, OnErr, map, vec_len};
ghost use Rattle.std.specs.Vec.{vec_capacity};
ghost use Rattle.tv_formats.specs.Segments.{num_deleted};
ghost use Rattle.tv_metas.specs.Segments.{entry_of};
ghost use Rattle.tv_metas.specs.Tracked.{TrackAll};

use crate::segment::Segment;
use std::alloc::Global;
use tv_formats::Memory;
use tv_metas::{InnerSegmentMeta, SegmentMeta, SegmentMetaInventory, track_all};

/// Takes segments in, as the segments of their shares; none of them where memory is wanted.
pub(crate) fn track_segments(
    alloc: Global,
    segments: &[InnerSegmentMeta],
    inventory: &mut SegmentMetaInventory,
) -> Result<Vec<Segment>, Memory>
    requires within { All (λ s. num_deleted s.deletes ≤ s.max_doc) segments.now }
    ensures segments { IfOk result (λ found.
        map (λ s. s.1) found.items ≡ map entry_of segments.now) }
    ensures tracks { IfOk result (λ found. TrackAll found.items inventory.old inventory.new) }
    ensures err { OnErr result (inventory.new ≡ inventory.old) }
{
    // Made first, so that no share has to be given back.
    let room = Vec::with_capacity(alloc, segments.len())?;
    let shares = track_all(alloc, segments, inventory)?;
    Ok(segments_in(room, shares))
}

// The segments of shares, in a list with room for them.
fn segments_in(room: Vec<Segment>, shares: Vec<SegmentMeta>) -> Vec<Segment>
    requires empty { room.items ≡ [] }
    requires fits { vec_len shares ≤ vec_capacity room }
    ensures { result.items ≡ shares.items }
{
    let mut segments = room;
    for share in shares {
        segments.push_reserved(Segment::new(share));
    }
    segments
}
