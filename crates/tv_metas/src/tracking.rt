//! Segments that are taken into an inventory together.
ghost use Rattle.std.specs.Prelude.{◌≡◌, ◌≤◌, [], All, IfOk, OnErr, OnOk, map};
ghost use Rattle.tv_formats.specs.Segments.{num_deleted};
ghost use Rattle.tv_metas.specs.Segments.{entry_of};
ghost use Rattle.tv_metas.specs.Tracked.{KeptMetas, TrackAll};

use crate::segment_meta::InnerSegmentMeta;
use crate::tracked::{SegmentMeta, SegmentMetaInventory};
use std::alloc::Global;
use tv_formats::Memory;

/// Takes segments in, of each of which no more documents are deleted than there are, and gives a share
/// of each, in their order. Where memory is wanted, it takes none of them in.
pub fn track_all(
    alloc: Global,
    segments: &[InnerSegmentMeta],
    inventory: &mut SegmentMetaInventory,
) -> Result<Vec<SegmentMeta>, Memory>
    requires within { All (λ s. num_deleted s.deletes ≤ s.max_doc) segments.now }
    ensures segments { IfOk result (λ shares.
        map (λ s. s.1) shares.items ≡ map entry_of segments.now) }
    ensures tracks { IfOk result (λ shares. TrackAll shares.items inventory.old inventory.new) }
    ensures err { OnErr result (inventory.new ≡ inventory.old) }
{
    let mut shares = Vec::new(alloc);
    match track_each(segments, inventory, &mut shares) {
        Ok(()) => Ok(shares),
        Err(error) => {
            release_all(shares, inventory);
            Err(error)
        }
    }
}

// Takes segments in as long as there is memory.
fn track_each(
    segments: &[InnerSegmentMeta],
    inventory: &mut SegmentMetaInventory,
    shares: &mut Vec<SegmentMeta>,
) -> Result<(), Memory>
    requires empty { shares.old.items ≡ [] }
    requires within { All (λ s. num_deleted s.deletes ≤ s.max_doc) segments.now }
    ensures segments { OnOk result (map (λ s. s.1) shares.new.items ≡ map entry_of segments.now) }
    ensures tracks { TrackAll shares.new.items inventory.old inventory.new }
{
    for segment in segments {
        let share = inventory.track(segment)?;
        if let Err(refused) = shares.push(share) {
            inventory.release(refused.value);
            return Err(Memory);
        }
    }
    Ok(())
}

// Gives shares back, the last one first.
fn release_all(shares: Vec<SegmentMeta>, inventory: &mut SegmentMetaInventory)
    ensures { (before : KeptMetas) → TrackAll shares.items before inventory.old
        → inventory.new ≡ before }
{
    let mut shares = shares;
    while let Some(share) = shares.pop() {
        inventory.release(share);
    }
}
