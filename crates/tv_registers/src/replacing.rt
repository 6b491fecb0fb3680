//! Segments that come into a register or go out of it, and whose shares are counted.
ghost use Rattle.std.specs.Prelude.{◌≡◌, [], IfOk, OnErr, OnOk, filter, map, not};
ghost use Rattle.std.specs.List.Sorted.{IsStrictlySortedBy};
ghost use Rattle.tv_base.specs.Entries.{released};
ghost use Rattle.tv_formats.specs.Names.{byte_cmp, is};
ghost use Rattle.tv_registers.specs.Registers.{emptied, given_back, replaced, ticket_of, tickets_in};
ghost use Rattle.tv_registers.specs.Registers.{with_each, with_entry, without_each, without_id};
ghost use Rattle.tv_registers.specs.Sharing.{releases};

use crate::segment_entry::SegmentEntry;
use std::alloc::Global;
use std::collections::BTreeMap;
use tv_formats::{Memory, SegmentId};
use tv_metas::SegmentMetaInventory;

/// Puts a segment in. One that had its id goes out, and its share is given back. Where memory is
/// wanted, the share of the new one is given back, and else nothing changes.
pub(crate) fn put_entry(
    segments: &mut BTreeMap<SegmentId, SegmentEntry>,
    entry: SegmentEntry,
    inventory: &mut SegmentMetaInventory,
) -> Result<(), Memory>
    ensures ok { OnOk result ((segments.new.entries, inventory.new)
        ≡ with_entry entry (segments.old.entries, inventory.old)) }
    ensures err { OnErr result ((segments.new.entries ≡ segments.old.entries)
        × (inventory.new ≡ released (ticket_of entry) inventory.old)) }
    ensures ordered { IsStrictlySortedBy byte_cmp (map (λ e. e.0) segments.new.entries) }
    ensures was_ordered { IsStrictlySortedBy byte_cmp (map (λ e. e.0) segments.old.entries) }
{
    match segments.insert(entry.segment_id(), entry) {
        Ok(Some(former)) => former.release(inventory),
        Ok(None) => {}
        Err(refused) => {
            let (_, entry) = refused.value;
            entry.release(inventory);
            return Err(Memory);
        }
    }
    Ok(())
}

// Puts segments in as long as there is memory, and gives the shares of the others back.
fn put_each(
    segments: &mut BTreeMap<SegmentId, SegmentEntry>,
    entries: Vec<SegmentEntry>,
    inventory: &mut SegmentMetaInventory,
) -> Result<(), Memory>
    requires empty { segments.old.entries ≡ [] }
    ensures ok { OnOk result ((segments.new.entries, inventory.new)
        ≡ with_each entries.items ([], inventory.old)) }
    ensures err { OnErr result (releases (tickets_in segments.new.entries) inventory.new
        ≡ releases (map ticket_of entries.items) inventory.old) }
{
    let mut put = Ok(());
    for entry in entries {
        match put {
            Ok(()) => put = put_entry(segments, entry, inventory),
            Err(Memory) => entry.release(inventory),
        }
    }
    put
}

/// These segments by their ids. Of two with one id the later one stays, and the share of the other
/// is given back. Where memory is wanted, all shares are given back.
pub(crate) fn by_id(
    alloc: Global,
    entries: Vec<SegmentEntry>,
    inventory: &mut SegmentMetaInventory,
) -> Result<BTreeMap<SegmentId, SegmentEntry>, Memory>
    ensures ok { IfOk result (λ segments.
        (segments.entries, inventory.new) ≡ with_each entries.items ([], inventory.old)) }
    ensures err { OnErr result
        (inventory.new ≡ releases (map ticket_of entries.items) inventory.old) }
{
    let mut segments = BTreeMap::new(alloc);
    match put_each(&mut segments, entries, inventory) {
        Ok(()) => Ok(segments),
        Err(Memory) => {
            take_all(&mut segments, inventory);
            Err(Memory)
        }
    }
}

/// Takes all segments out, and gives their shares back.
pub(crate) fn take_all(
    segments: &mut BTreeMap<SegmentId, SegmentEntry>,
    inventory: &mut SegmentMetaInventory,
)
    ensures { (segments.new.entries, inventory.new)
        ≡ emptied (segments.old.entries, inventory.old) }
{
    while let Some((_, entry)) = segments.pop_first() {
        entry.release(inventory);
    }
}

/// Takes the segment of an id out, if there is one, and gives its share back.
pub(crate) fn take_entry(
    segments: &mut BTreeMap<SegmentId, SegmentEntry>,
    id: &SegmentId,
    inventory: &mut SegmentMetaInventory,
)
    ensures { (segments.new.entries, inventory.new)
        ≡ without_id id.now (segments.old.entries, inventory.old) }
{
    if let Some(entry) = segments.remove(id) {
        entry.release(inventory);
    }
}

/// Takes the segments of these ids out, as far as they are there.
pub(crate) fn take_each(
    segments: &mut BTreeMap<SegmentId, SegmentEntry>,
    ids: &[SegmentId],
    inventory: &mut SegmentMetaInventory,
)
    ensures { (segments.new.entries, inventory.new)
        ≡ without_each ids.now (segments.old.entries, inventory.old) }
{
    for id in ids {
        take_entry(segments, id, inventory);
    }
}

// Takes the segments of these ids out, as far as they are there, but that of one id.
fn take_others(
    segments: &mut BTreeMap<SegmentId, SegmentEntry>,
    ids: &[SegmentId],
    stays: SegmentId,
    inventory: &mut SegmentMetaInventory,
)
    ensures { (segments.new.entries, inventory.new)
        ≡ without_each (filter (λ id. not (is stays id)) ids.now)
        (segments.old.entries, inventory.old) }
{
    for id in ids {
        if stays != *id {
            take_entry(segments, id, inventory);
        }
    }
}

/// Puts a segment, if there is one, in the place of those of these ids.
///
/// It is put in first, since that wants memory: where there is none, its share is given back, and
/// else nothing changes.
pub(crate) fn replace_each(
    segments: &mut BTreeMap<SegmentId, SegmentEntry>,
    ids: &[SegmentId],
    entry: Option<SegmentEntry>,
    inventory: &mut SegmentMetaInventory,
) -> Result<(), Memory>
    ensures ok { OnOk result ((segments.new.entries, inventory.new)
        ≡ replaced ids.now entry (segments.old.entries, inventory.old)) }
    ensures err { OnErr result ((segments.new.entries ≡ segments.old.entries)
        × (inventory.new ≡ given_back entry inventory.old)) }
{
    let Some(entry) = entry else {
        take_each(segments, ids, inventory);
        return Ok(());
    };
    let id = entry.segment_id();
    put_entry(segments, entry, inventory)?;
    take_others(segments, ids, id, inventory);
    Ok(())
}
