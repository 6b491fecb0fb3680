//! The segments of a commit, which go through the registers of a writer.
ghost use Rattle.std.specs.Prelude.{◌≡◌, [], IfOk, None, OnOk, map};
ghost use Rattle.std.specs.List.{AllByRecursion};
ghost use Rattle.tv_formats.specs.Commits.{IsSegment};
ghost use Rattle.tv_metas.specs.TrackedMetas.{put_all};
ghost use Rattle.tv_registers.specs.Registers.{living_in, metas_in, tickets_in};
ghost use Rattle.tv_registers.specs.Sharing.{shared};
ghost use Rattle.tv_catalog.specs.Choosing.{is_within, with_documents, with_segment};

use std::alloc::Global;
use std::collections::BTreeMap;
use std::marker::Model;
use tv_base::TantivyError;
use tv_formats::{DeleteMeta, LiveSegment, Memory, SegmentId};
use tv_metas::{InnerSegmentMeta, SegmentMeta, SegmentMetaInventory};
use tv_registers::{DeleteCursor, SegmentEntry, SegmentManager};

// No deletes wait for their segments: each delete is applied when it comes.
const NO_DELETES: DeleteCursor = DeleteCursor(0);

/// The registers of a writer with an inventory of their own, and the segments that are to be
/// committed. To a contract it is these segments, in the order in which they came in.
#[derive(Drop)]
pub struct Registers {
    alloc: Global,
    manager: SegmentManager,
    inventory: SegmentMetaInventory,
    entries: Vec<SegmentEntry>,
}

impl Model for Registers {
    ghost use Rattle.std.specs.Prelude.{List, map, ℕ};
    ghost use Rattle.std.specs.List.{AllByRecursion};
    ghost use Rattle.tv_formats.specs.declared.segment.LiveSegment.{LiveSegment};
    ghost use Rattle.tv_catalog.specs.Choosing.{IsShareable};

    ghost Value = { List (List ℕ × LiveSegment) };

    ghost view = { λ a. map (λ e. e.meta.1) a.entries.items };

    ghost invariant = { λ a. AllByRecursion IsShareable a.inventory };
}

impl Registers {
    /// Registers without segments.
    pub fn new(alloc: Global) -> Result<Registers, Memory>
        ensures empty { IfOk result (λ registers. registers ≡ []) }
    {
        Ok(Registers {
            alloc,
            manager: SegmentManager::from_segments(alloc, Vec::new(alloc), &NO_DELETES)?,
            inventory: SegmentMetaInventory::new(alloc),
            entries: Vec::new(alloc),
        })
    }

    /// Takes a segment in, unless more of its documents are deleted than there are: that one has no
    /// living documents.
    pub fn add(&mut self, id: SegmentId, segment: LiveSegment) -> Result<(), Memory>
        ensures added { OnOk result (self.new ≡ with_segment self.old id segment) }
    {
        if !is_sound(segment) {
            return Ok(());
        }
        let segment = InnerSegmentMeta {
            segment_id: id,
            max_doc: segment.max_doc,
            deletes: segment.deletes,
        };
        let meta = segment.track(&mut self.inventory)?;
        self.entries
            .push(SegmentEntry::new(meta, NO_DELETES, None))?;
        Ok(())
    }

    /// Commits the segments, and answers those that have living documents, in the order of their
    /// ids. Of two with one id the later one stays.
    pub fn commit(self) -> Result<BTreeMap<SegmentId, LiveSegment>, Memory>
        ensures segments { IfOk result
            (λ segments. segments.entries ≡ with_documents (put_all [] self)) }
        ensures sound { IfOk result (λ segments. AllByRecursion IsSegment segments.entries) }
    {
        let Registers {
            alloc,
            mut manager,
            mut inventory,
            entries,
        } = self;
        manager.commit(entries, &mut inventory)?;
        let metas = committed_metas(&mut manager, &mut inventory)?;
        by_id(alloc, metas.as_slice())
    }
}

// Whether no more documents of a segment are deleted than there are.
fn is_sound(segment: LiveSegment) -> bool
    ensures { result ≡ is_within segment }
{
    match segment.deletes {
        Some(meta) => meta.num_deleted_docs <= segment.max_doc,
        None => true,
    }
}

// What is known of the committed segments that have living documents, where each of them can be
// shared once more.
fn committed_metas(
    manager: &mut SegmentManager,
    inventory: &mut SegmentMetaInventory,
) -> Result<Vec<SegmentMeta>, Memory>
    requires { shared (tickets_in (living_in manager.old.committed)) inventory.old ≡ None → ⊥ }
    ensures { IfOk result (λ metas. metas.items ≡ metas_in (living_in manager.old.committed)) }
{
    match manager.committed_segment_metas(inventory) {
        Ok(metas) => Ok(metas),
        Err(TantivyError::Memory) => Err(Memory),
        Err(_) => unreachable!(),
    }
}

// What a commit has of a segment beside its id.
fn live_of(meta: &SegmentMeta) -> LiveSegment
    ensures { result ≡ meta.now.1.1 }
{
    let deletes = match meta.delete_opstamp() {
        Some(opstamp) => Some(DeleteMeta {
            num_deleted_docs: meta.num_deleted_docs(),
            opstamp,
        }),
        None => None,
    };
    LiveSegment {
        max_doc: meta.max_doc(),
        deletes,
    }
}

// The segments by their ids.
fn by_id(alloc: Global, metas: &[SegmentMeta]) -> Result<BTreeMap<SegmentId, LiveSegment>, Memory>
    ensures segments { IfOk result
        (λ segments. segments.entries ≡ put_all [] (map (λ m. m.1) metas.now)) }
    ensures sound { IfOk result (λ segments. AllByRecursion IsSegment segments.entries) }
{
    let mut segments = BTreeMap::new(alloc);
    for meta in metas {
        meta.is_segment();
        segments.insert(meta.id(), live_of(meta))?;
    }
    Ok(segments)
}
