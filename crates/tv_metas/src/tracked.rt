//! Segments that an inventory keeps as long as they are shared.
ghost use Rattle.std.specs.Prelude.{◌≡◌, ◌≤◌, ◌↔◌, [], ℕ, List, Some, None, All, IfOk, IsErr, MatchResult, OnErr, OnOk, false, find, map, nat_lt, option_map, string_bytes};
ghost use Rattle.std.specs.List.{list_any};
ghost use Rattle.std.specs.Option.{IsSomeAnd};
ghost use Rattle.tv_base.specs.Entries.{IsFull, is_numbered, is_full, one_more, released};
ghost use Rattle.tv_formats.specs.Commits.{IsSegment};
ghost use Rattle.tv_formats.specs.Listing.{IsListFile};
ghost use Rattle.tv_formats.specs.Segments.{segment_names, delete_opstamp, name_of, num_deleted, num_docs};
ghost use Rattle.tv_formats.specs.Names.{has};
ghost use Rattle.tv_metas.specs.Segments.{entry_of};
ghost use Rattle.tv_metas.specs.Tracked.{IsShared, Retracks, ShareAllCause, Shares, Tracks, file_of, has_id, share_of};

use crate::naming::{push_names, set_of};
use crate::segment_meta::InnerSegmentMeta;
use std::alloc::Global;
use std::collections::BTreeSet;
use std::marker::Model;
use tv_base::{Exhausted, Inventory, Opstamp, TantivyError, Ticket};
use tv_formats::{
    DeleteMeta, FileName, LiveSegment, Memory, SegmentComponent, SegmentId, segment_file_name,
};

/// A share of a segment that an inventory keeps. To a contract it is the number of its ticket, and
/// the segment by its id.
#[derive(Drop)]
pub struct SegmentMeta {
    ticket: Ticket,
    inner: InnerSegmentMeta,
}

impl Model for SegmentMeta {
    ghost use Rattle.std.specs.Prelude.{◌≤◌, List, ℕ};
    ghost use Rattle.tv_formats.specs.declared.segment.LiveSegment.{LiveSegment};
    ghost use Rattle.tv_formats.specs.Segments.{num_deleted};
    ghost use Rattle.tv_metas.specs.Segments.{entry_of};

    ghost Value = { ℕ × (List ℕ × LiveSegment) };

    ghost view = { λ m. (m.ticket, entry_of m.inner) };

    ghost invariant = { λ m. num_deleted m.inner.deletes ≤ m.inner.max_doc };
}

impl SegmentMeta {
    // What a commit has of the segment beside its id.
    pub(crate) fn live(&self) -> LiveSegment
        ensures { result ≡ self.now.1.1 }
    {
        self.inner.live()
    }

    /// It is a segment of a commit: its numbers are within their ranges. Does nothing.
    pub fn is_segment(&self)
        ensures { IsSegment self.now.1 }
    {
        let _id = self.inner.segment_id.as_bytes();
        let _max_doc = self.inner.max_doc;
        let _opstamp = opstamp_of(self.inner.deletes);
    }

    /// The id of the segment.
    pub fn id(&self) -> SegmentId
        ensures { result ≡ self.now.1.0 }
    {
        self.inner.segment_id
    }

    /// How many documents it has, deleted ones among them.
    pub fn max_doc(&self) -> u32
        ensures { result ≡ self.now.1.1.max_doc }
    {
        self.inner.max_doc
    }

    /// How many documents are deleted, no more than there are.
    pub fn num_deleted_docs(&self) -> u32
        ensures deleted { result ≡ num_deleted self.now.1.1.deletes }
        ensures within { result ≤ self.now.1.1.max_doc }
    {
        match self.inner.deletes {
            Some(meta) => meta.num_deleted_docs,
            None => 0,
        }
    }

    /// How many documents are living.
    pub fn num_docs(&self) -> u32
        ensures { result ≡ num_docs self.now.1.1 }
    {
        self.live().num_docs()
    }

    /// The number of the delete, if there was one.
    pub fn delete_opstamp(&self) -> Option<Opstamp>
        ensures { result ≡ option_map (λ meta. meta.opstamp) self.now.1.1.deletes }
    {
        match self.inner.deletes {
            Some(meta) => Some(meta.opstamp),
            None => None,
        }
    }

    /// Whether documents are deleted.
    pub fn has_deletes(&self) -> bool
        ensures { result ≡ nat_lt 0 (num_deleted self.now.1.1.deletes) }
    {
        self.live().has_deletes()
    }

    /// The name of a file of the segment, which is no file of the list of managed files.
    pub fn file_name(&self, alloc: Global, component: SegmentComponent) -> Result<FileName, Memory>
        ensures name { IfOk result (λ name. name ≡ file_of self.now component) }
        ensures other { IfOk result (λ name. IsListFile name → ⊥) }
    {
        let inner = self.inner;
        segment_file_name(alloc, inner.segment_id, inner.deletes, component)
    }

    /// The name of a file of the segment.
    pub fn relative_path(
        &self,
        alloc: Global,
        component: SegmentComponent,
    ) -> Result<String, Memory>
        ensures { IfOk result (λ path. string_bytes path
            ≡ name_of self.now.1.0 self.now.1.1.deletes component) }
    {
        let name = self.file_name(alloc, component)?;
        Ok(name.into_string())
    }

    /// The names of all its files, whether there are such files or not.
    pub fn list_files(&self, alloc: Global) -> Result<BTreeSet<String>, Memory>
        ensures { IfOk result (λ files. (n : List ℕ)
            → has (map string_bytes files.keys) n ≡ has (segment_names self.now.1) n) }
    {
        let mut names = Vec::new(alloc);
        push_names(alloc, &mut names, self.inner.segment_id, self.live())?;
        set_of(alloc, names)
    }

    /// The segment with so many documents, as a share of its own. The other shares of this one keep
    /// their value; where memory is wanted, it is given back and nothing else changes.
    pub fn with_max_doc(
        self,
        max_doc: u32,
        inventory: &mut SegmentMetaInventory,
    ) -> Result<SegmentMeta, Memory>
        requires documents { self.1.1.max_doc ≡ 0 }
        requires deletes { self.1.1.deletes ≡ None }
        ensures ok { IfOk result (Retracks self.0
            (self.1.0, record { max_doc = max_doc; deletes = None }) inventory.old inventory.new) }
        ensures err { OnErr result (inventory.new ≡ released self.0 inventory.old) }
    {
        let changed = InnerSegmentMeta {
            max_doc,
            ..self.inner
        };
        inventory.replace(self.ticket, changed)
    }

    /// The segment with these deletes, as a share of its own. The other shares of this one keep
    /// their value; where memory is wanted, it is given back and nothing else changes.
    pub fn with_delete_meta(
        self,
        num_deleted_docs: u32,
        opstamp: Opstamp,
        inventory: &mut SegmentMetaInventory,
    ) -> Result<SegmentMeta, Memory>
        requires within { num_deleted_docs ≤ self.1.1.max_doc }
        ensures ok { IfOk result (Retracks self.0 (
          self.1.0,
          record {
            max_doc = self.1.1.max_doc;
            deletes = Some (record { num_deleted_docs = num_deleted_docs; opstamp = opstamp });
          },
        ) inventory.old inventory.new) }
        ensures err { OnErr result (inventory.new ≡ released self.0 inventory.old) }
    {
        let deletes = Some(DeleteMeta {
            num_deleted_docs,
            opstamp,
        });
        let changed = InnerSegmentMeta {
            deletes,
            ..self.inner
        };
        inventory.replace(self.ticket, changed)
    }
}

// The number of a delete, 0 where there is none.
fn opstamp_of(deletes: Option<DeleteMeta>) -> Opstamp
    ensures { result ≡ delete_opstamp deletes }
{
    match deletes {
        Some(meta) => meta.opstamp,
        None => 0,
    }
}

/// Segments in the order in which they were tracked. To a contract it is the list of its entries.
#[derive(Drop)]
pub struct SegmentMetaInventory {
    segments: Inventory<InnerSegmentMeta>,
}

impl Model for SegmentMetaInventory {
    ghost use Rattle.std.specs.Prelude.{All};
    ghost use Rattle.tv_metas.specs.Tracked.{IsShared, KeptMetas};

    ghost Value = { KeptMetas };

    ghost view = { λ a. a.segments.entries };

    ghost invariant = { λ a. All IsShared a.segments.entries };
}

impl SegmentMetaInventory {
    /// No segments. Takes no memory.
    pub fn new(alloc: Global) -> SegmentMetaInventory
        ensures empty { result ≡ [] }
    {
        SegmentMetaInventory {
            segments: Inventory::new(alloc),
        }
    }

    /// Takes a segment without deletes in.
    pub fn new_segment_meta(
        &mut self,
        segment_id: SegmentId,
        max_doc: u32,
    ) -> Result<SegmentMeta, Memory>
        ensures ok { IfOk result (Tracks (segment_id, record { max_doc = max_doc; deletes = None })
            self.old self.new) }
        ensures err { OnErr result (self.new ≡ self.old) }
    {
        self.track(&InnerSegmentMeta {
            segment_id,
            max_doc,
            deletes: None,
        })
    }

    /// One more share of the segment. Takes no memory.
    pub fn share(&mut self, meta: &SegmentMeta) -> Result<SegmentMeta, Exhausted>
        ensures ok { IfOk result (Shares meta.now self.old self.new) }
        ensures err { OnErr result (self.new ≡ self.old) }
        ensures full { IsErr result ↔ IsSomeAnd (find (is_numbered meta.now.0) self.old) IsFull }
    {
        let ticket = self.segments.share(&meta.ticket)?;
        Ok(SegmentMeta {
            ticket,
            inner: meta.inner,
        })
    }

    /// Gives a share back. With the last one the segment is dropped. Takes no memory.
    pub fn release(&mut self, meta: SegmentMeta)
        ensures released { self.new ≡ released meta.0 self.old }
    {
        self.segments.release(meta.ticket);
    }

    /// A share of every segment, in the order in which they were tracked.
    ///
    /// `Exhausted` comes where a segment has as many shares as can be counted, and `Memory` where
    /// memory is wanted. Then no share was taken.
    pub fn all(&mut self, alloc: Global) -> Result<Vec<SegmentMeta>, TantivyError>
        ensures shares { IfOk result (λ shares. shares.items ≡ map share_of self.old) }
        ensures ok { OnOk result (self.new ≡ map one_more self.old) }
        ensures err { OnErr result (self.new ≡ self.old) }
        ensures cause { MatchResult result (λ _. list_any is_full self.old ≡ false)
            (ShareAllCause self.old) }
    {
        let shares = shares_of(alloc, &self.segments)?;
        match self.segments.share_all() {
            Ok(()) => Ok(shares),
            Err(Exhausted) => Err(TantivyError::Exhausted),
        }
    }

    /// Whether a segment has this id. Takes no memory.
    pub fn has_id(&self, id: SegmentId) -> bool
        ensures { result ≡ has_id self.now id }
    {
        self.segments.entries().any(|e| e.value.segment_id == id)
    }

    // Takes a segment in.
    pub(crate) fn track(&mut self, inner: &InnerSegmentMeta) -> Result<SegmentMeta, Memory>
        requires within { num_deleted inner.now.deletes ≤ inner.now.max_doc }
        ensures ok { IfOk result (Tracks (entry_of inner.now) self.old self.new) }
        ensures err { OnErr result (self.new ≡ self.old) }
    {
        let ticket = self.segments.track(*inner)?;
        Ok(SegmentMeta {
            ticket,
            inner: *inner,
        })
    }

    // Takes a changed segment in, and gives a share of the former one back.
    fn replace(&mut self, former: Ticket, inner: InnerSegmentMeta) -> Result<SegmentMeta, Memory>
        requires within { num_deleted inner.deletes ≤ inner.max_doc }
        ensures ok { IfOk result (Retracks former (entry_of inner) self.old self.new) }
        ensures err { OnErr result (self.new ≡ released former self.old) }
    {
        let tracked = self.track(&inner);
        self.segments.release(former);
        tracked
    }
}

// A share of each of these segments, which no ticket counts so far.
fn shares_of(
    alloc: Global,
    segments: &Inventory<InnerSegmentMeta>,
) -> Result<Vec<SegmentMeta>, Memory>
    requires { All IsShared segments.now.entries }
    ensures { IfOk result (λ shares. shares.items ≡ map share_of segments.now.entries) }
{
    let entries = segments.entries();
    let mut shares = Vec::with_capacity(alloc, entries.len())?;
    for entry in entries {
        shares.push(SegmentMeta {
            ticket: Ticket::new(entry.number),
            inner: entry.value,
        })?;
    }
    Ok(shares)
}
