//! A segment, and its files.
ghost use Rattle.std.specs.Prelude.{◌≡◌, ◌≤◌, None, Some, IfOk, OnErr, string_bytes};
ghost use Rattle.tv_base.specs.Entries.{released};
ghost use Rattle.tv_formats.specs.Segments.{name_of};
ghost use Rattle.tv_metas.specs.Tracked.{Retracks};

use std::alloc::Global;
use std::marker::Model;
use tv_base::Opstamp;
use tv_formats::{Memory, SegmentComponent, SegmentId};
use tv_metas::{SegmentMeta, SegmentMetaInventory};

/// A segment, by a share of what is known of it. To a contract it is that share.
#[derive(Drop)]
pub struct Segment {
    meta: SegmentMeta,
}

impl Model for Segment {
    ghost use Rattle.tv_metas.specs.Tracked.{Share};

    ghost Value = { Share };

    ghost view = { λ a. a.meta };
}

impl Segment {
    // The segment of this share.
    pub(crate) fn new(meta: SegmentMeta) -> Segment
        ensures { result ≡ meta }
    {
        Segment { meta }
    }

    /// What is known of it.
    pub fn meta(&self) -> &SegmentMeta
        ensures { result.now ≡ self.now }
    {
        &self.meta
    }

    /// Its share, taken out. Takes no memory.
    pub fn into_meta(self) -> SegmentMeta
        ensures { result ≡ self }
    {
        self.meta
    }

    /// Its id.
    pub fn id(&self) -> SegmentId
        ensures { result ≡ self.now.1.0 }
    {
        self.meta.id()
    }

    /// The name of a file of the segment.
    pub fn relative_path(
        &self,
        alloc: Global,
        component: SegmentComponent,
    ) -> Result<String, Memory>
        ensures { IfOk result (λ path. string_bytes path
            ≡ name_of self.now.1.0 self.now.1.1.deletes component) }
    {
        self.meta.relative_path(alloc, component)
    }

    /// The segment with so many documents, as a share of its own. The other shares of this one keep
    /// their value; where memory is wanted, it is given back and nothing else changes.
    pub fn with_max_doc(
        self,
        max_doc: u32,
        inventory: &mut SegmentMetaInventory,
    ) -> Result<Segment, Memory>
        requires documents { self.1.1.max_doc ≡ 0 }
        requires deletes { self.1.1.deletes ≡ None }
        ensures ok { IfOk result (Retracks self.0
            (self.1.0, record { max_doc = max_doc; deletes = None }) inventory.old inventory.new) }
        ensures err { OnErr result (inventory.new ≡ released self.0 inventory.old) }
    {
        let meta = self.meta.with_max_doc(max_doc, inventory)?;
        Ok(Segment { meta })
    }

    /// The segment with these deletes, as a share of its own. The other shares of this one keep
    /// their value; where memory is wanted, it is given back and nothing else changes.
    pub fn with_delete_meta(
        self,
        num_deleted_docs: u32,
        opstamp: Opstamp,
        inventory: &mut SegmentMetaInventory,
    ) -> Result<Segment, Memory>
        requires within { num_deleted_docs ≤ self.1.1.max_doc }
        ensures ok { IfOk result (Retracks self.0 (
          self.1.0,
          record {
            max_doc = self.1.1.max_doc;
            deletes = Some (record { num_deleted_docs = num_deleted_docs; opstamp = opstamp });
          },
        ) inventory.old inventory.new) }
        ensures err { OnErr result (inventory.new ≡ released self.0 inventory.old) }
    {
        let meta = self
            .meta
            .with_delete_meta(num_deleted_docs, opstamp, inventory)?;
        Ok(Segment { meta })
    }
}
