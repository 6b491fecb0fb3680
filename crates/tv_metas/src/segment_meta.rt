//! What is known of a segment of a commit.
ghost use Rattle.std.specs.Prelude.{◌≡◌, ◌≤◌, IfOk, OnErr};
ghost use Rattle.tv_formats.specs.Segments.{num_deleted};
ghost use Rattle.tv_metas.specs.Segments.{entry_of};
ghost use Rattle.tv_metas.specs.Tracked.{Tracks};

use crate::tracked::{SegmentMeta, SegmentMetaInventory};
use tv_formats::{DeleteMeta, LiveSegment, Memory, SegmentId};

/// What is known of a segment of a commit, as `meta.json` has it.
#[derive(Clone, Copy)]
pub struct InnerSegmentMeta {
    /// Its id.
    pub segment_id: SegmentId,
    /// How many documents it has, deleted ones among them.
    pub max_doc: u32,
    /// Its deletes, if there are any.
    pub deletes: Option<DeleteMeta>,
}

impl InnerSegmentMeta {
    /// What a commit has of it beside its id. Takes no memory.
    pub fn live(&self) -> LiveSegment
        ensures { result ≡ (entry_of self.now).1 }
    {
        LiveSegment {
            max_doc: self.max_doc,
            deletes: self.deletes,
        }
    }

    /// Takes the segment into an inventory. No more documents are deleted than there are.
    pub fn track(self, inventory: &mut SegmentMetaInventory) -> Result<SegmentMeta, Memory>
        requires within { num_deleted self.deletes ≤ self.max_doc }
        ensures ok { IfOk result (Tracks (entry_of self) inventory.old inventory.new) }
        ensures err { OnErr result (inventory.new ≡ inventory.old) }
    {
        inventory.track(&self)
    }
}
