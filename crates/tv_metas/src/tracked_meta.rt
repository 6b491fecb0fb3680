//! A commit whose segments an inventory keeps.
ghost use Rattle.std.specs.Prelude.{◌≡◌, ◌≤◌, [], All, IfOk, OnErr, map};
ghost use Rattle.tv_formats.specs.Commits.{Commit, default_settings, first_commit, printed};
ghost use Rattle.tv_formats.specs.Segments.{num_deleted};
ghost use Rattle.tv_metas.specs.Metas.{commit_of, settings_of};
ghost use Rattle.tv_metas.specs.Tracked.{TrackAll};
ghost use Rattle.tv_metas.specs.TrackedMetas.{IsInOrder, put_all, tracked_commit, tracked_settings};

use crate::index_meta::UntrackedIndexMeta;
use crate::index_settings::IndexSettings;
use crate::meta_text::print_meta;
use crate::schema::Schema;
use crate::segments::metas_of;
use crate::tracked::{SegmentMeta, SegmentMetaInventory};
use crate::tracking::track_all;
use std::alloc::Global;
use std::collections::BTreeMap;
use tv_formats::{LiveSegment, Memory, Opstamp, SegmentId};

/// A commit, its settings and its schema, with a share of each segment.
#[derive(Drop)]
pub struct IndexMeta {
    /// How the documents of the index are kept.
    pub index_settings: IndexSettings,
    /// The segments of the commit, in any order.
    pub segments: Vec<SegmentMeta>,
    /// The schema of the index.
    pub schema: Schema,
    /// The number of the commit.
    pub opstamp: Opstamp,
    /// What its writer added.
    pub payload: Option<String>,
}

impl IndexMeta {
    /// The commit of an index that was just made with this schema. Takes no memory.
    pub fn with_schema(alloc: Global, schema: Schema) -> IndexMeta
        ensures settings { tracked_settings result ≡ default_settings }
        ensures schema { result.schema ≡ schema }
        ensures commit { tracked_commit result ≡ first_commit }
    {
        IndexMeta {
            index_settings: IndexSettings::new(),
            segments: Vec::new(alloc),
            schema,
            opstamp: 0,
            payload: None,
        }
    }

    /// The text of `meta.json`, without its line feed. Where no id stands twice, the segments stand
    /// there in the order of their ids. Of two shares with one id nothing is said.
    pub fn print(&self, alloc: Global) -> Result<Vec<u8>, Memory>
        ensures text { IfOk result (λ text. (commit : Commit)
            → IsInOrder (tracked_commit self.now) commit
            → text.items ≡ printed (tracked_settings self.now) self.now.schema commit) }
    {
        let found = by_id(alloc, self.segments.as_slice())?;
        let segments = metas_of(alloc, &found)?;
        print_meta(
            alloc,
            &self.index_settings,
            &self.schema,
            segments.as_slice(),
            self.opstamp,
            self.payload.as_deref(),
        )
    }
}

impl UntrackedIndexMeta {
    /// The same with a share of each segment, which the inventory takes in. Where memory is wanted,
    /// it takes none of them in.
    pub fn track(self, inventory: &mut SegmentMetaInventory) -> Result<IndexMeta, Memory>
        requires within { All (λ s. num_deleted s.deletes ≤ s.max_doc) self.segments.items }
        ensures settings { IfOk result (λ meta. tracked_settings meta ≡ settings_of self) }
        ensures schema { IfOk result (λ meta. meta.schema ≡ self.schema) }
        ensures commit { IfOk result (λ meta. tracked_commit meta ≡ commit_of self) }
        ensures tracks { IfOk result (λ meta.
            TrackAll meta.segments.items inventory.old inventory.new) }
        ensures err { OnErr result (inventory.new ≡ inventory.old) }
    {
        let alloc = *self.segments.allocator();
        let segments = track_all(alloc, self.segments.as_slice(), inventory)?;
        Ok(IndexMeta {
            index_settings: self.index_settings,
            segments,
            schema: self.schema,
            opstamp: self.opstamp,
            payload: self.payload,
        })
    }
}

// The segments by their ids.
fn by_id(
    alloc: Global,
    segments: &[SegmentMeta],
) -> Result<BTreeMap<SegmentId, LiveSegment>, Memory>
    ensures { IfOk result (λ found. found.entries ≡ put_all [] (map (λ s. s.1) segments.now)) }
{
    let mut found = BTreeMap::new(alloc);
    for segment in segments {
        found.insert(segment.id(), segment.live())?;
    }
    Ok(found)
}
