//! The current commit, and how it is printed.
ghost use Rattle.std.specs.Prelude.{◌≡◌, ◌<◌, ◌^◌, ◌++◌, [], ◌∷◌, IfOk, IfSome, is_some, length, map, option_map, string_bytes};
ghost use Rattle.std.specs.Option.{option_copied};
ghost use Rattle.std.specs.Str.{IsUtf8};
ghost use Rattle.tv_formats.specs.Commits.{printed};
ghost use Rattle.tv_formats.specs.Names.{at};
ghost use Rattle.tv_metas.specs.Segments.{entry_of};
ghost use Rattle.tv_metas.specs.Settings.{settings_view};
ghost use Rattle.tv_machine.specs.Index.{next_after};
ghost use Rattle.tv_machine.specs.Lines.{opening_of};
ghost use Rattle.tv_snapshots.specs.SegmentOrder.{IsSorted};

use std::alloc::Global;
use std::collections::BTreeMap;
use std::marker::Model;
use tv_formats::{LiveSegment, Memory, Opstamp, SegmentId};
use tv_machine::{Answer, Text};
use tv_metas::{IndexSettings, InnerSegmentMeta, Schema, metas_of, print_meta};

// A payload, as a commit has it. Takes no memory.
fn text_of(payload: Option<String>) -> Option<Text>
    ensures { result ≡ option_map string_bytes payload }
{
    match payload {
        Some(text) => Some(Text::new(text)),
        None => None,
    }
}

/// A copy of a payload.
pub fn copied(alloc: Global, payload: &Option<Text>) -> Result<Option<Text>, Memory>
    ensures same { IfOk result (λ copy. copy ≡ payload.now) }
    ensures text { IfOk result (λ copy. IfSome copy IsUtf8) }
{
    let Some(text) = payload else {
        return Ok(None);
    };
    let copy = String::from_str(alloc, text.as_str())?;
    Ok(Some(Text::new(copy)))
}

// The segments of a commit by their ids, in whose order they stand.
fn segments_by_id(
    alloc: Global,
    segments: &[InnerSegmentMeta],
) -> Result<BTreeMap<SegmentId, LiveSegment>, Memory>
    requires { IsSorted (map entry_of segments.now) }
    ensures { IfOk result (λ by_id. by_id.entries ≡ map entry_of segments.now) }
{
    let mut by_id = BTreeMap::new(alloc);
    for segment in segments {
        by_id.insert(segment.segment_id, segment.live())?;
    }
    Ok(by_id)
}

/// A commit: its number, what its writer added, and its segments by id.
#[derive(Drop)]
pub struct Commit {
    pub opstamp: Opstamp,
    pub payload: Option<Text>,
    pub segments: BTreeMap<SegmentId, LiveSegment>,
}

impl Model for Commit {
    ghost use Rattle.tv_formats.specs.Commits.{Commit as Committed};

    ghost Value = { Committed };

    ghost view = { λ a. record {
      opstamp = a.opstamp;
      payload = a.payload;
      segments = a.segments.entries;
    } };
}

impl Commit {
    /// A commit of these segments.
    pub fn new(
        opstamp: Opstamp,
        payload: Option<Text>,
        segments: BTreeMap<SegmentId, LiveSegment>,
    ) -> Commit
        ensures { result ≡ record {
          opstamp = opstamp;
          payload = payload;
          segments = segments.entries;
        } }
    {
        Commit {
            opstamp,
            payload,
            segments,
        }
    }

    /// The commit that `meta.json` has, whose segments stand in the order of their ids.
    pub fn from_meta(
        alloc: Global,
        opstamp: Opstamp,
        payload: Option<String>,
        segments: &[InnerSegmentMeta],
    ) -> Result<Commit, Memory>
        requires { IsSorted (map entry_of segments.now) }
        ensures { IfOk result (λ commit. commit ≡ record {
          opstamp = opstamp;
          payload = option_map string_bytes payload;
          segments = map entry_of segments.now;
        }) }
    {
        let segments = segments_by_id(alloc, segments)?;
        Ok(Commit::new(opstamp, text_of(payload), segments))
    }

    /// A copy of it.
    pub fn share(&self, alloc: Global) -> Result<Commit, Memory>
        ensures { IfOk result (λ commit. commit ≡ self.now) }
    {
        let payload = copied(alloc, &self.payload)?;
        let segments = self.segments.clone()?;
        Ok(Commit::new(self.opstamp, payload, segments))
    }

    /// Its number.
    pub fn opstamp(&self) -> Opstamp
        ensures { result ≡ self.now.opstamp }
    {
        self.opstamp
    }

    /// Of how many segments it is.
    pub fn len(&self) -> usize
        ensures { result ≡ length self.now.segments }
    {
        self.segments.len()
    }

    /// The number of the commit after it. Takes no memory.
    pub fn next_opstamp(&self) -> Opstamp
        ensures { result ≡ next_after self.now.opstamp }
    {
        self.opstamp.saturating_add(1)
    }

    /// The line of an opening that finds it.
    pub fn opening_line(&self, alloc: Global) -> Result<Answer, Memory>
        ensures { IfOk result (λ line. line ≡ opening_of self.now) }
    {
        Answer::new(alloc, "open")?
            .number(self.opstamp)?
            .number(self.len() as u64)
    }

    /// Its segments, in the order of their ids.
    pub fn segments(&self, alloc: Global) -> Result<Vec<(SegmentId, LiveSegment)>, Memory>
        ensures { IfOk result (λ segments. segments.items ≡ self.now.segments) }
    {
        listed(alloc, &self.segments)
    }

    /// Its segments by their ids.
    pub fn by_id(&self) -> &BTreeMap<SegmentId, LiveSegment>
        ensures { result.now.entries ≡ self.now.segments }
    {
        &self.segments
    }

    /// Whether the segment is one of its own.
    pub fn has_segment(&self, id: SegmentId) -> bool
        ensures { result ≡ is_some (at self.now.segments id) }
    {
        self.segments.contains_key(&id)
    }

    /// The segment of this id, where it is one of its own.
    pub fn segment(&self, id: SegmentId) -> Option<LiveSegment>
        ensures { result ≡ at self.now.segments id }
    {
        self.segments.get(&id).copied()
    }

    // The text of its payload.
    fn payload_text(&self) -> Option<&str>
        ensures { option_copied result ≡ self.now.payload }
    {
        match &self.payload {
            Some(text) => Some(text.as_str()),
            None => None,
        }
    }

    /// The text of `meta.json` of an index with these settings and this schema.
    pub fn print(
        &self,
        alloc: Global,
        settings: &IndexSettings,
        schema: &Schema,
    ) -> Result<Vec<u8>, Memory>
        ensures text { IfOk result (λ text. text.items
            ≡ printed (settings_view settings.now) schema.now self.now ++ 10 ∷ []) }
        ensures blocksize { (settings_view settings.now).blocksize < 2 ^ 64 }
    {
        let _blocksize = settings.docstore_blocksize;
        let metas = metas_of(alloc, &self.segments)?;
        let payload = self.payload_text();
        let segments = metas.as_slice();
        let mut text = print_meta(alloc, settings, schema, segments, self.opstamp, payload)?;
        text.push(b'\n')?;
        Ok(text)
    }
}

/// Some segments as a list, in the order of their ids.
pub fn listed(
    alloc: Global,
    segments: &BTreeMap<SegmentId, LiveSegment>,
) -> Result<Vec<(SegmentId, LiveSegment)>, Memory>
    ensures { IfOk result (λ list. list.items ≡ segments.now.entries) }
{
    let mut list = Vec::new(alloc);
    for (id, live) in segments {
        list.push((*id, *live))?;
    }
    Ok(list)
}
