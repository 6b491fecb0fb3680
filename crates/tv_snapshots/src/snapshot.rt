//! What is shown of a commit: its segments, with the bodies of their required files.
ghost use Rattle.std.specs.Prelude.{◌≡◌, length, map, slice_get, IfOk, Option};
ghost use Rattle.std.specs.Option.{option_copied, option_map};
ghost use Rattle.tv_machine.specs.SearcherEvents.{place_of, body_at, show_line, bytes_line};
ghost use Rattle.tv_events.specs.AnswerLines.{segment_word, line};

use crate::commit::Commit;
use std::alloc::Global;
use std::marker::Model;
use std::sync::Arc;
use tv_base::FileSlice;
use tv_formats::{LiveSegment, Memory, Opstamp, SegmentComponent, SegmentId};
use tv_machine::{Answer, Text};

// The place of a component in their order.
fn place_of(component: SegmentComponent) -> usize
    ensures { result ≡ place_of component }
{
    match component {
        SegmentComponent::Postings => 0,
        SegmentComponent::Positions => 1,
        SegmentComponent::FastFields => 2,
        SegmentComponent::FieldNorms => 3,
        SegmentComponent::Terms => 4,
        SegmentComponent::Store => 5,
        SegmentComponent::Delete => 6,
    }
}

// The line with the segments, each with how many of its documents are living.
fn with_segments(answer: Answer, segments: &[SegmentReader]) -> Result<Answer, Memory>
    ensures { IfOk result (λ whole. whole
        ≡ line answer (map segment_word (map (λ r. (r.id, r.segment)) segments.now))) }
{
    let mut whole = answer;
    for reader in segments {
        whole = whole.segment(reader.id, reader.segment)?;
    }
    Ok(whole)
}

/// A segment of a commit, with the bodies of its required files in the order of the components.
#[derive(Drop)]
pub struct SegmentReader {
    pub id: SegmentId,
    pub segment: LiveSegment,
    pub bodies: Vec<FileSlice>,
}

impl SegmentReader {
    /// A segment with these bodies. Takes no memory.
    pub fn new(id: SegmentId, segment: LiveSegment, bodies: Vec<FileSlice>) -> SegmentReader
        ensures { result ≡ record { id = id; segment = segment; bodies = bodies } }
    {
        SegmentReader {
            id,
            segment,
            bodies,
        }
    }

    /// The body of the component's file, where the segment requires it. Takes no memory.
    pub fn body(&self, component: SegmentComponent) -> Option<&FileSlice>
        ensures { option_copied result ≡ slice_get self.now.bodies.items (place_of component) }
    {
        self.bodies.get(place_of(component))
    }
}

/// A commit, with the bodies of its segments' files.
#[derive(Drop)]
struct Loaded {
    opstamp: Opstamp,
    payload: Option<Text>,
    segments: Vec<SegmentReader>,
}

/// What is shown of a commit, and under which number of its reader. A share copies nothing of it.
#[derive(Drop)]
pub struct Snapshot {
    generation: u64,
    loaded: Arc<Loaded, Global>,
}

impl Model for Snapshot {
    ghost use Rattle.std.specs.Prelude.{map};
    ghost use Rattle.std.specs.Arc.{arc_value};
    ghost use Rattle.tv_machine.specs.State.{Snapshot as Shown};

    ghost Value = { Shown };

    ghost view = { λ a. record {
      generation = a.generation;
      commit = record {
        opstamp = (arc_value a.loaded).opstamp;
        payload = (arc_value a.loaded).payload;
        segments = map (λ r. (r.id, r.segment)) (arc_value a.loaded).segments.items;
      };
      bodies = map (λ r. r.bodies.items) (arc_value a.loaded).segments.items;
    } };
}

impl Snapshot {
    /// A commit, shown under this number with the bodies of its segments.
    pub fn new(
        alloc: Global,
        generation: u64,
        commit: Commit,
        segments: Vec<SegmentReader>,
    ) -> Result<Snapshot, Memory>
        ensures { IfOk result (λ shown. shown ≡ record {
          generation = generation;
          commit = record commit { segments = map (λ r. (r.id, r.segment)) segments.items };
          bodies = map (λ r. r.bodies.items) segments.items;
        }) }
    {
        let Commit {
            opstamp,
            payload,
            segments: _,
        } = commit;
        let loaded = Loaded {
            opstamp,
            payload,
            segments,
        };
        Ok(Snapshot {
            generation,
            loaded: Arc::new(alloc, loaded)?,
        })
    }

    /// One more that shows the same.
    pub fn share(&self) -> Result<Snapshot, Memory>
        ensures { IfOk result (λ shown. shown ≡ self.now) }
    {
        Ok(Snapshot {
            generation: self.generation,
            loaded: Arc::try_clone(&self.loaded)?,
        })
    }

    /// The same, shown under another number. Takes no memory.
    pub fn numbered(self, generation: u64) -> Snapshot
        ensures { result ≡ record self { generation = generation } }
    {
        Snapshot {
            generation,
            loaded: self.loaded,
        }
    }

    /// Under which number it is shown. Takes no memory.
    pub fn generation(&self) -> u64
        ensures { result ≡ self.now.generation }
    {
        self.generation
    }

    /// The number of the commit. Takes no memory.
    pub fn opstamp(&self) -> Opstamp
        ensures { result ≡ self.now.commit.opstamp }
    {
        self.loaded.opstamp
    }

    /// How many segments the commit has. Takes no memory.
    pub fn segment_count(&self) -> usize
        ensures { result ≡ length self.now.commit.segments }
    {
        self.loaded.segments.len()
    }

    /// The body of a component's file of the segment at a place. Takes no memory.
    pub fn body(&self, ord: u32, component: SegmentComponent) -> Option<&FileSlice>
        ensures { option_copied result ≡ body_at self.now ord component }
    {
        let reader = self.loaded.segments.get(ord as usize)?;
        reader.body(component)
    }

    /// The line of a searcher with this number: the commit and its segments.
    pub fn show(&self, alloc: Global, number: u64) -> Result<Answer, Memory>
        ensures { IfOk result (λ answer. answer ≡ show_line number self.now) }
    {
        let answer = Answer::new(alloc, "show")?
            .number(number)?
            .number(self.loaded.opstamp)?
            .payload(alloc, &self.loaded.payload)?;
        let answer = with_segments(answer, self.loaded.segments.as_slice())?;
        Ok(answer)
    }

    /// The line of a searcher with this number: the body of a component's file of the segment at a
    /// place. None where there is no such segment, or it doesn't require the component.
    pub fn bytes(
        &self,
        alloc: Global,
        number: u64,
        ord: u32,
        component: SegmentComponent,
    ) -> Result<Option<Answer>, Memory>
        ensures { IfOk result (λ found. found ≡ option_map (bytes_line number ord component)
            (body_at self.now ord component)) }
    {
        let Some(body) = self.body(ord, component) else {
            return Ok(None);
        };
        let bytes = body.read_bytes()?;
        let answer = Answer::new(alloc, "bytes")?
            .number(number)?
            .number(u64::from(ord))?
            .word(component.extension().as_bytes())?
            .bytes(alloc, bytes.as_slice())?;
        Ok(Some(answer))
    }
}
