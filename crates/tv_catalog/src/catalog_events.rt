//! The events that touch no file.
ghost use Rattle.std.specs.Prelude.{◌≡◌, ◌<◌, ◌^◌, [], ◌∷◌, None, IfOk, OnErr, codes, map, option_map, string_bytes, true};
ghost use Rattle.std.specs.List.{list_all};
ghost use Rattle.std.specs.Fmt.{decimal};
ghost use Rattle.hex.specs.Hex.{encode_lower};
ghost use Rattle.tv_formats.specs.Ids.{IsId};
ghost use Rattle.tv_events.specs.AnswerLines.{line};
ghost use Rattle.tv_formats.specs.Names.{is_plain};
ghost use Rattle.tv_machine.specs.Machine.{catalog_step};
ghost use Rattle.tv_machine.specs.Living.{holds_lock};
ghost use Rattle.tv_machine.specs.ReaderEvents.{release_reader_step};
ghost use Rattle.tv_machine.specs.ReloadEvents.{reload_publish_step};
ghost use Rattle.tv_machine.specs.ReportEvents.{managed_step};
ghost use Rattle.tv_machine.specs.SearcherEvents.{bytes_step, release_searcher_step, searcher_step, show_step};
ghost use Rattle.tv_machine.specs.SegmentEvents.{docs_step, is_in_use, segment_step};
ghost use Rattle.tv_catalog.specs.Catalogs.{CatalogFaults, FitsCatalog};
ghost use Rattle.tv_catalog.specs.Effects.{published_after, searcher_after};
ghost use Rattle.tv_catalog.specs.Exhausted.{SomePassesEnd, SpendsNumber};

use crate::answers::refused;
use crate::catalog::Catalog;
use std::alloc::Global;
use std::collections::BTreeSet;
use tv_base::TantivyError;
use tv_formats::{LiveSegment, Memory, SegmentComponent, SegmentId};
use tv_machine::{Answer, Event};
use tv_metas::naming::is_named;
use tv_snapshots::readers::BodyAnswer;

// The line of a new live segment.
fn segment_line(alloc: Global, id: SegmentId) -> Result<Answer, Memory>
    ensures { IfOk result (λ answer. answer ≡ line (codes "segment") (encode_lower id ∷ [])) }
{
    Answer::new(alloc, "segment")?.id(id)
}

// The line of how many documents a segment has.
fn docs_line(alloc: Global, id: SegmentId, max_doc: u32) -> Result<Answer, Memory>
    ensures line { IfOk result (λ answer. answer
        ≡ line (codes "docs") (encode_lower id ∷ decimal max_doc ∷ [])) }
    ensures id { IfOk result (λ answer. IsId id) }
{
    Answer::new(alloc, "docs")?
        .id(id)?
        .number(u64::from(max_doc))
}

impl Catalog {
    // Whether the id is that of a live segment, of one of the commit, or begins a managed name.
    fn is_in_use(&self, managed: &BTreeSet<String>, id: SegmentId) -> Result<bool, Memory>
        ensures used { IfOk result (λ used. used
            ≡ is_in_use self.now (map string_bytes managed.now.keys) id) }
        ensures id { IsId id }
    {
        let digits = id.uuid_string(self.alloc)?;
        if self.live.contains_key(&id) || self.commit.has_segment(id) {
            return Ok(true);
        }
        Ok(is_named(managed, id, digits))
    }

    // A new live segment.
    fn segment(&mut self, managed: &BTreeSet<String>, id: SegmentId) -> Result<Answer, Memory>
        ensures step { IfOk result (λ answer. (answer, self.new)
            ≡ segment_step self.old (map string_bytes managed.now.keys) id) }
        ensures id { IsId id }
        ensures kept { OnErr result (self.new ≡ self.old) }
    {
        if self.is_in_use(managed, id)? {
            return refused(self.alloc, "id-in-use");
        }
        let answer = segment_line(self.alloc, id)?;
        let fresh = LiveSegment {
            max_doc: 0,
            deletes: None,
        };
        self.live.insert(id, fresh)?;
        Ok(answer)
    }

    // How many documents a live segment has.
    fn docs(&mut self, id: SegmentId, max_doc: u32) -> Result<Answer, Memory>
        ensures step { IfOk result (λ answer. (answer, self.new) ≡ docs_step self.old id max_doc) }
        ensures fits { IfOk result (λ answer. IsId id × (max_doc < 2 ^ 32)) }
        ensures kept { OnErr result (self.new ≡ self.old) }
    {
        let answer = docs_line(self.alloc, id, max_doc)?;
        let Some(segment) = self.live_segment(id) else {
            return refused(self.alloc, "unknown-segment");
        };
        if segment.max_doc != 0 || segment.deletes.is_some() {
            return refused(self.alloc, "wrong-docs");
        }
        self.live.insert(id, LiveSegment { max_doc, ..segment })?;
        Ok(answer)
    }

    // A new searcher, which shows for life what a reader shows now.
    fn searcher(&mut self, number: u64) -> Result<Answer, TantivyError>
        ensures step { IfOk result (λ answer. (answer, self.new) ≡ searcher_step self.old number) }
        ensures faults { CatalogFaults (SomePassesEnd (searcher_after self.old number)) result }
        ensures kept { OnErr result (self.new ≡ self.old) }
    {
        let Some(answer) = self.readers.searcher_line(number)? else {
            let answer = refused(self.alloc, "unknown-reader")?;
            return Ok(answer);
        };
        if self.readers.next_searcher() == u64::MAX {
            return Err(TantivyError::Exhausted);
        }
        self.readers.add_searcher(number)?;
        Ok(answer)
    }

    // A reader shows what was read for it.
    fn publish(&mut self, number: u64) -> Result<Answer, TantivyError>
        ensures step { IfOk result (λ answer. (answer, self.new)
            ≡ reload_publish_step self.old number) }
        ensures faults { CatalogFaults (SomePassesEnd (published_after self.old number)) result }
        ensures kept { OnErr result (self.new ≡ self.old) }
    {
        let Some(reader) = self.readers.reader(number) else {
            let answer = refused(self.alloc, "unknown-reader")?;
            return Ok(answer);
        };
        let generation = reader.next_generation();
        let Some(answer) = self.readers.published_line(number)? else {
            let answer = refused(self.alloc, "no-reload")?;
            return Ok(answer);
        };
        if generation == u64::MAX {
            return Err(TantivyError::Exhausted);
        }
        self.readers.publish_read(number);
        Ok(answer)
    }

    // The commit that a searcher shows.
    fn show(&self, number: u64) -> Result<Answer, Memory>
        ensures { IfOk result (λ answer. (answer, self.now) ≡ show_step self.now number) }
    {
        match self.readers.show(number)? {
            Some(answer) => Ok(answer),
            None => refused(self.alloc, "unknown-searcher"),
        }
    }

    // The body of a file that a searcher shows.
    fn bytes(&self, number: u64, ord: u32, component: SegmentComponent) -> Result<Answer, Memory>
        ensures { IfOk result (λ answer. (answer, self.now)
            ≡ bytes_step self.now number ord component) }
    {
        match self.readers.bytes(number, ord, component)? {
            BodyAnswer::NoSearcher => refused(self.alloc, "unknown-searcher"),
            BodyAnswer::NoFile => refused(self.alloc, "unknown-file"),
            BodyAnswer::Line(answer) => Ok(answer),
        }
    }

    // A reader ends.
    fn release_reader(&mut self, number: u64) -> Result<Answer, Memory>
        ensures step { IfOk result (λ answer. (answer, self.new)
            ≡ release_reader_step self.old number) }
        ensures kept { OnErr result (self.new ≡ self.old) }
    {
        let released = Answer::new(self.alloc, "released")?;
        let unknown = refused(self.alloc, "unknown-reader")?;
        if self.readers.release_reader(number) {
            Ok(released)
        } else {
            Ok(unknown)
        }
    }

    // A searcher ends.
    fn release_searcher(&mut self, number: u64) -> Result<Answer, Memory>
        ensures step { IfOk result (λ answer. (answer, self.new)
            ≡ release_searcher_step self.old number) }
        ensures kept { OnErr result (self.new ≡ self.old) }
    {
        let released = Answer::new(self.alloc, "released")?;
        let unknown = refused(self.alloc, "unknown-searcher")?;
        if self.readers.release_searcher(number) {
            Ok(released)
        } else {
            Ok(unknown)
        }
    }

    // Whether the reload of this number's reader holds the meta lock. Takes no memory.
    fn holds_lock(&self, number: u64) -> bool
        ensures { result ≡ holds_lock self.now number }
    {
        match self.readers.reader(number) {
            Some(reader) => reader.noted().is_some(),
            None => false,
        }
    }

    /// The managed names.
    pub fn managed(&self, names: &BTreeSet<String>) -> Result<Answer, Memory>
        requires { list_all is_plain (map string_bytes names.now.keys) ≡ true }
        ensures { IfOk result (λ answer. (answer, self.now)
            ≡ managed_step self.now (map string_bytes names.now.keys)) }
    {
        let mut answer = Answer::new(self.alloc, "managed")?;
        for name in names {
            answer = answer.word(name.as_bytes())?;
        }
        Ok(answer)
    }

    /// Makes the step of an event that touches no file, and answers its line; none where the event
    /// touches files, or the meta lock.
    pub fn act(
        &mut self,
        managed: &BTreeSet<String>,
        event: &Event,
    ) -> Result<Option<Answer>, TantivyError>
        requires { list_all is_plain (map string_bytes managed.now.keys) ≡ true }
        ensures step { IfOk result (λ told. option_map (λ answer. (answer, self.new)) told
            ≡ catalog_step self.old (map string_bytes managed.now.keys) event.now) }
        ensures other { IfOk result (λ told. told ≡ None → self.new ≡ self.old) }
        ensures kept { OnErr result (self.new ≡ self.old) }
        ensures fits { IfOk result (λ told. FitsCatalog event.now) }
        ensures faults { CatalogFaults (SpendsNumber self.old event.now) result }
    {
        let answer = match event {
            Event::ReleaseReader(number) if self.holds_lock(*number) => return Ok(None),
            Event::Segment(id) => self.segment(managed, *id)?,
            Event::Docs(id, max_doc) => self.docs(*id, *max_doc)?,
            Event::ReloadPublish(number) => self.publish(*number)?,
            Event::Searcher(number) => self.searcher(*number)?,
            Event::Show(number) => self.show(*number)?,
            Event::Bytes(number, ord, component) => self.bytes(*number, *ord, *component)?,
            Event::ReleaseReader(number) => self.release_reader(*number)?,
            Event::ReleaseSearcher(number) => self.release_searcher(*number)?,
            Event::Managed => self.managed(managed)?,
            _ => return Ok(None),
        };
        Ok(Some(answer))
    }
}
