//! What is shown of a commit, for as long as it is looked at.
ghost use Rattle.std.specs.Prelude.{◌≡◌, ◌<◌, IfOk, IfErr, slice_get};
ghost use Rattle.std.specs.Option.{option_copied};
ghost use Rattle.std.specs.Arc.{arc_value};
ghost use Rattle.tv_framing.specs.Faults.{OfFault};
ghost use Rattle.tv_framing.specs.Usage.{capped};
ghost use Rattle.tv_reader.specs.Searchers.{HasBadSegment, IsDocument, NoDocumentCause, UsesSpace, docs_sum, generation_of};
ghost use Rattle.tv_reader.specs.Spaces.{IsInvalid};

use crate::generation::SearcherGeneration;
use crate::searcher_documents::stored_document;
use crate::searcher_spaces::spaces_of;
use crate::segment_reader::SegmentReader;
use std::alloc::Global;
use std::marker::Model;
use std::sync::Arc;
use tv_base::{DocAddress, FileSlice, IoError, Memory, Opstamp, TantivyError, Ticket};
use tv_framing::SearcherSpaceUsage;
use tv_metas::{Schema, UntrackedIndexMeta};

/// A commit with the bodies of its files, as they were read.
#[derive(Drop)]
pub(crate) struct ReadCommit {
    // A reload that noted the commit has it too.
    pub(crate) meta: Arc<UntrackedIndexMeta, Global>,
    pub(crate) segment_readers: Vec<SegmentReader>,
}

impl Model for ReadCommit {
    ghost use Rattle.std.specs.Arc.{arc_value};
    ghost use Rattle.tv_reader.specs.Searchers.{CommitRead, read_as};

    ghost Value = { CommitRead };

    ghost view = { λ c. read_as (arc_value c.meta) c.segment_readers.items };
}

/// What is shown of a commit. Searchers have it together.
#[derive(Drop)]
pub(crate) struct Shown {
    pub(crate) generation: SearcherGeneration,
    // A reload has it too, until it is published.
    pub(crate) commit: Arc<ReadCommit, Global>,
}

impl Model for Shown {
    ghost use Rattle.std.specs.Arc.{arc_value};
    ghost use Rattle.tv_reader.specs.Searchers.{CommitShown, IsOfSegments, shown_in};

    ghost Value = { CommitShown };

    ghost view = { λ s. shown_in s.generation (arc_value s.commit) };

    ghost invariant = { λ s. IsOfSegments (shown_in s.generation (arc_value s.commit)) };
}

/// Shows a commit of the index for life: later commits and collections don't change what it shows. Its
/// ticket counts it.
#[derive(Drop)]
pub struct Searcher {
    ticket: Ticket,
    shown: Arc<Shown, Global>,
}

impl Model for Searcher {
    ghost use Rattle.std.specs.Arc.{arc_value};
    ghost use Rattle.tv_reader.specs.Searchers.{SearcherState};

    ghost Value = { SearcherState };

    ghost view = { λ s. record { ticket = s.ticket; shown = arc_value s.shown } };
}

impl Searcher {
    // A searcher that is counted by this ticket. Takes no memory.
    pub(crate) fn new(ticket: Ticket, shown: Arc<Shown, Global>) -> Searcher
        ensures { result ≡ record { ticket = ticket; shown = arc_value shown } }
    {
        Searcher { ticket, shown }
    }

    // One more share of what it shows. Nothing of that is copied.
    pub(crate) fn share(&self) -> Result<Arc<Shown, Global>, Memory>
        ensures shown { IfOk result (λ shown. arc_value shown ≡ self.now.shown) }
    {
        Ok(Arc::try_clone(&self.shown)?)
    }

    // The ticket by which it is counted.
    pub(crate) fn ticket(&self) -> &Ticket
        ensures ticket { result.now ≡ self.now.ticket }
    {
        &self.ticket
    }

    // The ticket by which it is counted, taken out. Takes no memory.
    pub(crate) fn into_ticket(self) -> Ticket
        ensures { result ≡ self.ticket }
    {
        self.ticket
    }

    // The allocator that it was made with. Takes no memory.
    pub(crate) fn allocator(&self) -> Global {
        *self.shown.commit.segment_readers.allocator()
    }

    /// Which segments it shows, and under which number of its reader.
    pub fn generation(&self) -> &SearcherGeneration
        ensures generation { result.now ≡ self.now.shown.generation }
        ensures segments { result.now ≡ generation_of result.now.id self.now.shown.segments }
    {
        &self.shown.generation
    }

    /// The schema of the index.
    pub fn schema(&self) -> &Schema
        ensures schema { result.now ≡ self.now.shown.schema }
    {
        &self.shown.commit.meta.schema
    }

    /// The number of the commit that it shows. Takes no memory.
    pub fn opstamp(&self) -> Opstamp
        ensures opstamp { result ≡ self.now.shown.opstamp }
    {
        self.shown.commit.meta.opstamp
    }

    /// What the writer of the commit added. Takes no memory.
    pub fn payload(&self) -> Option<&str>
        ensures payload { option_copied result ≡ self.now.shown.payload }
    {
        self.shown.commit.meta.payload.as_deref()
    }

    /// How many documents are living. The sum stays at `u64::MAX`.
    pub fn num_docs(&self) -> u64
        ensures documents { result ≡ capped (docs_sum self.now.shown.segments) }
    {
        docs_of(self.segment_readers())
    }

    /// The segments, in the order of the commit.
    pub fn segment_readers(&self) -> &[SegmentReader]
        ensures segments { result.now ≡ self.now.shown.segments }
    {
        self.shown.commit.segment_readers.as_slice()
    }

    /// A segment, and `None` exactly where there is none at this place.
    pub fn segment_reader(&self, segment_ord: u32) -> Option<&SegmentReader>
        ensures segment { option_copied result ≡ slice_get self.now.shown.segments segment_ord }
    {
        self.segment_readers().get(segment_ord as usize)
    }

    /// The bytes of a stored document. The store is read anew at each call.
    ///
    /// `InvalidArgument` comes exactly where there is no such segment or document, `DataCorruption` with
    /// the name of the store file exactly where that isn't one.
    pub fn doc(&self, doc_address: DocAddress) -> Result<FileSlice, TantivyError>
        ensures document { IfOk result (IsDocument self.now.shown.segments doc_address) }
        ensures cause { IfErr result (NoDocumentCause self.now.shown.segments doc_address) }
    {
        let alloc = self.allocator();
        stored_document(alloc, self.segment_readers(), doc_address)
    }

    /// How much space the files of each segment take. `InvalidData` comes exactly where that can't be
    /// told of one of them.
    pub fn space_usage(&self) -> Result<SearcherSpaceUsage, IoError>
        ensures usage { IfOk result (UsesSpace self.now.shown) }
        ensures err { IfErr result (OfFault IsInvalid) }
        ensures outside { IfErr result (OfFault (λ _. HasBadSegment self.now.shown)) }
    {
        let alloc = self.allocator();
        spaces_of(alloc, self.segment_readers(), self.schema().names())
    }
}

// How many documents are living in these segments.
fn docs_of(segment_readers: &[SegmentReader]) -> u64
    ensures { result ≡ capped (docs_sum segment_readers.now) }
{
    let mut sum: u64 = 0;
    for reader in segment_readers {
        sum = sum.saturating_add(u64::from(reader.num_docs()));
    }
    sum
}
