//! What is known of a segment.
ghost use Rattle.std.specs.Prelude.{◌≡◌, nat_lt};
ghost use Rattle.std.specs.Slice.Iter.{iter_rest};
ghost use Rattle.tv_formats.specs.Segments.{components, extension, num_deleted, num_docs};

use crate::Opstamp;

// In the order in which they are listed.
static COMPONENTS: [SegmentComponent; 7] = [
    SegmentComponent::Postings,
    SegmentComponent::Positions,
    SegmentComponent::FastFields,
    SegmentComponent::FieldNorms,
    SegmentComponent::Terms,
    SegmentComponent::Store,
    SegmentComponent::Delete,
];

/// The kinds of file that a segment has, in the order in which they are listed.
#[derive(Clone, Copy, Debug, PartialEq, Eq)]
pub enum SegmentComponent {
    /// `ID.idx`, where ID is the segment's id.
    Postings,
    /// `ID.pos`.
    Positions,
    /// `ID.fast`.
    FastFields,
    /// `ID.fieldnorm`.
    FieldNorms,
    /// `ID.term`.
    Terms,
    /// `ID.store`: the document store.
    Store,
    /// `ID.OPSTAMP.del`, with the opstamp of the delete: which documents are deleted.
    Delete,
}

impl SegmentComponent {
    /// All kinds of file, in their order.
    pub fn iterator() -> std::slice::Iter<'static, SegmentComponent>
        ensures { iter_rest result ≡ components }
    {
        COMPONENTS.iter()
    }

    /// The end of the name of such a file, after its dot.
    pub fn extension(&self) -> &'static str
        ensures { result.now ≡ extension self.now }
    {
        match self {
            SegmentComponent::Postings => "idx",
            SegmentComponent::Positions => "pos",
            SegmentComponent::FastFields => "fast",
            SegmentComponent::FieldNorms => "fieldnorm",
            SegmentComponent::Terms => "term",
            SegmentComponent::Store => "store",
            SegmentComponent::Delete => "del",
        }
    }
}

/// How many documents of a segment are deleted, and by which delete.
#[derive(Clone, Copy, Debug, PartialEq, Eq)]
pub struct DeleteMeta {
    /// How many documents are deleted.
    pub num_deleted_docs: u32,
    /// The number of the delete, which names its file.
    pub opstamp: Opstamp,
}

/// What is known of a segment beside its id and its files.
#[derive(Clone, Copy, Debug, PartialEq, Eq)]
pub struct LiveSegment {
    /// How many documents it has, deleted ones among them.
    pub max_doc: u32,
    /// Its deletes, if there are any.
    pub deletes: Option<DeleteMeta>,
}

impl LiveSegment {
    // How many documents are deleted.
    fn num_deleted_docs(&self) -> u32
        ensures { result ≡ num_deleted self.now.deletes }
    {
        match self.deletes {
            Some(meta) => meta.num_deleted_docs,
            None => 0,
        }
    }

    /// How many documents are living.
    pub fn num_docs(&self) -> u32
        ensures { result ≡ num_docs self.now }
    {
        self.max_doc.saturating_sub(self.num_deleted_docs())
    }

    /// Whether documents are deleted.
    pub fn has_deletes(&self) -> bool
        ensures { result ≡ nat_lt 0 (num_deleted self.now.deletes) }
    {
        self.num_deleted_docs() > 0
    }
}
