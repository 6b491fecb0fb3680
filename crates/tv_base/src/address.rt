//! Where a document is, and which field of it is meant.
ghost use Rattle.std.specs.Prelude.{◌≡◌};

use std::marker::Model;

/// The number of a document in its segment, from 0 on.
pub type DocId = u32;

/// The place of a segment among those of a searcher, from 0 on.
pub type SegmentOrdinal = u32;

/// A document of a searcher. Addresses are in order of their segments, then of their documents.
#[derive(Clone, Copy, Debug, PartialEq, Eq, PartialOrd, Ord, Hash)]
pub struct DocAddress {
    /// Which segment, from 0 on.
    pub segment_ord: SegmentOrdinal,
    /// Which document of it, from 0 on.
    pub doc_id: DocId,
}

impl DocAddress {
    /// The document of this number in this segment.
    pub fn new(segment_ord: SegmentOrdinal, doc_id: DocId) -> DocAddress
        ensures address { result ≡ record { segment_ord = segment_ord; doc_id = doc_id } }
    {
        DocAddress {
            segment_ord,
            doc_id,
        }
    }
}

/// A field of the schema, by its number. To a contract it is that number.
#[derive(Clone, Copy, Debug, PartialEq, Eq, PartialOrd, Ord, Hash)]
pub struct Field(u32);

impl Model for Field {
    ghost use Rattle.std.specs.Prelude.{ℕ};

    ghost Value = { ℕ };

    ghost view = { λ field. field.0 };

    ghost inverse = { λ id. record { 0 = id } };
}

impl Field {
    /// The field of this number.
    pub const fn from_field_id(id: u32) -> Field
        ensures number { result ≡ id }
    {
        Field(id)
    }

    /// The number of the field.
    pub const fn field_id(&self) -> u32
        ensures number { result ≡ self.now }
    {
        self.0
    }
}
