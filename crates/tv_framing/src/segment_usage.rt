//! How much space a segment takes.
ghost use Rattle.std.specs.Prelude.{◌≡◌, IfOk};
ghost use Rattle.tv_framing.specs.Components.{component_of};
ghost use Rattle.tv_framing.specs.Segments.{segment_sum};
ghost use Rattle.tv_framing.specs.Usage.{capped};

use crate::component_usage::ComponentSpaceUsage;
use crate::per_field_usage::PerFieldSpaceUsage;
use crate::store_usage::StoreSpaceUsage;
use std::marker::Model;
use tv_base::{ByteCount, Memory};
use tv_formats::SegmentComponent;

/// The space that the files of a segment take.
#[derive(Drop)]
pub struct SegmentSpaceUsage {
    num_docs: u32,
    termdict: PerFieldSpaceUsage,
    postings: PerFieldSpaceUsage,
    positions: PerFieldSpaceUsage,
    fast_fields: PerFieldSpaceUsage,
    fieldnorms: PerFieldSpaceUsage,
    store: StoreSpaceUsage,
    deletes: ByteCount,
}

impl Model for SegmentSpaceUsage {
    ghost use Rattle.tv_framing.specs.Segments.{SegmentSpace};

    ghost Value = { SegmentSpace };

    ghost view = { λ s. record {
      num_docs = s.num_docs;
      termdict = s.termdict;
      postings = s.postings;
      positions = s.positions;
      fast_fields = s.fast_fields;
      fieldnorms = s.fieldnorms;
      store = s.store;
      deletes = s.deletes;
    } };
}

impl SegmentSpaceUsage {
    /// Of a segment with so many documents, whose files take this.
    pub fn new(
        num_docs: u32,
        termdict: PerFieldSpaceUsage,
        postings: PerFieldSpaceUsage,
        positions: PerFieldSpaceUsage,
        fast_fields: PerFieldSpaceUsage,
        fieldnorms: PerFieldSpaceUsage,
        store: StoreSpaceUsage,
        deletes: ByteCount,
    ) -> SegmentSpaceUsage
        ensures usage { result ≡ record {
          num_docs = num_docs;
          termdict = termdict;
          postings = postings;
          positions = positions;
          fast_fields = fast_fields;
          fieldnorms = fieldnorms;
          store = store;
          deletes = deletes;
        } }
    {
        SegmentSpaceUsage {
            num_docs,
            termdict,
            postings,
            positions,
            fast_fields,
            fieldnorms,
            store,
            deletes,
        }
    }

    /// How many documents the segment has.
    pub fn num_docs(&self) -> u32
        ensures num_docs { result ≡ self.now.num_docs }
    {
        self.num_docs
    }

    /// What the terms take.
    pub fn termdict(&self) -> &PerFieldSpaceUsage
        ensures termdict { result.now ≡ self.now.termdict }
    {
        &self.termdict
    }

    /// What the postings take.
    pub fn postings(&self) -> &PerFieldSpaceUsage
        ensures postings { result.now ≡ self.now.postings }
    {
        &self.postings
    }

    /// What the positions take.
    pub fn positions(&self) -> &PerFieldSpaceUsage
        ensures positions { result.now ≡ self.now.positions }
    {
        &self.positions
    }

    /// What the fast fields take.
    pub fn fast_fields(&self) -> &PerFieldSpaceUsage
        ensures fast_fields { result.now ≡ self.now.fast_fields }
    {
        &self.fast_fields
    }

    /// What the field norms take.
    pub fn fieldnorms(&self) -> &PerFieldSpaceUsage
        ensures fieldnorms { result.now ≡ self.now.fieldnorms }
    {
        &self.fieldnorms
    }

    /// What the stored documents take.
    pub fn store(&self) -> &StoreSpaceUsage
        ensures store { result.now ≡ self.now.store }
    {
        &self.store
    }

    /// What the deletes take.
    pub fn deletes(&self) -> ByteCount
        ensures deletes { result ≡ self.now.deletes }
    {
        self.deletes
    }

    /// The sum of all files, which stays at `u64::MAX`.
    pub fn total(&self) -> ByteCount
        ensures total { result.0 ≡ capped (segment_sum self.now) }
    {
        let index = self
            .termdict
            .total()
            .plus(self.postings.total())
            .plus(self.positions.total());
        let fields = index
            .plus(self.fast_fields.total())
            .plus(self.fieldnorms.total());
        fields.plus(self.store.total()).plus(self.deletes)
    }

    /// What one kind of file takes.
    pub fn component(&self, c: SegmentComponent) -> Result<ComponentSpaceUsage, Memory>
        ensures component { IfOk result (λ usage. usage ≡ component_of c self.now) }
    {
        let fields = match c {
            SegmentComponent::Postings => &self.postings,
            SegmentComponent::Positions => &self.positions,
            SegmentComponent::FastFields => &self.fast_fields,
            SegmentComponent::FieldNorms => &self.fieldnorms,
            SegmentComponent::Terms => &self.termdict,
            SegmentComponent::Store => return Ok(ComponentSpaceUsage::Store(self.store.copied())),
            SegmentComponent::Delete => return Ok(ComponentSpaceUsage::Basic(self.deletes)),
        };
        Ok(ComponentSpaceUsage::PerField(fields.copied()?))
    }
}
