//! A segment that is shown.
ghost use Rattle.std.specs.Prelude.{◌≡◌, true, IfOk, IfErr, map, option_map, string_bytes};
ghost use Rattle.std.specs.Option.{option_copied};
ghost use Rattle.tv_base.specs.declared.io.IoKind.TheVariants.{InvalidData};
ghost use Rattle.tv_formats.specs.Segments.{name_of, num_docs};
ghost use Rattle.tv_framing.specs.Faults.{IsFault, OfFault};
ghost use Rattle.tv_machine.specs.SearcherEvents.{place_of};
ghost use Rattle.tv_reader.specs.Segments.{HasBodies, component_body, required_body};
ghost use Rattle.tv_reader.specs.Spaces.{HasNoSpace, IsInvalid, IsSpaceOf, UsesFields, has_fields};
ghost use Rattle.tv_reader.specs.StoreBodies.{AreTheDocuments, IsNotStoreBody, IsStoreBody, not_store};

use crate::field_usage::fields_usage;
use crate::store_reader::StoreReader;
use std::alloc::Global;
use std::marker::Model;
use tv_base::{ByteCount, FileSlice, IoError, Memory, Opstamp};
use tv_formats::{LiveSegment, SegmentComponent, SegmentId, segment_file_name};
use tv_framing::{PerFieldSpaceUsage, SegmentSpaceUsage};

/// A segment of a commit, with the bodies of the files that it requires. It has their bytes: what
/// becomes of the files later doesn't touch it.
#[derive(Drop)]
pub struct SegmentReader {
    id: SegmentId,
    segment: LiveSegment,
    bodies: Vec<FileSlice>,
}

impl Model for SegmentReader {
    ghost use Rattle.tv_reader.specs.Segments.{HasBodies, SegmentShown};

    ghost Value = { SegmentShown };

    ghost view = { λ r. record { id = r.id; segment = r.segment; bodies = r.bodies.items } };

    ghost invariant = { λ r. HasBodies r.segment r.bodies.items };
}

// The place of a component in their order.
fn place_of(component: SegmentComponent) -> usize
    ensures { result ≡ place_of component }
{
    match component {
        SegmentComponent::Postings => 0,
        SegmentComponent::Positions => 1,
        SegmentComponent::FastFields => 2,
        SegmentComponent::FieldNorms => 3,
        SegmentComponent::Terms => 4,
        SegmentComponent::Store => 5,
        SegmentComponent::Delete => 6,
    }
}

impl SegmentReader {
    // A segment with the bodies of the files that it requires. Takes no memory.
    pub(crate) fn from_parts(
        id: SegmentId,
        segment: LiveSegment,
        bodies: Vec<FileSlice>,
    ) -> SegmentReader
        requires { HasBodies segment bodies.items }
        ensures { result ≡ record { id = id; segment = segment; bodies = bodies.items } }
    {
        SegmentReader {
            id,
            segment,
            bodies,
        }
    }

    /// The id of the segment.
    pub fn segment_id(&self) -> SegmentId
        ensures id { result ≡ self.now.id }
    {
        self.id
    }

    /// How many documents it has, deleted ones among them.
    pub fn max_doc(&self) -> u32
        ensures documents { result ≡ self.now.segment.max_doc }
    {
        self.segment.max_doc
    }

    /// How many documents are living.
    pub fn num_docs(&self) -> u32
        ensures documents { result ≡ num_docs self.now.segment }
    {
        self.segment.num_docs()
    }

    /// The number of the delete, if there was one.
    pub fn delete_opstamp(&self) -> Option<Opstamp>
        ensures opstamp { result ≡ option_map (λ meta. meta.opstamp) self.now.segment.deletes }
    {
        match self.segment.deletes {
            Some(meta) => Some(meta.opstamp),
            None => None,
        }
    }

    /// The body of a component's file, and `None` exactly where the segment doesn't require it.
    pub fn body(&self, component: SegmentComponent) -> Option<&FileSlice>
        ensures body { option_copied result ≡ required_body self.now component }
    {
        self.bodies.get(place_of(component))
    }

    // The bytes of a component's file, none where the segment doesn't require it.
    fn bytes_of(&self, component: SegmentComponent) -> Result<FileSlice, Memory>
        ensures { IfOk result (λ body. body ≡ component_body self.now component) }
    {
        match self.bodies.get(place_of(component)) {
            Some(body) => body.share(),
            None => Ok(FileSlice::empty()),
        }
    }

    // The name of the store file.
    pub(crate) fn store_path(&self, alloc: Global) -> Result<String, Memory>
        ensures { IfOk result (λ path. string_bytes path
            ≡ name_of self.now.id self.now.segment.deletes SegmentComponent.Store) }
    {
        let component = SegmentComponent::Store;
        let name = segment_file_name(alloc, self.id, self.segment.deletes, component)?;
        Ok(name.into_string())
    }

    /// The stored documents. `InvalidData` comes exactly where the store file isn't one.
    pub fn get_store_reader(&self) -> Result<StoreReader, IoError>
        ensures ok { IfOk result
            (IsStoreBody (component_body self.now SegmentComponent.Store)) }
        ensures only { IfOk result
            (AreTheDocuments (component_body self.now SegmentComponent.Store)) }
        ensures err { IfErr result (OfFault (IsFault InvalidData not_store)) }
        ensures outside { IfErr result (OfFault (λ _.
            IsNotStoreBody (component_body self.now SegmentComponent.Store))) }
    {
        let alloc = *self.bodies.allocator();
        let body = self.bytes_of(SegmentComponent::Store)?;
        StoreReader::open(alloc, &body)
    }

    // What the fields of a component's file take.
    #[tactic(auto, using(crate::proofs::Spaces::no_space))]
    fn component_usage(
        &self,
        component: SegmentComponent,
        names: &[String],
    ) -> Result<PerFieldSpaceUsage, IoError>
        requires { has_fields component ≡ true }
        ensures ok { IfOk result
            (UsesFields (map string_bytes names.now) (component_body self.now component)) }
        ensures err { IfErr result (OfFault IsInvalid) }
        ensures outside { IfErr result (OfFault (λ _.
            HasNoSpace (map string_bytes names.now) self.now)) }
    {
        let alloc = *self.bodies.allocator();
        let body = self.bytes_of(component)?;
        fields_usage(alloc, &body, names)
    }

    /// How much space its files take, under the names of the fields: the name of field 0 comes first.
    /// `InvalidData` comes exactly where a file isn't of its form, a field has no name, or an index is
    /// above 65,535.
    pub fn space_usage(&self, names: &[String]) -> Result<SegmentSpaceUsage, IoError>
        ensures ok { IfOk result (IsSpaceOf (map string_bytes names.now) self.now) }
        ensures err { IfErr result (OfFault IsInvalid) }
        ensures outside { IfErr result (OfFault (λ _.
            HasNoSpace (map string_bytes names.now) self.now)) }
    {
        let termdict = self.component_usage(SegmentComponent::Terms, names)?;
        let postings = self.component_usage(SegmentComponent::Postings, names)?;
        let positions = self.component_usage(SegmentComponent::Positions, names)?;
        let fast_fields = self.component_usage(SegmentComponent::FastFields, names)?;
        let fieldnorms = self.component_usage(SegmentComponent::FieldNorms, names)?;
        let store = self.get_store_reader()?.space_usage();
        let deletes = ByteCount(self.bytes_of(SegmentComponent::Delete)?.len() as u64);
        Ok(SegmentSpaceUsage::new(
            self.num_docs(),
            termdict,
            postings,
            positions,
            fast_fields,
            fieldnorms,
            store,
            deletes,
        ))
    }
}
