//! The files of a segment are read.
ghost use Rattle.std.specs.Prelude.{◌≡◌, IfOk, length, map};
ghost use Rattle.tv_device.specs.Images.{KeepsDisk};
ghost use Rattle.tv_device.specs.View.{OnlyReads};
ghost use Rattle.tv_formats.specs.Segments.{name_of, required_components, required_names};
ghost use Rattle.tv_index.specs.Indexes.{KeepsIndex};
ghost use Rattle.tv_managed.specs.Reading.{BodyFaults, ReadsBody};
ghost use Rattle.tv_reader.specs.Bodies.{ReadBodies, UnreadFaults};

use crate::segment_reader::SegmentReader;
use std::alloc::Global;
use tv_base::{FileSlice, OpenReadError, TantivyError};
use tv_device::Directory;
use tv_formats::{DeleteMeta, LiveSegment, SegmentComponent, SegmentId, segment_file_name};
use tv_index::{Index, Segment, SegmentMeta};

impl SegmentReader {
    /// A segment with the bodies of the files that it requires, which are read now, in the order of the
    /// components.
    ///
    /// `OpenReadError` comes for the first of them that isn't there, or doesn't end in a footer of a
    /// format that is read.
    pub fn open<D: Directory>(
        alloc: Global,
        segment: &Segment,
        index: &mut Index<D>,
    ) -> Result<SegmentReader, TantivyError>
        ensures segment { IfOk result (λ reader.
            (reader.id ≡ segment.now.1.0) × (reader.segment ≡ segment.now.1.1)) }
        ensures bodies { D.told.content → IfOk result (λ reader.
            ReadBodies (D.view index.old.directory.0).reads
            (required_names segment.now.1.0 segment.now.1.1) reader.bodies) }
        ensures faults { UnreadFaults D.Directory index.old.directory.0 index.new.directory.0
            (required_names segment.now.1.0 segment.now.1.1) result }
        ensures frame { KeepsIndex (OnlyReads D.told) D.view index.old index.new }
        ensures images { D.tells_images
            → KeepsDisk (D.disk index.old.directory.0) (D.disk index.new.directory.0) }
    {
        SegmentReader::open_files(alloc, segment.id(), live_of(segment.meta()), index)
    }

    // The segment of this id, of which this is known. It is read as `open` reads it.
    pub(crate) fn open_files<D: Directory>(
        alloc: Global,
        id: SegmentId,
        live: LiveSegment,
        index: &mut Index<D>,
    ) -> Result<SegmentReader, TantivyError>
        ensures segment { IfOk result (λ reader. (reader.id ≡ id) × (reader.segment ≡ live)) }
        ensures bodies { D.told.content → IfOk result (λ reader.
            ReadBodies (D.view index.old.directory.0).reads (required_names id live)
            reader.bodies) }
        ensures faults { UnreadFaults D.Directory index.old.directory.0 index.new.directory.0
            (required_names id live) result }
        ensures frame { KeepsIndex (OnlyReads D.told) D.view index.old index.new }
        ensures images { D.tells_images
            → KeepsDisk (D.disk index.old.directory.0) (D.disk index.new.directory.0) }
    {
        let bodies = read_bodies(alloc, id, live, index, required_components(&live))?;
        Ok(SegmentReader::from_parts(id, live, bodies))
    }
}

// What a commit has of a segment beside its id.
fn live_of(meta: &SegmentMeta) -> LiveSegment
    ensures { result ≡ meta.now.1.1 }
{
    let deletes = match meta.delete_opstamp() {
        Some(opstamp) => Some(DeleteMeta {
            num_deleted_docs: meta.num_deleted_docs(),
            opstamp,
        }),
        None => None,
    };
    LiveSegment {
        max_doc: meta.max_doc(),
        deletes,
    }
}

// The components whose files a segment requires.
fn required_components(segment: &LiveSegment) -> &'static [SegmentComponent]
    ensures { result.now ≡ required_components segment.now }
{
    let all = SegmentComponent::iterator().as_slice();
    if segment.has_deletes() {
        all
    } else {
        &all[..6]
    }
}

// The body of a file of a segment.
fn open_body<D: Directory>(
    alloc: Global,
    id: SegmentId,
    live: LiveSegment,
    index: &mut Index<D>,
    component: SegmentComponent,
) -> Result<FileSlice, OpenReadError>
    ensures body { D.told.content → IfOk result (ReadsBody
        ((D.view index.old.directory.0).reads (name_of id live.deletes component))) }
    ensures faults { BodyFaults D.Directory index.old.directory.0 index.new.directory.0
        (name_of id live.deletes component) result }
    ensures frame { KeepsIndex (OnlyReads D.told) D.view index.old index.new }
    ensures images { D.tells_images
        → KeepsDisk (D.disk index.old.directory.0) (D.disk index.new.directory.0) }
{
    let name = segment_file_name(alloc, id, live.deletes, component)?;
    index.directory_mut().open_read(name.as_str())
}

// The bodies of some files of a segment, in their order.
fn read_bodies<D: Directory>(
    alloc: Global,
    id: SegmentId,
    live: LiveSegment,
    index: &mut Index<D>,
    components: &[SegmentComponent],
) -> Result<Vec<FileSlice>, TantivyError>
    ensures each { IfOk result (λ bodies. length bodies.items ≡ length components.now) }
    ensures bodies { D.told.content → IfOk result (λ bodies.
        ReadBodies (D.view index.old.directory.0).reads
        (map (name_of id live.deletes) components.now) bodies.items) }
    ensures faults { UnreadFaults D.Directory index.old.directory.0 index.new.directory.0
        (map (name_of id live.deletes) components.now) result }
    ensures frame { KeepsIndex (OnlyReads D.told) D.view index.old index.new }
    ensures images { D.tells_images
        → KeepsDisk (D.disk index.old.directory.0) (D.disk index.new.directory.0) }
{
    let mut bodies = Vec::new(alloc);
    for component in components {
        let body = open_body(alloc, id, live, index, *component)?;
        bodies.push(body)?;
    }
    Ok(bodies)
}
