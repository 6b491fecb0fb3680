//! The files of a segment, in the directory of its index.
ghost use Rattle.std.specs.Prelude.{◌≡◌, ℕ, List, IfOk};
ghost use Rattle.tv_device.specs.Images.{KeepsDisk};
ghost use Rattle.tv_device.specs.View.{Kept, OnlyReads};
ghost use Rattle.tv_managed.specs.Crashes.{CreatesSafely};
ghost use Rattle.tv_managed.specs.Managed.{CreateFaults, Creates, ManagesFile};
ghost use Rattle.tv_managed.specs.Reading.{BodyFaults, ReadsBody};
ghost use Rattle.tv_managed.specs.Writers.{IsNewManaged};
ghost use Rattle.tv_index.specs.Indexes.{KeepsBeside, KeepsIndex};
ghost use Rattle.tv_metas.specs.Tracked.{file_of};

use crate::index::Index;
use crate::segment::Segment;
use std::alloc::Global;
use tv_base::{FileSlice, OpenReadError, OpenWriteError};
use tv_device::Directory;
use tv_formats::SegmentComponent;
use tv_managed::ManagedWriter;

impl Segment {
    /// The body of a file of the segment, as `ManagedDirectory::open_read` gives it.
    pub fn open_read<D: Directory>(
        &self,
        alloc: Global,
        index: &mut Index<D>,
        component: SegmentComponent,
    ) -> Result<FileSlice, OpenReadError>
        ensures body { D.told.content → IfOk result (ReadsBody
            ((D.view index.old.directory.0).reads (file_of self.now component))) }
        ensures back { D.told.content → (body : List ℕ)
            → ReadsBody ((D.view index.old.directory.0).reads (file_of self.now component)) body
            → IfOk result (λ found. found ≡ body) }
        ensures faults { BodyFaults D.Directory index.old.directory.0 index.new.directory.0
            (file_of self.now component) result }
        ensures frame { KeepsIndex (OnlyReads D.told) D.view index.old index.new }
        ensures images { D.tells_images
            → KeepsDisk (D.disk index.old.directory.0) (D.disk index.new.directory.0) }
    {
        let name = self.meta().file_name(alloc, component)?;
        index.directory.open_read(name.as_str())
    }

    /// Makes a file of the segment, as `ManagedDirectory::open_write` does. `FileAlreadyExists`
    /// comes where its name reads, `Leaving` where it doesn't, and an unfinished collection has it.
    pub fn open_write<D: Directory>(
        &self,
        alloc: Global,
        index: &mut Index<D>,
        component: SegmentComponent,
    ) -> Result<ManagedWriter<D>, OpenWriteError>
        ensures writer { IfOk result (IsNewManaged D.Directory index.new.directory.0
            (file_of self.now component)) }
        ensures creates { Creates D.Directory index.old.directory index.new.directory
            (file_of self.now component) result }
        ensures manages { ManagesFile D.Directory index.old.directory index.new.directory
            (file_of self.now component) result }
        ensures faults { CreateFaults D.Directory index.old.directory index.new.directory
            (file_of self.now component) result }
        ensures frame { KeepsBeside (Kept D.told) D.view index.old index.new }
        ensures safe { D.tells_images → CreatesSafely D.Directory (file_of self.now component)
            index.old.directory index.new.directory result }
    {
        let name = self.meta().file_name(alloc, component)?;
        index.directory.open_write(name.as_str())
    }
}
