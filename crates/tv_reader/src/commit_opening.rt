//! The files of a commit are read.
ghost use Rattle.std.specs.Prelude.{◌≡◌, IfOk, map};
ghost use Rattle.std.specs.List.{AllByRecursion};
ghost use Rattle.tv_device.specs.Images.{KeepsDisk};
ghost use Rattle.tv_device.specs.View.{OnlyReads};
ghost use Rattle.tv_formats.specs.Segments.{all_required};
ghost use Rattle.tv_index.specs.Indexes.{KeepsIndex};
ghost use Rattle.tv_metas.specs.Segments.{entry_of};
ghost use Rattle.tv_reader.specs.Bodies.{IsRead, UnreadFaults, shown_entry};

use crate::segment_reader::SegmentReader;
use std::alloc::Global;
use tv_base::TantivyError;
use tv_device::Directory;
use tv_index::Index;
use tv_metas::InnerSegmentMeta;

/// The segments of a commit with the bodies of the files that they require, which are read now, in the
/// order of the segments and of the components.
///
/// `OpenReadError` comes for the first of them that isn't there, or doesn't end in a footer of a format
/// that is read.
pub fn read_segments<D: Directory>(
    alloc: Global,
    segments: &[InnerSegmentMeta],
    index: &mut Index<D>,
) -> Result<Vec<SegmentReader>, TantivyError>
    ensures segments { IfOk result (λ readers.
        map shown_entry readers.items ≡ map entry_of segments.now) }
    ensures bodies { D.told.content → IfOk result (λ readers.
        AllByRecursion (IsRead (D.view index.old.directory.0).reads) readers.items) }
    ensures faults { UnreadFaults D.Directory index.old.directory.0 index.new.directory.0
        (all_required (map entry_of segments.now)) result }
    ensures frame { KeepsIndex (OnlyReads D.told) D.view index.old index.new }
    ensures images { D.tells_images
        → KeepsDisk (D.disk index.old.directory.0) (D.disk index.new.directory.0) }
{
    let mut readers = Vec::new(alloc);
    for segment in segments {
        let reader = SegmentReader::open_files(alloc, segment.segment_id, segment.live(), index)?;
        readers.push(reader)?;
    }
    Ok(readers)
}
