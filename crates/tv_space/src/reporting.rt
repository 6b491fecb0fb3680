//! The space report of an index.
ghost use Rattle.std.specs.Prelude.{IfOk};
ghost use Rattle.tv_device.specs.Images.{KeepsDisk};
ghost use Rattle.tv_device.specs.View.{OnlyReads};
ghost use Rattle.tv_index.specs.Indexes.{KeepsIndex};
ghost use Rattle.tv_space.specs.Measuring.{ReportFaults};
ghost use Rattle.tv_space.specs.Reports.{Reports};

use crate::printing::report_text;
use crate::segment_report::measure_all;
use std::alloc::Global;
use tv_base::TantivyError;
use tv_device::Directory;
use tv_index::Index;
use tv_reader::read_segments;

/// How much space the files of the last commit take: for each segment, in the order of the ids, a line
/// `segment ID DOCS TERM IDX POS FAST FIELDNORM STORE DEL TOTAL`, and then `total N`. A line feed stands
/// between two lines, and none at the end.
///
/// DOCS is how many documents are living. Of a file with fields the number is how many bytes the bodies
/// of its fields take, of STORE that of the documents and four for the place of each, of DEL the length
/// of the body. TOTAL is the sum of the seven numbers before it, and N that of the totals; sums stay at
/// `u64::MAX`.
///
/// Nothing is written, and no lock is taken: files may be missing that somebody else deletes meanwhile.
/// All files are read before the first is measured. Errors come in this order: those of
/// `Index::load_metas`; `OpenReadError` for the first required file, by segments and components, that
/// can't be read; `IoError` with `InvalidData` where a body isn't of its form, or has a field that the
/// schema doesn't name, or an index above 65,535.
pub fn space_report<D: Directory>(
    alloc: Global,
    index: &mut Index<D>,
) -> Result<Vec<u8>, TantivyError>
    ensures report { D.told.content → IfOk result (λ text.
        Reports (D.view index.old.directory.0).reads index.old.schema text.items) }
    ensures faults { ReportFaults D.Directory index.old.directory.0 index.new.directory.0
        index.old.schema result }
    ensures frame { KeepsIndex (OnlyReads D.told) D.view index.old index.new }
    ensures images { D.tells_images
        → KeepsDisk (D.disk index.old.directory.0) (D.disk index.new.directory.0) }
{
    let meta = index.load_untracked_metas(alloc)?;
    let segments = read_segments(alloc, meta.segments.as_slice(), index)?;
    let reports = measure_all(alloc, segments.as_slice(), index.schema().names())?;
    Ok(report_text(alloc, reports.as_slice())?)
}
