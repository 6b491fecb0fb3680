//! Laws of space reports: what a user relies on, of the calls that each makes.
ghost use Rattle.std.specs.Prelude.{IfOk};
ghost use Rattle.tv_space.specs.Laws.{DropsNoPart};

use crate::reporting::space_report;
use std::alloc::Global;
use tv_base::TantivyError;
use tv_device::Directory;
use tv_index::Index;

/// A report has a line for each segment, and counts every part of each file: whatever parts a file is
/// made of, its number is that of the bytes of all of them.
pub fn a_report_drops_no_part<D: Directory>(
    alloc: Global,
    index: &mut Index<D>,
) -> Result<Vec<u8>, TantivyError>
    ensures { D.told.content → IfOk result (λ text.
        DropsNoPart (D.view index.old.directory.0).reads index.old.schema text.items) }
{
    space_report(alloc, index)
}
