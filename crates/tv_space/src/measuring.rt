//! The space report of the index that stands in a directory.
ghost use Rattle.std.specs.Prelude.{IfOk};
ghost use Rattle.tv_device.specs.Images.{KeepsDisk};
ghost use Rattle.tv_device.specs.View.{OnlyReads};
ghost use Rattle.tv_space.specs.Measuring.{MeasureFaults, MeasuresIndex};

use crate::reporting::space_report;
use std::alloc::Global;
use tv_base::TantivyError;
use tv_device::Directory;
use tv_index::Index;
use tv_managed::{ManagedDirectory, Refused};
use tv_metas::{IndexSettings, Schema};

/// A directory whose index was measured, and how that went.
pub struct Measured<D> {
    /// The directory.
    pub directory: D,
    /// The lines of the report, or why there is none.
    pub outcome: Result<Vec<u8>, TantivyError>,
}

/// Measures the index of this schema that stands in a directory, as `space_report` does. The directory
/// comes back after an error too. Nothing is written, nothing is told, no lock is taken, and pins aren't
/// looked at: so a directory is measured in which somebody else writes, or nobody may.
///
/// `DataCorruption` for the list of managed files comes first, then the errors of `space_report`:
/// `OpenReadError` for a `meta.json` that isn't there, `DataCorruption` and `SchemaError` for it.
pub fn measure<D: Directory>(alloc: Global, directory: D, schema: Schema) -> Measured<D>
    ensures report { D.told.content → IfOk result.outcome (λ text.
        MeasuresIndex (D.view directory).reads schema text.items) }
    ensures faults { MeasureFaults D.Directory directory result.directory schema result.outcome }
    ensures frame { OnlyReads D.told (D.view directory) (D.view result.directory) }
    ensures images { D.tells_images → KeepsDisk (D.disk directory) (D.disk result.directory) }
{
    let managed = match ManagedDirectory::wrap(alloc, directory) {
        Ok(managed) => managed,
        Err(Refused { error, directory }) => {
            return Measured {
                directory,
                outcome: Err(error),
            };
        }
    };
    let mut index = Index::from_parts(alloc, managed, IndexSettings::new(), schema);
    let outcome = space_report(alloc, &mut index);
    Measured {
        directory: index.into_directory(),
        outcome,
    }
}
