//! A run that measures the index of a folder.
ghost use Rattle.std.specs.Prelude.{◌≡◌, None};
ghost use Rattle.tv_replay.specs.SpaceRuns.{EndsSpace};

use crate::place::Place;
use crate::saying::{give_back_after, say_error, say_text};
use std::alloc::Global;
use tv_base::TantivyError;
use tv_metas::Schema;
use tv_space::{Measured, measure};

/// Says how much space the files of a folder's index take, with the schema of a path.
pub(crate) fn run_space<P: Place>(alloc: Global, folder: &str, path: &str, place: &mut P) -> u8
    requires free { (P.view place.old).lent ≡ None }
    requires paths { P.is_folder_path folder.now × P.is_schema_path path.now }
    ensures free { (P.view place.new).lent ≡ None }
    ensures ends { EndsSpace P.Out.Directory P.told (record {
      folder = folder.now;
      path = path.now;
      old = P.view place.old;
      new = P.view place.new;
    }) result }
{
    let bytes = match place.schema(path) {
        Ok(bytes) => bytes,
        Err(error) => return say_error(alloc, place, TantivyError::from(error)),
    };
    let schema = match Schema::from_bytes(alloc, bytes.as_slice()) {
        Ok(schema) => schema,
        Err(error) => return say_error(alloc, place, error),
    };
    let outside = match place.lend(folder) {
        Ok(outside) => outside,
        Err(refusal) => return say_error(alloc, place, TantivyError::from(refusal)),
    };
    let Measured { directory, outcome } = measure(alloc, outside, schema);
    match outcome {
        Ok(report) => {
            place.give_back(directory);
            say_text(alloc, place, report.as_slice())
        }
        Err(error) => give_back_after(alloc, place, directory, error),
    }
}
