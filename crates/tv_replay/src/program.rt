//! The top call of the program.
ghost use Rattle.std.specs.Prelude.{◌≡◌, ◌⊎◌, ◌↔◌, List, ℕ, None, map, string_bytes};
ghost use Rattle.tv_replay.specs.Commands.{AskFor, IsNoCommand};
ghost use Rattle.tv_replay.specs.Runs.{usage_line, EndsGenerate, EndsReplay, OnlySays};
ghost use Rattle.tv_replay.specs.WordRuns.{EndsRun, IsUndisturbedRun};

use crate::command::{Command, command_of};
use crate::place::Place;
use crate::replaying::{Replayed, replay};
use crate::saying::{MEMORY_LINE, give_back_after, say_error, say_line};
use crate::space::run_space;
use crate::summary::summary_of;
use std::alloc::Global;
use tv_base::{Source, TantivyError};

const USAGE: &str =
    "usage: tv replay FOLDER SCHEMA | space FOLDER SCHEMA | generate N | race FOLDER SCHEMA HANDLES SCRIPT..";

/// Does what the words of a command line say, and answers the status with which the program ends: 0
/// where that was done, 1 after an error, 2 where the words are of no command, and 3 where memory was
/// wanted.
///
/// `replay FOLDER SCHEMA` replays the script over the folder, with the schema of the path. After an
/// error its line is told to the folder's owner, or said: one line, or a part of it where the place
/// refuses that too. `space FOLDER SCHEMA` says how much space the files of the folder's index take, and
/// changes nothing in the folder: it takes no lock, and writes no file. After an error its line is told
/// or said likewise. `generate N`, with N from 0 to 1000, generates a script of N commits, replays it
/// over a new index in memory, and says its summary. (So far the other words of the usage are of no
/// command.) Where no replay begins, the script is left as it was: by these words and by words of no
/// command, and where the place refuses the schema or the folder.
pub fn run<P: Place, R: Source>(
    alloc: Global,
    words: &[String],
    place: &mut P,
    script: &mut R,
) -> u8
    requires free { (P.view place.old).lent ≡ None }
    requires paths { (folder path : List ℕ) → AskFor (map string_bytes words.now) folder path
        → P.is_folder_path folder × P.is_schema_path path }
    ensures free { (P.view place.new).lent ≡ None }
    ensures usage { (result ≡ 2) ↔ IsNoCommand (map string_bytes words.now) }
    // Words of no command have the usage line said, and the script is as it was.
    ensures usage_line { result ≡ 2
        → OnlySays P.told (P.view place.old) (P.view place.new) usage_line
        × (R.view script.new ≡ R.view script.old) }
    // What was replayed, measured or generated, told and said.
    ensures ends { EndsRun P.Out.Directory P.told (map string_bytes words.now)
        (record { place = P.view place.old; script = R.view script.old })
        (record { place = P.view place.new; script = R.view script.new }) result }
    // A run that nothing disturbs ends with the whole script, or wants memory.
    ensures complete { IsUndisturbedRun P.Out.Directory P.told (map string_bytes words.now)
        (record { place = P.view place.old; script = R.view script.old })
        (record { place = P.view place.new; script = R.view script.new })
        → (result ≡ 0) ⊎ (result ≡ 3) }
    ensures statuses { (result ≡ 0) ⊎ (result ≡ 1) ⊎ (result ≡ 2) ⊎ (result ≡ 3) }
{
    match command_of(words) {
        Some(Command::Replay(folder, path)) => run_replay(alloc, folder, path, place, script),
        Some(Command::Space(folder, path)) => run_space(alloc, folder, path, place),
        Some(Command::Generate(n)) => run_generate(alloc, n, place),
        None => {
            say_line(place, USAGE.as_bytes());
            2
        }
    }
}

// Generates a script of `n` commits, replays it over a new index in memory, and says its summary.
fn run_generate<P: Place>(alloc: Global, n: u32, place: &mut P) -> u8
    ensures { EndsGenerate P.told n (P.view place.old) (P.view place.new) result }
{
    let Ok(summary) = summary_of(alloc, n) else {
        say_line(place, MEMORY_LINE);
        return 3;
    };
    match place.say(summary.as_bytes()) {
        Ok(()) => 0,
        Err(fault) => say_error(alloc, place, TantivyError::IoError(fault)),
    }
}

// Replays a script over a folder, with the schema of a path.
fn run_replay<P: Place, R: Source>(
    alloc: Global,
    folder: &str,
    path: &str,
    place: &mut P,
    script: &mut R,
) -> u8
    requires free { (P.view place.old).lent ≡ None }
    requires paths { P.is_folder_path folder.now × P.is_schema_path path.now }
    ensures free { (P.view place.new).lent ≡ None }
    ensures ends { EndsReplay P.Out.Directory P.told (record {
      folder = folder.now;
      path = path.now;
      old = record { place = P.view place.old; script = R.view script.old };
      new = record { place = P.view place.new; script = R.view script.new };
    }) result }
{
    let schema = match place.schema(path) {
        Ok(schema) => schema,
        Err(error) => return say_error(alloc, place, TantivyError::from(error)),
    };
    let outside = match place.lend(folder) {
        Ok(outside) => outside,
        Err(refusal) => return say_error(alloc, place, TantivyError::from(refusal)),
    };
    let Replayed { outside, outcome } = replay(alloc, outside, schema.as_slice(), script);
    match outcome {
        Ok(_) => {
            place.give_back(outside);
            0
        }
        Err(error) => give_back_after(alloc, place, outside, error),
    }
}
