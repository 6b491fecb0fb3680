//! Laws of replays and runs: what the calls promise to whoever uses them. Each calls the real
//! one, and says in a user's words what follows from its contract.
ghost use Rattle.std.specs.Prelude.{◌≡◌, ◌≢◌, [], ℕ, List, None, Some, length, map, IfErr, IfOk, OnOk, string_bytes};
ghost use Rattle.tv_formats.specs.Sound.{IsSoundStart};
ghost use Rattle.tv_formats.specs.Schemas.{stripped};
ghost use Rattle.tv_events.specs.Script.{lines_of};
ghost use Rattle.tv_replay.specs.Commands.{AskFor, IsNoCommand};
ghost use Rattle.tv_replay.specs.Completeness.{IsUndisturbed};
ghost use Rattle.tv_replay.specs.Headline.{Headline, RunSurvives, RunsSoundly, StartsSoundly};
ghost use Rattle.tv_replay.specs.LastCollections.{EndsCollecting, LeavesNeeded, RefusesNoDelete};
ghost use Rattle.tv_replay.specs.Surviving.{SurvivesReplay};
ghost use Rattle.tv_replay.specs.WordRuns.{IsUndisturbedRun};

use crate::place::Place;
use crate::program::run;
use crate::replaying::{Replayed, replay};
use std::alloc::Global;
use tv_base::{Source, TantivyError};
use tv_device::Outside;
use tv_formats::Memory;

/// From a sound start, a replay that answers Ok has told, line by line, a run of the machine on the
/// whole script, and left its files and its list.
///
/// It presumes a directory that tells its content, its lines and its locks, and a script that is told.
/// A sound start is one where no lock is held, the list names each file without a dot in front, and
/// `meta.json`, where there is one, means a commit of this schema whose files can be read; an empty
/// directory is one. What is left is a sound start again. That the schema is valid isn't presumed: at
/// Ok it is.
///
/// Where the directory also tells what a crash may leave, and each such image of the start is sound,
/// more holds of every moment of the replay, whatever it answers. A crash before the opening line
/// leaves the commit of the start, or that of a new index; a crash later leaves whole the commit of
/// the events whose lines are told, or that of the event in progress, and each undotted file listed.
/// Each image that a crash may leave at the end is sound again. At Ok this is said of the run that was
/// told.
pub fn tells_a_run_of_the_machine<O: Outside, R: Source>(
    alloc: Global,
    outside: O,
    schema: &[u8],
    script: &mut R,
) -> Replayed<O>
    ensures headline { O.told.content → O.told.heard → O.told.locks
        → IsSoundStart (stripped schema.now) (O.view outside).reads (O.view outside).locks
        → (text : List ℕ) → (R.view script.old).left ≡ Some text
        → IfOk result.outcome (Headline O.Directory outside result.outside schema.now text) }
    ensures crashes { SurvivesReplay O.Directory outside result.outside schema.now
        (R.view script.old).left }
{
    replay(alloc, outside, schema, script)
}

/// A run for `replay FOLDER SCHEMA` that starts soundly and ends with 0 has done the same in its folder:
/// the headline holds of the directory that the folder held and the one that it holds now.
///
/// Whatever status it ends with, where the directory also tells what a crash may leave, and each such
/// image of the start is sound: up to where the replay stopped a crash leaves what it leaves of a
/// replay; from there on it leaves what it might leave then, and each such image is sound.
pub fn runs_the_machine_over_a_folder<P: Place, R: Source>(
    alloc: Global,
    words: &[String],
    place: &mut P,
    script: &mut R,
) -> u8
    requires free { (P.view place.old).lent ≡ None }
    requires paths { (folder path : List ℕ) → AskFor (map string_bytes words.now) folder path
        → P.is_folder_path folder × P.is_schema_path path }
    ensures headline { (start : StartsSoundly P.Out.Directory P.told (map string_bytes words.now)
        (record { place = P.view place.old; script = R.view script.old })) → result ≡ 0
        → RunsSoundly start (record { place = P.view place.new; script = R.view script.new }) }
    ensures crashes { RunSurvives P.Out.Directory P.told (map string_bytes words.now)
        (record { place = P.view place.old; script = R.view script.old })
        (record { place = P.view place.new; script = R.view script.new }) }
{
    run(alloc, words, place, script)
}

/// A replay that answers Ok, of a script whose last line is `gc`, leaves what is needed and nothing else,
/// where that is its only line or stands right behind a line `reopen`, and no delete was refused: of the
/// files without a dot in front, `meta.json` apart, that stood there before that line exactly those are
/// left that belong to a segment of the current commit or to a live one.
///
/// It presumes a directory that tells its content, a script that is told, and a sound start.
pub fn a_collection_leaves_what_is_needed<O: Outside, R: Source>(
    alloc: Global,
    outside: O,
    schema: &[u8],
    script: &mut R,
) -> Replayed<O>
    ensures needed { O.told.content
        → IsSoundStart (stripped schema.now) (O.view outside).reads (O.view outside).locks
        → (text : List ℕ) → (R.view script.old).left ≡ Some text → EndsCollecting text
        → RefusesNoDelete (O.view outside) (O.view result.outside)
        → OnOk result.outcome (LeavesNeeded O.Directory outside result.outside schema.now text) }
{
    replay(alloc, outside, schema, script)
}

/// A replay that answers Ok counted every line of its script, and left none. One that nothing
/// disturbs answers Ok, or wants memory.
pub fn replays_the_whole_script<O: Outside, R: Source>(
    alloc: Global,
    outside: O,
    schema: &[u8],
    script: &mut R,
) -> Replayed<O>
    ensures counted { (text : List ℕ) → (R.view script.old).left ≡ Some text
        → IfOk result.outcome (λ tally. tally.events ≡ length (lines_of text)) }
    ensures read { (text : List ℕ) → (R.view script.old).left ≡ Some text
        → OnOk result.outcome ((R.view script.new).left ≡ Some []) }
    ensures complete { IsUndisturbed O.Directory outside schema.now (R.view script.old)
        (R.view script.new) result
        → IfErr result.outcome (λ error. error ≡ TantivyError.Memory) }
{
    replay(alloc, outside, schema, script)
}

/// Words of no command end with 2, and a replay that nothing disturbs doesn't end with 1.
pub fn ends_with_its_status<P: Place, R: Source>(
    alloc: Global,
    words: &[String],
    place: &mut P,
    script: &mut R,
) -> u8
    requires free { (P.view place.old).lent ≡ None }
    requires paths { (folder path : List ℕ) → AskFor (map string_bytes words.now) folder path
        → P.is_folder_path folder × P.is_schema_path path }
    ensures usage { IsNoCommand (map string_bytes words.now) → result ≡ 2 }
    ensures complete { IsUndisturbedRun P.Out.Directory P.told (map string_bytes words.now)
        (record { place = P.view place.old; script = R.view script.old })
        (record { place = P.view place.new; script = R.view script.new }) → result ≢ 1 }
{
    run(alloc, words, place, script)
}
