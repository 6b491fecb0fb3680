//! A script replayed over a directory.
ghost use Rattle.std.specs.Prelude.{◌≡◌, ◌≤◌, ◌+◌, ℕ, List, None, true, false, length, IfOk, IfErr, OnOk, string_bytes};
ghost use Rattle.tv_events.specs.Script.{line_limit};
ghost use Rattle.tv_machine.specs.Living.{is_busy};
ghost use Rattle.tv_store.specs.Kept.{AtMost};
ghost use Rattle.tv_catalog.specs.ReaderNumbers.{FewNumbers};
ghost use Rattle.tv_store.specs.StoreCauses.{IsRefusal};
ghost use Rattle.tv_replay.specs.AppliedEvents.{Runs, RunFrame, RunFaults, StopsRun, ScriptEndFaults, IsErrorOf};
ghost use Rattle.tv_replay.specs.Completeness.{IsUndisturbed};
ghost use Rattle.tv_replay.specs.Replays.{Replays, ReplayFaults, ReplayFrame, StopsReplay, IsReadOut};
ghost use Rattle.tv_replay.specs.Replays.{line_refusal, long_refusal, replay_call};
ghost use Rattle.tv_script.specs.ScriptLines.{pending, TakesNextEvent, ReadsAhead};
ghost use Rattle.tv_replay.specs.ScriptEnds.{EndReads};
ghost use Rattle.tv_replay.specs.Surviving.{RunsInPart, SurvivesReplay};

use std::alloc::{AllocError, Global};
use tv_base::{Source, TantivyError};
use tv_device::Outside;
use tv_managed::Refused;
use tv_script::{LineError, ScriptBuffer, ScriptError, next_event};
use tv_store::IndexStore;

/// What a replay did: how many lines its script had.
#[derive(Clone, Copy, Debug, PartialEq, Eq)]
pub struct Tally {
    /// How many lines, refused events among them.
    pub events: u32,
}

/// The directory after a replay, and how the replay went.
pub struct Replayed<O> {
    /// The directory, in which no lock of the replay is held.
    pub outside: O,
    /// That the script was read to its end, or why not.
    pub outcome: Result<Tally, TantivyError>,
}

/// Opens the index that stands in a directory, or makes one with this schema where there is none,
/// applies the events of a script to it, one a line, and tells the opening line and the line of each
/// event.
///
/// Ok means that the script was read to its end. The directory comes back after an error too. A stored
/// commit is never taken away by an opening. Errors of the opening come in this order:
/// `InvalidArgument` for the schema, `DataCorruption` for the list of managed files, `DataCorruption`
/// and `SchemaError` for `meta.json`, `LockFailure` with `LockBusy` for the writer lock, `OpenReadError`
/// for the first file of the commit that can't be read.
pub fn replay<O: Outside, R: Source>(
    alloc: Global,
    outside: O,
    schema: &[u8],
    script: &mut R,
) -> Replayed<O>
    // What was told and left at Ok.
    ensures done { IfOk result.outcome
        (Replays O.Directory outside result.outside schema.now (R.view script.old).left) }
    ensures read_out { OnOk result.outcome (IsReadOut (R.view script.old) (R.view script.new)) }
    // Where it stopped with an error, what was told by then, and which commit stands.
    ensures stops { IfErr result.outcome (StopsReplay O.told
        (replay_call O.Directory outside result.outside schema.now
        (R.view script.old) (R.view script.new))) }
    // Where it is told a valid schema, a valid script and a sound start, no lock is held, and no call but
    // deletes is refused, it comes to its end, or wants memory.
    ensures complete { IsUndisturbed O.Directory outside schema.now (R.view script.old)
        (R.view script.new) result
        → IfErr result.outcome (λ error. error ≡ TantivyError.Memory) }
    ensures faults { ReplayFaults O.told
        (replay_call O.Directory outside result.outside schema.now
        (R.view script.old) (R.view script.new))
        result.outcome }
    ensures frame { ReplayFrame O.told (O.view outside) (O.view result.outside) }
    // Of a sound directory: what a crash leaves at each moment, whatever it answers.
    ensures survives { SurvivesReplay O.Directory outside result.outside schema.now
        (R.view script.old).left }
{
    let mut store = match IndexStore::open(alloc, outside, schema) {
        Ok(store) => store,
        Err(Refused { error, directory }) => {
            return Replayed {
                outside: directory,
                outcome: Err(error),
            };
        }
    };
    let outcome = apply_all(alloc, &mut store, script);
    Replayed {
        outside: store.into_outside(),
        outcome,
    }
}

// Applies the events of a script, one after the other.
fn apply_all<O: Outside, R: Source>(
    alloc: Global,
    store: &mut IndexStore<O>,
    script: &mut R,
) -> Result<Tally, TantivyError>
    requires open { store.old.standing.is_open ≡ true }
    requires short { AtMost 0 store.old.kept }
    requires few { FewNumbers 0 store.old.kept.catalog.reading store.old.kept.collections }
    requires idle { is_busy store.old.kept.catalog ≡ false }
    ensures done { IfOk result
        (Runs O.Directory store.old store.new (R.view script.old).left (R.view script.new).left) }
    ensures stops { IfErr result
        (StopsRun O.Directory store.old store.new (R.view script.old) (R.view script.new)) }
    ensures faults { RunFaults O.Directory store.old store.new (R.view script.old)
        (R.view script.new) result }
    ensures frame { RunFrame O.told (is_busy store.new.kept.catalog)
        (O.view store.old.outside) (O.view store.new.outside) }
    ensures survives { RunsInPart O.Directory store.old store.new (R.view script.old).left }
{
    let mut buffer = ScriptBuffer::new(alloc)?;
    for events in 0..u32::MAX {
        let event = match next_event(alloc, script, &mut buffer) {
            Ok(Some(event)) => event,
            Ok(None) => return Ok(Tally { events }),
            Err(error) => return Err(script_error(alloc, error, events + 1)),
        };
        let _answer = store.apply(&event)?;
    }
    end_of(alloc, script, &mut buffer)
}

/// What stands after the last line that is taken: the end, or a line too many.
pub(crate) fn end_of<R: Source>(
    alloc: Global,
    script: &mut R,
    buffer: &mut ScriptBuffer,
) -> Result<Tally, TantivyError>
    requires held { length buffer.old ≤ line_limit + 1 }
    ensures count { IfOk result (λ tally. tally.events ≡ u32.MAX) }
    ensures end { OnOk result (TakesNextEvent
        (pending buffer.old (R.view script.old).left)
        None
        (pending buffer.new (R.view script.new).left)) }
    // No more is held than a line and one byte, and no more was read where no read was refused.
    ensures held { OnOk result (length buffer.new ≤ line_limit + 1) }
    ensures ahead { EndReads
        (ReadsAhead (pending buffer.old (R.view script.old).left) (R.view script.new).left)
        result }
    ensures faults { ScriptEndFaults (pending buffer.old (R.view script.old).left)
        (R.view script.old) (R.view script.new) result }
{
    match next_event(alloc, script, buffer) {
        Ok(None) => Ok(Tally { events: u32::MAX }),
        Ok(Some(_)) => Err(TantivyError::Exhausted),
        Err(ScriptError::NotAnEvent) => Err(TantivyError::Exhausted),
        Err(ScriptError::Line(LineError::TooLong)) => Err(TantivyError::Exhausted),
        Err(ScriptError::Line(LineError::Memory)) => Err(TantivyError::Memory),
        Err(ScriptError::Line(LineError::Fault(fault))) => Err(TantivyError::IoError(fault)),
    }
}

// The error that a line of this number makes.
fn script_error(alloc: Global, error: ScriptError, number: u32) -> TantivyError
    ensures { IsErrorOf error number result }
{
    match error {
        ScriptError::Line(LineError::Memory) => TantivyError::Memory,
        ScriptError::Line(LineError::Fault(fault)) => TantivyError::IoError(fault),
        ScriptError::Line(LineError::TooLong) => argument_error(long_refusal_of(alloc, number)),
        ScriptError::NotAnEvent => argument_error(refusal_of(alloc, number)),
    }
}

// An argument that is refused with this text, or want of memory for the text.
fn argument_error(text: Result<String, AllocError>) -> TantivyError
    ensures { (refusal : List ℕ) → IfOk text (λ text. string_bytes text ≡ refusal)
        → IsRefusal refusal result }
{
    match text {
        Ok(text) => TantivyError::InvalidArgument(text),
        Err(_) => TantivyError::Memory,
    }
}

// What is said of a line that is no event's.
fn refusal_of(alloc: Global, number: u32) -> Result<String, AllocError>
    ensures { IfOk result (λ text. string_bytes text ≡ line_refusal number) }
{
    format!(in alloc; "line {number} is not of the event grammar")
}

// What is said of a line that is longer than a line may be.
fn long_refusal_of(alloc: Global, number: u32) -> Result<String, AllocError>
    ensures { IfOk result (λ text. string_bytes text ≡ long_refusal number) }
{
    format!(in alloc; "line {number} is longer than 1048576 bytes")
}
