//! The events of a script, one at a time.
ghost use Rattle.std.specs.Prelude.{◌≡◌, ◌≤◌, ◌+◌, length, IfOk, OnOk, IfSome};
ghost use Rattle.tv_events.specs.Script.{line_limit};
ghost use Rattle.tv_script.specs.ScriptLines.{pending, FitsLine, TakesNextEvent, ReadsAhead};
ghost use Rattle.tv_script.specs.ScriptCauses.{ScriptFaults, EventReads};

use crate::lines::{LineError, next_line};
use crate::script::parse_event;
use crate::script_buffer::ScriptBuffer;
use std::alloc::Global;
use tv_base::Source;
use tv_events::Event;
use tv_formats::Memory;

/// Why there is no next event.
#[derive(Drop)]
pub enum ScriptError {
    /// There is no next line.
    Line(LineError),
    /// The next line is no event's.
    NotAnEvent,
}

impl From<LineError> for ScriptError {
    ghost use Rattle.tv_script.specs.declared.script_events.ScriptError.TheVariants.{Line};

    ghost from_gives = { λ error e. e ≡ Line error };

    fn from(error: LineError) -> ScriptError {
        ScriptError::Line(error)
    }
}

impl From<Memory> for ScriptError {
    ghost use Rattle.tv_script.specs.declared.lines.LineError.TheVariants as lines;
    ghost use Rattle.tv_script.specs.declared.script_events.ScriptError.TheVariants.{Line};

    ghost from_gives = { λ _ e. e ≡ Line lines.Memory };

    fn from(_error: Memory) -> ScriptError {
        ScriptError::Line(LineError::Memory)
    }
}

/// Takes the event of the next line of a script. There is none at the end.
pub fn next_event<S: Source>(
    alloc: Global,
    source: &mut S,
    buffer: &mut ScriptBuffer,
) -> Result<Option<Event>, ScriptError>
    requires held { length buffer.old ≤ line_limit + 1 }
    ensures event { IfOk result (λ found. TakesNextEvent
        (pending buffer.old (S.view source.old).left)
        found
        (pending buffer.new (S.view source.new).left)) }
    // This is known also where the source doesn't tell the script.
    ensures fits { IfOk result (λ found. IfSome found FitsLine) }
    // No more is held than a line and one byte, and no more was read where no read was refused.
    ensures held { OnOk result (length buffer.new ≤ line_limit + 1) }
    ensures ahead { EventReads
        (ReadsAhead (pending buffer.old (S.view source.old).left) (S.view source.new).left)
        result }
    ensures faults { ScriptFaults (pending buffer.old (S.view source.old).left) (S.view source.old)
        (S.view source.new) result }
{
    let Some(line) = next_line(alloc, source, buffer)? else {
        return Ok(None);
    };
    match parse_event(alloc, line.as_slice())? {
        Some(event) => Ok(Some(event)),
        None => Err(ScriptError::NotAnEvent),
    }
}
