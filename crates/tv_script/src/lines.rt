//! The lines of a script, one at a time.
ghost use Rattle.std.specs.Prelude.{◌≡◌, ◌≤◌, ◌+◌, length, option_map, IfOk, OnOk, IfSome, vec_len};
ghost use Rattle.tv_events.specs.Script.{line_limit};
ghost use Rattle.tv_script.specs.ScriptLines.{pending, TakesNext, ReadsAhead};
ghost use Rattle.tv_script.specs.ScriptCauses.{LineFaults, LineReads};

use crate::script::LINE_LIMIT;
use crate::script_buffer::ScriptBuffer;
use std::alloc::{AllocError, Global};
use tv_base::{IoFault, Source};

/// Why there is no next line.
#[derive(Drop)]
pub enum LineError {
    /// There was no memory for it.
    Memory,
    /// A read was refused.
    Fault(IoFault),
    /// It is longer than a line may be.
    TooLong,
}

impl From<AllocError> for LineError {
    ghost use Rattle.tv_script.specs.declared.lines.LineError.TheVariants.{Memory};

    ghost from_gives = { λ _ e. e ≡ Memory };

    fn from(_error: AllocError) -> LineError {
        LineError::Memory
    }
}

impl From<IoFault> for LineError {
    ghost use Rattle.tv_script.specs.declared.lines.LineError.TheVariants.{Fault};

    ghost from_gives = { λ fault e. e ≡ Fault fault };

    fn from(fault: IoFault) -> LineError {
        LineError::Fault(fault)
    }
}

/// Takes the next line of a script, without its line feed. There is none at the end.
pub(crate) fn next_line<S: Source>(
    alloc: Global,
    source: &mut S,
    buffer: &mut ScriptBuffer,
) -> Result<Option<Vec<u8>>, LineError>
    requires held { length buffer.old ≤ line_limit + 1 }
    ensures line { IfOk result (λ found. TakesNext
        (pending buffer.old (S.view source.old).left)
        (option_map (λ line. line.items) found)
        (pending buffer.new (S.view source.new).left)) }
    ensures within { IfOk result (λ found. IfSome found (λ line. vec_len line ≤ line_limit)) }
    // No more is held than a line and one byte, and no more was read where no read was refused.
    ensures held { OnOk result (length buffer.new ≤ line_limit + 1) }
    ensures ahead { LineReads
        (ReadsAhead (pending buffer.old (S.view source.old).left) (S.view source.new).left)
        result }
    ensures faults { LineFaults (pending buffer.old (S.view source.old).left) (S.view source.old)
        (S.view source.new) result }
{
    let mut line = Vec::new(alloc);
    'pieces: loop {
        buffer.refill(source, line.len())?;
        if buffer.is_empty() {
            if line.as_slice().is_empty() {
                return Ok(None);
            }
            return Ok(Some(line));
        }
        let found = buffer.move_line(&mut line)?;
        if line.len() > LINE_LIMIT {
            return Err(LineError::TooLong);
        }
        if found {
            return Ok(Some(line));
        }
    }
}
