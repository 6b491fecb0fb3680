//! Bytes that are refused.
ghost use Rattle.std.specs.Prelude.{◌++◌};
ghost use Rattle.std.specs.Fmt.{decimal};
ghost use Rattle.tv_framing.specs.Faults.{IsFault, OfFault};

use std::alloc::Global;
use tv_base::{IoError, IoFault, IoKind};

/// The fault of this kind and text, or want of memory for the text.
pub(crate) fn refusal(alloc: Global, kind: IoKind, text: &str) -> IoError
    ensures { OfFault (IsFault kind text.now) result }
{
    match String::from_str(alloc, text) {
        Ok(text) => IoError::Fault(IoFault { kind, text }),
        Err(_) => IoError::Memory,
    }
}

/// The same, where the text has a number in its middle.
pub(crate) fn numbered(
    alloc: Global,
    kind: IoKind,
    before: &str,
    number: usize,
    after: &str,
) -> IoError
    ensures { OfFault (IsFault kind (before.now ++ (decimal number ++ after.now))) result }
{
    match format!(in alloc; "{before}{number}{after}") {
        Ok(text) => IoError::Fault(IoFault { kind, text }),
        Err(_) => IoError::Memory,
    }
}
