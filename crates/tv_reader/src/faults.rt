//! Bytes that are refused.
ghost use Rattle.tv_base.specs.declared.io.IoKind.TheVariants.{InvalidData};
ghost use Rattle.tv_framing.specs.Faults.{IsFault, OfFault};

use std::alloc::Global;
use tv_base::{IoError, IoFault, IoKind};

/// `InvalidData` with this text, or want of memory for the text.
pub(crate) fn invalid(alloc: Global, text: &str) -> IoError
    ensures { OfFault (IsFault InvalidData text.now) result }
{
    match String::from_str(alloc, text) {
        Ok(text) => IoError::Fault(IoFault {
            kind: IoKind::InvalidData,
            text,
        }),
        Err(_) => IoError::Memory,
    }
}
