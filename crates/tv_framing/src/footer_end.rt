//! Where the footer of a file lies.
ghost use Rattle.std.specs.Prelude.{◌<◌, MatchOption, MatchResult, length};
ghost use Rattle.tv_framing.specs.Faults.{OfFault};
ghost use Rattle.tv_framing.specs.FooterEnds.{EndsIn, HasEnd};
ghost use Rattle.tv_framing.specs.Footers.{Refuses};

use crate::cursor::Cursor;
use crate::faults::{numbered, refusal};
use std::alloc::Global;
use std::ops::Range;
use tv_base::{IoError, IoKind};

/// The number by which a footer is known.
pub(crate) const FOOTER_MAGIC_NUMBER: u32 = 1337;

// The largest length of a footer's JSON that is read.
const MAX_LEN: usize = 50_000;

const OTHER_MAGIC: &str =
    "Footer magic byte mismatch. File corrupted or index was created using old an tantivy version which is not supported anymore. Please use tantivy 0.15 or above to recreate the index.";

/// Where the JSON of the footer lies. The reasons to refuse a file are looked at in their order.
pub(crate) fn json_range(alloc: Global, bytes: &[u8]) -> Result<Range<usize>, IoError>
    ensures { MatchResult result (λ range. HasEnd bytes.now range.start range.end)
        (OfFault (Refuses bytes.now)) }
{
    let Some((front, stated, magic)) = ending(bytes) else {
        return Err(numbered(
            alloc,
            IoKind::UnexpectedEof,
            "File corrupted. The file is smaller than 8 bytes (len=",
            bytes.len(),
            ").",
        ));
    };
    if magic != FOOTER_MAGIC_NUMBER {
        return Err(refusal(alloc, IoKind::InvalidData, OTHER_MAGIC));
    }
    let len = stated as usize;
    if len > MAX_LEN {
        return Err(numbered(
            alloc,
            IoKind::InvalidData,
            "Footer seems invalid as it suggests a footer len of ",
            len,
            ". File is corrupted, or the index was created with a different & old version of tantivy.",
        ));
    }
    if front < len {
        return Err(numbered(
            alloc,
            IoKind::UnexpectedEof,
            "File corrupted. The file is smaller than it's footer bytes (len=",
            len + 8,
            ").",
        ));
    }
    Ok(front - len..front)
}

// How many bytes stand before the last eight, and the two numbers in those.
fn ending(bytes: &[u8]) -> Option<(usize, u32, u32)>
    ensures { MatchOption result (length bytes.now < 8) (λ r. EndsIn bytes.now r.0 r.1 r.2) }
{
    let front = bytes.len().checked_sub(8)?;
    let mut end = Cursor::new(&bytes[front..]);
    let stated = end.four_bytes()?;
    let magic = end.four_bytes()?;
    Some((front, stated, magic))
}
