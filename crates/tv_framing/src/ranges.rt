//! Where the bodies of a composite file lie.
ghost use Rattle.std.specs.Prelude.{◌≡◌, ◌≤◌, ◌<◌, ◌+◌, ℕ, List, Some, None, IfSome, MatchOption, drop, length, slice_range};
ghost use Rattle.tv_framing.specs.Composite.{body_at};
ghost use Rattle.tv_framing.specs.Starts.{Fill, next_start, parts_of};

use crate::address::{FileAddr, is_at};
use crate::starts::Start;
use std::ops::Range;

/// Where the body of this address lies, if there is one. The bodies fill everything up to the end.
pub(crate) fn range_of(starts: &[Start], addr: &FileAddr, end: usize) -> Option<Range<usize>>
    requires { Fill starts.now end }
    ensures body { (bytes : List ℕ) → length bytes ≡ end
        → MatchOption result (body_at addr.now (parts_of bytes starts.now) ≡ None)
        (λ r. body_at addr.now (parts_of bytes starts.now)
        ≡ Some (slice_range bytes r.start r.end)) }
    ensures inside { IfSome result (λ r. (r.start ≤ r.end) × (r.end ≤ end)) }
{
    for (i, start) in starts.iter().enumerate() {
        if is_at(addr, &start.addr) {
            return Some(start.offset as usize..end_of(starts, i, end));
        }
    }
    None
}

/// Where the body of this place ends: where the next one begins, or at the end.
pub(crate) fn end_of(starts: &[Start], place: usize, end: usize) -> usize
    requires { place < length starts.now }
    ensures { result ≡ next_start end (drop (place + 1) starts.now) }
{
    match starts.get(place + 1) {
        Some(next) => next.offset as usize,
        None => end,
    }
}
