//! What users rely on.
ghost use Rattle.std.specs.Prelude.{◌≡◌, ◌≤◌, ℕ, length, Some, IfOk, option_map};
ghost use Rattle.tv_publishing.specs.Lists.{IsPrefix, at_number};
ghost use Rattle.tv_publishing.specs.Reading.{last_read, read_body, seen_of};

use crate::read_handle::ReadHandle;
use crate::taken::Seen;
use std::sync::Wait;
use tv_base::FileSlice;
use tv_formats::{Memory, SegmentComponent};

/// A handle that learned of so many snapshots reads one that is no earlier, and the last one that it knows
/// of.
pub fn reads_what_it_learned<R: Wait>(rt: &R, handle: &mut ReadHandle, published: u64) -> Seen
    ensures later { published ≤ handle.new.read }
    ensures last { handle.new.read ≡ length handle.new.known }
    ensures seen { option_map seen_of (last_read handle.new) ≡ Some result }
{
    handle.learn(rt, published);
    handle.read()
}

/// Bodies are those of the snapshot that was read last, whatever the handle learned since.
pub fn keeps_what_it_read<R: Wait>(
    rt: &R,
    handle: &mut ReadHandle,
    published: u64,
    component: SegmentComponent,
) -> Result<Option<FileSlice>, Memory>
    ensures number { handle.new.read ≡ handle.old.read }
    ensures body { IfOk result (λ body. body ≡ read_body handle.new 0 component) }
{
    handle.learn(rt, published);
    handle.bytes(0, component)
}

/// What a handle knew of it never forgets, and a second read is no older: what the first one saw stands in the
/// list at no later place.
#[tactic(auto, using(crate::proofs::Prefixes::then_prefix, crate::proofs::Rereading::no_older))]
pub fn reads_no_older(handle: &mut ReadHandle) -> (Seen, Seen)
    ensures grows { IsPrefix handle.old.known handle.new.known }
    ensures second { option_map seen_of (last_read handle.new) ≡ Some result.1 }
    ensures order { (n : ℕ) × (option_map seen_of (at_number handle.new.known n) ≡ Some result.0)
        × (n ≤ handle.new.read) }
{
    let first = handle.read();
    let second = handle.read();
    (first, second)
}
