//! Where the bodies of a composite file begin.
ghost use Rattle.std.specs.Prelude.{◌≡◌, ◌≤◌, ◌-◌, ◌++◌, nat_le, nat_lt, IfOk, OnOk};
ghost use Rattle.tv_formats.specs.Footer.{four_bytes};
ghost use Rattle.tv_formats.specs.VInt.{vint};
ghost use Rattle.tv_framing.specs.Composite.{is_at};
ghost use Rattle.tv_framing.specs.Starts.{Ascend, footing_text, start_addresses};
ghost use Rattle.std.specs.List.{list_all, list_any};

use crate::address::{FileAddr, is_at};
use std::alloc::Global;
use tv_base::{Memory, VInt};

/// A body's address, and how many bytes stand before it.
#[derive(Clone, Copy)]
pub(crate) struct Start {
    pub(crate) addr: FileAddr,
    pub(crate) offset: u64,
}

/// Whether a body of this address begins somewhere.
pub(crate) fn has_start(starts: &[Start], addr: &FileAddr) -> bool
    ensures { result ≡ list_any (is_at addr.now) (start_addresses starts.now) }
{
    starts.iter().any(|start| is_at(addr, &start.addr))
}

/// Whether every field has a number below this one.
pub(crate) fn are_below(starts: &[Start], n: u32) -> bool
    ensures { result ≡ list_all (λ addr. nat_lt addr.field n) (start_addresses starts.now) }
{
    starts.iter().all(|start| start.addr.field.field_id() < n)
}

/// Whether no index is above 65535.
pub(crate) fn are_small(starts: &[Start]) -> bool
    ensures { result ≡ list_all (λ addr. nat_le addr.idx 65535) (start_addresses starts.now) }
{
    starts.iter().all(|start| start.addr.idx <= 65_535)
}

/// The list of these starts, behind their number.
pub(crate) fn footing_of(alloc: Global, starts: &[Start], end: u64) -> Result<Vec<u8>, Memory>
    requires { Ascend 0 starts.now end }
    ensures { IfOk result (λ bytes. bytes.items ≡ footing_text starts.now) }
{
    let mut bytes = Vec::new(alloc);
    VInt(starts.len() as u64).serialize(&mut bytes)?;
    let mut before = 0;
    for start in starts {
        put_start(&mut bytes, start, before)?;
        before = start.offset;
    }
    Ok(bytes)
}

// Adds a start to the list, as its distance from the one before.
fn put_start(bytes: &mut Vec<u8>, start: &Start, before: u64) -> Result<(), Memory>
    requires { before ≤ start.now.offset }
    ensures { OnOk result (bytes.new.items ≡ bytes.old.items ++ (vint (start.now.offset - before)
        ++ (four_bytes start.now.addr.field ++ vint start.now.addr.idx))) }
{
    VInt(start.offset - before).serialize(bytes)?;
    bytes.extend_from_slice(&start.addr.field.field_id().to_le_bytes())?;
    VInt(start.addr.idx).serialize(bytes)?;
    Ok(())
}
