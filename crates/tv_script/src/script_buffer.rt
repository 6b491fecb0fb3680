//! Bytes of a script that were read and are not yet taken.
ghost use Rattle.std.specs.Prelude.{◌≡◌, ◌<◌, [], ◌≤◌, ◌+◌, length, take, IfOk, OnOk, IsTrue, ◌↔◌};
ghost use Rattle.tv_events.specs.Script.{line_limit};
ghost use Rattle.tv_base.specs.Streams.{ReadsPiece, KeepsLeft, IsAtEnd, SourceFaults};
ghost use Rattle.tv_script.specs.ScriptLines.{IsFeedAt, Fills, Moves, pending};

use crate::script::LINE_LIMIT;
use std::alloc::{AllocError, Global};
use std::marker::Model;
use tv_base::{IoFault, Source};

// How many bytes are read at once, at most.
const BLOCK: usize = 8192;

/// Bytes that were read and are not yet taken. To a contract it is these bytes.
#[derive(Drop)]
pub struct ScriptBuffer {
    buffer: Vec<u8>,
    start: usize,
    end: usize,
}

impl Model for ScriptBuffer {
    ghost use Rattle.std.specs.Prelude.{List, ℕ, ◌-◌, ◌≤◌, ◌<◌, take, drop, length};

    ghost Value = { List ℕ };

    ghost view = { λ a. take (a.end - a.start) (drop a.start a.buffer.items) };

    ghost invariant = { λ a. (a.start ≤ a.end) × (a.end ≤ length a.buffer.items) × (0 < length a.buffer.items) };
}

// Where the first line feed stands, or how many bytes there are where none does.
fn feed_at(bytes: &[u8]) -> usize
    ensures { IsFeedAt bytes.now result }
{
    bytes
        .iter()
        .position(|b| *b == b'\n')
        .unwrap_or(bytes.len())
}

// Reads the next bytes into the front of a block, to follow a line of this length. None come only
// at the end. It asks for no more than bring the line to one byte more than a line may have.
fn read_block<S: Source>(source: &mut S, block: &mut [u8], len: usize) -> Result<usize, IoFault>
    requires some { 0 < length block.old }
    requires short { len ≤ line_limit }
    ensures count { IfOk result (λ n. n ≤ length block.old) }
    ensures room { IfOk result (λ n. n + len ≤ line_limit + 1) }
    ensures bytes { IfOk result
        (λ n. ReadsPiece (take n block.new) (S.view source.old).left (S.view source.new).left) }
    ensures end { IfOk result (λ n. n ≡ 0 → IsAtEnd (S.view source.old).left) }
    ensures faults { SourceFaults (S.view source.old) (S.view source.new) result }
{
    let room = block.len().min(LINE_LIMIT + 1 - len);
    source.read(&mut block[..room])
}

impl ScriptBuffer {
    /// Nothing, with room for a block.
    pub fn new(alloc: Global) -> Result<ScriptBuffer, AllocError>
        ensures { IfOk result (λ held. held ≡ []) }
    {
        Ok(ScriptBuffer {
            buffer: vec![in alloc; 0; BLOCK]?,
            start: 0,
            end: 0,
        })
    }

    /// Whether nothing is held.
    pub(crate) fn is_empty(&self) -> bool
        ensures { IsTrue result ↔ (self.now ≡ []) }
    {
        self.start == self.end
    }

    // Reads the next bytes, where nothing is held, to follow a line of this length. None come only
    // at the end.
    fn fill<S: Source>(&mut self, source: &mut S, len: usize) -> Result<(), IoFault>
        requires empty { self.old ≡ [] }
        requires short { len ≤ line_limit }
        ensures fills { OnOk result
            (Fills self.new (S.view source.old).left (S.view source.new).left) }
        ensures room { OnOk result (length self.new + len ≤ line_limit + 1) }
        ensures faults { SourceFaults (S.view source.old) (S.view source.new) result }
    {
        self.start = 0;
        self.end = 0;
        self.end = read_block(source, self.buffer.as_mut_slice(), len)?;
        Ok(())
    }

    /// Reads the next bytes, where nothing is held, to follow a line of this length. Then nothing
    /// is held only at the end.
    pub(crate) fn refill<S: Source>(&mut self, source: &mut S, len: usize) -> Result<(), IoFault>
        requires short { len ≤ line_limit }
        requires room { length self.old + len ≤ line_limit + 1 }
        ensures same { OnOk result
            (KeepsLeft (pending self.old (S.view source.old).left)
            (pending self.new (S.view source.new).left)) }
        ensures end { OnOk result
            (self.new ≡ [] → IsAtEnd (pending self.old (S.view source.old).left)) }
        ensures room { OnOk result (length self.new + len ≤ line_limit + 1) }
        ensures faults { SourceFaults (S.view source.old) (S.view source.new) result }
    {
        if self.is_empty() {
            self.fill(source, len)?;
        }
        Ok(())
    }

    /// Moves the bytes up to the first line feed to the end of a line, and takes that line feed
    /// out. Without a line feed all bytes are moved.
    pub(crate) fn move_line(&mut self, line: &mut Vec<u8>) -> Result<bool, AllocError>
        ensures { IfOk result
            (λ found. Moves found self.old self.new line.old.items line.new.items) }
    {
        let held = &self.buffer[self.start..self.end];
        let len = feed_at(held);
        let (front, _) = held.split_at(len);
        line.extend_from_slice(front)?;
        if len == held.len() {
            self.start = self.end;
            Ok(false)
        } else {
            self.start += len + 1;
            Ok(true)
        }
    }
}
