//! Writes a composite file.
ghost use Rattle.std.specs.Prelude.{◌≡◌, ◌≢◌, ◌<◌, ◌+◌, ◌^◌, [], false, length, OnOk, OnErr};
ghost use Rattle.tv_base.specs.Writers.{WriteFaults};
ghost use Rattle.tv_framing.specs.Composite.{IsComposite, address, bodies, composite, has_address};
ghost use Rattle.tv_framing.specs.Composing.{GrowsComposite, begun};
ghost use Rattle.tv_framing.specs.Closing.{CloseFaults, ListFaults, SealsList, whole_file};
ghost use Rattle.tv_framing.specs.Sealing.{SealsAll, Steps};
ghost use Rattle.tv_framing.specs.Starts.{Ascend, footing_text};

use crate::address::FileAddr;
use crate::faults::refusal;
use crate::starts::{Start, footing_of, has_start};
use std::alloc::Global;
use std::marker::Model;
use tv_base::{Field, IoError, IoKind, Memory, TerminatingWrite};

/// Writes the bodies of several fields into one file, one behind the other.
#[derive(Drop)]
pub struct CompositeWrite<W: TerminatingWrite> {
    writer: W,
    written: u64,
    starts: Vec<Start>,
}

impl<W: TerminatingWrite> Model for CompositeWrite<W> {
    ghost use Rattle.tv_framing.specs.Composing.{Composing, IsBegun, before_last, the_last};
    ghost use Rattle.tv_framing.specs.Starts.{parts_of};

    ghost Value = { Composing W };

    ghost view = { λ c. record {
      writer = c.writer;
      before = before_last c.written (W.view c.writer).taken;
      parts = parts_of (the_last c.written (W.view c.writer).taken) c.starts.items;
    } };

    ghost invariant = { λ c. IsBegun c.starts.items c.written (W.view c.writer).taken };
}

impl<W: TerminatingWrite> CompositeWrite<W> {
    /// Writes to this writer, behind what it has taken so far. Takes no memory.
    pub fn wrap(alloc: Global, w: W) -> CompositeWrite<W>
        requires going { (W.view w).ended ≡ false }
        ensures writer { result.writer ≡ w }
        ensures before { result.before ≡ (W.view w).taken }
        ensures none { result.parts ≡ [] }
    {
        CompositeWrite {
            writer: w,
            written: 0,
            starts: Vec::new(alloc),
        }
    }

    /// Begins the body of this field under the index 0.
    pub fn for_field(&mut self, field: Field) -> Result<(), Memory>
        requires unused { has_address (address field 0) self.old.parts ≡ false }
        ensures ok { OnOk result (self.new ≡ begun self.old field 0) }
        ensures err { OnErr result (self.new ≡ self.old) }
    {
        self.for_field_with_idx(field, 0)
    }

    /// Begins the body of this field and index.
    pub fn for_field_with_idx(&mut self, field: Field, idx: u64) -> Result<(), Memory>
        requires unused { has_address (address field idx) self.old.parts ≡ false }
        ensures ok { OnOk result (self.new ≡ begun self.old field idx) }
        ensures err { OnErr result (self.new ≡ self.old) }
    {
        self.starts.push(Start {
            addr: FileAddr { field, idx },
            offset: self.written,
        })?;
        Ok(())
    }

    /// Whether a body of this address was begun.
    pub fn has(&self, addr: &FileAddr) -> bool
        ensures has { result ≡ has_address addr.now self.now.parts }
    {
        has_start(self.starts.as_slice(), addr)
    }

    /// Adds bytes to the body that was begun last. After a fault the value is only dropped.
    pub fn write_all(&mut self, bytes: &[u8]) -> Result<(), IoError>
        requires going { (W.view self.old.writer).ended ≡ false }
        requires begun { self.old.parts ≢ [] }
        requires room { length (bodies self.old.parts) + length bytes.now < 2 ^ 64 }
        ensures grows { GrowsComposite self.old self.new bytes.now result }
        ensures faults { WriteFaults (W.view self.old.writer) (W.view self.new.writer) result }
        ensures stays { W.stays self.old.writer self.new.writer }
    {
        match self.writer.write_all(bytes) {
            Ok(()) => {
                self.written += bytes.len() as u64;
                Ok(())
            }
            Err(IoError::Memory) => Err(IoError::Memory),
            Err(fault) => {
                // What was taken of these bytes isn't known, so the bodies are given up.
                self.written = 0;
                self.starts.clear();
                Err(fault)
            }
        }
    }

    /// Writes the list of the bodies, tells the end, and gives the writer back. `InvalidData` comes
    /// only where the list is longer than `u32::MAX` bytes.
    pub fn close(self) -> (W, Result<(), IoError>)
        requires going { (W.view self.writer).ended ≡ false }
        ensures form { OnOk result.1 (IsComposite (composite self.parts) self.parts) }
        ensures sealed { SealsAll W.TerminatingWrite self.writer result.0 (whole_file self)
            result.1 }
        ensures faults { CloseFaults W.TerminatingWrite self result.0 result.1 }
        ensures stays { Steps W.stays self.writer result.0 }
    {
        let CompositeWrite {
            mut writer,
            written,
            starts,
        } = self;
        let answer = finish(&mut writer, starts.as_slice(), written, *starts.allocator());
        (writer, answer)
    }
}

// Writes the list of these starts and its length, and tells the end.
fn finish<W: TerminatingWrite>(
    writer: &mut W,
    starts: &[Start],
    written: u64,
    alloc: Global,
) -> Result<(), IoError>
    requires going { (W.view writer.old).ended ≡ false }
    requires ascend { Ascend 0 starts.now written }
    ensures short { OnOk result (length (footing_text starts.now) < 2 ^ 32) }
    ensures sealed { SealsList W.TerminatingWrite starts.now writer.old writer.new result }
    ensures faults { ListFaults W.TerminatingWrite starts.now writer.old writer.new result }
    ensures stays { Steps W.stays writer.old writer.new }
{
    let mut footing = footing_of(alloc, starts, written)?;
    let Ok(len) = u32::try_from(footing.len()) else {
        return Err(refusal(
            alloc,
            IoKind::InvalidData,
            "The list of a composite file is longer than 4294967295 bytes.",
        ));
    };
    footing.extend_from_slice(&len.to_le_bytes())?;
    writer.write_all(footing.as_slice())?;
    writer.terminate()
}
