//! What files are written with.
ghost use Rattle.std.specs.Prelude.{◌≡◌, ◌+◌, List, ℕ, false, length, min, OnOk, OnErr};
ghost use Rattle.tv_base.specs.Writers.{WriterView, TakesAll, TakesNone, WriteFaults, Ends};

use crate::io::IoError;
use std::marker::Model;

/// What writes one file, and is told where the file ends.
///
/// A device may refuse any call. It then answers a fault of kind `Device`, and a count rises. No call
/// follows a refused one, or the end.
pub trait TerminatingWrite {
    /// What is told of the writer.
    ghost view: { Self → WriterView };

    /// Whether what was taken is still told after the end.
    ghost keeps: { Type 0 };

    /// What every call leaves of the outside that is written to: before and after.
    ghost stays: { Self → Self → Type 0 };

    /// What stands after a flush of all that was taken: before and after.
    ghost flushed: { Self → Self → Type 0 };

    /// What stands after the end, where all bytes that were taken are these: before and after.
    ghost sealed: { Self → Self → List ℕ → Type 0 };

    /// Takes all of these bytes. Where memory is wanted, none of them is taken; how many a refused call
    /// has taken isn't said.
    fn write_all(&mut self, bytes: &[u8]) -> Result<(), IoError>
        requires going { (view self.old).ended ≡ false }
        ensures takes { TakesAll (view self.old) (view self.new) bytes.now result }
        ensures faults { WriteFaults (view self.old) (view self.new) result }
        ensures stays { stays self.old self.new };

    /// Hands the bytes that were taken on to the device.
    fn flush(&mut self) -> Result<(), IoError>
        requires going { (view self.old).ended ≡ false }
        ensures takes { TakesNone (view self.old) (view self.new) result }
        ensures flushed { OnOk result (flushed self.old self.new) }
        ensures faults { WriteFaults (view self.old) (view self.new) result }
        ensures stays { stays self.old self.new };

    /// Tells the end. It is the last call, whatever it answers.
    fn terminate(&mut self) -> Result<(), IoError>
        requires going { (view self.old).ended ≡ false }
        ensures ends { Ends keeps (view self.old) (view self.new) result }
        ensures sealed { OnOk result (sealed self.old self.new (view self.old).taken) }
        ensures stays { stays self.old self.new };
}

/// A writer that counts the bytes which go through it.
#[derive(Drop)]
pub struct CountingWriter<W> {
    writer: W,
    written: u64,
}

impl<W> Model for CountingWriter<W> {
    ghost use Rattle.tv_base.specs.Writers.{Counting};

    ghost Value = { Counting W };

    ghost view = { λ c. record { writer = c.writer; written = c.written } };
}

impl<W: TerminatingWrite> CountingWriter<W> {
    /// Counts what is written to this writer from now on. Takes no memory.
    pub fn wrap(w: W) -> CountingWriter<W>
        requires going { (W.view w).ended ≡ false }
        ensures writer { result.writer ≡ w }
        ensures none { result.written ≡ 0 }
    {
        CountingWriter {
            writer: w,
            written: 0,
        }
    }

    /// How many bytes were written. The number stays at `u64::MAX`.
    pub fn written_bytes(&self) -> u64
        ensures number { result ≡ self.now.written }
    {
        self.written
    }

    /// The writer below. Takes no memory.
    pub fn finish(self) -> W
        ensures writer { result ≡ self.writer }
    {
        self.writer
    }
}

impl<W: TerminatingWrite> TerminatingWrite for CountingWriter<W> {
    ghost view = { λ c. W.view c.writer };

    ghost keeps = { W.keeps };

    ghost stays = { λ old new. W.stays old.writer new.writer };

    ghost flushed = { λ old new. W.flushed old.writer new.writer };

    ghost sealed = { λ old new bytes. W.sealed old.writer new.writer bytes };

    fn write_all(&mut self, bytes: &[u8]) -> Result<(), IoError>
        requires going { (W.view self.old.writer).ended ≡ false }
        ensures takes { TakesAll (W.view self.old.writer) (W.view self.new.writer)
            bytes.now result }
        ensures faults { WriteFaults (W.view self.old.writer) (W.view self.new.writer) result }
        ensures stays { W.stays self.old.writer self.new.writer }
        ensures counted { OnOk result
            (self.new.written ≡ min (self.old.written + length bytes.now) 18446744073709551615) }
        ensures kept { OnErr result (self.new.written ≡ self.old.written) }
    {
        self.writer.write_all(bytes)?;
        self.written = self.written.saturating_add(bytes.len() as u64);
        Ok(())
    }

    fn flush(&mut self) -> Result<(), IoError>
        requires going { (W.view self.old.writer).ended ≡ false }
        ensures takes { TakesNone (W.view self.old.writer) (W.view self.new.writer) result }
        ensures flushed { OnOk result (W.flushed self.old.writer self.new.writer) }
        ensures faults { WriteFaults (W.view self.old.writer) (W.view self.new.writer) result }
        ensures stays { W.stays self.old.writer self.new.writer }
        ensures kept { self.new.written ≡ self.old.written }
    {
        self.writer.flush()
    }

    fn terminate(&mut self) -> Result<(), IoError>
        requires going { (W.view self.old.writer).ended ≡ false }
        ensures ends { Ends W.keeps (W.view self.old.writer) (W.view self.new.writer) result }
        ensures sealed { OnOk result
            (W.sealed self.old.writer self.new.writer (W.view self.old.writer).taken) }
        ensures stays { W.stays self.old.writer self.new.writer }
        ensures kept { self.new.written ≡ self.old.written }
    {
        self.writer.terminate()
    }
}
