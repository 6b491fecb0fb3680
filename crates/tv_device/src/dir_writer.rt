//! Writes one file of a directory.
ghost use Rattle.std.specs.Prelude.{◌≡◌, true, false, Some, OnOk};
ghost use Rattle.tv_base.specs.Writers.{TakesAll, TakesNone, WriteFaults, Ends};
ghost use Rattle.tv_device.specs.DirWriters.{writer_view, held_bytes, HeldStays, Reaches, IsStillThere, HeldFilesStay, MayReach};

use crate::directory::Directory;
use tv_base::{IoError, TerminatingWrite};

/// Writes one file of a directory, which it holds meanwhile.
///
/// The bytes stand with the directory's writer, which the end takes away, so what was taken isn't told
/// afterwards. `terminate` says what the file reads then.
pub struct DirWriter<'a, D: Directory> {
    /// The directory of the file.
    pub directory: &'a mut D,
    /// Nothing once the end was told, or a call was refused.
    pub writer: Option<D::Writer>,
}

impl<'a, D: Directory> DirWriter<'a, D> {
    /// Writes with this writer, behind what it has written so far. Takes no memory.
    pub fn new(directory: &'a mut D, writer: D::Writer) -> DirWriter<'a, D>
        requires opened { (D.view directory.old).opened writer ≡ true }
        ensures same_reference { result.directory.ghost_name ≡ directory.entry.ghost_name }
        ensures directory { result.directory.now ≡ directory.old }
        ensures writer { result.writer ≡ Some writer }
    {
        DirWriter {
            directory,
            writer: Some(writer),
        }
    }
}

// Written out, so that who lent the directory knows what it is afterwards.
impl<D: Directory> Drop for DirWriter<'_, D> {
    fn drop(self)
        ensures directory { self.exit.0.now ≡ self.entry.directory.now }
    {
        let DirWriter {
            directory: _,
            writer,
        } = self;
        drop(writer);
    }
}

impl<D: Directory> TerminatingWrite for DirWriter<'_, D> {
    ghost view = { writer_view D.Directory };

    ghost keeps = { ⊥ };

    ghost stays = { HeldStays D.Directory };

    ghost flushed = { λ old new. Reaches D.Directory old new (held_bytes D.Directory old) };

    ghost sealed = { Reaches D.Directory };

    fn write_all(&mut self, bytes: &[u8]) -> Result<(), IoError>
        requires going { (writer_view D.Directory self.old).ended ≡ false }
        ensures takes { TakesAll (writer_view D.Directory self.old)
            (writer_view D.Directory self.new) bytes.now result }
        ensures faults { WriteFaults (writer_view D.Directory self.old)
            (writer_view D.Directory self.new) result }
        ensures stays { HeldStays D.Directory self.old self.new }
        ensures there { IsStillThere D.Directory self.old self.new }
    {
        let Some(writer) = &mut self.writer else {
            unreachable!()
        };
        let answer = self.directory.write(writer, bytes);
        if matches!(answer, Err(IoError::Fault(_))) {
            self.writer = None;
        }
        answer
    }

    fn flush(&mut self) -> Result<(), IoError>
        requires going { (writer_view D.Directory self.old).ended ≡ false }
        ensures takes { TakesNone (writer_view D.Directory self.old)
            (writer_view D.Directory self.new) result }
        ensures flushed { OnOk result
            (Reaches D.Directory self.old self.new (held_bytes D.Directory self.old)) }
        ensures faults { WriteFaults (writer_view D.Directory self.old)
            (writer_view D.Directory self.new) result }
        ensures stays { HeldStays D.Directory self.old self.new }
        ensures there { IsStillThere D.Directory self.old self.new }
        ensures wanted { HeldFilesStay D.Directory self.old self.new result }
    {
        let Some(writer) = &mut self.writer else {
            unreachable!()
        };
        let answer = self.directory.flush(writer);
        if matches!(answer, Err(IoError::Fault(_))) {
            self.writer = None;
        }
        answer
    }

    /// Seals the file with all bytes that were written.
    fn terminate(&mut self) -> Result<(), IoError>
        requires going { (writer_view D.Directory self.old).ended ≡ false }
        ensures ends { Ends ⊥ (writer_view D.Directory self.old) (writer_view D.Directory self.new)
            result }
        ensures sealed { OnOk result
            (Reaches D.Directory self.old self.new (held_bytes D.Directory self.old)) }
        ensures stays { HeldStays D.Directory self.old self.new }
        ensures refused { MayReach D.Directory self.old self.new result }
    {
        let Some(writer) = self.writer.take() else {
            unreachable!()
        };
        self.directory.terminate(writer)
    }
}
