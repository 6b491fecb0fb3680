//! How the calls of a directory in memory are recorded that change a file.
ghost use Rattle.std.specs.Prelude.{◌≡◌, ◌<◌, true, false, Some, IfOk, OnOk, OnErr};
ghost use Rattle.tv_formats.specs.Names.{is_file_name};
ghost use Rattle.tv_formats.specs.Disk.{Sealed, Unsealed};
ghost use Rattle.tv_directory.specs.Bench.{OnlyRecords, disk_in};
ghost use Rattle.tv_device.specs.Ram.{ram_state, ram_states};
ghost use Rattle.tv_directory.specs.Record.{RecordedRefused, RefusedOpening, has_line_room};
ghost use Rattle.tv_device.specs.StoredFiles.{disk_state_of};

use crate::bench::Bench;
use crate::bench_record::Call;
use tv_base::OwnedBytes;
use tv_device::{Content, RamWriter, file_name};
use tv_formats::{FileName, Memory};

// A file that isn't sealed.
pub(crate) fn unsealed() -> Option<Content>
    ensures { disk_state_of result ≡ Unsealed }
{
    Some(Content::Unsealed(OwnedBytes::empty()))
}

impl<C> Bench<C> {
    // The name and what its file has, before that changes, and the room to record the change.
    pub(crate) fn before(&mut self, name: &str) -> Result<(FileName, Option<Content>), Memory>
        requires { is_file_name name.now ≡ true }
        ensures found { IfOk result (λ found. (found.0 ≡ name.now)
            × (disk_state_of found.1 ≡ ram_states self.old.ram name.now)) }
        ensures room { OnOk result (3 < self.new.recorded.free) }
        ensures line { has_line_room self.old.recorded ≡ true
            → has_line_room self.new.recorded ≡ true }
        ensures calls { self.new.recorded.calls ≡ self.old.recorded.calls }
        ensures others { OnlyRecords self.old self.new }
    {
        let key = file_name(self.alloc, name)?;
        let content = self.ram.content(&key)?;
        self.recorded.reserve()?;
        Ok((key, content))
    }

    // Records that the device refused to give the name this content, which a crash may leave all the same.
    pub(crate) fn record_refused(
        &mut self,
        name: &str,
        after: Option<Content>,
    ) -> Result<(), Memory>
        requires { is_file_name name.now ≡ true }
        ensures images { OnOk result (RecordedRefused (disk_in self.old) (disk_in self.new)
            name.now (disk_state_of after)) }
        ensures err { OnErr result (self.new.recorded.calls ≡ self.old.recorded.calls) }
        ensures room { has_line_room self.old.recorded ≡ true
            → has_line_room self.new.recorded ≡ true }
        ensures others { OnlyRecords self.old self.new }
    {
        let (name, before) = self.before(name)?;
        self.recorded.add(Call::Refused {
            name,
            before,
            after,
        });
        Ok(())
    }

    // The same of a call that would have given the name these bytes.
    pub(crate) fn record_refused_bytes(&mut self, name: &str, bytes: &[u8]) -> Result<(), Memory>
        requires { is_file_name name.now ≡ true }
        ensures images { OnOk result (RecordedRefused (disk_in self.old) (disk_in self.new)
            name.now (Sealed bytes.now)) }
        ensures err { OnErr result (self.new.recorded.calls ≡ self.old.recorded.calls) }
        ensures room { has_line_room self.old.recorded ≡ true
            → has_line_room self.new.recorded ≡ true }
        ensures others { OnlyRecords self.old self.new }
    {
        let sealed = OwnedBytes::new(Vec::from_slice(self.alloc, bytes)?)?;
        self.record_refused(name, Some(Content::Sealed(sealed)))
    }

    // The same of a call that would have made a file, where there is none of this name.
    pub(crate) fn record_refused_opening(&mut self, name: &str) -> Result<(), Memory>
        requires { is_file_name name.now ≡ true }
        ensures images { OnOk result (RefusedOpening (disk_in self.old) (disk_in self.new)
            name.now) }
        ensures err { OnErr result (self.new.recorded.calls ≡ self.old.recorded.calls) }
        ensures room { has_line_room self.old.recorded ≡ true
            → has_line_room self.new.recorded ≡ true }
        ensures others { OnlyRecords self.old self.new }
    {
        let key = file_name(self.alloc, name)?;
        if self.ram.has(&key) {
            return Ok(());
        }
        self.record_refused(name, unsealed())
    }

    // The same of a call on a writer: there is something to record where its file still has the name.
    pub(crate) fn record_refused_where(
        &mut self,
        lives: bool,
        name: &str,
        after: Option<Content>,
    ) -> Result<(), Memory>
        requires { is_file_name name.now ≡ true }
        ensures images { lives ≡ true → OnOk result (RecordedRefused (disk_in self.old)
            (disk_in self.new) name.now (disk_state_of after)) }
        ensures gone { lives ≡ false → self.new ≡ self.old }
        ensures err { OnErr result (self.new.recorded.calls ≡ self.old.recorded.calls) }
        ensures room { has_line_room self.old.recorded ≡ true
            → has_line_room self.new.recorded ≡ true }
        ensures others { OnlyRecords self.old self.new }
    {
        if !lives {
            return Ok(());
        }
        self.record_refused(name, after)
    }

    // The same of a call that would have sealed the writer's file.
    pub(crate) fn record_refused_end(
        &mut self,
        lives: bool,
        writer: RamWriter,
    ) -> Result<(), Memory>
        ensures images { lives ≡ true → OnOk result (RecordedRefused (disk_in self.old)
            (disk_in self.new) (ram_state writer).name (Sealed (ram_state writer).written)) }
        ensures gone { lives ≡ false → self.new ≡ self.old }
        ensures err { OnErr result (self.new.recorded.calls ≡ self.old.recorded.calls) }
        ensures room { has_line_room self.old.recorded ≡ true
            → has_line_room self.new.recorded ≡ true }
        ensures others { OnlyRecords self.old self.new }
    {
        let (name, bytes) = writer.into_parts();
        let sealed = Content::Sealed(OwnedBytes::new(bytes)?);
        self.record_refused_where(lives, name.as_str(), Some(sealed))
    }
}
