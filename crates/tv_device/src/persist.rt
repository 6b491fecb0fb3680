//! Writing a directory's files to another one.
ghost use Rattle.std.specs.Prelude.{◌≡◌, true, OnOk};
ghost use Rattle.tv_formats.specs.Names.{is_file_name};
ghost use Rattle.tv_formats.specs.Disk.{TouchesOnly};
ghost use Rattle.tv_device.specs.View.{Kept};
ghost use Rattle.tv_device.specs.Persisting.{FileFaults, IsAmong, PersistFaults, Persists, PersistsFile, contents};

use crate::directory::Directory;
use crate::ram_directory::RamDirectory;
use tv_base::TantivyError;

impl<C> RamDirectory<C> {
    /// Writes all files to a directory, in the order of their names, and stops at the first refusal:
    /// `FileAlreadyExists` where the destination reads the name, a fault of its device, or want of memory.
    /// Whatever it answers, it touches no name there but those of these files.
    pub fn persist<D: Directory>(&self, dest: &mut D) -> Result<(), TantivyError>
        ensures ok { D.told.content → OnOk result (Persists (contents self.now.files.map.entries)
            (D.view dest.old).reads (D.view dest.new).reads) }
        ensures faults { PersistFaults D.told (D.view dest.old) (D.view dest.new)
            (contents self.now.files.map.entries) result }
        ensures frame { Kept D.told (D.view dest.old) (D.view dest.new) }
        ensures images { D.tells_images → TouchesOnly
            (IsAmong (contents self.now.files.map.entries)) (D.disk dest.old) (D.disk dest.new) }
    {
        for (name, file) in &self.files.map {
            persist_file(dest, name.as_str(), file.content.as_slice())?;
        }
        Ok(())
    }
}

// Writes one file to a directory that doesn't read its name.
fn persist_file<D: Directory>(dest: &mut D, name: &str, bytes: &[u8]) -> Result<(), TantivyError>
    requires { is_file_name name.now ≡ true }
    ensures ok { PersistsFile D.told (D.view dest.old) (D.view dest.new) name.now bytes.now result }
    ensures faults { FileFaults D.told (D.view dest.old) (D.view dest.new) name.now result }
    ensures frame { Kept D.told (D.view dest.old) (D.view dest.new) }
    ensures images { D.tells_images → TouchesOnly (λ n. n ≡ name.now)
        (D.disk dest.old) (D.disk dest.new) }
{
    let mut writer = dest.open_write(name)?;
    dest.write(&mut writer, bytes)?;
    dest.terminate(writer)?;
    Ok(())
}
