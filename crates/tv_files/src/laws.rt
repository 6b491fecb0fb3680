//! Laws of folders of plain files and of watched files: what one may rely on, said of the calls.
ghost use Rattle.std.specs.Prelude.{◌≡◌, ◌++◌, true, OnOk, IfOk};
ghost use Rattle.std.specs.Str.Lines.{lines};
ghost use Rattle.tv_formats.specs.Names.{is_file_name};
ghost use Rattle.tv_device.specs.WatchList.{watch_state_of};

use crate::file_watcher::{FileWatcher, checksum_of_lines};
use crate::mmap_directory::MmapDirectory;
use crate::mmap_writer::MmapWriter;
use std::fs::File;
use std::rt::Files;
use tv_base::{DeleteError, IoError, META_FILEPATH};
use tv_device::{Directory, WatchCall};

/// Once `meta.json` is written, a notice stands for those who watch the folder.
pub fn a_commit_leaves_a_notice<R: Files<File = File> + Drop, C: WatchCall>(
    directory: &mut MmapDirectory<R, C>,
    bytes: &[u8],
) -> Result<(), IoError>
    ensures { OnOk result ((watch_state_of C.calls directory.new.watchers).notice ≡ true) }
{
    directory.atomic_write(META_FILEPATH, bytes)
}

/// Whatever a delete answers, only the count of refused deletes may have risen.
pub fn a_refused_delete_is_no_fault<R: Files<File = File> + Drop, C: WatchCall>(
    directory: &mut MmapDirectory<R, C>,
    name: &str,
) -> Result<(), DeleteError>
    requires { is_file_name name.now ≡ true }
    ensures { directory.new.faults ≡ directory.old.faults }
{
    directory.delete(name)
}

/// What was written is kept with the writer, behind what was written before.
pub fn a_write_keeps_its_bytes<R: Files<File = File> + Drop, C: WatchCall>(
    directory: &mut MmapDirectory<R, C>,
    writer: &mut MmapWriter,
    bytes: &[u8],
) -> Result<(), IoError>
    ensures { OnOk result (writer.new.written ≡ writer.old.written ++ bytes.now) }
{
    directory.write(writer, bytes)
}

/// Nobody is called at a look that sees the checksum which was seen last.
pub fn an_unchanged_file_calls_nobody<R: Files + Drop, C: WatchCall>(
    watcher: &mut FileWatcher<R, C>,
) -> Result<bool, IoError>
    ensures { OnOk result (watcher.new.seen ≡ watcher.old.seen
        → watcher.new.callbacks ≡ watcher.old.callbacks) }
{
    watcher.look()
}

/// Two texts with the same lines have the same checksum, however their lines end.
pub fn ends_of_lines_dont_count(text: &str, other: &str) -> (u32, u32)
    ensures { lines text.now ≡ lines other.now → result.0 ≡ result.1 }
{
    (checksum_of_lines(text), checksum_of_lines(other))
}
