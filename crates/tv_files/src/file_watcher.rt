//! A file that is watched.
ghost use Rattle.std.specs.Prelude.{◌≡◌, [], None, flat_map, IfOk, IfErr, OnOk, OnErr};
ghost use Rattle.std.specs.Str.Lines.{lines};
ghost use Rattle.tv_formats.specs.Checksum.{crc32};
ghost use Rattle.tv_base.specs.Causes.{IoCause};
ghost use Rattle.tv_files.specs.Watching.{Looks, Subscribes, watcher_fault};

use crate::folder::read_whole;
use crate::mmap_directory::fault_of;
use std::alloc::Global;
use std::io::ErrorKind;
use std::marker::Model;
use std::rt::Files;
use tv_base::IoError;
use tv_checksum::{Checksum, Crc32};
use tv_device::{CallbackList, WatchCall, WatchHandle};
use tv_formats::Memory;

/// A file that is watched: whoever is registered is called when the checksum of its lines is
/// another one.
///
/// Nothing happens by itself: the caller looks from time to time. To a contract it is the checksum
/// that was seen last, who is registered, and how many looks the operating system refused.
#[derive(Drop)]
pub struct FileWatcher<R: Drop, C> {
    rt: R,
    alloc: Global,
    path: String,
    seen: Option<u32>,
    callbacks: CallbackList<C>,
    faults: u64,
}

impl<R: Drop, C> Model for FileWatcher<R, C> {
    ghost use Rattle.tv_files.specs.Watching.{WatcherState};

    ghost Value = { WatcherState C };

    ghost view = { λ w. record { seen = w.seen; callbacks = w.callbacks; faults = w.faults } };
}

impl<R: Files + Drop, C: WatchCall> FileWatcher<R, C> {
    /// Watches the file of this path, which needn't be there. Nobody is registered, and nothing was
    /// seen.
    pub fn new(rt: R, alloc: Global, path: &str) -> Result<FileWatcher<R, C>, Memory>
        ensures new { IfOk result
            (λ watcher. watcher ≡ record { seen = None; callbacks = []; faults = 0 }) }
    {
        Ok(FileWatcher {
            rt,
            alloc,
            path: String::from_str(alloc, path)?,
            seen: None,
            callbacks: CallbackList::new(alloc),
            faults: 0,
        })
    }

    /// Registers a callback under a number that no registered one has. Where memory is wanted, it
    /// is dropped.
    pub fn watch(&mut self, callback: C) -> Result<WatchHandle, Memory>
        ensures ok { IfOk result (Subscribes C.calls self.old self.new (C.calls callback)) }
        ensures err { OnErr result (self.new ≡ self.old) }
    {
        self.callbacks.subscribe(callback)
    }

    /// Looks at the file. At the first look that reads it, and whenever the checksum of its lines
    /// is another one than at the last, each registered callback is called once, in the order of
    /// subscription, and the answer is true. A file that isn't there, or isn't UTF-8, changes
    /// nothing. The ends of lines don't count. A look that fails changes nothing but the count of
    /// those that the operating system refused.
    pub fn look(&mut self) -> Result<bool, IoError>
        ensures looks { IfOk result (Looks C.calls self.old self.new) }
        ensures faults { IfErr result
            (IoCause (self.new ≡ watcher_fault self.old) (self.new ≡ self.old)) }
    {
        let Some(checksum) = self.checksum()? else {
            return Ok(false);
        };
        if self.seen == Some(checksum) {
            return Ok(false);
        }
        self.seen = Some(checksum);
        drop(self.callbacks.broadcast());
        Ok(true)
    }

    // The checksum of the file's lines, where it is there and is UTF-8.
    fn checksum(&mut self) -> Result<Option<u32>, IoError>
        ensures ok { OnOk result (self.new ≡ self.old) }
        ensures faults { IfErr result
            (IoCause (self.new ≡ watcher_fault self.old) (self.new ≡ self.old)) }
    {
        match read_whole(&self.rt, self.alloc, self.path.as_str()) {
            Ok(bytes) => match str::from_utf8(bytes.as_slice()) {
                Ok(text) => Ok(Some(checksum_of_lines(text))),
                Err(_) => Ok(None),
            },
            Err(error) => match error.kind() {
                ErrorKind::NotFound => Ok(None),
                ErrorKind::OutOfMemory => Err(IoError::Memory),
                _ => {
                    self.faults = self.faults.saturating_add(1);
                    Err(IoError::Fault(fault_of(self.alloc, &error)))
                }
            },
        }
    }
}

// The checksum of the lines of a text, without their ends.
pub(crate) fn checksum_of_lines(text: &str) -> u32
    ensures { result ≡ crc32 (flat_map (λ line. line) (lines text.now)) }
{
    let mut checksum = Crc32::start();
    for line in text.lines() {
        checksum.update(line.as_bytes());
    }
    checksum.finish()
}
