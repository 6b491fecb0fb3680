//! A directory in memory.
ghost use Rattle.std.specs.Prelude.{◌≡◌, ◌||◌, ℕ, List, None, true, IfOk, IfNone, OnOk, OnErr, MatchOption, is_some, min};
ghost use Rattle.tv_formats.specs.Names.{has, is_file_name};
ghost use Rattle.tv_formats.specs.Files.{Reads, Same};
ghost use Rattle.tv_device.specs.Locks.{SameLocks, TakesLock};
ghost use Rattle.tv_base.specs.Texts.{last};
ghost use Rattle.tv_device.specs.Ram.{IsNewRam, ram_lives, ram_locks, ram_reads, ram_state, ram_states};
ghost use Rattle.tv_device.specs.StoredFiles.{disk_state_of, reads_of, states_of, total_len};

use crate::files::{Content, Files};
use crate::lock::DirectoryLock;
use crate::ram_calls::file_name;
use crate::watch::WatchCall;
use crate::watch_list::Watchers;
use std::alloc::Global;
use std::collections::{BTreeMap, BTreeSet};
use tv_formats::{FileName, Memory};

/// A directory in memory, whose calls no device refuses. `C` is who may watch it.
#[derive(Drop)]
pub struct RamDirectory<C> {
    pub(crate) alloc: Global,
    pub(crate) files: Files,
    // The names of the locks that are held.
    pub(crate) held: BTreeMap<FileName, ()>,
    pub(crate) watchers: Watchers<C>,
}

/// What writes a file of a directory in memory.
#[derive(Drop)]
pub struct RamWriter {
    pub(crate) name: FileName,
    // The number of the file that it was opened for.
    pub(crate) number: u64,
    pub(crate) bytes: Vec<u8>,
}

impl RamWriter {
    /// The name of its file.
    pub fn name(&self) -> &FileName
        ensures { result.now ≡ (ram_state self.now).name }
    {
        &self.name
    }

    /// The name of its file, and what was written.
    pub fn into_parts(self) -> (FileName, Vec<u8>)
        ensures name { result.0 ≡ (ram_state self).name }
        ensures written { result.1.items ≡ (ram_state self).written }
    {
        (self.name, self.bytes)
    }
}

impl<C: WatchCall> RamDirectory<C> {
    /// A directory without files, in which no writer was opened. Takes no memory.
    pub fn create(alloc: Global) -> RamDirectory<C>
        ensures new { IsNewRam C.calls (λ _. None) result }
    {
        RamDirectory::with_files(alloc, Files::new(alloc))
    }

    /// A directory of its own with these files. Nobody watches it, none of its locks is held, and no
    /// writer was opened there.
    pub fn deep_clone(&self) -> Result<RamDirectory<C>, Memory>
        ensures copy { IfOk result (IsNewRam C.calls (ram_reads self.now)) }
    {
        let files = self.files.copied(self.alloc)?;
        Ok(RamDirectory::with_files(self.alloc, files))
    }

    /// The bytes of all files together. The sum stays at `u64::MAX`. Takes no memory.
    pub fn total_mem_usage(&self) -> u64
        ensures { result ≡ min (total_len self.now.files.map.entries) last }
    {
        self.files.total_len()
    }
}

impl<C> RamDirectory<C> {
    /// A directory with these files. Nobody watches it, and none of its locks is held. Where no number of a
    /// writer was given to them, no writer was opened there.
    pub fn with_files(alloc: Global, files: Files) -> RamDirectory<C>
        ensures new { (calls : C → ℕ) (image : Reads) → Same image (reads_of files.map.entries)
            → files.last ≡ 0 → IsNewRam calls image result }
        ensures states { ram_states result ≡ states_of files.map.entries }
    {
        RamDirectory {
            alloc,
            files,
            held: BTreeMap::new(alloc),
            watchers: Watchers::new(alloc),
        }
    }

    /// Whether the name has a file.
    pub fn has(&self, name: &FileName) -> bool
        ensures { result ≡ is_some (ram_reads self.now name.now) }
    {
        self.files.has(name)
    }

    /// The content of the name's file. Its bytes aren't copied.
    pub fn content(&self, name: &FileName) -> Result<Option<Content>, Memory>
        ensures { IfOk result (λ found. disk_state_of found ≡ ram_states self.now name.now) }
    {
        self.files.content(name)
    }

    /// Whether the file that the writer made still has its name.
    pub fn is_made(&self, writer: &RamWriter) -> bool
        ensures { result ≡ ram_lives self.now writer.now }
    {
        self.files.is_made(&writer.name, writer.number)
    }

    /// Adds the names that have a file.
    pub fn add_names(&self, alloc: Global, names: &mut BTreeSet<FileName>) -> Result<(), Memory>
        ensures { OnOk result ((n : List ℕ) → has names.new.keys n
            ≡ (has names.old.keys n || is_some (ram_reads self.now n))) }
    {
        self.files.add_names(alloc, names)
    }

    // Takes the lock of this name, unless it is held.
    pub(crate) fn hold(&mut self, name: &str) -> Result<Option<DirectoryLock>, Memory>
        requires { is_file_name name.now ≡ true }
        ensures free { IfOk result
            (λ found. MatchOption found (ram_locks self.old name.now ≡ true) (λ token.
            (token ≡ name.now) × TakesLock (ram_locks self.old) (ram_locks self.new) name.now)) }
        ensures busy { IfOk result (λ found. IfNone found (self.new ≡ self.old)) }
        ensures err { OnErr result (SameLocks (ram_locks self.old) (ram_locks self.new)) }
        ensures others { self.new ≡ record self.old { held = self.new.held } }
    {
        let key = file_name(self.alloc, name)?;
        if self.held.contains_key(&key) {
            return Ok(None);
        }
        let text = String::from_str(self.alloc, name)?;
        self.held.insert(key, ())?;
        Ok(Some(DirectoryLock::new(text)))
    }
}
