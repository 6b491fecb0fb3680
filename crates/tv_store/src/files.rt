//! The files of an index: the index, the writers of the files that are open, and the names of those
//! that were left.
ghost use Rattle.std.specs.Prelude.{◌≡◌, ◌≢◌, ◌≤◌, ◌<◌, ◌+◌, ◌^◌, ◌++◌, [], List, ℕ, true, false, length, Option, Some, None, IsSome, is_some, option_map, IfErr, IfOk, OnOk, OnErr, is_ok, map, string_bytes};
ghost use Rattle.std.specs.List.{list_all, AllByRecursion};
ghost use Rattle.std.specs.Map.{remove_entry, set_value};
ghost use Rattle.std.specs.BTreeMap.{is_at, insert_entry};
ghost use Rattle.tv_base.specs.declared.io.IoKind.TheVariants.{Device};
ghost use Rattle.tv_formats.specs.Names.{byte_cmp, has, is_plain, is_file_name, meta_name, at};
ghost use Rattle.tv_formats.specs.Footer.{sealed};
ghost use Rattle.tv_formats.specs.Collections.{no_collections};
ghost use Rattle.tv_formats.specs.Files.{Sets, KeepsOthers, has_no_feed};
ghost use Rattle.tv_device.specs.Calls.{DeviceFaults, Frees, LockFaults, Acquires, MakesRoom};
ghost use Rattle.tv_device.specs.Images.{KeepsDisk};
ghost use Rattle.tv_device.specs.View.{Kept, OnlyReads, OnlyLocks, OnlyTells};
ghost use Rattle.tv_machine.specs.Index.{IsFileOf};
ghost use Rattle.tv_managed.specs.Collecting.{meta_lock_name};
ghost use Rattle.tv_managed.specs.Crashes.{ReadsSafely};
ghost use Rattle.tv_managed.specs.Managed.{KeepsOtherFiles};
ghost use Rattle.tv_managed.specs.Reading.{ReadsBody};
ghost use Rattle.tv_store.specs.FileCalls.{Asked, intact_in, LeavesFiles, OpensFile, FindsFile, ReadBodyFaults, LeavesText, KeepsOpenFiles, SavesSafely, unless_taken};
ghost use Rattle.tv_store.specs.FileStates.{OpensFileSafely, SealsSafely};
ghost use Rattle.tv_index.specs.NewForms.{form_with};
ghost use Rattle.tv_index.specs.Saving.{SavesMeta};
ghost use Rattle.tv_metas.specs.Settings.{settings_view};
ghost use Rattle.tv_index.specs.Standing.{LoadsMeta, MetaFaults};
ghost use Rattle.tv_store.specs.Kept.{names_below};
ghost use Rattle.tv_store.specs.ReloadLocks.{GivesBack, KeepsAllButLock};
ghost use Rattle.tv_store.specs.Stays.{KeepsFiles, KeepsMade, OnlyWrites, EventFaults, Faults};
ghost use Rattle.tv_store.specs.Telling.{TriesLine};

use std::alloc::Global;
use std::collections::{BTreeMap, BTreeSet};
use std::marker::Model;
use tv_base::{FileSlice, IoFault, IoKind, LockError, OpenReadError, OpenWriteError, TantivyError};
use tv_device::{Directory, DirectoryLock, Lock, Outside, meta_lock};
use tv_formats::{FileName, Memory};
use tv_index::{Index, IndexSettings, Schema, UntrackedIndexMeta, save_meta_text};
use tv_machine::Answer;
use tv_managed::ManagedWriter;

/// A file that is being written, and how many bytes were.
#[derive(Drop)]
pub(crate) struct OpenFile<D: Directory> {
    writer: ManagedWriter<D>,
    pub(crate) len: u64,
}

/// The meta lock, which is held.
#[derive(Drop)]
pub(crate) struct MetaLock {
    lock: DirectoryLock,
}

impl Model for MetaLock {
    ghost use Rattle.std.specs.Prelude.{◌≡◌, List, ℕ};
    ghost use Rattle.tv_managed.specs.Collecting.{meta_lock_name};

    ghost Value = { List ℕ };

    ghost view = { λ a. a.lock };

    ghost invariant = { λ a. a.lock ≡ meta_lock_name };
}

/// An index and its open files. To a contract it is the directory, the index's settings and schema, the
/// managed names, the unfinished collections, what was written to each open file, the files that were
/// left, and whether the meta lock is kept for a reload.
pub(crate) struct StoreFiles<O: Outside> {
    pub(crate) index: Index<O>,
    pub(crate) files: BTreeMap<FileName, OpenFile<O>>,
    // Neither sealed nor written any more.
    pub(crate) left: BTreeSet<FileName>,
    // Found to be there, and not deleted since: the device isn't asked for them again. Some may be missing.
    pub(crate) known: BTreeSet<FileName>,
    // The meta lock, while it is kept for a reload.
    pub(crate) reload_lock: Option<MetaLock>,
}

impl<O: Outside> Model for StoreFiles<O> {
    ghost use Rattle.std.specs.Prelude.{is_some, map};
    ghost use Rattle.std.specs.List.{AllByRecursion};
    ghost use Rattle.std.specs.Prelude.{◌≡◌, false};
    ghost use Rattle.tv_formats.specs.Collections.{held};
    ghost use Rattle.tv_formats.specs.Names.{has, meta_name};
    ghost use Rattle.tv_store.specs.Kept.{FilesState};
    ghost use Rattle.tv_index.specs.NewForms.{form_with};
    ghost use Rattle.tv_store.specs.OpenFiles.{AreThere, IsOpenFile};

    ghost Value = { FilesState O };

    ghost view = { λ a. record {
      outside = a.index.directory.0;
      form = form_with a.index.settings a.index.schema;
      managed = a.index.directory.1.managed;
      collections = a.index.directory.1.collections;
      open_files = map
          (λ e. (e.0, (O.state_of e.1.writer.writer).written)) a.files.entries;
      left = a.left.keys;
      locked = is_some a.reload_lock;
    } };

    ghost invariant = { λ a. AllByRecursion
        (λ e. IsOpenFile O.Directory a.index.directory.0 e.0 e.1.writer e.1.len)
        a.files.entries
        × (has (held a.index.directory.1.collections) meta_name ≡ false)
        × (O.told.content → AreThere (O.view a.index.directory.0).reads a.known.keys) };
}

// Nothing is known of a checksum where the bytes of its file are refused.
fn unless_device(fault: IoFault) -> Result<Option<bool>, TantivyError>
    ensures none { IfOk result (λ found. found ≡ None) }
    ensures bytes { OnOk result (fault.kind ≢ Device) }
    ensures device { IfErr result (λ error. (error ≡ TantivyError.IoError fault)
        × (fault.kind ≡ Device)) }
{
    match fault.kind {
        IoKind::Device => Err(TantivyError::IoError(fault)),
        IoKind::UnexpectedEof | IoKind::InvalidData => Ok(None),
    }
}

// The writer of a file that was to be made, and nothing where its name is taken: the name reads, or
// an unfinished collection holds it.
fn unless_taken<W: Drop>(opened: Result<W, OpenWriteError>) -> Result<Option<W>, TantivyError>
    ensures { result ≡ unless_taken opened }
{
    match opened {
        Ok(writer) => Ok(Some(writer)),
        Err(OpenWriteError::FileAlreadyExists(_) | OpenWriteError::Leaving(_)) => Ok(None),
        Err(error) => Err(TantivyError::from(error)),
    }
}

// Takes the entry of a name out of a map.
fn take_out<V: Drop>(map: &mut BTreeMap<FileName, V>, name: &FileName)
    ensures { map.new.entries ≡ remove_entry (is_at (byte_cmp name.now)) map.old.entries }
{
    let _entry = map.remove(name);
}

impl<O: Outside> StoreFiles<O> {
    /// The files of an index, none of them open.
    pub(crate) fn new(alloc: Global, index: Index<O>) -> StoreFiles<O>
        requires { index.directory.1.collections ≡ no_collections }
        ensures { result ≡ record {
          outside = index.directory.0;
          form = form_with index.settings index.schema;
          managed = index.directory.1.managed;
          collections = index.directory.1.collections;
          open_files = [];
          left = [];
          locked = false;
        } }
    {
        StoreFiles {
            index,
            files: BTreeMap::new(alloc),
            left: BTreeSet::new(alloc),
            known: BTreeSet::new(alloc),
            reload_lock: None,
        }
    }

    /// The directory.
    pub(crate) fn into_outside(self) -> O
        ensures { result ≡ self.outside }
    {
        let StoreFiles {
            index,
            files: _,
            left: _,
            known: _,
            reload_lock: _,
        } = self;
        index.into_directory()
    }

    /// The last commit, as `meta.json` has it.
    pub(crate) fn load_untracked_metas(
        &mut self,
        alloc: Global,
    ) -> Result<UntrackedIndexMeta, TantivyError>
        ensures meta { IfOk result
            (LoadsMeta O.Directory self.old.outside (Some self.old.form.schema)) }
        ensures faults { MetaFaults O.Directory self.old.outside self.new.outside
            (Some self.old.form.schema) result }
        ensures frame { KeepsFiles (OnlyReads O.told) O.view self.old self.new }
        ensures images { O.tells_images
            → KeepsDisk (O.disk self.old.outside) (O.disk self.new.outside) }
    {
        self.index.load_untracked_metas(alloc)
    }

    /// Makes room for a line of this length.
    pub(crate) fn ready(&mut self, len: usize) -> Result<(), Memory>
        ensures room { KeepsFiles (MakesRoom O.told len result) O.view self.old self.new }
        ensures images { O.tells_images
            → KeepsDisk (O.disk self.old.outside) (O.disk self.new.outside) }
    {
        self.index.directory_mut().ready(len)
    }

    /// Tells an answer, in the room that was made.
    pub(crate) fn tell(&mut self, line: &Answer) -> Result<(), IoFault>
        requires { length line.now < (O.view self.old.outside).room }
        ensures tells { TriesLine O.told (O.view self.old.outside) (O.view self.new.outside)
            line.now result }
        ensures faults { DeviceFaults (O.view self.old.outside) (O.view self.new.outside) result }
        ensures frame { KeepsFiles (OnlyTells O.told) O.view self.old self.new }
        ensures images { O.tells_images
            → KeepsDisk (O.disk self.old.outside) (O.disk self.new.outside) }
    {
        self.index.directory_mut().tell(line.as_slice())
    }

    /// Takes a lock.
    pub(crate) fn acquire_lock(&mut self, lock: &Lock) -> Result<DirectoryLock, LockError>
        requires { is_file_name lock.now.filepath.now ≡ true }
        ensures token { IfOk result (λ token. token ≡ lock.now.filepath.now) }
        ensures acquires { Acquires O.told (O.view self.old.outside)
            (O.view self.new.outside) lock.now.filepath.now result }
        ensures faults { LockFaults O.told (O.view self.old.outside)
            (O.view self.new.outside) lock.now.filepath.now result }
        ensures frame { KeepsFiles (OnlyLocks O.told) O.view self.old self.new }
        ensures images { O.tells_images
            → KeepsDisk (O.disk self.old.outside) (O.disk self.new.outside) }
    {
        self.index.directory_mut().acquire_lock(lock)
    }

    /// Frees a lock. Takes no memory.
    pub(crate) fn release(&mut self, lock: DirectoryLock)
        ensures frees { KeepsFiles (Frees O.told lock) O.view self.old self.new }
        ensures images { O.tells_images
            → KeepsDisk (O.disk self.old.outside) (O.disk self.new.outside) }
    {
        self.index.directory_mut().release(lock);
    }

    /// Takes the meta lock, and keeps it for a reload.
    pub(crate) fn keep_lock(&mut self) -> Result<(), LockError>
        requires { self.old.locked ≡ false }
        ensures acquires { Acquires O.told (O.view self.old.outside)
            (O.view self.new.outside) meta_lock_name result }
        ensures faults { LockFaults O.told (O.view self.old.outside)
            (O.view self.new.outside) meta_lock_name result }
        ensures frame { KeepsAllButLock (OnlyLocks O.told) O.view (is_ok result)
            self.old self.new }
        ensures images { O.tells_images
            → KeepsDisk (O.disk self.old.outside) (O.disk self.new.outside) }
    {
        let lock = self.acquire_lock(&meta_lock())?;
        self.reload_lock = Some(MetaLock { lock });
        Ok(())
    }

    /// Gives the meta lock back, where it is kept for a reload. Takes no memory.
    pub(crate) fn give_back(&mut self)
        ensures gives { KeepsAllButLock (GivesBack O.told self.old.locked) O.view false
            self.old self.new }
        ensures images { O.tells_images
            → KeepsDisk (O.disk self.old.outside) (O.disk self.new.outside) }
    {
        if let Some(MetaLock { lock }) = self.reload_lock.take() {
            self.release(lock);
        }
    }

    /// Whether a file is there, isn't open and wasn't left. The device isn't asked for one that is known.
    pub(crate) fn is_sealed(&mut self, name: &FileName) -> Result<bool, TantivyError>
        ensures answer { O.told.content → IfOk result
            (Asked ((O.view self.old.outside).reads name.now)
            (at self.old.open_files name.now) (has self.old.left name.now)) }
        ensures faults { EventFaults ⊥ (O.view self.old.outside) (O.view self.new.outside) result }
        ensures frame { KeepsFiles (OnlyReads O.told) O.view self.old self.new }
        ensures images { O.tells_images
            → KeepsDisk (O.disk self.old.outside) (O.disk self.new.outside) }
    {
        if self.files.contains_key(name) || self.left.contains(name) {
            return Ok(false);
        }
        if self.known.contains(name) {
            return Ok(true);
        }
        match self.index.directory_mut().exists(name.as_str()) {
            Ok(found) => Ok(found),
            Err(OpenReadError::Memory) => Err(TantivyError::Memory),
            Err(OpenReadError::IoError { io_error, .. }) => Err(TantivyError::IoError(io_error)),
            Err(OpenReadError::FileDoesNotExist(_)) => unreachable!(),
            Err(OpenReadError::IncompatibleIndex(_)) => unreachable!(),
        }
    }

    /// Keeps in mind that a file of a segment is there, if there is memory for that.
    pub(crate) fn remember(&mut self, name: FileName)
        requires { O.told.content → IsFileOf name × IsSome ((O.view self.old.outside).reads name) }
        ensures { self.new ≡ self.old }
    {
        let _added = self.known.insert(name);
    }

    /// Makes an empty file, unless the name reads, or an unfinished collection holds it. None holds a file
    /// of a live segment.
    pub(crate) fn open(&mut self, name: FileName) -> Result<bool, TantivyError>
        requires { is_plain name ≡ true }
        ensures opened { IfOk result (λ made. made ≡ true
            → OpensFile O.Directory self.old self.new name) }
        ensures found { IfOk result (λ made. made ≡ false
            → FindsFile O.Directory self.old self.new name) }
        ensures others { O.told.content → KeepsOtherFiles (O.view self.old.outside).reads
            (O.view self.new.outside).reads name }
        ensures kept { OnErr result (self.new.open_files ≡ self.old.open_files) }
        ensures faults { EventFaults ⊥ (O.view self.old.outside) (O.view self.new.outside) result }
        ensures frame { KeepsMade (Kept O.told) O.view self.old self.new }
        ensures safe { O.tells_images → OpensFileSafely O.Directory name self.old self.new }
    {
        // A file that is made anew isn't sealed, whatever was known of its name.
        let _known = self.known.remove(&name);
        let opened = self.index.directory_mut().open_write(name.as_str());
        let Some(writer) = unless_taken(opened)? else {
            return Ok(false);
        };
        self.files.insert(name, OpenFile { writer, len: 0 })?;
        Ok(true)
    }

    /// Adds bytes to an open file. After an error it is open no more.
    pub(crate) fn write(&mut self, name: &FileName, bytes: &[u8]) -> Result<(), TantivyError>
        requires is_open { IsSome (at self.old.open_files name.now) }
        requires fits { (body : List ℕ) → at self.old.open_files name.now ≡ Some body
            → length body + length bytes.now < 2 ^ 64 }
        ensures written { (body : List ℕ) → at self.old.open_files name.now ≡ Some body
            → OnOk result (self.new.open_files
            ≡ set_value (is_at (byte_cmp name.now)) self.old.open_files (body ++ bytes.now)) }
        ensures closed { OnErr result (self.new.open_files
            ≡ remove_entry (is_at (byte_cmp name.now)) self.old.open_files) }
        ensures others { O.told.content → KeepsOthers (O.view self.old.outside).reads
            (O.view self.new.outside).reads name.now }
        ensures there { O.told.content
            → OnOk result (IsSome ((O.view self.new.outside).reads name.now)) }
        ensures rest { OnlyWrites O.Directory self.old self.new result }
        ensures safe { O.tells_images
            → ReadsSafely O.Directory (names_below self.old) (names_below self.new) }
    {
        let Some(file) = self.files.get_mut(name) else {
            unreachable!()
        };
        match self.index.directory_mut().write(&mut file.writer, bytes) {
            Ok(()) => {
                file.len += bytes.len() as u64;
                Ok(())
            }
            Err(error) => {
                take_out(&mut self.files, name);
                Err(TantivyError::from(error))
            }
        }
    }

    /// Seals an open file of a segment.
    pub(crate) fn seal(&mut self, name: FileName) -> Result<(), TantivyError>
        requires file { IsFileOf name }
        requires is_open { IsSome (at self.old.open_files name) }
        ensures sealed { O.told.content
            → (body : List ℕ) → at self.old.open_files name ≡ Some body
            → OnOk result (Sets (O.view self.old.outside).reads (O.view self.new.outside).reads
            name (Some (sealed body))) }
        ensures others { O.told.content → KeepsOthers (O.view self.old.outside).reads
            (O.view self.new.outside).reads name }
        ensures open_files { self.new.open_files
            ≡ remove_entry (is_at (byte_cmp name)) self.old.open_files }
        ensures closed { at self.new.open_files name ≡ None }
        ensures rest { OnlyWrites O.Directory self.old self.new result }
        ensures safe { O.tells_images → SealsSafely O.Directory name self.old self.new result }
    {
        let Some(file) = self.files.remove(&name) else {
            unreachable!()
        };
        let OpenFile { writer, len: _ } = file;
        self.index.directory_mut().terminate(writer)?;
        let _added = self.known.insert(name);
        Ok(())
    }

    // Takes an open file as one that is written no more, and answers whether there is one.
    fn abandon(&mut self, name: &FileName) -> bool
        ensures found { result ≡ is_some (at self.old.open_files name.now) }
        ensures abandoned { self.new ≡ record self.old {
          open_files = remove_entry (is_at (byte_cmp name.now)) self.old.open_files;
        } }
        ensures closed { at self.new.open_files name.now ≡ None }
    {
        self.files.remove(name).is_some()
    }

    /// The open ones of these files are left: they are written no more.
    pub(crate) fn leave(&mut self, names: Vec<FileName>) -> Result<(), Memory>
        ensures left { OnOk result (LeavesFiles names.items self.old self.new) }
        ensures others { self.new ≡ record self.old {
          open_files = self.new.open_files;
          left = self.new.left;
        } }
        ensures lens { (bound : ℕ) → AllByRecursion (λ e. length e.1 ≤ bound) self.old.open_files
            → AllByRecursion (λ e. length e.1 ≤ bound) self.new.open_files }
    {
        for name in names {
            if self.abandon(&name) {
                self.left.insert(name)?;
            }
        }
        Ok(())
    }

    /// Whether the checksum of a file is that of its body; none where the file isn't sealed or has no
    /// footer.
    pub(crate) fn is_intact(&mut self, name: &FileName) -> Result<Option<bool>, TantivyError>
        ensures answer { O.told.content → IfOk result (λ found. found
            ≡ intact_in ((O.view self.old.outside).reads name.now)
            (at self.old.open_files name.now) (has self.old.left name.now)) }
        ensures faults { EventFaults ⊥ (O.view self.old.outside) (O.view self.new.outside) result }
        ensures frame { KeepsFiles (OnlyReads O.told) O.view self.old self.new }
        ensures images { O.tells_images
            → KeepsDisk (O.disk self.old.outside) (O.disk self.new.outside) }
    {
        if self.files.contains_key(name) || self.left.contains(name) {
            return Ok(None);
        }
        match self.index.directory_mut().validate_checksum(name.as_str()) {
            Ok(is_right) => Ok(Some(is_right)),
            Err(OpenReadError::FileDoesNotExist(_)) => Ok(None),
            Err(OpenReadError::IoError { io_error, .. }) => unless_device(io_error),
            Err(OpenReadError::Memory) => Err(TantivyError::Memory),
            Err(OpenReadError::IncompatibleIndex(_)) => unreachable!(),
        }
    }

    /// The body of a sealed file.
    pub(crate) fn open_read(&mut self, name: &FileName) -> Result<FileSlice, TantivyError>
        ensures body { O.told.content → IfOk result
            (ReadsBody ((O.view self.old.outside).reads name.now)) }
        ensures faults { ReadBodyFaults O.Directory self.old.outside self.new.outside
            name.now result }
        ensures frame { KeepsFiles (OnlyReads O.told) O.view self.old self.new }
        ensures images { O.tells_images
            → KeepsDisk (O.disk self.old.outside) (O.disk self.new.outside) }
    {
        let body = self.index.directory_mut().open_read(name.as_str())?;
        Ok(body)
    }

    /// Makes these bytes the text of `meta.json`. The directory is synced before and afterwards: a crash
    /// leaves what it might have left before the call, or the text that stood then or this one, and at Ok
    /// this one.
    pub(crate) fn save_meta(&mut self, text: &[u8]) -> Result<(), TantivyError>
        ensures saves { OnOk result (SavesMeta O.Directory
            (names_below self.old) (names_below self.new) text.now) }
        ensures others { O.told.content → KeepsOtherFiles (O.view self.old.outside).reads
            (O.view self.new.outside).reads meta_name }
        ensures leaves { LeavesText O.Directory self.old.outside self.new.outside text.now result }
        ensures faults { Faults (O.view self.old.outside) (O.view self.new.outside) result }
        ensures frame { KeepsOpenFiles O.told O.view self.old self.new }
        ensures safe { O.tells_images → SavesSafely O.Directory self.old self.new text.now result }
    {
        save_meta_text(self.index.directory_mut(), text)?;
        Ok(())
    }
}
