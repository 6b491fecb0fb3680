//! A directory that writes down the name of each file before it makes the file.
ghost use Rattle.std.specs.Prelude.{List, Option, ℕ, ◌≡◌, ◌≢◌, ◌<◌, ◌+◌, ◌^◌, [], ◌∷◌, true, false, length, Some, None, is_some, IfOk, IfErr, OnOk, OnErr, map, string_bytes};
ghost use Rattle.std.specs.List.{list_all};
ghost use Rattle.std.specs.BTreeSet.{insert_key};
ghost use Rattle.tv_formats.specs.Names.{byte_cmp, has, is_file_name, is_plain, is_undotted, list_name};
ghost use Rattle.tv_formats.specs.Disk.{MayLeave, Sealed, Unsealed};
ghost use Rattle.tv_formats.specs.Listed.{ListsEachFile, ListsItsFiles};
ghost use Rattle.tv_formats.specs.Listing.{Listing};
ghost use Rattle.tv_formats.specs.Collections.{held, without};
ghost use Rattle.tv_formats.specs.Checksum.{crc32};
ghost use Rattle.tv_formats.specs.Footer.{footer};
ghost use Rattle.tv_checksum.specs.Crc32.{HasTaken};
ghost use Rattle.tv_device.specs.View.{Kept, OnlyReads};
ghost use Rattle.tv_device.specs.Calls.{AskFaults, ReadFaults, IoFaults, DeviceFaults, Appends, HandsBack, Touches, Flushes};
ghost use Rattle.tv_device.specs.Calls.{IsSilent};
ghost use Rattle.tv_device.specs.Images.{KeepsDisk, Settles, WritesState};
ghost use Rattle.tv_managed.specs.Writers.{HandsOn, IsNewManaged, KeepsWritten};
ghost use Rattle.tv_managed.specs.Managed.{HasListed, OnlySaves, ManagesFile, CreateFaults, Creates, GivesFile, SealsBody};
ghost use Rattle.tv_managed.specs.Crashes.{CreatesSafely, GivesSafely, LeavesSafely, ListsName, ReadsSafely, SavesManaged, SealsStates, WrapsDisk};
ghost use Rattle.tv_managed.specs.Frames.{KeepsNames, KeptButNotes, MakeFaults, OnlyAsks};
ghost use Rattle.tv_managed.specs.Names.{ManagedNames};
ghost use Rattle.tv_managed.specs.Wrapping.{NotWrapped, Wraps};

use crate::collection::Collections;
use crate::list::{load_managed_paths, save_managed_paths};
use crate::writer::ManagedWriter;
use std::alloc::Global;
use std::collections::BTreeSet;
use std::marker::Model;
use tv_base::{IoError, IoFault, OpenReadError, OpenWriteError, TantivyError};
use tv_checksum::{Checksum, Crc32};
use tv_device::Directory;
use tv_formats::Memory;
use tv_framing::Footer;

/// A directory with the list of the files that it manages. To a contract it is the directory, and what is
/// kept in memory beside it: the managed names in their order, and the unfinished collections.
///
/// The list is for crashes: a file that is on no list is never collected. Where the directory tells images, the
/// clause `safe` of a call, of `garbage_collect` `collects`, says that it keeps track where track was kept: at each
/// moment of it, whatever it answers, each undotted file that a crash may leave is on each list that it may leave
/// (of `flush` and `terminate` for a writer of another name than the list's). A `wrap` begins to keep track where a
/// crash leaves the list as it stands, and each image that a crash may leave lists its files (`tracks`).
/// `forget_collections` goes on keeping it where each managed name is on the list, whatever a crash may leave of
/// that (`tracked`). That is so after a call where it was before, but after a `collect_end` or a `garbage_collect`
/// that answers an error. The clause says too which states are possible besides.
pub struct ManagedDirectory<D: Directory> {
    pub(crate) alloc: Global,
    pub(crate) directory: D,
    pub(crate) managed: BTreeSet<String>,
    pub(crate) collections: Collections,
}

impl<D: Directory> Model for ManagedDirectory<D> {
    ghost use Rattle.std.specs.Prelude.{map, string_bytes};
    ghost use Rattle.tv_managed.specs.Names.{AreManaged, ManagedNames};

    ghost Value = { D × ManagedNames };

    ghost view = { λ a. (
      a.directory,
      record {
        managed = map string_bytes a.managed.keys;
        collections = a.collections;
      },
    ) };

    ghost invariant = { λ a. AreManaged (map string_bytes a.managed.keys) };
}

/// An error, with the directory that was handed in.
pub struct Refused<D> {
    /// Why it was refused.
    pub error: TantivyError,
    /// The directory that was handed in.
    pub directory: D,
}

// Whether a file of this name is managed: it has no dot in front.
fn is_managed(name: &str) -> bool
    ensures { result ≡ is_undotted name.now }
{
    match name.as_bytes() {
        [b'.', ..] => false,
        _ => true,
    }
}

// The footer of a file of this checksum.
fn footer_bytes(alloc: Global, checksum: Crc32) -> Result<Vec<u8>, Memory>
    ensures { (body : List ℕ) → HasTaken checksum body
        → IfOk result (λ bytes. bytes.items ≡ footer (crc32 body)) }
{
    Footer::new(checksum.finish()).to_bytes(alloc)
}

impl<D: Directory> ManagedDirectory<D> {
    /// A directory that manages the names for which its list stands, none where it has no list.
    /// `DataCorruption` comes where the file of the list is none. A refusal gives the directory back.
    /// Where a crash leaves the list as it is, as after a directory sync that succeeded, and each image that it may
    /// leave lists its files, the calls keep that so.
    pub fn wrap(alloc: Global, directory: D) -> Result<ManagedDirectory<D>, Refused<D>>
        ensures wraps { IfOk result (Wraps D.Directory directory) }
        ensures refused { IfErr result (λ refused.
            NotWrapped D.Directory directory refused.directory refused.error) }
        ensures tracks { D.tells_images → IfOk result (WrapsDisk D.Directory directory) }
        ensures images { D.tells_images → IfErr result (λ refused.
            KeepsDisk (D.disk directory) (D.disk refused.directory)) }
    {
        let mut directory = directory;
        match load_managed_paths(alloc, &mut directory) {
            Ok(managed) => Ok(ManagedDirectory {
                alloc,
                directory,
                managed,
                collections: Collections::new(alloc),
            }),
            Err(error) => Err(Refused { error, directory }),
        }
    }

    /// The directory. Takes no memory.
    pub fn into_directory(self) -> D
        ensures { result ≡ self.0 }
    {
        let ManagedDirectory {
            alloc: _,
            directory,
            managed: _,
            collections: _,
        } = self;
        directory
    }

    /// The managed names. Takes no memory.
    pub fn list_managed_files(&self) -> &BTreeSet<String>
        ensures names { map string_bytes result.now.keys ≡ self.now.1.managed }
        ensures plain { list_all is_plain self.now.1.managed ≡ true }
    {
        &self.managed
    }

    /// While each file is on every list that a crash may leave, each image of that moment lists its files.
    pub fn images_list_their_files(&self)
        ensures { (x : ℕ) (image : List ℕ → Option (List ℕ))
            → ListsEachFile ((D.disk self.now.0).possible x)
            → MayLeave (D.disk self.now.0) x image → ListsItsFiles image }
    {}

    // Adds a name without a dot in front to the list, where it isn't there yet.
    fn register_file_as_managed(&mut self, name: &str) -> Result<(), IoError>
        requires { is_file_name name.now ≡ true }
        ensures list { HasListed D.Directory self.old self.new name.now result }
        ensures faults { IoFaults (D.view self.old.0) (D.view self.new.0) result }
        ensures images { D.tells_images → ListsName D.Directory self.old self.new name.now }
    {
        if !is_managed(name) {
            return Ok(());
        }
        self.register_plain(name)
    }

    // Adds the name to the list, where it isn't there yet. A refused save leaves the names as they were.
    fn register_plain(&mut self, name: &str) -> Result<(), IoError>
        requires plain { is_plain name.now ≡ true }
        requires undotted { is_undotted name.now ≡ true }
        ensures list { HasListed D.Directory self.old self.new name.now result }
        ensures faults { IoFaults (D.view self.old.0) (D.view self.new.0) result }
        ensures images { D.tells_images → ListsName D.Directory self.old self.new name.now }
    {
        if self.managed.contains(name) {
            return Ok(());
        }
        self.add(name)?;
        match self.save() {
            Ok(()) => Ok(()),
            Err(error) => {
                self.forget(name);
                Err(error)
            }
        }
    }

    // Adds a name to the managed ones.
    #[tactic(auto, using(tv_formats::proofs::TextSets::texts_inserted))]
    fn add(&mut self, name: &str) -> Result<(), Memory>
        requires { is_plain name.now ≡ true }
        ensures names { OnOk result (self.new.1 ≡ record self.old.1 {
          managed = insert_key byte_cmp self.old.1.managed name.now;
        }) }
        ensures kept { OnErr result (self.new.1 ≡ self.old.1) }
        ensures directory { self.new.0 ≡ self.old.0 }
    {
        let copy = String::from_str(self.alloc, name)?;
        self.managed.insert(copy)?;
        Ok(())
    }

    // Takes a name out of the managed ones.
    #[tactic(auto, using(crate::proofs::Removals::texts_without))]
    fn forget(&mut self, name: &str)
        ensures names { self.new.1 ≡ record self.old.1 {
          managed = without (name.now ∷ []) self.old.1.managed;
        } }
        ensures directory { self.new.0 ≡ self.old.0 }
    {
        self.managed.remove(name);
    }

    // Saves the list of the managed names, and waits until the device has kept it.
    fn save(&mut self) -> Result<(), IoError>
        ensures lists { D.told.content
            → OnOk result (Listing (D.view self.new.0).reads self.new.1.managed) }
        ensures only { OnlySaves D.Directory self.old self.new result }
        ensures images { D.tells_images → SavesManaged D.Directory self.old self.new result }
    {
        save_managed_paths(self.alloc, &mut self.directory, &self.managed)
    }
}

impl<D: Directory> ManagedDirectory<D> {
    /// Whether the name reads.
    pub fn exists(&mut self, name: &str) -> Result<bool, OpenReadError>
        requires { is_file_name name.now ≡ true }
        ensures answer { D.told.content → IfOk result
            (λ found. found ≡ is_some ((D.view self.old.0).reads name.now)) }
        ensures faults { AskFaults (D.view self.old.0) (D.view self.new.0) name.now result }
        ensures frame { KeepsNames (OnlyReads D.told) D.view self.old self.new }
        ensures images { D.tells_images
            → KeepsDisk (D.disk self.old.0) (D.disk self.new.0) }
    {
        self.directory.exists(name)
    }

    /// Makes an empty file. A name without a dot in front is managed by then, and on the list, where that had each
    /// managed name. `FileAlreadyExists` comes where the name reads, and `Leaving` where it doesn't and an
    /// unfinished collection has it; then nothing changes.
    pub fn open_write(&mut self, name: &str) -> Result<ManagedWriter<D>, OpenWriteError>
        requires name { is_file_name name.now ≡ true }
        requires other { name.now ≢ list_name }
        ensures writer { IfOk result (IsNewManaged D.Directory self.new.0 name.now) }
        ensures creates { Creates D.Directory self.old self.new name.now result }
        ensures manages { ManagesFile D.Directory self.old self.new name.now result }
        ensures faults { CreateFaults D.Directory self.old self.new name.now result }
        ensures frame { Kept D.told (D.view self.old.0) (D.view self.new.0) }
        ensures safe { D.tells_images
            → CreatesSafely D.Directory name.now self.old self.new result }
    {
        self.refuse_taken(name)?;
        self.list(name)?;
        let writer = self.directory.open_write(name)?;
        Ok(ManagedWriter {
            writer,
            checksum: Crc32::start(),
        })
    }

    // An error where the name reads, or where an unfinished collection has it.
    fn refuse_taken(&mut self, name: &str) -> Result<(), OpenWriteError>
        requires { is_file_name name.now ≡ true }
        ensures absent { D.told.content → OnOk result ((D.view self.old.0).reads name.now ≡ None) }
        ensures asks { OnlyAsks D.Directory self.old self.new
            (CreateFaults D.Directory self.old self.new name.now result) }
    {
        if self.is_there(name)? {
            let path = String::from_str(self.alloc, name)?;
            return Err(OpenWriteError::FileAlreadyExists(path));
        }
        if self.collections.holds(name) {
            let path = String::from_str(self.alloc, name)?;
            return Err(OpenWriteError::Leaving(path));
        }
        Ok(())
    }

    // Whether the name reads, asked before a file is made.
    fn is_there(&mut self, name: &str) -> Result<bool, OpenWriteError>
        requires { is_file_name name.now ≡ true }
        ensures answer { D.told.content → IfOk result
            (λ found. found ≡ is_some ((D.view self.old.0).reads name.now)) }
        ensures asks { OnlyAsks D.Directory self.old self.new
            (MakeFaults (D.view self.old.0) (D.view self.new.0) name.now result) }
    {
        match self.directory.exists(name) {
            Ok(found) => Ok(found),
            Err(OpenReadError::Memory) => Err(OpenWriteError::Memory),
            Err(OpenReadError::IoError { io_error, filepath }) => {
                Err(OpenWriteError::IoError { io_error, filepath })
            }
            Err(OpenReadError::FileDoesNotExist(_)) => unreachable!(),
            Err(OpenReadError::IncompatibleIndex(_)) => unreachable!(),
        }
    }

    // Adds the name to the list, unless it has a dot in front.
    fn list(&mut self, name: &str) -> Result<(), OpenWriteError>
        requires { is_file_name name.now ≡ true }
        ensures list { HasListed D.Directory self.old self.new name.now result }
        ensures faults { MakeFaults (D.view self.old.0) (D.view self.new.0) name.now result }
        ensures images { D.tells_images → ListsName D.Directory self.old self.new name.now }
    {
        let filepath = String::from_str(self.alloc, name)?;
        match self.register_file_as_managed(name) {
            Ok(()) => Ok(()),
            Err(IoError::Memory) => Err(OpenWriteError::Memory),
            Err(IoError::Fault(io_error)) => Err(OpenWriteError::IoError { io_error, filepath }),
        }
    }

    /// Appends the bytes to the file.
    pub fn write(&mut self, writer: &mut ManagedWriter<D>, bytes: &[u8]) -> Result<(), IoError>
        requires opened { (D.view self.old.0).opened writer.old.writer ≡ true }
        requires fits { length (D.state_of writer.old.writer).written + length bytes.now < 2 ^ 64 }
        ensures appends { Appends (D.state_of writer.old.writer) (D.state_of writer.new.writer)
            bytes.now result }
        ensures hands_on { HandsOn D.Directory self.old.0 self.new.0 writer.old writer.new result }
        ensures touches { Touches D.told (D.view self.old.0) (D.view self.new.0) D.state_of
            writer.old.writer }
        ensures faults { IoFaults (D.view self.old.0) (D.view self.new.0) result }
        ensures frame { KeepsNames (Kept D.told) D.view self.old self.new }
        ensures safe { D.tells_images → ReadsSafely D.Directory self.old self.new }
    {
        self.directory.write(&mut writer.writer, bytes)?;
        writer.checksum.update(bytes);
        Ok(())
    }

    /// Lets the file read all that was written, still without a footer. Where the name was deleted since,
    /// nothing changes.
    pub fn flush(&mut self, writer: &mut ManagedWriter<D>) -> Result<(), IoError>
        requires { (D.view self.old.0).opened writer.old.writer ≡ true }
        ensures flushes { Flushes D.told (D.view self.old.0) (D.view self.new.0) D.state_of
            writer.old.writer result }
        ensures keeps { KeepsWritten D.state_of writer.old writer.new }
        ensures hands_back { HandsBack D.told (D.view self.old.0) (D.view self.new.0)
            writer.old.writer writer.new.writer result }
        ensures faults { IoFaults (D.view self.old.0) (D.view self.new.0) result }
        ensures frame { KeepsNames (Kept D.told) D.view self.old self.new }
        ensures safe { D.tells_images → (D.state_of writer.old.writer).name ≢ list_name
            → LeavesSafely D.Directory (WritesState ((D.view self.old.0).lives writer.old.writer)
            (D.disk self.old.0) (D.disk self.new.0) (D.state_of writer.old.writer).name Unsealed
            result) self.old self.new }
    {
        self.directory.flush(&mut writer.writer)
    }

    /// Adds the footer, and seals the file. At Ok the body is read back, where the writer's checksum is that of what
    /// was written, unless the name was deleted since the file was made.
    pub fn terminate(&mut self, writer: ManagedWriter<D>) -> Result<(), IoError>
        requires { (D.view self.old.0).opened writer.writer ≡ true }
        ensures seals { SealsBody D.Directory self.old.0 self.new.0 writer result }
        ensures faults { IoFaults (D.view self.old.0) (D.view self.new.0) result }
        ensures frame { KeepsNames (Kept D.told) D.view self.old self.new }
        ensures safe { D.tells_images → (D.state_of writer.writer).name ≢ list_name
            → LeavesSafely D.Directory
            (SealsStates D.Directory self.old.0 self.new.0 writer result) self.old self.new }
    {
        let ManagedWriter {
            mut writer,
            checksum,
        } = writer;
        let footer = footer_bytes(self.alloc, checksum)?;
        self.directory.write(&mut writer, footer.as_slice())?;
        self.directory.terminate(writer)
    }

    /// The bytes that the name reads. `FileDoesNotExist` comes where it doesn't read.
    pub fn atomic_read(&mut self, name: &str) -> Result<Vec<u8>, OpenReadError>
        requires { is_file_name name.now ≡ true }
        ensures bytes { D.told.content → IfOk result
            (λ bytes. (D.view self.old.0).reads name.now ≡ Some bytes.items) }
        ensures faults { ReadFaults D.told (D.view self.old.0) (D.view self.new.0) name.now result }
        ensures frame { KeepsNames (OnlyReads D.told) D.view self.old self.new }
        ensures images { D.tells_images
            → KeepsDisk (D.disk self.old.0) (D.disk self.new.0) }
    {
        self.directory.atomic_read(name)
    }

    /// Gives the name these bytes in one step. A name without a dot in front is managed by then, and on the list,
    /// where that had each managed name; no unfinished collection may have it.
    pub fn atomic_write(&mut self, name: &str, bytes: &[u8]) -> Result<(), IoError>
        requires name { is_file_name name.now ≡ true }
        requires other { name.now ≢ list_name }
        requires free { is_undotted name.now ≡ true
            → has (held self.old.1.collections) name.now ≡ false }
        ensures gives { GivesFile D.Directory self.old.0 self.new.0 name.now bytes.now result }
        ensures manages { ManagesFile D.Directory self.old self.new name.now result }
        ensures faults { IoFaults (D.view self.old.0) (D.view self.new.0) result }
        ensures frame { KeptButNotes D.told (D.view self.old.0) (D.view self.new.0)
            name.now result }
        ensures safe { D.tells_images
            → GivesSafely D.Directory name.now (Sealed bytes.now) self.old self.new result }
    {
        self.register_file_as_managed(name)?;
        self.directory.atomic_write(name, bytes)
    }

    /// Waits until the device has kept what was written. Takes no memory.
    pub fn sync_directory(&mut self) -> Result<(), IoFault>
        ensures faults { DeviceFaults (D.view self.old.0) (D.view self.new.0) result }
        ensures silent { IfErr result IsSilent }
        ensures frame { KeepsNames (OnlyReads D.told) D.view self.old self.new }
        ensures safe { D.tells_images → LeavesSafely D.Directory
            (Settles (D.disk self.old.0) (D.disk self.new.0) result) self.old self.new }
    {
        self.directory.sync_directory()
    }
}
