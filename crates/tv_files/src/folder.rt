//! A folder of the file system: what is asked of the operating system, of which nothing is said.
use crate::file_id::FileId;
use std::alloc::Global;
use std::fs::{File, OpenOptions};
use std::io::{ErrorKind, Read, Write};
use std::rt::Files;
use std::{fs, io};
use tv_device::Lock;

// No file that is read whole is longer.
const LONGEST: u64 = 1 << 40;

// What the names of temporary files begin with. The space keeps everybody else from such a name: no
// file of a directory has one.
const TEMPORARY: &str = ".new ";

/// A folder whose files are written under names without a `/`.
///
/// Its files are found by its path, and its names are synced by its handle. So what writes looks
/// whether the path still leads to the folder that was opened: it may have been moved since, and
/// another one put in its place.
#[derive(Drop)]
pub(crate) struct Folder<R: Drop> {
    rt: R,
    alloc: Global,
    // The path has no links, so that a link that is set anew leads nowhere else.
    path: String,
    // The folder itself, open.
    handle: File,
    id: FileId,
    // The number in the name of the next temporary file.
    temporary: u64,
}

impl<R: Files<File = File> + Drop> Folder<R> {
    /// The folder of this path. Where nothing has the path, the error is `NotFound`, and where
    /// something else than a folder has it, `NotADirectory`.
    pub fn open(rt: R, alloc: Global, path: &str) -> io::Result<Folder<R>> {
        let path = find_folder(&rt, alloc, path)?;
        let handle = File::open(&rt, path.as_str())?;
        let id = FileId::of(&handle)?;
        id.stands_at(&rt, path.as_str())?;
        Ok(Folder {
            rt,
            alloc,
            path,
            handle,
            id,
            temporary: 0,
        })
    }

    /// Whether a file has this name.
    pub fn exists(&self, name: &str) -> io::Result<bool> {
        let path = self.path_of(name)?;
        fs::exists(&self.rt, path.as_str())
    }

    /// All bytes of a file.
    pub fn read(&self, name: &str) -> io::Result<Vec<u8>> {
        let path = self.path_of(name)?;
        read_whole(&self.rt, self.alloc, path.as_str())
    }

    /// A new file of this name. Where there is one, the error is `AlreadyExists`.
    pub fn create(&self, name: &str) -> io::Result<File> {
        let path = self.path_to_change(name)?;
        File::create_new(&self.rt, path.as_str())
    }

    /// Gives the name these bytes, by a temporary file that takes the name once its bytes are
    /// durable.
    pub fn replace(&mut self, name: &str, bytes: &[u8]) -> io::Result<()> {
        let target = self.path_to_change(name)?;
        // The file stays open to the end, and so locked.
        let (temporary, mut file) = self.make_temporary()?;
        let replaced = match fill(&mut file, bytes) {
            Ok(()) => fs::rename(&self.rt, temporary.as_str(), target.as_str()),
            Err(error) => Err(error),
        };
        if replaced.is_err() {
            let _left = fs::remove_file(&self.rt, temporary.as_str());
        }
        replaced
    }

    /// Takes the file out of the folder.
    pub fn remove(&self, name: &str) -> io::Result<()> {
        let path = self.path_to_change(name)?;
        fs::remove_file(&self.rt, path.as_str())
    }

    /// Makes the names of the folder durable. Takes no memory.
    ///
    /// The path is looked at after the sync. Where it leads to this folder then, it did so when each
    /// file was written since the opening, so that all of them were in this folder before the sync
    /// began. A look before the sync would add nothing, since nothing is written during it. Of a
    /// folder that is moved away and comes back between two looks nothing is seen.
    pub fn sync(&self) -> io::Result<()> {
        self.handle.sync_all()?;
        self.stands()
    }

    /// The lock file, locked. The operating system frees the lock when the file is closed, at the
    /// latest when the process ends, so a lock file that is left behind locks nothing. Where
    /// somebody else holds a lock that isn't waited for, the error is `WouldBlock`.
    pub fn lock(&self, lock: &Lock) -> io::Result<File> {
        let path = self.path_to_change(lock.filepath)?;
        let file = OpenOptions::new()
            .write(true)
            .create(true)
            .open(&self.rt, path.as_str())?;
        self.hold(&file, path.as_str(), lock.is_blocking)?;
        Ok(file)
    }

    /// Removes the temporary files that earlier processes left. That of a process that still runs
    /// stays, and so does what can't be removed. Only who holds the lock of the writer may call it.
    pub fn remove_left(&self) -> io::Result<()> {
        let mut folder = self.rt.open_dir(self.path.as_str())?;
        let mut names = [0; 4096];
        for _ in 0..u64::MAX {
            let len = folder.read(&mut names)?;
            if len == 0 {
                break;
            }
            self.remove_each(&names[..len]);
        }
        Ok(())
    }

    // Removes those of these files that are temporary. Each name ends in a byte 0.
    fn remove_each(&self, names: &[u8]) {
        for name in names.split(|byte| *byte == 0) {
            if let Ok(name) = str::from_utf8(name) {
                let _stays = self.remove_temporary(name);
            }
        }
    }

    // Answers a fault where the path leads to another folder than the one that was opened, or to
    // none. Takes no memory.
    fn stands(&self) -> io::Result<()> {
        self.id.stands_at(&self.rt, self.path.as_str())
    }

    // The path of a file of this name.
    fn path_of(&self, name: &str) -> io::Result<String> {
        let mut path = String::from_str(self.alloc, self.path.as_str())?;
        path.push_str("/")?;
        path.push_str(name)?;
        Ok(path)
    }

    // The path of a file of this name that is to be made, replaced or removed, which isn't done in a
    // folder that took the place of this one.
    fn path_to_change(&self, name: &str) -> io::Result<String> {
        self.stands()?;
        self.path_of(name)
    }

    // Locks the open file of this path. Answers a fault where the path no longer leads to it, since
    // nobody else meets the lock of a file that was removed or replaced, and where it isn't in the
    // folder that was opened, which is looked at last: the path led there when it led to the file.
    fn hold(&self, file: &File, path: &str, is_blocking: bool) -> io::Result<()> {
        lock_file(file, is_blocking)?;
        FileId::of(file)?.stands_at(&self.rt, path)?;
        self.stands()
    }

    // A file that nobody else writes, under a name of its own. It is locked, so that nobody removes
    // it.
    fn make_temporary(&mut self) -> io::Result<(String, File)> {
        for _ in 0..u64::MAX {
            let path = self.next_temporary()?;
            match File::create_new(&self.rt, path.as_str()) {
                Ok(file) => {
                    self.hold(&file, path.as_str(), false)?;
                    return Ok((path, file));
                }
                Err(error) if error.kind() == ErrorKind::AlreadyExists => {}
                Err(error) => return Err(error),
            }
        }
        Err(io::Error::from(ErrorKind::AlreadyExists))
    }

    // The path of a temporary file that this folder hasn't made yet.
    fn next_temporary(&mut self) -> io::Result<String> {
        let number = self.temporary;
        self.temporary = number.saturating_add(1);
        let name = format!(in self.alloc; "{TEMPORARY}{number}")?;
        self.path_of(name.as_str())
    }

    // Removes a temporary file, unless a process that still runs has it locked.
    fn remove_temporary(&self, name: &str) -> io::Result<()> {
        let path = self.path_of(name)?;
        if !is_temporary(name) || !fs::symlink_metadata(&self.rt, path.as_str())?.is_file() {
            return Ok(());
        }
        let file = OpenOptions::new()
            .write(true)
            .open(&self.rt, path.as_str())?;
        self.hold(&file, path.as_str(), false)?;
        fs::remove_file(&self.rt, path.as_str())
    }
}

// The path without links of the folder of this path. Nothing else is opened, since the open of a
// pipe would wait.
fn find_folder<R: Files>(rt: &R, alloc: Global, path: &str) -> io::Result<String> {
    let found = match rt.canonicalize(alloc, path) {
        Ok(found) => found.into_string(),
        // A path through a file: nothing has it.
        Err(error) if error.kind() == ErrorKind::NotADirectory => {
            return Err(io::Error::from(ErrorKind::NotFound));
        }
        Err(error) => return Err(error),
    };
    if !fs::metadata(rt, found.as_str())?.is_dir() {
        return Err(io::Error::from(ErrorKind::NotADirectory));
    }
    Ok(found)
}

// Locks a file. Where it isn't waited for and somebody else has the lock, the error is
// `WouldBlock`.
fn lock_file(file: &File, is_blocking: bool) -> io::Result<()> {
    if is_blocking {
        return file.lock();
    }
    file.try_lock()?;
    Ok(())
}

// Whether this is the name of a temporary file.
fn is_temporary(name: &str) -> bool {
    match name.strip_prefix(TEMPORARY) {
        Some(number) => { !number.is_empty() && number.bytes().all(|digit| digit.is_ascii_digit()) }
        None => false,
    }
}

// Writes the bytes, and makes them durable.
fn fill(file: &mut File, bytes: &[u8]) -> io::Result<()> {
    file.write_all(bytes)?;
    file.sync_data()
}

/// All bytes of the file of this path.
pub(crate) fn read_whole<R: Files>(rt: &R, alloc: Global, path: &str) -> io::Result<Vec<u8>> {
    let bytes = read_at_most(rt, alloc, path, LONGEST + 1)?;
    if bytes.len() as u64 > LONGEST {
        return Err(io::Error::from(ErrorKind::FileTooLarge));
    }
    Ok(bytes)
}

/// The first bytes of the file of this path, at most `most`.
pub fn read_at_most<R: Files>(rt: &R, alloc: Global, path: &str, most: u64) -> io::Result<Vec<u8>> {
    let mut bytes = Vec::new(alloc);
    let file = File::open(rt, path)?;
    file.take(most).read_to_end(&mut bytes)?;
    Ok(bytes)
}
