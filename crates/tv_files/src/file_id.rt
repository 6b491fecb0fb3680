//! Which file of the system is open, whatever its name is by now.
use std::fs::File;
use std::io::ErrorKind;
use std::os::unix::fs::MetadataExt;
use std::rt::Files;
use std::{fs, io};

/// Which file of the system this is: no two that are there at once are the same.
#[derive(Clone, Copy)]
pub(crate) struct FileId {
    device: u64,
    inode: u64,
}

impl FileId {
    /// The file or folder that is open.
    pub fn of(file: &File) -> io::Result<FileId> {
        let open = file.metadata()?;
        Ok(FileId {
            device: open.dev(),
            inode: open.ino(),
        })
    }

    /// Answers a fault where the path leads to another file, or to none. Takes no memory.
    pub fn stands_at<R: Files>(self, rt: &R, path: &str) -> io::Result<()> {
        match fs::metadata(rt, path) {
            Ok(found) if found.dev() == self.device && found.ino() == self.inode => Ok(()),
            Err(error) if error.kind() != ErrorKind::NotFound => Err(error),
            _ => Err(io::Error::other("the path leads to another file by now")),
        }
    }
}
