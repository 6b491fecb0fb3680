//! What writes a file of a folder.
ghost use Rattle.std.specs.Prelude.{◌≡◌, ◌++◌, [], OnOk, OnErr};

use std::alloc::Global;
use std::fs::File;
use std::io;
use std::io::Write;
use std::marker::Model;
use tv_formats::{FileName, Memory};

/// What writes a file of a folder. To a contract it is the name of the file, and what was written
/// so far.
///
/// The bytes stay in memory until the file is sealed, and reach the file by a flush and by its end,
/// each time all that hadn't yet.
#[derive(Drop)]
pub struct MmapWriter {
    name: FileName,
    file: File,
    bytes: Vec<u8>,
    // How many of the bytes have reached the file.
    flushed: usize,
}

impl Model for MmapWriter {
    ghost use Rattle.std.specs.Prelude.{◌≤◌, length};
    ghost use Rattle.tv_device.specs.View.{WriterState};

    ghost Value = { WriterState };

    ghost view = { λ w. record { name = w.name; written = w.bytes.items } };

    ghost invariant = { λ w. w.flushed ≤ length w.bytes.items };
}

impl MmapWriter {
    // What writes this file, which is empty.
    pub(crate) fn new(alloc: Global, name: FileName, file: File) -> MmapWriter
        ensures { result ≡ record { name = name; written = [] } }
    {
        MmapWriter {
            name,
            file,
            bytes: Vec::new(alloc),
            flushed: 0,
        }
    }

    // Takes bytes that are to be written.
    pub(crate) fn append(&mut self, bytes: &[u8]) -> Result<(), Memory>
        ensures ok { OnOk result
            (self.new ≡ record self.old { written = self.old.written ++ bytes.now }) }
        ensures err { OnErr result (self.new ≡ self.old) }
    {
        self.bytes.extend_from_slice(bytes)?;
        Ok(())
    }

    // Lets what was written reach the file. Takes no memory.
    pub(crate) fn write_out(&mut self) -> io::Result<()>
        ensures { self.new ≡ self.old }
    {
        let (_, rest) = self.bytes.as_slice().split_at(self.flushed);
        if rest.is_empty() {
            return Ok(());
        }
        self.file.write_all(rest)?;
        self.flushed = self.bytes.len();
        Ok(())
    }

    // Lets what was written reach the file, and makes it durable. Takes no memory.
    pub(crate) fn seal(mut self) -> io::Result<()> {
        self.write_out()?;
        self.file.sync_data()
    }
}
