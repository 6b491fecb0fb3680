//! The place of a program: folders and files of the file system, and standard output.
ghost use Rattle.std.specs.Prelude.{◌≡◌, None, string_bytes, IfOk};
ghost use Rattle.tv_base.specs.Causes.{IsDevice};
ghost use Rattle.tv_replay.specs.FolderPlace.{place_view, folder_refused};

use crate::place::Place;
use std::alloc::Global;
use std::fs::File;
use std::io::ErrorKind;
use std::marker::Model;
use std::rt::Files;
use tv_base::{IoError, IoFault, IoKind, OpenDirectoryError, Sink};
use tv_device::{Desk, NoWatch};
use tv_files::{MmapDirectory, ReadSource, StdoutSink, read_at_most};
use tv_formats::Memory;

// One byte more than a schema may have, so that a longer one is seen to be too long.
const MOST_OF_A_SCHEMA: u64 = 1_048_577;

/// A place of real folders and files, which says what it has to say on standard output, where lines
/// are told too. `R` is the runtime.
///
/// It tells nothing of schemas, scripts and folders, since other programs may change them at any
/// time. To a contract it is the folder that is lent, and how many calls were refused.
#[derive(Drop)]
pub struct FolderPlace<R: Drop> {
    rt: R,
    alloc: Global,
    out: StdoutSink<R>,
    lent: Option<String>,
    faults: u64,
}

impl<R: Drop> Model for FolderPlace<R> {
    ghost use Rattle.std.specs.Prelude.{option_map, string_bytes};
    ghost use Rattle.tv_replay.specs.FolderPlace.{FolderPlaceState};

    ghost Value = { FolderPlaceState };

    ghost view = { λ p. record { lent = option_map string_bytes p.lent; faults = p.faults } };
}

impl<R: Clone + Drop> FolderPlace<R> {
    /// A place that lends nothing, and of which no call was refused.
    pub fn new(rt: R, alloc: Global) -> Result<FolderPlace<R>, Memory>
        ensures new { IfOk result (λ place. place ≡ record { lent = None; faults = 0 }) }
    {
        let out = StdoutSink::new(rt.clone()?, alloc);
        Ok(FolderPlace {
            rt,
            alloc,
            out,
            lent: None,
            faults: 0,
        })
    }

    // What a directory that is lent needs: the path of its folder, a handle of the runtime, and
    // standard output.
    fn to_lend(&self, folder: &str) -> Result<(String, R, StdoutSink<R>), Memory>
        ensures { IfOk result (λ parts. string_bytes parts.0 ≡ folder.now) }
    {
        let path = String::from_str(self.alloc, folder)?;
        let handle = self.rt.clone()?;
        let sink = StdoutSink::new(self.rt.clone()?, self.alloc);
        Ok((path, handle, sink))
    }
}

impl<R: Drop> FolderPlace<R> {
    // Counts a refused call.
    fn count_refusal(&mut self)
        ensures { self.new ≡ folder_refused self.old }
    {
        self.faults = self.faults.saturating_add(1);
    }

    // Counts a refused call, and makes its fault.
    fn refuse(&mut self) -> IoFault
        ensures { IsDevice result × (self.new ≡ folder_refused self.old) }
    {
        self.count_refusal();
        IoFault {
            kind: IoKind::Device,
            text: String::new(self.alloc),
        }
    }
}

impl<R: Files<File = File> + Print + Clone + Drop> Place for FolderPlace<R> {
    type Out = Desk<MmapDirectory<R, NoWatch>, StdoutSink<R>>;

    type Text = ReadSource<File>;

    ghost told = { record { content = ⊥; said = ⊥ } };

    ghost view = { place_view };

    ghost is_schema_path = { λ path. Unit {0} };

    ghost is_script_path = { λ path. Unit {0} };

    ghost is_folder_path = { λ path. Unit {0} };

    fn schema(&mut self, path: &str) -> Result<Vec<u8>, IoError> {
        match read_at_most(&self.rt, self.alloc, path, MOST_OF_A_SCHEMA) {
            Ok(bytes) => Ok(bytes),
            Err(error) if error.kind() == ErrorKind::OutOfMemory => Err(IoError::Memory),
            Err(_) => Err(IoError::Fault(self.refuse())),
        }
    }

    fn script(&mut self, path: &str) -> Result<ReadSource<File>, IoError> {
        match File::open(&self.rt, path) {
            Ok(file) => Ok(ReadSource::new(self.alloc, file)),
            Err(error) if error.kind() == ErrorKind::OutOfMemory => Err(IoError::Memory),
            Err(_) => Err(IoError::Fault(self.refuse())),
        }
    }

    fn lend(
        &mut self,
        folder: &str,
    ) -> Result<Desk<MmapDirectory<R, NoWatch>, StdoutSink<R>>, OpenDirectoryError> {
        let Ok((lent, rt, sink)) = self.to_lend(folder) else {
            return Err(OpenDirectoryError::Memory);
        };
        match MmapDirectory::open(rt, self.alloc, folder) {
            Ok(directory) => {
                self.lent = Some(lent);
                Ok(Desk::new(self.alloc, directory, sink))
            }
            Err(OpenDirectoryError::Memory) => Err(OpenDirectoryError::Memory),
            Err(error) => {
                self.count_refusal();
                Err(error)
            }
        }
    }

    fn end_script(&mut self, text: ReadSource<File>) {
        if text.faults() > 0 {
            self.count_refusal();
        }
    }

    fn give_back(&mut self, outside: Desk<MmapDirectory<R, NoWatch>, StdoutSink<R>>) {
        drop(outside);
        self.lent = None;
    }

    fn say(&mut self, line: &[u8]) -> Result<(), IoFault> {
        let said = match self.out.put(line) {
            Ok(()) => self.out.put(b"\n"),
            Err(fault) => Err(fault),
        };
        if said.is_err() {
            self.count_refusal();
        }
        said
    }
}
