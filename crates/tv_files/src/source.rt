//! Standard input and files as sources of scripts.
ghost use Rattle.std.specs.Prelude.{◌≡◌, ◌≤◌, None, length, IfSome};

use std::alloc::Global;
use std::io;
use std::io::ErrorKind;
use tv_base::{IoFault, IoKind, Source};

/// A reader as a source, whose bytes nobody knows before.
#[derive(Drop)]
pub struct ReadSource<T: io::Read + Drop> {
    alloc: Global,
    reader: T,
    faults: u64,
}

impl<T: io::Read + Drop> ReadSource<T> {
    /// A source of what this reader gives, none of whose reads was refused yet. Takes no memory.
    pub fn new(alloc: Global, reader: T) -> ReadSource<T>
        ensures quiet { result.faults ≡ 0 }
    {
        ReadSource {
            alloc,
            reader,
            faults: 0,
        }
    }

    /// How many reads were refused. Takes no memory.
    pub fn faults(&self) -> u64
        ensures count { result ≡ self.now.faults }
    {
        self.faults
    }
}

impl<T: io::Read + Drop> Source for ReadSource<T> {
    ghost view = { λ s. record { left = None; faults = s.faults } };

    fn read(&mut self, into: &mut [u8]) -> Result<usize, IoFault> {
        match read_uninterrupted(&mut self.reader, into) {
            Some(n) => Ok(n),
            None => {
                self.faults = self.faults.saturating_add(1);
                Err(IoFault {
                    kind: IoKind::Device,
                    text: String::new(self.alloc),
                })
            }
        }
    }
}

// Reads once more after each signal. None where the system refused it.
fn read_uninterrupted<T: io::Read>(reader: &mut T, into: &mut [u8]) -> Option<usize>
    ensures { IfSome result (λ n. n ≤ length into.old) }
{
    for _ in 0..u64::MAX {
        match reader.read(into) {
            Ok(n) => return Some(n),
            Err(error) if error.kind() == ErrorKind::Interrupted => {}
            Err(_) => return None,
        }
    }
    None
}

/// Standard input as a source.
#[derive(Drop)]
pub struct StdinSource<R: Input> {
    source: ReadSource<R::Reader>,
}

impl<R: Input> StdinSource<R> {
    /// Standard input, none of whose reads was refused yet. Takes no memory.
    pub fn new(rt: &R, alloc: Global) -> StdinSource<R>
        ensures quiet { result.source.faults ≡ 0 }
    {
        StdinSource {
            source: ReadSource::new(alloc, rt.reader()),
        }
    }
}

impl<R: Input> Source for StdinSource<R> {
    ghost view = { λ s. record { left = None; faults = s.source.faults } };

    fn read(&mut self, into: &mut [u8]) -> Result<usize, IoFault> {
        self.source.read(into)
    }
}
