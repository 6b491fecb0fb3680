//! A runtime some of whose calls fail, and a reader some of whose reads do.
ghost use Rattle.std.specs.Prelude.{◌≤◌, length};

use crate::answers::are_those;
use std::alloc::{AllocError, Allocator, Global};
use std::cell::{Cell, RefCell};
use std::fmt::Display;
use std::fs::{File, Metadata, OpenOptions};
use std::io;
use std::io::ErrorKind;
use std::path::PathBuf;
use std::rc::Rc;
use std::rt::Files;

/// What comes of a call that is to fail.
#[derive(Clone, Copy, Debug)]
pub enum Way {
    /// It is refused.
    Refused,
    /// What it opens or looks at is `/dev/full`, which takes no byte and no sync.
    Full,
}

/// Which calls fail: after so many that are made, so many.
#[derive(Clone, Copy, Debug)]
pub struct Plan {
    pub before: u64,
    pub failing: u64,
    pub way: Way,
}

/// The call of this number is refused, counted from 0 on.
pub fn refused_at(number: u64) -> Plan {
    Plan {
        before: number,
        failing: 1,
        way: Way::Refused,
    }
}

/// So many calls from this number on open or look at `/dev/full`.
pub fn full_from(number: u64, calls: u64) -> Plan {
    Plan {
        before: number,
        failing: calls,
        way: Way::Full,
    }
}

/// The plan of the calls to come, which changes with each call.
pub type Plans = Rc<Cell<Plan>>;

/// A plan by which no call fails.
pub fn no_plan(alloc: Global) -> Result<Plans, AllocError> {
    let plan = Plan {
        before: 0,
        failing: 0,
        way: Way::Refused,
    };
    Ok(Rc::new(alloc, Cell::new(plan))?)
}

/// What was printed.
pub type Said = Rc<RefCell<Vec<u8>>>;

/// Nothing that was printed yet.
pub fn nothing_said(alloc: Global) -> Result<Said, AllocError> {
    Ok(Rc::new(alloc, RefCell::new(Vec::new(alloc)))?)
}

/// Whether this was printed since the last look.
pub fn has_said<R: Eprint>(rt: &R, said: &Said, want: &str) -> bool {
    let Ok(mut said) = said.try_borrow_mut() else {
        return false;
    };
    let is_so = are_those(rt, said.as_slice(), want);
    said.clear();
    is_so
}

/// A runtime whose calls fail by a plan, and what it prints is kept.
#[derive(Drop)]
pub struct Failing<R: Drop> {
    rt: R,
    alloc: Global,
    plans: Plans,
    said: Said,
}

/// A runtime of this plan, over another one.
pub fn failing_by<R: Clone>(
    rt: &R,
    alloc: Global,
    plans: &Plans,
    said: &Said,
) -> Result<Failing<R>, AllocError> {
    let rt = rt.clone()?;
    let plans = plans.clone()?;
    let said = said.clone()?;
    Ok(Failing {
        rt,
        alloc,
        plans,
        said,
    })
}

impl<R: Drop> Failing<R> {
    // Whether the next call is to open or look at `/dev/full`, where it isn't refused.
    fn is_full(&self) -> io::Result<bool> {
        let plan = self.plans.get();
        if plan.before > 0 {
            self.plans.set(Plan {
                before: plan.before - 1,
                ..plan
            });
            return Ok(false);
        }
        if plan.failing == 0 {
            return Ok(false);
        }
        self.plans.set(Plan {
            failing: plan.failing - 1,
            ..plan
        });
        match plan.way {
            Way::Refused => Err(io::Error::other("refused")),
            Way::Full => Ok(true),
        }
    }

    // Fails where the next call is refused.
    fn count(&self) -> io::Result<()> {
        self.is_full()?;
        Ok(())
    }

    fn keep(&self, bytes: &[u8]) -> io::Result<()> {
        let mut said = self.said.try_borrow_mut()?;
        said.extend_from_slice(bytes)?;
        Ok(())
    }
}

impl<R: Clone + Drop> Clone for Failing<R> {
    fn clone(&self) -> Result<Failing<R>, AllocError> {
        failing_by(&self.rt, self.alloc, &self.plans, &self.said)
    }
}

impl<R: Drop> Print for Failing<R> {
    fn print<D: Display + Drop>(&self, value: D) -> io::Result<()> {
        let text = format!(in self.alloc; "{value}")?;
        self.write_all(text.as_bytes())
    }

    fn println<D: Display + Drop>(&self, value: D) -> io::Result<()> {
        let text = format!(in self.alloc; "{value}\n")?;
        self.write_all(text.as_bytes())
    }

    fn write_all(&self, bytes: &[u8]) -> io::Result<()> {
        self.count()?;
        self.keep(bytes)
    }
}

// What takes no byte and no sync.
const FULL: &str = "/dev/full";

impl<R: Files<File = File> + Drop> Files for Failing<R> {
    type File = File;

    type Dir = R::Dir;

    fn open_file(&self, how: &OpenOptions, path: &str) -> io::Result<File> {
        if self.is_full()? {
            return OpenOptions::new()
                .read(true)
                .write(true)
                .open(&self.rt, FULL);
        }
        self.rt.open_file(how, path)
    }

    fn open_dir(&self, path: &str) -> io::Result<R::Dir> {
        self.count()?;
        self.rt.open_dir(path)
    }

    fn metadata(&self, path: &str) -> io::Result<Metadata> {
        let path = if self.is_full()? { FULL } else { path };
        self.rt.metadata(path)
    }

    fn symlink_metadata(&self, path: &str) -> io::Result<Metadata> {
        self.count()?;
        self.rt.symlink_metadata(path)
    }

    fn copy(&self, from: &str, to: &str) -> io::Result<u64> {
        self.count()?;
        self.rt.copy(from, to)
    }

    fn rename(&self, from: &str, to: &str) -> io::Result<()> {
        self.count()?;
        self.rt.rename(from, to)
    }

    fn remove_file(&self, path: &str) -> io::Result<()> {
        self.count()?;
        self.rt.remove_file(path)
    }

    fn create_dir(&self, path: &str) -> io::Result<()> {
        self.count()?;
        self.rt.create_dir(path)
    }

    fn remove_dir(&self, path: &str) -> io::Result<()> {
        self.count()?;
        self.rt.remove_dir(path)
    }

    fn remove_dir_all<B: Allocator>(&self, alloc: B, path: &str) -> io::Result<()> {
        self.count()?;
        self.rt.remove_dir_all(alloc, path)
    }

    fn canonicalize<B: Allocator>(&self, alloc: B, path: &str) -> io::Result<PathBuf<B>> {
        self.count()?;
        self.rt.canonicalize(alloc, path)
    }
}

/// What a read gives: bytes, or an error of this kind.
#[derive(Clone, Copy)]
pub enum Piece {
    Text(&'static str),
    Fails(ErrorKind),
}

/// A reader whose reads give these pieces, one after the other, and nothing after the last.
#[derive(Drop)]
pub struct Pieces {
    pub left: &'static [Piece],
}

impl io::Read for Pieces {
    fn read(&mut self, buf: &mut [u8]) -> io::Result<usize> {
        let Some((first, rest)) = self.left.split_first() else {
            return Ok(0);
        };
        self.left = rest;
        match *first {
            Piece::Text(text) => Ok(fill(buf, text.as_bytes())),
            Piece::Fails(kind) => Err(io::Error::from(kind)),
        }
    }
}

// Puts the bytes into the front of a buffer, as far as there is room, and says how many.
fn fill(buf: &mut [u8], bytes: &[u8]) -> usize
    ensures { result ≤ length buf.old }
{
    let len = buf.len().min(bytes.len());
    buf[..len].copy_from_slice(&bytes[..len]);
    len
}
