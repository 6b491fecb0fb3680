//! A place in memory, for tests.
ghost use Rattle.std.specs.Prelude.{◌≡◌, ◌≤◌, ◌-◌, ◌++◌, [], ◌∷◌, ◌↔◌, List, ℕ, Some, None, IsSome, IsErr, option_map, length, string_bytes, IfOk, IfErr, OnOk};
ghost use Rattle.tv_formats.specs.Names.{at};
ghost use Rattle.tv_base.specs.Causes.{IsDevice};
ghost use Rattle.tv_device.specs.StoredFiles.{named};
ghost use Rattle.tv_replay.specs.BenchPlace.{is_there, kept_in, new_place, bench_refused, FolderCause, TextCause};

use crate::place::Place;
use std::alloc::Global;
use std::marker::Model;
use tv_base::{IoError, IoFault, IoKind, OpenDirectoryError, TextSource};
use tv_device::Outside;
use tv_formats::Memory;

/// A place in memory, which lends its one directory for any folder, or for one folder alone.
#[derive(Drop)]
pub struct BenchPlace<O: Outside + Drop> {
    alloc: Global,
    schemas: Vec<(String, Vec<u8>)>,
    scripts: Vec<(String, Vec<u8>)>,
    // The one folder that is there, or None where every folder is.
    folder: Option<String>,
    // It is here exactly while nothing is lent.
    bench: Option<O>,
    // A folder that is there.
    lent: Option<String>,
    // Has the capacity for `room` bytes.
    said: Vec<u8>,
    room: usize,
    faults: u64,
}

impl<O: Outside + Drop> Model for BenchPlace<O> {
    ghost use Rattle.std.specs.Prelude.{◌≡◌, ◌≤◌, ◌↔◌, List, ℕ, None, Some, true, IsSome, option_map, string_bytes, vec_len, vec_capacity};
    ghost use Rattle.tv_device.specs.StoredFiles.{named};
    ghost use Rattle.tv_replay.specs.BenchPlace.{PlaceState, is_there};

    ghost Value = { PlaceState O };

    ghost view = { λ a. record { schemas = named a.schemas.items; scripts = named a.scripts.items; folder = option_map string_bytes a.folder; bench = a.bench; lent = option_map string_bytes a.lent; said = a.said.items; room = a.room; faults = a.faults } };

    ghost invariant = { λ a. record { bench : IsSome a.bench ↔ (a.lent ≡ None); there : (path : List ℕ) → option_map string_bytes a.lent ≡ Some path → is_there (option_map string_bytes a.folder) path ≡ true; said : vec_len a.said ≤ a.room; capacity : a.room ≤ vec_capacity a.said } };
}

impl<O: Outside + Drop> BenchPlace<O> {
    /// A place with these schemas and scripts, each under its path, and this directory, which it lends
    /// for any folder. Where a path stands in several pairs, the first one counts. At most `room`
    /// bytes can be said. Nothing is lent, nothing was said, and no call was refused.
    pub fn new(
        alloc: Global,
        schemas: Vec<(String, Vec<u8>)>,
        scripts: Vec<(String, Vec<u8>)>,
        bench: O,
        room: usize,
    ) -> Result<BenchPlace<O>, Memory>
        ensures { IfOk result
            (λ place. place ≡ new_place (named schemas.items) (named scripts.items) bench room) }
    {
        match Vec::with_capacity(alloc, room) {
            Ok(said) => Ok(BenchPlace {
                alloc,
                schemas,
                scripts,
                folder: None,
                bench: Some(bench),
                lent: None,
                said,
                room,
                faults: 0,
            }),
            Err(_) => Err(Memory),
        }
    }

    /// The same place, of which this folder alone is there: for any other one a call that lends its
    /// directory is refused.
    pub fn in_folder(self, folder: String) -> BenchPlace<O>
        requires { self.lent ≡ None }
        ensures { result ≡ record self { folder = Some (string_bytes folder) } }
    {
        let mut place = self;
        place.folder = Some(folder);
        place
    }

    /// The directory, where it isn't lent, and what was said. Takes no memory.
    pub fn into_parts(self) -> (O, Vec<u8>)
        requires { self.lent ≡ None }
        ensures bench { self.bench ≡ Some result.0 }
        ensures said { result.1.items ≡ self.said }
    {
        let BenchPlace {
            alloc: _,
            schemas: _,
            scripts: _,
            folder: _,
            bench,
            lent: _,
            said,
            room: _,
            faults: _,
        } = self;
        (bench.unwrap(), said)
    }

    // Whether a folder of this path is there.
    fn has_folder(&self, path: &str) -> bool
        ensures { result ≡ is_there self.now.folder path.now }
    {
        match &self.folder {
            Some(folder) => folder.as_str() == path,
            None => true,
        }
    }

    // Counts a refused call.
    fn count_refusal(&mut self)
        ensures { self.new ≡ bench_refused self.old }
    {
        self.faults = self.faults.saturating_add(1);
    }

    // Counts a refused call, and makes its fault.
    fn refuse(&mut self) -> IoFault
        ensures { IsDevice result × (self.new ≡ bench_refused self.old) }
    {
        self.count_refusal();
        IoFault {
            kind: IoKind::Device,
            text: String::new(self.alloc),
        }
    }
}

// The bytes under a path.
fn bytes_at<'a>(pairs: &'a [(String, Vec<u8>)], path: &str) -> Option<&'a [u8]>
    ensures { option_map (λ bytes. bytes.now) result ≡ at (named pairs.now) path.now }
{
    for (name, bytes) in pairs {
        if name.as_str() == path {
            return Some(bytes.as_slice());
        }
    }
    None
}

impl<O: Outside + Drop> Place for BenchPlace<O> {
    type Out = O;

    type Text = TextSource;

    ghost told = { record { content = Unit {0}; said = Unit {0} } };

    ghost view = { λ p. record { schemas = at p.schemas; scripts = at p.scripts; kept = kept_in p; lent = p.lent; said = p.said; faults = p.faults } };

    ghost is_schema_path = { λ path. Unit {0} };

    ghost is_script_path = { λ path. Unit {0} };

    ghost is_folder_path = { λ path. Unit {0} };

    fn schema(&mut self, path: &str) -> Result<Vec<u8>, IoError>
        ensures bytes { IfOk result (λ bytes. at self.old.schemas path.now ≡ Some bytes.items) }
        ensures answered { OnOk result (self.new ≡ self.old) }
        // Memory is wanted only for bytes that are there.
        ensures faults { IfErr result (TextCause (at self.old.schemas path.now) self.old self.new) }
    {
        match bytes_at(self.schemas.as_slice(), path) {
            Some(bytes) => Ok(Vec::from_slice(self.alloc, bytes)?),
            None => Err(IoError::Fault(self.refuse())),
        }
    }

    fn script(&mut self, path: &str) -> Result<TextSource, IoError>
        ensures text { IfOk result (λ text. at self.old.scripts path.now ≡ Some text.left) }
        ensures fresh { IfOk result
            (λ text. (text.fail_at ≡ []) × (text.call ≡ 0) × (text.faults ≡ 0)) }
        ensures answered { OnOk result (self.new ≡ self.old) }
        // Memory is wanted only for a script that is there.
        ensures faults { IfErr result (TextCause (at self.old.scripts path.now) self.old self.new) }
    {
        match bytes_at(self.scripts.as_slice(), path) {
            Some(bytes) => {
                let text = Vec::from_slice(self.alloc, bytes)?;
                Ok(TextSource::new(text, Vec::new(self.alloc)))
            }
            None => Err(IoError::Fault(self.refuse())),
        }
    }

    fn lend(&mut self, folder: &str) -> Result<O, OpenDirectoryError>
        requires free { self.old.lent ≡ None }
        ensures given { IfOk result (λ bench. kept_in self.old folder.now ≡ Some bench) }
        ensures lends { OnOk result
            (self.new ≡ record self.old { bench = None; lent = Some folder.now }) }
        ensures faults { IfErr result (FolderCause folder.now self.old self.new) }
    {
        let Ok(path) = String::from_str(self.alloc, folder) else {
            return Err(OpenDirectoryError::Memory);
        };
        if !self.has_folder(folder) {
            self.count_refusal();
            return Err(OpenDirectoryError::DoesNotExist(path));
        }
        match self.bench.take() {
            Some(bench) => {
                self.lent = Some(path);
                Ok(bench)
            }
            None => unreachable!(),
        }
    }

    fn end_script(&mut self, text: TextSource)
        ensures none { text.faults ≡ 0 → self.new ≡ self.old }
        ensures some { (text.faults ≡ 0 → ⊥) → self.new ≡ bench_refused self.old }
    {
        if text.faults() > 0 {
            self.count_refusal();
        }
    }

    fn give_back(&mut self, outside: O)
        requires { IsSome self.old.lent }
        ensures back { self.new ≡ record self.old { bench = Some outside; lent = None } }
        // What was lent is kept in its folder again, which is there.
        ensures kept { (path : List ℕ) → self.old.lent ≡ Some path
            → kept_in self.new path ≡ Some outside }
    {
        self.bench = Some(outside);
        self.lent = None;
    }

    fn say(&mut self, line: &[u8]) -> Result<(), IoFault>
        ensures says { OnOk result
            (self.new ≡ record self.old { said = self.old.said ++ line.now ++ 10 ∷ [] }) }
        ensures full { IsErr result ↔ (self.old.room - length self.old.said ≤ length line.now) }
        ensures faults { IfErr result (λ fault. IsDevice fault
            × (self.new ≡ bench_refused self.old)) }
    {
        if self.room - self.said.len() <= line.len() {
            return Err(self.refuse());
        }
        self.said.extend_from_slice(line).unwrap();
        self.said.push(b'\n').unwrap();
        Ok(())
    }
}
