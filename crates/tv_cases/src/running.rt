//! Runs over a directory in memory, whose device refuses calls, of a script that comes in pieces.
ghost use Rattle.std.specs.Prelude.{◌≡◌, None, IfOk, IfSome, true};
ghost use Rattle.tv_formats.specs.Names.{is_file_name};

use crate::case::{Given, Locks};
use anyhow::Context;
use std::alloc::Global;
use tv_base::{IoFault, IoKind, LockError, MANAGED_FILEPATH, OpenReadError, Source, is_plain_name};
use tv_directory::{Bench, Directory, Lock, NoWatch, index_writer_lock, meta_lock};
use tv_replay::{BenchPlace, run};

/// What a run answered, told and said, and what it left.
#[derive(Drop)]
pub(crate) struct Seen {
    pub(crate) status: u8,
    pub(crate) told: Vec<u8>,
    pub(crate) said: Vec<u8>,
    pub(crate) faults: u64,
    pub(crate) refusals: u64,
    pub(crate) held: Locks,
    pub(crate) asked: usize,
}

/// How a run is made: the number of its first call in the device's own count, which calls are refused, counted
/// from the run on, and the length of the pieces in which the script comes.
#[derive(Clone, Copy)]
pub(crate) struct Manner<'a> {
    pub(crate) mark: u64,
    pub(crate) refuse: &'a [u64],
    pub(crate) piece: usize,
}

// What was told and counted before a run.
#[derive(Clone, Copy)]
struct Before {
    told: usize,
    faults: u64,
    refusals: u64,
}

// How many bytes a run can say.
const ROOM: usize = 4096;

// The schema of a text field.
const SCHEMA: &str =
    r#"[{"name":"text","type":"text","options":{"indexing":{"record":"position","fieldnorms":true,"tokenizer":"default"},"stored":false,"fast":false}}]"#;

// Adds a schema under its path.
fn push_schema(
    alloc: Global,
    schemas: &mut Vec<(String, Vec<u8>)>,
    path: &str,
    bytes: &[u8],
) -> anyhow::Result<()> {
    schemas.push(schema(alloc, path, bytes)?)?;
    Ok(())
}

// A schema, and its path.
fn schema(alloc: Global, path: &str, bytes: &[u8]) -> anyhow::Result<(String, Vec<u8>)> {
    let path = String::from_str(alloc, path)?;
    Ok((path, Vec::from_slice(alloc, bytes)?))
}

// The schemas of a run, each under its path, of which the first one counts.
fn schemas(alloc: Global, given: &Given) -> anyhow::Result<Vec<(String, Vec<u8>)>> {
    let mut schemas = Vec::new(alloc);
    for (path, bytes) in given.schemas.iter() {
        push_schema(alloc, &mut schemas, path.as_str(), bytes.as_slice())?;
    }
    push_schema(alloc, &mut schemas, "S", SCHEMA.as_bytes())?;
    Ok(schemas)
}

// A place with this directory.
fn place(alloc: Global, bench: CaseBench, given: &Given) -> anyhow::Result<BenchPlace<CaseBench>>
    ensures { IfOk result (λ place. place.lent ≡ None) }
{
    let schemas = schemas(alloc, given)?;
    let place = place_with(alloc, bench, schemas)?;
    in_folder(alloc, place, given)
}

// The same place, where the run has one folder alone.
fn in_folder(
    alloc: Global,
    place: BenchPlace<CaseBench>,
    given: &Given,
) -> anyhow::Result<BenchPlace<CaseBench>>
    requires { place.lent ≡ None }
    ensures { IfOk result (λ place. place.lent ≡ None) }
{
    match &given.folder {
        Some(folder) => Ok(place.in_folder(String::from_str(alloc, folder.as_str())?)),
        None => Ok(place),
    }
}

// A place with this directory and these schemas.
fn place_with(
    alloc: Global,
    bench: CaseBench,
    schemas: Vec<(String, Vec<u8>)>,
) -> anyhow::Result<BenchPlace<CaseBench>>
    ensures { IfOk result (λ place. place.lent ≡ None) }
{
    match BenchPlace::new(alloc, schemas, Vec::new(alloc), bench, ROOM) {
        Ok(place) => Ok(place),
        Err(_) => Err(anyhow::anyhow!("memory is wanted")),
    }
}

// Runs the words over a place with this directory: the status, what was said, and the directory.
fn run_over(
    alloc: Global,
    bench: CaseBench,
    given: &Given,
    script: &mut Pieces,
) -> anyhow::Result<(u8, Vec<u8>, CaseBench)> {
    let place = place(alloc, bench, given)?;
    Ok(run_at(alloc, place, given.words.as_slice(), script))
}

// The same at a place.
fn run_at(
    alloc: Global,
    place: BenchPlace<CaseBench>,
    words: &[String],
    script: &mut Pieces,
) -> (u8, Vec<u8>, CaseBench)
    requires { place.lent ≡ None }
{
    let mut place = place;
    let status = run(alloc, words, &mut place, script);
    let (bench, said) = place.into_parts();
    (status, said, bench)
}

// What was told to a directory.
fn heard(bench: &CaseBench) -> anyhow::Result<Vec<u8>> {
    match bench.heard_lines() {
        Ok(bytes) => Ok(bytes),
        Err(_) => Err(anyhow::anyhow!("memory is wanted")),
    }
}

// Makes the directory what the run begins with.
fn begin(
    alloc: Global,
    bench: &mut CaseBench,
    given: &Given,
    manner: Manner,
) -> anyhow::Result<Before> {
    for (name, bytes) in given.files.iter() {
        write(bench, name.as_str(), bytes.as_slice())?;
    }
    hold_all(bench, given.holds)?;
    refuse_from_now_on(alloc, bench, manner.mark, manner.refuse)?;
    Ok(Before {
        told: heard(bench)?.len(),
        faults: bench.faults(),
        refusals: bench.refusals(),
    })
}

// What was told since.
fn told_since(alloc: Global, bench: &CaseBench, before: Before) -> anyhow::Result<Vec<u8>> {
    let all = heard(bench)?;
    rest_of(alloc, all.as_slice(), before.told)
}

// The bytes from this one on.
fn rest_of(alloc: Global, bytes: &[u8], from: usize) -> anyhow::Result<Vec<u8>> {
    let rest = bytes.get(from..).unwrap_or(b"");
    Ok(Vec::from_slice(alloc, rest)?)
}

/// Makes a run over a directory, which is handed back.
pub(crate) fn observe(
    alloc: Global,
    bench: CaseBench,
    given: &Given,
    manner: Manner,
) -> anyhow::Result<(Seen, CaseBench)> {
    let mut bench = bench;
    let before = begin(alloc, &mut bench, given, manner)?;
    let reads = given.refuse_reads.as_slice();
    let mut script = Pieces::new(alloc, given.script.as_slice(), manner.piece, reads);
    let (status, said, bench) = run_over(alloc, bench, given, &mut script)?;
    look(alloc, bench, before, status, said, script.most())
}

// Looks at a directory after a run.
fn look(
    alloc: Global,
    bench: CaseBench,
    before: Before,
    status: u8,
    said: Vec<u8>,
    asked: usize,
) -> anyhow::Result<(Seen, CaseBench)> {
    let mut bench = bench;
    let seen = Seen {
        status,
        told: told_since(alloc, &bench, before)?,
        said,
        faults: bench.faults().saturating_sub(before.faults),
        refusals: bench.refusals().saturating_sub(before.refusals),
        held: held(alloc, &mut bench)?,
        asked,
    };
    Ok((seen, bench))
}

pub(crate) type CaseBench = Bench<NoWatch>;

// No call of the device was to be refused.
fn refused() -> anyhow::Error {
    anyhow::anyhow!("the directory refuses a call of the runner")
}

/// An empty directory.
pub(crate) fn empty(alloc: Global) -> anyhow::Result<CaseBench> {
    match Bench::new(alloc, Vec::new(alloc)) {
        Ok(bench) => Ok(bench),
        Err(_) => Err(anyhow::anyhow!("memory is wanted")),
    }
}

// A name that a file can have.
fn checked(name: &str) -> anyhow::Result<&str>
    ensures { IfOk result (λ name. is_file_name name.now ≡ true) }
{
    file_name(name).context(format_args!("no file has the name \"{name}\""))
}

// The same name, if a file can have it.
fn file_name(name: &str) -> Option<&str>
    ensures { IfSome result (λ name. is_file_name name.now ≡ true) }
{
    if name == MANAGED_FILEPATH {
        return Some(MANAGED_FILEPATH);
    }
    if is_plain_name(name) {
        return Some(name);
    }
    None
}

// Gives a name these bytes.
fn write<D: Directory>(directory: &mut D, name: &str, bytes: &[u8]) -> anyhow::Result<()> {
    let name = checked(name)?;
    match directory.atomic_write(name, bytes) {
        Ok(()) => Ok(()),
        Err(_) => Err(refused()),
    }
}

/// What a name reads, or None where there is no such file.
pub(crate) fn read<D: Directory>(directory: &mut D, name: &str) -> anyhow::Result<Option<Vec<u8>>> {
    let name = checked(name)?;
    match directory.atomic_read(name) {
        Ok(bytes) => Ok(Some(bytes)),
        Err(OpenReadError::FileDoesNotExist(_)) => Ok(None),
        Err(_) => Err(refused()),
    }
}

// Takes a lock for good.
fn hold<D: Directory>(directory: &mut D, lock: &Lock) -> anyhow::Result<()>
    requires { is_file_name lock.now.filepath.now ≡ true }
{
    match directory.acquire_lock(lock) {
        Ok(_token) => Ok(()),
        Err(_) => Err(refused()),
    }
}

// Takes these locks for good.
fn hold_all<D: Directory>(directory: &mut D, locks: Locks) -> anyhow::Result<()> {
    if locks.writer {
        hold(directory, &index_writer_lock())?;
    }
    if locks.meta {
        hold(directory, &meta_lock())?;
    }
    Ok(())
}

// Whether the lock is held. The device refuses no call.
fn is_held<D: Directory>(directory: &mut D, lock: &Lock) -> anyhow::Result<bool>
    requires { is_file_name lock.now.filepath.now ≡ true }
{
    match directory.acquire_lock(lock) {
        Ok(token) => {
            directory.release(token);
            Ok(false)
        }
        Err(LockError::LockBusy) => Ok(true),
        Err(_) => Err(refused()),
    }
}

// Which locks are held. From now on the device refuses no call.
fn held(alloc: Global, bench: &mut CaseBench) -> anyhow::Result<Locks> {
    bench.fail_at(Vec::new(alloc));
    Ok(Locks {
        writer: is_held(bench, &index_writer_lock())?,
        meta: is_held(bench, &meta_lock())?,
    })
}

// Makes calls that change nothing until the next one has this number, which isn't 0.
fn count_to(alloc: Global, bench: &mut CaseBench, number: u64) -> anyhow::Result<()> {
    refuse_call(alloc, bench, number.saturating_sub(1))?;
    for _ in 0..number {
        if is_refused(bench)? {
            return Ok(());
        }
    }
    anyhow::bail!("there were too many calls before the run")
}

// From now on the device refuses the call with this number alone.
fn refuse_call(alloc: Global, bench: &mut CaseBench, call: u64) -> anyhow::Result<()> {
    bench.fail_at(Vec::from_slice(alloc, &[call])?);
    Ok(())
}

// Makes a call that changes nothing. Whether it is refused.
fn is_refused<D: Directory>(directory: &mut D) -> anyhow::Result<bool> {
    match directory.exists(MANAGED_FILEPATH) {
        Ok(_) => Ok(false),
        Err(OpenReadError::IoError { .. }) => Ok(true),
        Err(_) => Err(anyhow::anyhow!("memory is wanted")),
    }
}

// From now on the device refuses the calls with these numbers, which are counted from now on. The next call
// gets the number `mark`, which isn't 0, in the device's own count.
fn refuse_from_now_on(
    alloc: Global,
    bench: &mut CaseBench,
    mark: u64,
    refuse: &[u64],
) -> anyhow::Result<()> {
    if refuse.is_empty() {
        return Ok(());
    }
    count_to(alloc, bench, mark)?;
    let mut calls = Vec::new(alloc);
    for call in refuse {
        calls.push(call.saturating_add(mark))?;
    }
    bench.fail_at(calls);
    Ok(())
}

// A script that comes in pieces of some length at most.
#[derive(Drop)]
struct Pieces<'a> {
    alloc: Global,
    text: &'a [u8],
    piece: usize,
    refuse: &'a [u64],
    call: u64,
    // How many bytes of the line in progress were read.
    begun: usize,
    // The most bytes that a line in progress would have after a read of all that was asked for.
    most: usize,
    faults: u64,
}

impl<'a> Pieces<'a> {
    /// All of a text. The reads with these numbers are refused.
    pub(crate) fn new(
        alloc: Global,
        text: &'a [u8],
        piece: usize,
        refuse: &'a [u64],
    ) -> Pieces<'a> {
        Pieces {
            alloc,
            text,
            piece,
            refuse,
            call: 0,
            begun: 0,
            most: 0,
            faults: 0,
        }
    }

    /// The most bytes that a line in progress would have after a read of all that was asked for.
    pub(crate) fn most(&self) -> usize {
        self.most
    }
}

// How many bytes of the line in progress were read, after one more piece.
fn in_progress(begun: usize, piece: &[u8]) -> usize {
    let mut count = begun;
    for byte in piece {
        count = if *byte == b'\n' {
            0
        } else {
            count.saturating_add(1)
        };
    }
    count
}

impl Source for Pieces<'_> {
    ghost view = { λ s. record { left = None; faults = s.faults } };

    fn read(&mut self, into: &mut [u8]) -> Result<usize, IoFault> {
        let number = self.call;
        self.call = number.saturating_add(1);
        if self.refuse.contains(&number) {
            self.faults = self.faults.saturating_add(1);
            return Err(IoFault {
                kind: IoKind::Device,
                text: String::new(self.alloc),
            });
        }
        self.most = self.most.max(self.begun.saturating_add(into.len()));
        let len = self.piece.min(into.len()).min(self.text.len());
        let (piece, rest) = self.text.split_at(len);
        into[..len].copy_from_slice(piece);
        self.text = rest;
        self.begun = in_progress(self.begun, piece);
        Ok(len)
    }
}
