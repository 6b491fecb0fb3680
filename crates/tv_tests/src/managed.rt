//! A managed directory, one call after the other, over a directory that fails.
ghost use Rattle.std.specs.Prelude.{◌≡◌, ◌+◌, ◌<◌, ◌^◌, true, length, OnOk};
ghost use Rattle.tv_formats.specs.Listing.{IsListFile};
ghost use Rattle.tv_formats.specs.Names.{is_file_name};

use crate::empty::{Empty, refusing};
use crate::sealed_files::{Row, takes};
use std::alloc::Global;
use std::collections::BTreeSet;
use std::process::Abort;
use tv_base::{IoError, LockError, MANAGED_FILEPATH, TantivyError, is_plain_name};
use tv_directory::{Directory, meta_lock, what_reads_is_an_image};
use tv_managed::{GarbageCollectionResult, ManagedDirectory, ManagedWriter};
use tv_test_support::{done, reads, told, whole};

/// A call on a file.
#[derive(Clone, Copy)]
pub(crate) enum Call {
    Exists,
    OpenRead,
    GetFileHandle,
    ValidateChecksum,
    AtomicRead,
    AtomicWrite,
    /// The file is made, the text is written and flushed, and the file is sealed. Only the making may be refused.
    Seal,
    Delete,
}

/// What is done with the directory, and what it is to answer: the text that a read gives, or what `Debug` prints.
#[derive(Clone, Copy)]
pub(crate) enum Step {
    /// A call on the file of this name, with a text to write.
    On(Call, &'static str, &'static str, &'static str),
    Sync,
    /// The lock of the readers is busy until it is released.
    Lock,
    /// Somebody is registered, and at once not any more.
    Watch,
    /// There is a notice to deliver, and one alone.
    Deliver,
    /// The stored list.
    List(&'static str),
    /// The managed names, in their order.
    Names(&'static str),
    /// A collection that spares these names.
    Collect(&'static [&'static str], &'static str),
    /// One in steps begins.
    Begin(&'static [&'static str], &'static str),
    /// Which names a collection took and holds, and how many of them are left. None where it isn't unfinished.
    Taken(u64, &'static str),
    /// Which names a collection would take that spares these.
    Spare(&'static [&'static str], &'static str),
    /// The number that the next collection gets.
    Number(&'static str),
    /// The name that a collection tries next.
    Next(u64, &'static str),
    /// A collection tries its next name.
    Try(u64, &'static str),
    /// A collection ends.
    End(u64, &'static str),
    /// No collection is unfinished from now on.
    Forget,
    /// The bytes of a file, and how it reads.
    Footer(&'static Row),
}

// Writes bytes, and flushes them.
fn write_out<D: Directory>(
    managed: &mut ManagedDirectory<D>,
    writer: &mut ManagedWriter<D>,
    bytes: &[u8],
) -> Result<(), IoError>
    requires opened { (D.view managed.old.0).opened writer.old.writer ≡ true }
    requires fits { length (D.state_of writer.old.writer).written + length bytes.now < 2 ^ 64 }
    ensures opened { OnOk result ((D.view managed.new.0).opened writer.new.writer ≡ true) }
{
    managed.write(writer, bytes)?;
    managed.flush(writer)
}

// Writes, flushes and seals a file.
fn fill<D: Directory>(
    managed: &mut ManagedDirectory<D>,
    writer: ManagedWriter<D>,
    bytes: &[u8],
) -> Result<(), IoError>
    requires opened { (D.view managed.old.0).opened writer.writer ≡ true }
    requires fits { length (D.state_of writer.writer).written + length bytes.now < 2 ^ 64 }
{
    let mut writer = writer;
    write_out(managed, &mut writer, bytes)?;
    managed.terminate(writer)
}

fn seal<D: Directory>(
    managed: &mut ManagedDirectory<D>,
    name: &str,
    bytes: &[u8],
) -> Result<(), TantivyError>
    requires name { is_file_name name.now ≡ true }
    requires other { IsListFile name.now → ⊥ }
{
    let writer = managed.open_write(name)?;
    Ok(fill(managed, writer, bytes)?)
}

/// A call, the name of its file, bytes to write, and what it is to answer.
pub(crate) type FileStep<'a> = (Call, &'a str, &'a [u8], &'a str);

// Makes a call on a file of this name, and answers whether it ended as it is to end.
fn take_on<R: Eprint, D: Directory>(
    rt: &R,
    alloc: Global,
    managed: &mut ManagedDirectory<D>,
    step: FileStep<'_>,
) -> bool
    requires name { is_file_name step.1.now ≡ true }
    requires other { IsListFile step.1.now → ⊥ }
{
    let (call, name, bytes, want) = step;
    match call {
        Call::Exists => told(rt, alloc, managed.exists(name), want),
        Call::OpenRead => reads(rt, alloc, whole(managed.open_read(name)), want),
        Call::GetFileHandle => reads(rt, alloc, managed.get_file_handle(name), want),
        Call::ValidateChecksum => told(rt, alloc, managed.validate_checksum(name), want),
        Call::AtomicRead => reads(rt, alloc, managed.atomic_read(name), want),
        Call::AtomicWrite => {
            !managed.is_held(name) && told(rt, alloc, managed.atomic_write(name, bytes), want)
        }
        Call::Seal => told(rt, alloc, seal(managed, name, bytes), want),
        Call::Delete => told(rt, alloc, managed.delete(name), want),
    }
}

/// Makes a call on a file, and answers whether it ended as it is to end.
pub(crate) fn on_file<R: Eprint, D: Directory>(
    rt: &R,
    alloc: Global,
    managed: &mut ManagedDirectory<D>,
    step: FileStep<'_>,
) -> bool {
    let (_call, name, _bytes, _want) = step;
    is_plain_name(name) && name != MANAGED_FILEPATH && take_on(rt, alloc, managed, step)
}

// What a lock answers that is taken and not yet released.
fn lock<R: Abort, D: Directory>(
    rt: &R,
    managed: &mut ManagedDirectory<D>,
) -> Result<(), LockError> {
    let token = managed.acquire_lock(&meta_lock()).expect(rt, "a free lock");
    let again = done(managed.acquire_lock(&meta_lock()));
    managed.release(token);
    again
}

fn watch<R: Abort, D: Empty>(rt: &R, managed: &mut ManagedDirectory<D>) {
    let handle = managed.watch(D::nobody()).expect(rt, "memory");
    managed.unwatch(handle);
}

fn set_of<R: Abort>(rt: &R, alloc: Global, names: &[&str]) -> BTreeSet<String> {
    let mut set = BTreeSet::new(alloc);
    for name in names {
        let name = String::from_str(alloc, name).expect(rt, "memory");
        set.insert(name).expect(rt, "memory");
    }
    set
}

/// A collection that spares these names.
pub(crate) fn collect<R: Abort, D: Directory>(
    rt: &R,
    managed: &mut ManagedDirectory<D>,
    alloc: Global,
    living: &[&str],
) -> Result<GarbageCollectionResult, TantivyError> {
    let living = set_of(rt, alloc, living);
    managed.garbage_collect(|| living)
}

// Begins a collection in steps that spares these names.
fn begin<R: Abort, D: Directory>(
    rt: &R,
    managed: &mut ManagedDirectory<D>,
    alloc: Global,
    living: &[&str],
) -> Result<u64, TantivyError> {
    let living = set_of(rt, alloc, living);
    managed.collect_begin(&living)
}

// Whether each name that a collection took is held.
fn holds_taken<D: Directory>(managed: &ManagedDirectory<D>, id: u64) -> bool {
    match managed.collect_names(id) {
        Some(taken) => taken.iter().all(|name| managed.is_held(name.as_str())),
        None => true,
    }
}

// Whether a collection took and holds these names, and has so many left.
fn has_taken<R: Eprint, D: Directory>(
    rt: &R,
    alloc: Global,
    managed: &ManagedDirectory<D>,
    id: u64,
    want: &str,
) -> bool {
    let taken = (managed.collect_names(id), managed.collect_left(id));
    told(rt, alloc, taken, want) && holds_taken(managed, id)
}

// Whether a collection that spares these names would take those that it is to.
fn spares<R: Abort + Eprint, D: Directory>(
    rt: &R,
    alloc: Global,
    managed: &ManagedDirectory<D>,
    living: &[&str],
    want: &str,
) -> bool {
    let living = set_of(rt, alloc, living);
    told(rt, alloc, managed.collectable(&living), want)
}

// Whether this is the name that a collection tries next.
fn is_next<R: Eprint, D: Directory>(
    rt: &R,
    alloc: Global,
    managed: &ManagedDirectory<D>,
    id: u64,
    want: &str,
) -> bool {
    match managed.collect_left(id) {
        None | Some(0) => false,
        Some(_) => told(rt, alloc, managed.collect_next(id), want),
    }
}

// Whether a collection tries its next name as it is to.
fn tries<R: Eprint, D: Directory>(
    rt: &R,
    alloc: Global,
    managed: &mut ManagedDirectory<D>,
    id: u64,
    want: &str,
) -> bool {
    match managed.collect_left(id) {
        None | Some(0) => false,
        Some(_) => told(rt, alloc, managed.collect_delete(id), want),
    }
}

// Whether a collection ends as it is to.
fn finishes<R: Eprint, D: Directory>(
    rt: &R,
    alloc: Global,
    managed: &mut ManagedDirectory<D>,
    id: u64,
    want: &str,
) -> bool {
    match managed.collect_left(id) {
        None => false,
        Some(_) => told(rt, alloc, managed.collect_end(id), want),
    }
}

fn take<R: Abort + Eprint, D: Empty>(
    rt: &R,
    alloc: Global,
    managed: &mut ManagedDirectory<D>,
    step: Step,
) -> bool {
    match step {
        Step::On(call, name, text, want) => {
            on_file(rt, alloc, managed, (call, name, text.as_bytes(), want))
        }
        Step::Sync => told(rt, alloc, managed.sync_directory(), "Ok(())"),
        Step::Lock => told(rt, alloc, lock(rt, managed), "Err(LockBusy)"),
        Step::Watch => told(rt, alloc, watch(rt, managed), "()"),
        Step::Deliver => managed.deliver() && !managed.deliver(),
        Step::List(want) => reads(rt, alloc, managed.atomic_read(MANAGED_FILEPATH), want),
        Step::Names(want) => told(rt, alloc, managed.list_managed_files(), want),
        Step::Collect(living, want) => {
            told(rt, alloc, collect(rt, managed, alloc, living), want)
        }
        Step::Begin(living, want) => told(rt, alloc, begin(rt, managed, alloc, living), want),
        Step::Taken(id, want) => has_taken(rt, alloc, managed, id, want),
        Step::Spare(living, want) => spares(rt, alloc, managed, living, want),
        Step::Number(want) => told(rt, alloc, managed.next_collection(), want),
        Step::Next(id, want) => is_next(rt, alloc, managed, id, want),
        Step::Try(id, want) => tries(rt, alloc, managed, id, want),
        Step::End(id, want) => finishes(rt, alloc, managed, id, want),
        Step::Forget => told(rt, alloc, managed.forget_collections(), "()"),
        Step::Footer(row) => takes(rt, alloc, managed, *row),
    }
}

/// Takes the steps, each of which is to end as it says.
pub(crate) fn take_all<R: Abort + Eprint, D: Empty>(
    rt: &R,
    alloc: Global,
    managed: &mut ManagedDirectory<D>,
    steps: &[Step],
) {
    for (number, step) in steps.iter().enumerate() {
        assert!(rt;
            take(rt, alloc, managed, *step),
            "step {number} ends otherwise"
        );
    }
}

/// The managed directory over this one.
pub(crate) fn wrapped<R: Abort, D: Empty>(
    rt: &R,
    alloc: Global,
    directory: D,
) -> ManagedDirectory<D> {
    match ManagedDirectory::wrap(alloc, directory) {
        Ok(managed) => managed,
        Err(_) => panic!(rt; "it is wrapped"),
    }
}

/// Takes the steps in the managed directory over this one, behind those that are given.
pub(crate) fn taken<R: Abort + Eprint, D: Empty>(
    rt: &R,
    alloc: Global,
    directory: D,
    given: &[Step],
    steps: &[Step],
) -> D {
    let mut managed = wrapped(rt, alloc, directory);
    take_all(rt, alloc, &mut managed, given);
    take_all(rt, alloc, &mut managed, steps);
    managed.images_list_their_files();
    managed.into_directory()
}

/// The calls of the device that are refused, what is done in a directory without files before and then, and how many
/// of the refused calls aren't deletes.
pub(crate) type Run = (&'static [u64], &'static [Step], &'static [Step], u64);

fn take_run<R: Abort + Eprint>(rt: &R, alloc: Global, run: Run) {
    let (refused, given, steps, faults) = run;
    let empty = refusing(rt, alloc, Vec::new(alloc), refused);
    let bench = taken(rt, alloc, empty, given, steps);
    what_reads_is_an_image(&bench);
    assert!(rt; bench.faults() == faults, "where {refused:?} are refused");
}

/// Takes each run in a directory of its own.
pub(crate) fn take_runs<R: Abort + Eprint>(rt: &R, alloc: Global, runs: &[Run]) {
    for run in runs {
        take_run(rt, alloc, *run);
    }
}

// The checksum of `123456789` is CBF43926.
const SEALED: &str =
    "123456789{\"version\":{\"major\":0,\"minor\":26,\"patch\":2,\"index_format_version\":7},\"crc\":3421780262}\x56\x00\x00\x00\x39\x05\x00\x00";

const ABSENT: &str = r#"Err(FileDoesNotExist("a.idx"))"#;

const FILES: &[Step] = &[
    Step::On(Call::Exists, "a.idx", "", "Ok(false)"),
    Step::On(Call::OpenRead, "a.idx", "", ABSENT),
    Step::On(Call::GetFileHandle, "a.idx", "", ABSENT),
    Step::On(Call::ValidateChecksum, "a.idx", "", ABSENT),
    Step::On(Call::AtomicRead, "a.idx", "", ABSENT),
    Step::On(Call::Delete, "a.idx", "", ABSENT),
    Step::On(Call::Seal, "a.idx", "123456789", "Ok(())"),
    Step::On(
        Call::Seal,
        "a.idx",
        "new",
        r#"Err(OpenWriteError(FileAlreadyExists("a.idx")))"#,
    ),
    Step::List("[\"a.idx\"]\n"),
    Step::On(Call::GetFileHandle, "a.idx", "", "123456789"),
    Step::On(Call::AtomicRead, "a.idx", "", SEALED),
    Step::On(Call::AtomicWrite, "meta.json", "{}", "Ok(())"),
    Step::Sync,
    Step::On(Call::Exists, "meta.json", "", "Ok(true)"),
    Step::List("[\"a.idx\",\"meta.json\"]\n"),
    Step::Names(r#"{"a.idx", "meta.json"}"#),
    Step::On(Call::Delete, "a.idx", "", "Ok(())"),
    Step::On(Call::Exists, "a.idx", "", "Ok(false)"),
    // A deleted file stays managed.
    Step::Names(r#"{"a.idx", "meta.json"}"#),
    Step::Lock,
    Step::Lock,
    Step::Watch,
    Step::On(Call::AtomicWrite, "meta.json", "{}", "Ok(())"),
    Step::Deliver,
    Step::On(Call::Exists, "meta.json", "", "Ok(true)"),
];

// What the making of the file answers where it, or the registration of its name, is refused.
const UNMADE: &str =
    r#"Err(OpenWriteError(IoError { io_error: IoFault { kind: Device, text: "" }, filepath: "a.idx" }))"#;

// A name is registered by a write of the list and a sync.
const REFUSED: &[Step] = &[
    Step::On(
        Call::AtomicWrite,
        "a.idx",
        "new",
        r#"Err(Fault(IoFault { kind: Device, text: "" }))"#,
    ),
    Step::Names("{}"),
    Step::On(Call::Seal, "a.idx", "", UNMADE),
    Step::Names("{}"),
    // Only the sync was refused.
    Step::List("[\"a.idx\"]\n"),
    Step::On(Call::Seal, "a.idx", "", UNMADE),
    // The name was registered before the making of the file was refused.
    Step::Names(r#"{"a.idx"}"#),
    Step::On(Call::Exists, "a.idx", "", "Ok(false)"),
    Step::On(Call::Seal, "a.idx", "123456789", "Ok(())"),
    Step::On(Call::GetFileHandle, "a.idx", "", "123456789"),
];

// In the second run the calls of the device are: a read of the list; a write of it; whether the file is there, a write
// of the list, and a sync; a read of the list; whether the file is there, a write of the list, a sync, and the making.
const RUNS: &[Run] = &[(&[], &[], FILES, 0), (&[1, 4, 9], &[], REFUSED, 3)];

#[test]
fn files_are_listed_and_sealed(rt: HostRuntime) {
    take_runs(&rt, rt.alloc(), RUNS);
}
