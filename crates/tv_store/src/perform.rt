//! Actions are performed: every call on the files that a planned event makes.
ghost use Rattle.std.specs.Prelude.{◌≡◌, ◌≤◌, true, false, if◌then◌else◌, length, map, string_bytes, [], vec_len, vec_capacity, IfOk, IfSome, IsSome};
ghost use Rattle.std.specs.List.{AllByRecursion};
ghost use Rattle.tv_device.specs.Images.{KeepsDisk};
ghost use Rattle.tv_device.specs.View.{OnlyReads};
ghost use Rattle.tv_formats.specs.Collections.{collection_at};
ghost use Rattle.tv_formats.specs.Names.{at, has, meta_name};
ghost use Rattle.tv_machine.specs.Index.{IsFileOf};
ghost use Rattle.tv_machine.specs.Living.{is_busy};
ghost use Rattle.tv_machine.specs.State.{Catalog, State};
ghost use Rattle.tv_catalog.specs.Actions.{MayGive, first_open, reply_in};
ghost use Rattle.tv_catalog.specs.Kept.{HasUntried};
ghost use Rattle.tv_store.specs.Durable.{PerformsSafely};
ghost use Rattle.tv_store.specs.Kept.{kept_of};
ghost use Rattle.tv_store.specs.Performing.{FilesHold, Performs};
ghost use Rattle.tv_catalog.specs.Plans.{IsSegmentFile, TakesMore, CanPerform};
ghost use Rattle.tv_store.specs.Stays.{EventFaults, KeepsFiles};
ghost use Rattle.tv_catalog.specs.declared.action.Action.TheVariants as actions;

use crate::files::StoreFiles;
use crate::loading::{load, read_files};
use std::alloc::Global;
use std::collections::BTreeSet;
use tv_base::TantivyError;
use tv_catalog::action::{Action, FileNames, Reply};
use tv_device::Outside;
use tv_formats::FileName;
use tv_machine::Blob;
use tv_snapshots::commit::Commit;

// An empty file is made, unless its name is taken.
fn make<O: Outside>(files: &mut StoreFiles<O>, name: FileName) -> Result<Reply, TantivyError>
    requires { IsSegmentFile name }
    ensures performs { Performs O.Directory (actions.Make name) files.old files.new result }
    ensures images { PerformsSafely O.Directory (actions.Make name) files.old files.new result }
{
    if files.open(name)? {
        Ok(Reply::Done)
    } else {
        Ok(Reply::Taken)
    }
}

// Bytes are added to an open file.
fn append<O: Outside>(
    files: &mut StoreFiles<O>,
    name: FileName,
    bytes: &Blob,
) -> Result<Reply, TantivyError>
    requires name { IsSegmentFile name }
    requires open { TakesMore files.old.open_files name (length bytes.now) }
    ensures performs { Performs O.Directory (actions.Append name bytes.entry)
        files.old files.new result }
    ensures images { PerformsSafely O.Directory (actions.Append name bytes.entry)
        files.old files.new result }
{
    files.write(&name, bytes.as_slice())?;
    Ok(Reply::Done)
}

// An open file is sealed.
fn seal<O: Outside>(files: &mut StoreFiles<O>, name: FileName) -> Result<Reply, TantivyError>
    requires name { IsSegmentFile name }
    requires open { IsSome (at files.old.open_files name) }
    ensures performs { Performs O.Directory (actions.Seal name) files.old files.new result }
    ensures images { PerformsSafely O.Directory (actions.Seal name) files.old files.new result }
{
    files.seal(name)?;
    Ok(Reply::Done)
}

// The open ones of these files are left.
fn leave<O: Outside>(files: &mut StoreFiles<O>, names: Vec<FileName>) -> Result<Reply, TantivyError>
    ensures performs { Performs O.Directory (actions.Leave names) files.old files.new result }
    ensures images { PerformsSafely O.Directory (actions.Leave names) files.old files.new result }
{
    files.leave(names)?;
    Ok(Reply::Done)
}

// The first of these files that isn't sealed. Those before it are known from then on.
fn first_unsealed<O: Outside>(
    files: &mut StoreFiles<O>,
    names: Vec<FileName>,
) -> Result<Option<FileName>, TantivyError>
    requires { AllByRecursion IsFileOf names.items }
    ensures found { O.told.content → (s : State) → FilesHold O.Directory files.old s
        → AllByRecursion IsFileOf names.items
        → IfOk result (λ found. found ≡ first_open s names.items) }
    ensures among { IfOk result (λ found. IfSome found (λ name. has names.items name ≡ true)) }
    ensures faults { EventFaults ⊥ (O.view files.old.outside) (O.view files.new.outside) result }
    ensures frame { KeepsFiles (OnlyReads O.told) O.view files.old files.new }
    ensures images { O.tells_images
        → KeepsDisk (O.disk files.old.outside) (O.disk files.new.outside) }
{
    for name in names {
        if !files.is_sealed(&name)? {
            return Ok(Some(name));
        }
        files.remember(name);
    }
    Ok(None)
}

// A commit becomes the current one, whose text this is, if these files are sealed.
fn save<O: Outside>(
    files: &mut StoreFiles<O>,
    commit: Commit,
    text: Vec<u8>,
    required: Vec<FileName>,
) -> Result<Reply, TantivyError>
    requires { (catalog : Catalog) × CanPerform (kept_of catalog files.old)
        (actions.Save commit text required) }
    ensures performs { Performs O.Directory (actions.Save commit text required)
        files.old files.new result }
    ensures images { PerformsSafely O.Directory (actions.Save commit text required)
        files.old files.new result }
{
    if let Some(name) = first_unsealed(files, required)? {
        return Ok(Reply::Unsealed(name));
    }
    files.save_meta(text.as_slice())?;
    Ok(Reply::Saved(commit))
}

// The managed files are deleted that aren't among these, and that no unfinished collection holds.
fn collect<O: Outside>(
    alloc: Global,
    files: &mut StoreFiles<O>,
    living: BTreeSet<String>,
) -> Result<Reply, TantivyError>
    requires { has (map string_bytes living.keys) meta_name ≡ true }
    ensures performs { Performs O.Directory (actions.Collect living) files.old files.new result }
    ensures images { PerformsSafely O.Directory (actions.Collect living)
        files.old files.new result }
{
    let collected = files.collect(alloc, living)?;
    Ok(Reply::Collected(collected))
}

// A collection begins of the managed files that aren't among these, and that no unfinished one holds.
fn begin<O: Outside>(
    files: &mut StoreFiles<O>,
    living: BTreeSet<String>,
) -> Result<Reply, TantivyError>
    requires { has (map string_bytes living.keys) meta_name ≡ true }
    ensures performs { Performs O.Directory (actions.Begin living) files.old files.new result }
    ensures images { PerformsSafely O.Directory (actions.Begin living) files.old files.new result }
{
    files.collect_begin(&living)?;
    Ok(Reply::Done)
}

// The first name that a collection has left is tried.
fn try_next<O: Outside>(files: &mut StoreFiles<O>, number: u64) -> Result<Reply, TantivyError>
    requires { HasUntried files.old.collections number }
    ensures performs { Performs O.Directory (actions.Try number) files.old files.new result }
    ensures images { PerformsSafely O.Directory (actions.Try number) files.old files.new result }
{
    let tried = files.collect_delete(number)?;
    Ok(Reply::Tried(tried))
}

// A collection is finished.
fn end<O: Outside>(files: &mut StoreFiles<O>, number: u64) -> Result<Reply, TantivyError>
    requires { IsSome (collection_at files.old.collections number) }
    ensures performs { Performs O.Directory (actions.End number) files.old files.new result }
    ensures images { PerformsSafely O.Directory (actions.End number) files.old files.new result }
{
    files.collect_end(number)?;
    Ok(Reply::Done)
}

// Which of these files have another checksum than that of their body, in a vector that is empty and has room for
// them; or the first that can't be read.
fn find_damaged<O: Outside>(
    files: &mut StoreFiles<O>,
    names: Vec<FileName>,
    room: Vec<FileName>,
) -> Result<Reply, TantivyError>
    requires empty { vec_len room ≡ 0 }
    requires room { length names.items ≤ vec_capacity room }
    ensures found { O.told.content → (s : State) → FilesHold O.Directory files.old s
        → AllByRecursion IsFileOf names.items
        → IfOk result (λ reply. reply ≡ reply_in s (actions.Validate names) []) }
    ensures gives { IfOk result (MayGive files.old.collections files.old.managed
        (actions.Validate names)) }
    ensures faults { EventFaults ⊥ (O.view files.old.outside) (O.view files.new.outside) result }
    ensures frame { KeepsFiles (OnlyReads O.told) O.view files.old files.new }
    ensures images { O.tells_images
        → KeepsDisk (O.disk files.old.outside) (O.disk files.new.outside) }
{
    let mut damaged = room;
    for name in names {
        match files.is_intact(&name)? {
            None => return Ok(Reply::Unreadable(name)),
            Some(true) => {}
            Some(false) => damaged.push_reserved(name),
        }
    }
    Ok(Reply::Damaged(FileNames { names: damaged }))
}

// The checksums of these files are compared with those of their bodies.
fn validate<O: Outside>(
    alloc: Global,
    files: &mut StoreFiles<O>,
    names: Vec<FileName>,
) -> Result<Reply, TantivyError>
    ensures performs { Performs O.Directory (actions.Validate names) files.old files.new result }
    ensures images { PerformsSafely O.Directory (actions.Validate names)
        files.old files.new result }
{
    let room = Vec::with_capacity(alloc, names.len())?;
    find_damaged(files, names, room)
}

// The meta lock is taken, and kept for a reload.
fn lock<O: Outside>(files: &mut StoreFiles<O>) -> Result<Reply, TantivyError>
    requires { files.old.locked ≡ false }
    ensures performs { Performs O.Directory actions.Lock files.old files.new result }
    ensures images { PerformsSafely O.Directory actions.Lock files.old files.new result }
{
    files.keep_lock()?;
    Ok(Reply::Done)
}

// The files of this commit are read, and then the meta lock is given back that was kept for that. After an
// error it is kept still.
fn read<O: Outside>(
    alloc: Global,
    files: &mut StoreFiles<O>,
    commit: Commit,
) -> Result<Reply, TantivyError>
    requires { files.old.locked ≡ true }
    ensures performs { Performs O.Directory (actions.Read commit) files.old files.new result }
    ensures images { PerformsSafely O.Directory (actions.Read commit) files.old files.new result }
{
    let shown = read_files(alloc, files, 0, commit)?;
    files.give_back();
    Ok(Reply::Loaded(shown))
}

// The meta lock is given back that was kept for a reload.
fn unlock<O: Outside>(files: &mut StoreFiles<O>) -> Result<Reply, TantivyError>
    requires { files.old.locked ≡ true }
    ensures performs { Performs O.Directory actions.Unlock files.old files.new result }
    ensures images { PerformsSafely O.Directory actions.Unlock files.old files.new result }
{
    files.give_back();
    Ok(Reply::Done)
}

// The open files are left, no collection is unfinished any more, and the meta lock is given back where it was
// kept for a reload. That comes last: after an error it is kept still.
fn reopen<O: Outside>(alloc: Global, files: &mut StoreFiles<O>) -> Result<Reply, TantivyError>
    ensures performs { Performs O.Directory actions.Reopen files.old files.new result }
    ensures images { PerformsSafely O.Directory actions.Reopen files.old files.new result }
{
    files.reopen(alloc)?;
    files.give_back();
    Ok(Reply::Done)
}

// The current commit is loaded with the bodies of its files, under this number.
fn load_commit<O: Outside>(
    alloc: Global,
    files: &mut StoreFiles<O>,
    generation: u64,
) -> Result<Reply, TantivyError>
    ensures performs { Performs O.Directory (actions.Load generation) files.old files.new result }
    ensures images { PerformsSafely O.Directory (actions.Load generation)
        files.old files.new result }
{
    let shown = load(alloc, files, generation)?;
    Ok(Reply::Loaded(shown))
}

/// Does this to the files.
pub(crate) fn perform<O: Outside>(
    alloc: Global,
    files: &mut StoreFiles<O>,
    action: Action<'_>,
) -> Result<Reply, TantivyError>
    requires { (catalog : Catalog) × (is_busy catalog ≡ files.old.locked)
        × CanPerform (kept_of catalog files.old) action }
    ensures performs { Performs O.Directory action.entry files.old files.new result }
    ensures images { PerformsSafely O.Directory action.entry files.old files.new result }
{
    match action {
        Action::Nothing => Ok(Reply::Done),
        Action::Make(name) => make(files, name),
        Action::Append(name, bytes) => append(files, name, bytes),
        Action::Seal(name) => seal(files, name),
        Action::Leave(names) => leave(files, names),
        Action::Save(commit, text, required) => save(files, commit, text, required),
        Action::Collect(living) => collect(alloc, files, living),
        Action::Begin(living) => begin(files, living),
        Action::Try(number) => try_next(files, number),
        Action::End(number) => end(files, number),
        Action::Validate(names) => validate(alloc, files, names),
        Action::Load(generation) => load_commit(alloc, files, generation),
        Action::Lock => lock(files),
        Action::Read(commit) => read(alloc, files, commit),
        Action::Unlock => unlock(files),
        Action::Reopen => reopen(alloc, files),
    }
}
