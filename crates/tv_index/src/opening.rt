//! How an index is opened, or made where there is none.
ghost use Rattle.std.specs.Prelude.{◌≡◌, ◌<◌, ◌^◌, IfOk, IfErr, IfSome, IsErrAnd, MatchResult, OnOk, false, option_map};
ghost use Rattle.tv_formats.specs.Collections.{held};
ghost use Rattle.tv_formats.specs.Commits.{first_commit};
ghost use Rattle.tv_formats.specs.Names.{has, meta_name};
ghost use Rattle.tv_device.specs.Calls.{IoFaults};
ghost use Rattle.tv_device.specs.Images.{KeepsDisk};
ghost use Rattle.tv_device.specs.View.{OnlyReads};
ghost use Rattle.tv_managed.specs.Crashes.{LeavesSafely};
ghost use Rattle.tv_managed.specs.Frames.{KeepsNames};
ghost use Rattle.tv_managed.specs.Managed.{KeepsOtherFiles};
ghost use Rattle.tv_managed.specs.Wrapping.{NotWrapped, Wraps};
ghost use Rattle.tv_index.specs.Crashes.{LacksMeta, LooksSafely, MakesSafely, MakesStates, OnlyLooks, SavesStates, giving};
ghost use Rattle.tv_metas.specs.Metas.{commit_of};
ghost use Rattle.tv_index.specs.NewForms.{IsFirst, LoadsOrCreates, NotLoaded, NotOpenedForm, OpensForm, form_with, new_text};
ghost use Rattle.tv_index.specs.Opening.{HasCommit, IsRefusedBytes, LoadFaults, Loads, NoneIfAbsent, NotOpened, OpensIndex, first_text};
ghost use Rattle.tv_index.specs.Openable.{FindsOpenable, NotOpenable};
ghost use Rattle.tv_index.specs.Saving.{FrameNotesUnless, LeavesText, SavesMeta};
ghost use Rattle.tv_index.specs.Standing.{LoadsMeta, MetaFaults, UnreadAs};

use crate::saving::save_meta_text;
use std::alloc::Global;
use tv_base::{IoError, META_FILEPATH, OpenReadError, TantivyError};
use tv_device::Directory;
use tv_formats::Memory;
use tv_managed::{ManagedDirectory, Refused};
use tv_metas::{IndexSettings, Schema, UntrackedIndexMeta, print_meta};

// What a read of `meta.json` that failed tells of it.
fn unread(error: OpenReadError) -> TantivyError
    ensures { UnreadAs error result }
{
    match error {
        OpenReadError::FileDoesNotExist(path) => {
            TantivyError::OpenReadError(OpenReadError::FileDoesNotExist(path))
        }
        OpenReadError::IoError { io_error, .. } => TantivyError::IoError(io_error),
        OpenReadError::Memory => TantivyError::Memory,
        OpenReadError::IncompatibleIndex(why) => TantivyError::IncompatibleIndex(why),
    }
}

/// The commit that `meta.json` means, under the expected schema where one is expected.
///
/// `OpenReadError` with `FileDoesNotExist` comes where there is no `meta.json`, `DataCorruption`
/// where it means no commit, `SchemaError` where it has another schema than the expected one.
pub(crate) fn load_meta<D: Directory>(
    alloc: Global,
    directory: &mut ManagedDirectory<D>,
    expected: Option<&Schema>,
) -> Result<UntrackedIndexMeta, TantivyError>
    ensures meta { IfOk result (LoadsMeta D.Directory directory.old.0
        (option_map (λ s. s.now) expected.entry)) }
    ensures faults { MetaFaults D.Directory directory.old.0 directory.new.0
        (option_map (λ s. s.now) expected.entry) result }
    ensures frame { KeepsNames (OnlyReads D.told) D.view directory.old directory.new }
    ensures images { D.tells_images
        → KeepsDisk (D.disk directory.old.0) (D.disk directory.new.0) }
{
    match directory.atomic_read(META_FILEPATH) {
        Ok(bytes) => UntrackedIndexMeta::parse(alloc, bytes.as_slice(), expected),
        Err(error) => Err(unread(error)),
    }
}

// No commit, where there is no `meta.json`: a load answers no other error of that kind.
fn none_if_absent(error: TantivyError) -> Result<Option<UntrackedIndexMeta>, TantivyError>
    ensures { NoneIfAbsent error result }
{
    match error {
        TantivyError::OpenReadError(_) => Ok(None),
        error => Err(error),
    }
}

// The commit that `meta.json` means under this schema, where it reads.
pub(crate) fn load<D: Directory>(
    alloc: Global,
    directory: &mut ManagedDirectory<D>,
    schema: &Schema,
) -> Result<Option<UntrackedIndexMeta>, TantivyError>
    ensures found { D.told.content → IfOk result
        (Loads schema.now ((D.view directory.old.0).reads meta_name)) }
    ensures commit { IfOk result (λ found. IfSome found (HasCommit schema.now)) }
    ensures faults { LoadFaults D.Directory directory.old.0 directory.new.0 schema.now result }
    ensures frame { KeepsNames (OnlyReads D.told) D.view directory.old directory.new }
    ensures images { D.tells_images
        → KeepsDisk (D.disk directory.old.0) (D.disk directory.new.0) }
{
    match load_meta(alloc, directory, Some(schema)) {
        Ok(meta) => Ok(Some(meta)),
        Err(error) => none_if_absent(error),
    }
}

// The first commit of an index with these settings and this schema.
fn first_meta(alloc: Global, schema: Schema, settings: IndexSettings) -> UntrackedIndexMeta
    ensures settings { result.index_settings ≡ settings }
    ensures commit { commit_of result ≡ first_commit }
    ensures schema { result.schema ≡ schema }
    ensures blocksize { settings.docstore_blocksize < 2 ^ 64 }
{
    let _blocksize = settings.docstore_blocksize;
    UntrackedIndexMeta {
        index_settings: settings,
        segments: Vec::new(alloc),
        schema,
        opstamp: 0,
        payload: None,
    }
}

// The same with a share of the schema.
fn new_meta(
    alloc: Global,
    schema: &Schema,
    settings: IndexSettings,
) -> Result<UntrackedIndexMeta, Memory>
    ensures { IfOk result (IsFirst (form_with settings schema.now)) }
{
    let schema = schema.share(alloc)?;
    Ok(first_meta(alloc, schema, settings))
}

// Makes an index with these settings and this schema: `meta.json` has its first commit.
pub(crate) fn create<D: Directory>(
    alloc: Global,
    directory: &mut ManagedDirectory<D>,
    schema: &Schema,
    settings: &IndexSettings,
) -> Result<(), IoError>
    requires { has (held directory.old.1.collections) meta_name ≡ false }
    ensures saves { OnOk result (SavesMeta D.Directory directory.old directory.new
        (new_text (form_with settings.now schema.now))) }
    ensures others { D.told.content → KeepsOtherFiles (D.view directory.old.0).reads
        (D.view directory.new.0).reads meta_name }
    ensures leaves { LeavesText D.Directory directory.old.0 directory.new.0
        (new_text (form_with settings.now schema.now)) result }
    ensures faults { IoFaults (D.view directory.old.0) (D.view directory.new.0) result }
    ensures frame { FrameNotesUnless D.told (IsErrAnd result (λ error. error ≡ IoError.Memory))
        (D.view directory.old.0) (D.view directory.new.0) }
    ensures safe { D.tells_images → LeavesSafely D.Directory
        (SavesStates (D.disk directory.old.0) (D.disk directory.new.0) directory.old.1
        (giving meta_name (new_text (form_with settings.now schema.now))) IoError.Memory result)
        directory.old directory.new }
{
    let mut text = print_meta(alloc, settings, schema, &[], 0, None)?;
    text.push(b'\n')?;
    save_meta_text(directory, text.as_slice())
}

// The commit that `meta.json` means; where there is none, that of an index which is made.
fn load_or_create<D: Directory>(
    alloc: Global,
    directory: &mut ManagedDirectory<D>,
    schema: &Schema,
    settings: IndexSettings,
) -> Result<UntrackedIndexMeta, TantivyError>
    requires { has (held directory.old.1.collections) meta_name ≡ false }
    ensures ok { IfOk result (LoadsOrCreates D.Directory directory.old directory.new
        (form_with settings schema.now)) }
    ensures err { IfErr result (NotLoaded D.Directory directory.old directory.new.0
        (form_with settings schema.now)) }
    ensures safe { D.tells_images → LeavesSafely D.Directory
        (MakesStates (D.disk directory.old.0) (D.disk directory.new.0)
        (LacksMeta D.Directory directory.old.0) (new_text (form_with settings schema.now)) result)
        directory.old directory.new }
    ensures spares { D.tells_images → IfErr result (λ error. IsRefusedBytes error
        → KeepsDisk (D.disk directory.old.0) (D.disk directory.new.0)) }
{
    if let Some(meta) = load(alloc, directory, schema)? {
        return Ok(meta);
    }
    let meta = new_meta(alloc, schema, settings)?;
    create(alloc, directory, schema, &settings)?;
    Ok(meta)
}

// The directory with its managed names, once the device has kept what was written.
pub(crate) fn settled<D: Directory>(
    alloc: Global,
    directory: D,
) -> Result<ManagedDirectory<D>, Refused<D>>
    ensures wraps { IfOk result (Wraps D.Directory directory) }
    ensures refused { IfErr result (λ refused.
        NotWrapped D.Directory directory refused.directory refused.error) }
    ensures safe { D.tells_images
        → LooksSafely D.Directory directory (λ settled. settled) result }
{
    let mut directory = directory;
    match directory.sync_directory() {
        Ok(()) => ManagedDirectory::wrap(alloc, directory),
        Err(fault) => Err(Refused {
            error: TantivyError::from(fault),
            directory,
        }),
    }
}

// Opens the index that stands in a directory, or makes one with this schema and these settings.
pub(crate) fn open_or_create_with<D: Directory>(
    alloc: Global,
    directory: D,
    schema: &Schema,
    settings: IndexSettings,
) -> Result<(ManagedDirectory<D>, UntrackedIndexMeta), Refused<D>>
    ensures opened { IfOk result (λ opened.
        OpensForm D.Directory directory (form_with settings schema.now) opened.0 opened.1) }
    ensures refused { IfErr result (λ refused.
        NotOpenedForm D.Directory directory (form_with settings schema.now)
        refused.directory refused.error) }
    ensures safe { D.tells_images → MakesSafely D.Directory (LacksMeta D.Directory directory)
        (new_text (form_with settings schema.now)) directory (λ opened. opened.0) result }
    ensures spares { D.tells_images → IfErr result (λ refused. IsRefusedBytes refused.error
        → OnlyLooks D.Directory directory refused.directory) }
{
    let mut directory = settled(alloc, directory)?;
    match load_or_create(alloc, &mut directory, schema, settings) {
        Ok(meta) => Ok((directory, meta)),
        Err(error) => Err(Refused {
            error,
            directory: directory.into_directory(),
        }),
    }
}

/// Opens the index that stands in a directory, or makes one with this schema where there is no
/// `meta.json`. Gives the directory with its managed names, and the commit that the index shows. A
/// refusal gives the directory back. Where there is a `meta.json`, no notice of it comes.
///
/// Where each file that a crash may leave is on the list, no crash within the call leaves one that
/// isn't, and the directory goes on so. A crash behind an opening that succeeded leaves each name
/// as it stands. Where memory was wanted, no crash within the call leaves a `meta.json` that
/// neither stood nor could be left before.
///
/// `DataCorruption` comes for the list of managed files and for `meta.json`, `SchemaError` where
/// `meta.json` has another schema.
pub fn open_or_create<D: Directory>(
    alloc: Global,
    directory: D,
    schema: &Schema,
) -> Result<(ManagedDirectory<D>, UntrackedIndexMeta), Refused<D>>
    ensures opened { IfOk result (λ opened.
        OpensIndex D.Directory directory schema.now opened.0 opened.1) }
    ensures refused { IfErr result (λ refused.
        NotOpened D.Directory directory schema.now refused.directory refused.error) }
    ensures safe { D.tells_images → MakesSafely D.Directory (LacksMeta D.Directory directory)
        (first_text schema.now) directory (λ opened. opened.0) result }
    // Where bytes are refused, nothing is written.
    ensures spares { D.tells_images → IfErr result (λ refused. IsRefusedBytes refused.error
        → OnlyLooks D.Directory directory refused.directory) }
{
    open_or_create_with(alloc, directory, schema, IndexSettings::new())
}

/// Sees whether an index can be opened in a directory under this schema, or made, where
/// `open_or_create` isn't to be called, since somebody else holds the writer lock. It does neither:
/// nothing is written, and no commit is handed out. The directory comes back.
///
/// Where an index can't be opened, the error is the one of `open_or_create`: `DataCorruption` for the
/// list of managed files and for `meta.json`, `SchemaError` where `meta.json` has another schema.
pub fn check_openable<D: Directory>(
    alloc: Global,
    directory: D,
    schema: &Schema,
) -> Result<D, Refused<D>>
    ensures openable { IfOk result (FindsOpenable D.Directory directory schema.now) }
    ensures refused { IfErr result (λ refused. NotOpenable D.Directory directory schema.now
        refused.directory refused.error) }
    ensures safe { D.tells_images → MatchResult result (OnlyLooks D.Directory directory)
        (λ refused. OnlyLooks D.Directory directory refused.directory) }
{
    let mut directory = ManagedDirectory::wrap(alloc, directory)?;
    match load(alloc, &mut directory, schema) {
        Ok(_) => Ok(directory.into_directory()),
        Err(error) => Err(Refused {
            error,
            directory: directory.into_directory(),
        }),
    }
}
