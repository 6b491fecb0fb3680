//! How the index is found that stands in a directory, or is made where there is none: all of it under
//! the lock of the one who writes the index, so that nobody else's commit is overwritten unread.
ghost use Rattle.std.specs.Prelude.{◌≡◌, true, ℕ, List, Err, IfOk, IfErr, map, option_map, string_bytes};
ghost use Rattle.std.specs.List.{AllByRecursion};
ghost use Rattle.tv_formats.specs.Commits.{IsCommit};
ghost use Rattle.tv_formats.specs.Schemas.{IsSchema};
ghost use Rattle.tv_machine.specs.Index.{IsFileOf, as_opened};
ghost use Rattle.tv_metas.specs.Segments.{entry_of};
ghost use Rattle.tv_store.specs.Making.{OpensCommit, ChecksFiles, FindsFiles, FindsNone};
ghost use Rattle.tv_snapshots.specs.SegmentOrder.{IsSorted};
ghost use Rattle.tv_store.specs.Opening.{OpensOrRefuses};
ghost use Rattle.tv_store.specs.StoreCauses.{writer_lock_name};
ghost use Rattle.tv_store.specs.Surviving.{SurvivesOpening};
ghost use Rattle.tv_store.specs.UnderLock.{FindsUnderLock, IsUnderLock, LockedOut, RefusesLock};

use crate::files::StoreFiles;
use std::alloc::Global;
use std::marker::Model;
use tv_base::{LockError, TantivyError};
use tv_catalog::catalog::Catalog;
use tv_device::{DirectoryLock, Outside, index_writer_lock};
use tv_formats::{FileName, Memory, Opstamp};
use tv_index::{
    Index, InnerSegmentMeta, Schema, UntrackedIndexMeta, check_openable, open_or_create,
};
use tv_machine::Answer;
use tv_managed::Refused;
use tv_snapshots::commit::Commit;
use tv_snapshots::names::required_files;

/// What an opening does of an index that was found: its catalog, the files that are to be read, and the
/// line that is told then. To a contract it is the catalog.
#[derive(Drop)]
pub(crate) struct PlannedOpening {
    catalog: Catalog,
    required: Vec<FileName>,
    line: Answer,
}

impl Model for PlannedOpening {
    ghost use Rattle.tv_machine.specs.State.{Catalog as CatalogState};
    ghost use Rattle.tv_store.specs.Making.{IsPlanned};

    ghost Value = { CatalogState };

    ghost view = { λ a. a.catalog };

    ghost invariant = { λ a. IsPlanned a.catalog a.required.items a.line };
}

/// An index that was found: what its opening does, its files, and the token of its writer's lock.
pub(crate) struct Found<O: Outside> {
    pub(crate) opening: PlannedOpening,
    pub(crate) files: StoreFiles<O>,
    pub(crate) lock: DirectoryLock,
}

// What an opening does of the commit that `meta.json` has, by what is known without asking the device.
fn plan_opening(
    alloc: Global,
    opstamp: Opstamp,
    payload: Option<String>,
    segments: &[InnerSegmentMeta],
) -> Result<PlannedOpening, Memory>
    requires { IsSorted (map entry_of segments.now) }
    ensures opened { IfOk result (λ opening. opening ≡ as_opened opening) }
    ensures commit { IfOk result (λ opening. opening.commit ≡ record {
      opstamp = opstamp;
      payload = option_map string_bytes payload;
      segments = map entry_of segments.now;
    }) }
{
    let commit = Commit::from_meta(alloc, opstamp, payload, segments)?;
    let required = required_files(alloc, commit.by_id())?;
    let line = commit.opening_line(alloc)?;
    let catalog = Catalog::opened(alloc, commit)?;
    Ok(PlannedOpening {
        catalog,
        required,
        line,
    })
}

// Finds the index that stands in a directory, or makes one with this schema where there is none. A
// refusal gives the directory back. Where locks are told, the one of the writer must be held.
fn find_files<O: Outside>(
    alloc: Global,
    outside: O,
    schema: &Schema,
) -> Result<(PlannedOpening, StoreFiles<O>), Refused<O>>
    requires { O.told.locks → (O.view outside).locks writer_lock_name ≡ true }
    ensures found { IfOk result (λ found.
        FindsFiles O.Directory outside schema.now found.0 found.1) }
    ensures none { IfErr result (λ refused.
        FindsNone O.Directory outside schema.now refused.directory refused.error) }
{
    let (directory, meta) = open_or_create(alloc, outside, schema)?;
    let UntrackedIndexMeta {
        index_settings,
        segments,
        schema,
        opstamp,
        payload,
    } = meta;
    match plan_opening(alloc, opstamp, payload, segments.as_slice()) {
        Ok(opening) => {
            let index = Index::from_parts(alloc, directory, index_settings, schema);
            Ok((opening, StoreFiles::new(alloc, index)))
        }
        Err(memory) => Err(Refused {
            error: TantivyError::from(memory),
            directory: directory.into_directory(),
        }),
    }
}

// The refusal of an opening while somebody else holds the writer lock: that of what stands there, which
// comes first, and else that of the lock. Nothing is written.
fn locked_out<O: Outside>(alloc: Global, outside: O, schema: &Schema) -> Refused<O>
    ensures { LockedOut O.Directory outside schema.now result.directory result.error }
{
    match check_openable(alloc, outside, schema) {
        Ok(directory) => Refused {
            error: TantivyError::from(LockError::LockBusy),
            directory,
        },
        Err(refused) => refused,
    }
}

// The refusal of an opening to which the writer lock wasn't given.
fn without_lock<O: Outside>(
    alloc: Global,
    outside: O,
    schema: &Schema,
    error: LockError,
) -> Refused<O>
    ensures { RefusesLock O.Directory outside schema.now error result.directory result.error }
{
    match error {
        LockError::LockBusy => locked_out(alloc, outside, schema),
        error => Refused {
            error: TantivyError::from(error),
            directory: outside,
        },
    }
}

// Takes the writer lock, once the device has kept what was written. Gives the directory with the token of
// that lock.
fn lock_writer<O: Outside>(
    alloc: Global,
    outside: O,
    schema: &Schema,
) -> Result<(O, DirectoryLock), Refused<O>>
    ensures name { IfOk result (λ locked. locked.1 ≡ writer_lock_name) }
    ensures locked { IfOk result (λ locked. IsUnderLock O.Directory outside locked.0) }
    ensures refused { (bytes : List ℕ) → IsSchema bytes schema.now
        → IfErr result (λ refused. OpensOrRefuses O.Directory outside bytes (Err refused)) }
{
    let mut outside = outside;
    if let Err(fault) = outside.sync_directory() {
        return Err(Refused {
            error: TantivyError::from(fault),
            directory: outside,
        });
    }
    match outside.acquire_lock(&index_writer_lock()) {
        Ok(lock) => Ok((outside, lock)),
        Err(error) => Err(without_lock(alloc, outside, schema, error)),
    }
}

/// Finds the index that stands in a directory, or makes one with this schema where there is none, all
/// under the writer lock. A refusal gives the directory back, with the locks that it had.
pub(crate) fn find<O: Outside>(
    alloc: Global,
    outside: O,
    schema: &[u8],
) -> Result<Found<O>, Refused<O>>
    ensures found { IfOk result (λ found.
        FindsUnderLock O.Directory outside schema.now found.opening found.files) }
    ensures lock { IfOk result (λ found. found.lock ≡ writer_lock_name) }
    ensures refused { IfErr result (λ refused.
        OpensOrRefuses O.Directory outside schema.now (Err refused)) }
    ensures survives { IfErr result (λ refused.
        SurvivesOpening O.Directory outside schema.now (Err refused)) }
{
    let schema = match Schema::from_bytes(alloc, schema) {
        Ok(schema) => schema,
        Err(error) => {
            return Err(Refused {
                error,
                directory: outside,
            });
        }
    };
    let (outside, lock) = lock_writer(alloc, outside, &schema)?;
    match find_files(alloc, outside, &schema) {
        Ok((opening, files)) => Ok(Found {
            opening,
            files,
            lock,
        }),
        Err(Refused { error, directory }) => {
            let mut directory = directory;
            directory.release(lock);
            Err(Refused { error, directory })
        }
    }
}

// Sees that each of these files can be read. Those that can are known from then on.
fn check_files<O: Outside>(
    files: &mut StoreFiles<O>,
    names: Vec<FileName>,
) -> Result<(), TantivyError>
    requires { AllByRecursion IsFileOf names.items }
    ensures { ChecksFiles O.Directory files.old files.new names.items result }
{
    for name in names {
        let _body = files.open_read(&name)?;
        files.remember(name);
    }
    Ok(())
}

/// Sees that the files of a commit can be read, and tells its opening line.
pub(crate) fn begin<O: Outside>(
    files: &mut StoreFiles<O>,
    opening: PlannedOpening,
) -> Result<Catalog, TantivyError>
    requires { IsCommit opening.commit }
    ensures catalog { IfOk result (λ catalog. catalog ≡ opening) }
    ensures opens { OpensCommit O.Directory opening.commit files.old files.new result }
{
    let PlannedOpening {
        catalog,
        required,
        line,
    } = opening;
    check_files(files, required)?;
    files.ready(line.as_slice().len())?;
    files.tell(&line)?;
    Ok(catalog)
}
