//! An index that is open, under the lock of the one who writes it.
ghost use Rattle.std.specs.Prelude.{◌≡◌, ◌<◌, is_ok, None, true, length, IfOk, IfErr, IsSome, OnErr};
ghost use Rattle.tv_machine.specs.Living.{is_busy};
ghost use Rattle.tv_machine.specs.Machine.{catalog_step};
ghost use Rattle.tv_machine.specs.SoundStates.{IsWhole};
ghost use Rattle.tv_machine.specs.State.{State};
ghost use Rattle.tv_device.specs.Calls.{DeviceFaults};
ghost use Rattle.tv_device.specs.Images.{KeepsDisk};
ghost use Rattle.tv_device.specs.View.{OnlyReads, OnlyTells};
ghost use Rattle.tv_store.specs.Acting.{Acts};
ghost use Rattle.tv_store.specs.Durable.{ActsSafely, IsDurable, store_files};
ghost use Rattle.tv_store.specs.Applying.{Stepped, LeavesMeta, Grows, ApplyFaults, AppliesFrame, AsksNoFile, IsUndisturbedEvent};
ghost use Rattle.tv_store.specs.Kept.{Holds, IsHeld};
ghost use Rattle.tv_store.specs.Opening.{Opens, LeavesIndex, TellsOpening, TakesWriterLock, OpeningFaults, OpeningFrame, OpensOrRefuses, OpensSafely};
ghost use Rattle.tv_store.specs.ReloadLocks.{FreesLocks};
ghost use Rattle.tv_store.specs.StoreCauses.{writer_lock_name};
ghost use Rattle.tv_store.specs.Surviving.{SurvivesEvent, SurvivesOpening};
ghost use Rattle.tv_store.specs.Telling.{TellsAnswer, TriesLine};

use crate::files::StoreFiles;
use crate::opening::{Found, begin, find};
use crate::perform::perform;
use std::alloc::Global;
use std::marker::Model;
use tv_base::{IoFault, TantivyError};
use tv_catalog::catalog::Catalog;
use tv_catalog::known::KnownFiles;
use tv_catalog::lines::line_of;
use tv_catalog::plan::{Planned, plan};
use tv_device::{DirectoryLock, Outside};
use tv_machine::{Answer, Event};
use tv_managed::Refused;

/// An index over a directory, whose writer lock it holds. One event after the other is applied to it,
/// and the line of each is told. To a contract it is what is kept in memory, the directory, and how
/// it stands.
pub struct IndexStore<O: Outside> {
    pub(crate) alloc: Global,
    pub(crate) catalog: Catalog,
    pub(crate) files: StoreFiles<O>,
    pub(crate) lock: DirectoryLock,
    pub(crate) is_open: bool,
}

impl<O: Outside> Model for IndexStore<O> {
    ghost use Rattle.std.specs.Prelude.{◌≡◌};
    ghost use Rattle.tv_machine.specs.Living.{is_busy};
    ghost use Rattle.tv_store.specs.Kept.{StoreState, kept_of};
    ghost use Rattle.tv_store.specs.StoreCauses.{writer_lock_name};

    ghost Value = { StoreState O };

    ghost view = { λ a. record {
      kept = kept_of a.catalog a.files;
      outside = a.files.outside;
      standing = record { is_open = a.is_open };
    } };

    ghost invariant = { λ a. (a.lock ≡ writer_lock_name)
        × (a.files.locked ≡ is_busy a.catalog) };
}

// The directory of these files, with the lock of this token free, and that of a reload.
fn close<O: Outside>(files: StoreFiles<O>, lock: DirectoryLock) -> O
    ensures frees { FreesLocks O.told lock files.locked (O.view files.outside) (O.view result) }
    ensures images { O.tells_images → KeepsDisk (O.disk files.outside) (O.disk result) }
{
    let mut files = files;
    files.give_back();
    let mut directory = files.into_outside();
    directory.release(lock);
    directory
}

// Opens the index that stands in a directory, or makes one with this schema.
fn open_index<O: Outside>(
    alloc: Global,
    outside: O,
    schema: &[u8],
) -> Result<IndexStore<O>, Refused<O>>
    ensures opens { OpensOrRefuses O.Directory outside schema.now result }
    ensures survives { SurvivesOpening O.Directory outside schema.now result }
{
    let Found {
        opening,
        mut files,
        lock,
    } = find(alloc, outside, schema)?;
    match begin(&mut files, opening) {
        Ok(catalog) => Ok(IndexStore {
            alloc,
            catalog,
            files,
            lock,
            is_open: true,
        }),
        Err(error) => Err(Refused {
            error,
            directory: close(files, lock),
        }),
    }
}

impl<O: Outside> IndexStore<O> {
    /// Opens the index that stands in a directory, or makes one with this schema where there is no
    /// `meta.json`; sees that the files of the commit can be read, and tells the opening line. The writer
    /// lock is taken first, so that nothing is found or made but under it. A refusal gives the directory
    /// back, with the locks that it had. Where there is a `meta.json`, no notice of it comes; of a new one
    /// a notice stands.
    ///
    /// Refusals come in this order: `InvalidArgument` for the schema, `DataCorruption` for the list of
    /// managed files, `DataCorruption` and `SchemaError` for `meta.json`, `LockFailure` with `LockBusy`
    /// for the lock, `OpenReadError` for the first file of the commit that can't be read. None of them
    /// but the last one changes anything.
    pub fn open(alloc: Global, outside: O, schema: &[u8]) -> Result<IndexStore<O>, Refused<O>>
        ensures opens { IfOk result (Opens O.Directory outside schema.now) }
        ensures leaves { IfErr result (LeavesIndex O.Directory outside schema.now) }
        ensures tells { TellsOpening O.Directory outside schema.now result }
        ensures locks { TakesWriterLock O.Directory outside result }
        ensures faults { OpeningFaults O.Directory outside schema.now result }
        ensures frame { OpeningFrame O.Directory outside result }
        ensures safe { O.tells_images → OpensSafely O.Directory outside schema.now result }
        // Of a sound directory: what a crash leaves at each moment, and that it can't hurt the files then.
        ensures survives { SurvivesOpening O.Directory outside schema.now result }
    {
        open_index(alloc, outside, schema)
    }

    /// Makes one step of the machine, and tells its line. A commit writes `meta.json`, unless it is
    /// refused. After an error the store isn't open.
    pub fn apply(&mut self, event: &Event) -> Result<Answer, TantivyError>
        requires { self.old.standing.is_open ≡ true }
        ensures step { IfOk result (Stepped O.Directory self.old self.new event.now) }
        ensures tells { TellsAnswer O.Directory self.old.outside self.new.outside result }
        ensures leaves { LeavesMeta O.Directory self.old self.new event.now result }
        ensures grows { Grows self.old.kept self.new.kept event.now result }
        // An event that nothing disturbs is applied, or memory is wanted.
        ensures complete { IsUndisturbedEvent O.Directory self.old self.new event.now
            → IfErr result (λ error. error ≡ TantivyError.Memory) }
        ensures faults { ApplyFaults O.Directory self.old self.new event.now result }
        ensures frame { AppliesFrame O.Directory self.old self.new event.now result }
        // Where a crash couldn't hurt the files: what it leaves at each moment; at Ok it still can't.
        ensures survives { SurvivesEvent O.Directory self.old self.new event.now result }
    {
        self.is_open = false;
        let answer = self.act(event)?;
        self.tell(&answer)?;
        Ok(answer)
    }

    // Tells an answer, in the room that was made for it. From then on the next event may be applied.
    fn tell(&mut self, answer: &Answer) -> Result<(), IoFault>
        requires { length answer.now < (O.view self.old.outside).room }
        ensures tells { TriesLine O.told (O.view self.old.outside)
            (O.view self.new.outside) answer.now result }
        ensures kept { self.new.kept ≡ self.old.kept }
        ensures open { self.new.standing.is_open ≡ is_ok result }
        ensures faults { DeviceFaults (O.view self.old.outside) (O.view self.new.outside) result }
        ensures frame { OnlyTells O.told (O.view self.old.outside) (O.view self.new.outside) }
        ensures images { O.tells_images
            → KeepsDisk (O.disk self.old.outside) (O.disk self.new.outside) }
    {
        let told = self.files.tell(answer);
        self.is_open = told.is_ok();
        told
    }

    // One step of the machine, whose line is yet to be told, in room that was made for it.
    fn act(&mut self, event: &Event) -> Result<Answer, TantivyError>
        ensures acts { Acts O.Directory self.old self.new event.now result }
        ensures alone { IsSome (catalog_step self.old.kept.catalog self.old.kept.managed event.now)
            → AsksNoFile (OnlyReads O.told) O.Directory self.old self.new result }
        ensures images { O.tells_images → (s : State) → IsHeld O.Directory self.old s → IsWhole s
            → IsDurable O.Directory (store_files self.old) s
            → ActsSafely O.Directory self.old self.new event.now s result }
    {
        match self.catalog.act(self.files.managed(), event)? {
            Some(answer) => self.told(answer),
            None => self.act_by_plan(event),
        }
    }

    // An event is planned, its action performed, and answered in room that was made before.
    fn act_by_plan(&mut self, event: &Event) -> Result<Answer, TantivyError>
        requires { catalog_step self.old.kept.catalog self.old.kept.managed event.now ≡ None }
        ensures acts { Acts O.Directory self.old self.new event.now result }
        // An error leaves all that is known beside the files, so too what each reader shows.
        ensures known { OnErr result (self.new.kept.catalog ≡ self.old.kept.catalog) }
        ensures images { O.tells_images → (s : State) → IsHeld O.Directory self.old s → IsWhole s
            → IsDurable O.Directory (store_files self.old) s
            → ActsSafely O.Directory self.old self.new event.now s result }
    {
        let Planned {
            action,
            change,
            line,
        } = plan(self.alloc, &self.catalog, &self.files, event)?;
        self.files.ready(line.capacity())?;
        let reply = perform(self.alloc, &mut self.files, action)?;
        let answer = line_of(line, &reply);
        self.catalog.settle(change, reply)?;
        Ok(answer)
    }

    /// Whether the next event may be applied: false after an error. Takes no memory.
    pub fn is_open(&self) -> bool
        ensures { result ≡ self.now.standing.is_open }
    {
        self.is_open
    }

    /// The directory, whose writer lock is free, and so is the meta lock where a reload waited for its
    /// files. Takes no memory.
    pub fn into_outside(self) -> O
        ensures frees { FreesLocks O.told writer_lock_name (is_busy self.kept.catalog)
            (O.view self.outside) (O.view result) }
        // It holds each state that it held.
        ensures holds { O.told.content → (s : State)
            → IsHeld O.Directory self s
            → Holds (O.view result).reads self.kept s }
        ensures images { O.tells_images → KeepsDisk (O.disk self.outside) (O.disk result) }
    {
        let IndexStore {
            alloc: _,
            catalog: _,
            files,
            lock,
            is_open: _,
        } = self;
        close(files, lock)
    }
}
