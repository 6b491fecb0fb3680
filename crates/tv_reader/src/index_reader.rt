//! A reader of an index: the searcher that it shows, and how it goes on to a later commit.
ghost use Rattle.std.specs.Prelude.{◌≡◌, ◌<◌, ◌⊎◌, ℕ, List, IfErr, IfOk, None, OnErr, OnOk, Some, get_or, true};
ghost use Rattle.tv_base.specs.Entries.{one_more, is_numbered, released};
ghost use Rattle.tv_base.specs.Places.{change_at};
ghost use Rattle.tv_device.specs.Calls.{Frees};
ghost use Rattle.tv_device.specs.Images.{KeepsDisk};
ghost use Rattle.tv_device.specs.View.{OnlyLocks, OnlyReads};
ghost use Rattle.tv_formats.specs.Commits.{Commit};
ghost use Rattle.tv_formats.specs.Segments.{all_required};
ghost use Rattle.tv_index.specs.Indexes.{KeepsIndex};
ghost use Rattle.tv_managed.specs.Collecting.{meta_lock_name};
ghost use Rattle.tv_reader.specs.Bodies.{UnreadCause};
ghost use Rattle.tv_reader.specs.Readers.{Abandons, AreMost, CountCause, FilesRead, IsLocked, IsReadOut, Noted, OfNoted, OfRead, live_generations, shows_live};
ghost use Rattle.tv_reader.specs.ReaderStates.{PublishCause, Publishes, PublishesReload, seen, warming_of};
ghost use Rattle.tv_reader.specs.Reloads.{AreBodies, IsOfCommit, LoadCause, LoadsLast, LocksMeta, NoteCause, NotesLast, UnderFaults};
ghost use Rattle.tv_reader.specs.Searchers.{CommitRead};
ghost use Rattle.tv_reader.specs.Warming.{Collects, without_warmer};
ghost use Rattle.tv_reader.specs.WarmingStates.{warmers_of};

use crate::loading::{free_lock, note_last, read_files};
use crate::published::Published;
use crate::publishing::{collect, publish_last, publish_read};
use crate::searcher::Searcher;
use crate::warmer::Warmer;
use crate::warming_state::WarmingState;
use tv_base::{Memory, Opstamp, TantivyError};
use tv_device::Directory;
use tv_index::Index;

/// Shows a commit of an index until a later one is published. It counts its searchers by tickets, of
/// which it has one itself. Where it is dropped while a reload holds the meta lock, the lock stays
/// held: `reload_abandon` gives it back.
#[derive(Drop)]
pub struct IndexReader {
    pub(crate) published: Published,
    pub(crate) warming: WarmingState,
}

// Its searchers and its warmers.
impl IndexReader {
    /// The number under which the next commit is shown. It is above the number of what is shown. Takes no
    /// memory.
    pub fn next_generation(&self) -> u64
        ensures next { result ≡ (seen self.now).next }
        ensures above { (seen self.now).shown.shown.generation.id < result }
    {
        self.published.next_generation()
    }

    /// A searcher of the commit that is shown, which it shows for life.
    ///
    /// `Exhausted` comes exactly where as many searchers are out as can be counted.
    pub fn searcher(&mut self) -> Result<Searcher, TantivyError>
        ensures searcher { IfOk result (λ searcher. searcher ≡ (seen self.old).shown) }
        ensures ok { OnOk result (seen self.new ≡ record (seen self.old) {
          searchers = record (seen self.old).searchers {
            entries = change_at (is_numbered (seen self.old).shown.ticket) one_more
                (seen self.old).searchers.entries;
          };
        }) }
        ensures counts { OnOk result
            (AreMost (seen self.old).shown.ticket (seen self.old).searchers.entries → ⊥) }
        ensures err { OnErr result (self.new ≡ self.old) }
        ensures cause { IfErr result (CountCause
            (AreMost (seen self.old).shown.ticket (seen self.old).searchers.entries)) }
        ensures frame { warming_of self.new ≡ warming_of self.old }
    {
        self.published.searcher()
    }

    /// Gives a searcher of this reader back. One of another reader counts as one of this reader's whose
    /// ticket has the same number, where there is one, and else nothing changes. What is shown stays
    /// live as long as only its own searchers are given back. Takes no memory.
    pub fn release(&mut self, searcher: Searcher)
        ensures released { seen self.new ≡ record (seen self.old) {
          searchers = record (seen self.old).searchers {
            entries = released searcher.ticket (seen self.old).searchers.entries;
          };
        } }
        ensures frame { warming_of self.new ≡ warming_of self.old }
    {
        self.published.release(searcher);
    }

    /// Calls the warmers exactly where a generation that was warmed isn't live any more, and tells
    /// whether it did. Then the live ones are taken as warmed. Live are those of which a searcher is
    /// out, and the one that is shown, as long as only its own searchers are given back.
    pub fn gc_maybe(&mut self) -> Result<bool, Memory>
        ensures collects { IfOk result (Collects (λ w. errors w) (λ w. test w) (λ w. called_for w)
            (live_generations (seen self.old)) (warmers_of (warming_of self.old))
            (warmers_of (warming_of self.new))) }
        ensures err { OnErr result (self.new ≡ self.old) }
        ensures frame { seen self.new ≡ seen self.old }
    {
        collect(&self.published, &mut self.warming.warmers)
    }

    /// The warmer of a number, counted from 0 at building, taken out; `None` exactly where none of this
    /// number is left. Takes no memory.
    pub fn release_warmer(&mut self, number: usize) -> Option<Box<dyn Warmer + Send + Drop>>
        ensures warmer { result ≡ get_or (warmers_of (warming_of self.old)).left number None }
        ensures left { warmers_of (warming_of self.new)
            ≡ without_warmer number (warmers_of (warming_of self.old)) }
        ensures frame { seen self.new ≡ seen self.old }
    {
        self.warming.release_warmer(number)
    }
}

// How a commit is shown.
impl IndexReader {
    /// Shows the last commit of the index, once each warmer was called. The meta lock is held while the
    /// commit's files are read, and free again then. After an error what was shown is shown.
    ///
    /// `LockBusy` in `LockFailure` comes exactly where the meta lock is held, if the directory tells its
    /// locks, and else only where the count of its faults rose; `OpenReadError` for a file of the commit
    /// that isn't there or not good; `Exhausted` of its own exactly where no number is left; and a
    /// warmer's error, which may be `Exhausted` too, only where the count of one of the reader's warmers
    /// rose: then a number was counted. The other errors are those of `Index::load_metas`.
    pub fn reload<D: Directory>(&mut self, index: &mut Index<D>) -> Result<(), TantivyError>
        requires idle { (seen self.old).reload ≡ None }
        ensures ok { OnOk result ((commit : CommitRead)
            × LoadsLast D.Directory index.old index.new commit
            × Publishes (λ w. errors w) (λ w. test w) (λ w. called_for w) commit self.old self.new) }
        ensures rises { OnOk result ((seen self.old).shown.shown.generation.id
            < (seen self.new).shown.shown.generation.id) }
        ensures live { OnOk result (shows_live (seen self.new) ≡ true) }
        ensures err { OnErr result (((seen self.new).shown ≡ (seen self.old).shown)
            × ((seen self.new).reload ≡ None)) }
        ensures cause { IfErr result (λ e.
            ((self.new ≡ self.old) × LoadCause D.Directory index.old index.new e)
            ⊎ ((commit : CommitRead) × LoadsLast D.Directory index.old index.new commit
            × PublishCause (λ w. errors w) (λ w. test w) (λ w. called_for w) commit
            self.old self.new e)) }
        ensures frame { KeepsIndex (OnlyReads D.told) D.view index.old index.new }
        ensures images { D.tells_images
            → KeepsDisk (D.disk index.old.directory.0) (D.disk index.new.directory.0) }
    {
        publish_last(&mut self.published, &mut self.warming.warmers, index)
    }
}

// A reload in steps.
impl IndexReader {
    /// Begins a reload: notes the last commit under the meta lock, which is held from then on, and
    /// answers its number. After an error nothing changed, and the lock isn't held by this call.
    ///
    /// Errors are those of `Index::load_metas`, and `LockBusy` in `LockFailure` exactly where the meta
    /// lock is held, if the directory tells its locks, and else only where the count of its faults rose.
    pub fn reload_lock<D: Directory>(
        &mut self,
        index: &mut Index<D>,
    ) -> Result<Opstamp, TantivyError>
        requires idle { (seen self.old).reload ≡ None }
        ensures notes { IfOk result (λ opstamp. (schema : List ℕ) × (commit : Commit)
            × NotesLast D.Directory index.old schema commit × (opstamp ≡ commit.opstamp)
            × (seen self.new ≡ record (seen self.old) {
              reload = Some (Noted schema commit meta_lock_name);
            })) }
        ensures err { OnErr result (self.new ≡ self.old) }
        ensures locks { LocksMeta D.told (D.view index.old.directory.0)
            (D.view index.new.directory.0) result }
        ensures faults { UnderFaults D.Directory index.old index.new
            (NoteCause D.Directory index.old index.new) result }
        ensures frame { KeepsIndex (OnlyLocks D.told) D.view index.old index.new
            × (warming_of self.new ≡ warming_of self.old) }
        ensures images { D.tells_images
            → KeepsDisk (D.disk index.old.directory.0) (D.disk index.new.directory.0) }
    {
        let (meta, lock) = note_last(self.published.allocator(), index)?;
        let opstamp = meta.opstamp;
        self.published.note(meta, lock);
        Ok(opstamp)
    }

    /// Reads the files of the commit that was noted, and gives the meta lock back. After an error the
    /// reload stands as it was, and the lock is held.
    ///
    /// `OpenReadError` comes for the first of the files that isn't there or not good.
    pub fn reload_open<D: Directory>(&mut self, index: &mut Index<D>) -> Result<(), TantivyError>
        requires locked { IsLocked (seen self.old).reload }
        ensures read { OnOk result ((read : CommitRead) × AreBodies D.Directory index.old.directory.0 read
            × OfNoted (seen self.old).reload (λ schema commit lock. IsOfCommit schema commit read)
            × (seen self.new ≡ record (seen self.old) { reload = Some (FilesRead read) })) }
        ensures freed { OnOk result (OfNoted (seen self.old).reload (λ schema commit lock.
            KeepsIndex (Frees D.told lock) D.view index.old index.new)) }
        ensures err { OnErr result ((self.new ≡ self.old)
            × KeepsIndex (OnlyReads D.told) D.view index.old index.new) }
        ensures cause { IfErr result (λ e. OfNoted (seen self.old).reload (λ schema commit lock.
            UnreadCause D.Directory index.old.directory.0 index.new.directory.0
            (all_required commit.segments) e)) }
        ensures frame { warming_of self.new ≡ warming_of self.old }
        ensures images { D.tells_images
            → KeepsDisk (D.disk index.old.directory.0) (D.disk index.new.directory.0) }
    {
        let meta = self.published.noted()?;
        let commit = read_files(self.published.allocator(), meta, index)?;
        let lock = self.published.end_reading(commit);
        free_lock(index, lock);
        Ok(())
    }

    /// Shows the commit of the reload whose files were read, once each warmer was called, and answers
    /// its number, which is above that of what was shown. The reload ends. After an error the reload
    /// stands, and what was shown is shown; after a warmer's error the number is counted.
    ///
    /// `Exhausted` of its own comes exactly where no number is left, and a warmer's error, which may be
    /// `Exhausted` too, only where the count of one of the reader's warmers rose.
    pub fn reload_publish(&mut self) -> Result<u64, TantivyError>
        requires read { IsReadOut (seen self.old).reload }
        ensures id { IfOk result (λ id. id ≡ (seen self.old).next) }
        ensures rises { IfOk result (λ id. (seen self.old).shown.shown.generation.id < id) }
        ensures ok { OnOk result (OfRead (seen self.old).reload (λ commit.
            PublishesReload (λ w. errors w) (λ w. test w) (λ w. called_for w) commit
            self.old self.new)) }
        ensures live { OnOk result (shows_live (seen self.new) ≡ true) }
        ensures err { OnErr result (((seen self.new).shown ≡ (seen self.old).shown)
            × ((seen self.new).reload ≡ (seen self.old).reload)) }
        ensures cause { IfErr result (λ e. OfRead (seen self.old).reload (λ commit.
            PublishCause (λ w. errors w) (λ w. test w) (λ w. called_for w) commit
            self.old self.new e)) }
    {
        publish_read(&mut self.published, &mut self.warming.warmers)
    }

    /// Ends an unfinished reload, and gives its lock back; with none, nothing changes. Takes no memory.
    pub fn reload_abandon<D: Directory>(&mut self, index: &mut Index<D>)
        ensures ended { seen self.new ≡ record (seen self.old) { reload = None } }
        ensures freed { Abandons D.told D.view (seen self.old).reload index.old index.new }
        ensures frame { warming_of self.new ≡ warming_of self.old }
        ensures images { D.tells_images
            → KeepsDisk (D.disk index.old.directory.0) (D.disk index.new.directory.0) }
    {
        if let Some(lock) = self.published.end_reload() {
            free_lock(index, lock);
        }
    }
}
