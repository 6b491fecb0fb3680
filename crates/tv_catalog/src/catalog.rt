//! What is known of an index without asking its directory.
ghost use Rattle.std.specs.Prelude.{◌≡◌, ◌<◌, ◌+◌, ◌||◌, List, ℕ, IfErr, IfOk, None, OnErr, OnOk, map, option_map, string_bytes, Some, true};
ghost use Rattle.std.specs.Option.{option_copied};
ghost use Rattle.std.specs.List.{AllByRecursion, list_all};
ghost use Rattle.tv_machine.specs.CommitEvents.{chosen, first_unknown, last_stamp};
ghost use Rattle.tv_machine.specs.Living.{is_busy, living};
ghost use Rattle.tv_machine.specs.DeleteEvents.{is_committed_delete, next_deletes, with_deletes};
ghost use Rattle.tv_machine.specs.Index.{as_opened};
ghost use Rattle.tv_formats.specs.Names.{at, has, is_plain};
ghost use Rattle.tv_machine.specs.ReloadEvents.{with_notices};
ghost use Rattle.tv_machine.specs.ReportEvents.{committed_names};
ghost use Rattle.tv_formats.specs.Commits.{Commit as CommitState, IsSegment};
ghost use Rattle.tv_catalog.specs.Actions.{catalog_after, settled};
ghost use Rattle.tv_catalog.specs.Plans.{CanChange, TakesNoMemory};
ghost use Rattle.tv_catalog.specs.declared.action.Reply.TheVariants as replies;
ghost use Rattle.tv_machine.specs.State.{live_at, no_readers, reader_at};

use crate::action::{Change, Reply};
use crate::chosen::choose;
use std::alloc::Global;
use std::collections::{BTreeMap, BTreeSet};
use std::marker::Model;
use tv_base::{Exhausted, Stamper};
use tv_formats::{DeleteMeta, FileName, LiveSegment, Memory, Opstamp, SegmentComponent, SegmentId};
use tv_metas::naming::{has_name, shared_names};
use tv_snapshots::commit::{Commit, listed};
use tv_snapshots::names::{file_of, names_among, needed_names};
use tv_snapshots::reader::{Reader, Reload};
use tv_snapshots::readers::Readers;
use tv_snapshots::snapshot::Snapshot;

/// The live segments, what draws the number of the next commit, the current commit, and who reads.
#[derive(Drop)]
pub struct Catalog {
    pub alloc: Global,
    pub live: BTreeMap<SegmentId, LiveSegment>,
    pub stamper: Stamper,
    pub commit: Commit,
    pub readers: Readers,
}

impl Model for Catalog {
    ghost use Rattle.tv_machine.specs.State.{Catalog as CatalogState};

    ghost Value = { CatalogState };

    ghost view = { λ a. record {
      live = a.live.entries;
      next = a.stamper;
      commit = a.commit;
      reading = a.readers;
    } };
}

impl Catalog {
    /// That of an index with these live segments and this commit, where nobody reads. Takes no memory.
    pub fn new(
        alloc: Global,
        live: BTreeMap<SegmentId, LiveSegment>,
        next: Opstamp,
        commit: Commit,
    ) -> Catalog
        ensures { result ≡ record {
          live = live.entries;
          next = next;
          commit = commit;
          reading = no_readers;
        } }
    {
        Catalog {
            alloc,
            live,
            stamper: Stamper::new(next),
            commit,
            readers: Readers::new(alloc),
        }
    }

    /// That of an index that was just opened with this commit.
    pub fn opened(alloc: Global, commit: Commit) -> Result<Catalog, Memory>
        ensures opened { IfOk result (λ catalog. catalog ≡ as_opened catalog) }
        ensures commit { IfOk result (λ catalog. catalog.commit ≡ commit) }
    {
        let live = commit.by_id().clone()?;
        Ok(Catalog::new(alloc, live, commit.next_opstamp(), commit))
    }

    /// The live segment of this id. Takes no memory.
    pub fn live_segment(&self, id: SegmentId) -> Option<LiveSegment>
        ensures { result ≡ live_at self.now id }
    {
        self.live.get(&id).copied()
    }

    /// The number that the next commit gets. Takes no memory.
    pub fn next_opstamp(&self) -> Opstamp
        ensures { result ≡ self.now.next }
    {
        self.stamper.next()
    }

    /// The current commit. Takes no memory.
    pub fn commit(&self) -> &Commit
        ensures { result.now ≡ self.now.commit }
    {
        &self.commit
    }

    /// Makes this commit the current one, and tells it to the readers that follow commits. Takes no
    /// memory.
    pub fn set_commit(&mut self, commit: Commit)
        requires { self.old.next < last_stamp }
        ensures { self.new ≡ record self.old {
          next = self.old.next + 1;
          commit = commit;
          reading = with_notices self.old.reading;
        } }
    {
        self.commit = commit;
        self.readers.tell();
        self.draw();
    }

    // Draws the next stamp. Takes no memory.
    fn draw(&mut self) -> Opstamp
        requires { self.old.next < last_stamp }
        ensures stamp { result ≡ self.old.next }
        ensures drawn { self.new ≡ record self.old { next = self.old.next + 1 } }
    {
        match self.stamper.stamp() {
            Ok(stamp) => stamp,
            Err(Exhausted) => unreachable!(),
        }
    }

    // So many documents of a live segment are deleted, and the next stamp is drawn for them.
    fn set_deletes(&mut self, id: SegmentId, segment: LiveSegment, n: u32) -> Result<(), Memory>
        requires { self.old.next < last_stamp }
        ensures deletes { OnOk result (self.new ≡ with_deletes self.old id segment n) }
        ensures kept { OnErr result (self.new ≡ self.old) }
    {
        let deletes = Some(self.next_deletes(n));
        self.live.insert(id, LiveSegment { deletes, ..segment })?;
        self.draw();
        Ok(())
    }

    // The catalog is what an opening makes of it, where these are the segments of the current commit.
    // Takes no memory.
    fn reopen(&mut self, segments: BTreeMap<SegmentId, LiveSegment>)
        requires { segments.entries ≡ self.old.commit.segments }
        ensures { self.new ≡ as_opened self.old }
    {
        self.live = segments;
        self.stamper.revert(self.commit.next_opstamp());
        self.readers = Readers::new(self.alloc);
    }

    // Makes a change, where nothing was loaded. Only deletes take memory.
    fn change(&mut self, change: Change) -> Result<(), Memory>
        requires { CanChange self.old change }
        ensures changed { OnOk result (self.new ≡ catalog_after self.old change None) }
        ensures sure { TakesNoMemory change → IfErr result (λ error. ⊥) }
        ensures kept { OnErr result (self.new ≡ self.old) }
    {
        match change {
            Change::Nothing => Ok(()),
            Change::Deletes(id, segment, n) => self.set_deletes(id, segment, n),
            Change::Release(id) => {
                self.live.remove(&id);
                Ok(())
            }
            Change::Reopen(segments) => {
                self.reopen(segments);
                Ok(())
            }
            Change::Note(number, commit) => {
                self.readers.set_reload(number, Reload::Locked(commit));
                Ok(())
            }
            Change::EndReader(number) => {
                let _ended = self.readers.release_reader(number);
                Ok(())
            }
            Change::AddReader(_) | Change::Publish(_) | Change::Keep(_) | Change::Deliver => Ok(()),
        }
    }

    // Makes a change, where this was loaded.
    fn change_with(&mut self, change: Change, shown: Snapshot) -> Result<(), Memory>
        requires { CanChange self.old change }
        ensures changed { OnOk result (self.new ≡ catalog_after self.old change (Some shown)) }
        ensures sure { TakesNoMemory change → IfErr result (λ error. ⊥) }
        ensures kept { OnErr result (self.new ≡ self.old) }
    {
        match change {
            Change::AddReader(policy) => self.readers.add_reader(policy, shown),
            Change::Publish(number) => {
                self.readers.publish(number, shown);
                Ok(())
            }
            Change::Keep(number) => {
                self.readers.set_reload(number, Reload::Read(shown));
                Ok(())
            }
            Change::Deliver => self.readers.serve(&shown),
            other => self.change(other),
        }
    }

    /// What is known beside the files once this came of an action: a commit that was saved is the current
    /// one, else the change is made. Nothing takes memory after a save, nor where the meta lock was taken
    /// or given back for a reload; where memory is wanted, all that is known stays.
    pub fn settle(&mut self, change: Change, reply: Reply) -> Result<(), Memory>
        requires change { CanChange self.old change }
        requires next { (commit : CommitState) → reply ≡ replies.Saved commit
            → self.old.next < last_stamp }
        ensures settled { OnOk result (self.new ≡ settled self.old change reply) }
        ensures saved { (commit : CommitState) → reply ≡ replies.Saved commit
            → IfErr result (λ error. ⊥) }
        ensures sure { TakesNoMemory change → IfErr result (λ error. ⊥) }
        ensures kept { OnErr result (self.new ≡ self.old) }
    {
        match reply {
            Reply::Saved(commit) => {
                self.set_commit(commit);
                Ok(())
            }
            Reply::Loaded(shown) => self.change_with(change, shown),
            _ => self.change(change),
        }
    }

    /// The deletes of a segment that has so many deleted documents from now on. Takes no memory.
    pub fn next_deletes(&self, num_deleted_docs: u32) -> DeleteMeta
        ensures { result ≡ next_deletes self.now num_deleted_docs }
    {
        DeleteMeta {
            num_deleted_docs,
            opstamp: self.next_opstamp(),
        }
    }

    // Whether this is the name of the segment's delete file in the current commit.
    fn is_committed_delete(&self, id: SegmentId, name: &FileName) -> Result<bool, Memory>
        ensures { IfOk result (λ is. is
            ≡ is_committed_delete (at self.now.commit.segments id) id name.now) }
    {
        let Some(segment) = self.commit.segment(id) else {
            return Ok(false);
        };
        let committed = file_of(self.alloc, id, segment.deletes, SegmentComponent::Delete)?;
        Ok(committed == *name)
    }

    /// Whether the name is managed, or that of the segment's delete file in the current commit.
    pub fn is_name_in_use(
        &self,
        managed: &BTreeSet<String>,
        id: SegmentId,
        name: &FileName,
    ) -> Result<bool, Memory>
        ensures { IfOk result (λ taken. taken ≡ (has (map string_bytes managed.now.keys) name.now
            || is_committed_delete (at self.now.commit.segments id) id name.now)) }
    {
        if has_name(managed, name.as_str()) {
            return Ok(true);
        }
        self.is_committed_delete(id, name)
    }

    /// A copy of the segments of the current commit, by their ids.
    pub fn committed(&self) -> Result<BTreeMap<SegmentId, LiveSegment>, Memory>
        ensures { IfOk result (λ segments. segments.entries ≡ self.now.commit.segments) }
    {
        let segments = self.commit.by_id().clone()?;
        Ok(segments)
    }

    /// The named live segments that have living documents, or the first name that isn't live.
    pub fn chosen(
        &self,
        ids: &[SegmentId],
    ) -> Result<Result<BTreeMap<SegmentId, LiveSegment>, SegmentId>, Memory>
        ensures segments { IfOk result (λ found. IfOk found
            (λ segments. segments.entries ≡ chosen self.now ids.now)) }
        ensures sound { IfOk result (λ found. IfOk found
            (λ segments. AllByRecursion IsSegment segments.entries)) }
        ensures known { IfOk result (λ found. OnOk found
            (first_unknown self.now ids.now ≡ None)) }
        ensures unknown { IfOk result (λ found. IfErr found
            (λ id. first_unknown self.now ids.now ≡ Some id)) }
    {
        choose(self.alloc, &self.live, ids)
    }

    /// The names of the files that are needed.
    pub fn living(&self) -> Result<BTreeSet<String>, Memory>
        ensures { IfOk result (λ set. (n : List ℕ)
            → has (map string_bytes set.keys) n ≡ has (living self.now) n) }
    {
        let committed = self.commit.segments(self.alloc)?;
        let live = listed(self.alloc, &self.live)?;
        needed_names(self.alloc, committed.as_slice(), live.as_slice())
    }

    /// Those of the managed names that the segments of the current commit have.
    pub fn committed_names(&self, managed: &BTreeSet<String>) -> Result<Vec<FileName>, Memory>
        requires { list_all is_plain (map string_bytes managed.now.keys) ≡ true }
        ensures { IfOk result (λ names. names.items
            ≡ committed_names self.now (map string_bytes managed.now.keys)) }
    {
        let segments = self.commit.segments(self.alloc)?;
        let committed = names_among(self.alloc, segments.as_slice())?;
        shared_names(self.alloc, managed, &committed)
    }

    /// The reader of this number. Takes no memory.
    pub(crate) fn reader(&self, number: u64) -> Option<&Reader>
        ensures { option_copied result ≡ reader_at self.now number }
    {
        self.readers.reader(number)
    }

    /// What the reader of this number shows, where there is one. Takes no memory.
    pub fn shown_by(&self, number: u64) -> Option<&Snapshot>
        ensures { option_copied result
            ≡ option_map (λ reader. reader.shown) (reader_at self.now number) }
    {
        let reader = self.reader(number)?;
        Some(reader.shown())
    }

    /// Whether the meta lock is held for a reload. Takes no memory.
    pub fn is_busy(&self) -> bool
        ensures { result ≡ is_busy self.now }
    {
        self.readers.is_busy()
    }

    /// Who reads. Takes no memory.
    pub(crate) fn readers(&self) -> &Readers
        ensures { result.now ≡ self.now.reading }
    {
        &self.readers
    }
}
