//! What a reader shows, whom it counts, and the reload that isn't finished.
ghost use Rattle.std.specs.Prelude.{◌≡◌, ◌<◌, ◌+◌, IfErr, IfOk, None, OnErr, OnOk, Some, find, map};
ghost use Rattle.std.specs.Arc.{arc_value};
ghost use Rattle.tv_base.specs.Entries.{one_more, is_numbered, released};
ghost use Rattle.tv_base.specs.Places.{change_at};
ghost use Rattle.tv_metas.specs.Metas.{commit_of};
ghost use Rattle.tv_reader.specs.Readers.{AreMost, CountCause, FilesRead, IsLocked, IsReadOut, Noted, OfNoted, OfRead, counted, held_by, live_generations, opened, showing};
ghost use Rattle.tv_reader.specs.Searchers.{shown_as};

use crate::generation::SearcherGeneration;
use crate::reload::Reload;
use crate::searcher::{ReadCommit, Searcher, Shown};
use std::alloc::Global;
use std::marker::Model;
use std::mem;
use std::sync::Arc;
use tv_base::{Inventory, Memory, TantivyError};
use tv_device::DirectoryLock;
use tv_machine::ReloadPolicy;
use tv_metas::UntrackedIndexMeta;

/// What searchers of one ticket show.
#[derive(Drop)]
pub(crate) struct Counted {
    shown: Arc<Shown, Global>,
}

impl Model for Counted {
    ghost use Rattle.std.specs.Arc.{arc_value};
    ghost use Rattle.tv_reader.specs.Searchers.{CommitShown};

    ghost Value = { CommitShown };

    ghost view = { λ c. arc_value c.shown };
}

/// What a reader shows, whom it counts, and the reload that isn't finished. It has a ticket of its own
/// for what it shows.
#[derive(Drop)]
pub(crate) struct Published {
    policy: ReloadPolicy,
    next: u64,
    shown: Searcher,
    searchers: Inventory<Counted>,
    reload: Option<Reload>,
}

impl Model for Published {
    ghost use Rattle.std.specs.Prelude.{◌<◌, option_map};
    ghost use Rattle.tv_reader.specs.Readers.{ReaderState, reload_of};

    ghost Value = { ReaderState };

    ghost view = { λ p. record {
      policy = p.policy;
      next = p.next;
      shown = p.shown;
      searchers = p.searchers;
      reload = option_map reload_of p.reload;
    } };

    ghost invariant = { λ p. (p.shown.shown.generation.id < p.next)
        × (p.shown.ticket < p.searchers.next) };
}

impl Published {
    // Shows this commit under the number 0.
    pub(crate) fn new(
        alloc: Global,
        policy: ReloadPolicy,
        commit: Arc<ReadCommit, Global>,
    ) -> Result<Published, Memory>
        ensures { IfOk result (λ p. p ≡ opened policy (arc_value commit)) }
    {
        let shown = shown_under(alloc, commit, 0)?;
        let mut searchers = Inventory::new(alloc);
        let ticket = searchers.track(share_of(&shown)?)?;
        Ok(Published {
            policy,
            next: 1,
            shown: Searcher::new(ticket, shown),
            searchers,
            reload: None,
        })
    }

    // The allocator that it was made with. Takes no memory.
    pub(crate) fn allocator(&self) -> Global {
        self.shown.allocator()
    }

    // The number of the next commit that is shown. It is above that of what is shown.
    pub(crate) fn next_generation(&self) -> u64
        ensures next { result ≡ self.now.next }
        ensures above { self.now.shown.shown.generation.id < result }
    {
        self.next
    }

    // What is shown.
    pub(crate) fn shown(&self) -> &Searcher
        ensures { result.now ≡ self.now.shown }
    {
        &self.shown
    }

    // One more searcher of what is shown.
    pub(crate) fn searcher(&mut self) -> Result<Searcher, TantivyError>
        ensures searcher { IfOk result (λ searcher. searcher ≡ self.old.shown) }
        ensures ok { OnOk result (self.new ≡ record self.old {
          searchers = record self.old.searchers {
            entries = change_at (is_numbered self.old.shown.ticket) one_more
                self.old.searchers.entries;
          };
        }) }
        ensures counts { OnOk result
            (AreMost self.old.shown.ticket self.old.searchers.entries → ⊥) }
        ensures err { OnErr result (self.new ≡ self.old) }
        ensures cause { IfErr result (CountCause
            (AreMost self.old.shown.ticket self.old.searchers.entries)) }
    {
        let shown = self.shown.share()?;
        match self.searchers.share(self.shown.ticket()) {
            Ok(ticket) => Ok(Searcher::new(ticket, shown)),
            Err(_) => Err(TantivyError::Exhausted),
        }
    }

    // Gives a searcher back. Takes no memory.
    pub(crate) fn release(&mut self, searcher: Searcher)
        ensures { self.new ≡ record self.old {
          searchers = record self.old.searchers {
            entries = released searcher.ticket self.old.searchers.entries;
          };
        } }
    {
        self.searchers.release(searcher.into_ticket());
    }

    // A searcher of a commit under the next number, which is counted.
    pub(crate) fn count(
        &mut self,
        commit: Arc<ReadCommit, Global>,
    ) -> Result<Searcher, TantivyError>
        ensures searcher { IfOk result (λ searcher. searcher ≡ record {
          ticket = self.old.searchers.next;
          shown = shown_as self.old.next (arc_value commit);
        }) }
        ensures ok { OnOk result
            (self.new ≡ counted self.old (shown_as self.old.next (arc_value commit))) }
        ensures fresh { OnOk result
            ((find (is_numbered self.old.searchers.next) self.old.searchers.entries ≡ None)
            × (self.old.shown.ticket < self.old.searchers.next)) }
        ensures err { OnErr result (self.new ≡ self.old) }
        ensures cause { IfErr result (CountCause (self.old.next ≡ 18446744073709551615)) }
    {
        let id = self.next;
        if id == u64::MAX {
            return Err(TantivyError::Exhausted);
        }
        let shown = shown_under(self.allocator(), commit, id)?;
        let ticket = self.searchers.track(share_of(&shown)?)?;
        self.next = id + 1;
        Ok(Searcher::new(ticket, shown))
    }

    // Shows what a searcher shows whose number was counted, and gives the ticket of what was shown before
    // back. Takes no memory.
    pub(crate) fn show(&mut self, searcher: Searcher)
        requires below { searcher.shown.generation.id < self.old.next }
        requires counted { searcher.ticket < self.old.searchers.next }
        ensures { self.new ≡ showing self.old searcher }
    {
        let before = mem::replace(&mut self.shown, searcher);
        self.searchers.release(before.into_ticket());
    }

    // The generations that are live.
    pub(crate) fn live(&self) -> Result<Vec<SearcherGeneration>, Memory>
        ensures { IfOk result (λ live. live.items ≡ live_generations self.now) }
    {
        generations_of(self.allocator(), &self.searchers)
    }
}

// The reload that isn't finished.
impl Published {
    // The commit that was noted.
    pub(crate) fn noted(&self) -> Result<Arc<UntrackedIndexMeta, Global>, Memory>
        requires { IsLocked self.now.reload }
        ensures { IfOk result (λ meta. OfNoted self.now.reload (λ schema commit lock.
            ((arc_value meta).schema ≡ schema) × (commit_of (arc_value meta) ≡ commit))) }
    {
        match &self.reload {
            Some(Reload::Locked(meta, _)) => Ok(Arc::try_clone(meta)?),
            _ => unreachable!(),
        }
    }

    // The commit whose files were read.
    pub(crate) fn read(&self) -> Result<Arc<ReadCommit, Global>, Memory>
        requires { IsReadOut self.now.reload }
        ensures { IfOk result (λ read. OfRead self.now.reload (λ commit. arc_value read ≡ commit)) }
    {
        match &self.reload {
            Some(Reload::Read(commit)) => Ok(Arc::try_clone(commit)?),
            _ => unreachable!(),
        }
    }

    // A reload noted this commit, and the meta lock is held by this token. Takes no memory.
    pub(crate) fn note(&mut self, meta: Arc<UntrackedIndexMeta, Global>, lock: DirectoryLock)
        ensures { self.new ≡ record self.old {
          reload = Some (Noted (arc_value meta).schema (commit_of (arc_value meta)) lock);
        } }
    {
        self.reload = Some(Reload::Locked(meta, lock));
    }

    // The files of the reload were read. Answers the token of its lock. Takes no memory.
    pub(crate) fn end_reading(&mut self, commit: Arc<ReadCommit, Global>) -> DirectoryLock
        requires { IsLocked self.old.reload }
        ensures lock { OfNoted self.old.reload (λ schema commit lock. result ≡ lock) }
        ensures read { self.new ≡ record self.old { reload = Some (FilesRead (arc_value commit)) } }
    {
        match mem::replace(&mut self.reload, Some(Reload::Read(commit))) {
            Some(Reload::Locked(_, lock)) => lock,
            _ => unreachable!(),
        }
    }

    // The reload ends. Answers the token of its lock, where it has one. Takes no memory.
    pub(crate) fn end_reload(&mut self) -> Option<DirectoryLock>
        ensures lock { result ≡ held_by self.old.reload }
        ensures ended { self.new ≡ record self.old { reload = None } }
    {
        match self.reload.take() {
            Some(Reload::Locked(_, lock)) => Some(lock),
            _ => None,
        }
    }
}

// One more share of what is shown.
fn share_of(shown: &Arc<Shown, Global>) -> Result<Counted, Memory>
    ensures { IfOk result (λ counted. counted ≡ arc_value shown.now) }
{
    Ok(Counted {
        shown: Arc::try_clone(shown)?,
    })
}

// A commit whose files were read, shown under a number.
fn shown_under(
    alloc: Global,
    commit: Arc<ReadCommit, Global>,
    id: u64,
) -> Result<Arc<Shown, Global>, Memory>
    ensures { IfOk result (λ shown. arc_value shown ≡ shown_as id (arc_value commit)) }
{
    let readers = commit.segment_readers.as_slice();
    let generation = SearcherGeneration::from_segment_readers(alloc, readers, id)?;
    Ok(Arc::new(alloc, Shown { generation, commit })?)
}

// The generation of what is shown, as a value of its own.
fn generation_of(alloc: Global, counted: &Counted) -> Result<SearcherGeneration, Memory>
    ensures { IfOk result (λ g. g ≡ counted.now.generation) }
{
    let shown = &counted.shown;
    let readers = shown.commit.segment_readers.as_slice();
    SearcherGeneration::from_segment_readers(alloc, readers, shown.generation.generation_id())
}

// The generations of these, in their order.
fn generations_in(alloc: Global, counted: &[&Counted]) -> Result<Vec<SearcherGeneration>, Memory>
    ensures { IfOk result (λ live. live.items ≡ map (λ c. c.now.generation) counted.now) }
{
    let mut live = Vec::new(alloc);
    for shown in counted {
        live.push(generation_of(alloc, shown)?)?;
    }
    Ok(live)
}

// The generations of what is counted.
fn generations_of(
    alloc: Global,
    searchers: &Inventory<Counted>,
) -> Result<Vec<SearcherGeneration>, Memory>
    ensures { IfOk result (λ live.
        live.items ≡ map (λ e. e.value.generation) searchers.now.entries) }
{
    let counted = searchers.list()?;
    generations_in(alloc, counted.as_slice())
}
