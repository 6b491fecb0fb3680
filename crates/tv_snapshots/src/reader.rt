//! A reader, and its reload in steps.
ghost use Rattle.std.specs.Prelude.{◌≡◌, ◌<◌, ◌+◌, false, true, IfOk, is_some, None, Option, Some};
ghost use Rattle.std.specs.Option.{option_copied, option_map};
ghost use Rattle.tv_machine.specs.CommitEvents.{last_stamp};
ghost use Rattle.tv_machine.specs.Living.{is_locked, unread_by};
ghost use Rattle.tv_machine.specs.ReaderEvents.{new_reader};
ghost use Rattle.tv_machine.specs.ReloadEvents.{served, snapshot_read, told_of_commit};
ghost use Rattle.tv_machine.specs.State.{Reader as ReaderState, Snapshot as Shown};
ghost use Rattle.tv_snapshots.specs.Reloads.{reload_of};

use crate::commit::Commit;
use crate::snapshot::Snapshot;
use std::alloc::Global;
use std::marker::Model;
use tv_formats::Memory;
use tv_machine::ReloadPolicy;

/// A reload in steps that isn't finished.
#[derive(Drop)]
pub enum Reload {
    /// The commit is noted, and the meta lock is held until its files are read.
    Locked(Commit),
    /// The files of the commit are read, and the lock is free.
    Read(Snapshot),
}

/// A reader: when it is to reload, the number of its next snapshot, what it shows, whether it was told of
/// a commit for which it is yet to reload, and its reload in steps, where one isn't finished.
#[derive(Drop)]
pub struct Reader {
    policy: ReloadPolicy,
    pub(crate) next: u64,
    pub(crate) shown: Snapshot,
    pub(crate) has_notice: bool,
    reload: Option<Reload>,
}

impl Model for Reader {
    ghost use Rattle.std.specs.Option.{option_map};
    ghost use Rattle.tv_machine.specs.State.{Reader as ReaderState};
    ghost use Rattle.tv_snapshots.specs.Reloads.{reload_of};

    ghost Value = { ReaderState };

    ghost view = { λ a. record {
      policy = a.policy;
      next = a.next;
      shown = a.shown;
      has_notice = a.has_notice;
      reload = option_map reload_of a.reload;
    } };
}

impl Reader {
    // A reader that shows this as its first snapshot.
    pub(crate) fn new(policy: ReloadPolicy, shown: Snapshot) -> Reader
        ensures { result ≡ new_reader policy shown }
    {
        Reader {
            policy,
            next: 1,
            shown,
            has_notice: false,
            reload: None,
        }
    }

    /// What it shows. Takes no memory.
    pub fn shown(&self) -> &Snapshot
        ensures { result.now ≡ self.now.shown }
    {
        &self.shown
    }

    /// The number of its next snapshot. Takes no memory.
    pub fn next_generation(&self) -> u64
        ensures { result ≡ self.now.next }
    {
        self.next
    }

    /// Whether it has a reload that isn't finished. Takes no memory.
    pub fn is_reloading(&self) -> bool
        ensures { result ≡ is_some self.now.reload }
    {
        self.reload.is_some()
    }

    /// The commit that its reload has noted, as long as the files are to be read. Takes no memory.
    pub fn noted(&self) -> Option<&Commit>
        ensures { option_copied result ≡ unread_by self.now.reload }
    {
        match &self.reload {
            Some(Reload::Locked(commit)) => Some(commit),
            _ => None,
        }
    }

    // What was read for it, once it was. Takes no memory.
    pub(crate) fn read(&self) -> Option<&Snapshot>
        ensures { option_map {T = Shown} (λ shown. record shown { generation = self.now.next })
            (option_copied result) ≡ snapshot_read self.now.next self.now.reload }
    {
        match &self.reload {
            Some(Reload::Read(shown)) => Some(shown),
            _ => None,
        }
    }

    // Whether its reload holds the meta lock. Takes no memory.
    pub(crate) fn is_locked(&self) -> bool
        ensures { result ≡ is_locked self.now }
    {
        self.noted().is_some()
    }

    // It shows this from now on. Takes no memory.
    pub(crate) fn show(&mut self, shown: Snapshot)
        requires { self.old.next < last_stamp }
        ensures { self.new ≡ record self.old { next = self.old.next + 1; shown = shown } }
    {
        self.shown = shown;
        self.next += 1;
    }

    // Its reload stands so from now on. Takes no memory.
    pub(crate) fn set_reload(&mut self, reload: Reload)
        ensures { self.new ≡ record self.old { reload = Some (reload_of reload) } }
    {
        self.reload = Some(reload);
    }

    // It shows what was read for it, and its reload is finished. Takes no memory.
    pub(crate) fn publish(&mut self)
        requires { self.old.next < last_stamp }
        ensures unlocked { is_locked self.new ≡ false }
        ensures published { (shown : Shown)
            → snapshot_read self.old.next self.old.reload ≡ Some shown
            → self.new ≡ record self.old {
              next = self.old.next + 1;
              shown = shown;
              reload = None;
            } }
    {
        if let Some(Reload::Read(shown)) = self.reload.take() {
            self.show(shown.numbered(self.next));
        }
    }

    // One more such reader.
    pub(crate) fn share(&self, alloc: Global) -> Result<Reader, Memory>
        ensures { IfOk result (λ reader. reader ≡ self.now) }
    {
        let reload = match &self.reload {
            Some(Reload::Locked(commit)) => Some(Reload::Locked(commit.share(alloc)?)),
            Some(Reload::Read(shown)) => Some(Reload::Read(shown.share()?)),
            None => None,
        };
        Ok(Reader {
            policy: self.policy,
            next: self.next,
            shown: self.shown.share()?,
            has_notice: self.has_notice,
            reload,
        })
    }

    // What it is once notices are served with this.
    pub(crate) fn served(&self, alloc: Global, shown: &Snapshot) -> Result<Reader, Memory>
        requires { self.now.has_notice ≡ true → self.now.next < last_stamp }
        ensures { IfOk result (λ reader. reader
            ≡ served shown.now.commit shown.now.bodies self.now) }
    {
        let mut reader = self.share(alloc)?;
        if self.has_notice {
            reader.show(shown.share()?.numbered(self.next));
            reader.has_notice = false;
        }
        Ok(reader)
    }

    // It is told of a commit, where it follows commits. Takes no memory.
    pub(crate) fn tell(&mut self)
        ensures { self.new ≡ told_of_commit self.old }
    {
        if self.policy == ReloadPolicy::OnCommitWithDelay {
            self.has_notice = true;
        }
    }
}
