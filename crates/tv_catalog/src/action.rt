//! What a planned event does to the files, what came of it, and what it changes beside them.
use std::collections::{BTreeMap, BTreeSet};
use std::marker::Model;
use tv_formats::{FileName, LiveSegment, SegmentId};
use tv_machine::{Blob, ReloadPolicy};
use tv_snapshots::commit::Commit;
use tv_snapshots::snapshot::Snapshot;

/// What a planned event does to the files.
#[derive(Drop)]
pub enum Action<'a> {
    /// Nothing.
    Nothing,
    /// An empty file is made, unless its name is taken.
    Make(FileName),
    /// Bytes are added to an open file.
    Append(FileName, &'a Blob),
    /// An open file is sealed.
    Seal(FileName),
    /// The open ones of these files are left: they are written no more.
    Leave(Vec<FileName>),
    /// A commit becomes the current one, whose text this is, if these files are sealed.
    Save(Commit, Vec<u8>, Vec<FileName>),
    /// The managed files are deleted that aren't among these, and that no unfinished collection holds.
    Collect(BTreeSet<String>),
    /// A collection begins of the managed files that aren't among these, and that no unfinished one holds.
    Begin(BTreeSet<String>),
    /// The first name that a collection has left is tried.
    Try(u64),
    /// A collection is finished.
    End(u64),
    /// The checksums of these files are compared with those of their bodies.
    Validate(Vec<FileName>),
    /// The commit that `meta.json` means is loaded with the bodies of its files, under this number, while the
    /// meta lock is held.
    Load(u64),
    /// The meta lock is taken, and kept for a reload.
    Lock,
    /// The files of this commit are read, and the meta lock is given back that was kept for that.
    Read(Commit),
    /// The meta lock is given back that was kept for a reload.
    Unlock,
    /// The open files are left, no collection is unfinished any more, and the meta lock is given back where it
    /// was kept for a reload.
    Reopen,
}

/// What came of an action.
#[derive(Drop)]
pub enum Reply {
    /// It is done.
    Done,
    /// The name was taken.
    Taken,
    /// This file isn't sealed.
    Unsealed(FileName),
    /// This commit was saved.
    Saved(Commit),
    /// These names were tried.
    Collected(Collected),
    /// This name was tried.
    Tried(TriedName),
    /// These files have another checksum than that of their body.
    Damaged(FileNames),
    /// This file can't be read.
    Unreadable(FileName),
    /// This commit was loaded.
    Loaded(Snapshot),
}

/// A name that a collection tried, and whether it is done.
#[derive(Drop)]
pub struct TriedName {
    pub name: FileName,
    pub is_done: bool,
}

/// What became of a collection: the names that are gone, and those whose delete was refused.
#[derive(Drop)]
pub struct Collected {
    pub deleted: Vec<FileName>,
    pub failed: Vec<FileName>,
}

impl Model for Collected {
    ghost use Rattle.tv_catalog.specs.Kept.{CollectedNames};

    ghost Value = { CollectedNames };

    ghost view = { λ a. record { deleted = a.deleted.items; failed = a.failed.items } };
}

/// Names of files. To a contract it is a list.
#[derive(Drop)]
pub struct FileNames {
    pub names: Vec<FileName>,
}

impl Model for FileNames {
    ghost use Rattle.std.specs.Prelude.{List, ℕ};

    ghost Value = { List (List ℕ) };

    ghost view = { λ a. a.names.items };
}

/// What an event changes of what is known beside the files, where its action is done.
#[derive(Drop)]
pub enum Change {
    /// Nothing.
    Nothing,
    /// So many documents of a live segment are deleted, and a stamp is drawn for them.
    Deletes(SegmentId, LiveSegment, u32),
    /// A live segment is live no more.
    Release(SegmentId),
    /// These segments, those of the current commit, are live, and nobody reads.
    Reopen(BTreeMap<SegmentId, LiveSegment>),
    /// There is a new reader, which shows the commit that was loaded.
    AddReader(ReloadPolicy),
    /// The reader of this number shows the commit that was loaded.
    Publish(u64),
    /// The reader of this number has noted this commit, whose files are yet to be read.
    Note(u64, Commit),
    /// The files were loaded of the commit that the reader of this number has noted.
    Keep(u64),
    /// The readers with a notice show the commit that was loaded, and these notices end.
    Deliver,
    /// There is no reader of this number any more.
    EndReader(u64),
}
