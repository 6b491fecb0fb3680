//! The events of a script.
use crate::blob::{Blob, IdList, Text};
use crate::reload_policy::ReloadPolicy;
use tv_formats::{SegmentComponent, SegmentId};

/// One event, which is one line of a script.
#[derive(Drop)]
pub enum Event {
    /// Makes a segment live.
    Segment(SegmentId),
    /// Makes an empty file of a live segment.
    Open(SegmentId, SegmentComponent),
    /// Adds bytes to an open file.
    Write(SegmentId, SegmentComponent, Blob),
    /// Ends an open file with its footer.
    Seal(SegmentId, SegmentComponent),
    /// Says how many documents a segment has.
    Docs(SegmentId, u32),
    /// Says how many documents of a segment are deleted, and draws an opstamp for its delete file.
    Deletes(SegmentId, u32),
    /// Publishes the named segments.
    Commit(Option<Text>, IdList),
    /// Deletes the managed files that nothing needs and no collection holds.
    Gc,
    /// Begins a collection of the managed files that nothing needs and no other collection holds.
    GcBegin,
    /// Tries to delete the next file of a collection.
    GcStep(u64),
    /// Ends a collection: what it deleted is managed no more.
    GcEnd(u64),
    /// Makes a reader.
    Reader(ReloadPolicy),
    /// Makes a reader show the current commit.
    Reload(u64),
    /// Makes a reader note the current commit, and hold the meta lock until its files are read.
    ReloadLock(u64),
    /// Reads the files of the commit that a reader has noted.
    ReloadOpen(u64),
    /// Makes a reader show the commit that it has noted.
    ReloadPublish(u64),
    /// Makes each reader with a notice of a commit show the current one, and ends these notices.
    Deliver,
    /// Makes a searcher, which shows what a reader shows now.
    Searcher(u64),
    /// Asks for the commit that a searcher shows.
    Show(u64),
    /// Asks for the body of a file of a segment, counted from 0, that a searcher shows.
    Bytes(u64, u32, SegmentComponent),
    /// Makes a segment live no more.
    ReleaseSegment(SegmentId),
    /// Ends a reader.
    ReleaseReader(u64),
    /// Ends a searcher.
    ReleaseSearcher(u64),
    /// Asks for the managed names.
    Managed,
    /// Asks which files of the current commit have another checksum than that of their body.
    Validate,
    /// Opens the index again, as it stands.
    Reopen,
}
