//! A handle that reads what was published, and takes no lock.
ghost use Rattle.std.specs.Prelude.{◌≡◌, ◌⊎◌, ◌≤◌, false, length, None, Some, IfOk, IfSome, IfNone, option_map};
ghost use Rattle.left_right.specs.Sides.{view};
ghost use Rattle.tv_publishing.specs.Lists.{IsPrefix, EndsIn};
ghost use Rattle.tv_publishing.specs.Reading.{IsLastOf, last_read, read_body, seen_of};

use crate::latest::Latest;
use crate::one_list::{Entering, Known, OneList};
use crate::taken::{Seen, Taken};
use core::mem::replace_with;
use crossbeam_utils::Backoff;
use left_right::reader::Reader;
use std::marker::Model;
use std::sync::Wait;
use tv_base::FileSlice;
use tv_formats::{Memory, SegmentComponent};
use tv_snapshots::snapshot::Snapshot;

type LatestReader = Reader<Latest, Known, OneList>;

/// A handle that reads what was published, and takes no lock. To a contract it is the list of snapshots
/// that it knows of, a first part of those that were published, and how many it knew of at its last
/// read.
#[derive(Drop)]
pub struct ReadHandle {
    reader: LatestReader,
    // What the last read gave, or would have given.
    last: Taken,
    has_read: bool,
    // What was found since then.
    found: Option<Taken>,
}

impl Model for ReadHandle {
    ghost use Rattle.std.specs.Prelude.{◌≡◌, if◌then◌else◌, false};
    ghost use Rattle.left_right.specs.Sides.{view as seen_by};
    ghost use Rattle.tv_publishing.specs.Reading.{Handle, HasTaken};

    ghost Value = { Handle };

    ghost view = { λ h. record {
      known = (seen_by h.reader.place).list;
      read = if h.has_read then h.last.number else 0;
    } };

    ghost invariant = { λ h. ((seen_by h.reader.place).publishes ≡ false)
        × HasTaken (seen_by h.reader.place).list h.last h.found };
}

// What there is to see of a snapshot.
fn seen_of(snapshot: &Snapshot) -> Seen
    ensures { result ≡ seen_of snapshot.now }
{
    Seen {
        generation: snapshot.generation(),
        opstamp: snapshot.opstamp(),
        segments: u32::try_from(snapshot.segment_count()).unwrap_or(u32::MAX),
    }
}

// The last snapshot, where it isn't the one of this number.
fn newer(latest: &Latest, known: u64) -> Option<Taken>
    ensures some { IfSome result (λ taken. (list : _) → EndsIn list latest.now.last
        → length list ≡ latest.now.number → IsLastOf list taken) }
    ensures none { IfNone result
        ((latest.now.number ≡ known) ⊎ (latest.now.last ≡ None)) }
{
    if latest.number == known {
        return None;
    }
    let snapshot = latest.last.as_ref()?;
    Some(Taken {
        number: latest.number,
        seen: seen_of(snapshot),
        kept: snapshot.share(),
    })
}

// Looks for a newer snapshot than the last one that is known of.
fn look(reader: LatestReader, known: u64) -> (LatestReader, Option<Taken>)
    requires reads { (view reader.place).publishes ≡ false }
    requires counted { known ≡ length (view reader.place).list }
    ensures reads { (view result.0.place).publishes ≡ false }
    ensures grows { IsPrefix (view reader.place).list (view result.0.place).list }
    ensures taken { IfSome result.1 (IsLastOf (view result.0.place).list) }
    ensures same { IfNone result.1
        ((view result.0.place).list ≡ (view reader.place).list) }
{
    match reader.enter_as::<Entering>() {
        Ok(reading) => {
            let taken = newer(reading.get(), known);
            (reading.leave(), taken)
        }
        Err(reader) => (reader, None),
    }
}

impl ReadHandle {
    // A handle of a new reader. It is refused where nothing was published yet.
    pub(crate) fn over(reader: LatestReader) -> Result<ReadHandle, Memory>
        requires reads { (view reader.place).publishes ≡ false }
        requires new { length (view reader.place).list ≡ 0 }
        ensures fresh { IfOk result (λ handle. handle.read ≡ 0) }
    {
        let (reader, taken) = look(reader, 0);
        let last = taken.ok_or(Memory)?;
        Ok(ReadHandle {
            reader,
            last,
            has_read: false,
            found: None,
        })
    }

    // How many snapshots it knows of.
    fn known(&self) -> u64
        ensures { result ≡ length self.now.known }
    {
        match &self.found {
            Some(found) => found.number,
            None => self.last.number,
        }
    }

    // Learns of all that was published.
    fn look_again(&mut self)
        ensures grows { IsPrefix self.old.known self.new.known }
        ensures read { self.new.read ≡ self.old.read }
    {
        let known = self.known();
        let found = replace_with(&mut self.reader, known, look);
        if found.is_some() {
            self.found = found;
        }
    }

    /// Reads the snapshot that was published last, as far as this handle can know; and it knows of all
    /// that it knew of before. Takes no memory, and waits for nobody.
    pub fn read(&mut self) -> Seen
        ensures grows { IsPrefix self.old.known self.new.known }
        // It reads the last one of those that it knows of, and knows of one.
        ensures last { self.new.read ≡ length self.new.known }
        ensures seen { option_map seen_of (last_read self.new) ≡ Some result }
    {
        self.look_again();
        self.has_read = true;
        if let Some(found) = self.found.take() {
            self.last = found;
        }
        self.last.seen
    }

    /// The body of a component's file of the segment at a place, of the snapshot that was read last. None
    /// where nothing was read, where it has no such segment, and where this doesn't require the
    /// component. The body isn't copied.
    pub fn bytes(
        &mut self,
        ord: u32,
        component: SegmentComponent,
    ) -> Result<Option<FileSlice>, Memory>
        ensures body { IfOk result (λ body. body ≡ read_body self.old ord component) }
        ensures frame { self.new ≡ self.old }
    {
        if !self.has_read {
            return Ok(None);
        }
        match &self.last.kept {
            Ok(snapshot) => match snapshot.body(ord, component) {
                Some(body) => Ok(Some(body.share()?)),
                None => Ok(None),
            },
            Err(_) => Err(Memory),
        }
    }

    /// Waits until it knows of so many snapshots: a number that the publishing side told. It may wait for ever
    /// where so many weren't published and nothing is published any more. What was read last stays.
    pub fn learn<R: Wait>(&mut self, rt: &R, published: u64)
        ensures grows { IsPrefix self.old.known self.new.known }
        ensures enough { published ≤ length self.new.known }
        ensures read { self.new.read ≡ self.old.read }
    {
        let backoff = Backoff::new();
        for _ in rt.forever() {
            if published <= self.known() {
                break;
            }
            self.look_again();
            backoff.snooze();
        }
    }
}
