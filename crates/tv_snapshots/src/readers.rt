//! The readers, and the searchers that show what a reader showed when they were made.
ghost use Rattle.std.specs.Prelude.{◌≡◌, ◌<◌, ◌+◌, codes, false, filter, map, true, IfOk, OnOk, OnErr, IsFalse, IsSome, is_some, None, Option, Some};
ghost use Rattle.std.specs.Option.{option_and_then, option_copied, option_map};
ghost use Rattle.std.specs.List.{list_any};
ghost use Rattle.std.specs.Fmt.{decimal};
ghost use Rattle.std.specs.Map.{remove_entry};
ghost use Rattle.std.specs.BTreeMap.{is_at, insert_entry};
ghost use Rattle.std.specs.Ordering.{nat_cmp};
ghost use Rattle.tv_machine.specs.CommitEvents.{last_stamp};
ghost use Rattle.tv_events.specs.AnswerLines.{line};
ghost use Rattle.tv_machine.specs.Living.{HasOneLock, is_locked, unread_by};
ghost use Rattle.tv_machine.specs.ReaderEvents.{new_reader};
ghost use Rattle.tv_machine.specs.ReloadEvents.{served, snapshot_read, with_notices};
ghost use Rattle.tv_machine.specs.State.{Reader as ReaderState, Snapshot as Shown, no_readers, at_number};
ghost use Rattle.tv_machine.specs.SearcherEvents.{show_line, searcher_line};
ghost use Rattle.tv_formats.specs.Collections.{Rises};
ghost use Rattle.tv_snapshots.specs.Reloads.{CanServe, IsSpent, published_of, reload_of};
ghost use Rattle.tv_snapshots.specs.SearcherLines.{bytes_told};

use crate::reader::{Reader, Reload};
use crate::snapshot::Snapshot;
use std::alloc::Global;
use std::collections::BTreeMap;
use std::marker::Model;
use tv_formats::{Memory, SegmentComponent};
use tv_machine::{Answer, ReloadPolicy};

/// What is answered to a searcher that is asked for a body.
#[derive(Drop)]
pub enum BodyAnswer {
    /// There is no such searcher.
    NoSearcher,
    /// It shows no such file.
    NoFile,
    /// The line with the body.
    Line(Answer),
}

/// The readers and the searchers by their numbers, and the numbers that the next ones get.
#[derive(Drop)]
pub struct Readers {
    alloc: Global,
    readers: BTreeMap<u64, Reader>,
    searchers: BTreeMap<u64, Snapshot>,
    next_reader: u64,
    next_searcher: u64,
}

impl Model for Readers {
    ghost use Rattle.tv_machine.specs.Living.{HasOneLock};
    ghost use Rattle.tv_machine.specs.State.{Readers as ReadersState};

    ghost Value = { ReadersState };

    ghost view = { λ a. record {
      readers = a.readers.entries;
      searchers = a.searchers.entries;
      next_reader = a.next_reader;
      next_searcher = a.next_searcher;
    } };

    ghost invariant = { λ a. HasOneLock a.readers.entries };
}

// These readers, once their notices are served with this.
fn all_served(
    alloc: Global,
    readers: &BTreeMap<u64, Reader>,
    shown: &Snapshot,
) -> Result<BTreeMap<u64, Reader>, Memory>
    requires { CanServe readers.now.entries }
    ensures { IfOk result (λ all. all.entries
        ≡ map (λ e. (e.0, served shown.now.commit shown.now.bodies e.1)) readers.now.entries) }
{
    // A contract learns from the number of the readers that they stand in their order.
    let _count = readers.len();
    let mut all = BTreeMap::new(alloc);
    for (number, reader) in readers {
        let reader = reader.served(alloc, shown)?;
        all.insert(*number, reader)?;
    }
    Ok(all)
}

impl Readers {
    /// Nobody reads. Takes no memory.
    pub fn new(alloc: Global) -> Readers
        ensures { result ≡ no_readers }
    {
        Readers {
            alloc,
            readers: BTreeMap::new(alloc),
            searchers: BTreeMap::new(alloc),
            next_reader: 0,
            next_searcher: 0,
        }
    }

    /// The number that the next reader gets. Takes no memory.
    pub fn next_reader(&self) -> u64
        ensures { result ≡ self.now.next_reader }
    {
        self.next_reader
    }

    /// The number that the next searcher gets. Takes no memory.
    pub fn next_searcher(&self) -> u64
        ensures { result ≡ self.now.next_searcher }
    {
        self.next_searcher
    }

    /// The reader of this number. Takes no memory.
    pub fn reader(&self, number: u64) -> Option<&Reader>
        ensures { option_copied result ≡ at_number self.now.readers number }
    {
        self.readers.get(&number)
    }

    /// Whether the meta lock is held for a reload. Takes no memory.
    pub fn is_busy(&self) -> bool
        ensures { result ≡ list_any (λ e. is_locked e.1) self.now.readers }
    {
        for (_, reader) in &self.readers {
            if reader.is_locked() {
                return true;
            }
        }
        false
    }

    /// A contract learns from this that one reload at most holds the meta lock, and that the readers stand in
    /// the order of their numbers. Takes no memory.
    pub fn in_order(&self)
        ensures one { HasOneLock self.now.readers }
        ensures order { Rises self.now.readers }
    {
        let _count = self.readers.len();
    }

    /// A new reader, which shows this snapshot. Its next one has the number 1.
    pub fn add_reader(&mut self, policy: ReloadPolicy, shown: Snapshot) -> Result<(), Memory>
        requires { self.old.next_reader < last_stamp }
        ensures added { OnOk result (self.new
            ≡ record self.old {
              readers = insert_entry nat_cmp self.old.readers
                  self.old.next_reader (new_reader policy shown);
              next_reader = self.old.next_reader + 1;
            }) }
        ensures err { OnErr result (self.new ≡ self.old) }
    {
        self.readers
            .insert(self.next_reader, Reader::new(policy, shown))?;
        self.next_reader += 1;
        Ok(())
    }

    /// The reader of this number shows this snapshot from now on. Takes no memory.
    pub fn publish(&mut self, number: u64, shown: Snapshot)
        requires there { IsSome (at_number self.old.readers number) }
        requires room { (reader : ReaderState) → at_number self.old.readers number ≡ Some reader
            → reader.next < last_stamp }
        ensures published { (reader : ReaderState) → at_number self.old.readers number ≡ Some reader
            → self.new
            ≡ record self.old {
              readers = insert_entry nat_cmp self.old.readers number
                  (record reader { next = reader.next + 1; shown = shown });
            } }
    {
        self.readers.get_mut(&number).unwrap().show(shown);
    }

    /// The reload of this number's reader stands so from now on. Takes no memory.
    pub fn set_reload(&mut self, number: u64, reload: Reload)
        requires there { IsSome (at_number self.old.readers number) }
        requires free { is_some (unread_by (Some (reload_of reload))) ≡ true
            → list_any (λ e. is_locked e.1) self.old.readers ≡ false }
        ensures set { (reader : ReaderState) → at_number self.old.readers number ≡ Some reader
            → self.new
            ≡ record self.old {
              readers = insert_entry nat_cmp self.old.readers number
                  (record reader { reload = Some (reload_of reload) });
            } }
    {
        self.readers.get_mut(&number).unwrap().set_reload(reload);
    }

    /// The line of what was read for this number's reader, where there is such a reader and its files
    /// are read.
    pub fn published_line(&self, number: u64) -> Result<Option<Answer>, Memory>
        ensures { IfOk result (λ found. found ≡ option_and_then (published_of number)
            (at_number self.now.readers number)) }
    {
        let Some(reader) = self.readers.get(&number) else {
            return Ok(None);
        };
        let Some(shown) = reader.read() else {
            return Ok(None);
        };
        let answer = Answer::new(self.alloc, "published")?
            .number(number)?
            .number(reader.next)?
            .number(shown.opstamp())?;
        Ok(Some(answer))
    }

    /// The reader of this number shows what was read for it, and its reload is finished. Takes no memory.
    pub fn publish_read(&mut self, number: u64)
        requires there { IsSome (at_number self.old.readers number) }
        requires room { (reader : ReaderState) → at_number self.old.readers number ≡ Some reader
            → reader.next < last_stamp }
        ensures published { (reader : ReaderState) (shown : Shown)
            → at_number self.old.readers number ≡ Some reader
            → snapshot_read reader.next reader.reload ≡ Some shown
            → self.new
            ≡ record self.old {
              readers = insert_entry nat_cmp self.old.readers number
                  (record reader { next = reader.next + 1; shown = shown; reload = None });
            } }
    {
        self.readers.get_mut(&number).unwrap().publish();
    }

    /// Each reader that follows commits gets a notice. Takes no memory.
    pub fn tell(&mut self)
        ensures { self.new ≡ with_notices self.old }
    {
        self.readers.retain(|_, reader| {
            reader.tell();
            true
        });
    }

    /// Whether a reader has a notice. Takes no memory.
    pub fn has_notice(&self) -> bool
        ensures { result ≡ list_any (λ e. e.1.has_notice) self.now.readers }
    {
        for (_, reader) in &self.readers {
            if reader.has_notice {
                return true;
            }
        }
        false
    }

    /// Whether a reader with a notice has a reload that isn't finished. Takes no memory.
    pub fn is_unfinished(&self) -> bool
        ensures { result ≡ list_any (λ e. is_some e.1.reload)
            (filter (λ e. e.1.has_notice) self.now.readers) }
    {
        for (_, reader) in &self.readers {
            if reader.has_notice && reader.is_reloading() {
                return true;
            }
        }
        false
    }

    /// Whether a reader with a notice has come to the end of the numbers of snapshots. Takes no memory.
    pub fn is_spent(&self) -> bool
        ensures spent { result ≡ true → IsSpent self.now.readers }
        ensures fits { result ≡ false → CanServe self.now.readers }
    {
        for (_, reader) in &self.readers {
            if reader.has_notice && reader.next == u64::MAX {
                return true;
            }
        }
        false
    }

    /// The line of the readers with a notice.
    pub fn delivered_line(&self) -> Result<Answer, Memory>
        ensures { IfOk result (λ answer. answer ≡ line (codes "delivered")
            (map (λ e. decimal e.0) (filter (λ e. e.1.has_notice) self.now.readers))) }
    {
        let mut answer = Answer::new(self.alloc, "delivered")?;
        for (number, reader) in &self.readers {
            if reader.has_notice {
                answer = answer.number(*number)?;
            }
        }
        Ok(answer)
    }

    /// Each reader with a notice shows this under its next number, and these notices end.
    pub fn serve(&mut self, shown: &Snapshot) -> Result<(), Memory>
        requires { CanServe self.old.readers }
        ensures served { OnOk result (self.new ≡ record self.old {
          readers = map
              (λ e. (e.0, served shown.now.commit shown.now.bodies e.1)) self.old.readers;
        }) }
        ensures err { OnErr result (self.new ≡ self.old) }
    {
        self.readers = all_served(self.alloc, &self.readers, shown)?;
        Ok(())
    }

    /// The reader of this number ends; whether there was one. Takes no memory.
    pub fn release_reader(&mut self, number: u64) -> bool
        ensures there { result ≡ is_some (at_number self.old.readers number) }
        ensures released { self.new ≡ record self.old {
          readers = remove_entry
              (is_at (nat_cmp number)) self.old.readers;
        } }
        ensures absent { IsFalse result → self.new ≡ self.old }
    {
        self.readers.remove(&number).is_some()
    }

    /// The searcher of this number ends; whether there was one. Takes no memory.
    pub fn release_searcher(&mut self, number: u64) -> bool
        ensures there { result ≡ is_some (at_number self.old.searchers number) }
        ensures released { self.new ≡ record self.old {
          searchers = remove_entry
              (is_at (nat_cmp number)) self.old.searchers;
        } }
        ensures absent { IsFalse result → self.new ≡ self.old }
    {
        self.searchers.remove(&number).is_some()
    }

    /// The line of the next searcher, where there is a reader of this number.
    pub fn searcher_line(&self, number: u64) -> Result<Option<Answer>, Memory>
        ensures { IfOk result (λ found. found ≡ option_map (searcher_line self.now.next_searcher)
            (at_number self.now.readers number)) }
    {
        let Some(reader) = self.readers.get(&number) else {
            return Ok(None);
        };
        let answer = Answer::new(self.alloc, "searcher")?
            .number(self.next_searcher)?
            .number(reader.shown.generation())?
            .number(reader.shown.opstamp())?;
        Ok(Some(answer))
    }

    /// A new searcher, which shows for life what the reader of this number shows now.
    pub fn add_searcher(&mut self, number: u64) -> Result<(), Memory>
        requires there { IsSome (at_number self.old.readers number) }
        requires room { self.old.next_searcher < last_stamp }
        ensures added { (reader : ReaderState) → at_number self.old.readers number ≡ Some reader
            → OnOk result (self.new
            ≡ record self.old {
              searchers = insert_entry nat_cmp self.old.searchers
                  self.old.next_searcher reader.shown;
              next_searcher = self.old.next_searcher + 1;
            }) }
        ensures err { OnErr result (self.new ≡ self.old) }
    {
        let shown = self.readers.get(&number).unwrap().shown.share()?;
        self.searchers.insert(self.next_searcher, shown)?;
        self.next_searcher += 1;
        Ok(())
    }

    /// The line of what the searcher of this number shows, where there is such a searcher.
    pub fn show(&self, number: u64) -> Result<Option<Answer>, Memory>
        ensures { IfOk result (λ found. found ≡ option_map (show_line number)
            (at_number self.now.searchers number)) }
    {
        let Some(searcher) = self.searchers.get(&number) else {
            return Ok(None);
        };
        let answer = searcher.show(self.alloc, number)?;
        Ok(Some(answer))
    }

    /// The body of a component's file, of the segment at a place of what the searcher of this
    /// number shows.
    pub fn bytes(
        &self,
        number: u64,
        ord: u32,
        component: SegmentComponent,
    ) -> Result<BodyAnswer, Memory>
        ensures { IfOk result (λ told. told ≡ bytes_told number ord component
            (at_number self.now.searchers number)) }
    {
        let Some(searcher) = self.searchers.get(&number) else {
            return Ok(BodyAnswer::NoSearcher);
        };
        let Some(answer) = searcher.bytes(self.alloc, number, ord, component)? else {
            return Ok(BodyAnswer::NoFile);
        };
        Ok(BodyAnswer::Line(answer))
    }
}
