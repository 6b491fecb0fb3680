//! The side that publishes.
ghost use Rattle.std.specs.Prelude.{◌≡◌, ◌⊎◌, ◌^◌, ◌<◌, ◌≤◌, [], ◌∷◌, ◌++◌, true, false, length, drop, IfOk, OnOk, OnErr};
ghost use Rattle.left_right.specs.Sides.{view};

use crate::latest::Latest;
use crate::one_list::{Known, OneList, Publishing};
use crate::read_handle::ReadHandle;
use core::mem::replace_with;
use left_right::writer::Writer;
use std::alloc::{AllocError, Global};
use std::marker::Model;
use std::sync::Wait;
use tv_formats::Memory;
use tv_snapshots::snapshot::Snapshot;

type LatestWriter = Writer<Latest, Snapshot, Known, OneList>;

/// What publishes snapshots. To a contract it is the list of those that it published. It isn't `Drop`:
/// `end` it. After a publication that failed there are no more.
pub struct Publisher {
    writer: LatestWriter,
    // Whether a publication failed. It stays pending, so that the next one would publish it too.
    has_failed: bool,
}

impl Model for Publisher {
    ghost use Rattle.std.specs.Prelude.{List};
    ghost use Rattle.left_right.specs.Sides.{view as seen_by};
    ghost use Rattle.tv_machine.specs.State.{Snapshot};
    ghost use Rattle.tv_publishing.specs.OneList.{Publishable};

    ghost Value = { List Snapshot };

    ghost view = { λ p. (seen_by p.writer.desk.place).list };

    ghost invariant = { λ p. Publishable p.has_failed (seen_by p.writer.desk.place)
        p.writer.desk.shown.value p.writer.behind p.writer.log.items };
}

// Publishes one snapshot more, where none is pending.
fn publish_one<R: Wait>(
    mut writer: LatestWriter,
    with: (&R, Snapshot),
) -> (LatestWriter, Result<(), AllocError>)
    requires idle { drop writer.behind writer.log.items ≡ [] }
    requires alone { ((view writer.desk.place).publishes ≡ true)
        ⊎ (writer.desk.shown.value.number ≡ 0) }
    requires counted { writer.desk.shown.value.number ≡ length (view writer.desk.place).list }
    ensures ok { OnOk result.1 ((drop result.0.behind result.0.log.items ≡ [])
        × ((view result.0.desk.place).list
        ≡ (view writer.desk.place).list ++ with.entry.1 ∷ [])) }
    ensures err { OnErr result.1
        ((view result.0.desk.place).list ≡ (view writer.desk.place).list) }
    ensures alone { ((view result.0.desk.place).publishes ≡ true)
        ⊎ (result.0.desk.shown.value.number ≡ 0) }
    ensures counted { result.0.desk.shown.value.number
        ≡ length (view result.0.desk.place).list }
{
    let (rt, snapshot) = with;
    match writer.append(snapshot) {
        Ok(()) => writer.publish_as::<Publishing, R>(rt),
        Err(_) => (writer, Err(AllocError)),
    }
}

impl Publisher {
    /// Nothing is published yet. There is room for so many handles.
    pub fn new(alloc: Global, handles: usize) -> Result<Publisher, Memory>
        requires { (0 < handles) × (handles < 2 ^ 32) }
        ensures { IfOk result (λ publisher. publisher ≡ []) }
    {
        let first = Latest {
            number: 0,
            last: None,
        };
        let second = Latest {
            number: 0,
            last: None,
        };
        let writer = Writer::new(alloc, first, second, handles)?;
        Ok(Publisher {
            writer,
            has_failed: false,
        })
    }

    /// Publishes one snapshot more. May wait for handles that are just reading.
    pub fn publish<R: Wait>(&mut self, rt: &R, snapshot: Snapshot) -> Result<(), Memory>
        ensures ok { OnOk result (self.new ≡ self.old ++ snapshot ∷ []) }
        ensures err { OnErr result (self.new ≡ self.old) }
    {
        if self.has_failed {
            return Err(Memory);
        }
        let published = replace_with(&mut self.writer, (rt, snapshot), publish_one::<R>);
        self.has_failed = published.is_err();
        match published {
            Ok(()) => Ok(()),
            Err(_) => Err(Memory),
        }
    }

    /// How many were published. Takes no memory.
    pub fn published(&self) -> u64
        ensures { result ≡ length self.now }
    {
        self.writer.published().number
    }

    /// A handle. It is refused where nothing was published yet.
    pub fn handle(&self) -> Result<ReadHandle, Memory>
        // It has read nothing.
        ensures fresh { IfOk result (λ handle. handle.read ≡ 0) }
    {
        ReadHandle::over(self.writer.factory().reader()?)
    }

    /// Ends it. Waits for handles that are just reading. Takes no memory.
    pub fn end<R: Wait>(self, rt: &R) {
        let Self {
            writer,
            has_failed: _,
        } = self;
        drop(writer.take(rt));
    }
}
