//! What a directory in memory records of its calls.
ghost use Rattle.std.specs.Prelude.{◌≡◌, ◌≤◌, ◌<◌, ◌+◌, ◌-◌, ◌++◌, ◌∷◌, ◌||◌, ℕ, List, [], true, false, length, map, IfNone, IfOk, IfSome, OnOk};
ghost use Rattle.std.specs.List.{flat_map, list_any};
ghost use Rattle.tv_formats.specs.Disk.{DiskState};
ghost use Rattle.tv_formats.specs.Names.{has, is};
ghost use Rattle.tv_directory.specs.Crashes.{changes};
ghost use Rattle.tv_directory.specs.Record.{and_since, found_by, has_line_room, is_settled, is_sync, settled_by, since_sync, states_at, stood_before};
ghost use Rattle.tv_device.specs.StoredFiles.{disk_state_of};
ghost use Rattle.tv_directory.specs.declared.bench_record.Call.{Call};

use std::alloc::Global;
use std::collections::BTreeSet;
use std::marker::Model;
use tv_device::{Content, add_name};
use tv_formats::{FileName, Memory};

/// A call that is recorded.
#[derive(Drop)]
pub enum Call {
    /// A name was given another file, or lost its file.
    Replaced {
        /// The name.
        name: FileName,
        /// What its file had before, where there was one.
        before: Option<Content>,
    },
    /// The device refused to give a name another file. A crash may leave that file all the same.
    Refused {
        /// The name.
        name: FileName,
        /// What its file has, where there is one.
        before: Option<Content>,
        /// What its file would have.
        after: Option<Content>,
    },
    /// A line was told.
    Told,
    /// All that stood was settled.
    Synced,
}

impl Call {
    // The name that was given another file, or that the device refused to give one.
    fn name(&self) -> Option<&FileName>
        ensures some { IfSome result (λ name. (n : List ℕ) → changes n self.now ≡ is name.now n) }
        ensures none { IfNone result ((n : List ℕ) → changes n self.now ≡ false) }
    {
        match self {
            Call::Replaced { name, .. } | Call::Refused { name, .. } => Some(name),
            Call::Told | Call::Synced => None,
        }
    }

    // What the file of this name had before, where the call gave it another one.
    fn replaced(&self, name: &FileName) -> Option<&Option<Content>>
        ensures some { IfSome result (λ before. (calls : List Call) (now : DiskState)
            → stood_before (self.now ∷ calls) name.now now ≡ disk_state_of before.now) }
        ensures none { IfNone result ((calls : List Call) (now : DiskState)
            → stood_before (self.now ∷ calls) name.now now ≡ stood_before calls name.now now) }
    {
        match self {
            Call::Replaced {
                name: other,
                before,
            } if other == name => Some(before),
            _ => None,
        }
    }

    // Adds how the call found this name, and how it may have left it; a sync leaves nothing of what
    // stood before.
    fn add_found(&self, states: &mut Vec<Option<Content>>, name: &FileName) -> Result<(), Memory>
        ensures { OnOk result ((since : List Call)
            → map disk_state_of states.old.items ≡ flat_map (found_by name.now) since
            → map disk_state_of states.new.items
            ≡ flat_map (found_by name.now) (and_since since self.now)) }
    {
        match self {
            Call::Replaced {
                name: other,
                before,
            } => {
                if other == name {
                    states.push(share(before)?)?;
                }
            }
            Call::Refused {
                name: other,
                before,
                after,
            } => {
                if other == name {
                    states.push(share(before)?)?;
                    states.push(share(after)?)?;
                }
            }
            Call::Told => {}
            Call::Synced => states.clear(),
        }
        Ok(())
    }
}

// The same content, or none. The bytes aren't copied.
fn share(content: &Option<Content>) -> Result<Option<Content>, Memory>
    ensures { IfOk result (λ other. other ≡ content.now) }
{
    match content {
        None => Ok(None),
        Some(content) => Ok(Some(content.share()?)),
    }
}

/// The calls that changed a file or what was told, those that may have, and the syncs, in their order.
/// Their number is the clock.
///
/// A sync and a told line take no memory. The room for the sync is made by the call before it that leaves
/// something to settle; that for a line and the syncs next to it by `reserve`.
#[derive(Drop)]
pub struct Record {
    calls: Vec<Call>,
    // No call was recorded since the last sync.
    settled: bool,
}

impl Model for Record {
    ghost use Rattle.std.specs.Prelude.{◌≡◌, ◌<◌, ◌-◌, false, vec_capacity, vec_len};
    ghost use Rattle.tv_directory.specs.Record.{RecordState, is_settled};

    ghost Value = { RecordState };

    ghost view = { λ a. record {
      calls = a.calls.items;
      free = vec_capacity a.calls - vec_len a.calls;
    } };

    ghost invariant = { λ a. (a.settled ≡ is_settled a.calls.items)
        × (a.settled ≡ false → vec_len a.calls < vec_capacity a.calls) };
}

impl Record {
    /// No call was recorded.
    pub fn new(alloc: Global) -> Record
        ensures { result.calls ≡ [] }
    {
        Record {
            calls: Vec::new(alloc),
            settled: true,
        }
    }

    /// How many calls were recorded.
    pub fn moment(&self) -> u64
        ensures { result ≡ length self.now.calls }
    {
        self.calls.len() as u64
    }

    /// Makes room for a call, and then for a line and the syncs next to it.
    pub fn reserve(&mut self) -> Result<(), Memory>
        ensures calls { self.new.calls ≡ self.old.calls }
        ensures room { OnOk result (3 < self.new.free) }
        ensures kept { self.old.free ≤ self.new.free }
    {
        self.calls.reserve(4)?;
        Ok(())
    }

    /// Records a call that isn't a sync, in the room that was made.
    pub fn add(&mut self, call: Call)
        requires room { 1 < self.old.free }
        requires other { is_sync call ≡ false }
        ensures calls { self.new.calls ≡ self.old.calls ++ call ∷ [] }
        ensures room { self.old.free ≤ self.new.free + 1 }
        ensures line { 3 < self.old.free → has_line_room self.new ≡ true }
    {
        self.calls.push(call).unwrap();
        self.settled = false;
    }

    /// Records a sync, where there is something to settle. Takes no memory.
    pub fn settle(&mut self)
        ensures calls { self.new.calls ≡ settled_by self.old.calls }
        ensures room { has_line_room self.old ≡ true → has_line_room self.new ≡ true }
    {
        if !self.settled {
            self.calls.push(Call::Synced).unwrap();
            self.settled = true;
        }
    }

    /// Adds the names that were given another file, and those that the device refused to give one.
    pub fn add_names(&self, alloc: Global, names: &mut BTreeSet<FileName>) -> Result<(), Memory>
        ensures { OnOk result ((n : List ℕ) → has names.new.keys n
            ≡ (has names.old.keys n || list_any (changes n) self.now.calls)) }
    {
        for call in &self.calls {
            if let Some(name) = call.name() {
                add_name(alloc, names, name)?;
            }
        }
        Ok(())
    }

    /// The states in which a crash at this moment may leave a name that stands so now, the oldest first.
    pub fn states(
        &self,
        alloc: Global,
        moment: u64,
        name: &FileName,
        now: Option<Content>,
    ) -> Result<Vec<Option<Content>>, Memory>
        requires { moment ≤ length self.now.calls }
        ensures { IfOk result (λ states. map disk_state_of states.items
            ≡ states_at self.now.calls moment name.now (disk_state_of now)) }
    {
        let (past, later) = self.calls.as_slice().split_at(moment as usize);
        let last = stood(later, name, now)?;
        let mut states = found(alloc, past, name)?;
        states.push(last)?;
        Ok(states)
    }
}

// How the calls since the last sync among these found a name, and how they may have left it.
fn found(alloc: Global, calls: &[Call], name: &FileName) -> Result<Vec<Option<Content>>, Memory>
    ensures { IfOk result (λ states. map disk_state_of states.items
        ≡ flat_map (found_by name.now) (since_sync calls.now)) }
{
    let mut states = Vec::new(alloc);
    for call in calls {
        call.add_found(&mut states, name)?;
    }
    Ok(states)
}

// What the file of a name had before these calls, which it now has so.
fn stood(calls: &[Call], name: &FileName, now: Option<Content>) -> Result<Option<Content>, Memory>
    ensures { IfOk result (λ before. disk_state_of before
        ≡ stood_before calls.now name.now (disk_state_of now)) }
{
    match replaced(calls, name) {
        Some(before) => share(before),
        None => Ok(now),
    }
}

// The same, where one of the calls gave it another one.
fn replaced<'a>(calls: &'a [Call], name: &FileName) -> Option<&'a Option<Content>>
    ensures some { IfSome result (λ before. (now : DiskState)
        → stood_before calls.now name.now now ≡ disk_state_of before.now) }
    ensures none { IfNone result ((now : DiskState)
        → stood_before calls.now name.now now ≡ now) }
{
    for call in calls {
        if let Some(before) = call.replaced(name) {
            return Some(before);
        }
    }
    None
}
