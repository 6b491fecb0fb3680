//! What a crash leaves of a directory in memory.
ghost use Rattle.std.specs.Prelude.{◌≡◌, ◌≤◌, ◌<◌, ℕ, List, [], None, IfOk, OnOk, length, map};
ghost use Rattle.tv_formats.specs.Disk.{MayLeave};
ghost use Rattle.tv_formats.specs.Files.{Reads, Sets};
ghost use Rattle.tv_formats.specs.Names.{has};
ghost use Rattle.tv_directory.specs.Bench.{device_in, disk_in, IsAtRest, IsNewBench, IsSoundWhere};
ghost use Rattle.tv_directory.specs.Crashes.{is_known, left_in, left_of, numbered, LeavesBy};
ghost use Rattle.tv_device.specs.Ram.{ram_reads};
ghost use Rattle.tv_device.specs.StoredFiles.{AreSealed, reads_of, disk_state_of};

use crate::bench::Bench;
use std::collections::BTreeSet;
use tv_base::OwnedBytes;
use tv_device::{Content, Directory, Files, WatchCall};
use tv_formats::{FileName, Memory};

impl<C: WatchCall> Bench<C> {
    /// What a crash at this moment, which isn't later than now, leaves: a directory of its own, as `new`
    /// makes one of these files.
    ///
    /// The names that have a file now, or that a recorded call names, are gone through in their order.
    /// The states in which a crash at this moment may leave a name are numbered from 0 on, in this order:
    /// for each recorded call on it between the last sync before the moment and the moment, in the order of
    /// the calls, the state in which the call found the name, and behind it, where the device refused the
    /// call, the one that the call would have made; at last the state in which it was at the moment. The i-th
    /// name is left in the one whose number is `choice[i]` modulo how many there are. Past the end of the
    /// choice that number is 0. A file that isn't sealed is left empty.
    pub fn crash(&self, moment: u64, choice: &[u32]) -> Result<Bench<C>, Memory>
        requires { moment ≤ (⟦<Bench<C> as Directory>⟧.view self.now).moment }
        ensures left { IfOk result (λ left. (image : Reads)
            × LeavesBy self.now moment choice.now image
            × IsNewBench image (⟦<Bench<C> as Directory>⟧.view left)
            × IsAtRest image (disk_in left)) }
        ensures image { IfOk result (λ left.
            MayLeave (⟦<Bench<C> as Directory>⟧.disk self.now) moment
            (⟦<Bench<C> as Directory>⟧.view left).reads) }
        ensures sound { IfOk result (λ left. IsSoundWhere
            (⟦<Bench<C> as Directory>⟧.view left).reads (disk_in left)
            (⟦<Bench<C> as Directory>⟧.view left).locks) }
        ensures device { IfOk result (λ left.
            device_in left ≡ record { fail_at = []; call = 0; faults = 0; refusals = 0 }) }
    {
        let names = self.known_names()?;
        let files = self.left_files(names, moment, choice)?;
        Ok(Bench::with_files(self.alloc, files))
    }

    // The names that have a file, or that a recorded call names.
    fn known_names(&self) -> Result<BTreeSet<FileName>, Memory>
        ensures { IfOk result (λ names. (n : List ℕ) → has names.keys n
            ≡ is_known self.now.recorded.calls (ram_reads self.now.ram) n) }
    {
        let mut names = BTreeSet::new(self.alloc);
        self.ram.add_names(self.alloc, &mut names)?;
        self.recorded.add_names(self.alloc, &mut names)?;
        Ok(names)
    }

    // What a crash at this moment leaves of these names.
    fn left_files(
        &self,
        names: BTreeSet<FileName>,
        moment: u64,
        choice: &[u32],
    ) -> Result<Files, Memory>
        requires moment { moment ≤ length self.now.recorded.calls }
        requires names { (n : List ℕ) → has names.keys n
            ≡ is_known self.now.recorded.calls (ram_reads self.now.ram) n }
        ensures left { IfOk result (λ files.
            LeavesBy self.now moment choice.now (reads_of files.map.entries)) }
        ensures sealed { IfOk result (λ files. AreSealed files.map.entries) }
        ensures unmade { IfOk result (λ files. files.last ≡ 0) }
    {
        let mut files = Files::new(self.alloc);
        let mut choices = choice.iter();
        for name in names {
            let number = choices.next().copied().unwrap_or(0);
            self.leave(&mut files, name, moment, number)?;
        }
        Ok(files)
    }

    // Adds to these files what a crash at this moment leaves of a name that has none there.
    fn leave(
        &self,
        files: &mut Files,
        name: FileName,
        moment: u64,
        number: u32,
    ) -> Result<(), Memory>
        requires moment { moment ≤ length self.now.recorded.calls }
        requires none { reads_of files.old.map.entries name ≡ None }
        ensures reads { OnOk result (Sets (reads_of files.old.map.entries)
            (reads_of files.new.map.entries) name (left_in self.now moment name number)) }
        ensures sealed { OnOk result (AreSealed files.old.map.entries
            → AreSealed files.new.map.entries) }
        ensures last { files.new.last ≡ files.old.last }
    {
        match self.left(&name, moment, number)? {
            Some(bytes) => files.seal(name, bytes),
            None => Ok(()),
        }
    }

    // What a crash at this moment leaves of a name.
    fn left(&self, name: &FileName, moment: u64, number: u32) -> Result<Option<OwnedBytes>, Memory>
        requires { moment ≤ length self.now.recorded.calls }
        ensures { IfOk result (λ left. left ≡ left_in self.now moment name.now number) }
    {
        let now = self.ram.content(name)?;
        let states = self.recorded.states(self.alloc, moment, name, now)?;
        left_of(&states, number)
    }
}

// What a crash leaves that chooses this number among these states.
fn left_of(states: &[Option<Content>], number: u32) -> Result<Option<OwnedBytes>, Memory>
    requires { 0 < length states.now }
    ensures { IfOk result (λ left.
        left ≡ left_of (numbered (map disk_state_of states.now) number)) }
{
    match &states[number as usize % states.len()] {
        None => Ok(None),
        Some(Content::Unsealed(_)) => Ok(Some(OwnedBytes::empty())),
        Some(Content::Sealed(bytes)) => Ok(Some(bytes.share()?)),
    }
}
