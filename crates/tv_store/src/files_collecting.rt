//! Collections of files, and the end of open ones.
ghost use Rattle.std.specs.Prelude.{◌≡◌, ◌++◌, ◌&&◌, ◌||◌, not, ◌≤◌, [], ◌∷◌, List, ℕ, true, length, vec_len, vec_capacity, None, Some, IsSome, is_some, cond, option_map, Contains, IfOk, OnOk, OnErr, map, string_bytes};
ghost use Rattle.std.specs.List.{list_all, AllByRecursion};
ghost use Rattle.tv_formats.specs.Names.{has, is_plain, meta_name, at};
ghost use Rattle.tv_formats.specs.Collections.{Collection, collectable, collection_at, held};
ghost use Rattle.tv_formats.specs.Files.{Same};
ghost use Rattle.tv_formats.specs.Listing.{IsListFile, Listing};
ghost use Rattle.tv_device.specs.View.{Kept, MayDelete, OnlyReads};
ghost use Rattle.tv_managed.specs.Collecting.{texts_of};
ghost use Rattle.tv_managed.specs.Crashes.{EndsSafely, LeavesSafely, SettlesStates, StepsSafely};
ghost use Rattle.tv_store.specs.CollectingCalls.{BeginsCollection, FinishesCollection, KeepsUncollected, KeepsUnlisted, TriesNext};
ghost use Rattle.tv_catalog.specs.Kept.{HasUntried};
ghost use Rattle.tv_catalog.specs.Effects.{collection_after};
ghost use Rattle.tv_catalog.specs.Exhausted.{SomePassesEnd};
ghost use Rattle.tv_store.specs.FileCalls.{Collects, GcFaults};
ghost use Rattle.tv_store.specs.FileStates.{CollectsSafely};
ghost use Rattle.tv_store.specs.Kept.{names_below};
ghost use Rattle.tv_store.specs.Reopening.{Reopens};
ghost use Rattle.tv_store.specs.Stays.{EventFaults, KeepsAllButList, KeepsDotted, KeepsForm};

use crate::files::StoreFiles;
use std::alloc::Global;
use std::collections::{BTreeMap, BTreeSet};
use std::mem;
use tv_base::TantivyError;
use tv_catalog::action::{Collected, TriedName};
use tv_device::Outside;
use tv_formats::{FileName, Memory};
use tv_managed::CollectStep;

// Names of files, from their texts, in a vector that is empty and has room for them. Takes no memory.
fn file_names(room: Vec<FileName>, texts: Vec<String>) -> Vec<FileName>
    requires empty { vec_len room ≡ 0 }
    requires room { length texts.items ≤ vec_capacity room }
    requires plain { list_all is_plain (map string_bytes texts.items) ≡ true }
    ensures { result.items ≡ map string_bytes texts.items }
{
    let mut names = room;
    for text in texts {
        names.push_reserved(FileName::new(text));
    }
    names
}

// Takes the entries of these names out of a map.
fn remove_all<V: Drop>(map: &mut BTreeMap<FileName, V>, names: &[FileName])
    ensures names { (n : List ℕ) → at map.new.entries n ≡ cond (has names.entry.now n) None
        (at map.old.entries n) }
    ensures left { AllByRecursion (Contains map.old.entries) map.new.entries }
{
    for name in names {
        let _entry = map.remove(name);
    }
}

// Takes the entry of a name out of a map.
fn remove_one<V: Drop>(map: &mut BTreeMap<FileName, V>, name: &FileName)
    ensures name { (n : List ℕ) → at map.new.entries n ≡ cond (has (name.now ∷ []) n) None
        (at map.old.entries n) }
    ensures left { AllByRecursion (Contains map.old.entries) map.new.entries }
{
    let _entry = map.remove(name);
}

// Takes these names out of a set.
fn remove_names(set: &mut BTreeSet<FileName>, names: &[FileName])
    ensures { (n : List ℕ) → has set.new.keys n
        ≡ (not (has names.entry.now n) && has set.old.keys n) }
{
    for name in names {
        let _there = set.remove(name);
    }
}

// Adds the names of these entries to a set.
fn leave_all<V: Drop>(
    set: &mut BTreeSet<FileName>,
    map: BTreeMap<FileName, V>,
) -> Result<(), Memory>
    ensures { OnOk result ((n : List ℕ) → has set.new.keys n
        ≡ (has set.old.keys n || is_some (at map.entries n))) }
{
    for (name, _entry) in map {
        set.insert(name)?;
    }
    Ok(())
}

impl<O: Outside> StoreFiles<O> {
    /// Begins a collection of the managed files that aren't among these, and answers its number.
    pub(crate) fn collect_begin(&mut self, living: &BTreeSet<String>) -> Result<u64, TantivyError>
        requires { has (map string_bytes living.now.keys) meta_name ≡ true }
        ensures begins { IfOk result (λ number. BeginsCollection number
            (map string_bytes living.now.keys) self.old self.new) }
        ensures faults { GcFaults O.Directory (SomePassesEnd
            (collection_after self.old.collections))
            self.old.outside self.new.outside result }
        ensures frame { KeepsUncollected (OnlyReads O.told) O.view self.old self.new }
        ensures safe { O.tells_images → LeavesSafely O.Directory
            (SettlesStates (O.disk self.old.outside) (O.disk self.new.outside) result)
            (names_below self.old) (names_below self.new) }
    {
        self.index.directory_mut().collect_begin(living)
    }

    /// Tries the first name that a collection has left. One that is done is neither open nor left any
    /// more.
    pub(crate) fn collect_delete(&mut self, number: u64) -> Result<TriedName, TantivyError>
        requires { HasUntried self.old.collections number }
        ensures tries { IfOk result (λ tried. TriesNext O.Directory number self.old self.new
            tried.name tried.is_done) }
        ensures same { O.told.content → OnErr result (Same (O.view self.old.outside).reads
            (O.view self.new.outside).reads) }
        ensures dotted { O.told.content → KeepsDotted (O.view self.old.outside).reads
            (O.view self.new.outside).reads }
        ensures lens { (bound : ℕ) → AllByRecursion (λ e. length e.1 ≤ bound) self.old.open_files
            → AllByRecursion (λ e. length e.1 ≤ bound) self.new.open_files }
        ensures faults { EventFaults ⊥ (O.view self.old.outside) (O.view self.new.outside) result }
        ensures frame { KeepsForm (MayDelete O.told) O.view self.old self.new }
        ensures safe { O.tells_images → StepsSafely (λ tried. tried.is_done) O.Directory number
            (names_below self.old) (names_below self.new) result }
    {
        match self.index.directory_mut().collect_delete(number)? {
            CollectStep::Done(text) => {
                let name = FileName::new(text);
                remove_one(&mut self.files, &name);
                let _left = self.left.remove(&name);
                let _known = self.known.remove(&name);
                Ok(TriedName {
                    name,
                    is_done: true,
                })
            }
            CollectStep::Failed(text) => Ok(TriedName {
                name: FileName::new(text),
                is_done: false,
            }),
        }
    }

    /// Ends a collection: what is done is managed no more.
    pub(crate) fn collect_end(&mut self, number: u64) -> Result<(), TantivyError>
        requires { IsSome (collection_at self.old.collections number) }
        ensures ends { OnOk result (FinishesCollection O.Directory number self.old self.new) }
        ensures others { O.told.content → KeepsAllButList (O.view self.old.outside).reads
            (O.view self.new.outside).reads }
        ensures faults { EventFaults ⊥ (O.view self.old.outside) (O.view self.new.outside) result }
        ensures frame { KeepsUnlisted (Kept O.told) O.view self.old self.new }
        ensures safe { O.tells_images → EndsSafely O.Directory number
            (names_below self.old) (names_below self.new) result }
    {
        let _result = self.index.directory_mut().collect_end(number)?;
        Ok(())
    }

    /// Tries to delete the managed files that aren't among these, and that no unfinished collection
    /// holds. At Ok one that was deleted is neither open nor left any more. The memory for the answer is
    /// taken before the first delete.
    pub(crate) fn collect(
        &mut self,
        alloc: Global,
        living: BTreeSet<String>,
    ) -> Result<Collected, TantivyError>
        requires { has (map string_bytes living.keys) meta_name ≡ true }
        ensures collects { IfOk result (λ c. Collects O.Directory
            (map string_bytes living.keys) self.old self.new c.deleted c.failed) }
        // What is living reads what it read.
        ensures spared { O.told.content → (n : List ℕ) → has (map string_bytes living.keys) n ≡ true
            → (IsListFile n → ⊥)
            → (O.view self.new.outside).reads n ≡ (O.view self.old.outside).reads n }
        ensures dotted { O.told.content → KeepsDotted (O.view self.old.outside).reads
            (O.view self.new.outside).reads }
        ensures list { O.told.content
            → Listing (O.view self.old.outside).reads self.old.managed
            → OnOk result (Listing (O.view self.new.outside).reads self.new.managed) }
        ensures lens { (bound : ℕ) → AllByRecursion (λ e. length e.1 ≤ bound) self.old.open_files
            → AllByRecursion (λ e. length e.1 ≤ bound) self.new.open_files }
        ensures faults { GcFaults O.Directory (SomePassesEnd
            (collection_after self.old.collections))
            self.old.outside self.new.outside result }
        ensures frame { KeepsForm (MayDelete O.told) O.view self.old self.new }
        ensures safe { O.tells_images → CollectsSafely O.Directory
            (map string_bytes living.keys) self.old self.new result }
    {
        // All names that the answer may have are managed, so there is room for them.
        let count = self.index.directory().list_managed_files().len();
        let deleted = Vec::with_capacity(alloc, count)?;
        let failed = Vec::with_capacity(alloc, count)?;
        // No writer is kept beside an error, and no file is known, since nobody could tell which are gone.
        let mut files = mem::replace(&mut self.files, BTreeMap::new(alloc));
        let mut known = mem::replace(&mut self.known, BTreeSet::new(alloc));
        let result = self.index.directory_mut().garbage_collect(move || living)?;
        let deleted = file_names(deleted, result.deleted_files);
        let failed = file_names(failed, result.failed_to_delete_files);
        remove_all(&mut files, deleted.as_slice());
        self.files = files;
        remove_names(&mut known, deleted.as_slice());
        self.known = known;
        remove_names(&mut self.left, deleted.as_slice());
        Ok(Collected { deleted, failed })
    }

    /// The open files are left, and no collection is unfinished any more.
    pub(crate) fn reopen(&mut self, alloc: Global) -> Result<(), Memory>
        ensures reopened { OnOk result (Reopens self.old self.new) }
        ensures others { self.new ≡ record self.old {
          collections = self.new.collections;
          open_files = self.new.open_files;
          left = self.new.left;
        } }
        ensures lens { (bound : ℕ) → AllByRecursion (λ e. length e.1 ≤ bound) self.old.open_files
            → AllByRecursion (λ e. length e.1 ≤ bound) self.new.open_files }
    {
        self.index.directory_mut().forget_collections();
        let files = mem::replace(&mut self.files, BTreeMap::new(alloc));
        leave_all(&mut self.left, files)
    }
}
