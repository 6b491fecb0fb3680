//! Deletes the managed files that nothing needs, at once or in steps.
ghost use Rattle.std.specs.Prelude.{◌≡◌, ◌≢◌, [], ◌++◌, ◌∷◌, ℕ, List, length, true, false, Option, Some, None, IsSome, option_map, IfOk, IfErr, OnErr};
ghost use Rattle.tv_formats.specs.Names.{has, is_file_name, is_plain, list_name};
ghost use Rattle.tv_formats.specs.Collections.{Collection as CollectionState, begun, collectable, collection_at, held, no_collections, taken, without};
ghost use Rattle.tv_device.specs.Images.{DeletesState};
ghost use Rattle.tv_device.specs.View.{Kept, MayDelete, OnlyReads};
ghost use Rattle.tv_device.specs.Calls.{DeleteFaults, Deletes, EndsWriters, IoFaults};
ghost use Rattle.tv_managed.specs.Crashes.{AreListed, CollectsNames, EndsSafely, IsTracked, LeavesSafely, CutsList, SettlesStates, StepsSafely, TriesSafely, TriesState};
ghost use Rattle.tv_managed.specs.Frames.{KeepsNames, OnlyAsks};
ghost use Rattle.tv_managed.specs.Names.{AreManaged, ManagedNames};
ghost use Rattle.tv_managed.specs.Collecting.{Among, BeginFaults, Begins, BeginsBeside, ChangesNothing, CollectFaults, EndFaults, EndsCollection, HasLeft, LockedFaults, NotesNext, OnlyDeletes, Shortens, Steps, TriesAll, TriesName, is_done, names_of, standing, taken_by, texts_of};

use crate::collection::{CollectStep, Collection, Collections, GarbageCollectionResult};
use crate::list::save_managed_paths;
use crate::managed_directory::ManagedDirectory;
use std::alloc::Global;
use std::collections::BTreeSet;
use tv_base::{DeleteError, IoError, TantivyError};
use tv_device::{Directory, meta_lock};
use tv_formats::Memory;

impl<D: Directory> ManagedDirectory<D> {
    /// Deletes the file. `FileDoesNotExist` comes where the name doesn't read. The name stays managed.
    pub fn delete(&mut self, name: &str) -> Result<(), DeleteError>
        requires name { is_file_name name.now ≡ true }
        requires other { name.now ≢ list_name }
        ensures deletes { Deletes D.told (D.view self.old.0) (D.view self.new.0) name.now result }
        ensures writers { EndsWriters D.told (D.view self.old.0) (D.view self.new.0) D.state_of
            name.now result }
        ensures faults { DeleteFaults D.told (D.view self.old.0) (D.view self.new.0)
            name.now result }
        ensures frame { KeepsNames (MayDelete D.told) D.view self.old self.new }
        ensures safe { D.tells_images → LeavesSafely D.Directory
            (DeletesState (D.disk self.old.0) (D.disk self.new.0) name.now result)
            self.old self.new }
    {
        self.directory.delete(name)
    }

    /// Deletes each managed file whose name isn't living, in the order of the names: begins a collection, tries each
    /// of its names, and ends it. A file that is absent counts as deleted. One whose delete is refused has failed: it
    /// stays managed, a writer of it lives on, and the others are still tried. Names that an unfinished collection
    /// has are left to it. At Ok the list has exactly the managed names that are left, where it had exactly those that
    /// were managed; where nothing was deleted, each file reads what it read, and the list too. The managed names
    /// change at Ok alone, and then the collection's number is given back; after an error they are as they were, and
    /// where a file was deleted or a delete refused the collection stays unfinished. `LockFailure` comes where the
    /// lock isn't given, `Exhausted` where the collection's number would be the last; then nothing changed.
    ///
    /// The memory for the answer is taken before the first delete. From then on memory is wanted by the directory, and
    /// for the shorter list, alone.
    ///
    /// By the code the device has kept what was written before the first delete; by the clause a crash leaves at
    /// each moment what it might have left before, or each name as it stood, one whose delete is refused too, but
    /// that a name that is done may be absent, and the list may lack what is done. The device has kept what was
    /// deleted before the shorter list is saved: where track is kept, no crash leaves a file whose name isn't
    /// managed any more.
    ///
    /// The meta lock is taken first, and given back. By the code, and by no clause, the living names are asked for
    /// while it is held, and it is free while files are deleted. It is for readers: without it, where several work
    /// on one directory,
    ///
    /// 1. a reader loads the commit that stands in `meta.json`;
    /// 2. a writer commits, and the files of the commit before are no longer living;
    /// 3. a collection asks for the living names, and deletes these files;
    /// 4. the reader opens them, and they are gone.
    ///
    /// A reader holds the lock from step 1 until it has read its files, and the collection while it asks. So
    /// the reader has read its files before the collection asks; or it loads a commit later, whose files were
    /// living when the collection asked, or were made since, and those aren't deleted.
    pub fn garbage_collect<L: FnOnce() -> BTreeSet<String>>(
        &mut self,
        living: L,
    ) -> Result<GarbageCollectionResult, TantivyError>
        requires { L.IsAlwaysCallable living }
        ensures collects { (names : List (List ℕ))
            × CollectsNames D.Directory names self.old self.new result
            × Among (L.post living) (λ set. names_of set.keys) self.old.1 self.new.1
            names result }
        ensures faults { CollectFaults D.Directory self.old self.new result }
        ensures frame { MayDelete D.told (D.view self.old.0) (D.view self.new.0) }
    {
        let number = self.ask_and_begin(living)?;
        self.try_each(number)?;
        let result = self.collect_end(number)?;
        self.collections.give_back();
        Ok(result)
    }

    /// Begins a collection of the managed names that are neither living nor of an unfinished collection, and
    /// answers its number. At Ok the meta lock was free, as it is again, and the device has kept what was written
    /// before. `LockFailure` comes where the lock isn't given, `Exhausted` where the number would be the last; then
    /// nothing changed. After any error none was begun.
    ///
    /// The memory for the names and for the answer is taken before the directory is asked for anything. From
    /// then on memory is wanted by the directory, and for the collection's place beside the others, alone.
    pub fn collect_begin(&mut self, living: &BTreeSet<String>) -> Result<u64, TantivyError>
        ensures begins { IfOk result (Begins (taken_by (names_of living.now.keys) self.old.1)
            self.old.1 self.new.1) }
        ensures err { OnErr result (self.new.1 ≡ self.old.1) }
        ensures faults { CollectFaults D.Directory self.old self.new result }
        ensures frame { OnlyReads D.told (D.view self.old.0) (D.view self.new.0) }
        ensures safe { D.tells_images → LeavesSafely D.Directory
            (SettlesStates (D.disk self.old.0) (D.disk self.new.0) result) self.old self.new }
    {
        let collection = self.collection_of(living)?;
        self.under_meta_lock(|| ())?;
        self.begin(collection)
    }

    /// The number that the next collection gets. Takes no memory.
    pub fn next_collection(&self) -> u64
        ensures { result ≡ self.now.1.collections.next }
    {
        self.collections.next_number()
    }

    /// The names that a collection takes which begins now beside these living names, in their order: the
    /// managed ones that are neither living nor of an unfinished collection. No name is copied.
    pub fn collectable(&self, living: &BTreeSet<String>) -> Result<Vec<&str>, Memory>
        ensures { IfOk result (λ names. texts_of names.items
            ≡ taken_by (names_of living.now.keys) self.now.1) }
    {
        let held = self.collections.held(self.alloc)?;
        names_to_collect(self.alloc, living, &self.managed, &held)
    }

    /// The names that a collection took, in their order, and nothing where no such collection is unfinished.
    /// Takes no memory.
    pub fn collect_names(&self, id: u64) -> Option<&[String]>
        ensures absent { collection_at self.now.1.collections id ≡ None → result ≡ None }
        ensures names { (c : CollectionState) → collection_at self.now.1.collections id ≡ Some c
            → (names : _) × (result ≡ Some names) × AreManaged (names_of names.now)
            × ((n : List ℕ) → has (names_of names.now) n ≡ has (taken c) n) }
    {
        self.collections.names(id)
    }

    /// How many names a collection has yet to try, and nothing where no such collection is unfinished. Takes
    /// no memory.
    pub fn collect_left(&self, id: u64) -> Option<usize>
        ensures { result ≡ option_map (λ c. length c.untried)
            (collection_at self.now.1.collections id) }
    {
        self.collections.left(id)
    }

    /// The name that a collection tries next. Takes no memory.
    pub fn collect_next(&self, id: u64) -> &str
        requires { HasLeft self.now.1.collections id }
        ensures first { (c : CollectionState) (name : List ℕ) (left : List (List ℕ))
            → collection_at self.now.1.collections id ≡ Some c → c.untried ≡ name ∷ left
            → result.now ≡ name }
        ensures plain { is_plain result.now ≡ true }
    {
        self.collections.next(id)
    }

    /// Whether an unfinished collection has the name. Takes no memory.
    pub fn is_held(&self, name: &str) -> bool
        ensures { result ≡ has (held self.now.1.collections) name.now }
    {
        self.collections.holds(name)
    }

    /// Deletes the first name that a collection has yet to try, and tells it. A file that is absent counts as done.
    /// One whose delete is refused has failed, and a writer of it lives on. The name stays managed. It fails where
    /// memory was wanted alone, and then nothing changed. The memory for the answer is taken before the delete.
    pub fn collect_delete(&mut self, id: u64) -> Result<CollectStep, TantivyError>
        requires { HasLeft self.old.1.collections id }
        ensures steps { Steps D.Directory id self.old self.new result }
        ensures only { OnlyDeletes D.Directory self.old self.new }
        ensures safe { D.tells_images
            → StepsSafely is_done D.Directory id self.old self.new result }
    {
        let name = self.collections.next_name(self.alloc, id)?;
        let is_done = self.try_next(id)?;
        Ok(CollectStep::new(name, is_done))
    }

    /// Ends a collection: what is done is managed no more, and what failed or wasn't tried stays managed. At Ok the
    /// list has exactly the managed names that are left, where it had exactly those that were managed; where nothing
    /// is done, each file reads what it read, and the list too. After an error the collection isn't finished, and the
    /// managed names are as they were. Memory is wanted by the directory, and for the shorter list, alone.
    ///
    /// The device has kept what was deleted before the shorter list is saved: where track is kept, no crash leaves a
    /// file whose name isn't managed any more.
    pub fn collect_end(&mut self, id: u64) -> Result<GarbageCollectionResult, TantivyError>
        requires { IsSome (collection_at self.old.1.collections id) }
        ensures ends { EndsCollection D.Directory id self.old self.new result }
        ensures faults { EndFaults D.Directory self.old self.new result }
        ensures frame { Kept D.told (D.view self.old.0) (D.view self.new.0) }
        ensures safe { D.tells_images → EndsSafely D.Directory id self.old self.new result }
    {
        self.take_out_done(id)?;
        Ok(self.collections.finish(id))
    }

    /// No collection is unfinished from now on, and numbers begin at 0, as after a new wrap. What was done of one
    /// stays managed. Where each managed name is on every list that a crash may leave, track is kept.
    /// Takes no memory.
    pub fn forget_collections(&mut self)
        ensures forgets { self.new.1 ≡ record self.old.1 { collections = no_collections } }
        ensures directory { self.new.0 ≡ self.old.0 }
        ensures tracked { AreListed D.Directory self.old → IsTracked D.Directory self.old
            → IsTracked D.Directory self.new }
    {
        self.collections = Collections::new(self.alloc);
    }

    // What a call answers that is made while the meta lock is held.
    fn under_meta_lock<T, F: FnOnce() -> T>(&mut self, call: F) -> Result<T, TantivyError>
        requires { F.IsAlwaysCallable call }
        ensures answer { IfOk result (F.post call) }
        ensures asks { OnlyAsks D.Directory self.old self.new
            (LockedFaults D.Directory self.old self.new result) }
    {
        let lock = self.acquire_lock(&meta_lock())?;
        let answer = call();
        self.release(lock);
        Ok(answer)
    }

    // Begins a collection of the names that aren't living: asks for those under the meta lock.
    fn ask_and_begin<L: FnOnce() -> BTreeSet<String>>(
        &mut self,
        living: L,
    ) -> Result<u64, TantivyError>
        requires { L.IsAlwaysCallable living }
        ensures begins { IfOk result (BeginsBeside (L.post living) (λ set. names_of set.keys)
            self.old.1 self.new.1) }
        ensures err { OnErr result (self.new.1 ≡ self.old.1) }
        ensures faults { CollectFaults D.Directory self.old self.new result }
        ensures frame { OnlyReads D.told (D.view self.old.0) (D.view self.new.0) }
        ensures safe { D.tells_images → LeavesSafely D.Directory
            (SettlesStates (D.disk self.old.0) (D.disk self.new.0) result) self.old self.new }
    {
        let living = self.under_meta_lock(living)?;
        self.begin_beside(&living)
    }

    // The collection that begins now beside these living names.
    fn collection_of(&self, living: &BTreeSet<String>) -> Result<Collection, Memory>
        ensures { IfOk result (λ c. c ≡ begun (taken_by (names_of living.now.keys) self.now.1)) }
    {
        let names = self.collectable(living)?;
        Collection::new(self.alloc, names.as_slice())
    }

    // Begins a collection of the names that aren't living. The memory for these is taken before the device is
    // waited for.
    fn begin_beside(&mut self, living: &BTreeSet<String>) -> Result<u64, TantivyError>
        ensures begins { IfOk result (Begins (taken_by (names_of living.now.keys) self.old.1)
            self.old.1 self.new.1) }
        ensures err { OnErr result (self.new.1 ≡ self.old.1) }
        ensures faults { BeginFaults D.Directory self.old self.new result }
        ensures frame { OnlyReads D.told (D.view self.old.0) (D.view self.new.0) }
        ensures images { D.tells_images
            → SettlesStates (D.disk self.old.0) (D.disk self.new.0) result }
    {
        let collection = self.collection_of(living)?;
        self.begin(collection)
    }

    // A collection begins, where there is a number for it, once the device has kept what was written.
    fn begin(&mut self, collection: Collection) -> Result<u64, TantivyError>
        requires { collection ≡ begun collection.untried }
        ensures begins { IfOk result (Begins collection.untried self.old.1 self.new.1) }
        ensures err { OnErr result (self.new.1 ≡ self.old.1) }
        ensures faults { BeginFaults D.Directory self.old self.new result }
        ensures frame { OnlyReads D.told (D.view self.old.0) (D.view self.new.0) }
        ensures images { D.tells_images
            → SettlesStates (D.disk self.old.0) (D.disk self.new.0) result }
    {
        if self.collections.is_spent() {
            return Err(TantivyError::Exhausted);
        }
        self.sync_directory()?;
        Ok(self.collections.begin(collection)?)
    }

    // Tries each name that the collection has left.
    fn try_each(&mut self, number: u64) -> Result<(), TantivyError>
        ensures leaves { (before : ManagedNames) (names : List (List ℕ))
            → self.old.1 ≡ standing before (begun names) → number ≡ before.collections.next
            → TriesSafely D.Directory before names self.old self.new }
        ensures all { TriesAll number self.new.1 result }
        ensures memory { IfErr result (λ e. e ≡ TantivyError.Memory) }
        ensures only { OnlyDeletes D.Directory self.old self.new }
    {
        while self.has_left(number) {
            self.try_next(number)?;
        }
        Ok(())
    }

    // Whether a collection has names that are yet to be tried.
    fn has_left(&self, number: u64) -> bool
        ensures left { result ≡ true → HasLeft self.now.1.collections number }
        ensures none { result ≡ false → HasLeft self.now.1.collections number → ⊥ }
    {
        match self.collections.left(number) {
            Some(left) => 0 < left,
            None => false,
        }
    }

    // Tries the first name that a collection has left, and answers whether it is done. Takes no memory beyond
    // what the directory's delete takes.
    fn try_next(&mut self, id: u64) -> Result<bool, Memory>
        requires { HasLeft self.old.1.collections id }
        ensures notes { IfOk result (NotesNext D.Directory id self.old self.new) }
        ensures err { OnErr result (ChangesNothing D.Directory self.old self.new) }
        ensures only { OnlyDeletes D.Directory self.old self.new }
        ensures safe { D.tells_images
            → StepsSafely (λ gone. gone) D.Directory id self.old self.new result }
    {
        let is_done = delete_managed(&mut self.directory, self.collections.next(id))?;
        self.collections.mark(id, is_done);
        Ok(is_done)
    }

    // Takes the names that a collection has done out of the managed ones, where there are some.
    fn take_out_done(&mut self, id: u64) -> Result<(), IoError>
        requires { IsSome (collection_at self.old.1.collections id) }
        ensures shortens { (c : CollectionState) → collection_at self.old.1.collections id ≡ Some c
            → Shortens D.Directory (without c.done self.old.1.managed) self.old self.new result }
        ensures saves_none { (c : CollectionState)
            → collection_at self.old.1.collections id ≡ Some c
            → c.done ≡ [] → self.new ≡ self.old }
        ensures safe { D.tells_images → (c : CollectionState)
            → collection_at self.old.1.collections id ≡ Some c
            → CutsList D.Directory (without c.done self.old.1.managed) self.old self.new result }
        ensures faults { IoFaults (D.view self.old.0) (D.view self.new.0) result }
        ensures frame { Kept D.told (D.view self.old.0) (D.view self.new.0) }
    {
        if !self.collections.has_done(id) {
            return Ok(());
        }
        let managed = self.managed.clone()?;
        let left = self.collections.without_done(id, managed);
        self.save_shorter(left)
    }

    // Waits until the device has kept what was deleted, and saves the list of the names that are left.
    fn save_shorter(&mut self, left: BTreeSet<String>) -> Result<(), IoError>
        requires { (gone : List (List ℕ)) × (names_of left.keys ≡ without gone self.old.1.managed) }
        ensures shortens { Shortens D.Directory (names_of left.keys) self.old self.new result }
        ensures safe { D.tells_images
            → CutsList D.Directory (names_of left.keys) self.old self.new result }
    {
        self.sync_directory()?;
        match save_managed_paths(self.alloc, &mut self.directory, &left) {
            Ok(()) => {
                self.managed = left;
                Ok(())
            }
            Err(error) => Err(error),
        }
    }
}

// Deletes a managed name, and answers whether it is gone.
fn delete_managed<D: Directory>(directory: &mut D, name: &str) -> Result<bool, Memory>
    requires { is_plain name.now ≡ true }
    ensures tried { (names : ManagedNames) → IfOk result
        (TriesName D.Directory name.now (directory.old, names) (directory.new, names)) }
    ensures err { (names : ManagedNames) → OnErr result
        (ChangesNothing D.Directory (directory.old, names) (directory.new, names)) }
    ensures only { (names : ManagedNames)
        → OnlyDeletes D.Directory (directory.old, names) (directory.new, names) }
    ensures images { D.tells_images
        → TriesState (D.disk directory.old) (D.disk directory.new) name.now result }
{
    match directory.delete(name) {
        Ok(()) => Ok(true),
        Err(DeleteError::FileDoesNotExist(_)) => Ok(true),
        Err(
            DeleteError::IoError {
                io_error: _,
                filepath: _,
            },
        ) => Ok(false),
        Err(DeleteError::Memory) => Err(Memory),
    }
}

// Whether a name is living, or an unfinished collection holds it.
#[tactic(auto, using(crate::proofs::SetsOfTexts::had_is))]
fn is_needed(living: &BTreeSet<String>, held: &BTreeSet<&str>, name: &str) -> bool
    ensures { result ≡ has (names_of living.now.keys ++ texts_of held.now.keys) name.now }
{
    living.contains(name) || held.contains(name)
}

// The managed names that are neither living nor held, in their order.
fn names_to_collect<'a>(
    alloc: Global,
    living: &BTreeSet<String>,
    managed: &'a BTreeSet<String>,
    held: &BTreeSet<&str>,
) -> Result<Vec<&'a str>, Memory>
    ensures { IfOk result (λ names. texts_of names.items
        ≡ collectable (names_of living.now.keys ++ texts_of held.now.keys)
        (names_of managed.now.keys)) }
{
    let mut names = Vec::new(alloc);
    for name in managed {
        if !is_needed(living, held, name.as_str()) {
            names.push(name.as_str())?;
        }
    }
    Ok(names)
}
