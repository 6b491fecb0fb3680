//! Collections: what they take, and what they told so far.
ghost use Rattle.std.specs.Prelude.{◌≡◌, ◌≢◌, ◌≤◌, ◌<◌, ◌+◌, ◌-◌, ◌∷◌, ◌++◌, [], ℕ, List, length, map, string_bytes, true, false, IsSome, Option, Some, None, option_map, IfOk, OnOk, OnErr, if◌then◌else◌};
ghost use Rattle.tv_formats.specs.Names.{has, is_plain};
ghost use Rattle.tv_formats.specs.Collections.{Collection as CollectionState, begun, collection_at, having_tried, held, no_collections, taken, with_begun, with_collection, without, without_collection};
ghost use Rattle.tv_managed.specs.Answers.{HasRoom, IsReady};
ghost use Rattle.tv_managed.specs.Collecting.{HasLeft, IsLast, is_done, names_of, texts_of, tried_name};
ghost use Rattle.tv_managed.specs.Names.{AreManaged, tried_so};

use std::alloc::Global;
use std::collections::{BTreeMap, BTreeSet};
use std::marker::Model;
use tv_formats::Memory;

/// What a step of a collection did with its name.
#[derive(Debug, Drop)]
pub enum CollectStep {
    /// The name is gone, or was absent before too.
    Done(String),
    /// The device refused its delete. The name stays managed.
    Failed(String),
}

/// The names that a collection tried, in their order: those that are gone, and those whose delete the
/// device refused.
#[derive(Debug, Drop)]
pub struct GarbageCollectionResult {
    /// The names that are gone, those that were absent before too.
    pub deleted_files: Vec<String>,
    /// The names whose delete the device refused. They stay managed.
    pub failed_to_delete_files: Vec<String>,
}

impl CollectStep {
    // The step that tried this name, and whether its delete is done.
    pub(crate) fn new(name: String, gone: bool) -> CollectStep
        ensures told { tried_name result ≡ string_bytes name }
        ensures done { is_done result ≡ gone }
    {
        if gone {
            CollectStep::Done(name)
        } else {
            CollectStep::Failed(name)
        }
    }
}

impl GarbageCollectionResult {
    // No name yet, and room for this many of each kind.
    fn with_room(alloc: Global, count: usize) -> Result<GarbageCollectionResult, Memory>
        ensures { IfOk result (IsReady count) }
    {
        let deleted_files = Vec::with_capacity(alloc, count)?;
        let failed_to_delete_files = Vec::with_capacity(alloc, count)?;
        Ok(GarbageCollectionResult {
            deleted_files,
            failed_to_delete_files,
        })
    }

    // Adds a name that was tried: it is gone, or its delete was refused. Takes no memory.
    fn add(&mut self, name: String, gone: bool)
        requires { HasRoom 1 self.old }
        ensures deleted { self.new.deleted_files.items ≡ (if gone
            then self.old.deleted_files.items ++ name ∷ []
            else self.old.deleted_files.items) }
        ensures failed { self.new.failed_to_delete_files.items ≡ (if gone
            then self.old.failed_to_delete_files.items
            else self.old.failed_to_delete_files.items ++ name ∷ []) }
        ensures room { (left : ℕ) → HasRoom (1 + left) self.old → HasRoom left self.new }
    {
        if gone {
            self.deleted_files.push_reserved(name);
        } else {
            self.failed_to_delete_files.push_reserved(name);
        }
    }
}

/// A collection: the names that it took, in their order, with a place for the outcome of each, how many were
/// tried, and an answer with room for each. So neither noting an outcome nor answering takes memory.
#[derive(Drop)]
pub(crate) struct Collection {
    names: Vec<String>,
    outcomes: Vec<bool>,
    tried: usize,
    answer: GarbageCollectionResult,
}

impl Model for Collection {
    ghost use Rattle.std.specs.Prelude.{length, map, string_bytes, take};
    ghost use Rattle.tv_formats.specs.Collections.{Collection as CollectionState};
    ghost use Rattle.tv_managed.specs.Answers.{IsReady};
    ghost use Rattle.tv_managed.specs.Names.{IsCollection, tried_so};

    ghost Value = { CollectionState };

    ghost view = { λ a. tried_so (map string_bytes a.names.items) (take a.tried a.outcomes.items) };

    ghost invariant = { λ a.
        IsCollection (map string_bytes a.names.items) a.outcomes.items a.tried
        × IsReady (length a.names.items) a.answer };
}

impl Collection {
    /// A collection of these names, which has tried none.
    pub(crate) fn new(alloc: Global, names: &[&str]) -> Result<Collection, Memory>
        requires { AreManaged (texts_of names.now) }
        ensures { IfOk result (λ c. c ≡ begun (texts_of names.now)) }
    {
        let names = copies_of(alloc, names)?;
        let outcomes = vec![in alloc; false; names.len()]?;
        let answer = GarbageCollectionResult::with_room(alloc, names.len())?;
        Ok(Collection {
            names,
            outcomes,
            tried: 0,
            answer,
        })
    }

    // The names that it took.
    fn names(&self) -> &[String]
        ensures taken { (n : List ℕ) → has (names_of result.now) n ≡ has (taken self.now) n }
        ensures managed { AreManaged (names_of result.now) }
    {
        self.names.as_slice()
    }

    // Whether it took this name.
    fn took(&self, name: &str) -> bool
        ensures { result ≡ has (taken self.now) name.now }
    {
        self.names()
            .binary_search_by(|other| other.as_str().cmp(name))
            .is_ok()
    }

    // How many names it has yet to try.
    fn left(&self) -> usize
        ensures { result ≡ length self.now.untried }
    {
        self.names.len() - self.tried
    }

    // The name that it tries next.
    fn next(&self) -> &str
        requires { 0 < length self.now.untried }
        ensures first { (left : List (List ℕ)) × (self.now.untried ≡ result.now ∷ left) }
        ensures plain { is_plain result.now ≡ true }
    {
        self.names[self.tried].as_str()
    }

    // It has tried the next name: its delete is done, or was refused. Takes no memory.
    fn mark(&mut self, is_done: bool)
        requires { 0 < length self.old.untried }
        ensures { (name : List ℕ) (left : List (List ℕ)) → self.old.untried ≡ name ∷ left
            → self.new ≡ having_tried self.old name left is_done }
    {
        self.outcomes[self.tried] = is_done;
        self.tried += 1;
    }

    // Whether a name of it is done. Takes no memory.
    fn has_done(&self) -> bool
        ensures some { result ≡ true → self.now.done ≢ [] }
        ensures none { result ≡ false → self.now.done ≡ [] }
    {
        self.outcomes[..self.tried].iter().any(|is_done| *is_done)
    }

    // These names without those that it has done. Takes no memory.
    fn without_done(&self, names: BTreeSet<String>) -> BTreeSet<String>
        requires { AreManaged (names_of names.keys) }
        ensures { names_of result.keys ≡ without self.now.done (names_of names.keys) }
    {
        without_done(names, self.names.as_slice(), &self.outcomes[..self.tried])
    }

    // What it told so far. Takes no memory.
    fn into_answer(self) -> GarbageCollectionResult
        ensures deleted { names_of result.deleted_files.items ≡ self.done }
        ensures failed { names_of result.failed_to_delete_files.items ≡ self.failed }
        ensures apart { (n : List ℕ) → has self.failed n ≡ true → has self.done n ≡ false }
    {
        let Collection {
            names,
            outcomes,
            tried,
            answer,
        } = self;
        told_in(answer, names, &outcomes[..tried])
    }
}

// Copies of these texts.
fn copies_of(alloc: Global, texts: &[&str]) -> Result<Vec<String>, Memory>
    ensures { IfOk result (λ copies. names_of copies.items ≡ texts_of texts.now) }
{
    let mut copies = Vec::with_capacity(alloc, texts.len())?;
    for text in texts {
        copies.push(String::from_str(alloc, text)?)?;
    }
    Ok(copies)
}

// Puts names into a set.
fn put_names<'a>(set: &mut BTreeSet<&'a str>, names: &'a [String]) -> Result<(), Memory>
    ensures { OnOk result ((n : List ℕ)
        → has (texts_of set.new.keys) n ≡ has (texts_of set.old.keys ++ names_of names.now) n) }
{
    for name in names {
        set.insert(name.as_str())?;
    }
    Ok(())
}

// These names without those that were tried and are done.
fn without_done(names: BTreeSet<String>, tried: &[String], outcomes: &[bool]) -> BTreeSet<String>
    requires managed { AreManaged (names_of names.keys) }
    requires within { length outcomes.now ≤ length tried.now }
    ensures { names_of result.keys
        ≡ without (tried_so (names_of tried.now) outcomes.now).done (names_of names.keys) }
{
    let mut names = names;
    for (i, is_done) in outcomes.iter().enumerate() {
        if *is_done {
            names.remove(tried[i].as_str());
        }
    }
    names
}

// An answer that has room for these names, with the outcomes of the first ones.
fn told_in(
    answer: GarbageCollectionResult,
    names: Vec<String>,
    outcomes: &[bool],
) -> GarbageCollectionResult
    requires ready { IsReady (length names.items) answer }
    requires within { length outcomes.now ≤ length names.items }
    ensures deleted { names_of result.deleted_files.items
        ≡ (tried_so (names_of names.items) outcomes.now).done }
    ensures failed { names_of result.failed_to_delete_files.items
        ≡ (tried_so (names_of names.items) outcomes.now).failed }
{
    let mut answer = answer;
    let mut names = names.into_iter();
    for gone in outcomes {
        if let Some(name) = names.next() {
            answer.add(name, *gone);
        }
    }
    answer
}

/// The unfinished collections by their numbers, and the number that the next one gets.
#[derive(Drop)]
pub(crate) struct Collections {
    unfinished: BTreeMap<u64, Collection>,
    next: u64,
}

impl Model for Collections {
    ghost use Rattle.tv_formats.specs.Collections.{Collections as CollectionsState};
    ghost use Rattle.tv_managed.specs.Names.{AreNumbered};

    ghost Value = { CollectionsState };

    ghost view = { λ a. record { unfinished = a.unfinished.entries; next = a.next } };

    ghost invariant = { λ a.
        AreNumbered (record { unfinished = a.unfinished.entries; next = a.next }) };
}

impl Collections {
    /// No collection was begun. Takes no memory.
    pub(crate) fn new(alloc: Global) -> Collections
        ensures { result ≡ no_collections }
    {
        Collections {
            unfinished: BTreeMap::new(alloc),
            next: 0,
        }
    }

    /// Whether the next number is the last, which no collection gets. Takes no memory.
    pub(crate) fn is_spent(&self) -> bool
        ensures spent { result ≡ true → IsLast self.now.next }
        ensures numbered { result ≡ false → IsLast self.now.next → ⊥ }
    {
        self.next == u64::MAX
    }

    /// Whether an unfinished collection has the name. Takes no memory.
    pub(crate) fn holds(&self, name: &str) -> bool
        ensures { result ≡ has (held self.now) name.now }
    {
        self.unfinished
            .values()
            .any(|collection| collection.took(name))
    }

    /// The names that unfinished collections hold.
    pub(crate) fn held<'a>(&'a self, alloc: Global) -> Result<BTreeSet<&'a str>, Memory>
        ensures { IfOk result (λ set. (n : List ℕ)
            → has (texts_of set.keys) n ≡ has (held self.now) n) }
    {
        let mut names = BTreeSet::new(alloc);
        for collection in self.unfinished.values() {
            put_names(&mut names, collection.names())?;
        }
        Ok(names)
    }

    /// The number that the next collection gets. Takes no memory.
    pub(crate) fn next_number(&self) -> u64
        ensures { result ≡ self.now.next }
    {
        self.next
    }

    /// A collection begins, which has tried none of its names.
    pub(crate) fn begin(&mut self, collection: Collection) -> Result<u64, Memory>
        requires begun { collection ≡ begun collection.untried }
        requires numbered { IsLast self.old.next → ⊥ }
        ensures number { IfOk result (λ number. number ≡ self.old.next) }
        ensures free { OnOk result (collection_at self.old self.old.next ≡ None) }
        ensures begun { OnOk result (self.new ≡ with_begun self.old collection.untried) }
        ensures err { OnErr result (self.new ≡ self.old) }
    {
        let number = self.next;
        self.unfinished.insert(number, collection)?;
        self.next = number + 1;
        Ok(number)
    }

    /// The names that the collection took, in their order. Takes no memory.
    pub(crate) fn names(&self, number: u64) -> Option<&[String]>
        ensures absent { collection_at self.now number ≡ None → result ≡ None }
        ensures names { (c : CollectionState) → collection_at self.now number ≡ Some c
            → (names : _) × (result ≡ Some names) × AreManaged (names_of names.now)
            × ((n : List ℕ) → has (names_of names.now) n ≡ has (taken c) n) }
    {
        match self.unfinished.get(&number) {
            Some(collection) => Some(collection.names()),
            None => None,
        }
    }

    /// How many names the collection has yet to try. Takes no memory.
    pub(crate) fn left(&self, number: u64) -> Option<usize>
        ensures { result ≡ option_map (λ c. length c.untried) (collection_at self.now number) }
    {
        match self.unfinished.get(&number) {
            Some(collection) => Some(collection.left()),
            None => None,
        }
    }

    /// The name that the collection tries next. Takes no memory.
    pub(crate) fn next(&self, number: u64) -> &str
        requires { HasLeft self.now number }
        ensures first { (c : CollectionState) (name : List ℕ) (left : List (List ℕ))
            → collection_at self.now number ≡ Some c → c.untried ≡ name ∷ left
            → result.now ≡ name }
        ensures plain { is_plain result.now ≡ true }
    {
        self.unfinished[&number].next()
    }

    /// A copy of the name that the collection tries next.
    pub(crate) fn next_name(&self, alloc: Global, number: u64) -> Result<String, Memory>
        requires { HasLeft self.now number }
        ensures first { (c : CollectionState) (name : List ℕ) (left : List (List ℕ))
            → collection_at self.now number ≡ Some c → c.untried ≡ name ∷ left
            → IfOk result (λ found. string_bytes found ≡ name) }
        ensures plain { IfOk result (λ found. is_plain (string_bytes found) ≡ true) }
    {
        Ok(String::from_str(alloc, self.next(number))?)
    }

    /// The collection has tried its next name: its delete is done, or was refused. Takes no memory.
    pub(crate) fn mark(&mut self, number: u64, is_done: bool)
        requires { HasLeft self.old number }
        ensures { (c : CollectionState) (name : List ℕ) (left : List (List ℕ))
            → collection_at self.old number ≡ Some c → c.untried ≡ name ∷ left
            → self.new ≡ with_collection self.old number (having_tried c name left is_done) }
    {
        self.unfinished.get_mut(&number).unwrap().mark(is_done);
    }

    /// Whether a name of the collection is done. Takes no memory.
    pub(crate) fn has_done(&self, number: u64) -> bool
        requires { IsSome (collection_at self.now number) }
        ensures some { (c : CollectionState) → collection_at self.now number ≡ Some c
            → result ≡ true → c.done ≢ [] }
        ensures none { (c : CollectionState) → collection_at self.now number ≡ Some c
            → result ≡ false → c.done ≡ [] }
    {
        self.unfinished[&number].has_done()
    }

    /// These names without those that the collection has done. Takes no memory.
    pub(crate) fn without_done(&self, number: u64, names: BTreeSet<String>) -> BTreeSet<String>
        requires there { IsSome (collection_at self.now number) }
        requires managed { AreManaged (names_of names.keys) }
        ensures { (c : CollectionState) → collection_at self.now number ≡ Some c
            → names_of result.keys ≡ without c.done (names_of names.keys) }
    {
        self.unfinished[&number].without_done(names)
    }

    /// The collection is finished: what it told. Takes no memory.
    pub(crate) fn finish(&mut self, number: u64) -> GarbageCollectionResult
        requires { IsSome (collection_at self.old number) }
        ensures names { self.new ≡ without_collection self.old number }
        ensures told { (c : CollectionState) → collection_at self.old number ≡ Some c
            → (names_of result.deleted_files.items ≡ c.done)
            × (names_of result.failed_to_delete_files.items ≡ c.failed) }
        ensures apart { (c : CollectionState) → collection_at self.old number ≡ Some c
            → (n : List ℕ) → has c.failed n ≡ true → has c.done n ≡ false }
    {
        self.unfinished.remove(&number).unwrap().into_answer()
    }

    /// The number before the next one is free again, which no unfinished collection has. Takes no memory.
    pub(crate) fn give_back(&mut self)
        requires above { 0 < self.old.next }
        requires free { collection_at self.old (self.old.next - 1) ≡ None }
        ensures { self.new ≡ record self.old { next = self.old.next - 1 } }
    {
        self.next -= 1;
    }
}
