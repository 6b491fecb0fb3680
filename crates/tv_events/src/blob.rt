//! Bytes, texts and lists of ids, seen by contracts as plain lists.
ghost use Rattle.std.specs.Prelude.{◌≡◌, string_bytes, IfOk, IfSome, IsSome, ◌↔◌, true};
ghost use Rattle.tv_formats.specs.Ids.{are_distinct};

use std::alloc::Global;
use std::collections::BTreeSet;
use std::marker::Model;
use tv_formats::{Memory, SegmentId};

/// Some bytes.
#[derive(Drop)]
pub struct Blob {
    bytes: Vec<u8>,
}

impl Model for Blob {
    ghost use Rattle.std.specs.Prelude.{List, ℕ};

    ghost Value = { List ℕ };

    ghost view = { λ a. a.bytes.items };
}

impl Blob {
    /// These bytes.
    pub fn new(bytes: Vec<u8>) -> Blob
        ensures { result ≡ bytes.items }
    {
        Blob { bytes }
    }

    /// The bytes.
    pub fn as_slice(&self) -> &[u8]
        ensures { result.now ≡ self.now }
    {
        self.bytes.as_slice()
    }
}

/// Some text. To a contract it is its bytes.
#[derive(Drop)]
pub struct Text {
    text: String,
}

impl Model for Text {
    ghost use Rattle.std.specs.Prelude.{List, ℕ, string_bytes};

    ghost Value = { List ℕ };

    ghost view = { λ a. string_bytes a.text };
}

impl Text {
    /// This text.
    pub fn new(text: String) -> Text
        ensures { result ≡ string_bytes text }
    {
        Text { text }
    }

    /// The text.
    pub fn as_str(&self) -> &str
        ensures { result.now ≡ self.now }
    {
        self.text.as_str()
    }
}

/// Some ids, none of them twice.
#[derive(Drop)]
pub struct IdList {
    ids: Vec<SegmentId>,
}

impl Model for IdList {
    ghost use Rattle.std.specs.Prelude.{List, ℕ};

    ghost Value = { List (List ℕ) };

    ghost view = { λ a. a.ids.items };
}

impl IdList {
    /// These ids, where none of them stands twice.
    ///
    /// With memory for a set of them the time grows as that of a sort. Where memory is wanting,
    /// each id is compared with all after it: slower, and the answer is the same.
    pub fn new(ids: Vec<SegmentId>) -> Option<IdList>
        ensures distinct { IsSome result ↔ (are_distinct ids.items ≡ true) }
        ensures list { IfSome result (λ list. list ≡ ids.items) }
    {
        if are_apart(*ids.allocator(), ids.as_slice()) {
            Some(IdList { ids })
        } else {
            None
        }
    }

    /// The ids.
    pub fn as_slice(&self) -> &[SegmentId]
        ensures { result.now ≡ self.now }
    {
        self.ids.as_slice()
    }
}

// Whether no id stands twice.
fn are_apart(alloc: Global, ids: &[SegmentId]) -> bool
    ensures { result ≡ are_distinct ids.now }
{
    match are_apart_in_a_set(alloc, ids) {
        Ok(apart) => apart,
        Err(_memory) => are_apart_in_pairs(ids),
    }
}

// The same, where there is memory for a set of the ids.
fn are_apart_in_a_set(alloc: Global, ids: &[SegmentId]) -> Result<bool, Memory>
    ensures { IfOk result (λ apart. apart ≡ are_distinct ids.now) }
{
    let mut seen = BTreeSet::new(alloc);
    for id in ids {
        if !seen.insert(*id)? {
            return Ok(false);
        }
    }
    Ok(true)
}

// The same without memory: each id is compared with all after it.
fn are_apart_in_pairs(ids: &[SegmentId]) -> bool
    ensures { result ≡ are_distinct ids.now }
{
    let mut left = ids;
    while let [id, others @ ..] = left {
        if others.contains(id) {
            return false;
        }
        left = others;
    }
    true
}
