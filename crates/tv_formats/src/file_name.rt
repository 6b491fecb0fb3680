//! The names of files.
ghost use Rattle.std.specs.Prelude.{◌≡◌, ◌<◌, ◌^◌, ◌++◌, true, nat_eq, codes};
ghost use Rattle.std.specs.Prelude.{string_bytes, IfOk};
ghost use Rattle.std.specs.Fmt.{decimal};
ghost use Rattle.hex.specs.Hex.{encode_lower};
ghost use Rattle.std.proofs.Common.{rules};
ghost use Rattle.std.specs.Cmp.Rules.{comparing};
ghost use Rattle.std.specs.Cmp.Lexicographic.{pointwise, slice_cmp};
ghost use Rattle.std.specs.Ordering.{nat_cmp, as_partial_cmp};
ghost use Rattle.tv_formats.specs.Ids.{IsId};
ghost use Rattle.tv_formats.specs.Names.{is_file_name, is_plain};
ghost use Rattle.tv_formats.specs.Segments.{name_of, delete_opstamp};

use crate::Opstamp;
use crate::id::SegmentId;
use crate::memory::Memory;
use crate::segment::{DeleteMeta, SegmentComponent};
use std::alloc::Global;
use std::cmp::Ordering;
use std::marker::Model;

/// The name of a file, plain or dotted. Names are ordered by their bytes.
#[derive(Debug, Drop)]
pub struct FileName {
    text: String,
}

impl Model for FileName {
    ghost use Rattle.std.specs.Prelude.{List, ℕ, ◌≡◌, true, string_bytes};
    ghost use Rattle.tv_formats.specs.Names.{is_file_name};

    ghost Value = { List ℕ };

    ghost view = { λ a. string_bytes a.text };

    ghost invariant = { λ a. is_file_name (string_bytes a.text) ≡ true };
}

impl FileName {
    /// The name with this text.
    pub fn new(text: String) -> FileName
        requires { is_file_name (string_bytes text) ≡ true }
        ensures { result ≡ string_bytes text }
    {
        FileName { text }
    }

    /// Its text.
    pub fn as_str(&self) -> &str
        ensures text { result.now ≡ self.now }
        ensures name { is_file_name result.now ≡ true }
    {
        self.text.as_str()
    }

    /// Its text, taken out.
    pub fn into_string(self) -> String
        ensures text { string_bytes result ≡ self }
        ensures name { is_file_name (string_bytes result) ≡ true }
    {
        self.text
    }
}

/// The name of a segment's file: its id, for a delete file the number of the delete, and the
/// extension, with dots between.
pub fn segment_file_name(
    alloc: Global,
    id: SegmentId,
    deletes: Option<DeleteMeta>,
    component: SegmentComponent,
) -> Result<FileName, Memory>
    ensures name { IfOk result (λ name. name ≡ name_of id deletes component) }
    ensures plain { IfOk result (λ name. is_plain name ≡ true) }
    ensures id { IsId id }
{
    if component == SegmentComponent::Delete {
        let opstamp = delete_opstamp(deletes);
        let text = delete_file_name(alloc, id, opstamp)?;
        return Ok(FileName::new(text));
    }
    let text = file_name(alloc, id, component.extension())?;
    Ok(FileName::new(text))
}

// The number of the delete, 0 where there was none.
fn delete_opstamp(deletes: Option<DeleteMeta>) -> Opstamp
    ensures { result ≡ delete_opstamp deletes }
{
    match deletes {
        Some(meta) => meta.opstamp,
        None => 0,
    }
}

// The name of a file that isn't a delete file.
fn file_name(alloc: Global, id: SegmentId, extension: &str) -> Result<String, Memory>
    ensures name { IfOk result (λ text. string_bytes text
        ≡ encode_lower id ++ codes "." ++ extension.now) }
    ensures id { IsId id }
{
    let mut text = id.uuid_string(alloc)?;
    text.push_str(".")?;
    text.push_str(extension)?;
    Ok(text)
}

// The name of a delete file.
fn delete_file_name(alloc: Global, id: SegmentId, opstamp: Opstamp) -> Result<String, Memory>
    ensures name { IfOk result (λ text. string_bytes text
        ≡ encode_lower id ++ codes "." ++ decimal opstamp ++ codes ".del") }
    ensures id { IsId id }
    ensures small { opstamp < 2 ^ 64 }
{
    let mut text = id.uuid_string(alloc)?;
    let mut digits = itoa::Buffer::new();
    text.push_str(".")?;
    text.push_str(digits.format(opstamp))?;
    text.push_str(".del")?;
    Ok(text)
}

impl PartialEq for FileName {
    ghost eq = { pointwise nat_eq };

    ghost laws = { Prim.search (comparing, rules) };

    fn eq(&self, other: &FileName) -> bool {
        self.text.as_str() == other.text.as_str()
    }
}

impl Eq for FileName {
    ghost laws = { Prim.search (comparing, rules) };
}

impl PartialOrd for FileName {
    ghost partial_cmp = { as_partial_cmp (slice_cmp nat_cmp) };

    ghost laws = { Prim.search (comparing, rules) };

    fn partial_cmp(&self, other: &FileName) -> Option<Ordering> {
        Some(self.cmp(other))
    }
}

impl Ord for FileName {
    ghost cmp = { slice_cmp nat_cmp };

    ghost total = { Prim.search (comparing, rules) };

    ghost matches_partial_cmp = { Prim.search (comparing, rules) };

    ghost matches_eq = { Prim.search (comparing, rules) };

    fn cmp(&self, other: &FileName) -> Ordering {
        self.text.as_str().cmp(other.text.as_str())
    }
}
