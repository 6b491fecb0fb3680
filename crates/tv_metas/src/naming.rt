//! The names of the files of segments, gathered one after the other, and sets of names.
ghost use Rattle.std.specs.Prelude.{◌≡◌, ◌++◌, [], ◌∷◌, ℕ, List, true, IfOk, OnOk, filter, map, string_bytes};
ghost use Rattle.std.specs.List.{list_all};
ghost use Rattle.hex.specs.Hex.{encode_lower};
ghost use Rattle.tv_formats.specs.Segments.{segment_names, is_named, name_of};
ghost use Rattle.tv_formats.specs.Names.{has, is_plain};

use std::alloc::Global;
use std::collections::BTreeSet;
use tv_formats::{FileName, LiveSegment, Memory, SegmentComponent, SegmentId, segment_file_name};

/// Adds the name of one file of a segment.
pub fn push_name(
    alloc: Global,
    names: &mut Vec<FileName>,
    id: SegmentId,
    segment: LiveSegment,
    component: SegmentComponent,
) -> Result<(), Memory>
    ensures { OnOk result (names.new.items ≡ names.old.items
        ++ name_of id segment.deletes component ∷ []) }
{
    let name = segment_file_name(alloc, id, segment.deletes, component)?;
    names.push(name)?;
    Ok(())
}

/// Adds the names that a segment has.
pub fn push_names(
    alloc: Global,
    names: &mut Vec<FileName>,
    id: SegmentId,
    segment: LiveSegment,
) -> Result<(), Memory>
    ensures { OnOk result (names.new.items ≡ names.old.items ++ segment_names (id, segment)) }
{
    for component in SegmentComponent::iterator() {
        push_name(alloc, names, id, segment, *component)?;
    }
    Ok(())
}

/// The names as a set of texts.
pub fn set_of(alloc: Global, names: Vec<FileName>) -> Result<BTreeSet<String>, Memory>
    ensures { IfOk result (λ set. (n : List ℕ)
        → has (map string_bytes set.keys) n ≡ has names.items n) }
{
    let mut set = BTreeSet::new(alloc);
    for name in names {
        set.insert(name.into_string())?;
    }
    Ok(set)
}

/// Whether a name is among some others. Takes no memory.
pub fn has_name(names: &BTreeSet<String>, name: &str) -> bool
    ensures { result ≡ has (map string_bytes names.now.keys) name.now }
{
    names.contains(name)
}

// Adds a copy of a name.
fn push_text(alloc: Global, names: &mut Vec<FileName>, text: &String) -> Result<(), Memory>
    requires { is_plain (string_bytes text.now) ≡ true }
    ensures { OnOk result (names.new.items ≡ names.old.items ++ string_bytes text.now ∷ []) }
{
    let text = String::from_str(alloc, text.as_str())?;
    names.push(FileName::new(text))?;
    Ok(())
}

// Adds a copy of a name, where it is among others.
fn push_shared(
    alloc: Global,
    names: &mut Vec<FileName>,
    text: &String,
    others: &BTreeSet<String>,
) -> Result<(), Memory>
    requires { is_plain (string_bytes text.now) ≡ true }
    ensures { OnOk result (names.new.items ≡ names.old.items
        ++ filter (has (map string_bytes others.now.keys)) (string_bytes text.now ∷ [])) }
{
    if has_name(others, text.as_str()) {
        return push_text(alloc, names, text);
    }
    Ok(())
}

/// Those of some names that are among others, in their order.
pub fn shared_names(
    alloc: Global,
    names: &BTreeSet<String>,
    others: &BTreeSet<String>,
) -> Result<Vec<FileName>, Memory>
    requires { list_all is_plain (map string_bytes names.now.keys) ≡ true }
    ensures { IfOk result (λ shared. shared.items
        ≡ filter (λ name. has (map string_bytes others.now.keys) name)
        (map string_bytes names.now.keys)) }
{
    let mut shared = Vec::new(alloc);
    for name in names {
        push_shared(alloc, &mut shared, name, others)?;
    }
    Ok(shared)
}

/// Whether one of some names begins with an id, whose digits are handed in. Takes no memory.
pub fn is_named(names: &BTreeSet<String>, id: SegmentId, digits: String) -> bool
    requires { string_bytes digits ≡ encode_lower id }
    ensures { result ≡ is_named (map string_bytes names.now.keys) id }
{
    // The first name from the digits on tells, since names are in the order of their bytes.
    let mut spelled = [0; 32];
    id.write_digits(&mut spelled);
    match names.range(digits..).next() {
        Some(name) => name.as_bytes().starts_with(&spelled),
        None => false,
    }
}
