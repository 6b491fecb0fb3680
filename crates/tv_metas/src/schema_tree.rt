//! The trees of schemas.
ghost use Rattle.std.specs.Prelude.{◌≡◌, true, Some, IfOk, OnOk, map, option_map, string_bytes};
ghost use Rattle.serde_json.specs.Find.{as_str};
ghost use Rattle.serde_json.specs.Read.{read};
ghost use Rattle.serde_json.specs.View.{items_view, members_view, view};
ghost use Rattle.serde_json.specs.Written.{compact_text};
ghost use Rattle.tv_formats.specs.Ids.{are_distinct};
ghost use Rattle.tv_formats.specs.JsonFields.{field};
ghost use Rattle.tv_formats.specs.Schemas.{are_bounded, have_bounded, is_bounded};
ghost use Rattle.tv_metas.specs.Reads.{Gives};
ghost use Rattle.tv_metas.specs.SchemaReading.{names_in, names_of, texts};

use crate::read_error::ReadError;
use serde_json::{Map, Value};
use std::alloc::Global;
use std::collections::BTreeSet;
use tv_formats::Memory;

// How deep a schema nests at most, the outer array counting as 1.
const MAX_NESTING: usize = 32;

/// Whether a tree nests at most so deep, and has no numbers but integers of 64 bits.
#[cycle(bounded)]
fn is_bounded(tree: &Value, nesting: usize) -> bool
    ensures { result ≡ is_bounded nesting (view tree.now) }
{
    match tree {
        Value::Null | Value::Bool(_) | Value::String(_) => true,
        Value::Number(number) => number.is_u64() || number.is_i64(),
        Value::Array(list) => nesting > 0 && are_bounded(list.as_slice(), nesting - 1),
        Value::Object(members) => nesting > 0 && have_bounded(members, nesting - 1),
    }
}

// The same of each of several trees.
#[cycle(bounded)]
fn are_bounded(list: &[Value], nesting: usize) -> bool
    ensures { result ≡ are_bounded nesting (items_view list.now) }
{
    for tree in list {
        if !is_bounded(tree, nesting) {
            return false;
        }
    }
    true
}

// The same of each member of an object.
#[cycle(bounded)]
fn have_bounded(members: &Map<String, Value>, nesting: usize) -> bool
    ensures { result ≡ have_bounded nesting (members_view members.now.entries) }
{
    for (_, tree) in members {
        if !is_bounded(tree, nesting) {
            return false;
        }
    }
    true
}

// The text at a key.
fn text_at<'a>(tree: &'a Value, key: &str) -> Option<&'a str>
    ensures { option_map (λ text. text.now) result ≡ field as_str key.now (view tree.now) }
{
    tree.get(key)?.as_str()
}

// The names of the fields, each of which has a type.
fn names_in(alloc: Global, fields: &[Value]) -> Result<Vec<String>, ReadError>
    ensures { Gives texts result (names_in (items_view fields.now)) }
{
    let mut names = Vec::new(alloc);
    for tree in fields {
        let name = text_at(tree, "name").ok_or(ReadError::Corrupt)?;
        text_at(tree, "type").ok_or(ReadError::Corrupt)?;
        names.push(String::from_str(alloc, name)?)?;
    }
    Ok(names)
}

// Whether no name stands twice.
fn are_distinct(alloc: Global, names: &[String]) -> Result<bool, Memory>
    ensures { IfOk result (λ apart. apart ≡ are_distinct (map string_bytes names.now)) }
{
    let mut seen = BTreeSet::new(alloc);
    for name in names {
        if !seen.insert(name.as_str())? {
            return Ok(false);
        }
    }
    Ok(true)
}

/// The names of the fields, where the tree is a schema's.
pub(crate) fn names_of(alloc: Global, tree: &Value) -> Result<Vec<String>, ReadError>
    ensures names { Gives texts result (names_of (view tree.now)) }
    ensures bounded { OnOk result (is_bounded 32 (view tree.now) ≡ true) }
{
    let fields = tree.as_array().ok_or(ReadError::Corrupt)?;
    if !is_bounded(tree, MAX_NESTING) {
        return Err(ReadError::Corrupt);
    }
    let names = names_in(alloc, fields.as_slice())?;
    if !are_distinct(alloc, names.as_slice())? {
        return Err(ReadError::Corrupt);
    }
    Ok(names)
}

/// The text of the tree with its keys in the order of their bytes and without blanks.
pub(crate) fn canonical_text(alloc: Global, tree: &Value) -> Result<String, Memory>
    requires { is_bounded 32 (view tree.now) ≡ true }
    ensures text { IfOk result (λ text. string_bytes text ≡ compact_text (view tree.now)) }
    ensures reads { IfOk result (λ text. read (string_bytes text) ≡ Some (view tree.now)) }
{
    let text = tree.to_string(alloc)?;
    Ok(text)
}
