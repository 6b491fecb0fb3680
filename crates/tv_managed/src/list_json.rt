//! The JSON of the list of managed files.
ghost use Rattle.std.specs.Prelude.{◌≡◌, List, ℕ, [], IfOk, OnOk, MatchOption, option_map};
ghost use Rattle.std.specs.BTreeSet.{insert_key};
ghost use Rattle.serde_json.specs.View.{view, items_view};
ghost use Rattle.tv_formats.specs.Names.{byte_cmp};
ghost use Rattle.tv_formats.specs.Listing.{IsListOf};
ghost use Rattle.tv_managed.specs.Collecting.{names_of};
ghost use Rattle.tv_managed.specs.ListTrees.{name_of, names_in, put_items};

use serde_json::Value;
use std::alloc::Global;
use std::collections::BTreeSet;
use tv_base::is_plain_name;
use tv_formats::Memory;

/// The names that the bytes list, and nothing where they are no list.
pub(crate) fn read_names(alloc: Global, bytes: &[u8]) -> Result<Option<BTreeSet<String>>, Memory>
    ensures { IfOk result (λ found. MatchOption found
        ((names : List (List ℕ)) → IsListOf bytes.now names → ⊥)
        (λ names. IsListOf bytes.now (names_of names.keys))) }
{
    match Value::from_slice(alloc, bytes) {
        Ok(tree) => names_in(alloc, &tree),
        Err(error) => {
            if error.is_memory() {
                Err(Memory)
            } else {
                Ok(None)
            }
        }
    }
}

// The names in a tree, if it is an array of plain ones.
fn names_in(alloc: Global, tree: &Value) -> Result<Option<BTreeSet<String>>, Memory>
    ensures { IfOk result (λ found. option_map (λ names. names_of names.keys) found
        ≡ names_in (view tree.now)) }
{
    match tree.as_array() {
        Some(items) => names_of(alloc, items.as_slice()),
        None => Ok(None),
    }
}

// The names that the items are, if all are plain ones. One that stands several times counts once.
fn names_of(alloc: Global, items: &[Value]) -> Result<Option<BTreeSet<String>>, Memory>
    ensures { IfOk result (λ found. option_map (λ names. names_of names.keys) found
        ≡ put_items [] (items_view items.now)) }
{
    let mut names = BTreeSet::new(alloc);
    for item in items {
        let Some(name) = name_of(item) else {
            return Ok(None);
        };
        put(alloc, &mut names, name)?;
    }
    Ok(Some(names))
}

// Puts a name among the names.
#[tactic(auto, using(tv_formats::proofs::TextSets::texts_inserted))]
fn put(alloc: Global, names: &mut BTreeSet<String>, name: &str) -> Result<(), Memory>
    ensures { OnOk result (names_of names.new.keys
        ≡ insert_key byte_cmp (names_of names.old.keys) name.now) }
{
    names.insert(String::from_str(alloc, name)?)?;
    Ok(())
}

// The name that an item is, if it is a plain one.
fn name_of(item: &Value) -> Option<&str>
    ensures { option_map (λ name. name.now) result ≡ name_of (view item.now) }
{
    let name = item.as_str()?;
    if is_plain_name(name) {
        Some(name)
    } else {
        None
    }
}
