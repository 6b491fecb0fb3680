//! The schema of an index.
ghost use Rattle.std.specs.Prelude.{◌≡◌, ◌≢◌, ◌↔◌, ℕ, List, true, Some, IsTrue, IfOk, IfErr, MatchBool, MatchResult, map, string_bytes};
ghost use Rattle.serde_json.specs.Read.{read};
ghost use Rattle.serde_json.specs.View.{view};
ghost use Rattle.serde_json.specs.Written.{compact_text};
ghost use Rattle.tv_formats.specs.Schemas.{IsNoSchema, IsSchema, IsSchemaText, IsSchemaTree, is_bounded};
ghost use Rattle.tv_metas.specs.Reads.{IfCorrupt};
ghost use Rattle.tv_metas.specs.SchemaReading.{texts};
ghost use Rattle.tv_metas.specs.Schemas.{HasNames, HasSchemaTree, IsNoSchemaText, SchemaCause};

use crate::json_text::tree_of;
use crate::read_error::ReadError;
use crate::schema_tree::{canonical_text, names_of};
use crate::stripping::without_blanks;
use serde_json::Value;
use std::alloc::Global;
use std::marker::Model;
use tv_base::TantivyError;
use tv_formats::Memory;

// How many bytes spell a schema at most.
const MAX_SIZE: usize = 1_048_576;

/// The schema of an index. To a contract it is its text.
#[derive(Drop)]
pub struct Schema {
    text: Vec<u8>,
    names: Vec<String>,
    // The text of the same tree with its keys in the order of their bytes and without blanks.
    canonical: String,
}

impl Model for Schema {
    ghost use Rattle.std.specs.Prelude.{List, ℕ, map, string_bytes};
    ghost use Rattle.tv_metas.specs.Schemas.{IsKept};

    ghost Value = { List ℕ };

    ghost view = { λ s. s.text.items };

    ghost invariant = { λ s. IsKept s.text.items (map string_bytes s.names.items)
        (string_bytes s.canonical) };
}

impl Schema {
    /// The schema that the bytes spell. Its text is theirs, without the blanks outside string
    /// literals.
    pub fn from_bytes(alloc: Global, bytes: &[u8]) -> Result<Schema, TantivyError>
        ensures ok { IfOk result (IsSchema bytes.now) }
        ensures err { IfErr result (SchemaCause bytes.now) }
    {
        match Schema::spelled(alloc, bytes) {
            Ok(schema) => Ok(schema),
            Err(ReadError::Corrupt) => Err(not_of_the_form(alloc)),
            Err(ReadError::Memory) => Err(TantivyError::Memory),
        }
    }

    // The schema that the bytes spell.
    fn spelled(alloc: Global, bytes: &[u8]) -> Result<Schema, ReadError>
        ensures { MatchResult result (IsSchema bytes.now)
            (λ e. IfCorrupt e (IsNoSchema bytes.now)) }
    {
        if bytes.len() > MAX_SIZE {
            return Err(ReadError::Corrupt);
        }
        tree_of(alloc, bytes)?;
        Schema::of_text(alloc, without_blanks(alloc, bytes)?)
    }

    // The schema of this text.
    fn of_text(alloc: Global, text: Vec<u8>) -> Result<Schema, ReadError>
        ensures text { IfOk result (λ schema. schema ≡ text.items) }
        ensures form { MatchResult result (λ _. HasSchemaTree text.items)
            (λ e. IfCorrupt e (IsNoSchemaText text.items)) }
    {
        if !text.starts_with(b"[") {
            return Err(ReadError::Corrupt);
        }
        let tree = tree_of(alloc, text.as_slice())?;
        let names = names_of(alloc, &tree)?;
        let canonical = canonical_text(alloc, &tree)?;
        Ok(Schema {
            text,
            names,
            canonical,
        })
    }

    /// The schema of a tree, whose fields have these names. In its text the keys are in the order
    /// of their bytes, and it has no blanks.
    pub(crate) fn of_tree(alloc: Global, names: Vec<String>, tree: &Value) -> Result<Schema, Memory>
        requires form { IsSchemaTree (view tree.now) (texts names) }
        ensures text { IfOk result (λ schema. schema ≡ compact_text (view tree.now)) }
        ensures form { IfOk result (λ schema. IsSchemaText schema (view tree.now)) }
    {
        let canonical = canonical_text(alloc, tree)?;
        let text = Vec::from_slice(alloc, canonical.as_bytes())?;
        Ok(Schema {
            text,
            names,
            canonical,
        })
    }

    /// Its text.
    pub fn text(&self) -> &[u8]
        ensures text { result.now ≡ self.now }
        ensures form { HasSchemaTree self.now }
    {
        self.text.as_slice()
    }

    /// The names of its fields, in their order, none of them twice.
    pub fn names(&self) -> &[String]
        ensures names { HasNames self.now (map string_bytes result.now) }
    {
        self.names.as_slice()
    }

    /// Whether the two have the same tree, so that the order of keys doesn't count. Takes no
    /// memory.
    pub fn same(&self, other: &Schema) -> bool
        ensures same { IsTrue result ↔ (read self.now ≡ read other.now) }
    {
        self.canonical.as_str() == other.canonical.as_str()
    }

    /// Whether this is its tree.
    pub(crate) fn has_tree(&self, alloc: Global, tree: &Value) -> Result<bool, Memory>
        requires { is_bounded 32 (view tree.now) ≡ true }
        ensures { IfOk result (λ same. MatchBool same (IsSchemaText self.now (view tree.now))
            (read self.now ≢ Some (view tree.now))) }
    {
        let canonical = canonical_text(alloc, tree)?;
        Ok(self.canonical.as_str() == canonical.as_str())
    }

    /// The same schema once more.
    pub fn share(&self, alloc: Global) -> Result<Schema, Memory>
        ensures text { IfOk result (λ schema. schema ≡ self.now) }
    {
        let mut names = Vec::with_capacity(alloc, self.names.len())?;
        for name in &self.names {
            names.push(String::from_str(alloc, name.as_str())?)?;
        }
        Ok(Schema {
            text: Vec::from_slice(alloc, self.text.as_slice())?,
            names,
            canonical: String::from_str(alloc, self.canonical.as_str())?,
        })
    }
}

// The refusal of bytes that spell no schema.
fn not_of_the_form(alloc: Global) -> TantivyError
    ensures { (bytes : List ℕ) → IsNoSchema bytes → SchemaCause bytes result }
{
    match String::from_str(alloc, "the schema is not of the stated form") {
        Ok(text) => TantivyError::InvalidArgument(text),
        Err(_) => TantivyError::Memory,
    }
}
