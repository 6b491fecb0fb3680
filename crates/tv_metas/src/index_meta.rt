//! A commit, as `meta.json` has it.
ghost use Rattle.std.specs.Prelude.{◌≡◌, ℕ, List, Option, IfOk, IfErr, MatchResult, option_map};
ghost use Rattle.serde_json.specs.View.{view};
ghost use Rattle.tv_formats.specs.Commits.{printed};
ghost use Rattle.tv_formats.specs.Meaning.{Means, MeansNothing};
ghost use Rattle.tv_formats.specs.Schemas.{IsSchemaTree};
ghost use Rattle.tv_metas.specs.Metas.{commit_of, settings_of};
ghost use Rattle.tv_metas.specs.Parsing.{IsForExpected, MeansOtherThan, ParseCause, SpellsUnlessExpected};
ghost use Rattle.tv_metas.specs.Choosing.{Chooses, ReadsMeta};
ghost use Rattle.tv_metas.specs.Printed.{IsUnprinted};
ghost use Rattle.tv_metas.specs.Reads.{IfCorrupt};
ghost use Rattle.tv_metas.specs.SchemaReading.{texts};

use crate::index_settings::IndexSettings;
use crate::json_text::tree_of;
use crate::meta_text::print_meta;
use crate::printed::read_printed;
use crate::read_error::ReadError;
use crate::reading::body_of;
use crate::schema::Schema;
use crate::segment_meta::InnerSegmentMeta;
use serde_json::Value;
use std::alloc::Global;
use tv_base::{DataCorruption, META_FILEPATH, Opstamp, TantivyError};
use tv_formats::Memory;

/// A commit, its settings and its schema, as `meta.json` has them.
#[derive(Drop)]
pub struct UntrackedIndexMeta {
    /// How the documents of the index are kept.
    pub index_settings: IndexSettings,
    /// The segments of the commit.
    pub segments: Vec<InnerSegmentMeta>,
    /// The schema of the index.
    pub schema: Schema,
    /// The number of the commit.
    pub opstamp: Opstamp,
    /// What its writer added.
    pub payload: Option<String>,
}

impl UntrackedIndexMeta {
    /// The commit that the bytes of `meta.json` mean. Its segments stand in the order of their ids.
    ///
    /// The schema is the expected one; where none is expected it is the one that the bytes spell as
    /// JSON, with its keys in the order of their bytes and without blanks.
    pub fn parse(
        alloc: Global,
        bytes: &[u8],
        expected: Option<&Schema>,
    ) -> Result<UntrackedIndexMeta, TantivyError>
        ensures ok { IfOk result (λ meta.
            Means (settings_of meta) meta.schema bytes.now (commit_of meta)) }
        ensures schema { IfOk result (λ meta.
            IsForExpected (option_map (λ s. s.now) expected.entry) meta.schema) }
        ensures spelled { IfOk result (λ meta. SpellsUnlessExpected
            (option_map (λ s. s.now) expected.entry) bytes.now
            (settings_of meta) (commit_of meta)) }
        ensures err { IfErr result (ParseCause (option_map (λ s. s.now) expected.entry) bytes.now) }
    {
        match read(alloc, bytes, expected) {
            Ok(Some(meta)) => Ok(meta),
            Ok(None) => Err(other_schema(alloc)),
            Err(ReadError::Corrupt) => Err(corrupt(alloc)),
            Err(ReadError::Memory) => Err(TantivyError::Memory),
        }
    }

    /// The text of `meta.json`, without its line feed.
    pub fn print(&self, alloc: Global) -> Result<Vec<u8>, Memory>
        ensures text { IfOk result (λ text. text.items
            ≡ printed (settings_of self.now) self.now.schema (commit_of self.now)) }
    {
        print_meta(
            alloc,
            &self.index_settings,
            &self.schema,
            self.segments.as_slice(),
            self.opstamp,
            self.payload.as_deref(),
        )
    }
}

// The commit that the bytes mean; nothing where they mean one of another schema than the expected
// one.
fn read(
    alloc: Global,
    bytes: &[u8],
    expected: Option<&Schema>,
) -> Result<Option<UntrackedIndexMeta>, ReadError>
    ensures { MatchResult result
        (ReadsMeta (option_map (λ s. s.now) expected.entry) bytes.now)
        (λ e. IfCorrupt e (MeansNothing (option_map (λ s. s.now) expected.entry) bytes.now)) }
{
    if let Some(schema) = expected {
        match read_printed(alloc, bytes, schema) {
            Ok(meta) => return Ok(Some(meta)),
            Err(ReadError::Memory) => return Err(ReadError::Memory),
            Err(ReadError::Corrupt) => {}
        }
    }
    read_spelled(alloc, bytes, expected)
}

// The commit that bytes spell as JSON which are no printed form under the expected schema; nothing where
// they spell one of another schema.
fn read_spelled(
    alloc: Global,
    bytes: &[u8],
    expected: Option<&Schema>,
) -> Result<Option<UntrackedIndexMeta>, ReadError>
    requires unprinted { IsUnprinted (option_map (λ s. s.now) expected) bytes.now }
    ensures { MatchResult result
        (ReadsMeta (option_map (λ s. s.now) expected.entry) bytes.now)
        (λ e. IfCorrupt e (MeansNothing (option_map (λ s. s.now) expected.entry) bytes.now)) }
{
    let tree = tree_of(alloc, bytes)?;
    let (body, schema_tree) = body_of(alloc, &tree)?;
    let Some(schema) = schema_for(alloc, expected, body.names, schema_tree)? else {
        return Ok(None);
    };
    Ok(Some(UntrackedIndexMeta {
        index_settings: body.index_settings,
        segments: body.segments,
        schema,
        opstamp: body.opstamp,
        payload: body.payload,
    }))
}

// The schema with this tree: the expected one, where one is expected; nothing where that has
// another tree.
fn schema_for(
    alloc: Global,
    expected: Option<&Schema>,
    names: Vec<String>,
    tree: &Value,
) -> Result<Option<Schema>, Memory>
    requires form { IsSchemaTree (view tree.now) (texts names) }
    ensures { IfOk result (Chooses (option_map (λ s. s.now) expected.entry) (view tree.now)) }
{
    let Some(schema) = expected else {
        return Ok(Some(Schema::of_tree(alloc, names, tree)?));
    };
    if !schema.has_tree(alloc, tree)? {
        return Ok(None);
    }
    Ok(Some(schema.share(alloc)?))
}

// The refusal of bytes that mean no commit.
fn corrupt(alloc: Global) -> TantivyError
    ensures { (expected : Option (List ℕ)) (bytes : List ℕ)
        → MeansNothing expected bytes → ParseCause expected bytes result }
{
    let Ok(filepath) = String::from_str(alloc, META_FILEPATH) else {
        return TantivyError::Memory;
    };
    match String::from_str(alloc, "the commit is not of the stated form") {
        Ok(comment) => TantivyError::DataCorruption(DataCorruption::new(filepath, comment)),
        Err(_) => TantivyError::Memory,
    }
}

// The refusal of a commit of another schema than the expected one.
fn other_schema(alloc: Global) -> TantivyError
    ensures { (expected : Option (List ℕ)) (bytes : List ℕ)
        → MeansOtherThan expected bytes → ParseCause expected bytes result }
{
    match String::from_str(alloc, "An index exists but the schema does not match.") {
        Ok(text) => TantivyError::SchemaError(text),
        Err(_) => TantivyError::Memory,
    }
}
