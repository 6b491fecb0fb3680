//! Laws of schemas and of what `meta.json` holds: what a user relies on, of the calls that each makes.
ghost use Rattle.std.specs.Prelude.{◌≡◌, ◌++◌, ◌↔◌, ℕ, List, Contains, None, Some};
ghost use Rattle.std.specs.Prelude.{IfOk, IsErrAnd, IsSome, IsTrue, MatchResult, codes};
ghost use Rattle.std.specs.Fmt.{decimal};
ghost use Rattle.std.specs.Str.Iter.{HasSubslice};
ghost use Rattle.serde_json.specs.Data.{Data};
ghost use Rattle.serde_json.specs.Read.{read};
ghost use Rattle.tv_formats.specs.declared.segment.LiveSegment.{LiveSegment};
ghost use Rattle.tv_formats.specs.Commits.{Commit, IsCommit, Settings};
ghost use Rattle.tv_formats.specs.Meaning.{Means};
ghost use Rattle.tv_formats.specs.Schemas.{IsSchemaText};
ghost use Rattle.tv_metas.specs.Laws.{DeletesTooMany, NamesCompression, ReadsBack, SaysCorrupt};
ghost use Rattle.tv_metas.specs.Metas.{commit_of};

use crate::index_meta::UntrackedIndexMeta;
use crate::schema::Schema;
use std::alloc::Global;
use tv_base::TantivyError;
use tv_formats::Memory;

/// Bytes whose settings name a compression mean no commit, whatever schema is expected.
pub fn parse_refuses_a_compression(
    alloc: Global,
    bytes: &[u8],
    expected: Option<&Schema>,
) -> Result<UntrackedIndexMeta, TantivyError>
    ensures { NamesCompression bytes.now → IsErrAnd result SaysCorrupt }
{
    UntrackedIndexMeta::parse(alloc, bytes, expected)
}

/// Bytes with a segment of which more documents are deleted than there are mean no commit, whatever
/// schema is expected.
pub fn parse_refuses_too_many_deletes(
    alloc: Global,
    bytes: &[u8],
    expected: Option<&Schema>,
) -> Result<UntrackedIndexMeta, TantivyError>
    ensures { DeletesTooMany bytes.now → IsErrAnd result SaysCorrupt }
{
    UntrackedIndexMeta::parse(alloc, bytes, expected)
}

/// A commit that is printed is read back, as it was and with its settings and its schema.
pub fn parse_reads_what_is_printed(
    alloc: Global,
    meta: &UntrackedIndexMeta,
) -> Result<UntrackedIndexMeta, TantivyError>
    ensures { IsCommit (commit_of meta.now) → MatchResult result (ReadsBack meta.now)
        (λ error. error ≡ TantivyError.Memory) }
{
    // A contract learns from these that the number is within its range, and that the text is one.
    let _blocksize = meta.index_settings.docstore_blocksize;
    let _schema = meta.schema.text();
    let mut text = meta.print(alloc)?;
    text.push(b'\n')?;
    UntrackedIndexMeta::parse(alloc, text.as_slice(), Some(&meta.schema))
}

/// A segment without deletes is printed with `null` in their place.
pub fn print_puts_null_for_no_deletes(
    alloc: Global,
    meta: &UntrackedIndexMeta,
) -> Result<Vec<u8>, Memory>
    ensures { IfOk result (λ text. (segment : List ℕ × LiveSegment)
        → Contains (commit_of meta.now).segments segment → segment.1.deletes ≡ None
        → HasSubslice text.items
        (codes ",\"max_doc\":" ++ decimal segment.1.max_doc ++ codes ",\"deletes\":null}")) }
{
    meta.print(alloc)
}

/// Two schemas are the same exactly where they have one tree, in whatever order its keys stand. Bytes
/// that are read as JSON then mean the same commit under both. (A printed form that isn't, as the text of
/// its schema nests too deep, means nothing under another text of the same tree.)
pub fn same_schemas_have_one_tree(schema: &Schema, other: &Schema) -> bool
    ensures tree { (tree : Data) → IsSchemaText schema.now tree
        → (IsTrue result ↔ IsSchemaText other.now tree) }
    ensures means { IsTrue result → (settings : Settings) (bytes : List ℕ) (commit : Commit)
        → IsSome (read bytes)
        → Means settings schema.now bytes commit → Means settings other.now bytes commit }
{
    // A contract learns from it that the text has a tree.
    let _other = other.text();
    schema.same(other)
}
