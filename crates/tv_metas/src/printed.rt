//! The printed form of a commit, told from other bytes.
//!
//! The text of a schema may nest so deep that it can't be read inside another JSON text. So the
//! schema without fields is put in its place before the bytes are read; what was read is printed
//! under the expected schema, and compared with them.
ghost use Rattle.std.specs.Prelude.{◌≡◌, ◌==◌, MatchOption, MatchResult, Some};
ghost use Rattle.std.specs.List.{position};
ghost use Rattle.tv_formats.specs.Meaning.{IsNotPrinted, SpellsNothing};
ghost use Rattle.tv_metas.specs.Choosing.{ReadsMeta};
ghost use Rattle.tv_metas.specs.Printed.{SpellsBody, IsAround, IsAroundNone, IsBared};
ghost use Rattle.tv_metas.specs.Reads.{IfCorrupt};

use crate::index_meta::UntrackedIndexMeta;
use crate::json_text::tree_of;
use crate::read_error::ReadError;
use crate::reading::{Body, body_of};
use crate::schema::Schema;
use std::alloc::Global;

// The place of the first bracket that is closed.
fn close_of(bytes: &[u8]) -> Option<usize>
    ensures { result ≡ position (λ b. b == 93) bytes.now }
{
    bytes.iter().position(|byte| *byte == b']')
}

// What stands before the first bracket that is closed, and what stands behind the schema, whose key
// follows the bracket.
fn around_schema<'a>(bytes: &'a [u8], schema: &[u8]) -> Option<(&'a [u8], &'a [u8])>
    ensures { MatchOption result (IsAroundNone schema.now bytes.now)
        (λ parts. IsAround schema.now bytes.now parts.0.now parts.1.now) }
{
    let (front, rest) = bytes.split_at(close_of(bytes)?);
    let rest = rest.strip_prefix(b"],\"schema\":".as_slice())?;
    let back = rest.strip_prefix(schema)?;
    Some((front, back))
}

// The same printed form under the schema without fields.
fn under_no_fields(alloc: Global, bytes: &[u8], schema: &[u8]) -> Result<Vec<u8>, ReadError>
    ensures { MatchResult result (λ text. IsBared schema.now bytes.now text.items)
        (λ e. IfCorrupt e (IsNotPrinted schema.now bytes.now)) }
{
    let Some((front, back)) = around_schema(bytes, schema) else {
        return Err(ReadError::Corrupt);
    };
    let mut text = Vec::from_slice(alloc, front)?;
    text.extend_from_slice(b"],\"schema\":[]")?;
    text.extend_from_slice(back)?;
    Ok(text)
}

// What a text holds.
fn held_in(alloc: Global, text: &[u8]) -> Result<Body, ReadError>
    ensures { MatchResult result (SpellsBody text.now) (λ e. IfCorrupt e (SpellsNothing text.now)) }
{
    let tree = tree_of(alloc, text)?;
    let (body, _) = body_of(alloc, &tree)?;
    Ok(body)
}

/// The commit of which the bytes are the printed form under this schema, with a line feed.
pub(crate) fn read_printed(
    alloc: Global,
    bytes: &[u8],
    schema: &Schema,
) -> Result<UntrackedIndexMeta, ReadError>
    ensures { MatchResult result (λ meta. ReadsMeta (Some schema.now) bytes.now (Some meta))
        (λ e. IfCorrupt e (IsNotPrinted schema.now bytes.now)) }
{
    let text = under_no_fields(alloc, bytes, schema.text())?;
    let body = held_in(alloc, text.as_slice())?;
    let meta = UntrackedIndexMeta {
        index_settings: body.index_settings,
        segments: body.segments,
        schema: schema.share(alloc)?,
        opstamp: body.opstamp,
        payload: body.payload,
    };
    let mut again = meta.print(alloc)?;
    again.push(b'\n')?;
    if again.as_slice() == bytes {
        Ok(meta)
    } else {
        Err(ReadError::Corrupt)
    }
}
