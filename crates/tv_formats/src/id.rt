//! The ids of segments.
ghost use Rattle.std.specs.Prelude.{◌≡◌, Some, None, length, take, IfOk, MatchResult, string_bytes};
ghost use Rattle.hex.specs.Hex.{encode_lower};
ghost use Rattle.uuid.specs.Text.{hyphenated_text, lower, parsed};
ghost use Rattle.tv_formats.specs.Ids.{IsId};

use crate::memory::Memory;
use std::alloc::Global;
use std::fmt;
use std::marker::Model;
use std::str::FromStr;
use thiserror::Error;
use uuid::Uuid;

/// The id of a segment: sixteen bytes, by which ids are ordered. Source: RFC 9562.
#[derive(Clone, Copy, PartialEq, Eq, PartialOrd, Ord, Hash)]
pub struct SegmentId(Uuid);

/// A text that spells no id, and what `uuid` says of it.
#[derive(Clone, Copy, Debug, PartialEq, Eq, Error)]
#[error("{0}")]
pub struct SegmentIdParseError(uuid::Error);

impl Model for SegmentId {
    ghost use Rattle.std.specs.Prelude.{List, ℕ};

    ghost Value = { List ℕ };

    ghost view = { λ a. a.0 };

    ghost inverse = { λ bytes. record { 0 = bytes } };
}

impl SegmentId {
    /// The id with these bytes.
    pub fn from_bytes(bytes: [u8; 16]) -> SegmentId
        ensures { result ≡ bytes }
    {
        SegmentId(Uuid::from_bytes(bytes))
    }

    /// The id that a text spells in one of the forms of a UUID: 32 hexadecimal digits of either case,
    /// plain or with hyphens, and these in braces or as a URN.
    pub fn from_uuid_string(text: &str) -> Result<SegmentId, SegmentIdParseError>
        ensures { MatchResult result (λ id. parsed text.now ≡ Some id)
            (λ _. parsed text.now ≡ None) }
    {
        match Uuid::parse_str(text) {
            Ok(id) => Ok(SegmentId(id)),
            Err(error) => Err(SegmentIdParseError(error)),
        }
    }

    /// Its sixteen bytes.
    pub fn as_bytes(&self) -> &[u8; 16]
        ensures bytes { result.now ≡ self.now }
        ensures id { IsId self.now }
    {
        let bytes: &[u8; 16] = self.0.as_bytes();
        are_an_id(*bytes);
        bytes
    }

    /// Writes its 32 lower-case hexadecimal digits.
    pub fn write_digits(&self, digits: &mut [u8])
        requires { length digits.old ≡ 32 }
        ensures digits { digits.new ≡ encode_lower self.now }
        ensures id { IsId self.now }
    {
        let bytes: &[u8; 16] = self.as_bytes();
        let _ = hex::encode_to_slice(bytes.as_slice(), digits);
    }

    /// Its 32 lower-case hexadecimal digits.
    pub fn uuid_string(&self, alloc: Global) -> Result<String, Memory>
        ensures digits { IfOk result (λ text. string_bytes text ≡ encode_lower self.now) }
        ensures id { IsId self.now }
    {
        let text = hex::encode(alloc, self.as_bytes())?;
        Ok(text)
    }

    /// The first 8 of its digits.
    pub fn short_uuid_string(&self, alloc: Global) -> Result<String, Memory>
        ensures { IfOk result (λ text. string_bytes text ≡ take 8 (encode_lower self.now)) }
    {
        let bytes: &[u8; 16] = self.0.as_bytes();
        let text = hex::encode(alloc, &bytes[..4])?;
        Ok(text)
    }

    /// Its digits in groups of 8, 4, 4, 4 and 12, with hyphens between.
    pub fn hyphenated_string(&self, alloc: Global) -> Result<String, Memory>
        ensures { IfOk result (λ text. string_bytes text ≡ hyphenated_text lower self.now) }
    {
        let mut buffer = [0u8; 36];
        let text = String::from_str(alloc, self.0.hyphenated().encode_lower(&mut buffer))?;
        Ok(text)
    }
}

impl FromStr for SegmentId {
    type Err = SegmentIdParseError;

    ghost use Rattle.std.specs.Prelude.{◌≡◌, Some, None, MatchResult};
    ghost use Rattle.uuid.specs.Text.{parsed};

    ghost from_str_gives = { λ text r.
        MatchResult r (λ id. parsed text ≡ Some id) (λ _. parsed text ≡ None) };

    fn from_str(text: &str) -> Result<SegmentId, SegmentIdParseError> {
        SegmentId::from_uuid_string(text)
    }
}

// Sixteen bytes are an id.
fn are_an_id(bytes: [u8; 16])
    ensures { IsId bytes }
{
    let _all = bytes.len();
}

// The first eight characters, or all where there are fewer.
fn short_digits(text: &str) -> &str {
    match text.split_at_checked(8) {
        Some((short, _)) => short,
        None => text,
    }
}

impl fmt::Display for SegmentId {
    fn fmt<W: fmt::Write>(&self, f: &mut fmt::Formatter<W>) -> fmt::Result {
        let mut buffer = [0u8; 32];
        f.write_str("Seg(\"")?;
        f.write_str(short_digits(self.0.simple().encode_lower(&mut buffer)))?;
        f.write_str("\")")
    }
}

impl fmt::Debug for SegmentId {
    fn fmt<W: fmt::Write>(&self, f: &mut fmt::Formatter<W>) -> fmt::Result {
        fmt::Display::fmt(self, f)
    }
}
