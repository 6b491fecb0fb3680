//! What single words of a line stand for.
ghost use Rattle.std.specs.Prelude.{◌≡◌, ◌^◌, IfOk};
ghost use Rattle.tv_script.specs.Fields.{id_at, number_at, component_at, bytes_at, text_at, payload_at, policy_at};

use hex::FromHexError;
use std::alloc::Global;
use tv_events::{Blob, ReloadPolicy, Text};
use tv_formats::{Memory, SegmentComponent, SegmentId};

// The id that a word spells.
pub(crate) fn id_of(word: &[u8]) -> Option<SegmentId>
    ensures { result ≡ id_at word.now }
{
    let mut bytes = [0; 16];
    hex::decode_to_slice(word, &mut bytes).ok()?;
    let id = SegmentId::from_bytes(bytes);
    // Digits of either case give the bytes, but an id has lower-case ones alone.
    let mut digits = [0; 32];
    id.write_digits(&mut digits);
    if digits.as_slice() == word {
        Some(id)
    } else {
        None
    }
}

/// The number of 64 bits that a word spells: decimal, without sign or leading zeros.
pub fn number_of(word: &[u8]) -> Option<u64>
    ensures { result ≡ number_at (2 ^ 64) word.now }
{
    let Ok(text) = std::str::from_utf8(word) else {
        return None;
    };
    let Ok(number) = text.parse::<u64>() else {
        return None;
    };
    // A sign or a leading zero is read, but isn't printed.
    let mut digits = itoa::Buffer::new();
    if digits.format(number).as_bytes() == word {
        Some(number)
    } else {
        None
    }
}

// The number of 32 bits that a word spells.
pub(crate) fn small_number_of(word: &[u8]) -> Option<u32>
    ensures { result ≡ number_at (2 ^ 32) word.now }
{
    u32::try_from(number_of(word)?).ok()
}

// The component that a word names.
pub(crate) fn component_of(word: &[u8]) -> Option<SegmentComponent>
    ensures { result ≡ component_at word.now }
{
    SegmentComponent::iterator()
        .copied()
        .find(|component| component.extension().as_bytes() == word)
}

// The policy that a word names.
pub(crate) fn policy_of(word: &[u8]) -> Option<ReloadPolicy>
    ensures { result ≡ policy_at word.now }
{
    if word == b"manual".as_slice() {
        Some(ReloadPolicy::Manual)
    } else if word == b"on-commit".as_slice() {
        Some(ReloadPolicy::OnCommitWithDelay)
    } else {
        None
    }
}

// The bytes that a word spells.
pub(crate) fn bytes_of(alloc: Global, word: &[u8]) -> Result<Option<Blob>, Memory>
    ensures { IfOk result (λ found. found ≡ bytes_at word.now) }
{
    match hex::decode(alloc, word) {
        Ok(bytes) => {
            if bytes.as_slice().is_empty() {
                Ok(None)
            } else {
                Ok(Some(Blob::new(bytes)))
            }
        }
        Err(FromHexError::OutOfMemory) => Err(Memory),
        Err(_) => Ok(None),
    }
}

// The text that some digits spell.
fn text_of(alloc: Global, digits: &[u8]) -> Result<Option<Text>, Memory>
    ensures { IfOk result (λ found. found ≡ text_at digits.now) }
{
    match hex::decode(alloc, digits) {
        Ok(bytes) => match String::from_utf8(bytes) {
            Ok(text) => Ok(Some(Text::new(text))),
            Err(_) => Ok(None),
        },
        Err(FromHexError::OutOfMemory) => Err(Memory),
        Err(_) => Ok(None),
    }
}

// The payload that a word spells, which may be none.
pub(crate) fn payload_of(alloc: Global, word: &[u8]) -> Result<Option<Option<Text>>, Memory>
    ensures { IfOk result (λ found. found ≡ payload_at word.now) }
{
    match word {
        [b'-'] => Ok(Some(None)),
        [b'+', digits @ ..] => match text_of(alloc, digits)? {
            Some(text) => Ok(Some(Some(text))),
            None => Ok(None),
        },
        _ => Ok(None),
    }
}
