//! Texts without the blanks outside their string literals.
ghost use Rattle.std.specs.Prelude.{◌≡◌, IfOk};
ghost use Rattle.tv_formats.specs.Schemas.{is_blank, stripped};
ghost use Rattle.tv_metas.specs.Stripping.{is_left_out, place_after};

use std::alloc::Global;
use tv_formats::Memory;

// Where a byte of a JSON text stands.
#[derive(Clone, Copy)]
enum Place {
    // Outside string literals.
    Outside,
    // Inside one.
    Inside,
    // Behind a backslash in one.
    Escaped,
}

// Whether a byte is one of the four blanks of JSON.
fn is_blank(byte: u8) -> bool
    ensures { result ≡ is_blank byte }
{
    matches!(byte, b' ' | b'\t' | b'\n' | b'\r')
}

// Where the byte behind this one stands.
fn place_after(place: Place, byte: u8) -> Place
    ensures { result ≡ place_after place byte }
{
    match (place, byte) {
        (Place::Outside, b'"') => Place::Inside,
        (Place::Outside, _) => Place::Outside,
        (Place::Inside, b'"') => Place::Outside,
        (Place::Inside, b'\\') => Place::Escaped,
        (Place::Inside, _) | (Place::Escaped, _) => Place::Inside,
    }
}

// Whether a byte at this place is left out.
fn is_left_out(place: Place, byte: u8) -> bool
    ensures { result ≡ is_left_out place byte }
{
    match place {
        Place::Outside => is_blank(byte),
        Place::Inside | Place::Escaped => false,
    }
}

/// The text without the blanks outside its string literals.
pub(crate) fn without_blanks(alloc: Global, text: &[u8]) -> Result<Vec<u8>, Memory>
    ensures { IfOk result (λ kept. kept.items ≡ stripped text.now) }
{
    let mut kept = Vec::with_capacity(alloc, text.len())?;
    let mut place = Place::Outside;
    for byte in text {
        if !is_left_out(place, *byte) {
            kept.push(*byte)?;
        }
        place = place_after(place, *byte);
    }
    Ok(kept)
}
