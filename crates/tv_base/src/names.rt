//! The names of files.
ghost use Rattle.std.specs.Prelude.{◌≡◌};
ghost use Rattle.std.specs.List.{list_all};
ghost use Rattle.tv_formats.specs.Names.{begins_with_dot, is_name_byte, is_plain};

// No name is longer.
const LONGEST: usize = 255;

/// Whether a file may have this name: 1 to 255 bytes that don't begin with `.`, none of them a
/// space, a control character below U+0020, `"`, `/` or `\`, and not the word `failed`.
pub fn is_plain_name(name: &str) -> bool
    ensures { result ≡ is_plain name.now }
{
    let bytes = name.as_bytes();
    !bytes.is_empty()
        && bytes.len() <= LONGEST
        && are_name_bytes(bytes)
        && !begins_with_dot(bytes)
        && name != "failed"
}

// Whether a name may have each of these bytes.
fn are_name_bytes(bytes: &[u8]) -> bool
    ensures { result ≡ list_all is_name_byte bytes.now }
{
    bytes.iter().all(|byte| *byte > b' ' && !matches!(byte, b'"' | b'/' | b'\\'))
}

fn begins_with_dot(bytes: &[u8]) -> bool
    ensures { result ≡ begins_with_dot bytes.now }
{
    matches!(bytes, [b'.', ..])
}
