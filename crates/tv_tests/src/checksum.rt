//! Checksums of known messages.
ghost use Rattle.std.specs.Prelude.{◌≤◌, length};

use std::process::Abort;
use tv_checksum::{Checksum, Crc32};

// The checksum of a message that is cut in two, with no bytes in between.
fn checksum_of<C: Checksum>(message: &[u8], cut: usize) -> u32
    requires { cut ≤ length message.now }
{
    let (front, back) = message.split_at(cut);
    let mut checksum = C::start();
    checksum.update(front);
    checksum.update(b"");
    checksum.update(back);
    checksum.finish()
}

// Looks at the checksum of a message that is cut in two.
fn has_checksum<R: Abort>(rt: &R, message: &[u8], cut: usize, want: u32)
    requires { cut ≤ length message.now }
{
    let found = checksum_of::<Crc32>(message, cut);
    assert!(rt; found == want, "of {} bytes, cut at {cut}", message.len());
}

const KNOWN: &[(&str, u32)] = &[("", 0), ("123456789", 0xCBF4_3926), ("abc", 0x3524_41C2)];

#[test]
fn checksums_of_known_messages(rt: HostRuntime) {
    for (text, want) in KNOWN {
        has_checksum(&rt, text.as_bytes(), text.len() / 2, *want);
    }
}

// Two steps of sixteen bytes, and one byte more.
const MESSAGE: &[u8] = &[
    0xC8, 0xED, 0x12, 0x37, 0x5C, 0x81, 0xA6, 0xCB, 0xF0, 0x15, 0x3A, 0x5F, 0x84, 0xA9, 0xCE, 0xF3,
    0x18, 0x3D, 0x62, 0x87, 0xAC, 0xD1, 0xF6, 0x1B, 0x40, 0x65, 0x8A, 0xAF, 0xD4, 0xF9, 0x1E, 0x43,
    0x68,
];

// What zlib 1.2.13 has for its first bytes, from none of them to all.
const PREFIXES: &[u32] = &[
    0x00000000, 0x47BDA50F, 0x9C41D17C, 0x7894E203, 0xF3CE8FDA, 0xD62A0717, 0xCBB8F3FB, 0xC7137A37,
    0x66CE42C0, 0xF4BD1163, 0x6B908695, 0x9400C172, 0x9749B339, 0x6745690F, 0xEDD0AC39, 0xF136589E,
    0xE1F0C430, 0xE756B7B3, 0xD8E5171D, 0x12606637, 0x19713C67, 0xDEAD8589, 0xB76C9BCE, 0xFAB73B88,
    0xBBFE9A48, 0xDC629925, 0xA402CC84, 0x351EC046, 0x0BE1AB91, 0xD4BFBB39, 0x49B29286, 0x2C9F4669,
    0x0995B91D, 0xF264FF87,
];

// However a message is cut around a step, its checksum is the same.
#[test]
fn checksums_of_pieces(rt: HostRuntime) {
    for (len, want) in PREFIXES.iter().enumerate() {
        for cut in 0..=len {
            has_checksum(&rt, &MESSAGE[..len], cut, *want);
        }
    }
}
