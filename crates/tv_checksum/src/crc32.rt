//! CRC-32, sixteen bytes at a time.
ghost use Rattle.std.specs.Prelude.{◌≡◌, ◌+◌, ◌<◌, [], ◌∷◌};
ghost use Rattle.std.specs.List.{concat};
ghost use Rattle.tv_formats.specs.Checksum.{crc32};
ghost use Rattle.tv_checksum.specs.Crc32.{register_with, after_zeros};

use crate::Checksum;
use crate::tables::TABLES;

/// CRC-32 as in ISO-HDLC, the one of zip files and PNG.
///
/// The polynomial is 0xEDB88320 with its bits reflected. The register begins with all bits set, and
/// all its bits are turned at the end. Sixteen bytes go in at a time, by a look-up for each of them.
#[derive(Clone, Copy, Debug)]
pub struct Crc32 {
    register: u32,
}

impl Checksum for Crc32 {
    ghost checksum = { crc32 };

    ghost use Rattle.tv_checksum.specs.Crc32.{HasTaken};

    ghost has_taken = { HasTaken };

    fn start() -> Crc32 {
        Crc32 { register: u32::MAX }
    }

    fn update(&mut self, bytes: &[u8]) {
        let (chunks, rest) = bytes.as_chunks::<16>();
        self.register = with_bytes(with_chunks(self.register, chunks), rest);
    }

    fn finish(self) -> u32 {
        self.register ^ u32::MAX
    }
}

// The register after these sixteen bytes each.
fn with_chunks(mut register: u32, chunks: &[[u8; 16]]) -> u32
    ensures { result ≡ register_with register (concat chunks.now) }
{
    for chunk in chunks {
        register = with_sixteen(register, *chunk);
    }
    register
}

// The register after these bytes.
fn with_bytes(mut register: u32, bytes: &[u8]) -> u32
    ensures { result ≡ register_with register bytes.now }
{
    for byte in bytes {
        register = with_byte(register, *byte);
    }
    register
}

// The register after sixteen bytes. The first four are added to those of the register, and then each
// goes on alone, since what becomes of a sum is the sum of what becomes of its parts. The look-ups
// that wait for the register come last.
#[inline]
fn with_sixteen(register: u32, bytes: [u8; 16]) -> u32
    ensures { result ≡ register_with register bytes }
{
    let [w, x, y, z] = register.to_le_bytes();
    let [a, b, c, d, e, f, g, h, i, j, k, l, m, n, o, p] = bytes;
    entry(0, p)
        ^ entry(1, o)
        ^ entry(2, n)
        ^ entry(3, m)
        ^ entry(4, l)
        ^ entry(5, k)
        ^ entry(6, j)
        ^ entry(7, i)
        ^ entry(8, h)
        ^ entry(9, g)
        ^ entry(10, f)
        ^ entry(11, e)
        ^ entry(12, z ^ d)
        ^ entry(13, y ^ c)
        ^ entry(14, x ^ b)
        ^ entry(15, w ^ a)
}

// The register after a byte.
#[inline]
fn with_byte(register: u32, byte: u8) -> u32
    ensures { result ≡ register_with register (byte ∷ []) }
{
    let [lowest, _, _, _] = register.to_le_bytes();
    (register >> 8) ^ entry(0, lowest ^ byte)
}

// The register after that many bytes of zeros and one more, where it was no more than a byte.
#[inline]
fn entry(zeros: usize, register: u8) -> u32
    requires { zeros < 16 }
    ensures { result ≡ after_zeros (zeros + 1) register }
{
    TABLES[zeros][usize::from(register)]
}
