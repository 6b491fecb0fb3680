//! Checksums of bytes that come in pieces.
#![tactic(auto)]

ghost use Rattle.std.specs.Prelude.{◌≡◌, ℕ, List, [], ◌++◌};

mod crc32;
mod tables;

pub use crc32::Crc32;

/// A checksum that takes the bytes of a message piece by piece.
///
/// It needs no memory. The answer depends on the bytes alone, and not on how they were cut.
pub trait Checksum {
    /// The checksum of these bytes.
    ghost checksum: { List ℕ → ℕ };

    /// So far it took these bytes.
    ghost has_taken: { Self → List ℕ → Type 0 };

    /// Before the first byte.
    fn start() -> Self
        ensures { has_taken result [] };

    /// Takes more bytes, behind those that it took.
    fn update(&mut self, bytes: &[u8])
        ensures { (taken : List ℕ) → has_taken self.old taken → has_taken self.new (taken ++ bytes.now) };

    /// The checksum of all bytes that it took.
    fn finish(self) -> u32
        ensures { (taken : List ℕ) → has_taken self taken → result ≡ checksum taken };
}
