//! Reads bytes from the front on.
ghost use Rattle.std.specs.Prelude.{◌≡◌, ◌<◌, ◌^◌, ◌++◌, ◌==◌, ℕ, length, List, Some, IfSome, MatchOption};
ghost use Rattle.tv_formats.specs.Footer.{four_bytes};
ghost use Rattle.tv_formats.specs.VInt.{vint};

use std::marker::Model;
use tv_base::VInt;

/// Bytes of which some were read. To a contract it is what is left.
#[derive(Drop)]
pub(crate) struct Cursor<'a> {
    left: &'a [u8],
}

impl<'a> Model for Cursor<'a> {
    ghost use Rattle.std.specs.Prelude.{ℕ, List};

    ghost Value = { List ℕ };

    ghost view = { λ c. c.left.now };
}

impl<'a> Cursor<'a> {
    pub(crate) fn new(bytes: &'a [u8]) -> Cursor<'a>
        ensures { result ≡ bytes.now }
    {
        Cursor { left: bytes }
    }

    /// Whether nothing is left.
    pub(crate) fn is_at_end(&self) -> bool
        ensures { result ≡ (length self.now == 0) }
    {
        self.left.is_empty()
    }

    /// The number whose spelling comes next.
    pub(crate) fn vint(&mut self) -> Option<u64>
        ensures found { (n : ℕ) (rest : List ℕ) → n < 2 ^ 64 → self.old ≡ vint n ++ rest
            → (result ≡ Some n) × (self.new ≡ rest) }
        ensures only { IfSome result (λ n. self.old ≡ vint n ++ self.new) }
    {
        let (number, len) = VInt::deserialize(self.left)?;
        self.left = &self.left[len..];
        Some(number.0)
    }

    /// The number of the next four bytes, the lowest first.
    pub(crate) fn four_bytes(&mut self) -> Option<u32>
        ensures found { (n : ℕ) (rest : List ℕ) → n < 2 ^ 32 → self.old ≡ four_bytes n ++ rest
            → (result ≡ Some n) × (self.new ≡ rest) }
        ensures cases { MatchOption result (length self.old < 4)
            (λ n. self.old ≡ four_bytes n ++ self.new) }
    {
        match self.left {
            [a, b, c, d, rest @ ..] => {
                let number = u32::from_le_bytes([*a, *b, *c, *d]);
                self.left = rest;
                Some(number)
            }
            _ => None,
        }
    }
}
