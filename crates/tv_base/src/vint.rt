//! Numbers in groups of seven bits.
ghost use Rattle.std.specs.Prelude.{◌≡◌, ◌<◌, ◌^◌, ◌++◌, List, ℕ, Some, length, take, position, IfSome, OnOk, OnErr};
ghost use Rattle.tv_base.specs.Bytes.{is_last_byte, of_groups};
ghost use Rattle.tv_formats.specs.VInt.{vint};

use tv_formats::Memory;

// Added to the last byte of a spelling, and to no other.
const STOP: u8 = 128;

/// A number, which is its field, that is spelled in groups of seven bits, the lowest group first. 128 is
/// added to the last byte. Only the shortest spelling counts.
#[derive(Clone, Copy, Debug, PartialEq, Eq)]
pub struct VInt(pub u64);

impl VInt {
    /// Appends the number's spelling. Where memory is wanted, nothing is appended.
    pub fn serialize(&self, out: &mut Vec<u8>) -> Result<(), Memory>
        ensures ok { OnOk result (out.new.items ≡ out.old.items ++ vint self.now.0) }
        ensures err { OnErr result (out.new.items ≡ out.old.items) }
    {
        let start = out.len();
        let written = put_groups(out, self.0);
        if written.is_err() {
            out.truncate(start);
        }
        written
    }

    /// The number whose spelling the bytes begin with, and how many bytes that has. `None` where they
    /// begin with no spelling of a number of 64 bits. Takes no memory.
    pub fn deserialize(bytes: &[u8]) -> Option<(VInt, usize)>
        ensures found { (n : ℕ) (rest : List ℕ) → n < 2 ^ 64 → bytes.now ≡ vint n ++ rest
            → result ≡ Some (record { 0 = n }, length (vint n)) }
        ensures only { IfSome result (λ read. (rest : List ℕ)
            × (bytes.now ≡ vint read.0.0 ++ rest) × (read.1 ≡ length (vint read.0.0))) }
    {
        let last = last_of(bytes)?;
        let highest = bytes[last] - STOP;
        if highest == 0 && last > 0 {
            return None;
        }
        let number = number_of(&bytes[..last], highest)?;
        Some((VInt(number), last + 1))
    }
}

// Appends the spelling. What was there before stays, also where memory is wanted on the way.
fn put_groups(out: &mut Vec<u8>, number: u64) -> Result<(), Memory>
    ensures ok { OnOk result (out.new.items ≡ out.old.items ++ vint number) }
    ensures kept { take (length out.old.items) out.new.items ≡ out.old.items }
{
    let mut rest = number;
    while rest >= u64::from(STOP) {
        out.push((rest % u64::from(STOP)) as u8)?;
        rest /= u64::from(STOP);
    }
    out.push(rest as u8 + STOP)?;
    Ok(())
}

// The place of the first byte that may be the last of a spelling.
fn last_of(bytes: &[u8]) -> Option<usize>
    ensures { result ≡ position is_last_byte bytes.now }
{
    bytes.iter().position(|byte| *byte >= STOP)
}

// The number of these groups, which come lowest first, and of the highest one. `None` where it doesn't
// fit 64 bits.
fn number_of(lower: &[u8], highest: u8) -> Option<u64>
    ensures found { of_groups highest lower.now < 2 ^ 64
        → result ≡ Some (of_groups highest lower.now) }
    ensures only { IfSome result (λ n. n ≡ of_groups highest lower.now) }
{
    let mut number = u64::from(highest);
    for i in (0..lower.len()).rev() {
        number = number.checked_mul(128)?.checked_add(u64::from(lower[i]))?;
    }
    Some(number)
}
