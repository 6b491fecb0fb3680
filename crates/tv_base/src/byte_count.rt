//! Numbers of bytes.
ghost use Rattle.std.specs.Prelude.{◌≡◌, ◌+◌, min};

/// A number of bytes, which is its field.
#[derive(Clone, Copy, Debug, PartialEq, Eq, PartialOrd, Ord)]
pub struct ByteCount(pub u64);

impl ByteCount {
    /// The number.
    pub fn get_bytes(&self) -> u64
        ensures number { result ≡ self.now.0 }
    {
        self.0
    }

    /// The sum, which stays at `u64::MAX` where it would pass that.
    pub fn plus(self, other: ByteCount) -> ByteCount
        ensures sum { result.0 ≡ min (self.0 + other.0) 18446744073709551615 }
    {
        ByteCount(self.0.saturating_add(other.0))
    }
}
