//! How much space stored documents take.
ghost use Rattle.std.specs.Prelude.{◌≡◌};
ghost use Rattle.tv_framing.specs.Usage.{capped, store_sum};

use std::marker::Model;
use tv_base::ByteCount;

/// The space that the stored documents take, and the list of where they begin.
#[derive(Drop)]
pub struct StoreSpaceUsage {
    body: ByteCount,
    offsets: ByteCount,
}

impl Model for StoreSpaceUsage {
    ghost use Rattle.tv_framing.specs.Usage.{StoreSpace};

    ghost Value = { StoreSpace };

    ghost view = { λ s. record { body = s.body; offsets = s.offsets } };
}

impl StoreSpaceUsage {
    /// Of documents and offsets of these sizes.
    pub fn new(body: ByteCount, offsets: ByteCount) -> StoreSpaceUsage
        ensures usage { result ≡ record { body = body; offsets = offsets } }
    {
        StoreSpaceUsage { body, offsets }
    }

    /// The size of the documents.
    pub fn data_usage(&self) -> ByteCount
        ensures data { result ≡ self.now.body }
    {
        self.body
    }

    /// The size of the offsets.
    pub fn offsets_usage(&self) -> ByteCount
        ensures offsets { result ≡ self.now.offsets }
    {
        self.offsets
    }

    /// The sum of both, which stays at `u64::MAX`.
    pub fn total(&self) -> ByteCount
        ensures total { result.0 ≡ capped (store_sum self.now) }
    {
        self.body.plus(self.offsets)
    }

    // The same sizes again.
    pub(crate) fn copied(&self) -> StoreSpaceUsage
        ensures { result ≡ self.now }
    {
        StoreSpaceUsage {
            body: self.body,
            offsets: self.offsets,
        }
    }
}
