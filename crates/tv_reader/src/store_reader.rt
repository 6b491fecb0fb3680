//! The stored documents of a segment.
ghost use Rattle.std.specs.Prelude.{◌≡◌, ◌≤◌, ◌<◌, ◌^◌, ◌++◌, ℕ, List, IfOk, IfErr, MatchOption, length, drop, slice_get};
ghost use Rattle.tv_formats.specs.Footer.{four_bytes};
ghost use Rattle.tv_base.specs.declared.io.IoKind.TheVariants.{InvalidData};
ghost use Rattle.tv_framing.specs.Faults.{IsFault, OfFault};
ghost use Rattle.tv_reader.specs.StoreBodies.{AreTheDocuments, IsNotStoreBody, IsStoreBody, not_store, store_space};
ghost use Rattle.tv_reader.specs.StorePlaces.{AreStored, NothingNext, StandsNext};

use crate::faults::invalid;
use std::alloc::Global;
use std::marker::Model;
use tv_base::{ByteCount, DocId, FileSlice, IoError, Memory};
use tv_framing::StoreSpaceUsage;

/// Where a document stands in a store body: from `start` up to `end`, which isn't part of it.
#[derive(Clone, Copy)]
struct DocPlace {
    start: usize,
    end: usize,
}

/// The stored documents of a segment, in a plain body without a cache. To a contract it is the list of
/// them.
#[derive(Drop)]
pub struct StoreReader {
    body: FileSlice,
    places: Vec<DocPlace>,
}

impl Model for StoreReader {
    ghost use Rattle.std.specs.Prelude.{ℕ, List};
    ghost use Rattle.tv_reader.specs.StorePlaces.{AreStored, documents_at};

    ghost Value = { List (List ℕ) };

    ghost view = { λ s. documents_at s.body s.places.items };

    ghost invariant = { λ s. AreStored s.body s.places.items };
}

impl StoreReader {
    /// The documents of a store file's body. `InvalidData` comes exactly where it isn't the body of any
    /// documents.
    #[tactic(auto, using(crate::proofs::StoreBodies::are_all))]
    pub fn open(alloc: Global, body: &FileSlice) -> Result<StoreReader, IoError>
        ensures ok { IfOk result (IsStoreBody body.now) }
        ensures only { IfOk result (AreTheDocuments body.now) }
        ensures err { IfErr result (OfFault (IsFault InvalidData not_store)) }
        ensures outside { IfErr result (OfFault (λ _. IsNotStoreBody body.now)) }
    {
        let bytes = body.read_bytes()?;
        match places_in(alloc, bytes.as_slice())? {
            Some(places) => Ok(StoreReader {
                body: body.share()?,
                places,
            }),
            None => Err(invalid(alloc, "Store is not of the stated form.")),
        }
    }

    /// A document, and `None` where there is none of this number.
    pub fn get(&self, doc: DocId) -> Result<Option<FileSlice>, Memory>
        ensures document { IfOk result (λ found. found ≡ slice_get self.now doc) }
    {
        match self.places.get(doc as usize) {
            Some(place) => Ok(Some(self.body.slice(place.start..place.end)?)),
            None => Ok(None),
        }
    }

    /// How much space the documents take. Takes no memory.
    #[tactic(auto, using(crate::proofs::StoreBodies::stored_long))]
    pub fn space_usage(&self) -> StoreSpaceUsage
        ensures usage { result ≡ store_space self.now }
    {
        let len = self.body.len() as u64;
        let offsets = 4 * self.places.len() as u64;
        StoreSpaceUsage::new(ByteCount(len - offsets), ByteCount(offsets))
    }
}

// Where the documents stand, if the bytes are those of documents.
fn places_in(alloc: Global, bytes: &[u8]) -> Result<Option<Vec<DocPlace>>, Memory>
    ensures { IfOk result (λ found. MatchOption found (IsNotStoreBody bytes.now)
        (λ places. AreStored bytes.now places.items)) }
{
    let mut places = Vec::new(alloc);
    let mut end = 0;
    while end < bytes.len() {
        let Some(place) = next_place(bytes, end) else {
            return Ok(None);
        };
        places.push(place)?;
        end = place.end;
    }
    Ok(Some(places))
}

// Where the next document stands, whose length begins at `start`.
fn next_place(bytes: &[u8], start: usize) -> Option<DocPlace>
    requires { start ≤ length bytes.now }
    ensures { MatchOption result (NothingNext bytes.now start) (StandsNext bytes.now start) }
{
    let (length, rest) = stated_length(&bytes[start..])?;
    if rest.len() < length {
        return None;
    }
    let start = bytes.len() - rest.len();
    Some(DocPlace {
        start,
        end: start + length,
    })
}

// The number in the first four bytes, the lowest first, and what stands behind them.
fn stated_length(bytes: &[u8]) -> Option<(usize, &[u8])>
    ensures { MatchOption result (length bytes.now < 4)
        (λ r. (r.0 < 2 ^ 32) × (bytes.now ≡ four_bytes r.0 ++ r.1.now)) }
{
    match bytes {
        [a, b, c, d, rest @ ..] => {
            let length = u32::from_le_bytes([*a, *b, *c, *d]);
            Some((length as usize, rest))
        }
        _ => None,
    }
}
