//! The stored documents of several segments.
ghost use Rattle.std.specs.Prelude.{IfOk, IfErr};
ghost use Rattle.tv_reader.specs.Searchers.{IsDocument, NoDocumentCause, SaysNoDocument};

use crate::segment_reader::SegmentReader;
use std::alloc::Global;
use tv_base::{DataCorruption, DocAddress, FileSlice, IoError, TantivyError};

/// The bytes of the document at an address.
pub(crate) fn stored_document(
    alloc: Global,
    segment_readers: &[SegmentReader],
    address: DocAddress,
) -> Result<FileSlice, TantivyError>
    ensures document { IfOk result (IsDocument segment_readers.now address) }
    ensures cause { IfErr result (NoDocumentCause segment_readers.now address) }
{
    let Some(reader) = segment_readers.get(address.segment_ord as usize) else {
        return Err(no_document(alloc));
    };
    let store = match reader.get_store_reader() {
        Ok(store) => store,
        Err(IoError::Memory) => return Err(TantivyError::Memory),
        Err(IoError::Fault(fault)) => {
            let path = reader.store_path(alloc)?;
            return Err(TantivyError::DataCorruption(DataCorruption::new(path, fault.text)));
        }
    };
    match store.get(address.doc_id)? {
        Some(doc) => Ok(doc),
        None => Err(no_document(alloc)),
    }
}

// The refusal of an address at which there is no document.
fn no_document(alloc: Global) -> TantivyError
    ensures { SaysNoDocument result }
{
    match String::from_str(alloc, "There is no document at this address.") {
        Ok(text) => TantivyError::InvalidArgument(text),
        Err(_) => TantivyError::Memory,
    }
}
