//! What every crate speaks in: errors, the version, names of files, and where scripts come from.
#![tactic(auto)]

mod address;
mod byte_count;
mod error;
mod executor;
mod exhausted;
mod future_result;
mod inventory;
mod io;
pub mod laws;
mod library;
mod names;
mod open_errors;
mod sink;
mod slices;
mod source;
mod stamper;
mod versions;
mod vint;
mod writers;

pub use address::{DocAddress, DocId, Field, SegmentOrdinal};
pub use byte_count::ByteCount;
pub use error::{DataCorruption, TantivyError};
pub use executor::Executor;
pub use exhausted::Exhausted;
pub use future_result::{FutureResult, Sender};
pub use inventory::{Entry, Inventory, Ticket, Visit};
pub use io::{IoError, IoFault, IoKind};
pub use library::{version, version_string};
pub use names::is_plain_name;
pub use open_errors::{DeleteError, LockError, OpenDirectoryError, OpenReadError, OpenWriteError};
pub use sink::{Sink, VecSink};
pub use slices::{FileSlice, OwnedBytes};
pub use source::{Source, TextSource};
pub use stamper::Stamper;
pub use tv_formats::{MANAGED_FILEPATH, META_FILEPATH, Memory, Opstamp};
pub use versions::{
    INDEX_FORMAT_OLDEST_SUPPORTED_VERSION, INDEX_FORMAT_VERSION, Incompatibility, Version,
};
pub use vint::VInt;
pub use writers::{CountingWriter, TerminatingWrite};
