//! Readers of an index: its segments, what a searcher shows of a commit, and the stored documents.
#![tactic(auto)]

mod commit_opening;
mod faults;
mod field_usage;
mod generation;
mod index_reader;
mod index_reader_builder;
pub mod laws;
mod loading;
mod published;
mod publishing;
mod reader_of;
mod reload;
mod search;
mod searcher;
mod searcher_documents;
mod searcher_spaces;
mod segment_opening;
mod segment_reader;
mod store_reader;
mod warmer;
mod warmers;
mod warming_state;

pub use commit_opening::read_segments;
pub use generation::SearcherGeneration;
pub use index_reader::IndexReader;
pub use index_reader_builder::IndexReaderBuilder;
pub use reader_of::ReaderOf;
pub use search::{Collector, Query, Weight};
pub use searcher::Searcher;
pub use segment_reader::SegmentReader;
pub use store_reader::StoreReader;
pub use tv_machine::ReloadPolicy;
pub use warmer::{Warmer, gc_interval};
pub use warming_state::WarmingState;
