//! How a reader of an index is built.
ghost use Rattle.std.specs.Prelude.{◌≡◌, IfErr, IfOk};
ghost use Rattle.tv_device.specs.Images.{KeepsDisk};
ghost use Rattle.tv_device.specs.View.{OnlyReads};
ghost use Rattle.tv_index.specs.Indexes.{KeepsIndex};
ghost use Rattle.tv_reader.specs.Publishing.{BuildCause};
ghost use Rattle.tv_reader.specs.ReaderStates.{Builds, builder_of, new_builder};
ghost use Rattle.tv_reader.specs.Reloads.{LoadsLast};
ghost use Rattle.tv_reader.specs.Searchers.{CommitRead};

use crate::index_reader::IndexReader;
use crate::publishing::build;
use crate::warmer::Warmer;
use crate::warming_state::WarmingState;
use std::alloc::Global;
use tv_base::TantivyError;
use tv_device::Directory;
use tv_index::Index;
use tv_machine::ReloadPolicy;

/// How a reader of an index is built: when it is to reload, and its warmers.
#[derive(Drop)]
pub struct IndexReaderBuilder {
    policy: ReloadPolicy,
    num_warming_threads: usize,
    warmers: Option<Vec<Box<dyn Warmer + Send + Drop>>>,
}

impl IndexReaderBuilder {
    /// A builder of a reader that is to reload after each commit, with one thread and without warmers.
    /// Takes no memory.
    pub fn new() -> IndexReaderBuilder
        ensures builder { builder_of result ≡ new_builder }
    {
        IndexReaderBuilder {
            policy: ReloadPolicy::OnCommitWithDelay,
            num_warming_threads: 1,
            warmers: None,
        }
    }

    /// The reader is to reload so. Takes no memory.
    pub fn reload_policy(self, policy: ReloadPolicy) -> IndexReaderBuilder
        ensures { builder_of result ≡ record (builder_of self) { policy = policy } }
    {
        IndexReaderBuilder {
            policy,
            num_warming_threads: self.num_warming_threads,
            warmers: self.warmers,
        }
    }

    /// The reader has these warmers, whose numbers count from 0, in place of others. Takes no memory.
    pub fn warmers(self, warmers: Vec<Box<dyn Warmer + Send + Drop>>) -> IndexReaderBuilder
        ensures { builder_of result ≡ record (builder_of self) { warmers = warmers.items } }
    {
        IndexReaderBuilder {
            policy: self.policy,
            num_warming_threads: self.num_warming_threads,
            warmers: Some(warmers),
        }
    }

    /// The reader keeps this number of threads, which nobody uses. Takes no memory.
    pub fn num_warming_threads(self, num_warming_threads: usize) -> IndexReaderBuilder
        ensures { builder_of result ≡ record (builder_of self) { threads = num_warming_threads } }
    {
        IndexReaderBuilder {
            policy: self.policy,
            num_warming_threads,
            warmers: self.warmers,
        }
    }

    /// The reader, which shows the last commit of the index under the number 0, once each warmer was
    /// called. The meta lock is held while the commit's files are read, and free again then. After an
    /// error the warmers are dropped.
    ///
    /// Errors are those of `IndexReader::reload`, but no `Exhausted` of its own. A warmer's error is one
    /// of those that one of the warmers may answer, which may be `Exhausted` too.
    pub fn try_into<D: Directory>(
        self,
        alloc: Global,
        index: &mut Index<D>,
    ) -> Result<IndexReader, TantivyError>
        ensures built { IfOk result (λ reader. (commit : CommitRead)
            × LoadsLast D.Directory index.old index.new commit
            × Builds (λ w. errors w) (λ w. test w) (λ w. called_for w) (builder_of self) commit
            reader) }
        ensures cause { IfErr result (BuildCause D.Directory (λ w. test w)
            (builder_of self).warmers index.old index.new) }
        ensures frame { KeepsIndex (OnlyReads D.told) D.view index.old index.new }
        ensures images { D.tells_images
            → KeepsDisk (D.disk index.old.directory.0) (D.disk index.new.directory.0) }
    {
        match build(alloc, self.policy, self.warmers, index) {
            Ok((published, warmers)) => Ok(IndexReader {
                published,
                warming: WarmingState {
                    num_warming_threads: self.num_warming_threads,
                    warmers,
                },
            }),
            Err(error) => Err(error),
        }
    }
}
