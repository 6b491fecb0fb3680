//! Readers of an index, by calls of the index itself.
ghost use Rattle.std.specs.Prelude.{◌≡◌, IfErr, IfOk};
ghost use Rattle.tv_device.specs.Images.{KeepsDisk};
ghost use Rattle.tv_device.specs.View.{OnlyReads};
ghost use Rattle.tv_index.specs.Indexes.{KeepsIndex};
ghost use Rattle.tv_reader.specs.ReaderStates.{BuildsPlain, builder_of, new_builder};
ghost use Rattle.tv_reader.specs.Reloads.{LoadCause, LoadsLast};
ghost use Rattle.tv_reader.specs.Searchers.{CommitRead};

use crate::index_reader::IndexReader;
use crate::index_reader_builder::IndexReaderBuilder;
use std::alloc::Global;
use tv_base::TantivyError;
use tv_device::Directory;
use tv_index::Index;

/// What readers can be made of by its own calls.
pub trait ReaderOf {
    /// What shows a commit of it.
    type Reader: Drop;

    /// What builds such a reader.
    type Builder: Drop;

    /// A reader of its last commit, as the builder that it gives builds it.
    fn reader(&mut self, alloc: Global) -> Result<Self::Reader, TantivyError>;

    /// A builder of readers. Takes no memory.
    fn reader_builder(&self) -> Self::Builder;
}

impl<D: Directory> ReaderOf for Index<D> {
    type Reader = IndexReader;

    type Builder = IndexReaderBuilder;

    /// A reader that is to reload after each commit, with one thread and without warmers. It shows the
    /// last commit of the index under the number 0. The meta lock is held while the commit's files are
    /// read, and free again then.
    ///
    /// `LockBusy` in `LockFailure` comes exactly where the meta lock is held, if the directory tells its
    /// locks, and else only where the count of its faults rose; `OpenReadError` for a file of the commit
    /// that isn't there or not good. The other errors are those of `Index::load_metas`.
    fn reader(&mut self, alloc: Global) -> Result<IndexReader, TantivyError>
        ensures built { IfOk result (λ reader. (commit : CommitRead)
            × LoadsLast D.Directory self.old self.new commit × BuildsPlain commit reader) }
        ensures cause { IfErr result (LoadCause D.Directory self.old self.new) }
        ensures frame { KeepsIndex (OnlyReads D.told) D.view self.old self.new }
        ensures images { D.tells_images
            → KeepsDisk (D.disk self.old.directory.0) (D.disk self.new.directory.0) }
    {
        IndexReaderBuilder::new().try_into(alloc, self)
    }

    /// A builder of a reader that is to reload after each commit, with one thread and without warmers.
    /// Takes no memory.
    fn reader_builder(&self) -> IndexReaderBuilder
        ensures builder { builder_of result ≡ new_builder }
    {
        IndexReaderBuilder::new()
    }
}
