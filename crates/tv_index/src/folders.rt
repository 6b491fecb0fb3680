//! Indexes in folders of plain files.
ghost use Rattle.std.specs.Prelude.{IfOk, IfErr, OnOk, Some};
ghost use Rattle.tv_index.specs.Folders.{HasIndex, HasNoIndex, IsMadeOf, IsOpenIn, Makes, NotMade, NotMadeIn, NotOpenIn};
ghost use Rattle.tv_metas.specs.Settings.{default_index_settings};

use crate::index::Index;
use crate::index_builder::IndexBuilder;
use crate::refusals::error_of;
use std::alloc::Global;
use std::fs::File;
use std::rt::Files;
use tv_base::{OpenReadError, TantivyError};
use tv_device::{Directory, WatchCall};
use tv_files::MmapDirectory;
use tv_metas::Schema;

impl<R: Files<File = File> + Drop, C: WatchCall> Index<MmapDirectory<R, C>> {
    /// Opens the index that stands in a folder.
    ///
    /// `OpenDirectoryError` comes where the folder can't be opened. The other errors are those of
    /// `Index::open`, of the directory that was opened there.
    pub fn open_in_dir(
        rt: R,
        alloc: Global,
        path: &str,
    ) -> Result<Index<MmapDirectory<R, C>>, TantivyError>
        ensures opened { IfOk result (IsOpenIn ⟦<MmapDirectory<R, C> as Directory>⟧) }
        ensures err { IfErr result (NotOpenIn ⟦<MmapDirectory<R, C> as Directory>⟧ path.now) }
    {
        let directory = match MmapDirectory::open(rt, alloc, path) {
            Ok(directory) => directory,
            Err(error) => return Err(TantivyError::from(error)),
        };
        match Index::open(alloc, directory) {
            Ok(index) => Ok(index),
            Err(refused) => Err(error_of(refused)),
        }
    }

    /// Makes an index with this schema in a folder, as `IndexBuilder::create_in_dir` does.
    pub fn create_in_dir(
        rt: R,
        alloc: Global,
        path: &str,
        schema: Schema,
    ) -> Result<Index<MmapDirectory<R, C>>, TantivyError>
        ensures made { IfOk result (IsMadeOf ⟦<MmapDirectory<R, C> as Directory>⟧
            (record { settings = default_index_settings; schema = Some schema })) }
        ensures err { IfErr result (NotMadeIn ⟦<MmapDirectory<R, C> as Directory>⟧ path.now
            (record { settings = default_index_settings; schema = Some schema })) }
    {
        IndexBuilder::new()
            .schema(schema)
            .create_in_dir(rt, alloc, path)
    }
}

impl IndexBuilder {
    /// Makes an index in a folder. `IndexAlreadyExists` comes where one stands there: where
    /// `meta.json` reads. `OpenDirectoryError` comes where the folder can't be opened. The other errors
    /// are those of `create`, of the directory that was opened there.
    pub fn create_in_dir<R: Files<File = File> + Drop, C: WatchCall>(
        self,
        rt: R,
        alloc: Global,
        path: &str,
    ) -> Result<Index<MmapDirectory<R, C>>, TantivyError>
        ensures made { IfOk result (IsMadeOf ⟦<MmapDirectory<R, C> as Directory>⟧ self) }
        ensures err { IfErr result
            (NotMadeIn ⟦<MmapDirectory<R, C> as Directory>⟧ path.now self) }
    {
        let directory = match MmapDirectory::open(rt, alloc, path) {
            Ok(directory) => directory,
            Err(error) => return Err(TantivyError::from(error)),
        };
        self.create_where_none(alloc, directory)
    }

    // Makes an index in a directory in which none stands, and gives no directory back.
    fn create_where_none<D: Directory + Drop>(
        self,
        alloc: Global,
        directory: D,
    ) -> Result<Index<D>, TantivyError>
        ensures made { IfOk result (Makes D.Directory self directory) }
        ensures err { IfErr result (λ error.
            (now : D) × NotMade D.Directory self directory now error) }
    {
        let mut directory = directory;
        refuse_index(&mut directory)?;
        match self.create(alloc, directory) {
            Ok(index) => Ok(index),
            Err(refused) => Err(error_of(refused)),
        }
    }
}

// An error where an index stands in a directory: where `meta.json` reads.
fn refuse_index<D: Directory>(directory: &mut D) -> Result<(), TantivyError>
    ensures none { OnOk result (HasNoIndex D.Directory directory.old directory.new) }
    ensures some { IfErr result (HasIndex D.Directory directory.old directory.new) }
{
    match Index::exists(directory) {
        Ok(false) => Ok(()),
        Ok(true) => Err(TantivyError::IndexAlreadyExists),
        Err(OpenReadError::IoError { io_error, .. }) => Err(TantivyError::IoError(io_error)),
        Err(OpenReadError::Memory) => Err(TantivyError::Memory),
        Err(_) => unreachable!(),
    }
}
