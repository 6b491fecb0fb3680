//! An index in a directory.
ghost use Rattle.std.specs.Prelude.{◌≡◌, [], IfOk, IfErr, MatchResult, OnErr, OnOk, None, Some, false, is_some, map, max};
ghost use Rattle.std.specs.Borrow.{Lends, sem};
ghost use Rattle.std.specs.List.{list_any};
ghost use Rattle.tv_base.specs.Entries.{is_full, one_more};
ghost use Rattle.tv_device.specs.Calls.{AskFaults};
ghost use Rattle.tv_device.specs.Images.{KeepsDisk};
ghost use Rattle.tv_device.specs.View.{OnlyReads};
ghost use Rattle.tv_formats.specs.Commits.{new_form};
ghost use Rattle.tv_formats.specs.Names.{meta_name};
ghost use Rattle.tv_formats.specs.Segments.{fresh_segment};
ghost use Rattle.tv_index.specs.Crashes.{LacksMeta, LooksSafely, MakesSafely};
ghost use Rattle.tv_index.specs.Indexes.{CreatesIndex, IsNewInRam, KeepsForm, KeepsIndex, LoadsCommit, LoadsShares, MeansSuch};
ghost use Rattle.tv_index.specs.Indexes.{NewSegmentCause, is_id_used};
ghost use Rattle.tv_index.specs.Indexes.{NotCreated, NotStanding, OpensIndexOf, OpensStanding};
ghost use Rattle.tv_index.specs.NewForms.{NotOpenedForm, form_with, new_text};
ghost use Rattle.tv_metas.specs.Settings.{default_index_settings};
ghost use Rattle.tv_index.specs.Standing.{LoadsMeta, MetaFaults};
ghost use Rattle.tv_metas.specs.Tracked.{ShareAllCause, Tracks, share_of};
ghost use Rattle.tv_index.specs.contracts.index.Index.{the_row as index_row};
ghost use Rattle.tv_metas.specs.contracts.index_settings.IndexSettings.{the_row as settings_row};
ghost use Rattle.tv_metas.specs.contracts.tracked.SegmentMetaInventory.{the_row as inventory_row};
ghost use Rattle.tv_managed.specs.contracts.managed_directory.ManagedDirectory.{the_row as managed_row};

use crate::index_builder::IndexBuilder;
use crate::opening::{create, load_meta, open_or_create_with, settled};
use crate::refusals::error_of;
use crate::segment::Segment;
use crate::tracking::track_segments;
use std::alloc::Global;
use std::marker::Model;
use tv_base::{Executor, META_FILEPATH, OpenReadError, TantivyError};
use tv_device::{Directory, RamDirectory, WatchCall};
use tv_formats::{Memory, SegmentId};
use tv_managed::{ManagedDirectory, Refused};
use tv_metas::naming::is_named;
use tv_metas::{
    IndexMeta, IndexSettings, Schema, SegmentMeta, SegmentMetaInventory, UntrackedIndexMeta, ids_of,
};

/// An index: its directory, how it is made, the segments of which a share is out, and who runs its
/// searches. To a contract it is the record of these.
///
/// Its commits stand in `meta.json`, which each call that shows one reads anew.
pub struct Index<D: Directory> {
    pub(crate) directory: ManagedDirectory<D>,
    settings: IndexSettings,
    pub(crate) schema: Schema,
    inventory: SegmentMetaInventory,
    executor: Executor,
}

impl<D: Directory> Model for Index<D> {
    ghost use Rattle.tv_index.specs.Indexes.{IndexState};

    ghost Value = { IndexState D };

    ghost view = { λ a. record {
      directory = a.directory;
      settings = a.settings;
      schema = a.schema;
      kept = a.inventory;
      executor = a.executor;
    } };
}

impl<D: Directory> Index<D> {
    /// A builder, as `IndexBuilder::new` gives it. Takes no memory.
    pub fn builder() -> IndexBuilder
        ensures { result ≡ record { settings = default_index_settings; schema = None } }
    {
        IndexBuilder::new()
    }

    /// Whether an index stands in a directory: whether `meta.json` reads.
    pub fn exists(directory: &mut D) -> Result<bool, OpenReadError>
        ensures answer { D.told.content → IfOk result
            (λ found. found ≡ is_some ((D.view directory.old).reads meta_name)) }
        ensures faults { AskFaults (D.view directory.old) (D.view directory.new) meta_name result }
        ensures frame { OnlyReads D.told (D.view directory.old) (D.view directory.new) }
        ensures images { D.tells_images → KeepsDisk (D.disk directory.old) (D.disk directory.new) }
    {
        directory.exists(META_FILEPATH)
    }

    /// The index in a directory with managed names, made with these settings and this schema, of
    /// whose segments no share is out. The caller runs its searches. Takes no memory.
    pub fn from_parts(
        alloc: Global,
        directory: ManagedDirectory<D>,
        settings: IndexSettings,
        schema: Schema,
    ) -> Index<D>
        ensures { result ≡ record {
          directory = directory;
          settings = settings;
          schema = schema;
          kept = [];
          executor = Executor.SingleThread;
        } }
    {
        Index {
            directory,
            settings,
            schema,
            inventory: SegmentMetaInventory::new(alloc),
            executor: Executor::single_thread(),
        }
    }

    /// Opens the index that stands in a directory. Its schema is the one that `meta.json` spells,
    /// with the keys in the order of their bytes and without blanks. A refusal gives the directory
    /// back. A crash within the call leaves what it might have left before, and one behind an opening
    /// that succeeded leaves each name as it stands.
    ///
    /// `DataCorruption` comes for the list of managed files; then `OpenReadError` with
    /// `FileDoesNotExist` where there is no `meta.json`, or `DataCorruption` where it spells no
    /// commit as JSON, as where the text of its schema nests too deep to be read inside it.
    pub fn open(alloc: Global, directory: D) -> Result<Index<D>, Refused<D>>
        ensures opened { IfOk result (OpensStanding D.Directory directory) }
        ensures refused { IfErr result (λ refused.
            NotStanding D.Directory directory refused.directory refused.error) }
        ensures safe { D.tells_images → LooksSafely D.Directory directory
            (λ index. index.directory) result }
    {
        let mut directory = settled(alloc, directory)?;
        match load_meta(alloc, &mut directory, None) {
            Ok(meta) => Ok(Index::from_parts(alloc, directory, meta.index_settings, meta.schema)),
            Err(error) => Err(Refused {
                error,
                directory: directory.into_directory(),
            }),
        }
    }

    /// Makes an index with this schema and these settings. A `meta.json` that stood there is
    /// replaced by the first commit of the new index; no other file is changed but the list of
    /// managed files. A refusal gives the directory back.
    ///
    /// Where each file that a crash may leave is on the list, no crash within the call leaves one
    /// that isn't, and the directory goes on so. A crash behind a call that succeeded leaves each
    /// name as it stands. Where memory was wanted, no crash within the call leaves a `meta.json`
    /// that neither stood nor could be left before.
    ///
    /// `DataCorruption` comes for the list of managed files.
    pub fn create(
        alloc: Global,
        directory: D,
        schema: Schema,
        settings: IndexSettings,
    ) -> Result<Index<D>, Refused<D>>
        ensures created { IfOk result (CreatesIndex D.Directory directory settings schema) }
        ensures refused { IfErr result (λ refused. NotCreated D.Directory directory
            (form_with settings schema) refused.directory refused.error) }
        ensures safe { D.tells_images → MakesSafely D.Directory (Unit {0})
            (new_text (form_with settings schema)) directory (λ index. index.directory) result }
    {
        let mut directory = settled(alloc, directory)?;
        match create(alloc, &mut directory, &schema, &settings) {
            Ok(()) => Ok(Index::from_parts(alloc, directory, settings, schema)),
            Err(error) => Err(Refused {
                error: TantivyError::from(error),
                directory: directory.into_directory(),
            }),
        }
    }

    /// Opens the index that stands in a directory, or makes one with this schema where there is no
    /// `meta.json`. A refusal gives the directory back. Where there is a `meta.json`, no notice of
    /// it comes, and a crash within the call leaves what it might have left before, or what stood
    /// then. Where each file that a crash may leave is on the list, no crash within the call leaves
    /// one that isn't, and the directory goes on so. A crash behind an opening that succeeded
    /// leaves each name as it stands. Where memory was wanted, no crash within the call leaves a
    /// `meta.json` that neither stood nor could be left before.
    ///
    /// `DataCorruption` comes for the list of managed files and for `meta.json`, `SchemaError`
    /// where `meta.json` has another schema.
    pub fn open_or_create(
        alloc: Global,
        directory: D,
        schema: Schema,
    ) -> Result<Index<D>, Refused<D>>
        ensures opened { IfOk result (OpensIndexOf D.Directory directory (new_form schema)) }
        ensures refused { IfErr result (λ refused. NotOpenedForm D.Directory directory
            (new_form schema) refused.directory refused.error) }
        ensures safe { D.tells_images → MakesSafely D.Directory (LacksMeta D.Directory directory)
            (new_text (new_form schema)) directory (λ index. index.directory) result }
    {
        Index::open_or_create_with(alloc, directory, schema, IndexSettings::new())
    }

    // Opens the index that stands in a directory, or makes one with this schema and these settings.
    pub(crate) fn open_or_create_with(
        alloc: Global,
        directory: D,
        schema: Schema,
        settings: IndexSettings,
    ) -> Result<Index<D>, Refused<D>>
        ensures opened { IfOk result
            (OpensIndexOf D.Directory directory (form_with settings schema)) }
        ensures refused { IfErr result (λ refused. NotOpenedForm D.Directory directory
            (form_with settings schema) refused.directory refused.error) }
        ensures safe { D.tells_images → MakesSafely D.Directory (LacksMeta D.Directory directory)
            (new_text (form_with settings schema)) directory (λ index. index.directory) result }
    {
        let (directory, meta) = open_or_create_with(alloc, directory, &schema, settings)?;
        Ok(Index::from_parts(alloc, directory, meta.index_settings, meta.schema))
    }

    /// The directory that was handed in. Takes no memory.
    pub fn into_directory(self) -> D
        ensures { result ≡ self.directory.0 }
    {
        let Index {
            directory,
            settings: _,
            schema: _,
            inventory: _,
            executor: _,
        } = self;
        directory.into_directory()
    }

    /// The directory, with its managed names.
    pub fn directory(&self) -> &ManagedDirectory<D>
        ensures { result.now ≡ self.now.directory }
    {
        &self.directory
    }

    /// The directory, with its managed names, which the caller may change: the index has what the caller
    /// leaves, and else stays.
    pub fn directory_mut(&mut self) -> &mut ManagedDirectory<D>
        ensures value { result.now ≡ self.old.directory }
        ensures* lends { sem 𝓛 (Lends
            (index_row D.row D.Writer.row D.Callback.row D.Directory D.Callback.WatchCall)
            (managed_row D.row D.Writer.row D.Callback.row D.Directory D.Callback.WatchCall)
            self.entry result (λ w. record self.old { directory = w })) }
    {
        &mut self.directory
    }

    /// The segments of which a share is out, which the caller may share and release: the index keeps what
    /// the caller leaves, and else stays.
    pub fn inventory(&mut self) -> &mut SegmentMetaInventory
        ensures value { result.now ≡ self.old.kept }
        ensures* lends { sem 𝓛 (Lends
            (index_row D.row D.Writer.row D.Callback.row D.Directory D.Callback.WatchCall)
            inventory_row self.entry result (λ w. record self.old { kept = w })) }
    {
        &mut self.inventory
    }

    /// Its settings, which the caller may change: the index has what the caller leaves, and else stays.
    /// Those in `meta.json` stay until a commit is saved with others.
    pub fn settings_mut(&mut self) -> &mut IndexSettings
        ensures value { result.now ≡ self.old.settings }
        ensures* lends { sem 𝓛 (Lends
            (index_row D.row D.Writer.row D.Callback.row D.Directory D.Callback.WatchCall)
            settings_row self.entry result (λ w. record self.old { settings = w })) }
    {
        &mut self.settings
    }

    /// Its settings.
    pub fn settings(&self) -> &IndexSettings
        ensures { result.now ≡ self.now.settings }
    {
        &self.settings
    }

    /// Its schema.
    pub fn schema(&self) -> &Schema
        ensures { result.now ≡ self.now.schema }
    {
        &self.schema
    }

    /// Who runs its searches: the caller, until another executor is set. Takes no memory.
    pub fn search_executor(&self) -> &Executor
        ensures { result.now ≡ self.now.executor }
    {
        &self.executor
    }

    /// Lets this executor run its searches. Takes no memory.
    pub fn set_executor(&mut self, executor: Executor)
        ensures { self.new ≡ record self.old { executor = executor } }
    {
        self.executor = executor;
    }

    /// Lets at most this many threads run its searches, where 0 is read as 1. Takes no memory.
    pub fn set_multithread_executor(&mut self, num_threads: usize)
        ensures { self.new ≡ record self.old
            { executor = Executor.ThreadPool (max 1 num_threads) } }
    {
        self.executor = Executor::multi_thread(num_threads, "tantivy-search-");
    }

    /// Lets as many threads run its searches as there are processors, a number that is handed in; 0 is
    /// read as 1. Takes no memory.
    pub fn set_default_multithread_executor(&mut self, cpus: usize)
        ensures { self.new ≡ record self.old { executor = Executor.ThreadPool (max 1 cpus) } }
    {
        self.set_multithread_executor(cpus);
    }
}

impl<D: Directory> Index<D> {
    /// The last commit, without a share of its segments.
    ///
    /// `OpenReadError` with `FileDoesNotExist` comes where there is no `meta.json`,
    /// `DataCorruption` where it means no commit, `SchemaError` where it has another schema than
    /// the index.
    pub fn load_untracked_metas(
        &mut self,
        alloc: Global,
    ) -> Result<UntrackedIndexMeta, TantivyError>
        ensures meta { IfOk result
            (LoadsMeta D.Directory self.old.directory.0 (Some self.old.schema)) }
        ensures faults { MetaFaults D.Directory self.old.directory.0 self.new.directory.0
            (Some self.old.schema) result }
        ensures frame { KeepsIndex (OnlyReads D.told) D.view self.old self.new }
        ensures images { D.tells_images
            → KeepsDisk (D.disk self.old.directory.0) (D.disk self.new.directory.0) }
    {
        load_meta(alloc, &mut self.directory, Some(&self.schema))
    }

    /// The last commit, with a share of each of its segments. Errors are those of
    /// `load_untracked_metas`. After an error no share was taken.
    pub fn load_metas(&mut self, alloc: Global) -> Result<IndexMeta, TantivyError>
        ensures commit { IfOk result (LoadsCommit D.Directory self.old self.new) }
        ensures err { OnErr result (self.new.kept ≡ self.old.kept) }
        ensures faults { MetaFaults D.Directory self.old.directory.0 self.new.directory.0
            (Some self.old.schema) result }
        ensures frame { KeepsForm (OnlyReads D.told) D.view self.old self.new }
        ensures images { D.tells_images
            → KeepsDisk (D.disk self.old.directory.0) (D.disk self.new.directory.0) }
    {
        let meta = self.load_untracked_metas(alloc)?;
        let meta = meta.track(&mut self.inventory)?;
        Ok(meta)
    }

    /// The segments of the last commit in the order of their ids, with a share of each. Errors are
    /// those of `load_metas`.
    pub fn searchable_segment_metas(
        &mut self,
        alloc: Global,
    ) -> Result<Vec<SegmentMeta>, TantivyError>
        ensures segments { IfOk result (λ metas.
            LoadsShares D.Directory self.old self.new metas.items) }
        ensures err { OnErr result (self.new.kept ≡ self.old.kept) }
        ensures faults { MetaFaults D.Directory self.old.directory.0 self.new.directory.0
            (Some self.old.schema) result }
        ensures frame { KeepsForm (OnlyReads D.told) D.view self.old self.new }
        ensures images { D.tells_images
            → KeepsDisk (D.disk self.old.directory.0) (D.disk self.new.directory.0) }
    {
        let meta = self.load_metas(alloc)?;
        Ok(meta.segments)
    }

    /// The same segments. Errors are those of `load_metas`.
    pub fn searchable_segments(&mut self, alloc: Global) -> Result<Vec<Segment>, TantivyError>
        ensures segments { IfOk result (λ segments.
            LoadsShares D.Directory self.old self.new segments.items) }
        ensures err { OnErr result (self.new.kept ≡ self.old.kept) }
        ensures faults { MetaFaults D.Directory self.old.directory.0 self.new.directory.0
            (Some self.old.schema) result }
        ensures frame { KeepsForm (OnlyReads D.told) D.view self.old self.new }
        ensures images { D.tells_images
            → KeepsDisk (D.disk self.old.directory.0) (D.disk self.new.directory.0) }
    {
        let meta = load_meta(alloc, &mut self.directory, Some(&self.schema))?;
        let segments = track_segments(alloc, meta.segments.as_slice(), &mut self.inventory)?;
        Ok(segments)
    }

    /// The ids of the segments of the last commit, in their order. Errors are those of
    /// `load_metas`.
    pub fn searchable_segment_ids(&mut self, alloc: Global) -> Result<Vec<SegmentId>, TantivyError>
        ensures ids { D.told.content → IfOk result (λ ids. MeansSuch self.old.schema
            ((D.view self.old.directory.0).reads meta_name)
            (λ commit. ids.items ≡ map (λ e. e.0) commit.segments)) }
        ensures faults { MetaFaults D.Directory self.old.directory.0 self.new.directory.0
            (Some self.old.schema) result }
        ensures frame { KeepsIndex (OnlyReads D.told) D.view self.old self.new }
        ensures images { D.tells_images
            → KeepsDisk (D.disk self.old.directory.0) (D.disk self.new.directory.0) }
    {
        let meta = load_meta(alloc, &mut self.directory, Some(&self.schema))?;
        let ids = ids_of(alloc, meta.segments.as_slice())?;
        Ok(ids)
    }

    /// Takes a segment without deletes in.
    pub fn new_segment_meta(
        &mut self,
        segment_id: SegmentId,
        max_doc: u32,
    ) -> Result<SegmentMeta, Memory>
        ensures ok { IfOk result (Tracks (segment_id, record { max_doc = max_doc; deletes = None })
            self.old.kept self.new.kept) }
        ensures err { OnErr result (self.new.kept ≡ self.old.kept) }
        ensures others { self.new ≡ record self.old { kept = self.new.kept } }
    {
        self.inventory.new_segment_meta(segment_id, max_doc)
    }

    // Whether a segment of the inventory has this id, or a managed name begins with it.
    fn is_id_used(&self, alloc: Global, segment_id: SegmentId) -> Result<bool, Memory>
        ensures { IfOk result (λ used. used ≡ is_id_used self.now segment_id) }
    {
        if self.inventory.has_id(segment_id) {
            return Ok(true);
        }
        let digits = segment_id.uuid_string(alloc)?;
        Ok(is_named(self.directory.list_managed_files(), segment_id, digits))
    }

    /// A new segment, which has no documents yet and no deletes.
    ///
    /// `IdInUse` with the digits of the id comes where a segment of the inventory has the id, or a
    /// managed name begins with it, and only there. `Memory` comes where memory is wanted, there too.
    pub fn new_segment(
        &mut self,
        alloc: Global,
        segment_id: SegmentId,
    ) -> Result<Segment, TantivyError>
        ensures ok { IfOk result
            (Tracks (segment_id, fresh_segment) self.old.kept self.new.kept) }
        ensures err { OnErr result (self.new.kept ≡ self.old.kept) }
        ensures cause { MatchResult result (λ _. is_id_used self.old segment_id ≡ false)
            (NewSegmentCause self.old segment_id) }
        ensures others { self.new ≡ record self.old { kept = self.new.kept } }
    {
        if self.is_id_used(alloc, segment_id)? {
            return Err(TantivyError::IdInUse(segment_id.uuid_string(alloc)?));
        }
        let meta = self.inventory.new_segment_meta(segment_id, 0)?;
        Ok(Segment::new(meta))
    }

    /// A share of every segment of the inventory, in the order in which they were tracked.
    ///
    /// `Exhausted` comes where a segment has as many shares as can be counted, and `Memory` where
    /// memory is wanted. Then no share was taken.
    pub fn list_all_segment_metas(
        &mut self,
        alloc: Global,
    ) -> Result<Vec<SegmentMeta>, TantivyError>
        ensures shares { IfOk result (λ metas. metas.items ≡ map share_of self.old.kept) }
        ensures ok { OnOk result (self.new.kept ≡ map one_more self.old.kept) }
        ensures err { OnErr result (self.new.kept ≡ self.old.kept) }
        ensures cause { MatchResult result (λ _. list_any is_full self.old.kept ≡ false)
            (ShareAllCause self.old.kept) }
        ensures others { self.new ≡ record self.old { kept = self.new.kept } }
    {
        self.inventory.all(alloc)
    }

    /// The segment of a share.
    pub fn segment(&self, meta: SegmentMeta) -> Segment
        ensures { result ≡ meta }
    {
        Segment::new(meta)
    }
}

impl<C: WatchCall> Index<RamDirectory<C>> {
    /// Makes an index with this schema in memory. `Memory` comes where memory is wanted.
    pub fn create_in_ram(
        alloc: Global,
        schema: Schema,
    ) -> Result<Index<RamDirectory<C>>, TantivyError>
        ensures created { IfOk result (IsNewInRam default_index_settings schema) }
        ensures err { IfErr result (λ error. error ≡ TantivyError.Memory) }
    {
        Index::create_in_ram_with(alloc, schema, IndexSettings::new())
    }

    // Makes an index with this schema and these settings in memory.
    pub(crate) fn create_in_ram_with(
        alloc: Global,
        schema: Schema,
        settings: IndexSettings,
    ) -> Result<Index<RamDirectory<C>>, TantivyError>
        ensures created { IfOk result (IsNewInRam settings schema) }
        ensures err { IfErr result (λ error. error ≡ TantivyError.Memory) }
    {
        match Index::create(alloc, RamDirectory::create(alloc), schema, settings) {
            Ok(index) => Ok(index),
            Err(refused) => Err(error_of(refused)),
        }
    }
}
