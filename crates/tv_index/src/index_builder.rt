//! How an index is made, or opened, with settings and a schema that are passed one by one.
ghost use Rattle.std.specs.Prelude.{◌≡◌, None, Some, IfOk, IfErr, MatchOption};
ghost use Rattle.std.specs.Option.{IsSomeAnd};
ghost use Rattle.tv_index.specs.Building.{BuildsSafely, IsMissing, IsUnpassed, LacksSchema, OpensNone};
ghost use Rattle.tv_index.specs.Crashes.{LacksMeta, OnlyLooks};
ghost use Rattle.tv_index.specs.Indexes.{CreatesIndex, IsNewInRam, NotCreated, NotStanding, OpensIndexOf};
ghost use Rattle.tv_index.specs.NewForms.{NotOpenedForm, form_with};
ghost use Rattle.tv_metas.specs.Settings.{default_index_settings};

use crate::index::Index;
use std::alloc::Global;
use std::marker::Model;
use tv_base::TantivyError;
use tv_device::{Directory, RamDirectory, WatchCall};
use tv_managed::Refused;
use tv_metas::{IndexSettings, Schema};

/// The settings and the schema of an index that is to be made, or opened. To a contract it is the
/// record of these, where the schema is none as long as none was passed.
#[derive(Drop)]
pub struct IndexBuilder {
    settings: IndexSettings,
    schema: Option<Schema>,
}

impl Model for IndexBuilder {
    ghost use Rattle.tv_index.specs.Building.{Builder};

    ghost Value = { Builder };

    ghost view = { λ a. record { settings = a.settings; schema = a.schema } };
}

impl IndexBuilder {
    /// A builder with the settings of an index that says none, and without a schema. Takes no
    /// memory.
    pub fn new() -> IndexBuilder
        ensures { result ≡ record { settings = default_index_settings; schema = None } }
    {
        IndexBuilder {
            settings: IndexSettings::new(),
            schema: None,
        }
    }

    /// The same with these settings, which a new index gets. One that stands keeps its own.
    pub fn settings(self, settings: IndexSettings) -> IndexBuilder
        ensures { result ≡ record self { settings = settings } }
    {
        IndexBuilder {
            settings,
            schema: self.schema,
        }
    }

    /// The same with this schema.
    pub fn schema(self, schema: Schema) -> IndexBuilder
        ensures { result ≡ record self { schema = Some schema } }
    {
        IndexBuilder {
            settings: self.settings,
            schema: Some(schema),
        }
    }

    /// Makes an index in memory, as `Index::create_in_ram` does. Without a schema it is refused
    /// with `InvalidArgument`.
    pub fn create_in_ram<C: WatchCall>(
        self,
        alloc: Global,
    ) -> Result<Index<RamDirectory<C>>, TantivyError>
        ensures created { IfOk result (λ index. IsSomeAnd self.schema (λ schema.
            IsNewInRam self.settings schema index)) }
        ensures err { IfErr result (λ error. MatchOption self.schema (IsUnpassed error)
            (λ _. error ≡ TantivyError.Memory)) }
    {
        let IndexBuilder { settings, schema } = self;
        match schema {
            Some(schema) => Index::create_in_ram_with(alloc, schema, settings),
            None => Err(no_schema(alloc)),
        }
    }

    /// Makes an index, as `Index::create` does. Without a schema it is refused with
    /// `InvalidArgument`, and nothing is done. A refusal gives the directory back.
    pub fn create<D: Directory>(self, alloc: Global, directory: D) -> Result<Index<D>, Refused<D>>
        ensures created { IfOk result (λ index. IsSomeAnd self.schema (λ schema.
            CreatesIndex D.Directory directory self.settings schema index)) }
        ensures refused { IfErr result (λ refused. MatchOption self.schema
            (LacksSchema directory refused.directory refused.error)
            (λ schema. NotCreated D.Directory directory (form_with self.settings schema)
            refused.directory refused.error)) }
        ensures safe { D.tells_images
            → BuildsSafely D.Directory (Unit {0}) self directory result }
    {
        let IndexBuilder { settings, schema } = self;
        match schema {
            Some(schema) => Index::create(alloc, directory, schema, settings),
            None => Err(Refused {
                error: no_schema(alloc),
                directory,
            }),
        }
    }

    /// Opens the index that stands in a directory, whose settings stay, or makes one with these
    /// settings where there is no `meta.json`. A refusal gives the directory back. Where there is a
    /// `meta.json`, no notice of it comes.
    ///
    /// Errors are those of `Index::open_or_create`. Without a schema nothing is opened:
    /// `InvalidArgument` comes where no index stands there, `IndexBuilderMissingArgument` where one
    /// stands there and could be opened, and else the error of `Index::open`.
    pub fn open_or_create<D: Directory>(
        self,
        alloc: Global,
        directory: D,
    ) -> Result<Index<D>, Refused<D>>
        ensures opened { IfOk result (λ index. IsSomeAnd self.schema (λ schema.
            OpensIndexOf D.Directory directory (form_with self.settings schema) index)) }
        ensures refused { IfErr result (λ refused. MatchOption self.schema
            (OpensNone D.Directory directory refused.directory refused.error)
            (λ schema. NotOpenedForm D.Directory directory (form_with self.settings schema)
            refused.directory refused.error)) }
        ensures safe { D.tells_images
            → BuildsSafely D.Directory (LacksMeta D.Directory directory) self directory result }
    {
        let IndexBuilder { settings, schema } = self;
        match schema {
            Some(schema) => Index::open_or_create_with(alloc, directory, schema, settings),
            None => Err(opened_without_schema(alloc, directory)),
        }
    }
}

// The refusal to make an index without a schema.
fn no_schema(alloc: Global) -> TantivyError
    ensures { IsUnpassed result }
{
    match String::from_str(alloc, "no schema passed") {
        Ok(text) => TantivyError::InvalidArgument(text),
        Err(_) => TantivyError::Memory,
    }
}

// The refusal to open an index without a schema, where it could be opened.
fn missing_schema(alloc: Global) -> TantivyError
    ensures { IsMissing result }
{
    match String::from_str(alloc, "schema") {
        Ok(text) => TantivyError::IndexBuilderMissingArgument(text),
        Err(_) => TantivyError::Memory,
    }
}

// The refusal of a builder without a schema, where the index that stands there isn't opened.
fn unopened<D: Directory>(alloc: Global, refused: Refused<D>) -> Refused<D>
    ensures error { (before : D) → NotStanding D.Directory before refused.directory refused.error
        → OpensNone D.Directory before result.directory result.error }
    ensures directory { result.directory ≡ refused.directory }
{
    let Refused { error, directory } = refused;
    match error {
        // It comes for one cause alone: there is no `meta.json`.
        TantivyError::OpenReadError(_) => Refused {
            error: no_schema(alloc),
            directory,
        },
        error => Refused { error, directory },
    }
}

// The refusal of a builder without a schema, by what stands in the directory.
fn opened_without_schema<D: Directory>(alloc: Global, directory: D) -> Refused<D>
    ensures error { OpensNone D.Directory directory result.directory result.error }
    ensures safe { D.tells_images → OnlyLooks D.Directory directory result.directory }
{
    match Index::open(alloc, directory) {
        Ok(index) => Refused {
            error: missing_schema(alloc),
            directory: index.into_directory(),
        },
        Err(refused) => unopened(alloc, refused),
    }
}
