//! The settings of an index.
ghost use Rattle.std.specs.Prelude.{◌≡◌, ◌↔◌, IsTrue};
ghost use Rattle.tv_formats.specs.Commits.{default_settings};
ghost use Rattle.tv_metas.specs.Settings.{default_index_settings, settings_view};

/// How the document store is compressed.
#[derive(Clone, Copy, Debug, PartialEq, Eq)]
pub enum Compressor {
    /// It is not.
    None,
}

/// How the documents of an index are kept.
#[derive(Clone, Copy, Debug, PartialEq, Eq)]
pub struct IndexSettings {
    /// How the document store is compressed.
    pub docstore_compression: Compressor,
    /// Whether a thread of its own compresses it.
    pub docstore_compress_dedicated_thread: bool,
    /// How many bytes of documents are compressed together.
    pub docstore_blocksize: u64,
}

impl IndexSettings {
    /// The settings of an index that says none: nothing is compressed, on a thread of its own, and
    /// a block has 16384 bytes.
    pub fn new() -> IndexSettings
        ensures settings { settings_view result ≡ default_settings }
        ensures parts { result ≡ default_index_settings }
    {
        IndexSettings {
            docstore_compression: Compressor::None,
            docstore_compress_dedicated_thread: true,
            docstore_blocksize: 16384,
        }
    }
}

/// In which order values are sorted.
#[derive(Clone, Copy, Debug, PartialEq, Eq)]
pub enum Order {
    /// The smallest first.
    Asc,
    /// The largest first.
    Desc,
}

impl Order {
    /// Whether the largest comes first.
    pub fn is_desc(&self) -> bool
        ensures { IsTrue result ↔ (self.now ≡ Order.Desc) }
    {
        match self {
            Order::Asc => false,
            Order::Desc => true,
        }
    }

    /// Whether the smallest comes first.
    pub fn is_asc(&self) -> bool
        ensures { IsTrue result ↔ (self.now ≡ Order.Asc) }
    {
        match self {
            Order::Asc => true,
            Order::Desc => false,
        }
    }
}
