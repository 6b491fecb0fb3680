//! The version of the library and of its files.
ghost use Rattle.std.specs.Prelude.{Some};
ghost use Rattle.tv_base.specs.Versions.{version_text};

use std::fmt;

/// The format of the files that are written.
pub const INDEX_FORMAT_VERSION: u32 = 7;

/// The oldest format of files that are read.
pub const INDEX_FORMAT_OLDEST_SUPPORTED_VERSION: u32 = 4;

/// A version of the library, and of the files that it writes.
#[derive(Clone, Copy, PartialEq, Eq)]
pub struct Version {
    /// The first number of the library's version.
    pub major: u32,
    /// The second.
    pub minor: u32,
    /// The third.
    pub patch: u32,
    /// The format of the files. Those of 4 to 7 are read.
    pub index_format_version: u32,
}

impl fmt::Display for Version {
    ghost output = { λ version. Some (version_text version) };

    fn fmt<W: fmt::Write>(&self, f: &mut fmt::Formatter<W>) -> fmt::Result {
        let major = self.major;
        let minor = self.minor;
        let patch = self.patch;
        let format = self.index_format_version;
        write!(
            f,
            "tantivy v{major}.{minor}.{patch}, index_format v{format}"
        )
    }
}

impl fmt::Debug for Version {
    ghost debug_output = { λ version. Some (version_text version) };

    fn fmt<W: fmt::Write>(&self, f: &mut fmt::Formatter<W>) -> fmt::Result {
        fmt::Display::fmt(self, f)
    }
}

/// Why a file of another version is not read.
#[derive(Debug, Drop)]
pub enum Incompatibility {
    /// The compressions differ. No call makes this: nothing is compressed.
    CompressionMismatch {
        /// That of the library.
        library_compression_format: String,
        /// That of the index.
        index_compression_format: String,
    },
    /// The file is of a format that is not read.
    IndexMismatch {
        /// The version of the library.
        library_version: Version,
        /// The version that wrote the file, as its footer says.
        index_version: Version,
    },
}
