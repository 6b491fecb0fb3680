//! How much space a column takes.
ghost use Rattle.std.specs.Prelude.{◌≡◌};
ghost use Rattle.tv_framing.specs.Usage.{bytes_of, capped, column_sum, merged_columns, together};

use tv_base::ByteCount;

/// The space that a field's column takes, and its dictionary, if it has one.
#[derive(Clone, Copy, PartialEq, Eq)]
pub struct ColumnSpaceUsage {
    /// The size of the column.
    pub column: ByteCount,
    /// The size of its dictionary, if it has one.
    pub dictionary: Option<ByteCount>,
}

impl ColumnSpaceUsage {
    /// Of a column of this size, and a dictionary of this size.
    pub fn new(column: ByteCount, dictionary: Option<ByteCount>) -> ColumnSpaceUsage
        ensures usage { result ≡ record { column = column; dictionary = dictionary } }
    {
        ColumnSpaceUsage { column, dictionary }
    }

    /// The size of the column.
    pub fn column_num_bytes(&self) -> ByteCount
        ensures column { result ≡ self.now.column }
    {
        self.column
    }

    /// The size of the dictionary, if there is one.
    pub fn dictionary_num_bytes(&self) -> Option<ByteCount>
        ensures dictionary { result ≡ self.now.dictionary }
    {
        self.dictionary
    }

    /// The sum of both, which stays at `u64::MAX`.
    pub fn total_num_bytes(&self) -> ByteCount
        ensures total { result.0 ≡ capped (column_sum self.now) }
    {
        self.column.plus(size_of(self.dictionary))
    }

    /// The sums of both parts, each by itself. They stay at `u64::MAX`.
    pub fn merge(&self, other: &ColumnSpaceUsage) -> ColumnSpaceUsage
        ensures merged { result ≡ merged_columns self.now other.now }
    {
        ColumnSpaceUsage {
            column: self.column.plus(other.column),
            dictionary: together(self.dictionary, other.dictionary),
        }
    }
}

/// The size of a part, 0 where there is no such part.
pub(crate) fn size_of(part: Option<ByteCount>) -> ByteCount
    ensures { result.0 ≡ bytes_of part }
{
    match part {
        Some(size) => size,
        None => ByteCount(0),
    }
}

/// Two parts of the same kind in one.
pub(crate) fn together(one: Option<ByteCount>, other: Option<ByteCount>) -> Option<ByteCount>
    ensures { result ≡ together one other }
{
    match (one, other) {
        (Some(one), Some(other)) => Some(one.plus(other)),
        (Some(one), None) => Some(one),
        (None, other) => other,
    }
}
