//! How much space a field takes.
ghost use Rattle.std.specs.Prelude.{◌≡◌, ◌≤◌, [], None, Some, IfOk, OnOk, OnErr, get_or, string_bytes, option_and_then, option_copied, option_map, sum_by};
ghost use Rattle.tv_framing.specs.Usage.{bytes_of, capped};
ghost use Rattle.tv_framing.specs.PerField.{joined, joined_columns, joined_parts};
ghost use Rattle.tv_framing.specs.Fields.{column_bytes, field_sum, with_joined, with_usage};

use crate::column_usage::{ColumnSpaceUsage, size_of, together};
use std::alloc::Global;
use std::marker::Model;
use tv_base::{ByteCount, Memory};

/// The space that one field takes: its parts by their index, and its column.
#[derive(Drop)]
pub struct FieldUsage {
    field_name: String,
    sub_num_bytes: Vec<Option<ByteCount>>,
    column_usage: Option<ColumnSpaceUsage>,
}

impl Model for FieldUsage {
    ghost use Rattle.std.specs.Prelude.{string_bytes};
    ghost use Rattle.tv_framing.specs.PerField.{joined, joined_columns, joined_parts};
    ghost use Rattle.tv_framing.specs.Fields.{FieldSpace};

    ghost Value = { FieldSpace };

    ghost view = { λ f. record {
      name = string_bytes f.field_name;
      parts = f.sub_num_bytes.items;
      column = f.column_usage;
    } };
}

impl FieldUsage {
    /// A field without parts.
    pub fn empty(alloc: Global, name: String) -> FieldUsage
        ensures empty { result ≡ record { name = string_bytes name; parts = []; column = None } }
    {
        FieldUsage {
            field_name: name,
            sub_num_bytes: Vec::new(alloc),
            column_usage: None,
        }
    }

    /// Sets the size of the part of this index.
    pub fn add_field_idx(&mut self, idx: usize, size: ByteCount) -> Result<(), Memory>
        requires small { idx ≤ 65535 }
        requires unset { get_or self.old.parts idx None ≡ None }
        ensures ok { OnOk result (self.new ≡ with_usage idx size self.old) }
        ensures err { OnErr result (self.new ≡ self.old) }
    {
        self.join_part(idx, size)
    }

    // Joins this size to the part of this index. Where memory is wanted, nothing changes.
    pub(crate) fn join_part(&mut self, idx: usize, size: ByteCount) -> Result<(), Memory>
        requires small { idx ≤ 65535 }
        ensures ok { OnOk result
            (self.new ≡ record self.old { parts = with_joined idx size self.old.parts }) }
        ensures err { OnErr result (self.new ≡ self.old) }
    {
        if self.sub_num_bytes.len() <= idx {
            self.sub_num_bytes.resize(idx + 1, None)?;
        }
        self.sub_num_bytes[idx] = together(self.sub_num_bytes[idx], Some(size));
        Ok(())
    }

    /// Sets the sizes of the column.
    pub fn set_column_usage(&mut self, usage: ColumnSpaceUsage)
        requires unset { self.old.column ≡ None }
        ensures column { self.new ≡ record self.old { column = Some usage } }
    {
        self.column_usage = Some(usage);
    }

    // Joins another usage of the same field. Where memory is wanted, nothing changes.
    pub(crate) fn join(&mut self, other: &FieldUsage) -> Result<(), Memory>
        ensures ok { OnOk result (self.new ≡ joined self.old other.now) }
        ensures err { OnErr result (self.new ≡ self.old) }
        ensures name { self.new.name ≡ self.old.name }
    {
        let parts = joined_parts(
            *self.sub_num_bytes.allocator(),
            self.sub_num_bytes.as_slice(),
            other.sub_num_bytes.as_slice(),
        )?;
        self.sub_num_bytes = parts;
        self.column_usage = joined_columns(self.column_usage, other.column_usage);
        Ok(())
    }

    // The same usage again.
    pub(crate) fn copied(&self) -> Result<FieldUsage, Memory>
        ensures { IfOk result (λ f. f ≡ self.now) }
    {
        let alloc = *self.sub_num_bytes.allocator();
        Ok(FieldUsage {
            field_name: String::from_str(alloc, self.field_name.as_str())?,
            sub_num_bytes: Vec::from_slice(alloc, self.sub_num_bytes.as_slice())?,
            column_usage: self.column_usage,
        })
    }

    /// The name of the field.
    pub fn field_name(&self) -> &str
        ensures name { result.now ≡ self.now.name }
    {
        self.field_name.as_str()
    }

    /// The sizes of the parts, by their index.
    pub fn sub_num_bytes(&self) -> &[Option<ByteCount>]
        ensures parts { result.now ≡ self.now.parts }
    {
        self.sub_num_bytes.as_slice()
    }

    /// The size of the column, if there is one.
    pub fn column_num_bytes(&self) -> Option<ByteCount>
        ensures column { result ≡ option_map (λ usage. usage.column) self.now.column }
    {
        match self.column_usage {
            Some(usage) => Some(usage.column),
            None => None,
        }
    }

    /// The size of the column's dictionary, if there is one.
    pub fn dictionary_num_bytes(&self) -> Option<ByteCount>
        ensures dictionary { result ≡ option_and_then (λ usage. usage.dictionary)
            self.now.column }
    {
        match self.column_usage {
            Some(usage) => usage.dictionary,
            None => None,
        }
    }

    /// The sizes of the column and its dictionary, if there is a column.
    pub fn column_space_usage(&self) -> Option<&ColumnSpaceUsage>
        ensures column { option_copied result ≡ self.now.column }
    {
        self.column_usage.as_ref()
    }

    /// The sum of all parts and of the column, which stays at `u64::MAX`.
    pub fn total(&self) -> ByteCount
        ensures total { result.0 ≡ capped (field_sum self.now) }
    {
        let parts = sum_of(self.sub_num_bytes.as_slice());
        parts.plus(column_total(self.column_usage))
    }
}

// The size of a column and its dictionary, 0 where there is no column.
fn column_total(usage: Option<ColumnSpaceUsage>) -> ByteCount
    ensures { result.0 ≡ capped (column_bytes usage) }
{
    match usage {
        Some(usage) => usage.total_num_bytes(),
        None => ByteCount(0),
    }
}

// The parts of two usages, index by index.
fn joined_parts(
    alloc: Global,
    one: &[Option<ByteCount>],
    other: &[Option<ByteCount>],
) -> Result<Vec<Option<ByteCount>>, Memory>
    ensures { IfOk result (λ v. v.items ≡ joined_parts one.now other.now) }
{
    let mut parts = Vec::new(alloc);
    for i in 0..one.len().max(other.len()) {
        parts.push(together(part_at(one, i), part_at(other, i)))?;
    }
    Ok(parts)
}

// The part of this index, if there is one.
fn part_at(parts: &[Option<ByteCount>], i: usize) -> Option<ByteCount>
    ensures { result ≡ get_or parts.now i None }
{
    if i < parts.len() { parts[i] } else { None }
}

// Both together, or the one that is there.
fn joined_columns(
    one: Option<ColumnSpaceUsage>,
    other: Option<ColumnSpaceUsage>,
) -> Option<ColumnSpaceUsage>
    ensures { result ≡ joined_columns one other }
{
    match (one, other) {
        (Some(one), Some(other)) => Some(one.merge(&other)),
        (Some(one), None) => Some(one),
        (None, other) => other,
    }
}

// The sum of these parts.
fn sum_of(parts: &[Option<ByteCount>]) -> ByteCount
    ensures { result.0 ≡ capped (sum_by bytes_of parts.now) }
{
    let mut sum = ByteCount(0);
    for part in parts {
        sum = sum.plus(size_of(*part));
    }
    sum
}
