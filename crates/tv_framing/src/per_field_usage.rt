//! How much space the fields of a segment take.
ghost use Rattle.std.specs.Prelude.{◌≡◌, ◌≤◌, [], map, IfOk, MatchResult, OnOk};
ghost use Rattle.std.specs.Slice.Iter.{iter_rest};
ghost use Rattle.tv_framing.specs.Usage.{capped};
ghost use Rattle.tv_framing.specs.PerField.{AreByName, UsesBytes, fields_sum};
ghost use Rattle.tv_framing.specs.Fields.{part_alone};
ghost use Rattle.tv_framing.specs.Places.{IsGap, IsPlace, by_name, with_field};
ghost use Rattle.tv_framing.specs.NamedParts.{alone};

use crate::field_usage::FieldUsage;
use std::alloc::Global;
use std::marker::Model;
use tv_base::{ByteCount, Memory};

// The size of a body, under the name of its field.
#[derive(Clone, Copy)]
pub(crate) struct NamedPart<'a> {
    pub(crate) name: &'a str,
    pub(crate) idx: u16,
    pub(crate) size: ByteCount,
}

/// The usages of several fields, in name order.
pub type FieldUsages<'a> = std::slice::Iter<'a, FieldUsage>;

/// The space that fields take. To a contract it is the list of their usages, in name order.
#[derive(Drop)]
pub struct PerFieldSpaceUsage {
    fields: Vec<FieldUsage>,
}

impl Model for PerFieldSpaceUsage {
    ghost use Rattle.std.specs.Prelude.{List};
    ghost use Rattle.tv_framing.specs.Fields.{FieldSpace};
    ghost use Rattle.tv_framing.specs.PerField.{InNameOrder};

    ghost Value = { List FieldSpace };

    ghost view = { λ u. u.fields.items };

    ghost invariant = { λ u. InNameOrder u.fields.items };
}

impl PerFieldSpaceUsage {
    /// The usages of these fields. Those of one name make one usage together, part by part.
    pub fn new(alloc: Global, fields: Vec<FieldUsage>) -> Result<PerFieldSpaceUsage, Memory>
        ensures by_name { IfOk result (AreByName fields.items) }
        ensures total { IfOk result (λ usage. UsesBytes usage (fields_sum fields.items)) }
    {
        let mut fields = fields;
        // In the order of the names each new one goes to the end.
        fields.sort_by(|one, other| one.field_name().cmp(other.field_name()))?;
        let mut usage = PerFieldSpaceUsage::empty(alloc);
        for field in fields {
            usage.add(field)?;
        }
        Ok(usage)
    }

    // What these parts take, by the names of their fields.
    pub(crate) fn of_parts(
        alloc: Global,
        parts: Vec<NamedPart<'_>>,
    ) -> Result<PerFieldSpaceUsage, Memory>
        ensures { IfOk result (λ usage. usage ≡ by_name (map alone parts.entry.items)) }
    {
        let mut parts = parts;
        // In the order of the names each new one goes to the end.
        parts.sort_by_key(|part| part.name)?;
        let mut usage = PerFieldSpaceUsage::empty(alloc);
        for part in parts {
            usage.add_part(part.name, part.idx as usize, part.size)?;
        }
        Ok(usage)
    }

    // No usages.
    fn empty(alloc: Global) -> PerFieldSpaceUsage
        ensures { result ≡ [] }
    {
        PerFieldSpaceUsage {
            fields: Vec::new(alloc),
        }
    }

    // One usage more. It joins that of its name.
    fn add(&mut self, field: FieldUsage) -> Result<(), Memory>
        ensures ok { OnOk result (self.new ≡ with_field self.old field) }
    {
        match self.place_of(field.field_name()) {
            Ok(i) => {
                let one = &mut self.fields[i];
                one.join(&field)
            }
            Err(i) => {
                self.fields.insert(i, field)?;
                Ok(())
            }
        }
    }

    // One part more of the field of this name.
    fn add_part(&mut self, name: &str, idx: usize, size: ByteCount) -> Result<(), Memory>
        requires small { idx ≤ 65535 }
        ensures ok { OnOk result (self.new ≡ with_field self.old (part_alone name.now idx size)) }
    {
        match self.place_of(name) {
            Ok(i) => {
                let one = &mut self.fields[i];
                one.join_part(idx, size)
            }
            Err(i) => {
                let alloc = *self.fields.allocator();
                let mut field = FieldUsage::empty(alloc, String::from_str(alloc, name)?);
                field.add_field_idx(idx, size)?;
                self.fields.insert(i, field)?;
                Ok(())
            }
        }
    }

    // The place of the usage of this name, or where it would stand.
    fn place_of(&self, name: &str) -> Result<usize, usize>
        ensures { MatchResult result (IsPlace name.now self.now) (IsGap name.now self.now) }
    {
        self.fields
            .binary_search_by(|field| field.field_name().cmp(name))
    }

    /// The usages, in name order.
    pub fn fields(&self) -> FieldUsages<'_>
        ensures fields { iter_rest result ≡ self.now }
    {
        self.fields.iter()
    }

    /// The sum of all fields, which stays at `u64::MAX`.
    pub fn total(&self) -> ByteCount
        ensures total { result.0 ≡ capped (fields_sum self.now) }
    {
        sum_of(self.fields.as_slice())
    }

    // The same usages again.
    pub(crate) fn copied(&self) -> Result<PerFieldSpaceUsage, Memory>
        ensures { IfOk result (λ u. u ≡ self.now) }
    {
        let fields = copies(*self.fields.allocator(), self.fields.as_slice())?;
        Ok(PerFieldSpaceUsage { fields })
    }
}

// The sum of these usages.
fn sum_of(fields: &[FieldUsage]) -> ByteCount
    ensures { result.0 ≡ capped (fields_sum fields.now) }
{
    let mut sum = ByteCount(0);
    for field in fields {
        sum = sum.plus(field.total());
    }
    sum
}

// The same usages again.
fn copies(alloc: Global, fields: &[FieldUsage]) -> Result<Vec<FieldUsage>, Memory>
    ensures { IfOk result (λ v. v.items ≡ fields.now) }
{
    let mut copies = Vec::new(alloc);
    for field in fields {
        copies.push(field.copied()?)?;
    }
    Ok(copies)
}
