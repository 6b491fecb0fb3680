//! How much space the fields of a file take.
ghost use Rattle.std.specs.Prelude.{◌≡◌, IfOk, IfErr, length, map, string_bytes};
ghost use Rattle.std.specs.List.{AllByRecursion};
ghost use Rattle.tv_framing.specs.Composite.{IsAddress, addresses, fields_below};
ghost use Rattle.tv_framing.specs.Faults.{OfFault};
ghost use Rattle.tv_reader.specs.Spaces.{AreTheFields, HasFields, HasNoFields, HasNoUsage, IsInvalid, UsesFields};

use crate::faults::invalid;
use std::alloc::Global;
use tv_base::{FileSlice, IoError};
use tv_framing::{CompositeFile, PerFieldSpaceUsage};

/// What the fields of a body take, under these names. `InvalidData` comes exactly where it isn't a body
/// of fields, or a field has no name, or an index is above 65,535.
#[tactic(auto, using(crate::proofs::Spaces::have_addresses))]
pub(crate) fn fields_usage(
    alloc: Global,
    body: &FileSlice,
    names: &[String],
) -> Result<PerFieldSpaceUsage, IoError>
    ensures ok { IfOk result (UsesFields (map string_bytes names.now) body.now) }
    ensures err { IfErr result (OfFault IsInvalid) }
    ensures outside { IfErr result (OfFault (λ _.
        HasNoUsage (map string_bytes names.now) body.now)) }
{
    let fields = fields_of(alloc, body)?;
    if !are_named(&fields, names) {
        return Err(invalid(alloc, "A field of the composite file has no name."));
    }
    fields.space_usage(names)
}

// The fields of a body; an empty one has none.
fn fields_of(alloc: Global, body: &FileSlice) -> Result<CompositeFile, IoError>
    ensures ok { IfOk result (HasFields body.now) }
    ensures only { IfOk result (AreTheFields body.now) }
    ensures err { IfErr result (OfFault IsInvalid) }
    ensures outside { IfErr result (OfFault (λ _. HasNoFields body.now)) }
{
    if body.len() == 0 {
        return Ok(CompositeFile::empty(alloc));
    }
    CompositeFile::open(alloc, body)
}

// Whether each field has a name.
#[tactic(auto, using(crate::proofs::Spaces::all_named))]
fn are_named(fields: &CompositeFile, names: &[String]) -> bool
    requires { AllByRecursion IsAddress (addresses fields.now) }
    ensures { result ≡ fields_below (length names.now) fields.now }
{
    match u32::try_from(names.len()) {
        Ok(n) => fields.fields_below(n),
        Err(_) => true,
    }
}
