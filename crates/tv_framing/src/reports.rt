//! How much space the bodies of a composite file take.
ghost use Rattle.std.specs.Prelude.{◌≡◌, true, List, ℕ, IfOk, length, map, nat_le, nat_lt, string_bytes};
ghost use Rattle.std.specs.List.{list_all};
ghost use Rattle.tv_framing.specs.Places.{by_name};
ghost use Rattle.tv_framing.specs.Reports.{usages};
ghost use Rattle.tv_framing.specs.Starts.{Fill, parts_of, start_addresses};

use crate::per_field_usage::{NamedPart, PerFieldSpaceUsage};
use crate::ranges::end_of;
use crate::starts::Start;
use std::alloc::Global;
use tv_base::{ByteCount, Memory};

/// What the bodies take that begin there and fill everything up to the end, by the names of their
/// fields.
pub(crate) fn usage_by_name(
    alloc: Global,
    starts: &[Start],
    end: usize,
    names: &[String],
) -> Result<PerFieldSpaceUsage, Memory>
    requires fill { Fill starts.now end }
    requires below { list_all (λ addr. nat_lt addr.field (length names.now))
        (start_addresses starts.now) ≡ true }
    requires small { list_all (λ addr. nat_le addr.idx 65535)
        (start_addresses starts.now) ≡ true }
    ensures { (bytes : List ℕ) → length bytes ≡ end → IfOk result (λ usage.
        usage ≡ by_name (usages (map string_bytes names.now) (parts_of bytes starts.now))) }
{
    let mut parts = Vec::with_capacity(alloc, starts.len())?;
    for (i, start) in starts.iter().enumerate() {
        let part = NamedPart {
            name: names[start.addr.field.field_id() as usize].as_str(),
            idx: start.addr.idx as u16,
            size: ByteCount(end_of(starts, i, end) as u64 - start.offset),
        };
        parts.push(part)?;
    }
    PerFieldSpaceUsage::of_parts(alloc, parts)
}
