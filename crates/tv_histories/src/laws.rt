//! What users rely on.
ghost use Rattle.std.specs.Prelude.{◌≡◌, ◌<◌, ℕ, length, Some, IfErr, OnOk, slice_get};
ghost use Rattle.tv_histories.specs.Receipts.{Stands, DiffersAmong};

use crate::comparing::compare;
use crate::entry::{Entry, Receipt};
use crate::shared_error::SharedError;
use std::alloc::Global;

/// A receipt whose place, event or answer was changed, so that it isn't the entry at its place, is found
/// wherever it stands among others.
pub fn a_changed_receipt_is_found(
    alloc: Global,
    history: &[Entry],
    receipts: &[Receipt],
) -> Result<(), SharedError>
    requires some { 0 < length history.now }
    requires changed { (i : ℕ) × (r : _) × (slice_get receipts.now i ≡ Some r)
        × (Stands history.now r → ⊥) }
    ensures found { OnOk result ⊥ }
    ensures differs { IfErr result (DiffersAmong history.now receipts.now) }
{
    compare(alloc, history, receipts)
}
