//! Further shares of several segments, of which all are taken or none.
ghost use Rattle.std.specs.Prelude.{◌≡◌, [], ◌∷◌, ◌++◌, ℕ, List, IfErr, IfOk, OnOk, Some, map};
ghost use Rattle.tv_base.specs.Entries.{released};
ghost use Rattle.tv_metas.specs.Tracked.{KeptMetas};
ghost use Rattle.tv_registers.specs.Sharing.{ShareCause, SharesEach, Undoes, shared};

use crate::segment_entry::SegmentEntry;
use std::alloc::Global;
use tv_base::{Exhausted, TantivyError};
use tv_metas::{SegmentMeta, SegmentMetaInventory};

/// One more share of a segment.
pub(crate) fn share_meta(
    meta: &SegmentMeta,
    inventory: &mut SegmentMetaInventory,
) -> Result<SegmentMeta, TantivyError>
    ensures meta { IfOk result (λ share. share ≡ meta.now) }
    ensures shares { SharesEach (meta.now.0 ∷ []) inventory.old inventory.new result }
{
    match inventory.share(meta) {
        Ok(share) => Ok(share),
        Err(Exhausted) => Err(TantivyError::Exhausted),
    }
}

/// What has one share of a segment.
pub(crate) trait Counted: Drop {
    /// The number of its share.
    ghost ticket: { Self → ℕ };

    /// An equal value, with one more share.
    fn share_one(&self, inventory: &mut SegmentMetaInventory) -> Result<Self, TantivyError>
        ensures same { IfOk result (λ other. other ≡ self.now) }
        ensures shares { SharesEach (ticket self.now ∷ []) inventory.old inventory.new result };

    /// Gives its share back.
    fn release_one(self, inventory: &mut SegmentMetaInventory)
        ensures released { inventory.new ≡ released (ticket self) inventory.old };
}

impl Counted for SegmentMeta {
    ghost ticket = { λ meta. meta.0 };

    fn share_one(&self, inventory: &mut SegmentMetaInventory) -> Result<Self, TantivyError> {
        share_meta(self, inventory)
    }

    fn release_one(self, inventory: &mut SegmentMetaInventory) {
        inventory.release(self);
    }
}

impl Counted for SegmentEntry {
    ghost ticket = { λ entry. entry.meta.0 };

    fn share_one(&self, inventory: &mut SegmentMetaInventory) -> Result<Self, TantivyError> {
        self.share(inventory)
    }

    fn release_one(self, inventory: &mut SegmentMetaInventory) {
        self.release(inventory);
    }
}

/// A further share of each of these, in their order. Where one can't be taken, none is.
pub(crate) fn share_each<T: Counted>(
    alloc: Global,
    chosen: &[&T],
    inventory: &mut SegmentMetaInventory,
) -> Result<Vec<T>, TantivyError>
    ensures same { IfOk result (λ shares. shares.items ≡ map (λ c. c.now) chosen.now) }
    ensures shares { SharesEach (map T.ticket (map (λ c. c.now) chosen.now))
        inventory.old inventory.new result }
{
    let mut shares = Vec::new(alloc);
    match push_shares(chosen, inventory, &mut shares) {
        Ok(()) => Ok(shares),
        Err(error) => {
            release_each(shares, inventory);
            Err(error)
        }
    }
}

// Takes further shares as long as it can.
fn push_shares<T: Counted>(
    chosen: &[&T],
    inventory: &mut SegmentMetaInventory,
    shares: &mut Vec<T>,
) -> Result<(), TantivyError>
    requires empty { shares.old.items ≡ [] }
    ensures same { OnOk result (shares.new.items ≡ map (λ c. c.now) chosen.now) }
    ensures shares { OnOk result (shared (map T.ticket (map (λ c. c.now) chosen.now))
        inventory.old ≡ Some inventory.new) }
    ensures undoes { Undoes (map T.ticket shares.new.items) inventory.old inventory.new }
    ensures cause { IfErr result
        (ShareCause (map T.ticket (map (λ c. c.now) chosen.now)) inventory.old) }
{
    for value in chosen {
        let share = value.share_one(inventory)?;
        if let Err(refused) = shares.push(share) {
            refused.value.release_one(inventory);
            return Err(TantivyError::Memory);
        }
    }
    Ok(())
}

/// Gives shares back, the last one first.
pub(crate) fn release_each<T: Counted>(shares: Vec<T>, inventory: &mut SegmentMetaInventory)
    ensures { (before : KeptMetas) → Undoes (map T.ticket shares.items) before inventory.old
        → inventory.new ≡ before }
{
    let mut shares = shares;
    while let Some(share) = shares.pop() {
        share.release_one(inventory);
    }
}
