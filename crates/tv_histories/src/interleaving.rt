//! The scripts of several callers, found in one history.
ghost use Rattle.std.specs.Prelude.{◌≡◌, ◌+◌, length, map, true, IfOk, IfErr, OnOk};
ghost use Rattle.tv_histories.specs.Histories.{has_reader};
ghost use Rattle.tv_histories.specs.Races.{Follows, IsMergedFrom, IsRace, IsUneven};
ghost use Rattle.tv_histories.specs.Receipts.{AllStand};

use crate::entry::{Entry, Receipt};
use crate::merged::{Merged, merge};
use crate::shared_error::SharedError;
use std::alloc::Global;
use std::collections::VecDeque;
use tv_events::Event;
use tv_formats::Memory;

/// Merges the receipts that the callers of these scripts were given, as `merge` does.
pub fn merge_of(
    alloc: Global,
    scripts: &[Vec<Event>],
    lists: Vec<VecDeque<Receipt>>,
) -> Result<Merged, Memory>
    requires { Follows (λ s. s.items) (λ l. l.items) scripts.now lists.items }
    ensures { IfOk result (λ merged. IsMergedFrom (map (λ s. s.items) scripts.now)
        merged.callers.items merged.receipts.items) }
{
    let _scripts = scripts;
    merge(alloc, lists)
}

/// Whether the receipts of these scripts, which all stand in the history, are all of its entries but the
/// first, which makes a reader. Then it is an interleaving of the scripts. Takes no memory.
#[tactic(auto, using(crate::proofs::Counted::counted))]
pub fn is_interleaving(
    scripts: &[Vec<Event>],
    history: &[Entry],
    merged: &Merged,
) -> Result<(), SharedError>
    requires merged { IsMergedFrom (map (λ s. s.items) scripts.now)
        merged.now.callers.items merged.now.receipts.items }
    requires stand { AllStand history.now merged.now.receipts.items }
    requires reads { has_reader history.now ≡ true }
    ensures race { OnOk result (IsRace (map (λ s. s.items) scripts.now) history.now) }
    ensures uneven { IfErr result (IsUneven (map (λ s. s.items) scripts.now) history.now) }
{
    let _scripts = scripts;
    let receipts = merged.receipts.len();
    let entries = history.len() - 1;
    if entries == receipts {
        return Ok(());
    }
    Err(SharedError::Uneven {
        receipts: receipts as u64,
        entries: entries as u64,
    })
}
