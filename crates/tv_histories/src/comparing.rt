//! Receipts, looked up in a history.
ghost use Rattle.std.specs.Prelude.{◌≡◌, ◌<◌, ◌↔◌, length, IfErr, OnOk, IsTrue};
ghost use Rattle.tv_histories.specs.Receipts.{Stands, AllStand, DiffersFrom, DiffersAmong};

use crate::entry::{Entry, Receipt};
use crate::marks::{same_answer, same_event};
use crate::shared_error::SharedError;
use std::alloc::Global;
use tv_formats::Memory;

// Whether the receipt is the entry at its place.
fn stands(history: &[Entry], receipt: &Receipt) -> bool
    ensures { IsTrue result ↔ Stands history.now receipt.now }
{
    match history.get(receipt.place as usize) {
        Some(kept) => {
            same_event(&kept.event, &receipt.event) && same_answer(&kept.answer, &receipt.answer)
        }
        None => false,
    }
}

// The receipt, and the entry at its place, or the last one where there is no such place.
fn differing(alloc: Global, history: &[Entry], receipt: &Receipt) -> SharedError
    requires some { 0 < length history.now }
    requires differs { Stands history.now receipt.now → ⊥ }
    ensures { DiffersFrom history.now receipt.now result }
{
    let last = &history[history.len() - 1];
    let kept = history.get(receipt.place as usize).unwrap_or(last);
    match (receipt.share(alloc), kept.share(alloc)) {
        (Ok(receipt), Ok(kept)) => SharedError::Differs { receipt, kept },
        _ => SharedError::from(Memory),
    }
}

/// Looks for each receipt at its place of the history. One that isn't the entry there is an error.
#[tactic(auto, using(crate::proofs::Standing::below_suc, crate::proofs::Standing::all_below))]
pub fn compare(alloc: Global, history: &[Entry], receipts: &[Receipt]) -> Result<(), SharedError>
    requires { 0 < length history.now }
    ensures stand { OnOk result (AllStand history.now receipts.now) }
    ensures differs { IfErr result (DiffersAmong history.now receipts.now) }
{
    for receipt in receipts {
        if !stands(history, receipt) {
            return Err(differing(alloc, history, receipt));
        }
    }
    Ok(())
}
