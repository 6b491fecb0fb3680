//! The receipts of several callers, merged into one list.
ghost use Rattle.std.specs.Prelude.{◌≡◌, ◌⊎◌, ◌<◌, ℕ, [], ◌∷◌, length, None, Some, IfOk, IfSome, IfNone, IsSome, slice_get};
ghost use Rattle.tv_histories.specs.Receipts.{entry_of};
ghost use Rattle.tv_histories.specs.Merging.{IsMerged};

use crate::entry::Receipt;
use std::alloc::Global;
use std::collections::VecDeque;
use tv_formats::Memory;

/// Receipts of several callers, and beside each whose it is.
#[derive(Drop)]
pub struct Merged {
    pub callers: Vec<usize>,
    pub receipts: Vec<Receipt>,
}

// The place of the first receipt.
fn first_place(list: &VecDeque<Receipt>) -> Option<u64>
    ensures none { IfNone result (list.now.items ≡ []) }
    ensures some { IfSome result (λ _. 0 < length list.now.items) }
{
    match list.front() {
        Some(receipt) => Some(receipt.place),
        None => None,
    }
}

// The one of two with the less place.
fn lesser(least: Option<(usize, u64)>, caller: usize, place: Option<u64>) -> Option<(usize, u64)>
    ensures none { IfNone result ((least ≡ None) × (place ≡ None)) }
    ensures some { IfSome result (λ p. (least ≡ Some p) ⊎ ((p.0 ≡ caller) × IsSome place)) }
{
    let Some(place) = place else {
        return least;
    };
    match least {
        Some((other, before)) if before <= place => Some((other, before)),
        _ => Some((caller, place)),
    }
}

// The caller whose next receipt has the least place, if any has one.
fn next_caller(lists: &[VecDeque<Receipt>]) -> Option<usize>
    ensures some { IfSome result (λ k. (l : _) × (slice_get lists.now k ≡ Some l)
        × (0 < length l.items)) }
    ensures none { IfNone result ((k : ℕ) (l : _) → slice_get lists.now k ≡ Some l
        → l.items ≡ []) }
{
    let mut least: Option<(usize, u64)> = None;
    for caller in 0..lists.len() {
        least = lesser(least, caller, first_place(&lists[caller]));
    }
    match least {
        None => None,
        Some((caller, _)) => Some(caller),
    }
}

// Takes the first receipt, and numbers it.
fn take_first(list: &mut VecDeque<Receipt>, place: u64) -> Receipt
    requires { 0 < length list.old.items }
    ensures first { (r : Receipt) × (list.old.items ≡ r ∷ list.new.items)
        × (entry_of result ≡ entry_of r) }
    ensures place { result.place ≡ place }
{
    let receipt = list.pop_front().unwrap();
    Receipt {
        place,
        event: receipt.event,
        answer: receipt.answer,
    }
}

/// Merges the lists by the places of their receipts, and numbers these from 1. Each caller's events and
/// answers stand in its order, whatever the places were.
pub fn merge(alloc: Global, mut lists: Vec<VecDeque<Receipt>>) -> Result<Merged, Memory>
    ensures { IfOk result (λ merged. IsMerged (λ l. l.items) lists.items
        merged.callers.items merged.receipts.items) }
{
    let mut callers = Vec::new(alloc);
    let mut receipts = Vec::new(alloc);
    for place in 1..u64::MAX {
        let caller = match next_caller(lists.as_slice()) {
            None => {
                return Ok(Merged { callers, receipts });
            }
            Some(caller) => caller,
        };
        callers.reserve(1)?;
        receipts.reserve(1)?;
        let receipt = take_first(&mut lists[caller], place);
        callers.push_reserved(caller);
        receipts.push_reserved(receipt);
    }
    Err(Memory)
}
