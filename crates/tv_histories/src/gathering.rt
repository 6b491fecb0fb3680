//! What the callers of several scripts were given.
ghost use Rattle.std.specs.Prelude.{◌≡◌, ◌<◌, ℕ, length, map, IfOk, IfErr, slice_index_or};
ghost use Rattle.tv_histories.specs.Races.{AreAll, Follows, IsOfStore, fault_of, fault_or_memory, first_fault, first_of};

use crate::entry::Receipt;
use crate::shared_error::SharedError;
use std::alloc::Global;
use std::collections::VecDeque;
use tv_base::TantivyError;
use tv_events::Event;
use tv_formats::Memory;

// What the store was refused, where that is the error.
#[tactic(auto, unfolding(crate::specs::Races::fault_of))]
fn fault_of(error: SharedError) -> Option<TantivyError>
    ensures { result ≡ fault_of error }
{
    match error {
        SharedError::Store(TantivyError::Memory) => None,
        SharedError::Store(error) => Some(error),
        _ => None,
    }
}

// The first of two faults, of which the second is that of an error.
fn first_of(fault: Option<TantivyError>, error: SharedError) -> Option<TantivyError>
    ensures { result ≡ first_of fault (fault_of error) }
{
    match fault {
        Some(error) => Some(error),
        None => fault_of(error),
    }
}

// This fault, or else that memory was wanting.
fn fault_or_memory(fault: Option<TantivyError>) -> SharedError
    ensures { result ≡ fault_or_memory fault }
{
    match fault {
        Some(error) => SharedError::Store(error),
        None => SharedError::from(Memory),
    }
}

// The lists of all answers, or the first fault among them.
#[tactic(auto, using(crate::proofs::Races::first_assoc, crate::proofs::Races::first_none))]
fn all_or_fault(
    alloc: Global,
    answers: Vec<Result<VecDeque<Receipt>, SharedError>>,
) -> Result<Vec<VecDeque<Receipt>>, SharedError>
    ensures all { IfOk result (λ lists. AreAll answers.items lists.items) }
    ensures fault { IfErr result (λ error. error ≡ first_fault answers.items) }
{
    let mut lists = Vec::new(alloc);
    let mut fault: Option<TantivyError> = None;
    let mut has_failed = false;
    for answer in answers {
        match answer {
            Ok(list) => {
                has_failed = lists.push(list).is_err() || has_failed;
            }
            Err(error) => {
                has_failed = true;
                fault = first_of(fault, error);
            }
        }
    }
    if has_failed {
        return Err(fault_or_memory(fault));
    }
    Ok(lists)
}

/// The receipts of each caller, in the order of the scripts. Where one was refused, the error is the first
/// that isn't want of memory, or else want of memory.
pub fn gather(
    alloc: Global,
    scripts: &[Vec<Event>],
    answers: Vec<Result<VecDeque<Receipt>, SharedError>>,
) -> Result<Vec<VecDeque<Receipt>>, SharedError>
    requires count { length answers.items ≡ length scripts.now }
    requires each { (i : ℕ) (d e : _) → i < length scripts.now
        → IfOk (slice_index_or answers.items i d) (λ receipts.
        map (λ r. r.event) receipts.items ≡ (slice_index_or scripts.now i e).items) }
    ensures lists { IfOk result (λ lists.
        Follows (λ s. s.items) (λ l. l.items) scripts.now lists.items) }
    ensures fault { IfErr result (λ error. error ≡ first_fault answers.items) }
    ensures store { IfErr result IsOfStore }
{
    let _scripts = scripts;
    all_or_fault(alloc, answers)
}
