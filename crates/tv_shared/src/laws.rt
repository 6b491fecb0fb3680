//! What users rely on.
ghost use Rattle.std.specs.Prelude.{◌≡◌, ◌+◌, ◌⊎◌, [], ◌∷◌, ◌++◌, false, length, List, Err, IfOk, IsErr};
ghost use Rattle.tv_formats.specs.Files.{Rose};
ghost use Rattle.tv_histories.specs.Histories.{answers_in, events_in};
ghost use Rattle.tv_histories.specs.Receipts.{Stands, entry};
ghost use Rattle.tv_histories.specs.Shown.{shown};
ghost use Rattle.tv_machine.specs.Lines.{opening_line};
ghost use Rattle.tv_machine.specs.Machine.{Turn, events_of};
ghost use Rattle.tv_machine.specs.State.{State};
ghost use Rattle.tv_publishing.specs.Lists.{IsPrefix};
ghost use Rattle.tv_shared.specs.Hearing.{Hears};

use crate::locked::Locked;
use crate::opening::Opening;
use std::sync::Wait;
use tv_events::Event;
use tv_histories::{Receipt, SharedError};
use tv_stepping::{Ending, EventStore};

/// A receipt is the entry at its place, and its event is the one that was handed in.
#[tactic(auto, using(crate::proofs::Promises::stands_there))]
pub fn a_receipt_is_the_entry_at_its_place<S: EventStore, N: Opening, R: Wait>(
    rt: &R,
    locked: &mut Locked<S, N>,
    event: &Event,
) -> Result<Receipt, SharedError>
    ensures stands { IfOk result (λ receipt. Stands locked.new.history receipt) }
    ensures same { IfOk result (λ receipt. receipt.event ≡ event.now) }
{
    locked.apply(rt, event)
}

/// Events stand in the history in the order of the calls, each once.
#[tactic(auto, using(crate::proofs::Promises::in_order))]
pub fn events_stand_in_the_order_of_calls<S: EventStore, N: Opening, R: Wait>(
    rt: &R,
    locked: &mut Locked<S, N>,
    a: &Event,
    b: &Event,
) -> Result<(Receipt, Receipt), SharedError>
    ensures history { IfOk result (λ both. locked.new.history ≡ locked.old.history
        ++ entry a.now both.0.answer ∷ entry b.now both.1.answer ∷ []) }
    ensures places { IfOk result (λ both. (both.0.place ≡ length locked.old.history)
        × (both.1.place ≡ length locked.old.history + 1)) }
{
    let first = locked.apply(rt, a)?;
    let second = locked.apply(rt, b)?;
    Ok((first, second))
}

/// After an error the next answer is `Ended`, with the number of entries.
#[tactic(auto, using(crate::proofs::Promises::ended_then))]
pub fn after_an_error_each_answer_is_ended<S: EventStore, N: Opening, R: Wait>(
    rt: &R,
    locked: &mut Locked<S, N>,
    a: &Event,
    b: &Event,
) -> (Result<Receipt, SharedError>, Result<Receipt, SharedError>)
    ensures { IsErr result.0
        → result.1 ≡ Err (SharedError.Ended (length locked.new.history)) }
{
    let first = locked.apply(rt, a);
    let second = locked.apply(rt, b);
    (first, second)
}

/// Whatever is answered, an event whose line was told is in the history: what was heard ends in the opening
/// line and the history's answers.
pub fn a_told_line_is_kept<S: EventStore, N: Opening, R: Wait>(
    rt: &R,
    locked: &mut Locked<S, N>,
    event: &Event,
) -> Result<Receipt, SharedError>
    ensures { S.told → S.tells → (s : State) → N.start s
        → Hears (S.stands locked.new.store ≡ Ending.Open) (S.heard locked.new.store)
        (opening_line s ∷ answers_in locked.new.history) }
{
    let answered = locked.apply(rt, event);
    locked.know();
    answered
}

/// What was published is what the first reader shows along the history, all of it until an event fails, and
/// a first part of it afterwards.
pub fn what_is_published_is_what_the_first_reader_shows<S: EventStore, N: Opening>(
    locked: &Locked<S, N>,
)
    ensures { (turns : List Turn) × (events_of turns ≡ events_in locked.now.history)
        × (S.told → (s : State) → N.start s → IsPrefix locked.now.published (shown s turns)
        × (locked.now.has_ended ≡ false → locked.now.published ≡ shown s turns)) }
{
    locked.know();
}

/// A store from a sound start says that it failed only where a call was refused since its opening, or where
/// with an event a number would have passed `u64::MAX`. While it is open none was refused since.
pub fn a_failure_has_a_cause<S: EventStore, N: Opening>(locked: &Locked<S, N>)
    ensures quiet { S.stands locked.now.store ≡ Ending.Open
        → S.faults locked.now.store ≡ N.faults }
    ensures cause { N.sound → S.stands locked.now.store ≡ Ending.Failed
        → Rose N.faults (S.faults locked.now.store)
        ⊎ ((before : _) × (event : _) × S.spent before event) }
{
    locked.know();
}
