//! Entries of a history, and receipts.
ghost use Rattle.std.specs.Prelude.{◌≡◌, IfOk};

use crate::copying::{share_answer, share_event};
use std::alloc::Global;
use tv_events::{Answer, Event};
use tv_formats::Memory;

/// An event that was applied, and its answer.
#[derive(Drop)]
pub struct Entry {
    pub event: Event,
    pub answer: Answer,
}

impl Entry {
    /// A copy of it.
    pub fn share(&self, alloc: Global) -> Result<Entry, Memory>
        ensures { IfOk result (λ copy. copy ≡ self.now) }
    {
        Ok(Entry {
            event: share_event(alloc, &self.event)?,
            answer: share_answer(alloc, &self.answer)?,
        })
    }
}

/// What a caller is given: at which place of the history its event stands, counted from 0, the event, and
/// its answer.
#[derive(Drop)]
pub struct Receipt {
    pub place: u64,
    pub event: Event,
    pub answer: Answer,
}

impl Receipt {
    /// A copy of it.
    pub fn share(&self, alloc: Global) -> Result<Receipt, Memory>
        ensures { IfOk result (λ copy. copy ≡ self.now) }
    {
        Ok(Receipt {
            place: self.place,
            event: share_event(alloc, &self.event)?,
            answer: share_answer(alloc, &self.answer)?,
        })
    }
}
