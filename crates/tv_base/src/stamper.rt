//! Numbers of operations, drawn one after the other.
ghost use Rattle.std.specs.Prelude.{◌≡◌, ◌<◌, ◌+◌, ◌↔◌, IfOk, IsErr, OnErr, OnOk};

use crate::exhausted::Exhausted;
use std::marker::Model;
use std::ops::Range;
use tv_formats::Opstamp;

/// What gives each operation its number. To a contract it is the number that the next one gets.
#[derive(Drop)]
pub struct Stamper {
    next: Opstamp,
}

impl Model for Stamper {
    ghost use Rattle.std.specs.Prelude.{ℕ};

    ghost Value = { ℕ };

    ghost view = { λ a. a.next };
}

impl Stamper {
    /// The numbers from this one on. Takes no memory.
    pub fn new(first_opstamp: Opstamp) -> Stamper
        ensures next { result ≡ first_opstamp }
    {
        Stamper {
            next: first_opstamp,
        }
    }

    /// The number that is drawn next. Takes no memory.
    pub fn next(&self) -> Opstamp
        ensures next { result ≡ self.now }
    {
        self.next
    }

    /// Draws the next number. `u64::MAX` isn't drawn: there the numbers are spent, and nothing
    /// changes. Takes no memory.
    pub fn stamp(&mut self) -> Result<Opstamp, Exhausted>
        ensures stamp { IfOk result (λ stamp. stamp ≡ self.old) }
        ensures ok { OnOk result (self.new ≡ self.old + 1) }
        ensures err { OnErr result (self.new ≡ self.old) }
        ensures spent { IsErr result ↔ (self.old ≡ 18446744073709551615) }
    {
        if self.next == u64::MAX {
            return Err(Exhausted);
        }
        let stamp = self.next;
        self.next = stamp + 1;
        Ok(stamp)
    }

    /// Draws the next `n` numbers. Where the number after them would pass `u64::MAX`, too few are
    /// left, and nothing changes. Takes no memory.
    pub fn stamps(&mut self, n: u64) -> Result<Range<Opstamp>, Exhausted>
        ensures stamps { IfOk result
            (λ stamps. stamps ≡ record { start = self.old; end = self.old + n }) }
        ensures ok { OnOk result (self.new ≡ self.old + n) }
        ensures err { OnErr result (self.new ≡ self.old) }
        ensures spent { IsErr result ↔ 18446744073709551615 < self.old + n }
    {
        let start = self.next;
        let Some(end) = start.checked_add(n) else {
            return Err(Exhausted);
        };
        self.next = end;
        Ok(start..end)
    }

    /// Goes on from this number, whether it was drawn or not, and answers it. Takes no memory.
    pub fn revert(&mut self, to_opstamp: Opstamp) -> Opstamp
        ensures answer { result ≡ to_opstamp }
        ensures next { self.new ≡ to_opstamp }
    {
        self.next = to_opstamp;
        to_opstamp
    }
}
