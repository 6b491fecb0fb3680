//! What stands under the lock, once the first reader is made.
ghost use Rattle.std.specs.Prelude.{◌≡◌, [], false, length, IfOk, IfErr};
ghost use Rattle.tv_histories.specs.Histories.{has_reader};
ghost use Rattle.tv_shared.specs.Begins.{AreFresh, first_event};
ghost use Rattle.tv_shared.specs.Moves.{Advances, IsNotApplied};

use crate::locked::Locked;
use crate::opening::Opening;
use std::alloc::Global;
use std::marker::Model;
use std::sync::Wait;
use tv_events::{Event, ReloadPolicy};
use tv_formats::Memory;
use tv_histories::{Receipt, SharedError};
use tv_publishing::ReadHandle;
use tv_stepping::EventStore;

/// What stands under the lock, once the first reader is made, which handles follow. It isn't `Drop`.
pub struct Begun<S: EventStore, N: Opening> {
    pub(crate) locked: Locked<S, N>,
}

impl<S: EventStore, N: Opening> Model for Begun<S, N> {
    ghost use Rattle.std.specs.Prelude.{◌≡◌, true};
    ghost use Rattle.tv_histories.specs.Histories.{has_reader};
    ghost use Rattle.tv_shared.specs.Logs.{Log};

    ghost Value = { Log S };

    ghost view = { λ b. b.locked };

    ghost invariant = { λ b. has_reader b.locked.history ≡ true };
}

#[tactic(auto, using(crate::proofs::Keeping::reads_on))]
impl<S: EventStore, N: Opening> Begun<S, N> {
    /// Makes the reader, as the first event. It comes back where that failed.
    pub fn start<R: Wait>(
        rt: &R,
        mut locked: Locked<S, N>,
    ) -> Result<Begun<S, N>, (Locked<S, N>, SharedError)>
        requires new { (locked.history ≡ []) × (locked.has_ended ≡ false) }
        ensures one { IfOk result (λ begun. length begun.history ≡ 1) }
        ensures err { IfErr result (λ both.
            IsNotApplied S.EventStore locked both.0 first_event both.1) }
    {
        match locked.apply(rt, &Event::Reader(ReloadPolicy::Manual)) {
            Ok(_) => Ok(Begun { locked }),
            Err(error) => Err((locked, error)),
        }
    }

    /// As `Locked::apply`.
    pub fn apply<R: Wait>(&mut self, rt: &R, event: &Event) -> Result<Receipt, SharedError>
        ensures ok { IfOk result (Advances S.EventStore self.old self.new event.now) }
        ensures err { IfErr result (IsNotApplied S.EventStore self.old self.new event.now) }
    {
        self.locked.apply(rt, event)
    }

    /// How many snapshots were published. Takes no memory.
    pub fn published(&self) -> u64
        ensures { result ≡ length self.now.published }
    {
        self.locked.publisher.published()
    }

    /// So many handles, which have read nothing yet.
    pub fn handles(&self, alloc: Global, count: usize) -> Result<Vec<ReadHandle>, Memory>
        ensures { IfOk result (λ list. AreFresh count list.items) }
    {
        let mut list = Vec::new(alloc);
        for _ in 0..count {
            list.push(self.locked.publisher.handle()?)?;
        }
        Ok(list)
    }
}
