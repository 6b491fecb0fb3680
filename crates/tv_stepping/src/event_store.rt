//! A store of which one event after the other is applied.
ghost use Rattle.std.specs.Prelude.{◌≡◌, ℕ, IfErr, IfOk, option_map};
ghost use Rattle.tv_base.specs.declared.error.TantivyError.{TantivyError};
ghost use Rattle.tv_events.specs.declared.event.Event.{Event};
ghost use Rattle.tv_formats.specs.Files.{Heard};
ghost use Rattle.tv_machine.specs.State.{State, reader_at};
ghost use Rattle.tv_stepping.specs.Steps.{Counts, Steps, StandsAfter, TellsAnswer};
ghost use Rattle.tv_stepping.specs.declared.ending.Ending.{Ending as Standing};

use crate::ending::Ending;
use tv_base::TantivyError;
use tv_events::{Answer, Event};
use tv_formats::Memory;
use tv_snapshots::snapshot::Snapshot;

/// A store of which one event after the other is applied, each with the step of the machine and its line.
pub trait EventStore {
    /// Whether it is told which states it holds.
    ghost told: { Type 0 };

    /// Whether it is told what was heard.
    ghost tells: { Type 0 };

    /// The states that it may be taken for.
    ghost holds: { Self → State → Type 0 };

    /// The lines that were told, and pieces of lines.
    ghost heard: { Self → Heard };

    /// How it stands.
    ghost stands: { Self → Standing };

    /// Why an event may be refused: what the store was before and is then, the event, and the error.
    ghost refused: { Self → Self → Event → TantivyError → Type 0 };

    /// How many calls its outside had refused when it was opened.
    ghost since: { Self → ℕ };

    /// How many calls its outside has refused by now.
    ghost faults: { Self → ℕ };

    /// It was opened from a sound start that is told.
    ghost sound: { Self → Type 0 };

    /// With this event a number of it would pass `u64::MAX`.
    ghost spent: { Self → Event → Type 0 };

    /// Makes one step of the machine, and tells its line. After an error it isn't open.
    fn apply(&mut self, event: &Event) -> Result<Answer, TantivyError>
        requires { stands self.old ≡ Ending.Open }
        ensures step { IfOk result (Steps told holds self.old self.new event.now) }
        ensures tells { tells → TellsAnswer (heard self.old) (heard self.new) result }
        ensures ending { StandsAfter (stands self.new) result }
        ensures cause { IfErr result (refused self.old self.new event.now) }
        ensures counts { Counts since faults sound spent self.old self.new event.now result };

    /// One more share of what its first reader shows, where there is one.
    fn shown_first(&self) -> Result<Option<Snapshot>, Memory>
        ensures { IfOk result (λ shown. told → (s : State) → holds self.now s
            → shown ≡ option_map (λ reader. reader.shown) (reader_at s.catalog 0)) };

    /// How it stands. Takes no memory.
    fn ending(&self) -> Ending
        ensures { result ≡ stands self.now };
}
