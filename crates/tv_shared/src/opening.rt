//! With what a store was opened.
ghost use Rattle.std.specs.Prelude.{ℕ};
ghost use Rattle.tv_machine.specs.State.{State};

use std::marker::Brand;

/// With what a store was opened that is shared. Contracts alone see it.
pub trait Opening {
    /// The states that it could be taken for.
    ghost start: { State → Type 0 };

    /// How many calls its outside had refused.
    ghost faults: { ℕ };

    /// It was a sound start that is told.
    ghost sound: { Type 0 };
}

/// The name of a call that picks the members itself, as `race_gated` does. Where nobody picks them it names no
/// state: what is shared under it promises nothing of states.
impl Opening for Brand {
    ghost start = { λ s. ⊥ };

    ghost faults = { 0 };

    ghost sound = { ⊥ };
}
