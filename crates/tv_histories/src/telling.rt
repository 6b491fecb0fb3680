//! What an answer tells of publications.
ghost use Rattle.std.specs.Prelude.{◌≡◌};
ghost use Rattle.tv_histories.specs.Shown.{publishes};

use tv_events::Answer;

/// Whether an answer tells that the first reader shows something else: it was made or reloaded, or a notice
/// to it was served. Takes no memory.
#[tactic(auto, unfolding(crate::specs::Shown::publishes))]
pub fn publishes(answer: &Answer) -> bool
    ensures { result ≡ publishes answer.now }
{
    let line = answer.as_slice();
    line.starts_with(b"reader 0 ")
        || line.starts_with(b"published 0 ")
        || line.starts_with(b"delivered 0")
}
