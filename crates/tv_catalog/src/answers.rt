//! Answers that refuse an event.
ghost use Rattle.std.specs.Prelude.{◌≡◌, [], ◌∷◌, true, codes, IfOk};
ghost use Rattle.tv_events.specs.AnswerLines.{line};
ghost use Rattle.tv_formats.specs.Files.{has_no_feed};

use std::alloc::Global;
use tv_formats::Memory;
use tv_machine::Answer;

/// The answer to an event that changes nothing.
pub fn refused(alloc: Global, word: &str) -> Result<Answer, Memory>
    requires { has_no_feed word.now ≡ true }
    ensures { IfOk result (λ answer. answer ≡ line (codes "refused") (word.now ∷ [])) }
{
    Answer::new(alloc, "refused")?.word(word.as_bytes())
}
