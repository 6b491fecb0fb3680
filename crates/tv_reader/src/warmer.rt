//! What is made ready for each new searcher.
ghost use Rattle.std.specs.Prelude.{◌≡◌};
ghost use Rattle.std.specs.Duration.{as_nanos};

use crate::generation::SearcherGeneration;
use crate::searcher::Searcher;
use std::time::Duration;
use tv_base::TantivyError;

/// How long a caller waits between two calls of `gc_maybe`: one second.
pub fn gc_interval() -> Duration
    ensures second { as_nanos result ≡ 1_000_000_000 }
{
    Duration::from_secs(1)
}

/// Makes something ready for each new searcher, before it is shown.
pub trait Warmer: Drop {
    ghost use Rattle.std.specs.Prelude.{◌≡◌, ℕ, Bool, List, Option, IfErr, IsTrue, OnOk};
    ghost use Rattle.tv_base.specs.declared.error.TantivyError.{TantivyError};
    ghost use Rattle.tv_formats.specs.Files.{Rose};
    ghost use Rattle.tv_reader.specs.Warming.{Warmed, WarmerCall, WasTold, one_more_call};

    /// How often `warm` answered an error, as far as 64 bits count.
    ghost errors: { Self → ℕ };

    /// Which errors it answers.
    ghost test: { Self → TantivyError → Bool };

    /// What it was called for so far, in order, where it keeps that.
    ghost called_for: { Self → Option (List WarmerCall) };

    /// Makes ready what the searcher shows.
    fn warm(&mut self, searcher: &Searcher) -> Result<(), TantivyError>
        ensures called { called_for self.new ≡ one_more_call (Warmed searcher.now.shown) (called_for self.old) }
        ensures quiet { OnOk result (errors self.new ≡ errors self.old) }
        ensures cause { IfErr result (λ e. Rose (errors self.old) (errors self.new)
            × IsTrue (test self.new e)) }
        ensures same { (e : TantivyError) → test self.new e ≡ test self.old e };

    /// Drops what no generation needs but these, which are still shown.
    fn garbage_collect(&mut self, live: &[SearcherGeneration])
        ensures called { called_for self.new ≡ one_more_call (WasTold live.now) (called_for self.old) }
        ensures quiet { errors self.new ≡ errors self.old }
        ensures same { (e : TantivyError) → test self.new e ≡ test self.old e };
}

impl Warmer for Box<dyn Warmer + Send + Drop> {
    ghost errors = { λ b. (Warmer-box b).errors b.value };

    ghost test = { λ b. (Warmer-box b).test b.value };

    ghost called_for = { λ b. (Warmer-box b).called_for b.value };

    fn warm(&mut self, searcher: &Searcher) -> Result<(), TantivyError> {
        (**self).warm(searcher)
    }

    fn garbage_collect(&mut self, live: &[SearcherGeneration]) {
        (**self).garbage_collect(live);
    }
}
