//! Laws of what a crash leaves. Each function does nothing: its contract is the law.
ghost use Rattle.std.specs.Prelude.{◌≡◌, ◌+◌, ◌≤◌, ◌∷◌, ◌++◌, length};
ghost use Rattle.std.specs.Prelude.{List, [], true, ℕ};
ghost use Rattle.tv_formats.specs.Commits.{IndexForm};
ghost use Rattle.tv_formats.specs.Disk.{MayLeave, Throughout, Within, possible_now};
ghost use Rattle.tv_formats.specs.Files.{Heard, Reads, has_no_feed};
ghost use Rattle.tv_formats.specs.Listed.{ListsItsFiles};
ghost use Rattle.tv_formats.specs.Names.{meta_name};
ghost use Rattle.tv_formats.specs.Sound.{IsSoundImage};
ghost use Rattle.tv_crashes.specs.Runs.{DoesSafely, HasDone, HearsNoLine, OnlyTellsLine};
ghost use Rattle.tv_crashes.specs.Runs.{OpensUntold, OpensWhole, ReplaySurvives, RunsSafely};
ghost use Rattle.tv_crashes.specs.Runs.{RunsWhole, Seen, Survives};
ghost use Rattle.tv_crashes.specs.Stored.{IsFromStart, IsSafe, ShowsEither, ShowsWhole};
ghost use Rattle.tv_crashes.specs.Stored.{Stored, stored_of};
ghost use Rattle.tv_crashes.specs.Told.{count_told_by, whole_lines};
ghost use Rattle.tv_machine.specs.Machine.{Turn, after, step};
ghost use Rattle.tv_machine.specs.SoundStates.{IsSoundState};
ghost use Rattle.tv_machine.specs.State.{State};

/// A directory of which it is seen what a crash may leave of it, and what it heard.
pub trait Observed {
    /// Its disk, and what it heard.
    ghost seen: { Self → Seen };
}

/// A piece that was told without a line feed is no whole line, and a line with its line feed is
/// one. By no moment more whole lines were told than were told at all.
pub fn whole_lines_are_counted()
    ensures part { (moment : ℕ) (part : List ℕ) → has_no_feed part ≡ true
        → whole_lines ((moment, part) ∷ []) ≡ [] }
    ensures line { (moment : ℕ) (line : List ℕ)
        → whole_lines ((moment, line ++ 10 ∷ []) ∷ []) ≡ (line ++ 10 ∷ []) ∷ [] }
    ensures no_more { (moment : ℕ) (heard : Heard)
        → count_told_by moment heard ≤ length (whole_lines heard) }
{}

/// Whatever image a crash leaves of a disk on which one of two commits is stored, it shows one of
/// them whole: `meta.json` means it, and each file that it requires has exactly its bytes. Each
/// undotted file of the image is listed. Where that commit is the one of a sound state, such an
/// image is sound, so that an index opens from it again.
pub fn images_show_a_stored_commit<D: Observed>(directory: &D)
    ensures shows { (before after : Stored) (moment : ℕ) (image : Reads)
        → IsSafe before after ((D.Observed.seen directory.now).disk.possible moment)
        → MayLeave (D.Observed.seen directory.now).disk moment image
        → ShowsEither image before after }
    ensures sound { (form : IndexForm) (s : State) (image : Reads) → IsSoundState s
        → ShowsWhole image (stored_of form s) → ListsItsFiles image
        → IsSoundImage form.schema image }
{}

/// Of a run in which at each moment what the told events leave, or one event more, is stored: a
/// crash at whatever moment leaves the commit of the events whose lines are told, or that of the
/// event in progress, whole, with every undotted file listed. Of such a run a commit whose line was
/// told is never lost: once all answers are told, each image shows whole what the state after the
/// run stores.
pub fn runs_survive_crashes<D: Observed>(old: &D, new: &D)
    ensures survives { (form : IndexForm) (s : State) (turns : List Turn)
        → RunsSafely form (D.Observed.seen old.now) (D.Observed.seen new.now) s turns
        → Survives form (D.Observed.seen old.now) (D.Observed.seen new.now) s turns }
    ensures not_lost { (form : IndexForm) (s : State) (turns : List Turn)
        (run : Survives form (D.Observed.seen old.now) (D.Observed.seen new.now) s turns)
        (moment : ℕ) (image : Reads)
        → (D.Observed.seen old.now).disk.moment ≤ moment
        → moment ≤ (D.Observed.seen new.now).disk.moment
        → count_told_by moment run.lines ≡ length turns
        → MayLeave (D.Observed.seen new.now).disk moment image
        → ShowsWhole image (stored_of form (after s turns)) × ListsItsFiles image }
{}

/// Where at each moment what a state stores is stored, and no line is told, nothing was done: a run
/// of no event. An event that was done, and whose line was then told, is a run of this event; one
/// whose line wasn't told is such a run too, of which no line is told. A run is still that run
/// after a while in which no line is told and a crash leaves nothing that it might not leave at the
/// run's end. A run all of whose answers were told, and a run that goes on from there, are one run;
/// all answers of it were told where those of the second were.
pub fn runs_are_joined<D: Observed>(old: &D, mid: &D, new: &D)
    ensures none { (form : IndexForm) (s : State)
        → Throughout (IsSafe (stored_of form s) (stored_of form s))
        (D.Observed.seen old.now).disk (D.Observed.seen new.now).disk
        → HearsNoLine (D.Observed.seen old.now) (D.Observed.seen new.now)
        → RunsWhole form (D.Observed.seen old.now) (D.Observed.seen new.now) s [] }
    ensures told { (form : IndexForm) (s : State) (turn : Turn)
        → HasDone form (D.Observed.seen old.now) (D.Observed.seen mid.now) s turn
        → OnlyTellsLine (D.Observed.seen mid.now) (D.Observed.seen new.now)
        (step s turn.0 turn.1).0
        → RunsWhole form (D.Observed.seen old.now) (D.Observed.seen new.now) s (turn ∷ []) }
    ensures untold { (form : IndexForm) (s : State) (turn : Turn)
        → DoesSafely form (D.Observed.seen old.now) (D.Observed.seen new.now) s turn
        → HearsNoLine (D.Observed.seen old.now) (D.Observed.seen new.now)
        → RunsSafely form (D.Observed.seen old.now) (D.Observed.seen new.now) s (turn ∷ []) }
    ensures stopped_then { (form : IndexForm) (s : State) (turns : List Turn)
        → RunsSafely form (D.Observed.seen old.now) (D.Observed.seen mid.now) s turns
        → Throughout (Within (possible_now (D.Observed.seen mid.now).disk))
        (D.Observed.seen mid.now).disk (D.Observed.seen new.now).disk
        → HearsNoLine (D.Observed.seen mid.now) (D.Observed.seen new.now)
        → RunsSafely form (D.Observed.seen old.now) (D.Observed.seen new.now) s turns }
    ensures joined { (form : IndexForm) (s : State) (first second : List Turn)
        → RunsWhole form (D.Observed.seen old.now) (D.Observed.seen mid.now) s first
        → RunsSafely form (D.Observed.seen mid.now) (D.Observed.seen new.now)
        (after s first) second
        → RunsSafely form (D.Observed.seen old.now) (D.Observed.seen new.now) s
        (first ++ second) }
    ensures whole { (form : IndexForm) (s : State) (first second : List Turn)
        → RunsWhole form (D.Observed.seen old.now) (D.Observed.seen mid.now) s first
        → RunsWhole form (D.Observed.seen mid.now) (D.Observed.seen new.now)
        (after s first) second
        → RunsWhole form (D.Observed.seen old.now) (D.Observed.seen new.now) s
        (first ++ second) }
{}

/// An opening never takes a stored commit away: where what a state stores is stored at the start,
/// and `meta.json` may be left as it stands, each image that has the commit of this start, or that
/// of a new index where there was none, shows it whole, with every undotted file listed.
pub fn openings_keep_a_stored_commit<D: Observed>(start: &D)
    ensures not_lost { (form : IndexForm) (s : State) (image : Reads)
        → IsSafe (stored_of form s) (stored_of form s) (possible_now (D.Observed.seen start.now).disk)
        → possible_now (D.Observed.seen start.now).disk meta_name
        ((D.Observed.seen start.now).disk.now meta_name)
        → IsFromStart form.schema (D.Observed.seen start.now).disk image
        → ShowsWhole image (stored_of form s) × ListsItsFiles image }
{}

/// An opening whose line was told, and then a run, in which at each moment what the told events
/// leave, or one event more, is stored. Where before the opening's line each image has the commit
/// of the start, or that of a new index where there was none, and from then on what the opened
/// state stores is stored, a crash before that line leaves such an image; a crash later leaves the
/// commit of the events whose lines are told, or that of the event in progress, whole, with every
/// undotted file listed. The same holds of an opening whose line wasn't told, whatever run might
/// have come. Once all lines are told, each image shows whole what the state after the run stores.
pub fn replays_survive_crashes<D: Observed>(old: &D, mid: &D, new: &D)
    ensures opened { (form : IndexForm) (s : State) (turns : List Turn)
        → OpensWhole form (D.Observed.seen old.now) (D.Observed.seen mid.now) s
        → RunsSafely form (D.Observed.seen mid.now) (D.Observed.seen new.now) s turns
        → ReplaySurvives form (D.Observed.seen old.now) (D.Observed.seen new.now) s turns }
    ensures unopened { (form : IndexForm) (s : State) (turns : List Turn)
        → OpensUntold form.schema (D.Observed.seen old.now) (D.Observed.seen new.now)
        → ReplaySurvives form (D.Observed.seen old.now) (D.Observed.seen new.now) s turns }
    ensures not_lost { (form : IndexForm) (s : State) (turns : List Turn)
        (run : ReplaySurvives form (D.Observed.seen old.now) (D.Observed.seen new.now) s turns)
        (moment : ℕ) (image : Reads)
        → (D.Observed.seen old.now).disk.moment ≤ moment
        → moment ≤ (D.Observed.seen new.now).disk.moment
        → count_told_by moment run.lines ≡ length turns + 1
        → MayLeave (D.Observed.seen new.now).disk moment image
        → ShowsWhole image (stored_of form (after s turns)) × ListsItsFiles image }
{}
