//! Laws of the machine. Each function does nothing: its contract is the law.
ghost use Rattle.std.specs.Prelude.{◌≡◌, ◌≢◌, Bool};
ghost use Rattle.std.specs.Prelude.{List, [], None, Option, Some, true, false, ℕ};
ghost use Rattle.std.specs.List.{AllByRecursion};
ghost use Rattle.std.specs.List.Sorted.{IsStrictlySortedBy};
ghost use Rattle.serde_json.specs.Read.{read};
ghost use Rattle.tv_events.specs.declared.event.Event.{Event};
ghost use Rattle.tv_formats.specs.declared.segment.DeleteMeta.{DeleteMeta};
ghost use Rattle.tv_formats.specs.declared.segment.SegmentComponent.{SegmentComponent};
ghost use Rattle.tv_formats.specs.declared.segment.SegmentComponent.TheVariants.{Delete};
ghost use Rattle.tv_machine.specs.Collecting.{Collects, CollectsIn, CollectsInStepsIn, CollectsAllElse, IsAtOnce};
ghost use Rattle.tv_formats.specs.Collections.{Collection};
ghost use Rattle.tv_formats.specs.Commits.{Settings};
ghost use Rattle.tv_machine.specs.DeleteEvents.{delete_name, deletes_step, next_deletes};
ghost use Rattle.tv_formats.specs.Files.{Reads};
ghost use Rattle.tv_formats.specs.Footer.{sealed};
ghost use Rattle.tv_formats.specs.Ids.{IsId};
ghost use Rattle.tv_machine.specs.Index.{DirectoryHolds, OpensTo, first_catalog};
ghost use Rattle.tv_formats.specs.Sound.{IsSoundImage};
ghost use Rattle.tv_machine.specs.Living.{is_busy};
ghost use Rattle.tv_machine.specs.Machine.{Turn, events_of, step};
ghost use Rattle.tv_formats.specs.Names.{byte_cmp};
ghost use Rattle.tv_machine.specs.NewNames.{DrawsInOrder, IsNewDelete};
ghost use Rattle.tv_machine.specs.Readable.{CanRead, ReadsGood};
ghost use Rattle.tv_machine.specs.ReopenEvents.{reopened};
ghost use Rattle.tv_machine.specs.Reopening.{AreAlike, found_in};
ghost use Rattle.tv_events.specs.Script.{Fits};
ghost use Rattle.tv_formats.specs.Segments.{name_of};
ghost use Rattle.tv_machine.specs.Serving.{IsJustOpened, Serves, ServesAsSealed, ServesStates};
ghost use Rattle.tv_machine.specs.SoundStates.{IsSoundState};
ghost use Rattle.tv_machine.specs.State.{State};
ghost use Rattle.tv_machine.specs.Telling.{Determined, Tells, TellsStep, are_plain};
ghost use Rattle.tv_machine.specs.Validating.{Validates};

/// In each run of an index that was just opened, a searcher shows one commit of the run for life,
/// and a reader never shows an older commit than it showed before, and what it shows next has a
/// higher number; both end where the index is opened again. The meta lock is free once the reader
/// ends whose reload holds it, or this reload's files are read. Where the state was sound, what a
/// searcher shows are the bodies that the files had in the state whose commit it shows. In each run
/// of a script from a sound state, each file that a kept commit requires is sealed, and what is shown
/// of it is the body before its footer.
pub fn searchers_keep_their_commit()
    ensures serves { (s : State) (turns : List Turn) → IsJustOpened s → Serves s turns }
    ensures states { (s : State) (turns : List Turn) → IsJustOpened s → IsSoundState s
        → ServesStates s turns }
    ensures as_sealed { (s : State) (turns : List Turn) → IsSoundState s
        → AllByRecursion Fits (events_of turns) → ServesAsSealed s turns }
{}

/// A directory that reads soundly opens to a state, and to sound states alone. Each event of a script
/// leaves a sound state sound. The files that the kept commits of such a state require can be read,
/// and so can those of the commit that an event of it reads. A directory that holds such a state
/// opens to what a reopening leaves of it, but that a file which was left has the bytes that its name
/// reads. States to which one directory opens under one schema have one catalog, the same managed
/// names and collections, and the same file at each name.
pub fn sound_starts_open_to_sound_states()
    ensures exists { (schema : List ℕ) (reads : Reads) → IsSoundImage schema reads
        → (settings : Settings) × (s : State) × OpensTo settings schema reads s }
    ensures opens { (settings : Settings) (schema : List ℕ) (reads : Reads) (s : State)
        → IsSoundImage schema reads → OpensTo settings schema reads s → IsSoundState s }
    ensures steps { (s : State) (event : Event) (outcomes : List Bool) → Fits event
        → IsSoundState s → IsSoundState (step s event outcomes).1 }
    ensures reads { (s : State) → IsSoundState s → CanRead s }
    ensures loads { (s : State) (event : Event) → IsSoundState s → ReadsGood s event }
    ensures reopens { (settings : Settings) (schema : List ℕ) (reads : Reads) (s : State)
        → IsSoundState s → DirectoryHolds settings schema reads s
        → OpensTo settings schema reads (found_in reads (reopened s)) }
    ensures one { (settings others : Settings) (schema : List ℕ) (reads : Reads) (s t : State)
        → OpensTo settings schema reads s → OpensTo others schema reads t → AreAlike s t }
{}

/// Where the meta lock is free and the managed names stand in their order, a collection at once takes
/// exactly the managed names that nothing needs and no other collection holds, and tells each of them
/// as done or as failed. What is done has no file and is managed no more; all else stays. So does
/// each one at once of a run that begins with such names, where the lock is free then. In each run of
/// a script from a sound state, one in steps that begins where that lock is free takes the same names,
/// and is unfinished and has these names until its end or a reopening. Its step tells the name that
/// it tries, and changes no other file; its end takes those names out of the managed ones that are
/// done. Its events change neither the catalog nor another collection, and no other event but a
/// reopening changes it. Where that lock is free, one at once does to the files, the managed names and
/// the catalog what one in steps does with the same outcomes. From a sound state where that lock is
/// free, one at once of which no delete is refused leaves exactly the files that are needed or held.
pub fn collections_take_what_nothing_needs()
    ensures collects { (s : State) (outcomes : List Bool)
        → IsStrictlySortedBy byte_cmp s.managed → is_busy s.catalog ≡ false
        → Collects s outcomes }
    ensures in_runs { (s : State) (turns : List Turn)
        → IsStrictlySortedBy byte_cmp s.managed → CollectsIn s turns }
    ensures in_steps { (s : State) (turns : List Turn) → IsSoundState s
        → AllByRecursion Fits (events_of turns) → CollectsInStepsIn s turns }
    ensures at_once { (s : State) (outcomes : List Bool) → is_busy s.catalog ≡ false
        → IsAtOnce s outcomes }
    ensures all_else { (s : State) → IsSoundState s → CollectsAllElse s }
{}

/// The line of a collection of plain names tells which of them were done and which failed: no plain
/// name has a space or is the word `failed`. The line of one of its steps tells which of both its name
/// was.
pub fn lines_tell_outcomes()
    ensures tells { (names : List (List ℕ)) → are_plain names ≡ true → Tells names }
    ensures step { (s : State) (c : Collection) → TellsStep s c }
{}

/// From a state whose managed names are plain, what a run of a script tells determines, together with
/// its events, the state that it comes to.
pub fn reports_determine_runs()
    ensures determined { (s : State) → are_plain s.managed ≡ true → Determined s }
{}

/// A validation names exactly the managed files of the current commit whose checksum isn't that of
/// their body, unless one of these files can't be read: then it names the first of those.
pub fn validations_name_damaged_files()
    ensures validates { (s : State) → Validates s }
{}

/// The files of different segments have different names. Without deletes a delete file has the name
/// of the one with the number 0. Where an event of deletes changes a sound state, the name that the
/// segment's delete file has with the next number is new.
/// Numbers of deletes are drawn in order in an index that was just made, and from a sound state
/// each event leaves them so.
pub fn names_tell_their_segment()
    ensures segment { (id other : List ℕ) (deletes others : Option DeleteMeta)
        (component second : SegmentComponent) → IsId id → IsId other
        → name_of id deletes component ≡ name_of other others second → id ≡ other }
    ensures no_deletes { (id : List ℕ) (n : ℕ) → name_of id None Delete
        ≡ name_of id (Some (record { num_deleted_docs = n; opstamp = 0 })) Delete }
    ensures new_name { (s : State) (id : List ℕ) (n : ℕ) → IsSoundState s
        → (deletes_step s id n).1 ≢ s
        → IsNewDelete s id (delete_name id (Some (next_deletes s.catalog n))) }
    ensures first_drawn { DrawsInOrder first_catalog }
    ensures drawn { (s : State) (event : Event) (outcomes : List Bool) → IsSoundState s
        → DrawsInOrder s.catalog → DrawsInOrder (step s event outcomes).1.catalog }
{}
