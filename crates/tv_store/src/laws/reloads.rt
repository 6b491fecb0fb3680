//! Laws of reloads in steps, and of notices.
ghost use Rattle.std.specs.Prelude.{◌≡◌, ℕ, Bool, List, Some, true, false, OnOk};
ghost use Rattle.tv_formats.specs.Collections.{Rises};
ghost use Rattle.tv_formats.specs.Commits.{Commit};
ghost use Rattle.tv_machine.specs.Lines.{is_refused};
ghost use Rattle.tv_machine.specs.Living.{HasOneLock, holds_lock, is_busy};
ghost use Rattle.tv_machine.specs.ReloadEvents.{deliver_refusals};
ghost use Rattle.tv_machine.specs.State.{Locked, Read, Reader, reader_at};
ghost use Rattle.tv_managed.specs.Collecting.{meta_lock_name};
ghost use Rattle.tv_catalog.specs.Effects.{MayReload};
ghost use Rattle.tv_store.specs.EventLaws.{HoldsSome, LocksMeanwhile};

use crate::index_store::IndexStore;
use tv_base::TantivyError;
use tv_device::Outside;
use tv_machine::{Answer, Event};

/// While a reload waits for its files the meta lock is held for it, and at no other moment: an event after
/// which one waits takes the lock, one after which none waits any more frees it, and no other event
/// changes it.
pub fn holds_the_lock_for_a_reload<O: Outside>(
    store: &mut IndexStore<O>,
    event: &Event,
) -> Result<Answer, TantivyError>
    requires { store.old.standing.is_open ≡ true }
    ensures { O.told.locks → LocksMeanwhile meta_lock_name (is_busy store.old.kept.catalog)
        (is_busy store.new.kept.catalog) (O.view store.old.outside).locks
        (O.view store.new.outside).locks }
{
    store.apply(event)
}

/// A reload that begins waits for the files of the current commit, which it notes.
pub fn notes_the_current_commit<O: Outside>(
    store: &mut IndexStore<O>,
    number: u64,
) -> Result<Answer, TantivyError>
    requires { store.old.standing.is_open ≡ true }
    ensures waits { HoldsSome O.Directory store.old → MayReload store.old.kept.catalog number
        → OnOk result (is_busy store.new.kept.catalog ≡ true) }
    ensures notes { HoldsSome O.Directory store.old → MayReload store.old.kept.catalog number
        → (reader : Reader) → reader_at store.new.kept.catalog number ≡ Some reader
        → OnOk result (reader.reload ≡ Some (Locked store.old.kept.catalog.commit)) }
{
    store.apply(&Event::ReloadLock(number))
}

/// The end of a reload shows the commit that it has noted, with the bodies that were read of it: not the one
/// with which the index was opened, nor one that was committed since.
pub fn publishes_what_was_noted<O: Outside>(
    store: &mut IndexStore<O>,
    number: u64,
) -> Result<Answer, TantivyError>
    requires { store.old.standing.is_open ≡ true }
    ensures { HoldsSome O.Directory store.old
        → (was now : Reader) (noted : Commit) (bodies : List (List (List ℕ)))
        → reader_at store.old.kept.catalog number ≡ Some was → was.reload ≡ Some (Read noted bodies)
        → reader_at store.new.kept.catalog number ≡ Some now
        → OnOk result ((now.shown.commit ≡ noted) × (now.shown.bodies ≡ bodies)) }
{
    store.apply(&Event::ReloadPublish(number))
}

/// The end of a reader frees the meta lock, where its reload holds it.
pub fn frees_the_lock_of_a_released_reader<O: Outside>(
    store: &mut IndexStore<O>,
    number: u64,
) -> Result<Answer, TantivyError>
    requires { store.old.standing.is_open ≡ true }
    ensures { HoldsSome O.Directory store.old → O.told.locks
        → HasOneLock store.old.kept.catalog.reading.readers
        → Rises store.old.kept.catalog.reading.readers
        → holds_lock store.old.kept.catalog number ≡ true
        → OnOk result ((O.view store.new.outside).locks meta_lock_name ≡ false) }
{
    store.apply(&Event::ReleaseReader(number))
}

/// A `deliver` that is refused ends no notice: all that is known stays.
pub fn a_refused_deliver_ends_no_notice<O: Outside>(
    store: &mut IndexStore<O>,
) -> Result<Answer, TantivyError>
    requires { store.old.standing.is_open ≡ true }
    ensures { HoldsSome O.Directory store.old
        → is_refused (deliver_refusals store.old.kept.catalog) ≡ true
        → OnOk result (store.new.kept.catalog ≡ store.old.kept.catalog) }
{
    store.apply(&Event::Deliver)
}

/// A `reload` ends no notice: `deliver` alone does.
pub fn a_reload_ends_no_notice<O: Outside>(
    store: &mut IndexStore<O>,
    number: u64,
) -> Result<Answer, TantivyError>
    requires { store.old.standing.is_open ≡ true }
    ensures { HoldsSome O.Directory store.old → (was now : Reader)
        → reader_at store.old.kept.catalog number ≡ Some was
        → reader_at store.new.kept.catalog number ≡ Some now
        → OnOk result (now.has_notice ≡ was.has_notice) }
{
    store.apply(&Event::Reload(number))
}
