//! Laws of what a crash leaves.
ghost use Rattle.std.specs.Prelude.{◌≡◌, ◌≢◌, ℕ, Bool, false, true, List, IfErr, MatchResult};
ghost use Rattle.tv_crashes.specs.Stored.{IsSafe, stored_of};
ghost use Rattle.tv_formats.specs.Commits.{IndexForm};
ghost use Rattle.tv_formats.specs.Disk.{possible_now};
ghost use Rattle.tv_formats.specs.Schemas.{stripped};
ghost use Rattle.tv_formats.specs.Sound.{IsSoundDirectory};
ghost use Rattle.tv_machine.specs.Living.{is_busy};
ghost use Rattle.tv_machine.specs.Machine.{step};
ghost use Rattle.tv_machine.specs.SoundStates.{IsSoundState, IsWhole};
ghost use Rattle.tv_machine.specs.State.{State};
ghost use Rattle.tv_managed.specs.Collecting.{meta_lock_name};
ghost use Rattle.tv_store.specs.CrashLaws.{KeepsStored, SurvivesTurn};
ghost use Rattle.tv_store.specs.Durable.{IsDurable, store_files};
ghost use Rattle.tv_store.specs.Kept.{IsHeld};
ghost use Rattle.tv_store.specs.StoreCauses.{writer_lock_name};

use crate::index_store::IndexStore;
use std::alloc::Global;
use tv_base::TantivyError;
use tv_device::Outside;
use tv_machine::{Answer, Event};
use tv_managed::Refused;

/// Whatever an event answers, and whenever in it a crash strikes, there is left, whole, the commit before
/// it or that of the event, with every undotted file listed; once its line was told, that of the event.
pub fn an_event_survives_a_crash<O: Outside>(
    store: &mut IndexStore<O>,
    event: &Event,
) -> Result<Answer, TantivyError>
    requires { store.old.standing.is_open ≡ true }
    ensures { O.tells_images → O.told.heard → (s : State) → IsHeld O.Directory store.old s
        → IsWhole s → IsDurable O.Directory (store_files store.old) s
        → (outcomes : List Bool) → MatchResult result
        (λ answer. answer ≡ (step s event.now outcomes).0
        → IsHeld O.Directory store.new (step s event.now outcomes).1
        → SurvivesTurn O.Directory store.old store.new s (event.now, outcomes))
        (λ error. SurvivesTurn O.Directory store.old store.new s (event.now, outcomes)) }
{
    store.apply(event)
}

/// Whenever in an event that wants memory a crash strikes, the commit before it is left, whole, with
/// every undotted file listed.
pub fn a_want_of_memory_keeps_the_commit<O: Outside>(
    store: &mut IndexStore<O>,
    event: &Event,
) -> Result<Answer, TantivyError>
    requires { store.old.standing.is_open ≡ true }
    ensures { O.tells_images → O.told.heard → (s : State) → IsHeld O.Directory store.old s
        → IsWhole s → IsDurable O.Directory (store_files store.old) s
        → IfErr result (λ error. error ≡ TantivyError.Memory
        → KeepsStored (O.disk store.old.outside) (O.disk store.new.outside)
        (stored_of store.old.kept.form s)) }
{
    store.apply(event)
}

/// An opening of a sound directory takes no stored commit away: whenever in it a crash strikes, whatever
/// it answers, that commit is left, whole, with every undotted file listed.
pub fn an_opening_keeps_a_stored_commit<O: Outside>(
    alloc: Global,
    outside: O,
    schema: &[u8],
) -> Result<IndexStore<O>, Refused<O>>
    ensures { O.tells_images → O.told.heard → O.told.locks
        → IsSoundDirectory (stripped schema.now) (O.disk outside) (O.view outside).locks
        → (form : IndexForm) (s : State) → form.schema ≡ stripped schema.now
        → IsSafe (stored_of form s) (stored_of form s) (possible_now (O.disk outside))
        → MatchResult result
        (λ store. KeepsStored (O.disk outside) (O.disk store.outside) (stored_of form s))
        (λ refused. KeepsStored (O.disk outside) (O.disk refused.directory) (stored_of form s)) }
{
    IndexStore::open(alloc, outside, schema)
}

/// Where one of two commits of sound states is stored, and no lock is held but the writer's and that of a
/// reload which waits for its files, the directory of a store that is closed is sound: an index opens from
/// whatever a crash then leaves of it.
pub fn a_closed_store_is_sound<O: Outside>(store: IndexStore<O>) -> O
    ensures { O.tells_images → O.told.locks → (before after : State)
        → IsSoundState before → IsSoundState after
        → IsSafe (stored_of store.kept.form before) (stored_of store.kept.form after)
        (possible_now (O.disk store.outside))
        → ((lock : List ℕ) → lock ≢ writer_lock_name
        → (is_busy store.kept.catalog ≡ true → lock ≢ meta_lock_name)
        → (O.view store.outside).locks lock ≡ false)
        → IsSoundDirectory store.kept.form.schema (O.disk result) (O.view result).locks }
{
    store.into_outside()
}
