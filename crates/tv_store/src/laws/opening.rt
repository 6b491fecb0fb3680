//! Laws of openings.
ghost use Rattle.std.specs.Prelude.{◌≡◌, ◌⊎◌, true, false, ℕ, List, None, IfOk, IfErr, IsErr};
ghost use Rattle.tv_formats.specs.Files.{Same};
ghost use Rattle.tv_machine.specs.Index.{FoundIndex};
ghost use Rattle.tv_machine.specs.Living.{is_busy};
ghost use Rattle.tv_managed.specs.Collecting.{meta_lock_name};
ghost use Rattle.tv_index.specs.Opening.{IsRefusedBytes};
ghost use Rattle.tv_store.specs.Making.{NamesRefused};
ghost use Rattle.tv_store.specs.StoreCauses.{writer_lock_name};

use crate::index_store::IndexStore;
use std::alloc::Global;
use tv_base::{LockError, TantivyError};
use tv_device::Outside;
use tv_managed::Refused;

/// Nothing is written before the writer lock is held: of a store that is open there was a moment at which
/// that lock was held, and each name still read what it reads in the directory that was handed in. The
/// same is so of a refusal, unless each name reads what it read. So no index is made, and no list is
/// written, without the lock.
pub fn writes_nothing_before_its_lock<O: Outside>(
    alloc: Global,
    outside: O,
    schema: &[u8],
) -> Result<IndexStore<O>, Refused<O>>
    ensures opened { IfOk result (λ store. (locked : O)
        × (O.told.locks → (O.view locked).locks writer_lock_name ≡ true)
        × (O.told.content → Same (O.view outside).reads (O.view locked).reads)) }
    ensures refused { IfErr result (λ refused.
        (O.told.content → Same (O.view outside).reads (O.view refused.directory).reads)
        ⊎ ((locked : O) × (O.told.locks → (O.view locked).locks writer_lock_name ≡ true)
        × (O.told.content → Same (O.view outside).reads (O.view locked).reads))) }
{
    IndexStore::open(alloc, outside, schema)
}

/// While somebody else holds the writer lock, no opening succeeds, nothing is written, and that lock stays
/// held.
pub fn spares_a_locked_directory<O: Outside>(
    alloc: Global,
    outside: O,
    schema: &[u8],
) -> Result<IndexStore<O>, Refused<O>>
    ensures refused { O.told.locks → (O.view outside).locks writer_lock_name ≡ true
        → IsErr result }
    ensures unwritten { O.told.locks → (O.view outside).locks writer_lock_name ≡ true
        → O.told.content
        → IfErr result (λ refused. Same (O.view outside).reads (O.view refused.directory).reads) }
    ensures held { O.told.locks → (O.view outside).locks writer_lock_name ≡ true
        → IfErr result (λ refused. (O.view refused.directory).locks writer_lock_name ≡ true) }
{
    IndexStore::open(alloc, outside, schema)
}

/// An opening that refuses bytes names the list of managed files or `meta.json`, and changes nothing that
/// is read; nor does it where the commit there has another schema.
pub fn names_and_spares_refused_bytes<O: Outside>(
    alloc: Global,
    outside: O,
    schema: &[u8],
) -> Result<IndexStore<O>, Refused<O>>
    ensures named { IfErr result (λ refused. NamesRefused refused.error) }
    ensures unchanged { O.told.content → IfErr result (λ refused. IsRefusedBytes refused.error
        → Same (O.view outside).reads (O.view refused.directory).reads) }
{
    IndexStore::open(alloc, outside, schema)
}

/// A held lock hides no damage: where no index of this schema can be found, as the list is none, or
/// `meta.json` means no commit or one of another schema, no opening answers that the lock is held.
pub fn tells_damage_before_a_held_lock<O: Outside>(
    alloc: Global,
    outside: O,
    schema: &[u8],
) -> Result<IndexStore<O>, Refused<O>>
    ensures { O.told.content → (FoundIndex schema.now (O.view outside).reads → ⊥)
        → IfErr result (λ refused.
        refused.error ≡ TantivyError.LockFailure LockError.LockBusy None → ⊥) }
{
    IndexStore::open(alloc, outside, schema)
}

/// A refused opening leaves each lock as it was: it keeps none, and frees none that it didn't take.
pub fn leaves_locks_as_they_were<O: Outside>(
    alloc: Global,
    outside: O,
    schema: &[u8],
) -> Result<IndexStore<O>, Refused<O>>
    ensures { O.told.locks → IfErr result (λ refused. (lock : List ℕ)
        → (O.view refused.directory).locks lock ≡ (O.view outside).locks lock) }
{
    IndexStore::open(alloc, outside, schema)
}

/// A store that ends gives its lock back, and that of a reload which waits for its files, whether it is open
/// or an error stopped it: nobody is kept out by them.
pub fn frees_its_lock_at_the_end<O: Outside>(store: IndexStore<O>) -> O
    ensures writer { O.told.locks → (O.view result).locks writer_lock_name ≡ false }
    ensures reload { O.told.locks → is_busy store.kept.catalog ≡ true
        → (O.view result).locks meta_lock_name ≡ false }
{
    store.into_outside()
}
