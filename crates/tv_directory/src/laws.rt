//! Laws of benches: what the clauses of their calls come to for those who use them.
ghost use Rattle.std.specs.Prelude.{◌≡◌, ◌<◌, ◌≤◌, ℕ, List, [], true, IfOk, get_or, length};
ghost use Rattle.tv_directory.specs.Crashes.{AreKnown, left_in};
ghost use Rattle.tv_formats.specs.Disk.{MayLeave};
ghost use Rattle.tv_formats.specs.Sound.{IsSoundDirectory};
ghost use Rattle.tv_formats.specs.Names.{is_file_name};

use crate::bench::Bench;
use std::alloc::Global;
use tv_device::{Directory, WatchCall};
use tv_formats::Memory;

/// A new bench without files is a sound directory under each schema: whatever image a crash may leave of it is sound,
/// and no lock is held.
pub fn an_empty_bench_is_sound<C: WatchCall>(alloc: Global) -> Result<Bench<C>, Memory>
    ensures { IfOk result (λ bench. (schema : List ℕ) → IsSoundDirectory schema
        (⟦<Bench<C> as Directory>⟧.disk bench) (⟦<Bench<C> as Directory>⟧.view bench).locks) }
{
    let files = Vec::new(alloc);
    Bench::new(alloc, files)
}

/// A crash at the moment before a write leaves what a crash might have left then: nothing of the write.
pub fn a_crash_before_a_write_leaves_nothing_of_it<C: WatchCall>(
    bench: &mut Bench<C>,
    name: &str,
    bytes: &[u8],
    choice: &[u32],
) -> Result<Bench<C>, Memory>
    requires { is_file_name name.now ≡ true }
    ensures { IfOk result (λ left. MayLeave (⟦<Bench<C> as Directory>⟧.disk bench.old)
        (⟦<Bench<C> as Directory>⟧.view bench.old).moment
        (⟦<Bench<C> as Directory>⟧.view left).reads) }
{
    let moment = bench.moment();
    let _answer = bench.atomic_write(name, bytes);
    bench.crash(moment, choice)
}

/// A crash leaves each known name by the number at its own place of the choice, whatever the others are.
pub fn a_crash_leaves_each_name_by_its_own_number<C: WatchCall>(
    bench: &Bench<C>,
    moment: u64,
    choice: &[u32],
) -> Result<Bench<C>, Memory>
    requires { moment ≤ (⟦<Bench<C> as Directory>⟧.view bench.now).moment }
    ensures { IfOk result (λ left. (names : List (List ℕ)) → AreKnown bench.now names
        → (i : ℕ) (n : List ℕ) → i < length names → n ≡ get_or names i []
        → (⟦<Bench<C> as Directory>⟧.view left).reads n
        ≡ left_in bench.now moment n (get_or choice.now i 0)) }
{
    bench.crash(moment, choice)
}
