//! Laws of saves of `meta.json`.
ghost use Rattle.std.specs.Prelude.{◌≡◌, ℕ, List, OnOk};
ghost use Rattle.tv_formats.specs.Disk.{DiskState, Sealed, Throughout, possible_now};
ghost use Rattle.tv_formats.specs.Names.{meta_name};
ghost use Rattle.tv_store.specs.Saving.{ShowsSettled};

use crate::files::StoreFiles;
use tv_base::TantivyError;
use tv_device::Outside;

// Before a crash may leave a new commit, it leaves every other file as it stands; and once the save has
// succeeded, no crash takes the commit away.
pub(crate) fn settles_files_before_a_commit<O: Outside>(
    files: &mut StoreFiles<O>,
    text: &[u8],
) -> Result<(), TantivyError>
    ensures settled { O.tells_images → Throughout
        (λ possible. ShowsSettled (O.disk files.old.outside) possible text.now)
        (O.disk files.old.outside) (O.disk files.new.outside) }
    ensures kept { O.tells_images → OnOk result ((s : DiskState)
        → possible_now (O.disk files.new.outside) meta_name s → s ≡ Sealed text.now) }
{
    files.save_meta(text)
}
