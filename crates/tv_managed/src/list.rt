//! The file that lists the managed files.
ghost use Rattle.std.specs.Prelude.{◌≡◌, Some, IfOk, map, option_map, string_bytes};
ghost use Rattle.tv_formats.specs.Names.{list_name};
ghost use Rattle.tv_formats.specs.Listing.{Listing, list_text};
ghost use Rattle.tv_device.specs.Images.{KeepsDisk};
ghost use Rattle.tv_device.specs.View.{OnlyReads};
ghost use Rattle.tv_managed.specs.Collecting.{names_of};
ghost use Rattle.tv_managed.specs.Crashes.{SavesText};
ghost use Rattle.tv_managed.specs.Managed.{SavesNames};
ghost use Rattle.tv_managed.specs.Names.{AreManaged};
ghost use Rattle.tv_managed.specs.Wrapping.{ListFaults};

use crate::list_json::read_names;
use json::Writer;
use std::alloc::Global;
use std::collections::BTreeSet;
use tv_base::{DataCorruption, IoError, MANAGED_FILEPATH, OpenReadError, TantivyError};
use tv_device::Directory;
use tv_formats::Memory;

/// The text of the list of these names.
fn list_text(alloc: Global, names: &BTreeSet<String>) -> Result<Vec<u8>, Memory>
    ensures { IfOk result (λ text. text.items ≡ list_text (map string_bytes names.now.keys)) }
{
    let mut list = Writer::new(Vec::new(alloc));
    list.begin_array()?;
    for name in names {
        list.string(name.as_str())?;
    }
    list.end_array()?;
    let mut text = list.into_inner();
    text.push(b'\n')?;
    Ok(text)
}

/// Writes the list of these names, and waits until the device has kept it.
pub(crate) fn save_managed_paths<D: Directory>(
    alloc: Global,
    directory: &mut D,
    names: &BTreeSet<String>,
) -> Result<(), IoError>
    ensures saves { SavesNames D.Directory directory.old directory.new
        (map string_bytes names.now.keys) result }
    ensures images { D.tells_images → SavesText (D.disk directory.old) (D.disk directory.new)
        (list_text (map string_bytes names.now.keys)) result }
{
    let text = list_text(alloc, names)?;
    directory.atomic_write(MANAGED_FILEPATH, text.as_slice())?;
    directory.sync_directory()?;
    Ok(())
}

// What is wrong with a list that isn't one.
fn corruption(alloc: Global) -> Result<DataCorruption, Memory>
    ensures { IfOk result (λ why. option_map string_bytes why.filepath ≡ Some list_name) }
{
    let filepath = String::from_str(alloc, MANAGED_FILEPATH)?;
    let comment = String::from_str(alloc, "not an array of file names")?;
    Ok(DataCorruption::new(filepath, comment))
}

/// The names for which the list stands: none where there is no file of it.
#[tactic(auto, using(crate::proofs::ListTrees::listed_managed))]
pub(crate) fn load_managed_paths<D: Directory>(
    alloc: Global,
    directory: &mut D,
) -> Result<BTreeSet<String>, TantivyError>
    ensures names { D.told.content → IfOk result (λ names.
        Listing (D.view directory.old).reads (names_of names.keys)) }
    ensures managed { IfOk result (λ names. AreManaged (names_of names.keys)) }
    ensures faults { ListFaults D.told (D.view directory.old) (D.view directory.new) result }
    ensures frame { OnlyReads D.told (D.view directory.old) (D.view directory.new) }
    ensures images { D.tells_images → KeepsDisk (D.disk directory.old) (D.disk directory.new) }
{
    match directory.atomic_read(MANAGED_FILEPATH) {
        Ok(bytes) => match read_names(alloc, bytes.as_slice())? {
            Some(names) => Ok(names),
            None => Err(TantivyError::DataCorruption(corruption(alloc)?)),
        },
        Err(OpenReadError::FileDoesNotExist(_)) => Ok(BTreeSet::new(alloc)),
        Err(OpenReadError::IoError { io_error, .. }) => Err(TantivyError::IoError(io_error)),
        Err(OpenReadError::Memory) => Err(TantivyError::Memory),
        Err(OpenReadError::IncompatibleIndex(_)) => unreachable!(),
    }
}
