//! Which files of the last commit are damaged.
ghost use Rattle.std.specs.Prelude.{◌≡◌, ◌||◌, ◌&&◌, ◌++◌, ℕ, List, Some, true, IfOk, OnOk, filter, map, not, string_bytes};
ghost use Rattle.std.specs.List.{flat_map, list_all};
ghost use Rattle.tv_device.specs.Images.{KeepsDisk};
ghost use Rattle.tv_device.specs.View.{OnlyReads};
ghost use Rattle.tv_managed.specs.Frames.{KeepsNames};
ghost use Rattle.tv_formats.specs.Segments.{segment_names};
ghost use Rattle.tv_formats.specs.Names.{has, is, is_plain, meta_name};
ghost use Rattle.tv_index.specs.Checksums.{AreDamaged, UnreadFaults, ValidateFaults, looked_at};
ghost use Rattle.tv_index.specs.Indexes.{KeepsIndex, MeansSuch};
ghost use Rattle.tv_metas.specs.Segments.{entry_of};

use crate::index::Index;
use crate::opening::load_meta;
use std::alloc::Global;
use std::collections::BTreeSet;
use tv_base::TantivyError;
use tv_device::Directory;
use tv_formats::{FileName, Memory};
use tv_managed::ManagedDirectory;
use tv_metas::InnerSegmentMeta;
use tv_metas::naming::{push_names, set_of, shared_names};

impl<D: Directory> Index<D> {
    /// The names of the damaged files of the last commit: of the managed ones, among all names that
    /// its segments have, those whose checksum isn't that of their body.
    ///
    /// Errors are those of `load_metas`, and then `OpenReadError` for the first of these files, in
    /// the order of their names, that isn't there or doesn't end in a footer.
    pub fn validate_checksum(&mut self, alloc: Global) -> Result<BTreeSet<String>, TantivyError>
        ensures damaged { D.told.content → IfOk result (λ damaged. MeansSuch self.old.schema
            ((D.view self.old.directory.0).reads meta_name)
            (λ commit. AreDamaged (D.view self.old.directory.0).reads
            (looked_at commit self.old.directory.1.managed) (map string_bytes damaged.keys))) }
        ensures faults { ValidateFaults D.Directory self.old.directory self.new.directory.0
            self.old.schema result }
        ensures frame { KeepsIndex (OnlyReads D.told) D.view self.old self.new }
        ensures images { D.tells_images
            → KeepsDisk (D.disk self.old.directory.0) (D.disk self.new.directory.0) }
    {
        let meta = load_meta(alloc, &mut self.directory, Some(&self.schema))?;
        let managed = self.directory.list_managed_files();
        let names = looked_at(alloc, meta.segments.as_slice(), managed)?;
        damaged_among(alloc, &mut self.directory, names.as_slice())
    }
}

// Adds the names that some segments have.
fn push_all(
    alloc: Global,
    names: &mut Vec<FileName>,
    segments: &[InnerSegmentMeta],
) -> Result<(), Memory>
    ensures { OnOk result (names.new.items ≡ names.old.items
        ++ flat_map segment_names (map entry_of segments.now)) }
{
    for segment in segments {
        push_names(alloc, names, segment.segment_id, segment.live())?;
    }
    Ok(())
}

// The names that some segments have, as a set.
fn names_among(alloc: Global, segments: &[InnerSegmentMeta]) -> Result<BTreeSet<String>, Memory>
    ensures { IfOk result (λ set. (n : List ℕ) → has (map string_bytes set.keys) n
        ≡ has (flat_map segment_names (map entry_of segments.now)) n) }
{
    let mut names = Vec::new(alloc);
    push_all(alloc, &mut names, segments)?;
    set_of(alloc, names)
}

// The managed names among those that some segments have.
fn looked_at(
    alloc: Global,
    segments: &[InnerSegmentMeta],
    managed: &BTreeSet<String>,
) -> Result<Vec<FileName>, Memory>
    requires { list_all is_plain (map string_bytes managed.now.keys) ≡ true }
    ensures { IfOk result (λ names. names.items
        ≡ filter (λ name. has (flat_map segment_names (map entry_of segments.now)) name)
        (map string_bytes managed.now.keys)) }
{
    let among = names_among(alloc, segments)?;
    shared_names(alloc, managed, &among)
}

// Adds the name of a file, unless its checksum is that of its body.
fn put_damaged(
    alloc: Global,
    damaged: &mut BTreeSet<String>,
    name: &FileName,
    is_right: bool,
) -> Result<(), Memory>
    ensures { OnOk result ((n : List ℕ) → has (map string_bytes damaged.new.keys) n
        ≡ ((not is_right && is name.now n) || has (map string_bytes damaged.old.keys) n)) }
{
    if is_right {
        return Ok(());
    }
    let copy = String::from_str(alloc, name.as_str())?;
    damaged.insert(copy)?;
    Ok(())
}

// The names of those files whose checksum isn't that of their body.
fn damaged_among<D: Directory>(
    alloc: Global,
    directory: &mut ManagedDirectory<D>,
    names: &[FileName],
) -> Result<BTreeSet<String>, TantivyError>
    ensures damaged { D.told.content → IfOk result (λ damaged.
        AreDamaged (D.view directory.old.0).reads names.now (map string_bytes damaged.keys)) }
    ensures faults { UnreadFaults D.Directory directory.old.0 directory.new.0 names.now result }
    ensures frame { KeepsNames (OnlyReads D.told) D.view directory.old directory.new }
    ensures images { D.tells_images
        → KeepsDisk (D.disk directory.old.0) (D.disk directory.new.0) }
{
    let mut damaged = BTreeSet::new(alloc);
    for name in names {
        let is_right = directory.validate_checksum(name.as_str())?;
        put_damaged(alloc, &mut damaged, name, is_right)?;
    }
    Ok(damaged)
}
