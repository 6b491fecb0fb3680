//! Laws of an index: what a user relies on, of the calls that each makes.
ghost use Rattle.std.specs.Prelude.{◌≡◌, ◌++◌, ℕ, List, Some, false};
ghost use Rattle.std.specs.Prelude.{IfErr, IfOk, IsSome, MatchResult, OnOk};
ghost use Rattle.hex.specs.Hex.{encode_lower};
ghost use Rattle.serde_json.specs.Data.{Data};
ghost use Rattle.tv_formats.specs.Collections.{held};
ghost use Rattle.tv_formats.specs.Commits.{Commit, Settings};
ghost use Rattle.tv_formats.specs.Disk.{IsSettled, Throughout};
ghost use Rattle.tv_formats.specs.Files.{Same};
ghost use Rattle.tv_formats.specs.MetaJson.{SpellsMeta};
ghost use Rattle.tv_formats.specs.Names.{has, meta_name};
ghost use Rattle.tv_index.specs.Laws.{HoldsNoOtherMeta};
ghost use Rattle.tv_metas.specs.Settings.{settings_view};

use crate::index::Index;
use crate::saving::save_meta_text;
use crate::segment::Segment;
use std::alloc::Global;
use tv_base::{IoError, TantivyError};
use tv_device::Directory;
use tv_formats::{Memory, SegmentId};
use tv_managed::{ManagedDirectory, Refused};
use tv_metas::Schema;

/// Where an index stands, an opening leaves each file as it reads, whatever it answers.
pub fn open_or_create_spares_an_index<D: Directory>(
    alloc: Global,
    directory: D,
    schema: Schema,
) -> Result<Index<D>, Refused<D>>
    ensures { let before = (D.view directory).reads in
        D.told.content → IsSome (before meta_name) → MatchResult result
        (λ index. Same before (D.view index.directory.0).reads)
        (λ refused. Same before (D.view refused.directory).reads) }
{
    Index::open_or_create(alloc, directory, schema)
}

/// A crash behind an opening that succeeded leaves each name as it stands.
pub fn an_opening_leaves_a_settled_disk<D: Directory>(
    alloc: Global,
    directory: D,
    schema: Schema,
) -> Result<Index<D>, Refused<D>>
    ensures { D.tells_images → IfOk result (λ index. IsSettled (D.disk index.directory.0)) }
{
    Index::open_or_create(alloc, directory, schema)
}

/// No crash within a save that wants memory leaves `meta.json` in a state in which it neither stood
/// nor could be left before.
pub fn a_save_that_wants_memory_leaves_the_old_commit<D: Directory>(
    directory: &mut ManagedDirectory<D>,
    text: &[u8],
) -> Result<(), IoError>
    requires { has (held directory.old.1.collections) meta_name ≡ false }
    ensures { D.tells_images → IfErr result (λ error. error ≡ IoError.Memory
        → Throughout (HoldsNoOtherMeta (D.disk directory.old.0))
        (D.disk directory.old.0) (D.disk directory.new.0)) }
{
    save_meta_text(directory, text)
}

/// No crash within an opening that wants memory leaves `meta.json` in a state in which it neither
/// stood nor could be left before.
pub fn an_opening_that_wants_memory_makes_no_index<D: Directory>(
    alloc: Global,
    directory: D,
    schema: Schema,
) -> Result<Index<D>, Refused<D>>
    ensures { D.tells_images → IfErr result (λ refused. refused.error ≡ TantivyError.Memory
        → Throughout (HoldsNoOtherMeta (D.disk directory))
        (D.disk directory) (D.disk refused.directory)) }
{
    Index::open_or_create(alloc, directory, schema)
}

/// An index that is opened has the settings that its `meta.json` spells.
pub fn open_finds_stored_settings<D: Directory>(
    alloc: Global,
    directory: D,
) -> Result<Index<D>, Refused<D>>
    ensures { D.told.content → IfOk result (λ index.
        (bytes : List ℕ) (settings : Settings) (commit : Commit) (schema : Data)
        → (D.view directory).reads meta_name ≡ Some bytes
        → SpellsMeta bytes settings commit schema → settings_view index.settings ≡ settings) }
{
    Index::open(alloc, directory)
}

/// No managed name begins with the id of a new segment.
pub fn new_segment_begins_no_name<D: Directory>(
    index: &mut Index<D>,
    alloc: Global,
    segment_id: SegmentId,
) -> Result<Segment, TantivyError>
    ensures { OnOk result ((rest : List ℕ)
        → has index.old.directory.1.managed (encode_lower segment_id ++ rest) ≡ false) }
{
    index.new_segment(alloc, segment_id)
}
