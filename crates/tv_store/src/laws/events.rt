//! Laws of events.
ghost use Rattle.std.specs.Prelude.{◌≡◌, ◌≢◌, ◌++◌, ℕ, Bool, List, Some, true, IfErr, IfOk, OnOk};
ghost use Rattle.tv_formats.specs.Collections.{no_collections};
ghost use Rattle.tv_machine.specs.DeleteEvents.{delete_name, next_deletes};
ghost use Rattle.tv_formats.specs.Footer.{sealed};
ghost use Rattle.tv_machine.specs.Machine.{step};
ghost use Rattle.tv_formats.specs.Names.{has, meta_name, at};
ghost use Rattle.tv_machine.specs.SearcherEvents.{bytes_step};
ghost use Rattle.tv_formats.specs.Segments.{name_of};
ghost use Rattle.tv_machine.specs.State.{Reader, live_at, no_readers, reader_at};
ghost use Rattle.tv_formats.specs.declared.segment.LiveSegment.{LiveSegment};
ghost use Rattle.tv_device.specs.View.{OnlyTells};
ghost use Rattle.tv_index.specs.Saving.{saved_text};
ghost use Rattle.tv_store.specs.Applying.{LeavesAlone};
ghost use Rattle.tv_catalog.specs.Effects.{MayReload, WritesByStep};
ghost use Rattle.tv_store.specs.EventLaws.{HasLiving, HoldsSome};
ghost use Rattle.tv_store.specs.ReadCauses.{IsReadError};
ghost use Rattle.tv_store.specs.SnapshotCalls.{ShowsMeta};

use crate::index_store::IndexStore;
use tv_base::TantivyError;
use tv_device::Outside;
use tv_formats::{SegmentComponent, SegmentId};
use tv_machine::{Answer, Blob, Event, IdList, Text};

/// Once an open file is sealed, its name reads what was written to it, with a footer.
pub fn reads_what_was_sealed<O: Outside>(
    store: &mut IndexStore<O>,
    id: SegmentId,
    component: SegmentComponent,
    bytes: Blob,
) -> Result<Answer, TantivyError>
    requires { store.old.standing.is_open ≡ true }
    ensures { HoldsSome O.Directory store.old → (segment : LiveSegment) (body : List ℕ)
        → live_at store.old.kept.catalog id ≡ Some segment
        → at store.old.kept.open_files (name_of id segment.deletes component) ≡ Some body
        → OnOk result ((O.view store.new.outside).reads (name_of id segment.deletes component)
        ≡ Some (sealed (body ++ bytes))) }
{
    let _wrote = store.apply(&Event::Write(id, component, bytes))?;
    store.apply(&Event::Seal(id, component))
}

/// A delete name that is managed isn't drawn again: nothing changes.
pub fn draws_a_new_delete_name<O: Outside>(
    store: &mut IndexStore<O>,
    id: SegmentId,
    n: u32,
) -> Result<Answer, TantivyError>
    requires { store.old.standing.is_open ≡ true }
    ensures { HoldsSome O.Directory store.old
        → has store.old.kept.managed
        (delete_name id (Some (next_deletes store.old.kept.catalog n))) ≡ true
        → OnOk result (store.new.kept.catalog ≡ store.old.kept.catalog) }
{
    store.apply(&Event::Deletes(id, n))
}

/// A commit that isn't refused has every live segment that is named and has living documents, and
/// `meta.json` reads it.
pub fn commits_living_segments<O: Outside>(
    store: &mut IndexStore<O>,
    payload: Option<Text>,
    ids: IdList,
) -> Result<Answer, TantivyError>
    requires { store.old.standing.is_open ≡ true }
    ensures living { HoldsSome O.Directory store.old
        → OnOk result (store.new.kept.catalog ≢ store.old.kept.catalog
        → HasLiving ids store.old.kept.catalog store.new.kept.catalog.commit) }
    ensures saved { HoldsSome O.Directory store.old
        → OnOk result (store.new.kept.catalog ≢ store.old.kept.catalog
        → (O.view store.new.outside).reads meta_name
        ≡ Some (saved_text store.new.kept.form.settings store.new.kept.form.schema
        store.new.kept.catalog.commit)) }
{
    store.apply(&Event::Commit(payload, ids))
}

/// After a `reload` that isn't refused a reader shows the commit that `meta.json` means.
pub fn reload_shows_the_commit<O: Outside>(
    store: &mut IndexStore<O>,
    number: u64,
) -> Result<Answer, TantivyError>
    requires { store.old.standing.is_open ≡ true }
    ensures { HoldsSome O.Directory store.old → MayReload store.old.kept.catalog number
        → (reader : Reader) → reader_at store.new.kept.catalog number ≡ Some reader
        → OnOk result (ShowsMeta O.Directory store.new reader.shown) }
{
    store.apply(&Event::Reload(number))
}

/// A searcher shows what was read for its reader: `bytes` asks the directory for nothing but to tell
/// its line. No name reads otherwise, no delete is refused, and no error of a file that is read comes.
pub fn bytes_reads_no_file<O: Outside>(
    store: &mut IndexStore<O>,
    number: u64,
    ord: u32,
    component: SegmentComponent,
) -> Result<Answer, TantivyError>
    requires { store.old.standing.is_open ≡ true }
    ensures shown { HoldsSome O.Directory store.old → IfOk result (λ answer.
        answer ≡ (bytes_step store.old.kept.catalog number ord component).0) }
    ensures asks { OnlyTells O.told (O.view store.old.outside) (O.view store.new.outside) }
    ensures never { IfErr result (λ error. IsReadError error → ⊥) }
{
    store.apply(&Event::Bytes(number, ord, component))
}

/// After a `reopen` the segments of the commit are live, and no others; nobody reads, and no
/// collection is unfinished.
pub fn reopens_what_was_committed<O: Outside>(
    store: &mut IndexStore<O>,
) -> Result<Answer, TantivyError>
    requires { store.old.standing.is_open ≡ true }
    ensures live { HoldsSome O.Directory store.old → OnOk result
        (store.new.kept.catalog.live ≡ store.old.kept.catalog.commit.segments) }
    ensures commit { HoldsSome O.Directory store.old → OnOk result
        (store.new.kept.catalog.commit ≡ store.old.kept.catalog.commit) }
    ensures anew { HoldsSome O.Directory store.old → OnOk result
        ((store.new.kept.catalog.reading ≡ no_readers)
        × (store.new.kept.collections ≡ no_collections)) }
{
    store.apply(&Event::Reopen)
}

/// An event that is refused changes nothing that is read: where its step, with the outcomes of which its
/// line tells, leaves the state as it was, as that of a refusal does, each name reads what it read, that
/// of the list too, and no notice comes. A `write` of no bytes to an open file is left out.
pub fn changes_nothing_where_it_refuses<O: Outside>(
    store: &mut IndexStore<O>,
    event: &Event,
) -> Result<Answer, TantivyError>
    requires { store.old.standing.is_open ≡ true }
    ensures { (held : HoldsSome O.Directory store.old) → WritesByStep store.old.kept event.now
        → IfOk result (λ answer. (outcomes : List Bool)
        × (answer ≡ (step held.state event.now outcomes).0)
        × ((step held.state event.now outcomes).1 ≡ held.state
        → LeavesAlone (O.view store.old.outside) (O.view store.new.outside))) }
{
    store.apply(event)
}
