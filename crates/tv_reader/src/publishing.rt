//! A commit is published, once the warmers were called.
ghost use Rattle.std.specs.Prelude.{◌≡◌, ◌<◌, ◌⊎◌, IfErr, IfOk, OnErr, OnOk, true};
ghost use Rattle.std.specs.Arc.{arc_value};
ghost use Rattle.tv_device.specs.Images.{KeepsDisk};
ghost use Rattle.tv_device.specs.View.{OnlyReads};
ghost use Rattle.tv_index.specs.Indexes.{KeepsIndex};
ghost use Rattle.tv_reader.specs.Publishing.{BuildCause, BuiltBy, IsOfOne, PublishedBy, ReloadedBy, UnpublishedBy, items_of};
ghost use Rattle.tv_reader.specs.Readers.{IsReadOut, OfRead, live_generations, shows_live};
ghost use Rattle.tv_reader.specs.Reloads.{LoadCause, LoadsLast};
ghost use Rattle.tv_reader.specs.Searchers.{CommitRead};
ghost use Rattle.tv_reader.specs.Warming.{Collects};

use crate::loading::load_last;
use crate::published::Published;
use crate::searcher::ReadCommit;
use crate::warmer::Warmer;
use crate::warmers::Warmers;
use std::alloc::Global;
use std::sync::Arc;
use tv_base::{Memory, TantivyError};
use tv_device::Directory;
use tv_index::Index;
use tv_machine::ReloadPolicy;

/// Shows a commit whose files were read under the next number, once each warmer was called.
pub(crate) fn publish<W: Warmer>(
    published: &mut Published,
    warmers: &mut Warmers<W>,
    commit: Arc<ReadCommit, Global>,
) -> Result<u64, TantivyError>
    ensures id { IfOk result (λ id. id ≡ published.old.next) }
    ensures rises { IfOk result (λ id. published.old.shown.shown.generation.id < id) }
    ensures ok { OnOk result (PublishedBy W.errors W.test W.called_for (arc_value commit)
        published.old published.new warmers.old warmers.new) }
    ensures live { OnOk result (shows_live published.new ≡ true) }
    ensures cause { IfErr result (UnpublishedBy W.errors W.test W.called_for (arc_value commit)
        published.old published.new warmers.old warmers.new) }
{
    let id = published.next_generation();
    let searcher = published.count(commit)?;
    match warmers.warm_new(&searcher) {
        Ok(()) => {
            published.show(searcher);
            Ok(id)
        },
        Err(error) => {
            published.release(searcher);
            Err(error)
        },
    }
}

/// Shows the last commit of an index, once each warmer was called.
pub(crate) fn publish_last<D: Directory, W: Warmer>(
    published: &mut Published,
    warmers: &mut Warmers<W>,
    index: &mut Index<D>,
) -> Result<(), TantivyError>
    ensures ok { OnOk result ((commit : CommitRead)
        × LoadsLast D.Directory index.old index.new commit
        × PublishedBy W.errors W.test W.called_for commit published.old published.new
        warmers.old warmers.new) }
    ensures rises { OnOk result
        (published.old.shown.shown.generation.id < published.new.shown.shown.generation.id) }
    ensures live { OnOk result (shows_live published.new ≡ true) }
    ensures cause { IfErr result (λ e. ((published.new ≡ published.old)
        × (warmers.new ≡ warmers.old) × LoadCause D.Directory index.old index.new e)
        ⊎ ((commit : CommitRead) × LoadsLast D.Directory index.old index.new commit
        × UnpublishedBy W.errors W.test W.called_for commit published.old published.new
        warmers.old warmers.new e)) }
    ensures frame { KeepsIndex (OnlyReads D.told) D.view index.old index.new }
    ensures images { D.tells_images
        → KeepsDisk (D.disk index.old.directory.0) (D.disk index.new.directory.0) }
{
    match load_last(published.allocator(), index) {
        Ok(commit) => match publish(published, warmers, commit) {
            Ok(_) => Ok(()),
            Err(error) => Err(error),
        },
        Err(error) => Err(error),
    }
}

/// Shows the commit of the reload whose files were read, once each warmer was called, and ends the
/// reload.
pub(crate) fn publish_read<W: Warmer>(
    published: &mut Published,
    warmers: &mut Warmers<W>,
) -> Result<u64, TantivyError>
    requires read { IsReadOut published.old.reload }
    ensures id { IfOk result (λ id. id ≡ published.old.next) }
    ensures rises { IfOk result (λ id. published.old.shown.shown.generation.id < id) }
    ensures ok { OnOk result (OfRead published.old.reload (λ commit. ReloadedBy W.errors W.test
        W.called_for commit published.old published.new warmers.old warmers.new)) }
    ensures live { OnOk result (shows_live published.new ≡ true) }
    ensures cause { IfErr result (λ e. OfRead published.old.reload (λ commit. UnpublishedBy W.errors
        W.test W.called_for commit published.old published.new warmers.old warmers.new e)) }
{
    let commit = published.read()?;
    match publish(published, warmers, commit) {
        Ok(id) => {
            published.end_reload();
            Ok(id)
        },
        Err(error) => Err(error),
    }
}

/// Calls the warmers where a generation that was warmed isn't live any more.
pub(crate) fn collect<W: Warmer>(
    published: &Published,
    warmers: &mut Warmers<W>,
) -> Result<bool, Memory>
    ensures ok { IfOk result (Collects W.errors W.test W.called_for
        (live_generations published.now) warmers.old warmers.new) }
    ensures err { OnErr result (warmers.new ≡ warmers.old) }
{
    let live = published.live()?;
    warmers.collect_ended(live.as_slice())
}

// The warmers that were handed in, none where none were.
fn listed<W: Drop>(alloc: Global, warmers: Option<Vec<W>>) -> Vec<W>
    ensures { result.items ≡ items_of warmers }
{
    match warmers {
        Some(warmers) => warmers,
        None => Vec::new(alloc),
    }
}

// Shows a commit under the number 0, once each warmer was called.
fn open_warmed<W: Warmer>(
    alloc: Global,
    policy: ReloadPolicy,
    warmers: Vec<W>,
    commit: Arc<ReadCommit, Global>,
) -> Result<(Published, Warmers<W>), TantivyError>
    ensures ok { IfOk result (λ built. BuiltBy W.errors W.test W.called_for policy warmers.items
        (arc_value commit) built.0 built.1) }
    ensures cause { IfErr result (λ e.
        (e ≡ TantivyError.Memory) ⊎ IsOfOne W.test warmers.items e) }
{
    let published = Published::new(alloc, policy, commit)?;
    let mut left = Warmers::new(alloc, warmers)?;
    match left.warm_new(published.shown()) {
        Ok(()) => Ok((published, left)),
        Err(error) => Err(error),
    }
}

/// Shows the last commit of an index under the number 0, once each warmer was called.
pub(crate) fn build<D: Directory, W: Warmer>(
    alloc: Global,
    policy: ReloadPolicy,
    warmers: Option<Vec<W>>,
    index: &mut Index<D>,
) -> Result<(Published, Warmers<W>), TantivyError>
    ensures ok { IfOk result (λ built. (commit : CommitRead)
        × LoadsLast D.Directory index.old index.new commit
        × BuiltBy W.errors W.test W.called_for policy (items_of warmers) commit built.0 built.1) }
    ensures cause { IfErr result
        (BuildCause D.Directory W.test (items_of warmers) index.old index.new) }
    ensures frame { KeepsIndex (OnlyReads D.told) D.view index.old index.new }
    ensures images { D.tells_images
        → KeepsDisk (D.disk index.old.directory.0) (D.disk index.new.directory.0) }
{
    match load_last(alloc, index) {
        Ok(commit) => match open_warmed(alloc, policy, listed(alloc, warmers), commit) {
            Ok(built) => Ok(built),
            Err(error) => Err(error),
        },
        Err(error) => Err(error),
    }
}
