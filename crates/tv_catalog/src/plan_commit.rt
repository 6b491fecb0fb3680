//! What is to be done for a commit.
ghost use Rattle.std.specs.Prelude.{◌≡◌, ◌<◌, [], ◌∷◌, List, None, ℕ, codes, true, IfErr, IfOk};
ghost use Rattle.std.specs.BTreeMap.{IsOrdered};
ghost use Rattle.std.specs.List.{AllByRecursion};
ghost use Rattle.std.specs.Fmt.{decimal};
ghost use Rattle.tv_formats.specs.Commits.{IsCommit, IsSegment};
ghost use Rattle.tv_formats.specs.Files.{has_no_feed};
ghost use Rattle.tv_formats.specs.Names.{byte_cmp};
ghost use Rattle.tv_machine.specs.CommitEvents.{chosen, first_unknown, last_stamp};
ghost use Rattle.tv_events.specs.AnswerLines.{line};
ghost use Rattle.tv_events.specs.declared.event.Event.TheVariants as events;
ghost use Rattle.tv_catalog.specs.Committing.{unknown_line};
ghost use Rattle.tv_catalog.specs.Kept.{kept_with};
ghost use Rattle.tv_catalog.specs.Plans.{Plans, PlanCause};
ghost use Rattle.tv_catalog.specs.declared.action.Action.TheVariants as actions;
ghost use Rattle.tv_catalog.specs.declared.action.Change.TheVariants as changes;

use crate::action::{Action, Change};
use crate::answers::refused;
use crate::catalog::Catalog;
use crate::known::KnownFiles;
use crate::plan::{Planned, refusal, with_room};
use std::alloc::Global;
use std::collections::BTreeMap;
use tv_base::TantivyError;
use tv_formats::{LiveSegment, Memory, Opstamp, SegmentId};
use tv_machine::{Answer, IdList, Text};
use tv_snapshots::commit::{Commit, copied};
use tv_snapshots::names::required_files;

// As long as the longest line that names a file which isn't sealed: the words, an id, the number of
// a delete and the extension.
pub const REFUSAL_ROOM: usize = 80;

// The answer to a commit of this many segments.
fn commit_answer(alloc: Global, opstamp: Opstamp, count: usize) -> Result<Answer, Memory>
    ensures { IfOk result (λ answer. answer ≡ line (codes "commit")
        (decimal opstamp ∷ decimal count ∷ [])) }
{
    Answer::new(alloc, "commit")?
        .number(opstamp)?
        .number(count as u64)
}

// The refusal of an id that isn't live.
fn unknown(alloc: Global, id: SegmentId) -> Result<Answer, Memory>
    ensures { IfOk result (λ answer. answer ≡ unknown_line id) }
{
    refused(alloc, "unknown-segment")?.id(id)
}

// What refuses an id that isn't live: nothing is done.
fn refuse_unknown<'a>(alloc: Global, id: SegmentId) -> Result<Planned<'a>, Memory>
    ensures action { IfOk result (λ p. p.action ≡ actions.Nothing) }
    ensures change { IfOk result (λ p. p.change ≡ changes.Nothing) }
    ensures line { IfOk result (λ p. p.line.items ≡ unknown_line id) }
    ensures feed { IfOk result (λ p. has_no_feed p.line.items ≡ true) }
{
    let answer = unknown(alloc, id)?;
    Ok(Planned {
        action: Action::Nothing,
        change: Change::Nothing,
        line: answer.into_bytes(),
    })
}

// A commit of these segments, with a copy of the payload.
fn new_commit(
    alloc: Global,
    opstamp: Opstamp,
    payload: &Option<Text>,
    segments: BTreeMap<SegmentId, LiveSegment>,
) -> Result<Commit, Memory>
    ensures commit { IfOk result (λ commit. commit
        ≡ record { opstamp = opstamp; payload = payload.now; segments = segments.entries }) }
    ensures sound { IsOrdered byte_cmp segments → AllByRecursion IsSegment segments.entries
        → IfOk result IsCommit }
{
    let payload = copied(alloc, payload)?;
    Ok(Commit::new(opstamp, payload, segments))
}

// The next commit, of these segments, is saved where their files are sealed.
fn plan_save<'a, K: KnownFiles>(
    alloc: Global,
    catalog: &Catalog,
    files: &K,
    payload: &Option<Text>,
    segments: BTreeMap<SegmentId, LiveSegment>,
) -> Result<Planned<'a>, Memory>
    requires next { catalog.now.next < last_stamp }
    requires sound { AllByRecursion IsSegment segments.entries }
    ensures { (ids : List (List ℕ)) → first_unknown catalog.now ids ≡ None
        → segments.entries ≡ chosen catalog.now ids
        → IfOk result (Plans (kept_with catalog.now (K.known files.now))
        (events.Commit payload.now ids)) }
{
    let count = segments.len();
    let commit = new_commit(alloc, catalog.next_opstamp(), payload, segments)?;
    let text = commit.print(alloc, files.settings(), files.schema())?;
    let required = required_files(alloc, commit.by_id())?;
    let answer = commit_answer(alloc, commit.opstamp(), count)?;
    let line = with_room(answer, REFUSAL_ROOM)?;
    Ok(Planned {
        action: Action::Save(commit, text, required),
        change: Change::Nothing,
        line,
    })
}

/// The named segments become the current commit.
pub fn plan_commit<'a, K: KnownFiles>(
    alloc: Global,
    catalog: &Catalog,
    files: &K,
    payload: &Option<Text>,
    ids: &IdList,
) -> Result<Planned<'a>, TantivyError>
    ensures plans { IfOk result (Plans (kept_with catalog.now (K.known files.now))
        (events.Commit payload.now ids.now)) }
    ensures cause { IfErr result (PlanCause (kept_with catalog.now (K.known files.now))
        (events.Commit payload.now ids.now)) }
{
    if catalog.next_opstamp() == Opstamp::MAX {
        let refused = refusal(alloc, "stamps-spent")?;
        return Ok(refused);
    }
    match catalog.chosen(ids.as_slice())? {
        Ok(segments) => {
            let planned = plan_save(alloc, catalog, files, payload, segments)?;
            Ok(planned)
        }
        Err(id) => {
            let refused = refuse_unknown(alloc, id)?;
            Ok(refused)
        }
    }
}
