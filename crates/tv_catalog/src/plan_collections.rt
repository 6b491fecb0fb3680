//! What is to be done for the events that collect files.
ghost use Rattle.std.specs.Prelude.{◌≡◌, ◌≤◌, ◌<◌, ◌+◌, ◌^◌, [], ◌∷◌, true, codes, length, map, string_bytes, vec_capacity, IfOk, IfErr, SomeIff};
ghost use Rattle.std.specs.Fmt.{decimal};
ghost use Rattle.tv_formats.specs.Files.{has_no_feed};
ghost use Rattle.tv_events.specs.AnswerLines.{line};
ghost use Rattle.tv_events.specs.declared.event.Event.TheVariants as events;
ghost use Rattle.tv_catalog.specs.Kept.{kept_with};
ghost use Rattle.tv_catalog.specs.Plans.{Plans, PlanCause};

use crate::action::{Action, Change};
use crate::catalog::Catalog;
use crate::known::KnownFiles;
use crate::lines::push_texts;
use crate::plan::{Planned, refusal, with_room};
use std::alloc::Global;
use std::collections::BTreeSet;
use tv_base::TantivyError;
use tv_formats::Memory;
use tv_machine::Answer;

// How long what is told of a name that failed is beside the name: the word with a space on each side. The
// word for one that is done is shorter.
const FAILED_LEN: usize = 8;

// How long the line of some names is that begins with this text; nothing where 64 bits can't hold that.
fn line_len(text: &[u8], names: &BTreeSet<String>) -> Option<usize>
    ensures { SomeIff result (length (line text.now (map string_bytes names.now.keys)) < 2 ^ 64)
        (length (line text.now (map string_bytes names.now.keys))) }
{
    let mut len = text.len();
    for name in names {
        len = len.checked_add(name.len() + 1)?;
    }
    Some(len)
}

// An empty line, with room for that of a collection: it has each of the managed names at most once.
fn collected_room(alloc: Global, managed: &BTreeSet<String>) -> Result<Vec<u8>, Memory>
    ensures empty { IfOk result (λ text. text.items ≡ []) }
    ensures room { IfOk result (λ text.
        length (line (codes "gc deleted failed") (map string_bytes managed.now.keys))
        ≤ vec_capacity text) }
{
    let len = line_len(b"gc deleted failed", managed).ok_or(Memory)?;
    let text = Vec::with_capacity(alloc, len)?;
    Ok(text)
}

// The line of a collection in steps, up to its number.
fn number_line(alloc: Global, number: u64) -> Result<Answer, Memory>
    ensures { IfOk result (λ answer. answer ≡ line (codes "gc") (decimal number ∷ [])) }
{
    Answer::new(alloc, "gc")?.number(number)
}

// A line in a vector that has room for this many bytes more.
fn with_more(answer: Answer, more: usize) -> Result<Vec<u8>, Memory>
    ensures line { IfOk result (λ line. line.items ≡ answer) }
    ensures feed { IfOk result (λ line. has_no_feed line.items ≡ true) }
    ensures room { IfOk result (λ line. length answer + more ≤ vec_capacity line) }
{
    let mut line = answer.into_bytes();
    line.reserve(more)?;
    Ok(line)
}

// The line of a collection that ended.
fn ended_line(alloc: Global, number: u64) -> Result<Answer, Memory>
    ensures { IfOk result (λ answer. answer ≡ line (codes "gc")
        (decimal number ∷ codes "end" ∷ [])) }
{
    Answer::new(alloc, "gc")?.number(number)?.word(b"end")
}

/// The files that nothing needs are tried.
pub fn plan_gc<'a, K: KnownFiles>(
    alloc: Global,
    catalog: &Catalog,
    files: &K,
) -> Result<Planned<'a>, TantivyError>
    ensures plans { IfOk result (Plans (kept_with catalog.now (K.known files.now)) events.Gc) }
    ensures cause { IfErr result (PlanCause (kept_with catalog.now (K.known files.now)) events.Gc) }
{
    if catalog.is_busy() {
        let refused = refusal(alloc, "lock-busy")?;
        return Ok(refused);
    }
    let living = catalog.living()?;
    let line = collected_room(alloc, files.managed())?;
    Ok(Planned {
        action: Action::Collect(living),
        change: Change::Nothing,
        line,
    })
}

// A line in a vector that has room for it with all managed names.
fn managed_room(answer: Answer, managed: &BTreeSet<String>) -> Result<Vec<u8>, Memory>
    ensures line { IfOk result (λ line. line.items ≡ answer) }
    ensures feed { IfOk result (λ line. has_no_feed line.items ≡ true) }
    ensures room { IfOk result (λ text.
        length (line answer (map string_bytes managed.now.keys)) ≤ vec_capacity text) }
{
    let len = line_len(answer.as_slice(), managed).ok_or(Memory)?;
    let line = with_room(answer, len)?;
    Ok(line)
}

/// A collection begins of the managed files that nothing needs.
pub fn plan_gc_begin<'a, K: KnownFiles>(
    alloc: Global,
    catalog: &Catalog,
    files: &K,
) -> Result<Planned<'a>, TantivyError>
    ensures plans { IfOk result (Plans (kept_with catalog.now (K.known files.now)) events.GcBegin) }
    ensures cause { IfErr result (PlanCause (kept_with catalog.now (K.known files.now)) events.GcBegin) }
{
    if catalog.is_busy() {
        let refused = refusal(alloc, "lock-busy")?;
        return Ok(refused);
    }
    let living = catalog.living()?;
    let names = files.collectable(&living)?;
    let answer = number_line(alloc, files.next_collection())?;
    let mut line = managed_room(answer, files.managed())?;
    push_texts(&mut line, names.as_slice());
    Ok(Planned {
        action: Action::Begin(living),
        change: Change::Nothing,
        line,
    })
}

/// The first name that a collection has left is tried.
pub fn plan_gc_step<'a, K: KnownFiles>(
    alloc: Global,
    catalog: &Catalog,
    files: &K,
    number: u64,
) -> Result<Planned<'a>, TantivyError>
    ensures plans { IfOk result (Plans (kept_with catalog.now (K.known files.now))
        (events.GcStep number)) }
    ensures cause { IfErr result (PlanCause (kept_with catalog.now (K.known files.now))
        (events.GcStep number)) }
{
    let Some(left) = files.collect_left(number) else {
        let refused = refusal(alloc, "unknown-collection")?;
        return Ok(refused);
    };
    if left == 0 {
        let refused = refusal(alloc, "nothing-left")?;
        return Ok(refused);
    }
    let answer = number_line(alloc, number)?;
    let line = with_more(answer, FAILED_LEN + files.next_len(number))?;
    Ok(Planned {
        action: Action::Try(number),
        change: Change::Nothing,
        line,
    })
}

/// A collection is finished.
pub fn plan_gc_end<'a, K: KnownFiles>(
    alloc: Global,
    catalog: &Catalog,
    files: &K,
    number: u64,
) -> Result<Planned<'a>, TantivyError>
    ensures plans { IfOk result (Plans (kept_with catalog.now (K.known files.now))
        (events.GcEnd number)) }
    ensures cause { IfErr result (PlanCause (kept_with catalog.now (K.known files.now))
        (events.GcEnd number)) }
{
    if files.collect_left(number).is_none() {
        let refused = refusal(alloc, "unknown-collection")?;
        return Ok(refused);
    }
    let answer = ended_line(alloc, number)?;
    Ok(Planned {
        action: Action::End(number),
        change: Change::Nothing,
        line: answer.into_bytes(),
    })
}
