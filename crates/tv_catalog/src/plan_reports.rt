//! What is to be done for the event that reports on files.
ghost use Rattle.std.specs.Prelude.{◌≡◌, ◌≤◌, ◌+◌, [], codes, length, vec_capacity, IfOk, IfErr};
ghost use Rattle.tv_events.specs.AnswerLines.{line};
ghost use Rattle.tv_events.specs.declared.event.Event.TheVariants as events;
ghost use Rattle.tv_catalog.specs.Kept.{kept_with};
ghost use Rattle.tv_catalog.specs.Plans.{Plans, PlanCause};

use crate::action::{Action, Change};
use crate::catalog::Catalog;
use crate::known::KnownFiles;
use crate::plan::Planned;
use std::alloc::Global;
use tv_base::TantivyError;
use tv_formats::{FileName, Memory};

// How long the words are of the refusal of a file that can't be read, which are longer than `damaged`.
const WORDS: usize = 18;

// How long these names are, each with the space before it.
fn names_len(names: &[FileName]) -> Result<usize, Memory>
    ensures { IfOk result (λ len. len ≡ length (line [] names.now)) }
{
    let mut len: usize = 0;
    for name in names {
        len = longer(len, name.as_str().len())?;
    }
    Ok(len)
}

// The sum of these lengths, and of a space.
fn longer(len: usize, more: usize) -> Result<usize, Memory>
    ensures { IfOk result (λ sum. sum ≡ len + more + 1) }
{
    let sum = len.checked_add(more).ok_or(Memory)?;
    sum.checked_add(1).ok_or(Memory)
}

// The word `damaged`, in a vector that has room for the line of any of these files.
fn damaged_word(alloc: Global, names: &[FileName]) -> Result<Vec<u8>, Memory>
    ensures word { IfOk result (λ text. text.items ≡ codes "damaged") }
    ensures room { IfOk result (λ text. length (line [] names.now) + WORDS ≤ vec_capacity text) }
{
    let len = names_len(names)?.checked_add(WORDS).ok_or(Memory)?;
    let mut text = Vec::with_capacity(alloc, len)?;
    text.extend_from_slice(b"damaged")?;
    Ok(text)
}

/// The checksums of the current commit's files are compared with those of their bodies.
pub fn plan_validate<'a, K: KnownFiles>(
    alloc: Global,
    catalog: &Catalog,
    files: &K,
) -> Result<Planned<'a>, TantivyError>
    ensures plans { IfOk result (Plans (kept_with catalog.now (K.known files.now)) events.Validate) }
    ensures cause { IfErr result (PlanCause (kept_with catalog.now (K.known files.now)) events.Validate) }
{
    let names = catalog.committed_names(files.managed())?;
    let line = damaged_word(alloc, names.as_slice())?;
    Ok(Planned {
        action: Action::Validate(names),
        change: Change::Nothing,
        line,
    })
}
