//! What is to be done for the events of readers.
ghost use Rattle.std.specs.Prelude.{◌≡◌, [], ◌∷◌, codes, true, IfOk, IfErr};
ghost use Rattle.std.specs.Fmt.{decimal};
ghost use Rattle.tv_formats.specs.Files.{has_no_feed};
ghost use Rattle.tv_events.specs.AnswerLines.{line};
ghost use Rattle.tv_machine.specs.Living.{holds_lock};
ghost use Rattle.tv_events.specs.declared.event.Event.TheVariants as events;
ghost use Rattle.tv_catalog.specs.Kept.{kept_with};
ghost use Rattle.tv_catalog.specs.Plans.{Plans, PlanCause};

use crate::action::{Action, Change};
use crate::catalog::Catalog;
use crate::known::KnownFiles;
use crate::plan::{Planned, refusal};
use std::alloc::Global;
use tv_base::TantivyError;
use tv_formats::{Memory, Opstamp};
use tv_machine::{Answer, ReloadPolicy};

// The line of a snapshot that is shown, after this word.
fn shown_line(
    alloc: Global,
    word: &str,
    number: u64,
    generation: u64,
    opstamp: Opstamp,
) -> Result<Answer, Memory>
    requires { has_no_feed word.now ≡ true }
    ensures { IfOk result (λ answer. answer
        ≡ line word.now (decimal number ∷ decimal generation ∷ decimal opstamp ∷ [])) }
{
    Answer::new(alloc, word)?
        .number(number)?
        .number(generation)?
        .number(opstamp)
}

// The line of a reader's reload, after this word.
fn locked_line(alloc: Global, number: u64, opstamp: Opstamp) -> Result<Answer, Memory>
    ensures { IfOk result (λ answer. answer
        ≡ line (codes "locked") (decimal number ∷ decimal opstamp ∷ [])) }
{
    Answer::new(alloc, "locked")?
        .number(number)?
        .number(opstamp)
}

// The line of a reader whose reload has read the files.
fn read_line(alloc: Global, number: u64) -> Result<Answer, Memory>
    ensures { IfOk result (λ answer. answer ≡ line (codes "read") (decimal number ∷ [])) }
{
    Answer::new(alloc, "read")?.number(number)
}

/// A new reader, which shows the current commit.
pub fn plan_reader<'a, K: KnownFiles>(
    alloc: Global,
    catalog: &Catalog,
    files: &K,
    policy: ReloadPolicy,
) -> Result<Planned<'a>, TantivyError>
    ensures plans { IfOk result (Plans (kept_with catalog.now (K.known files.now))
        (events.Reader policy)) }
    ensures cause { IfErr result (PlanCause (kept_with catalog.now (K.known files.now))
        (events.Reader policy)) }
{
    if catalog.is_busy() {
        let refused = refusal(alloc, "lock-busy")?;
        return Ok(refused);
    }
    let number = catalog.readers().next_reader();
    if number == u64::MAX {
        return Err(TantivyError::Exhausted);
    }
    let answer = shown_line(alloc, "reader", number, 0, catalog.commit().opstamp())?;
    Ok(Planned {
        action: Action::Load(0),
        change: Change::AddReader(policy),
        line: answer.into_bytes(),
    })
}

/// A reader shows the current commit from now on.
pub fn plan_reload<'a, K: KnownFiles>(
    alloc: Global,
    catalog: &Catalog,
    files: &K,
    number: u64,
) -> Result<Planned<'a>, TantivyError>
    ensures plans { IfOk result (Plans (kept_with catalog.now (K.known files.now))
        (events.Reload number)) }
    ensures cause { IfErr result (PlanCause (kept_with catalog.now (K.known files.now))
        (events.Reload number)) }
{
    let Some(reader) = catalog.reader(number) else {
        let refused = refusal(alloc, "unknown-reader")?;
        return Ok(refused);
    };
    if reader.is_reloading() {
        let refused = refusal(alloc, "reload-unfinished")?;
        return Ok(refused);
    }
    if catalog.is_busy() {
        let refused = refusal(alloc, "lock-busy")?;
        return Ok(refused);
    }
    let generation = reader.next_generation();
    if generation == u64::MAX {
        return Err(TantivyError::Exhausted);
    }
    let opstamp = catalog.commit().opstamp();
    let answer = shown_line(alloc, "published", number, generation, opstamp)?;
    Ok(Planned {
        action: Action::Load(generation),
        change: Change::Publish(number),
        line: answer.into_bytes(),
    })
}

/// A reader notes the current commit, and the meta lock is held until its files are read.
pub fn plan_reload_lock<'a, K: KnownFiles>(
    alloc: Global,
    catalog: &Catalog,
    files: &K,
    number: u64,
) -> Result<Planned<'a>, TantivyError>
    ensures plans { IfOk result (Plans (kept_with catalog.now (K.known files.now))
        (events.ReloadLock number)) }
    ensures cause { IfErr result (PlanCause (kept_with catalog.now (K.known files.now))
        (events.ReloadLock number)) }
{
    let Some(reader) = catalog.reader(number) else {
        let refused = refusal(alloc, "unknown-reader")?;
        return Ok(refused);
    };
    if reader.is_reloading() {
        let refused = refusal(alloc, "reload-unfinished")?;
        return Ok(refused);
    }
    if catalog.is_busy() {
        let refused = refusal(alloc, "lock-busy")?;
        return Ok(refused);
    }
    // The copy is made before the lock is taken, so that no memory is wanted afterwards.
    let noted = catalog.commit().share(alloc)?;
    let answer = locked_line(alloc, number, noted.opstamp())?;
    Ok(Planned {
        action: Action::Lock,
        change: Change::Note(number, noted),
        line: answer.into_bytes(),
    })
}

/// The files are read of the commit that a reader has noted.
pub fn plan_reload_open<'a, K: KnownFiles>(
    alloc: Global,
    catalog: &Catalog,
    files: &K,
    number: u64,
) -> Result<Planned<'a>, TantivyError>
    ensures plans { IfOk result (Plans (kept_with catalog.now (K.known files.now))
        (events.ReloadOpen number)) }
    ensures cause { IfErr result (PlanCause (kept_with catalog.now (K.known files.now))
        (events.ReloadOpen number)) }
{
    let Some(reader) = catalog.reader(number) else {
        let refused = refusal(alloc, "unknown-reader")?;
        return Ok(refused);
    };
    let Some(noted) = reader.noted() else {
        let refused = refusal(alloc, "no-reload")?;
        return Ok(refused);
    };
    catalog.readers().in_order();
    let noted = noted.share(alloc)?;
    let answer = read_line(alloc, number)?;
    Ok(Planned {
        action: Action::Read(noted),
        change: Change::Keep(number),
        line: answer.into_bytes(),
    })
}

/// The readers with a notice show the current commit from now on.
pub fn plan_deliver<'a, K: KnownFiles>(
    alloc: Global,
    catalog: &Catalog,
    files: &K,
) -> Result<Planned<'a>, TantivyError>
    ensures plans { IfOk result (Plans (kept_with catalog.now (K.known files.now)) events.Deliver) }
    ensures cause { IfErr result (PlanCause (kept_with catalog.now (K.known files.now))
        events.Deliver) }
{
    if catalog.is_busy() {
        let refused = refusal(alloc, "lock-busy")?;
        return Ok(refused);
    }
    let readers = catalog.readers();
    if readers.is_unfinished() {
        let refused = refusal(alloc, "reload-unfinished")?;
        return Ok(refused);
    }
    if readers.is_spent() {
        return Err(TantivyError::Exhausted);
    }
    let answer = readers.delivered_line()?;
    let line = answer.into_bytes();
    if readers.has_notice() {
        return Ok(Planned {
            action: Action::Load(0),
            change: Change::Deliver,
            line,
        });
    }
    Ok(Planned {
        action: Action::Nothing,
        change: Change::Nothing,
        line,
    })
}

/// A reader ends whose reload holds the meta lock.
pub fn plan_release_reader<'a, K: KnownFiles>(
    alloc: Global,
    catalog: &Catalog,
    files: &K,
    number: u64,
) -> Result<Planned<'a>, TantivyError>
    requires { holds_lock catalog.now number ≡ true }
    ensures plans { IfOk result (Plans (kept_with catalog.now (K.known files.now))
        (events.ReleaseReader number)) }
    ensures cause { IfErr result (PlanCause (kept_with catalog.now (K.known files.now))
        (events.ReleaseReader number)) }
{
    catalog.readers().in_order();
    let answer = Answer::new(alloc, "released")?;
    Ok(Planned {
        action: Action::Unlock,
        change: Change::EndReader(number),
        line: answer.into_bytes(),
    })
}
