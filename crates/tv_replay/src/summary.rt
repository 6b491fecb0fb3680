//! What is said of the replay of a generated script.
ghost use Rattle.std.specs.Prelude.{◌≡◌, ◌<◌, ◌^◌, List, ℕ, map, true, filter, length, is_some, IfOk, string_bytes};
ghost use Rattle.std.specs.List.{list_all};
ghost use Rattle.tv_directory.specs.Pieces.{bytes_heard};
ghost use Rattle.tv_formats.specs.Commits.{Settings};
ghost use Rattle.tv_machine.specs.Index.{DirectoryHolds};
ghost use Rattle.tv_formats.specs.Names.{is_plain};
ghost use Rattle.tv_machine.specs.State.{State};
ghost use Rattle.tv_replay.specs.Summaries.{before_failed, collected_in, deleted_in, summary_line, IsStanding, IsSummaryOf, ReplaysGenerated};

use crate::generating::generate;
use crate::replaying::{Replayed, replay};
use std::alloc::Global;
use tv_base::{META_FILEPATH, OpenReadError, Opstamp, TantivyError, TextSource};
use tv_device::{Directory, NoWatch};
use tv_directory::Bench;
use tv_formats::Memory;
use tv_index::UntrackedIndexMeta;
use tv_managed::{ManagedDirectory, Refused};
use tv_script::words_of;

// The schema of the index, which has no fields.
const SCHEMA: &[u8] = b"[]";

// What stands in a directory: the number of the commit, and how many files its index has.
#[derive(Clone, Copy)]
struct Standing {
    opstamp: Opstamp,
    files: usize,
}

/// The summary of the replay of a generated script of `n` commits, over a new index in memory.
pub(crate) fn summary_of(alloc: Global, n: u32) -> Result<String, Memory>
    ensures { IfOk result (λ line. IsSummaryOf n (string_bytes line)) }
{
    let (events, bench) = replay_generated(alloc, n)?;
    let heard = bench.heard_lines()?;
    let collected = collected_in(alloc, heard.as_slice())?;
    // No call is refused here, so that an error is want of memory.
    let Ok(standing) = standing_in(alloc, bench) else {
        return Err(Memory);
    };
    summary_line(alloc, events, standing.opstamp, standing.files, collected)
}

// The line of a summary.
fn summary_line(
    alloc: Global,
    events: u32,
    stamp: Opstamp,
    files: usize,
    collected: usize,
) -> Result<String, Memory>
    ensures { IfOk result (λ line. string_bytes line ≡ summary_line events stamp files collected) }
{
    let commits = format!(in alloc; "events {events} stamp {stamp}")?;
    let line = format!(in alloc; "{commits} files {files} collected {collected}")?;
    Ok(line)
}

// Replays a generated script of `n` commits: of how many events it was, and the directory.
fn replay_generated(alloc: Global, n: u32) -> Result<(u32, Bench<NoWatch>), Memory>
    ensures { IfOk result (λ replayed. ReplaysGenerated n replayed.0
        (bytes_heard (⟦<Bench<NoWatch> as Directory>⟧.view replayed.1).heard)
        (⟦<Bench<NoWatch> as Directory>⟧.view replayed.1).reads) }
{
    let mut script = TextSource::new(generate(alloc, n)?, Vec::new(alloc));
    let bench: Bench<NoWatch> = Bench::new(alloc, Vec::new(alloc))?;
    let Replayed { outside, outcome } = replay(alloc, bench, SCHEMA, &mut script);
    // No call is refused here, so that an error is want of memory.
    match outcome {
        Ok(tally) if outside.refusals() == 0 => Ok((tally.events, outside)),
        _ => Err(Memory),
    }
}

// How many names the lines of a text say were deleted.
fn collected_in(alloc: Global, text: &[u8]) -> Result<usize, Memory>
    requires { length text.now < 2 ^ 64 }
    ensures { IfOk result (λ collected. collected ≡ collected_in text.now) }
{
    let lines = text.split(|b| *b == b'\n').collect::<Vec<&[u8]>>(alloc)?;
    let mut collected = 0;
    for line in lines.iter() {
        let words = words_of(alloc, line)?;
        collected += deleted_in(words.as_slice());
    }
    Ok(collected)
}

// How many names the words of a line say were deleted.
fn deleted_in(words: &[&[u8]]) -> usize
    ensures { result ≡ deleted_in (map (λ w. w.now) words.now) }
{
    match words {
        [first, second, names @ ..]
            if *first == b"gc".as_slice() && *second == b"deleted".as_slice() => {
            before_failed(names)
        }
        _ => 0,
    }
}

// How many of these words come before the word `failed`.
fn before_failed(words: &[&[u8]]) -> usize
    ensures { result ≡ before_failed (map (λ w. w.now) words.now) }
{
    let mut count = 0;
    for word in words {
        if *word == b"failed".as_slice() {
            return count;
        }
        count += 1;
    }
    count
}

// What stands in a directory.
fn standing_in<D: Directory + Drop>(alloc: Global, directory: D) -> Result<Standing, TantivyError>
    ensures { D.told.content → IfOk result (λ standing. (settings : Settings) (schema : List ℕ)
        (s : State) → DirectoryHolds settings schema (D.view directory).reads s
        → IsStanding s standing.opstamp standing.files) }
{
    let mut directory = match ManagedDirectory::wrap(alloc, directory) {
        Ok(directory) => directory,
        Err(
            Refused {
                error,
                directory: _,
            },
        ) => return Err(error),
    };
    let standing = look_into(alloc, &mut directory);
    let _directory = directory.into_directory();
    standing
}

// What stands in a directory whose names are managed.
fn look_into<D: Directory>(
    alloc: Global,
    directory: &mut ManagedDirectory<D>,
) -> Result<Standing, TantivyError>
    ensures { D.told.content → IfOk result (λ standing. (settings : Settings) (schema : List ℕ)
        (s : State) → s.managed ≡ directory.old.1.managed
        → DirectoryHolds settings schema (D.view directory.old.0).reads s
        → IsStanding s standing.opstamp standing.files) }
{
    let text = directory.atomic_read(META_FILEPATH)?;
    let meta = UntrackedIndexMeta::parse(alloc, text.as_slice(), None)?;
    let names = managed_names(alloc, directory)?;
    let files = count_files(directory, names.as_slice())?;
    Ok(Standing {
        opstamp: meta.opstamp,
        files,
    })
}

// The managed names.
fn managed_names<D: Directory>(
    alloc: Global,
    directory: &ManagedDirectory<D>,
) -> Result<Vec<String>, Memory>
    ensures names { IfOk result (λ names.
        map string_bytes names.items ≡ directory.now.1.managed) }
    ensures plain { list_all is_plain directory.now.1.managed ≡ true }
{
    let mut names = Vec::new(alloc);
    for name in directory.list_managed_files() {
        names.push(String::from_str(alloc, name.as_str())?)?;
    }
    Ok(names)
}

// How many of these names read.
fn count_files<D: Directory>(
    directory: &mut ManagedDirectory<D>,
    names: &[String],
) -> Result<usize, OpenReadError>
    requires { list_all is_plain (map string_bytes names.now) ≡ true }
    ensures { D.told.content → IfOk result (λ files. files ≡ length (filter
        (λ name. is_some ((D.view directory.old.0).reads name)) (map string_bytes names.now))) }
{
    let mut files = 0;
    for name in names {
        if directory.exists(name.as_str())? {
            files += 1;
        }
    }
    Ok(files)
}
