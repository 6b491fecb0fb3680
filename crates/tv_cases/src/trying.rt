//! Cases that are tried, and what differs between what they say and what came.
use crate::case::{Case, Form, Left, Locks, Piece, Run, Wanted, Wish};
use crate::running::{CaseBench, Manner, Seen, empty, observe, read};
use std::alloc::{AllocError, Global};
use std::fmt::{Display, Write};
use tv_directory::Directory;

// `refuse each` tries no more calls.
const MOST_CALLS: u64 = 10_000;

// A run whose calls are refused begins with this number in the device's own count, the next run with twice as
// much, and so on: the runs before it make fewer calls.
const STEP: u64 = 1_000;

/// The line of the file that wants something else, what it wants, and what was found.
#[derive(Drop)]
pub(crate) struct Difference {
    pub(crate) at: usize,
    pub(crate) text: String,
}

/// Why a case didn't go as it says.
#[derive(Drop)]
pub(crate) enum Trouble {
    /// Something else came of it.
    Differs(Difference),
    /// It couldn't be tried.
    Untried(anyhow::Error),
}

impl From<anyhow::Error> for Trouble {
    fn from(error: anyhow::Error) -> Trouble {
        Trouble::Untried(error)
    }
}

impl From<AllocError> for Trouble {
    fn from(error: AllocError) -> Trouble {
        Trouble::Untried(anyhow::Error::from(error))
    }
}

/// Whether all is as a case says.
pub(crate) type Checked = Result<(), Trouble>;

// Something isn't as it is wanted.
fn differs<T: Display + Copy>(
    alloc: Global,
    at: usize,
    what: &str,
    wanted: T,
    found: T,
) -> Checked {
    let text = format!(in alloc; "{what}: wants {wanted}, found {found}")?;
    Err(Trouble::Differs(Difference { at, text }))
}

// The numbers that came of a run.
fn check_numbers(alloc: Global, wanted: &Wanted, seen: &Seen) -> Checked {
    for (what, wish, found) in [
        ("status", wanted.status, u64::from(seen.status)),
        ("faults", wanted.faults, seen.faults),
        ("refusals", wanted.refusals, seen.refusals),
        ("asked", wanted.asked, seen.asked as u64),
    ] {
        check_number(alloc, what, wish, found)?;
    }
    Ok(())
}

// What was told and said.
fn check_talk(alloc: Global, at: usize, told: &[Piece], wanted: &Wanted, seen: &Seen) -> Checked {
    check_pieces(alloc, at, "told", told, seen.told.as_slice())?;
    let said = wanted.said.as_slice();
    check_pieces(alloc, at, "said", said, seen.said.as_slice())
}

// What is under a name.
fn check_file(alloc: Global, left: &Left, found: Option<&[u8]>) -> Checked {
    match (&left.form, found) {
        (Form::Absent, None) => Ok(()),
        (Form::Absent, Some(_)) => is_unlike(alloc, left, "no file", found),
        (Form::Reads(want), Some(found)) => check_bytes(alloc, left, want.as_slice(), found),
        (Form::Like { text, parts }, Some(found)) => {
            check_form(alloc, left, text.as_str(), parts.as_slice(), found)
        }
        (_, None) => is_unlike(alloc, left, "a file", found),
    }
}

// A file isn't as it should be, or isn't there, or mustn't be.
fn is_unlike(alloc: Global, left: &Left, wanted: &str, found: Option<&[u8]>) -> Checked {
    let has = found_text(alloc, found)?;
    differs(alloc, left.at, left.name.as_str(), wanted, has.as_str())
}

// The bytes of a file.
fn check_bytes(alloc: Global, left: &Left, want: &[u8], found: &[u8]) -> Checked {
    if want == found {
        return Ok(());
    }
    unlike(alloc, left.at, left.name.as_str(), want, found)
}

// The form of a file, which the case writes as this text.
fn check_form(alloc: Global, left: &Left, text: &str, parts: &[Vec<u8>], found: &[u8]) -> Checked {
    if is_like(parts, found) {
        return Ok(());
    }
    let want = format!(in alloc; "a file like {text}")?;
    is_unlike(alloc, left, want.as_str(), Some(found))
}

// What is under the name after a run.
fn check_name<D: Directory>(alloc: Global, directory: &mut D, left: &Left) -> Checked {
    let found = read(directory, left.name.as_str())?;
    check_file(alloc, left, found.as_deref())
}

// The files that are left.
fn check_files<D: Directory>(alloc: Global, directory: &mut D, left: &[Left]) -> Checked {
    for file in left {
        check_name(alloc, directory, file)?;
    }
    Ok(())
}

// All that came of a run.
fn check_run<D: Directory>(alloc: Global, directory: &mut D, run: &Run, seen: &Seen) -> Checked {
    let wanted = &run.wanted;
    check_talk(alloc, run.at, wanted.told.as_slice(), wanted, seen)?;
    check_numbers(alloc, wanted, seen)?;
    check_locks(alloc, wanted.held_at, wanted.held, seen.held)?;
    check_files(alloc, directory, wanted.left.as_slice())
}

// Makes the runs one after the other over one directory.
fn check_runs(alloc: Global, runs: &[Run], piece: usize) -> Checked {
    let mut bench = empty(alloc)?;
    let mut mark = 0u64;
    for run in runs {
        mark = mark.saturating_add(STEP);
        let refuse = run.given.refuse.as_slice();
        let manner = Manner {
            mark,
            refuse,
            piece,
        };
        bench = try_run(alloc, bench, run, manner)?;
    }
    Ok(())
}

// Makes a run over a directory, which is handed back.
fn try_run(
    alloc: Global,
    bench: CaseBench,
    run: &Run,
    manner: Manner,
) -> Result<CaseBench, Trouble> {
    let (seen, bench) = observe(alloc, bench, &run.given, manner)?;
    let mut bench = bench;
    check_run(alloc, &mut bench, run, &seen)?;
    Ok(bench)
}

// All that these pieces tell.
fn whole(alloc: Global, pieces: &[Piece]) -> anyhow::Result<Vec<u8>> {
    let mut text = Vec::new(alloc);
    for piece in pieces {
        text.extend_from_slice(piece.text.as_slice())?;
    }
    Ok(text)
}

// Whether what was told is the beginning of a report, and the line of the error, which may also be said.
fn is_cut_off(report: &[u8], seen: &Seen) -> bool {
    let error = b"error io\n".as_slice();
    let told = seen.told.as_slice();
    let (begun, is_told) = match told.strip_suffix(error) {
        Some(begun) => (begun, seen.said.is_empty()),
        None => (told, seen.said.as_slice() == error),
    };
    is_told && report.starts_with(begun)
}

// A run one of whose calls, which wasn't a delete, was refused: it ends the run.
fn check_ended(alloc: Global, run: &Run, seen: &Seen) -> Checked {
    let report = whole(alloc, run.wanted.told.as_slice())?;
    if seen.status == 1 && is_cut_off(report.as_slice(), seen) {
        return check_locks(alloc, run.wanted.held_at, run.wanted.held, seen.held);
    }
    let want = "a part of what is told, then error io, and status 1";
    let has = quoted(alloc, seen.told.as_slice(), 0)?;
    differs(alloc, run.at, "a run", want, has.as_str())
}

// A run one of whose deletes was refused: that is told.
fn check_refused(alloc: Global, run: &Run, seen: &Seen) -> Checked {
    let wanted = &run.wanted;
    check_talk(alloc, run.at, wanted.otherwise.as_slice(), wanted, seen)?;
    check_number(alloc, "status", wanted.status, u64::from(seen.status))?;
    check_locks(alloc, wanted.held_at, wanted.held, seen.held)
}

// The same, with what was refused before the difference.
fn where_refused(alloc: Global, refused: &str, checked: Checked) -> Checked {
    match checked {
        Err(Trouble::Differs(Difference { at, text })) => {
            let text = format!(in alloc; "where a {refused} is refused: {text}")?;
            Err(Trouble::Differs(Difference { at, text }))
        }
        other => other,
    }
}

// A run one of whose calls was refused.
fn check_one(alloc: Global, run: &Run, seen: &Seen) -> Checked {
    if seen.faults == 0 {
        where_refused(alloc, "delete", check_refused(alloc, run, seen))
    } else {
        where_refused(alloc, "call", check_ended(alloc, run, seen))
    }
}

// Makes a run one of whose calls is refused, where it makes as many. Whether it does.
fn try_one(alloc: Global, run: &Run, piece: usize, call: u64) -> Result<bool, Trouble> {
    let manner = Manner {
        mark: STEP,
        refuse: &[call],
        piece,
    };
    let (seen, bench) = observe(alloc, empty(alloc)?, &run.given, manner)?;
    if seen.faults == 0 && seen.refusals == 0 {
        let mut bench = bench;
        check_run(alloc, &mut bench, run, &seen)?;
        return Ok(false);
    }
    check_one(alloc, run, &seen)?;
    Ok(true)
}

// Makes a run once for each call that the device refuses, until none is.
fn check_each(alloc: Global, run: &Run, piece: usize) -> Checked {
    for call in 0..MOST_CALLS {
        if !try_one(alloc, run, piece, call)? {
            return Ok(());
        }
    }
    Err(Trouble::Untried(anyhow::anyhow!("a run has too many calls")))
}

// A case whose script comes in pieces of this length.
fn check_with(alloc: Global, case: &Case, piece: usize) -> Checked {
    match case.runs.first() {
        Some(run) if case.refuses_each => check_each(alloc, run, piece),
        _ => check_runs(alloc, case.runs.as_slice(), piece),
    }
}

/// Tries a case.
pub(crate) fn check_case(alloc: Global, case: &Case) -> Checked {
    if case.pieces.is_empty() {
        return check_with(alloc, case, usize::MAX);
    }
    for piece in case.pieces.iter() {
        let piece = usize::try_from(*piece).unwrap_or(usize::MAX);
        check_with(alloc, case, piece)?;
    }
    Ok(())
}

// How many bytes of a text are shown.
const SHOWN: usize = 200;

// How many bytes the two texts begin with alike.
fn same_bytes(one: &[u8], other: &[u8]) -> usize {
    let len = one.len().min(other.len());
    for at in 0..len {
        if one[at] != other[at] {
            return at;
        }
    }
    len
}

// Adds a byte as a case writes it.
fn push_shown(alloc: Global, out: &mut String, byte: u8) -> anyhow::Result<()> {
    match byte {
        b'\n' => out.push_str("\\n")?,
        b'\\' | b'$' => push_hex(alloc, out, byte)?,
        b' '..=b'~' => out.push(char::from(byte))?,
        _ => push_hex(alloc, out, byte)?,
    }
    Ok(())
}

// Adds a byte by its hexadecimal digits.
fn push_hex(alloc: Global, out: &mut String, byte: u8) -> anyhow::Result<()> {
    let hex = format!(in alloc; "\\x{byte:02x}")?;
    out.push_str(hex.as_str())?;
    Ok(())
}

// A part of these bytes, as a case writes it, from a byte on.
fn shown(alloc: Global, bytes: &[u8], from: usize) -> anyhow::Result<String> {
    let mut out = String::new(alloc);
    for byte in bytes.iter().skip(from).take(SHOWN) {
        push_shown(alloc, &mut out, *byte)?;
    }
    Ok(out)
}

// The line with which a text begins.
fn first_line(text: &[u8]) -> &[u8] {
    for at in 0..text.len() {
        if text[at] == b'\n' {
            return &text[..=at];
        }
    }
    text
}

// Wants a text, and found another one. Where they begin with many bytes alike, these aren't shown.
fn unlike(alloc: Global, at: usize, what: &str, wanted: &[u8], found: &[u8]) -> Checked {
    let same = same_bytes(wanted, found);
    let from = if same < SHOWN { 0 } else { same };
    let wants = wanted_text(alloc, wanted, from)?;
    let has = quoted(alloc, found, from)?;
    differs(alloc, at, what, wants.as_str(), has.as_str())
}

// A text that is wanted, and how many bytes of it aren't shown.
fn wanted_text(alloc: Global, bytes: &[u8], from: usize) -> anyhow::Result<String> {
    let mut text = quoted(alloc, bytes, from)?;
    if from > 0 {
        write!(text, " after {from} bytes")?;
    }
    Ok(text)
}

// What was told or said, which are to be these pieces.
fn check_pieces(alloc: Global, at: usize, what: &str, wanted: &[Piece], found: &[u8]) -> Checked {
    let mut rest = found;
    let mut last = at;
    for piece in wanted {
        let text = piece.text.as_slice();
        let Some(after) = rest.strip_prefix(text) else {
            return unlike(alloc, piece.at, what, text, first_line(rest));
        };
        rest = after;
        last = piece.at;
    }
    if rest.is_empty() {
        return Ok(());
    }
    unlike(alloc, last, what, b"", first_line(rest))
}

// A number that came of a run.
fn check_number(alloc: Global, what: &str, wish: Wish, found: u64) -> Checked {
    let wanted = wish.number.unwrap_or(found);
    if wanted == found {
        return Ok(());
    }
    differs(alloc, wish.at, what, wanted, found)
}

// These locks, in words.
fn locks_text(locks: Locks) -> &'static str {
    match (locks.writer, locks.meta) {
        (true, true) => "writer and meta",
        (true, false) => "writer",
        (false, true) => "meta",
        (false, false) => "none",
    }
}

// The locks that are held.
fn check_locks(alloc: Global, at: usize, wanted: Locks, found: Locks) -> Checked {
    if wanted == found {
        return Ok(());
    }
    differs(alloc, at, "held", locks_text(wanted), locks_text(found))
}

// What was found, in words.
fn found_text(alloc: Global, found: Option<&[u8]>) -> anyhow::Result<String> {
    match found {
        Some(bytes) => quoted(alloc, bytes, 0),
        None => Ok(String::from_str(alloc, "no file")?),
    }
}

// A part of these bytes, as a case writes it, from a byte on, in quotation marks.
fn quoted(alloc: Global, bytes: &[u8], from: usize) -> anyhow::Result<String> {
    let text = shown(alloc, bytes, from)?;
    Ok(format!(in alloc; "\"{text}\"")?)
}

// Whether the text has these parts in this order, the first one at its beginning and the last one at its
// end, with any bytes between them.
fn is_like(parts: &[Vec<u8>], text: &[u8]) -> bool {
    let Some((first, others)) = parts.split_first() else {
        return text.is_empty();
    };
    let Some(rest) = text.strip_prefix(first.as_slice()) else {
        return false;
    };
    let Some((last, between)) = others.split_last() else {
        return rest.is_empty();
    };
    match after_parts(between, rest) {
        Some(rest) => rest.ends_with(last.as_slice()),
        None => false,
    }
}

// What comes after these parts, each at its first place after the one before.
fn after_parts<'a>(parts: &[Vec<u8>], text: &'a [u8]) -> Option<&'a [u8]> {
    let mut rest = text;
    for part in parts {
        rest = after_part(part.as_slice(), rest)?;
    }
    Some(rest)
}

// What comes after the first place of a part.
fn after_part<'a>(part: &[u8], text: &'a [u8]) -> Option<&'a [u8]> {
    for at in 0..=text.len() {
        let rest = text.get(at..)?;
        if let Some(after) = rest.strip_prefix(part) {
            return Some(after);
        }
    }
    None
}
