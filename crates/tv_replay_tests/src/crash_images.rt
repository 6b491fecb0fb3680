//! What a crash leaves, looked at file by file: which commit stands, with each file that it needs, and that
//! each file is on the list. Then an opening has to find that commit.
use crate::compare::are_bytes;
use crate::fixtures::{TestBench, has_heard, replayed};
use std::alloc::Global;
use std::process::Abort;
use tv_base::{MANAGED_FILEPATH, META_FILEPATH, OpenReadError, is_plain_name};
use tv_directory::Directory;

/// The schema under which all is replayed.
pub(crate) const SCHEMA: &str =
    r#"[{"name":"text","type":"text","options":{"indexing":{"record":"position","fieldnorms":true,"tokenizer":"default"},"stored":false,"fast":false}}]"#;

// How `meta.json` begins.
const FRONT: &str =
    r#"{"index_settings":{"docstore_compression":"none","docstore_blocksize":16384},"segments":["#;

/// What stands in `meta.json`: its segments, and the number of the commit.
#[derive(Clone, Copy)]
pub(crate) struct Meta {
    pub(crate) segments: &'static str,
    pub(crate) opstamp: &'static str,
}

/// A commit that may stand: what `meta.json` reads, where it is there, the line of an opening that finds the
/// commit, and what each file reads that it needs.
#[derive(Clone, Copy)]
pub(crate) struct Stored {
    pub(crate) meta: Option<Meta>,
    pub(crate) line: &'static str,
    pub(crate) files: &'static [(&'static str, &'static str)],
}

/// Which commits may stand from a moment on, by their places in a list of commits.
#[derive(Clone, Copy)]
pub(crate) struct Span {
    pub(crate) from: u64,
    pub(crate) oldest: usize,
    pub(crate) newest: usize,
}

/// From this moment on the commits from the place `oldest` to the place `newest` may stand.
pub(crate) fn may_stand(from: u64, oldest: usize, newest: usize) -> Span {
    Span {
        from,
        oldest,
        newest,
    }
}

/// The commits of a run in their order, of which the first is that there is no index, and all names that the
/// run gives to files, the list apart.
#[derive(Clone, Copy)]
pub(crate) struct Table {
    pub(crate) commits: &'static [Stored],
    pub(crate) names: &'static [&'static str],
}

// All files in their oldest state, in the next one, and in the one behind that; and then one file alone in
// the state behind its oldest one.
const CHOICES: &[&[u32]] = &[
    &[0; 12],
    &[1; 12],
    &[2; 12],
    &[1],
    &[0, 1],
    &[0, 0, 1],
    &[0, 0, 0, 1],
    &[0, 0, 0, 0, 1],
    &[0, 0, 0, 0, 0, 1],
    &[0, 0, 0, 0, 0, 0, 1],
    &[0, 0, 0, 0, 0, 0, 0, 1],
    &[0, 0, 0, 0, 0, 0, 0, 0, 1],
    &[0, 0, 0, 0, 0, 0, 0, 0, 0, 1],
    &[0, 0, 0, 0, 0, 0, 0, 0, 0, 0, 1],
    &[0, 0, 0, 0, 0, 0, 0, 0, 0, 0, 0, 1],
];

// How many of them are of all files.
const OF_ALL: usize = 3;

// How many there are for so many names and the list.
fn choices_of(names: usize) -> usize {
    names.saturating_add(OF_ALL).saturating_add(1)
}

// What a file reads, where it is there.
fn bytes_in<R: Abort>(rt: &R, left: &mut TestBench, name: &str) -> Option<Vec<u8>> {
    assert!(rt;
        is_plain_name(name) || name == MANAGED_FILEPATH,
        "{name} is a name"
    );
    match left.atomic_read(name) {
        Ok(bytes) => Some(bytes),
        Err(OpenReadError::FileDoesNotExist(_)) => None,
        Err(_) => panic!(rt; "no call is refused"),
    }
}

// Whether a text is made of these parts.
fn is_made_of(text: &str, parts: &[&str]) -> bool {
    let mut rest = text;
    for part in parts {
        match rest.strip_prefix(*part) {
            Some(behind) => rest = behind,
            None => return false,
        }
    }
    rest.is_empty()
}

// Whether a text is the whole one of `meta.json` that has this.
fn is_text_of(text: &str, meta: Meta) -> bool {
    let schema = r#"],"schema":"#;
    let opstamp = r#","opstamp":"#;
    let parts = [
        FRONT,
        meta.segments,
        schema,
        SCHEMA,
        opstamp,
        meta.opstamp,
        "}\n",
    ];
    is_made_of(text, &parts)
}

// Whether `meta.json` is that of a commit.
fn is_meta<R: Abort>(rt: &R, left: &mut TestBench, commit: &Stored) -> bool {
    match (bytes_in(rt, left, META_FILEPATH), commit.meta) {
        (Some(bytes), Some(meta)) => {
            is_text_of(str::from_utf8(bytes.as_slice()).unwrap_or(""), meta)
        }
        (None, None) => true,
        _ => false,
    }
}

// The place of the commit of `meta.json`.
fn place_of<R: Abort>(rt: &R, left: &mut TestBench, commits: &[Stored]) -> usize {
    for (place, commit) in commits.iter().enumerate() {
        if is_meta(rt, left, commit) {
            return place;
        }
    }
    panic!(rt; "the commit is none of the run");
}

// Looks at each file that a commit needs.
fn has_files<R: Abort>(rt: &R, left: &mut TestBench, commit: &Stored) {
    for (name, want) in commit.files {
        let found = bytes_in(rt, left, name).expect(rt, "a file of the commit");
        are_bytes(rt, found.as_slice(), want.as_bytes());
    }
}

// Whether a list has the name. No name has a quotation mark.
fn lists(list: &str, name: &str) -> bool {
    list.split('"').any(|part| part == name)
}

// Looks whether each file that is there is on the list, as it stands in the file of the list.
fn lists_each<R: Abort>(rt: &R, alloc: Global, left: &mut TestBench, names: &[&str]) {
    let list = bytes_in(rt, left, MANAGED_FILEPATH).unwrap_or(Vec::new(alloc));
    let list = str::from_utf8(list.as_slice()).unwrap_or("");
    for name in names {
        let found = bytes_in(rt, left, name).is_some();
        assert!(rt; !found || lists(list, name), "{name} is listed");
    }
}

// An opening finds the commit, and leaves it whole. Where there is no index, it makes one.
fn opens<R: Abort>(rt: &R, alloc: Global, left: TestBench, commit: &Stored) -> TestBench {
    let (mut opened, _events) = replayed(rt, alloc, left, SCHEMA, "");
    has_heard(rt, &opened, commit.line);
    assert!(rt;
        commit.meta.is_none() || is_meta(rt, &mut opened, commit),
        "it stands"
    );
    has_files(rt, &mut opened, commit);
    opened
}

// Crashes at each moment of the opening: the commit stands, or what was made where there was no index.
fn stood<R: Abort>(rt: &R, alloc: Global, opened: &TestBench, table: Table, place: usize) {
    for moment in 0..=opened.moment() {
        for choice in CHOICES.iter().take(OF_ALL) {
            assert!(rt; moment <= opened.moment(), "a moment of the opening");
            let mut left = opened.crash(moment, choice).expect(rt, "memory");
            lists_each(rt, alloc, &mut left, table.names);
            let found = place_of(rt, &mut left, table.commits);
            assert!(rt;
                found == place || place == 0 && found == 1,
                "{found} at {moment}"
            );
        }
    }
}

// A collection leaves the files that the commit needs, and no others.
fn collects<R: Abort>(rt: &R, alloc: Global, opened: TestBench, table: Table, commit: &Stored) {
    let (mut left, _events) = replayed(rt, alloc, opened, SCHEMA, "gc\n");
    has_files(rt, &mut left, commit);
    for name in table.names {
        let found = bytes_in(rt, &mut left, name).is_some();
        let needed = *name == META_FILEPATH || commit.files.iter().any(|file| file.0 == *name);
        assert!(rt; found == needed, "{name} is there or not");
    }
}

// The place of the commit that stands in what a crash left. It is whole, and an opening finds it. Where one
// is asked to go on, it stands in that opening too, and behind a collection.
fn place_in<R: Abort>(
    rt: &R,
    alloc: Global,
    left: TestBench,
    table: Table,
    goes_on: bool,
) -> usize {
    let mut left = left;
    lists_each(rt, alloc, &mut left, table.names);
    let place = place_of(rt, &mut left, table.commits);
    let commit = table.commits.get(place).expect(rt, "a commit of the run");
    has_files(rt, &mut left, commit);
    let opened = opens(rt, alloc, left, commit);
    if goes_on {
        stood(rt, alloc, &opened, table, place);
        collects(rt, alloc, opened, table, commit);
    }
    place
}

// Crashes at this moment by each choice. The commits that stand are of this span, and its oldest and its
// newest one are among them. Counts what was looked at.
fn look_at<R: Abort>(
    rt: &R,
    alloc: Global,
    bench: &TestBench,
    table: Table,
    (moment, span): (u64, Span),
) -> u64 {
    let mut images: u64 = 0;
    let mut oldest = span.newest;
    let mut newest = span.oldest;
    let choices = CHOICES.iter().take(choices_of(table.names.len()));
    for (number, choice) in choices.enumerate() {
        assert!(rt; moment <= bench.moment(), "a moment of the run");
        let left = bench.crash(moment, choice).expect(rt, "memory");
        let place = place_in(rt, alloc, left, table, number < OF_ALL);
        assert!(rt;
            span.oldest <= place && place <= span.newest,
            "commit {place} at {moment} by {choice:?}"
        );
        oldest = oldest.min(place);
        newest = newest.max(place);
        images = images.saturating_add(1);
    }
    assert!(rt;
        oldest == span.oldest && newest == span.newest,
        "both may stand at {moment}"
    );
    images
}

/// The span of a moment: the last one that begins by then.
pub(crate) fn span_at<R: Abort>(rt: &R, spans: &[Span], moment: u64) -> Span {
    let begun = spans.iter().take_while(|span| span.from <= moment);
    *begun.last().expect(rt, "a span")
}

/// Crashes at each moment from this one on, by each choice: what stands may stand then. Counts what was
/// looked at.
pub(crate) fn look_from<R: Abort>(
    rt: &R,
    alloc: Global,
    bench: &TestBench,
    table: Table,
    spans: &[Span],
    first: u64,
) -> u64 {
    let mut images: u64 = 0;
    for moment in first..=bench.moment() {
        let span = span_at(rt, spans, moment);
        images = images.saturating_add(look_at(rt, alloc, bench, table, (moment, span)));
    }
    images
}
