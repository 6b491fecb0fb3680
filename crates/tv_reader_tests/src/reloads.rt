//! Reloads, at once and in steps: which commit a reader shows, and under which number.
ghost use Rattle.std.specs.Prelude.{◌≡◌, None};
ghost use Rattle.tv_reader.specs.ReaderStates.{seen};

use crate::compare::is_number;
use crate::fixtures::{
    AGAIN, NONE, ONE, STORE, TestIndex, close, commit, index_of_one, new_index, save, shows,
};
use crate::locks::{hold, is_busy, is_free};
use std::alloc::Global;
use std::process::Abort;
use tv_reader::{IndexReader, IndexReaderBuilder, ReaderOf, ReloadPolicy};
use tv_test_support::{done, told};

// What is answered where the meta lock is held, and where the first file of the segment isn't there.
const BUSY: &str = "Err(LockFailure(LockBusy, None))";

const MISSING: &str =
    r#"Err(OpenReadError(FileDoesNotExist("11111111111111111111111111111111.idx")))"#;

// A reader that reloads by hand.
fn by_hand<R: Abort>(rt: &R, alloc: Global, index: &mut TestIndex) -> IndexReader
    ensures { (seen result).reload ≡ None }
{
    IndexReaderBuilder::new()
        .reload_policy(ReloadPolicy::Manual)
        .try_into(alloc, index)
        .expect(rt, "good files")
}

// A further reader counts its own numbers.
fn counts_from_0<R: Abort + Eprint>(rt: &R, alloc: Global, index: &mut TestIndex) {
    let mut reader = index.reader(alloc).expect(rt, "good files");
    shows(rt, &mut reader, 0, 2);
    save(rt, index, AGAIN);
    assert!(rt; told(rt, alloc, reader.reload(index), "Ok(())"));
    shows(rt, &mut reader, 1, 3);
}

// A reload in steps, beside commits and another reader.
fn steps<R: Abort + Eprint>(rt: &R, alloc: Global, index: &mut TestIndex) {
    let mut reader = by_hand(rt, alloc, index);
    shows(rt, &mut reader, 0, 1);
    // While a reload in steps holds the lock, it is refused to others. A commit doesn't ask for it, and the
    // reload shows the commit that it has noted.
    let opstamp = reader.reload_lock(index).expect(rt, "a commit");
    is_number(rt, opstamp, 1);
    is_busy(rt, alloc, index);
    assert!(rt; told(rt, alloc, done(index.reader(alloc)), BUSY));
    save(rt, index, NONE);
    shows(rt, &mut reader, 0, 1);
    reader.reload_open(index).expect(rt, "good files");
    is_free(rt, index);
    shows(rt, &mut reader, 0, 1);
    let id = reader.reload_publish().expect(rt, "a number");
    is_number(rt, id, 1);
    shows(rt, &mut reader, 1, 1);
    assert!(rt; told(rt, alloc, reader.reload(index), "Ok(())"));
    shows(rt, &mut reader, 2, 2);
    counts_from_0(rt, alloc, index);
}

#[test]
fn a_reload_in_steps_shows_what_it_noted(rt: HostRuntime) {
    let mut index = index_of_one(&rt, rt.alloc());
    steps(&rt, rt.alloc(), &mut index);
    close(index);
}

fn reads_under_the_lock<R: Abort + Eprint>(rt: &R, alloc: Global, index: &mut TestIndex) {
    let mut reader = by_hand(rt, alloc, index);
    let mut other = by_hand(rt, alloc, index);
    let mut third = by_hand(rt, alloc, index);
    // While the meta lock is held, no call reads a commit.
    let lock = hold(rt, index);
    assert!(rt; told(rt, alloc, other.reload(index), BUSY));
    assert!(rt; told(rt, alloc, third.reload_lock(index), BUSY));
    assert!(rt; told(rt, alloc, done(index.reader(alloc)), BUSY));
    let builder = IndexReaderBuilder::new();
    assert!(rt; told(rt, alloc, done(builder.try_into(alloc, index)), BUSY));
    shows(rt, &mut other, 0, 1);
    index.directory_mut().release(lock);
    assert!(rt; told(rt, alloc, reader.reload(index), "Ok(())"));
    is_free(rt, index);
    shows(rt, &mut reader, 1, 1);
}

#[test]
fn a_commit_is_read_under_the_meta_lock(rt: HostRuntime) {
    let mut index = index_of_one(&rt, rt.alloc());
    reads_under_the_lock(&rt, rt.alloc(), &mut index);
    close(index);
}

// What failed can be asked for again.
fn fails_first<R: Abort + Eprint>(rt: &R, alloc: Global, index: &mut TestIndex) {
    let mut reader = by_hand(rt, alloc, index);
    // A commit whose files aren't there isn't shown. No number is counted, and the lock is free.
    save(rt, index, ONE);
    assert!(rt; told(rt, alloc, reader.reload(index), MISSING));
    is_free(rt, index);
    assert!(rt; told(rt, alloc, done(index.reader(alloc)), MISSING));
    is_free(rt, index);
    shows(rt, &mut reader, 0, 0);
    is_number(rt, reader.next_generation(), 1);
    // A reload in steps that can't read its files stands, and its lock is held until it is given up.
    let opstamp = reader.reload_lock(index).expect(rt, "a commit");
    is_number(rt, opstamp, 1);
    assert!(rt; told(rt, alloc, reader.reload_open(index), MISSING));
    is_busy(rt, alloc, index);
    reader.reload_abandon(index);
    is_free(rt, index);
    // With none, nothing changes.
    reader.reload_abandon(index);
    shows(rt, &mut reader, 0, 0);
    is_number(rt, reader.next_generation(), 1);
    commit(rt, alloc, index, ONE, STORE);
    assert!(rt; told(rt, alloc, reader.reload(index), "Ok(())"));
    shows(rt, &mut reader, 1, 1);
}

#[test]
fn a_reload_that_fails_leaves_what_is_shown(rt: HostRuntime) {
    let mut index = new_index(&rt, rt.alloc());
    fails_first(&rt, rt.alloc(), &mut index);
    close(index);
}

// A reload that is given up once its files were read counts no number, and leaves a lock to who has it.
fn gives_up<R: Abort + Eprint>(rt: &R, alloc: Global, index: &mut TestIndex) {
    let mut reader = by_hand(rt, alloc, index);
    save(rt, index, NONE);
    let opstamp = reader.reload_lock(index).expect(rt, "a commit");
    is_number(rt, opstamp, 2);
    assert!(rt; told(rt, alloc, reader.reload_open(index), "Ok(())"));
    let lock = hold(rt, index);
    reader.reload_abandon(index);
    is_busy(rt, alloc, index);
    index.directory_mut().release(lock);
    shows(rt, &mut reader, 0, 1);
    is_number(rt, reader.next_generation(), 1);
}

#[test]
fn a_reload_is_given_up(rt: HostRuntime) {
    let mut index = index_of_one(&rt, rt.alloc());
    gives_up(&rt, rt.alloc(), &mut index);
    close(index);
}

// What is answered where `meta.json` means no commit, and where it means one of another schema.
const CORRUPT: &str = r#"Err(DataCorruption(Data corruption (in file `"meta.json"`): ..))"#;

const OTHER_SCHEMA: &str = r#"Err(SchemaError("An index exists but the schema does not match."))"#;

// What is written as `meta.json`, and what is answered then.
const NO_COMMITS: &[(&str, &str)] = &[
    ("{", CORRUPT),
    (
        "{\"segments\":[],\"schema\":[{\"name\":\"n\",\"type\":\"text\"}],\"opstamp\":9}",
        OTHER_SCHEMA,
    ),
];

// The same of each of them.
fn refuses_each<R: Abort + Eprint>(rt: &R, alloc: Global, index: &mut TestIndex) {
    for (text, want) in NO_COMMITS {
        // The first commit stands again.
        save(rt, index, ONE);
        let mut reader = by_hand(rt, alloc, index);
        // A reload of what is no commit of the index is refused, and the lock is free.
        save(rt, index, text);
        assert!(rt; told(rt, alloc, reader.reload(index), want));
        assert!(rt; told(rt, alloc, reader.reload_lock(index), want));
        is_free(rt, index);
        shows(rt, &mut reader, 0, 1);
    }
}

#[test]
fn what_is_no_commit_is_not_shown(rt: HostRuntime) {
    let mut index = index_of_one(&rt, rt.alloc());
    refuses_each(&rt, rt.alloc(), &mut index);
    close(index);
}
