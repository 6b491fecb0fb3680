//! Lines in room that was made before the device was asked: none of these calls takes memory.
ghost use Rattle.std.specs.Prelude.{◌≡◌, ◌≤◌, ◌++◌, ◌∷◌, codes, if◌then◌else◌, length, true, vec_capacity};
ghost use Rattle.std.specs.List.{list_all};
ghost use Rattle.tv_formats.specs.Files.{has_no_feed};
ghost use Rattle.tv_formats.specs.Names.{is_plain};
ghost use Rattle.tv_machine.specs.CollectionEvents.{collected_line};
ghost use Rattle.tv_events.specs.AnswerLines.{line};
ghost use Rattle.tv_catalog.specs.Kept.{texts_of};
ghost use Rattle.tv_catalog.specs.Actions.{line_of};

use crate::action::Reply;
use tv_formats::FileName;
use tv_machine::Answer;

// Adds a word to a line, after a space, in room that is there for it. Takes no memory.
fn push_word(text: &mut Vec<u8>, word: &[u8])
    requires { length (text.old.items ++ 32 ∷ word.now) ≤ vec_capacity text.old }
    ensures word { text.new.items ≡ text.old.items ++ 32 ∷ word.entry.now }
    ensures room { vec_capacity text.old ≤ vec_capacity text.new }
{
    text.push(b' ').unwrap();
    text.extend_from_slice(word).unwrap();
}

// Adds names to a line, each after a space, in room that is there for them. Takes no memory.
fn push_names(text: &mut Vec<u8>, names: &[FileName])
    requires room { length (line text.old.items names.now) ≤ vec_capacity text.old }
    requires feed { has_no_feed text.old.items ≡ true }
    ensures line { text.new.items ≡ line text.old.items names.entry.now }
    ensures room { vec_capacity text.old ≤ vec_capacity text.new }
    ensures feed { has_no_feed text.new.items ≡ true }
{
    for name in names {
        push_word(text, name.as_str().as_bytes());
    }
}

/// Adds the texts of names to a line, each after a space, in room that is there for them. Takes no
/// memory.
pub(crate) fn push_texts(text: &mut Vec<u8>, names: &[&str])
    requires room { length (line text.old.items (texts_of names.now)) ≤ vec_capacity text.old }
    requires feed { has_no_feed text.old.items ≡ true }
    requires plain { list_all is_plain (texts_of names.now) ≡ true }
    ensures line { text.new.items ≡ line text.old.items (texts_of names.entry.now) }
    ensures feed { has_no_feed text.new.items ≡ true }
{
    for name in names {
        push_word(text, name.as_bytes());
    }
}

// The answer to a collection, in a vector that has room for it. Takes no memory.
fn collected(room: Vec<u8>, done: &[FileName], failed: &[FileName]) -> Answer
    requires room { length (collected_line done.now failed.now) ≤ vec_capacity room }
    ensures { result ≡ collected_line done.now failed.now }
{
    let mut text = room;
    text.clear();
    text.extend_from_slice(b"gc deleted").unwrap();
    push_names(&mut text, done);
    push_word(&mut text, b"failed");
    push_names(&mut text, failed);
    Answer::from_bytes(text)
}

// The word for what became of a name that was tried.
fn tried_word(is_done: bool) -> &'static str
    ensures word { result.now ≡ (if is_done then codes "done" else codes "failed") }
    ensures feed { has_no_feed result.now ≡ true }
{
    if is_done { "done" } else { "failed" }
}

// This text in a vector that had another one.
fn replaced(old: Vec<u8>, text: &[u8]) -> Vec<u8>
    requires { length text.now ≤ vec_capacity old }
    ensures text { result.items ≡ text.entry.now }
    ensures room { vec_capacity old ≤ vec_capacity result }
{
    let mut new = old;
    new.clear();
    new.extend_from_slice(text).unwrap();
    new
}

/// The line of what came of an action, where this is the one of an action that is done, in room that is there for
/// it. Takes no memory.
pub fn line_of(told: Vec<u8>, reply: &Reply) -> Answer
    requires feed { has_no_feed told.items ≡ true }
    requires room { length (line_of told.items reply.now) ≤ vec_capacity told }
    ensures { result ≡ line_of told.items reply.entry.now }
{
    match reply {
        Reply::Done | Reply::Saved(_) | Reply::Loaded(_) => Answer::from_bytes(told),
        Reply::Taken => Answer::from_bytes(replaced(told, b"refused exists")),
        Reply::Unsealed(name) => {
            let mut text = replaced(told, b"refused unsealed");
            push_word(&mut text, name.as_str().as_bytes());
            Answer::from_bytes(text)
        }
        Reply::Collected(names) => {
            collected(told, names.deleted.as_slice(), names.failed.as_slice())
        }
        Reply::Tried(tried) => {
            let mut text = told;
            push_word(&mut text, tried_word(tried.is_done).as_bytes());
            push_word(&mut text, tried.name.as_str().as_bytes());
            Answer::from_bytes(text)
        }
        Reply::Damaged(damaged) => {
            let mut text = told;
            push_names(&mut text, damaged.names.as_slice());
            Answer::from_bytes(text)
        }
        Reply::Unreadable(name) => {
            let mut text = replaced(told, b"refused unreadable");
            push_word(&mut text, name.as_str().as_bytes());
            Answer::from_bytes(text)
        }
    }
}
