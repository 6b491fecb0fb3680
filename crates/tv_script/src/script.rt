//! The lines of a script, and the events that they are.
ghost use Rattle.std.specs.Prelude.{◌≡◌, ◌==◌, [], ◌∷◌, IfOk, IfSome, map, option_map};
ghost use Rattle.std.specs.List.{slice_split};
ghost use Rattle.tv_events.specs.declared.event.Event.{Event};
ghost use Rattle.tv_events.specs.declared.event.Event.TheVariants as events;
ghost use Rattle.tv_events.specs.Script.{Id, Component, Bytes, IsLine};
ghost use Rattle.tv_script.specs.EventWords.{commit_in, event_by, event_in, file_event_by, ids_in, index_event_by, read, reader_event_by, release_in, released_by, reload_event_by, segment_event_by, text_in};

use crate::words::{
    bytes_of, component_of, id_of, number_of, payload_of, policy_of, small_number_of,
};
use std::alloc::{AllocError, Global};
use tv_events::{Event, IdList};
use tv_formats::{Memory, SegmentId};

/// The most bytes that a line of a script has, its line feed left out.
pub(crate) const LINE_LIMIT: usize = 1_048_576;

/// The words of a line, which stand one space apart.
pub fn words_of(alloc: Global, line: &[u8]) -> Result<Vec<&[u8]>, AllocError>
    ensures { IfOk result
        (λ words. map (λ w. w.now) words.items ≡ slice_split (λ b. b == 32) line.now) }
{
    line.split(|b| *b == b' ').collect(alloc)
}

// The text that a keyword is.
fn keyword_of(word: &[u8]) -> Option<&str>
    ensures { option_map (λ text. text.now) result ≡ text_in word.now }
{
    let Ok(text) = std::str::from_utf8(word) else {
        return None;
    };
    Some(text)
}

fn write_of(alloc: Global, words: &[&[u8]]) -> Result<Option<Event>, Memory>
    ensures { IfOk result (λ found. found
        ≡ read (Id ∷ Component ∷ Bytes ∷ []) events.Write (map (λ w. w.now) words.now)) }
{
    let [id, component, digits] = words else {
        return Ok(None);
    };
    let Some(id) = id_of(id) else {
        return Ok(None);
    };
    let Some(component) = component_of(component) else {
        return Ok(None);
    };
    let Some(bytes) = bytes_of(alloc, digits)? else {
        return Ok(None);
    };
    Ok(Some(Event::Write(id, component, bytes)))
}

// The ids that the words spell, where each of them spells one.
fn ids_of(alloc: Global, words: &[&[u8]]) -> Result<Option<Vec<SegmentId>>, Memory>
    ensures { IfOk result
        (λ found. option_map (λ ids. ids.items) found ≡ ids_in (map (λ w. w.now) words.now)) }
{
    let mut ids = Vec::new(alloc);
    for word in words {
        let Some(id) = id_of(word) else {
            return Ok(None);
        };
        ids.push(id)?;
    }
    Ok(Some(ids))
}

fn commit_of(alloc: Global, words: &[&[u8]]) -> Result<Option<Event>, Memory>
    ensures { IfOk result (λ found. found ≡ commit_in (map (λ w. w.now) words.now)) }
{
    let [payload, ids @ ..] = words else {
        return Ok(None);
    };
    let Some(payload) = payload_of(alloc, payload)? else {
        return Ok(None);
    };
    let Some(ids) = ids_of(alloc, ids)? else {
        return Ok(None);
    };
    let Some(ids) = IdList::new(ids) else {
        return Ok(None);
    };
    Ok(Some(Event::Commit(payload, ids)))
}

// An event without arguments.
fn alone(event: Event, words: &[&[u8]]) -> Option<Event>
    ensures { result ≡ read [] event (map (λ w. w.now) words.now) }
{
    match words {
        [] => Some(event),
        _ => None,
    }
}

// What is released, by its kind and its id or number.
fn released_of(kind: &[u8], words: &[&[u8]]) -> Option<Event>
    ensures { result ≡ released_by kind.now (map (λ w. w.now) words.now) }
{
    let [subject] = words else {
        return None;
    };
    if kind == b"segment".as_slice() {
        Some(Event::ReleaseSegment(id_of(subject)?))
    } else if kind == b"reader".as_slice() {
        Some(Event::ReleaseReader(number_of(subject)?))
    } else if kind == b"searcher".as_slice() {
        Some(Event::ReleaseSearcher(number_of(subject)?))
    } else {
        None
    }
}

fn release_of(words: &[&[u8]]) -> Option<Event>
    ensures { result ≡ release_in (map (λ w. w.now) words.now) }
{
    match words {
        [kind, words @ ..] => released_of(kind, words),
        _ => None,
    }
}

// The event about what readers show, of a keyword and the words after it.
fn reload_event_of(keyword: &str, words: &[&[u8]]) -> Option<Event>
    ensures { result ≡ reload_event_by keyword.now (map (λ w. w.now) words.now) }
{
    match keyword {
        "reload" => match words {
            [number] => Some(Event::Reload(number_of(number)?)),
            _ => None,
        },
        "reload-lock" => match words {
            [number] => Some(Event::ReloadLock(number_of(number)?)),
            _ => None,
        },
        "reload-open" => match words {
            [number] => Some(Event::ReloadOpen(number_of(number)?)),
            _ => None,
        },
        "reload-publish" => match words {
            [number] => Some(Event::ReloadPublish(number_of(number)?)),
            _ => None,
        },
        "deliver" => alone(Event::Deliver, words),
        _ => None,
    }
}

// The event about a reader or a searcher, or the release, of a keyword and the words after it.
fn reader_event_of(keyword: &str, words: &[&[u8]]) -> Option<Event>
    ensures { result ≡ reader_event_by keyword.now (map (λ w. w.now) words.now) }
{
    match keyword {
        "reader" => match words {
            [policy] => Some(Event::Reader(policy_of(policy)?)),
            _ => None,
        },
        "searcher" => match words {
            [number] => Some(Event::Searcher(number_of(number)?)),
            _ => None,
        },
        "show" => match words {
            [number] => Some(Event::Show(number_of(number)?)),
            _ => None,
        },
        "bytes" => match words {
            [number, ord, component] => Some(Event::Bytes(
                number_of(number)?,
                small_number_of(ord)?,
                component_of(component)?,
            )),
            _ => None,
        },
        "release" => release_of(words),
        _ => reload_event_of(keyword, words),
    }
}

// The event of a keyword and the words after it, where it is about a collection, the whole index, a reader
// or a searcher, or is a release.
fn index_event_of(keyword: &str, words: &[&[u8]]) -> Option<Event>
    ensures { result ≡ index_event_by keyword.now (map (λ w. w.now) words.now) }
{
    match keyword {
        "gc" => alone(Event::Gc, words),
        "gc-begin" => alone(Event::GcBegin, words),
        "gc-step" => match words {
            [number] => Some(Event::GcStep(number_of(number)?)),
            _ => None,
        },
        "gc-end" => match words {
            [number] => Some(Event::GcEnd(number_of(number)?)),
            _ => None,
        },
        "managed" => alone(Event::Managed, words),
        "validate" => alone(Event::Validate, words),
        "reopen" => alone(Event::Reopen, words),
        _ => reader_event_of(keyword, words),
    }
}

fn open_of(words: &[&[u8]]) -> Option<Event>
    ensures { result ≡ read (Id ∷ Component ∷ []) events.Open (map (λ w. w.now) words.now) }
{
    match words {
        [id, component] => Some(Event::Open(id_of(id)?, component_of(component)?)),
        _ => None,
    }
}

fn seal_of(words: &[&[u8]]) -> Option<Event>
    ensures { result ≡ read (Id ∷ Component ∷ []) events.Seal (map (λ w. w.now) words.now) }
{
    match words {
        [id, component] => Some(Event::Seal(id_of(id)?, component_of(component)?)),
        _ => None,
    }
}

// The event of a keyword and the words after it, any but one about a segment, a write and a commit.
fn file_event_of(keyword: &str, words: &[&[u8]]) -> Option<Event>
    ensures { result ≡ file_event_by keyword.now (map (λ w. w.now) words.now) }
{
    match keyword {
        "open" => open_of(words),
        "seal" => seal_of(words),
        _ => index_event_of(keyword, words),
    }
}

// The event of a keyword and the words after it, any but a write and a commit.
fn segment_event_of(keyword: &str, words: &[&[u8]]) -> Option<Event>
    ensures { result ≡ segment_event_by keyword.now (map (λ w. w.now) words.now) }
{
    match keyword {
        "segment" => match words {
            [id] => Some(Event::Segment(id_of(id)?)),
            _ => None,
        },
        "docs" => match words {
            [id, n] => Some(Event::Docs(id_of(id)?, small_number_of(n)?)),
            _ => None,
        },
        "deletes" => match words {
            [id, n] => Some(Event::Deletes(id_of(id)?, small_number_of(n)?)),
            _ => None,
        },
        _ => file_event_of(keyword, words),
    }
}

// The event of a keyword and the words after it.
fn event_by_keyword(alloc: Global, keyword: &str, words: &[&[u8]]) -> Result<Option<Event>, Memory>
    ensures { IfOk result
        (λ found. found ≡ event_by keyword.now (map (λ w. w.now) words.now)) }
{
    match keyword {
        "write" => write_of(alloc, words),
        "commit" => commit_of(alloc, words),
        _ => Ok(segment_event_of(keyword, words)),
    }
}

// The event that the words stand for.
fn event_of(alloc: Global, words: &[&[u8]]) -> Result<Option<Event>, Memory>
    ensures { IfOk result (λ found. found ≡ event_in (map (λ w. w.now) words.now)) }
{
    let [keyword, words @ ..] = words else {
        return Ok(None);
    };
    let Some(keyword) = keyword_of(keyword) else {
        return Ok(None);
    };
    event_by_keyword(alloc, keyword, words)
}

/// The event of a line, which is given without its line feed. A line that is longer than any
/// line of a script is no event's.
pub fn parse_event(alloc: Global, line: &[u8]) -> Result<Option<Event>, Memory>
    // What is found is the event whose line this is.
    ensures found { IfOk result (λ found. IfSome found (IsLine line.now)) }
    // The event whose line this is is found.
    ensures only { (event : Event) → IsLine line.now event
        → IfOk result (λ found. found ≡ Some event) }
{
    if line.len() > LINE_LIMIT {
        return Ok(None);
    }
    let words = words_of(alloc, line)?;
    event_of(alloc, words.as_slice())
}
