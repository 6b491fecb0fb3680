//! The script that the program generates.
ghost use Rattle.std.specs.Prelude.{◌≡◌, ◌++◌, IfOk, OnOk, codes, string_bytes};
ghost use Rattle.tv_replay.specs.Generated.{numbered_id, numbered_byte, file_text, segment_text, commit_text, generated};

use std::alloc::Global;
use tv_formats::{Memory, SegmentComponent, SegmentId};

// The files of a segment that is generated, which has no deletes.
const GENERATED_COMPONENTS: [SegmentComponent; 6] = [
    SegmentComponent::Postings,
    SegmentComponent::Positions,
    SegmentComponent::FastFields,
    SegmentComponent::FieldNorms,
    SegmentComponent::Terms,
    SegmentComponent::Store,
];

/// A script of `n` commits. Each is of a new segment, which has one document and six files of one
/// byte each, and of the segment before it, which is then released; after each commit the files are
/// collected that nothing needs any more.
pub fn generate(alloc: Global, n: u32) -> Result<Vec<u8>, Memory>
    ensures { IfOk result (λ script. script.items ≡ generated n) }
{
    let mut script = String::new(alloc);
    for i in 0..n {
        let id = numbered_id(alloc, i)?;
        let byte = numbered_byte(alloc, i)?;
        push_segment(alloc, &mut script, id.as_str(), byte.as_str())?;
        script.push_str(commit_text(alloc, i)?.as_str())?;
    }
    Ok(script.into_bytes())
}

// The id of a number, in its digits.
fn numbered_id(alloc: Global, i: u32) -> Result<String, Memory>
    ensures { IfOk result (λ id. string_bytes id ≡ numbered_id i) }
{
    SegmentId::from_bytes(u128::from(i).to_be_bytes()).uuid_string(alloc)
}

// A number as a byte, less what a byte can't count, in its digits.
fn numbered_byte(alloc: Global, i: u32) -> Result<String, Memory>
    ensures { IfOk result (λ byte. string_bytes byte ≡ numbered_byte i) }
{
    let byte = hex::encode(alloc, &[(i % 256) as u8])?;
    Ok(byte)
}

// Adds the lines that make a segment.
fn push_segment(alloc: Global, script: &mut String, id: &str, byte: &str) -> Result<(), Memory>
    ensures { OnOk result
        (string_bytes script.new ≡ string_bytes script.old ++ segment_text id.now byte.now) }
{
    script.push_str(format!(in alloc; "segment {id}\n")?.as_str())?;
    for component in GENERATED_COMPONENTS {
        let file = file_words(alloc, id, component.extension())?;
        script.push_str(file_text(alloc, file.as_str(), byte)?.as_str())?;
    }
    script.push_str(format!(in alloc; "docs {id} 1\n")?.as_str())?;
    Ok(())
}

// The lines that make a file, which is named by these words.
fn file_text(alloc: Global, file: &str, byte: &str) -> Result<String, Memory>
    ensures { IfOk result (λ text. string_bytes text ≡ file_text file.now byte.now) }
{
    let text = format!(in alloc; "open {file}\nwrite {file} {byte}\nseal {file}\n")?;
    Ok(text)
}

// The words that name a file of a segment.
fn file_words(alloc: Global, id: &str, word: &str) -> Result<String, Memory>
    ensures { IfOk result (λ text. string_bytes text ≡ id.now ++ codes " " ++ word.now) }
{
    let text = format!(in alloc; "{id} {word}")?;
    Ok(text)
}

// The lines that commit the segment of a number.
fn commit_text(alloc: Global, i: u32) -> Result<String, Memory>
    ensures { IfOk result (λ text. string_bytes text ≡ commit_text i) }
{
    let id = numbered_id(alloc, i)?;
    let Some(before) = i.checked_sub(1) else {
        return first_commit_text(alloc, id.as_str());
    };
    let last = numbered_id(alloc, before)?;
    next_commit_text(alloc, last.as_str(), id.as_str())
}

// The lines that commit the first segment.
fn first_commit_text(alloc: Global, id: &str) -> Result<String, Memory>
    ensures { IfOk result (λ text. string_bytes text
        ≡ codes "commit - " ++ id.now ++ codes "\ngc\n") }
{
    let text = format!(in alloc; "commit - {id}\ngc\n")?;
    Ok(text)
}

// The lines that commit a segment with the one before it, and release that.
fn next_commit_text(alloc: Global, last: &str, id: &str) -> Result<String, Memory>
    ensures { IfOk result (λ text. string_bytes text ≡ codes "commit - " ++ last.now ++ codes " "
        ++ id.now ++ codes "\nrelease segment " ++ last.now ++ codes "\ngc\n") }
{
    let text = format!(in alloc; "commit - {last} {id}\nrelease segment {last}\ngc\n")?;
    Ok(text)
}
