//! Texts of cases: bytes, names, numbers and words, and what is written shorter.
use anyhow::Context;
use std::alloc::Global;
use tv_base::{MANAGED_FILEPATH, is_plain_name};

/// What came of a line. An error has the number of the line before it.
pub(crate) fn at_line<T: Drop>(at: usize, outcome: anyhow::Result<T>) -> anyhow::Result<T> {
    match outcome {
        Ok(value) => Ok(value),
        Err(error) => anyhow::bail!("{at}: {error}"),
    }
}

/// The bytes of a text, in which `\xNN` is a byte, `\n` a line feed, and `${TEXT*N}` is TEXT N times.
pub(crate) fn text_of(alloc: Global, text: &str) -> anyhow::Result<Vec<u8>> {
    let text = written_out(alloc, text)?;
    bytes_of(alloc, text.as_str())
}

// The bytes of a text, in which `\xNN` is a byte and `\n` a line feed.
fn bytes_of(alloc: Global, text: &str) -> anyhow::Result<Vec<u8>> {
    let mut parts = text.split('\\');
    let mut bytes = Vec::from_slice(alloc, parts.next().unwrap_or("").as_bytes())?;
    for part in parts {
        push_escaped(&mut bytes, part)?;
    }
    Ok(bytes)
}

// Adds what a part after a backslash means.
fn push_escaped(bytes: &mut Vec<u8>, part: &str) -> anyhow::Result<()> {
    let (byte, rest) = escaped(part).context(
        "after a backslash comes n, or x and two hexadecimal digits",
    )?;
    bytes.push(byte)?;
    bytes.extend_from_slice(rest.as_bytes())?;
    Ok(())
}

// The byte that the beginning of a part after a backslash stands for, and the rest.
fn escaped(part: &str) -> Option<(u8, &str)> {
    if let Some(rest) = part.strip_prefix('n') {
        return Some((b'\n', rest));
    }
    let (digits, rest) = part.strip_prefix('x')?.split_at_checked(2)?;
    Some((byte_of(digits)?, rest))
}

// The byte of hexadecimal digits. A number may have a sign, and a byte may not.
fn byte_of(digits: &str) -> Option<u8> {
    if digits.starts_with('+') {
        return None;
    }
    u8::from_str_radix(digits, 16).ok()
}

// A text in which `${TEXT*N}` is written out, as N times TEXT.
fn written_out(alloc: Global, text: &str) -> anyhow::Result<String> {
    let mut parts = text.split("${");
    let mut out = String::from_str(alloc, parts.next().unwrap_or(""))?;
    for part in parts {
        push_repeated(alloc, &mut out, part)?;
    }
    Ok(out)
}

// Adds what a part after `${` means.
fn push_repeated(alloc: Global, out: &mut String, part: &str) -> anyhow::Result<()> {
    let (piece, count, after) = repeated(part).context("a repetition is ${TEXT*N}")?;
    if piece.contains('#') {
        push_numbered(alloc, out, piece, count)?;
    } else {
        push_times(out, piece, count)?;
    }
    out.push_str(after)?;
    Ok(())
}

// The text of a repetition, how often it comes, and what stands after it.
fn repeated(part: &str) -> Option<(&str, u32, &str)> {
    let (inside, after) = part.split_once('}')?;
    let (piece, count) = inside.rsplit_once('*')?;
    Some((piece, u32::try_from(number(count)?).ok()?, after))
}

// Adds a piece so often.
fn push_times(out: &mut String, piece: &str, count: u32) -> anyhow::Result<()> {
    for _ in 0..count {
        out.push_str(piece)?;
    }
    Ok(())
}

// Adds a piece so often, each time with the number of the turn in place of `#`.
fn push_numbered(alloc: Global, out: &mut String, piece: &str, count: u32) -> anyhow::Result<()> {
    for turn in 0..count {
        push_turn(alloc, out, piece, turn)?;
    }
    Ok(())
}

// Adds a piece with the number of the turn, in 32 hexadecimal digits, in place of `#`.
fn push_turn(alloc: Global, out: &mut String, piece: &str, turn: u32) -> anyhow::Result<()> {
    let digits = format!(in alloc; "{turn:032x}")?;
    let piece = piece.replace(alloc, "#", digits.as_str())?;
    out.push_str(piece.as_str())?;
    Ok(())
}

// The number of a text of decimal digits.
fn number(text: &str) -> Option<u64> {
    if text.starts_with('+') {
        return None;
    }
    text.parse::<u64>().ok()
}

/// The number of a text.
pub(crate) fn number_of(text: &str) -> anyhow::Result<u64> {
    number(text).context(format_args!("\"{text}\" is no number"))
}

/// The numbers of a text, one at least, with spaces between them.
pub(crate) fn numbers_of(alloc: Global, text: &str) -> anyhow::Result<Vec<u64>> {
    let mut numbers = Vec::new(alloc);
    for word in text.split(' ') {
        push_number(&mut numbers, word)?;
    }
    Ok(numbers)
}

// Adds the number of a word.
fn push_number(numbers: &mut Vec<u64>, word: &str) -> anyhow::Result<()> {
    numbers.push(number_of(word)?)?;
    Ok(())
}

/// The name and the text of `NAME = TEXT`. Where the text is empty, the line can end with the sign.
pub(crate) fn named(text: &str) -> anyhow::Result<(&str, &str)> {
    split_name(text).context("this line needs NAME = TEXT")
}

// The name and the text, if there is a sign between them.
fn split_name(text: &str) -> Option<(&str, &str)> {
    match text.split_once(" = ") {
        Some(named) => Some(named),
        None => Some((text.strip_suffix(" =")?, "")),
    }
}

/// The name of a file.
pub(crate) fn name_of(alloc: Global, name: &str) -> anyhow::Result<String> {
    if name != MANAGED_FILEPATH && !is_plain_name(name) {
        anyhow::bail!("no file has the name \"{name}\"");
    }
    Ok(String::from_str(alloc, name)?)
}

/// A word of a case, and the texts that it stands for, one after the other, each with its line.
#[derive(Drop)]
pub(crate) struct Word<'a> {
    word: &'a str,
    texts: Vec<(usize, &'a str)>,
}

/// The texts of words in one round.
pub(crate) type Texts<'a> = Vec<(&'a str, String)>;

// The capital letters with which a text begins, and the rest.
fn split_word(text: &str) -> (&str, &str) {
    let rest = text.trim_start_matches(|letter: char| letter.is_ascii_uppercase());
    (text.strip_suffix(rest).unwrap_or(""), rest)
}

// The word and the text of a line that gives a word a text.
fn let_of(line: &str) -> anyhow::Result<(&str, &str)> {
    let (word, text) = named(line)?;
    let (letters, others) = split_word(word);
    if letters.is_empty() || !others.is_empty() {
        anyhow::bail!("\"{word}\" isn't of capital letters alone");
    }
    Ok((word, text))
}

// Adds a text of a word.
fn add_text<'a>(
    alloc: Global,
    words: &mut Vec<Word<'a>>,
    word: &'a str,
    text: (usize, &'a str),
) -> anyhow::Result<()> {
    for known in words.iter_mut() {
        if known.word == word {
            known.texts.push(text)?;
            return Ok(());
        }
    }
    let mut texts = Vec::new(alloc);
    texts.push(text)?;
    words.push(Word { word, texts })?;
    Ok(())
}

/// The words of a case with these lines.
pub(crate) fn words_of<'a>(
    alloc: Global,
    lines: &[(usize, &'a str)],
) -> anyhow::Result<Vec<Word<'a>>> {
    let mut words = Vec::new(alloc);
    for (at, line) in lines {
        if let Some(rest) = line.strip_prefix("let ") {
            let (word, text) = at_line(*at, let_of(rest))?;
            add_text(alloc, &mut words, word, (*at, text))?;
        }
    }
    Ok(words)
}

/// How often a case with these words is done: once for each text of the word with the most.
pub(crate) fn rounds_of(words: &[Word]) -> usize {
    let mut most = 1;
    for word in words {
        most = most.max(word.texts.len());
    }
    most
}

/// The texts of words in this round. A word keeps its last text, and its texts can have words that were
/// declared before it.
pub(crate) fn texts_of<'a>(
    alloc: Global,
    words: &[Word<'a>],
    round: usize,
) -> anyhow::Result<Texts<'a>> {
    let mut texts = Vec::new(alloc);
    for word in words {
        if let Some((at, text)) = word.texts.get(round).or(word.texts.last()) {
            let text = at_line(*at, spelled(alloc, text, texts.as_slice()))?;
            texts.push((word.word, text))?;
        }
    }
    Ok(texts)
}

/// A line with their texts in place of its words.
pub(crate) fn spelled(
    alloc: Global,
    line: &str,
    texts: &[(&str, String)],
) -> anyhow::Result<String> {
    let mut parts = line.split('$');
    let mut out = String::from_str(alloc, parts.next().unwrap_or(""))?;
    for part in parts {
        push_spelled(&mut out, part, texts)?;
    }
    Ok(out)
}

// Adds what a part after a dollar sign means. A repetition stays as it is.
fn push_spelled(out: &mut String, part: &str, texts: &[(&str, String)]) -> anyhow::Result<()> {
    if part.starts_with('{') {
        out.push('$')?;
        out.push_str(part)?;
        return Ok(());
    }
    let (word, rest) = split_word(part);
    out.push_str(text_of_word(word, texts)?)?;
    out.push_str(rest)?;
    Ok(())
}

// The text of a word.
fn text_of_word<'a>(word: &str, texts: &'a [(&str, String)]) -> anyhow::Result<&'a str> {
    let known = texts.iter().find(|(known, _)| *known == word);
    let (_, text) = known.context(format_args!("no line above gives ${word} a text"))?;
    Ok(text.as_str())
}
