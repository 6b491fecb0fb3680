//! Files of cases, and their lines.
use crate::case::{Case, Form, Left, Locks, Needs, Piece, Run, Wish};
use crate::texts::{
    Texts, at_line, name_of, named, number_of, numbers_of, rounds_of, spelled, text_of, texts_of,
    words_of,
};
use anyhow::Context;
use std::alloc::Global;

// The lines of a case, each with its number, from its first line on.
#[derive(Drop)]
struct Block<'a> {
    at: usize,
    name: &'a str,
    lines: Vec<(usize, &'a str)>,
}

// The name in the first line of a case, where this is one.
fn name_in(line: &str) -> Option<&str> {
    if line == "case" {
        return Some("");
    }
    line.strip_prefix("case ")
}

// Takes a line of a file, which is neither empty nor a remark.
fn add_line<'a>(
    alloc: Global,
    blocks: &mut Vec<Block<'a>>,
    at: usize,
    line: &'a str,
) -> anyhow::Result<()> {
    if let Some(name) = name_in(line) {
        return begin_block(alloc, blocks, at, name);
    }
    match blocks.last_mut() {
        Some(block) => block.lines.push((at, line))?,
        None => anyhow::bail!("{at}: a case begins with a line case NAME"),
    }
    Ok(())
}

// Begins a case.
fn begin_block<'a>(
    alloc: Global,
    blocks: &mut Vec<Block<'a>>,
    at: usize,
    name: &'a str,
) -> anyhow::Result<()> {
    if name.is_empty() {
        anyhow::bail!("{at}: a case has a name");
    }
    blocks.push(Block {
        at,
        name,
        lines: Vec::new(alloc),
    })?;
    Ok(())
}

// The lines of each case of a file.
fn blocks_of<'a>(alloc: Global, text: &'a str) -> anyhow::Result<Vec<Block<'a>>> {
    let mut blocks = Vec::new(alloc);
    let mut at: usize = 0;
    for line in text.split('\n') {
        at = at.saturating_add(1);
        if !line.is_empty() && !line.starts_with('#') {
            add_line(alloc, &mut blocks, at, line)?;
        }
    }
    Ok(blocks)
}

// Takes the lines of a case, with these texts for its words.
fn take_lines(
    alloc: Global,
    case: &mut Case,
    lines: &[(usize, &str)],
    texts: &[(&str, String)],
) -> anyhow::Result<()> {
    for (at, line) in lines {
        let line = at_line(*at, spelled(alloc, line, texts))?;
        at_line(*at, take_line(alloc, case, *at, line.as_str()))?;
    }
    Ok(())
}

// The case of these lines, with these texts for its words.
fn case_of(alloc: Global, block: &Block, texts: &Texts) -> anyhow::Result<Case> {
    let name = at_line(block.at, spelled(alloc, block.name, texts.as_slice()))?;
    let mut case = Case::new(alloc, block.at, name)?;
    take_lines(alloc, &mut case, block.lines.as_slice(), texts.as_slice())?;
    Ok(case)
}

// Adds a case, whose name no other one has.
fn add_case(cases: &mut Vec<Case>, case: Case) -> anyhow::Result<()> {
    if cases.iter().any(|other| other.name == case.name) {
        anyhow::bail!("{}: another case has the name {}", case.at, case.name);
    }
    cases.push(case)?;
    Ok(())
}

// Adds the cases of these lines, one for each round of their words.
fn add_cases(alloc: Global, cases: &mut Vec<Case>, block: &Block) -> anyhow::Result<()> {
    let words = words_of(alloc, block.lines.as_slice())?;
    let rounds = rounds_of(words.as_slice());
    for round in 0..rounds {
        let texts = texts_of(alloc, words.as_slice(), round)?;
        let mut case = case_of(alloc, block, &texts)?;
        case.is_last_round = round.saturating_add(1) == rounds;
        add_case(cases, case)?;
    }
    Ok(())
}

/// The cases of a file. An error begins with the number of the line.
pub(crate) fn cases_of(alloc: Global, text: &str) -> anyhow::Result<Vec<Case>> {
    let mut cases = Vec::new(alloc);
    for block in blocks_of(alloc, text)?.iter() {
        add_cases(alloc, &mut cases, block)?;
    }
    Ok(cases)
}

// Takes a line of a case.
fn take_line(alloc: Global, case: &mut Case, at: usize, line: &str) -> anyhow::Result<()> {
    let (word, rest) = line.split_once(' ').unwrap_or((line, ""));
    check_marked(case.needs, word)?;
    match word {
        "let" => Ok(()),
        "needs" => take_need(&mut case.needs, rest),
        "again" => take_again(alloc, case, at, rest),
        "pieces" => take_pieces(alloc, case, rest),
        "refuse" if rest == "each" => take_each(case),
        _ => match case.runs.last_mut() {
            Some(run) => take_run_line(alloc, run, at, word, rest),
            None => Ok(()),
        },
    }
}

// Whether a case that has a line with this word says first what it needs.
fn check_marked(needs: Needs, word: &str) -> anyhow::Result<()> {
    match unmarked(needs, word) {
        Some(need) => anyhow::bail!("a line needs {need} comes before {word}"),
        None => Ok(()),
    }
}

// What a case with this word needs, and doesn't say.
fn unmarked(needs: Needs, word: &str) -> Option<&'static str> {
    match word {
        "refuse" | "or" if !needs.refusals => Some("refusals"),
        "refuse-read" | "pieces" | "asked" if !needs.reads => Some("reads"),
        _ => None,
    }
}

// What a case needs.
fn take_need(needs: &mut Needs, rest: &str) -> anyhow::Result<()> {
    match rest {
        "refusals" => needs.refusals = true,
        "reads" => needs.reads = true,
        _ => anyhow::bail!("what a case can need is refusals and reads"),
    }
    Ok(())
}

// Another run over the same directory.
fn take_again(alloc: Global, case: &mut Case, at: usize, rest: &str) -> anyhow::Result<()> {
    if !rest.is_empty() {
        anyhow::bail!("nothing comes after again");
    }
    if case.refuses_each {
        anyhow::bail!("a case with refuse each has one run");
    }
    case.runs.push(Run::new(alloc, at)?)?;
    Ok(())
}

// The lengths of the pieces in which the script comes.
fn take_pieces(alloc: Global, case: &mut Case, rest: &str) -> anyhow::Result<()> {
    let pieces = numbers_of(alloc, rest)?;
    if pieces.contains(&0) {
        anyhow::bail!("a piece has a byte at least");
    }
    case.pieces = pieces;
    Ok(())
}

// The case is done once for each call.
fn take_each(case: &mut Case) -> anyhow::Result<()> {
    if case.runs.len() > 1 {
        anyhow::bail!("a case with refuse each has one run");
    }
    case.refuses_each = true;
    Ok(())
}

// Takes a line of a run.
fn take_run_line(
    alloc: Global,
    run: &mut Run,
    at: usize,
    word: &str,
    rest: &str,
) -> anyhow::Result<()> {
    match word {
        ">" | ">|" | "<" | "<|" | "or" | "say" => take_talk(alloc, run, at, word, rest),
        "status" | "faults" | "refusals" | "asked" => take_number(run, at, word, rest),
        "hold" | "held" => take_lock(run, at, word, rest),
        "refuse" | "refuse-read" => take_refused(alloc, run, word, rest),
        _ => take_file(alloc, run, at, word, rest),
    }
}

// A number that must come of the run.
fn take_number(run: &mut Run, at: usize, word: &str, rest: &str) -> anyhow::Result<()> {
    let number = number_of(rest)?;
    let begun = run.at;
    let wish = match word {
        "status" => &mut run.wanted.status,
        "faults" => &mut run.wanted.faults,
        "refusals" => &mut run.wanted.refusals,
        _ => &mut run.wanted.asked,
    };
    if wish.at != begun {
        anyhow::bail!("a run has one line {word}");
    }
    *wish = Wish {
        at,
        number: Some(number),
    };
    Ok(())
}

// A lock that is held at the start, or afterwards.
fn take_lock(run: &mut Run, at: usize, word: &str, rest: &str) -> anyhow::Result<()> {
    if word == "hold" {
        run.given.holds = with_lock(run.given.holds, rest)?;
    } else {
        run.wanted.held = with_lock(run.wanted.held, rest)?;
        run.wanted.held_at = at;
    }
    Ok(())
}

// These locks and the one of this name.
fn with_lock(locks: Locks, name: &str) -> anyhow::Result<Locks> {
    match name {
        "writer" => Ok(Locks {
            writer: true,
            meta: locks.meta,
        }),
        "meta" => Ok(Locks {
            writer: locks.writer,
            meta: true,
        }),
        _ => anyhow::bail!("the locks are writer and meta"),
    }
}

// The calls or the reads that are refused.
fn take_refused(alloc: Global, run: &mut Run, word: &str, rest: &str) -> anyhow::Result<()> {
    let numbers = numbers_of(alloc, rest)?;
    if word == "refuse" {
        run.given.refuse = numbers;
    } else {
        run.given.refuse_reads = numbers;
    }
    Ok(())
}

// A line of the script, or one that is told or said.
fn take_talk(
    alloc: Global,
    run: &mut Run,
    at: usize,
    word: &str,
    rest: &str,
) -> anyhow::Result<()> {
    let mut text = text_of(alloc, rest)?;
    if word != ">|" && word != "<|" {
        text.push(b'\n')?;
    }
    match word {
        ">" | ">|" => run.given.script.extend_from_slice(text.as_slice())?,
        "say" => run.wanted.said.push(Piece { at, text })?,
        "or" => tell_otherwise(run, Piece { at, text })?,
        _ => tell(alloc, run, Piece { at, text })?,
    }
    Ok(())
}

// A piece is told, whether a delete is refused or not.
fn tell(alloc: Global, run: &mut Run, piece: Piece) -> anyhow::Result<()> {
    run.wanted.otherwise.push(Piece {
        at: piece.at,
        text: Vec::from_slice(alloc, piece.text.as_slice())?,
    })?;
    run.wanted.told.push(piece)?;
    Ok(())
}

// A piece is told in place of the last one where a delete is refused.
fn tell_otherwise(run: &mut Run, piece: Piece) -> anyhow::Result<()> {
    let last = run.wanted.otherwise.last_mut();
    *last.context("a line that is told comes before or")? = piece;
    Ok(())
}

// A file, a schema, a folder, or the words of the command line.
fn take_file(
    alloc: Global,
    run: &mut Run,
    at: usize,
    word: &str,
    rest: &str,
) -> anyhow::Result<()> {
    match word {
        "words" => take_words(alloc, run, rest),
        "folder" => take_folder(alloc, run, rest),
        "schema" => take_schema(alloc, run, rest),
        "file" => take_start(alloc, run, rest),
        "left" | "like" | "gone" => take_left(alloc, run, at, word, rest),
        _ => anyhow::bail!("no line of a case begins with \"{word}\""),
    }
}

// The words of the command line.
fn take_words(alloc: Global, run: &mut Run, rest: &str) -> anyhow::Result<()> {
    let mut words = Vec::new(alloc);
    for word in rest.split_whitespace() {
        push_word(alloc, &mut words, word)?;
    }
    run.given.words = words;
    Ok(())
}

// Adds a word of the command line.
fn push_word(alloc: Global, words: &mut Vec<String>, word: &str) -> anyhow::Result<()> {
    words.push(word_of(alloc, word)?)?;
    Ok(())
}

// A word of the command line, or a path among them.
fn word_of(alloc: Global, word: &str) -> anyhow::Result<String> {
    let word = String::from_utf8(text_of(alloc, word)?).ok();
    word.context("the words of a command line are UTF-8")
}

// The one folder that is there.
fn take_folder(alloc: Global, run: &mut Run, rest: &str) -> anyhow::Result<()> {
    run.given.folder = Some(word_of(alloc, rest)?);
    Ok(())
}

// A schema, which stands under a path.
fn take_schema(alloc: Global, run: &mut Run, rest: &str) -> anyhow::Result<()> {
    let (path, text) = named(rest)?;
    run.given.schemas.push(schema_of(alloc, path, text)?)?;
    Ok(())
}

// A path, and the schema of this text.
fn schema_of(alloc: Global, path: &str, text: &str) -> anyhow::Result<(String, Vec<u8>)> {
    let text = text_of(alloc, text)?;
    Ok((String::from_str(alloc, path)?, text))
}

// A file that stands there before the run.
fn take_start(alloc: Global, run: &mut Run, rest: &str) -> anyhow::Result<()> {
    let (name, text) = named(rest)?;
    let name = name_of(alloc, name)?;
    run.given.files.push((name, text_of(alloc, text)?))?;
    Ok(())
}

// What is under a name after the run.
fn take_left(
    alloc: Global,
    run: &mut Run,
    at: usize,
    word: &str,
    rest: &str,
) -> anyhow::Result<()> {
    let (name, form) = form_of(alloc, word, rest)?;
    let name = name_of(alloc, name)?;
    run.wanted.left.push(Left { at, name, form })?;
    Ok(())
}

// The name, and what is under it after the run.
fn form_of<'a>(alloc: Global, word: &str, rest: &'a str) -> anyhow::Result<(&'a str, Form)> {
    if word == "gone" {
        return Ok((rest, Form::Absent));
    }
    let (name, text) = named(rest)?;
    if word == "left" {
        return Ok((name, Form::Reads(text_of(alloc, text)?)));
    }
    Ok((name, like(alloc, text)?))
}

// A file of a form.
fn like(alloc: Global, text: &str) -> anyhow::Result<Form> {
    Ok(Form::Like {
        text: String::from_str(alloc, text)?,
        parts: parts_of(alloc, text)?,
    })
}

// The parts of a text in which `${..}` stands for any bytes.
fn parts_of(alloc: Global, text: &str) -> anyhow::Result<Vec<Vec<u8>>> {
    let mut parts = Vec::new(alloc);
    for part in text.split("${..}") {
        push_part(alloc, &mut parts, part)?;
    }
    Ok(parts)
}

// Adds a part.
fn push_part(alloc: Global, parts: &mut Vec<Vec<u8>>, part: &str) -> anyhow::Result<()> {
    parts.push(text_of(alloc, part)?)?;
    Ok(())
}
