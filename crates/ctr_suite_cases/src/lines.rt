// The lines of a suite that make a script.
use crate::lists::add;
use crate::trouble::Trouble;
use ctr_parse::{ParseRefusal, parse_line};
use ctr_types::{Line, List};
use std::alloc::{AllocError, Global};

/// Adds the line that a text is, as a script has it: `1> BEGIN;`.
pub fn add_line(alloc: Global, lines: &mut List<Line>, text: &[u8]) -> Result<(), Trouble> {
    match parse_line(alloc, text) {
        Ok(line) => add(lines, line),
        Err(ParseRefusal::OutOfMemory) => Err(Trouble::OutOfMemory),
        Err(ParseRefusal::ParseError { at: _ }) => Err(Trouble::Spelling),
    }
}

// Adds a text, in which these digits stand for each #.
fn add_digits(line: &mut Vec<u8>, text: &[u8], digits: &[u8]) -> Result<(), AllocError> {
    for byte in text {
        if *byte == b'#' {
            line.extend_from_slice(digits)?;
        } else {
            line.push(*byte)?;
        }
    }
    Ok(())
}

// The text, in which this number stands for each #.
fn numbered(alloc: Global, text: &[u8], number: u64) -> Result<Vec<u8>, AllocError> {
    let digits = format!(in alloc; "{number}")?;
    let mut line = Vec::new(alloc);
    add_digits(&mut line, text, digits.as_bytes())?;
    Ok(line)
}

// Adds the line of a number.
fn add_numbered(
    alloc: Global,
    lines: &mut List<Line>,
    text: &[u8],
    number: u64,
) -> Result<(), Trouble> {
    let line = numbered(alloc, text, number)?;
    let added = add_line(alloc, lines, &line);
    drop(line);
    added
}

/// Adds a line for each number from one to another.
pub fn add_each(
    alloc: Global,
    lines: &mut List<Line>,
    from: u64,
    to: u64,
    text: &[u8],
) -> Result<(), Trouble> {
    for number in from..to.saturating_add(1) {
        add_numbered(alloc, lines, text, number)?;
    }
    Ok(())
}

/// The lines by which session 1 looks at tables, each of a name, in a transaction.
pub fn looks_at(alloc: Global, names: &[u8]) -> Result<List<Line>, Trouble> {
    let mut lines = List::new(alloc);
    match add_looks(alloc, &mut lines, names) {
        Ok(()) => Ok(lines),
        Err(trouble) => Err(trouble),
    }
}

// The line that reads a table.
fn look_text(alloc: Global, name: &[u8]) -> Result<Vec<u8>, AllocError> {
    let mut text = Vec::new(alloc);
    text.extend_from_slice(b"1> SELECT * FROM ")?;
    text.extend_from_slice(name)?;
    text.push(b';')?;
    Ok(text)
}

fn add_look(alloc: Global, lines: &mut List<Line>, name: &[u8]) -> Result<(), Trouble> {
    let text = look_text(alloc, name)?;
    let added = add_line(alloc, lines, &text);
    drop(text);
    added
}

// What begins a transaction, and reads each table.
fn add_looks(alloc: Global, lines: &mut List<Line>, names: &[u8]) -> Result<(), Trouble> {
    add_line(alloc, lines, b"1> BEGIN;")?;
    for name in names.split(|byte| *byte == b' ') {
        add_look(alloc, lines, name)?;
    }
    Ok(())
}
