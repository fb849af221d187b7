// What the readers say of single lines and records, and bytes of a file.
use ctr_io::MemSource;
use ctr_lex::tokens;
use ctr_mem_disk::Bytes;
use ctr_rec::decode;
use ctr_script::{ScriptError, read_script};
use ctr_suite_steps::{Page, hex_bytes};
use ctr_types::{List, OutOfMemory, Script, Text};
use std::alloc::Global;

/// The tokens of a line, each after the place at which it begins, from 0; and the place at which none begins.
fn put_tokens(alloc: Global, page: &mut Page, line: &[u8]) -> Result<(), OutOfMemory> {
    let found = tokens(alloc, line, usize::MAX)?;
    for token in found.as_slice() {
        page.put_number(alloc, "", token.at as u64);
        page.put(b":");
        page.put(token.text);
        page.put(b" ");
    }
    match found.bad {
        None => page.put(b"whole\n"),
        Some(at) => {
            page.put_number(alloc, "none at ", at as u64);
            page.put(b"\n");
        }
    }
    Ok(())
}

/// Whether bytes are a script: its number of statements, or why they are none.
pub fn put_script(alloc: Global, page: &mut Page, bytes: &[u8]) -> Result<(), OutOfMemory> {
    let mut source = MemSource::new(Text::from_slice(alloc, bytes)?, List::new(alloc));
    let read = read_script(alloc, &mut source);
    let put = put_read(alloc, page, &read);
    drop(read);
    drop(source);
    put
}

fn put_read(
    alloc: Global,
    page: &mut Page,
    read: &Result<Script, ScriptError>,
) -> Result<(), OutOfMemory> {
    match read {
        Ok(script) => {
            page.put_number(alloc, "statements ", script.lines.len() as u64);
            page.put(b"\n");
        }
        Err(ScriptError::Refused { line, at }) => {
            page.put_number(alloc, "refused at line ", *line);
            page.put_number(alloc, ", byte ", *at);
            page.put(b"\n");
        }
        Err(ScriptError::TooLong) => page.put(b"too long\n"),
        Err(ScriptError::ReadFault) => page.put(b"read fault\n"),
        Err(ScriptError::OutOfMemory) => return Err(OutOfMemory),
    }
    Ok(())
}

/// A line by itself, and whether it is a script.
fn put_line(alloc: Global, page: &mut Page, line: &[u8]) -> Result<(), OutOfMemory> {
    let mut bytes = line.to_vec(alloc)?;
    bytes.push(b'\n')?;
    page.put(line);
    page.put(b" -> ");
    let put = put_script(alloc, page, &bytes);
    drop(bytes);
    put
}

/// Whether bytes are a record of the log, or which check fails at which byte.
fn put_record(alloc: Global, page: &mut Page, bytes: &[u8]) {
    match decode(bytes) {
        Ok(_) => {
            let tag = bytes.first().copied().unwrap_or(0);
            page.put_number(alloc, "a record of tag ", tag as u64);
            page.put(b"\n");
        }
        Err(bad) => {
            page.put_number(alloc, "bad at ", bad.at);
            page.put_wanted(alloc, bad.want, bad.got);
        }
    }
}

// The byte at which the check of a record fails that is cut to this length, and what it wants; None where none fails.
fn cut_at(bytes: &[u8], length: usize) -> Option<(u64, u128)> {
    match decode(&bytes[..length.min(bytes.len())]) {
        Ok(_) => None,
        Err(bad) => Some((bad.at, bad.want)),
    }
}

/// Which check fails of a record that is cut short. Lengths at which the same fails are one line.
fn put_cuts(alloc: Global, page: &mut Page, bytes: &[u8]) {
    let mut first = 0usize;
    let mut last = cut_at(bytes, 0);
    for length in 1..bytes.len() {
        let next = cut_at(bytes, length);
        if next != last {
            put_cut(alloc, page, first, length - 1, last);
            first = length;
            last = next;
        }
    }
    put_cut(alloc, page, first, bytes.len().saturating_sub(1), last);
}

fn put_cut(alloc: Global, page: &mut Page, from: usize, to: usize, bad: Option<(u64, u128)>) {
    page.put_number(alloc, "cut to ", from as u64);
    if to > from {
        page.put_number(alloc, " to ", to as u64);
    }
    match bad {
        None => page.put(b": whole\n"),
        Some((at, want)) => page.put_text(format!(in alloc; ": bad at {at}, want {want}\n")),
    }
}

/// The tokens of each line of a script, or whether it is a script by itself.
pub fn put_lines(
    alloc: Global,
    page: &mut Page,
    is_tokens: bool,
    script: &[u8],
) -> Result<(), OutOfMemory> {
    let lines = script.strip_suffix(b"\n").unwrap_or(script);
    for line in lines.split(|byte| *byte == b'\n') {
        if is_tokens {
            put_tokens(alloc, page, line)?;
        } else {
            put_line(alloc, page, line)?;
        }
    }
    Ok(())
}

/// The record of bytes that are written in hexadecimal, or of each of their fronts; none where they are no such bytes.
pub fn put_bytes(
    alloc: Global,
    page: &mut Page,
    cuts: bool,
    rest: &[u8],
) -> Result<Option<()>, OutOfMemory> {
    let Some(bytes) = hex_bytes(alloc, rest)? else {
        return Ok(None);
    };
    if cuts {
        put_cuts(alloc, page, &bytes);
    } else {
        put_record(alloc, page, &bytes);
    }
    Ok(Some(()))
}

/// The bytes from a place to another, as far as there are any.
pub fn put_part(alloc: Global, page: &mut Page, bytes: &Bytes, from: u64, to: u64) {
    for at in from..to.min(bytes.len()) {
        let mut byte = [0];
        bytes.read(at, &mut byte);
        page.put_hex(alloc, byte[0]);
    }
}
