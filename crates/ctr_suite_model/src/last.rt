// Last lines of other commands and statuses, and sinks that fail.
use crate::entry::{must_be_empty, read_number, read_small};
use crate::page::Page;
use crate::trouble::Trouble;
use crate::words::{signed, wide};
use ctr_io::{MemSink, Sink};
use ctr_model::{Cause, Command, Report, Survey};
use ctr_print::{Printer, put_last_line, put_run};
use ctr_suite::split_word;
use ctr_types::{Damage, File, List, Tape};
use std::alloc::Global;

/// The report of a run that tells undo's turns alone.
pub fn report_of(undo_turns: u64) -> Report {
    Report {
        commits: 0,
        refused: 0,
        undo_turns,
        rows: 0,
        sum: 0,
    }
}

// The first four words of a line, and all that stands behind them. What isn't there is empty.
fn five_words(line: &[u8]) -> [&[u8]; 5] {
    let (first, rest) = split_word(line);
    let (second, rest) = split_word(rest);
    let (third, rest) = split_word(rest);
    let (fourth, rest) = split_word(rest);
    [first, second, third, fourth, rest]
}

fn read_wide(word: &[u8]) -> Result<u128, Trouble> {
    wide(word).ok_or(Trouble::Spelling)
}

const FILES: &[(&str, File)] = &[
    ("Root", File::Root),
    ("LogA", File::LogA),
    ("LogB", File::LogB),
    ("Pages", File::Pages),
];

fn read_file(word: &[u8]) -> Result<File, Trouble> {
    for (text, file) in FILES {
        if word == text.as_bytes() {
            return Ok(*file);
        }
    }
    Err(Trouble::Spelling)
}

// `LogA 63 1 0`
fn read_damage(words: &[u8]) -> Result<Cause, Trouble> {
    let [file, at, want, got, rest] = five_words(words);
    must_be_empty(rest)?;
    let file = read_file(file)?;
    let at = read_number(at)?;
    let want = read_wide(want)?;
    let got = read_wide(got)?;
    Ok(Cause::Damaged(Damage {
        file,
        at,
        want,
        got,
    }))
}

// `script 1 9`, `worn 5`, `damaged LogA 63 1 0`, or nothing.
fn read_cause(words: &[u8]) -> Result<Cause, Trouble> {
    let (word, rest) = split_word(words);
    if word.is_empty() {
        return Ok(Cause::Plain);
    }
    if word == b"damaged".as_slice() {
        return read_damage(rest);
    }
    if word == b"worn".as_slice() {
        let number = read_number(rest)?;
        return Ok(Cause::Worn { number });
    }
    if word != b"script".as_slice() {
        return Err(Trouble::Spelling);
    }
    let (line, at) = split_word(rest);
    let line = read_number(line)?;
    let at = read_number(at)?;
    Ok(Cause::Script { line, at })
}

// The last line of a run that came to its end.
fn put_success(page: &mut Page, command: &Command, tape: &Tape, report: &Report) {
    let mut out = Printer::new(page);
    put_last_line(&mut out, command, 0, &Cause::Plain, tape, report);
    let _ = out.finish();
}

// `1 3 97 -5`: sessions, statements, rows, sum.
fn put_load(page: &mut Page, words: &[u8], tape: &Tape) -> Result<(), Trouble> {
    let [sessions, statements, rows, sum, rest] = five_words(words);
    must_be_empty(rest)?;
    let command = Command::Load {
        sessions: read_number(sessions)?,
        statements: read_number(statements)?,
    };
    let report = Report {
        rows: read_number(rows)?,
        sum: signed(sum).ok_or(Trouble::Spelling)?,
        ..report_of(0)
    };
    put_success(page, &command, tape, &report);
    Ok(())
}

// `0 1 2 3 4`: tables, rows, open transactions, aborted ones, items.
fn put_survey(page: &mut Page, words: &[u8], tape: &Tape) -> Result<(), Trouble> {
    let [tables, rows, orphans, aborted, items] = five_words(words);
    let start = Survey {
        tables: read_number(tables)?,
        rows: read_number(rows)?,
        orphans: read_number(orphans)?,
        aborted: read_number(aborted)?,
        items: read_number(items)?,
    };
    put_success(page, &Command::Survey { start }, tape, &report_of(0));
    Ok(())
}

/// The last line of the end that a line tells: `init`, `load ..`, `report ..`, or a status and its
/// cause.
pub fn put_end(page: &mut Page, line: &[u8], tape: &Tape) -> Result<(), Trouble> {
    let (word, rest) = split_word(line);
    let report = report_of(0);
    if line == b"init".as_slice() {
        put_success(page, &Command::Init, tape, &report);
        return Ok(());
    }
    if word == b"load".as_slice() {
        return put_load(page, rest, tape);
    }
    if word == b"report".as_slice() {
        return put_survey(page, rest, tape);
    }
    let status = read_small(word)?;
    let cause = read_cause(rest)?;
    let mut out = Printer::new(page);
    put_last_line(&mut out, &Command::Run, status, &cause, tape, &report);
    let _ = out.finish();
    Ok(())
}

// Whether a put fails as it is listed, and what was put is then a prefix of the whole.
fn leaves_front(alloc: Global, fails: List<u64>, tape: &Tape, whole: &[u8]) -> bool {
    let mut sink = MemSink::in_pieces(alloc, fails, 3);
    let fine = put_run(
        &mut sink,
        &Command::Run,
        0,
        &Cause::Plain,
        tape,
        &report_of(0),
    );
    !fine && sink.faults() == 1 && whole.starts_with(sink.bytes())
}

/// Lets each of the first puts fail in turn, of up to 3 bytes each, and counts those behind which a
/// prefix of the whole stands.
pub fn count_fronts(alloc: Global, puts: u64, tape: &Tape, whole: &[u8]) -> Result<u64, Trouble> {
    let mut fronts = 0u64;
    for number in 0..puts {
        let mut fails = List::new(alloc);
        fails.push(number.saturating_add(1))?;
        if leaves_front(alloc, fails, tape, whole) {
            fronts = fronts.saturating_add(1);
        }
    }
    Ok(fronts)
}
