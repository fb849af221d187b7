// Entries of a tape as text: `1.2 lock granted @2`, session and statement, act, reply, moment.
use crate::lists::add;
use crate::spelled::{behind, read_name, read_statement};
use crate::trouble::Trouble;
use crate::words::{last_word, number};
use ctr_suite::{named, split_at, split_word};
use ctr_types::{Act, Entry, List, Plain, Refusal, Reply, Row, Rows, Statement};
use std::alloc::Global;

/// The entry that a line is.
pub fn read_entry(alloc: Global, line: &[u8]) -> Result<Entry, Trouble> {
    let (who, words) = split_word(line);
    let (session, statement) = split_at(who, b'.');
    let session = read_small(session)?;
    let statement = read_number(statement)?;
    let moment = read_moment(last_word(words))?;
    let (word, rest) = split_word(without_last_word(words));
    let act = read_act(alloc, word, rest)?;
    let reply = read_reply(alloc, reply_words(word, rest))?;
    Ok(Entry {
        session,
        statement,
        act,
        reply,
        moment,
    })
}

fn without_last_word(words: &[u8]) -> &[u8] {
    let behind = last_word(words).len().saturating_add(1);
    let length = words.len().saturating_sub(behind);
    words.split_at(length.min(words.len())).0
}

// `@2`
fn read_moment(word: &[u8]) -> Result<u64, Trouble> {
    read_number(word.strip_prefix(b"@").ok_or(Trouble::Spelling)?)
}

/// The number that a word is.
pub fn read_number(word: &[u8]) -> Result<u64, Trouble> {
    number(word).ok_or(Trouble::Spelling)
}

/// The number of 8 bits that a word is, as that of a session, or 0 for recovery.
pub fn read_small(word: &[u8]) -> Result<u8, Trouble> {
    u8::try_from(read_number(word)?)
        .ok()
        .ok_or(Trouble::Spelling)
}

/// Refuses words that a line has too many.
pub fn must_be_empty(rest: &[u8]) -> Result<(), Trouble> {
    if rest.is_empty() {
        return Ok(());
    }
    Err(Trouble::Spelling)
}

// ---- acts

/// An act's word.
pub fn act_word(act: &Act) -> &'static str {
    match act {
        Act::Begin => "begin",
        Act::Read => "read",
        Act::Lock => "lock",
        Act::Write => "write",
        Act::Ask => "ask",
        Act::Answer => "answer",
        Act::Rollback => "rollback",
        Act::Release { .. } => "release",
    }
}

// The act of a word. The name that recovery gives free stands behind it.
fn read_act(alloc: Global, word: &[u8], rest: &[u8]) -> Result<Act, Trouble> {
    if word == b"release".as_slice() {
        let name = read_name(alloc, split_word(rest).0)?;
        return Ok(Act::Release { name });
    }
    if word == b"begin".as_slice() {
        return Ok(Act::Begin);
    }
    if word == b"read".as_slice() {
        return Ok(Act::Read);
    }
    if word == b"lock".as_slice() {
        return Ok(Act::Lock);
    }
    if word == b"write".as_slice() {
        return Ok(Act::Write);
    }
    if word == b"ask".as_slice() {
        return Ok(Act::Ask);
    }
    if word == b"answer".as_slice() {
        return Ok(Act::Answer);
    }
    if word == b"rollback".as_slice() {
        return Ok(Act::Rollback);
    }
    Err(Trouble::Spelling)
}

// What stands behind an act.
fn reply_words<'a>(word: &[u8], rest: &'a [u8]) -> &'a [u8] {
    if word == b"release".as_slice() {
        return split_word(rest).1;
    }
    rest
}

// ---- replies

fn read_reply(alloc: Global, words: &[u8]) -> Result<Reply, Trouble> {
    let (word, rest) = split_word(words);
    if word == b"rows".as_slice() {
        let rows = read_rows(alloc, rest)?;
        return Ok(Reply::Rows { rows });
    }
    if word == b"refused".as_slice() {
        let refusal = read_refusal(rest)?;
        return Ok(Reply::Refused { refusal });
    }
    if rest.is_empty() {
        return simple_reply(word);
    }
    numbered_reply(word, read_number(rest)?)
}

fn simple_reply(word: &[u8]) -> Result<Reply, Trouble> {
    if word == b"granted".as_slice() {
        return Ok(Reply::Granted);
    }
    if word == b"done".as_slice() {
        return Ok(Reply::Done);
    }
    if word == b"read-only".as_slice() {
        return Ok(Reply::ReadOnly);
    }
    if word == b"rolled-back".as_slice() {
        return Ok(Reply::RolledBack);
    }
    if word == b"released".as_slice() {
        return Ok(Reply::Released);
    }
    Err(Trouble::Spelling)
}

fn numbered_reply(word: &[u8], number: u64) -> Result<Reply, Trouble> {
    if word == b"began".as_slice() {
        return Ok(Reply::Began { n: number });
    }
    if word == b"asked".as_slice() {
        return Ok(Reply::Asked { k: number });
    }
    if word == b"answered".as_slice() {
        return Ok(Reply::Answered { k: number });
    }
    Err(Trouble::Spelling)
}

// Where a row in brackets ends: behind the bracket that stands in no text.
fn row_length(words: &[u8]) -> usize {
    let mut quoted = false;
    for (at, byte) in words.iter().enumerate() {
        if *byte == b'\'' {
            quoted = !quoted;
        } else if *byte == b')' && !quoted {
            return at.saturating_add(1);
        }
    }
    words.len()
}

// `(1, 'a')`
fn read_row(alloc: Global, words: &[u8]) -> Result<Row, Trouble> {
    let text = behind(alloc, "INSERT INTO t VALUES ", words)?;
    let statement = read_statement(alloc, &text)?;
    row_in(alloc, &statement)
}

fn row_in(alloc: Global, statement: &Statement) -> Result<Row, Trouble> {
    match statement {
        Statement::Insert { values, .. } => Ok(Row {
            values: values.copy(alloc)?,
        }),
        _ => Err(Trouble::Spelling),
    }
}

// `(1, 'a') (2, 'b')`, or nothing.
fn read_rows(alloc: Global, words: &[u8]) -> Result<Rows, Trouble> {
    let mut rows = List::new(alloc);
    add_rows(alloc, &mut rows, words)?;
    Ok(Rows { rows })
}

fn add_rows(alloc: Global, rows: &mut List<Row>, words: &[u8]) -> Result<(), Trouble> {
    let mut rest = words;
    for _ in 0..words.len() {
        if rest.is_empty() {
            break;
        }
        let (row, behind) = rest.split_at(row_length(rest).min(rest.len()));
        add(rows, read_row(alloc, row)?)?;
        rest = behind.strip_prefix(b" ").unwrap_or(behind);
    }
    Ok(())
}

// ---- refusals

const SIMPLE: &[(&str, Refusal)] = &[
    ("NoTransaction", Refusal::NoTransaction),
    ("InTransaction", Refusal::InTransaction),
    ("NoTable", Refusal::NoTable),
    ("TableExists", Refusal::TableExists),
    ("OutOfMemory", Refusal::OutOfMemory),
    ("Duplicate", Refusal::Duplicate),
    ("NotFound", Refusal::NotFound),
    ("OutOfRange", Refusal::OutOfRange),
];

/// A refusal, in the words of the transcript.
pub fn read_refusal(words: &[u8]) -> Result<Refusal, Trouble> {
    if let Some(refusal) = named(SIMPLE, words) {
        return Ok(refusal);
    }
    if words == b"TableBusy by recovery".as_slice() {
        return Ok(Refusal::TableBusy { by: 0 });
    }
    let last = last_word(words);
    let front = words.strip_suffix(last).ok_or(Trouble::Spelling)?;
    numbered_refusal(front, last)
}

fn numbered_refusal(front: &[u8], last: &[u8]) -> Result<Refusal, Trouble> {
    let number = read_number(last)?;
    if front == b"TableBusy by ".as_slice() {
        let by = read_small(last)?;
        return Ok(Refusal::TableBusy { by });
    }
    if front == b"RowLocked by ".as_slice() {
        let by = read_small(last)?;
        return Ok(Refusal::RowLocked { by });
    }
    if front == b"SchemaChanged by commit ".as_slice() {
        return Ok(Refusal::SchemaChanged { commit: number });
    }
    if front == b"RowChanged by commit ".as_slice() {
        return Ok(Refusal::RowChanged { commit: number });
    }
    if front == b"BadValue ".as_slice() {
        return Ok(Refusal::BadValue { at: number });
    }
    let limit = u32::try_from(number).ok().ok_or(Trouble::Spelling)?;
    if front == b"CatalogFull ".as_slice() {
        return Ok(Refusal::CatalogFull { limit });
    }
    if front == b"Full ".as_slice() {
        return Ok(Refusal::Full { limit });
    }
    Err(Trouble::Spelling)
}
