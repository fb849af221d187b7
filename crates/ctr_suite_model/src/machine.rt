// What the slow machine says and leaves, as text.
use crate::entry::act_word;
use crate::page::Page;
use crate::run::{go_on, reply_at, statement_of};
use crate::trouble::Trouble;
use ctr_model::{Change, State, Table, Transaction};
use ctr_types::{Act, Entry, Kind, Line, Name, Plain, Reply, Schema};
use std::alloc::Global;

// ---- tables

fn put_schema(page: &mut Page, schema: &Schema) {
    page.add(b"(");
    for (at, column) in schema.columns.as_slice().iter().enumerate() {
        if at > 0 {
            page.add(b", ");
        }
        page.add(column.name.as_slice());
        match column.kind {
            Kind::Int => page.add(b" INT"),
            Kind::Chars(most) => {
                page.add_number(" TEXT(", u64::from(most));
                page.add(b")");
            }
        }
        if at == 0 {
            page.add(b" PRIMARY KEY");
        }
    }
    page.add(b")");
}

/// The tables with their columns and rows.
pub fn put_tables(page: &mut Page, tables: &[(Name, Table)]) {
    if tables.is_empty() {
        page.add(b"no tables\n");
    }
    for (name, table) in tables {
        page.add(name.as_slice());
        page.add(b" ");
        put_schema(page, &table.schema);
        page.add(b"\n");
        for (_, row) in table.rows.entries() {
            page.add_row_line(row);
        }
    }
}

// ---- states

fn put_change(page: &mut Page, change: &Change) {
    match change {
        Change::Put { table, key, row } => {
            put_key(page, " put ", table, *key);
            page.add(b" ");
            page.add_row(row);
        }
        Change::Remove { table, key } => put_key(page, " remove ", table, *key),
        Change::Create { table, schema } => {
            page.add(b" create ");
            page.add(table.as_slice());
            page.add(b" ");
            put_schema(page, schema);
        }
        Change::Drop { table } => {
            page.add(b" drop ");
            page.add(table.as_slice());
        }
    }
}

fn put_key(page: &mut Page, words: &str, table: &Name, key: i64) {
    page.add(words.as_bytes());
    page.add(table.as_slice());
    page.add(b" ");
    page.add_signed(key);
}

fn put_changes(page: &mut Page, words: &str, changes: &[Change]) {
    for change in changes {
        page.add(words.as_bytes());
        put_change(page, change);
        page.add(b"\n");
    }
}

fn put_names(page: &mut Page, words: &str, names: &[Name]) {
    if names.is_empty() {
        return;
    }
    page.add(words.as_bytes());
    for name in names {
        page.add(b" ");
        page.add(name.as_slice());
    }
}

// A transaction on one line, without what it doesn't have, and then its own changes.
fn put_transaction(page: &mut Page, session: u8, me: &Transaction) {
    page.add_number("session ", u64::from(session));
    page.add_number(": began ", me.snapshot);
    if me.writer {
        page.add(b", writer");
    }
    for lock in me.locks.as_slice() {
        put_key(page, ", locks ", &lock.table, lock.key);
    }
    put_names(page, ", uses", me.uses.as_slice());
    put_names(page, ", holds", me.holds.as_slice());
    if let Some(k) = me.asked {
        page.add_number(", asked ", k);
    }
    page.add(b"\n");
    put_changes(page, "  own", me.own.as_slice());
}

/// The whole state but for the database that the run began with.
pub fn put_state(page: &mut Page, state: &State) {
    page.add_number("answered ", state.answered);
    page.add(b"\n");
    for (at, changes) in state.asked.as_slice().iter().enumerate() {
        page.add_number("commit ", (at as u64).saturating_add(1));
        page.add(b"\n");
        put_changes(page, " ", changes.as_slice());
    }
    for (session, me) in state.sessions.entries() {
        put_transaction(page, *session, me);
    }
    if !state.stuck.is_empty() {
        put_names(page, "stuck", state.stuck.as_slice());
        page.add(b"\n");
    }
}

// ---- replies

fn put_reply(page: &mut Page, reply: &Reply) {
    match reply {
        Reply::Began { n } => page.add_number("began ", *n),
        Reply::Granted => page.add(b"granted"),
        Reply::Rows { rows } => {
            page.add(b"rows");
            for row in rows.rows.as_slice() {
                page.add(b" ");
                page.add_row(row);
            }
        }
        Reply::Done => page.add(b"done"),
        Reply::Asked { k } => page.add_number("asked ", *k),
        Reply::ReadOnly => page.add(b"read-only"),
        Reply::Answered { k } => page.add_number("answered ", *k),
        Reply::RolledBack => page.add(b"rolled-back"),
        Reply::Released => page.add(b"released"),
        Reply::Refused { refusal } => {
            page.add(b"refused ");
            page.add_refusal(*refusal);
        }
    }
}

// An entry as a suite writes it.
fn put_entry(page: &mut Page, entry: &Entry) {
    page.add_number("", u64::from(entry.session));
    page.add_number(".", entry.statement);
    page.add(b" ");
    page.add(act_word(&entry.act).as_bytes());
    page.add(b" ");
    if let Act::Release { name } = &entry.act {
        page.add(name.as_slice());
        page.add(b" ");
    }
    put_reply(page, &entry.reply);
    page.add_number(" @", entry.moment);
}

// Adds an entry to a page, with the machine's reply where that is another, and goes on by the entry's own.
fn put_replied(
    alloc: Global,
    page: &mut Page,
    lines: &[Line],
    state: &mut State,
    entry: &Entry,
) -> Result<(), Trouble> {
    let statement = statement_of(lines, entry);
    let replied = reply_at(alloc, state, entry.session, &entry.act, statement)?;
    put_entry(page, entry);
    if !replied.same(&entry.reply) {
        page.add(b", the machine: ");
        put_reply(page, &replied);
    }
    page.add(b"\n");
    go_on(alloc, state, statement, entry)
}

/// The entries, each with the machine's reply at the state that those before it leave, from a state on.
pub fn put_replies(
    alloc: Global,
    page: &mut Page,
    lines: &[Line],
    state: &mut State,
    entries: &[Entry],
) -> Result<(), Trouble> {
    if entries.is_empty() {
        page.add(b"no entries\n");
    }
    for entry in entries {
        put_replied(alloc, page, lines, state, entry)?;
    }
    Ok(())
}
