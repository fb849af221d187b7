// What is printed of a run: a line for each turn, with what it logged and what it told.
use crate::logged::put_records;
use crate::page::Page;
use crate::run::Run;
use crate::told::put_entry;
use crate::turns::Noted;
use ctr_log::Visit;
use ctr_types::Entry;
use std::alloc::Global;

// The first so many of a tape's entries, but those before another.
fn entries_of(tape: &[Entry], entries: (usize, usize)) -> &[Entry] {
    tape.get(entries.0..entries.1).unwrap_or(&[])
}

// What a turn did: its records, growth, or nothing but calls of the disk.
fn put_done(alloc: Global, page: &mut Page, log: &[Visit], noted: &Noted) {
    let count = put_records(alloc, page, log, noted.records.0, noted.records.1);
    if noted.counted > 0 {
        page.add_number("counts ", u64::from(noted.counted));
    } else if noted.moved {
        page.add(b"disk");
    } else if count == 0 {
        page.add(b"-");
    }
}

// The line of a turn.
fn put_turn(alloc: Global, page: &mut Page, run: &Run, noted: &Noted) {
    page.add_number("", u64::from(noted.session));
    if noted.over {
        page.add(b": over\n");
        return;
    }
    page.add(b": ");
    put_done(alloc, page, run.log.visits(), noted);
    for entry in entries_of(&run.tape, noted.entries) {
        page.add(b" | ");
        put_entry(page, entry);
    }
    page.add(b"\n");
}

/// The last so many turns of a run, and how many come before.
pub fn put_turns(alloc: Global, page: &mut Page, run: &Run, tail: usize) {
    let hidden = run.notes.len().saturating_sub(tail);
    if hidden > 0 {
        page.add_number(".. ", hidden as u64);
        page.add(b" turns\n");
    }
    for noted in run.notes.iter().skip(hidden) {
        put_turn(alloc, page, run, noted);
    }
}
