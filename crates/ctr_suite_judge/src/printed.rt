// What a run has to print, by its tape, status and cause; and which commits its tape answers.
use crate::setup::{Ran, Setup};
use ctr_io::MemSink;
use ctr_model::{Cause, Command, Report};
use ctr_print::{Printer, put_last_line, put_run};
use ctr_suite_steps::Page;
use ctr_types::{List, Reply, Tape};
use std::alloc::Global;

/// The status of work that came to its end, and whose text couldn't be put.
const WRITE_FAULT: u8 = 7;

// Puts the last line alone.
fn put_end(
    sink: &mut MemSink,
    command: &Command,
    status: u8,
    cause: &Cause,
    tape: &Tape,
    report: &Report,
) -> bool {
    let mut out = Printer::new(sink);
    put_last_line(&mut out, command, status, cause, tape, report);
    out.finish()
}

/// The transcript of a tape, and the last line of a command; of a load that alone.
pub fn printing_of(
    alloc: Global,
    command: &Command,
    status: u8,
    cause: &Cause,
    tape: &Tape,
    report: &Report,
) -> Vec<u8> {
    let mut sink = MemSink::new(alloc, List::new(alloc));
    let work = if status == WRITE_FAULT { 0 } else { status };
    let _ = match command {
        Command::Load { .. } => put_end(&mut sink, command, work, cause, tape, report),
        _ => put_run(&mut sink, command, work, cause, tape, report),
    };
    sink.into_bytes()
}

/// Each commit that a tape answers, with the moment.
pub fn put_answered(alloc: Global, page: &mut Page, tape: &Tape) {
    for entry in tape.entries.as_slice() {
        if let Reply::Answered { k } = &entry.reply {
            page.put_number(alloc, "", entry.session as u64);
            page.put_number(alloc, ".", entry.statement);
            page.put_number(alloc, ": commit ", *k);
            page.put_number(alloc, " at ", entry.moment);
            page.put(b"\n");
        }
    }
}

/// Whether the text of a run was put, or a prefix of it where the sink was to fail.
pub fn is_printed(setup: &Setup, ran: &Ran) -> bool {
    if setup.sink_fails.is_empty() {
        return ran.text.as_slice() == ran.seen.printing.as_slice();
    }
    ran.seen.printing.starts_with(&ran.text)
}
