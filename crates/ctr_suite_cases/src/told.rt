// Entries of a tape as text: `1.2 lock granted`, session and statement, act, reply.
use crate::page::Page;
use ctr_types::{Act, Entry, Reply};

// An act's word.
fn act_word(act: &Act) -> &'static str {
    match act {
        Act::Begin => "begin",
        Act::Read => "read",
        Act::Lock => "lock",
        Act::Write => "write",
        Act::Ask => "ask",
        Act::Answer => "answer",
        Act::Rollback => "rollback",
        Act::Release { .. } => "release",
    }
}

/// A reply.
pub fn put_reply(page: &mut Page, reply: &Reply) {
    match reply {
        Reply::Began { n } => page.add_number("began ", *n),
        Reply::Granted => page.add(b"granted"),
        Reply::Rows { rows } => {
            page.add(b"rows");
            for row in rows.rows.as_slice() {
                page.add(b" ");
                page.add_row(row);
            }
        }
        Reply::Done => page.add(b"done"),
        Reply::Asked { k } => page.add_number("asked ", *k),
        Reply::ReadOnly => page.add(b"read-only"),
        Reply::Answered { k } => page.add_number("answered ", *k),
        Reply::RolledBack => page.add(b"rolled-back"),
        Reply::Released => page.add(b"released"),
        Reply::Refused { refusal } => {
            page.add(b"refused ");
            page.add_refusal(*refusal);
        }
    }
}

/// An entry.
pub fn put_entry(page: &mut Page, entry: &Entry) {
    page.add_number("", u64::from(entry.session));
    page.add_number(".", entry.statement);
    page.add(b" ");
    page.add(act_word(&entry.act).as_bytes());
    page.add(b" ");
    put_reply(page, &entry.reply);
}
