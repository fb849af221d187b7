// The transcript of a tape on a sink.
ghost use Rattle.std.specs.Prelude.{[], ◌++◌, codes};
ghost use Rattle.ctr_model.specs.Texts.{entry_head, entry_line, entry_text, reply_text, release_line, refusal_text, row_line, transcript};
ghost use Rattle.ctr_print.specs.Prints.{PrintsMore};
ghost use Rattle.ctr_print.specs.Pieces.{joined};

use crate::form::{Form, put_each};
use crate::piece::Piece;
use crate::pieces::put_pieces;
use crate::printer::Printer;
use crate::refusal::put_refusal;
use crate::value::put_row_line;
use ctr_io::{Act, Entry, Refusal, Reply, Row, Rows, Sink, Tape};

// Who was answered.
fn put_head<K: Sink>(out: &mut Printer<K>, entry: &Entry)
    ensures { PrintsMore K.Sink (entry_head entry.now) out.old out.new }
{
    put_pieces(
        out,
        &[
            Piece::Number(u64::from(entry.session)),
            Piece::Bytes(b"."),
            Piece::Number(entry.statement),
            Piece::Bytes(b": "),
        ],
    )
}

// A line of an entry.
fn put_line<K: Sink>(out: &mut Printer<K>, entry: &Entry, pieces: &[Piece])
    ensures { PrintsMore K.Sink (entry_line entry.now (joined [] pieces.now)) out.old out.new }
{
    put_head(out, entry);
    put_pieces(out, pieces);
    out.put(b"\n");
}

fn put_refused<K: Sink>(out: &mut Printer<K>, entry: &Entry, refusal: Refusal)
    ensures { PrintsMore K.Sink (entry_line entry.now (codes "refused " ++ refusal_text refusal)) out.old out.new }
{
    put_head(out, entry);
    out.put(b"refused ");
    put_refusal(out, refusal);
    out.put(b"\n");
}

struct RowLine;

impl Form<Row> for RowLine {
    ghost text = { row_line };

    fn put<K: Sink>(out: &mut Printer<K>, row: &Row) {
        put_row_line(out, row);
    }
}

fn put_rows<K: Sink>(out: &mut Printer<K>, entry: &Entry, rows: &Rows)
    ensures { PrintsMore K.Sink (reply_text entry.now (Reply.Rows rows.now)) out.old out.new }
{
    let rows = rows.rows.as_slice();
    let count = rows.len() as u64;
    put_line(out, entry, &[Piece::Bytes(b"rows "), Piece::Number(count)]);
    put_each::<RowLine, Row, K>(out, rows);
}

// That recovery gave the name of a table free.
fn put_release<K: Sink>(out: &mut Printer<K>, act: &Act)
    ensures { PrintsMore K.Sink (release_line act.now) out.old out.new }
{
    let Act::Release { name } = act else {
        return;
    };
    put_pieces(
        out,
        &[
            Piece::Bytes(b"recovery: released "),
            Piece::Bytes(name.as_slice()),
            Piece::Bytes(b"\n"),
        ],
    )
}

/// Puts what the transcript shows of an entry.
pub fn put_entry<K: Sink>(out: &mut Printer<K>, entry: &Entry)
    ensures { PrintsMore K.Sink (entry_text entry.now) out.old out.new }
{
    match &entry.reply {
        Reply::Began { n } => put_line(
            out,
            entry,
            &[Piece::Bytes(b"begin at "), Piece::Number(*n)],
        ),
        Reply::Granted => {}
        Reply::Rows { rows } => put_rows(out, entry, rows),
        Reply::Done => put_line(out, entry, &[Piece::Bytes(b"done")]),
        Reply::Asked { .. } => {}
        Reply::ReadOnly => put_line(out, entry, &[Piece::Bytes(b"commit none")]),
        Reply::Answered { k } => put_line(
            out,
            entry,
            &[Piece::Bytes(b"commit "), Piece::Number(*k)],
        ),
        Reply::RolledBack => put_line(out, entry, &[Piece::Bytes(b"rolled back")]),
        Reply::Released => put_release(out, &entry.act),
        Reply::Refused { refusal } => put_refused(out, entry, *refusal),
    }
}

struct Shown;

impl Form<Entry> for Shown {
    ghost text = { entry_text };

    fn put<K: Sink>(out: &mut Printer<K>, entry: &Entry) {
        put_entry(out, entry);
    }
}

/// Puts the transcript: the entries in the order of the tape.
pub fn put_transcript<K: Sink>(out: &mut Printer<K>, tape: &Tape)
    ensures { PrintsMore K.Sink (transcript tape.now.entries) out.old out.new }
{
    put_each::<Shown, Entry, K>(out, tape.entries.as_slice());
}
