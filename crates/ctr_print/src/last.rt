// The last line of a run on a sink.
ghost use Rattle.std.specs.Prelude.{◌≡◌, ◌≢◌, List};
ghost use Rattle.ctr_model.specs.types_Entry.{Entry};
ghost use Rattle.ctr_model.specs.declared.tape.Cause.{Cause};
ghost use Rattle.ctr_model.specs.declared.tape.Command.{Command};
ghost use Rattle.ctr_model.specs.declared.tape.Report.{Report};
ghost use Rattle.ctr_model.specs.Texts.{success_line, file_text, script_line, damage_line, worn_line, last_line, report_line, end_line, load_line};
ghost use Rattle.ctr_print.specs.Prints.{PrintsMore};

use crate::count::{count_answers, count_refusals};
use crate::piece::Piece;
use crate::pieces::put_pieces;
use crate::printer::Printer;
use ctr_io::{File, Sink, Tape};
use ctr_model::{Cause, Command, Report, Survey};

fn put_end<K: Sink>(out: &mut Printer<K>, tape: &Tape, report: &Report)
    ensures { PrintsMore K.Sink (end_line tape.now.entries report.now) out.old out.new }
{
    put_pieces(
        out,
        &[
            Piece::Bytes(b"end: commits "),
            Piece::Number(count_answers(tape)),
            Piece::Bytes(b", refused "),
            Piece::Number(count_refusals(tape)),
            Piece::Bytes(b", undo "),
            Piece::Number(report.undo_turns),
            Piece::Bytes(b"\n"),
        ],
    )
}

fn put_load<K: Sink>(
    out: &mut Printer<K>,
    sessions: u64,
    statements: u64,
    tape: &Tape,
    report: &Report,
)
    ensures { PrintsMore K.Sink (load_line sessions statements tape.now.entries report.now) out.old out.new }
{
    put_pieces(
        out,
        &[
            Piece::Bytes(b"load: sessions "),
            Piece::Number(sessions),
            Piece::Bytes(b", statements "),
            Piece::Number(statements),
            Piece::Bytes(b", commits "),
            Piece::Number(count_answers(tape)),
            Piece::Bytes(b", refused "),
            Piece::Number(count_refusals(tape)),
            Piece::Bytes(b", rows "),
            Piece::Number(report.rows),
            Piece::Bytes(b", sum "),
            Piece::WideSigned(report.sum),
            Piece::Bytes(b"\n"),
        ],
    )
}

fn put_report<K: Sink>(out: &mut Printer<K>, survey: &Survey)
    ensures { PrintsMore K.Sink (report_line survey.now) out.old out.new }
{
    put_pieces(
        out,
        &[
            Piece::Bytes(b"report: tables "),
            Piece::Number(survey.tables),
            Piece::Bytes(b", rows "),
            Piece::Number(survey.rows),
            Piece::Bytes(b", open "),
            Piece::Number(survey.orphans),
            Piece::Bytes(b", aborted "),
            Piece::Number(survey.aborted),
            Piece::Bytes(b", items "),
            Piece::Number(survey.items),
            Piece::Bytes(b"\n"),
        ],
    )
}

fn put_success<K: Sink>(out: &mut Printer<K>, command: &Command, tape: &Tape, report: &Report)
    ensures { PrintsMore K.Sink (success_line command.now tape.now.entries report.now) out.old out.new }
{
    match command {
        Command::Init => out.put(b"init: done\n"),
        Command::Run => put_end(out, tape, report),
        Command::Load {
            sessions,
            statements,
        } => put_load(out, *sessions, *statements, tape, report),
        Command::Survey { start } => put_report(out, start),
    }
}

fn put_script<K: Sink>(out: &mut Printer<K>, cause: &Cause)
    ensures { PrintsMore K.Sink (script_line cause.now) out.old out.new }
{
    let Cause::Script { line, at } = cause else {
        return out.put(b"ctr: script too long\n");
    };
    put_pieces(
        out,
        &[
            Piece::Bytes(b"ctr: script refused at line "),
            Piece::Number(*line),
            Piece::Bytes(b", byte "),
            Piece::Number(*at),
            Piece::Bytes(b"\n"),
        ],
    )
}

fn name_of(file: File) -> &'static [u8]
    ensures { result.now ≡ file_text file }
{
    match file {
        File::Root => b"Root",
        File::LogA => b"LogA",
        File::LogB => b"LogB",
        File::Pages => b"Pages",
    }
}

fn put_damage<K: Sink>(out: &mut Printer<K>, cause: &Cause)
    ensures { PrintsMore K.Sink (damage_line cause.now) out.old out.new }
{
    let Cause::Damaged(damage) = cause else {
        return;
    };
    put_pieces(
        out,
        &[
            Piece::Bytes(b"ctr: damaged "),
            Piece::Bytes(name_of(damage.file)),
            Piece::Bytes(b" at "),
            Piece::Number(damage.at),
            Piece::Bytes(b": want "),
            Piece::Wide(damage.want),
            Piece::Bytes(b", got "),
            Piece::Wide(damage.got),
            Piece::Bytes(b"\n"),
        ],
    )
}

fn put_worn<K: Sink>(out: &mut Printer<K>, cause: &Cause)
    ensures { PrintsMore K.Sink (worn_line cause.now) out.old out.new }
{
    let Cause::Worn { number } = cause else {
        return;
    };
    put_pieces(
        out,
        &[
            Piece::Bytes(b"ctr: worn at "),
            Piece::Number(*number),
            Piece::Bytes(b"\n"),
        ],
    )
}

// The last line of a run that ends with a status of which nothing more is told.
fn line_of(status: u8) -> &'static [u8]
    ensures { (of : Command) (cause : Cause) (es : List Entry) (report : Report)
        → status ≢ 0 → status ≢ 1 → status ≢ 4 → status ≢ 10 → result.now ≡ last_line of status cause es report }
{
    match status {
        2 => b"ctr: usage\n",
        3 => b"ctr: no database\n",
        5 => b"ctr: disk fault\n",
        6 => b"ctr: read fault\n",
        8 => b"ctr: out of memory\n",
        9 => b"ctr: database exists\n",
        _ => b"",
    }
}

/// Puts the last line of a run that ends with this status. Status 7, a sink that failed, has none.
pub fn put_last_line<K: Sink>(
    out: &mut Printer<K>,
    command: &Command,
    status: u8,
    cause: &Cause,
    tape: &Tape,
    report: &Report,
)
    ensures { PrintsMore K.Sink (last_line command.now status cause.now tape.now.entries report.now) out.old out.new }
{
    match status {
        0 => put_success(out, command, tape, report),
        1 => put_script(out, cause),
        4 => put_damage(out, cause),
        10 => put_worn(out, cause),
        _ => out.put(line_of(status)),
    }
}
