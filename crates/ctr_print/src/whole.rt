// The whole text of a run on a sink.
ghost use Rattle.std.specs.Prelude.{◌++◌};
ghost use Rattle.ctr_model.specs.Texts.{transcript, last_line};
ghost use Rattle.ctr_print.specs.Prints.{PrintsMore, PutsOn};

use crate::last::put_last_line;
use crate::line::put_transcript;
use crate::printer::Printer;
use ctr_io::{Sink, Tape};
use ctr_model::{Cause, Command, Report};

fn put_texts<K: Sink>(
    out: &mut Printer<K>,
    command: &Command,
    status: u8,
    cause: &Cause,
    tape: &Tape,
    report: &Report,
)
    ensures { PrintsMore K.Sink (transcript tape.now.entries ++ last_line command.now status cause.now tape.now.entries report.now) out.old out.new }
{
    put_transcript(out, tape);
    put_last_line(out, command, status, cause, tape, report);
}

/// Puts the transcript of a tape and the last line of a run that ends with this status, in pieces of
/// 8 KiB, and says whether all was put.
pub fn put_run<K: Sink>(
    sink: &mut K,
    command: &Command,
    status: u8,
    cause: &Cause,
    tape: &Tape,
    report: &Report,
) -> bool
    ensures { PutsOn K.Sink sink.old (transcript tape.now.entries ++ last_line command.now status cause.now tape.now.entries report.now) sink.new result }
{
    let mut out = Printer::new(sink);
    put_texts(&mut out, command, status, cause, tape, report);
    out.finish()
}
