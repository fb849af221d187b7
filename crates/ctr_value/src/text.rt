// The text of a row on a sink.
ghost use Rattle.std.specs.Prelude.{true, false, OnOk, OnErr};
ghost use Rattle.ctr_print.specs.ctr_model.Texts.{row_text};
ghost use Rattle.ctr_print.specs.Prints.{PutsOn};

use ctr_print::{Failed, Printer, Row, Sink, put_row};

/// Writes the text of a row, as the transcript has it. It takes no memory.
pub fn write_row<K: Sink>(row: &Row, sink: &mut K) -> Result<(), Failed>
    // All of it was put, and no put failed.
    ensures written { OnOk result (PutsOn K.Sink sink.old (row_text row.now) sink.new true) }
    // A prefix of it was put, and a put that failed was counted.
    ensures failed { OnErr result (PutsOn K.Sink sink.old (row_text row.now) sink.new false) }
{
    let mut out = Printer::new(sink);
    put_row(&mut out, row);
    if out.finish() { Ok(()) } else { Err(Failed) }
}
