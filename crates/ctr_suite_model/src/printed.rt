// What a run prints of a tape.
ghost use Rattle.std.specs.Prelude.{◌≡◌, ◌++◌, IfOk};
ghost use Rattle.ctr_model.specs.Texts.{transcript, end_line};

use crate::page::Page;
use ctr_model::{Cause, Command, Report};
use ctr_print::put_run;
use ctr_types::{OutOfMemory, Tape};
use std::alloc::Global;

/// The transcript of a tape and the last line of a run that came to its end.
pub fn shown(alloc: Global, tape: &Tape, report: &Report) -> Result<Vec<u8>, OutOfMemory>
    ensures { IfOk result (λ bytes. bytes.items ≡ transcript tape.now.entries ++ end_line tape.now.entries report.now) }
{
    let mut page = Page::new(alloc);
    if !put_run(&mut page, &Command::Run, 0, &Cause::Plain, tape, report) {
        return Err(OutOfMemory);
    }
    Ok(page.into_bytes())
}
