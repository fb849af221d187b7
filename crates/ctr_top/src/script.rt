// Reads a script and runs it over a database.
ghost use Rattle.std.specs.Prelude.{◌≡◌, ◌≤◌, List, IsTrue};
ghost use Rattle.ctr_types.specs.declared.statement.Line.{Line as HeldLine};
ghost use Rattle.ctr_model.specs.Language.{SpellsLine};
ghost use Rattle.ctr_model.specs.Lines.{IsWritten};
ghost use Rattle.ctr_model.specs.Tape.{IsSerial};
ghost use Rattle.ctr_database.specs.ctr_run.declared.lines.Schedule.TheVariants.{Serial};
ghost use Rattle.ctr_top.specs.Top.{RanScript, RunCauses, GoesForward};

use crate::ending::{ended, not_read};
use crate::outcome::Outcome;
use ctr_database::running::{Gate, Schedule, Workers, run, run_on_threads};
use ctr_disk::Disk;
use ctr_io::Source;
use ctr_script::read_script;
use std::alloc::Global;
use std::sync::Wait;
use std::thread::Threads;

/// Reads a script and runs it over the database of a disk, in whichever order, with so many frames for its pages, 8 to 4,096, and so many keys
/// of rows remembered at most. The script is read before the disk is touched.
pub fn run_script<D: Disk, S: Source>(
    alloc: Global,
    disk: D,
    frames: usize,
    keys: usize,
    source: &mut S,
    schedule: Schedule<'_>,
) -> Outcome<D>
    requires frames { (8 ≤ frames) × (frames ≤ 4096) }
    ensures ran { RanScript D.Disk disk S.Source source.old result }
    ensures causes { RunCauses D.Disk disk S.Source source.old source.new result }
    // In the serial order the statements stand on the tape in the order of the script's lines.
    ensures serial { schedule.entry ≡ Serial → IsTrue S.tells → (lines : List HeldLine) → IsWritten SpellsLine (S.left source.old) lines
        → IsSerial lines result.left.tape.entries }
    ensures forward { GoesForward D.Disk S.Source disk result.left.disk source.old source.new }
{
    match read_script(alloc, source) {
        Ok(script) => {
            let ran = run(alloc, disk, frames, keys, script, schedule, false);
            Outcome {
                ending: ended(ran.end),
                left: ran.left,
            }
        }
        Err(error) => Outcome::without_tape(alloc, not_read(error), disk),
    }
}

/// Reads a script as `run_script` does, and runs it on threads.
pub fn run_script_on_threads<R: Threads + Wait + Sync, D: Disk + Send, S: Source, G: Gate + Sync>(
    workers: Workers<'_, R, G>,
    alloc: Global,
    disk: D,
    frames: usize,
    keys: usize,
    source: &mut S,
) -> Outcome<D>
    requires frames { (8 ≤ frames) × (frames ≤ 4096) }
    ensures ran { RanScript D.Disk disk S.Source source.old result }
    ensures causes { RunCauses D.Disk disk S.Source source.old source.new result }
    ensures forward { GoesForward D.Disk S.Source disk result.left.disk source.old source.new }
{
    match read_script(alloc, source) {
        Ok(script) => {
            let ran = run_on_threads(workers, alloc, disk, frames, keys, script, false);
            Outcome {
                ending: ended(ran.end),
                left: ran.left,
            }
        }
        Err(error) => Outcome::without_tape(alloc, not_read(error), disk),
    }
}
