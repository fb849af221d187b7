// Counts what the database of a disk holds.
ghost use Rattle.std.specs.Prelude.{◌≡◌, ◌≤◌, IsTrue};
ghost use Rattle.ctr_redo.specs.States.{State};
ghost use Rattle.ctr_record_effects.specs.Standing.{StandsForDatabase};
ghost use Rattle.ctr_database.specs.ctr_survey.Surveying.{survey_of};
ghost use Rattle.ctr_top.specs.declared.ending.Ending.TheVariants.{Finished};
ghost use Rattle.ctr_top.specs.Top.{ReportLeaves};

use crate::ending::{Ending, not_opened};
use crate::outcome::Outcome;
use ctr_database::survey;
use ctr_disk::Disk;
use ctr_model::Survey;
use std::alloc::Global;

/// What is counted where nothing is.
pub const UNCOUNTED: Survey = Survey {
    tables: 0,
    rows: 0,
    orphans: 0,
    aborted: 0,
    items: 0,
};

/// Counts what the database of a disk holds, with so many frames for its pages, 8 to 4,096, and logs nothing.
pub fn report<D: Disk>(alloc: Global, disk: D, frames: usize) -> (Survey, Outcome<D>)
    requires frames { (8 ≤ frames) × (frames ≤ 4096) }
    ensures counts { (s : State) → IsTrue D.tells → StandsForDatabase (D.reads disk) s → result.1.ending ≡ Finished → result.0 ≡ survey_of s }
    ensures leaves { ReportLeaves D.Disk disk result.1 }
    ensures faults { D.faults_of disk ≤ D.faults_of result.1.left.disk }
    ensures later { D.moment_of disk ≤ D.moment_of result.1.left.disk }
{
    match survey(alloc, disk, frames) {
        Ok((counts, disk)) => (counts, Outcome::without_tape(alloc, Ending::Finished, disk)),
        Err((error, disk)) => (
            UNCOUNTED,
            Outcome::without_tape(alloc, not_opened(error), disk),
        ),
    }
}
