// Counts what the database of a disk holds.
ghost use Rattle.std.specs.Prelude.{◌≡◌, ◌≤◌, ◌⊎◌, IsTrue, IfOk, IfErr};
ghost use Rattle.ctr_disk.specs.Device.{LeavesOnly};
ghost use Rattle.ctr_redo.specs.States.{State};
ghost use Rattle.ctr_record_effects.specs.Standing.{StandsForDatabase};
ghost use Rattle.ctr_store.specs.Opening.{IsUndamaged};
ghost use Rattle.ctr_survey.specs.Surveying.{survey_of};
ghost use Rattle.ctr_run.specs.ctr_world.Ended.{PassesOpening, RefusesWith, RefusesWorld};
ghost use Rattle.ctr_database.specs.Database.{disk_counted, counting_refused_by};

use ctr_base::Origin;
use ctr_disk::Disk;
use ctr_log::OpenError;
use ctr_model::Survey;
use ctr_store::Store;
use ctr_survey::{SurveyRefusal, an_opened_store_keeps_commits, survey as survey_store};
use ctr_types::OutOfMemory;
use ctr_walk::a_fault_of_reading_is_counted;
use std::alloc::Global;
use std::marker::Brand;

// Why nothing is counted, as an opening tells it.
fn refused(refusal: SurveyRefusal) -> OpenError
    ensures { result ≡ counting_refused_by refusal }
{
    match refusal {
        SurveyRefusal::Store(fault) => OpenError::from(fault),
        SurveyRefusal::OutOfMemory => OpenError::OutOfMemory,
    }
}

// Over the disk that a type names.
fn survey_opened<D: Disk, O: Origin>(
    alloc: Global,
    disk: D,
    frames: usize,
) -> Result<(Survey, D), (OpenError, D)>
    requires named { O.first ≡ D.reads disk }
    requires frames { (8 ≤ frames) × (frames ≤ 4096) }
    ensures counts { (s : State) → IsTrue D.tells → StandsForDatabase O.first s → IfOk result (λ r. r.0 ≡ survey_of s) }
    ensures any_moment { (s : State) → IsTrue D.tells → StandsForDatabase O.first s
        → LeavesOnly D.Disk disk (disk_counted result) (λ c. D.images disk c ⊎ StandsForDatabase c s) }
    ensures undamaged { (s : State) → IsTrue D.tells → StandsForDatabase O.first s → IfErr result (λ e. IsUndamaged e.0) }
    ensures refused { IsTrue D.tells → IfErr result (λ e. RefusesWorld O.first e.0) }
    ensures passes { IsTrue D.tells → IfOk result (λ r. PassesOpening O.first) }
    ensures stays { IfErr result (λ e. RefusesWith D.Disk disk e.0 e.1) }
    ensures calm { IfOk result (λ r. (D.moment_of disk ≤ D.moment_of r.1) × (D.faults_of r.1 ≡ D.faults_of disk)) }
{
    let mut store = match Store::<D, O>::open(alloc, disk, frames) {
        Ok(store) => store,
        Err(error) => return Err(error),
    };
    a_fault_of_reading_is_counted::<D, Result<Survey, OutOfMemory>>();
    an_opened_store_keeps_commits::<D>();
    match survey_store(alloc, &mut store) {
        Ok(counts) => Ok((counts, store.into_disk())),
        Err(refusal) => Err((refused(refusal), store.into_disk())),
    }
}

/// Counts what the database of a disk holds, with so many frames for its pages, 8 to 4,096: its committed tables with their rows, and what
/// recovery would find. It logs nothing: pages may go home that the log's records are on. A refusal gives the disk back.
pub fn survey<D: Disk>(alloc: Global, disk: D, frames: usize) -> Result<(Survey, D), (OpenError, D)>
    requires frames { (8 ≤ frames) × (frames ≤ 4096) }
    ensures counts { (s : State) → IsTrue D.tells → StandsForDatabase (D.reads disk) s → IfOk result (λ r. r.0 ≡ survey_of s) }
    // A crash at any moment leaves what it might have left as the call began, or the database as it was.
    ensures any_moment { (s : State) → IsTrue D.tells → StandsForDatabase (D.reads disk) s
        → LeavesOnly D.Disk disk (disk_counted result) (λ c. D.images disk c ⊎ StandsForDatabase c s) }
    // A database is refused by its numbers, for a fault, or for want of memory.
    ensures undamaged { (s : State) → IsTrue D.tells → StandsForDatabase (D.reads disk) s → IfErr result (λ e. IsUndamaged e.0) }
    // No database, damage, or a worn number, is told where it is so; and none is where it isn't.
    ensures refused { IsTrue D.tells → IfErr result (λ e. RefusesWorld (D.reads disk) e.0) }
    ensures passes { IsTrue D.tells → IfOk result (λ r. PassesOpening (D.reads disk)) }
    // A fault is told where the disk counts one more, and nowhere else.
    ensures stays { IfErr result (λ e. RefusesWith D.Disk disk e.0 e.1) }
    ensures calm { IfOk result (λ r. (D.moment_of disk ≤ D.moment_of r.1) × (D.faults_of r.1 ≡ D.faults_of disk)) }
{
    survey_opened::<D, Brand>(alloc, disk, frames)
}
