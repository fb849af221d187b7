// What the database of a store holds.
ghost use Rattle.std.specs.Prelude.{◌≡◌, false, IfErr, IfOk};
ghost use Rattle.ctr_base.specs.Base.{WhereSound};
ghost use Rattle.ctr_record_effects.specs.Standing.{IsDatabaseState};
ghost use Rattle.ctr_walk.specs.Damage.{ReadsPages};
ghost use Rattle.ctr_reading.specs.Reading.{as_told, IsDiskOrMemory};
ghost use Rattle.ctr_survey.specs.Surveying.{survey_of};
ghost use Rattle.ctr_survey.specs.Standing.{IsNoted};

use crate::counting::count;
use crate::laws::a_snapshot_of_now_sees_what_is_committed;
use crate::noting::{Noted, note};
use ctr_base::Origin;
use ctr_disk::Disk;
use ctr_model::Survey;
use ctr_reading::{ReadRefusal, Sight};
use ctr_store::Store;
use ctr_types::OutOfMemory;
use std::alloc::Global;

/// Why nothing is counted: the disk failed or what stands on it is damaged, or there was no memory.
pub type SurveyRefusal = ReadRefusal;

// What is counted, with what was noted of transactions.
fn counted<D: Disk, O: Origin>(
    alloc: Global,
    store: &mut Store<D, O>,
    noted: &Noted,
) -> Result<Survey, SurveyRefusal>
    requires going { store.old.stopped ≡ false }
    ensures counts { WhereSound O.first D.Disk (IsDatabaseState store.old.now → IsNoted store.old.now.tables noted.now → IfOk result (λ counts. counts ≡ survey_of store.old.now)) }
    ensures refused { WhereSound O.first D.Disk (IsDatabaseState store.old.now → IfErr result IsDiskOrMemory) }
    ensures leaves { ReadsPages O.first D.Disk store.old store.new (as_told result) }
{
    a_snapshot_of_now_sees_what_is_committed();
    let sight = Sight {
        snapshot: &noted.snapshot,
        me: None,
    };
    match count(alloc, store, &sight) {
        Err(refusal) => Err(refusal),
        Ok(counts) => Ok(Survey {
            tables: counts.tables,
            rows: counts.rows,
            orphans: noted.orphans,
            aborted: noted.aborted,
            items: noted.items,
        }),
    }
}

/// What the database of a store holds: its committed tables, with their rows; and what recovery would find: transactions that a
/// stop left open, aborted ones, and items of the secondary log. Pages are read, and nothing is logged. It takes memory for the
/// numbers of open transactions, for the aborted ones, and for the rows of one table at a time.
pub fn survey<D: Disk, O: Origin>(
    alloc: Global,
    store: &mut Store<D, O>,
) -> Result<Survey, SurveyRefusal>
    requires going { store.old.stopped ≡ false }
    ensures counts { WhereSound O.first D.Disk (IsDatabaseState store.old.now → IfOk result (λ counts. counts ≡ survey_of store.old.now)) }
    // There it is refused by the disk, or for want of memory.
    ensures refused { WhereSound O.first D.Disk (IsDatabaseState store.old.now → IfErr result IsDiskOrMemory) }
    // It logs nothing; and a fault is told where the disk counts one more, by `a_fault_of_reading_is_counted`.
    ensures leaves { ReadsPages O.first D.Disk store.old store.new (as_told result) }
{
    store.rests();
    let noted = match note(alloc, store.meta()) {
        Err(OutOfMemory) => return Err(ReadRefusal::OutOfMemory),
        Ok(noted) => noted,
    };
    counted(alloc, store, &noted)
}
