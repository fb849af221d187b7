// All rows of a table.
ghost use Rattle.std.specs.Prelude.{◌≡◌, ◌<◌, false, Ok, IfErr, IfOk};
ghost use Rattle.ctr_base.specs.Base.{WhereSound};
ghost use Rattle.ctr_walk.specs.record_effects_States.{area_in};
ghost use Rattle.ctr_walk.specs.record_effects_Standing.{HasSoundArea, IsDatabaseState};
ghost use Rattle.ctr_walk.specs.Damage.{ReadsPages};
ghost use Rattle.ctr_reading.specs.Reading.{as_told, sight_sees, GivesShown, IsDiskOrMemory};

use crate::chains::scan;
use crate::gathered::Gathered;
use crate::sight::Sight;
use ctr_base::Origin;
use ctr_disk::Disk;
use ctr_types::{OutOfMemory, Rows};
use ctr_views::ReadRefusal;
use ctr_walk::Store;
use std::alloc::Global;

// What memory there was for, as a reading's answer.
fn given(rows: Result<Rows, OutOfMemory>) -> Result<Rows, ReadRefusal>
    ensures told { as_told result ≡ Ok rows }
    ensures refused { IfErr result IsDiskOrMemory }
{
    match rows {
        Ok(rows) => Ok(rows),
        Err(OutOfMemory) => Err(ReadRefusal::OutOfMemory),
    }
}

/// The rows of a table that a session sees, by the table's entry of the catalog, in the order of their keys. Its eight buckets are gone
/// through, page by page and slot by slot, each chain once. What is read on the way is checked as it is read. It logs nothing, and
/// takes no memory but for the rows that it gives.
pub fn rows_of_table<D: Disk, O: Origin>(
    alloc: Global,
    store: &mut Store<D, O>,
    sight: &Sight,
    entry: u8,
) -> Result<Rows, ReadRefusal>
    requires going { store.old.stopped ≡ false }
    requires there { entry < 32 }
    // They are what the used slots of the table show. Memory runs out only where there is a row.
    ensures shows { WhereSound O.first D.Disk (HasSoundArea store.old.now
        → IfOk (as_told result) (GivesShown (sight_sees store.old.now.tables sight.now) (area_in store.old.now) entry)) }
    // They are refused for no other cause than that the disk failed, or for want of memory.
    ensures refused { WhereSound O.first D.Disk (IsDatabaseState store.old.now → IfErr result IsDiskOrMemory) }
    // They log nothing; and a fault is told where the disk counts one more, by `a_fault_of_reading_is_counted`.
    ensures leaves { ReadsPages O.first D.Disk store.old store.new (as_told result) }
{
    let mut rows = Gathered::new(alloc);
    match scan(alloc, store, sight, entry, &mut rows) {
        Err(refusal) => Err(refusal),
        Ok(()) => given(rows.into_rows(alloc)),
    }
}
