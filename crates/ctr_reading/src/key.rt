// The row of one key of a table.
ghost use Rattle.std.specs.Prelude.{◌≡◌, ◌<◌, false, IfErr, IfOk};
ghost use Rattle.ctr_base.specs.Base.{WhereSound};
ghost use Rattle.ctr_walk.specs.record_effects_States.{area_in};
ghost use Rattle.ctr_walk.specs.record_effects_Standing.{HasSoundArea, IsDatabaseState};
ghost use Rattle.ctr_walk.specs.Damage.{ReadsPages};
ghost use Rattle.ctr_reading.specs.Reading.{as_told, sight_sees, GivesSeen, IsDiskOrMemory};

use crate::sight::Sight;
use ctr_base::Origin;
use ctr_disk::Disk;
use ctr_types::Row;
use ctr_undamaged::{a_bucket_search_meets_no_damage, a_row_is_read_without_damage, find};
use ctr_views::{ReadRefusal, visible};
use ctr_walk::Store;
use std::alloc::Global;

/// The row of a key of a table that a session sees, by the table's entry of the catalog; none where it sees none. What is read on the
/// way is checked as it is read. It logs nothing, and takes no memory but the row that it gives.
pub fn row_of_key<D: Disk, O: Origin>(
    alloc: Global,
    store: &mut Store<D, O>,
    sight: &Sight,
    entry: u8,
    key: i64,
) -> Result<Option<Row>, ReadRefusal>
    requires going { store.old.stopped ≡ false }
    requires there { entry < 32 }
    // It is what the used slot of the key shows, none where no slot has it. Memory runs out only where there is a row.
    ensures shows { WhereSound O.first D.Disk (HasSoundArea store.old.now
        → IfOk (as_told result) (GivesSeen (sight_sees store.old.now.tables sight.now) (area_in store.old.now) entry key)) }
    // It is refused for no other cause than that the disk failed, or for want of memory.
    ensures refused { WhereSound O.first D.Disk (IsDatabaseState store.old.now → IfErr result IsDiskOrMemory) }
    // It logs nothing; and a fault is told where the disk counts one more, by `a_fault_of_reading_is_counted`.
    ensures leaves { ReadsPages O.first D.Disk store.old store.new (as_told result) }
{
    a_bucket_search_meets_no_damage();
    a_row_is_read_without_damage();
    let found = match find(store, entry, key) {
        Err(fault) => return Err(ReadRefusal::Store(fault)),
        Ok(found) => found,
    };
    match found {
        None => Ok(None),
        Some(place) => visible(alloc, store, place, sight.snapshot, sight.me),
    }
}
