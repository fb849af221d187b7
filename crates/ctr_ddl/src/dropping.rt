// A table is dropped.
ghost use Rattle.std.specs.Prelude.{◌≡◌, ◌<◌, OnOk, IfErr};
ghost use Rattle.ctr_disk.specs.declared.fault.StoreFault.TheVariants.{Fault};
ghost use Rattle.ctr_base.specs.Base.{WhereSound};
ghost use Rattle.ctr_page_turns.specs.walk_OneRecord.{HasRoomForOne};
ghost use Rattle.ctr_page_turns.specs.actions_Actions.{Drops};
ghost use Rattle.ctr_page_turns.specs.Turns.{LogsSome};
ghost use Rattle.ctr_page_turns.specs.Acts.{ActsBy};
ghost use Rattle.ctr_page_turns.specs.Rooms.{AddsItems};
ghost use Rattle.ctr_ddl.specs.Tables.{MayDrop};

use ctr_base::Origin;
use ctr_disk::{Disk, StoreFault};
use ctr_page_turns::{
    Store, a_record_acts, a_record_is_refused_by_the_disk_alone,
    owed_records_are_laid_as_their_actions,
};
use ctr_types::Xid;
use ctr_undamaged::drop_table;

/// The Write of a DROP TABLE: the transaction is the dropper of a live table, by one record, which isn't hardened yet. The entry is the one
/// that its search of the catalog has found.
pub fn drop_live<D: Disk, O: Origin>(
    store: &mut Store<D, O>,
    x: Xid,
    entry: u8,
) -> Result<(), StoreFault>
    requires room { HasRoomForOne 0 1 store.old }
    requires there { entry < 32 }
    // One record is logged, or why not.
    ensures one { LogsSome O.first D.Disk store.old store.new result }
    // The room of an item goes with it, and no number is drawn.
    ensures left { OnOk result (AddsItems 1 store.old.meta store.new.meta) }
    // What its record owes is met, and its bytes pass their checks.
    ensures drops { WhereSound O.first D.Disk (MayDrop x entry store.old.now → OnOk result (ActsBy x (Drops entry) store.old.now store.new.now)) }
    // It is refused for no other cause than that the disk failed.
    ensures refused { WhereSound O.first D.Disk (MayDrop x entry store.old.now → IfErr result (λ e. e ≡ Fault)) }
{
    let _tables = store.meta();
    a_record_is_refused_by_the_disk_alone::<D, ()>();
    a_record_acts::<D>();
    owed_records_are_laid_as_their_actions();
    match drop_table(store, x, entry) {
        Ok(()) => Ok(()),
        Err(fault) => Err(fault),
    }
}
