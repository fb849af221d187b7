// A session's number, which it draws at its first Lock.
ghost use Rattle.std.specs.Prelude.{◌≡◌, ◌<◌, false, OnOk, IfErr};
ghost use Rattle.ctr_disk.specs.declared.fault.StoreFault.TheVariants.{Fault};
ghost use Rattle.ctr_record_effects.specs.Standing.{IsDatabaseState};
ghost use Rattle.ctr_base.specs.Base.{WhereSound};
ghost use Rattle.ctr_session_world.specs.txn_Held.{IsReading};
ghost use Rattle.ctr_session_world.specs.txn_Calls.{MayDraw};
ghost use Rattle.ctr_session_world.specs.txn_Rooms.{HasItemRoom};
ghost use Rattle.ctr_asking.specs.Asking.{IsInside};
ghost use Rattle.ctr_session_world.specs.Ready.{LeavesOver, StandOver, LeavesDisk};
ghost use Rattle.ctr_looks.specs.Granting.{DrawsNext, HasNumber, HasItem};

use ctr_asking::wishes::an_action_meets_its_needs;
use ctr_base::Origin;
use ctr_disk::{Disk, StoreFault};
use ctr_record_laws::pages_are_in_bounds;
use ctr_session_world::{
    Txns, a_record_acts, records_without_bytes_lie_as_their_actions, the_run_is_of_the_sessions,
};
use ctr_store::Store;

// Of a session that has none.
fn draw_next<D: Disk, O: Origin>(
    store: &mut Store<D, O>,
    txns: &mut Txns,
    s: u8,
) -> Result<(), StoreFault>
    requires may { MayDraw s txns.old store.old }
    ensures over { HasItemRoom txns.old store.old.meta → LeavesOver s txns.old txns.new store.old store.new result }
    ensures item { OnOk result (HasItem s txns.old → HasItem s txns.new) }
    ensures draws { WhereSound O.first D.Disk (0 < store.old.now.tables.next → OnOk result (DrawsNext D.Disk s txns.old txns.new store.old store.new)) }
    ensures refused { WhereSound O.first D.Disk (IsDatabaseState store.old.now → IfErr result (λ e. e ≡ Fault)) }
    ensures disk { LeavesDisk O.first D.Disk store.old store.new result }
{
    an_action_meets_its_needs();
    pages_are_in_bounds();
    records_without_bytes_lie_as_their_actions();
    a_record_acts::<D>();
    the_run_is_of_the_sessions();
    txns.counts_sessions();
    let _tables = store.meta();
    match txns.first_write(store, s) {
        Ok(_) => {
            store.rests();
            Ok(())
        }
        Err(fault) => Err(fault),
    }
}

/// Draws the number of a session that is in a transaction, by one record, where it has none yet. It takes no memory.
pub(crate) fn draw<D: Disk, O: Origin>(
    store: &mut Store<D, O>,
    txns: &mut Txns,
    s: u8,
) -> Result<(), StoreFault>
    requires inside { IsInside s txns.old }
    requires may { IsReading s txns.old → MayDraw s txns.old store.old }
    ensures over { StandOver txns.old store.old → store.old.stopped ≡ false → LeavesOver s txns.old txns.new store.old store.new result }
    ensures item { OnOk result (HasItem s txns.old → HasItem s txns.new) }
    ensures number { WhereSound O.first D.Disk (store.old.stopped ≡ false → 0 < store.old.now.tables.next → OnOk result (HasNumber D.Disk s txns.old txns.new store.old store.new)) }
    ensures refused { WhereSound O.first D.Disk (IsDatabaseState store.old.now → IfErr result (λ e. e ≡ Fault)) }
    ensures disk { store.old.stopped ≡ false → LeavesDisk O.first D.Disk store.old store.new result }
{
    the_run_is_of_the_sessions();
    store.rests();
    if txns.is_reading(s) {
        return draw_next(store, txns, s);
    }
    Ok(())
}
