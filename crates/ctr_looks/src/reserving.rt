// Room that is taken before a Lock is granted, so that nothing behind it may be refused for want of memory.
ghost use Rattle.std.specs.Prelude.{◌≡◌, false, OnOk};
ghost use Rattle.ctr_session_world.specs.walk_OneRecord.{HasRoomForOne};
ghost use Rattle.ctr_locks.specs.Held.{OfSession, SameHeld, HasRoomForKey, HasRoomForName, held_by_session};
ghost use Rattle.ctr_session_world.specs.txn_Held.{IsReading, run_of};
ghost use Rattle.ctr_session_world.specs.txn_Calls.{MayDraw, IsOverStore};
ghost use Rattle.ctr_asking.specs.Asking.{IsInside};
ghost use Rattle.ctr_session_world.specs.Ready.{LeavesReady, StandOver, StaysUnasked};
ghost use Rattle.ctr_looks.specs.Granting.{HasItem};

use crate::taking::RowAt;
use ctr_base::Origin;
use ctr_disk::Disk;
use ctr_locks::KeyLocks;
use ctr_session_world::{Txns, the_run_is_of_the_sessions};
use ctr_store::Store;
use ctr_types::OutOfMemory;
use std::alloc::Global;

/// Room for the number of a session, for its commit, and for an item of its own in the secondary log.
pub(crate) fn reserve_for<D: Disk, O: Origin>(
    store: &mut Store<D, O>,
    txns: &mut Txns,
    s: u8,
) -> Result<(), OutOfMemory>
    requires inside { IsInside s txns.old }
    ensures same { store.new ≡ record store.old { meta = store.new.meta } }
    ensures run { run_of txns.new ≡ run_of txns.old }
    ensures inside { IsInside s txns.new }
    ensures item { OnOk result (HasItem s txns.new) }
    ensures over { StandOver txns.old store.old → store.old.stopped ≡ false → LeavesReady s txns.old txns.new store.old store.new × StaysUnasked s txns.old txns.new }
    ensures may { OnOk result (IsOverStore txns.old store.old → HasRoomForOne 0 0 store.old → IsReading s txns.new → MayDraw s txns.new store.new) }
{
    the_run_is_of_the_sessions();
    txns.counts_sessions();
    match txns.reserve(store, s) {
        Ok(()) => Ok(()),
        Err(wants) => Err(wants),
    }
}

/// Room for the locks that the Lock of a row takes.
pub(crate) fn reserve_row(
    alloc: Global,
    locks: &mut KeyLocks,
    s: u8,
    row: &RowAt,
) -> Result<(), OutOfMemory>
    ensures same { OfSession s SameHeld locks.old locks.new }
    ensures name { OnOk result (HasRoomForName row.now.name.now (held_by_session s locks.new)) }
    ensures key { OnOk result (HasRoomForKey row.now.entry row.now.key (held_by_session s locks.new)) }
{
    match locks.reserve_name(alloc, s, row.name) {
        Err(wants) => Err(wants),
        Ok(()) => locks.reserve_key(alloc, s, row.entry, row.key),
    }
}
