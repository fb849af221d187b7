// Turns of a store for room.
ghost use Rattle.std.specs.Prelude.{◌≡◌, false, IsTrue, IfOk, OnOk};
ghost use Rattle.ctr_walk.specs.OneRecord.{HasRoomForOne};

use crate::fixed_disk::FixedDisk;
use ctr_disk::StoreFault;
use ctr_store::Store;
use std::marker::Brand;

/// A store over a disk whose calls take no memory.
pub type Mem = Store<FixedDisk, Brand>;

// A turn for room, where it wants one.
fn turn(store: &mut Mem) -> Result<(), StoreFault>
    requires going { store.old.stopped ≡ false }
    ensures going { OnOk result (store.new.stopped ≡ false) }
    ensures same { store.new.meta ≡ store.old.meta }
{
    if store.room() {
        return Ok(());
    }
    store.make_room()
}

/// Makes room for one record more; whether there is. It takes no memory for it, and the tables keep their room.
pub fn ready(store: &mut Mem) -> Result<bool, StoreFault>
    requires going { store.old.stopped ≡ false }
    ensures going { OnOk result (store.new.stopped ≡ false) }
    ensures same { store.new.meta ≡ store.old.meta }
    ensures room { IfOk result (λ is. IsTrue is → HasRoomForOne 0 0 store.new) }
{
    turn(store)?;
    turn(store)?;
    turn(store)?;
    Ok(store.room() && store.next() < 1 << 62)
}
