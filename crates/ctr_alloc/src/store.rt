// The free pages of a store.
ghost use Rattle.std.specs.Prelude.{◌≡◌, false, IfOk};
ghost use Rattle.ctr_walk.specs.base_Base.{WhereSound};
ghost use Rattle.ctr_walk.specs.store_Store.{LeavesPage};
ghost use Rattle.ctr_actions.specs.ctr_record_effects.States.{area_in};
ghost use Rattle.ctr_alloc.specs.Free.{IsNextFree, MayBeNext};

use crate::search::{NextFree, next_free_on};
use ctr_disk::{Disk, StoreFault};
use ctr_walk::{Origin, Store};

/// The next free page of a store, by the bytes of page 0. It logs nothing, and takes no memory.
pub fn next_free<D: Disk, O: Origin>(store: &mut Store<D, O>) -> Result<NextFree, StoreFault>
    requires going { store.old.stopped ≡ false }
    ensures next { WhereSound O.first D.Disk (IfOk result (IsNextFree store.old.now.counted (area_in store.old.now).taken)) }
    // Whatever the disk tells, it is a counted page behind the catalog.
    ensures inside { IfOk result (MayBeNext store.old.now.counted) }
    ensures leaves { LeavesPage O.first D.Disk store.old store.new result }
{
    let counted = store.counted();
    let page = store.page(0)?;
    Ok(next_free_on(counted, page))
}
