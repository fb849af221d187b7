// A page that the Write of a row wants, and what a turn for it is to the Write.
ghost use Rattle.std.specs.Prelude.{◌≡◌, IfOk, IfErr};
ghost use Rattle.ctr_disk.specs.declared.fault.StoreFault.TheVariants.{Fault};
ghost use Rattle.ctr_base.specs.Base.{WhereSound};
ghost use Rattle.ctr_extend.specs.walk_OneRecord.{HasRoomForOne};
ghost use Rattle.ctr_extend.specs.walk_Tables.{IsChain};
ghost use Rattle.ctr_extend.specs.page_turns_Turns.{Turns};
ghost use Rattle.ctr_extend.specs.Ways.{IsCountedWay, items_wanted};
ghost use Rattle.ctr_extend.specs.Steps.{MayExtend};
ghost use Rattle.ctr_write.specs.Stages.{IsCountedWrite, LeavesItem, MovesWrite};
ghost use Rattle.ctr_write.specs.Extending.{written_from, ExtendsFor};

use crate::stages::{Stage, Written};
use ctr_base::Origin;
use ctr_disk::{Disk, StoreFault};
use ctr_extend::{Extended, OnWay, Store, a_turn_goes_on, extend};
use ctr_page::Chain;
use ctr_types::Xid;

// What a turn for a page is to a Write: once it is linked, the row's slot is looked for again.
fn written_from(chain: Chain, extended: Extended) -> Written
    ensures { result ≡ written_from chain extended }
{
    match extended {
        Extended::On(way) => Written::On(Stage::Extending { chain, way }),
        Extended::Linked => Written::On(Stage::Looking),
        Extended::Grown => Written::Grown,
        Extended::Full => Written::Full,
    }
}

/// One turn for a page that a Write wants at the front of a chain.
pub(crate) fn more<D: Disk, O: Origin>(
    store: &mut Store<D, O>,
    x: Xid,
    chain: Chain,
    way: OnWay,
) -> Result<Written, StoreFault>
    requires room { HasRoomForOne 0 (items_wanted way) store.old }
    requires there { IsChain chain }
    requires counted { IsCountedWay way store.old.now.counted }
    ensures turns { Turns O.first D.Disk store.old store.new result }
    ensures inside { IfOk result (λ w. IsCountedWrite w store.new.now.counted) }
    ensures left { IfOk result (λ w. LeavesItem (items_wanted way) w store.old.meta store.new.meta) }
    ensures numbers { IfOk result (λ w. MovesWrite w store.old store.new) }
    ensures steps { WhereSound O.first D.Disk (MayExtend x chain way store.old.now → IfOk result (ExtendsFor x chain way store.old.now store.new.now)) }
    ensures refused { WhereSound O.first D.Disk (MayExtend x chain way store.old.now → IfErr result (λ e. e ≡ Fault)) }
{
    a_turn_goes_on::<D, Extended, Written>();
    match extend(store, x, chain, way) {
        Err(fault) => Err(fault),
        Ok(extended) => Ok(written_from(chain, extended)),
    }
}
