// One turn for a page on its way.
ghost use Rattle.std.specs.Prelude.{IfErr, ◌≡◌, ◌<◌, ℕ, IfOk};
ghost use Rattle.ctr_disk.specs.declared.fault.StoreFault.TheVariants.{Fault};
ghost use Rattle.ctr_base.specs.Base.{WhereSound};
ghost use Rattle.ctr_page_turns.specs.walk_OneRecord.{HasRoomForOne};
ghost use Rattle.ctr_page_turns.specs.walk_Tables.{IsChain, IsFirstPage};
ghost use Rattle.ctr_page_turns.specs.Turns.{Turns};
ghost use Rattle.ctr_extend.specs.declared.ways.OnWay.TheVariants.{Taken, Made};
ghost use Rattle.ctr_extend.specs.Ways.{IsCountedWay, items_wanted};
ghost use Rattle.ctr_extend.specs.Steps.{MayExtend, ExtendsBy, IsCountedStep, LeavesRoom, MovesBy};

use crate::linking::link_in;
use crate::making::make;
use crate::taking::have;
use crate::ways::{Extended, OnWay};
use ctr_base::Origin;
use ctr_disk::{Disk, StoreFault};
use ctr_page::Chain;
use ctr_page_turns::{a_turn_goes_on, first_page, room_is_still_there};
use ctr_rec::PageNo;
use ctr_stops::Store;
use ctr_types::Xid;

// The number of a chain's first page, 0 for none.
fn number_of(first: Option<PageNo>) -> PageNo
    ensures { (n : ℕ) → IsFirstPage n first → result ≡ n }
{
    match first {
        None => 0,
        Some(page) => page,
    }
}

// A page that is allocated is made empty.
fn make_first<D: Disk, O: Origin>(
    store: &mut Store<D, O>,
    x: Xid,
    chain: Chain,
    page: PageNo,
) -> Result<Extended, StoreFault>
    requires room { HasRoomForOne 0 0 store.old }
    requires there { IsChain chain }
    requires counted { IsCountedWay (Taken page) store.old.now.counted }
    ensures turns { Turns O.first D.Disk store.old store.new result }
    ensures inside { IfOk result (λ e. IsCountedStep e store.new.now.counted) }
    ensures left { IfOk result (λ e. LeavesRoom 0 e store.old.meta store.new.meta) }
    ensures numbers { IfOk result (λ e. MovesBy e store.old store.new) }
    ensures steps { WhereSound O.first D.Disk (MayExtend x chain (Taken page) store.old.now → IfOk result (ExtendsBy x chain (Taken page) store.old.now store.new.now)) }
    ensures refused { WhereSound O.first D.Disk (MayExtend x chain (Taken page) store.old.now → IfErr result (λ e. e ≡ Fault)) }
{
    a_turn_goes_on::<D, Option<PageNo>, Extended>();
    room_is_still_there::<D>();
    match first_page(store, chain) {
        Err(fault) => Err(fault),
        Ok(first) => make(store, x, chain, page, number_of(first)),
    }
}

// A page that is empty is put in front of its chain, or made once more where this begins with another page by now.
fn put_in<D: Disk, O: Origin>(
    store: &mut Store<D, O>,
    x: Xid,
    chain: Chain,
    page: PageNo,
    next: PageNo,
) -> Result<Extended, StoreFault>
    requires room { HasRoomForOne 0 0 store.old }
    requires there { IsChain chain }
    requires counted { IsCountedWay (Made page next) store.old.now.counted }
    ensures turns { Turns O.first D.Disk store.old store.new result }
    ensures inside { IfOk result (λ e. IsCountedStep e store.new.now.counted) }
    ensures left { IfOk result (λ e. LeavesRoom 0 e store.old.meta store.new.meta) }
    ensures numbers { IfOk result (λ e. MovesBy e store.old store.new) }
    ensures steps { WhereSound O.first D.Disk (MayExtend x chain (Made page next) store.old.now → IfOk result (ExtendsBy x chain (Made page next) store.old.now store.new.now)) }
    ensures refused { WhereSound O.first D.Disk (MayExtend x chain (Made page next) store.old.now → IfErr result (λ e. e ≡ Fault)) }
{
    a_turn_goes_on::<D, Option<PageNo>, Extended>();
    room_is_still_there::<D>();
    let first = match first_page(store, chain) {
        Err(fault) => return Err(fault),
        Ok(first) => number_of(first),
    };
    if first != next {
        return make(store, x, chain, page, first);
    }
    link_in(store, x, chain, page)
}

/// One turn for a page that a transaction wants at the front of a chain. It logs one record, or counts more pages, and takes no memory. The
/// page is allocated; made empty, with the first page of the chain behind it; and put in front, unless the chain begins with another page by
/// then, as it is made empty once more. Who asks for a page keeps room for one item of the secondary log.
pub fn extend<D: Disk, O: Origin>(
    store: &mut Store<D, O>,
    x: Xid,
    chain: Chain,
    way: OnWay,
) -> Result<Extended, StoreFault>
    requires room { HasRoomForOne 0 (items_wanted way) store.old }
    requires there { IsChain chain }
    requires counted { IsCountedWay way store.old.now.counted }
    // It reads pages, logs one record, or counts more pages.
    ensures turns { Turns O.first D.Disk store.old store.new result }
    // A page on its way is a counted one.
    ensures inside { IfOk result (λ e. IsCountedStep e store.new.now.counted) }
    // The room of an item goes with a page that is taken, and comes back with one that is linked.
    ensures left { IfOk result (λ e. LeavesRoom (items_wanted way) e store.old.meta store.new.meta) }
    // The log's next number goes with a record, and with nothing else; and more pages are counted where it grew.
    ensures numbers { IfOk result (λ e. MovesBy e store.old store.new) }
    // What its record owes is met, and the page is further.
    ensures steps { WhereSound O.first D.Disk (MayExtend x chain way store.old.now → IfOk result (ExtendsBy x chain way store.old.now store.new.now)) }
    // It is refused for no other cause than that the disk failed.
    ensures refused { WhereSound O.first D.Disk (MayExtend x chain way store.old.now → IfErr result (λ e. e ≡ Fault)) }
{
    match way {
        OnWay::Wanted => have(store, x),
        OnWay::Taken(page) => make_first(store, x, chain, page),
        OnWay::Made { page, next } => put_in(store, x, chain, page, next),
    }
}
