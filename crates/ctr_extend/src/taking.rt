// A page that is wanted: a free one is allocated, or more are counted.
ghost use Rattle.std.specs.Prelude.{IfErr, ◌≡◌, ◌<◌, ◌≤◌, false, ℕ, Ok, IfOk};
ghost use Rattle.ctr_base.specs.declared.growing.TheConstants.{MOST_PAGES};
ghost use Rattle.ctr_disk.specs.declared.fault.StoreFault.TheVariants.{Fault};
ghost use Rattle.ctr_base.specs.Base.{WhereSound};
ghost use Rattle.ctr_page.specs.declared.checks.Chain.{Chain as ChainOf};
ghost use Rattle.ctr_page_turns.specs.record_effects_States.{area_in};
ghost use Rattle.ctr_undamaged.specs.alloc_Free.{IsNextFree};
ghost use Rattle.ctr_undamaged.specs.alloc_NextFree.{NextFree as IsNext};
ghost use Rattle.ctr_undamaged.specs.alloc_NextFree.TheVariants.{Page as IsPage, Grow as IsGrow};
ghost use Rattle.ctr_stops.specs.store_Store.{View, LeavesPage};
ghost use Rattle.ctr_page_turns.specs.walk_OneRecord.{HasRoomForOne};
ghost use Rattle.ctr_page_turns.specs.Turns.{Turns};
ghost use Rattle.ctr_extend.specs.declared.ways.OnWay.TheVariants.{Wanted};
ghost use Rattle.ctr_extend.specs.Steps.{MayExtend, ExtendsBy, IsCountedStep, LeavesRoom, MovesBy};

use crate::ways::{Extended, OnWay};
use ctr_base::Origin;
use ctr_disk::{Disk, StoreFault};
use ctr_page_turns::{
    a_record_acts, a_record_is_refused_by_the_disk_alone, a_turn_goes_on, an_action_gives_its_fact,
    growth_keeps_a_site, pages_lie_as_their_actions, room_is_still_there,
};
use ctr_rec::PageNo;
use ctr_stops::Store;
use ctr_types::Xid;
use ctr_undamaged::{NextFree, alloc, next_free};

// A free page is allocated.
fn take<D: Disk, O: Origin>(
    store: &mut Store<D, O>,
    x: Xid,
    p: PageNo,
) -> Result<Extended, StoreFault>
    requires room { HasRoomForOne 0 1 store.old }
    requires counted { (3 ≤ p) × (p < store.old.now.counted) }
    ensures turns { Turns O.first D.Disk store.old store.new result }
    ensures inside { IfOk result (λ e. IsCountedStep e store.new.now.counted) }
    ensures left { IfOk result (λ e. LeavesRoom 1 e store.old.meta store.new.meta) }
    ensures numbers { IfOk result (λ e. MovesBy e store.old store.new) }
    ensures steps { (chain : ChainOf) → WhereSound O.first D.Disk (MayExtend x chain Wanted store.old.now → IsNextFree store.old.now.counted (area_in store.old.now).taken (IsPage p)
        → IfOk result (ExtendsBy x chain Wanted store.old.now store.new.now)) }
    ensures refused { (chain : ChainOf) → WhereSound O.first D.Disk (MayExtend x chain Wanted store.old.now → IsNextFree store.old.now.counted (area_in store.old.now).taken (IsPage p) → IfErr result (λ e. e ≡ Fault)) }
{
    store.counts_pages();
    let _tables = store.meta();
    a_record_is_refused_by_the_disk_alone::<D, ()>();
    a_turn_goes_on::<D, (), Extended>();
    a_record_acts::<D>();
    pages_lie_as_their_actions();
    an_action_gives_its_fact();
    match alloc(store, x, p) {
        Ok(()) => Ok(Extended::On(OnWay::Taken(p))),
        Err(fault) => Err(fault),
    }
}

// More pages are counted, behind a page that was read.
fn grow<D: Disk, O: Origin>(store: &mut Store<D, O>) -> Result<Extended, StoreFault>
    requires going { store.old.stopped ≡ false }
    requires few { store.old.now.counted < MOST_PAGES }
    ensures turns { (a : View D) (next : IsNext) → LeavesPage O.first D.Disk a store.old (Ok next) → Turns O.first D.Disk a store.new result }
    ensures inside { IfOk result (λ e. IsCountedStep e store.new.now.counted) }
    ensures left { IfOk result (λ e. LeavesRoom 1 e store.old.meta store.new.meta) }
    ensures numbers { IfOk result (λ e. MovesBy e store.old store.new) }
    ensures steps { (x : ℕ) (chain : ChainOf) → WhereSound O.first D.Disk (MayExtend x chain Wanted store.old.now → IsNextFree store.old.now.counted (area_in store.old.now).taken IsGrow
        → IfOk result (ExtendsBy x chain Wanted store.old.now store.new.now)) }
    ensures refused { IfErr result (λ e. e ≡ Fault) }
{
    store.rests();
    a_turn_goes_on::<D, NextFree, ()>();
    a_turn_goes_on::<D, (), Extended>();
    growth_keeps_a_site();
    match store.grow_extent() {
        Ok(()) => Ok(Extended::Grown),
        Err(fault) => Err(fault),
    }
}

/// A page that is wanted is allocated, or more are counted, or there is none.
pub(crate) fn have<D: Disk, O: Origin>(
    store: &mut Store<D, O>,
    x: Xid,
) -> Result<Extended, StoreFault>
    requires room { HasRoomForOne 0 1 store.old }
    ensures turns { Turns O.first D.Disk store.old store.new result }
    ensures inside { IfOk result (λ e. IsCountedStep e store.new.now.counted) }
    ensures left { IfOk result (λ e. LeavesRoom 1 e store.old.meta store.new.meta) }
    ensures numbers { IfOk result (λ e. MovesBy e store.old store.new) }
    ensures steps { (chain : ChainOf) → WhereSound O.first D.Disk (MayExtend x chain Wanted store.old.now → IfOk result (ExtendsBy x chain Wanted store.old.now store.new.now)) }
    ensures refused { (chain : ChainOf) → WhereSound O.first D.Disk (MayExtend x chain Wanted store.old.now → IfErr result (λ e. e ≡ Fault)) }
{
    a_turn_goes_on::<D, NextFree, Extended>();
    room_is_still_there::<D>();
    let next = match next_free(store) {
        Err(fault) => return Err(fault),
        Ok(next) => next,
    };
    match next {
        NextFree::Page(p) => take(store, x, p),
        NextFree::Grow => grow(store),
        NextFree::Full => Ok(Extended::Full),
    }
}
