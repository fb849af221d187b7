// The row of a key is written over what stands in its slot.
ghost use Rattle.std.specs.Prelude.{◌≡◌, ◌<◌, ℕ, ℤ, Bool, false, length, IfOk, IfErr};
ghost use Rattle.ctr_disk.specs.declared.fault.StoreFault.TheVariants.{Fault};
ghost use Rattle.ctr_base.specs.Base.{WhereSound};
ghost use Rattle.ctr_page.specs.Making.{IsVersion, IsSlot};
ghost use Rattle.ctr_area.specs.Images.{is_committed_in};
ghost use Rattle.ctr_extend.specs.walk_OneRecord.{HasRoomForOne};
ghost use Rattle.ctr_extend.specs.pvs_Slots.{SlotLiesAt};
ghost use Rattle.ctr_extend.specs.page_turns_Turns.{Turns};
ghost use Rattle.ctr_extend.specs.heap_Ways.{IsWay, writing_by};
ghost use Rattle.ctr_write.specs.declared.stages.Written.TheVariants.{Done};
ghost use Rattle.ctr_write.specs.Stages.{LeavesItem, MovesWrite};
ghost use Rattle.ctr_write.specs.Laying.{MayLay, LaysHead, IsReadyFor};

use crate::laying::again;
use crate::stages::Written;
use ctr_base::Origin;
use ctr_disk::{Disk, StoreFault};
use ctr_extend::{
    Store, Way, a_place_of_a_table_fits, a_record_acts, a_record_is_refused_by_the_disk_alone,
    a_slot_is_put_at_its_place, a_turn_goes_on, a_way_fits_its_slot,
    owed_slots_are_laid_as_their_actions, put_slot, replaced, written,
};
use ctr_page::{Place, RowSlot, Version};
use ctr_types::{Fate, Xid};

/// Whether a transaction is committed; 0 is nobody's number.
pub(crate) fn is_committed<D: Disk, O: Origin>(store: &Store<D, O>, x: Xid) -> bool
    requires going { store.now.stopped ≡ false }
    ensures { WhereSound O.first D.Disk (result ≡ is_committed_in store.now.now.tables x) }
{
    x != 0 && store.meta().fate(x) == Fate::Committed
}

/// A used slot is written in a way, with its new head. A version that had to be kept first is at the place `kept`.
pub(crate) fn lay_over<D: Disk, O: Origin>(
    store: &mut Store<D, O>,
    x: Xid,
    place: Place,
    way: Way,
    kept: Place,
    slot: RowSlot,
    head: &Version,
) -> Result<Written, StoreFault>
    requires room { HasRoomForOne 0 0 store.old }
    requires counted { place.page < store.old.now.counted }
    requires fits { IsVersion (length head.now.payload) head.now × IsSlot (length head.now.payload) slot × (0 < slot.head.xid) × SlotLiesAt place (length head.now.payload) }
    requires way { (committed : Bool) × IsWay committed slot way }
    ensures turns { Turns O.first D.Disk store.old store.new result }
    ensures is { IfOk result (λ w. (w ≡ Done) × LeavesItem 1 w store.old.meta store.new.meta) }
    ensures numbers { IfOk result (λ w. MovesWrite w store.old store.new) }
    ensures steps { (e : ℕ) → WhereSound O.first D.Disk (MayLay (record { x = x; entry = e; key = slot.entry.key; head = head.now }) store.old.now
        → IsReadyFor e place slot.entry way kept store.old.now
        → IfOk result (λ w. LaysHead (record { x = x; entry = e; key = slot.entry.key; head = head.now }) place (writing_by way kept) store.old.now store.new.now)) }
    ensures refused { (e : ℕ) → WhereSound O.first D.Disk (MayLay (record { x = x; entry = e; key = slot.entry.key; head = head.now }) store.old.now → IsReadyFor e place slot.entry way kept store.old.now → IfErr result (λ f. f ≡ Fault)) }
{
    let _tables = store.meta();
    a_record_is_refused_by_the_disk_alone::<D, ()>();
    a_turn_goes_on::<D, (), Written>();
    a_record_acts::<D>();
    owed_slots_are_laid_as_their_actions();
    a_slot_is_put_at_its_place();
    a_place_of_a_table_fits();
    a_way_fits_its_slot();
    let over = replaced(way, &slot);
    let slot = written(way, kept, slot, again(head));
    match put_slot(store, x, over, place, &slot) {
        Ok(()) => Ok(Written::Done),
        Err(fault) => Err(fault),
    }
}
