// The row of a key is written.
ghost use Rattle.std.specs.Prelude.{◌≡◌, ◌≤◌, ◌<◌, ℕ, ℤ, length, IfOk, IfErr, Ok, ⊤};
ghost use Rattle.ctr_disk.specs.declared.fault.StoreFault.TheVariants.{Fault};
ghost use Rattle.ctr_base.specs.Base.{WhereSound};
ghost use Rattle.ctr_page.specs.Making.{IsVersion};
ghost use Rattle.ctr_extend.specs.record_effects_States.{area_in};
ghost use Rattle.ctr_extend.specs.record_laws_Owed.{IsRoomFor, FirstVersion};
ghost use Rattle.ctr_extend.specs.store_Store.{View, LeavesPage};
ghost use Rattle.ctr_extend.specs.walk_OneRecord.{HasRoomForOne};
ghost use Rattle.ctr_extend.specs.pvs_Slots.{SlotLiesAt};
ghost use Rattle.ctr_extend.specs.page_turns_Turns.{Turns};
ghost use Rattle.ctr_write.specs.declared.stages.Written.TheVariants.{Done};
ghost use Rattle.ctr_write.specs.Stages.{LeavesItem, MovesWrite};
ghost use Rattle.ctr_write.specs.Laying.{MayLay, LaysHead};

use crate::misfit::misfit;
use crate::stages::Written;
use ctr_base::Origin;
use ctr_disk::{Disk, StoreFault};
use ctr_extend::{
    Store, a_free_slot_is_the_tables, a_place_of_a_table_fits, a_record_acts,
    a_record_is_refused_by_the_disk_alone, a_slot_is_put_at_its_place, a_turn_goes_on, first,
    owed_slots_are_laid_as_their_actions, put_slot, slot_lies,
};
use ctr_page::{Place, Version};
use ctr_rec::Bytes;
use ctr_types::Xid;

/// The same version once more, as a slot takes its head with it.
pub(crate) fn again<'a>(head: &Version<'a>) -> Version<'a>
    ensures { result ≡ head.now }
{
    Version {
        xid: head.xid,
        tombstone: head.tombstone,
        payload: Bytes::new(head.payload.as_slice()),
    }
}

// The first version of a row is laid at a place where a slot of it lies.
fn lay_new<D: Disk, O: Origin>(
    store: &mut Store<D, O>,
    x: Xid,
    place: Place,
    key: i64,
    head: &Version,
) -> Result<Written, StoreFault>
    requires room { HasRoomForOne 0 0 store.old }
    requires counted { place.page < store.old.now.counted }
    requires fits { IsVersion (length head.now.payload) head.now }
    requires lies { SlotLiesAt place (length head.now.payload) }
    ensures turns { Turns O.first D.Disk store.old store.new result }
    ensures is { IfOk result (λ w. (w ≡ Done) × LeavesItem 1 w store.old.meta store.new.meta) }
    ensures numbers { IfOk result (λ w. MovesWrite w store.old store.new) }
    ensures steps { (e : ℕ) → WhereSound O.first D.Disk (MayLay (record { x = x; entry = e; key = key; head = head.now }) store.old.now → IsRoomFor (area_in store.old.now) e key place
        → IfOk result (λ w. LaysHead (record { x = x; entry = e; key = key; head = head.now }) place FirstVersion store.old.now store.new.now)) }
    ensures refused { (e : ℕ) → WhereSound O.first D.Disk (MayLay (record { x = x; entry = e; key = key; head = head.now }) store.old.now → IsRoomFor (area_in store.old.now) e key place → IfErr result (λ f. f ≡ Fault)) }
{
    let _tables = store.meta();
    a_record_is_refused_by_the_disk_alone::<D, ()>();
    a_turn_goes_on::<D, (), Written>();
    a_record_acts::<D>();
    owed_slots_are_laid_as_their_actions();
    a_slot_is_put_at_its_place();
    a_place_of_a_table_fits();
    a_free_slot_is_the_tables();
    let slot = first(key, again(head));
    match put_slot(store, x, 0, place, &slot) {
        Ok(()) => Ok(Written::Done),
        Err(fault) => Err(fault),
    }
}

/// The first version of a row is laid in a free slot of its key's bucket. It goes on behind pages that were read.
pub(crate) fn lay_first<D: Disk, O: Origin>(
    store: &mut Store<D, O>,
    x: Xid,
    place: Place,
    key: i64,
    head: &Version,
) -> Result<Written, StoreFault>
    requires room { HasRoomForOne 0 0 store.old }
    requires counted { place.page < store.old.now.counted }
    requires fits { IsVersion (length head.now.payload) head.now }
    ensures turns { (a : View D) → LeavesPage {T = ⊤} O.first D.Disk a store.old (Ok tt) → Turns O.first D.Disk a store.new result }
    ensures is { IfOk result (λ w. (w ≡ Done) × LeavesItem 1 w store.old.meta store.new.meta) }
    ensures numbers { IfOk result (λ w. MovesWrite w store.old store.new) }
    ensures steps { (e : ℕ) → WhereSound O.first D.Disk (MayLay (record { x = x; entry = e; key = key; head = head.now }) store.old.now → IsRoomFor (area_in store.old.now) e key place
        → IfOk result (λ w. LaysHead (record { x = x; entry = e; key = key; head = head.now }) place FirstVersion store.old.now store.new.now)) }
    ensures refused { (e : ℕ) → WhereSound O.first D.Disk (MayLay (record { x = x; entry = e; key = key; head = head.now }) store.old.now → IsRoomFor (area_in store.old.now) e key place → IfErr result (λ f. f ≡ Fault)) }
{
    a_turn_goes_on::<D, (), Written>();
    a_place_of_a_table_fits();
    a_free_slot_is_the_tables();
    let width = head.payload.as_slice().len();
    if !slot_lies(place, width) {
        return misfit(store, place.page, width as u64, place.slot as u64);
    }
    lay_new(store, x, place, key, head)
}
