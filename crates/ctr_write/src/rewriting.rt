// A used slot is written over: the version that has to be kept off it first is kept, or the head is laid.
ghost use Rattle.std.specs.Prelude.{◌≡◌, ◌<◌, ℤ, IfOk, IfErr, length};
ghost use Rattle.ctr_disk.specs.declared.fault.StoreFault.TheVariants.{Fault};
ghost use Rattle.ctr_base.specs.Base.{WhereSound};
ghost use Rattle.ctr_page.specs.declared.rows.Place.{Place as PlaceOf};
ghost use Rattle.ctr_page.specs.Making.{IsVersion, IsSlot, IsEntry};
ghost use Rattle.ctr_area.specs.Areas.{RowVersion};
ghost use Rattle.ctr_extend.specs.walk_OneRecord.{HasRoomForOne};
ghost use Rattle.ctr_extend.specs.pvs_Slots.{SlotLiesAt};
ghost use Rattle.ctr_extend.specs.pvs_Writing.{entry_width};
ghost use Rattle.ctr_extend.specs.page_turns_Turns.{Turns};
ghost use Rattle.ctr_write.specs.Stages.{IsCountedWrite, LeavesItem, MovesWrite};
ghost use Rattle.ctr_write.specs.Keeping.{off};
ghost use Rattle.ctr_write.specs.Steps.{MayKeepFirst, EndsKeeping, MayWriteOver, EndsOver};

use crate::extending::more;
use crate::keeping::keep_off;
use crate::over::{is_committed, lay_over};
use crate::stages::Written;
use ctr_base::Origin;
use ctr_disk::{Disk, StoreFault};
use ctr_extend::{
    OnWay, Store, a_place_of_a_table_fits, a_search_for_room_meets_no_damage,
    a_slot_is_put_at_its_place, a_turn_goes_on, find_free_entry, room_is_still_there, to_keep,
    way_of,
};
use ctr_page::{Chain, Place, RowSlot, Version, VersionEntry};
use ctr_types::Xid;

/// The place that names none.
const NOWHERE: Place = Place { page: 0, slot: 0 };

/// A version is kept off its row at a free place of the table's versions; where none is free, a page more is wanted there.
pub(crate) fn keep_first<D: Disk, O: Origin>(
    store: &mut Store<D, O>,
    x: Xid,
    entry: u8,
    version: &VersionEntry,
) -> Result<Written, StoreFault>
    requires room { HasRoomForOne 0 1 store.old }
    requires there { entry < 32 }
    requires fits { IsEntry (entry_width version.now) version.now }
    ensures turns { Turns O.first D.Disk store.old store.new result }
    ensures inside { IfOk result (λ w. IsCountedWrite w store.new.now.counted) }
    ensures left { IfOk result (λ w. LeavesItem 1 w store.old.meta store.new.meta) }
    ensures numbers { IfOk result (λ w. MovesWrite w store.old store.new) }
    ensures steps { (at : PlaceOf) (v : RowVersion) → WhereSound O.first D.Disk (MayKeepFirst x entry at v version.now store.old.now
        → IfOk result (EndsKeeping (off x entry at v) store.old.now store.new.now)) }
    ensures refused { (at : PlaceOf) (v : RowVersion) → WhereSound O.first D.Disk (MayKeepFirst x entry at v version.now store.old.now → IfErr result (λ e. e ≡ Fault)) }
{
    a_search_for_room_meets_no_damage();
    a_turn_goes_on::<D, Option<Place>, Written>();
    room_is_still_there::<D>();
    let free = match find_free_entry(store, entry) {
        Err(fault) => return Err(fault),
        Ok(free) => free,
    };
    match free {
        None => more(store, x, Chain::Versions { entry }, OnWay::Wanted),
        Some(place) => keep_off(store, x, place, version),
    }
}

/// A used slot, as it was read, is written over; or the version that has to be kept off it first is kept, where none was kept yet.
pub(crate) fn write_read<D: Disk, O: Origin>(
    store: &mut Store<D, O>,
    x: Xid,
    entry: u8,
    place: Place,
    slot: RowSlot,
    head: &Version,
    kept: Option<Place>,
) -> Result<Written, StoreFault>
    requires room { HasRoomForOne 0 1 store.old }
    requires there { (entry < 32) × (place.page < store.old.now.counted) }
    requires fits { IsVersion (length head.now.payload) head.now × IsSlot (length head.now.payload) slot × (0 < slot.head.xid) × SlotLiesAt place (length head.now.payload) }
    ensures turns { Turns O.first D.Disk store.old store.new result }
    ensures inside { IfOk result (λ w. IsCountedWrite w store.new.now.counted) }
    ensures left { IfOk result (λ w. LeavesItem 1 w store.old.meta store.new.meta) }
    ensures numbers { IfOk result (λ w. MovesWrite w store.old store.new) }
    ensures steps { (key : ℤ) → WhereSound O.first D.Disk (MayWriteOver (record { x = x; entry = entry; key = key; head = head.now }) place slot.entry kept store.old.now
        → IfOk result (EndsOver (record { x = x; entry = entry; key = key; head = head.now }) place kept store.old.now store.new.now)) }
    ensures refused { (key : ℤ) → WhereSound O.first D.Disk (MayWriteOver (record { x = x; entry = entry; key = key; head = head.now }) place slot.entry kept store.old.now → IfErr result (λ e. e ≡ Fault)) }
{
    room_is_still_there::<D>();
    a_slot_is_put_at_its_place();
    a_place_of_a_table_fits();
    let way = way_of(&slot, is_committed(store, slot.head.xid));
    match to_keep(way, &slot) {
        None => lay_over(store, x, place, way, NOWHERE, slot, head),
        Some(version) => match kept {
            Some(q) => lay_over(store, x, place, way, q, slot, head),
            None => keep_first(store, x, entry, &version),
        },
    }
}
