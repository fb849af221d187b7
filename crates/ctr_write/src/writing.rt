// One turn of the Write of a row.
ghost use Rattle.std.specs.Prelude.{◌≡◌, ◌<◌, ℤ, IfOk, IfErr, length};
ghost use Rattle.ctr_disk.specs.declared.fault.StoreFault.TheVariants.{Fault};
ghost use Rattle.ctr_base.specs.Base.{WhereSound};
ghost use Rattle.ctr_page.specs.Making.{IsVersion};
ghost use Rattle.ctr_extend.specs.record_effects_States.{area_in};
ghost use Rattle.ctr_extend.specs.record_laws_Owed.{IsSlotOfKey};
ghost use Rattle.ctr_extend.specs.walk_OneRecord.{HasRoomForOne};
ghost use Rattle.ctr_extend.specs.page_turns_Turns.{Turns};
ghost use Rattle.ctr_write.specs.Stages.{IsCountedStage, stage_items, IsCountedWrite, LeavesItem, MovesWrite};
ghost use Rattle.ctr_write.specs.Steps.{MayLook, EndsOver, EndsLooking, MayTakeTurn, EndsWrite};

use crate::copying::{SlotCopy, read_row};
use crate::extending::more;
use crate::misfit::misfit;
use crate::placing::place_first;
use crate::rewriting::write_read;
use crate::stages::{Stage, Written};
use ctr_base::Origin;
use ctr_disk::{Disk, StoreFault};
use ctr_extend::{
    Store, a_bucket_search_meets_no_damage, a_place_of_a_table_fits, a_slot_is_put_at_its_place,
    a_turn_goes_on, find, room_is_still_there,
};
use ctr_page::{Place, Version};
use ctr_types::Xid;

// The slot at a place is read and written over.
fn write_over<D: Disk, O: Origin>(
    store: &mut Store<D, O>,
    x: Xid,
    entry: u8,
    place: Place,
    head: &Version,
    kept: Option<Place>,
) -> Result<Written, StoreFault>
    requires room { HasRoomForOne 0 1 store.old }
    requires there { (entry < 32) × (place.page < store.old.now.counted) }
    requires fits { IsVersion (length head.now.payload) head.now }
    ensures turns { Turns O.first D.Disk store.old store.new result }
    ensures inside { IfOk result (λ w. IsCountedWrite w store.new.now.counted) }
    ensures left { IfOk result (λ w. LeavesItem 1 w store.old.meta store.new.meta) }
    ensures numbers { IfOk result (λ w. MovesWrite w store.old store.new) }
    ensures steps { (key : ℤ) → WhereSound O.first D.Disk (MayLook (record { x = x; entry = entry; key = key; head = head.now }) kept store.old.now
        → IsSlotOfKey (area_in store.old.now) entry key place
        → IfOk result (EndsOver (record { x = x; entry = entry; key = key; head = head.now }) place kept store.old.now store.new.now)) }
    ensures refused { (key : ℤ) → WhereSound O.first D.Disk (MayLook (record { x = x; entry = entry; key = key; head = head.now }) kept store.old.now
        → IsSlotOfKey (area_in store.old.now) entry key place → IfErr result (λ e. e ≡ Fault)) }
{
    a_slot_is_put_at_its_place();
    a_turn_goes_on::<D, SlotCopy, Written>();
    room_is_still_there::<D>();
    a_place_of_a_table_fits();
    let copy = match read_row(store, place) {
        Err(fault) => return Err(fault),
        Ok(copy) => copy,
    };
    let slot = copy.slot();
    let width = head.payload.as_slice().len();
    let wide = slot.head.payload.as_slice().len();
    if slot.head.xid == 0 || wide != width {
        return misfit(store, place.page, width as u64, wide as u64);
    }
    write_read(store, x, entry, place, slot, head, kept)
}

// The row's slot is looked for, and the row is written there; where there is none yet, in a free one.
fn look<D: Disk, O: Origin>(
    store: &mut Store<D, O>,
    x: Xid,
    entry: u8,
    key: i64,
    head: &Version,
    kept: Option<Place>,
) -> Result<Written, StoreFault>
    requires room { HasRoomForOne 0 1 store.old }
    requires there { entry < 32 }
    requires fits { IsVersion (length head.now.payload) head.now }
    ensures turns { Turns O.first D.Disk store.old store.new result }
    ensures inside { IfOk result (λ w. IsCountedWrite w store.new.now.counted) }
    ensures left { IfOk result (λ w. LeavesItem 1 w store.old.meta store.new.meta) }
    ensures numbers { IfOk result (λ w. MovesWrite w store.old store.new) }
    ensures steps { WhereSound O.first D.Disk (MayLook (record { x = x; entry = entry; key = key; head = head.now }) kept store.old.now
        → IfOk result (EndsLooking (record { x = x; entry = entry; key = key; head = head.now }) kept store.old.now store.new.now)) }
    ensures refused { WhereSound O.first D.Disk (MayLook (record { x = x; entry = entry; key = key; head = head.now }) kept store.old.now → IfErr result (λ e. e ≡ Fault)) }
{
    a_bucket_search_meets_no_damage();
    a_turn_goes_on::<D, Option<Place>, Written>();
    room_is_still_there::<D>();
    let found = match find(store, entry, key) {
        Err(fault) => return Err(fault),
        Ok(found) => found,
    };
    match found {
        None => place_first(store, x, entry, key, head),
        Some(place) => write_over(store, x, entry, place, head, kept),
    }
}

/// One turn of the Write of a row: for the row of a key of a table, by its entry of the catalog, a transaction lays this head. It logs one
/// record, or counts more pages, and takes no memory. A page is on its way; or the row's slot is looked for. Where the key has none, the head
/// is laid in a free slot of its bucket, or a page more is wanted for the bucket, where none is free. Where it has one, the version that has to
/// be kept off it is kept first, or a page more is wanted for the table's versions, where none of their places is free; and then the head is
/// laid over it. Who writes keeps room for one item of the secondary log.
pub fn write<D: Disk, O: Origin>(
    store: &mut Store<D, O>,
    x: Xid,
    entry: u8,
    key: i64,
    head: &Version,
    stage: Stage,
) -> Result<Written, StoreFault>
    requires room { HasRoomForOne 0 (stage_items stage) store.old }
    requires there { (entry < 32) × IsCountedStage stage store.old.now.counted }
    requires fits { IsVersion (length head.now.payload) head.now }
    // It reads pages, logs one record, or counts more pages.
    ensures turns { Turns O.first D.Disk store.old store.new result }
    // A page on its way is a counted one.
    ensures inside { IfOk result (λ w. IsCountedWrite w store.new.now.counted) }
    // The room of an item goes with a page that is taken, and comes back with one that is linked.
    ensures left { IfOk result (λ w. LeavesItem (stage_items stage) w store.old.meta store.new.meta) }
    // The log's next number goes with a record, and with nothing else; and more pages are counted where it grew.
    ensures numbers { IfOk result (λ w. MovesWrite w store.old store.new) }
    // What its record owes is met, and the Write is further.
    ensures steps { WhereSound O.first D.Disk (MayTakeTurn (record { x = x; entry = entry; key = key; head = head.now }) stage store.old.now
        → IfOk result (EndsWrite (record { x = x; entry = entry; key = key; head = head.now }) stage store.old.now store.new.now)) }
    // It is refused for no other cause than that the disk failed.
    ensures refused { WhereSound O.first D.Disk (MayTakeTurn (record { x = x; entry = entry; key = key; head = head.now }) stage store.old.now → IfErr result (λ e. e ≡ Fault)) }
{
    match stage {
        Stage::Looking => look(store, x, entry, key, head, None),
        Stage::Extending { chain, way } => more(store, x, chain, way),
        Stage::Kept(place) => look(store, x, entry, key, head, Some(place)),
    }
}
