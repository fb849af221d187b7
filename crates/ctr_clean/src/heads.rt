// The head of a slot is taken from it.
ghost use Rattle.std.specs.Prelude.{◌≡◌, ◌<◌, ◌+◌, ℕ, true, false, OnOk, IfOk, IfErr, slice_index};
ghost use Rattle.ctr_disk.specs.declared.fault.StoreFault.TheVariants.{Fault};
ghost use Rattle.ctr_pvs.specs.base_Base.{WhereSound};
ghost use Rattle.ctr_pvs.specs.store_Store.{LeavesPage};
ghost use Rattle.ctr_pvs.specs.redo_States.{page_limit};
ghost use Rattle.ctr_area.specs.Chains.{slot_places};
ghost use Rattle.ctr_area.specs.Reading.{columns_on};
ghost use Rattle.ctr_area.specs.Sound.{IsAmong};
ghost use Rattle.ctr_record_effects.specs.States.{pages_in, area_in};
ghost use Rattle.ctr_record_effects.specs.Standing.{IsDatabaseState};
ghost use Rattle.ctr_record_laws.specs.Owed.{Reverting, OwedByRevert};
ghost use Rattle.ctr_actions.specs.Actions.{Reverts};
ghost use Rattle.ctr_pvs.specs.walk_OneRecord.{HasRoomForOne};
ghost use Rattle.ctr_pvs.specs.walk_Damage.{ReadsPages};
ghost use Rattle.ctr_pvs.specs.Slots.{slot_lent};
ghost use Rattle.ctr_dead.specs.page_turns_Turns.{Turns};
ghost use Rattle.ctr_dead.specs.page_turns_Rooms.{AddsItems};
ghost use Rattle.ctr_dead.specs.page_turns_Acts.{ActsBy};
ghost use Rattle.ctr_clean.specs.Heads.{IsPageOfBytes, LeadsFrom, IsReadBehind};

use ctr_dead::{
    a_head_is_taken_without_damage, a_place_of_a_table_fits, a_record_acts,
    a_record_is_refused_by_the_disk_alone, a_row_is_read_without_damage, a_turn_goes_on,
    owed_slots_are_laid_as_their_actions, room_is_still_there,
};
use ctr_disk::{Disk, StoreFault};
use ctr_page::Place;
use ctr_pvs::{LentSlot, Origin, Store, row};
use ctr_rec::PageNo;
use ctr_revert::revert_row;

/// What is lent of a page are bytes.
fn are_bytes(page: &[u8])
    ensures { (k : ℕ) → slice_index page.now k < 256 }
{}

/// Brings a page into a frame: all its bytes are there.
fn look<D: Disk, O: Origin>(store: &mut Store<D, O>, p: PageNo) -> Result<(), StoreFault>
    requires going { store.old.stopped ≡ false }
    ensures bytes { WhereSound O.first D.Disk (p < page_limit → OnOk result (IsPageOfBytes p store.old.now)) }
    ensures leaves { LeavesPage O.first D.Disk store.old store.new result }
{
    let bytes = store.page(p)?;
    are_bytes(bytes);
    Ok(())
}

/// The same of two pages.
fn look_both<D: Disk, O: Origin>(
    store: &mut Store<D, O>,
    p: PageNo,
    q: PageNo,
) -> Result<(), StoreFault>
    requires going { store.old.stopped ≡ false }
    ensures first { WhereSound O.first D.Disk (p < page_limit → OnOk result (IsPageOfBytes p store.old.now)) }
    ensures second { WhereSound O.first D.Disk (q < page_limit → OnOk result (IsPageOfBytes q store.old.now)) }
    ensures leaves { LeavesPage O.first D.Disk store.old store.new result }
{
    match look(store, p) {
        Err(fault) => Err(fault),
        Ok(()) => look(store, q),
    }
}

/// Where a slot leads.
fn leads_to(slot: &LentSlot) -> Place
    ensures { result ≡ (slot_lent slot.now).older }
{
    slot.older
}

/// Where the slot at a place leads.
pub(crate) fn behind_at<D: Disk, O: Origin>(
    store: &mut Store<D, O>,
    place: Place,
) -> Result<Place, StoreFault>
    requires going { store.old.stopped ≡ false }
    requires counted { place.page < store.old.now.counted }
    ensures leads { WhereSound O.first D.Disk (IfOk result (LeadsFrom (columns_on (pages_in store.old.now) place.page) ((area_in store.old.now).slot place))) }
    ensures leaves { ReadsPages O.first D.Disk store.old store.new result }
    ensures refused { (e : ℕ) → WhereSound O.first D.Disk (IsDatabaseState store.old.now → IsAmong place (slot_places (area_in store.old.now) e) → IfErr result (λ f. f ≡ Fault)) }
{
    a_row_is_read_without_damage();
    match row(store, place) {
        Err(fault) => Err(fault),
        Ok(lent) => Ok(leads_to(&lent)),
    }
}

/// Reads what stands behind the head of the slot at a place, where it has one.
fn look_behind<D: Disk, O: Origin>(store: &mut Store<D, O>, place: Place) -> Result<(), StoreFault>
    requires going { store.old.stopped ≡ false }
    requires counted { place.page < store.old.now.counted }
    ensures read { WhereSound O.first D.Disk (OnOk result (IsReadBehind store.old.now place)) }
    ensures leaves { ReadsPages O.first D.Disk store.old store.new result }
    ensures refused { (e : ℕ) → WhereSound O.first D.Disk (IsDatabaseState store.old.now → IsAmong place (slot_places (area_in store.old.now) e) → IfErr result (λ f. f ≡ Fault)) }
{
    store.counts_pages();
    match behind_at(store, place) {
        Err(fault) => Err(fault),
        Ok(older) => look_both(store, place.page, older.page),
    }
}

/// Takes the head from the slot at a place, behind which all is read.
fn take_read<D: Disk, O: Origin>(store: &mut Store<D, O>, place: Place) -> Result<(), StoreFault>
    requires room { HasRoomForOne 0 0 store.old }
    requires counted { place.page < store.old.now.counted }
    ensures turns { Turns O.first D.Disk store.old store.new result }
    ensures numbers { OnOk result (store.new.next ≡ store.old.next + 1) }
    ensures left { OnOk result (AddsItems 0 store.old.meta store.new.meta) }
    ensures counted { OnOk result (store.new.now.counted ≡ store.old.now.counted) }
    ensures acts { (x e : ℕ) (way : Reverting) → WhereSound O.first D.Disk (IsDatabaseState store.old.now → IsReadBehind store.old.now place
        → OwedByRevert store.old.now.tables (area_in store.old.now) e place way → OnOk result (ActsBy x (Reverts e place way) store.old.now store.new.now)) }
    ensures refused { (e : ℕ) (way : Reverting) → WhereSound O.first D.Disk (IsDatabaseState store.old.now
        → OwedByRevert store.old.now.tables (area_in store.old.now) e place way → IfErr result (λ f. f ≡ Fault)) }
{
    let _tables = store.meta();
    a_record_acts::<D>();
    a_record_is_refused_by_the_disk_alone::<D, ()>();
    a_place_of_a_table_fits();
    a_head_is_taken_without_damage();
    owed_slots_are_laid_as_their_actions();
    store.counts_pages();
    revert_row(store, place)
}

/// Takes the head from the slot at a place, by one record. It takes no memory.
pub(crate) fn take_head<D: Disk, O: Origin>(
    store: &mut Store<D, O>,
    place: Place,
) -> Result<(), StoreFault>
    requires room { HasRoomForOne 0 0 store.old }
    requires counted { place.page < store.old.now.counted }
    // It logs one record, or reads pages.
    ensures turns { Turns O.first D.Disk store.old store.new result }
    ensures numbers { OnOk result (store.new.next ≡ store.old.next + 1) }
    ensures left { OnOk result (AddsItems 0 store.old.meta store.new.meta) }
    ensures counted { OnOk result (store.new.now.counted ≡ store.old.now.counted) }
    // Where no more is owed it is the action in the way that fits the slot.
    ensures acts { (x e : ℕ) (way : Reverting) → WhereSound O.first D.Disk (IsDatabaseState store.old.now
        → OwedByRevert store.old.now.tables (area_in store.old.now) e place way → OnOk result (ActsBy x (Reverts e place way) store.old.now store.new.now)) }
    // And it is refused for no other cause than that the disk failed.
    ensures refused { (e : ℕ) (way : Reverting) → WhereSound O.first D.Disk (IsDatabaseState store.old.now
        → OwedByRevert store.old.now.tables (area_in store.old.now) e place way → IfErr result (λ f. f ≡ Fault)) }
{
    a_turn_goes_on::<D, (), ()>();
    room_is_still_there::<D>();
    match look_behind(store, place) {
        Err(fault) => Err(fault),
        Ok(()) => take_read(store, place),
    }
}
