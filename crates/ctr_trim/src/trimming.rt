// One record trims a slot.
ghost use Rattle.std.specs.Prelude.{◌≡◌, ◌≤◌, ◌<◌, ◌+◌, ℕ, Bool, false, IsTrue, OnOk, IfOk, IfErr, take};
ghost use Rattle.ctr_disk.specs.declared.fault.StoreFault.TheVariants.{Fault};
ghost use Rattle.ctr_pvs.specs.base_Base.{WhereSound, IsSoundImage};
ghost use Rattle.ctr_rec.specs.declared.record.Record.TheVariants.{Trim};
ghost use Rattle.ctr_page.specs.Places.{slot_size as size_of_slot};
ghost use Rattle.ctr_passed.specs.area_Chains.{slot_places};
ghost use Rattle.ctr_passed.specs.area_Sound.{IsAmong};
ghost use Rattle.ctr_record_effects.specs.States.{pages_in, area_in, IsWholePage};
ghost use Rattle.ctr_record_effects.specs.Changing.{laid_on_place};
ghost use Rattle.ctr_record_effects.specs.Standing.{IsDatabaseState};
ghost use Rattle.ctr_passed.specs.record_laws_Owed.{OwedByTrim};
ghost use Rattle.ctr_passed.specs.actions_Sites.{site_of};
ghost use Rattle.ctr_passed.specs.actions_Actions.{Trims, site_after};
ghost use Rattle.ctr_pvs.specs.walk_OneRecord.{HasRoomForOne, LogsOne};
ghost use Rattle.ctr_pvs.specs.walk_Damage.{damage_told, EndsTold, ReadsPages};
ghost use Rattle.ctr_pvs.specs.Reading.{row_check_at};
ghost use Rattle.ctr_pvs.specs.Slots.{SlotLiesAt};
ghost use Rattle.ctr_page_turns.specs.Acts.{ActsBy};
ghost use Rattle.ctr_trim.specs.Trimming.{trimming_by, LaysLeft, EndsCheck, TrimsSlot, EndsTrimming};

use crate::slots::{SlotLaid, TrimWay, trimmed};
use ctr_disk::{Disk, StoreFault};
use ctr_page::{Place, slot_size};
use ctr_page_turns::{a_record_acts, a_record_is_refused_by_the_disk_alone};
use ctr_passed::{a_logged_record_is_its_action, owed_slots_are_laid_as_their_actions};
use ctr_pvs::{Origin, Store, log_on_page, row};
use ctr_rec::Record;
use ctr_record_effects::{a_slot_is_laid, over_place};
use ctr_undamaged::{
    a_head_is_taken_without_damage, a_place_of_a_table_fits, a_slot_is_put_at_its_place,
};

/// What is left of the slot at a place, in bytes of its own, since its page may go while a record is logged.
fn read_left<D: Disk, O: Origin>(
    store: &mut Store<D, O>,
    place: Place,
    way: TrimWay,
) -> Result<SlotLaid, StoreFault>
    requires going { store.old.stopped ≡ false }
    requires counted { place.page < store.old.now.counted }
    ensures laid { IfOk result (LaysLeft (IsTrue D.Disk.tells × IsSoundImage O.first) way place store.old.now) }
    ensures ends { WhereSound O.first D.Disk (EndsTold (damage_told D.Disk store.new) (EndsCheck (row_check_at store.old.now.counted (pages_in store.old.now) place)) result) }
    ensures leaves { ReadsPages O.first D.Disk store.old store.new result }
{
    match row(store, place) {
        Err(fault) => Err(fault),
        Ok(lent) => Ok(trimmed(way, &lent)),
    }
}

/// Lays it over the slot.
fn lay<D: Disk, O: Origin>(
    store: &mut Store<D, O>,
    place: Place,
    laid: &SlotLaid,
) -> Result<(), StoreFault>
    requires room { HasRoomForOne 0 0 store.old }
    requires counted { place.page < store.old.now.counted }
    requires lies { SlotLiesAt place laid.now.w × (size_of_slot laid.now.w ≤ 2072) }
    ensures one { LogsOne O.first D.Disk (Trim (laid_on_place place (size_of_slot laid.now.w) (take (size_of_slot laid.now.w) laid.now.bytes))) store.old store.new result }
    ensures whole { WhereSound O.first D.Disk (OnOk result (IsWholePage place.page store.old.now)) }
{
    store.counts_pages();
    let size = slot_size(laid.w);
    let rec = Record::Trim {
        overlay: over_place(place, size, &laid.bytes[..size]),
    };
    log_on_page(store, place.page, &rec)
}

/// Trims the slot at a place of a page of rows, by one record, which isn't hardened yet: all behind its head or its previous version goes,
/// or the slot is free. The slot, its page and the table's entry of the catalog are checked as they are read. It takes no memory.
pub fn trim_slot<D: Disk, O: Origin>(
    store: &mut Store<D, O>,
    place: Place,
    way: TrimWay,
) -> Result<(), StoreFault>
    requires room { HasRoomForOne 0 0 store.old }
    requires counted { place.page < store.old.now.counted }
    ensures one { TrimsSlot O.first D.Disk way place store.old store.new result }
    // Damage is told where it stands in the file of pages.
    ensures ends { WhereSound O.first D.Disk (EndsTrimming (damage_told D.Disk store.new) way place store.old store.new result) }
    ensures whole { WhereSound O.first D.Disk (OnOk result (IsWholePage place.page store.old.now)) }
    // Of a place of a table, used or not, what the slot has left is there, and nothing else in the pages and the tables changes.
    ensures leaves { (x e : ℕ) (passes : ℕ → Bool) → WhereSound O.first D.Disk (IsDatabaseState store.old.now → IsAmong place (slot_places (area_in store.old.now) e)
        → OnOk result (site_of store.new.now ≡ site_after x (Trims passes e place (trimming_by way)) (site_of store.old.now))) }
    // Where no more is owed it is that action, whose bytes lie at the slot and pass their checks.
    ensures acts { (x e : ℕ) (passes : ℕ → Bool) → WhereSound O.first D.Disk (IsDatabaseState store.old.now
        → OwedByTrim passes store.old.now.tables (area_in store.old.now) e place (trimming_by way)
        → OnOk result (ActsBy x (Trims passes e place (trimming_by way)) store.old.now store.new.now)) }
    // And it is refused for no other cause than that the disk failed.
    ensures refused { (e : ℕ) (passes : ℕ → Bool) → WhereSound O.first D.Disk (IsDatabaseState store.old.now
        → OwedByTrim passes store.old.now.tables (area_in store.old.now) e place (trimming_by way) → IfErr result (λ f. f ≡ Fault)) }
{
    let _tables = store.meta();
    a_slot_is_laid();
    a_logged_record_is_its_action();
    a_record_acts::<D>();
    a_record_is_refused_by_the_disk_alone::<D, ()>();
    a_place_of_a_table_fits();
    a_slot_is_put_at_its_place();
    a_head_is_taken_without_damage();
    owed_slots_are_laid_as_their_actions();
    match read_left(store, place, way) {
        Err(fault) => Err(fault),
        Ok(laid) => lay(store, place, &laid),
    }
}
