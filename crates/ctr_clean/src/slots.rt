// A step at a slot of a live table.
ghost use Rattle.std.specs.Prelude.{◌≡◌, ◌<◌, ℕ, true, false, IfOk, IfErr, OnOk};
ghost use Rattle.ctr_disk.specs.declared.fault.StoreFault.TheVariants.{Fault};
ghost use Rattle.ctr_pvs.specs.base_Base.{WhereSound};
ghost use Rattle.ctr_page.specs.declared.rows.Place.{Place as PlaceOf};
ghost use Rattle.ctr_pvs.specs.redo_States.{State};
ghost use Rattle.ctr_area.specs.Chains.{slot_places};
ghost use Rattle.ctr_area.specs.Images.{is_live};
ghost use Rattle.ctr_area.specs.Sound.{IsAmong};
ghost use Rattle.ctr_record_effects.specs.States.{area_in};
ghost use Rattle.ctr_record_effects.specs.Standing.{IsDatabaseState};
ghost use Rattle.ctr_pvs.specs.walk_OneRecord.{HasRoomForOne};
ghost use Rattle.ctr_pvs.specs.walk_Damage.{ReadsPages};
ghost use Rattle.ctr_dead.specs.page_turns_Turns.{Turns};
ghost use Rattle.ctr_dead.specs.page_turns_Rooms.{AddsItems};
ghost use Rattle.ctr_clean.specs.Choosing.{TellsSlot};
ghost use Rattle.ctr_clean.specs.Steps.{TaskAt, CleansSlot, next_stepped};

use crate::choosing::{SlotFacts, SlotTask, task_of};
use crate::heads::take_head;
use crate::steps::{Step, look_at};
use ctr_dead::{a_turn_goes_on, room_is_still_there, trim_slot};
use ctr_disk::{Disk, StoreFault};
use ctr_locks::KeyLocks;
use ctr_meta::Meta;
use ctr_model::Key;
use ctr_page::Place;
use ctr_pvs::{Origin, Store};
use ctr_types::Xid;

/// What is to be done with a slot, by what is known of it.
fn task_at(meta: &Meta, locks: &KeyLocks, low: Xid, entry: u8, facts: &SlotFacts) -> SlotTask
    ensures { (s : State) (at : PlaceOf) → meta.now.tables ≡ s.tables → TellsSlot ((area_in s).slot at) facts.now → TaskAt low locks.now entry at s result }
{
    if !facts.used || locks.locked(entry, Key::new(facts.key)).is_some() {
        return SlotTask::Nothing;
    }
    task_of(meta, low, facts)
}

/// The same of a store.
fn find_task<D: Disk, O: Origin>(
    store: &mut Store<D, O>,
    locks: &KeyLocks,
    low: Xid,
    entry: u8,
    place: Place,
) -> Result<SlotTask, StoreFault>
    requires going { store.old.stopped ≡ false }
    requires counted { place.page < store.old.now.counted }
    ensures chooses { WhereSound O.first D.Disk (IfOk result (TaskAt low locks.now entry place store.old.now)) }
    ensures leaves { ReadsPages O.first D.Disk store.old store.new result }
    ensures refused { (e : ℕ) → WhereSound O.first D.Disk (IsDatabaseState store.old.now → IsAmong place (slot_places (area_in store.old.now) e) → IfErr result (λ f. f ≡ Fault)) }
{
    match look_at(store, place) {
        Err(fault) => Err(fault),
        Ok(facts) => Ok(task_at(store.meta(), locks, low, entry, &facts)),
    }
}

/// Does what is to be done with the slot at a place of a live table, where its row isn't locked, by one record, which isn't hardened yet: its
/// head is taken where it is by a transaction that is rolled back; else it is trimmed, where it may be. It takes no memory.
pub fn clean_slot<D: Disk, O: Origin>(
    store: &mut Store<D, O>,
    locks: &KeyLocks,
    low: Xid,
    entry: u8,
    place: Place,
) -> Result<Step, StoreFault>
    requires room { HasRoomForOne 0 0 store.old }
    requires counted { place.page < store.old.now.counted }
    // It logs one record, or reads pages.
    ensures turns { Turns O.first D.Disk store.old store.new result }
    ensures numbers { IfOk result (λ t. store.new.next ≡ next_stepped t store.old.next) }
    // No transaction and no item is added to the tables, and as many pages are counted.
    ensures left { OnOk result (AddsItems 0 store.old.meta store.new.meta) }
    ensures counted { OnOk result (store.new.now.counted ≡ store.old.now.counted) }
    // That is an action of the cleaner's at the slot, which owes nothing more; or there is none.
    ensures cleans { WhereSound O.first D.Disk (IsDatabaseState store.old.now → IsAmong place (slot_places (area_in store.old.now) entry)
        → is_live ((area_in store.old.now).title entry) ≡ true → IfOk result (CleansSlot low locks.now entry place store.old.now store.new.now)) }
    // It is refused for no other cause than that the disk failed.
    ensures refused { WhereSound O.first D.Disk (IsDatabaseState store.old.now → IsAmong place (slot_places (area_in store.old.now) entry)
        → is_live ((area_in store.old.now).title entry) ≡ true → IfErr result (λ f. f ≡ Fault)) }
{
    a_turn_goes_on::<D, SlotTask, Step>();
    a_turn_goes_on::<D, (), Step>();
    room_is_still_there::<D>();
    match find_task(store, locks, low, entry, place) {
        Err(fault) => Err(fault),
        Ok(SlotTask::Nothing) => Ok(Step::Nothing),
        Ok(SlotTask::Revert) => match take_head(store, place) {
            Err(fault) => Err(fault),
            Ok(()) => Ok(Step::Cleaned),
        },
        Ok(SlotTask::Trim(way)) => match trim_slot(store, place, way) {
            Err(fault) => Err(fault),
            Ok(()) => Ok(Step::Cleaned),
        },
    }
}
