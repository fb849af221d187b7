// At a slot.
ghost use Rattle.std.specs.Prelude.{◌≡◌, ◌≢◌, ◌<◌, ℕ, true, false, IfOk, IfErr};
ghost use Rattle.ctr_disk.specs.declared.fault.StoreFault.TheVariants.{Fault};
ghost use Rattle.ctr_walk.specs.base_Base.{WhereSound};
ghost use Rattle.ctr_area.specs.Chains.{slot_places};
ghost use Rattle.ctr_area.specs.Images.{is_live as is_live_title};
ghost use Rattle.ctr_area.specs.Sound.{IsAmong};
ghost use Rattle.ctr_walk.specs.record_effects_States.{area_in};
ghost use Rattle.ctr_walk.specs.record_effects_Standing.{IsDatabaseState};
ghost use Rattle.ctr_actions.specs.Sites.{site_of};
ghost use Rattle.ctr_walk.specs.Damage.{ReadsPages};
ghost use Rattle.ctr_walk.specs.OneRecord.{HasRoomForOne};
ghost use Rattle.ctr_emptying.specs.cursor_Position.TheVariants.{Slot};
ghost use Rattle.ctr_emptying.specs.cursor_Standing.{IsPosition};
ghost use Rattle.ctr_cleaner.specs.Finding.{IsFreeRow, HasNothingAt, HasNothingInSlot};
ghost use Rattle.ctr_cleaner.specs.declared.done.MayEmpty.{MayEmpty};
ghost use Rattle.ctr_cleaner.specs.Turning.{heeding};
ghost use Rattle.ctr_cleaner.specs.Parts.{Tries, DidAt, OpenSaid, IsOpenSlot};

use crate::done::{Done, stepped};
use crate::going::{a_part_goes_on, a_part_reads, a_step_is_a_part};
use crate::keys::is_open_key;
use crate::states::is_live;
use ctr_disk::{Disk, StoreFault};
use ctr_emptying::{clean_slot, cut_at, look_at, revert_at};
use ctr_locking::{TitleRead, title_at};
use ctr_locks::KeyLocks;
use ctr_model::Key;
use ctr_page::Place;
use ctr_types::Xid;
use ctr_walk::{Origin, Store};

/// Whether the slot at a place is used and its row isn't locked, in an entry of its table's name.
fn is_open<D: Disk, O: Origin>(
    store: &mut Store<D, O>,
    locks: &KeyLocks,
    entry: u8,
    place: Place,
) -> Result<bool, StoreFault>
    requires going { store.old.stopped ≡ false }
    requires there { (entry < 32) × (place.page < store.old.now.counted) }
    ensures tells { WhereSound O.first D.Disk (((area_in store.old.now).title entry).state ≢ 0 → IfOk result (OpenSaid locks.now entry place store.old.now)) }
    ensures leaves { ReadsPages O.first D.Disk store.old store.new result }
    ensures refused { WhereSound O.first D.Disk (IsDatabaseState store.old.now → IsAmong place (slot_places (area_in store.old.now) entry) → IfErr result (λ f. f ≡ Fault)) }
{
    let facts = match look_at(store, place) {
        Err(fault) => return Err(fault),
        Ok(facts) => facts,
    };
    if !facts.used {
        return Ok(false);
    }
    is_open_key(store, locks, entry, Key::new(facts.key))
}

/// At a slot of a live table whose row is open: its head is taken, or it is trimmed, or its chain is cut.
fn clean_live<D: Disk, O: Origin>(
    store: &mut Store<D, O>,
    locks: &KeyLocks,
    low: Xid,
    entry: u8,
    place: Place,
) -> Result<Done, StoreFault>
    requires room { HasRoomForOne 0 0 store.old }
    requires there { place.page < store.old.now.counted }
    ensures tries { Tries false O.first D.Disk store.old store.new result }
    ensures cleans { (b spared : ℕ) (may : MayEmpty) → WhereSound O.first D.Disk (IsDatabaseState store.old.now → IsOpenSlot locks.now entry place store.old.now
        → is_live_title ((area_in store.old.now).title entry) ≡ true
        → IfOk result (DidAt (heeding low locks.now spared may) (Slot entry b place) (HasNothingInSlot low entry place store.old.now) store.old.now store.new.now)) }
    ensures refused { WhereSound O.first D.Disk (IsDatabaseState store.old.now → IsOpenSlot locks.now entry place store.old.now
        → is_live_title ((area_in store.old.now).title entry) ≡ true → IfErr result (λ f. f ≡ Fault)) }
{
    a_step_is_a_part::<D>();
    a_part_goes_on::<D>();
    match stepped(clean_slot(store, locks, low, entry, place)) {
        Err(fault) => Err(fault),
        Ok(None) => stepped(cut_at(store, locks, low, entry, place)),
        Ok(Some(dealt)) => Ok(Some(dealt)),
    }
}

/// At a slot whose row is open, of a table that is live or isn't.
fn clean_open<D: Disk, O: Origin>(
    store: &mut Store<D, O>,
    locks: &KeyLocks,
    low: Xid,
    entry: u8,
    place: Place,
    live: bool,
) -> Result<Done, StoreFault>
    requires room { HasRoomForOne 0 0 store.old }
    requires there { place.page < store.old.now.counted }
    ensures tries { Tries false O.first D.Disk store.old store.new result }
    ensures cleans { (b spared : ℕ) (may : MayEmpty) → WhereSound O.first D.Disk (IsDatabaseState store.old.now → IsOpenSlot locks.now entry place store.old.now
        → is_live_title ((area_in store.old.now).title entry) ≡ live
        → IfOk result (DidAt (heeding low locks.now spared may) (Slot entry b place) (HasNothingInSlot low entry place store.old.now) store.old.now store.new.now)) }
    ensures refused { WhereSound O.first D.Disk (IsDatabaseState store.old.now → IsOpenSlot locks.now entry place store.old.now
        → is_live_title ((area_in store.old.now).title entry) ≡ live → IfErr result (λ f. f ≡ Fault)) }
{
    a_step_is_a_part::<D>();
    if live {
        clean_live(store, locks, low, entry, place)
    } else {
        stepped(revert_at(store, locks, entry, place))
    }
}

/// At a slot: nothing is done to a row that is locked, in an entry of its table's name.
pub(crate) fn clean_row<D: Disk, O: Origin>(
    store: &mut Store<D, O>,
    locks: &KeyLocks,
    low: Xid,
    entry: u8,
    place: Place,
) -> Result<Done, StoreFault>
    requires room { HasRoomForOne 0 0 store.old }
    requires there { (entry < 32) × (place.page < store.old.now.counted) }
    ensures tries { Tries false O.first D.Disk store.old store.new result }
    ensures cleans { (b spared : ℕ) (may : MayEmpty) → WhereSound O.first D.Disk (IsDatabaseState store.old.now → IsPosition (Slot entry b place) (site_of store.old.now)
        → IfOk result (DidAt (heeding low locks.now spared may) (Slot entry b place)
        (HasNothingAt (IsFreeRow locks.now store.old.now) low (Slot entry b place) store.old.now) store.old.now store.new.now)) }
    ensures refused { (b : ℕ) → WhereSound O.first D.Disk (IsDatabaseState store.old.now → IsPosition (Slot entry b place) (site_of store.old.now) → IfErr result (λ f. f ≡ Fault)) }
{
    a_part_reads::<D, TitleRead>();
    a_part_reads::<D, bool>();
    let title = match title_at(store, entry) {
        Err(fault) => return Err(fault),
        Ok(title) => title,
    };
    match is_open(store, locks, entry, place) {
        Err(fault) => Err(fault),
        Ok(false) => Ok(None),
        Ok(true) => clean_open(store, locks, low, entry, place, is_live(&title)),
    }
}
