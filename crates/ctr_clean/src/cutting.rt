// A step that cuts a chain behind a version entry.
ghost use Rattle.std.specs.Prelude.{◌≡◌, ◌<◌, ℕ, ℤ, true, false, IfOk, IfErr, OnOk};
ghost use Rattle.ctr_disk.specs.declared.fault.StoreFault.TheVariants.{Fault};
ghost use Rattle.ctr_pvs.specs.base_Base.{WhereSound};
ghost use Rattle.ctr_page.specs.declared.rows.Place.{Place as PlaceOf};
ghost use Rattle.ctr_pvs.specs.redo_States.{State};
ghost use Rattle.ctr_area.specs.Areas.{Slot};
ghost use Rattle.ctr_area.specs.Chains.{slot_places, older_bound, Leads};
ghost use Rattle.ctr_area.specs.Images.{is_live};
ghost use Rattle.ctr_area.specs.Sound.{IsAmong, IsKeptFor, IsUsedSlot};
ghost use Rattle.ctr_record_effects.specs.States.{area_in};
ghost use Rattle.ctr_record_effects.specs.Standing.{IsDatabaseState};
ghost use Rattle.ctr_pvs.specs.walk_OneRecord.{HasRoomForOne};
ghost use Rattle.ctr_pvs.specs.walk_Damage.{ReadsPages};
ghost use Rattle.ctr_dead.specs.page_turns_Rooms.{AddsItems};
ghost use Rattle.ctr_dead.specs.page_turns_Turns.{Turns};
ghost use Rattle.ctr_clean.specs.Choosing.{passes_below, TellsSlot};
ghost use Rattle.ctr_clean.specs.Steps.{next_stepped};
ghost use Rattle.ctr_clean.specs.Cutting.{IsCutAlong, IsCutBelow, OwnPasses, GoesBehind, CutsBehind, CutsAt};

use crate::choosing::{SlotFacts, passes};
use crate::heads::behind_at;
use crate::older::{REACH, look_older};
use crate::steps::{Step, look_at};
use ctr_dead::{a_place_of_a_table_fits, a_turn_goes_on, cut_behind, room_is_still_there};
use ctr_disk::{Disk, StoreFault};
use ctr_locks::KeyLocks;
use ctr_meta::Meta;
use ctr_model::Key;
use ctr_page::Place;
use ctr_pvs::{Origin, Store};
use ctr_types::Xid;

/// Where a chain may be cut.
#[derive(Clone, Copy, Debug, PartialEq, Eq)]
pub(crate) enum CutFound {
    /// Behind this version entry.
    Behind(Place),
    /// Nowhere.
    Nowhere,
    /// That wasn't seen: it goes on beyond reach.
    Further,
}

/// Where a chain may be cut that begins at a place, behind a slot: at the first version entry whose version everybody sees, where another is
/// behind it. Each version entry up to that is read, as far as reach goes; where the chain goes on beyond, that isn't seen.
fn cut_along<D: Disk, O: Origin>(
    store: &mut Store<D, O>,
    low: Xid,
    from: Place,
) -> Result<CutFound, StoreFault>
    requires going { store.old.stopped ≡ false }
    ensures tells { (e : ℕ) (key : ℤ) → WhereSound O.first D.Disk (IsDatabaseState store.old.now
        → Leads older_bound (area_in store.old.now).older (IsKeptFor (area_in store.old.now) e key) from
        → IfOk result (IsCutAlong (passes_below low store.old.now.tables) (area_in store.old.now) from)) }
    ensures counted { IfOk result (IsCutBelow store.old.now.counted) }
    ensures leaves { ReadsPages O.first D.Disk store.old store.new result }
    ensures refused { (e : ℕ) (key : ℤ) → WhereSound O.first D.Disk (IsDatabaseState store.old.now
        → Leads older_bound (area_in store.old.now).older (IsKeptFor (area_in store.old.now) e key) from → IfErr result (λ f. f ≡ Fault)) }
{
    a_place_of_a_table_fits();
    store.rests();
    let mut at = from;
    let mut left = REACH;
    while left != 0 {
        if at.page == 0 {
            return Ok(CutFound::Nowhere);
        }
        if at.page >= store.counted() {
            return Ok(CutFound::Nowhere);
        }
        match look_older(store, at) {
            Err(fault) => return Err(fault),
            Ok(facts) => {
                if passes(store.meta(), low, facts.xid) {
                    if facts.next.page == 0 {
                        return Ok(CutFound::Nowhere);
                    }
                    return Ok(CutFound::Behind(at));
                }
                at = facts.next;
            }
        }
        left -= 1;
    }
    Ok(if at.page == 0 {
        CutFound::Nowhere
    } else {
        CutFound::Further
    })
}

/// Whether a used slot has itself a version that everybody sees.
fn own_passes(meta: &Meta, low: Xid, facts: &SlotFacts) -> bool
    requires used { facts.now.used ≡ true }
    ensures { (there : Slot) → TellsSlot there facts.now → OwnPasses (passes_below low meta.now.tables) there result }
{
    if passes(meta, low, facts.head) {
        return true;
    }
    match facts.previous {
        None => false,
        Some(x) => passes(meta, low, x),
    }
}

/// Whether the chain of a slot is to be cut behind a version entry, by what is known of the slot: nobody has locked its row, and neither of its own
/// versions is one that everybody sees.
fn goes_behind(meta: &Meta, locks: &KeyLocks, low: Xid, entry: u8, facts: &SlotFacts) -> bool
    ensures { (s : State) (at : PlaceOf) → meta.now.tables ≡ s.tables → TellsSlot ((area_in s).slot at) facts.now → GoesBehind low locks.now entry at s result }
{
    if !facts.used || locks.locked(entry, Key::new(facts.key)).is_some() {
        return false;
    }
    !own_passes(meta, low, facts)
}

/// The same of a store.
fn behind_slot<D: Disk, O: Origin>(
    store: &mut Store<D, O>,
    locks: &KeyLocks,
    low: Xid,
    entry: u8,
    place: Place,
) -> Result<bool, StoreFault>
    requires going { store.old.stopped ≡ false }
    requires counted { place.page < store.old.now.counted }
    ensures chooses { WhereSound O.first D.Disk (IfOk result (GoesBehind low locks.now entry place store.old.now)) }
    ensures leaves { ReadsPages O.first D.Disk store.old store.new result }
    ensures refused { (e : ℕ) → WhereSound O.first D.Disk (IsDatabaseState store.old.now → IsAmong place (slot_places (area_in store.old.now) e) → IfErr result (λ f. f ≡ Fault)) }
{
    match look_at(store, place) {
        Err(fault) => Err(fault),
        Ok(facts) => Ok(goes_behind(store.meta(), locks, low, entry, &facts)),
    }
}

/// Where the chain of the slot at a place leads off it, and may be cut there.
fn cut_off<D: Disk, O: Origin>(
    store: &mut Store<D, O>,
    low: Xid,
    place: Place,
) -> Result<CutFound, StoreFault>
    requires going { store.old.stopped ≡ false }
    requires counted { place.page < store.old.now.counted }
    ensures tells { (e : ℕ) → WhereSound O.first D.Disk (IsDatabaseState store.old.now → IsUsedSlot (area_in store.old.now) e place
        → IfOk result (IsCutAlong (passes_below low store.old.now.tables) (area_in store.old.now) ((area_in store.old.now).slot place).pointer)) }
    ensures counted { IfOk result (IsCutBelow store.old.now.counted) }
    ensures leaves { ReadsPages O.first D.Disk store.old store.new result }
    ensures refused { (e : ℕ) → WhereSound O.first D.Disk (IsDatabaseState store.old.now → IsUsedSlot (area_in store.old.now) e place → IfErr result (λ f. f ≡ Fault)) }
{
    match behind_at(store, place) {
        Err(fault) => Err(fault),
        Ok(from) => cut_along(store, low, from),
    }
}

/// Where the chain of the slot at a place is to be cut behind a version entry.
fn cut_place<D: Disk, O: Origin>(
    store: &mut Store<D, O>,
    locks: &KeyLocks,
    low: Xid,
    entry: u8,
    place: Place,
) -> Result<CutFound, StoreFault>
    requires going { store.old.stopped ≡ false }
    requires counted { place.page < store.old.now.counted }
    ensures chooses { WhereSound O.first D.Disk (IsDatabaseState store.old.now → IsAmong place (slot_places (area_in store.old.now) entry)
        → IfOk result (CutsBehind low locks.now entry place store.old.now)) }
    ensures counted { IfOk result (IsCutBelow store.old.now.counted) }
    ensures leaves { ReadsPages O.first D.Disk store.old store.new result }
    ensures refused { WhereSound O.first D.Disk (IsDatabaseState store.old.now → IsAmong place (slot_places (area_in store.old.now) entry) → IfErr result (λ f. f ≡ Fault)) }
{
    match behind_slot(store, locks, low, entry, place) {
        Err(fault) => Err(fault),
        Ok(false) => Ok(CutFound::Nowhere),
        Ok(true) => cut_off(store, low, place),
    }
}

/// Cuts the chain of the slot at a place of a live table behind the first version entry whose version everybody sees, where that is no version of the
/// slot's own, another is behind it, and the row isn't locked, by one record, which isn't hardened yet. The first 256 version entries of the
/// chain are read, at most: where it goes on, and none of them is such a one, it answers [`Step::Beyond`]. It takes no memory.
pub fn cut_at<D: Disk, O: Origin>(
    store: &mut Store<D, O>,
    locks: &KeyLocks,
    low: Xid,
    entry: u8,
    place: Place,
) -> Result<Step, StoreFault>
    requires room { HasRoomForOne 0 0 store.old }
    requires counted { place.page < store.old.now.counted }
    // It logs one record, or reads pages.
    ensures turns { Turns O.first D.Disk store.old store.new result }
    ensures numbers { IfOk result (λ t. store.new.next ≡ next_stepped t store.old.next) }
    // No transaction and no item is added to the tables, and as many pages are counted.
    ensures left { OnOk result (AddsItems 0 store.old.meta store.new.meta) }
    ensures counted { OnOk result (store.new.now.counted ≡ store.old.now.counted) }
    // The slot's chain is cut behind a version entry; or it may not be behind any, unless its row is locked; or it goes on beyond reach, and that isn't seen.
    ensures cleans { WhereSound O.first D.Disk (IsDatabaseState store.old.now → IsAmong place (slot_places (area_in store.old.now) entry)
        → is_live ((area_in store.old.now).title entry) ≡ true → IfOk result (CutsAt low locks.now entry place store.old.now store.new.now)) }
    // It is refused for no other cause than that the disk failed.
    ensures refused { WhereSound O.first D.Disk (IsDatabaseState store.old.now → IsAmong place (slot_places (area_in store.old.now) entry)
        → is_live ((area_in store.old.now).title entry) ≡ true → IfErr result (λ f. f ≡ Fault)) }
{
    a_turn_goes_on::<D, CutFound, Step>();
    a_turn_goes_on::<D, (), Step>();
    room_is_still_there::<D>();
    match cut_place(store, locks, low, entry, place) {
        Err(fault) => Err(fault),
        Ok(CutFound::Nowhere) => Ok(Step::Nothing),
        Ok(CutFound::Further) => Ok(Step::Beyond),
        Ok(CutFound::Behind(q)) => match cut_behind(store, q) {
            Err(fault) => Err(fault),
            Ok(()) => Ok(Step::Cleaned),
        },
    }
}
