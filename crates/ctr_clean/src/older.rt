// A step at a version entry that no chain has.
ghost use Rattle.std.specs.Prelude.{◌≡◌, ◌<◌, ℕ, ℤ, List, true, false, IfOk, IfErr, OnOk};
ghost use Rattle.ctr_types.specs.declared.value.Column.{Column};
ghost use Rattle.ctr_disk.specs.declared.fault.StoreFault.TheVariants.{Fault};
ghost use Rattle.ctr_pvs.specs.base_Base.{WhereSound};
ghost use Rattle.ctr_pvs.specs.store_Store.{LeavesPage};
ghost use Rattle.ctr_pvs.specs.redo_States.{State};
ghost use Rattle.ctr_page.specs.declared.rows.Place.{Place as PlaceOf};
ghost use Rattle.ctr_area.specs.Chains.{older_bound, older_places, Leads};
ghost use Rattle.ctr_area.specs.Images.{is_live};
ghost use Rattle.ctr_area.specs.Reading.{older_said};
ghost use Rattle.ctr_area.specs.Sound.{IsAmong, IsKeptFor};
ghost use Rattle.ctr_record_effects.specs.States.{area_in};
ghost use Rattle.ctr_record_effects.specs.Standing.{IsDatabaseState};
ghost use Rattle.ctr_pvs.specs.walk_OneRecord.{HasRoomForOne};
ghost use Rattle.ctr_pvs.specs.walk_Damage.{ReadsPages};
ghost use Rattle.ctr_pvs.specs.Lending.{entry_lent};
ghost use Rattle.ctr_dead.specs.page_turns_Rooms.{AddsItems};
ghost use Rattle.ctr_dead.specs.page_turns_Turns.{Turns};
ghost use Rattle.ctr_clean.specs.Steps.{next_stepped};
ghost use Rattle.ctr_clean.specs.Older.{IsSaid, IsOpenKey, HasAlong, IsHadBy, looseness_by, LooseAt, FreesAt};

use crate::choosing::waits;
use crate::heads::behind_at;
use crate::steps::Step;
use ctr_dead::{
    a_bucket_search_meets_no_damage, a_place_of_a_table_fits, a_turn_goes_on,
    a_version_entry_is_read_without_damage, find, free_loose, room_is_still_there,
};
use ctr_disk::{Disk, StoreFault};
use ctr_locks::KeyLocks;
use ctr_meta::Meta;
use ctr_model::Key;
use ctr_page::Place;
use ctr_pvs::{LentVersion, Origin, Store, version};
use ctr_types::Xid;

/// How many version entries of a row's chain a step looks at, at most. What goes on further is left for another pass, so that no turn is long
/// while an old snapshot keeps many versions of a row.
pub(crate) const REACH: u32 = 256;

/// What there is to know of a version entry: whether it is used; and if so the key, whose the version is, and where it leads.
#[derive(Clone, Copy, Debug, PartialEq, Eq)]
pub struct OlderFacts {
    pub used: bool,
    pub key: i64,
    pub xid: Xid,
    /// Page 0 where it leads nowhere.
    pub next: Place,
}

/// The key of a version entry that is to be looked for in its row's chain.
#[derive(Clone, Copy, Debug, PartialEq, Eq)]
pub(crate) enum OpenKey {
    /// It is in use, its row isn't locked, and everybody who may see its version does.
    Open(i64),
    /// It isn't in use, or its row is locked.
    Closed,
    /// Its version is of a commit that somebody may not see yet.
    Waits,
}

/// Whether a chain has a version entry.
#[derive(Clone, Copy, Debug, PartialEq, Eq)]
pub(crate) enum ChainFound {
    Found,
    Missing,
    /// That wasn't seen: the chain goes on beyond reach.
    Beyond,
}

/// Whether a version entry is to be freed.
#[derive(Clone, Copy, Debug, PartialEq, Eq)]
pub(crate) enum Looseness {
    /// It is in use, and no chain has it.
    Loose,
    /// It stays.
    Kept,
    /// That wasn't seen.
    Unknown,
}

/// What there is to know of a version entry that is lent.
fn facts_lent(entry: &LentVersion) -> OlderFacts
    ensures { (columns : List Column) → IsSaid (older_said columns (entry_lent entry.now)) result }
{
    if entry.used == 1 {
        OlderFacts {
            used: true,
            key: entry.key,
            xid: entry.xid,
            next: entry.older,
        }
    } else {
        OlderFacts {
            used: false,
            key: 0,
            xid: 0,
            next: Place { page: 0, slot: 0 },
        }
    }
}

/// What there is to know of the version entry at a place. One page is read. It logs nothing, and takes no memory.
pub fn look_older<D: Disk, O: Origin>(
    store: &mut Store<D, O>,
    place: Place,
) -> Result<OlderFacts, StoreFault>
    requires going { store.old.stopped ≡ false }
    requires counted { place.page < store.old.now.counted }
    ensures tells { WhereSound O.first D.Disk (IfOk result (IsSaid ((area_in store.old.now).older place))) }
    ensures leaves { ReadsPages O.first D.Disk store.old store.new result }
    ensures refused { (e : ℕ) → WhereSound O.first D.Disk (IsDatabaseState store.old.now → IsAmong place (older_places (area_in store.old.now) e) → IfErr result (λ f. f ≡ Fault)) }
{
    a_version_entry_is_read_without_damage();
    match version(store, place) {
        Err(fault) => Err(fault),
        Ok(lent) => Ok(facts_lent(&lent)),
    }
}

/// Whether two places are one.
fn is_place(a: Place, b: Place) -> bool
    ensures yes { result ≡ true → a ≡ b }
    ensures no { result ≡ false → a ≡ b → ⊥ }
{
    a.page == b.page && a.slot == b.slot
}

/// Whether the chain that begins at a place, behind a slot, has the version entry at another, as far as reach goes: so many version entries are
/// read, at most.
fn chain_has<D: Disk, O: Origin>(
    store: &mut Store<D, O>,
    from: Place,
    sought: Place,
) -> Result<ChainFound, StoreFault>
    requires going { store.old.stopped ≡ false }
    ensures tells { (e : ℕ) (key : ℤ) → WhereSound O.first D.Disk (IsDatabaseState store.old.now
        → Leads older_bound (area_in store.old.now).older (IsKeptFor (area_in store.old.now) e key) from → IfOk result (HasAlong (area_in store.old.now) from sought)) }
    ensures leaves { ReadsPages O.first D.Disk store.old store.new result }
    ensures refused { (e : ℕ) (key : ℤ) → WhereSound O.first D.Disk (IsDatabaseState store.old.now
        → Leads older_bound (area_in store.old.now).older (IsKeptFor (area_in store.old.now) e key) from → IfErr result (λ f. f ≡ Fault)) }
{
    a_place_of_a_table_fits();
    store.rests();
    let mut at = from;
    let mut left = REACH;
    while left != 0 {
        if at.page == 0 {
            return Ok(ChainFound::Missing);
        }
        if at.page >= store.counted() {
            return Ok(ChainFound::Missing);
        }
        if is_place(at, sought) {
            return Ok(ChainFound::Found);
        }
        match look_older(store, at) {
            Err(fault) => return Err(fault),
            Ok(facts) => at = facts.next,
        }
        left -= 1;
    }
    Ok(if at.page == 0 {
        ChainFound::Missing
    } else {
        ChainFound::Beyond
    })
}

/// Whether the chain of the row of a key has the version entry at a place, as far as reach goes.
fn row_has<D: Disk, O: Origin>(
    store: &mut Store<D, O>,
    entry: u8,
    key: i64,
    place: Place,
) -> Result<ChainFound, StoreFault>
    requires going { store.old.stopped ≡ false }
    requires there { entry < 32 }
    ensures tells { WhereSound O.first D.Disk (IsDatabaseState store.old.now → IfOk result (IsHadBy entry key place store.old.now)) }
    ensures leaves { ReadsPages O.first D.Disk store.old store.new result }
    ensures refused { WhereSound O.first D.Disk (IsDatabaseState store.old.now → IfErr result (λ f. f ≡ Fault)) }
{
    a_bucket_search_meets_no_damage();
    match find(store, entry, key) {
        Err(fault) => Err(fault),
        Ok(None) => Ok(ChainFound::Missing),
        Ok(Some(at)) => match behind_at(store, at) {
            Err(fault) => Err(fault),
            Ok(older) => chain_has(store, older, place),
        },
    }
}

/// The key of a version entry, by what is known of it, where it is in use, its row isn't locked, and its version isn't of a commit that somebody may
/// not see yet: most versions that an old snapshot keeps are, and in their row's chain.
fn open_key(meta: &Meta, locks: &KeyLocks, low: Xid, entry: u8, facts: &OlderFacts) -> OpenKey
    ensures { (s : State) (q : PlaceOf) → meta.now.tables ≡ s.tables → IsSaid ((area_in s).older q) facts.now → IsOpenKey locks.now low entry s q result }
{
    if !facts.used || locks.locked(entry, Key::new(facts.key)).is_some() {
        return OpenKey::Closed;
    }
    if waits(meta, low, facts.xid) {
        return OpenKey::Waits;
    }
    OpenKey::Open(facts.key)
}

/// The same of a store.
fn open_at<D: Disk, O: Origin>(
    store: &mut Store<D, O>,
    locks: &KeyLocks,
    low: Xid,
    entry: u8,
    place: Place,
) -> Result<OpenKey, StoreFault>
    requires going { store.old.stopped ≡ false }
    requires counted { place.page < store.old.now.counted }
    ensures tells { WhereSound O.first D.Disk (IfOk result (IsOpenKey locks.now low entry store.old.now place)) }
    ensures leaves { ReadsPages O.first D.Disk store.old store.new result }
    ensures refused { (e : ℕ) → WhereSound O.first D.Disk (IsDatabaseState store.old.now → IsAmong place (older_places (area_in store.old.now) e) → IfErr result (λ f. f ≡ Fault)) }
{
    match look_older(store, place) {
        Err(fault) => Err(fault),
        Ok(facts) => Ok(open_key(store.meta(), locks, low, entry, &facts)),
    }
}

/// What is known of a version entry by what was found along its row's chain.
fn known_by(found: ChainFound) -> Looseness
    ensures { result ≡ looseness_by found }
{
    match found {
        ChainFound::Found => Looseness::Kept,
        ChainFound::Missing => Looseness::Loose,
        ChainFound::Beyond => Looseness::Unknown,
    }
}

/// Whether the version entry at a place of a table is in use and in no chain, and its row isn't locked; where it is of a commit that somebody may
/// not see yet, or its row's chain goes on beyond reach, that isn't known.
fn loose_at<D: Disk, O: Origin>(
    store: &mut Store<D, O>,
    locks: &KeyLocks,
    low: Xid,
    entry: u8,
    place: Place,
) -> Result<Looseness, StoreFault>
    requires going { store.old.stopped ≡ false }
    requires counted { place.page < store.old.now.counted }
    requires there { entry < 32 }
    ensures chooses { WhereSound O.first D.Disk (IsDatabaseState store.old.now → IsAmong place (older_places (area_in store.old.now) entry)
        → IfOk result (LooseAt low locks.now entry place store.old.now)) }
    ensures leaves { ReadsPages O.first D.Disk store.old store.new result }
    ensures refused { WhereSound O.first D.Disk (IsDatabaseState store.old.now → IsAmong place (older_places (area_in store.old.now) entry) → IfErr result (λ f. f ≡ Fault)) }
{
    match open_at(store, locks, low, entry, place) {
        Err(fault) => Err(fault),
        Ok(OpenKey::Closed) => Ok(Looseness::Kept),
        Ok(OpenKey::Waits) => Ok(Looseness::Unknown),
        Ok(OpenKey::Open(key)) => match row_has(store, entry, key, place) {
            Err(fault) => Err(fault),
            Ok(has) => Ok(known_by(has)),
        },
    }
}

/// Frees the version entry at a place of a live table where no chain has it and its row isn't locked, by one record, which isn't hardened yet. One
/// of a commit that somebody may not see yet stays, and no row is looked at for it. Else the row is found by its key, along the chain of its
/// bucket, and at most 256 version entries of its chain are read: where it goes on, and the version entry isn't among these, that stays. In both
/// cases it answers [`Step::Beyond`]. It takes no memory.
pub fn free_older_at<D: Disk, O: Origin>(
    store: &mut Store<D, O>,
    locks: &KeyLocks,
    low: Xid,
    entry: u8,
    place: Place,
) -> Result<Step, StoreFault>
    requires room { HasRoomForOne 0 0 store.old }
    requires there { (entry < 32) × (place.page < store.old.now.counted) }
    // It logs one record, or reads pages.
    ensures turns { Turns O.first D.Disk store.old store.new result }
    ensures numbers { IfOk result (λ t. store.new.next ≡ next_stepped t store.old.next) }
    // No transaction and no item is added to the tables, and as many pages are counted.
    ensures left { OnOk result (AddsItems 0 store.old.meta store.new.meta) }
    ensures counted { OnOk result (store.new.now.counted ≡ store.old.now.counted) }
    // The version entry is free; or it isn't in use, or a chain has it, unless its row is locked; or it is of a commit that somebody may not see yet,
    // or its row's chain goes on beyond reach, and that isn't seen.
    ensures cleans { WhereSound O.first D.Disk (IsDatabaseState store.old.now → IsAmong place (older_places (area_in store.old.now) entry)
        → is_live ((area_in store.old.now).title entry) ≡ true → IfOk result (FreesAt low locks.now entry place store.old.now store.new.now)) }
    // It is refused for no other cause than that the disk failed.
    ensures refused { WhereSound O.first D.Disk (IsDatabaseState store.old.now → IsAmong place (older_places (area_in store.old.now) entry)
        → is_live ((area_in store.old.now).title entry) ≡ true → IfErr result (λ f. f ≡ Fault)) }
{
    a_turn_goes_on::<D, Looseness, Step>();
    a_turn_goes_on::<D, (), Step>();
    room_is_still_there::<D>();
    match loose_at(store, locks, low, entry, place) {
        Err(fault) => Err(fault),
        Ok(Looseness::Kept) => Ok(Step::Nothing),
        Ok(Looseness::Unknown) => Ok(Step::Beyond),
        Ok(Looseness::Loose) => match free_loose(store, place) {
            Err(fault) => Err(fault),
            Ok(()) => Ok(Step::Cleaned),
        },
    }
}
