// At a version entry.
ghost use Rattle.std.specs.Prelude.{◌≡◌, ◌≢◌, ◌<◌, ℕ, true, false, IfOk, IfErr};
ghost use Rattle.ctr_disk.specs.declared.fault.StoreFault.TheVariants.{Fault};
ghost use Rattle.ctr_walk.specs.base_Base.{WhereSound};
ghost use Rattle.ctr_area.specs.Chains.{older_places};
ghost use Rattle.ctr_area.specs.Images.{is_live as is_live_title};
ghost use Rattle.ctr_area.specs.Sound.{IsAmong};
ghost use Rattle.ctr_walk.specs.record_effects_States.{area_in};
ghost use Rattle.ctr_walk.specs.record_effects_Standing.{IsDatabaseState};
ghost use Rattle.ctr_actions.specs.Sites.{site_of};
ghost use Rattle.ctr_walk.specs.OneRecord.{HasRoomForOne};
ghost use Rattle.ctr_walk.specs.Damage.{ReadsPages};
ghost use Rattle.ctr_emptying.specs.cursor_Position.TheVariants.{Kept};
ghost use Rattle.ctr_emptying.specs.cursor_Standing.{IsPosition};
ghost use Rattle.ctr_cleaner.specs.Finding.{IsFreeRow, HasNothingAt};
ghost use Rattle.ctr_cleaner.specs.declared.done.MayEmpty.{MayEmpty};
ghost use Rattle.ctr_cleaner.specs.Turning.{heeding};
ghost use Rattle.ctr_cleaner.specs.Parts.{Tries, DidAt, OpenOlderSaid};

use crate::done::{Done, stepped};
use crate::going::{a_part_reads, a_step_is_a_part};
use crate::keys::is_open_key;
use crate::states::is_live;
use ctr_disk::{Disk, StoreFault};
use ctr_emptying::{free_older_at, look_older, room_is_still_there};
use ctr_locking::{TitleRead, title_at};
use ctr_locks::KeyLocks;
use ctr_model::Key;
use ctr_page::Place;
use ctr_types::Xid;
use ctr_walk::{Origin, Store};

/// Whether the version entry at a place is used, of a row that isn't locked, in an entry of its table's name.
fn is_open_older<D: Disk, O: Origin>(
    store: &mut Store<D, O>,
    locks: &KeyLocks,
    entry: u8,
    place: Place,
) -> Result<bool, StoreFault>
    requires going { store.old.stopped ≡ false }
    requires there { (entry < 32) × (place.page < store.old.now.counted) }
    ensures tells { WhereSound O.first D.Disk (((area_in store.old.now).title entry).state ≢ 0 → IfOk result (OpenOlderSaid locks.now entry place store.old.now)) }
    ensures leaves { ReadsPages O.first D.Disk store.old store.new result }
    ensures refused { WhereSound O.first D.Disk (IsDatabaseState store.old.now → IsAmong place (older_places (area_in store.old.now) entry) → IfErr result (λ f. f ≡ Fault)) }
{
    let facts = match look_older(store, place) {
        Err(fault) => return Err(fault),
        Ok(facts) => facts,
    };
    if !facts.used {
        return Ok(false);
    }
    is_open_key(store, locks, entry, Key::new(facts.key))
}

/// At a version entry of a live table: it is freed where no chain has it and its row isn't locked.
fn clean_older<D: Disk, O: Origin>(
    store: &mut Store<D, O>,
    locks: &KeyLocks,
    low: Xid,
    entry: u8,
    place: Place,
) -> Result<Done, StoreFault>
    requires room { HasRoomForOne 0 0 store.old }
    requires there { (entry < 32) × (place.page < store.old.now.counted) }
    ensures tries { Tries false O.first D.Disk store.old store.new result }
    ensures cleans { (spared : ℕ) (may : MayEmpty) → WhereSound O.first D.Disk (IsDatabaseState store.old.now → IsPosition (Kept entry place) (site_of store.old.now)
        → is_live_title ((area_in store.old.now).title entry) ≡ true → IfOk result (DidAt (heeding low locks.now spared may) (Kept entry place)
        (HasNothingAt (IsFreeRow locks.now store.old.now) low (Kept entry place) store.old.now) store.old.now store.new.now)) }
    ensures refused { WhereSound O.first D.Disk (IsDatabaseState store.old.now → IsPosition (Kept entry place) (site_of store.old.now)
        → is_live_title ((area_in store.old.now).title entry) ≡ true → IfErr result (λ f. f ≡ Fault)) }
{
    a_step_is_a_part::<D>();
    a_part_reads::<D, bool>();
    match is_open_older(store, locks, entry, place) {
        Err(fault) => Err(fault),
        Ok(false) => Ok(None),
        Ok(true) => stepped(free_older_at(store, locks, low, entry, place)),
    }
}

/// At a version entry: there is something to do in a live table alone.
pub(crate) fn clean_kept<D: Disk, O: Origin>(
    store: &mut Store<D, O>,
    locks: &KeyLocks,
    low: Xid,
    entry: u8,
    place: Place,
) -> Result<Done, StoreFault>
    requires room { HasRoomForOne 0 0 store.old }
    requires there { (entry < 32) × (place.page < store.old.now.counted) }
    ensures tries { Tries false O.first D.Disk store.old store.new result }
    ensures cleans { (spared : ℕ) (may : MayEmpty) → WhereSound O.first D.Disk (IsDatabaseState store.old.now → IsPosition (Kept entry place) (site_of store.old.now)
        → IfOk result (DidAt (heeding low locks.now spared may) (Kept entry place)
        (HasNothingAt (IsFreeRow locks.now store.old.now) low (Kept entry place) store.old.now) store.old.now store.new.now)) }
    ensures refused { WhereSound O.first D.Disk (IsDatabaseState store.old.now → IsPosition (Kept entry place) (site_of store.old.now) → IfErr result (λ f. f ≡ Fault)) }
{
    a_part_reads::<D, TitleRead>();
    room_is_still_there::<D>();
    match title_at(store, entry) {
        Err(fault) => Err(fault),
        Ok(title) => {
            if is_live(&title) {
                clean_older(store, locks, low, entry, place)
            } else {
                Ok(None)
            }
        }
    }
}
