// In a table that is dead.
ghost use Rattle.std.specs.Prelude.{◌≡◌, ◌<◌, true, false, IfOk, IfErr};
ghost use Rattle.ctr_disk.specs.declared.fault.StoreFault.TheVariants.{Fault};
ghost use Rattle.ctr_walk.specs.base_Base.{WhereSound};
ghost use Rattle.ctr_walk.specs.record_effects_States.{area_in};
ghost use Rattle.ctr_walk.specs.record_effects_Standing.{IsDatabaseState};
ghost use Rattle.ctr_walk.specs.OneRecord.{HasRoomForOne};
ghost use Rattle.ctr_emptying.specs.cursor_Position.TheVariants.{Entry};
ghost use Rattle.ctr_cleaner.specs.Finding.{HasNothingInDead};
ghost use Rattle.ctr_cleaner.specs.Turning.{Heeded, MayAll, HasRoomFor};
ghost use Rattle.ctr_cleaner.specs.Parts.{Tries, DidAt, HasNoRowsToGo, HasNoPageToGo, HasNoEntryToFree};

use crate::done::{Done, MayEmpty, freed, unlinked};
use crate::going::{a_part_goes_on, a_step_is_a_part};
use ctr_disk::{Disk, StoreFault};
use ctr_emptying::{free_entry_at, room_is_still_there, unlink_rows_at, unlink_versions_at};
use ctr_walk::{Origin, Store};

/// The buckets of a table.
const BUCKETS: u8 = 8;

/// The first page leaves the first bucket whose first page may leave it.
fn unlink_rows<D: Disk, O: Origin>(store: &mut Store<D, O>, entry: u8) -> Result<Done, StoreFault>
    requires room { HasRoomForOne 0 1 store.old }
    requires there { entry < 32 }
    ensures tries { Tries true O.first D.Disk store.old store.new result }
    ensures cleans { (h : Heeded) → WhereSound O.first D.Disk (IsDatabaseState store.old.now → ((area_in store.old.now).title entry).state ≡ 2
        → IfOk result (DidAt h (Entry entry) (HasNoRowsToGo entry store.old.now) store.old.now store.new.now)) }
    ensures refused { WhereSound O.first D.Disk (IsDatabaseState store.old.now → ((area_in store.old.now).title entry).state ≡ 2 → IfErr result (λ f. f ≡ Fault)) }
{
    a_step_is_a_part::<D>();
    a_part_goes_on::<D>();
    store.rests();
    for bucket in 0..BUCKETS {
        match unlinked(unlink_rows_at(store, entry, bucket)) {
            Err(fault) => return Err(fault),
            Ok(None) => {}
            Ok(Some(dealt)) => return Ok(Some(dealt)),
        }
    }
    Ok(None)
}

/// A page leaves its chain: of rows, or once there is none of versions.
fn unlink_any<D: Disk, O: Origin>(store: &mut Store<D, O>, entry: u8) -> Result<Done, StoreFault>
    requires room { HasRoomForOne 0 1 store.old }
    requires there { entry < 32 }
    ensures tries { Tries true O.first D.Disk store.old store.new result }
    ensures cleans { (h : Heeded) → WhereSound O.first D.Disk (IsDatabaseState store.old.now → ((area_in store.old.now).title entry).state ≡ 2
        → IfOk result (DidAt h (Entry entry) (HasNoPageToGo entry store.old.now) store.old.now store.new.now)) }
    ensures refused { WhereSound O.first D.Disk (IsDatabaseState store.old.now → ((area_in store.old.now).title entry).state ≡ 2 → IfErr result (λ f. f ≡ Fault)) }
{
    a_step_is_a_part::<D>();
    a_part_goes_on::<D>();
    match unlink_rows(store, entry) {
        Err(fault) => Err(fault),
        Ok(None) => unlinked(unlink_versions_at(store, entry)),
        Ok(Some(dealt)) => Ok(Some(dealt)),
    }
}

/// The entry of a table that is dead is freed, where it may be.
fn free_where_it_may<D: Disk, O: Origin>(
    store: &mut Store<D, O>,
    entry: u8,
    may_free: bool,
) -> Result<Done, StoreFault>
    requires room { HasRoomForOne 0 0 store.old }
    requires there { entry < 32 }
    ensures tries { Tries false O.first D.Disk store.old store.new result }
    ensures cleans { (h : Heeded) → h.may.free ≡ may_free → WhereSound O.first D.Disk (IsDatabaseState store.old.now
        → IfOk result (DidAt h (Entry entry) (may_free ≡ true → HasNoEntryToFree entry store.old.now) store.old.now store.new.now)) }
    ensures refused { WhereSound O.first D.Disk (IsDatabaseState store.old.now → IfErr result (λ f. f ≡ Fault)) }
{
    a_step_is_a_part::<D>();
    a_part_goes_on::<D>();
    store.rests();
    if may_free {
        freed(free_entry_at(store, entry))
    } else {
        Ok(None)
    }
}

/// In a table that is dead: a page leaves its chain; or once there is none, or none may leave, the entry is freed, where it may be.
fn unlink_or_free<D: Disk, O: Origin>(
    store: &mut Store<D, O>,
    entry: u8,
    may_free: bool,
) -> Result<Done, StoreFault>
    requires room { HasRoomForOne 0 1 store.old }
    requires there { entry < 32 }
    ensures tries { Tries true O.first D.Disk store.old store.new result }
    ensures cleans { (h : Heeded) → h.may.free ≡ may_free → WhereSound O.first D.Disk (IsDatabaseState store.old.now → ((area_in store.old.now).title entry).state ≡ 2
        → IfOk result (DidAt h (Entry entry) (may_free ≡ true → HasNothingInDead entry store.old.now) store.old.now store.new.now)) }
    ensures refused { WhereSound O.first D.Disk (IsDatabaseState store.old.now → ((area_in store.old.now).title entry).state ≡ 2 → IfErr result (λ f. f ≡ Fault)) }
{
    a_step_is_a_part::<D>();
    a_part_goes_on::<D>();
    room_is_still_there::<D>();
    match unlink_any(store, entry) {
        Err(fault) => Err(fault),
        Ok(None) => free_where_it_may(store, entry, may_free),
        Ok(Some(dealt)) => Ok(Some(dealt)),
    }
}

/// The same, where a page may leave its chain; else the entry is freed, where it may be.
pub(crate) fn empty_entry<D: Disk, O: Origin>(
    store: &mut Store<D, O>,
    entry: u8,
    may: MayEmpty,
) -> Result<Done, StoreFault>
    requires room { HasRoomFor may.unlink store.old }
    requires there { entry < 32 }
    ensures tries { Tries may.unlink O.first D.Disk store.old store.new result }
    ensures cleans { (h : Heeded) → h.may ≡ may → WhereSound O.first D.Disk (IsDatabaseState store.old.now → ((area_in store.old.now).title entry).state ≡ 2
        → IfOk result (DidAt h (Entry entry) (MayAll may → HasNothingInDead entry store.old.now) store.old.now store.new.now)) }
    ensures refused { WhereSound O.first D.Disk (IsDatabaseState store.old.now → ((area_in store.old.now).title entry).state ≡ 2 → IfErr result (λ f. f ≡ Fault)) }
{
    a_step_is_a_part::<D>();
    a_part_goes_on::<D>();
    if may.unlink {
        unlink_or_free(store, entry, may.free)
    } else {
        free_where_it_may(store, entry, may.free)
    }
}
