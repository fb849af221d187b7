// The rows of the slots of a page.
ghost use Rattle.std.specs.Prelude.{◌≡◌, ◌≤◌, ◌<◌, ℕ, ⊤, false, Ok, IfErr, IfOk};
ghost use Rattle.ctr_walk.specs.store_Store.{View, LeavesPage};
ghost use Rattle.ctr_base.specs.Base.{WhereSound};
ghost use Rattle.ctr_area.specs.Chains.{slot_places, places_on};
ghost use Rattle.ctr_area.specs.Sound.{IsAmong};
ghost use Rattle.ctr_page.specs.declared.checks.Chain.{Chain as ChainOf};
ghost use Rattle.ctr_walk.specs.record_effects_States.{pages_in, area_in};
ghost use Rattle.ctr_walk.specs.record_effects_Standing.{IsDatabaseState};
ghost use Rattle.ctr_walk.specs.Damage.{ReadsPages};
ghost use Rattle.ctr_views.specs.pvs_Table.{TableSaid, TableFits};
ghost use Rattle.ctr_reading.specs.Reading.{as_told, sight_sees, IsDiskOrMemory};
ghost use Rattle.ctr_reading.specs.Gathering.{gathered_at, gathered, ArePageSlots, Gathers, IsBucketPage};

use crate::gathered::Gathered;
use crate::pages::PageSlots;
use crate::sight::Sight;
use crate::slots::key_at;
use ctr_base::Origin;
use ctr_disk::Disk;
use ctr_page::Place;
use ctr_undamaged::a_row_is_read_without_damage;
use ctr_views::{ReadRefusal, visible_of};
use ctr_walk::{Store, TableOf};
use std::alloc::Global;

/// Gathers the row that is seen at a used slot of a table, where one is.
fn gather<D: Disk, O: Origin>(
    alloc: Global,
    store: &mut Store<D, O>,
    sight: &Sight,
    table: &TableOf,
    place: Place,
    rows: &mut Gathered,
) -> Result<(), ReadRefusal>
    requires going { store.old.stopped ≡ false }
    requires counted { place.page < store.old.now.counted }
    requires few { table.now.count ≤ 7 }
    ensures gathers { WhereSound O.first D.Disk (TableSaid 1 store.old.now.counted (pages_in store.old.now) place.page (Ok table.now)
        → IfOk (as_told result) (Gathers (gathered_at (sight_sees store.old.now.tables sight.now) (area_in store.old.now) place rows.old) rows.new)) }
    ensures refused { (e : ℕ) → WhereSound O.first D.Disk (IsDatabaseState store.old.now → IsAmong place (slot_places (area_in store.old.now) e)
        → TableSaid 1 store.old.now.counted (pages_in store.old.now) place.page (Ok table.now) → IfErr result IsDiskOrMemory) }
    ensures leaves { ReadsPages O.first D.Disk store.old store.new (as_told result) }
{
    a_row_is_read_without_damage();
    let key = match key_at(store, table, place) {
        Err(fault) => return Err(ReadRefusal::Store(fault)),
        Ok(key) => key,
    };
    let Some(key) = key else {
        return Ok(());
    };
    let row = match visible_of(alloc, store, table, place, sight.snapshot, sight.me) {
        Err(refusal) => return Err(refusal),
        Ok(row) => row,
    };
    match row {
        None => Ok(()),
        Some(row) => match rows.put(key, row) {
            Err(_) => Err(ReadRefusal::OutOfMemory),
            Ok(()) => Ok(()),
        },
    }
}

/// Gathers those of all slots of a page.
pub(crate) fn gather_slots<D: Disk, O: Origin>(
    alloc: Global,
    store: &mut Store<D, O>,
    sight: &Sight,
    slots: &PageSlots,
    rows: &mut Gathered,
) -> Result<(), ReadRefusal>
    requires going { store.old.stopped ≡ false }
    requires counted { slots.now.page < store.old.now.counted }
    requires fits { TableFits slots.now.table }
    ensures gathers { WhereSound O.first D.Disk (ArePageSlots store.old.now slots.now
        → IfOk (as_told result) (Gathers (gathered (sight_sees store.old.now.tables sight.now) (area_in store.old.now) (places_on slots.now.page 0 slots.now.count) rows.old) rows.new)) }
    ensures refused { (chain : ChainOf) → WhereSound O.first D.Disk (ArePageSlots store.old.now slots.now → IsBucketPage chain slots.now.page store.old.now → IfErr result IsDiskOrMemory) }
    // It goes on from pages that were read.
    ensures leaves { (a : View D) → LeavesPage {T = ⊤} O.first D.Disk a store.old (Ok tt) → ReadsPages O.first D.Disk a store.new (as_told result) }
{
    let page = slots.page;
    for slot in 0..slots.count {
        match gather(
            alloc,
            store,
            sight,
            &slots.table,
            Place { page, slot },
            rows,
        ) {
            Err(refusal) => return Err(refusal),
            Ok(()) => {}
        }
    }
    Ok(())
}
