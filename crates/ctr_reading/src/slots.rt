// Keys that stand in the slots of a page.
ghost use Rattle.std.specs.Prelude.{◌≡◌, ◌≤◌, ◌<◌, ℕ, false, Ok, Some, IfErr, IfOk, IfSome, length};
ghost use Rattle.ctr_base.specs.declared.growing.TheConstants.{MOST_PAGES};
ghost use Rattle.ctr_base.specs.Base.{WhereSound};
ghost use Rattle.ctr_disk.specs.declared.fault.StoreFault.TheVariants.{Fault};
ghost use Rattle.ctr_walk.specs.store_Store.{LeavesPage};
ghost use Rattle.ctr_page.specs.declared.table.TheConstants.{PAGE_SIZE};
ghost use Rattle.ctr_page.specs.Columns.{kinds_width as width_of_kinds};
ghost use Rattle.ctr_page.specs.Reading.{slot_at};
ghost use Rattle.ctr_walk.specs.Tables.{kinds_said};
ghost use Rattle.ctr_area.specs.Chains.{slot_places};
ghost use Rattle.ctr_area.specs.Sound.{IsAmong};
ghost use Rattle.ctr_walk.specs.record_effects_States.{pages_in, area_in};
ghost use Rattle.ctr_walk.specs.record_effects_Standing.{IsDatabaseState};
ghost use Rattle.ctr_walk.specs.Damage.{searched, damage_told, EndsOnPage, EndsTold, ReadsPages};
ghost use Rattle.ctr_views.specs.pvs_Table.{TableSaid};
ghost use Rattle.ctr_reading.specs.Gathering.{key_of_slot, key_there, KeySaid};

use ctr_base::Origin;
use ctr_disk::{Disk, StoreFault};
use ctr_model::Key;
use ctr_page::{BadPage, Place, RowSlot, Use, kinds_width, read_slot, room_for, slot_size};
use ctr_views::row_in;
use ctr_walk::{SearchFault, Store, TableOf, found_on, tell};

// The key that stands in a slot.
fn key_of(number: &i64) -> Key
    ensures { result ≡ number.now }
{
    Key::new(*number)
}

// The key of a slot, where it is used.
fn key_of_slot(slot: &RowSlot) -> Option<Key>
    ensures { result ≡ key_of_slot slot.now }
{
    if slot.used != Use::USED {
        return None;
    }
    Some(key_of(&slot.key))
}

/// The key of the slot of a number on a page of a table, where it lies there and is used. Whoever reads its row checks it.
fn used_key(table: &TableOf, number: u16, page: &[u8]) -> Option<Key>
    requires few { table.now.count ≤ 7 }
    requires whole { length page.now ≡ PAGE_SIZE }
    ensures { IfSome result (λ key. Some key ≡ key_of_slot (slot_at (width_of_kinds (kinds_said table.now)) number page.now)) }
{
    let w = kinds_width(table.kinds());
    if number as usize >= room_for(slot_size(w)) {
        return None;
    }
    let slot = read_slot(page, w, number);
    key_of_slot(&slot)
}

/// The key of the slot of a number on a page of a table, or none where the slot is free, which is checked.
fn key_in(table: &TableOf, counted: u32, number: u16, page: &[u8]) -> Result<Option<Key>, BadPage>
    requires some { 0 < counted }
    requires few { table.now.count ≤ 7 }
    requires whole { length page.now ≡ PAGE_SIZE }
    ensures { KeySaid counted table.now number page.now result }
{
    if let Some(key) = used_key(table, number, page) {
        return Ok(Some(key));
    }
    let slot = row_in(table, counted, number, page)?;
    Ok(key_of_slot(&slot))
}

/// The same of a page of a store.
fn key_on<D: Disk, O: Origin>(
    store: &mut Store<D, O>,
    table: &TableOf,
    counted: u32,
    place: Place,
) -> Result<Option<Key>, SearchFault>
    requires going { store.old.stopped ≡ false }
    requires some { 0 < counted }
    requires there { place.page < MOST_PAGES }
    requires few { table.now.count ≤ 7 }
    ensures said { WhereSound O.first D.Disk (IfOk (searched result) (EndsOnPage place.page (KeySaid counted table.now place.slot (pages_in store.old.now place.page)))) }
    ensures leaves { LeavesPage O.first D.Disk store.old store.new (searched result) }
{
    let page = store.page(place.page)?;
    found_on(place.page, key_in(table, counted, place.slot, page))
}

/// The key of the slot at a place of a page of a table, or none where the slot is free.
pub(crate) fn key_at<D: Disk, O: Origin>(
    store: &mut Store<D, O>,
    table: &TableOf,
    place: Place,
) -> Result<Option<Key>, StoreFault>
    requires going { store.old.stopped ≡ false }
    requires counted { place.page < store.old.now.counted }
    requires few { table.now.count ≤ 7 }
    ensures ends { WhereSound O.first D.Disk (EndsTold (damage_told D.Disk store.new) (EndsOnPage place.page (KeySaid store.old.now.counted table.now place.slot (pages_in store.old.now place.page))) result) }
    ensures tells { WhereSound O.first D.Disk (TableSaid 1 store.old.now.counted (pages_in store.old.now) place.page (Ok table.now)
        → IfOk result (λ key. key ≡ key_there ((area_in store.old.now).slot place))) }
    ensures refused { (e : ℕ) → WhereSound O.first D.Disk (IsDatabaseState store.old.now → IsAmong place (slot_places (area_in store.old.now) e)
        → TableSaid 1 store.old.now.counted (pages_in store.old.now) place.page (Ok table.now) → IfErr result (λ e. e ≡ Fault)) }
    ensures leaves { ReadsPages O.first D.Disk store.old store.new result }
{
    store.counts_pages();
    let counted = store.counted();
    let found = key_on(store, table, counted, place);
    tell(store, found)
}
