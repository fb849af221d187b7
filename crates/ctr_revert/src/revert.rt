// One record takes the head from a row.
ghost use Rattle.std.specs.Prelude.{◌≡◌, ◌≤◌, ◌<◌, ◌+◌, true, false, Ok, ⊤, IfOk, OnOk, length, take, ℕ};
ghost use Rattle.ctr_pvs.specs.base_growing_TheConstants.{MOST_PAGES};
ghost use Rattle.ctr_pvs.specs.base_Base.{WhereSound};
ghost use Rattle.ctr_pvs.specs.store_Parts.{MayCount};
ghost use Rattle.ctr_pvs.specs.store_Store.{View, LeavesPage};
ghost use Rattle.ctr_page.specs.declared.table.TheConstants.{PAGE_SIZE};
ghost use Rattle.ctr_page.specs.Places.{slot_size as size_of_slot, start_of as start_place};
ghost use Rattle.ctr_page.specs.Columns.{kinds_width as width_of_kinds};
ghost use Rattle.ctr_pvs.specs.area_Changes.{with_slot};
ghost use Rattle.ctr_pvs.specs.walk_Tables.{kinds_said};
ghost use Rattle.ctr_pvs.specs.walk_OneRecord.{HasRoomForOne, LogsOne};
ghost use Rattle.ctr_pvs.specs.walk_Damage.{damage_told, searched, EndsOnPage};
ghost use Rattle.ctr_pvs.specs.record_effects_States.{pages_in, area_in};
ghost use Rattle.ctr_pvs.specs.area_Sound.{IsUsedSlot};
ghost use Rattle.ctr_pvs.specs.record_laws_Owed.{Reverting, FitsReverting, OwedByRevert};
ghost use Rattle.ctr_pvs.specs.actions_Sites.{site_of};
ghost use Rattle.ctr_pvs.specs.actions_Actions.{Reverts, site_after};
ghost use Rattle.ctr_pvs.specs.record_effects_Standing.{HasSoundArea};
ghost use Rattle.ctr_revert.specs.Taking.{TakesHead};
ghost use Rattle.ctr_revert.specs.Reverting.{without_head, KeepsKey, lost_record, SlotSaidFrom, EntrySaidFrom, BytesSaid, EndsRow, LiesThere, EndsReverting, RevertsRow};

use crate::slots::{FromSlot, SLOT_MOST, SlotLaid, blank_bytes, from_entry, from_slot, or_blank};
use ctr_disk::{Disk, StoreFault};
use ctr_page::{BadPage, PageKind, Place, kinds_width, slot_size};
use ctr_pvs::{
    Origin, SearchFault, Store, TableOf, a_logged_record_is_its_action, a_revert_leaves_its_entry,
    a_revert_takes_the_head, a_slot_is_laid, check_versions_there, found_on, log_on_page,
    over_place, pages_are_in_bounds, row_in, table_on, tell, version_in,
};
use ctr_rec::Record;
use ctr_types::Xid;

/// The bytes of a slot.
type SlotBytes = [u8; SLOT_MOST];

/// What the slot at a place of a page of rows says that is to lose its head.
fn slot_on(table: &TableOf, counted: u32, place: Place, page: &[u8]) -> Result<FromSlot, BadPage>
    requires some { 0 < counted }
    requires few { table.now.count ≤ 7 }
    requires whole { length page.now ≡ PAGE_SIZE }
    ensures said { SlotSaidFrom counted table.now place page.now result }
    ensures inside { OnOk result (start_place (size_of_slot (width_of_kinds (kinds_said table.now))) place.slot + size_of_slot (width_of_kinds (kinds_said table.now)) ≤ PAGE_SIZE) }
{
    let slot = row_in(table, counted, place.slot, page)?;
    Ok(from_slot(kinds_width(table.kinds()), slot))
}

/// The same of a page of a store.
fn look_slot<D: Disk, O: Origin>(
    store: &mut Store<D, O>,
    table: &TableOf,
    counted: u32,
    place: Place,
) -> Result<FromSlot, SearchFault>
    requires going { store.old.stopped ≡ false }
    requires some { 0 < counted }
    requires there { place.page < MOST_PAGES }
    requires few { table.now.count ≤ 7 }
    ensures said { WhereSound O.first D.Disk (IfOk (searched result) (EndsOnPage place.page (SlotSaidFrom counted table.now place (pages_in store.old.now place.page)))) }
    ensures inside { OnOk result (start_place (size_of_slot (width_of_kinds (kinds_said table.now))) place.slot + size_of_slot (width_of_kinds (kinds_said table.now)) ≤ PAGE_SIZE) }
    ensures leaves { LeavesPage O.first D.Disk store.old store.new (searched result) }
{
    let page = store.page(place.page)?;
    found_on(place.page, slot_on(table, counted, place, page))
}

/// The bytes of the slot whose head is that of the version entry behind it, by the page of this; or none where it isn't used.
fn behind_on(
    table: &TableOf,
    counted: u32,
    from: &FromSlot,
    page: &[u8],
) -> Result<Option<SlotBytes>, BadPage>
    requires some { 0 < counted }
    requires few { table.now.count ≤ 7 }
    requires whole { length page.now ≡ PAGE_SIZE }
    ensures { EntrySaidFrom counted table.now from.now page.now result }
{
    check_versions_there(table.entry, counted, from.older.page, page)?;
    let entry = version_in(table, counted, from.older.slot, page)?;
    Ok(from_entry(kinds_width(table.kinds()), from.used, from.key, entry))
}

/// The same of a page of a store.
fn look_behind<D: Disk, O: Origin>(
    store: &mut Store<D, O>,
    table: &TableOf,
    counted: u32,
    from: &FromSlot,
) -> Result<Option<SlotBytes>, SearchFault>
    requires going { store.old.stopped ≡ false }
    requires some { MayCount counted }
    requires few { table.now.count ≤ 7 }
    ensures said { WhereSound O.first D.Disk (IfOk (searched result) (EndsOnPage from.now.older.page (EntrySaidFrom counted table.now from.now (pages_in store.old.now from.now.older.page)))) }
    ensures leaves { LeavesPage O.first D.Disk store.old store.new (searched result) }
{
    let at = from.older.page;
    let page = store.page(at)?;
    found_on(at, behind_on(table, counted, from, page))
}

/// Lays the bytes of a slot, of which so many count, over the one whose head a transaction loses.
fn lay<D: Disk, O: Origin>(
    store: &mut Store<D, O>,
    x: Xid,
    place: Place,
    w: usize,
    bytes: &SlotBytes,
) -> Result<(), StoreFault>
    requires room { HasRoomForOne 0 0 store.old }
    requires counted { place.page < store.old.now.counted }
    requires narrow { w ≤ 2048 }
    requires inside { (size_of_slot w ≤ 2072) × (start_place (size_of_slot w) place.slot + size_of_slot w ≤ PAGE_SIZE) }
    ensures one { LogsOne O.first D.Disk (lost_record x place w (take (size_of_slot w) bytes.now)) store.old store.new result }
    ensures whole { WhereSound O.first D.Disk (OnOk result (length (pages_in store.old.now place.page) ≡ PAGE_SIZE)) }
{
    store.counts_pages();
    let size = slot_size(w);
    let rec = Record::Revert {
        x,
        overlay: over_place(place, size, &bytes[..size]),
    };
    log_on_page(store, place.page, &rec)
}

/// The bytes of a slot without its head, where it says this: by its previous version, or by the version entry behind it.
fn bytes_behind<D: Disk, O: Origin>(
    store: &mut Store<D, O>,
    table: &TableOf,
    counted: u32,
    from: &FromSlot,
) -> Result<SlotBytes, SearchFault>
    requires going { store.old.stopped ≡ false }
    requires some { MayCount counted }
    requires few { table.now.count ≤ 7 }
    ensures ends { WhereSound O.first D.Disk (IfOk (searched result) (BytesSaid counted (pages_in store.old.now) table.now from.now)) }
    // It goes on from what the reading of a page left.
    ensures leaves { (a : View D) → LeavesPage {T = ⊤} O.first D.Disk a store.old (Ok tt) → LeavesPage O.first D.Disk a store.new (searched result) }
{
    let w = kinds_width(table.kinds());
    if let Some(bytes) = from.made {
        return Ok(bytes);
    }
    if from.older.page == 0 {
        return Ok(blank_bytes(w));
    }
    let made = look_behind(store, table, counted, from)?;
    Ok(or_blank(w, made))
}

/// What is laid over the slot at a place, that it loses its head; or the first damage on the way.
fn search_row<D: Disk, O: Origin>(
    store: &mut Store<D, O>,
    place: Place,
) -> Result<SlotLaid, SearchFault>
    requires going { store.old.stopped ≡ false }
    requires counted { place.page < store.old.now.counted }
    ensures ends { WhereSound O.first D.Disk (IfOk (searched result) (EndsRow store.old.now.counted (pages_in store.old.now) place)) }
    ensures fits { IfOk result (LiesThere place.slot) }
    ensures leaves { LeavesPage O.first D.Disk store.old store.new (searched result) }
{
    store.counts_pages();
    let counted = store.counted();
    let table = table_on(store, PageKind::ROWS, place.page)?;
    let from = look_slot(store, &table, counted, place)?;
    let bytes = bytes_behind(store, &table, counted, &from)?;
    Ok(SlotLaid {
        x: from.x,
        w: kinds_width(table.kinds()),
        bytes,
    })
}

/// Takes the head from a row, by one record, which isn't hardened yet: the next version of its chain becomes the head, and where there is
/// none the slot is free. The transaction has a head less. The version entry that gives its version stays used, in no chain. The slot, its
/// table and the version entry are checked as they are read. It takes no memory.
pub fn revert_row<D: Disk, O: Origin>(
    store: &mut Store<D, O>,
    place: Place,
) -> Result<(), StoreFault>
    requires room { HasRoomForOne 0 0 store.old }
    requires counted { place.page < store.old.now.counted }
    // Damage is told where it stands in the file of pages.
    ensures ends { WhereSound O.first D.Disk (EndsReverting (damage_told D.Disk store.new) place store.old store.new result) }
    ensures one { RevertsRow O.first D.Disk place store.old store.new result }
    // The slot is without its head, and nothing else in the pages changes.
    ensures reverted { WhereSound O.first D.Disk (KeepsKey (area_in store.old.now) place → ((area_in store.old.now).slot place).used ≡ true
        → OnOk result (area_in store.new.now ≡ with_slot place (without_head (area_in store.old.now).older ((area_in store.old.now).slot place)) (area_in store.old.now))) }
    // In a sound state, whosever the head is, it is reverted in the way that fits the slot, and nothing else in the pages and the tables changes.
    ensures leaves { WhereSound O.first D.Disk (HasSoundArea store.old.now
        → (x e : ℕ) (way : Reverting) → IsUsedSlot (area_in store.old.now) e place → FitsReverting way ((area_in store.old.now).slot place)
        → OnOk result (site_of store.new.now ≡ site_after x (Reverts e place way) (site_of store.old.now))) }
    // There its chain has lost its head, which may go, and nothing else is shown than before.
    ensures takes { WhereSound O.first D.Disk (HasSoundArea store.old.now
        → (e : ℕ) (way : Reverting) → OwedByRevert store.old.now.tables (area_in store.old.now) e place way → OnOk result (TakesHead e place store.old.now store.new.now)) }
{
    a_slot_is_laid();
    a_logged_record_is_its_action();
    pages_are_in_bounds();
    a_revert_takes_the_head();
    a_revert_leaves_its_entry();
    let found = search_row(store, place);
    let laid = tell(store, found)?;
    lay(store, laid.x, place, laid.w, &laid.bytes)
}
