// A slot by its place, lent from its page.
ghost use Rattle.std.specs.Prelude.{◌≡◌, ◌≤◌, ◌<◌, ◌+◌, false, List, IfOk, length};
ghost use Rattle.ctr_types.specs.declared.value.Column.{Column};
ghost use Rattle.ctr_page.specs.ctr_value.Payload.{IsKeyed};
ghost use Rattle.std.specs.Borrow.{sem};
ghost use Rattle.std.specs.Option.{option_map};
ghost use Rattle.std.specs.Io.BufRead.{Rests};
ghost use Rattle.ctr_walk.specs.base_growing_TheConstants.{MOST_PAGES};
ghost use Rattle.ctr_walk.specs.base_Base.{WhereSound};
ghost use Rattle.ctr_walk.specs.store_Store.{LeavesPage};
ghost use Rattle.ctr_walk.specs.store_contracts_store_Store.{the_row as store-row};
ghost use Rattle.ctr_page.specs.declared.table.TheConstants.{PAGE_SIZE};
ghost use Rattle.ctr_page.specs.Places.{slot_size as size_of_slot, start_of as start_place};
ghost use Rattle.ctr_page.specs.Reading.{slot_at};
ghost use Rattle.ctr_page.specs.Making.{IsSlot};
ghost use Rattle.ctr_page.specs.Columns.{kinds_of};
ghost use Rattle.ctr_passed.specs.area_Reading.{columns_on};
ghost use Rattle.ctr_passed.specs.Logged.{IsSlotOf};
ghost use Rattle.ctr_walk.specs.Tables.{kinds_said};
ghost use Rattle.ctr_passed.specs.record_effects_States.{pages_in};
ghost use Rattle.ctr_walk.specs.Damage.{searched, EndsOnPage};
ghost use Rattle.ctr_pvs.specs.Reading.{row_check_at};
ghost use Rattle.ctr_pvs.specs.Slots.{part_lent, slot_lent, SlotLiesAt, IsSlotAt, RowWidthSaid, EndsRowAt, LendsSlot};

use crate::reading::row_in;
use crate::table::table_on;
use ctr_disk::{Disk, StoreFault};
use ctr_page::{
    BadPage, PageKind, Place, RowSlot, Tombstone, Use, Version, kinds_width, read_slot,
};
use ctr_rec::Bytes;
use ctr_types::Xid;
use ctr_walk::{Origin, SearchFault, Store, TableOf, found_on, tell};

/// A version in a slot, with its payload lent from its page.
#[derive(Clone, Copy, Debug)]
pub struct LentPart<'a> {
    /// Whose the version is.
    pub xid: Xid,
    /// 1 where the row is deleted, else 0.
    pub tombstone: u8,
    /// The row without its key, or zeros.
    pub payload: &'a [u8],
}

impl<'a> LentPart<'a> {
    /// The same as versions are made and read.
    pub fn version(&self) -> Version<'a>
        ensures { result ≡ part_lent self.now }
    {
        Version {
            xid: self.xid,
            tombstone: Tombstone::from_byte(self.tombstone),
            payload: Bytes::new(self.payload),
        }
    }
}

/// A slot as it is kept, with its payloads lent from its page.
#[derive(Clone, Copy, Debug)]
pub struct LentSlot<'a> {
    /// 1 where it is used, 0 where it is free.
    pub used: u8,
    pub key: i64,
    /// The newest version.
    pub head: LentPart<'a>,
    /// The one before it, where there is one and the slot has room for it.
    pub previous: Option<LentPart<'a>>,
    /// Where the next older version is kept.
    pub older: Place,
}

// A version that may be there, as versions are made and read.
fn version_of<'a>(part: &Option<LentPart<'a>>) -> Option<Version<'a>>
    ensures { result ≡ option_map part_lent part.now }
{
    match part {
        None => None,
        Some(part) => Some(part.version()),
    }
}

impl<'a> LentSlot<'a> {
    /// The same as slots are made and read.
    pub fn slot(&self) -> RowSlot<'a>
        ensures { result ≡ slot_lent self.now }
    {
        RowSlot {
            used: Use::from_byte(self.used),
            key: self.key,
            head: self.head.version(),
            previous: version_of(&self.previous),
            older: self.older,
        }
    }
}

// What is lent of a version.
fn lent_part(version: Version) -> LentPart
    ensures { part_lent result ≡ version.entry }
{
    let Version {
        xid,
        tombstone,
        payload,
    } = version;
    LentPart {
        xid,
        tombstone: tombstone.byte(),
        payload: payload.as_slice(),
    }
}

// What is lent of one that may be there.
fn lent_previous(version: Option<Version>) -> Option<LentPart>
    ensures { option_map part_lent result ≡ version.entry }
{
    match version {
        None => None,
        Some(version) => Some(lent_part(version)),
    }
}

// What is lent of a slot.
fn lent_slot(slot: RowSlot) -> LentSlot
    ensures { slot_lent result ≡ slot.entry }
{
    let RowSlot {
        used,
        key,
        head,
        previous,
        older,
    } = slot;
    LentSlot {
        used: used.byte(),
        key,
        head: lent_part(head),
        previous: lent_previous(previous),
        older,
    }
}

// The width of a table's rows, where the slot of a number on a page of its rows passes.
fn row_width_in(table: &TableOf, counted: u32, number: u16, page: &[u8]) -> Result<usize, BadPage>
    requires some { 0 < counted }
    requires few { table.now.count ≤ 7 }
    requires whole { length page.now ≡ PAGE_SIZE }
    ensures said { RowWidthSaid counted table.now number page.now result }
    ensures fits { IfOk result (λ w. (w ≤ 2048) × (start_place (size_of_slot w) number + size_of_slot w ≤ PAGE_SIZE)) }
    ensures made { (columns : List Column) → IsKeyed columns → kinds_of columns ≡ kinds_said table.now → IfOk result (λ w. IsSlotOf counted columns (slot_at w number page.now)) }
{
    match row_in(table, counted, number, page) {
        Ok(_) => Ok(kinds_width(table.kinds())),
        Err(bad) => Err(bad),
    }
}

// The same of a page of a store.
fn check_row<D: Disk, O: Origin>(
    store: &mut Store<D, O>,
    table: &TableOf,
    counted: u32,
    place: Place,
) -> Result<usize, SearchFault>
    requires going { store.old.stopped ≡ false }
    requires some { 0 < counted }
    requires there { place.page < MOST_PAGES }
    requires few { table.now.count ≤ 7 }
    ensures said { WhereSound O.first D.Disk (IfOk (searched result) (EndsOnPage place.page (RowWidthSaid counted table.now place.slot (pages_in store.old.now place.page)))) }
    ensures fits { IfOk result (SlotLiesAt place) }
    ensures made { WhereSound O.first D.Disk ((columns : List Column) → IsKeyed columns → kinds_of columns ≡ kinds_said table.now → IfOk result (λ w. IsSlotOf counted columns (slot_at w place.slot (pages_in store.old.now place.page)))) }
    ensures leaves { LeavesPage O.first D.Disk store.old store.new (searched result) }
{
    let page = store.page(place.page)?;
    found_on(place.page, row_width_in(table, counted, place.slot, page))
}

// The width of a table's rows, by the place of a slot that passes; or the first damage on the way to it.
fn row_width_at<D: Disk, O: Origin>(
    store: &mut Store<D, O>,
    place: Place,
) -> Result<usize, SearchFault>
    requires going { store.old.stopped ≡ false }
    requires counted { place.page < store.old.now.counted }
    ensures ends { WhereSound O.first D.Disk (IfOk (searched result) (EndsRowAt (row_check_at store.old.now.counted (pages_in store.old.now) place) (pages_in store.old.now) place)) }
    ensures fits { IfOk result (SlotLiesAt place) }
    ensures made { WhereSound O.first D.Disk (IfOk result (λ w. IsSlotOf store.old.now.counted (columns_on (pages_in store.old.now) place.page) (slot_at w place.slot (pages_in store.old.now place.page)))) }
    ensures leaves { LeavesPage O.first D.Disk store.old store.new (searched result) }
{
    store.counts_pages();
    let counted = store.counted();
    let table = table_on(store, PageKind::ROWS, place.page)?;
    check_row(store, &table, counted, place)
}

// The slot at a place where one of rows so wide lies.
fn lend_row<D: Disk, O: Origin>(
    store: &mut Store<D, O>,
    place: Place,
    w: usize,
) -> Result<LentSlot<'_>, StoreFault>
    requires going { store.old.stopped ≡ false }
    requires there { place.page < MOST_PAGES }
    requires width { w ≤ 2048 }
    requires inside { start_place (size_of_slot w) place.slot + size_of_slot w ≤ PAGE_SIZE }
    ensures said { WhereSound O.first D.Disk (IfOk result (λ l. slot_lent l ≡ slot_at w place.slot (pages_in store.old.now place.page))) }
    ensures fits { IfOk result (λ l. IsSlot (length l.head.payload.now) (slot_lent l)) }
    ensures wide { IfOk result (λ l. length l.head.payload.now ≡ w) }
    ensures* after { sem 𝓛 (Rests (store-row D.row O.row D.Disk O.Origin) store.entry (λ new. LeavesPage O.first D.Disk store.old new result)) }
{
    let page = store.page(place.page)?;
    Ok(lent_slot(read_slot(page, w, place.slot)))
}

/// The slot at a place, as it is kept, lent from the store. Its page, the table's entry of the catalog and the slot itself are checked as
/// they are read. It logs nothing, and takes no memory.
pub fn row<D: Disk, O: Origin>(
    store: &mut Store<D, O>,
    place: Place,
) -> Result<LentSlot<'_>, StoreFault>
    requires going { store.old.stopped ≡ false }
    requires counted { place.page < store.old.now.counted }
    ensures finds { WhereSound O.first D.Disk (IfOk result (IsSlotAt (pages_in store.old.now) place)) }
    // What is lent can be made, and a slot of rows so wide lies on a page at the place.
    ensures fits { IfOk result (λ l. IsSlot (length l.head.payload.now) (slot_lent l)) }
    ensures lies { IfOk result (λ l. SlotLiesAt place (length l.head.payload.now)) }
    // It is well made by the columns of the table.
    ensures made { WhereSound O.first D.Disk (IfOk result (λ l. IsSlotOf store.old.now.counted (columns_on (pages_in store.old.now) place.page) (slot_lent l))) }
    // Damage is told where it stands in the file of pages.
    ensures* after { sem 𝓛 (Rests (store-row D.row O.row D.Disk O.Origin) store.entry (λ new. LendsSlot O.first D.Disk place store.old new result)) }
{
    store.counts_pages();
    let found = row_width_at(store, place);
    let w = tell(store, found)?;
    lend_row(store, place, w)
}
