// A version entry by its place, lent from its page.
ghost use Rattle.std.specs.Prelude.{◌≡◌, ◌≤◌, ◌<◌, ◌+◌, false, List, IfOk, length};
ghost use Rattle.ctr_types.specs.declared.value.Column.{Column};
ghost use Rattle.ctr_page.specs.ctr_value.Payload.{IsKeyed};
ghost use Rattle.std.specs.Borrow.{sem};
ghost use Rattle.std.specs.Io.BufRead.{Rests};
ghost use Rattle.ctr_walk.specs.base_growing_TheConstants.{MOST_PAGES};
ghost use Rattle.ctr_walk.specs.base_Base.{WhereSound};
ghost use Rattle.ctr_walk.specs.store_Store.{LeavesPage};
ghost use Rattle.ctr_walk.specs.store_contracts_store_Store.{the_row as store-row};
ghost use Rattle.ctr_page.specs.declared.table.TheConstants.{PAGE_SIZE};
ghost use Rattle.ctr_page.specs.Places.{kept_size as size_of_kept, start_of as start_place};
ghost use Rattle.ctr_page.specs.Reading.{older_at};
ghost use Rattle.ctr_page.specs.Making.{IsEntry};
ghost use Rattle.ctr_page.specs.Columns.{kinds_of};
ghost use Rattle.ctr_passed.specs.area_Reading.{columns_on};
ghost use Rattle.ctr_passed.specs.Logged.{IsOlderOf};
ghost use Rattle.ctr_walk.specs.Tables.{kinds_said};
ghost use Rattle.ctr_passed.specs.record_effects_States.{pages_in};
ghost use Rattle.ctr_walk.specs.Damage.{searched, EndsOnPage};
ghost use Rattle.ctr_pvs.specs.Reading.{WidthSaid, version_check_at, EndsAt};
ghost use Rattle.ctr_pvs.specs.Lending.{entry_lent, VersionLiesAt, IsKeptAt, LendsVersion};

use crate::reading::version_in;
use crate::table::table_on;
use ctr_disk::{Disk, StoreFault};
use ctr_page::{
    BadPage, PageKind, Place, Tombstone, Use, Version, VersionEntry, kinds_width, read_version,
};
use ctr_rec::Bytes;
use ctr_types::Xid;
use ctr_walk::{Origin, SearchFault, Store, TableOf, found_on, tell};

/// A version entry as it is kept, with its payload lent from its page.
#[derive(Clone, Copy, Debug)]
pub struct LentVersion<'a> {
    /// 1 where it is used, 0 where it is free.
    pub used: u8,
    pub key: i64,
    /// Whose the version is.
    pub xid: Xid,
    /// 1 where the row is deleted, else 0.
    pub tombstone: u8,
    /// The row without its key, or zeros.
    pub payload: &'a [u8],
    /// Where the next older version is kept.
    pub older: Place,
}

impl<'a> LentVersion<'a> {
    /// The same as version entries are made and read.
    pub fn entry(&self) -> VersionEntry<'a>
        ensures { result ≡ entry_lent self.now }
    {
        VersionEntry {
            used: Use::from_byte(self.used),
            key: self.key,
            version: Version {
                xid: self.xid,
                tombstone: Tombstone::from_byte(self.tombstone),
                payload: Bytes::new(self.payload),
            },
            older: self.older,
        }
    }
}

// What is lent of a version entry.
fn lent(entry: VersionEntry) -> LentVersion
    ensures { entry_lent result ≡ entry.entry }
{
    let VersionEntry {
        used,
        key,
        version,
        older,
    } = entry;
    LentVersion {
        used: used.byte(),
        key,
        xid: version.xid,
        tombstone: version.tombstone.byte(),
        payload: version.payload.as_slice(),
        older,
    }
}

// The width of a table's rows, where the version entry of a number on a page of its versions passes.
fn width_in(table: &TableOf, counted: u32, number: u16, page: &[u8]) -> Result<usize, BadPage>
    requires some { 0 < counted }
    requires few { table.now.count ≤ 7 }
    requires whole { length page.now ≡ PAGE_SIZE }
    ensures said { WidthSaid counted table.now number page.now result }
    ensures fits { IfOk result (λ w. (w ≤ 2048) × (start_place (size_of_kept w) number + size_of_kept w ≤ PAGE_SIZE)) }
    ensures made { (columns : List Column) → IsKeyed columns → kinds_of columns ≡ kinds_said table.now → IfOk result (λ w. IsOlderOf counted columns (older_at w number page.now)) }
{
    match version_in(table, counted, number, page) {
        Ok(_) => Ok(kinds_width(table.kinds())),
        Err(bad) => Err(bad),
    }
}

// The same of a page of a store.
fn check_kept<D: Disk, O: Origin>(
    store: &mut Store<D, O>,
    table: &TableOf,
    counted: u32,
    place: Place,
) -> Result<usize, SearchFault>
    requires going { store.old.stopped ≡ false }
    requires some { 0 < counted }
    requires there { place.page < MOST_PAGES }
    requires few { table.now.count ≤ 7 }
    ensures said { WhereSound O.first D.Disk (IfOk (searched result) (EndsOnPage place.page (WidthSaid counted table.now place.slot (pages_in store.old.now place.page)))) }
    ensures fits { IfOk result (λ w. (w ≤ 2048) × (start_place (size_of_kept w) place.slot + size_of_kept w ≤ PAGE_SIZE)) }
    ensures made { WhereSound O.first D.Disk ((columns : List Column) → IsKeyed columns → kinds_of columns ≡ kinds_said table.now → IfOk result (λ w. IsOlderOf counted columns (older_at w place.slot (pages_in store.old.now place.page)))) }
    ensures leaves { LeavesPage O.first D.Disk store.old store.new (searched result) }
{
    let page = store.page(place.page)?;
    found_on(place.page, width_in(table, counted, place.slot, page))
}

// The width of a table's rows, by the place of a version entry that passes; or the first damage on the way to it.
fn width_at<D: Disk, O: Origin>(store: &mut Store<D, O>, place: Place) -> Result<usize, SearchFault>
    requires going { store.old.stopped ≡ false }
    requires counted { place.page < store.old.now.counted }
    ensures ends { WhereSound O.first D.Disk (IfOk (searched result) (EndsAt (version_check_at store.old.now.counted (pages_in store.old.now) place) (pages_in store.old.now) place)) }
    ensures fits { IfOk result (λ w. (w ≤ 2048) × (start_place (size_of_kept w) place.slot + size_of_kept w ≤ PAGE_SIZE)) }
    ensures made { WhereSound O.first D.Disk (IfOk result (λ w. IsOlderOf store.old.now.counted (columns_on (pages_in store.old.now) place.page) (older_at w place.slot (pages_in store.old.now place.page)))) }
    ensures leaves { LeavesPage O.first D.Disk store.old store.new (searched result) }
{
    store.counts_pages();
    let counted = store.counted();
    let table = table_on(store, PageKind::VERSIONS, place.page)?;
    check_kept(store, &table, counted, place)
}

// The version entry at a place where one of rows so wide lies.
fn lend<D: Disk, O: Origin>(
    store: &mut Store<D, O>,
    place: Place,
    w: usize,
) -> Result<LentVersion<'_>, StoreFault>
    requires going { store.old.stopped ≡ false }
    requires there { place.page < MOST_PAGES }
    requires width { w ≤ 2048 }
    requires inside { start_place (size_of_kept w) place.slot + size_of_kept w ≤ PAGE_SIZE }
    ensures said { WhereSound O.first D.Disk (IfOk result (λ l. entry_lent l ≡ older_at w place.slot (pages_in store.old.now place.page))) }
    ensures fits { IfOk result (λ l. IsEntry (length l.payload.now) (entry_lent l)) }
    ensures wide { IfOk result (λ l. length l.payload.now ≡ w) }
    ensures* after { sem 𝓛 (Rests (store-row D.row O.row D.Disk O.Origin) store.entry (λ new. LeavesPage O.first D.Disk store.old new result)) }
{
    let page = store.page(place.page)?;
    Ok(lent(read_version(page, w, place.slot)))
}

/// The version entry at a place, as it is kept, lent from the store. Its page, the table's entry of the catalog and the version entry
/// itself are checked as they are read. It logs nothing, and takes no memory.
pub fn version<D: Disk, O: Origin>(
    store: &mut Store<D, O>,
    place: Place,
) -> Result<LentVersion<'_>, StoreFault>
    requires going { store.old.stopped ≡ false }
    requires counted { place.page < store.old.now.counted }
    ensures finds { WhereSound O.first D.Disk (IfOk result (IsKeptAt (pages_in store.old.now) place)) }
    // What is lent can be made, and a version entry of rows so wide lies on a page at the place.
    ensures fits { IfOk result (λ l. IsEntry (length l.payload.now) (entry_lent l)) }
    ensures lies { IfOk result (λ l. VersionLiesAt place (length l.payload.now)) }
    // It is well made by the columns of the table.
    ensures made { WhereSound O.first D.Disk (IfOk result (λ l. IsOlderOf store.old.now.counted (columns_on (pages_in store.old.now) place.page) (entry_lent l))) }
    // Damage is told where it stands in the file of pages.
    ensures* after { sem 𝓛 (Rests (store-row D.row O.row D.Disk O.Origin) store.entry (λ new. LendsVersion O.first D.Disk place store.old new result)) }
{
    store.counts_pages();
    let found = width_at(store, place);
    let w = tell(store, found)?;
    lend(store, place, w)
}
