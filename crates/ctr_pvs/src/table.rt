// The table that a page is of.
ghost use Rattle.std.specs.Prelude.{◌≡◌, ◌≤◌, ◌<◌, ◌+◌, ◌*◌, ◌/◌, ◌%◌, false, IfOk, length};
ghost use Rattle.ctr_walk.specs.base_growing_TheConstants.{MOST_PAGES};
ghost use Rattle.ctr_walk.specs.base_Base.{WhereSound};
ghost use Rattle.ctr_walk.specs.store_Store.{LeavesPage};
ghost use Rattle.ctr_page.specs.declared.table.TheConstants.{PAGE_SIZE};
ghost use Rattle.ctr_page.specs.ctr_value.Columns.{ColumnsFit};
ghost use Rattle.ctr_page.specs.Columns.{entry_at as entry_of, columns_in};
ghost use Rattle.ctr_passed.specs.area_Reading.{columns_on};
ghost use Rattle.ctr_passed.specs.record_effects_States.{pages_in, area_in};
ghost use Rattle.ctr_walk.specs.Damage.{searched, EndsOnPage};
ghost use Rattle.ctr_pvs.specs.Table.{there_check, KindsSaid, OwnerSaid, TableFits, TableSaid};

use ctr_disk::Disk;
use ctr_page::{BadPage, EntryState, PageKind, check_entry, read_entry, read_header};
use ctr_rec::{BadRecord, PageNo, at_most, expect};
use ctr_walk::{Origin, SearchFault, Store, TableOf, an_entry_has_columns, catalog_page, found_on};

/// The bytes of an entry of the catalog.
const ENTRY: u64 = 256;

/// The first page behind those of the catalog.
const FIRST: PageNo = 3;

/// Checks a page to which a pointer leads, whose header has this check: the page is counted, the header passes, and the page is
/// behind those of the catalog.
pub(crate) fn check_there(
    header: Result<(), BadPage>,
    counted: u32,
    p: PageNo,
) -> Result<(), BadPage>
    requires some { 0 < counted }
    ensures { result ≡ there_check header counted p }
{
    at_most(0, (counted - 1) as u64, p as u64)?;
    header?;
    if p < FIRST {
        return Err(BadRecord {
            at: 0,
            want: FIRST as u128,
            got: p as u128,
        });
    }
    Ok(())
}

/// The entry of the catalog that a page of a kind names, which is behind those of the catalog.
fn owner_in(kind: PageKind, counted: u32, p: PageNo, page: &[u8]) -> Result<u8, BadPage>
    requires some { 0 < counted }
    requires whole { length page.now ≡ PAGE_SIZE }
    ensures said { OwnerSaid kind counted p page.now result }
    ensures few { IfOk result (λ e. e < 32) }
{
    let header = read_header(page);
    let said = expect(0, kind.byte() as u128, header.kind.byte() as u128);
    check_there(said, counted, p)?;
    at_most(1, 31, header.entry as u64)?;
    Ok(header.entry)
}

/// The same of a page of a store.
fn owner_on<D: Disk, O: Origin>(
    store: &mut Store<D, O>,
    kind: PageKind,
    counted: u32,
    p: PageNo,
) -> Result<u8, SearchFault>
    requires going { store.old.stopped ≡ false }
    requires some { 0 < counted }
    requires there { p < MOST_PAGES }
    ensures said { WhereSound O.first D.Disk (IfOk (searched result) (EndsOnPage p (OwnerSaid kind counted p (pages_in store.old.now p)))) }
    ensures few { IfOk result (λ e. e < 32) }
    ensures leaves { LeavesPage O.first D.Disk store.old store.new (searched result) }
{
    let page = store.page(p)?;
    found_on(p, owner_in(kind, counted, p, page))
}

/// What an entry on a page of the catalog says of its table, which isn't free.
fn table_in(entry: u8, counted: u32, page: &[u8]) -> Result<TableOf, BadPage>
    requires some { 0 < counted }
    requires whole { length page.now ≡ PAGE_SIZE }
    ensures said { KindsSaid counted (entry % 16) page.now result }
    ensures few { IfOk result (λ t. (t.count ≤ 7) × (t.entry ≡ entry)) }
    ensures columns { IfOk result (λ t. ColumnsFit (columns_in (entry_of (entry % 16) page.now).bytes)) }
{
    an_entry_has_columns();
    let at = entry % 16;
    check_entry(counted, at, page)?;
    let table = read_entry(page, at);
    if table.state == EntryState::FREE {
        return Err(BadRecord {
            at: ENTRY * at as u64,
            want: 1,
            got: 0,
        });
    }
    Ok(TableOf {
        entry,
        kinds: table.kinds(),
        count: table.count() as usize - 1,
    })
}

/// The same of an entry of a store's catalog.
fn table_at<D: Disk, O: Origin>(
    store: &mut Store<D, O>,
    entry: u8,
    counted: u32,
) -> Result<TableOf, SearchFault>
    requires going { store.old.stopped ≡ false }
    requires some { 0 < counted }
    requires there { entry < 32 }
    ensures said { WhereSound O.first D.Disk (IfOk (searched result) (EndsOnPage (1 + entry / 16) (KindsSaid counted (entry % 16) (pages_in store.old.now (1 + entry / 16))))) }
    ensures few { IfOk result (λ t. (t.count ≤ 7) × (t.entry ≡ entry)) }
    ensures columns { WhereSound O.first D.Disk (IfOk result (λ t. ColumnsFit ((area_in store.old.now).title entry).columns)) }
    ensures leaves { LeavesPage O.first D.Disk store.old store.new (searched result) }
{
    let at = catalog_page(entry);
    let page = store.page(at)?;
    found_on(at, table_in(entry, counted, page))
}

/// The table that a page of rows or of versions, by its kind, is of: the page and the entry of the catalog that it names are read,
/// and checked as they are read. It logs nothing, and takes no memory.
pub fn table_on<D: Disk, O: Origin>(
    store: &mut Store<D, O>,
    kind: PageKind,
    p: PageNo,
) -> Result<TableOf, SearchFault>
    requires going { store.old.stopped ≡ false }
    requires there { p < store.old.now.counted }
    ensures said { WhereSound O.first D.Disk (IfOk (searched result) (TableSaid kind store.old.now.counted (pages_in store.old.now) p)) }
    ensures fits { IfOk result TableFits }
    // It has columns that a table may have.
    ensures columns { WhereSound O.first D.Disk (IfOk result (λ t. ColumnsFit (columns_on (pages_in store.old.now) p))) }
    ensures leaves { LeavesPage O.first D.Disk store.old store.new (searched result) }
{
    store.counts_pages();
    let counted = store.counted();
    let entry = owner_on(store, kind, counted, p)?;
    table_at(store, entry, counted)
}
