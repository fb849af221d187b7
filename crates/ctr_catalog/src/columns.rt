// The columns of the table of an entry.
ghost use Rattle.std.specs.Prelude.{◌≡◌, ◌≤◌, ◌<◌, ◌+◌, ◌/◌, ◌%◌, false, IfOk, IfSome, length};
ghost use Rattle.ctr_bytes.specs.Fields.{field};
ghost use Rattle.ctr_names.specs.value_Columns.{ColumnsFit};
ghost use Rattle.ctr_alloc.specs.base_Base.{WhereSound};
ghost use Rattle.ctr_alloc.specs.store_Store.{LeavesPage};
ghost use Rattle.ctr_names.specs.page_table_TheConstants.{PAGE_SIZE, ENTRY_SIZE};
ghost use Rattle.ctr_names.specs.page_Columns.{name_in, columns_in};
ghost use Rattle.ctr_alloc.specs.record_effects_States.{pages_in, area_in};
ghost use Rattle.ctr_alloc.specs.walk_Damage.{damage_told, searched, EndsOnPage, EndsTold, ReadsPages};
ghost use Rattle.ctr_catalog.specs.Finding.{checks_at};
ghost use Rattle.ctr_alloc.specs.walk_Columns.{HaveNames};
ghost use Rattle.ctr_catalog.specs.Columns.{columns_there, GivesColumns, ColumnsSaid, EndsChecked, as_given};

use ctr_alloc::{Origin, SearchFault, Store, an_entry_has_columns, catalog_page, found_on, tell};
use ctr_bytes::get_u8;
use ctr_disk::{Disk, StoreFault};
use ctr_names::{BadPage, CatalogEntry, EntryState, check_entry, read_entry};
use ctr_types::{Column, List, Name, OutOfMemory, Schema, Text};
use std::alloc::Global;

/// Where an entry has its first column, behind the number of them.
const FIRST_COLUMN_AT: usize = 35;

/// The bytes of a column: the length of its name, the name with zeros up to 16 bytes, its kind.
const COLUMN_BYTES: usize = 18;

/// Why the columns of a table aren't given.
#[derive(Clone, Copy, Debug, PartialEq, Eq)]
pub enum SchemaRefusal {
    /// The disk failed, or the entry is damaged.
    Store(StoreFault),
    /// There was no memory for the columns.
    OutOfMemory,
}

/// The columns, or none where the entry is free, unless memory runs out.
type Given = Result<Option<Schema>, OutOfMemory>;

/// The name at a place: a byte of its length, and the name.
fn name_at(alloc: Global, at: usize, bytes: &[u8]) -> Result<Name, OutOfMemory>
    requires inside { at + 17 ≤ length bytes.now }
    requires named { (1 ≤ field 1 at bytes.now) × (field 1 at bytes.now ≤ 16) }
    ensures { IfOk result (λ name. name ≡ name_in at bytes.now) }
{
    let front = at + 1;
    let text = Text::from_slice(alloc, &bytes[front..front + get_u8(bytes, at) as usize])?;
    match Name::new(text) {
        Some(name) => Ok(name),
        None => unreachable!(),
    }
}

/// The columns that the bytes of an entry say.
fn columns_of(alloc: Global, entry: &CatalogEntry) -> Result<List<Column>, OutOfMemory>
    requires whole { length entry.now.bytes ≡ ENTRY_SIZE }
    requires named { HaveNames entry.now.bytes }
    ensures { IfOk result (λ columns. columns ≡ columns_in entry.now.bytes) }
{
    let mut columns = List::new(alloc);
    let count = entry.count();
    let mut i = 0;
    while i < count {
        let at = FIRST_COLUMN_AT + COLUMN_BYTES * i as usize;
        let name = name_at(alloc, at, entry.bytes.as_slice())?;
        let kind = entry.kind(i);
        columns.push(Column { name, kind })?;
        i += 1;
    }
    Ok(columns)
}

/// The columns of an entry on a page of the catalog, which is checked.
fn schema_on(alloc: Global, entry: u8, counted: u32, page: &[u8]) -> Result<Given, BadPage>
    requires some { 0 < counted }
    requires there { entry < 16 }
    requires whole { length page.now ≡ PAGE_SIZE }
    ensures said { ColumnsSaid counted entry page.now result }
    ensures fits { IfOk result (λ given. IfOk given (λ found. IfSome found (λ schema. ColumnsFit schema.columns))) }
{
    an_entry_has_columns();
    check_entry(counted, entry, page)?;
    let table = read_entry(page, entry);
    if table.state == EntryState::FREE {
        return Ok(Ok(None));
    }
    match columns_of(alloc, &table) {
        Ok(columns) => Ok(Ok(Some(Schema { columns }))),
        Err(want) => Ok(Err(want)),
    }
}

/// The same of an entry of a store's catalog.
fn schema_at<D: Disk, O: Origin>(
    store: &mut Store<D, O>,
    alloc: Global,
    entry: u8,
    counted: u32,
) -> Result<Given, SearchFault>
    requires going { store.old.stopped ≡ false }
    requires some { 0 < counted }
    requires there { entry < 32 }
    ensures said { WhereSound O.first D.Disk (IfOk (searched result) (EndsOnPage (1 + entry / 16) (ColumnsSaid counted (entry % 16) (pages_in store.old.now (1 + entry / 16))))) }
    ensures fits { IfOk result (λ given. IfOk given (λ found. IfSome found (λ schema. ColumnsFit schema.columns))) }
    ensures leaves { LeavesPage O.first D.Disk store.old store.new (searched result) }
{
    let at = catalog_page(entry);
    let page = store.page(at)?;
    found_on(at, schema_on(alloc, entry % 16, counted, page))
}

/// The same, with how many pages are counted.
fn schema_found<D: Disk, O: Origin>(
    store: &mut Store<D, O>,
    alloc: Global,
    entry: u8,
) -> Result<Given, SearchFault>
    requires going { store.old.stopped ≡ false }
    requires there { entry < 32 }
    ensures ends { WhereSound O.first D.Disk (IfOk (searched result) (EndsChecked (checks_at store.old.now.counted (pages_in store.old.now) entry) entry)) }
    ensures gives { WhereSound O.first D.Disk (IfOk result (GivesColumns (columns_there (area_in store.old.now) entry))) }
    ensures fits { IfOk result (λ given. IfOk given (λ found. IfSome found (λ schema. ColumnsFit schema.columns))) }
    ensures leaves { LeavesPage O.first D.Disk store.old store.new (searched result) }
{
    store.counts_pages();
    let counted = store.counted();
    schema_at(store, alloc, entry, counted)
}

/// The answer, by what was told.
fn answer(told: Result<Given, StoreFault>) -> Result<Option<Schema>, SchemaRefusal>
    ensures { as_given result ≡ told }
{
    match told {
        Ok(Ok(schema)) => Ok(schema),
        Ok(Err(OutOfMemory)) => Err(SchemaRefusal::OutOfMemory),
        Err(fault) => Err(SchemaRefusal::Store(fault)),
    }
}

/// The columns of the table of an entry, 0 to 31, or none where it is free. The entry is checked as it is read; damage is told where it
/// stands in the file of pages. It logs nothing, and takes no memory but the columns that it gives.
pub fn schema<D: Disk, O: Origin>(
    store: &mut Store<D, O>,
    alloc: Global,
    entry: u8,
) -> Result<Option<Schema>, SchemaRefusal>
    requires going { store.old.stopped ≡ false }
    requires there { entry < 32 }
    ensures ends { WhereSound O.first D.Disk (EndsTold (damage_told D.Disk store.new) (EndsChecked (checks_at store.old.now.counted (pages_in store.old.now) entry) entry) (as_given result)) }
    // They are those of the entry's title. Memory runs out only where there is a table.
    ensures gives { WhereSound O.first D.Disk (IfOk (as_given result) (GivesColumns (columns_there (area_in store.old.now) entry))) }
    // Whatever the disk tells, there are 1 to 8 columns, the first of INT.
    ensures fits { IfOk result (λ found. IfSome found (λ schema. ColumnsFit schema.columns)) }
    ensures leaves { ReadsPages O.first D.Disk store.old store.new (as_given result) }
{
    let found = schema_found(store, alloc, entry);
    answer(tell(store, found))
}
