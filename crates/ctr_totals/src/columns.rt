// Whether a table has the columns of a generated script.
ghost use Rattle.std.specs.Prelude.{◌≡◌, ◌≢◌, ◌≤◌, ◌<◌, ◌+◌, ◌*◌, ◌/◌, ◌%◌, ℕ, false, IfOk, IfErr, length};
ghost use Rattle.ctr_bytes.specs.Fields.{field};
ghost use Rattle.ctr_disk.specs.declared.fault.StoreFault.TheVariants.{Fault};
ghost use Rattle.ctr_base.specs.Base.{WhereSound};
ghost use Rattle.ctr_store.specs.Store.{LeavesPage};
ghost use Rattle.ctr_page.specs.declared.table.TheConstants.{PAGE_SIZE, ENTRY_SIZE, COLUMNS_AT, COLUMN_SIZE};
ghost use Rattle.ctr_page.specs.Columns.{name_in, columns_in};
ghost use Rattle.ctr_record_effects.specs.States.{pages_in, area_in};
ghost use Rattle.ctr_record_effects.specs.Standing.{IsDatabaseState};
ghost use Rattle.ctr_walk.specs.Columns.{HaveNames};
ghost use Rattle.ctr_walk.specs.Damage.{searched, damage_told, EndsOnPage, EndsTold, ReadsPages};
ghost use Rattle.ctr_totals.specs.Finding.{TellsColumn, TellsColumns};
ghost use Rattle.ctr_totals.specs.Columns.{column_at, ColumnsTold};

use ctr_base::Origin;
use ctr_bytes::get_u8;
use ctr_disk::{Disk, StoreFault};
use ctr_page::{BadPage, CatalogEntry, EntryState, check_entry, read_entry};
use ctr_store::Store;
use ctr_types::Kind;
use ctr_walk::{SearchFault, an_entry_has_columns, catalog_page, found_on, tell};

/// Where an entry has its first column, behind the number of them.
const FIRST_COLUMN_AT: usize = 35;

/// The bytes of a column: the length of its name, the name with zeros up to 16 bytes, its kind.
const COLUMN_BYTES: usize = 18;

/// The name at a place: a byte of its length, and the name.
fn name_at(bytes: &[u8], at: usize) -> &[u8]
    requires inside { at + 17 ≤ length bytes.now }
    requires short { field 1 at bytes.now ≤ 16 }
    ensures { result.now ≡ name_in at bytes.now }
{
    let front = at + 1;
    &bytes[front..front + get_u8(bytes, at) as usize]
}

/// Whether a column of an entry is this one.
fn is_column(entry: &CatalogEntry, column: u8, name: &[u8], kind: Kind) -> bool
    requires whole { length entry.now.bytes ≡ ENTRY_SIZE }
    requires there { column < 8 }
    requires short { field 1 (COLUMNS_AT + 1 + COLUMN_SIZE * column) entry.now.bytes ≤ 16 }
    ensures { TellsColumn (column_at column entry.now.bytes) (record { name = name.now; kind = kind }) result }
{
    let at = FIRST_COLUMN_AT + COLUMN_BYTES * column as usize;
    name_at(entry.bytes.as_slice(), at) == name && entry.kind(column) == kind
}

/// Whether an entry has three columns that are those of a generated script.
fn are_columns(entry: &CatalogEntry) -> bool
    requires whole { length entry.now.bytes ≡ ENTRY_SIZE }
    requires named { HaveNames entry.now.bytes }
    ensures { TellsColumns (columns_in entry.now.bytes) result }
{
    if entry.count() != 3 {
        return false;
    }
    is_column(entry, 0, b"k", Kind::Int)
        && is_column(entry, 1, b"v", Kind::Int)
        && is_column(entry, 2, b"s", Kind::Chars(12))
}

/// The same of an entry on a page of the catalog, which is checked; not where it is free.
fn fits_in(counted: u32, entry: u8, page: &[u8]) -> Result<bool, BadPage>
    requires some { 0 < counted }
    requires there { entry < 16 }
    requires whole { length page.now ≡ PAGE_SIZE }
    ensures { ColumnsTold counted entry page.now result }
{
    an_entry_has_columns();
    check_entry(counted, entry, page)?;
    let table = read_entry(page, entry);
    if table.state == EntryState::FREE {
        return Ok(false);
    }
    Ok(are_columns(&table))
}

/// The same of an entry of a store's catalog.
fn fits_on<D: Disk, O: Origin>(
    store: &mut Store<D, O>,
    entry: u8,
    counted: u32,
) -> Result<bool, SearchFault>
    requires going { store.old.stopped ≡ false }
    requires some { 0 < counted }
    requires there { entry < 32 }
    ensures said { WhereSound O.first D.Disk (IfOk (searched result) (EndsOnPage (1 + entry / 16) (ColumnsTold counted (entry % 16) (pages_in store.old.now (1 + entry / 16))))) }
    ensures leaves { LeavesPage O.first D.Disk store.old store.new (searched result) }
{
    let at = catalog_page(entry);
    let page = store.page(at)?;
    found_on(at, fits_in(counted, entry % 16, page))
}

/// Whether the table of an entry that isn't free has the columns of a generated script. It logs nothing, and takes no memory.
pub(crate) fn fits<D: Disk, O: Origin>(
    store: &mut Store<D, O>,
    entry: u8,
) -> Result<bool, StoreFault>
    requires going { store.old.stopped ≡ false }
    requires there { entry < 32 }
    ensures tells { WhereSound O.first D.Disk (((area_in store.old.now).title entry).state ≢ 0 → IfOk result (TellsColumns ((area_in store.old.now).title entry).columns)) }
    ensures refused { WhereSound O.first D.Disk (IsDatabaseState store.old.now → IfErr result (λ e. e ≡ Fault)) }
    ensures leaves { ReadsPages O.first D.Disk store.old store.new result }
{
    store.counts_pages();
    let counted = store.counted();
    let found = fits_on(store, entry, counted);
    tell(store, found)
}
