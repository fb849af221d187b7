// Whether the values of a statement suit the columns of the table of an entry, which is read where it stands.
ghost use Rattle.std.specs.Prelude.{◌≡◌, ◌<◌, ◌+◌, ◌/◌, ◌%◌, false, IfOk, IfErr, length};
ghost use Rattle.ctr_disk.specs.declared.fault.StoreFault.TheVariants.{Fault};
ghost use Rattle.ctr_base.specs.Base.{WhereSound};
ghost use Rattle.ctr_store.specs.Store.{LeavesPage};
ghost use Rattle.ctr_page.specs.declared.table.TheConstants.{PAGE_SIZE};
ghost use Rattle.ctr_record_effects.specs.States.{pages_in, area_in};
ghost use Rattle.ctr_record_effects.specs.Standing.{IsDatabaseState};
ghost use Rattle.ctr_walk.specs.Damage.{searched, EndsOnPage, ReadsPages};
ghost use Rattle.ctr_wishes.specs.ctr_reading.catalog_Finding.{checks_at};
ghost use Rattle.ctr_wishes.specs.ctr_reading.catalog_Columns.{EndsChecked};
ghost use Rattle.ctr_asking.specs.Values.{ValuesSaid, bad_in};

use crate::columns::bad_value;
use ctr_base::Origin;
use ctr_disk::{Disk, StoreFault};
use ctr_page::{BadPage, EntryState, check_entry, read_entry};
use ctr_store::Store;
use ctr_types::Statement;
use ctr_walk::{SearchFault, an_entry_has_columns, catalog_page, found_on, tell};
use ctr_wishes::reading::a_catalog_search_meets_no_damage;

// By an entry on a page of the catalog, which is checked; none where it is free.
fn bad_on(
    entry: u8,
    counted: u32,
    page: &[u8],
    statement: &Statement,
) -> Result<Option<u64>, BadPage>
    requires some { 0 < counted }
    requires there { entry < 16 }
    requires whole { length page.now ≡ PAGE_SIZE }
    ensures { ValuesSaid counted statement.now entry page.now result }
{
    an_entry_has_columns();
    check_entry(counted, entry, page)?;
    let table = read_entry(page, entry);
    if table.state == EntryState::FREE {
        return Ok(None);
    }
    Ok(bad_value(&table, statement))
}

// The same of an entry of a store's catalog.
fn bad_at<D: Disk, O: Origin>(
    store: &mut Store<D, O>,
    entry: u8,
    counted: u32,
    statement: &Statement,
) -> Result<Option<u64>, SearchFault>
    requires going { store.old.stopped ≡ false }
    requires some { 0 < counted }
    requires there { entry < 32 }
    ensures said { WhereSound O.first D.Disk (IfOk (searched result) (EndsOnPage (1 + entry / 16) (ValuesSaid counted statement.now (entry % 16) (pages_in store.old.now (1 + entry / 16))))) }
    ensures leaves { LeavesPage O.first D.Disk store.old store.new (searched result) }
{
    let at = catalog_page(entry);
    let page = store.page(at)?;
    found_on(at, bad_on(entry % 16, counted, page, statement))
}

// The same, with how many pages are counted.
fn bad_found<D: Disk, O: Origin>(
    store: &mut Store<D, O>,
    entry: u8,
    statement: &Statement,
) -> Result<Option<u64>, SearchFault>
    requires going { store.old.stopped ≡ false }
    requires there { entry < 32 }
    ensures ends { WhereSound O.first D.Disk (IfOk (searched result) (EndsChecked (checks_at store.old.now.counted (pages_in store.old.now) entry) entry)) }
    ensures tells { WhereSound O.first D.Disk (IfOk result (λ bad. bad ≡ bad_in statement.now (area_in store.old.now) entry)) }
    ensures leaves { LeavesPage O.first D.Disk store.old store.new (searched result) }
{
    store.counts_pages();
    let counted = store.counted();
    bad_at(store, entry, counted, statement)
}

/// The position of the first value or assignment that doesn't suit the table of an entry, 0 to 31, or 0 for a bad WHERE; none where all
/// do, or where the entry is free. The entry is checked as it is read. It logs nothing, and takes no memory.
pub(crate) fn bad_value_in<D: Disk, O: Origin>(
    store: &mut Store<D, O>,
    entry: u8,
    statement: &Statement,
) -> Result<Option<u64>, StoreFault>
    requires going { store.old.stopped ≡ false }
    requires there { entry < 32 }
    ensures tells { WhereSound O.first D.Disk (IfOk result (λ bad. bad ≡ bad_in statement.now (area_in store.old.now) entry)) }
    ensures refused { WhereSound O.first D.Disk (IsDatabaseState store.old.now → IfErr result (λ e. e ≡ Fault)) }
    ensures leaves { ReadsPages O.first D.Disk store.old store.new result }
{
    a_catalog_search_meets_no_damage();
    let found = bad_found(store, entry, statement);
    tell(store, found)
}
