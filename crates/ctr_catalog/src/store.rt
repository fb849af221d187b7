// The free entries of the catalog of a store.
ghost use Rattle.std.specs.Prelude.{◌≡◌, ◌<◌, ℕ, List, Ok, Option, false, IfOk, IfSome};
ghost use Rattle.ctr_alloc.specs.base_Base.{WhereSound};
ghost use Rattle.ctr_alloc.specs.store_Store.{LeavesPage};
ghost use Rattle.ctr_names.specs.page_Searching.{IsFirst};
ghost use Rattle.ctr_alloc.specs.area_Reading.{area_of};
ghost use Rattle.ctr_alloc.specs.record_effects_States.{pages_in};
ghost use Rattle.ctr_alloc.specs.walk_Damage.{damage_told, searched, EndsOnPage, EndsTold, ReadsPages};
ghost use Rattle.ctr_catalog.specs.Free.{EndsFreeEntry, EndsCatalog, is_free_entry};

use crate::entries::{ENTRIES_ON_PAGE, find_free};
use ctr_alloc::{Origin, SearchFault, Store, found_on, tell};
use ctr_disk::{Disk, StoreFault};
use ctr_rec::PageNo;

/// The lowest free entry on a page of the catalog.
fn free_on<D: Disk, O: Origin>(
    store: &mut Store<D, O>,
    page: PageNo,
    counted: u32,
) -> Result<Option<u8>, SearchFault>
    requires going { store.old.stopped ≡ false }
    requires some { 0 < counted }
    requires there { page < 3 }
    ensures ends { WhereSound O.first D.Disk (IfOk (searched result) (EndsOnPage page (EndsFreeEntry counted (pages_in store.old.now page)))) }
    ensures few { IfOk result (λ found. IfSome found (λ n. n < ENTRIES_ON_PAGE)) }
    ensures leaves { LeavesPage O.first D.Disk store.old store.new (searched result) }
{
    let bytes = store.page(page)?;
    found_on(page, find_free(counted, bytes))
}

/// The lowest free entry of the catalog, or none; or the damage of the first entry that fails its checks.
fn search_free<D: Disk, O: Origin>(store: &mut Store<D, O>) -> Result<Option<u8>, SearchFault>
    requires going { store.old.stopped ≡ false }
    ensures ends { WhereSound O.first D.Disk (IfOk (searched result) (EndsCatalog store.old.now.counted (pages_in store.old.now))) }
    ensures few { IfOk result (λ found. IfSome found (λ n. n < 32)) }
    ensures leaves { LeavesPage O.first D.Disk store.old store.new (searched result) }
{
    store.counts_pages();
    let counted = store.counted();
    if let Some(entry) = free_on(store, 1, counted)? {
        return Ok(Some(entry));
    }
    match free_on(store, 2, counted)? {
        Some(entry) => Ok(Some(ENTRIES_ON_PAGE + entry)),
        None => Ok(None),
    }
}

/// The lowest free entry of the catalog, or none; or the damage of the first entry that fails its checks, told where it stands
/// in the file of pages. It logs nothing, and takes no memory.
pub fn find_free_entry<D: Disk, O: Origin>(
    store: &mut Store<D, O>,
) -> Result<Option<u8>, StoreFault>
    requires going { store.old.stopped ≡ false }
    ensures ends { WhereSound O.first D.Disk (EndsTold (damage_told D.Disk store.new) (EndsCatalog store.old.now.counted (pages_in store.old.now)) result) }
    ensures few { IfOk result (λ found. IfSome found (λ n. n < 32)) }
    ensures leaves { ReadsPages O.first D.Disk store.old store.new result }
{
    let found = search_free(store);
    tell(store, found)
}

/// The search that ends without damage has found the lowest free entry of the area, or there is none.
pub fn a_free_entry_is_the_lowest()
    ensures { (pages : ℕ → List ℕ) (counted : ℕ) (found : Option ℕ) → EndsCatalog counted pages (Ok found) → IsFirst (is_free_entry (area_of pages)) 0 32 found }
{}
