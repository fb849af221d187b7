// A page of a bucket of a table: the next one, and its slots.
ghost use Rattle.std.specs.Prelude.{◌≡◌, ◌≤◌, ◌<◌, ℕ, false, IfErr, IfOk, length};
ghost use Rattle.ctr_base.specs.Base.{WhereSound};
ghost use Rattle.ctr_disk.specs.declared.fault.StoreFault.TheVariants.{Fault};
ghost use Rattle.ctr_walk.specs.store_Store.{LeavesPage};
ghost use Rattle.ctr_page.specs.declared.checks.Chain.{Chain as ChainOf};
ghost use Rattle.ctr_page.specs.declared.table.TheConstants.{PAGE_SIZE};
ghost use Rattle.ctr_base.specs.declared.growing.TheConstants.{MOST_PAGES};
ghost use Rattle.ctr_walk.specs.record_effects_States.{pages_in, area_in};
ghost use Rattle.ctr_walk.specs.Damage.{searched, damage_told, EndsOnPage, EndsTold, ReadsPages};
ghost use Rattle.ctr_views.specs.pvs_Table.{TableFits, TableSaid};
ghost use Rattle.ctr_reading.specs.Gathering.{NextSaid, ArePageSlots, IsBucketPage};

use ctr_base::Origin;
use ctr_disk::{Disk, StoreFault};
use ctr_page::{
    BadPage, Chain, PageKind, check_header, kinds_width, read_header, room_for, slot_size,
};
use ctr_rec::PageNo;
use ctr_views::table_on;
use ctr_walk::{SearchFault, Store, TableOf, found_on, tell};

/// The page behind one of a chain, whose header is checked; 0 for none.
fn next_in(chain: Chain, counted: u32, page: &[u8]) -> Result<PageNo, BadPage>
    requires some { 0 < counted }
    requires whole { length page.now ≡ PAGE_SIZE }
    ensures said { NextSaid chain counted page.now result }
    ensures next { IfOk result (λ n. n < counted) }
{
    check_header(chain, counted, page)?;
    Ok(read_header(page).next)
}

/// The same of a page of a store.
fn next_on<D: Disk, O: Origin>(
    store: &mut Store<D, O>,
    chain: Chain,
    counted: u32,
    p: PageNo,
) -> Result<PageNo, SearchFault>
    requires going { store.old.stopped ≡ false }
    requires some { 0 < counted }
    requires there { p < MOST_PAGES }
    ensures said { WhereSound O.first D.Disk (IfOk (searched result) (EndsOnPage p (NextSaid chain counted (pages_in store.old.now p)))) }
    ensures next { IfOk result (λ n. n < counted) }
    ensures leaves { LeavesPage O.first D.Disk store.old store.new (searched result) }
{
    let page = store.page(p)?;
    found_on(p, next_in(chain, counted, page))
}

/// The page behind one of a chain of a table; 0 for none. Its header is checked as it is read. It logs nothing, and takes no memory.
pub fn next_page<D: Disk, O: Origin>(
    store: &mut Store<D, O>,
    chain: Chain,
    p: PageNo,
) -> Result<PageNo, StoreFault>
    requires going { store.old.stopped ≡ false }
    requires counted { p < store.old.now.counted }
    // Damage is of the header, and is told where that stands in the file of pages.
    ensures ends { WhereSound O.first D.Disk (EndsTold (damage_told D.Disk store.new) (EndsOnPage p (NextSaid chain store.old.now.counted (pages_in store.old.now p))) result) }
    ensures tells { WhereSound O.first D.Disk (3 ≤ p → IfOk result (λ n. n ≡ ((area_in store.old.now).header p).next)) }
    // Of a page of a bucket it is refused for no other cause than that the disk failed.
    ensures refused { WhereSound O.first D.Disk (IsBucketPage chain p store.old.now → IfErr result (λ e. e ≡ Fault)) }
    ensures inside { IfOk result (λ n. n < store.old.now.counted) }
    ensures leaves { ReadsPages O.first D.Disk store.old store.new result }
{
    store.counts_pages();
    let counted = store.counted();
    let found = next_on(store, chain, counted, p);
    tell(store, found)
}

/// The slots of a page of rows: how many there are, and the table.
#[derive(Clone, Copy)]
pub struct PageSlots {
    pub page: PageNo,
    pub table: TableOf,
    pub count: u16,
}

/// The table that a page of rows is of, with damage as it is told.
fn table_told<D: Disk, O: Origin>(store: &mut Store<D, O>, p: PageNo) -> Result<TableOf, StoreFault>
    requires going { store.old.stopped ≡ false }
    requires counted { p < store.old.now.counted }
    ensures ends { WhereSound O.first D.Disk (EndsTold (damage_told D.Disk store.new) (TableSaid 1 store.old.now.counted (pages_in store.old.now) p) result) }
    ensures fits { IfOk result TableFits }
    ensures leaves { ReadsPages O.first D.Disk store.old store.new result }
{
    let found = table_on(store, PageKind::ROWS, p);
    tell(store, found)
}

/// The slots of a page of rows, which is checked as it is read, with its table. It logs nothing, and takes no memory.
pub fn slots_on<D: Disk, O: Origin>(
    store: &mut Store<D, O>,
    p: PageNo,
) -> Result<PageSlots, StoreFault>
    requires going { store.old.stopped ≡ false }
    requires counted { p < store.old.now.counted }
    ensures are { WhereSound O.first D.Disk (IfOk result (ArePageSlots store.old.now)) }
    ensures fits { IfOk result (λ s. TableFits s.table × (s.page ≡ p)) }
    // Of a page of a bucket it is refused for no other cause than that the disk failed.
    ensures refused { (chain : ChainOf) → WhereSound O.first D.Disk (IsBucketPage chain p store.old.now → IfErr result (λ e. e ≡ Fault)) }
    ensures leaves { ReadsPages O.first D.Disk store.old store.new result }
{
    let table = match table_told(store, p) {
        Err(fault) => return Err(fault),
        Ok(table) => table,
    };
    let count = room_for(slot_size(kinds_width(table.kinds()))) as u16;
    Ok(PageSlots {
        page: p,
        table,
        count,
    })
}
