// The chains of pages of a table, by its entry of the catalog.
ghost use Rattle.std.specs.Prelude.{◌≡◌, ◌≢◌, ◌≤◌, ◌<◌, ◌+◌, ◌/◌, ◌%◌, false, IfOk, IfSome, length};
ghost use Rattle.ctr_store.specs.base_Base.{WhereSound};
ghost use Rattle.ctr_walk.specs.Damage.{damage_told, searched, EndsOnPage, EndsTold, ReadsPages};
ghost use Rattle.ctr_record_effects.specs.States.{pages_in};
ghost use Rattle.ctr_record_effects.specs.page_Damage.{chain_entry};
ghost use Rattle.ctr_record_effects.specs.page_table_TheConstants.{PAGE_SIZE, ENTRY_SIZE};
ghost use Rattle.ctr_walk.specs.Tables.{IsChain, kinds_said, first_at, first_said as first_on, chain_table_check, ChainSaid, FirstSaid, PagesFit, EndsChain, EndsFirst};
ghost use Rattle.ctr_store.specs.Store.{LeavesPage};

use crate::along::{PageSought, search_pages};
use crate::damage::tell;
use crate::fault::{SearchFault, found_on};
use ctr_disk::{Disk, StoreFault};
use ctr_record_effects::{
    BadPage, CatalogEntry, Chain, EntryState, Place, check_entry, read_entry,
};
use ctr_store::{Origin, PageNo, Store};
use ctr_types::Kind;

/// The table of an entry of the catalog.
#[derive(Clone, Copy, Debug, PartialEq, Eq)]
pub struct TableOf {
    /// Its entry of the catalog.
    pub entry: u8,
    /// What the columns behind the key hold: so many of these.
    pub kinds: [Kind; 7],
    pub count: usize,
}

impl TableOf {
    /// What the columns behind the key hold.
    pub fn kinds(&self) -> &[Kind]
        requires { self.now.count ≤ 7 }
        ensures value { result.now ≡ kinds_said self.now }
        ensures few { length result.now ≤ 7 }
    {
        &self.kinds[..self.count]
    }
}

/// The pages of a chain, and its table.
#[derive(Clone, Copy, Debug, PartialEq, Eq)]
pub(crate) struct ChainPages {
    /// Their first one.
    pub(crate) first: PageNo,
    pub(crate) table: TableOf,
}

/// The entry of the catalog that a chain is of.
fn entry_of(chain: Chain) -> u8
    ensures { result ≡ chain_entry chain }
{
    match chain {
        Chain::Rows { entry, .. } => entry,
        Chain::Versions { entry } => entry,
    }
}

/// The page of the catalog that an entry stands on.
pub fn catalog_page(entry: u8) -> PageNo
    ensures { result ≡ 1 + entry / 16 }
{
    1 + (entry / 16) as PageNo
}

/// The first page of a chain, by its table's entry; 0 for none.
fn first_of(table: &CatalogEntry, chain: Chain) -> PageNo
    requires whole { length table.now.bytes ≡ ENTRY_SIZE }
    requires there { IsChain chain }
    ensures { result ≡ first_at chain table.now.bytes }
{
    match chain {
        Chain::Rows { bucket, .. } => table.first(bucket),
        Chain::Versions { .. } => table.versions(),
    }
}

/// What a page of the catalog says of a chain, or none where this has no page.
fn pages_said(chain: Chain, counted: u32, page: &[u8]) -> Result<Option<ChainPages>, BadPage>
    requires some { 0 < counted }
    requires there { IsChain chain }
    requires whole { length page.now ≡ PAGE_SIZE }
    ensures said { ChainSaid counted chain page.now result }
    ensures fits { IfOk result (λ found. IfSome found (PagesFit counted)) }
{
    let entry = entry_of(chain);
    let at = entry % 16;
    check_entry(counted, at, page)?;
    let table = read_entry(page, at);
    if table.state == EntryState::FREE {
        return Ok(None);
    }
    let first = first_of(&table, chain);
    if first == 0 {
        return Ok(None);
    }
    Ok(Some(ChainPages {
        first,
        table: TableOf {
            entry,
            kinds: table.kinds(),
            count: table.count() as usize - 1,
        },
    }))
}

/// The same of a store.
fn pages_of<D: Disk, O: Origin>(
    store: &mut Store<D, O>,
    chain: Chain,
    counted: u32,
) -> Result<Option<ChainPages>, SearchFault>
    requires going { store.old.stopped ≡ false }
    requires some { 0 < counted }
    requires there { IsChain chain }
    ensures said { WhereSound O.first D.Disk (IfOk (searched result) (EndsOnPage (1 + chain_entry chain / 16) (ChainSaid counted chain (pages_in store.old.now (1 + chain_entry chain / 16))))) }
    ensures fits { IfOk result (λ found. IfSome found (PagesFit counted)) }
    ensures leaves { LeavesPage O.first D.Disk store.old store.new (searched result) }
{
    let at = catalog_page(entry_of(chain));
    let page = store.page(at)?;
    found_on(at, pages_said(chain, counted, page))
}

/// The first place that is sought, or damage as it was found.
fn search_table<D: Disk, O: Origin, S: PageSought>(
    store: &mut Store<D, O>,
    chain: Chain,
    sought: &S,
) -> Result<Option<Place>, SearchFault>
    requires going { store.old.stopped ≡ false }
    requires there { IsChain chain }
    ensures ends { WhereSound O.first D.Disk (IfOk (searched result) (EndsChain store.old.now.counted (pages_in store.old.now) chain (S.ends sought.now))) }
    ensures inside { IfOk result (λ found. IfSome found (λ at. at.page < store.old.now.counted)) }
    ensures leaves { LeavesPage O.first D.Disk store.old store.new (searched result) }
{
    store.counts_pages();
    let counted = store.counted();
    let Some(pages) = pages_of(store, chain, counted)? else {
        return Ok(None);
    };
    let kinds = pages.table.kinds();
    search_pages(store, pages.first, chain, kinds, counted, sought)
}

/// The first place that is sought along a chain of pages of a table: its entry of the catalog says the first page, and is checked, as each
/// page is where it is read. It logs nothing, and takes no memory.
pub fn search_chain<D: Disk, O: Origin, S: PageSought>(
    store: &mut Store<D, O>,
    chain: Chain,
    sought: &S,
) -> Result<Option<Place>, StoreFault>
    requires going { store.old.stopped ≡ false }
    requires there { IsChain chain }
    // Damage is of the table's entry or of the first page at which the search ends so, and is told where that stands in the file of pages.
    ensures ends { WhereSound O.first D.Disk (EndsTold (damage_told D.Disk store.new) (EndsChain store.old.now.counted (pages_in store.old.now) chain (S.ends sought.now)) result) }
    // What is found stands on a counted page.
    ensures inside { IfOk result (λ found. IfSome found (λ at. at.page < store.old.now.counted)) }
    ensures leaves { ReadsPages O.first D.Disk store.old store.new result }
{
    let found = search_table(store, chain, sought);
    tell(store, found)
}

/// What a page of the catalog says of the first page of a chain.
fn first_said(chain: Chain, counted: u32, page: &[u8]) -> Result<Option<PageNo>, BadPage>
    requires some { 0 < counted }
    requires there { IsChain chain }
    requires whole { length page.now ≡ PAGE_SIZE }
    ensures said { FirstSaid (chain_table_check counted chain page.now) (first_on chain page.now) result }
    ensures fits { IfOk result (λ found. IfSome found (λ p. (p ≢ 0) × (p < counted))) }
{
    let Some(pages) = pages_said(chain, counted, page)? else {
        return Ok(None);
    };
    Ok(Some(pages.first))
}

/// The same of a store.
fn first_of_store<D: Disk, O: Origin>(
    store: &mut Store<D, O>,
    chain: Chain,
) -> Result<Option<PageNo>, SearchFault>
    requires going { store.old.stopped ≡ false }
    requires there { IsChain chain }
    ensures ends { WhereSound O.first D.Disk (IfOk (searched result) (EndsFirst store.old.now.counted (pages_in store.old.now) chain)) }
    ensures inside { IfOk result (λ found. IfSome found (λ p. (p ≢ 0) × (p < store.old.now.counted))) }
    ensures leaves { LeavesPage O.first D.Disk store.old store.new (searched result) }
{
    store.counts_pages();
    let counted = store.counted();
    let at = catalog_page(entry_of(chain));
    let page = store.page(at)?;
    found_on(at, first_said(chain, counted, page))
}

/// The first page of a chain of a table, or none where the chain has no page: its entry of the catalog says it, and is checked as it
/// is read. It logs nothing, and takes no memory.
pub fn first_page<D: Disk, O: Origin>(
    store: &mut Store<D, O>,
    chain: Chain,
) -> Result<Option<PageNo>, StoreFault>
    requires going { store.old.stopped ≡ false }
    requires there { IsChain chain }
    // Damage is of the table's entry, and is told where that stands in the file of pages.
    ensures ends { WhereSound O.first D.Disk (EndsTold (damage_told D.Disk store.new) (EndsFirst store.old.now.counted (pages_in store.old.now) chain) result) }
    // The page is counted, and isn't page 0.
    ensures inside { IfOk result (λ found. IfSome found (λ p. (p ≢ 0) × (p < store.old.now.counted))) }
    ensures leaves { ReadsPages O.first D.Disk store.old store.new result }
{
    let found = first_of_store(store, chain);
    tell(store, found)
}
