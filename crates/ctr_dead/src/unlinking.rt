// The first page of a chain leaves it, by one record.
ghost use Rattle.std.specs.Prelude.{◌≡◌, ◌≢◌, ◌≤◌, ◌<◌, ◌+◌, ◌/◌, ℕ, false, OnOk, IfOk, IfErr, length};
ghost use Rattle.ctr_bytes.specs.Fields.{spelled};
ghost use Rattle.ctr_disk.specs.declared.fault.StoreFault.TheVariants.{Fault};
ghost use Rattle.ctr_walk.specs.base_growing_TheConstants.{MOST_PAGES};
ghost use Rattle.ctr_walk.specs.base_Base.{WhereSound};
ghost use Rattle.ctr_walk.specs.store_Store.{LeavesPage};
ghost use Rattle.ctr_page.specs.declared.table.TheConstants.{PAGE_SIZE};
ghost use Rattle.ctr_page.specs.Damage.{chain_entry};
ghost use Rattle.ctr_walk.specs.Tables.{IsChain};
ghost use Rattle.ctr_walk.specs.OneRecord.{HasRoomForOne, LogsOne};
ghost use Rattle.ctr_walk.specs.Damage.{damage_told, searched, EndsOnPage};
ghost use Rattle.ctr_record_effects.specs.States.{pages_in, area_in, IsWholePage};
ghost use Rattle.ctr_record_effects.specs.Standing.{IsDatabaseState};
ghost use Rattle.ctr_alloc.specs.actions_Sites.{site_of};
ghost use Rattle.ctr_alloc.specs.actions_Actions.{site_after};
ghost use Rattle.ctr_trim.specs.page_turns_Acts.{ActsBy};
ghost use Rattle.ctr_dead.specs.Unlinking.{front_at, leaving_record, leaves_chain, OwedByLeaving, NextPageSaid, LeavesItsChain, EndsUnlinking};

use ctr_alloc::a_logged_record_is_its_action;
use ctr_bytes::put_u32;
use ctr_disk::{Disk, StoreFault};
use ctr_page::{BadPage, Chain, check_header, read_header};
use ctr_rec::{PageNo, Record};
use ctr_record_effects::{an_unlink_changes_its_chain, over_entry};
use ctr_trim::{
    a_record_acts, a_record_is_refused_by_the_disk_alone, a_table_can_be_linked_to,
    owed_records_are_laid_as_their_actions,
};
use ctr_walk::{Origin, SearchFault, Store, catalog_page, found_on, log_on_page, tell};

/// Where the first pages of an entry of the catalog stand in it.
const FIRSTS_AT: u8 = 179;

/// And that of its versions.
const VERSIONS_AT: u8 = 211;

/// The page behind one that passes as a page of a chain.
fn next_in(chain: Chain, counted: u32, page: &[u8]) -> Result<PageNo, BadPage>
    requires some { 0 < counted }
    requires whole { length page.now ≡ PAGE_SIZE }
    ensures said { NextPageSaid counted chain page.now result }
    ensures small { IfOk result (λ n. n < counted) }
{
    check_header(chain, counted, page)?;
    Ok(read_header(page).next)
}

/// The same of a page of a store.
fn next_of<D: Disk, O: Origin>(
    store: &mut Store<D, O>,
    p: PageNo,
    chain: Chain,
) -> Result<PageNo, SearchFault>
    requires going { store.old.stopped ≡ false }
    requires counted { p < store.old.now.counted }
    ensures said { WhereSound O.first D.Disk (IfOk (searched result) (EndsOnPage p (NextPageSaid store.old.now.counted chain (pages_in store.old.now p)))) }
    ensures small { IfOk result (λ n. n < store.old.now.counted) }
    ensures leaves { LeavesPage O.first D.Disk store.old store.new (searched result) }
{
    store.counts_pages();
    let counted = store.counted();
    let page = store.page(p)?;
    found_on(p, next_in(chain, counted, page))
}

/// The bytes of a page's number.
fn number_made(p: PageNo) -> [u8; 4]
    ensures { result ≡ spelled 4 p }
{
    let mut bytes = [0; 4];
    put_u32(&mut bytes, 0, p);
    bytes
}

/// Which entry of the catalog a chain is of, and where this has the first page of the chain.
fn front_of(chain: Chain) -> (u8, u8)
    requires there { IsChain chain }
    ensures is { (result.0 ≡ chain_entry chain) × (result.1 ≡ front_at chain) }
    ensures small { (result.0 < 32) × (result.1 ≤ 252) }
{
    match chain {
        Chain::Rows { entry, bucket } => (entry, FIRSTS_AT + 4 * bucket),
        Chain::Versions { entry } => (entry, VERSIONS_AT),
    }
}

/// Lets a chain begin with the next page of the one that leaves it.
fn lay_front<D: Disk, O: Origin>(
    store: &mut Store<D, O>,
    p: PageNo,
    next: PageNo,
    chain: Chain,
) -> Result<(), StoreFault>
    requires room { HasRoomForOne 0 1 store.old }
    requires small { (p < MOST_PAGES) × (next < MOST_PAGES) }
    requires there { IsChain chain }
    ensures one { LogsOne O.first D.Disk (leaving_record p next chain) store.old store.new result }
    ensures whole { WhereSound O.first D.Disk (OnOk result (IsWholePage (1 + chain_entry chain / 16) store.old.now)) }
{
    store.counts_pages();
    let bytes = number_made(next);
    let (entry, at) = front_of(chain);
    let rec = Record::Unlink {
        p,
        overlay: over_entry(entry, at, &bytes),
    };
    log_on_page(store, catalog_page(entry), &rec)
}

/// Takes the first page of a chain from it, by one record, which isn't hardened yet: the chain begins with the next one. The page is checked as
/// one of the chain. It takes no memory.
pub fn unlink<D: Disk, O: Origin>(
    store: &mut Store<D, O>,
    p: PageNo,
    chain: Chain,
) -> Result<(), StoreFault>
    requires room { HasRoomForOne 0 1 store.old }
    requires counted { (p < store.old.now.counted) × IsChain chain }
    ensures one { LeavesItsChain O.first D.Disk p chain store.old store.new result }
    // Damage is told where it stands in the file of pages.
    ensures ends { WhereSound O.first D.Disk (EndsUnlinking (damage_told D.Disk store.new) p chain store.old store.new result) }
    ensures whole { WhereSound O.first D.Disk (OnOk result (IsWholePage (1 + chain_entry chain / 16) store.old.now)) }
    // Of an entry that isn't free the chain begins with the next page, an item has this one, and nothing else in the pages and the tables changes.
    ensures leaves { (x : ℕ) → WhereSound O.first D.Disk (IsDatabaseState store.old.now → ((area_in store.old.now).title (chain_entry chain)).state ≢ 0 → 3 ≤ p
        → OnOk result (site_of store.new.now ≡ site_after x (leaves_chain p chain) (site_of store.old.now))) }
    // Where no more is owed it is that action, whose bytes lie in the entry and pass their checks.
    ensures acts { (x : ℕ) → WhereSound O.first D.Disk (IsDatabaseState store.old.now → OwedByLeaving store.old.now.tables (area_in store.old.now) p chain
        → OnOk result (ActsBy x (leaves_chain p chain) store.old.now store.new.now)) }
    // And it is refused for no other cause than that the disk failed.
    ensures refused { WhereSound O.first D.Disk (IsDatabaseState store.old.now → OwedByLeaving store.old.now.tables (area_in store.old.now) p chain
        → IfErr result (λ f. f ≡ Fault)) }
{
    let _tables = store.meta();
    an_unlink_changes_its_chain();
    a_logged_record_is_its_action();
    a_record_acts::<D>();
    a_record_is_refused_by_the_disk_alone::<D, ()>();
    owed_records_are_laid_as_their_actions();
    a_table_can_be_linked_to();
    store.counts_pages();
    let found = next_of(store, p, chain);
    match tell(store, found) {
        Err(fault) => Err(fault),
        Ok(next) => lay_front(store, p, next, chain),
    }
}
