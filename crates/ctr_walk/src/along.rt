// The search along a chain of pages of a store.
ghost use Rattle.std.specs.Prelude.{◌≡◌, ◌≢◌, ◌≤◌, ◌<◌, ℕ, List, Option, Result, false, IfOk, IfSome, length};
ghost use Rattle.ctr_store.specs.base_Base.{WhereSound};
ghost use Rattle.ctr_record_effects.specs.States.{pages_in};
ghost use Rattle.ctr_record_effects.specs.page_table_TheConstants.{PAGE_SIZE};
ghost use Rattle.ctr_record_effects.specs.page_Walking.{most_in_chain};
ghost use Rattle.ctr_store.specs.rec_BadRecord.{BadRecord};
ghost use Rattle.ctr_walk.specs.Along.{LooksAt, EndsAlong};
ghost use Rattle.ctr_walk.specs.Damage.{searched, EndsOnPage};
ghost use Rattle.ctr_store.specs.Parts.{MayCount};
ghost use Rattle.ctr_store.specs.Store.{LeavesPage};
ghost use Rattle.ctr_types.specs.declared.value.Kind.{Kind as KindOfColumn};

use crate::fault::{SearchFault, found_on};
use ctr_disk::Disk;
use ctr_record_effects::{BadChain, BadPage, Chain, Place, check_header, read_header};
use ctr_store::{Origin, PageNo, Store};
use ctr_types::Kind;

/// What is sought on the pages of a chain.
pub trait PageSought {
    /// Where the search of a page ends, by the kinds of the columns behind the key, and where so many pages are counted.
    ghost ends: { Self → List KindOfColumn → ℕ → List ℕ → Result (Option ℕ) BadRecord → Type 0 };

    /// Searches a page whose header was checked, in rows whose columns behind the key are of these kinds, where so many pages are
    /// counted: the number of what is sought there, or none, or the damage at which the search ends.
    fn search(&self, kinds: &[Kind], counted: u32, page: &[u8]) -> Result<Option<u16>, BadPage>
        requires some { 0 < counted }
        requires few { length kinds.now ≤ 7 }
        requires whole { length page.now ≡ PAGE_SIZE }
        ensures { ends self.now kinds.now counted page.now result };
}

/// Searches a page of a chain, and tells the next one.
fn look_at<S: PageSought>(
    chain: Chain,
    kinds: &[Kind],
    counted: u32,
    sought: &S,
    page: &[u8],
) -> Result<(Option<u16>, PageNo), BadPage>
    requires some { 0 < counted }
    requires few { length kinds.now ≤ 7 }
    requires whole { length page.now ≡ PAGE_SIZE }
    ensures looks { LooksAt (record { chain = chain; counted = counted; ends = S.ends sought.now kinds.now counted }) page.now result }
    ensures next { IfOk result (λ x. x.1 < counted) }
{
    check_header(chain, counted, page)?;
    let found = sought.search(kinds, counted, page)?;
    Ok((found, read_header(page).next))
}

/// The same of a page of a store.
fn look<D: Disk, O: Origin, S: PageSought>(
    store: &mut Store<D, O>,
    at: PageNo,
    chain: Chain,
    kinds: &[Kind],
    counted: u32,
    sought: &S,
) -> Result<(Option<u16>, PageNo), SearchFault>
    requires going { store.old.stopped ≡ false }
    requires inside { (at < counted) × MayCount counted }
    requires few { length kinds.now ≤ 7 }
    ensures looks { WhereSound O.first D.Disk (IfOk (searched result) (EndsOnPage at (LooksAt (record { chain = chain; counted = counted; ends = S.ends sought.now kinds.now counted }) (pages_in store.old.now at)))) }
    ensures next { IfOk result (λ x. x.1 < counted) }
    ensures leaves { LeavesPage O.first D.Disk store.old store.new (searched result) }
{
    let page = store.page(at)?;
    found_on(at, look_at(chain, kinds, counted, sought, page))
}

/// The first place that is sought along a chain of pages, from its first page on, in rows whose columns behind the key are of these kinds,
/// where so many pages are counted; or the damage of the chain.
pub(crate) fn search_pages<D: Disk, O: Origin, S: PageSought>(
    store: &mut Store<D, O>,
    first: PageNo,
    chain: Chain,
    kinds: &[Kind],
    counted: u32,
    sought: &S,
) -> Result<Option<Place>, SearchFault>
    requires going { store.old.stopped ≡ false }
    requires some { first ≢ 0 }
    requires inside { (first < counted) × MayCount counted }
    requires few { length kinds.now ≤ 7 }
    ensures ends { WhereSound O.first D.Disk (IfOk (searched result) (EndsAlong (record { chain = chain; counted = counted; ends = S.ends sought.now kinds.now counted }) (pages_in store.old.now) (most_in_chain counted) 0 first)) }
    ensures inside { IfOk result (λ found. IfSome found (λ at. at.page < counted)) }
    ensures leaves { LeavesPage O.first D.Disk store.old store.new (searched result) }
{
    let most = counted.saturating_sub(3);
    let mut at = first;
    let mut last = 0;
    let mut left = most;
    while at != 0 {
        if left == 0 {
            return Err(SearchFault::Bad(BadChain::TooLong { last, most }));
        }
        let (found, next) = look(store, at, chain, kinds, counted, sought)?;
        if let Some(slot) = found {
            return Ok(Some(Place { page: at, slot }));
        }
        last = at;
        at = next;
        left -= 1;
    }
    Ok(None)
}
