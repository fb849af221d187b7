// The rows of the pages of a bucket, and of all buckets of a table.
ghost use Rattle.std.specs.Prelude.{◌≡◌, ◌≢◌, ◌<◌, ⊤, Ok, false, IfErr, IfOk};
ghost use Rattle.ctr_base.specs.Base.{WhereSound};
ghost use Rattle.ctr_walk.specs.store_Store.{View, LeavesPage};
ghost use Rattle.ctr_area.specs.Chains.{places_on, places_from, slot_places};
ghost use Rattle.ctr_walk.specs.record_effects_States.{area_in};
ghost use Rattle.ctr_walk.specs.record_effects_Standing.{IsDatabaseState};
ghost use Rattle.ctr_walk.specs.Damage.{ReadsPages};
ghost use Rattle.ctr_reading.specs.Reading.{as_told, sight_sees, IsDiskOrMemory};
ghost use Rattle.ctr_reading.specs.Gathering.{gathered, bucket_places, Gathers, IsBucketPage, IsBucket};

use crate::gathered::Gathered;
use crate::gathering::gather_slots;
use crate::pages::{next_page, slots_on};
use crate::sight::Sight;
use ctr_base::Origin;
use ctr_disk::Disk;
use ctr_page::{BadChain, Chain};
use ctr_rec::PageNo;
use ctr_undamaged::a_bucket_search_meets_no_damage;
use ctr_views::ReadRefusal;
use ctr_walk::{SearchFault, Store, first_page, tell};
use std::alloc::Global;

/// The buckets of a table.
const BUCKETS: u8 = 8;

/// Gathers the rows of a page of a bucket, and tells the next page; 0 for none.
fn gather_page<D: Disk, O: Origin>(
    alloc: Global,
    store: &mut Store<D, O>,
    sight: &Sight,
    chain: Chain,
    p: PageNo,
    rows: &mut Gathered,
) -> Result<PageNo, ReadRefusal>
    requires going { store.old.stopped ≡ false }
    requires counted { p < store.old.now.counted }
    ensures gathers { WhereSound O.first D.Disk (IfOk (as_told result)
        (Gathers (gathered (sight_sees store.old.now.tables sight.now) (area_in store.old.now) (places_on p 0 ((area_in store.old.now).room p)) rows.old) rows.new)) }
    ensures goes { WhereSound O.first D.Disk (IfOk result (λ n. n ≡ ((area_in store.old.now).header p).next)) }
    ensures refused { WhereSound O.first D.Disk (IsBucketPage chain p store.old.now → IfErr result IsDiskOrMemory) }
    ensures inside { IfOk result (λ n. n < store.old.now.counted) }
    ensures leaves { ReadsPages O.first D.Disk store.old store.new (as_told result) }
{
    let next = match next_page(store, chain, p) {
        Err(fault) => return Err(ReadRefusal::Store(fault)),
        Ok(next) => next,
    };
    let slots = match slots_on(store, p) {
        Err(fault) => return Err(ReadRefusal::Store(fault)),
        Ok(slots) => slots,
    };
    match gather_slots(alloc, store, sight, &slots, rows) {
        Err(refusal) => Err(refusal),
        Ok(()) => Ok(next),
    }
}

/// A chain goes on behind this page, and has as many pages as there can be: damage, which is told where the page stands.
fn too_long<D: Disk, O: Origin>(
    store: &mut Store<D, O>,
    last: PageNo,
    most: u32,
) -> Result<(), ReadRefusal>
    requires going { store.old.stopped ≡ false }
    ensures fails { IfOk (as_told result) (λ x. ⊥) }
    // It goes on from pages that were read.
    ensures leaves { (a : View D) → LeavesPage {T = ⊤} O.first D.Disk a store.old (Ok tt) → ReadsPages O.first D.Disk a store.new (as_told result) }
{
    match tell(
        store,
        Err(SearchFault::Bad(BadChain::TooLong { last, most })),
    ) {
        Err(fault) => Err(ReadRefusal::Store(fault)),
        Ok(()) => Ok(()),
    }
}

/// Gathers the rows of the pages of a bucket, from its first page on.
fn gather_from<D: Disk, O: Origin>(
    alloc: Global,
    store: &mut Store<D, O>,
    sight: &Sight,
    chain: Chain,
    first: PageNo,
    rows: &mut Gathered,
) -> Result<(), ReadRefusal>
    requires going { store.old.stopped ≡ false }
    requires some { first ≢ 0 }
    requires counted { first < store.old.now.counted }
    ensures gathers { WhereSound O.first D.Disk (IfOk (as_told result)
        (Gathers (gathered (sight_sees store.old.now.tables sight.now) (area_in store.old.now) (places_from (area_in store.old.now) first) rows.old) rows.new)) }
    ensures refused { WhereSound O.first D.Disk (IsBucket chain first store.old.now → IfErr result IsDiskOrMemory) }
    ensures leaves { ReadsPages O.first D.Disk store.old store.new (as_told result) }
{
    store.counts_pages();
    let most = store.counted().saturating_sub(3);
    let mut at = first;
    let mut last = 0;
    let mut left = most;
    while at != 0 {
        if left == 0 {
            return too_long(store, last, most);
        }
        let next = match gather_page(alloc, store, sight, chain, at, rows) {
            Err(refusal) => return Err(refusal),
            Ok(next) => next,
        };
        last = at;
        at = next;
        left -= 1;
    }
    Ok(())
}

/// Gathers the rows of a bucket of a table.
fn gather_bucket<D: Disk, O: Origin>(
    alloc: Global,
    store: &mut Store<D, O>,
    sight: &Sight,
    entry: u8,
    bucket: u8,
    rows: &mut Gathered,
) -> Result<(), ReadRefusal>
    requires going { store.old.stopped ≡ false }
    requires there { (entry < 32) × (bucket < 8) }
    ensures gathers { WhereSound O.first D.Disk (IfOk (as_told result)
        (Gathers (gathered (sight_sees store.old.now.tables sight.now) (area_in store.old.now) (bucket_places (area_in store.old.now) entry bucket) rows.old) rows.new)) }
    ensures refused { WhereSound O.first D.Disk (IsDatabaseState store.old.now → IfErr result IsDiskOrMemory) }
    ensures leaves { ReadsPages O.first D.Disk store.old store.new (as_told result) }
{
    a_bucket_search_meets_no_damage();
    let chain = Chain::Rows { entry, bucket };
    let found = match first_page(store, chain) {
        Err(fault) => return Err(ReadRefusal::Store(fault)),
        Ok(found) => found,
    };
    match found {
        None => Ok(()),
        Some(first) => gather_from(alloc, store, sight, chain, first, rows),
    }
}

/// Gathers the rows that are seen of a table, by its entry of the catalog: bucket by bucket, page by page, slot by slot.
pub(crate) fn scan<D: Disk, O: Origin>(
    alloc: Global,
    store: &mut Store<D, O>,
    sight: &Sight,
    entry: u8,
    rows: &mut Gathered,
) -> Result<(), ReadRefusal>
    requires going { store.old.stopped ≡ false }
    requires there { entry < 32 }
    ensures gathers { WhereSound O.first D.Disk (IfOk (as_told result)
        (Gathers (gathered (sight_sees store.old.now.tables sight.now) (area_in store.old.now) (slot_places (area_in store.old.now) entry) rows.old) rows.new)) }
    ensures refused { WhereSound O.first D.Disk (IsDatabaseState store.old.now → IfErr result IsDiskOrMemory) }
    ensures leaves { ReadsPages O.first D.Disk store.old store.new (as_told result) }
{
    for bucket in 0..BUCKETS {
        match gather_bucket(alloc, store, sight, entry, bucket, rows) {
            Err(refusal) => return Err(refusal),
            Ok(()) => {}
        }
    }
    Ok(())
}
