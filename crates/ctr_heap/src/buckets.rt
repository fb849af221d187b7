// The slot of a key of a table, and a free slot of a bucket, by the table's entry of the catalog.
ghost use Rattle.std.specs.Prelude.{◌≡◌, ◌<◌, false, IfOk, IfSome};
ghost use Rattle.ctr_walk.specs.base_Base.{WhereSound};
ghost use Rattle.ctr_passed.specs.area_Sound.{AreReadable};
ghost use Rattle.ctr_page.specs.Places.{bucket_of as bucket_by};
ghost use Rattle.ctr_passed.specs.record_effects_States.{pages_in, area_in};
ghost use Rattle.ctr_heap.specs.declared.slots.SlotSought.TheVariants.{Key as KeySought, Free as FreeSought};
ghost use Rattle.ctr_walk.specs.Damage.{damage_told, EndsTold, ReadsPages};
ghost use Rattle.ctr_heap.specs.Finding.{EndsBucket, FindsKey, FindsFree, slots_on_page};

use crate::found::{a_search_tells_a_free_slot, a_search_tells_the_key};
use crate::recalled::{recall, recall_full};
use crate::slots::SlotSought;
use ctr_disk::{Disk, StoreFault};
use ctr_page::{Chain, Place, bucket_of};
use ctr_walk::{Origin, Store, search_chain};

/// The slot of a key of a table, by its entry of the catalog. Where all pages of the key's bucket are remembered it is told with no search; those
/// that aren't are read first. Else the search goes along the chain of the bucket, and checks the entry, and each page as it is read. It logs
/// nothing, and no memory that is refused is an error.
pub fn find<D: Disk, O: Origin>(
    store: &mut Store<D, O>,
    entry: u8,
    key: i64,
) -> Result<Option<Place>, StoreFault>
    requires going { store.old.stopped ≡ false }
    requires there { entry < 32 }
    // Damage is of the table's entry or of the first page that fails its checks, and is told where that stands in the file of pages.
    ensures ends { WhereSound O.first D.Disk (EndsTold (damage_told D.Disk store.new) (EndsBucket store.old.now.counted (pages_in store.old.now) entry (bucket_by key) (KeySought key)) result) }
    // It is exactly the slot of the key.
    ensures finds { WhereSound O.first D.Disk (AreReadable (area_in store.old.now) → IfOk result (FindsKey (area_in store.old.now) entry key)) }
    // It stands on a counted page, among the slots that a page of the table has.
    ensures inside { IfOk result (λ found. IfSome found (λ at. at.page < store.old.now.counted)) }
    ensures on_page { WhereSound O.first D.Disk (IfOk result (λ found. IfSome found (λ at. at.slot < slots_on_page (area_in store.old.now) entry))) }
    ensures leaves { ReadsPages O.first D.Disk store.old store.new result }
{
    a_search_tells_the_key();
    store.counts_pages();
    if let Some(found) = recall(store, entry, key)? {
        return Ok(found);
    }
    let bucket = bucket_of(key);
    search_chain(store, Chain::Rows { entry, bucket }, &SlotSought::Key(key))
}

/// The first free slot of a bucket of a table, likewise. Where all pages of the bucket are remembered and have none, no page is searched.
pub fn free_slot<D: Disk, O: Origin>(
    store: &mut Store<D, O>,
    entry: u8,
    bucket: u8,
) -> Result<Option<Place>, StoreFault>
    requires going { store.old.stopped ≡ false }
    requires there { (entry < 32) × (bucket < 8) }
    ensures ends { WhereSound O.first D.Disk (EndsTold (damage_told D.Disk store.new) (EndsBucket store.old.now.counted (pages_in store.old.now) entry bucket FreeSought) result) }
    // There is none exactly where all slots of the bucket's chain are used.
    ensures finds { WhereSound O.first D.Disk (AreReadable (area_in store.old.now) → IfOk result (FindsFree (area_in store.old.now) entry bucket)) }
    // It stands on a counted page, among the slots that a page of the table has.
    ensures inside { IfOk result (λ found. IfSome found (λ at. at.page < store.old.now.counted)) }
    ensures on_page { WhereSound O.first D.Disk (IfOk result (λ found. IfSome found (λ at. at.slot < slots_on_page (area_in store.old.now) entry))) }
    ensures leaves { ReadsPages O.first D.Disk store.old store.new result }
{
    a_search_tells_a_free_slot();
    store.counts_pages();
    if recall_full(store, entry, bucket)? {
        return Ok(None);
    }
    search_chain(store, Chain::Rows { entry, bucket }, &SlotSought::Free)
}
