// The place of a key, or that no slot is free, by what is remembered of a bucket.
ghost use Rattle.std.specs.Prelude.{◌≡◌, ◌<◌, false, true, None, Ok, IfOk, IfSome};
ghost use Rattle.ctr_walk.specs.base_Base.{WhereSound};
ghost use Rattle.ctr_walk.specs.store_Store.{LeavesPage};
ghost use Rattle.ctr_page.specs.Places.{bucket_of as bucket_by};
ghost use Rattle.ctr_passed.specs.record_effects_States.{pages_in};
ghost use Rattle.ctr_heap.specs.declared.slots.SlotSought.TheVariants.{Key as KeySought, Free as FreeSought};
ghost use Rattle.ctr_heap.specs.Finding.{EndsBucket};

use ctr_disk::{Disk, StoreFault};
use ctr_page::{Place, bucket_of};
use ctr_walk::{Origin, Store};

/// Reads the pages of a table's bucket that aren't remembered, and the table's entry of the catalog.
fn read_bucket<D: Disk, O: Origin>(
    store: &mut Store<D, O>,
    entry: u8,
    bucket: u8,
) -> Result<(), StoreFault>
    requires going { store.old.stopped ≡ false }
    requires there { (entry < 32) × (bucket < 8) }
    ensures { LeavesPage O.first D.Disk store.old store.new result }
{
    let mut more = store.read_on(entry, bucket)?;
    for _ in 0..store.counted() {
        if !more {
            break;
        }
        more = store.read_on(entry, bucket)?;
    }
    Ok(())
}

/// The slot of a key of a table, where all pages of the key's bucket are remembered. Those that aren't are read, and the table's entry.
pub(crate) fn recall<D: Disk, O: Origin>(
    store: &mut Store<D, O>,
    entry: u8,
    key: i64,
) -> Result<Option<Option<Place>>, StoreFault>
    requires going { store.old.stopped ≡ false }
    requires there { entry < 32 }
    // The search of the bucket ends with it.
    ensures ends { WhereSound O.first D.Disk (IfOk result (λ told. IfSome told (λ found. EndsBucket store.old.now.counted (pages_in store.old.now) entry (bucket_by key) (KeySought key) (Ok found)))) }
    ensures inside { IfOk result (λ told. IfSome told (λ found. IfSome found (λ at. at.page < store.old.now.counted))) }
    ensures leaves { LeavesPage O.first D.Disk store.old store.new result }
{
    read_bucket(store, entry, bucket_of(key))?;
    Ok(store.recall(entry, key))
}

/// Whether no slot of a table's bucket is free, where all its pages are remembered. Those that aren't are read, and the table's entry.
pub(crate) fn recall_full<D: Disk, O: Origin>(
    store: &mut Store<D, O>,
    entry: u8,
    bucket: u8,
) -> Result<bool, StoreFault>
    requires going { store.old.stopped ≡ false }
    requires there { (entry < 32) × (bucket < 8) }
    // The search of the bucket ends without one.
    ensures ends { WhereSound O.first D.Disk (IfOk result (λ full. full ≡ true → EndsBucket store.old.now.counted (pages_in store.old.now) entry bucket FreeSought (Ok None))) }
    ensures leaves { LeavesPage O.first D.Disk store.old store.new result }
{
    read_bucket(store, entry, bucket)?;
    Ok(store.recalls_full(entry, bucket))
}
