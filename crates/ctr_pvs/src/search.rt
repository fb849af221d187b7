// A free version entry of a table, along the chain of its version pages.
ghost use Rattle.std.specs.Prelude.{◌≡◌, ◌<◌, false, IfOk, IfSome};
ghost use Rattle.ctr_walk.specs.base_Base.{WhereSound};
ghost use Rattle.ctr_passed.specs.area_Sound.{AreReadable};
ghost use Rattle.ctr_walk.specs.Damage.{damage_told, EndsTold, ReadsPages};
ghost use Rattle.ctr_passed.specs.record_effects_States.{pages_in, area_in};
ghost use Rattle.ctr_pvs.specs.Along.{EndsVersions, FindsFreeEntry, entries_on_page};

use crate::entries::FreeEntry;
use ctr_disk::{Disk, StoreFault};
use ctr_page::{Chain, Place};
use ctr_walk::{Origin, Store, search_chain};

/// A version entry of a table that isn't used, by the table's entry of the catalog: the search goes along the chain of its version pages,
/// and checks the entry, and each page as it is read. It logs nothing, and takes no memory.
pub fn find_free_entry<D: Disk, O: Origin>(
    store: &mut Store<D, O>,
    entry: u8,
) -> Result<Option<Place>, StoreFault>
    requires going { store.old.stopped ≡ false }
    requires there { entry < 32 }
    // Damage is of the table's entry or of the first page that fails its checks, and is told where that stands in the file of pages.
    ensures ends { WhereSound O.first D.Disk (EndsTold (damage_told D.Disk store.new) (EndsVersions store.old.now.counted (pages_in store.old.now) entry) result) }
    // There is none exactly where all version entries of the table are used.
    ensures finds { WhereSound O.first D.Disk (AreReadable (area_in store.old.now) → IfOk result (FindsFreeEntry (area_in store.old.now) entry)) }
    // It stands on a counted page, among the version entries that a page of the table has.
    ensures inside { IfOk result (λ found. IfSome found (λ at. at.page < store.old.now.counted)) }
    ensures on_page { WhereSound O.first D.Disk (IfOk result (λ found. IfSome found (λ at. at.slot < entries_on_page (area_in store.old.now) entry))) }
    ensures leaves { ReadsPages O.first D.Disk store.old store.new result }
{
    store.counts_pages();
    search_chain(store, Chain::Versions { entry }, &FreeEntry)
}
