// The newest committed version of a row.
ghost use Rattle.std.specs.Prelude.{◌≡◌, ◌<◌, false, IfOk};
ghost use Rattle.ctr_pvs.specs.base_Base.{WhereSound};
ghost use Rattle.ctr_pvs.specs.store_Store.{LeavesPage};
ghost use Rattle.ctr_names.specs.area_Chains.{chain_of};
ghost use Rattle.ctr_names.specs.area_Images.{is_committed_in};
ghost use Rattle.ctr_pvs.specs.walk_Damage.{damage_told, searched, EndsTold, ReadsPages};
ghost use Rattle.ctr_pvs.specs.record_effects_States.{pages_in, area_in};
ghost use Rattle.ctr_chain.specs.Seeing.{first_xid};
ghost use Rattle.ctr_chain.specs.Seeking.{sought_at, xid_found, xids_found};

use crate::seeking::{Found, Sought, seek};
use ctr_disk::{Disk, StoreFault};
use ctr_page::Place;
use ctr_pvs::{Origin, SearchFault, Store, tell};
use ctr_types::Xid;

fn xid_found(found: Option<Found>) -> Option<Xid>
    ensures { result ≡ xid_found found }
{
    match found {
        Some(found) => Some(found.xid),
        None => None,
    }
}

/// What the search for the newest committed version of a row found.
fn newest_found<D: Disk, O: Origin>(
    store: &mut Store<D, O>,
    place: Place,
) -> Result<Option<Xid>, SearchFault>
    requires going { store.old.stopped ≡ false }
    requires counted { place.page < store.old.now.counted }
    ensures ends { WhereSound O.first D.Disk (IfOk (searched result) (λ r. r ≡ xids_found (sought_at (is_committed_in store.old.meta.tables) store.old.now.counted (pages_in store.old.now) place))) }
    ensures finds { WhereSound O.first D.Disk (IfOk result (λ x. x ≡ first_xid (is_committed_in store.old.meta.tables) (chain_of (area_in store.old.now).older ((area_in store.old.now).slot place)))) }
    ensures leaves { LeavesPage O.first D.Disk store.old store.new (searched result) }
{
    store.counts_pages();
    let found = seek(store, place, &Sought::Committed)?;
    Ok(xid_found(found))
}

/// Whose the newest committed version of the row at a place is, or none where no version is committed. The slot, its table and each
/// version entry that the search passes are checked as they are read; versions in the slot cost no version entry. It logs nothing, and
/// takes no memory.
pub fn newest<D: Disk, O: Origin>(
    store: &mut Store<D, O>,
    place: Place,
) -> Result<Option<Xid>, StoreFault>
    requires going { store.old.stopped ≡ false }
    requires counted { place.page < store.old.now.counted }
    // Damage is of the first on the way that fails its checks, or of a chain that is too long, and is told where that stands in the file.
    ensures ends { WhereSound O.first D.Disk (EndsTold (damage_told D.Disk store.new) (λ r. r ≡ xids_found (sought_at (is_committed_in store.old.now.tables) store.old.now.counted (pages_in store.old.now) place)) result) }
    // It is the first of the row's chain that is committed.
    ensures finds { WhereSound O.first D.Disk (IfOk result (λ x. x ≡ first_xid (is_committed_in store.old.now.tables) (chain_of (area_in store.old.now).older ((area_in store.old.now).slot place)))) }
    ensures leaves { ReadsPages O.first D.Disk store.old store.new result }
{
    let _tables = store.meta();
    let found = newest_found(store, place);
    tell(store, found)
}
