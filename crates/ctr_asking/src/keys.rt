// What speaks against the lock of a key: who wrote the row since the session's snapshot.
ghost use Rattle.std.specs.Prelude.{◌≡◌, ◌<◌, ℕ, false, IfOk, IfErr, option_and_then};
ghost use Rattle.ctr_disk.specs.declared.fault.StoreFault.TheVariants.{Fault};
ghost use Rattle.ctr_base.specs.Base.{WhereSound};
ghost use Rattle.ctr_record_effects.specs.States.{area_in};
ghost use Rattle.ctr_record_effects.specs.Standing.{IsDatabaseState};
ghost use Rattle.ctr_area.specs.Sound.{AreReadable, IsUsedSlot};
ghost use Rattle.ctr_walk.specs.Damage.{ReadsPages};
ghost use Rattle.ctr_wishes.specs.actions_Sites.{site_of};
ghost use Rattle.ctr_asking.specs.Causes.{number_unseen, newer_at, IsNewer};

use ctr_base::Origin;
use ctr_disk::{Disk, StoreFault};
use ctr_meta::{Meta, is_changed};
use ctr_page::Place;
use ctr_snap::Snapshot;
use ctr_store::Store;
use ctr_txn::Txns;
use ctr_types::Xid;
use ctr_wishes::reading::views::newest;
use ctr_wishes::reading::{a_bucket_search_meets_no_damage, a_row_is_read_without_damage, find};

// The commit number of a transaction, where there is one that a snapshot doesn't see.
fn number_unseen(meta: &Meta, snapshot: &Snapshot, txns: &Txns, who: Option<Xid>) -> Option<u64>
    ensures { result ≡ option_and_then (number_unseen txns.now.numbers.commits meta.now.tables snapshot.now) who }
{
    let x = who?;
    if is_changed(meta, snapshot, x) {
        return txns.number(x);
    }
    None
}

// The commit of the newest committed version of the row at a place, where a snapshot doesn't see it.
fn newer<D: Disk, O: Origin>(
    store: &mut Store<D, O>,
    place: Place,
    snapshot: &Snapshot,
    txns: &Txns,
) -> Result<Option<u64>, StoreFault>
    requires going { store.old.stopped ≡ false }
    requires counted { place.page < store.old.now.counted }
    ensures tells { WhereSound O.first D.Disk (IfOk result (λ n. n ≡ newer_at txns.now.numbers.commits (site_of store.old.now) snapshot.now place)) }
    ensures refused { (entry : ℕ) → WhereSound O.first D.Disk (IsDatabaseState store.old.now → IsUsedSlot (area_in store.old.now) entry place → IfErr result (λ e. e ≡ Fault)) }
    ensures leaves { ReadsPages O.first D.Disk store.old store.new result }
{
    a_row_is_read_without_damage();
    let who = match newest(store, place) {
        Err(fault) => return Err(fault),
        Ok(who) => who,
    };
    Ok(number_unseen(store.meta(), snapshot, txns, who))
}

/// The last commit by which the row of a key of a table, by its entry of the catalog, was written, where a snapshot doesn't see it. None
/// where the key has no slot.
pub(crate) fn row_changed<D: Disk, O: Origin>(
    store: &mut Store<D, O>,
    entry: u8,
    key: i64,
    snapshot: &Snapshot,
    txns: &Txns,
) -> Result<Option<u64>, StoreFault>
    requires going { store.old.stopped ≡ false }
    requires there { entry < 32 }
    ensures tells { WhereSound O.first D.Disk (AreReadable (area_in store.old.now) → IfOk result (IsNewer txns.now.numbers.commits (site_of store.old.now) snapshot.now entry key)) }
    ensures refused { WhereSound O.first D.Disk (IsDatabaseState store.old.now → IfErr result (λ e. e ≡ Fault)) }
    ensures leaves { ReadsPages O.first D.Disk store.old store.new result }
{
    a_bucket_search_meets_no_damage();
    let found = match find(store, entry, key) {
        Err(fault) => return Err(fault),
        Ok(found) => found,
    };
    match found {
        None => Ok(None),
        Some(place) => newer(store, place, snapshot, txns),
    }
}
