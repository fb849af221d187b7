// The newest committed version of a row.
ghost use Rattle.std.specs.Prelude.{◌≡◌, ◌<◌, ℕ, ℤ, false, IfOk, IfErr};
ghost use Rattle.ctr_disk.specs.declared.fault.StoreFault.TheVariants.{Fault};
ghost use Rattle.ctr_base.specs.Base.{WhereSound};
ghost use Rattle.ctr_load.specs.Statements.{load_columns};
ghost use Rattle.ctr_area.specs.Chains.{older_bound, slot_places, Leads};
ghost use Rattle.ctr_area.specs.Images.{is_committed_in};
ghost use Rattle.ctr_area.specs.Sound.{IsAmong, IsKeptFor};
ghost use Rattle.ctr_record_effects.specs.States.{area_in};
ghost use Rattle.ctr_record_effects.specs.Standing.{IsDatabaseState};
ghost use Rattle.ctr_walk.specs.Damage.{ReadsPages};
ghost use Rattle.ctr_totals.specs.Facts.{number_along, number_at};

use crate::facts::{is_committed, seen_in};
use crate::looking::{look_older, look_slot};
use ctr_base::Origin;
use ctr_cursor::a_place_of_a_table_fits;
use ctr_disk::{Disk, StoreFault};
use ctr_page::Place;
use ctr_store::Store;

/// As many version entries as stand on all pages that can be counted: no chain has more.
const MOST_OLDER: u32 = 5_100_000;

/// The number of the first committed version of a chain that begins at a place, behind a slot; none where there is none, or it is a tombstone. Each
/// version entry up to that is read.
fn seen_along<D: Disk, O: Origin>(
    store: &mut Store<D, O>,
    from: Place,
) -> Result<Option<i64>, StoreFault>
    requires going { store.old.stopped ≡ false }
    ensures tells { (e : ℕ) (key : ℤ) → WhereSound O.first D.Disk (IsDatabaseState store.old.now → ((area_in store.old.now).title e).columns ≡ load_columns
        → Leads older_bound (area_in store.old.now).older (IsKeptFor (area_in store.old.now) e key) from
        → IfOk result (λ n. n ≡ number_along (is_committed_in store.old.now.tables) (area_in store.old.now) older_bound from)) }
    ensures leaves { ReadsPages O.first D.Disk store.old store.new result }
    ensures refused { (e : ℕ) (key : ℤ) → WhereSound O.first D.Disk (IsDatabaseState store.old.now → ((area_in store.old.now).title e).columns ≡ load_columns
        → Leads older_bound (area_in store.old.now).older (IsKeptFor (area_in store.old.now) e key) from → IfErr result (λ f. f ≡ Fault)) }
{
    a_place_of_a_table_fits();
    store.rests();
    let mut at = from;
    let mut left = MOST_OLDER;
    while left != 0 {
        if at.page == 0 {
            return Ok(None);
        }
        if at.page >= store.counted() {
            return Ok(None);
        }
        match look_older(store, at) {
            Err(fault) => return Err(fault),
            Ok(facts) => {
                if is_committed(store.meta(), facts.version.xid) {
                    return Ok(facts.version.number);
                }
                at = facts.next;
            }
        }
        left -= 1;
    }
    Ok(None)
}

/// The number of the newest committed version of the row at a slot of a table; none where the slot isn't used, no version is committed, or
/// that one is a tombstone. It logs nothing, and takes no memory.
pub(crate) fn seen_at<D: Disk, O: Origin>(
    store: &mut Store<D, O>,
    place: Place,
) -> Result<Option<i64>, StoreFault>
    requires going { store.old.stopped ≡ false }
    requires counted { place.page < store.old.now.counted }
    ensures tells { (e : ℕ) → WhereSound O.first D.Disk (IsDatabaseState store.old.now → ((area_in store.old.now).title e).columns ≡ load_columns
        → IsAmong place (slot_places (area_in store.old.now) e)
        → IfOk result (λ n. n ≡ number_at (is_committed_in store.old.now.tables) (area_in store.old.now) place)) }
    ensures leaves { ReadsPages O.first D.Disk store.old store.new result }
    ensures refused { (e : ℕ) → WhereSound O.first D.Disk (IsDatabaseState store.old.now → ((area_in store.old.now).title e).columns ≡ load_columns
        → IsAmong place (slot_places (area_in store.old.now) e) → IfErr result (λ f. f ≡ Fault)) }
{
    a_place_of_a_table_fits();
    match look_slot(store, place) {
        Err(fault) => Err(fault),
        Ok(facts) => match seen_in(store.meta(), &facts) {
            Some(number) => Ok(number),
            None => seen_along(store, facts.next),
        },
    }
}
