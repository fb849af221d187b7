// A slot, and a version entry, by its place.
ghost use Rattle.std.specs.Prelude.{◌≡◌, ◌<◌, ℕ, false, IfOk, IfErr};
ghost use Rattle.ctr_disk.specs.declared.fault.StoreFault.TheVariants.{Fault};
ghost use Rattle.ctr_base.specs.Base.{WhereSound};
ghost use Rattle.ctr_load.specs.Statements.{load_columns};
ghost use Rattle.ctr_area.specs.Chains.{slot_places, older_places};
ghost use Rattle.ctr_area.specs.Reading.{columns_on};
ghost use Rattle.ctr_area.specs.Sound.{IsAmong};
ghost use Rattle.ctr_record_effects.specs.States.{pages_in, area_in};
ghost use Rattle.ctr_record_effects.specs.Standing.{IsDatabaseState};
ghost use Rattle.ctr_walk.specs.Damage.{ReadsPages};
ghost use Rattle.ctr_totals.specs.Facts.{IsKnownSlot, IsKnownOlder};

use crate::facts::{OlderFacts, SlotFacts, older_facts, slot_facts};
use ctr_base::Origin;
use ctr_cursor::{a_row_is_read_without_damage, a_version_entry_is_read_without_damage};
use ctr_disk::{Disk, StoreFault};
use ctr_page::Place;
use ctr_pvs::{row, version};
use ctr_store::Store;

/// What there is to know of the slot at a place.
pub(crate) fn look_slot<D: Disk, O: Origin>(
    store: &mut Store<D, O>,
    place: Place,
) -> Result<SlotFacts, StoreFault>
    requires going { store.old.stopped ≡ false }
    requires counted { place.page < store.old.now.counted }
    ensures tells { WhereSound O.first D.Disk (columns_on (pages_in store.old.now) place.page ≡ load_columns → IfOk result (IsKnownSlot ((area_in store.old.now).slot place))) }
    ensures leaves { ReadsPages O.first D.Disk store.old store.new result }
    ensures refused { (e : ℕ) → WhereSound O.first D.Disk (IsDatabaseState store.old.now → IsAmong place (slot_places (area_in store.old.now) e) → IfErr result (λ f. f ≡ Fault)) }
{
    a_row_is_read_without_damage();
    match row(store, place) {
        Err(fault) => Err(fault),
        Ok(lent) => Ok(slot_facts(&lent)),
    }
}

/// What there is to know of the version entry at a place.
pub(crate) fn look_older<D: Disk, O: Origin>(
    store: &mut Store<D, O>,
    place: Place,
) -> Result<OlderFacts, StoreFault>
    requires going { store.old.stopped ≡ false }
    requires counted { place.page < store.old.now.counted }
    ensures tells { WhereSound O.first D.Disk (columns_on (pages_in store.old.now) place.page ≡ load_columns → IfOk result (IsKnownOlder ((area_in store.old.now).older place))) }
    ensures leaves { ReadsPages O.first D.Disk store.old store.new result }
    ensures refused { (e : ℕ) → WhereSound O.first D.Disk (IsDatabaseState store.old.now → IsAmong place (older_places (area_in store.old.now) e) → IfErr result (λ f. f ≡ Fault)) }
{
    a_version_entry_is_read_without_damage();
    match version(store, place) {
        Err(fault) => Err(fault),
        Ok(lent) => Ok(older_facts(&lent)),
    }
}
