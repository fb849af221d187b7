// What a step of the cleaner did, and what it knows of a slot.
ghost use Rattle.std.specs.Prelude.{◌≡◌, ◌<◌, ℕ, false, IfOk, IfErr};
ghost use Rattle.ctr_disk.specs.declared.fault.StoreFault.TheVariants.{Fault};
ghost use Rattle.ctr_pvs.specs.base_Base.{WhereSound};
ghost use Rattle.ctr_area.specs.Chains.{slot_places};
ghost use Rattle.ctr_area.specs.Sound.{IsAmong};
ghost use Rattle.ctr_record_effects.specs.States.{area_in};
ghost use Rattle.ctr_record_effects.specs.Standing.{IsDatabaseState};
ghost use Rattle.ctr_pvs.specs.walk_Damage.{ReadsPages};
ghost use Rattle.ctr_clean.specs.Choosing.{TellsSlot};

use crate::choosing::{SlotFacts, facts_of};
use ctr_dead::a_row_is_read_without_damage;
use ctr_disk::{Disk, StoreFault};
use ctr_page::Place;
use ctr_pvs::{Origin, Store, row};

/// What a step of the cleaner did.
#[derive(Clone, Copy, Debug, PartialEq, Eq)]
pub enum Step {
    /// It logged one record.
    Cleaned,
    /// There was nothing to do.
    Nothing,
    /// It didn't see whether there is anything to do: a row's chain goes on beyond the version entries that a step looks at, or a version entry is
    /// of a commit that somebody may not see yet.
    Beyond,
}

/// What there is to know of the slot at a place. One page is read. It logs nothing, and takes no memory.
pub fn look_at<D: Disk, O: Origin>(
    store: &mut Store<D, O>,
    place: Place,
) -> Result<SlotFacts, StoreFault>
    requires going { store.old.stopped ≡ false }
    requires counted { place.page < store.old.now.counted }
    ensures tells { WhereSound O.first D.Disk (IfOk result (TellsSlot ((area_in store.old.now).slot place))) }
    ensures leaves { ReadsPages O.first D.Disk store.old store.new result }
    ensures refused { (e : ℕ) → WhereSound O.first D.Disk (IsDatabaseState store.old.now → IsAmong place (slot_places (area_in store.old.now) e) → IfErr result (λ f. f ≡ Fault)) }
{
    a_row_is_read_without_damage();
    match row(store, place) {
        Err(fault) => Err(fault),
        Ok(lent) => Ok(facts_of(&lent)),
    }
}
