// The totals of a database.
ghost use Rattle.std.specs.Prelude.{◌≡◌, ℕ, false, IfOk, IfErr};
ghost use Rattle.ctr_disk.specs.declared.fault.StoreFault.TheVariants.{Fault};
ghost use Rattle.ctr_base.specs.Base.{WhereSound};
ghost use Rattle.ctr_model.specs.Database.{after_all};
ghost use Rattle.ctr_record_effects.specs.Standing.{IsDatabaseState};
ghost use Rattle.ctr_actions.specs.Sites.{site_of};
ghost use Rattle.ctr_stops.specs.Fronts.{rows_of_state};
ghost use Rattle.ctr_stops.specs.paged_Shown.{Scene, IsShown};
ghost use Rattle.ctr_walk.specs.Damage.{ReadsPages};
ghost use Rattle.ctr_totals.specs.Totals.{AreTotals};

use crate::columns::fits;
use crate::counting::{Totals, count};
use crate::finding::find;
use ctr_base::Origin;
use ctr_disk::{Disk, StoreFault};
use ctr_paged::the_image_is_what_asked;
use ctr_store::Store;

/// The totals of the rows of the pages.
fn totals_of_rows<D: Disk, O: Origin>(store: &mut Store<D, O>) -> Result<Totals, StoreFault>
    requires going { store.old.stopped ≡ false }
    ensures counts { WhereSound O.first D.Disk (IsDatabaseState store.old.now → IfOk result (AreTotals (rows_of_state store.old.now))) }
    ensures refused { WhereSound O.first D.Disk (IsDatabaseState store.old.now → IfErr result (λ f. f ≡ Fault)) }
    ensures leaves { ReadsPages O.first D.Disk store.old store.new result }
{
    let found = match find(store) {
        Err(fault) => return Err(fault),
        Ok(found) => found,
    };
    let Some(entry) = found else {
        return Ok(Totals::NONE);
    };
    match fits(store, entry) {
        Err(fault) => Err(fault),
        Ok(false) => Ok(Totals::NONE),
        Ok(true) => count(store, entry),
    }
}

/// How many committed rows the table `load` has, and the sum of its second column; both 0 where there is no such table, or it has other columns than
/// those of a generated script. The entries of the catalog are gone through, and the slots of this one table. It logs nothing, and takes no
/// memory.
pub fn totals<D: Disk, O: Origin>(store: &mut Store<D, O>) -> Result<Totals, StoreFault>
    requires going { store.old.stopped ≡ false }
    ensures counts { WhereSound O.first D.Disk (IsDatabaseState store.old.now → IfOk result (AreTotals (rows_of_state store.old.now))) }
    // Where sessions go on, they are those of the base with all that asked for a commit.
    ensures shown { (low : ℕ) (a : Scene) → WhereSound O.first D.Disk (IsDatabaseState store.old.now → IsShown low (site_of store.old.now) a
        → IfOk result (AreTotals (after_all a.state.asked a.state.base))) }
    // There it is refused for no other cause than that the disk failed.
    ensures refused { WhereSound O.first D.Disk (IsDatabaseState store.old.now → IfErr result (λ f. f ≡ Fault)) }
    // It logs nothing; and a fault is told where the disk counts one more, by `a_fault_of_reading_is_counted`.
    ensures leaves { ReadsPages O.first D.Disk store.old store.new result }
{
    the_image_is_what_asked();
    totals_of_rows(store)
}
