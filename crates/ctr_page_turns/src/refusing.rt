// Why a record of a turn isn't logged.
ghost use Rattle.std.specs.Prelude.{◌≡◌, ℕ, Result, IfErr};
ghost use Rattle.ctr_disk.specs.declared.fault.StoreFault.{StoreFault};
ghost use Rattle.ctr_disk.specs.declared.fault.StoreFault.TheVariants.{Fault};
ghost use Rattle.ctr_rec.specs.declared.record.Overlay.{Overlay};
ghost use Rattle.ctr_walk.specs.record_effects_Standing.{IsDatabaseState};
ghost use Rattle.ctr_passed.specs.actions_Sites.{site_of};
ghost use Rattle.ctr_passed.specs.actions_Actions.{Action, Owes};
ghost use Rattle.ctr_passed.specs.actions_Records.{record_of};
ghost use Rattle.ctr_walk.specs.store_Store.{View};
ghost use Rattle.ctr_walk.specs.OneRecord.{WhyNotLogged};

use ctr_disk::Disk;
use ctr_passed::{an_action_meets_its_needs, pages_are_in_bounds};

/// The record of an action that owes nothing more fits the tables, so it is refused for no other cause than that the disk failed.
pub fn a_record_is_refused_by_the_disk_alone<D: Disk, T>()
    ensures { (x : ℕ) (a : Action) (o : Overlay) (v w : View D) (result : Result T StoreFault) → IsDatabaseState v.now → Owes x a (site_of v.now)
        → v.meta.tables ≡ v.now.tables → IfErr result (WhyNotLogged (record_of x a (site_of v.now) o) v w) → IfErr result (λ e. e ≡ Fault) }
{
    an_action_meets_its_needs();
    pages_are_in_bounds();
}
