// Why the next act of a session is refused, or that nothing speaks against it.
ghost use Rattle.std.specs.Prelude.{◌≡◌, IsSome, IfOk, IfErr};
ghost use Rattle.ctr_disk.specs.declared.fault.StoreFault.TheVariants.{Fault};
ghost use Rattle.ctr_model.specs.Refusals.{table_of};
ghost use Rattle.ctr_base.specs.Base.{WhereSound};
ghost use Rattle.ctr_record_effects.specs.Standing.{IsDatabaseState};
ghost use Rattle.ctr_asking.specs.walk_Damage.{ReadsPages};
ghost use Rattle.ctr_store.specs.Store.{View};
ghost use Rattle.ctr_session_world.specs.kept_Turns.{Start, state_now};
ghost use Rattle.ctr_asking.specs.Asking.{IsInside, IsInCatalog};
ghost use Rattle.ctr_session_world.specs.Ready.{MayTurn};
ghost use Rattle.ctr_session_world.specs.Told.{IsNextOf};
ghost use Rattle.ctr_looks.specs.Asked.{IsLook, IsFirstOf, IsAsked, FreesInside};

use crate::laws::a_session_in_a_world_may_look;
use ctr_asking::{Answer, Asker, a_table_that_is_free_is_undropped, ask};
use ctr_base::Origin;
use ctr_disk::{Disk, StoreFault};
use ctr_session_world::{the_run_is_of_the_sessions, who_rolls_back_is_at_its_rollback};
use ctr_store::Store;
use ctr_types::{Act, Refusal, Statement};

/// Why a Lock or a Read of a session's next statement is refused, or that nothing speaks against it. It reads pages, and takes no memory.
pub(crate) fn ask_act<D: Disk, O: Origin>(
    store: &mut Store<D, O>,
    asker: &Asker,
    act: &Act,
    statement: &Statement,
) -> Result<Answer, StoreFault>
    requires may { MayTurn asker.now.s asker.now.txns.now store.old }
    requires of_table { IsSome (table_of statement.now) }
    ensures inside { IfOk result IsInCatalog }
    // Who isn't refused is in a transaction.
    ensures in_it { IfOk result (FreesInside asker.now.s asker.now.txns.now) }
    ensures asked { (c : Start) (opened : D) (b : View D) → WhereSound O.first D.Disk ((next : IsNextOf D.Disk c opened store.old b (record { txns = asker.now.txns.now; locks = asker.now.locks.now }) asker.now.s statement.now 0)
        → asker.now.stuck.now ≡ (state_now c next.mind).stuck → IsLook act.now → IsFirstOf act.now statement.now → IfOk result (IsAsked next act.now)) }
    ensures refused { WhereSound O.first D.Disk (IsDatabaseState store.old.now → IfErr result (λ e. e ≡ Fault)) }
    ensures leaves { ReadsPages O.first D.Disk store.old store.new result }
{
    a_session_in_a_world_may_look::<D>();
    a_table_that_is_free_is_undropped();
    the_run_is_of_the_sessions();
    who_rolls_back_is_at_its_rollback();
    store.rests();
    if asker.txns.txn(asker.s).is_none() {
        return Ok(Answer::Refused(Refusal::NoTransaction));
    }
    match ask(store, asker, act, statement) {
        Ok(answer) => Ok(answer),
        Err(fault) => Err(fault),
    }
}
