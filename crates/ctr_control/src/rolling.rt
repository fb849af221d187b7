// ROLLBACK, turn by turn.
ghost use Rattle.std.specs.Prelude.{◌≡◌, ◌≤◌, ◌+◌, ℕ, Ok, None, OnOk, IfOk, IfErr};
ghost use Rattle.ctr_disk.specs.declared.fault.StoreFault.TheVariants.{Fault};
ghost use Rattle.ctr_types.specs.declared.statement.Statement.TheVariants as st;
ghost use Rattle.ctr_types.specs.declared.tape.Act.TheVariants as act;
ghost use Rattle.ctr_base.specs.Base.{WhereSound};
ghost use Rattle.ctr_writing.specs.ctr_session_world.kept_Turns.{Start};
ghost use Rattle.ctr_store.specs.Store.{View};
ghost use Rattle.ctr_writing.specs.ctr_session_world.txn_Held.{IsOneOfEight, IsWriting, number_drawn};
ghost use Rattle.ctr_writing.specs.ctr_session_world.txn_Calls.{MayEnd};
ghost use Rattle.ctr_writing.specs.ctr_session_world.txn_Rooms.{HasItemRoom};
ghost use Rattle.ctr_writing.specs.ctr_session_world.page_turns_Turns.{LogsAtRest};
ghost use Rattle.ctr_writing.specs.ctr_session_world.ctr_rollback.Rolling.{MayRoll, EndsRoll, RollsTxns, TakesSteps};
ghost use Rattle.ctr_control.specs.Rolling.{as_rolled};
ghost use Rattle.ctr_writing.specs.ctr_session_world.Ready.{LeavesOver, MayTurn, LeavesDisk};
ghost use Rattle.ctr_writing.specs.ctr_session_world.Told.{IsNextOf, TellsOrGoesOn};
ghost use Rattle.ctr_writing.specs.ctr_session_world.World.{SessionsHeld};

use ctr_base::Origin;
use ctr_disk::{Disk, StoreFault};
use ctr_locks::{KeyLocks, key_locks_show};
use ctr_store::Store;
use ctr_tally::Steps;
use ctr_types::{Refusal, Reply};
use ctr_writing::session_world::told::{a_reader_that_ends_is_told, a_refusal_is_told};
use ctr_writing::session_world::{
    Rolled, Txns, a_turn_of_a_rollback_is_kept, the_run_is_of_the_sessions, turn,
};
use std::sync::ledger::Ledger;

// A turn of a writer's rollback, behind which a crash leaves what is hardened with some of what waits.
fn undo_or_abort<D: Disk, O: Origin, L: Ledger>(
    store: &mut Store<D, O>,
    txns: &mut Txns,
    s: u8,
    steps: &mut Steps<L>,
) -> Result<Rolled, StoreFault>
    requires may { MayEnd s txns.old store.old }
    ensures logs { WhereSound O.first D.Disk (OnOk result (LogsAtRest D.Disk store.old store.new)) }
    ensures txns { RollsTxns s txns.old txns.new result }
    ensures over { HasItemRoom txns.old store.old.meta → LeavesOver s txns.old txns.new store.old store.new result }
    ensures rolls { WhereSound O.first D.Disk (MayRoll (number_drawn s txns.old) store.old.now → EndsRoll (number_drawn s txns.old) store.old.now store.new.now result) }
    ensures steps { TakesSteps result steps.old steps.new × OnOk result (store.new.next ≡ store.old.next + 1) }
    ensures disk { LeavesDisk O.first D.Disk store.old store.new result }
{
    txns.counts_sessions();
    let rolled = turn(store, txns, s, steps);
    store.rests();
    rolled
}

/// Who is at its ROLLBACK, and wrote, may take a turn of it in a World. A call does nothing: what it ensures is the law.
pub fn a_writer_may_roll_back<D: Disk>()
    ensures { (c : Start) (opened : D) (a b : View D) (h : SessionsHeld) (s : ℕ) → IsOneOfEight s → IsNextOf D.Disk c opened a b h s st.Rollback 0 → IsWriting s h.txns
        → MayRoll (number_drawn s h.txns) a.now }
{
    the_run_is_of_the_sessions();
}

/// A turn of a ROLLBACK: the reply, or None where it goes on at the session's next turn, and nothing is told yet. A transaction
/// that wrote undoes its latest item of the secondary log by one record a turn, and is aborted by one more when none is left; then its locks are free. One that
/// wrote nothing ends at once, with its locks, without a record. It takes no memory. Where an error is answered nothing was logged.
pub fn roll_back<D: Disk, O: Origin, L: Ledger>(
    store: &mut Store<D, O>,
    txns: &mut Txns,
    locks: &mut KeyLocks,
    s: u8,
    steps: &mut Steps<L>,
) -> Result<Option<Reply>, StoreFault>
    requires may { MayTurn s txns.old store.old }
    ensures over { LeavesOver s txns.old txns.new store.old store.new result }
    ensures told { (c : Start) (opened : D) → WhereSound O.first D.Disk ((next : IsNextOf D.Disk c opened store.old store.new (record { txns = txns.old; locks = locks.old }) s st.Rollback 0)
        → IfOk result (TellsOrGoesOn next (record { txns = txns.new; locks = locks.new }) act.Rollback)) }
    // Of one that wrote an item went, or there was none and it is aborted.
    ensures rolls { IsWriting s txns.old → WhereSound O.first D.Disk (MayRoll (number_drawn s txns.old) store.old.now
        → EndsRoll (number_drawn s txns.old) store.old.now store.new.now (as_rolled result)) }
    // Two steps at most; and where it goes on, or the transaction wrote, a record was logged.
    ensures steps { (steps.new ≤ steps.old + 2) × (result ≡ Ok None → store.new.next ≡ store.old.next + 1) × (IsWriting s txns.old → OnOk result (store.new.next ≡ store.old.next + 1)) }
    // In a World it fails by the disk alone.
    ensures refused { (c : Start) (opened : D) → WhereSound O.first D.Disk (IsNextOf D.Disk c opened store.old store.new (record { txns = txns.old; locks = locks.old }) s st.Rollback 0 → IfErr result (λ e. e ≡ Fault)) }
    // However it ends, time doesn't go back, a fault is told where the disk counts one more, and a crash in it leaves what was hardened with
    // some of what waited.
    ensures disk { LeavesDisk O.first D.Disk store.old store.new result }
{
    a_turn_of_a_rollback_is_kept::<D>();
    a_reader_that_ends_is_told::<D>();
    a_refusal_is_told::<D>();
    the_run_is_of_the_sessions();
    key_locks_show();
    store.rests();
    txns.counts_sessions();
    txns.numbers_commits();
    if txns.is_writing(s) {
        return match undo_or_abort(store, txns, s, steps) {
            Ok(Rolled::Undone) => Ok(None),
            Ok(Rolled::Back) => {
                locks.release_all(s);
                Ok(Some(Reply::RolledBack))
            }
            Err(fault) => Err(fault),
        };
    }
    if txns.is_reading(s) {
        txns.end_reader(s);
        locks.release_all(s);
        return Ok(Some(Reply::RolledBack));
    }
    Ok(Some(Reply::Refused {
        refusal: Refusal::NoTransaction,
    }))
}
