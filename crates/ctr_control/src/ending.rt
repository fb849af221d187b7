// COMMIT's first act.
ghost use Rattle.std.specs.Prelude.{◌≡◌, false, true, IfOk, IfErr};
ghost use Rattle.ctr_disk.specs.declared.fault.StoreFault.TheVariants.{Fault};
ghost use Rattle.ctr_types.specs.declared.statement.Statement.TheVariants as st;
ghost use Rattle.ctr_types.specs.declared.tape.Act.TheVariants as act;
ghost use Rattle.ctr_model.specs.Laws.{is_asked};
ghost use Rattle.ctr_model.specs.Tape.{goes_on};
ghost use Rattle.ctr_base.specs.Base.{WhereSound};
ghost use Rattle.ctr_writing.specs.ctr_session_world.kept_Turns.{Start};
ghost use Rattle.ctr_writing.specs.ctr_session_world.txn_Held.{txn_of};
ghost use Rattle.ctr_writing.specs.ctr_session_world.Ready.{LeavesReady, MayTurn, StaysUnasked, LeavesDisk, is_asking};
ghost use Rattle.ctr_writing.specs.ctr_session_world.Told.{IsNextOf, IsActTold, IsIdleIn};

use crate::marks::ask_for;
use ctr_base::Origin;
use ctr_disk::{Disk, StoreFault};
use ctr_locks::{KeyLocks, key_locks_show};
use ctr_store::Store;
use ctr_types::{Refusal, Reply};
use ctr_writing::session_world::told::{
    a_commit_that_is_asked_for_is_told, a_reader_that_ends_is_told, a_refusal_is_told,
};
use ctr_writing::session_world::{Txns, the_run_is_of_the_sessions};

/// COMMIT's first act, of the statement of this number: a transaction that wrote asks for its commit, by one record, and gets the next
/// commit number; one that wrote nothing ends, with its locks. It takes no memory.
pub fn ask<D: Disk, O: Origin>(
    store: &mut Store<D, O>,
    txns: &mut Txns,
    locks: &mut KeyLocks,
    s: u8,
    statement: u64,
) -> Result<Reply, StoreFault>
    requires may { MayTurn s txns.old store.old }
    // It has asked for its commit then where it is told so, and there alone.
    ensures over { IfOk result (λ r. LeavesReady s txns.old txns.new store.old store.new × (is_asked r ≡ false → StaysUnasked s txns.old txns.new)
        × (is_asked r ≡ true → is_asking (txn_of s txns.new) ≡ true)) }
    // Who is told no number has finished its COMMIT.
    ensures ends { IfOk result (λ r. is_asked r ≡ false → goes_on r ≡ false) }
    ensures told { (c : Start) (opened : D) → WhereSound O.first D.Disk ((next : IsNextOf D.Disk c opened store.old store.new (record { txns = txns.old; locks = locks.old }) s st.Commit 0) → IsIdleIn c next.mind s
        → IfOk result (IsActTold next (record { txns = txns.new; locks = locks.new }) act.Ask)) }
    // In a World it fails by the disk alone.
    ensures refused { (c : Start) (opened : D) → WhereSound O.first D.Disk ((next : IsNextOf D.Disk c opened store.old store.new (record { txns = txns.old; locks = locks.old }) s st.Commit 0) → IsIdleIn c next.mind s
        → IfErr result (λ e. e ≡ Fault)) }
    // However it ends, time doesn't go back, a fault is told where the disk counts one more, and a crash in it leaves what was hardened with
    // some of what waited.
    ensures disk { LeavesDisk O.first D.Disk store.old store.new result }
{
    a_commit_that_is_asked_for_is_told::<D>();
    a_reader_that_ends_is_told::<D>();
    a_refusal_is_told::<D>();
    the_run_is_of_the_sessions();
    key_locks_show();
    store.rests();
    txns.numbers_commits();
    if txns.is_writing(s) {
        return match ask_for(store, txns, s, statement) {
            Ok(k) => Ok(Reply::Asked { k }),
            Err(fault) => Err(fault),
        };
    }
    if txns.is_reading(s) {
        txns.end_reader(s);
        locks.release_all(s);
        return Ok(Reply::ReadOnly);
    }
    Ok(Reply::Refused {
        refusal: Refusal::NoTransaction,
    })
}
