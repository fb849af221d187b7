// BEGIN.
ghost use Rattle.std.specs.Prelude.{◌≡◌, ℕ, false, List};
ghost use Rattle.ctr_types.specs.declared.statement.Statement.TheVariants as st;
ghost use Rattle.ctr_types.specs.declared.tape.Act.TheVariants as act;
ghost use Rattle.ctr_base.specs.Base.{WhereSound};
ghost use Rattle.ctr_locks.specs.Held.{LocksOfSession};
ghost use Rattle.ctr_writing.specs.ctr_session_world.kept_Turns.{Start};
ghost use Rattle.ctr_writing.specs.ctr_session_world.txn_Held.{IsOneOfEight};
ghost use Rattle.ctr_writing.specs.ctr_session_world.Ready.{LeavesReady, StandOver, StaysUnasked};
ghost use Rattle.ctr_writing.specs.ctr_session_world.Told.{IsNextOf, IsActTold};

use ctr_base::Origin;
use ctr_disk::Disk;
use ctr_locks::key_locks_show;
use ctr_store::Store;
use ctr_types::{Refusal, Reply};
use ctr_writing::session_world::told::{a_begin_is_told, a_refusal_is_told};
use ctr_writing::session_world::{Txns, the_run_is_of_the_sessions};
use std::alloc::Global;

/// BEGIN: a session begins a transaction, whose snapshot is of the commits that are answered. It is refused inside a transaction, and for
/// want of memory, and then nothing changes.
pub fn begin<D: Disk, O: Origin>(
    alloc: Global,
    store: &Store<D, O>,
    txns: &mut Txns,
    s: u8,
) -> Reply
    requires one { IsOneOfEight s }
    ensures over { StandOver txns.old store.now → store.now.stopped ≡ false → LeavesReady s txns.old txns.new store.now store.now × StaysUnasked s txns.old txns.new }
    ensures told { (c : Start) (opened : D) (locks : List (ℕ × LocksOfSession)) → WhereSound O.first D.Disk (store.now.stopped ≡ false
        → (next : IsNextOf D.Disk c opened store.now store.now (record { txns = txns.old; locks = locks }) s st.Begin 0)
        → IsActTold next (record { txns = txns.new; locks = locks }) act.Begin result) }
{
    a_begin_is_told::<D>();
    a_refusal_is_told::<D>();
    the_run_is_of_the_sessions();
    key_locks_show();
    store.rests();
    txns.counts_sessions();
    if txns.txn(s).is_some() {
        return Reply::Refused {
            refusal: Refusal::InTransaction,
        };
    }
    match txns.begin(alloc, store.meta(), s) {
        Ok(n) => Reply::Began { n },
        Err(_) => Reply::Refused {
            refusal: Refusal::OutOfMemory,
        },
    }
}
