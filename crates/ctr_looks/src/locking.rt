// The Lock of an INSERT, UPDATE or DELETE.
ghost use Rattle.std.specs.Prelude.{◌≡◌, ◌<◌, ℕ, true, is_some, IfOk, IfErr};
ghost use Rattle.ctr_types.specs.declared.tape.Act.TheVariants as act;
ghost use Rattle.ctr_disk.specs.declared.fault.StoreFault.TheVariants.{Fault};
ghost use Rattle.ctr_model.specs.Refusals.{key_written};
ghost use Rattle.ctr_base.specs.Base.{WhereSound};
ghost use Rattle.ctr_record_effects.specs.Standing.{IsDatabaseState};
ghost use Rattle.ctr_session_world.specs.actions_Facts.{Fact};
ghost use Rattle.ctr_session_world.specs.kept_Turns.{Start, state_now};
ghost use Rattle.ctr_session_world.specs.txn_Held.{TxnsHeld};
ghost use Rattle.ctr_session_world.specs.ctr_told.Turning.{IdleCountsOn};
ghost use Rattle.ctr_asking.specs.Asking.{IsInside};
ghost use Rattle.ctr_session_world.specs.Ready.{LeavesOver, MayTurn, LeavesDisk};
ghost use Rattle.ctr_session_world.specs.Told.{IsNextOf, IsActTold, IsIdleIn};
ghost use Rattle.ctr_looks.specs.Granting.{IsUnopposed};
ghost use Rattle.ctr_looks.specs.Asked.{StandsAt};
ghost use Rattle.ctr_looks.specs.Granting.{WritesRowOf};
ghost use Rattle.ctr_asking.specs.ctr_wishes.ctr_reading.Reading.{IsDiskOrMemory};
ghost use Rattle.ctr_looks.specs.Locking.{IsReadyLocked, IsReadyBehind, locked_reply, locked_unread};

use crate::granting::grant_row;
use crate::grants::a_look_that_wants_memory_is_told;
use crate::laws::a_refused_look_is_told;
use crate::refusing::ask_act;
use crate::taking::RowAt;
use ctr_asking::wishes::reading::Sight;
use ctr_asking::wishes::{
    Prepared, ReadRefusal, prepare, what_is_prepared_is_the_models,
    what_is_prepared_stays_the_models,
};
use ctr_asking::{Answer, Asker, me_of};
use ctr_base::Origin;
use ctr_disk::{Disk, StoreFault};
use ctr_locks::KeyLocks;
use ctr_session_world::{Txns, pages_that_are_read_keep_a_world, room_is_still_there};
use ctr_statement::{key_written, table_of};
use ctr_store::Store;
use ctr_types::{Act, List, Name, Refusal, Statement};
use std::alloc::Global;

/// What a session is answered that locks a row.
#[derive(Drop)]
pub enum Locked {
    /// It is refused.
    Refused(Refusal),
    /// It is granted: the row's table has this entry of the catalog, and its Write will do this.
    Granted { entry: u8, prepared: Prepared },
}

// What is answered where what the Write will do isn't read: the disk's failure, or a refusal for want of memory.
fn unread(refusal: ReadRefusal) -> Result<Locked, StoreFault>
    ensures said { result ≡ locked_unread refusal }
    ensures ready { (s : ℕ) (txns : TxnsHeld) → IfOk result (IsReadyLocked s txns) }
    ensures refused { IsDiskOrMemory refusal → IfErr result (λ e. e ≡ Fault) }
{
    match refusal {
        ReadRefusal::Store(fault) => Err(fault),
        ReadRefusal::OutOfMemory => Ok(Locked::Refused(Refusal::OutOfMemory)),
    }
}

// Of a row whose Lock nothing speaks against.
fn lock_found<D: Disk, O: Origin>(
    alloc: Global,
    store: &mut Store<D, O>,
    txns: &mut Txns,
    locks: &mut KeyLocks,
    s: u8,
    row: &RowAt,
    statement: &Statement,
) -> Result<Locked, StoreFault>
    requires inside { IsInside s txns.old }
    requires there { row.now.entry < 32 }
    requires writes { is_some (key_written statement.now) ≡ true }
    requires may { MayTurn s txns.old store.old }
    ensures ready { IfOk result (IsReadyLocked s txns.new) }
    ensures over { LeavesOver s txns.old txns.new store.old store.new result }
    ensures told { (c : Start) (opened : D) (more : List Fact) → WhereSound O.first D.Disk
        ((next : IsNextOf D.Disk c opened store.old store.new (record { txns = txns.old; locks = locks.old }) s statement.now 0) → (free : IsUnopposed next act.Lock) → StandsAt free row.now.name.now row.now.entry → WritesRowOf next row.now
        → IdleCountsOn free.txn.session.me more (next.mind.facts s)
        → IfOk result (λ l. (told : IsActTold next (record { txns = txns.new; locks = locks.new }) act.Lock (locked_reply l)) × IsReadyBehind c s statement.now told.mind l)) }
    ensures refused { WhereSound O.first D.Disk (IsDatabaseState store.old.now → IfErr result (λ e. e ≡ Fault)) }
    ensures disk { LeavesDisk O.first D.Disk store.old store.new result }
{
    a_look_that_wants_memory_is_told::<D>();
    pages_that_are_read_keep_a_world::<D>();
    room_is_still_there::<D>();
    what_is_prepared_is_the_models();
    what_is_prepared_stays_the_models();
    let Some(txn) = txns.txn(s) else {
        unreachable!()
    };
    let sight = Sight {
        snapshot: &txn.snapshot,
        me: me_of(txn),
    };
    let read = prepare(alloc, store, &sight, row.entry, statement);
    store.rests();
    let prepared = match read {
        Err(refusal) => return unread(refusal),
        Ok(prepared) => prepared,
    };
    match grant_row(alloc, store, txns, locks, s, row) {
        Err(fault) => Err(fault),
        Ok(why) => match why {
            Some(refusal) => Ok(Locked::Refused(refusal)),
            None => Ok(Locked::Granted {
                entry: row.entry,
                prepared,
            }),
        },
    }
}

/// The Lock of an INSERT, UPDATE or DELETE: a use of its table, the lock of its row's key and, at the session's first Lock, its number, by one record. What
/// the Write will do is worked out here, since only here memory may be asked for. It is refused as the model refuses it, or for want of memory, and then
/// nothing changes. `stuck` are the names that recovery holds.
pub fn lock_row<D: Disk, O: Origin>(
    alloc: Global,
    store: &mut Store<D, O>,
    txns: &mut Txns,
    locks: &mut KeyLocks,
    stuck: &List<Name>,
    s: u8,
    statement: &Statement,
) -> Result<Locked, StoreFault>
    requires may { MayTurn s txns.old store.old }
    requires writes { is_some (key_written statement.now) ≡ true }
    ensures ready { IfOk result (IsReadyLocked s txns.new) }
    ensures over { LeavesOver s txns.old txns.new store.old store.new result }
    ensures told { (c : Start) (opened : D) → WhereSound O.first D.Disk
        ((next : IsNextOf D.Disk c opened store.old store.new (record { txns = txns.old; locks = locks.old }) s statement.now 0) → stuck.now ≡ (state_now c next.mind).stuck → IsIdleIn c next.mind s
        → IfOk result (λ l. (told : IsActTold next (record { txns = txns.new; locks = locks.new }) act.Lock (locked_reply l)) × IsReadyBehind c s statement.now told.mind l)) }
    // Where the pages may be a database's, it is refused by the disk alone.
    ensures refused { WhereSound O.first D.Disk (IsDatabaseState store.old.now → IfErr result (λ e. e ≡ Fault)) }
    // However it ends, time doesn't go back, a fault is told where the disk counts one more, and a crash in it leaves what was hardened with
    // some of what waited.
    ensures disk { LeavesDisk O.first D.Disk store.old store.new result }
{
    a_refused_look_is_told::<D>();
    pages_that_are_read_keep_a_world::<D>();
    room_is_still_there::<D>();
    let Some(name) = table_of(statement) else {
        unreachable!()
    };
    let Some(key) = key_written(statement) else {
        unreachable!()
    };
    let asker = Asker {
        s,
        txns,
        locks,
        stuck,
    };
    let answer = match ask_act(store, &asker, &Act::Lock, statement) {
        Err(fault) => return Err(fault),
        Ok(answer) => answer,
    };
    store.rests();
    match answer {
        Answer::Refused(refusal) => Ok(Locked::Refused(refusal)),
        Answer::Free(found) => match found {
            None => Ok(Locked::Refused(Refusal::NoTable)),
            Some(entry) => {
                let row = RowAt { entry, name, key };
                lock_found(alloc, store, txns, locks, s, &row, statement)
            }
        },
    }
}
