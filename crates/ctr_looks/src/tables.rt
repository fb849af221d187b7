// The Lock of a CREATE TABLE and of a DROP TABLE.
ghost use Rattle.std.specs.Prelude.{◌≡◌, true, IfOk, IfErr};
ghost use Rattle.ctr_types.specs.declared.tape.Act.TheVariants as act;
ghost use Rattle.ctr_disk.specs.declared.fault.StoreFault.TheVariants.{Fault};
ghost use Rattle.ctr_model.specs.Refusals.{changes_schema};
ghost use Rattle.ctr_base.specs.Base.{WhereSound};
ghost use Rattle.ctr_record_effects.specs.Standing.{IsDatabaseState};
ghost use Rattle.ctr_session_world.specs.kept_Turns.{Start, state_now};
ghost use Rattle.ctr_session_world.specs.Ready.{LeavesOver, MayTurn, LeavesDisk};
ghost use Rattle.ctr_session_world.specs.Told.{IsNextOf, IsActTold, IsIdleIn};
ghost use Rattle.ctr_looks.specs.Locking.{IsTableLocked, IsTableReadyBehind, table_locked_reply, table_write};

use crate::granting::grant_name;
use crate::laws::a_refused_look_is_told;
use crate::refusing::ask_act;
use ctr_asking::{Answer, Asker};
use ctr_base::Origin;
use ctr_disk::{Disk, StoreFault};
use ctr_locks::KeyLocks;
use ctr_session_world::{Txns, pages_that_are_read_keep_a_world, room_is_still_there};
use ctr_statement::{creates, table_of};
use ctr_store::Store;
use ctr_types::{Act, List, Name, Refusal, Statement};
use std::alloc::Global;

/// What the Write of a CREATE TABLE or a DROP TABLE will do.
#[derive(Clone, Copy, Debug, PartialEq, Eq)]
pub enum TableWrite {
    /// It makes the table.
    Make,
    /// It drops the one of this entry of the catalog.
    Drop(u8),
}

/// What a session is answered that locks a table's name.
#[derive(Clone, Copy, Debug, PartialEq, Eq)]
pub enum TableLocked {
    /// It is refused.
    Refused(Refusal),
    /// It is granted, and its Write will do this.
    Granted(TableWrite),
}

// What the statement will do, by the entry of its table that was found; None where it drops one that isn't there.
fn what_is_written(statement: &Statement, found: Option<u8>) -> Option<TableWrite>
    ensures { result ≡ table_write statement.now found }
{
    if creates(statement) {
        return Some(TableWrite::Make);
    }
    match found {
        None => None,
        Some(entry) => Some(TableWrite::Drop(entry)),
    }
}

/// The Lock of a CREATE TABLE or a DROP TABLE: of the table's name, with the session's number at its first. It is refused as the model refuses it, or for
/// want of memory, and then nothing changes. `stuck` are the names that recovery holds.
pub fn lock_table<D: Disk, O: Origin>(
    alloc: Global,
    store: &mut Store<D, O>,
    txns: &mut Txns,
    locks: &mut KeyLocks,
    stuck: &List<Name>,
    s: u8,
    statement: &Statement,
) -> Result<TableLocked, StoreFault>
    requires may { MayTurn s txns.old store.old }
    requires schema { changes_schema statement.now ≡ true }
    // Whatever the disk tells, its Write may be begun.
    ensures ready { IfOk result (IsTableLocked s txns.new statement.now) }
    ensures over { LeavesOver s txns.old txns.new store.old store.new result }
    ensures told { (c : Start) (opened : D) → WhereSound O.first D.Disk
        ((next : IsNextOf D.Disk c opened store.old store.new (record { txns = txns.old; locks = locks.old }) s statement.now 0) → stuck.now ≡ (state_now c next.mind).stuck → IsIdleIn c next.mind s
        → IfOk result (λ l. (told : IsActTold next (record { txns = txns.new; locks = locks.new }) act.Lock (table_locked_reply l)) × IsTableReadyBehind c s statement.now told.mind l)) }
    // Where the pages may be a database's, it is refused by the disk alone.
    ensures refused { WhereSound O.first D.Disk (IsDatabaseState store.old.now → IfErr result (λ e. e ≡ Fault)) }
    // However it ends, time doesn't go back, a fault is told where the disk counts one more, and a crash in it leaves what was hardened with
    // some of what waited.
    ensures disk { LeavesDisk O.first D.Disk store.old store.new result }
{
    a_refused_look_is_told::<D>();
    pages_that_are_read_keep_a_world::<D>();
    room_is_still_there::<D>();
    let Some(name) = table_of(statement) else {
        unreachable!()
    };
    let asker = Asker {
        s,
        txns,
        locks,
        stuck,
    };
    let answer = match ask_act(store, &asker, &Act::Lock, statement) {
        Err(fault) => return Err(fault),
        Ok(answer) => answer,
    };
    store.rests();
    match answer {
        Answer::Refused(refusal) => Ok(TableLocked::Refused(refusal)),
        Answer::Free(found) => match what_is_written(statement, found) {
            None => Ok(TableLocked::Refused(Refusal::NoTable)),
            Some(write) => match grant_name(alloc, store, txns, locks, s, name) {
                Err(fault) => Err(fault),
                Ok(why) => match why {
                    Some(refusal) => Ok(TableLocked::Refused(refusal)),
                    None => Ok(TableLocked::Granted(write)),
                },
            },
        },
    }
}
