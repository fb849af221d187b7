// A turn of an act of a session's statement, by the kind of the statement.
ghost use Rattle.std.specs.Prelude.{◌≡◌, ◌≤◌, ◌+◌, ℕ, List, true, is_some, IfOk};
ghost use Rattle.ctr_types.specs.declared.statement.Statement.TheVariants as st;
ghost use Rattle.ctr_model.specs.Refusals.{changes_schema, key_written};
ghost use Rattle.ctr_base.specs.Base.{WhereSound};
ghost use Rattle.ctr_control.specs.kept_Turns.{Start, state_now};
ghost use Rattle.ctr_locks.specs.Held.{LocksOfSession};
ghost use Rattle.ctr_control.specs.txn_Held.{IsWriting, number_drawn};
ghost use Rattle.ctr_control.specs.ctr_session_world.Ready.{MayTurn, LeavesDisk};
ghost use Rattle.ctr_control.specs.ctr_session_world.Told.{IsIdleIn, IsNextOf};
ghost use Rattle.ctr_control.specs.ctr_writing.ctr_looks.Selecting.{IsSelect};
ghost use Rattle.ctr_control.specs.ctr_writing.Tables.{HasFittingColumns};
ghost use Rattle.ctr_exec.specs.declared.runners.Stage.TheVariants as stages;
ghost use Rattle.ctr_exec.specs.Runners.{made_at};
ghost use Rattle.ctr_exec.specs.Acting.{number_told, MayAct, LeavesAct, LeavesSessions, IsMidway, RollsAct, TurnOfAct};

use crate::runners::Stage;
use ctr_base::Origin;
use ctr_control::session_world::a_session_is_idle_behind_a_reply;
use ctr_control::writing::looks::wishes::Prepared;
use ctr_control::writing::looks::{
    Locked, TableLocked, TableWrite, lock_row, lock_table, read, writes,
};
use ctr_control::writing::{Wrote, write_row, write_table};
use ctr_control::{Txns, a_writer_may_roll_back, ask, begin, roll_back};
use ctr_disk::{Disk, StoreFault};
use ctr_locks::KeyLocks;
use ctr_store::Store;
use ctr_tally::Steps;
use ctr_types::{Act, List, Name, Reply, Statement};
use std::alloc::Global;
use std::sync::ledger::Ledger;

/// What a turn of an act came to.
#[derive(Drop)]
pub enum Acted {
    /// It goes on at its session's next turn, which is in the middle of this.
    On(Stage),
    /// A Lock was granted, and the session is in the middle of this: its Write is next.
    Granted(Stage),
    /// A commit was asked for, and has this number.
    Asked { k: u64 },
    /// The act ended its statement, with this reply.
    Ended { act: Act, reply: Reply },
}

// BEGIN's.
fn begun<D: Disk, O: Origin>(
    alloc: Global,
    store: &mut Store<D, O>,
    txns: &mut Txns,
    s: u8,
) -> Result<Acted, StoreFault>
    requires may { MayTurn s txns.old store.old }
    ensures ready { IfOk result (LeavesAct stages.Between s st.Begin txns.new store.new.now.counted) }
    ensures over { IfOk result (LeavesSessions s txns.old txns.new store.old store.new) }
    ensures told { (c : Start) (opened : D) (locks : List (ℕ × LocksOfSession)) → WhereSound O.first D.Disk ((next : IsNextOf D.Disk c opened store.old store.new (record { txns = txns.old; locks = locks }) s st.Begin 0)
        → IsIdleIn c next.mind s → TurnOfAct next (record { txns = txns.new; locks = locks }) result) }
    ensures disk { LeavesDisk O.first D.Disk store.old store.new result }
{
    a_session_is_idle_behind_a_reply::<D>();
    store.rests();
    Ok(Acted::Ended {
        act: Act::Begin,
        reply: begin(alloc, store, txns, s),
    })
}

// SELECT's.
fn rows_read<D: Disk, O: Origin>(
    alloc: Global,
    store: &mut Store<D, O>,
    txns: &mut Txns,
    locks: &mut KeyLocks,
    stuck: &List<Name>,
    s: u8,
    statement: &Statement,
) -> Result<Acted, StoreFault>
    requires may { MayTurn s txns.old store.old }
    requires select { IsSelect statement.now }
    ensures ready { IfOk result (LeavesAct stages.Between s statement.now txns.new store.new.now.counted) }
    ensures over { IfOk result (LeavesSessions s txns.old txns.new store.old store.new) }
    ensures told { (c : Start) (opened : D) → WhereSound O.first D.Disk ((next : IsNextOf D.Disk c opened store.old store.new (record { txns = txns.old; locks = locks.old }) s statement.now 0)
        → stuck.now ≡ (state_now c next.mind).stuck → IsIdleIn c next.mind s → TurnOfAct next (record { txns = txns.new; locks = locks.new }) result) }
    ensures disk { LeavesDisk O.first D.Disk store.old store.new result }
{
    a_session_is_idle_behind_a_reply::<D>();
    match read(alloc, store, txns, locks, stuck, s, statement) {
        Err(fault) => Err(fault),
        Ok(reply) => Ok(Acted::Ended {
            act: Act::Read,
            reply,
        }),
    }
}

// The Lock of a row.
fn row_locked<D: Disk, O: Origin>(
    alloc: Global,
    store: &mut Store<D, O>,
    txns: &mut Txns,
    locks: &mut KeyLocks,
    stuck: &List<Name>,
    s: u8,
    statement: &Statement,
) -> Result<Acted, StoreFault>
    requires may { MayTurn s txns.old store.old }
    requires writes { is_some (key_written statement.now) ≡ true }
    ensures ready { IfOk result (LeavesAct stages.Between s statement.now txns.new store.new.now.counted) }
    ensures over { IfOk result (LeavesSessions s txns.old txns.new store.old store.new) }
    ensures told { (c : Start) (opened : D) → WhereSound O.first D.Disk ((next : IsNextOf D.Disk c opened store.old store.new (record { txns = txns.old; locks = locks.old }) s statement.now 0)
        → stuck.now ≡ (state_now c next.mind).stuck → IsIdleIn c next.mind s → TurnOfAct next (record { txns = txns.new; locks = locks.new }) result) }
    ensures disk { LeavesDisk O.first D.Disk store.old store.new result }
{
    a_session_is_idle_behind_a_reply::<D>();
    match lock_row(alloc, store, txns, locks, stuck, s, statement) {
        Err(fault) => Err(fault),
        Ok(locked) => match locked {
            Locked::Refused(refusal) => Ok(Acted::Ended {
                act: Act::Lock,
                reply: Reply::Refused { refusal },
            }),
            Locked::Granted { entry, prepared } => Ok(Acted::Granted(Stage::Row {
                entry,
                prepared,
                stage: writes::Stage::Looking,
            })),
        },
    }
}

// The Lock of a table's name.
fn table_locked<D: Disk, O: Origin>(
    alloc: Global,
    store: &mut Store<D, O>,
    txns: &mut Txns,
    locks: &mut KeyLocks,
    stuck: &List<Name>,
    s: u8,
    statement: &Statement,
) -> Result<Acted, StoreFault>
    requires may { MayTurn s txns.old store.old }
    requires schema { changes_schema statement.now ≡ true }
    ensures ready { IfOk result (LeavesAct stages.Between s statement.now txns.new store.new.now.counted) }
    ensures over { IfOk result (LeavesSessions s txns.old txns.new store.old store.new) }
    ensures told { (c : Start) (opened : D) → WhereSound O.first D.Disk ((next : IsNextOf D.Disk c opened store.old store.new (record { txns = txns.old; locks = locks.old }) s statement.now 0)
        → stuck.now ≡ (state_now c next.mind).stuck → IsIdleIn c next.mind s → TurnOfAct next (record { txns = txns.new; locks = locks.new }) result) }
    ensures disk { LeavesDisk O.first D.Disk store.old store.new result }
{
    a_session_is_idle_behind_a_reply::<D>();
    match lock_table(alloc, store, txns, locks, stuck, s, statement) {
        Err(fault) => Err(fault),
        Ok(locked) => match locked {
            TableLocked::Refused(refusal) => Ok(Acted::Ended {
                act: Act::Lock,
                reply: Reply::Refused { refusal },
            }),
            TableLocked::Granted(write) => Ok(Acted::Granted(Stage::Table(write))),
        },
    }
}

// The number of the commit that is asked for, where one is.
fn number_told(reply: &Reply) -> Option<u64>
    ensures { result ≡ number_told reply.now }
{
    match reply {
        Reply::Asked { k } => Some(*k),
        Reply::Began { .. }
        | Reply::Granted
        | Reply::Rows { .. }
        | Reply::Done
        | Reply::ReadOnly
        | Reply::Answered { .. }
        | Reply::RolledBack
        | Reply::Released
        | Reply::Refused { .. } => None,
    }
}

// COMMIT's first act: a writer waits for its answer then, and another's statement is finished.
fn asked<D: Disk, O: Origin>(
    store: &mut Store<D, O>,
    txns: &mut Txns,
    locks: &mut KeyLocks,
    s: u8,
    number: u64,
) -> Result<Acted, StoreFault>
    requires may { MayTurn s txns.old store.old }
    ensures ready { IfOk result (LeavesAct stages.Between s st.Commit txns.new store.new.now.counted) }
    ensures over { IfOk result (LeavesSessions s txns.old txns.new store.old store.new) }
    ensures told { (c : Start) (opened : D) → WhereSound O.first D.Disk ((next : IsNextOf D.Disk c opened store.old store.new (record { txns = txns.old; locks = locks.old }) s st.Commit 0)
        → IsIdleIn c next.mind s → TurnOfAct next (record { txns = txns.new; locks = locks.new }) result) }
    ensures disk { LeavesDisk O.first D.Disk store.old store.new result }
{
    a_session_is_idle_behind_a_reply::<D>();
    match ask(store, txns, locks, s, number) {
        Err(fault) => Err(fault),
        Ok(reply) => match number_told(&reply) {
            Some(k) => Ok(Acted::Asked { k }),
            None => Ok(Acted::Ended {
                act: Act::Ask,
                reply,
            }),
        },
    }
}

// A turn of a ROLLBACK.
fn rolled_back<D: Disk, O: Origin, L: Ledger>(
    store: &mut Store<D, O>,
    txns: &mut Txns,
    locks: &mut KeyLocks,
    s: u8,
    steps: &mut Steps<L>,
) -> Result<Acted, StoreFault>
    requires may { MayTurn s txns.old store.old }
    ensures ready { IfOk result (LeavesAct stages.Between s st.Rollback txns.new store.new.now.counted) }
    ensures over { IfOk result (LeavesSessions s txns.old txns.new store.old store.new) }
    ensures told { (c : Start) (opened : D) → WhereSound O.first D.Disk ((next : IsNextOf D.Disk c opened store.old store.new (record { txns = txns.old; locks = locks.old }) s st.Rollback 0)
        → TurnOfAct next (record { txns = txns.new; locks = locks.new }) result) }
    ensures rolls { (c : Start) (opened : D) → WhereSound O.first D.Disk (IsNextOf D.Disk c opened store.old store.new (record { txns = txns.old; locks = locks.old }) s st.Rollback 0
        → IsWriting s txns.old → IfOk result (RollsAct (number_drawn s txns.old) store.old store.new)) }
    ensures steps { steps.new ≤ steps.old + 2 }
    ensures disk { LeavesDisk O.first D.Disk store.old store.new result }
{
    a_session_is_idle_behind_a_reply::<D>();
    a_writer_may_roll_back::<D>();
    match roll_back(store, txns, locks, s, steps) {
        Err(fault) => Err(fault),
        Ok(rolled) => match rolled {
            None => Ok(Acted::On(Stage::Between)),
            Some(reply) => Ok(Acted::Ended {
                act: Act::Rollback,
                reply,
            }),
        },
    }
}

// The first act of a statement, and each turn of a ROLLBACK.
fn first<D: Disk, O: Origin, L: Ledger>(
    alloc: Global,
    store: &mut Store<D, O>,
    txns: &mut Txns,
    locks: &mut KeyLocks,
    stuck: &List<Name>,
    s: u8,
    statement: &Statement,
    number: u64,
    steps: &mut Steps<L>,
) -> Result<Acted, StoreFault>
    requires may { MayTurn s txns.old store.old }
    ensures ready { IfOk result (LeavesAct stages.Between s statement.now txns.new store.new.now.counted) }
    ensures over { IfOk result (LeavesSessions s txns.old txns.new store.old store.new) }
    ensures told { (c : Start) (opened : D) → WhereSound O.first D.Disk ((next : IsNextOf D.Disk c opened store.old store.new (record { txns = txns.old; locks = locks.old }) s statement.now 0)
        → stuck.now ≡ (state_now c next.mind).stuck → IsMidway c s statement.now next.mind stages.Between → TurnOfAct next (record { txns = txns.new; locks = locks.new }) result) }
    ensures rolls { (c : Start) (opened : D) → WhereSound O.first D.Disk (IsNextOf D.Disk c opened store.old store.new (record { txns = txns.old; locks = locks.old }) s statement.now 0
        → statement.now ≡ st.Rollback → IsWriting s txns.old → IfOk result (RollsAct (number_drawn s txns.old) store.old store.new)) }
    ensures steps { steps.new ≤ steps.old + 2 }
    ensures disk { LeavesDisk O.first D.Disk store.old store.new result }
{
    match statement {
        Statement::Begin => begun(alloc, store, txns, s),
        Statement::Commit => asked(store, txns, locks, s, number),
        Statement::Rollback => rolled_back(store, txns, locks, s, steps),
        Statement::Select { .. } => rows_read(alloc, store, txns, locks, stuck, s, statement),
        Statement::Create { .. } | Statement::DropTable { .. } => {
            table_locked(alloc, store, txns, locks, stuck, s, statement)
        }
        Statement::Insert { .. } | Statement::Update { .. } | Statement::Delete { .. } => {
            row_locked(alloc, store, txns, locks, stuck, s, statement)
        }
    }
}

// A turn of the Write of a row.
fn row_written<D: Disk, O: Origin>(
    store: &mut Store<D, O>,
    txns: &mut Txns,
    s: u8,
    statement: &Statement,
    entry: u8,
    prepared: Prepared,
    stage: writes::Stage,
) -> Result<Acted, StoreFault>
    requires may { MayTurn s txns.old store.old }
    requires at { MayAct (stages.Row entry prepared stage) s statement.now txns.old store.old.now.counted }
    ensures ready { IfOk result (LeavesAct (stages.Row entry prepared stage) s statement.now txns.new store.new.now.counted) }
    ensures over { IfOk result (LeavesSessions s txns.old txns.new store.old store.new) }
    ensures told { (c : Start) (opened : D) (locks : List (ℕ × LocksOfSession)) → WhereSound O.first D.Disk ((next : IsNextOf D.Disk c opened store.old store.new (record { txns = txns.old; locks = locks }) s statement.now 1)
        → IsMidway c s statement.now next.mind (stages.Row entry prepared stage) → TurnOfAct next (record { txns = txns.new; locks = locks }) result) }
    ensures disk { LeavesDisk O.first D.Disk store.old store.new result }
{
    a_session_is_idle_behind_a_reply::<D>();
    match write_row(store, txns, s, statement, entry, &prepared, stage) {
        Err(fault) => Err(fault),
        Ok(wrote) => match wrote {
            Wrote::On(stage) => Ok(Acted::On(Stage::Row {
                entry,
                prepared,
                stage,
            })),
            Wrote::Told(reply) => Ok(Acted::Ended {
                act: Act::Write,
                reply,
            }),
        },
    }
}

// The Write of a table.
fn table_written<D: Disk, O: Origin>(
    store: &mut Store<D, O>,
    txns: &mut Txns,
    s: u8,
    statement: &Statement,
    write: TableWrite,
) -> Result<Acted, StoreFault>
    requires may { MayTurn s txns.old store.old }
    requires at { MayAct (stages.Table write) s statement.now txns.old store.old.now.counted }
    requires fits { HasFittingColumns statement.now }
    ensures ready { IfOk result (LeavesAct (stages.Table write) s statement.now txns.new store.new.now.counted) }
    ensures over { IfOk result (LeavesSessions s txns.old txns.new store.old store.new) }
    ensures told { (c : Start) (opened : D) (locks : List (ℕ × LocksOfSession)) → WhereSound O.first D.Disk ((next : IsNextOf D.Disk c opened store.old store.new (record { txns = txns.old; locks = locks }) s statement.now 1)
        → IsMidway c s statement.now next.mind (stages.Table write) → TurnOfAct next (record { txns = txns.new; locks = locks }) result) }
    ensures disk { LeavesDisk O.first D.Disk store.old store.new result }
{
    a_session_is_idle_behind_a_reply::<D>();
    match write_table(store, txns, s, statement, write) {
        Err(fault) => Err(fault),
        Ok(reply) => Ok(Acted::Ended {
            act: Act::Write,
            reply,
        }),
    }
}

/// A turn of the next act of a session's statement of this number, in the middle of which the session is so. `stuck` are the names that recovery holds.
/// It logs one record at most. What a ROLLBACK reads and logs is counted.
pub fn act<D: Disk, O: Origin, L: Ledger>(
    alloc: Global,
    store: &mut Store<D, O>,
    txns: &mut Txns,
    locks: &mut KeyLocks,
    stuck: &List<Name>,
    s: u8,
    statement: &Statement,
    number: u64,
    stage: Stage,
    steps: &mut Steps<L>,
) -> Result<Acted, StoreFault>
    requires may { MayTurn s txns.old store.old }
    requires at { MayAct stage s statement.now txns.old store.old.now.counted × HasFittingColumns statement.now }
    // Whatever the disk tells, the next turn may be taken.
    ensures ready { IfOk result (LeavesAct stage s statement.now txns.new store.new.now.counted) }
    ensures over { IfOk result (LeavesSessions s txns.old txns.new store.old store.new) }
    // In a World it goes on or is told, and fails by the disk alone.
    ensures told { (c : Start) (opened : D) → WhereSound O.first D.Disk ((next : IsNextOf D.Disk c opened store.old store.new (record { txns = txns.old; locks = locks.old }) s statement.now (made_at stage))
        → stuck.now ≡ (state_now c next.mind).stuck → IsMidway c s statement.now next.mind stage → TurnOfAct next (record { txns = txns.new; locks = locks.new }) result) }
    // A turn of a ROLLBACK takes the latest item away, or tells the entry with the mark.
    ensures rolls { (c : Start) (opened : D) → WhereSound O.first D.Disk (IsNextOf D.Disk c opened store.old store.new (record { txns = txns.old; locks = locks.old }) s statement.now (made_at stage)
        → statement.now ≡ st.Rollback → IsWriting s txns.old → IfOk result (RollsAct (number_drawn s txns.old) store.old store.new)) }
    ensures steps { steps.new ≤ steps.old + 2 }
    // However it ends, time doesn't go back, a fault is told where the disk counts one more, and a crash in it leaves what was hardened with
    // some of what waited.
    ensures disk { LeavesDisk O.first D.Disk store.old store.new result }
{
    match stage {
        Stage::Row {
            entry,
            prepared,
            stage,
        } => row_written(store, txns, s, statement, entry, prepared, stage),
        Stage::Table(write) => table_written(store, txns, s, statement, write),
        Stage::Between => first(
            alloc, store, txns, locks, stuck, s, statement, number, steps,
        ),
        Stage::Asked => unreachable!(),
    }
}
