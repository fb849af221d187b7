// The Read of a SELECT.
ghost use Rattle.std.specs.Prelude.{◌≡◌, ◌<◌, ℕ, false, List, OnOk, IfOk, IfErr};
ghost use Rattle.std.specs.Option.{option_map, option_to_list};
ghost use Rattle.ctr_types.specs.declared.statement.KeyIs.{KeyIs as KeyWanted};
ghost use Rattle.ctr_types.specs.declared.statement.Statement.TheVariants as st;
ghost use Rattle.ctr_types.specs.declared.tape.Act.TheVariants as act;
ghost use Rattle.ctr_disk.specs.declared.fault.StoreFault.TheVariants.{Fault};
ghost use Rattle.ctr_types.specs.Faults.{HasFault};
ghost use Rattle.ctr_base.specs.Base.{WhereSound};
ghost use Rattle.ctr_record_effects.specs.States.{area_in};
ghost use Rattle.ctr_record_effects.specs.Standing.{HasSoundArea, IsDatabaseState};
ghost use Rattle.ctr_session_world.specs.actions_Facts.{Fact};
ghost use Rattle.ctr_session_world.specs.kept_Turns.{Start, state_now};
ghost use Rattle.ctr_session_world.specs.page_turns_Turns.{RestsBehind};
ghost use Rattle.ctr_session_world.specs.ctr_told.Turning.{IdleCountsOn};
ghost use Rattle.ctr_asking.specs.ctr_wishes.ctr_reading.Reading.{as_told, sight_sees, AreShown, IsDiskOrMemory};
ghost use Rattle.ctr_asking.specs.Asking.{IsInside};
ghost use Rattle.ctr_session_world.specs.txn_Held.{TxnsHeld};
ghost use Rattle.ctr_session_world.specs.Ready.{LeavesOver, MayTurn, StandOver, LeavesDisk};
ghost use Rattle.ctr_session_world.specs.Told.{IsNextOf, IsActTold, IsIdleIn};
ghost use Rattle.ctr_looks.specs.Granting.{IsUnopposed};
ghost use Rattle.ctr_looks.specs.Asked.{StandsAt};
ghost use Rattle.ctr_looks.specs.Selecting.{IsSelect};

use crate::grants::{a_look_that_wants_memory_is_told, room_shows_the_same};
use crate::laws::a_refused_look_is_told;
use crate::refusing::ask_act;
use crate::selected::rows_of_a_table_are_told;
use crate::taking::take_use;
use ctr_asking::wishes::ReadRefusal;
use ctr_asking::wishes::reading::{Sight, row_of_key, rows_of_table};
use ctr_asking::{Answer, Asker, me_of};
use ctr_base::Origin;
use ctr_disk::{Disk, StoreFault};
use ctr_locks::KeyLocks;
use ctr_session_world::{Txns, pages_that_are_read_keep_a_world, room_is_still_there};
use ctr_store::Store;
use ctr_types::{Act, KeyIs, List, Name, Refusal, Reply, Row, Rows, Statement};
use std::alloc::Global;

// A row, or none, as rows.
fn one_row(alloc: Global, row: Option<Row>) -> Result<Rows, ReadRefusal>
    ensures gives { IfOk result (λ rows. rows.rows ≡ option_to_list row) }
    ensures refused { IfErr result IsDiskOrMemory }
    ensures faults { (n : ℕ) → HasFault Fault n n (as_told result) }
{
    let mut rows = List::new(alloc);
    match row {
        None => Ok(Rows { rows }),
        Some(row) => match rows.push(row) {
            Ok(()) => Ok(Rows { rows }),
            Err(_) => Err(ReadRefusal::OutOfMemory),
        },
    }
}

// The key that is asked for.
fn key_asked(at: &KeyIs) -> i64
    ensures { result ≡ at.now.key }
{
    at.key
}

/// The rows of a table that a session sees, by the table's entry of the catalog: all of them in order of their keys, or the one of a key.
pub(crate) fn rows_at<D: Disk, O: Origin>(
    alloc: Global,
    store: &mut Store<D, O>,
    sight: &Sight,
    entry: u8,
    at: &Option<KeyIs>,
) -> Result<Rows, ReadRefusal>
    requires going { store.old.stopped ≡ false }
    requires there { entry < 32 }
    ensures shows { WhereSound O.first D.Disk (HasSoundArea store.old.now
        → IfOk result (λ rows. AreShown (sight_sees store.old.now.tables sight.now) (area_in store.old.now) entry (option_map (λ (k : KeyWanted). k.key) at.now) rows.rows)) }
    ensures refused { WhereSound O.first D.Disk (IsDatabaseState store.old.now → IfErr result IsDiskOrMemory) }
    ensures disk { LeavesDisk O.first D.Disk store.old store.new (as_told result) }
    ensures rests { WhereSound O.first D.Disk (OnOk (as_told result) (RestsBehind D.Disk store.old store.new)) }
    ensures over { (s : ℕ) (txns : TxnsHeld) → StandOver txns store.old → LeavesOver s txns txns store.old store.new (as_told result) }
{
    match at {
        None => {
            let rows = rows_of_table(alloc, store, sight, entry);
            store.rests();
            rows
        }
        Some(at) => {
            let key = key_asked(at);
            let row = row_of_key(alloc, store, sight, entry, key);
            store.rests();
            match row {
                Err(refusal) => Err(refusal),
                Ok(row) => one_row(alloc, row),
            }
        }
    }
}

/// A table: its entry of the catalog and its name, and the key that is asked for, where one is.
#[derive(Clone, Copy)]
pub(crate) struct TableRead<'a> {
    pub(crate) entry: u8,
    pub(crate) name: &'a Name,
    pub(crate) at: &'a Option<KeyIs>,
}

// Of a table that the session has found.
fn read_found<D: Disk, O: Origin>(
    alloc: Global,
    store: &mut Store<D, O>,
    txns: &Txns,
    locks: &mut KeyLocks,
    s: u8,
    table: &TableRead,
) -> Result<Reply, StoreFault>
    requires inside { IsInside s txns.now }
    requires may { MayTurn s txns.now store.old }
    requires there { table.now.entry < 32 }
    ensures over { LeavesOver s txns.now txns.now store.old store.new result }
    ensures told { (c : Start) (opened : D) (more : List Fact) → WhereSound O.first D.Disk
        ((next : IsNextOf D.Disk c opened store.old store.new (record { txns = txns.now; locks = locks.old }) s (st.Select table.now.name.now table.now.at.now) 0) → (free : IsUnopposed next act.Read) → StandsAt free table.now.name.now table.now.entry
        → IdleCountsOn free.txn.session.me more (next.mind.facts s) → IfOk result (IsActTold next (record { txns = txns.now; locks = locks.new }) act.Read)) }
    ensures refused { WhereSound O.first D.Disk (IsDatabaseState store.old.now → IfErr result (λ e. e ≡ Fault)) }
    ensures disk { LeavesDisk O.first D.Disk store.old store.new result }
{
    a_look_that_wants_memory_is_told::<D>();
    rows_of_a_table_are_told::<D>();
    room_shows_the_same::<D>();
    let Some(txn) = txns.txn(s) else {
        unreachable!()
    };
    let sight = Sight {
        snapshot: &txn.snapshot,
        me: me_of(txn),
    };
    let rows = match rows_at(alloc, store, &sight, table.entry, table.at) {
        Err(refusal) => match refusal {
            ReadRefusal::Store(fault) => return Err(fault),
            ReadRefusal::OutOfMemory => {
                return Ok(Reply::Refused {
                    refusal: Refusal::OutOfMemory,
                });
            }
        },
        Ok(rows) => rows,
    };
    match locks.reserve_name(alloc, s, table.name) {
        Err(_) => {
            return Ok(Reply::Refused {
                refusal: Refusal::OutOfMemory,
            });
        }
        Ok(()) => {}
    }
    match take_use(locks, s, table.name) {
        Some(refusal) => Ok(Reply::Refused { refusal }),
        None => Ok(Reply::Rows { rows }),
    }
}

/// The Read of a SELECT: the rows of the table that the session sees, all of them in order of their keys or the one of a key, and a use of
/// the table. It is refused as the model refuses it, or for want of memory, and then nothing changes. `stuck` are the names that recovery holds.
pub fn read<D: Disk, O: Origin>(
    alloc: Global,
    store: &mut Store<D, O>,
    txns: &Txns,
    locks: &mut KeyLocks,
    stuck: &List<Name>,
    s: u8,
    statement: &Statement,
) -> Result<Reply, StoreFault>
    requires may { MayTurn s txns.now store.old }
    requires select { IsSelect statement.now }
    ensures over { LeavesOver s txns.now txns.now store.old store.new result }
    ensures told { (c : Start) (opened : D) → WhereSound O.first D.Disk
        ((next : IsNextOf D.Disk c opened store.old store.new (record { txns = txns.now; locks = locks.old }) s statement.now 0) → stuck.now ≡ (state_now c next.mind).stuck → IsIdleIn c next.mind s
        → IfOk result (IsActTold next (record { txns = txns.now; locks = locks.new }) act.Read)) }
    // Where the pages may be a database's, it is refused by the disk alone.
    ensures refused { WhereSound O.first D.Disk (IsDatabaseState store.old.now → IfErr result (λ e. e ≡ Fault)) }
    // However it ends, time doesn't go back, a fault is told where the disk counts one more, and a crash in it leaves what was hardened with
    // some of what waited.
    ensures disk { LeavesDisk O.first D.Disk store.old store.new result }
{
    a_refused_look_is_told::<D>();
    pages_that_are_read_keep_a_world::<D>();
    room_is_still_there::<D>();
    let Statement::Select { table: name, at } = statement else {
        unreachable!()
    };
    let asker = Asker {
        s,
        txns,
        locks,
        stuck,
    };
    let answer = match ask_act(store, &asker, &Act::Read, statement) {
        Err(fault) => return Err(fault),
        Ok(answer) => answer,
    };
    store.rests();
    match answer {
        Answer::Refused(refusal) => Ok(Reply::Refused { refusal }),
        Answer::Free(found) => match found {
            None => Ok(Reply::Refused {
                refusal: Refusal::NoTable,
            }),
            Some(entry) => {
                let table = TableRead { entry, name, at };
                read_found(alloc, store, txns, locks, s, &table)
            }
        },
    }
}
