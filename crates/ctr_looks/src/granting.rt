// Locks that are granted: of a row, and of a name.
ghost use Rattle.std.specs.Prelude.{◌≡◌, ℕ, List, Option, IfOk, IfErr};
ghost use Rattle.ctr_types.specs.declared.statement.Statement.{Statement as Told};
ghost use Rattle.ctr_types.specs.declared.tape.Act.TheVariants as act;
ghost use Rattle.ctr_disk.specs.declared.fault.StoreFault.TheVariants.{Fault};
ghost use Rattle.ctr_base.specs.Base.{WhereSound};
ghost use Rattle.ctr_record_effects.specs.States.{area_in};
ghost use Rattle.ctr_record_effects.specs.Standing.{IsDatabaseState};
ghost use Rattle.ctr_session_world.specs.actions_Facts.{Fact};
ghost use Rattle.ctr_session_world.specs.kept_Turns.{Start};
ghost use Rattle.ctr_session_world.specs.ctr_told.Turning.{IdleCountsOn};
ghost use Rattle.ctr_asking.specs.Asking.{IsInside};
ghost use Rattle.ctr_session_world.specs.Ready.{LeavesOver, MayTurn, LeavesDisk};
ghost use Rattle.ctr_session_world.specs.Told.{IsNextOf, IsActTold};
ghost use Rattle.ctr_looks.specs.Asked.{IsFirstOf, IsFoundFor};
ghost use Rattle.ctr_looks.specs.Granting.{IsUnopposed, WritesRowOf, IsOfName, CountsOnTable, CountsOnFound, HasItemIfGranted, granted_or};

use crate::drawing::draw;
use crate::grants::{
    a_look_that_wants_memory_is_told, a_name_that_is_held_is_told, a_row_that_is_locked_is_told,
    room_shows_the_same,
};
use crate::reserving::{reserve_for, reserve_row};
use crate::taking::{RowAt, take_key, take_name, take_use};
use ctr_base::Origin;
use ctr_disk::{Disk, StoreFault};
use ctr_locks::KeyLocks;
use ctr_session_world::Txns;
use ctr_store::Store;
use ctr_types::{Name, Refusal};
use std::alloc::Global;

/// Grants the Lock of a row that nothing speaks against: a use of its table, the key's lock and, at the session's first Lock, its number, by one
/// record. None where it is granted. It is refused for want of memory, and then nothing changes.
pub(crate) fn grant_row<D: Disk, O: Origin>(
    alloc: Global,
    store: &mut Store<D, O>,
    txns: &mut Txns,
    locks: &mut KeyLocks,
    s: u8,
    row: &RowAt,
) -> Result<Option<Refusal>, StoreFault>
    requires inside { IsInside s txns.old }
    requires may { MayTurn s txns.old store.old }
    ensures over { LeavesOver s txns.old txns.new store.old store.new result }
    ensures item { IfOk result (HasItemIfGranted s txns.new) }
    ensures told { (c : Start) (opened : D) (statement : Told) (more : List Fact) → WhereSound O.first D.Disk
        ((next : IsNextOf D.Disk c opened store.old store.new (record { txns = txns.old; locks = locks.old }) s statement 0) → (free : IsUnopposed next act.Lock) → WritesRowOf next row.now → IdleCountsOn free.txn.session.me more (next.mind.facts s)
        → IfOk result (λ r. (told : IsActTold next (record { txns = txns.new; locks = locks.new }) act.Lock (granted_or r)) × CountsOnTable r row.now.entry ((area_in store.old.now).title row.now.entry) (told.mind.facts s))) }
    ensures refused { WhereSound O.first D.Disk (IsDatabaseState store.old.now → IfErr result (λ e. e ≡ Fault)) }
    ensures disk { LeavesDisk O.first D.Disk store.old store.new result }
{
    a_look_that_wants_memory_is_told::<D>();
    a_row_that_is_locked_is_told::<D>();
    room_shows_the_same::<D>();
    store.rests();
    match reserve_row(alloc, locks, s, row) {
        Err(_) => return Ok(Some(Refusal::OutOfMemory)),
        Ok(()) => {}
    }
    match reserve_for(store, txns, s) {
        Err(_) => return Ok(Some(Refusal::OutOfMemory)),
        Ok(()) => {}
    }
    match take_use(locks, s, row.name) {
        Some(refusal) => return Ok(Some(refusal)),
        None => locks.stands_in_order(),
    }
    match take_key(locks, s, row) {
        Some(refusal) => return Ok(Some(refusal)),
        None => {}
    }
    match draw(store, txns, s) {
        Err(fault) => Err(fault),
        Ok(()) => Ok(None),
    }
}

/// Grants the Lock of a name that nothing speaks against: a hold of it and, at the session's first Lock, its number, by one record. None where it
/// is granted. It is refused for want of memory, and then nothing changes.
pub(crate) fn grant_name<D: Disk, O: Origin>(
    alloc: Global,
    store: &mut Store<D, O>,
    txns: &mut Txns,
    locks: &mut KeyLocks,
    s: u8,
    name: &Name,
) -> Result<Option<Refusal>, StoreFault>
    requires inside { IsInside s txns.old }
    requires may { MayTurn s txns.old store.old }
    ensures over { LeavesOver s txns.old txns.new store.old store.new result }
    ensures item { IfOk result (HasItemIfGranted s txns.new) }
    ensures told { (c : Start) (opened : D) (statement : Told) (more : List Fact) → WhereSound O.first D.Disk
        ((next : IsNextOf D.Disk c opened store.old store.new (record { txns = txns.old; locks = locks.old }) s statement 0) → (free : IsUnopposed next act.Lock) → IsFirstOf act.Lock statement → IsOfName statement name.now → (found : Option ℕ) → IsFoundFor free name.now found → IdleCountsOn free.txn.session.me more (next.mind.facts s)
        → IfOk result (λ r. (told : IsActTold next (record { txns = txns.new; locks = locks.new }) act.Lock (granted_or r)) × CountsOnFound r found (area_in store.old.now).title (told.mind.facts s))) }
    ensures refused { WhereSound O.first D.Disk (IsDatabaseState store.old.now → IfErr result (λ e. e ≡ Fault)) }
    ensures disk { LeavesDisk O.first D.Disk store.old store.new result }
{
    a_look_that_wants_memory_is_told::<D>();
    a_name_that_is_held_is_told::<D>();
    room_shows_the_same::<D>();
    store.rests();
    match locks.reserve_name(alloc, s, name) {
        Err(_) => return Ok(Some(Refusal::OutOfMemory)),
        Ok(()) => {}
    }
    match reserve_for(store, txns, s) {
        Err(_) => return Ok(Some(Refusal::OutOfMemory)),
        Ok(()) => {}
    }
    match take_name(locks, s, name) {
        Some(refusal) => return Ok(Some(refusal)),
        None => {}
    }
    match draw(store, txns, s) {
        Err(fault) => Err(fault),
        Ok(()) => Ok(None),
    }
}
