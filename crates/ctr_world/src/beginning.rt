// The sessions of a script over a store that was opened, and undo, before their first turns.
ghost use Rattle.std.specs.Prelude.{◌≡◌, ◌≤◌, ◌<◌, ℕ, false, IfOk, IfErr};
ghost use Rattle.ctr_record_effects.specs.Standing.{IsDatabaseState};
ghost use Rattle.ctr_base.specs.Base.{WhereSound};
ghost use Rattle.ctr_store.specs.Opening.{IsUndamaged};
ghost use Rattle.ctr_pass.specs.exec_Order.{IsTapeOrdered};
ghost use Rattle.ctr_pass.specs.exec_Sessions.{AreFresh, AreSeated};
ghost use Rattle.ctr_world.specs.Opened.{CanRun};
ghost use Rattle.ctr_world.specs.Begun.{IsBegun, IsOfReading, LeavesRoomy, UndoesAll, refused_by};

use ctr_base::Origin;
use ctr_disk::Disk;
use ctr_log::OpenError;
use ctr_pass::{Pass, Sessions, room_for_the_cleaner_leaves_the_sessions};
use ctr_store::Store;
use ctr_types::{List, Name, OutOfMemory, Script, Xid, copy_all};
use ctr_undo::{NamesRefusal, UndoList};
use std::alloc::Global;

/// What a World has beside its store, before the first turn.
#[derive(Drop)]
pub(crate) struct Begun {
    pub(crate) sessions: Sessions,
    pub(crate) undo: UndoList,
    /// The names of the tables of its items, in their order.
    pub(crate) names: Vec<Name>,
    /// How much undo there is.
    pub(crate) size: usize,
    /// The cleaner's first pass.
    pub(crate) pass: Pass,
}

// Why the names weren't given, as an opening tells it.
fn refused(refusal: NamesRefusal) -> OpenError
    ensures is { result ≡ refused_by refusal }
    ensures reading { IsOfReading result }
{
    match refusal {
        NamesRefusal::Store(fault) => OpenError::from(fault),
        NamesRefusal::OutOfMemory => OpenError::OutOfMemory,
    }
}

// The sessions of a script, over a store whose next transaction has this number, where recovery holds these names.
fn sessions_of(
    alloc: Global,
    next: Xid,
    names: &[Name],
    script: Script,
) -> Result<Sessions, OutOfMemory>
    requires first { 0 < next }
    requires runs { CanRun script.lines }
    ensures seats { IfOk result (λ h. (counted : ℕ) → AreSeated h counted) }
    ensures ordered { IfOk result (λ h. (start now : ℕ) → start ≤ now → IsTapeOrdered start now h) }
    ensures fresh { IfOk result AreFresh }
    ensures is { IfOk result (λ h. (h.txns.numbers.next ≡ next) × (h.stuck ≡ names.now) × (h.script ≡ script)) }
{
    let stuck = List::from_vec(copy_all(alloc, names)?);
    Sessions::new(alloc, next, stuck, script)
}

/// What a World has beside a store that was opened for it, before the first turn: the sessions of a script, undo with its names, which are
/// read from the catalog, and the cleaner's pass. Room is taken for the one item of the secondary log that the cleaner may add.
pub(crate) fn begin<D: Disk, O: Origin>(
    alloc: Global,
    store: &mut Store<D, O>,
    script: Script,
) -> Result<Begun, OpenError>
    requires going { store.old.stopped ≡ false }
    requires runs { CanRun script.lines }
    ensures begun { IfOk result (IsBegun store.old script) }
    ensures whole { WhereSound O.first D.Disk (IsDatabaseState store.old.now → IfOk result (UndoesAll store.old.now)) }
    ensures leaves { LeavesRoomy O.first D.Disk store.old store.new result }
    ensures undamaged { WhereSound O.first D.Disk (IsDatabaseState store.old.now → IfErr result IsUndamaged) }
    ensures reading { IfErr result IsOfReading }
{
    room_for_the_cleaner_leaves_the_sessions::<D>();
    let room = store.reserve(0, 1);
    store.rests();
    if room.is_err() {
        return Err(OpenError::OutOfMemory);
    }
    let undo = match UndoList::of(alloc, store.meta()) {
        Ok(undo) => undo,
        Err(OutOfMemory) => return Err(OpenError::OutOfMemory),
    };
    let next = store.meta().next();
    let names = match undo.names(alloc, store) {
        Ok(names) => names,
        Err(refusal) => return Err(refused(refusal)),
    };
    let mut sessions = sessions_of(alloc, next, names.as_slice(), script)?;
    sessions.txns.keep_cleaners(true);
    let size = undo.len();
    let pass = Pass::new(store.next());
    Ok(Begun {
        sessions,
        undo,
        names,
        size,
        pass,
    })
}
