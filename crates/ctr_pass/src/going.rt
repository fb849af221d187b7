// A turn of the cleaner beside sessions.
ghost use Rattle.std.specs.Prelude.{◌≡◌, true, false, IfErr, IfOk};
ghost use Rattle.ctr_disk.specs.declared.fault.StoreFault.TheVariants.{Fault};
ghost use Rattle.ctr_walk.specs.base_Base.{WhereSound};
ghost use Rattle.ctr_walk.specs.record_effects_Standing.{IsDatabaseState};
ghost use Rattle.ctr_actions.specs.Sites.{site_of};
ghost use Rattle.ctr_walk.specs.Damage.{ReadsPages};
ghost use Rattle.ctr_cleaner.specs.page_turns_Turns.{Turns};
ghost use Rattle.ctr_cleaner.specs.cursor_Standing.{IsPosition, IsCountedPosition};
ghost use Rattle.ctr_cleaner.specs.Turning.{heeding, HasRoomFor, LeavesCounts};
ghost use Rattle.ctr_pass.specs.Beside.{entry_first};
ghost use Rattle.ctr_pass.specs.Going.{IsFromPosition, WentAs};

use ctr_cleaner::{CleanTurn, MayEmpty, Position, a_turn_goes_on, is_there, turn};
use ctr_disk::{Disk, StoreFault};
use ctr_locks::KeyLocks;
use ctr_types::Xid;
use ctr_walk::{Origin, Store};

/// What a turn of the cleaner did, and at which position of its pass.
#[derive(Clone, Copy, Debug, PartialEq, Eq)]
pub struct Went {
    pub from: Position,
    pub did: CleanTurn,
}

/// The first position of a position's entry; an aborted transaction has none, and its position stays.
fn entry_of(at: Position) -> Position
    ensures { result ≡ entry_first at }
{
    match at {
        Position::Slot { entry, .. } | Position::Kept { entry, .. } => Position::Entry { entry },
        Position::Entry { .. } | Position::Aborted { .. } => at,
    }
}

/// Where a turn is taken: at the pass's position, where that is one still, else at the first one of its entry.
pub(crate) fn place_for<D: Disk, O: Origin>(
    store: &mut Store<D, O>,
    at: Position,
    stayed: bool,
) -> Result<Position, StoreFault>
    requires going { store.old.stopped ≡ false }
    requires within { IsCountedPosition store.old.now.counted at }
    ensures stays { IfOk result (λ x. (stayed ≡ true → x ≡ at) × IsCountedPosition store.old.now.counted x) }
    ensures there { WhereSound O.first D.Disk (IsDatabaseState store.old.now → (stayed ≡ true → IsPosition at (site_of store.old.now)) → IfOk result (λ x. IsPosition x (site_of store.old.now))) }
    ensures refused { WhereSound O.first D.Disk (IsDatabaseState store.old.now → IfErr result (λ f. f ≡ Fault)) }
    ensures leaves { ReadsPages O.first D.Disk store.old store.new result }
{
    store.rests();
    if stayed {
        return Ok(at);
    }
    match is_there(store, at) {
        Err(fault) => Err(fault),
        Ok(true) => Ok(at),
        Ok(false) => Ok(entry_of(at)),
    }
}

/// A turn of the cleaner beside sessions, at the position of its pass. Where something was logged since its last turn, `stayed` is false, and the position is
/// looked for: where its page has left its chain the turn is taken at the position's entry. It takes no memory.
pub fn clean_from<D: Disk, O: Origin>(
    store: &mut Store<D, O>,
    locks: &KeyLocks,
    low: Xid,
    spared: usize,
    may: MayEmpty,
    at: Position,
    stayed: bool,
) -> Result<Went, StoreFault>
    // There is room for a record, and for an item of the secondary log where a page may leave its chain.
    requires room { HasRoomFor may.unlink store.old }
    requires within { IsCountedPosition store.old.now.counted at }
    // It logs one record, or reads pages.
    ensures turns { Turns O.first D.Disk store.old store.new result }
    ensures counts { IfOk result (λ w. LeavesCounts may store.old store.new w.did) }
    ensures from { IfOk result (IsFromPosition stayed store.new.now.counted at) }
    // It is taken at a position of the state, and is an action of the cleaner's there, or there is none.
    ensures cleans { WhereSound O.first D.Disk (IsDatabaseState store.old.now → (stayed ≡ true → IsPosition at (site_of store.old.now))
        → IfOk result (WentAs (heeding low locks.now spared may) store.old.now store.new.now)) }
    // It is refused for no other cause than that the disk failed.
    ensures refused { WhereSound O.first D.Disk (IsDatabaseState store.old.now → (stayed ≡ true → IsPosition at (site_of store.old.now)) → IfErr result (λ f. f ≡ Fault)) }
{
    a_turn_goes_on::<D, Position, Went>();
    a_turn_goes_on::<D, CleanTurn, Went>();
    match place_for(store, at, stayed) {
        Err(fault) => Err(fault),
        Ok(from) => match turn(store, locks, low, spared, may, from) {
            Err(fault) => Err(fault),
            Ok(did) => Ok(Went { from, did }),
        },
    }
}
