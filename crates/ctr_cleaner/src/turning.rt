// A turn of the cleaner.
ghost use Rattle.std.specs.Prelude.{◌≡◌, ℕ, IfOk, IfErr};
ghost use Rattle.ctr_disk.specs.declared.fault.StoreFault.TheVariants.{Fault};
ghost use Rattle.ctr_walk.specs.base_Base.{WhereSound};
ghost use Rattle.ctr_walk.specs.record_effects_Standing.{IsDatabaseState};
ghost use Rattle.ctr_actions.specs.Sites.{site_of};
ghost use Rattle.ctr_emptying.specs.page_turns_Turns.{Turns};
ghost use Rattle.ctr_emptying.specs.cursor_Standing.{IsPosition, IsCountedPosition};
ghost use Rattle.ctr_cleaner.specs.Finding.{IsFreeRow, HasNothingAt};
ghost use Rattle.ctr_cleaner.specs.Turning.{heeding, MayAll, TurnsAt, HasRoomFor, LeavesCounts};
ghost use Rattle.ctr_cleaner.specs.Parts.{Tries, DidAt, IsPassed};

use crate::done::{CleanTurn, Dealt, Done, MayEmpty, reclaimed, stepped, told};
use crate::entries::clean_entry;
use crate::going::{a_part_goes_on, a_step_is_a_part};
use crate::kept::clean_kept;
use crate::rows::clean_row;
use ctr_disk::{Disk, StoreFault};
use ctr_emptying::{Position, a_turn_goes_on, advance, forget_at, reclaim};
use ctr_locks::KeyLocks;
use ctr_types::Xid;
use ctr_walk::{Origin, Store};

/// What there is to do at a position.
fn clean_at<D: Disk, O: Origin>(
    store: &mut Store<D, O>,
    locks: &KeyLocks,
    low: Xid,
    may: MayEmpty,
    at: Position,
) -> Result<Done, StoreFault>
    requires room { HasRoomFor may.unlink store.old }
    requires within { IsCountedPosition store.old.now.counted at }
    ensures tries { Tries may.unlink O.first D.Disk store.old store.new result }
    ensures cleans { (spared : ℕ) → WhereSound O.first D.Disk (IsDatabaseState store.old.now → IsPosition at (site_of store.old.now)
        → IfOk result (DidAt (heeding low locks.now spared may) at
        (MayAll may → HasNothingAt (IsFreeRow locks.now store.old.now) low at store.old.now) store.old.now store.new.now)) }
    ensures refused { WhereSound O.first D.Disk (IsDatabaseState store.old.now → IsPosition at (site_of store.old.now) → IfErr result (λ f. f ≡ Fault)) }
{
    a_step_is_a_part::<D>();
    a_part_goes_on::<D>();
    match at {
        Position::Entry { entry } => clean_entry(store, low, entry, may),
        Position::Slot { entry, place, .. } => clean_row(store, locks, low, entry, place),
        Position::Kept { entry, place } => clean_kept(store, locks, low, entry, place),
        Position::Aborted { nth } => stepped(forget_at(store, nth)),
    }
}

/// A page that left its chain is given back before anything else is done.
fn clean_first<D: Disk, O: Origin>(
    store: &mut Store<D, O>,
    locks: &KeyLocks,
    low: Xid,
    spared: usize,
    may: MayEmpty,
    at: Position,
) -> Result<Done, StoreFault>
    requires room { HasRoomFor may.unlink store.old }
    requires within { IsCountedPosition store.old.now.counted at }
    ensures tries { Tries may.unlink O.first D.Disk store.old store.new result }
    ensures cleans { WhereSound O.first D.Disk (IsDatabaseState store.old.now → IsPosition at (site_of store.old.now)
        → IfOk result (DidAt (heeding low locks.now spared may) at (IsPassed (heeding low locks.now spared may) at store.old.now) store.old.now store.new.now)) }
    ensures refused { WhereSound O.first D.Disk (IsDatabaseState store.old.now → IsPosition at (site_of store.old.now) → IfErr result (λ f. f ≡ Fault)) }
{
    a_step_is_a_part::<D>();
    a_part_goes_on::<D>();
    match reclaimed(reclaim(store, spared)) {
        Err(fault) => Err(fault),
        Ok(None) => clean_at(store, locks, low, may, at),
        Ok(Some(dealt)) => Ok(Some(dealt)),
    }
}

/// A turn of the cleaner at a position of a pass: one record, which isn't hardened yet, or the position behind it.
///
/// A page that left its chain is given back before anything else is done, but for those of the first `spared` items of the secondary log, which undo
/// gives back. Then, at the position: the table of an entry dies whose drop everybody sees, and one that is dead loses a page, or its entry
/// is freed, where they may; a slot loses its head, is trimmed or its chain is cut; a version entry is freed; an aborted transaction is forgotten. Nothing is done
/// to a row that is locked, in an entry of its table's name. Where that wasn't seen to be all (see [`CleanTurn::Left`]), the pass goes on, and the turn says
/// so. Everybody sees what is committed below `low`. It takes no memory.
pub fn turn<D: Disk, O: Origin>(
    store: &mut Store<D, O>,
    locks: &KeyLocks,
    low: Xid,
    spared: usize,
    may: MayEmpty,
    at: Position,
) -> Result<CleanTurn, StoreFault>
    // There is room for a record, and for an item of the secondary log where a page may leave its chain.
    requires room { HasRoomFor may.unlink store.old }
    requires within { IsCountedPosition store.old.now.counted at }
    // It logs one record, or reads pages.
    ensures turns { Turns O.first D.Disk store.old store.new result }
    // An item is added where a page left its chain, which it does only where it may, and one is gone where a page is free again. As many pages are counted, and
    // a pass moves to what is there.
    ensures counts { IfOk result (LeavesCounts may store.old store.new) }
    // That is an action of the cleaner's, which owes nothing more; or there is none at the position, or that isn't seen, and this is the one behind it.
    ensures cleans { WhereSound O.first D.Disk (IsDatabaseState store.old.now → IsPosition at (site_of store.old.now)
        → IfOk result (TurnsAt (heeding low locks.now spared may) at store.old.now store.new.now)) }
    // It is refused for no other cause than that the disk failed.
    ensures refused { WhereSound O.first D.Disk (IsDatabaseState store.old.now → IsPosition at (site_of store.old.now) → IfErr result (λ f. f ≡ Fault)) }
{
    a_part_goes_on::<D>();
    a_turn_goes_on::<D, Done, CleanTurn>();
    match clean_first(store, locks, low, spared, may, at) {
        Err(fault) => Err(fault),
        Ok(Some(Dealt::Logged(logged))) => Ok(told(logged)),
        Ok(Some(Dealt::Unseen)) => match advance(store, at) {
            Err(fault) => Err(fault),
            Ok(to) => Ok(CleanTurn::Left { to }),
        },
        Ok(None) => match advance(store, at) {
            Err(fault) => Err(fault),
            Ok(None) => Ok(CleanTurn::Over),
            Ok(Some(to)) => Ok(CleanTurn::Moved { to }),
        },
    }
}
