// The cleaner's turn in a World of sessions. A call does nothing: what it ensures is the law.
ghost use Rattle.std.specs.Prelude.{◌≡◌, ℕ, ℤ, Bool, true, false, [], length};
ghost use Rattle.ctr_exec.specs.Order.{IsTapeOrdered};
ghost use Rattle.ctr_exec.specs.Sessions.{AreSeated, ShowsSessions};
ghost use Rattle.ctr_exec.specs.ctr_control.kept_Turns.{Start, state_now};
ghost use Rattle.ctr_exec.specs.ctr_control.kept_Walk.{Mind};
ghost use Rattle.ctr_exec.specs.ctr_control.txn_Steps.{mark_in};
ghost use Rattle.ctr_exec.specs.ctr_session_world.Ready.{StandOver};
ghost use Rattle.ctr_exec.specs.declared.sessions.Sessions.{Sessions as SessionsAt};
ghost use Rattle.ctr_exec.specs.txn_Held.{TxnsHeld};
ghost use Rattle.ctr_locks.specs.Held.{session_locks};
ghost use Rattle.ctr_walk.specs.store_Store.{View};
ghost use Rattle.ctr_walk.specs.OneRecord.{HasRoomForOne};
ghost use Rattle.ctr_cleaner.specs.page_turns_Turns.{LogsAtRest};
ghost use Rattle.ctr_cleaner.specs.cursor_Position.{Position};
ghost use Rattle.ctr_cleaner.specs.declared.done.CleanTurn.{CleanTurn};
ghost use Rattle.ctr_cleaner.specs.declared.done.MayEmpty.{MayEmpty};
ghost use Rattle.ctr_cleaner.specs.Turning.{CleansFreely, HasRoomFor, LeavesCounts, heeding};
ghost use Rattle.ctr_pass.specs.Passing.{keeps_room};
ghost use Rattle.ctr_pass.specs.Sparing.{HaveNobody, IsNobodyInside, keeping_room, with_cleaner};

use crate::laws::the_cleaner_leaves_the_sessions;
use ctr_cleaner::what_nobody_has_locked_is_free;
use ctr_disk::Disk;
use ctr_kept::where_nobody_is_inside_none_is_open;
use ctr_legal::{legal_tapes_are_reached, waiting_are_answered};

/// A turn of the cleaner that heeds the low mark of the transactions, what they have locked, and undo's items leaves the sessions of a script in their World.
/// An entry may be freed only where nobody is in a transaction.
pub fn what_was_cleaned_leaves_the_sessions<D: Disk>()
    ensures { (c : Start) (opened : D) (a b : View D) (h : SessionsAt) (w : Mind) (x : Position) (did : CleanTurn) (may : MayEmpty) → ShowsSessions D.Disk c opened a h w
        → CleansFreely (heeding (mark_in a.now.tables h.txns) h.locks (length w.undo.items) may) x did a.now b.now → (may.free ≡ true → HaveNobody h.txns)
        → LogsAtRest D.Disk a b → ShowsSessions D.Disk c opened b h w }
{
    the_cleaner_leaves_the_sessions::<D>();
    what_nobody_has_locked_is_free();
}

/// By the tape nobody is in a transaction exactly where nobody is by what the program has. Then nobody has a lock; where undo has ended all that a stop left
/// open, no transaction is open in the tables; and where none is, the low mark is the next number.
pub fn nobody_inside_locks_nothing<D: Disk>()
    ensures has { (c : Start) (opened : D) (v : View D) (h : SessionsAt) (w : Mind) → ShowsSessions D.Disk c opened v h w → IsNobodyInside (state_now c w) → HaveNobody h.txns }
    ensures inside { (c : Start) (opened : D) (v : View D) (h : SessionsAt) (w : Mind) → ShowsSessions D.Disk c opened v h w → HaveNobody h.txns → IsNobodyInside (state_now c w) }
    ensures locks { (c : Start) (opened : D) (v : View D) (h : SessionsAt) (w : Mind) → ShowsSessions D.Disk c opened v h w → IsNobodyInside (state_now c w)
        → (r f : ℕ) (key : ℤ) → session_locks r f key h.locks ≡ false }
    ensures opens { (c : Start) (opened : D) (v : View D) (h : SessionsAt) (w : Mind) → ShowsSessions D.Disk c opened v h w → IsNobodyInside (state_now c w)
        → w.undo.orphans ≡ [] → v.now.tables.opens ≡ [] }
    ensures mark { (c : Start) (opened : D) (v : View D) (h : SessionsAt) (w : Mind) → ShowsSessions D.Disk c opened v h w → IsNobodyInside (state_now c w)
        → v.now.tables.opens ≡ [] → mark_in v.now.tables h.txns ≡ v.now.tables.next }
{
    legal_tapes_are_reached();
    waiting_are_answered();
    where_nobody_is_inside_none_is_open();
}

/// Room that is kept for an item of the cleaner's, or no more, leaves the sessions of a script in their World, each at its line, and their tape in order; and
/// behind a turn of the cleaner the transactions stand over the store with the room that is kept then. Where it is kept a page may leave its chain.
pub fn room_for_the_cleaner_leaves_the_sessions<D: Disk>()
    ensures shows { (c : Start) (opened : D) (v : View D) (h : SessionsAt) (w : Mind) (item : Bool) → ShowsSessions D.Disk c opened v h w
        → ShowsSessions D.Disk c opened v (keeping_room item h) w }
    ensures seats { (h : SessionsAt) (counted : ℕ) (item : Bool) → AreSeated h counted → AreSeated (keeping_room item h) counted }
    ensures order { (start now : ℕ) (h : SessionsAt) (item : Bool) → IsTapeOrdered start now h → IsTapeOrdered start now (keeping_room item h) }
    ensures stands { (txns : TxnsHeld) (a b : View D) (may : MayEmpty) (did : CleanTurn) → StandOver txns a → LeavesCounts may a b did → may.unlink ≡ txns.cleaner
        → StandOver (with_cleaner (keeps_room may.unlink did) txns) b }
    ensures asks { (txns : TxnsHeld) (v : View D) → StandOver txns v → HasRoomForOne 0 0 v → HasRoomFor txns.cleaner v }
{}
