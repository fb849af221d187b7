// Locks that are granted, in a World. A call does nothing: what it ensures is the law.
ghost use Rattle.std.specs.Prelude.{◌≡◌, ℕ, List, Option, None};
ghost use Rattle.ctr_types.specs.declared.statement.Statement.{Statement as Told};
ghost use Rattle.ctr_types.specs.declared.tape.Act.{Act as Acts};
ghost use Rattle.ctr_types.specs.declared.tape.Act.TheVariants as act;
ghost use Rattle.ctr_types.specs.declared.tape.Reply.TheVariants as reply;
ghost use Rattle.ctr_types.specs.declared.tape.Refusal.TheVariants as refusal;
ghost use Rattle.ctr_area.specs.Sound.{IsAmong};
ghost use Rattle.ctr_record_effects.specs.States.{area_in};
ghost use Rattle.ctr_session_world.specs.actions_Facts.{Fact, HasTable};
ghost use Rattle.ctr_store.specs.Store.{View};
ghost use Rattle.ctr_session_world.specs.kept_Turns.{Start, state_now};
ghost use Rattle.ctr_locks.specs.Held.{LocksOfSession, HoldsName, IsInOrder, OfSession, UsesName, locked_among};
ghost use Rattle.ctr_locks.specs.Shows.{ShowsKeyLocks};
ghost use Rattle.ctr_session_world.specs.txn_Held.{TxnsHeld};
ghost use Rattle.ctr_session_world.specs.page_turns_Turns.{RestsBehind};
ghost use Rattle.ctr_session_world.specs.ctr_told.Turning.{IdleCountsOn};
ghost use Rattle.ctr_looks.specs.declared.taking.RowAt.{RowAt as At};
ghost use Rattle.ctr_session_world.specs.World.{SessionsHeld, names_in};
ghost use Rattle.ctr_session_world.specs.Told.{IsNextOf, IsActTold};
ghost use Rattle.ctr_looks.specs.Asked.{IsLook, IsFirstOf, IsFoundFor};
ghost use Rattle.ctr_looks.specs.Granting.{IsUnopposed, WritesRowOf, IsOfName, KeepsSessions, TakesRow, HasNumber, CountsOnFound};

use ctr_disk::Disk;
use ctr_locks::{key_locks_are_the_models, key_locks_show};
use ctr_session_world::told::{
    a_first_lock_is_told, a_lock_is_told, a_refusal_is_told, a_session_may_count_on_what_holds,
};

/// Room that is taken leaves the locks those of the state.
pub(crate) fn room_shows_the_same<D: Disk>()
    ensures { (c : Start) (opened : D) (a b : View D) (h : SessionsHeld) (s : ℕ) (statement : Told) (made : ℕ) (next : IsNextOf D.Disk c opened a b h s statement made) (mid : SessionsHeld) → KeepsSessions s h mid
        → ShowsKeyLocks (names_in a.now) mid.locks (state_now c next.mind) }
{
    key_locks_show();
}

/// A Lock or a Read that nothing speaks against may be refused for want of memory: room may have been taken, and nothing else changes.
pub(crate) fn a_look_that_wants_memory_is_told<D: Disk>()
    ensures { (c : Start) (opened : D) (a b : View D) (h : SessionsHeld) (s : ℕ) (statement : Told) (next : IsNextOf D.Disk c opened a b h s statement 0) (x : Acts) → IsLook x → IsFirstOf x statement → IsUnopposed next x
        → (mid : SessionsHeld) → KeepsSessions s h mid → RestsBehind D.Disk a b → IsActTold next mid x (reply.Refused refusal.OutOfMemory) }
{
    a_refusal_is_told::<D>();
    room_shows_the_same::<D>();
}

/// A row whose Lock nothing speaks against nobody else has locked, also once its session uses the table. A session that takes its locks, and has a
/// number then, is told so; and from then on it counts on the table.
pub(crate) fn a_row_that_is_locked_is_told<D: Disk>()
    ensures free { (c : Start) (opened : D) (a b : View D) (h : SessionsHeld) (s : ℕ) (statement : Told) (next : IsNextOf D.Disk c opened a b h s statement 0) → IsUnopposed next act.Lock → (row : At) → WritesRowOf next row
        → (mid : SessionsHeld) → KeepsSessions s h mid → (used : List (ℕ × LocksOfSession)) → OfSession s (UsesName row.name.now) mid.locks used → IsInOrder used → locked_among s row.entry row.key used ≡ None }
    ensures told { (c : Start) (opened : D) (a b : View D) (h : SessionsHeld) (s : ℕ) (statement : Told) (next : IsNextOf D.Disk c opened a b h s statement 0) → (free : IsUnopposed next act.Lock) → (row : At) → WritesRowOf next row
        → (more : List Fact) → IdleCountsOn free.txn.session.me more (next.mind.facts s) → (mid now : SessionsHeld) → KeepsSessions s h mid → TakesRow s row mid.locks now.locks → HasNumber D.Disk s mid.txns now.txns a b
        → (told : IsActTold next now act.Lock reply.Granted) × IsAmong (HasTable row.entry ((area_in a.now).title row.entry)) (told.mind.facts s) }
{
    a_first_lock_is_told::<D>();
    a_lock_is_told::<D>();
    a_session_may_count_on_what_holds::<D>();
    key_locks_are_the_models();
    key_locks_show();
    room_shows_the_same::<D>();
}

/// A session that holds a name whose Lock nothing speaks against, and that has a number then, is told so. It counts on the tables that it counted on, and
/// on the one of the name that it has found.
pub(crate) fn a_name_that_is_held_is_told<D: Disk>()
    ensures { (c : Start) (opened : D) (a b : View D) (h : SessionsHeld) (s : ℕ) (statement : Told) (next : IsNextOf D.Disk c opened a b h s statement 0) → (free : IsUnopposed next act.Lock) → IsFirstOf act.Lock statement
        → (name : List ℕ) → IsOfName statement name → (found : Option ℕ) → IsFoundFor free name found → (more : List Fact) → IdleCountsOn free.txn.session.me more (next.mind.facts s) → (mid now : SessionsHeld) → KeepsSessions s h mid → OfSession s (HoldsName name) mid.locks now.locks
        → HasNumber D.Disk s mid.txns now.txns a b
        → (told : IsActTold next now act.Lock reply.Granted) × CountsOnFound None found (area_in a.now).title (told.mind.facts s) }
{
    a_first_lock_is_told::<D>();
    a_lock_is_told::<D>();
    a_session_may_count_on_what_holds::<D>();
    key_locks_show();
    room_shows_the_same::<D>();
}
