// Rows that are read, in a World. A call does nothing: what it ensures is the law.
ghost use Rattle.std.specs.Prelude.{◌≡◌, ℕ, List, Option};
ghost use Rattle.std.specs.Option.{option_map};
ghost use Rattle.ctr_types.specs.declared.statement.KeyIs.{KeyIs};
ghost use Rattle.ctr_types.specs.declared.statement.Statement.TheVariants as st;
ghost use Rattle.ctr_types.specs.declared.tape.Act.TheVariants as act;
ghost use Rattle.ctr_types.specs.declared.tape.Reply.TheVariants as reply;
ghost use Rattle.ctr_types.specs.declared.value.Rows.{Rows};
ghost use Rattle.ctr_record_effects.specs.States.{area_in};
ghost use Rattle.ctr_session_world.specs.actions_Facts.{Fact};
ghost use Rattle.ctr_asking.specs.ctr_wishes.actions_Sites.{site_of};
ghost use Rattle.ctr_store.specs.Store.{View};
ghost use Rattle.ctr_session_world.specs.kept_Turns.{Start};
ghost use Rattle.ctr_locks.specs.Held.{LocksOfSession, OfSession, UsesName};
ghost use Rattle.ctr_session_world.specs.page_turns_Turns.{RestsBehind};
ghost use Rattle.ctr_session_world.specs.ctr_told.Turning.{IdleCountsOn};
ghost use Rattle.ctr_asking.specs.ctr_wishes.ctr_reading.Reading.{AreShown};
ghost use Rattle.ctr_asking.specs.Asking.{sees_for};
ghost use Rattle.ctr_session_world.specs.World.{SessionsHeld};
ghost use Rattle.ctr_session_world.specs.Told.{IsNextOf, IsActTold};
ghost use Rattle.ctr_looks.specs.Granting.{IsUnopposed, KeepsSessions};
ghost use Rattle.ctr_looks.specs.Asked.{StandsAt};

use crate::grants::room_shows_the_same;
use ctr_asking::wishes::reading::rows_are_those_of_the_view;
use ctr_disk::Disk;
use ctr_locks::key_locks_show;
use ctr_session_world::told::rows_that_are_read_are_told;

/// Rows that the slots of a table show to a session, which has found it and uses it then, are told as they are: they are the model's.
pub(crate) fn rows_of_a_table_are_told<D: Disk>()
    ensures { (c : Start) (opened : D) (a b : View D) (h : SessionsHeld) (s : ℕ) (name : List ℕ) (at : Option KeyIs) (next : IsNextOf D.Disk c opened a b h s (st.Select name at) 0) → (free : IsUnopposed next act.Read) → (e : ℕ) → StandsAt free name e
        → (rows : Rows) → AreShown (sees_for (site_of a.now) free.txn) (area_in a.now) e (option_map (λ k. k.key) at) rows.rows → (more : List Fact) → IdleCountsOn free.txn.session.me more (next.mind.facts s)
        → (mid : SessionsHeld) → KeepsSessions s h mid → (left : List (ℕ × LocksOfSession)) → OfSession s (UsesName name) mid.locks left → RestsBehind D.Disk a b
        → IsActTold next (record { txns = mid.txns; locks = left }) act.Read (reply.Rows rows) }
{
    rows_that_are_read_are_told::<D>();
    rows_are_those_of_the_view();
    key_locks_show();
    room_shows_the_same::<D>();
}
