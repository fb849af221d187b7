// Laws of rollbacks. A call does nothing: what it ensures is the law.
ghost use Rattle.std.specs.Prelude.{◌≡◌, ◌≢◌, ◌+◌, ◌*◌, ℕ, Bool, List};
ghost use Rattle.ctr_types.specs.declared.tape.Act.TheVariants as act;
ghost use Rattle.ctr_types.specs.declared.tape.Reply.TheVariants as reply;
ghost use Rattle.ctr_page_turns.specs.redo_States.{State};
ghost use Rattle.ctr_page_turns.specs.record_effects_Standing.{IsDatabaseState};
ghost use Rattle.ctr_page_turns.specs.actions_Actions.{Action, item_count};
ghost use Rattle.ctr_stops.specs.actions_Facts.{Fact};
ghost use Rattle.ctr_stops.specs.store_Store.{View};
ghost use Rattle.ctr_stops.specs.kept_Walk.{Mind, IsAtRollback};
ghost use Rattle.ctr_stops.specs.kept_Turns.{Start, InTransaction, Telling, MayCome, telling, undoing_mind, gone_mind, point_now};
ghost use Rattle.ctr_stops.specs.World.{KeepsWorld};
ghost use Rattle.ctr_page_turns.specs.Turns.{LogsAtRest};
ghost use Rattle.ctr_page_turns.specs.Acts.{ActsBy};
ghost use Rattle.ctr_rollback.specs.declared.rolling.Rolled.TheVariants.{Undone, Back};
ghost use Rattle.ctr_rollback.specs.Rolling.{RollsTo, steps_of};
ghost use Rattle.ctr_rollback.specs.Series.{LeadOn, its_turns};
ghost use Rattle.ctr_rollback.specs.Keeping.{IsActiveWriter, AreOthersTables};

use ctr_disk::Disk;
use ctr_page_turns::{
    a_sound_state_stays_sound, an_undone_item_goes_alone, ones_own_action_leaves_what_is_held,
    what_is_done_stays,
};
use ctr_record_laws::pages_are_in_bounds;
use ctr_stops::{
    a_rollback_begins, a_rollback_ends, a_turn_of_a_world_is_kept, a_turn_without_an_entry_is_kept,
    an_action_keeps_the_pages,
};

/// A turn of a rollback keeps a World. With its first record the session is within its rollback, at a ROLLBACK that isn't answered yet, and
/// it stays so with each further one; it may go on to count on tables that it didn't make. The mark is told on the tape, and with it the transaction is gone.
pub fn a_turn_of_a_rollback_is_kept<D: Disk>()
    ensures undone { (c : Start) (opened : D) (a b : View D) (w : Mind) (s : ℕ) (seat : InTransaction c w s) → KeepsWorld D.Disk c opened a w
        → IsActiveWriter seat → IsAtRollback c.lines (point_now c w) s → RollsTo seat.session.me a.now b.now Undone → LogsAtRest D.Disk a b
        → (more : List Fact) → AreOthersTables seat (w.facts s) more → KeepsWorld D.Disk c opened b (undoing_mind s seat.session more w) }
    ensures back { (c : Start) (opened : D) (a b : View D) (w : Mind) (s : ℕ) (seat : InTransaction c w s) (e : Telling c (D.Disk.moment_of a.disk) s) → KeepsWorld D.Disk c opened a w
        → IsActiveWriter seat → MayCome c w e act.Rollback reply.RolledBack → e.later ≡ D.Disk.moment_of b.disk → RollsTo seat.session.me a.now b.now Back → LogsAtRest D.Disk a b
        → KeepsWorld D.Disk c opened b (telling e act.Rollback reply.RolledBack w (gone_mind s w)) }
{
    a_rollback_begins();
    a_turn_without_an_entry_is_kept();
    a_rollback_ends();
    ones_own_action_leaves_what_is_held();
    what_is_done_stays();
    an_action_keeps_the_pages();
    a_turn_of_a_world_is_kept::<D>();
}

/// A rollback takes one turn for each item that the transaction has, and one for the mark, whatever others do between.
pub fn a_rollback_takes_a_turn_an_item()
    // Another's action neither adds an item of the transaction nor takes one.
    ensures others { (x y : ℕ) (a : Action) (s t : State) → IsDatabaseState s → x ≢ y → ActsBy y a s t → item_count x t.tables ≡ item_count x s.tables }
    ensures left { (x : ℕ) (turns : List Bool) (s t : State) → IsDatabaseState s → LeadOn x turns s t
        → item_count x s.tables ≡ item_count x t.tables + its_turns turns }
    ensures all { (x : ℕ) (turns : List Bool) (s t u : State) → IsDatabaseState s → LeadOn x turns s t → RollsTo x t u Back
        → its_turns turns ≡ item_count x s.tables }
    // So many pages are read and records logged by them, together.
    ensures steps { (x : ℕ) (turns : List Bool) (s t u : State) → IsDatabaseState s → LeadOn x turns s t → RollsTo x t u Back
        → its_turns turns * steps_of Undone + steps_of Back ≡ 2 * item_count x s.tables + 1 }
{
    an_undone_item_goes_alone();
    a_sound_state_stays_sound();
    pages_are_in_bounds();
}
