// Turns of the cleaner in a run. A call does nothing: what it ensures is the law.
ghost use Rattle.std.specs.Prelude.{◌≤◌, ℕ, ℤ, List};
ghost use Rattle.ctr_model.specs.declared.state.State.{State};
ghost use Rattle.ctr_locks.specs.Held.{LocksOfSession};
ghost use Rattle.ctr_locks.specs.Shows.{ShowsKeyLocks};
ghost use Rattle.ctr_kept.specs.ctr_paged.record_laws_Bounds.{IsInBounds};
ghost use Rattle.ctr_kept.specs.ctr_paged.actions_Sites.{Site};
ghost use Rattle.ctr_kept.specs.ctr_paged.actions_Actions.{Action, Owes, site_after};
ghost use Rattle.ctr_kept.specs.Walk.{Mind};
ghost use Rattle.ctr_kept.specs.Turns.{Start, KeepsRun, scene_now};
ghost use Rattle.ctr_stops.specs.Words.{View, site_of};
ghost use Rattle.ctr_stops.specs.World.{KeepsWorld};
ghost use Rattle.ctr_page_turns.specs.Turns.{LogsAtRest};
ghost use Rattle.ctr_page_turns.specs.Acts.{ActsBy};
ghost use Rattle.ctr_cleaning.specs.Sparing.{AreInCatalog, IsUnlockedAs, IsUnlockedIn, MayClean};

use ctr_actions::{live_tables_are_away, locked_rows_are_away, what_is_done_stays};
use ctr_disk::Disk;
use ctr_kept::{a_dying_table_is_away, an_action_of_nobodys_is_kept};
use ctr_paged::the_low_mark_is_old;
use ctr_stops::{a_turn_of_a_world_is_kept, an_action_keeps_the_pages};

/// Where the program's locks show a state of the model, a key that nobody has locked by them, in whichever entry of the table's name, no transaction has
/// locked.
pub fn what_nobody_has_locked_is_free()
    ensures { (name_of : ℕ → List ℕ) (locks : List (ℕ × LocksOfSession)) (state : State) (e : ℕ) (key : ℤ) → ShowsKeyLocks name_of locks state
        → AreInCatalog locks → IsUnlockedAs name_of locks e key → IsUnlockedIn state (name_of e) key }
{}

/// What the cleaner may do leaves a run as it was: the tape, the sessions and what they count on, and undo's list. The pages show the same state.
pub fn what_is_cleaned_is_kept()
    ensures { (c : Start) (now later low : ℕ) (site : Site) (w : Mind) (a : Action) → KeepsRun c now site w → now ≤ later
        → MayClean low a site (scene_now c w) w.undo → Owes site.tables.next a site → IsInBounds (site_after site.tables.next a site).area
        → KeepsRun c later (site_after site.tables.next a site) w }
{
    an_action_of_nobodys_is_kept();
    a_dying_table_is_away();
    the_low_mark_is_old();
    locked_rows_are_away();
    live_tables_are_away();
}

/// So a World is kept by a record of it, and by what a crash leaves of that: the tape and all that sessions have are as they were.
pub fn a_cleaned_world_is_kept<D: Disk>()
    ensures { (c : Start) (opened : D) (a b : View D) (w : Mind) (low : ℕ) (does : Action) → KeepsWorld D.Disk c opened a w
        → MayClean low does (site_of a.now) (scene_now c w) w.undo → ActsBy a.now.tables.next does a.now b.now → LogsAtRest D.Disk a b
        → KeepsWorld D.Disk c opened b w }
{
    what_is_cleaned_is_kept();
    what_is_done_stays();
    an_action_keeps_the_pages();
    a_turn_of_a_world_is_kept::<D>();
}
