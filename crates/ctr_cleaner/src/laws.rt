// What a pass says that finds nothing. A call does nothing: what it ensures is the law.
ghost use Rattle.std.specs.Prelude.{◌≡◌, ◌≤◌, ℕ, ℤ, false, List, []};
ghost use Rattle.ctr_walk.specs.redo_States.{State};
ghost use Rattle.ctr_area.specs.Sound.{IsAmong, IsBare};
ghost use Rattle.ctr_walk.specs.record_effects_States.{area_in};
ghost use Rattle.ctr_walk.specs.record_effects_Standing.{IsDatabaseState};
ghost use Rattle.ctr_actions.specs.Sites.{site_of};
ghost use Rattle.ctr_actions.specs.Actions.{Action, Owes};
ghost use Rattle.ctr_actions.specs.Cleaning.{IsCleaning};
ghost use Rattle.ctr_locks.specs.Held.{session_locks};
ghost use Rattle.ctr_emptying.specs.clean_Choosing.{passes_below};
ghost use Rattle.ctr_emptying.specs.clean_Lists.{HasNoFree};
ghost use Rattle.ctr_emptying.specs.clean_Steps.{Locks};
ghost use Rattle.ctr_emptying.specs.cursor_Position.{Position as PositionOf};
ghost use Rattle.ctr_emptying.specs.cursor_Pass.{IsWholePass};
ghost use Rattle.ctr_emptying.specs.cursor_Standing.{IsPosition};
ghost use Rattle.ctr_cleaner.specs.Finding.{IsFreeRow, HasNothingAt, IsUnseenAt};

use ctr_actions::{a_site_with_nothing_to_clean_is_bare, pages_are_in_bounds};
use ctr_emptying::a_pass_comes_by_every_place;

/// Where a whole pass finds nothing to do at any position, whichever rows are locked, no page waits to be free again, no transaction is open, and everybody sees what is
/// committed, the pages are bare: nothing is left to clean.
pub fn a_pass_that_finds_nothing_leaves_it_bare()
    ensures { (s : State) (low : ℕ) (passed : List PositionOf) → IsDatabaseState s → s.tables.opens ≡ [] → s.tables.next ≤ low → HasNoFree 0 s.tables
        → IsWholePass (site_of s) passed → ((x : PositionOf) → IsAmong x passed → HasNothingAt (λ e key. Unit {0}) low x s) → IsBare s.tables (area_in s) }
{
    a_pass_comes_by_every_place();
    a_site_with_nothing_to_clean_is_bare();
    pages_are_in_bounds();
}

/// Where no transaction is open and everybody sees what is committed, and at a position it isn't seen whether there is anything to do, an action of the
/// cleaner's is owed somewhere. So no turn says so of pages that have nothing to clean, and a pass over them is idle.
pub fn what_is_unseen_is_due()
    ensures { (locks : Locks) (low : ℕ) (x : PositionOf) (s : State) → IsDatabaseState s → s.tables.opens ≡ [] → s.tables.next ≤ low → IsPosition x (site_of s)
        → IsUnseenAt locks low x s → (a : Action) × IsCleaning (passes_below low s.tables) a (site_of s) × Owes 0 a (site_of s) }
{}

/// What was found at a position stays found where fewer rows are free, and where more pages are counted; and where nothing is locked every row was free.
pub fn what_is_found_stays()
    ensures locked { (locks more : Locks) (low : ℕ) (x : PositionOf) (s : State) → ((e : ℕ) (key : ℤ) → IsFreeRow more s e key → IsFreeRow locks s e key)
        → HasNothingAt (IsFreeRow locks s) low x s → HasNothingAt (IsFreeRow more s) low x s }
    ensures alone { (locks : Locks) (low : ℕ) (x : PositionOf) (s : State) → ((r f : ℕ) (key : ℤ) → session_locks r f key locks ≡ false)
        → HasNothingAt (IsFreeRow locks s) low x s → HasNothingAt (λ e key. Unit {0}) low x s }
    ensures grown { (locks : Locks) (low more : ℕ) (x : PositionOf) (s : State) → HasNothingAt (IsFreeRow locks s) low x s
        → HasNothingAt (IsFreeRow locks (record s { counted = more })) low x (record s { counted = more }) }
    ensures grown_alone { (low more : ℕ) (x : PositionOf) (s : State) → HasNothingAt (λ e key. Unit {0}) low x s
        → HasNothingAt (λ e key. Unit {0}) low x (record s { counted = more }) }
{}
