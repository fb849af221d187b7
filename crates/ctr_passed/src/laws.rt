// Pages that pass their checks stay so, and a sound state stays sound. A call does nothing: what it ensures is the law.
ghost use Rattle.std.specs.Prelude.{◌≤◌, ℕ};
ghost use Rattle.ctr_passed.specs.Words.{State, counting, pages_bound, ArePassed, pages_in, area_in, IsDatabaseState, Action, Does};
ghost use Rattle.ctr_passed.specs.Laid.{LiesAs, LaidPasses};

use ctr_actions::what_is_done_stays;

/// Behind an action no check of the pages fails, where its bytes lie at what it changes and pass their own checks.
pub fn an_action_keeps_pages_passed()
    ensures { (x : ℕ) (a : Action) (s t : State) → IsDatabaseState s → Does x a s t
        → LiesAs a (area_in s) (pages_in s) (pages_in t) → LaidPasses a t.counted (area_in t) (pages_in t)
        → ArePassed t.counted (pages_in t) }
{}

/// So it leaves a sound state; and so does a growth, by which more pages are counted.
pub fn a_sound_state_stays_sound()
    ensures action { (x : ℕ) (a : Action) (s t : State) → IsDatabaseState s → Does x a s t
        → LiesAs a (area_in s) (pages_in s) (pages_in t) → LaidPasses a t.counted (area_in t) (pages_in t)
        → IsDatabaseState t }
    ensures growth { (more : ℕ) (s : State) → IsDatabaseState s → s.counted ≤ more → more ≤ pages_bound
        → IsDatabaseState (counting more s) }
{
    an_action_keeps_pages_passed();
    what_is_done_stays();
}
