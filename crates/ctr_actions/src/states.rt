// Actions between states of a store.
ghost use Rattle.std.specs.Prelude.{◌⊎◌, ◌≡◌, ◌≢◌, ◌≤◌, ℕ};
ghost use Rattle.ctr_actions.specs.Words.{Overlay, effect, State, step, area_in, pages_bound, IsInBounds};
ghost use Rattle.ctr_actions.specs.Sites.{IsSoundSite, site_of};
ghost use Rattle.ctr_actions.specs.Actions.{Action, Owes, site_after};
ghost use Rattle.ctr_actions.specs.Records.{record_of, Does};
ghost use Rattle.ctr_actions.specs.Facts.{Fact, HoldsFact, IsAway, IsBeside};

use crate::laws::{an_action_meets_its_needs, an_action_stays_sound, what_is_held_stays};
use ctr_record_laws::pages_are_in_bounds;

/// A state that steps by the record of an action, whose pages say what the action leaves, is left by it. That its tables are the
/// action's computes for each, but for a row in another's name and for a Checkpoint.
pub fn a_logged_record_is_its_action()
    ensures leaves { (x : ℕ) (a : Action) (s : State) (o : Overlay) → effect (record_of x a (site_of s) o) s.tables ≡ (site_after x a (site_of s)).tables
        → area_in (step (record_of x a (site_of s) o) s) ≡ (site_after x a (site_of s)).area → site_of (step (record_of x a (site_of s) o) s) ≡ site_after x a (site_of s) }
    ensures does { (x : ℕ) (a : Action) (s : State) (o : Overlay) → Owes x a (site_of s)
        → area_in (step (record_of x a (site_of s) o) s) ≡ (site_after x a (site_of s)).area → Does x a s (step (record_of x a (site_of s) o) s) }
{
    an_action_stays_sound();
    an_action_meets_its_needs();
}

/// From state to state: pages are in their bounds, what is sound stays so, and so does what a transaction counts on.
pub fn what_is_done_stays()
    ensures bounds { (x : ℕ) (a : Action) (s t : State) → Does x a s t → IsInBounds (site_after x a (site_of s)).area }
    ensures sound { (x : ℕ) (a : Action) (s t : State) → Does x a s t → s.counted ≤ pages_bound → IsSoundSite (site_of s) → IsSoundSite (site_of t) }
    ensures held { (x y : ℕ) (a : Action) (fact : Fact) (s t : State) → Does y a s t → s.counted ≤ pages_bound → IsSoundSite (site_of s)
        → IsAway a fact → IsBeside a fact ⊎ (x ≢ y) → HoldsFact x fact (site_of s) → HoldsFact x fact (site_of t) }
{
    an_action_stays_sound();
    what_is_held_stays();
    pages_are_in_bounds();
}
