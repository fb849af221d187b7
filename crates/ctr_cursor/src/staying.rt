// Laws of a position beside what others log. A call does nothing: what it ensures is the law.
ghost use Rattle.std.specs.Prelude.{◌≡◌, ◌≤◌, ℕ};
ghost use Rattle.ctr_page.specs.declared.checks.Chain.{Chain};
ghost use Rattle.ctr_walk.specs.redo_States.{State};
ghost use Rattle.ctr_actions.specs.Words.{pages_bound, IsInBounds};
ghost use Rattle.ctr_actions.specs.Sites.{Site, IsSoundSite, site_of};
ghost use Rattle.ctr_actions.specs.Actions.{Action, Owes, site_after};
ghost use Rattle.ctr_actions.specs.Records.{Does};
ghost use Rattle.ctr_cursor.specs.declared.position.Position.{Position as PositionOf};
ghost use Rattle.ctr_cursor.specs.Pass.{next_position};
ghost use Rattle.ctr_cursor.specs.Standing.{IsInChain, IsPosition, TakesFrom, TakesPage};

use ctr_actions::pages_are_in_bounds;

/// A page stays in its chain, with as much room, over every action that may be logged but the one that takes this page from this chain; so
/// a position stays one, while others act.
pub fn a_position_stays()
    ensures pages { (x p : ℕ) (a : Action) (chain : Chain) (s : Site) → IsInBounds s.area → s.counted ≤ pages_bound → IsSoundSite s
        → Owes x a s → (TakesFrom a chain p → ⊥) → IsInChain chain p s.area → IsInChain chain p (site_after x a s).area }
    ensures rooms { (x p : ℕ) (a : Action) (chain : Chain) (s : Site) → IsInBounds s.area → IsSoundSite s
        → Owes x a s → IsInChain chain p s.area → (site_after x a s).area.room p ≡ s.area.room p }
    ensures positions { (x : ℕ) (y : PositionOf) (a : Action) (s : Site) → IsInBounds s.area → s.counted ≤ pages_bound → IsSoundSite s
        → Owes x a s → (TakesPage a y → ⊥) → IsPosition y s → IsPosition y (site_after x a s) }
    // So from state to state.
    ensures done { (x : ℕ) (y : PositionOf) (a : Action) (s t : State) → Does x a s t → s.counted ≤ pages_bound → IsSoundSite (site_of s)
        → (TakesPage a y → ⊥) → IsPosition y (site_of s) → IsPosition y (site_of t) }
    // Where the file grows it stays one, and the same is behind it.
    ensures grown { (y : PositionOf) (s : Site) (more : ℕ) → (IsPosition y s → IsPosition y (record s { counted = more }))
        × (next_position (record s { counted = more }) y ≡ next_position s y) }
{
    pages_are_in_bounds();
}
