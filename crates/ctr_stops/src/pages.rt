// The bytes of pages, over each kind of turn.
ghost use Rattle.std.specs.Prelude.{◌≡◌, ◌<◌, ◌≤◌, ℕ, List};
ghost use Rattle.ctr_stops.specs.Words.{IsNoSessions, pages_bound, State, counting, pages_in, area_in, site_of, Action, Does, Fact, LiesAs, LaidPasses, Mind, with_facts, Start, KeepsRun, InTransaction};
ghost use Rattle.ctr_stops.specs.Pages.{HoldsPages, CountsOnNoMore, OthersAreHeld, AreBlankOrWere};

use ctr_passed::{a_sound_state_stays_sound, an_own_page_stays_blank};

/// What is kept of the bytes of pages stays kept behind an action of a session, and behind one of whom no session is: of undo, of the
/// cleaner, or with a number that is drawn by it. The bytes of the action lie at what it changes, and pass their checks.
pub fn an_action_keeps_the_pages()
    ensures own { (c : Start) (now s : ℕ) (old new : State) (w v : Mind) (seat : InTransaction c w s) (a : Action) (mine : List Fact) → KeepsRun c now (site_of old) w
        → HoldsPages w old → 0 < seat.session.me → Does seat.session.me a old new
        → LiesAs a (area_in old) (pages_in old) (pages_in new) → LaidPasses a new.counted (area_in new) (pages_in new)
        → OthersAreHeld s w v → v.facts ≡ with_facts s mine w.facts → AreBlankOrWere a (w.facts s) mine new → HoldsPages v new }
    ensures nobodys { (c : Start) (now x : ℕ) (old new : State) (w v : Mind) (a : Action) → KeepsRun c now (site_of old) w
        → HoldsPages w old → IsNoSessions w.run.sessions x → Does x a old new
        → LiesAs a (area_in old) (pages_in old) (pages_in new) → LaidPasses a new.counted (area_in new) (pages_in new)
        → CountsOnNoMore w v → HoldsPages v new }
{
    a_sound_state_stays_sound();
    an_own_page_stays_blank();
}

/// It is kept where nothing is logged, and where more pages are counted.
pub fn growth_keeps_the_pages()
    ensures silent { (s : State) (w v : Mind) → HoldsPages w s → CountsOnNoMore w v → HoldsPages v s }
    ensures growth { (more : ℕ) (s : State) (w : Mind) → HoldsPages w s → s.counted ≤ more → more ≤ pages_bound → HoldsPages w (counting more s) }
{
    a_sound_state_stays_sound();
}
