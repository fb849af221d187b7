// A walk begins, time passes, commits are answered.
ghost use Rattle.std.specs.Prelude.{◌≡◌, ◌<◌, ◌≤◌, ◌+◌, ℕ, List, length};
ghost use Rattle.ctr_kept.specs.Words.{Line, pages_bound, is_committed_in, image_rows, undo_size, IsInBounds, names_of_items, Site, IsSoundSite};
ghost use Rattle.ctr_kept.specs.Walk.{Mind, mind_at};
ghost use Rattle.ctr_kept.specs.Turns.{Start, KeepsRun, state_now, AnswersEach};

/// On a sound site a run begins with its rows, with nobody in a transaction, and with the names of its items held by recovery. All of its
/// undo is left.
pub fn a_walk_begins()
    ensures { (lines : List Line) (moment : ℕ) (site : Site) → IsInBounds site.area → site.counted ≤ pages_bound → IsSoundSite site → 0 < site.tables.next
        → KeepsRun (record { lines = lines; moment = moment; base = image_rows (is_committed_in site.tables) site.area; stuck = names_of_items site.area.title site.tables.items; size = undo_size site.tables }) moment site (mind_at site) }
{}

/// Time passes, as pages are read or go home, or what waits is hardened; and more pages are counted.
pub fn time_and_growth_are_kept()
    ensures time { (c : Start) (now later : ℕ) (site : Site) (w : Mind) → KeepsRun c now site w → now ≤ later → KeepsRun c later site w }
    ensures growth { (c : Start) (now later more : ℕ) (site : Site) (w : Mind) → KeepsRun c now site w → now ≤ later → site.counted ≤ more → more ≤ pages_bound
        → KeepsRun c later (record site { counted = more }) w }
{}

/// Where nothing waits in the log any more, all commits that were asked for are answered at one moment, in their order.
pub fn commits_are_answered()
    ensures { (c : Start) (now later n : ℕ) (site : Site) (w : Mind) → KeepsRun c now site w → now ≤ later
        → length (state_now c w).asked ≡ (state_now c w).answered + n → AnswersEach c later site w n }
{}
