// Over each kind of turn.
ghost use Rattle.std.specs.Prelude.{◌≡◌, ◌≤◌, ℕ, List, [], ◌∷◌, ◌++◌, length, take};
ghost use Rattle.std.specs.List.{AllByRecursion};
ghost use Rattle.ctr_stops.specs.Words.{Entry, LeavesOnly, Image, Record, Change, Database, after_all, at_rest, answers, pages_bound, State, grown, area_in, StandsForDatabase, LeavesFirst, OpensStore, View, LeavesFront, LeavesGrowing, GrowsByExtent, Logs, names_of_items, site_of, at_open, IsShown};
ghost use Rattle.ctr_stops.specs.Fronts.{rows_of_state};
ghost use Rattle.ctr_stops.specs.Stops.{HasFirstCommits, Course, asking_more, KeepsCommits, ShowsAll, NotesAt, LeavesPrefixAt, LeftSince};

use ctr_disk::Disk;
use ctr_kept::an_image_opens;

/// A store that is opened on an image that stands for a database has its state, and a stop in the opening leaves its rows, or
/// what it might have left before.
pub fn an_opened_store_keeps_commits<D: Disk>()
    ensures now { (image : Image) (s : State) (v : View D) → StandsForDatabase image s → OpensStore image v → v.now ≡ s }
    ensures commits { (image : Image) (s : State) (disk : D) (v : View D) → StandsForDatabase image s → OpensStore image v
        → LeavesOnly D.Disk disk v.disk (LeavesFirst image (D.Disk.images disk))
        → KeepsCommits D.Disk (record { opened = disk; base = rows_of_state s; asked = [] }) [] v }
{}

/// However a call ends, with a fault too, a stop leaves a prefix at each moment until then; and so it does in a growth.
pub fn a_call_that_ends_leaves_a_prefix<D: Disk>()
    ensures call { (c : Course D) (es : List Entry) (a b : View D) → KeepsCommits D.Disk c es a → LeavesFront D.Disk a b
        → LeftSince D.Disk (D.Disk.moment_of c.opened) b.disk (LeavesPrefixAt (D.Disk.images c.opened) c.base c.asked es) }
    ensures growth { (c : Course D) (es : List Entry) (a b : View D) → KeepsCommits D.Disk c es a → a.hardened.counted ≤ grown a.hardened.counted
        → grown a.hardened.counted ≤ pages_bound → LeavesGrowing D.Disk a b
        → LeftSince D.Disk (D.Disk.moment_of c.opened) b.disk (LeavesPrefixAt (D.Disk.images c.opened) c.base c.asked es) }
    // At its end it leaves the rows of a prefix, and not what it might have left at the start.
    ensures end { (c : Course D) (es : List Entry) (a b : View D) → KeepsCommits D.Disk c es a → LeavesFront D.Disk a b
        → (image : Image) → D.Disk.since b.disk (D.Disk.moment_of b.disk) image → HasFirstCommits c.base c.asked (answers es) image }
{}

/// A record is logged, and what is shown then has all that asked; or none is, as pages are read or go home, or what waits is
/// hardened. No answer comes with it.
pub fn a_record_more_leaves_a_prefix<D: Disk>()
    ensures logged { (c : Course D) (es entries : List Entry) (more : List (List Change)) (r : Record) (a b : View D) → KeepsCommits D.Disk c es a
        → LeavesFront D.Disk a b → Logs (r ∷ []) a b → ShowsAll c.base (c.asked ++ more) b → answers es ≤ length (c.asked ++ more)
        → NotesAt (D.Disk.moment_of b.disk) es entries → KeepsCommits D.Disk (asking_more more c) (es ++ entries) b }
    ensures none { (c : Course D) (es entries : List Entry) (a b : View D) → KeepsCommits D.Disk c es a
        → LeavesFront D.Disk a b → Logs [] a b → NotesAt (D.Disk.moment_of b.disk) es entries → KeepsCommits D.Disk c (es ++ entries) b }
{}

/// Where nothing waits any more, as many answers may come as have asked.
pub fn answers_leave_a_prefix<D: Disk>()
    ensures { (c : Course D) (es entries : List Entry) (a b : View D) → KeepsCommits D.Disk c es a
        → LeavesFront D.Disk a b → LeavesFront D.Disk b b → Logs [] a b → b.waiting ≡ [] → ShowsAll c.base c.asked b
        → answers (es ++ entries) ≤ length c.asked → AllByRecursion (λ (e : Entry). e.moment ≡ D.Disk.moment_of b.disk) entries
        → KeepsCommits D.Disk c (es ++ entries) b }
{}

/// More pages are counted.
pub fn a_growth_leaves_a_prefix<D: Disk>()
    ensures { (c : Course D) (es : List Entry) (a b : View D) → KeepsCommits D.Disk c es a → a.hardened.counted ≤ grown a.hardened.counted
        → grown a.hardened.counted ≤ pages_bound → LeavesGrowing D.Disk a b → GrowsByExtent D.Disk a b → b.waiting ≡ a.waiting
        → KeepsCommits D.Disk c es b }
{}

/// What is left opens, on the rows of its prefix.
pub fn what_is_left_opens()
    ensures { (base : Database) (asked : List (List Change)) (least : ℕ) (image : Image) (left : HasFirstCommits base asked least image)
        → IsShown 0 (site_of left.stands.state) (record {
          run = at_open;
          state = at_rest (after_all (take left.k asked) base) (names_of_items (area_in left.stands.state).title left.stands.state.tables.items);
        }) }
{
    an_image_opens();
}
