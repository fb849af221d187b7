// What a World keeps of its walk and of its store, together.
ghost use Rattle.std.specs.Prelude.{◌≡◌, ◌≤◌, ℕ, List, [], ◌∷◌, ◌++◌};
ghost use Rattle.ctr_stops.specs.Words.{Line, Entry, LeavesOnly, Image, pages_bound, Record, State, grown, StandsForDatabase, LeavesFirst, OpensStore, View, LeavesFront, LeavesGrowing, GrowsByExtent, Logs, site_of, Mind, mind_at, Start, KeepsRun, AnswersEach, state_now};
ghost use Rattle.ctr_stops.specs.Pages.{HoldsPages, CountsOnNoMore};
ghost use Rattle.ctr_stops.specs.Stops.{NotesAt};
ghost use Rattle.ctr_stops.specs.World.{starting, KeepsWorld};

use ctr_disk::Disk;
use ctr_model::states_grow;
use ctr_passed::a_sound_state_stays_sound;

/// A World begins on a store that was opened on an image that stands for a database.
pub fn a_world_begins<D: Disk>()
    ensures { (lines : List Line) (image : Image) (s : State) (disk : D) (v : View D) → StandsForDatabase image s → OpensStore image v
        → LeavesOnly D.Disk disk v.disk (LeavesFirst image (D.Disk.images disk)) → LeavesFront D.Disk v v
        → KeepsWorld D.Disk (starting lines (D.Disk.moment_of disk) s) disk v (mind_at (site_of s)) }
{}

/// A turn of which the walk is kept, where the store logged one record, or none and nobody asked; no answer came with it.
pub fn a_turn_of_a_world_is_kept<D: Disk>()
    ensures logged { (c : Start) (opened : D) (a b : View D) (w v : Mind) (entries : List Entry) (r : Record) → KeepsWorld D.Disk c opened a w
        → v.tape ≡ w.tape ++ entries → KeepsRun c (D.Disk.moment_of b.disk) (site_of b.now) v → NotesAt (D.Disk.moment_of b.disk) w.tape entries
        → HoldsPages v b.now → LeavesFront D.Disk a b → LeavesFront D.Disk b b → Logs (r ∷ []) a b → KeepsWorld D.Disk c opened b v }
    ensures none { (c : Start) (opened : D) (a b : View D) (w v : Mind) (entries : List Entry) → KeepsWorld D.Disk c opened a w
        → v.tape ≡ w.tape ++ entries → KeepsRun c (D.Disk.moment_of b.disk) (site_of b.now) v → NotesAt (D.Disk.moment_of b.disk) w.tape entries
        → (state_now c v).asked ≡ (state_now c w).asked → CountsOnNoMore w v → LeavesFront D.Disk a b → LeavesFront D.Disk b b → Logs [] a b → KeepsWorld D.Disk c opened b v }
{
    states_grow();
}

/// Where nothing waits any more, all that asked may be answered at once; and more pages may be counted.
pub fn answers_and_growth_are_kept<D: Disk>()
    ensures answers { (c : Start) (opened : D) (a b : View D) (w : Mind) (n : ℕ) → KeepsWorld D.Disk c opened a w
        → LeavesFront D.Disk a b → LeavesFront D.Disk b b → Logs [] a b → b.waiting ≡ []
        → (all : AnswersEach c (D.Disk.moment_of b.disk) (site_of b.now) w n) → KeepsWorld D.Disk c opened b all.mind }
    ensures growth { (c : Start) (opened : D) (a b : View D) (w : Mind) → KeepsWorld D.Disk c opened a w → grown a.now.counted ≤ pages_bound
        → a.now.counted ≤ grown a.now.counted → LeavesGrowing D.Disk a b → GrowsByExtent D.Disk a b → b.waiting ≡ a.waiting
        → KeepsWorld D.Disk c opened b w }
{
    states_grow();
    a_sound_state_stays_sound();
}
