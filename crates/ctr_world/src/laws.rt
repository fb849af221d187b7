// Sessions beside recovery's undo. A call does nothing: what it ensures is the law.
ghost use Rattle.std.specs.Prelude.{ℕ};
ghost use Rattle.ctr_actions.specs.Sites.{site_of};
ghost use Rattle.ctr_store.specs.Store.{View};
ghost use Rattle.ctr_undo.specs.kept_Walk.{Mind};
ghost use Rattle.ctr_undo.specs.kept_Turns.{Start};
ghost use Rattle.ctr_undo.specs.stops_World.{KeepsWorld};
ghost use Rattle.ctr_undo.specs.Left.{UndoLeft};
ghost use Rattle.ctr_undo.specs.Turns.{Undoes};
ghost use Rattle.ctr_undo.specs.Keeping.{list_of, undone_to, name_undone, released_to};
ghost use Rattle.ctr_pass.specs.exec_sessions_Sessions.{Sessions as SessionsAt};
ghost use Rattle.ctr_pass.specs.exec_Sessions.{IsReleased, ShowsSessions};

use ctr_disk::Disk;
use ctr_model::{legal_states_are_sound, snapshots_stay};
use ctr_pass::what_a_write_counts_on_stays;

/// A turn of undo leaves each session where it is, whatever it is in the middle of, where the turn keeps the World: its transaction and its
/// locks are as they were, and so is what it counts on. With the last item of a table's name recovery releases that on the sessions' tape, and
/// each of them is where it was too.
pub(crate) fn undo_leaves_the_sessions<D: Disk>()
    ensures kept { (c : Start) (opened : D) (a b : View D) (h : SessionsAt) (w : Mind) (v : UndoLeft) → ShowsSessions D.Disk c opened a h w → (does : Undoes (list_of w) v a.now b.now)
        → KeepsWorld D.Disk c opened b (undone_to v w) → ShowsSessions D.Disk c opened b h (undone_to v w) }
    ensures released { (c : Start) (opened : D) (a b : View D) (h now : SessionsAt) (w : Mind) (v : UndoLeft) (moment : ℕ) → ShowsSessions D.Disk c opened a h w → (does : Undoes (list_of w) v a.now b.now)
        → IsReleased (name_undone does.item (site_of a.now)) moment h now
        → KeepsWorld D.Disk c opened b (released_to v (name_undone does.item (site_of a.now)) moment w)
        → ShowsSessions D.Disk c opened b now (released_to v (name_undone does.item (site_of a.now)) moment w) }
{
    legal_states_are_sound();
    snapshots_stay();
    what_a_write_counts_on_stays();
}
