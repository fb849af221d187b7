// A commit that is asked for.
ghost use Rattle.std.specs.Prelude.{◌≡◌, ◌<◌, ◌+◌, ◌++◌, ℕ, List, length};
ghost use Rattle.ctr_types.specs.declared.tape.Act.TheVariants as act;
ghost use Rattle.ctr_types.specs.declared.tape.Reply.TheVariants as reply;
ghost use Rattle.ctr_rollback.specs.actions_Actions.{Commits, Owes};
ghost use Rattle.ctr_area.specs.Sound.{IsAmong};
ghost use Rattle.ctr_rollback.specs.actions_Facts.{Fact};
ghost use Rattle.ctr_views.specs.actions_Sites.{site_of};
ghost use Rattle.ctr_rollback.specs.store_Store.{View};
ghost use Rattle.ctr_rollback.specs.kept_Tables.{AreTables};
ghost use Rattle.ctr_rollback.specs.kept_Walk.{Mind};
ghost use Rattle.ctr_rollback.specs.kept_Turns.{Start, InTransaction, MayCome, telling, carrying, asked_scene, state_now};
ghost use Rattle.ctr_rollback.specs.stops_World.{KeepsWorld};
ghost use Rattle.ctr_rollback.specs.page_turns_Acts.{ActsBy};
ghost use Rattle.ctr_rollback.specs.page_turns_Turns.{LogsAtRest};
ghost use Rattle.ctr_told.specs.Turning.{facts_idle, TellsTurnOf};

use crate::counting::a_session_may_count_on_what_holds;
use crate::entries::an_entry_with_a_record_is_kept;
use ctr_disk::Disk;
use ctr_rollback::{a_commit_is_asked_for, who_rolls_back_is_at_its_rollback};
use ctr_sessions::locks_keep_others_off;
use ctr_views::{what_is_done_stays, what_is_held_pays};

/// A session that has a number may ask for its commit between two statements; the turn that does so keeps the World, whose tape tells
/// the next commit number. From then on the session counts on tables alone.
pub fn a_commit_that_is_asked_for_is_told<D: Disk>()
    ensures owed { (c : Start) (opened : D) (a : View D) (w : Mind) (s : ℕ) (seat : InTransaction c w s) (more : List Fact) → KeepsWorld D.Disk c opened a w → w.facts s ≡ facts_idle ++ more
        → Owes seat.session.me Commits (site_of a.now) }
    ensures told { (c : Start) (opened : D) (a b : View D) (w : Mind) (s : ℕ) (tells : TellsTurnOf D.Disk c opened a b w s) (more : List Fact) → 0 < tells.seat.session.me → AreTables more → ((f : Fact) → IsAmong f more → IsAmong f (w.facts s))
        → MayCome c w tells.e act.Ask (reply.Asked (length (state_now c w).asked + 1)) → ActsBy tells.seat.session.me Commits a.now b.now → LogsAtRest D.Disk a b
        → KeepsWorld D.Disk c opened b (telling tells.e act.Ask (reply.Asked (length (state_now c w).asked + 1)) w (record (carrying s more w) { run = (asked_scene tells.seat).run })) }
{
    a_session_may_count_on_what_holds::<D>();
    locks_keep_others_off();
    what_is_held_pays();
    what_is_done_stays();
    a_commit_is_asked_for();
    who_rolls_back_is_at_its_rollback();
    an_entry_with_a_record_is_kept::<D>();
}
