// A Lock that is granted.
ghost use Rattle.std.specs.Prelude.{◌≡◌, ◌<◌, ◌++◌, ℕ, List};
ghost use Rattle.ctr_types.specs.declared.tape.Act.TheVariants as act;
ghost use Rattle.ctr_types.specs.declared.tape.Reply.TheVariants as reply;
ghost use Rattle.ctr_rollback.specs.actions_Actions.{Begins};
ghost use Rattle.ctr_rollback.specs.store_Store.{View};
ghost use Rattle.ctr_rollback.specs.actions_Facts.{Fact};
ghost use Rattle.ctr_rollback.specs.kept_Tables.{AreTables};
ghost use Rattle.ctr_rollback.specs.kept_Walk.{Mind};
ghost use Rattle.ctr_rollback.specs.kept_Turns.{Start, MayCome, telling, carrying, drawn_mind};
ghost use Rattle.ctr_rollback.specs.stops_World.{KeepsWorld};
ghost use Rattle.ctr_rollback.specs.page_turns_Acts.{ActsBy};
ghost use Rattle.ctr_rollback.specs.page_turns_Turns.{LogsAtRest, RestsBehind};
ghost use Rattle.ctr_told.specs.Turning.{facts_idle, TellsTurnOf};

use crate::entries::an_entry_alone_is_kept;
use ctr_disk::Disk;
use ctr_rollback::{
    a_number_is_drawn, a_turn_of_a_world_is_kept, an_action_keeps_the_pages,
    locks_and_reads_are_kept, who_draws_a_number_has_no_page,
};
use ctr_views::{an_action_gives_its_fact, what_is_done_stays};

/// The first Lock of a session draws its number, by one record, and keeps the World.
pub fn a_first_lock_is_told<D: Disk>()
    ensures { (c : Start) (opened : D) (a b : View D) (w : Mind) (s : ℕ) (tells : TellsTurnOf D.Disk c opened a b w s) → tells.seat.session.me ≡ 0
        → MayCome c w tells.e act.Lock reply.Granted → ActsBy a.now.tables.next Begins a.now b.now → LogsAtRest D.Disk a b
        → KeepsWorld D.Disk c opened b (telling tells.e act.Lock reply.Granted w (drawn_mind s tells.seat.session a.now.tables.next facts_idle w)) }
{
    an_action_gives_its_fact();
    who_draws_a_number_has_no_page();
    a_number_is_drawn();
    what_is_done_stays();
    an_action_keeps_the_pages();
    a_turn_of_a_world_is_kept::<D>();
}

/// A later one logs nothing.
pub fn a_lock_is_told<D: Disk>()
    ensures { (c : Start) (opened : D) (a b : View D) (w : Mind) (s : ℕ) (tells : TellsTurnOf D.Disk c opened a b w s) (more : List Fact) → 0 < tells.seat.session.me → AreTables more → w.facts s ≡ facts_idle ++ more
        → MayCome c w tells.e act.Lock reply.Granted → RestsBehind D.Disk a b
        → KeepsWorld D.Disk c opened b (telling tells.e act.Lock reply.Granted w (carrying s (facts_idle ++ more) w)) }
{
    locks_and_reads_are_kept();
    an_entry_alone_is_kept::<D>();
}
