// A row that is written.
ghost use Rattle.std.specs.Prelude.{◌≡◌, ◌<◌, ◌++◌, ℕ, ℤ, List, []};
ghost use Rattle.ctr_types.specs.declared.tape.Act.TheVariants as act;
ghost use Rattle.ctr_types.specs.declared.tape.Reply.TheVariants as reply;
ghost use Rattle.ctr_base.specs.declared.growing.TheConstants.{MOST_PAGES};
ghost use Rattle.ctr_redo.specs.States.{State, counting, grown};
ghost use Rattle.ctr_area.specs.Areas.{Title};
ghost use Rattle.ctr_area.specs.Sound.{IsAmong};
ghost use Rattle.ctr_rollback.specs.actions_Facts.{Fact, HasNoPageBut};
ghost use Rattle.ctr_rollback.specs.store_Store.{View};
ghost use Rattle.ctr_write.specs.ctr_extend.Steps.{IsFull};
ghost use Rattle.ctr_rollback.specs.kept_Walk.{Mind};
ghost use Rattle.ctr_rollback.specs.kept_Turns.{Start, Telling, MayCome, telling, carrying};
ghost use Rattle.ctr_rollback.specs.stops_World.{KeepsWorld};
ghost use Rattle.ctr_rollback.specs.page_turns_Turns.{LogsAtRest};
ghost use Rattle.ctr_write.specs.declared.stages.Written.TheVariants.{On, Done, Grown, Full};
ghost use Rattle.ctr_write.specs.declared.stages.Stage.{Stage};
ghost use Rattle.ctr_write.specs.Carrying.{IsAtWrite, AreOfStage, facts_looking, wish_of};
ghost use Rattle.ctr_write.specs.Laying.{Wish};
ghost use Rattle.ctr_write.specs.Steps.{EndsWrite};
ghost use Rattle.ctr_told.specs.Writing.{IsOfStatement};

use crate::counting::a_table_that_is_counted_on_is_found;
use crate::entries::an_entry_with_a_record_is_kept;
use ctr_disk::Disk;
use ctr_rollback::{a_write_is_kept, who_rolls_back_is_at_its_rollback};
use ctr_sessions::locks_keep_others_off;
use ctr_views::{ones_own_action_leaves_what_is_held, what_is_done_stays};
use ctr_write::a_turn_of_a_write_is_kept;
use ctr_write::extend::a_turn_for_a_page_is_kept;

/// A turn of a Write that goes on keeps the World, in which the session counts on how far it is by then.
pub fn a_write_that_goes_on_is_kept<D: Disk>()
    ensures { (c : Start) (opened : D) (a b : View D) (w : Mind) (writes : IsAtWrite D.Disk c opened a w) (stage : Stage)
        → EndsWrite (wish_of writes) writes.stage a.now b.now (On stage) → LogsAtRest D.Disk a b
        → (facts : List Fact) × AreOfStage writes.title writes.entry writes.key stage writes.more facts × KeepsWorld D.Disk c opened b (carrying writes.s facts w) }
{
    a_turn_for_a_page_is_kept::<D>();
    a_turn_of_a_write_is_kept::<D>();
}

/// A turn of a Write that logged no record came where a page was wanted: more are counted by it, or there is none to be had, and nothing has
/// changed. Before it the session had no page on the way, so it counts on the same behind it.
pub fn a_write_without_a_record()
    ensures grown { (wish : Wish) (stage : Stage) (s t : State) → EndsWrite wish stage s t Grown → (t ≡ counting (grown s.counted) s) × (s.counted < MOST_PAGES) }
    ensures full { (wish : Wish) (stage : Stage) (s t : State) → EndsWrite wish stage s t Full → IsFull s t }
    ensures grown_without_page { (wish : Wish) (stage : Stage) (s t : State) (title : Title) (e : ℕ) (key : ℤ) (more facts : List Fact)
        → AreOfStage title e key stage more facts → EndsWrite wish stage s t Grown → IsAmong (HasNoPageBut []) facts }
    ensures full_without_page { (wish : Wish) (stage : Stage) (s t : State) (title : Title) (e : ℕ) (key : ℤ) (more facts : List Fact)
        → AreOfStage title e key stage more facts → EndsWrite wish stage s t Full → IsAmong (HasNoPageBut []) facts }
{}

/// A turn of a Write that lays the head keeps the World, whose tape tells that the Write is done. From then on the session counts on
/// its transaction and on tables alone.
pub fn a_row_that_is_written_is_told<D: Disk>()
    ensures { (c : Start) (opened : D) (a b : View D) (w : Mind) (writes : IsAtWrite D.Disk c opened a w) (e : Telling c (D.Disk.moment_of a.disk) writes.s)
        → IsOfStatement writes e → MayCome c w e act.Write reply.Done → e.later ≡ D.Disk.moment_of b.disk
        → EndsWrite (wish_of writes) writes.stage a.now b.now Done → LogsAtRest D.Disk a b
        → KeepsWorld D.Disk c opened b (telling e act.Write reply.Done w (carrying writes.s (facts_looking writes.title writes.entry ++ writes.more) w)) }
{
    a_table_that_is_counted_on_is_found();
    locks_keep_others_off();
    ones_own_action_leaves_what_is_held();
    what_is_done_stays();
    a_write_is_kept();
    who_rolls_back_is_at_its_rollback();
    an_entry_with_a_record_is_kept::<D>();
}
