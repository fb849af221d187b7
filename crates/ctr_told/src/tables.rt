// A table that is made or dropped.
ghost use Rattle.std.specs.Prelude.{◌≡◌, ℕ, ◌++◌, List, None};
ghost use Rattle.ctr_types.specs.declared.tape.Act.TheVariants as act;
ghost use Rattle.ctr_types.specs.declared.tape.Reply.TheVariants as reply;
ghost use Rattle.ctr_types.specs.declared.statement.Statement.TheVariants as st;
ghost use Rattle.ctr_types.specs.declared.value.Schema.{Schema};
ghost use Rattle.ctr_model.specs.Database.{table_at};
ghost use Rattle.ctr_model.specs.State.{view};
ghost use Rattle.ctr_rollback.specs.actions_Actions.{Drops};
ghost use Rattle.ctr_rollback.specs.actions_Facts.{Fact};
ghost use Rattle.ctr_rollback.specs.store_Store.{View};
ghost use Rattle.ctr_rollback.specs.kept_Walk.{Mind};
ghost use Rattle.ctr_rollback.specs.kept_Turns.{Start, Telling, MayCome, telling, carrying, state_now};
ghost use Rattle.ctr_rollback.specs.stops_World.{KeepsWorld};
ghost use Rattle.ctr_rollback.specs.page_turns_Acts.{ActsBy};
ghost use Rattle.ctr_rollback.specs.page_turns_Turns.{LogsAtRest};
ghost use Rattle.ctr_ddl.specs.Tables.{MayMake, MayDrop, IsMadeAt};
ghost use Rattle.ctr_told.specs.Tables.{IsAtTable, FindsIt, AreOthers};
ghost use Rattle.ctr_told.specs.Turning.{facts_idle};

use crate::entries::an_entry_with_a_record_is_kept;
use ctr_disk::Disk;
use ctr_rollback::a_write_is_kept;
use ctr_views::{ones_own_action_leaves_what_is_held, what_is_done_stays};

/// Whoever holds a name may make a table of it, where its view has none, and may drop the one that it finds.
pub fn a_table_may_be_made_or_dropped<D: Disk>()
    ensures made { (c : Start) (opened : D) (a : View D) (w : Mind) (is : IsAtTable D.Disk c opened a w) → table_at (view (state_now c w) is.seat.t) is.name ≡ None
        → MayMake is.seat.session.me is.name a.now }
    ensures dropped { (c : Start) (opened : D) (a : View D) (w : Mind) (is : IsAtTable D.Disk c opened a w) (e : ℕ) → FindsIt is e → MayDrop is.seat.session.me e a.now }
{}

/// And the turn that does so keeps the World, whose tape tells that the Write is done. The session may go on to count on its tables, but not on
/// one that it drops.
pub fn a_table_that_is_made_or_dropped_is_told<D: Disk>()
    ensures made { (c : Start) (opened : D) (a b : View D) (w : Mind) (is : IsAtTable D.Disk c opened a w) (e : Telling c (D.Disk.moment_of a.disk) is.s) (schema : Schema) (f : ℕ)
        → e.statement ≡ st.Create is.name schema → MayCome c w e act.Write reply.Done → e.later ≡ D.Disk.moment_of b.disk
        → IsMadeAt is.seat.session.me f is.name schema.columns a.now b.now → LogsAtRest D.Disk a b
        → KeepsWorld D.Disk c opened b (telling e act.Write reply.Done w (carrying is.s (facts_idle ++ is.more) w)) }
    ensures dropped { (c : Start) (opened : D) (a b : View D) (w : Mind) (is : IsAtTable D.Disk c opened a w) (e : Telling c (D.Disk.moment_of a.disk) is.s) (f : ℕ) (rest : List Fact)
        → e.statement ≡ st.DropTable is.name → MayCome c w e act.Write reply.Done → e.later ≡ D.Disk.moment_of b.disk → FindsIt is f
        → ActsBy is.seat.session.me (Drops f) a.now b.now → LogsAtRest D.Disk a b → AreOthers f is.more rest
        → KeepsWorld D.Disk c opened b (telling e act.Write reply.Done w (carrying is.s (facts_idle ++ rest) w)) }
{
    ones_own_action_leaves_what_is_held();
    what_is_done_stays();
    a_write_is_kept();
    an_entry_with_a_record_is_kept::<D>();
}
