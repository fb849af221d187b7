// The Write of a row in a World on pages. A call does nothing: what it ensures is the law.
ghost use Rattle.std.specs.Prelude.{◌≡◌, ◌++◌};
ghost use Rattle.ctr_page.specs.declared.rows.Place.{Place};
ghost use Rattle.ctr_extend.specs.record_effects_States.{area_in};
ghost use Rattle.ctr_extend.specs.store_Store.{View};
ghost use Rattle.ctr_extend.specs.kept_Walk.{Mind};
ghost use Rattle.ctr_extend.specs.kept_Turns.{Start, carrying};
ghost use Rattle.ctr_extend.specs.stops_World.{KeepsWorld};
ghost use Rattle.ctr_extend.specs.page_turns_Turns.{LogsAtRest};
ghost use Rattle.ctr_write.specs.declared.stages.Stage.TheVariants.{Looking};
ghost use Rattle.ctr_write.specs.Keeping.{off, KeepsOff};
ghost use Rattle.ctr_write.specs.Steps.{MayTakeTurn};
ghost use Rattle.ctr_write.specs.Carrying.{KeptOf, facts_kept, IsAtWrite, wish_of};

use ctr_disk::Disk;
use ctr_extend::{
    a_turn_of_a_world_is_kept, a_turn_without_an_entry_is_kept, an_action_keeps_the_pages,
    what_is_done_stays,
};

/// In a World a session that writes a row may take a turn of its Write, whatever others did since its last one; and a turn that kept a
/// version first keeps the World, in which the session carries the slot and the copy. A turn for a page keeps it by the law of ctr_extend.
pub fn a_turn_of_a_write_is_kept<D: Disk>()
    ensures may { (c : Start) (opened : D) (a : View D) (w : Mind) (writes : IsAtWrite D.Disk c opened a w) → MayTakeTurn (wish_of writes) writes.stage a.now }
    ensures kept { (c : Start) (opened : D) (a b : View D) (w : Mind) (writes : IsAtWrite D.Disk c opened a w) (of : KeptOf writes.title writes.key) (q : Place)
        → writes.stage ≡ Looking → LogsAtRest D.Disk a b → of.slot ≡ (area_in a.now).slot of.at
        → KeepsOff (off writes.seat.session.me writes.entry of.at of.version) q a.now b.now
        → KeepsWorld D.Disk c opened b (carrying writes.s (facts_kept writes.title writes.entry of q ++ writes.more) w) }
{
    what_is_done_stays();
    a_turn_without_an_entry_is_kept();
    an_action_keeps_the_pages();
    a_turn_of_a_world_is_kept::<D>();
}
