// A page on its way in a World on pages. A call does nothing: what it ensures is the law.
ghost use Rattle.std.specs.Prelude.{◌++◌};
ghost use Rattle.ctr_stops.specs.store_Store.{View};
ghost use Rattle.ctr_stops.specs.kept_Walk.{Mind};
ghost use Rattle.ctr_stops.specs.kept_Turns.{Start, carrying};
ghost use Rattle.ctr_stops.specs.World.{KeepsWorld};
ghost use Rattle.ctr_page_turns.specs.Turns.{LogsAtRest};
ghost use Rattle.ctr_extend.specs.declared.ways.Extended.{Extended};
ghost use Rattle.ctr_extend.specs.Steps.{MayExtend, ExtendsBy};
ghost use Rattle.ctr_extend.specs.Keeping.{WantsPage, facts_on_way, way_behind, HasLogged};

use ctr_disk::Disk;
use ctr_page_turns::what_is_done_stays;
use ctr_stops::{
    a_turn_of_a_world_is_kept, a_turn_without_an_entry_is_kept, an_action_keeps_the_pages,
};

/// In a World a session that wants a page may take a turn for it, whatever others did since its last one; and a turn that logged a record
/// keeps the World, in which the session carries how far the page is now.
pub fn a_turn_for_a_page_is_kept<D: Disk>()
    ensures may { (c : Start) (opened : D) (a : View D) (w : Mind) (wants : WantsPage D.Disk c opened a w) → MayExtend wants.seat.session.me wants.chain wants.way a.now }
    ensures kept { (c : Start) (opened : D) (a b : View D) (w : Mind) (wants : WantsPage D.Disk c opened a w) (e : Extended) → HasLogged e → LogsAtRest D.Disk a b
        → ExtendsBy wants.seat.session.me wants.chain wants.way a.now b.now e
        → KeepsWorld D.Disk c opened b (carrying wants.s (facts_on_way wants.title wants.chain (way_behind e) ++ wants.more) w) }
{
    what_is_done_stays();
    a_turn_without_an_entry_is_kept();
    an_action_keeps_the_pages();
    a_turn_of_a_world_is_kept::<D>();
}
