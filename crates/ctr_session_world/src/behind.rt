// A World behind pages that were read. A call does nothing: what it ensures is the law.
ghost use Rattle.ctr_told.specs.store_Store.{View};
ghost use Rattle.ctr_told.specs.kept_Walk.{Mind};
ghost use Rattle.ctr_told.specs.kept_Turns.{Start};
ghost use Rattle.ctr_told.specs.stops_World.{KeepsWorld};
ghost use Rattle.ctr_told.specs.page_turns_Turns.{RestsBehind};

use ctr_disk::Disk;
use ctr_told::{a_turn_of_a_world_is_kept, time_and_growth_are_kept};

/// Pages that are read keep a World.
pub fn pages_that_are_read_keep_a_world<D: Disk>()
    ensures { (c : Start) (opened : D) (a m : View D) (w : Mind) → KeepsWorld D.Disk c opened a w → RestsBehind D.Disk a m → KeepsWorld D.Disk c opened m w }
{
    time_and_growth_are_kept();
    a_turn_of_a_world_is_kept::<D>();
}
