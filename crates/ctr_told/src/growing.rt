// More pages are counted by a turn.
ghost use Rattle.std.specs.Prelude.{Ok};
ghost use Rattle.ctr_disk.specs.Image.{Image};
ghost use Rattle.ctr_base.specs.Base.{WhereSound};
ghost use Rattle.ctr_rollback.specs.store_Store.{View};
ghost use Rattle.ctr_rollback.specs.kept_Walk.{Mind};
ghost use Rattle.ctr_rollback.specs.kept_Turns.{Start};
ghost use Rattle.ctr_rollback.specs.stops_World.{KeepsWorld};
ghost use Rattle.ctr_rollback.specs.page_turns_Turns.{CountsBehind};

use ctr_disk::Disk;
use ctr_rollback::{
    a_turn_of_a_world_is_kept, answers_and_growth_are_kept, time_and_growth_are_kept,
};

/// A turn that read pages and then counted more keeps the World as it is: nothing is told, and each session counts on what it did.
pub fn growth_behind_pages_keeps_a_world<D: Disk, T>()
    ensures { (c : Start) (opened : D) (a b : View D) (w : Mind) → KeepsWorld D.Disk c opened a w
        → (first : Image) (x : T) → WhereSound first D.Disk (CountsBehind first D.Disk a b (Ok x) → KeepsWorld D.Disk c opened b w) }
{
    time_and_growth_are_kept();
    a_turn_of_a_world_is_kept::<D>();
    answers_and_growth_are_kept::<D>();
}
