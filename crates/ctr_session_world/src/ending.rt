// What a stop leaves of a turn that has ended, with a fault too. A call does nothing: what it ensures is the law.
ghost use Rattle.std.specs.Prelude.{◌≤◌};
ghost use Rattle.ctr_told.specs.store_Store.{View};
ghost use Rattle.ctr_told.specs.kept_Walk.{Mind};
ghost use Rattle.ctr_told.specs.kept_Turns.{Start};
ghost use Rattle.ctr_told.specs.stops_Stops.{LeavesPrefixAt, LeftSince};
ghost use Rattle.ctr_told.specs.stops_World.{KeepsWorld, course_of};
ghost use Rattle.ctr_session_world.specs.Ready.{LeavesFrontOrGrows};

use crate::behind::pages_that_are_read_keep_a_world;
use ctr_disk::Disk;
use ctr_told::a_call_that_ends_leaves_a_prefix;

/// However a turn ends, with a fault too, a stop at any moment until then leaves the rows of a prefix of the commit order with every commit that was
/// answered by then.
pub fn a_turn_that_ends_leaves_a_prefix<D: Disk>()
    ensures { (c : Start) (opened : D) (a b : View D) (w : Mind) → KeepsWorld D.Disk c opened a w → LeavesFrontOrGrows D.Disk a b
        → LeftSince D.Disk (D.Disk.moment_of opened) b.disk (LeavesPrefixAt (D.Disk.images opened) c.base (course_of c opened w).asked w.tape) }
{
    a_call_that_ends_leaves_a_prefix::<D>();
    pages_that_are_read_keep_a_world::<D>();
}
