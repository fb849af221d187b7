// A commit that is answered.
ghost use Rattle.std.specs.Prelude.{◌≡◌, ◌+◌, ℕ, []};
ghost use Rattle.ctr_types.specs.declared.tape.Act.TheVariants as act;
ghost use Rattle.ctr_types.specs.declared.tape.Reply.TheVariants as reply;
ghost use Rattle.ctr_rollback.specs.store_Store.{View};
ghost use Rattle.ctr_rollback.specs.kept_Walk.{Mind};
ghost use Rattle.ctr_rollback.specs.kept_Turns.{Start, MayCome, telling, state_now};
ghost use Rattle.ctr_rollback.specs.stops_World.{KeepsWorld};
ghost use Rattle.ctr_rollback.specs.page_turns_Turns.{RestsBehind};
ghost use Rattle.ctr_told.specs.Turning.{TellsTurnOf, answered_mind};

use ctr_disk::Disk;
use ctr_legal::numbers_are_own;
use ctr_rollback::answers_and_growth_are_kept;

/// Where nothing waits in the log, the commit that was asked for first of those that aren't answered may be answered, whoever flushed: the turn
/// that tells it keeps the World, in which its transaction is gone.
pub fn a_commit_that_is_answered_is_told<D: Disk>()
    ensures { (c : Start) (opened : D) (a b : View D) (w : Mind) (s : ℕ) (tells : TellsTurnOf D.Disk c opened a b w s)
        → MayCome c w tells.e act.Answer (reply.Answered ((state_now c w).answered + 1)) → RestsBehind D.Disk a b → b.waiting ≡ []
        → KeepsWorld D.Disk c opened b (telling tells.e act.Answer (reply.Answered ((state_now c w).answered + 1)) w (answered_mind s w)) }
{
    numbers_are_own();
    answers_and_growth_are_kept::<D>();
}
