// What a session counts on behind a reply. A call does nothing: what it ensures is the law.
ghost use Rattle.std.specs.Prelude.{◌≡◌, ◌⊎◌, ℕ};
ghost use Rattle.ctr_types.specs.declared.statement.Statement.{Statement};
ghost use Rattle.ctr_types.specs.declared.tape.Act.{Act};
ghost use Rattle.ctr_types.specs.declared.tape.Act.TheVariants as act;
ghost use Rattle.ctr_types.specs.declared.tape.Reply.{Reply};
ghost use Rattle.ctr_types.specs.declared.tape.Reply.TheVariants as reply;
ghost use Rattle.ctr_told.specs.store_Store.{View};
ghost use Rattle.ctr_told.specs.kept_Turns.{Start};
ghost use Rattle.ctr_session_world.specs.World.{SessionsHeld};
ghost use Rattle.ctr_session_world.specs.Told.{CountsOnTables, IsIdleIn, IsNextOf, IsActTold};

use ctr_disk::Disk;
use ctr_legal::replies_tell;

/// Behind a reply a session is between two of its statements, or of their acts, and counts on its tables alone, where it did so before or its act left
/// it so. Who has asked for a commit isn't: it counts on tables until it is answered. Who was rolled back counts on nothing.
pub fn a_session_is_idle_behind_a_reply<D: Disk>()
    ensures idle { (c : Start) (opened : D) (a b : View D) (h : SessionsHeld) (s : ℕ) (statement : Statement) (made : ℕ) (next : IsNextOf D.Disk c opened a b h s statement made) (now : SessionsHeld) (x : Act) (r : Reply)
        → (told : IsActTold next now x r) → IsIdleIn c next.mind s ⊎ CountsOnTables (told.mind.facts s) → ((k : ℕ) → r ≡ reply.Asked k → ⊥) → IsIdleIn c told.mind s }
    ensures rolled { (c : Start) (opened : D) (a b : View D) (h : SessionsHeld) (s : ℕ) (statement : Statement) (made : ℕ) (next : IsNextOf D.Disk c opened a b h s statement made) (now : SessionsHeld) (r : Reply)
        → (told : IsActTold next now act.Rollback r) → IsIdleIn c told.mind s }
{
    replies_tell();
}
