// Recovery at a script: it releases the names that it holds.
ghost use Rattle.std.specs.Prelude.{◌≡◌, ◌≤◌, ℕ, true};
ghost use Rattle.ctr_model.specs.Reply.{without_name};
ghost use Rattle.ctr_model.specs.State.{has_name};
ghost use Rattle.ctr_exec.specs.Order.{IsTapeOrdered};
ghost use Rattle.ctr_exec.specs.Sessions.{AreSeated, IsReleased};

use crate::sessions::Sessions;
use ctr_types::{Act, Entry, List, Name, Reply};
use std::alloc::Global;
use std::mem;

// The names but this one. It takes no memory.
fn without(names: List<Name>, name: &Name) -> List<Name>
    ensures { result ≡ without_name name.now names }
{
    let mut left = names.into_vec();
    left.retain(|n| *n != *name);
    List::from_vec(left)
}

impl Sessions {
    /// Recovery releases a name that it holds, as the last item of the secondary log on it is undone: that is told on the tape, at this
    /// moment. It takes no memory.
    pub fn release(&mut self, alloc: Global, name: Name, moment: u64)
        requires there { has_name name self.old.stuck ≡ true }
        requires seats { (counted : ℕ) × AreSeated self.old counted }
        // Whoever might take a turn may still.
        ensures seats { (counted : ℕ) → AreSeated self.old counted → AreSeated self.new counted }
        ensures is { IsReleased name moment self.old self.new }
        // A tape that stood in order does still, where time hasn't gone back.
        ensures order { (start before : ℕ) → before ≤ moment → IsTapeOrdered start before self.old → IsTapeOrdered start moment self.new }
    {
        let held = mem::replace(&mut self.stuck, List::new(alloc));
        self.stuck = without(held, &name);
        self.tape.push_reserved(Entry {
            session: 0,
            statement: 0,
            act: Act::Release { name },
            reply: Reply::Released,
            moment,
        });
    }
}
