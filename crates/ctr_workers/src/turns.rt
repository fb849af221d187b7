// What the workers share.
ghost use Rattle.ctr_types.specs.declared.tape.Actor.{Actor as AnyActor};
ghost use Rattle.ctr_types.specs.declared.tape.Turn.{Turn as AnyTurn};

use ctr_types::{Actor, Turn};

/// What takes the turns of all actors, one at a time.
pub trait Turns {
    /// Whose turns it takes.
    ghost takes: { AnyActor → Type 0 };

    /// What a turn of an actor with this answer makes of what was there.
    ghost took: { AnyActor → AnyTurn → Self → Self → Type 0 };

    /// A turn of an actor.
    fn turn(&mut self, actor: Actor) -> Turn
        requires { takes actor }
        ensures { took actor result self.old self.new };

    /// Whether every session is over.
    fn done(&self) -> bool;

    /// The sessions that wait for what others do as well as they, bit s - 1 for session s: who takes turns may let others go before them.
    fn waiting(&self) -> u8 {
        0
    }
}
