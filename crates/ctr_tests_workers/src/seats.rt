// A number for each actor.
ghost use Rattle.std.specs.Prelude.{◌<◌};

use ctr_types::Actor;

// Of actors, that of a session is its own; none has 0.
pub const SEATS: usize = 12;

// All actors of a run of two sessions.
pub const FIVE: [Actor; 5] = [
    Actor::Session(1),
    Actor::Session(2),
    Actor::Undo,
    Actor::Flusher,
    Actor::Cleaner,
];

pub fn seat(actor: Actor) -> usize
    ensures { result < 12 }
{
    match actor {
        Actor::Session(session) if session <= 8 => usize::from(session),
        Actor::Session(_) => 0,
        Actor::Undo => 9,
        Actor::Flusher => 10,
        Actor::Cleaner => 11,
    }
}
