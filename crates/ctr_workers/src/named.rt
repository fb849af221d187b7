// Turns that lead from what went in to what comes out.
ghost use Rattle.std.specs.Prelude.{◌≡◌};
ghost use Rattle.ctr_types.specs.declared.tape.Actor.{Actor as AnyActor};
ghost use Rattle.ctr_types.specs.declared.tape.Turn.{Turn as AnyTurn};
ghost use Rattle.ctr_workers.specs.Leads.{LeadsByTurns, IsLedFrom};
ghost use Rattle.ctr_workers.specs.Workers.{AllTake, IsAskedFor};

use crate::gate::Gate;
use crate::turns::Turns;
use crate::workers::run_all;
use ctr_types::{Actor, Turn};
use std::marker::{Brand, PhantomData};
use std::sync::{Mutex, Wait};
use std::thread::Threads;

// What the workers began with and who was asked for, named by a type, since nothing else is known of what a lock keeps.
trait Start<T> {
    ghost first: { T → Type 0 };

    ghost asked: { AnyActor → Type 0 };
}

impl<T> Start<T> for Brand {
    ghost first = { λ _. Unit {0} };

    ghost asked = { λ _. Unit {0} };
}

// What turns alone have changed since the workers began.
#[derive(Drop)]
struct Led<T: Turns, B: Start<T>> {
    turns: T,
    of: PhantomData<B>,
    ghost led: { ∥ IsLedFrom B.first B.asked T.took turns ∥₁ },
}

impl<T: Turns, B: Start<T>> Turns for Led<T, B> {
    ghost takes = { λ actor. B.asked actor × T.takes actor };

    ghost took = { λ actor answer old new. T.took actor answer old.turns new.turns };

    fn turn(&mut self, actor: Actor) -> Turn {
        self.turns.turn(actor)
    }

    fn done(&self) -> bool {
        self.turns.done()
    }

    fn waiting(&self) -> u8 {
        self.turns.waiting()
    }
}

fn begun<T: Turns, B: Start<T>>(turns: T) -> Led<T, B>
    requires { B.first turns }
    ensures { result.turns ≡ turns }
{
    Led {
        turns,
        of: PhantomData,
    }
}

fn run_named<R: Threads + Wait + Sync, T: Turns + Send, G: Gate + Sync, B: Start<T> + Send>(
    rt: &R,
    turns: T,
    sessions: u8,
    gate: &G,
) -> T
    requires first { B.first turns }
    requires asked { AllTake sessions B.asked }
    requires takes { AllTake sessions T.takes }
    ensures { ∥ IsLedFrom B.first B.asked T.took result ∥₁ }
{
    let shared = Mutex::new(begun::<T, B>(turns));
    run_all(rt, &shared, sessions, gate);
    let Led { turns, of: _ } = shared.into_inner();
    turns
}

/// `run_all` over turns of one's own. What comes out is what went in, changed by turns of those who were asked for alone, one after another.
pub fn run_turns<R: Threads + Wait + Sync, T: Turns + Send, G: Gate + Sync>(
    rt: &R,
    turns: T,
    sessions: u8,
    gate: &G,
) -> T
    requires { AllTake sessions T.takes }
    ensures { ∥ LeadsByTurns (IsAskedFor sessions) T.took turns result ∥₁ }
{
    run_named::<R, T, G, Brand>(rt, turns, sessions, gate)
}
