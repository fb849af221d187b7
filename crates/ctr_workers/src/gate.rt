// What each worker passes before each of its turns.
ghost use Rattle.std.specs.Prelude.{◌≤◌, ◌^◌};
ghost use Rattle.ctr_workers.specs.Workers.{IsActor};

use ctr_types::Actor;

/// What each worker calls before each of its turns. It is called outside the lock, so a worker that it holds up holds up nobody else.
pub trait Gate {
    /// Before an actor's `n`-th turn, from 1.
    fn before(&self, actor: Actor, n: u64)
        requires actor { IsActor actor }
        requires turn { (1 ≤ n) × (n ≤ 2 ^ 32) };
}

/// Lets everybody through.
#[derive(Clone, Copy, Debug, Drop)]
pub struct OpenGate;

impl Gate for OpenGate {
    fn before(&self, _actor: Actor, _n: u64) {}
}
