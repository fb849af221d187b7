// Actors that wait for each other: they end by themselves only where they run side by side.
ghost use Rattle.std.specs.Prelude.{◌<◌};
ghost use Rattle.ctr_types.specs.declared.tape.Actor.{Actor as AnyActor};
ghost use Rattle.ctr_workers.specs.Workers.{IsActor};

use crate::seats::{FIVE, SEATS, seat};
use ctr_types::{Actor, Turn};
use ctr_workers::{Gate, OpenGate, Turns, run_turns};
use std::sync::atomic::{AtomicU64, Ordering};
use std::test::Fail;
use std::thread;

// How often a session waits for the others at most.
const MOST: u64 = 10_000_000;

// How often a gate looks whether the other session has come at most.
const TRIES: u64 = 1_000_000;

// Of two sessions, each goes until every other actor has had a turn, and then is over; the other actors go until both sessions are.
#[derive(Drop)]
struct Meeting {
    had: [bool; SEATS],
    over: [bool; SEATS],
    waits: [u64; SEATS],
    most: u64,
    missed: bool,
}

impl Meeting {
    fn new(most: u64) -> Meeting {
        Meeting {
            had: [false; SEATS],
            over: [false; SEATS],
            waits: [0; SEATS],
            most,
            missed: false,
        }
    }

    fn all_had(&self) -> bool {
        FIVE.iter().all(|actor| self.had[seat(*actor)])
    }

    // A session's turn.
    fn wait(&mut self, seat: usize) -> Turn
        requires { seat < 12 }
    {
        if !self.all_had() && self.waits[seat] < self.most {
            self.waits[seat] += 1;
            return Turn::Went;
        }
        self.missed |= !self.all_had();
        self.over[seat] = true;
        Turn::Over
    }
}

impl Turns for Meeting {
    ghost takes = { λ _. Unit {0} };

    ghost took = { λ _ _ _ _. Unit {0} };

    fn turn(&mut self, actor: Actor) -> Turn {
        let seat = seat(actor);
        self.had[seat] = true;
        match actor {
            Actor::Session(_) => self.wait(seat),
            _ if self.done() => Turn::Over,
            _ => Turn::Went,
        }
    }

    fn done(&self) -> bool {
        self.over[1] && self.over[2]
    }
}

// Holds each session's second turn until the other's second was called.
#[derive(Drop)]
struct Crossing {
    first: AtomicU64,
    second: AtomicU64,
    missed: AtomicU64,
}

impl Crossing {
    fn new() -> Crossing {
        Crossing {
            first: AtomicU64::new(0),
            second: AtomicU64::new(0),
            missed: AtomicU64::new(0),
        }
    }

    // Tells that this one has come, and waits for the other.
    fn cross(&self, mine: &AtomicU64, other: &AtomicU64) {
        mine.store(1, Ordering::SeqCst);
        for _ in 0..TRIES {
            if other.load(Ordering::SeqCst) == 1 {
                return;
            }
            thread::yield_now();
        }
        self.missed.store(1, Ordering::SeqCst);
    }

    fn has_missed(&self) -> bool {
        self.missed.load(Ordering::SeqCst) == 1
    }
}

impl Gate for Crossing {
    fn before(&self, actor: Actor, n: u64) {
        match (actor, n) {
            (Actor::Session(1), 2) => self.cross(&self.first, &self.second),
            (Actor::Session(2), 2) => self.cross(&self.second, &self.first),
            _ => {}
        }
    }
}

// Turns of two sessions with three each; the others find nothing to do.
#[derive(Drop)]
struct Three {
    left: [u64; SEATS],
}

impl Turns for Three {
    ghost takes = { λ _. Unit {0} };

    ghost took = { λ _ _ _ _. Unit {0} };

    fn turn(&mut self, actor: Actor) -> Turn {
        let seat = seat(actor);
        match actor {
            Actor::Session(_) if 1 < self.left[seat] => {
                self.left[seat] -= 1;
                Turn::Went
            }
            Actor::Session(_) => {
                self.left[seat] = 0;
                Turn::Over
            }
            Actor::Undo => Turn::Over,
            Actor::Flusher | Actor::Cleaner => Turn::Idle,
        }
    }

    fn done(&self) -> bool {
        self.left[1] == 0 && self.left[2] == 0
    }
}

// The turns of one actor, with nobody beside it.
fn go_alone<T: Turns, G: Gate>(turns: &mut T, gate: &G, actor: Actor)
    requires actor { IsActor actor }
    requires takes { T.takes actor }
{
    for n in 1..=MOST {
        gate.before(actor, n);
        if matches!(turns.turn(actor), Turn::Over | Turn::Stopped) || turns.done() {
            return;
        }
    }
}

// The turns of all actors, one actor after another, in place of workers.
fn one_after_another<T: Turns, G: Gate>(turns: &mut T, gate: &G)
    requires { (a : AnyActor) → T.takes a }
{
    go_alone(turns, gate, Actor::Session(1));
    go_alone(turns, gate, Actor::Session(2));
    go_alone(turns, gate, Actor::Undo);
    go_alone(turns, gate, Actor::Flusher);
    go_alone(turns, gate, Actor::Cleaner);
}

#[test]
fn sessions_meet_every_other_actor(rt: HostRuntime) -> Result<(), Fail> {
    let meeting = run_turns(&rt, Meeting::new(MOST), 0b11, &OpenGate);
    assert!(rt; meeting.done() && meeting.all_had() && !meeting.missed);
    Ok(())
}

#[test]
fn one_actor_after_another_meets_nobody(rt: HostRuntime) -> Result<(), Fail> {
    let mut meeting = Meeting::new(1000);
    one_after_another(&mut meeting, &OpenGate);
    assert!(rt; meeting.missed);
    Ok(())
}

#[test]
fn second_turns_wait_for_each_other(rt: HostRuntime) -> Result<(), Fail> {
    let gate = Crossing::new();
    let three = run_turns(&rt, Three { left: [3; SEATS] }, 0b11, &gate);
    assert!(rt; three.done() && !gate.has_missed());
    Ok(())
}

#[test]
fn one_session_after_another_misses_the_gate(rt: HostRuntime) -> Result<(), Fail> {
    let gate = Crossing::new();
    let mut three = Three { left: [3; SEATS] };
    one_after_another(&mut three, &gate);
    assert!(rt; three.done() && gate.has_missed());
    Ok(())
}
