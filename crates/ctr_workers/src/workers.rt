// One worker for each actor, side by side.
ghost use Rattle.std.specs.Prelude.{◌≡◌, ◌≤◌, ◌^◌};
ghost use Rattle.ctr_types.specs.declared.tape.Actor.TheVariants.{Flusher, Cleaner, Undo};
ghost use Rattle.ctr_workers.specs.Workers.{IsActor, AllTake, has_session_bit, is_last};

use crate::gate::Gate;
use crate::standing::Standing;
use crate::turns::Turns;
use ctr_types::{Actor, Turn};
use std::sync::{Mutex, Wait};
use std::thread::{self, Threads, join};

// The most turns that a worker takes.
const MOST: u64 = 1 << 32;

// Whether this was a worker's last turn, where `done` says whether every session is over.
fn is_last(actor: Actor, turn: Turn, done: bool) -> bool
    ensures { result ≡ is_last actor turn done }
{
    match turn {
        Turn::Over | Turn::Stopped => true,
        Turn::Went | Turn::Idle | Turn::Short => {
            done && matches!(actor, Actor::Flusher | Actor::Cleaner)
        }
    }
}

// An actor's turn, under the lock, and whether it was its last. The lock is free again when this returns.
fn take_turn<R: Wait, T: Turns>(
    rt: &R,
    shared: &Mutex<T>,
    standing: &Standing,
    actor: Actor,
) -> (Turn, bool)
    requires { T.takes actor }
{
    let mut turns = shared.lock(rt);
    let turn = turns.turn(actor);
    let last = is_last(actor, turn, turns.done());
    standing.tell(actor, turns.waiting(), last);
    (turn, last)
}

// The turns of an actor, until its last one. One whose turn can wait, or that had nothing to do, lets others go first.
fn work<R: Wait, T: Turns, G: Gate>(
    rt: &R,
    shared: &Mutex<T>,
    standing: &Standing,
    gate: &G,
    actor: Actor,
)
    requires actor { IsActor actor }
    requires takes { T.takes actor }
{
    for n in 1..=MOST {
        gate.before(actor, n);
        let (turn, last) = take_turn(rt, shared, standing, actor);
        if last {
            return;
        }
        if matches!(turn, Turn::Idle | Turn::Short) {
            thread::yield_now();
        }
        standing.wait(actor);
    }
}

// Whether there is a session of that number.
fn is_asked(sessions: u8, session: u8) -> bool
    requires { (1 ≤ session) × (session ≤ 8) }
    ensures { result ≡ has_session_bit sessions session }
{
    (sessions >> (session - 1)) % 2 == 1
}

// The worker of a session, if there is one of that number.
fn work_session<R: Wait, T: Turns, G: Gate>(
    rt: &R,
    shared: &Mutex<T>,
    standing: &Standing,
    sessions: u8,
    gate: &G,
    session: u8,
)
    requires seat { (1 ≤ session) × (session ≤ 8) }
    requires takes { AllTake sessions T.takes }
{
    if is_asked(sessions, session) {
        work(rt, shared, standing, gate, Actor::Session(session));
    }
}

// The workers of two sessions, from this one on.
fn work_two<R: Threads + Wait + Sync, T: Turns + Send, G: Gate + Sync>(
    rt: &R,
    shared: &Mutex<T>,
    standing: &Standing,
    sessions: u8,
    gate: &G,
    first: u8,
)
    requires first { (1 ≤ first) × (first ≤ 7) }
    requires takes { AllTake sessions T.takes }
{
    join(
        rt,
        ||
            requires { (1 ≤ first) × (first ≤ 7) × AllTake sessions T.takes }
        { work_session(rt, shared, standing, sessions, gate, first) },
        ||
            requires { (1 ≤ first) × (first ≤ 7) × AllTake sessions T.takes }
        { work_session(rt, shared, standing, sessions, gate, first + 1) },
    );
}

// The workers of four sessions, from this one on.
fn work_four<R: Threads + Wait + Sync, T: Turns + Send, G: Gate + Sync>(
    rt: &R,
    shared: &Mutex<T>,
    standing: &Standing,
    sessions: u8,
    gate: &G,
    first: u8,
)
    requires first { (1 ≤ first) × (first ≤ 5) }
    requires takes { AllTake sessions T.takes }
{
    join(
        rt,
        ||
            requires { (1 ≤ first) × (first ≤ 5) × AllTake sessions T.takes }
        { work_two(rt, shared, standing, sessions, gate, first) },
        ||
            requires { (1 ≤ first) × (first ≤ 5) × AllTake sessions T.takes }
        { work_two(rt, shared, standing, sessions, gate, first + 2) },
    );
}

// The workers of all sessions.
fn work_sessions<R: Threads + Wait + Sync, T: Turns + Send, G: Gate + Sync>(
    rt: &R,
    shared: &Mutex<T>,
    standing: &Standing,
    sessions: u8,
    gate: &G,
)
    requires { AllTake sessions T.takes }
{
    join(
        rt,
        ||
            requires { AllTake sessions T.takes }
        { work_four(rt, shared, standing, sessions, gate, 1) },
        ||
            requires { AllTake sessions T.takes }
        { work_four(rt, shared, standing, sessions, gate, 5) },
    );
}

// The workers of the flusher and the cleaner.
fn work_pages<R: Threads + Wait + Sync, T: Turns + Send, G: Gate + Sync>(
    rt: &R,
    shared: &Mutex<T>,
    standing: &Standing,
    gate: &G,
)
    requires { T.takes Flusher × T.takes Cleaner }
{
    join(
        rt,
        ||
            requires { T.takes Flusher }
        { work(rt, shared, standing, gate, Actor::Flusher) },
        ||
            requires { T.takes Cleaner }
        { work(rt, shared, standing, gate, Actor::Cleaner) },
    );
}

// The workers of the flusher, the cleaner and undo.
fn work_behind<R: Threads + Wait + Sync, T: Turns + Send, G: Gate + Sync>(
    rt: &R,
    shared: &Mutex<T>,
    standing: &Standing,
    gate: &G,
)
    requires { T.takes Undo × T.takes Flusher × T.takes Cleaner }
{
    join(
        rt,
        ||
            requires { T.takes Undo }
        { work(rt, shared, standing, gate, Actor::Undo) },
        ||
            requires { T.takes Flusher × T.takes Cleaner }
        { work_pages(rt, shared, standing, gate) },
    );
}

/// A worker for each session whose bit is set, bit `s - 1` for session `s`, and one each for the flusher, the cleaner and undo, each in a thread
/// of its own. It returns when all have ended. Each turn of a worker is `Gate::before` outside the lock, with the number of the turn from 1, and
/// then one `Turns::turn` under it. A worker ends at `Over`, at `Stopped`, or after 2^32 turns, the flusher and the cleaner also where `done`.
/// What the type of `T` keeps holds behind it.
pub fn run_all<R: Threads + Wait + Sync, T: Turns + Send, G: Gate + Sync>(
    rt: &R,
    shared: &Mutex<T>,
    sessions: u8,
    gate: &G,
)
    requires { AllTake sessions T.takes }
{
    let shown = Standing::new(sessions);
    let standing = &shown;
    join(
        rt,
        ||
            requires { AllTake sessions T.takes }
        { work_sessions(rt, shared, standing, sessions, gate) },
        ||
            requires { T.takes Undo × T.takes Flusher × T.takes Cleaner }
        { work_behind(rt, shared, standing, gate) },
    );
}
