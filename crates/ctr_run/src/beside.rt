// The turns of a World on threads, under one lock.
ghost use Rattle.std.specs.Prelude.{◌≡◌};
ghost use Rattle.ctr_workers.specs.Leads.{LeadsByTurns};
ghost use Rattle.ctr_workers.specs.Workers.{IsActor};
ghost use Rattle.ctr_world.specs.Turns.{EndsTurn};
ghost use Rattle.ctr_run.specs.Beside.{StepsTo};

use ctr_base::Origin;
use ctr_disk::Disk;
use ctr_types::{Actor, Entry, Reply, Turn};
use ctr_workers::{Gate, Turns, run_turns};
use ctr_world::{Opening, World};
use std::alloc::Global;
use std::sync::Wait;
use std::thread::Threads;

/// How a run has threads.
#[derive(Clone, Copy)]
pub struct Workers<'a, R, G> {
    /// What they are made by.
    pub rt: &'a R,
    /// What each worker passes before each of its turns.
    pub gate: &'a G,
    /// So many lines of session 1 are run before, one after another, as in the serial order.
    pub first: u8,
}

// A World under the lock: each turn is one step of it.
#[derive(Drop)]
struct Locked<D: Disk, B: Origin + Opening> {
    world: World<D, B>,
    alloc: Global,
    // So many entries of the tape were looked at: the sessions that asked for a commit in them and aren't answered, by their bits.
    seen: usize,
    asked: u8,
}

// The bit of a session.
fn bit_of(session: u8) -> u8 {
    if 1 <= session && session <= 8 {
        1 << (session - 1)
    } else {
        0
    }
}

// The sessions that have asked for a commit and aren't answered, behind more entries.
fn asked_behind(entries: &[Entry], asked: u8) -> u8 {
    let mut asked = asked;
    for entry in entries {
        match &entry.reply {
            Reply::Asked { .. } => asked |= bit_of(entry.session),
            Reply::Answered { .. } => asked &= !bit_of(entry.session),
            _ => {}
        }
    }
    asked
}

impl<D: Disk, B: Origin + Opening> Locked<D, B> {
    // Looks at the entries that have come since.
    fn look(&mut self)
        ensures { self.new.world ≡ self.old.world }
    {
        let tape = self.world.tape();
        let len = tape.len();
        if self.seen < len {
            self.asked = asked_behind(&tape[self.seen..], self.asked);
            self.seen = len;
        }
    }
}

impl<D: Disk, B: Origin + Opening> Turns for Locked<D, B> {
    ghost takes = { λ _. Unit {0} };

    ghost took = { λ actor answer old new. EndsTurn D.Disk answer actor old.world new.world };

    fn turn(&mut self, actor: Actor) -> Turn {
        let turn = self.world.step(self.alloc, actor);
        self.look();
        turn
    }

    fn done(&self) -> bool {
        self.world.done()
    }

    fn waiting(&self) -> u8 {
        self.asked
    }
}

/// The turns of these sessions, bit s - 1 for session s, of the flusher, the cleaner and undo, as threads come to them. Each is one step, and nothing comes
/// between.
pub(crate) fn run_workers<
    R: Threads + Wait + Sync,
    D: Disk + Send,
    B: Origin + Opening + Send,
    G: Gate + Sync,
>(workers: Workers<'_, R, G>, alloc: Global, world: World<D, B>, sessions: u8) -> World<D, B>
    ensures { ∥ LeadsByTurns IsActor (StepsTo D.Disk) world result ∥₁ }
{
    let locked = Locked {
        world,
        alloc,
        seen: 0,
        asked: 0,
    };
    let locked = run_turns(workers.rt, locked, sessions, workers.gate);
    let Locked { world, .. } = locked;
    world
}
