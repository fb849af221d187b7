// Who can go on, told beside the lock: a worker whose turn can wait lets these go first.
use ctr_types::Actor;
use std::sync::atomic::{AtomicU64, Ordering};
use std::thread;

// How often a worker looks at most before it takes its turn all the same.
const TRIES: u64 = 2000;

/// The sessions of a run, by their bits, and how many turns they have had.
#[derive(Drop)]
pub(crate) struct Standing {
    sessions: u64,
    over: AtomicU64,
    waiting: AtomicU64,
    turns: AtomicU64,
}

// The bit of a session; none of another actor.
fn bit_of(actor: Actor) -> u64 {
    match actor {
        Actor::Session(session) if 1 <= session && session <= 8 => 1 << (session - 1),
        _ => 0,
    }
}

impl Standing {
    /// All of these sessions can go on.
    pub(crate) fn new(sessions: u8) -> Standing {
        Standing {
            sessions: u64::from(sessions),
            over: AtomicU64::new(0),
            waiting: AtomicU64::new(0),
            turns: AtomicU64::new(0),
        }
    }

    /// Tells, under the lock, which sessions wait behind a turn of an actor, and whether it was its last.
    pub(crate) fn tell(&self, actor: Actor, waiting: u8, last: bool) {
        self.waiting.store(u64::from(waiting), Ordering::SeqCst);
        if last {
            self.over.fetch_or(bit_of(actor), Ordering::SeqCst);
        }
        if bit_of(actor) != 0 {
            self.turns.fetch_add(1, Ordering::SeqCst);
        }
    }

    // Whether no session can go on but by a turn that makes what it waits for.
    fn is_still(&self) -> bool {
        let held = self.over.load(Ordering::SeqCst) | self.waiting.load(Ordering::SeqCst);
        self.sessions & !held == 0
    }

    // Whether an actor's turn is due: a waiting session's and the flusher's once no session can go on, the cleaner's once one had a turn.
    fn is_due(&self, actor: Actor, seen: u64) -> bool {
        if self.is_still() {
            return true;
        }
        match actor {
            Actor::Session(_) => self.waiting.load(Ordering::SeqCst) & bit_of(actor) == 0,
            Actor::Flusher => false,
            Actor::Cleaner => self.turns.load(Ordering::SeqCst) != seen,
            Actor::Undo => true,
        }
    }

    /// Lets others go first before an actor's turn, as long as it isn't due, and not for ever: syncs are shared so.
    pub(crate) fn wait(&self, actor: Actor) {
        let seen = self.turns.load(Ordering::SeqCst);
        for _ in 0..TRIES {
            if self.is_due(actor, seen) {
                return;
            }
            thread::yield_now();
        }
    }
}
