// Gates that hold workers up until others have come.
use ctr_top::Gate;
use ctr_types::Actor;
use std::sync::atomic::{AtomicU64, Ordering};
use std::thread;

// How often a gate looks whether the others have come at most.
const TRIES: u64 = 1_000_000;

/// Holds the second turn of each of the sessions 1 and 2 until the other's second was called.
#[derive(Drop)]
pub struct Crossing {
    first: AtomicU64,
    second: AtomicU64,
    missed: AtomicU64,
}

impl Crossing {
    pub fn new() -> Crossing {
        Crossing {
            first: AtomicU64::new(0),
            second: AtomicU64::new(0),
            missed: AtomicU64::new(0),
        }
    }

    // Tells that this one has come, and waits for the other.
    fn cross(&self, mine: &AtomicU64, other: &AtomicU64) {
        mine.store(1, Ordering::SeqCst);
        for _ in 0..TRIES {
            if other.load(Ordering::SeqCst) == 1 {
                return;
            }
            thread::yield_now();
        }
        self.missed.store(1, Ordering::SeqCst);
    }

    /// Whether both have come to their second turn.
    pub fn has_come(&self) -> bool {
        self.first.load(Ordering::SeqCst) == 1 && self.second.load(Ordering::SeqCst) == 1
    }

    /// Whether one waited in vain.
    pub fn has_missed(&self) -> bool {
        self.missed.load(Ordering::SeqCst) == 1
    }
}

impl Gate for Crossing {
    fn before(&self, actor: Actor, n: u64) {
        match (actor, n) {
            (Actor::Session(1), 2) => self.cross(&self.first, &self.second),
            (Actor::Session(2), 2) => self.cross(&self.second, &self.first),
            _ => {}
        }
    }
}

/// Holds the first turn of each session until eight sessions have come, and lets others go first before each later one.
#[derive(Drop)]
pub struct Crowd {
    come: AtomicU64,
}

impl Crowd {
    pub fn new() -> Crowd {
        Crowd {
            come: AtomicU64::new(0),
        }
    }

    fn wait(&self) {
        self.come.fetch_add(1, Ordering::SeqCst);
        for _ in 0..TRIES {
            if self.come.load(Ordering::SeqCst) >= 8 {
                return;
            }
            thread::yield_now();
        }
    }
}

impl Gate for Crowd {
    fn before(&self, actor: Actor, n: u64) {
        match (actor, n) {
            (Actor::Session(_), 1) => self.wait(),
            _ => thread::yield_now(),
        }
    }
}
