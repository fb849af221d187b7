// What sessions had whose transactions are over, until its memory is given back.
use crate::session::SessionLocks;
use std::alloc::Global;

/// What so many transactions had is kept at most.
const MOST: usize = 8;

/// The memory of so many keys is given back at once, at most.
const KEYS: usize = 16;

/// What sessions had. Its memory is given back a part at a time, so that a transaction's end doesn't take the longer the more keys it had locked.
#[derive(Drop)]
pub struct Released {
    locks: Vec<SessionLocks>,
}

impl Released {
    /// Nothing. It takes no memory.
    pub fn new(alloc: Global) -> Released {
        Released {
            locks: Vec::new(alloc),
        }
    }

    /// Takes room, where there is memory for it.
    pub fn make_room(&mut self) {
        if self.locks.capacity() < MOST {
            let _ = self.locks.reserve(MOST - self.locks.len());
        }
    }

    /// Keeps what a session had, if anything, where there is room; else its memory is given back now. It takes no memory.
    pub fn keep(&mut self, locks: Option<SessionLocks>) {
        if self.locks.len() >= self.locks.capacity() {
            return;
        }
        if let Some(locks) = locks {
            self.locks.push_reserved(locks);
        }
    }

    /// Gives back the memory of some keys.
    pub fn give_back(&mut self) {
        let Some(last) = self.locks.last_mut() else {
            return;
        };
        if !last.give_back(KEYS) {
            let _ = self.locks.pop();
        }
    }

    /// Gives back the memory of all.
    pub fn give_back_all(&mut self) {
        self.locks.clear();
    }
}
