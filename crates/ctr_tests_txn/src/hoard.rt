// All memory that there is, taken, so that whoever asks for some is refused it.
use std::alloc::{AllocError, Global};

// The largest piece that is asked for. Where even this is granted, memory has no limit, and can't be taken whole.
const LARGEST: usize = 1 << 30;

// How often that is halved.
const HALVES: usize = 19;

// From 2,048 bytes down each size by itself, so far apart: the allocator keeps pieces of a size for those who ask for just that.
const STEP: usize = 8;

const STEPS: usize = 256;

// How many pieces are taken at most.
const PIECES: usize = 20_000;

/// Pieces that nobody uses.
#[derive(Drop)]
pub struct Hoard {
    alloc: Global,
    pieces: Vec<Vec<u8>>,
}

impl Hoard {
    /// Takes nothing yet but the room of its list.
    pub fn new(alloc: Global) -> Result<Hoard, AllocError> {
        Ok(Hoard {
            alloc,
            pieces: Vec::with_capacity(alloc, PIECES)?,
        })
    }

    // Takes pieces of a size until one is refused; whether that came before the list was full.
    fn take(&mut self, size: usize) -> bool {
        for _ in self.pieces.len()..PIECES {
            let Ok(piece) = Vec::with_capacity(self.alloc, size) else {
                return true;
            };
            if self.pieces.push(piece).is_err() {
                return false;
            }
        }
        false
    }

    /// Takes all memory that there is now. Whether none was left in the end: a piece of each size was refused.
    pub fn take_all(&mut self) -> bool {
        if Vec::<u8>::with_capacity(self.alloc, LARGEST).is_ok() {
            return false;
        }
        let mut refused = true;
        for i in 1..HALVES {
            refused = self.take(LARGEST >> i) && refused;
        }
        for i in 0..STEPS {
            refused = self.take((STEPS - i) * STEP) && refused;
        }
        refused
    }
}
