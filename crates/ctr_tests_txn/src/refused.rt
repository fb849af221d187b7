// Why a play ends.
use ctr_disk::StoreFault;
use ctr_types::{Damage, OutOfMemory};
use std::alloc::AllocError;

/// A step wasn't done.
#[derive(Clone, Copy, PartialEq, Eq)]
pub enum Refused {
    /// The disk failed, also where it was refused memory.
    Fault,
    Damaged(Damage),
    OutOfMemory,
    /// The step isn't one of this moment: nothing was called.
    NotAsked,
}

impl From<StoreFault> for Refused {
    fn from(fault: StoreFault) -> Refused {
        match fault {
            StoreFault::Fault => Refused::Fault,
            StoreFault::Damaged(damage) => Refused::Damaged(damage),
        }
    }
}

impl From<OutOfMemory> for Refused {
    fn from(_: OutOfMemory) -> Refused {
        Refused::OutOfMemory
    }
}

impl From<AllocError> for Refused {
    fn from(_: AllocError) -> Refused {
        Refused::OutOfMemory
    }
}
