// Why a step of a suite isn't done.
use ctr_disk::StoreFault;
use std::alloc::{AllocError, AllocFailed};

/// Why a step can't be done.
#[derive(Clone, Copy, Debug, PartialEq, Eq)]
pub enum Trouble {
    OutOfMemory,
    /// No step or statement is spelled so.
    Spelling,
    /// The files aren't opened.
    NotOpened,
    /// A session isn't over after so many turns as are taken at most.
    NotOver,
    /// No number is left for a record.
    Worn,
    /// A turn was answered a fault, or damage.
    Fault,
    Damaged,
}

impl Trouble {
    /// What the suite's reader is told.
    pub fn text(self) -> &'static str {
        match self {
            Trouble::OutOfMemory => "out of memory",
            Trouble::Spelling => "this can't be read",
            Trouble::NotOpened => "the files aren't opened",
            Trouble::NotOver => "a session isn't over",
            Trouble::Worn => "no number is left",
            Trouble::Fault => "a fault",
            Trouble::Damaged => "damage",
        }
    }
}

impl From<StoreFault> for Trouble {
    fn from(fault: StoreFault) -> Trouble {
        match fault {
            StoreFault::Fault => Trouble::Fault,
            StoreFault::Damaged(_) => Trouble::Damaged,
        }
    }
}

impl From<AllocError> for Trouble {
    fn from(_: AllocError) -> Trouble {
        Trouble::OutOfMemory
    }
}

impl<T: Drop> From<AllocFailed<T>> for Trouble {
    fn from(_: AllocFailed<T>) -> Trouble {
        Trouble::OutOfMemory
    }
}

impl From<ctr_types::OutOfMemory> for Trouble {
    fn from(_: ctr_types::OutOfMemory) -> Trouble {
        Trouble::OutOfMemory
    }
}
