// Why a step of a suite isn't done.
ghost use Rattle.std.specs.Prelude.{◌≡◌};
ghost use Rattle.ctr_suite_model.specs.declared.trouble.Trouble.TheVariants.{OutOfMemory};

use ctr_parse::ParseRefusal;
use std::alloc::{AllocError, AllocFailed};

/// Why a step can't be done.
#[derive(Clone, Copy, Debug, PartialEq, Eq)]
pub enum Trouble {
    OutOfMemory,
    /// No step, statement or entry is spelled so.
    Spelling,
    /// No table has this name.
    NoTable,
    /// The session has no statement left.
    NoStatement,
    /// The tape has begun, so that its database stands.
    TooLate,
    /// A number would leave its type.
    TooLong,
}

impl Trouble {
    /// What the suite's reader is told.
    pub fn text(self) -> &'static str {
        match self {
            Trouble::OutOfMemory => "out of memory",
            Trouble::Spelling => "this can't be read",
            Trouble::NoTable => "there is no such table",
            Trouble::NoStatement => "the session has no statement left",
            Trouble::TooLate => "the tape has begun",
            Trouble::TooLong => "a number is too great",
        }
    }
}

impl From<AllocError> for Trouble {
    ghost from_gives = { λ _ e. e ≡ OutOfMemory };

    fn from(_: AllocError) -> Trouble {
        Trouble::OutOfMemory
    }
}

impl<T: Drop> From<AllocFailed<T>> for Trouble {
    fn from(_: AllocFailed<T>) -> Trouble {
        Trouble::OutOfMemory
    }
}

impl From<ctr_types::OutOfMemory> for Trouble {
    fn from(_: ctr_types::OutOfMemory) -> Trouble {
        Trouble::OutOfMemory
    }
}

impl From<ParseRefusal> for Trouble {
    fn from(refusal: ParseRefusal) -> Trouble {
        match refusal {
            ParseRefusal::OutOfMemory => Trouble::OutOfMemory,
            ParseRefusal::ParseError { at: _ } => Trouble::Spelling,
        }
    }
}
