// Why a script isn't read.
ghost use Rattle.std.specs.Prelude.{◌≡◌};

use ctr_io::Failed;
use std::alloc::{AllocError, AllocFailed};
use thiserror::Error;

/// Why there is no script.
#[derive(Clone, Copy, Debug, PartialEq, Eq, Error)]
pub enum ScriptError {
    /// The first line that is none, and a byte of it, both from 1.
    #[error("line {line}: no statement at byte {at}")]
    Refused { line: u64, at: u64 },
    /// The source has more than 16,777,216 bytes.
    #[error("a script of more than 16777216 bytes")]
    TooLong,
    /// A call of the source has failed.
    #[error("a read that failed")]
    ReadFault,
    #[error("out of memory")]
    OutOfMemory,
}

impl From<Failed> for ScriptError {
    ghost use Rattle.ctr_script.specs.declared.error.ScriptError.TheVariants.{ReadFault};

    ghost from_gives = { λ _ e. e ≡ ReadFault };

    fn from(_: Failed) -> ScriptError {
        ScriptError::ReadFault
    }
}

impl From<AllocError> for ScriptError {
    ghost use Rattle.ctr_script.specs.declared.error.ScriptError.TheVariants.{OutOfMemory};

    ghost from_gives = { λ _ e. e ≡ OutOfMemory };

    fn from(_: AllocError) -> ScriptError {
        ScriptError::OutOfMemory
    }
}

impl<T: Drop> From<AllocFailed<T>> for ScriptError {
    ghost use Rattle.ctr_script.specs.declared.error.ScriptError.TheVariants.{OutOfMemory};

    ghost from_gives = { λ _ e. e ≡ OutOfMemory };

    fn from(_: AllocFailed<T>) -> ScriptError {
        ScriptError::OutOfMemory
    }
}
