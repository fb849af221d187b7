// Why a disk wasn't opened.
ghost use Rattle.std.specs.Prelude.{◌≡◌};
ghost use Rattle.ctr_log.specs.Opening.{fault_told, read_told};
ghost use Rattle.ctr_log.specs.declared.opening.OpenError.TheVariants.{Fault, OutOfMemory as NoMemory};

use crate::ReadError;
use ctr_home::{Failed, StoreFault};
use ctr_types::{Damage, OutOfMemory};

/// A disk couldn't be opened.
#[derive(Clone, Copy, Debug, PartialEq, Eq)]
pub enum OpenError {
    /// No home of the root is open.
    NoDatabase,
    /// A check failed in the root, in the log, or in what the log's records say and are on.
    Damaged(Damage),
    /// The next LSN is at least 2^62, or else the next transaction is: it is this.
    Worn { number: u64 },
    /// As in `StoreFault`.
    Fault,
    OutOfMemory,
}

impl From<Failed> for OpenError {
    ghost from_gives = { λ _ e. e ≡ Fault };

    fn from(_: Failed) -> OpenError {
        OpenError::Fault
    }
}

impl From<OutOfMemory> for OpenError {
    ghost from_gives = { λ _ e. e ≡ NoMemory };

    fn from(_: OutOfMemory) -> OpenError {
        OpenError::OutOfMemory
    }
}

impl From<StoreFault> for OpenError {
    ghost from_gives = { λ fault e. e ≡ fault_told fault };

    fn from(fault: StoreFault) -> OpenError {
        match fault {
            StoreFault::Fault => OpenError::Fault,
            StoreFault::Damaged(damage) => OpenError::Damaged(damage),
        }
    }
}

impl From<ReadError> for OpenError {
    ghost from_gives = { λ error e. e ≡ read_told error };

    fn from(error: ReadError) -> OpenError {
        match error {
            ReadError::Store(fault) => OpenError::from(fault),
            ReadError::OutOfMemory => OpenError::OutOfMemory,
        }
    }
}
