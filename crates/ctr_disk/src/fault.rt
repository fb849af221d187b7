// How work on the files ends where it can't go on, and what the root says.
ghost use Rattle.std.specs.Prelude.{◌≡◌};
ghost use Rattle.ctr_disk.specs.declared.fault.StoreFault.TheVariants.{Fault};

use crate::Failed;
use ctr_types::Damage;

/// The number of a writing of the root, from 1.
pub type Stamp = u64;

/// Work on the files couldn't be done.
#[derive(Clone, Copy, Debug, PartialEq, Eq)]
pub enum StoreFault {
    /// The disk's count of faults rose, or stands at the last value of its type.
    Fault,
    /// A check of the bytes that are there failed.
    Damaged(Damage),
}

/// Why the engine stopped.
#[derive(Clone, Copy, Debug, PartialEq, Eq)]
pub enum Stop {
    /// As in `StoreFault`.
    Fault,
    /// As in `StoreFault`.
    Damaged(Damage),
    /// The next LSN is the last that can be given.
    Worn { lsn: u64 },
}

impl From<Failed> for StoreFault {
    ghost from_gives = { λ _ e. e ≡ Fault };

    fn from(_: Failed) -> StoreFault {
        StoreFault::Fault
    }
}
