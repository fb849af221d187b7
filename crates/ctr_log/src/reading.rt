// A frame of the log, and how reading ends early.
ghost use Rattle.std.specs.Prelude.{◌≡◌, ◌++◌, Ok, Err, MatchResult};
ghost use Rattle.ctr_home.specs.disk_StoreFault.TheVariants.{Fault};
ghost use Rattle.ctr_log.specs.declared.reading.ReadError.TheVariants.{Store};
ghost use Rattle.ctr_home.specs.Checks.{judged};
ghost use Rattle.ctr_log.specs.Damage.{IsDamageOf};
ghost use Rattle.ctr_log.specs.Logs.{frame};
ghost use Rattle.ctr_log.specs.Reading.{BeginsWithFrame};
ghost use Rattle.ctr_log.specs.LogChecks.{frame_check};

use crate::damage::{at_least, at_most};
use ctr_home::{Failed, StoreFault, get_u64, judge};
use ctr_types::{File, OutOfMemory};
use std::alloc::{AllocError, AllocFailed, Global};

/// Reading ended before the log's end was found.
#[derive(Clone, Copy, Debug, PartialEq, Eq)]
pub enum ReadError {
    Store(StoreFault),
    OutOfMemory,
}

impl From<StoreFault> for ReadError {
    ghost from_gives = { λ s e. e ≡ Store s };

    fn from(fault: StoreFault) -> ReadError {
        ReadError::Store(fault)
    }
}

impl From<Failed> for ReadError {
    ghost from_gives = { λ _ e. e ≡ Store Fault };

    fn from(_: Failed) -> ReadError {
        ReadError::Store(StoreFault::Fault)
    }
}

impl From<AllocError> for ReadError {
    ghost use Rattle.ctr_log.specs.declared.reading.ReadError.TheVariants.{OutOfMemory};

    ghost from_gives = { λ _ e. e ≡ OutOfMemory };

    fn from(_: AllocError) -> ReadError {
        ReadError::OutOfMemory
    }
}

impl From<OutOfMemory> for ReadError {
    ghost use Rattle.ctr_log.specs.declared.reading.ReadError.TheVariants.{OutOfMemory};

    ghost from_gives = { λ _ e. e ≡ OutOfMemory };

    fn from(_: OutOfMemory) -> ReadError {
        ReadError::OutOfMemory
    }
}

impl<T: Drop> From<AllocFailed<T>> for ReadError {
    ghost use Rattle.ctr_log.specs.declared.reading.ReadError.TheVariants.{OutOfMemory};

    ghost from_gives = { λ _ e. e ≡ OutOfMemory };

    fn from(_: AllocFailed<T>) -> ReadError {
        ReadError::OutOfMemory
    }
}

/// The first frame's record, and what stands behind it.
pub fn next_frame(file: File, rest: &[u8], at: u64) -> Result<(&[u8], &[u8]), StoreFault>
    ensures found { MatchResult result (λ p. rest.now ≡ frame p.0.now ++ p.1.now) (λ e. IsDamageOf file e × (BeginsWithFrame rest.now → ⊥)) }
    ensures damage { MatchResult result (λ _. judged file (frame_check at rest.now) ≡ Ok tt) (λ e. judged file (frame_check at rest.now) ≡ Err e) }
{
    let len = rest.len() as u64;
    judge(file, &[at_least(at, 8, len)])?;
    let record = get_u64(rest, 0);
    judge(file, &[at_most(at, len - 8, record)])?;
    Ok(rest[8..].split_at(record as usize))
}
