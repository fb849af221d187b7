// The record of a disk in memory.
ghost use Rattle.std.specs.Prelude.{◌≡◌, MatchResult, OnOk};
ghost use Rattle.ctr_mem_disk.specs.Replay.{IsCallRecorded, reads_by, LeavesBy};
ghost use Rattle.ctr_mem_disk.specs.declared.record.Call.TheVariants.{Write};

use crate::Image;
use crate::tearing::tear_file;
use ctr_types::{File, Text};
use std::alloc::{AllocError, Global};

/// A call of a disk.
#[derive(Debug, PartialEq, Eq, Drop)]
pub enum Call {
    Size { file: File },
    /// A read of `len` bytes.
    Read { file: File, at: u64, len: u64 },
    Write { file: File, at: u64, bytes: Text },
    Sync,
}

/// How a call ended.
#[derive(Clone, Copy, Debug, PartialEq, Eq)]
pub enum Outcome {
    /// It was carried out.
    Done,
    /// The device failed in the middle of it, so it may have happened in any part.
    Failed,
    /// It was answered Failed, and nothing happened.
    Refused,
}

/// A call, how it ended, and the disk's moment at its end.
#[derive(Debug, PartialEq, Eq, Drop)]
pub struct Recorded {
    pub call: Call,
    pub outcome: Outcome,
    pub moment: u64,
}

impl Recorded {
    /// The octal digits that are left after this call, of k at first. Each write that may have
    /// happened takes one, and after a sync they begin again.
    pub(crate) fn digits_left(&self, digits: u64, k: u64) -> u64 {
        match (&self.call, self.outcome) {
            (Call::Write { .. }, Outcome::Done | Outcome::Failed) => digits / 8,
            (Call::Sync, Outcome::Done) => k,
            _ => digits,
        }
    }
}

/// Adds a call that changes no file to the record. Where memory is refused, nothing changes.
pub fn keep(
    calls: &mut Vec<Recorded>,
    call: Call,
    outcome: Outcome,
    moment: u64,
) -> Result<(), AllocError>
    ensures { IsCallRecorded result (record { call = call; outcome = outcome; moment = moment }) calls.old.items calls.new.items }
{
    calls.push(Recorded {
        call,
        outcome,
        moment,
    })?;
    Ok(())
}

/// Carries a write out, if it is to be done, and adds it to the record. Where memory is refused,
/// nothing changes.
pub fn carry_out(
    alloc: Global,
    calls: &mut Vec<Recorded>,
    image: &mut Image,
    file: File,
    at: u64,
    bytes: &[u8],
    outcome: Outcome,
    moment: u64,
) -> Result<(), AllocError>
    ensures calls { IsCallRecorded result (record { call = Write file at bytes.now; outcome = outcome; moment = moment }) calls.old.items calls.new.items }
    ensures image { MatchResult result (λ _. image.new ≡ reads_by (record { call = Write file at bytes.now; outcome = outcome; moment = moment }) image.old) (λ _. image.new ≡ image.old) }
{
    let kept = Text::from_slice(alloc, bytes)?;
    calls.reserve(1)?;
    if outcome == Outcome::Done {
        image.write(alloc, file, at, bytes)?;
    }
    let call = Call::Write {
        file,
        at,
        bytes: kept,
    };
    calls.push(Recorded {
        call,
        outcome,
        moment,
    })?;
    Ok(())
}

/// A replay of recorded calls: what a read gives, and one of the images that a crash may leave.
#[derive(Drop)]
pub struct Replay {
    pub reads: Image,
    pub left: Image,
}

impl Replay {
    /// Goes over one call. A write is torn by a digit, 0 to 7.
    pub fn step(&mut self, alloc: Global, recorded: &Recorded, digit: u64) -> Result<(), AllocError>
        ensures reads { OnOk result (self.new.reads ≡ reads_by recorded.now self.old.reads) }
        ensures left { OnOk result (LeavesBy recorded.now self.old.reads self.old.left self.new.left) }
    {
        match (&recorded.call, recorded.outcome) {
            (Call::Write { file, at, bytes }, Outcome::Done) => {
                self.reads.write(alloc, *file, *at, bytes.as_slice())?;
                tear_file(alloc, &mut self.left, *file, *at, bytes.as_slice(), digit)
            }
            (Call::Write { file, at, bytes }, Outcome::Failed) => {
                tear_file(alloc, &mut self.left, *file, *at, bytes.as_slice(), digit)
            }
            (Call::Sync, Outcome::Done) => {
                self.left = self.reads.copy()?;
                Ok(())
            }
            _ => Ok(()),
        }
    }
}
