// The calls of a source or a sink in memory.
ghost use Rattle.std.specs.Prelude.{◌≡◌, is_err};
ghost use Rattle.ctr_types.specs.Faults.{HasCause};
ghost use Rattle.ctr_io.specs.Memory.{is_listed, CallCounts, fresh_calls};

use crate::Failed;
use ctr_types::List;

/// The calls that were made of a source or a sink in memory.
#[derive(Drop)]
pub struct Calls {
    /// How many bytes one moves at most.
    pub most: usize,
    /// The numbers, from 1, of those that fail.
    pub fails: List<u64>,
    /// How many were made. It stands still at the last value.
    pub made: u64,
    /// How many of them failed. It stands still at the last value.
    pub faults: u64,
}

impl Calls {
    /// No call yet.
    pub(crate) fn new(fails: List<u64>, most: usize) -> Calls
        ensures { result ≡ fresh_calls fails most }
    {
        Calls {
            most,
            fails,
            made: 0,
            faults: 0,
        }
    }

    /// Counts a call, which fails where its number is listed.
    pub(crate) fn call(&mut self) -> Result<(), Failed>
        ensures listed { is_err result ≡ is_listed self.old }
        ensures counts { CallCounts self.old self.new }
        ensures cause { HasCause self.old.faults self.new.faults result }
    {
        self.made = self.made.saturating_add(1);
        if self.fails.as_slice().contains(&self.made) {
            self.faults = self.faults.saturating_add(1);
            return Err(Failed);
        }
        Ok(())
    }
}
