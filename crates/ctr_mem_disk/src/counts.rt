// What a disk in memory counts.
ghost use Rattle.std.specs.Prelude.{◌≡◌, ◌≤◌, ◌==◌, ◌&&◌, ◌||◌, ◌-◌, ◌^◌, if◌then◌else◌, nat_le, is_ok, IfOk, IsOk};
ghost use Rattle.std.specs.List.{list_any};
ghost use Rattle.ctr_types.specs.Faults.{HasCause, raised};
ghost use Rattle.ctr_mem_disk.specs.Counting.{outcome_of};
ghost use Rattle.ctr_mem_disk.specs.declared.record.Outcome.TheVariants.{Done};

use crate::Outcome;
use ctr_disk::Failed;
use std::alloc::AllocError;

/// Each count stands still at the last value of its type.
#[derive(Drop)]
pub struct Counts {
    /// The calls, also those that failed.
    pub calls: u64,
    pub moment: u64,
    pub faults: u64,
    pub strays: u64,
    /// The calls that failed for want of memory.
    pub starved: u64,
}

impl Counts {
    /// Counts a call that begins, and says how it is to end. A call that ticks is a write or a sync.
    pub fn start(&mut self, fails: &[u64], strays: bool, ticks: bool) -> Outcome
        ensures calls { self.new.calls ≡ raised self.old.calls }
        ensures strays { self.new.strays ≡ (if strays then raised self.old.strays else self.old.strays) }
        ensures moment { self.new.moment ≡ (if ticks then raised self.old.moment else self.old.moment) }
        ensures later { (self.old.moment ≤ self.new.moment) × (self.old.strays ≤ self.new.strays) }
        ensures others { (self.new.faults ≡ self.old.faults) × (self.new.starved ≡ self.old.starved) }
        ensures outcome { result ≡ outcome_of (strays || (ticks && nat_le (2 ^ 64 - 1) self.old.moment)) (list_any (λ n. n == raised self.old.calls) fails.now) }
    {
        self.calls = self.calls.saturating_add(1);
        if strays {
            self.strays = self.strays.saturating_add(1);
        }
        let last = ticks && self.moment == u64::MAX;
        if ticks {
            self.moment = self.moment.saturating_add(1);
        }
        if strays || last {
            Outcome::Refused
        } else if fails.contains(&self.calls) {
            Outcome::Failed
        } else {
            Outcome::Done
        }
    }

    /// Counts how the call ended, and answers it. Where memory was refused it failed.
    pub fn finish<T: Drop>(
        &mut self,
        outcome: Outcome,
        kept: Result<(), AllocError>,
        value: T,
    ) -> Result<T, Failed>
        ensures value { IfOk result (λ v. (v ≡ value) × (outcome ≡ Done) × IsOk kept) }
        ensures answered { IsOk kept → outcome ≡ Done → IsOk result }
        ensures faults { self.new.faults ≡ (if is_ok result then self.old.faults else raised self.old.faults) }
        ensures starved { self.new.starved ≡ (if is_ok kept then self.old.starved else raised self.old.starved) }
        ensures cause { HasCause self.old.faults self.new.faults result }
        ensures others { (self.new.calls ≡ self.old.calls) × (self.new.moment ≡ self.old.moment) × (self.new.strays ≡ self.old.strays) }
    {
        if kept.is_err() {
            self.starved = self.starved.saturating_add(1);
        }
        if kept.is_err() || outcome != Outcome::Done {
            self.faults = self.faults.saturating_add(1);
            return Err(Failed);
        }
        Ok(value)
    }
}
