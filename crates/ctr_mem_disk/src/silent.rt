// A disk in memory that tells nothing.
ghost use Rattle.std.specs.Prelude.{[], false};
ghost use Rattle.ctr_disk.specs.Silent.{never_told};
ghost use Rattle.ctr_mem_disk.specs.Memory.{moment_at, counted_faults, counted_strays};

use crate::MemDisk;
use ctr_disk::{Disk, Failed};
use ctr_types::File;

/// A disk in memory that doesn't tell what it holds, for tests: a proof that calls it wants nothing of
/// its content. What it holds and which calls it had is asked of the disk within.
#[derive(Drop)]
pub struct SilentDisk {
    pub disk: MemDisk,
}

impl Disk for SilentDisk {
    ghost tells = { false };

    ghost reads = { λ _. record { root = []; log_a = []; log_b = []; pages = [] } };

    ghost images = { λ _ _. ⊥ };

    ghost since = { λ _ _ _. ⊥ };

    ghost moment_of = { λ d. moment_at d.disk };

    ghost faults_of = { λ d. counted_faults d.disk };

    ghost strays_of = { λ d. counted_strays d.disk };

    ghost counts_now = { λ d t c le is. is };

    ghost only_now = { λ d c is. is };

    ghost earlier = { λ d s t c le is. is };

    ghost among = { λ d told. never_told told };

    fn moment(&self) -> u64 {
        self.disk.moment()
    }

    fn faults(&self) -> u64 {
        self.disk.faults()
    }

    fn strays(&self) -> u64 {
        self.disk.strays()
    }

    fn size(&mut self, file: File) -> Result<u64, Failed> {
        self.disk.size(file)
    }

    fn read(&mut self, file: File, at: u64, into: &mut [u8]) -> Result<(), Failed> {
        self.disk.read(file, at, into)
    }

    fn write(&mut self, file: File, at: u64, bytes: &[u8]) -> Result<(), Failed> {
        self.disk.write(file, at, bytes)
    }

    fn sync(&mut self) -> Result<(), Failed> {
        self.disk.sync()
    }
}
