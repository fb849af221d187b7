// A disk of four areas, whose lengths are fixed when it is made: its calls take no memory.
ghost use Rattle.std.specs.Prelude.{[], false};
ghost use Rattle.ctr_disk.specs.Silent.{never_told};

use ctr_disk::{Disk, Failed};
use ctr_types::File;
use std::alloc::{AllocError, Global};

// How many bytes a file has room for: of the root's two homes, of 10,000 commits, and of the first 64 pages' homes.
const ROOT: usize = 256;

const LOG: usize = 4 << 20;

const PAGES: usize = 64 * 8256;

// A file: its room, with zeros past its end, and its length.
#[derive(Drop)]
struct Area {
    bytes: Vec<u8>,
    len: u64,
}

impl Area {
    fn new(alloc: Global, room: usize) -> Result<Area, AllocError> {
        Ok(Area {
            bytes: vec![in alloc; 0u8; room]?,
            len: 0,
        })
    }

    // Fills the buffer from a place, with zeros past the end.
    fn read(&self, at: u64, into: &mut [u8]) {
        let start = self.bytes.len().min(at as usize);
        let behind = &self.bytes.as_slice()[start..];
        let count = behind.len().min(into.len());
        let (front, rest) = into.split_at_mut(count);
        front.copy_from_slice(&behind[..count]);
        rest.fill(0);
    }

    // Past its room nothing can be written.
    fn write(&mut self, at: u64, bytes: &[u8]) -> Result<(), Failed> {
        let start = at as usize;
        if start > self.bytes.len() || bytes.len() > self.bytes.len() - start {
            return Err(Failed);
        }
        let end = start + bytes.len();
        self.bytes.as_mut_slice()[start..end].copy_from_slice(bytes);
        self.len = self.len.max(end as u64);
        Ok(())
    }
}

// The four files.
#[derive(Drop)]
struct Areas {
    root: Area,
    log_a: Area,
    log_b: Area,
    pages: Area,
}

impl Areas {
    fn area(&self, file: File) -> &Area {
        match file {
            File::Root => &self.root,
            File::LogA => &self.log_a,
            File::LogB => &self.log_b,
            File::Pages => &self.pages,
        }
    }

    fn write(&mut self, file: File, at: u64, bytes: &[u8]) -> Result<(), Failed> {
        match file {
            File::Root => self.root.write(at, bytes),
            File::LogA => self.log_a.write(at, bytes),
            File::LogB => self.log_b.write(at, bytes),
            File::Pages => self.pages.write(at, bytes),
        }
    }
}

/// A disk that tells nothing of what it holds. A write past the room of its file fails.
#[derive(Drop)]
pub struct FixedDisk {
    areas: Areas,
    moment: u64,
    faults: u64,
    strays: u64,
}

impl FixedDisk {
    /// A disk of empty files, which takes all the room that it will have.
    pub fn new(alloc: Global) -> Result<FixedDisk, AllocError> {
        let areas = Areas {
            root: Area::new(alloc, ROOT)?,
            log_a: Area::new(alloc, LOG)?,
            log_b: Area::new(alloc, LOG)?,
            pages: Area::new(alloc, PAGES)?,
        };
        Ok(FixedDisk {
            areas,
            moment: 0,
            faults: 0,
            strays: 0,
        })
    }
}

impl Disk for FixedDisk {
    ghost tells = { false };

    ghost reads = { λ _. record { root = []; log_a = []; log_b = []; pages = [] } };

    ghost images = { λ _ _. ⊥ };

    ghost since = { λ _ _ _. ⊥ };

    ghost moment_of = { λ d. d.moment };

    ghost faults_of = { λ d. d.faults };

    ghost strays_of = { λ d. d.strays };

    ghost counts_now = { λ d t c le is. is };

    ghost only_now = { λ d c is. is };

    ghost earlier = { λ d s t c le is. is };

    ghost among = { λ d told. never_told told };

    fn moment(&self) -> u64 {
        self.moment
    }

    fn faults(&self) -> u64 {
        self.faults
    }

    fn strays(&self) -> u64 {
        self.strays
    }

    fn size(&mut self, file: File) -> Result<u64, Failed> {
        Ok(self.areas.area(file).len)
    }

    fn read(&mut self, file: File, at: u64, into: &mut [u8]) -> Result<(), Failed> {
        if at >= (1 << 63) - into.len() as u64 {
            self.strays = self.strays.saturating_add(1);
            self.faults = self.faults.saturating_add(1);
            return Err(Failed);
        }
        self.areas.area(file).read(at, into);
        Ok(())
    }

    fn write(&mut self, file: File, at: u64, bytes: &[u8]) -> Result<(), Failed> {
        let strays = at >= (1 << 63) - bytes.len() as u64;
        if strays {
            self.strays = self.strays.saturating_add(1);
        }
        let is_last = self.moment == u64::MAX;
        self.moment = self.moment.saturating_add(1);
        let done = if strays || is_last {
            Err(Failed)
        } else {
            self.areas.write(file, at, bytes)
        };
        if done.is_err() {
            self.faults = self.faults.saturating_add(1);
        }
        done
    }

    fn sync(&mut self) -> Result<(), Failed> {
        let is_last = self.moment == u64::MAX;
        self.moment = self.moment.saturating_add(1);
        if is_last {
            self.faults = self.faults.saturating_add(1);
            return Err(Failed);
        }
        Ok(())
    }
}
