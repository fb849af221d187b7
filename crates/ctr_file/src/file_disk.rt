//! A disk of four real files, which tells nothing of what they hold.
ghost use Rattle.std.specs.Prelude.{[], false};
ghost use Rattle.ctr_disk.specs.Silent.{never_told};

use crate::folder::Folder;
use ctr_disk::{Disk, Failed};
use ctr_types::File as Which;
use std::alloc::Global;
use std::fs::File;
use std::rt::Files;

/// The files `root`, `loga`, `logb` and `pages` of a folder. Each is opened at the first call that
/// needs it, and made if it is missing, as is the folder.
pub struct FileDisk<R: Files<File = File>> {
    folder: Folder<R>,
    moment: u64,
    faults: u64,
    strays: u64,
}

impl<R: Files<File = File> + Drop> Drop for FileDisk<R> {
    fn drop(self) {
        let FileDisk {
            folder: _,
            moment: _,
            faults: _,
            strays: _,
        } = self;
    }
}

impl<R: Files<File = File> + Drop> FileDisk<R> {
    /// The disk of the folder at this path. No file is touched yet.
    pub fn new(rt: R, alloc: Global, path: String) -> Self {
        FileDisk {
            folder: Folder::new(rt, alloc, path),
            moment: 0,
            faults: 0,
            strays: 0,
        }
    }
}

impl<R: Files<File = File> + Drop> Disk for FileDisk<R> {
    ghost tells = { false };

    ghost reads = { λ _. record { root = []; log_a = []; log_b = []; pages = [] } };

    ghost images = { λ _ _. ⊥ };

    ghost since = { λ _ _ _. ⊥ };

    ghost moment_of = { λ d. d.moment };

    ghost faults_of = { λ d. d.faults };

    ghost strays_of = { λ d. d.strays };

    ghost counts_now = { λ d t c le is. is };

    ghost only_now = { λ d c is. is };

    ghost earlier = { λ d s t c le is. is };

    ghost among = { λ d told. never_told told };

    fn moment(&self) -> u64 {
        self.moment
    }

    fn faults(&self) -> u64 {
        self.faults
    }

    fn strays(&self) -> u64 {
        self.strays
    }

    fn size(&mut self, file: Which) -> Result<u64, Failed> {
        let told = self.folder.size(file);
        if told.is_err() {
            self.faults = self.faults.saturating_add(1);
        }
        told
    }

    fn read(&mut self, file: Which, at: u64, into: &mut [u8]) -> Result<(), Failed> {
        let strays = at >= (1 << 63) - into.len() as u64;
        if strays {
            self.strays = self.strays.saturating_add(1);
        }
        let done = if strays {
            Err(Failed)
        } else {
            self.folder.read(file, at, into)
        };
        if done.is_err() {
            self.faults = self.faults.saturating_add(1);
        }
        done
    }

    fn write(&mut self, file: Which, at: u64, bytes: &[u8]) -> Result<(), Failed> {
        let strays = at >= (1 << 63) - bytes.len() as u64;
        if strays {
            self.strays = self.strays.saturating_add(1);
        }
        let is_last = self.moment == u64::MAX;
        self.moment = self.moment.saturating_add(1);
        let done = if strays || is_last {
            Err(Failed)
        } else {
            self.folder.write(file, at, bytes)
        };
        if done.is_err() {
            self.faults = self.faults.saturating_add(1);
        }
        done
    }

    fn sync(&mut self) -> Result<(), Failed> {
        let is_last = self.moment == u64::MAX;
        self.moment = self.moment.saturating_add(1);
        let done = if is_last {
            Err(Failed)
        } else {
            self.folder.sync()
        };
        if done.is_err() {
            self.faults = self.faults.saturating_add(1);
        }
        done
    }
}
