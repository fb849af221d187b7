// Pages below a pool, in memory.
ghost use Rattle.std.specs.Prelude.{true, false, ◌≡◌, ◌≤◌, ◌+◌, ◌^◌, min, length, vec_len, replicate, IfOk, OnOk};
ghost use Rattle.ctr_pool.specs.Memory.{sheet_at};
ghost use Rattle.ctr_disk.specs.types_Faults.{CountsFault};

use crate::body::clear_all;
use crate::{Backing, Body, Lsn};
use ctr_disk::StoreFault;
use ctr_rec::{OutOfMemory, PageNo};
use std::alloc::Global;

/// A page that is held.
#[derive(Debug, Drop)]
pub struct Sheet {
    pub lsn: Lsn,
    pub body: Body,
}

/// Pages below a pool, in memory: a backing that tells what it holds, and fails at one of its calls. For tests of
/// what stands on a pool.
#[derive(Debug, Drop)]
pub struct Memory {
    pub sheets: Vec<Sheet>,
    /// How many loads and saves there were.
    pub calls: u64,
    /// The number of the one that fails.
    pub fails_at: u64,
    pub faults: u64,
}

impl Memory {
    /// So many pages of zeros.
    pub fn new(alloc: Global, pages: usize, fails_at: u64) -> Result<Memory, OutOfMemory>
        ensures { IfOk result (λ m. vec_len m.sheets ≡ pages) }
    {
        let mut sheets = Vec::with_capacity(alloc, pages)?;
        for _ in 0..pages {
            let body = Body::new();
            sheets.push(Sheet { lsn: 0, body })?;
        }
        Ok(Memory {
            sheets,
            calls: 0,
            fails_at,
            faults: 0,
        })
    }

    // Counts a call; whether it goes well.
    fn begins(&mut self) -> bool
        ensures sheets { self.new.sheets ≡ self.old.sheets }
        ensures later { self.old.faults ≤ self.new.faults }
        ensures failed { result ≡ false → CountsFault self.old.faults self.new.faults }
        ensures fine { result ≡ true → self.new.faults ≡ self.old.faults }
    {
        self.calls = self.calls.saturating_add(1);
        if self.calls == self.fails_at {
            self.faults = self.faults.saturating_add(1);
            return false;
        }
        true
    }
}

impl Backing for Memory {
    ghost use Rattle.std.specs.Prelude.{true, ◌≡◌, ◌<◌, vec_len};
    ghost use Rattle.std.proofs.Common.{refl, ◌∙◌};

    ghost tells = { true };

    ghost held = { sheet_at };

    ghost may_be_saved = { λ b p since v. p < vec_len b.sheets };

    ghost rests = { λ b. Unit {0} };

    ghost leaves_between = { λ a b. Unit {0} };

    ghost may_change = { λ a b. Unit {0} };

    ghost keeps = { λ a b. vec_len b.sheets ≡ vec_len a.sheets };

    ghost fails = { λ a b e. Unit {0} };

    ghost finds = { λ b p r. Unit {0} };

    ghost faults_of = { λ b. b.faults };

    fn load(&mut self, page: PageNo, into: &mut [u8]) -> Result<Lsn, StoreFault> {
        if !self.begins() {
            return Err(StoreFault::Fault);
        }
        let at = page as usize;
        if at < self.sheets.len() {
            into.copy_from_slice(self.sheets[at].body.as_slice());
            return Ok(self.sheets[at].lsn);
        }
        clear_all(into);
        Ok(0)
    }

    fn save(&mut self, page: PageNo, lsn: Lsn, body: &[u8]) -> Result<(), StoreFault> {
        if !self.begins() {
            return Err(StoreFault::Fault);
        }
        let sheet = &mut self.sheets[page as usize];
        sheet.lsn = lsn;
        sheet.body.set(body);
        Ok(())
    }

    fn faults(&self) -> u64 {
        self.faults
    }

    ghost stays = { λ b told at_rest. tt };

    ghost kept = { λ b. refl };

    ghost kept_on = { λ a b c ab bc. bc ∙ ab };

    ghost stands = { λ b. tt };

    ghost joined = { λ a b c m ab bc. tt };

    ghost moved = { λ a b c ab bc. tt };

    ghost failed = { λ a b c e m f. tt };
}
