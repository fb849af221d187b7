// The bytes of a page.
ghost use Rattle.std.specs.Prelude.{◌≡◌, ◌≤◌, ◌+◌, ◌++◌, ℕ, List, length, take, drop, replicate, IsTrue, IfOk, IfErr, OnOk};
ghost use Rattle.ctr_pool.specs.Pages.{PageHeld, overlaid_by};
ghost use Rattle.ctr_pool.specs.Below.{HoldsStill, IsFound};
ghost use Rattle.ctr_disk.specs.types_Faults.{HasFault};
ghost use Rattle.ctr_disk.specs.declared.fault.StoreFault.TheVariants.{Fault};

use crate::{Backing, Lsn};
use ctr_disk::StoreFault;
use ctr_rec::{Overlay, PageNo};
use std::marker::Model;

/// The length of a page in bytes.
const PAGE: usize = 4096;

/// The 4,096 bytes of a page.
#[derive(Debug, Drop)]
pub struct Body {
    bytes: [u8; PAGE],
}

impl Model for Body {
    ghost use Rattle.std.specs.Prelude.{◌≡◌, List, ℕ, length};

    ghost Value = { List ℕ };

    ghost view = { λ a. a.bytes };

    ghost invariant = { λ a. length a.bytes ≡ 4096 };
}

impl Body {
    /// Zeros.
    pub fn new() -> Body
        ensures { result ≡ replicate 4096 0 }
    {
        Body { bytes: [0; PAGE] }
    }

    /// The bytes.
    pub fn as_slice(&self) -> &[u8]
        ensures bytes { result.now ≡ self.now }
        ensures whole { length result.now ≡ 4096 }
    {
        &self.bytes
    }

    /// Reads a page of a backing into it.
    pub fn load<B: Backing>(&mut self, page: PageNo, backing: &mut B) -> Result<Lsn, StoreFault>
        ensures loaded { IsTrue B.tells → IfOk result (λ lsn. B.held backing.old page ≡ record { lsn = lsn; body = self.new }) }
        ensures keeps { B.keeps backing.old backing.new }
        ensures same { IsTrue B.tells → OnOk result (HoldsStill B.held B.may_be_saved backing.old backing.new) }
        ensures goes { IsTrue B.tells → B.rests backing.old → B.leaves_between backing.old backing.new }
        ensures moves { IsTrue B.tells → B.rests backing.old → OnOk result (B.may_change backing.old backing.new × B.rests backing.new) }
        ensures fails { IsTrue B.tells → B.rests backing.old → IfErr result (B.fails backing.old backing.new) }
        ensures finds { IsTrue B.tells → B.rests backing.old → IsFound (B.finds backing.new page) result }
        ensures faults { HasFault Fault (B.faults_of backing.old) (B.faults_of backing.new) result }
    {
        backing.load(page, &mut self.bytes)
    }

    fn clear(&mut self)
        ensures { self.new ≡ replicate 4096 0 }
    {
        clear_all(&mut self.bytes);
    }

    /// Sets all bytes.
    pub fn set(&mut self, bytes: &[u8])
        requires { length bytes.now ≡ 4096 }
        ensures { self.new ≡ bytes.now }
    {
        set_all(&mut self.bytes, bytes);
    }

    fn copy(&mut self, at: usize, bytes: &[u8])
        requires { at + length bytes.now ≤ 4096 }
        ensures { self.new ≡ take at self.old ++ bytes.now ++ drop (at + length bytes.now) self.old }
    {
        copy_into(&mut self.bytes, at, bytes);
    }

    /// Lays bytes over it, of a page that is cleared first or not.
    pub fn lay(&mut self, overlay: &Overlay)
        requires { overlay.now.offset + length overlay.now.bytes ≤ 4096 }
        ensures { self.new ≡ overlaid_by overlay.now self.old }
    {
        let at = overlay.offset as usize;
        let bytes = overlay.bytes.as_slice();
        if overlay.clear {
            self.clear();
            return self.copy(at, bytes);
        }
        self.copy(at, bytes)
    }
}

fn copy_into(into: &mut [u8], at: usize, bytes: &[u8])
    requires { at + length bytes.now ≤ length into.old }
    ensures bytes { into.new ≡ take at into.old ++ bytes.now ++ drop (at + length bytes.now) into.old }
    ensures len { length into.new ≡ length into.old }
{
    into[at..at + bytes.len()].copy_from_slice(bytes);
}

/// Zeros everywhere.
pub fn clear_all(into: &mut [u8])
    ensures zeros { into.new ≡ replicate (length into.old) 0 }
    ensures len { length into.new ≡ length into.old }
{
    into.fill(0);
}

fn set_all(into: &mut [u8], bytes: &[u8])
    requires { length bytes.now ≡ length into.old }
    ensures bytes { into.new ≡ bytes.now }
    ensures len { length into.new ≡ length into.old }
{
    into.copy_from_slice(bytes);
}
