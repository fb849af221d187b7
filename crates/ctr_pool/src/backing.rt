// What stands below a pool.
ghost use Rattle.std.specs.Prelude.{◌≡◌, ◌≤◌, ◌<◌, Bool, IsTrue, ℕ, ⊤, Result, Err, length, IfOk, IfErr, OnOk, OnErr};
ghost use Rattle.ctr_disk.specs.types_Faults.{HasFault};
ghost use Rattle.ctr_disk.specs.declared.fault.StoreFault.{StoreFault as Wrong};
ghost use Rattle.ctr_disk.specs.declared.fault.StoreFault.TheVariants.{Fault};
ghost use Rattle.ctr_pool.specs.Pages.{PageHeld};
ghost use Rattle.ctr_pool.specs.Below.{PutsPage, HoldsStill, IsFound};

use crate::Lsn;
use ctr_disk::StoreFault;
use ctr_rec::PageNo;

/// Pages below a pool. Each is held as an LSN and a body of 4,096 bytes.
pub trait Backing {
    /// Whether it tells what it holds. One over real files doesn't.
    ghost tells: { Bool };

    /// What it holds of a page.
    ghost held: { Self → ℕ → PageHeld };

    /// What may be saved of a page, all of whose changes from an LSN on are in it.
    ghost may_be_saved: { Self → ℕ → ℕ → PageHeld → Type 0 };

    /// Nothing is pending.
    ghost rests: { Self → Type 0 };

    /// What holds at each moment of a change from one state to another, however it ends.
    ghost leaves_between: { Self → Self → Type 0 };

    /// How it may change by calls that were answered Ok.
    ghost may_change: { Self → Self → Type 0 };

    /// What each call keeps, however it ends, told or not: as room that was taken.
    ghost keeps: { Self → Self → Type 0 };

    /// What an error says of the change at whose end it came.
    ghost fails: { Self → Self → Wrong → Type 0 };

    /// What a load found of a page, at whose end this is what is below: that it is well, or what is wrong with it.
    ghost finds: { Self → ℕ → Result ⊤ Wrong → Type 0 };

    ghost faults_of: { Self → ℕ };

    /// Reads a page, and answers its LSN. Nothing that is held changes.
    fn load(&mut self, page: PageNo, into: &mut [u8]) -> Result<Lsn, StoreFault>
        requires { length into.old ≡ 4096 }
        ensures loaded { IsTrue tells → IfOk result (λ lsn. held self.old page ≡ record { lsn = lsn; body = into.new }) }
        ensures keeps { keeps self.old self.new }
        ensures same { IsTrue tells → OnOk result (HoldsStill held may_be_saved self.old self.new) }
        ensures goes { IsTrue tells → rests self.old → leaves_between self.old self.new }
        ensures moves { IsTrue tells → rests self.old → OnOk result (may_change self.old self.new × rests self.new) }
        ensures fails { IsTrue tells → rests self.old → IfErr result (fails self.old self.new) }
        ensures finds { IsTrue tells → rests self.old → IsFound (finds self.new page) result }
        ensures faults { HasFault Fault (faults_of self.old) (faults_of self.new) result };

    /// Writes a page. The others stay.
    fn save(&mut self, page: PageNo, lsn: Lsn, body: &[u8]) -> Result<(), StoreFault>
        requires whole { length body.now ≡ 4096 }
        requires takes { IsTrue tells → rests self.old × (since : ℕ) × may_be_saved self.old page since (record { lsn = lsn; body = body.now }) }
        ensures keeps { keeps self.old self.new }
        ensures saved { IsTrue tells → OnOk result (PutsPage held may_be_saved page (record { lsn = lsn; body = body.now }) self.old self.new) }
        ensures goes { IsTrue tells → leaves_between self.old self.new }
        ensures moves { IsTrue tells → OnOk result (may_change self.old self.new × rests self.new) }
        ensures fails { IsTrue tells → IfErr result (fails self.old self.new) }
        ensures fault { OnErr result (result ≡ Err Fault) }
        ensures faults { HasFault Fault (faults_of self.old) (faults_of self.new) result };

    /// How many calls have failed. It never falls, and stands still at the last value of its type.
    fn faults(&self) -> u64
        ensures { result ≡ faults_of self.now };

    ghost stays: { (b : Self) → IsTrue tells → rests b → leaves_between b b };

    ghost kept: { (b : Self) → keeps b b };

    ghost kept_on: { (a b c : Self) → keeps a b → keeps b c → keeps a c };

    ghost stands: { (b : Self) → may_change b b };

    ghost joined: { (a b c : Self) → may_change a b → leaves_between a b → leaves_between b c → leaves_between a c };

    ghost moved: { (a b c : Self) → may_change a b → may_change b c → may_change a c };

    ghost failed: { (a b c : Self) (e : Wrong) → may_change a b → fails b c e → fails a c e };
}
