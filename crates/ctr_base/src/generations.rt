// Two generations of the log: one begins with a Checkpoint, and the older one goes once its records are home.
ghost use Rattle.std.specs.Prelude.{◌≡◌, ◌≤◌, ◌<◌, ◌^◌, ◌++◌, ◌-◌, [], ◌∷◌, true, IsTrue, Err, length, drop, OnOk, OnErr};
ghost use Rattle.ctr_disk.specs.declared.fault.StoreFault.TheVariants.{Fault};
ghost use Rattle.ctr_disk.specs.Device.{WhereTold, LeavesOnly, IsSettled, CountsAs};
ghost use Rattle.ctr_redo.specs.home_Block_TheVariants.{Root as RootBlock};
ghost use Rattle.ctr_redo.specs.home_Roots.{root_block};
ghost use Rattle.ctr_redo.specs.home_Writing.{IsOldOrNewValue};
ghost use Rattle.ctr_redo.specs.log_Kept.{CanBegin, IsStarted, KeepsWriter, other_byte};
ghost use Rattle.ctr_redo.specs.rec_Read.{record_in};
ghost use Rattle.ctr_redo.specs.Images.{newer_root};
ghost use Rattle.ctr_base.specs.Base.{WhereSound, LeavesBase, stored_of, StandsQuiet};
ghost use Rattle.ctr_base.specs.Generations.{IsCheckpoint, SwitchesOver, OlderIsHome, NamesNewer};

use crate::base::Base;
use crate::origin::Origin;
use ctr_disk::{Disk, StoreFault};
use ctr_redo::{Root, write_root};

// The byte of a root for the file that this one doesn't name.
fn other_byte(file: u8) -> u8
    ensures { result ≡ other_byte file }
{
    if file == 0 { 1 } else { 0 }
}

// The root that names the newer generation, which begins with this number.
fn newer_root(root: &Root, start: u64) -> Root
    ensures names { result ≡ record root.now { stamp = result.stamp; file = other_byte root.now.file; first = start } }
    ensures is { root.now.stamp < 2 ^ 64 - 1 → result ≡ newer_root start root.now }
{
    Root {
        stamp: root.stamp.saturating_add(1),
        format: root.format,
        file: other_byte(root.file),
        first: start,
        pages: root.pages,
    }
}

impl<D: Disk, O: Origin> Base<D, O> {
    /// Begins a generation of the log in the other file with this Checkpoint, where nothing waits. A crash at any moment
    /// leaves what was hardened, whether the Checkpoint is found or not. It takes no memory.
    pub fn begin_generation(&mut self, checkpoint: &[u8]) -> Result<(), StoreFault>
        requires can { CanBegin (length checkpoint.now) self.old.log }
        requires rests { IsTrue D.tells → StandsQuiet O.first D.Disk self.old }
        requires is { WhereSound O.first D.Disk (IsCheckpoint D.Disk self.old checkpoint.now) }
        ensures any_moment { WhereSound O.first D.Disk (LeavesBase D.Disk self.old self.new) }
        ensures switches { WhereTold D.Disk (OnOk result (SwitchesOver O.first D.Disk self.old self.new)) }
        ensures records { WhereSound O.first D.Disk (OnOk result ((stored_of D.Disk self.new).records ≡ (stored_of D.Disk self.old).records ++ record_in checkpoint.now ∷ [])) }
        ensures started { OnOk result (IsStarted self.old.log self.new.log) }
        ensures keeps { KeepsWriter (length checkpoint.now) self.old.log self.new.log result × (self.new.root ≡ self.old.root) }
        ensures refused { OnErr result (result ≡ Err Fault) }
        ensures counts { CountsAs D.Disk Fault self.old.disk self.new.disk result }
    {
        self.log.begin_generation(&mut self.disk, checkpoint)?;
        self.durable = self.log.next();
        Ok(())
    }

    /// Drops the older generation, by one writing of the root, where its records are home. A crash at any moment leaves what
    /// was hardened, whether the older one is kept or not. It takes no memory.
    pub fn drop_older(&mut self) -> Result<(), StoreFault>
        requires two { self.old.log.older ≡ true }
        requires high { self.old.log.first ≤ 2 ^ 63 }
        requires rests { IsTrue D.tells → StandsQuiet O.first D.Disk self.old }
        requires home { WhereSound O.first D.Disk (OlderIsHome D.Disk self.old) }
        ensures any_moment { WhereSound O.first D.Disk (LeavesBase D.Disk self.old self.new) }
        ensures switches { WhereTold D.Disk (OnOk result (SwitchesOver O.first D.Disk self.old self.new)) }
        ensures records { WhereSound O.first D.Disk (OnOk result ((stored_of D.Disk self.new).records ≡ drop (self.old.log.start - self.old.root.first) (stored_of D.Disk self.old).records)) }
        // It writes the root, once, and nothing else.
        ensures once { IsSettled D.Disk self.old.disk → LeavesOnly D.Disk self.old.disk self.new.disk (IsOldOrNewValue RootBlock (root_block (newer_root self.old.log.start self.old.root)) (D.reads self.old.disk)) }
        ensures names { NamesNewer self.old self.new result }
        ensures refused { OnErr result (result ≡ Err Fault) }
        ensures counts { CountsAs D.Disk Fault self.old.disk self.new.disk result }
    {
        let newer = newer_root(&self.root, self.log.start());
        write_root(&mut self.disk, &newer)?;
        self.root = newer;
        self.log.forget_older();
        Ok(())
    }
}
