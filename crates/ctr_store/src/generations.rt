// Two generations of the log, under the pages and tables of a store.
ghost use Rattle.std.specs.Prelude.{◌≡◌, ◌≤◌, ◌↔◌, ◌^◌, ◌++◌, ◌-◌, [], ◌∷◌, IsTrue, Err, length, drop, OnOk, OnErr};
ghost use Rattle.ctr_disk.specs.declared.fault.StoreFault.TheVariants.{Fault};
ghost use Rattle.ctr_disk.specs.Device.{WhereTold, CountsAs};
ghost use Rattle.ctr_base.specs.log_Kept.{CanBegin, IsStarted, KeepsWriter};
ghost use Rattle.ctr_rec.specs.Read.{record_in};
ghost use Rattle.ctr_base.specs.Base.{WhereSound, IsSoundImage, stored_of, LeavesIf};
ghost use Rattle.ctr_base.specs.Generations.{KeepsFold, NamesNewer};
ghost use Rattle.ctr_store.specs.Parts.{IsFold};
ghost use Rattle.ctr_store.specs.Checkpoints.{SpellsTables};
ghost use Rattle.ctr_store.specs.Generations.{CanDrop};

use crate::parts::Parts;
use ctr_base::Origin;
use ctr_disk::{Disk, StoreFault};

impl<D: Disk, O: Origin> Parts<D, O> {
    /// Begins a generation of the log with the Checkpoint of the tables, where nothing waits.
    pub fn begin_generation(&mut self, checkpoint: &[u8]) -> Result<(), StoreFault>
        requires fold { IsTrue D.tells → IsFold O.first D.Disk self.old }
        requires can { CanBegin (length checkpoint.now) self.old.base.log }
        requires spelled { SpellsTables self.old.meta.tables checkpoint.now }
        ensures goes { WhereTold D.Disk (LeavesIf O.first D.Disk self.old.base self.new.base) }
        ensures switches { WhereTold D.Disk (OnOk result ((IsSoundImage O.first → KeepsFold D.Disk self.old.base self.new.base) × IsFold O.first D.Disk self.new)) }
        ensures records { WhereSound O.first D.Disk (OnOk result ((stored_of D.Disk self.new.base).records ≡ (stored_of D.Disk self.old.base).records ++ record_in checkpoint.now ∷ [])) }
        ensures started { OnOk result (IsStarted self.old.base.log self.new.base.log) }
        ensures keeps { KeepsWriter (length checkpoint.now) self.old.base.log self.new.base.log result × (self.new.base.root ≡ self.old.base.root) × (self.new.pool ≡ self.old.pool) × (self.new.meta ≡ self.old.meta) }
        ensures refused { OnErr result (result ≡ Err Fault) }
        ensures counts { CountsAs D.Disk Fault self.old.base.disk self.new.base.disk result }
    {
        self.base.begin_generation(checkpoint)?;
        Ok(())
    }

    /// Whether an older generation is kept that can go: no page has been changed since before the current one that isn't
    /// home.
    pub fn can_drop(&self) -> bool
        ensures { IsTrue result ↔ CanDrop self.now }
    {
        if !self.base.log.keeps_older() {
            return false;
        }
        let Some(since) = self.pool.oldest_dirty() else {
            return true;
        };
        since >= self.base.log.start()
    }

    /// Drops the older generation, which can go.
    pub fn drop_older(&mut self) -> Result<(), StoreFault>
        requires fold { IsTrue D.tells → IsFold O.first D.Disk self.old }
        requires can { CanDrop self.old }
        requires high { self.old.base.log.first ≤ 2 ^ 63 }
        ensures goes { WhereTold D.Disk (LeavesIf O.first D.Disk self.old.base self.new.base) }
        ensures switches { WhereTold D.Disk (OnOk result ((IsSoundImage O.first → KeepsFold D.Disk self.old.base self.new.base) × IsFold O.first D.Disk self.new)) }
        ensures records { WhereSound O.first D.Disk (OnOk result ((stored_of D.Disk self.new.base).records ≡ drop (self.old.base.log.start - self.old.base.root.first) (stored_of D.Disk self.old.base).records)) }
        ensures names { NamesNewer self.old.base self.new.base result × (self.new.pool ≡ self.old.pool) × (self.new.meta ≡ self.old.meta) }
        ensures refused { OnErr result (result ≡ Err Fault) }
        ensures counts { CountsAs D.Disk Fault self.old.base.disk self.new.base.disk result }
    {
        self.base.drop_older()?;
        Ok(())
    }
}
