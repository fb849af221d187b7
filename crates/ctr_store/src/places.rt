// Where the homes of pages begin.
ghost use Rattle.std.specs.Prelude.{◌≡◌, ◌<◌, ◌^◌, true, IsTrue, Err, IfOk, OnOk, OnErr, IfErr};
ghost use Rattle.ctr_types.specs.Faults.{HasFault};
ghost use Rattle.ctr_disk.specs.Device.{WhereTold, OnlyReads, CountsAs};
ghost use Rattle.ctr_disk.specs.declared.fault.StoreFault.TheVariants.{Fault};
ghost use Rattle.ctr_base.specs.pool_Frames.{has_page};
ghost use Rattle.ctr_base.specs.pool_Over.{IsOver};
ghost use Rattle.ctr_base.specs.Base.{IsSoundImage, LeavesIf, MovesIf, KeepsBase, backing_of};
ghost use Rattle.ctr_store.specs.Parts.{IsFold, home_at};

use crate::parts::Parts;
use ctr_base::{Block, Home, Origin};
use ctr_disk::{Disk, StoreFault};
use ctr_rec::PageNo;

impl<D: Disk, O: Origin> Parts<D, O> {
    // Where the home begins whose value a page is that a frame has.
    fn home_of(&mut self, page: PageNo) -> Result<u64, StoreFault>
        requires over { IsTrue D.tells → IsOver (backing_of O.first D.Disk) self.old.pool.frames self.old.base }
        requires there { has_page page self.old.pool.frames ≡ true }
        ensures place { WhereTold D.Disk (IfOk result (λ at. at ≡ home_at D.Disk page self.old)) }
        ensures low { IfOk result (λ at. at < 2 ^ 46) }
        ensures same { self.new ≡ record self.old { base = record self.old.base { disk = self.new.base.disk } } }
        ensures read { OnlyReads D.Disk self.old.base.disk self.new.base.disk }
        ensures refused { OnErr result (result ≡ Err Fault) }
        ensures counts { CountsAs D.Disk Fault self.old.base.disk self.new.base.disk result }
    {
        let first = Block::Page(page).at(Home::First);
        if page >= self.base.root.pages {
            return Ok(first);
        }
        let (home, stamp) = self.base.find_value(page)?;
        // a page that was changed has an LSN above that of its home
        if self.pool.lsn(page) != stamp {
            return Ok(first);
        }
        Ok(home)
    }

    /// The same of any page. It is brought into a frame.
    pub(crate) fn place_of(&mut self, page: PageNo) -> Result<u64, StoreFault>
        requires { IsTrue D.tells → IsFold O.first D.Disk self.old }
        ensures place { WhereTold D.Disk (IfOk result (λ at. at ≡ home_at D.Disk page self.new)) }
        ensures low { IfOk result (λ at. at < 2 ^ 46) }
        ensures keeps { KeepsBase D.Disk self.old.base self.new.base × (self.new.meta ≡ self.old.meta) }
        ensures goes { WhereTold D.Disk (LeavesIf O.first D.Disk self.old.base self.new.base) }
        ensures fold { WhereTold D.Disk (OnOk result (IsFold O.first D.Disk self.new × MovesIf O.first D.Disk self.old.base self.new.base)) }
        ensures refused { WhereTold D.Disk (IfErr result (λ e. IsSoundImage O.first → e ≡ Fault)) }
        ensures faults { HasFault Fault (D.faults_of self.old.base.disk) (D.faults_of self.new.base.disk) result }
    {
        self.bring(page)?;
        let home = self.home_of(page)?;
        Ok(home)
    }
}
