// Counting more pages: their homes are cleared first.
ghost use Rattle.std.specs.Prelude.{◌≡◌, ◌≤◌, ◌<◌, ◌*◌, IsTrue, Err, length, OnOk, OnErr};
ghost use Rattle.ctr_disk.specs.declared.fault.StoreFault.TheVariants.{Fault};
ghost use Rattle.ctr_disk.specs.Device.{WhereTold, LeavesOnly, IsDurable, IsSettled, CountsAs};
ghost use Rattle.ctr_redo.specs.home_Block_TheVariants.{Root as RootBlock};
ghost use Rattle.ctr_redo.specs.home_Blocks.{value_of};
ghost use Rattle.ctr_redo.specs.home_Writing.{IsAbove};
ghost use Rattle.ctr_redo.specs.States.{grown, state_of};
ghost use Rattle.ctr_base.specs.Base.{WhereSound, now_of, StandsQuiet};
ghost use Rattle.ctr_base.specs.declared.growing.TheConstants.{MOST_PAGES};
ghost use Rattle.ctr_base.specs.Growth.{IsGrowing, HasGrown, LeavesGrown, GrowsOver, CountsMore, AreBlank};

use crate::base::Base;
use crate::extent::clear_pages;
use crate::origin::Origin;
use ctr_disk::{Disk, StoreFault};
use ctr_redo::{Root, write_root};

/// How many pages are counted more at a time, and at least.
pub const EXTENT: u32 = 64;

/// How many pages are counted at most.
pub const MOST_PAGES: u32 = 30_000;

// Clears the homes of the pages from one on that a root counts, and writes that root.
fn count_pages<D: Disk>(disk: &mut D, from: u32, more: &Root) -> Result<(), StoreFault>
    requires order { from ≤ more.now.pages }
    requires low { more.now.pages ≤ MOST_PAGES }
    requires long { IsTrue D.tells → 8256 * from ≤ length (D.reads disk.old).pages }
    requires above { IsTrue D.tells → IsAbove more.now.stamp (value_of RootBlock (D.reads disk.old)) }
    ensures any_moment { IsSettled D.Disk disk.old → LeavesOnly D.Disk disk.old disk.new (IsGrowing from more.now (D.reads disk.old)) }
    ensures grown { WhereTold D.Disk (OnOk result (HasGrown from more.now (D.reads disk.old) (D.reads disk.new))) }
    ensures durable { OnOk result (IsDurable D.Disk disk.new) }
    ensures refused { OnErr result (result ≡ Err Fault) }
    ensures counts { CountsAs D.Disk Fault disk.old disk.new result }
{
    clear_pages(disk, from, more.pages)?;
    write_root(disk, more)
}

impl<D: Disk, O: Origin> Base<D, O> {
    /// Counts 64 pages more, or as many as there may be, which have nothing. The root is written once their zeros are
    /// durable.
    pub fn grow(&mut self) -> Result<(), StoreFault>
        requires few { self.old.root.pages < MOST_PAGES }
        requires rests { IsTrue D.tells → StandsQuiet O.first D.Disk self.old }
        ensures any_moment { WhereSound O.first D.Disk (LeavesGrown D.Disk self.old self.new) }
        ensures grows { WhereTold D.Disk (OnOk result (GrowsOver O.first D.Disk self.old self.new)) }
        ensures blank { WhereSound O.first D.Disk (AreBlank self.old.root.pages (grown self.old.root.pages) (state_of (now_of D.Disk self.old))) }
        ensures counted { CountsMore self.old self.new result }
        ensures refused { OnErr result (result ≡ Err Fault) }
        ensures counts { CountsAs D.Disk Fault self.old.disk self.new.disk result }
    {
        let mut more = self.root;
        more.stamp = more.stamp.saturating_add(1);
        more.pages = (more.pages + EXTENT).min(MOST_PAGES);
        count_pages(&mut self.disk, self.root.pages, &more)?;
        self.root = more;
        Ok(())
    }
}
