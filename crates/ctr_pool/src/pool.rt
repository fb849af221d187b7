// Pages in frames, over a backing.
ghost use Rattle.std.specs.Prelude.{◌≡◌, ◌==◌, ◌≤◌, ◌<◌, ◌+◌, ◌-◌, ℕ, [], Some, None, true, false, length, is_some, if◌then◌else◌, IsTrue, Ok, Err, IfOk, IfErr, IfSome, IfNone, OnOk, OnErr};
ghost use Rattle.std.specs.Option.{option_map};
ghost use Rattle.ctr_pool.specs.declared.frame.Frame.{Frame as Framed};
ghost use Rattle.ctr_pool.specs.Frames.{frame_of, has_page, since_in, after_change, IsOldest, AreClean, dirty_count};
ghost use Rattle.ctr_pool.specs.Below.{IsFound};
ghost use Rattle.ctr_pool.specs.Over.{unchanged, IsOver, StaysOver, WorksBelow, SavesForRoom, AddsPage, BringsIn, SavesOldest};
ghost use Rattle.ctr_disk.specs.declared.fault.StoreFault.TheVariants.{Fault};

use crate::ages::Ages;
use crate::frames::Frames;
use crate::{Backing, Body, Lsn};
use ctr_disk::StoreFault;
use ctr_rec::{OutOfMemory, Overlay, PageNo};
use std::alloc::Global;
use std::marker::Model;

/// Pages in frames. A page is what its backing holds, with the changes since. All memory is taken when the pool
/// is made.
#[derive(Drop)]
pub struct Pool {
    frames: Frames,
    ages: Ages,
    // the page that gave way last
    hand: PageNo,
}

impl Model for Pool {
    ghost use Rattle.ctr_pool.specs.Over.{Pooled};

    ghost Value = { Pooled };

    ghost use Rattle.ctr_pool.specs.Inside.{pooled_in, IsPool};

    ghost view = { pooled_in };

    ghost invariant = { IsPool };
}

impl Pool {
    /// A pool of so many frames, 8 to 4,096, without a page.
    pub fn new(alloc: Global, frames: usize) -> Result<Pool, OutOfMemory>
        requires { (8 ≤ frames) × (frames ≤ 4096) }
        ensures { IfOk result (λ p. (p.frames ≡ []) × (p.most ≡ frames)) }
    {
        let list = Frames::new(alloc, frames)?;
        let ages = Ages::new(alloc, frames)?;
        Ok(Pool {
            frames: list,
            ages,
            hand: 0,
        })
    }

    /// How many frames there may be that have no change to be saved.
    pub fn unchanged(&self) -> usize
        ensures number { result ≡ unchanged self.now }
        ensures at_most { length self.now.frames ≤ self.now.most }
    {
        self.frames.most() - self.ages.len()
    }

    /// The least LSN of a first change that isn't saved.
    pub fn oldest_dirty(&self) -> Option<Lsn>
        ensures oldest { IfSome result (λ s. (p : ℕ) × IsOldest p s self.now.frames) }
        ensures none { IfNone result (AreClean self.now.frames) }
    {
        let Some((_, since)) = self.ages.first() else {
            return None;
        };
        Some(since)
    }

    // Saves the page that is changed the longest.
    fn save_first<B: Backing>(&mut self, backing: &mut B) -> Result<Option<PageNo>, StoreFault>
        requires over { IsTrue B.tells → IsOver B.Backing self.old.frames backing.old }
        ensures stays { IsTrue B.tells → OnOk result (StaysOver B.Backing self.old.frames backing.old self.new.frames backing.new) }
        ensures saves { IfOk result (λ o. SavesOldest self.old self.new (is_some o)) }
        ensures page { IfOk result (λ o. IfSome o (λ p. (has_page p self.new.frames ≡ true) × (since_in p self.new.frames ≡ None))) }
        ensures none { IfOk result (λ o. IfNone o (dirty_count self.old.frames ≡ 0)) }
        ensures same { ((q : ℕ) → has_page q self.new.frames ≡ has_page q self.old.frames) × (length self.new.frames ≡ length self.old.frames) × (self.new.most ≡ self.old.most) }
        ensures failed { IfErr result (λ e. (self.new ≡ self.old) × (e ≡ Fault)) }
        ensures works { WorksBelow B.Backing backing.old backing.new result }
    {
        let Some((page, _)) = self.ages.first() else {
            return Ok(None);
        };
        self.frames.save(page, backing)?;
        self.frames.settle(page);
        self.ages.take_first();
        Ok(Some(page))
    }

    /// Saves the page that is changed the longest, or answers that there is none.
    pub fn write_one<B: Backing>(&mut self, backing: &mut B) -> Result<bool, StoreFault>
        requires over { IsTrue B.tells → IsOver B.Backing self.old.frames backing.old }
        ensures stays { IsTrue B.tells → OnOk result (StaysOver B.Backing self.old.frames backing.old self.new.frames backing.new) }
        ensures saves { IfOk result (λ wrote. SavesOldest self.old self.new wrote) }
        ensures failed { IfErr result (λ e. self.new ≡ self.old) }
        ensures works { WorksBelow B.Backing backing.old backing.new result }
    {
        let saved = self.save_first(backing)?;
        Ok(saved.is_some())
    }

    // A page with nothing to save, where all frames have one.
    fn find_clean<B: Backing>(&mut self, backing: &mut B) -> Result<PageNo, StoreFault>
        requires over { IsTrue B.tells → IsOver B.Backing self.old.frames backing.old }
        requires full { length self.old.frames ≡ self.old.most }
        ensures stays { IsTrue B.tells → OnOk result (StaysOver B.Backing self.old.frames backing.old self.new.frames backing.new) }
        ensures clean { IfOk result (λ p. (has_page p self.new.frames ≡ true) × (since_in p self.new.frames ≡ None)) }
        ensures saves { OnOk result (SavesForRoom self.old self.new) }
        ensures same { ((q : ℕ) → has_page q self.new.frames ≡ has_page q self.old.frames) × (length self.new.frames ≡ length self.old.frames) × (self.new.most ≡ self.old.most) }
        ensures fault { OnErr result (result ≡ Err Fault) }
        ensures works { WorksBelow B.Backing backing.old backing.new result }
    {
        if let Some(page) = self.frames.clean_behind(self.hand) {
            return Ok(page);
        }
        let Some(page) = self.save_first(backing)? else {
            unreachable!();
        };
        Ok(page)
    }

    // A page's frame has no page any more.
    fn give_up(&mut self, page: PageNo)
        requires there { has_page page self.old.frames ≡ true }
        requires clean { since_in page self.old.frames ≡ None }
        ensures frames { (q : ℕ) → frame_of q self.new.frames ≡ (if page == q then None else frame_of q self.old.frames) }
        ensures len { length self.new.frames + 1 ≡ length self.old.frames }
        ensures most { self.new.most ≡ self.old.most }
    {
        self.hand = page;
        self.frames.remove(page);
    }

    // There is a frame without a page.
    fn make_room<B: Backing>(&mut self, backing: &mut B) -> Result<(), StoreFault>
        requires over { IsTrue B.tells → IsOver B.Backing self.old.frames backing.old }
        ensures stays { IsTrue B.tells → OnOk result (StaysOver B.Backing self.old.frames backing.old self.new.frames backing.new) }
        ensures room { OnOk result (length self.new.frames < self.new.most) }
        ensures fewer { (q : ℕ) → has_page q self.old.frames ≡ false → has_page q self.new.frames ≡ false }
        ensures saves { OnOk result (SavesForRoom self.old self.new) }
        ensures most { self.new.most ≡ self.old.most }
        ensures fault { OnErr result (result ≡ Err Fault) }
        ensures works { WorksBelow B.Backing backing.old backing.new result }
    {
        if !self.frames.is_full() {
            return Ok(());
        }
        let page = self.find_clean(backing)?;
        self.give_up(page);
        Ok(())
    }

    // Loads a page that no frame has.
    fn load<B: Backing>(&mut self, page: PageNo, backing: &mut B) -> Result<(), StoreFault>
        requires over { IsTrue B.tells → IsOver B.Backing self.old.frames backing.old }
        requires new { has_page page self.old.frames ≡ false }
        requires room { length self.old.frames < self.old.most }
        ensures stays { IsTrue B.tells → OnOk result (StaysOver B.Backing self.old.frames backing.old self.new.frames backing.new) }
        ensures adds { OnOk result (AddsPage page self.old.frames self.new.frames) }
        ensures finds { IsTrue B.tells → IsFound (B.finds backing.new page) result }
        ensures kept { (q : ℕ) → since_in q self.new.frames ≡ since_in q self.old.frames }
        ensures most { self.new.most ≡ self.old.most }
        ensures works { WorksBelow B.Backing backing.old backing.new result }
    {
        let mut body = Body::new();
        let lsn = body.load(page, backing)?;
        self.frames.add(page, lsn, body);
        Ok(())
    }

    /// Brings a page into a frame, where none has it. A page gives way that has nothing to save; if there is
    /// none, the one that is changed the longest is saved, and gives way.
    pub fn bring<B: Backing>(&mut self, page: PageNo, backing: &mut B) -> Result<(), StoreFault>
        requires over { IsTrue B.tells → IsOver B.Backing self.old.frames backing.old }
        ensures stays { IsTrue B.tells → OnOk result (StaysOver B.Backing self.old.frames backing.old self.new.frames backing.new) }
        ensures brings { OnOk result (BringsIn page self.old self.new) }
        ensures quiet { has_page page self.old.frames ≡ true → (backing.new ≡ backing.old) × (result ≡ Ok tt) }
        ensures finds { IsTrue B.tells → has_page page self.old.frames ≡ false → IsFound (B.finds backing.new page) result }
        ensures most { self.new.most ≡ self.old.most }
        ensures works { WorksBelow B.Backing backing.old backing.new result }
    {
        if self.frames.has(page) {
            return Ok(());
        }
        self.make_room(backing)?;
        self.load(page, backing)
    }

    /// The bytes of a page that a frame has.
    pub fn bytes(&self, page: PageNo) -> &[u8]
        ensures shown { (f : Framed) → frame_of page self.now.frames ≡ Some f → result.now ≡ f.body }
        ensures whole { has_page page self.now.frames ≡ true → length result.now ≡ 4096 }
    {
        self.frames.body(page)
    }

    /// The LSN of the last record in a page that a frame has.
    pub fn lsn(&self, page: PageNo) -> Lsn
        ensures { (f : Framed) → frame_of page self.now.frames ≡ Some f → result ≡ f.lsn }
    {
        self.frames.lsn(page)
    }

    /// Changes a page that a frame has, at an LSN above that of its last change. It isn't saved yet.
    pub fn change(&mut self, page: PageNo, overlay: &Overlay, lsn: Lsn)
        requires there { has_page page self.old.frames ≡ true }
        requires inside { overlay.now.offset + length overlay.now.bytes ≤ 4096 }
        ensures frames { (q : ℕ) → frame_of q self.new.frames ≡ (if page == q then option_map (after_change overlay.now lsn) (frame_of q self.old.frames) else frame_of q self.old.frames) }
        ensures most { self.new.most ≡ self.old.most }
    {
        let new = self.frames.since(page).is_none();
        self.frames.change(page, overlay, lsn);
        if new {
            self.ages.add(page, lsn);
        }
    }
}
