// Opening: pages and tables are brought forward by the log's records. A page may go home on the way.
ghost use Rattle.ctr_disk.specs.Device.{WhereTold};
ghost use Rattle.std.specs.Prelude.{◌≡◌, ◌≤◌, ◌<◌, ◌+◌, IsTrue, ℕ, Some, length, IfErr, OnOk, MatchResult};
ghost use Rattle.ctr_types.specs.Faults.{HasFault};
ghost use Rattle.ctr_disk.specs.declared.fault.StoreFault.TheVariants.{Fault};
ghost use Rattle.ctr_rec.specs.declared.record.Record.{Record as Logged};
ghost use Rattle.ctr_base.specs.meta_Tables.{Tables};
ghost use Rattle.ctr_rec.specs.Records.{IsRecord};
ghost use Rattle.ctr_rec.specs.Spelling.{record_bytes};
ghost use Rattle.ctr_store.specs.RecordChecks.{PassesAs, AllPass};
ghost use Rattle.ctr_base.specs.pool_Over.{IsOver};
ghost use Rattle.ctr_base.specs.redo_Overlaid.{overlay_of};
ghost use Rattle.ctr_base.specs.declared.base.Base.{Base as Under};
ghost use Rattle.ctr_base.specs.Base.{stored_of, IsSoundImage, LeavesIf, MovesIf, KeepsBase, backing_of};
ghost use Rattle.ctr_base.specs.redo_States.{next_of};
ghost use Rattle.ctr_base.specs.ctr_home.Reading.{IsFaultOr};
ghost use Rattle.ctr_store.specs.PageChecks.{PageFails, PagesPass, FirstPageFails};
ghost use Rattle.ctr_store.specs.Parts.{IsFold, AreLow};
ghost use Rattle.ctr_store.specs.Redo.{RedoesPages, IsNextRecord, Begins};

use crate::parts::Parts;
use crate::spelling::overlay_of;
use ctr_base::{Lsn, Origin, Visit};
use ctr_disk::{Disk, StoreFault};
use ctr_rec::{Overlay, decode};

impl<D: Disk, O: Origin> Parts<D, O> {
    // Lays an overlay over its page, where the page lacks the overlay's record.
    fn redo_page(&mut self, overlay: &Overlay, lsn: Lsn) -> Result<(), StoreFault>
        requires over { IsTrue D.tells → IsOver (backing_of O.first D.Disk) self.old.pool.frames self.old.base }
        requires inside { overlay.now.offset + length overlay.now.bytes ≤ 4096 }
        ensures goes { WhereTold D.Disk (LeavesIf O.first D.Disk self.old.base self.new.base) }
        ensures redone { (start : Under D O) (n : ℕ) (r : Logged) → IsTrue D.tells → RedoesPages O.first D.Disk start n self.old → IsNextRecord D.Disk start n r → overlay_of r ≡ Some overlay.now → lsn ≡ start.root.first + n
            → OnOk result (RedoesPages O.first D.Disk start (n + 1) self.new) }
        ensures fails { (start : Under D O) (n : ℕ) (r : Logged) → IsTrue D.tells → RedoesPages O.first D.Disk start n self.old → IsNextRecord D.Disk start n r → overlay_of r ≡ Some overlay.now
            → IfErr result (IsFaultOr (PageFails (next_of (stored_of D.Disk start)) O.first (overlay_of r))) }
        ensures keeps { KeepsBase D.Disk self.old.base self.new.base × (self.new.meta ≡ self.old.meta) }
        ensures refused { WhereTold D.Disk ((IsSoundImage O.first → AreLow D.Disk self.old) → IfErr result (λ e. IsSoundImage O.first → e ≡ Fault)) }
        ensures faults { HasFault Fault (D.faults_of self.old.base.disk) (D.faults_of self.new.base.disk) result }
    {
        self.bring(overlay.page)?;
        if lsn <= self.pool.lsn(overlay.page) {
            return Ok(());
        }
        self.pool.change(overlay.page, overlay, lsn);
        Ok(())
    }

    // Lays the overlay of a record over its page, where the page lacks it.
    fn redo_visit(&mut self, visit: &Visit) -> Result<(), StoreFault>
        requires over { IsTrue D.tells → IsOver (backing_of O.first D.Disk) self.old.pool.frames self.old.base }
        requires passed { (pages : ℕ) × (t : Tables) × (r : Logged) × PassesAs pages visit.now.at t visit.now.bytes r }
        ensures goes { WhereTold D.Disk (LeavesIf O.first D.Disk self.old.base self.new.base) }
        ensures redone { (start : Under D O) (n : ℕ) (r : Logged) → IsTrue D.tells → RedoesPages O.first D.Disk start n self.old → IsNextRecord D.Disk start n r → IsRecord r → record_bytes r ≡ visit.now.bytes → visit.now.lsn ≡ start.root.first + n
            → OnOk result (RedoesPages O.first D.Disk start (n + 1) self.new) }
        ensures fails { (start : Under D O) (n : ℕ) (r : Logged) → IsTrue D.tells → RedoesPages O.first D.Disk start n self.old → IsNextRecord D.Disk start n r → IsRecord r → record_bytes r ≡ visit.now.bytes
            → IfErr result (IsFaultOr (PageFails (next_of (stored_of D.Disk start)) O.first (overlay_of r))) }
        ensures keeps { KeepsBase D.Disk self.old.base self.new.base × (self.new.meta ≡ self.old.meta) }
        ensures refused { WhereTold D.Disk ((IsSoundImage O.first → AreLow D.Disk self.old) → IfErr result (λ e. IsSoundImage O.first → e ≡ Fault)) }
        ensures faults { HasFault Fault (D.faults_of self.old.base.disk) (D.faults_of self.new.base.disk) result }
    {
        let Ok(rec) = decode(visit.bytes.as_slice()) else {
            unreachable!();
        };
        let Some(overlay) = overlay_of(&rec) else {
            return Ok(());
        };
        self.redo_page(&overlay, visit.lsn)?;
        Ok(())
    }

    /// Brings the pages forward by the records of the log, in order, each page where it lacks one.
    pub fn redo(&mut self, visits: &[Visit]) -> Result<(), StoreFault>
        requires begins { IsTrue D.tells → Begins O.first D.Disk visits.now self.old }
        requires passed { (pages : ℕ) × AllPass pages visits.now }
        ensures goes { WhereTold D.Disk (LeavesIf O.first D.Disk self.old.base self.new.base) }
        ensures fold { WhereTold D.Disk (OnOk result (IsFold O.first D.Disk self.new × MovesIf O.first D.Disk self.old.base self.new.base)) }
        ensures pages { WhereTold D.Disk (MatchResult result (λ _. PagesPass (next_of (stored_of D.Disk self.old.base)) O.first (stored_of D.Disk self.old.base).records)
            (IsFaultOr (FirstPageFails (next_of (stored_of D.Disk self.old.base)) O.first (stored_of D.Disk self.old.base).records))) }
        ensures keeps { KeepsBase D.Disk self.old.base self.new.base × (self.new.meta ≡ self.old.meta) }
        ensures refused { WhereTold D.Disk (IfErr result (λ e. IsSoundImage O.first → e ≡ Fault)) }
        ensures faults { HasFault Fault (D.faults_of self.old.base.disk) (D.faults_of self.new.base.disk) result }
    {
        let mut i = 0;
        while i < visits.len() {
            self.redo_visit(&visits[i])?;
            i += 1;
        }
        Ok(())
    }
}
