// The parts of a store. Each call is one statement on what a crash leaves, and one on what it answers.
ghost use Rattle.std.specs.Prelude.{◌≡◌, ◌<◌, ◌+◌, true, false, IsTrue, [], Ok, Err, None, Some, length, IfOk, OnOk, OnErr, IfErr, MatchResult};
ghost use Rattle.ctr_types.specs.Faults.{HasFault};
ghost use Rattle.ctr_disk.specs.declared.fault.StoreFault.TheVariants.{Fault};
ghost use Rattle.ctr_base.specs.redo_Overlaid.{overlay_of};
ghost use Rattle.ctr_base.specs.pool_Frame.{Frame as Framed};
ghost use Rattle.ctr_base.specs.pool_Frames.{has_page, frame_of, after_change};
ghost use Rattle.ctr_base.specs.redo_States.{page_limit, page_at, state_of, grown};
ghost use Rattle.ctr_base.specs.declared.growing.TheConstants.{MOST_PAGES};
ghost use Rattle.ctr_base.specs.Growth.{LeavesGrown, GrowsBase, CountsMore, AreBlank};
ghost use Rattle.ctr_base.specs.Base.{WhereSound, now_of, IsSoundImage, LeavesIf, MovesIf, KeepsBase, backing_of};
ghost use Rattle.ctr_base.specs.pool_Over.{IsOver, SavesOldest};
ghost use Rattle.ctr_disk.specs.Device.{WhereTold, OnlyReads, CountsAs};
ghost use Rattle.ctr_base.specs.log_Logs.{next_place};
ghost use Rattle.ctr_rec.specs.declared.decoding.BadRecord.{BadRecord};
ghost use Rattle.ctr_base.specs.meta_Kept.{IsLogged};
ghost use Rattle.ctr_base.specs.meta_Needs.{needs};
ghost use Rattle.ctr_store.specs.RecordChecks.{record_damage};
ghost use Rattle.ctr_base.specs.ctr_home.Reading.{IsFaultOr};
ghost use Rattle.ctr_store.specs.PageChecks.{IsHighFrame, FindsPage};
ghost use Rattle.ctr_store.specs.Parts.{IsFold, BringsOver, IsLowFrame, AreLow, CanLog, AddsRecord, LogsRecord, LogsRoom, Recalls};

use crate::seen::damage_at;
use crate::spelling::{append_record, overlay_of, span_of};
use ctr_base::{Base, Lsn, Meta, Origin, Pool};
use ctr_directory::Directory;
use ctr_disk::{Disk, StoreFault};
use ctr_rec::{Overlay, PageNo, Record};
use ctr_types::{Damage, File};

/// What a store is made of: the log and the homes, pages in frames over them, the tables.
#[derive(Drop)]
pub struct Parts<D, O> {
    pub base: Base<D, O>,
    pub pool: Pool,
    pub meta: Meta,
}

impl<D: Disk, O: Origin> Parts<D, O> {
    /// The disk.
    pub fn into_disk(self) -> D
        ensures { result ≡ self.base.disk }
    {
        let Parts {
            base,
            pool: _,
            meta: _,
        } = self;
        let Base {
            disk,
            log: _,
            root: _,
            durable: _,
            of: _,
        } = base;
        disk
    }

    // The page that a frame has lacks no record of the log, with those that wait.
    fn check_low(&mut self, page: PageNo) -> Result<(), StoreFault>
        requires { has_page page self.old.pool.frames ≡ true }
        ensures low { OnOk result (IsLowFrame page self.old) }
        ensures same { (self.new.pool ≡ self.old.pool) × (self.new.meta ≡ self.old.meta) }
        ensures read { OnlyReads D.Disk self.old.base.disk self.new.base.disk }
        ensures below { self.new.base ≡ record self.old.base { disk = self.new.base.disk } }
        ensures quiet { OnOk result (self.new ≡ self.old) }
        ensures refused { IfErr result (IsFaultOr (IsHighFrame D.Disk page self.old)) }
        ensures counts { CountsAs D.Disk Fault self.old.base.disk self.new.base.disk result }
    {
        let stamp = self.pool.lsn(page);
        let next = self.base.next();
        if stamp < next {
            return Ok(());
        }
        let (home, _) = self.base.find_value(page)?;
        Err(StoreFault::Damaged(Damage {
            file: File::Pages,
            at: home + 5,
            want: (next as u128).saturating_sub(1),
            got: stamp as u128,
        }))
    }

    /// Brings a page into a frame. It has no record that the log lacks, or that is damage.
    pub fn bring(&mut self, page: PageNo) -> Result<(), StoreFault>
        requires { IsTrue D.tells → IsOver (backing_of O.first D.Disk) self.old.pool.frames self.old.base }
        ensures there { OnOk result ((has_page page self.new.pool.frames ≡ true) × IsLowFrame page self.new) }
        ensures keeps { KeepsBase D.Disk self.old.base self.new.base × (self.new.meta ≡ self.old.meta) }
        ensures goes { WhereTold D.Disk (LeavesIf O.first D.Disk self.old.base self.new.base) }
        ensures stays { WhereTold D.Disk (OnOk result (BringsOver O.first D.Disk self.old self.new)) }
        ensures refused { WhereTold D.Disk ((IsSoundImage O.first → AreLow D.Disk self.old) → IfErr result (λ e. IsSoundImage O.first → e ≡ Fault)) }
        ensures finds { WhereTold D.Disk (FindsPage O.first D.Disk page self.old self.new result) }
        ensures faults { HasFault Fault (D.faults_of self.old.base.disk) (D.faults_of self.new.base.disk) result }
    {
        self.pool.bring(page, &mut self.base)?;
        self.check_low(page)?;
        Ok(())
    }

    /// The bytes of a page that a frame has.
    pub fn bytes(&self, page: PageNo) -> &[u8]
        ensures shown { WhereSound O.first D.Disk (IsFold O.first D.Disk self.now → has_page page self.now.pool.frames ≡ true → page < page_limit
            → result.now ≡ page_at page (state_of (now_of D.Disk self.now.base)).pages) }
        ensures whole { has_page page self.now.pool.frames ≡ true → length result.now ≡ 4096 }
        ensures held { (f : Framed) → frame_of page self.now.pool.frames ≡ Some f → result.now ≡ f.body }
    {
        self.pool.bytes(page)
    }

    /// Makes all records durable.
    pub fn harden(&mut self) -> Result<(), StoreFault>
        requires { IsTrue D.tells → IsFold O.first D.Disk self.old }
        ensures keeps { KeepsBase D.Disk self.old.base self.new.base × (self.new.meta ≡ self.old.meta) × (self.new.pool ≡ self.old.pool) }
        ensures goes { WhereTold D.Disk (LeavesIf O.first D.Disk self.old.base self.new.base) }
        ensures moves { WhereTold D.Disk (OnOk result (MovesIf O.first D.Disk self.old.base self.new.base)) }
        ensures none { OnOk result (self.new.base.log.buffered ≡ []) }
        ensures fold { WhereTold D.Disk (OnOk result (IsFold O.first D.Disk self.new)) }
        ensures refused { OnErr result (result ≡ Err Fault) }
        ensures faults { HasFault Fault (D.faults_of self.old.base.disk) (D.faults_of self.new.base.disk) result }
    {
        self.base.flush()?;
        Ok(())
    }

    /// Writes the page home that is changed the longest, or answers false where none is changed.
    pub fn write_one_dirty(&mut self) -> Result<bool, StoreFault>
        requires { IsTrue D.tells → IsFold O.first D.Disk self.old }
        ensures oldest { IfOk result (λ wrote. SavesOldest self.old.pool self.new.pool wrote) }
        ensures keeps { KeepsBase D.Disk self.old.base self.new.base × (self.new.meta ≡ self.old.meta) }
        ensures goes { WhereTold D.Disk (LeavesIf O.first D.Disk self.old.base self.new.base) }
        ensures moves { WhereTold D.Disk (OnOk result (MovesIf O.first D.Disk self.old.base self.new.base)) }
        ensures fold { WhereTold D.Disk (OnOk result (IsFold O.first D.Disk self.new)) }
        ensures refused { WhereTold D.Disk (IfErr result (λ e. IsSoundImage O.first → e ≡ Fault)) }
        ensures faults { HasFault Fault (D.faults_of self.old.base.disk) (D.faults_of self.new.base.disk) result }
    {
        let wrote = self.pool.write_one(&mut self.base)?;
        Ok(wrote)
    }

    /// Counts 64 pages more, or as many as there may be, which have nothing.
    pub fn grow(&mut self) -> Result<(), StoreFault>
        requires few { self.old.base.root.pages < MOST_PAGES }
        requires fold { IsTrue D.tells → IsFold O.first D.Disk self.old }
        ensures any_moment { WhereSound O.first D.Disk (LeavesGrown D.Disk self.old.base self.new.base) }
        ensures grows { WhereTold D.Disk (OnOk result (GrowsBase D.Disk self.old.base self.new.base × IsFold O.first D.Disk self.new)) }
        ensures blank { WhereSound O.first D.Disk (AreBlank self.old.base.root.pages (grown self.old.base.root.pages) (state_of (now_of D.Disk self.old.base))) }
        ensures counted { CountsMore self.old.base self.new.base result × (self.new.pool ≡ self.old.pool) × (self.new.meta ≡ self.old.meta) }
        ensures refused { OnErr result (result ≡ Err Fault) }
        ensures counts { CountsAs D.Disk Fault self.old.base.disk self.new.base.disk result }
    {
        self.base.grow()?;
        Ok(())
    }

    /// What the record needs of the tables is there; or else the damage that it would be, at the place in the log where it
    /// would stand.
    pub fn check_fits(&self, rec: &Record) -> Result<(), StoreFault>
        requires { IsLogged rec.now }
        ensures { MatchResult result (λ _. needs rec.now self.now.meta.tables ≡ Ok tt) (λ e. (bad : BadRecord) × (needs rec.now self.now.meta.tables ≡ Err bad) × (e ≡ record_damage self.now.base.log.file (next_place self.now.base.log) bad)) }
    {
        match self.meta.check(rec) {
            Ok(()) => Ok(()),
            Err(bad) => {
                let at = self.base.log.place_of_next();
                Err(damage_at(self.base.log.file(), at, bad))
            }
        }
    }

    // Adds a record that is on no page.
    fn log_off(&mut self, rec: &Record) -> Lsn
        requires can { CanLog rec.now self.old }
        requires off { overlay_of rec.now ≡ None }
        ensures number { result ≡ self.old.base.log.first + length self.old.base.log.buffered }
        ensures below { self.new.base.disk ≡ self.old.base.disk }
        ensures adds { WhereTold D.Disk (IsFold O.first D.Disk self.old → IsSoundImage O.first → AddsRecord D.Disk rec.now self.old self.new) }
        ensures fold { WhereTold D.Disk (IsFold O.first D.Disk self.old → IsFold O.first D.Disk self.new) }
        ensures room { LogsRoom D.Disk rec.now self.old self.new }
    {
        let lsn = append_record(&mut self.base.log, rec);
        self.meta.apply(rec);
        lsn
    }

    // Adds a record on a page that a frame has.
    fn log_on(&mut self, rec: &Record, overlay: &Overlay) -> Lsn
        requires can { CanLog rec.now self.old }
        requires on { overlay_of rec.now ≡ Some overlay.now }
        requires there { (has_page overlay.now.page self.old.pool.frames ≡ true) × IsLowFrame overlay.now.page self.old }
        ensures number { result ≡ self.old.base.log.first + length self.old.base.log.buffered }
        ensures below { self.new.base.disk ≡ self.old.base.disk }
        ensures adds { WhereTold D.Disk (IsFold O.first D.Disk self.old → IsSoundImage O.first → AddsRecord D.Disk rec.now self.old self.new) }
        ensures fold { WhereTold D.Disk (IsFold O.first D.Disk self.old → IsFold O.first D.Disk self.new) }
        ensures room { LogsRoom D.Disk rec.now self.old self.new }
        ensures laid { (f : Framed) → frame_of overlay.now.page self.old.pool.frames ≡ Some f → frame_of overlay.now.page self.new.pool.frames ≡ Some (after_change overlay.now result f) }
    {
        let lsn = append_record(&mut self.base.log, rec);
        self.pool.change(overlay.page, overlay, lsn);
        self.meta.apply(rec);
        lsn
    }

    // The same, and what is remembered of the page goes with it.
    fn log_remembered(&mut self, rec: &Record, overlay: &Overlay, directory: &mut Directory) -> Lsn
        requires can { CanLog rec.now self.old }
        requires on { overlay_of rec.now ≡ Some overlay.now }
        requires there { (has_page overlay.now.page self.old.pool.frames ≡ true) × IsLowFrame overlay.now.page self.old }
        ensures number { result ≡ self.old.base.log.first + length self.old.base.log.buffered }
        ensures below { self.new.base.disk ≡ self.old.base.disk }
        ensures adds { WhereTold D.Disk (IsFold O.first D.Disk self.old → IsSoundImage O.first → AddsRecord D.Disk rec.now self.old self.new) }
        ensures fold { WhereTold D.Disk (IsFold O.first D.Disk self.old → IsFold O.first D.Disk self.new) }
        ensures room { LogsRoom D.Disk rec.now self.old self.new }
        ensures exact { WhereSound O.first D.Disk (IsFold O.first D.Disk self.old → Recalls D.Disk self.old directory.old → Recalls D.Disk self.new directory.new) }
    {
        let counted = self.base.root.pages;
        let span = span_of(overlay);
        let mut before = [0; 4096];
        before.copy_from_slice(self.bytes(overlay.page));
        let lsn = self.log_on(rec, overlay);
        let after = self.bytes(overlay.page);
        directory.changed(overlay.page, span, counted, &before, after);
        lsn
    }

    /// Adds a record that can be logged, and answers its number. It waits in the log's buffer. What is remembered of the
    /// places of keys goes with it.
    pub fn log(&mut self, rec: &Record, directory: &mut Directory) -> Result<Lsn, StoreFault>
        requires fold { IsTrue D.tells → IsFold O.first D.Disk self.old }
        requires can { CanLog rec.now self.old }
        ensures goes { WhereTold D.Disk (LeavesIf O.first D.Disk self.old.base self.new.base) }
        ensures logs { WhereTold D.Disk (OnOk result ((IsSoundImage O.first → LogsRecord D.Disk rec.now self.old.base self.new.base) × IsFold O.first D.Disk self.new
            × (IsSoundImage O.first → Recalls D.Disk self.old directory.old → Recalls D.Disk self.new directory.new))) }
        ensures takes { IfOk result (λ lsn. (lsn ≡ self.old.base.log.first + length self.old.base.log.buffered) × LogsRoom D.Disk rec.now self.old self.new) }
        ensures keeps { OnErr result (KeepsBase D.Disk self.old.base self.new.base × (self.new.meta ≡ self.old.meta)) }
        ensures refused { WhereTold D.Disk (IfErr result (λ e. IsSoundImage O.first → e ≡ Fault)) }
        ensures faults { HasFault Fault (D.faults_of self.old.base.disk) (D.faults_of self.new.base.disk) result }
    {
        let Some(overlay) = overlay_of(rec) else {
            return Ok(self.log_off(rec));
        };
        self.bring(overlay.page)?;
        Ok(self.log_remembered(rec, &overlay, directory))
    }
}
