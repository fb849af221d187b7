// The log with what waits in it, and the homes.
ghost use Rattle.ctr_disk.specs.Device.{WhereTold};
ghost use Rattle.std.specs.Prelude.{◌≡◌, ◌<◌, ◌+◌, IsTrue, ℕ, [], length, Err, IfOk, IfErr, OnOk, OnErr};
ghost use Rattle.ctr_types.specs.Faults.{HasFault};
ghost use Rattle.ctr_disk.specs.declared.fault.StoreFault.TheVariants.{Fault};

use crate::origin::Origin;
use crate::reading::read_numbered;
use ctr_disk::{Disk, StoreFault};
use ctr_redo::{Block, LogFile, Lsn, PageNo, Root, write_home};
use std::marker::PhantomData;

/// A disk, the writer of its log, and what its root says. The type names what a read of the disk gave when it was opened.
#[derive(Drop)]
pub struct Base<D, O> {
    pub disk: D,
    pub log: LogFile,
    pub root: Root,
    /// The LSN behind the last record that is durable.
    pub durable: Lsn,
    pub of: PhantomData<O>,
}

impl<D: Disk, O: Origin> Base<D, O> {
    ghost use Rattle.ctr_redo.specs.ctr_pool.Pages.{PageHeld};
    ghost use Rattle.ctr_redo.specs.ctr_pool.Below.{HoldsStill};
    ghost use Rattle.ctr_base.specs.Base.{home_of, MaySave, MayPut, IsSoundImage, StandsQuiet, LeavesIf, MovesIf, KeepsBase, IsHome, GoesHome, FindsNumber};
    ghost use Rattle.ctr_redo.specs.ctr_pool.Below.{IsFound};

    /// Makes what waits durable. Where nothing does, the disk is left alone.
    pub fn flush(&mut self) -> Result<(), StoreFault>
        requires { IsTrue D.tells → StandsQuiet O.first D.Disk self.old }
        ensures keeps { KeepsBase D.Disk self.old self.new }
        ensures goes { WhereTold D.Disk (LeavesIf O.first D.Disk self.old self.new) }
        ensures moves { WhereTold D.Disk (OnOk result (MovesIf O.first D.Disk self.old self.new × StandsQuiet O.first D.Disk self.new)) }
        ensures holds { WhereTold D.Disk (OnOk result (HoldsStill (home_of D.Disk) (MayPut O.first D.Disk) self.old self.new)) }
        ensures none { OnOk result (self.new.log.buffered ≡ []) }
        ensures refused { OnErr result (result ≡ Err Fault) }
        ensures faults { HasFault Fault (D.faults_of self.old.disk) (D.faults_of self.new.disk) result }
    {
        if self.log.waiting() == 0 {
            return Ok(());
        }
        self.log.flush(&mut self.disk)?;
        self.durable = self.log.next();
        Ok(())
    }

    // Makes what waits durable where this record does.
    pub(crate) fn make_durable(&mut self, lsn: Lsn) -> Result<(), StoreFault>
        requires { IsTrue D.tells → StandsQuiet O.first D.Disk self.old }
        ensures keeps { KeepsBase D.Disk self.old self.new }
        ensures goes { WhereTold D.Disk (LeavesIf O.first D.Disk self.old self.new) }
        ensures moves { WhereTold D.Disk (OnOk result (MovesIf O.first D.Disk self.old self.new × StandsQuiet O.first D.Disk self.new)) }
        ensures holds { WhereTold D.Disk (OnOk result (HoldsStill (home_of D.Disk) (MayPut O.first D.Disk) self.old self.new)) }
        ensures durable { WhereTold D.Disk (OnOk result ((p since : ℕ) (h : PageHeld) → IsSoundImage O.first → MaySave D.Disk self.old p since h → h.lsn ≡ lsn → h.lsn < self.new.durable)) }
        ensures refused { OnErr result (result ≡ Err Fault) }
        ensures faults { HasFault Fault (D.faults_of self.old.disk) (D.faults_of self.new.disk) result }
    {
        if lsn < self.durable {
            return Ok(());
        }
        self.flush()?;
        Ok(())
    }

    // Writes a page home whose records are durable.
    pub(crate) fn put_home(&mut self, page: PageNo, lsn: Lsn, body: &[u8]) -> Result<(), StoreFault>
        requires whole { length body.now ≡ 4096 }
        requires goes { IsTrue D.tells → GoesHome O.first D.Disk self.old page (record { lsn = lsn; body = body.now }) }
        ensures keeps { KeepsBase D.Disk self.old self.new }
        ensures goes { WhereTold D.Disk (LeavesIf O.first D.Disk self.old self.new) }
        ensures moves { WhereTold D.Disk (OnOk result (MovesIf O.first D.Disk self.old self.new × StandsQuiet O.first D.Disk self.new)) }
        ensures home { WhereTold D.Disk (OnOk result (IsHome D.Disk page (record { lsn = lsn; body = body.now }) self.old self.new)) }
        ensures refused { OnErr result (result ≡ Err Fault) }
        ensures faults { HasFault Fault (D.faults_of self.old.disk) (D.faults_of self.new.disk) result }
    {
        write_home(&mut self.disk, Block::Page(page), lsn, body)?;
        Ok(())
    }

    // Reads a page as it stands at home.
    pub(crate) fn get_home(&mut self, page: PageNo, into: &mut [u8]) -> Result<Lsn, StoreFault>
        requires { length into.old ≡ 4096 }
        ensures keeps { KeepsBase D.Disk self.old self.new }
        ensures told { WhereTold D.Disk (IfOk result (λ lsn. home_of D.Disk self.old page ≡ record { lsn = lsn; body = into.new })) }
        ensures holds { WhereTold D.Disk (HoldsStill (home_of D.Disk) (MayPut O.first D.Disk) self.old self.new) }
        ensures rests { WhereTold D.Disk (StandsQuiet O.first D.Disk self.old → LeavesIf O.first D.Disk self.old self.new × MovesIf O.first D.Disk self.old self.new × StandsQuiet O.first D.Disk self.new) }
        ensures finds { WhereTold D.Disk (StandsQuiet O.first D.Disk self.old → IsFound (FindsNumber O.first D.Disk self.new page) result) }
        ensures refused { WhereTold D.Disk (StandsQuiet O.first D.Disk self.old → IfErr result (λ e. IsSoundImage O.first → e ≡ Fault)) }
        ensures faults { HasFault Fault (D.faults_of self.old.disk) (D.faults_of self.new.disk) result }
    {
        read_numbered(&mut self.disk, self.root.pages, page, into)
    }

    /// The number of the next record.
    pub fn next(&self) -> Lsn
        ensures { result ≡ self.now.log.first + length self.now.log.buffered }
    {
        self.log.next()
    }
}
