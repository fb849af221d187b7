// Reads the log that is kept: the generation that the root names, and behind it the one in the other
// file where that goes on from it.
ghost use Rattle.std.specs.Prelude.{◌≡◌, IsTrue, ℕ, List, [], Result, IfOk, IfErr, OnOk, Ok, Err};
ghost use Rattle.ctr_home.specs.disk_StoreFault.TheVariants.{Fault};
ghost use Rattle.ctr_home.specs.disk_Image.{content};
ghost use Rattle.ctr_home.specs.disk_Device.{WhereTold, OnlyReads, Counts, CountsAs};
ghost use Rattle.ctr_log.specs.declared.reading.ReadError.TheVariants.{Store};
ghost use Rattle.ctr_log.specs.declared.visitor.VisitError.{VisitError};
ghost use Rattle.ctr_log.specs.declared.visitor.VisitError.TheVariants.{Read};
ghost use Rattle.ctr_log.specs.Reading.{log_file};
ghost use Rattle.ctr_log.specs.Kept.{begins_at, NamesKept, HoldsLog, RefusesKept, OpensKept, WritesBehind};
ghost use Rattle.ctr_log.specs.LogChecks.{kept_damage, sound_kept_visits, IsThisDamage, VisitsDamage};
ghost use Rattle.ctr_log.specs.Visits.{kept_visits, IsGiven, Visits, StopsAt, OnRead, EndsEarly, IsToldBy};

use crate::batches::visit_file;
use crate::log::{LogFile, Lsn, next_file};
use crate::reading::ReadError;
use crate::visitor::{VisitError, Visitor};
use ctr_home::{Disk, Failed, Root, StoreFault, get_u64};
use ctr_types::{File, OutOfMemory};
use std::alloc::Global;

/// Gives the records of the log that is kept to a visitor, one after another, the older generation
/// first, and answers the writer behind the last of them. It holds no more than a batch, and takes time
/// linear in the log. Where the disk tells what it holds, damage is told exactly where no log stands in
/// the image.
pub fn read_all<D: Disk, V: Visitor>(
    alloc: Global,
    disk: &mut D,
    root: &Root,
    visitor: &mut V,
) -> Result<LogFile, V::E>
    requires names { NamesKept root.now }
    ensures found { WhereTold D.Disk (IfOk result (OpensKept root.now.file root.now.first (D.reads disk.old))) }
    ensures goes_on { (rs : List (List ℕ)) → IsTrue D.tells → HoldsLog root.now.file root.now.first rs (D.reads disk.old)
        → IfOk result (λ log. WritesBehind root.now.file root.now.first log (D.reads disk.old)) }
    // The visitor has been given the records of the image's log and no others, and no check of it fails.
    ensures visited { WhereTold D.Disk (OnOk result (IsGiven V.has_seen visitor.old visitor.new (kept_visits root.now.file root.now.first (D.reads disk.old))
        × (kept_damage root.now.file root.now.first (D.reads disk.old) ≡ Ok tt))) }
    // The cause is damage, told by the first check of the log that fails, a fault of the disk, want of memory, or a record
    // that the visitor refused. At damage it has been given the records of all batches before, and what it refuses is one of
    // these.
    ensures refused { IfErr result (λ e. (cause : VisitError V.E) × IsToldBy V.E.From-1.from_gives V.E.From-2.from_gives cause e
        × (let ended : Result ℕ (VisitError V.E) = Err cause in CountsAs D.Disk (Read (Store Fault)) disk.old disk.new ended) × EndsEarly V.has_seen V.refuses visitor.old cause
        × (IsTrue D.tells → OnRead (RefusesKept root.now.file root.now.first (D.reads disk.old)) cause)
        × (IsTrue D.tells → StopsAt V.has_seen V.refuses visitor.old visitor.new (sound_kept_visits root.now.file root.now.first (D.reads disk.old)) cause)
        × (IsTrue D.tells → OnRead (IsThisDamage (kept_damage root.now.file root.now.first (D.reads disk.old))) cause)) }
    ensures none { IfOk result (λ log. log.buffered ≡ []) }
    ensures quiet { OnlyReads D.Disk disk.old disk.new }
    ensures counts { OnOk result (D.faults_of disk.new ≡ D.faults_of disk.old) × (D.strays_of disk.new ≡ D.strays_of disk.old) }
{
    match read_kept(alloc, disk, root, visitor) {
        Ok(log) => Ok(log),
        Err(VisitError::Read(ReadError::Store(fault))) => {
            Err(<V::E as From<StoreFault>>::from(fault))
        }
        Err(VisitError::Read(ReadError::OutOfMemory)) => {
            Err(<V::E as From<OutOfMemory>>::from(OutOfMemory))
        }
        Err(VisitError::Refused(error)) => Err(error),
    }
}

// The same, and how it ended early.
fn read_kept<D: Disk, V: Visitor>(
    alloc: Global,
    disk: &mut D,
    root: &Root,
    visitor: &mut V,
) -> Result<LogFile, VisitError<V::E>>
    requires names { NamesKept root.now }
    ensures found { WhereTold D.Disk (IfOk result (OpensKept root.now.file root.now.first (D.reads disk.old))) }
    ensures goes_on { (rs : List (List ℕ)) → IsTrue D.tells → HoldsLog root.now.file root.now.first rs (D.reads disk.old)
        → IfOk result (λ log. WritesBehind root.now.file root.now.first log (D.reads disk.old)) }
    ensures visits { WhereTold D.Disk (Visits V.has_seen V.refuses visitor.old visitor.new (sound_kept_visits root.now.file root.now.first (D.reads disk.old)) result) }
    ensures refused { WhereTold D.Disk (IfErr result (OnRead (RefusesKept root.now.file root.now.first (D.reads disk.old)))) }
    ensures damage { WhereTold D.Disk (VisitsDamage (kept_damage root.now.file root.now.first (D.reads disk.old)) result) }
    ensures early { IfErr result (EndsEarly V.has_seen V.refuses visitor.old) }
    ensures none { IfOk result (λ log. log.buffered ≡ []) }
    ensures quiet { OnlyReads D.Disk disk.old disk.new }
    ensures counts { CountsAs D.Disk (Read (Store Fault)) disk.old disk.new result }
{
    let named = named_file(root);
    let older = visit_file(alloc, disk, named, root.first, visitor)?;
    let other = next_file(named);
    if !begins_at(disk, other, older.next)? {
        let log = LogFile::behind(alloc, named, false, root.first, older.place, older.next)?;
        return Ok(log);
    }
    let newer = visit_file(alloc, disk, other, older.next, visitor)?;
    let log = LogFile::behind(alloc, other, true, older.next, newer.place, newer.next)?;
    Ok(log)
}

// Whether the first batch of a file is open and has this first number.
fn begins_at<D: Disk>(disk: &mut D, file: File, next: Lsn) -> Result<bool, Failed>
    ensures told { WhereTold D.Disk (IfOk result (λ b. b ≡ begins_at next (content file (D.reads disk.old)))) }
    ensures quiet { OnlyReads D.Disk disk.old disk.new }
    ensures counts { Counts D.Disk disk.old disk.new result }
{
    let mut head = [0; 17];
    disk.read(file, 0, &mut head)?;
    if head[0] != 1 {
        return Ok(false);
    }
    Ok(get_u64(&head, 9) == next)
}

fn named_file(root: &Root) -> File
    ensures { result ≡ log_file root.now.file }
{
    if root.file == 0 {
        File::LogA
    } else {
        File::LogB
    }
}
