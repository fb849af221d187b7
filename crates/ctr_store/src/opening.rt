// Opening: the root, the log with its records' checks, and the pages that its records are on.
ghost use Rattle.std.specs.Prelude.{◌≡◌, ◌⊎◌, ◌≤◌, ◌<◌, ◌+◌, ◌^◌, IsTrue, ℕ, [], Ok, Err, None, length, IfOk, IfErr, OnOk};
ghost use Rattle.ctr_disk.specs.Device.{WhereTold, LeavesOnly, IsDurable, OnlyReads, CountsAs};
ghost use Rattle.ctr_base.specs.ctr_home.declared.block.Block.TheVariants.{Root as RootBlock};
ghost use Rattle.ctr_base.specs.ctr_home.Blocks.{value_of};
ghost use Rattle.ctr_base.specs.ctr_home.Roots.{IsRoot, SaysRoot};
ghost use Rattle.ctr_store.specs.RecordChecks.{AllPass};
ghost use Rattle.ctr_store.specs.Opening.{IsEmptyWithRoom, IsNewlyOpened, FindsLog, FindsFront, RefusesLog, RefusesAs, OpensParts, disk_left, opening_told, worn_by, IsWornBy, IsLater, IsUndamaged, AnswersOpen, LeavesFirst};
ghost use Rattle.ctr_base.specs.log_OpenError.TheVariants.{Fault, OutOfMemory as NoMemory};
ghost use Rattle.ctr_base.specs.redo_States.{state_of};
ghost use Rattle.ctr_store.specs.Numbers.{HeadsWithin};
ghost use Rattle.ctr_base.specs.redo_Images.{stored_in, IsSound, FoldsFront};
ghost use Rattle.ctr_disk.specs.declared.fault.StoreFault.TheVariants.{Fault as StoreFailed};
ghost use Rattle.ctr_base.specs.log_ReadError.TheVariants.{Store as ReadStore, OutOfMemory as ReadMemory};
ghost use Rattle.ctr_base.specs.Base.{WhereSound, IsSoundImage};

use crate::parts::Parts;
use crate::seen::Seen;
use ctr_base::{
    Base, LogFile, Meta, OpenError, Origin, Pool, ReadError, Root, Visit, find_root, read_all,
};
use ctr_disk::{Disk, StoreFault};
use ctr_types::List;
use std::alloc::Global;
use std::marker::PhantomData;

/// A number at which no more may be logged.
const WORN_AT: u64 = 1 << 62;

/// For how many bytes of records the log's buffer has room.
pub const BUFFER_BYTES: usize = 65_536;

/// What the reading of a log found: the writer behind it, the tables that its records leave, and the records in their
/// places.
#[derive(Drop)]
pub struct Found {
    pub log: LogFile,
    pub meta: Meta,
    pub visits: List<Visit>,
}

// Reads the log that the root names; each record passes its checks before the next batch is read.
fn read_log<D: Disk, O: Origin>(
    alloc: Global,
    disk: &mut D,
    root: &Root,
) -> Result<Found, ReadError>
    requires root { IsRoot root.now }
    requires says { IsTrue D.tells → SaysRoot (value_of RootBlock O.first) root.now }
    ensures found { WhereTold D.Disk (IfOk result (FindsLog (D.reads disk.old) root.now)) }
    ensures passed { IfOk result (λ f. (pages : ℕ) × AllPass pages f.visits) }
    ensures room { IfOk result (λ f. IsEmptyWithRoom f.log) }
    ensures heads { IfOk result (λ f. HeadsWithin (2 ^ 63) f.meta.tables) }
    ensures refused { WhereTold D.Disk (IfErr result (RefusesLog root.now (D.reads disk.old))) }
    ensures undamaged { WhereTold D.Disk (IsSound root.now (D.reads disk.old) → IfErr result (λ e. (e ≡ ReadStore StoreFailed) ⊎ (e ≡ ReadMemory))) }
    ensures quiet { OnlyReads D.Disk disk.old disk.new }
    ensures counts { CountsAs D.Disk (ReadStore StoreFailed) disk.old disk.new result }
{
    let mut seen = Seen::<D, O>::new(alloc, root.pages);
    let mut log = read_all(alloc, disk, root, &mut seen)?;
    log.reserve(BUFFER_BYTES)?;
    let (meta, visits) = seen.into_parts();
    Ok(Found { log, meta, visits })
}

// The root of a disk, and what the reading of its log found.
fn read_front<D: Disk, O: Origin>(alloc: Global, disk: &mut D) -> Result<(Root, Found), OpenError>
    requires named { O.first ≡ D.reads disk.old }
    ensures found { WhereTold D.Disk (IfOk result (λ r. FindsFront O.first r.0 r.1)) }
    ensures passed { IfOk result (λ r. ((pages : ℕ) × AllPass pages r.1.visits) × IsEmptyWithRoom r.1.log) }
    ensures root { IfOk result (λ r. IsRoot r.0) }
    ensures heads { IfOk result (λ r. HeadsWithin (2 ^ 63) r.1.meta.tables) }
    ensures refused { WhereTold D.Disk (IfErr result (RefusesAs O.first)) }
    ensures undamaged { WhereSound O.first D.Disk (IfErr result IsUndamaged) }
    ensures quiet { OnlyReads D.Disk disk.old disk.new }
    ensures durable { OnOk result (IsDurable D.Disk disk.new) }
    ensures counts { CountsAs D.Disk Fault disk.old disk.new result }
{
    let Some(root) = find_root(disk)? else {
        return Err(OpenError::NoDatabase);
    };
    let found = read_log::<D, O>(alloc, disk, &root)?;
    Ok((root, found))
}

// Over what was read, a pool, and the pages brought forward that the log's records are on.
fn bring_forward<D: Disk, O: Origin>(
    alloc: Global,
    disk: D,
    frames: usize,
    root: Root,
    found: Found,
) -> Result<Parts<D, O>, (OpenError, D)>
    requires frames { (8 ≤ frames) × (frames ≤ 4096) }
    requires told { IsTrue D.tells → FindsFront O.first root found × IsDurable D.Disk disk × (D.reads disk ≡ O.first) }
    requires passed { (pages : ℕ) × AllPass pages found.visits }
    requires room { IsEmptyWithRoom found.log }
    requires heads { HeadsWithin (2 ^ 63) found.meta.tables }
    ensures opened { WhereTold D.Disk (IfOk result (OpensParts O.first D.Disk root)) }
    ensures goes { WhereSound O.first D.Disk (LeavesOnly D.Disk disk (disk_left result) (FoldsFront (state_of (stored_in root O.first)) [])) }
    ensures refused { WhereTold D.Disk (IfErr result (λ e. IsSoundImage O.first → (e.0 ≡ Fault) ⊎ (e.0 ≡ NoMemory))) }
    ensures later { WhereTold D.Disk (IfErr result (λ e. IsLater root O.first e.0)) }
    ensures room { IfOk result (λ s. IsEmptyWithRoom s.base.log × (s.base.root ≡ root)) }
    ensures heads { IfOk result (λ s. HeadsWithin (2 ^ 63) s.meta.tables) }
    ensures counts { CountsAs D.Disk Fault disk (disk_left result) (opening_told result) }
{
    let Found { log, meta, visits } = found;
    let Ok(pool) = Pool::new(alloc, frames) else {
        return Err((OpenError::OutOfMemory, disk));
    };
    let durable = log.next();
    let base = Base {
        disk,
        log,
        root,
        durable,
        of: PhantomData,
    };
    let mut parts = Parts { base, pool, meta };
    match parts.redo(visits.as_slice()) {
        Ok(()) => Ok(parts),
        Err(fault) => Err((OpenError::from(fault), parts.into_disk())),
    }
}

// The number at which a store is worn.
fn worn_number<D: Disk, O: Origin>(parts: &Parts<D, O>) -> Option<u64>
    ensures { result ≡ worn_by (parts.now.base.log.first + length parts.now.base.log.buffered) parts.now.meta.tables.next }
{
    let next = parts.base.next();
    if next >= WORN_AT {
        return Some(next);
    }
    let xid = parts.meta.next();
    if xid >= WORN_AT {
        return Some(xid);
    }
    None
}

// Refuses a store that is worn.
fn refuse_worn<D: Disk, O: Origin>(parts: Parts<D, O>) -> Result<Parts<D, O>, (OpenError, D)>
    ensures same { IfOk result (λ s. s ≡ parts) }
    ensures disk { disk_left result ≡ parts.base.disk }
    ensures worn { IsWornBy (worn_by (parts.base.log.first + length parts.base.log.buffered) parts.meta.tables.next) result }
{
    match worn_number(&parts) {
        Some(number) => Err((OpenError::Worn { number }, parts.into_disk())),
        None => Ok(parts),
    }
}

// The same, and refuses what is worn.
fn finish<D: Disk, O: Origin>(
    alloc: Global,
    disk: D,
    frames: usize,
    root: Root,
    found: Found,
) -> Result<Parts<D, O>, (OpenError, D)>
    requires frames { (8 ≤ frames) × (frames ≤ 4096) }
    requires told { IsTrue D.tells → FindsFront O.first root found × IsDurable D.Disk disk × (D.reads disk ≡ O.first) }
    requires passed { (pages : ℕ) × AllPass pages found.visits }
    requires room { IsEmptyWithRoom found.log }
    requires heads { HeadsWithin (2 ^ 63) found.meta.tables }
    requires root { IsRoot root }
    ensures answer { WhereTold D.Disk (AnswersOpen O.first D.Disk result) }
    ensures undamaged { WhereSound O.first D.Disk (IfErr result (λ e. IsUndamaged e.0)) }
    ensures ready { IfOk result IsNewlyOpened }
    ensures goes { WhereSound O.first D.Disk (LeavesOnly D.Disk disk (disk_left result) (FoldsFront (state_of (stored_in root O.first)) [])) }
    ensures counts { CountsAs D.Disk Fault disk (disk_left result) (opening_told result) }
{
    match bring_forward::<D, O>(alloc, disk, frames, root, found) {
        Ok(parts) => refuse_worn(parts),
        Err(error) => Err(error),
    }
}

impl<D: Disk, O: Origin> Parts<D, O> {
    /// Opens the database of a disk, over so many frames, 8 to 4,096. It begins with a sync, and logs nothing: pages may go
    /// home that the log's records are on. A refusal gives the disk back.
    pub fn open(alloc: Global, disk: D, frames: usize) -> Result<Parts<D, O>, (OpenError, D)>
        requires named { O.first ≡ D.reads disk }
        requires frames { (8 ≤ frames) × (frames ≤ 4096) }
        ensures answer { WhereTold D.Disk (AnswersOpen O.first D.Disk result) }
        ensures undamaged { WhereSound O.first D.Disk (IfErr result (λ e. IsUndamaged e.0)) }
        ensures ready { IfOk result IsNewlyOpened }
        ensures any_moment { WhereSound O.first D.Disk (LeavesOnly D.Disk disk (disk_left result) (LeavesFirst O.first (D.images disk))) }
        // It says that the disk failed only where a call of it did, and no call went past the last place of a file.
        ensures counts { CountsAs D.Disk Fault disk (disk_left result) (opening_told result) }
    {
        let mut disk = disk;
        match read_front::<D, O>(alloc, &mut disk) {
            Ok((root, found)) => finish::<D, O>(alloc, disk, frames, root, found),
            Err(error) => Err((error, disk)),
        }
    }
}
