// Reads a file of the log batch by batch. A batch is checked by itself as it is read, and then its
// records are given to a visitor; so no more than a batch is held.
ghost use Rattle.std.specs.Prelude.{◌≡◌, ◌⊎◌, ◌≤◌, ◌<◌, ◌+◌, ◌-◌, ◌^◌, [], ◌∷◌, ℕ, IsTrue, Ok, Err, length, drop, slice_index, IfOk, IfErr, MatchResult};
ghost use Rattle.ctr_home.specs.disk_StoreFault.TheVariants.{Fault};
ghost use Rattle.ctr_home.specs.disk_Image.{content, section};
ghost use Rattle.ctr_home.specs.disk_Device.{WhereTold, OnlyReads, CountsAs};
ghost use Rattle.ctr_home.specs.bytes_Fields.{field};
ghost use Rattle.ctr_log.specs.declared.reading.ReadError.TheVariants.{Store, OutOfMemory as NoMemory};
ghost use Rattle.ctr_log.specs.declared.visitor.VisitError.TheVariants.{Read};
ghost use Rattle.ctr_home.specs.Checks.{check_of, judged};
ghost use Rattle.ctr_log.specs.Damage.{IsDamageOf};
ghost use Rattle.ctr_log.specs.Logs.{Batches, records, HasLog};
ghost use Rattle.ctr_log.specs.Reading.{RefusesOrFails, ReadDiffers, AreFrames, HasFrames, FitsFile};
ghost use Rattle.ctr_log.specs.Kept.{log_in};
ghost use Rattle.ctr_log.specs.LogChecks.{head_checks, count_checks, frames_in, frame_checks, gate_checks, sound_visits, IsThisDamage, TellsDamage, TellsFile};
ghost use Rattle.ctr_log.specs.Batch.{HeadFits, CountFits, FindsBatch, IsWholeBatch, OpensBatch, EndsLog};
ghost use Rattle.ctr_log.specs.Visits.{frame_visits, IsGiven, GivesSome, RefusesOne, Visits, UnlessRead, EndsEarly};

use crate::damage::{at_least, at_most, same};
use crate::log::Lsn;
use crate::reading::{ReadError, next_frame};
use crate::visitor::{VisitError, Visitor};
use ctr_home::{Disk, StoreFault, get_u32, get_u64, judge};
use ctr_types::File;
use std::alloc::Global;

// From here on gates aren't looked at, and no batch is as long: no memory holds so much.
const FAR: u64 = 1 << 61;

/// A batch that was read: the bytes of its frames, and how many they are.
#[derive(Debug, Drop)]
pub struct Batch {
    pub frames: Vec<u8>,
    pub count: u64,
}

/// The end of a file's log: the place of the closed gate behind it, and the number of the next record.
#[derive(Clone, Copy, Debug, PartialEq, Eq)]
pub struct End {
    pub place: u64,
    pub next: Lsn,
}

// The first fields of a batch fit the file and the number of the next record. Answers how many bytes
// its frames have.
fn check_head(file: File, head: &[u8], gate: u64, size: u64, next: Lsn) -> Result<u64, StoreFault>
    requires whole { length head.now ≡ 21 }
    requires low { gate < 2 ^ 62 }
    ensures bytes { (k : ℕ) → slice_index head.now k < 256 }
    ensures fits { MatchResult result (λ len. (len ≡ field 8 1 head.now) × HeadFits head.now (size - gate) next) (λ e. IsDamageOf file e × (HeadFits head.now (size - gate) next → ⊥)) }
    ensures damage { MatchResult result (λ _. judged file (head_checks next gate (size - gate) head.now) ≡ Ok tt) (λ e. judged file (head_checks next gate (size - gate) head.now) ≡ Err e) }
{
    let len = get_u64(head, 1);
    let room = size.saturating_sub(gate).saturating_sub(22);
    let checks = [
        at_most(gate + 1, room, len),
        same(gate + 9, next, get_u64(head, 9)),
    ];
    judge(file, &checks)?;
    Ok(len)
}

// The count in a batch's head is that of its frames, of which there is one.
fn check_count(file: File, head: &[u8; 21], gate: u64, count: u64) -> Result<(), StoreFault>
    requires { gate < 2 ^ 62 }
    ensures fits { MatchResult result (λ _. CountFits head.now count) (λ e. IsDamageOf file e × (CountFits head.now count → ⊥)) }
    ensures damage { result ≡ judged file (count_checks count gate head.now) }
{
    let checks = [
        same(gate + 17, count, get_u32(head, 17) as u64),
        at_least(gate + 17, 1, count),
    ];
    judge(file, &checks)
}

// How many frames the bytes are.
fn count_frames(file: File, bytes: &[u8], at: u64) -> Result<u64, StoreFault>
    requires { at + length bytes.now < 2 ^ 64 }
    ensures found { MatchResult result (HasFrames bytes.now) (λ e. IsDamageOf file e × (AreFrames bytes.now → ⊥)) }
    ensures count { IfOk result (λ n. n ≡ frames_in (length bytes.now) bytes.now) }
    ensures damage { MatchResult result (λ _. judged file (frame_checks (length bytes.now) at bytes.now) ≡ Ok tt) (λ e. judged file (frame_checks (length bytes.now) at bytes.now) ≡ Err e) }
{
    let mut rest = bytes;
    let mut count = 0;
    while !rest.is_empty() {
        let place = at + (bytes.len() - rest.len()) as u64;
        let (_, behind) = next_frame(file, rest, place)?;
        count += 1;
        rest = behind;
    }
    Ok(count)
}

// So many bytes of a file from a place on, with zeros past its end.
fn read_bytes<D: Disk>(
    alloc: Global,
    disk: &mut D,
    file: File,
    at: u64,
    len: u64,
) -> Result<Vec<u8>, ReadError>
    requires { at < 2 ^ 62 }
    ensures told { WhereTold D.Disk (IfOk result (λ v. v.items ≡ section at len (content file (D.reads disk.old)))) }
    ensures long { IfOk result (λ v. (length v.items ≡ len) × (len < 2 ^ 61)) }
    ensures not_damaged { IfErr result (λ e. (e ≡ Store Fault) ⊎ (e ≡ NoMemory)) }
    ensures quiet { OnlyReads D.Disk disk.old disk.new }
    ensures counts { CountsAs D.Disk (Store Fault) disk.old disk.new result }
{
    if len >= FAR {
        return Err(ReadError::OutOfMemory);
    }
    let mut bytes = vec![in alloc; 0u8; len as usize]?;
    disk.read(file, at, &mut bytes)?;
    Ok(bytes)
}

// The batch at a gate of a file of this size; none where the gate isn't open.
fn read_batch<D: Disk>(
    alloc: Global,
    disk: &mut D,
    file: File,
    size: u64,
    gate: u64,
    next: Lsn,
) -> Result<Option<Batch>, ReadError>
    requires { gate < 2 ^ 61 }
    ensures found { WhereTold D.Disk (size ≡ length (content file (D.reads disk.old)) → IfOk result (FindsBatch next (drop gate (content file (D.reads disk.old))))) }
    ensures refused { WhereTold D.Disk (size ≡ length (content file (D.reads disk.old)) → IfErr result (RefusesOrFails file (OpensBatch next (drop gate (content file (D.reads disk.old)))))) }
    ensures damage { WhereTold D.Disk (size ≡ length (content file (D.reads disk.old)) → TellsDamage (judged file (gate_checks next gate (drop gate (content file (D.reads disk.old))))) result) }
    ensures differs { IfErr result ReadDiffers }
    ensures small { IfOk result IsWholeBatch }
    ensures quiet { OnlyReads D.Disk disk.old disk.new }
    ensures counts { CountsAs D.Disk (Store Fault) disk.old disk.new result }
{
    let mut head = [0; 21];
    disk.read(file, gate, &mut head)?;
    if head[0] != 1 {
        return Ok(None);
    }
    let len = check_head(file, &head, gate, size, next)?;
    let frames = read_bytes(alloc, disk, file, gate + 21, len)?;
    let count = count_frames(file, &frames, gate + 21)?;
    check_count(file, &head, gate, count)?;
    Ok(Some(Batch { frames, count }))
}

// Gives the records of frames that begin at a place of a file to a visitor.
fn give<V: Visitor>(
    visitor: &mut V,
    file: File,
    frames: &[u8],
    at: u64,
    first: Lsn,
    count: u64,
) -> Result<(), V::E>
    requires counted { HasFrames frames.now count }
    requires place { at + length frames.now < 2 ^ 63 }
    requires number { first + count < 2 ^ 64 }
    ensures { MatchResult result (λ _. IsGiven V.has_seen visitor.old visitor.new (frame_visits file first at count frames.now)) (RefusesOne V.has_seen V.refuses visitor.old (frame_visits file first at count frames.now)) }
{
    let mut rest = frames;
    for lsn in first..first + count {
        let place = at + (frames.len() - rest.len()) as u64;
        let Ok((record, behind)) = next_frame(file, rest, place) else {
            unreachable!()
        };
        visitor.visit(lsn, file, place + 8, record)?;
        rest = behind;
    }
    Ok(())
}

// The length of a file whose first gate is open.
fn open_len<D: Disk>(disk: &mut D, file: File) -> Result<u64, ReadError>
    ensures told { WhereTold D.Disk (IfOk result (λ n. (n ≡ length (content file (D.reads disk.old))) × (slice_index (content file (D.reads disk.old)) 0 ≡ 1))) }
    ensures refused { WhereTold D.Disk (IfErr result (RefusesOrFails file (slice_index (content file (D.reads disk.old)) 0 ≡ 1))) }
    ensures damage { WhereTold D.Disk (IfErr result (IsThisDamage (judged file (check_of 0 1 (slice_index (content file (D.reads disk.old)) 0) ∷ [])))) }
    ensures differs { IfErr result ReadDiffers }
    ensures quiet { OnlyReads D.Disk disk.old disk.new }
    ensures counts { CountsAs D.Disk (Store Fault) disk.old disk.new result }
{
    let size = disk.size(file)?;
    let mut gate = [0];
    disk.read(file, 0, &mut gate)?;
    judge(file, &[same(0, 1, gate[0] as u64)])?;
    Ok(size)
}

/// Reads the log of a file, whose records are numbered from `first`, for a visitor. It ends on any
/// bytes, and reads each byte of the log once, but the first gate twice.
pub fn visit_file<D: Disk, V: Visitor>(
    alloc: Global,
    disk: &mut D,
    file: File,
    first: Lsn,
    visitor: &mut V,
) -> Result<End, VisitError<V::E>>
    requires low { first ≤ 2 ^ 63 + 2 ^ 60 }
    ensures found { WhereTold D.Disk (IfOk result (λ end. EndsLog first (content file (D.reads disk.old)) end.place end.next)) }
    ensures only { (bs : Batches) → IsTrue D.tells → HasLog first bs (content file (D.reads disk.old)) → IfOk result (λ end. end.next ≡ first + length (records bs)) × UnlessRead (log_in (content file (D.reads disk.old)) ≡ records bs) result }
    ensures visits { WhereTold D.Disk (Visits V.has_seen V.refuses visitor.old visitor.new (sound_visits file first (content file (D.reads disk.old))) result) }
    ensures damage { WhereTold D.Disk (TellsFile file first (content file (D.reads disk.old)) result) }
    ensures always { MatchResult result (λ end. GivesSome V.has_seen visitor.old visitor.new × FitsFile first end.place end.next) (EndsEarly V.has_seen V.refuses visitor.old) }
    ensures quiet { OnlyReads D.Disk disk.old disk.new }
    ensures counts { CountsAs D.Disk (Read (Store Fault)) disk.old disk.new result }
{
    let size = open_len(disk, file)?;
    let mut gate = 0;
    let mut next = first;
    while gate < FAR {
        let Some(batch) = read_batch(alloc, disk, file, size, gate, next)? else {
            return Ok(End { place: gate, next });
        };
        if let Err(error) = give(visitor, file, &batch.frames, gate + 21, next, batch.count) {
            return Err(VisitError::Refused(error));
        }
        gate += 21 + batch.frames.len() as u64;
        next += batch.count;
    }
    Err(VisitError::Read(ReadError::OutOfMemory))
}
