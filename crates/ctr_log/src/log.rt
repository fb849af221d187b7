// A file of the log and its writer: a batch is flushed whole or not at all.
ghost use Rattle.std.specs.Prelude.{◌≡◌, ◌≢◌, ◌≤◌, ◌<◌, ◌↔◌, false, slice_index, ◌+◌, ◌-◌, ◌^◌, IsTrue, ℕ, List, [], ◌∷◌, ◌++◌, length, take, drop, vec_len, vec_capacity, Err, IfOk, OnOk, OnErr};
ghost use Rattle.ctr_types.specs.declared.file.File.TheVariants.{LogA};
ghost use Rattle.ctr_home.specs.disk_StoreFault.TheVariants.{Fault};
ghost use Rattle.ctr_home.specs.disk_Image.{Image, content, OtherFilesStay};
ghost use Rattle.ctr_types.specs.Faults.{HasCause};
ghost use Rattle.ctr_home.specs.disk_Device.{WhereTold, LeavesOnly, IsDurable, IsSettled, OnlyReads, Counts, CountsAs};
ghost use Rattle.ctr_log.specs.Reading.{IsEmptyAt};
ghost use Rattle.ctr_log.specs.Logs.{Batches, headed, sealed, frame, frames, records, HasLog, HasBatches, GoesOn, next_place, Extends, IsBeforeOrAfter, IsAfter, IsFlushing, IsEmptied, CountsFlush, with_batch};
ghost use Rattle.ctr_log.specs.declared.log.TheConstants.{MOST};
ghost use Rattle.ctr_log.specs.Kept.{next_file, StaysDropped, CanStart, CanBegin, IsStarted, KeepsWriter, BeginsFile, HoldsPrefix, GoesOnBehind, WritesBehind, KeepsPrefix, GoesOnWith};

use ctr_home::{Disk, Failed, StoreFault, put_u32, put_u64, write_through};
use ctr_types::{File, OutOfMemory};
use std::alloc::{AllocError, Global};
use std::marker::Model;

/// The number of a record of the log, from 1.
pub type Lsn = u64;

/// The bytes of a batch's length, first LSN and count.
const HEAD: usize = 20;

/// A batch that waits has fewer bytes than these, 2^34. So its records, of 8 bytes and more, are fewer
/// than its count can tell, and a write of it at a place below 2^62 stays within a file.
const MOST: usize = 1 << 34;

/// The writer of a log: where its file's log ends, and the records that aren't flushed. After a
/// flush that failed, open the log again.
#[derive(Debug, Drop)]
pub struct LogFile {
    file: File,
    // whether the other file has an older generation that is kept
    older: bool,
    // of the first record of its generation
    start: Lsn,
    // of the closed gate behind the log
    place: u64,
    // of the first record that isn't flushed
    first: Lsn,
    count: u32,
    // a batch behind its gate, its head not yet filled in
    buffer: Vec<u8>,
}

impl Model for LogFile {
    ghost use Rattle.ctr_log.specs.Logs.{Log};

    ghost Value = { Log };

    ghost use Rattle.ctr_log.specs.LogFile.{log_of, IsWriter};

    ghost view = { log_of };

    ghost invariant = { IsWriter };
}

impl LogFile {
    /// The writer behind a log that begins with an LSN, and whose closed gate stands at a place.
    pub(crate) fn behind(
        alloc: Global,
        file: File,
        older: bool,
        start: Lsn,
        place: u64,
        next: Lsn,
    ) -> Result<LogFile, AllocError>
        requires place { place < 2 ^ 63 }
        requires next { next < 2 ^ 64 }
        ensures { IfOk result (λ log. IsEmptyAt file older start place next log) }
    {
        let mut buffer = Vec::with_capacity(alloc, HEAD + 1)?;
        put_bytes(&mut buffer, &[0; HEAD]);
        Ok(LogFile {
            file,
            older,
            start,
            place,
            first: next,
            count: 0,
            buffer,
        })
    }

    /// The number that the next record gets.
    pub fn next(&self) -> Lsn
        ensures { result ≡ self.now.first + length self.now.buffered }
    {
        self.first + self.count as u64
    }

    /// The file of the log in which it writes.
    pub fn file(&self) -> File
        ensures { result ≡ self.now.file }
    {
        self.file
    }

    /// The number of the first record of the generation that it writes in.
    pub fn start(&self) -> Lsn
        ensures { result ≡ self.now.start }
    {
        self.start
    }

    /// Whether the other file has an older generation that is kept.
    pub fn keeps_older(&self) -> bool
        ensures { result ≡ self.now.older }
    {
        self.older
    }

    /// The byte of its file at which the next record would stand, once it is flushed.
    pub fn place_of_next(&self) -> u64
        ensures place { result ≡ next_place self.now }
        // It stands there in each file that has one batch more, with the records that wait and this one.
        ensures stands { (first : ℕ) (bs : Batches) (image : Image) (r bytes : List ℕ) → GoesOn first bs self.now image
            → HasLog first (with_batch bs (self.now.buffered ++ r ∷ [])) bytes → take (length r) (drop result bytes) ≡ r }
    {
        self.place + 9 + self.buffer.len() as u64
    }

    /// For how many bytes of frames more there is room: a record's length, and 8 for each record.
    pub fn room(&self) -> usize
        ensures { result ≡ self.now.room }
    {
        if self.buffer.capacity() < MOST {
            return self.buffer.capacity() - self.buffer.len() - 1;
        }
        MOST - self.buffer.len() - 1
    }

    /// How many bytes the frames of the records that wait have: their lengths, and 8 for each.
    pub fn bytes_waiting(&self) -> usize
        ensures { result ≡ length (frames self.now.buffered) }
    {
        self.buffer.len() - HEAD
    }

    /// How many records wait to be flushed.
    pub fn waiting(&self) -> u32
        ensures { result ≡ length self.now.buffered }
    {
        self.count
    }

    /// From here on the older generation isn't kept: the root names the newer one.
    pub fn forget_older(&mut self)
        ensures { self.new ≡ record self.old { older = false } }
    {
        self.older = false;
    }

    /// Takes room for frames of so many bytes: a record's length, and 8 for each record. There is none for
    /// 2^34 bytes of one batch.
    pub fn reserve(&mut self, bytes: usize) -> Result<(), OutOfMemory>
        ensures ok { OnOk result (bytes ≤ self.new.room) }
        ensures small { OnOk result (bytes < MOST) }
        ensures kept { self.old.room ≤ self.new.room }
        ensures same { self.new ≡ record self.old { room = self.new.room } }
    {
        if bytes >= MOST - self.buffer.len() {
            return Err(OutOfMemory);
        }
        self.buffer.reserve(bytes + 1)?;
        Ok(())
    }

    /// Adds a record, for which room was taken. It takes no memory.
    pub fn append(&mut self, bytes: &[u8]) -> Lsn
        requires room { 8 + length bytes.now ≤ self.old.room }
        requires next { self.old.first + length self.old.buffered < 2 ^ 63 - 1 }
        ensures number { result ≡ self.old.first + length self.old.buffered }
        ensures added { self.new ≡ record self.old { buffered = self.old.buffered ++ bytes.now ∷ []; room = self.new.room } }
        ensures room_left { self.old.room ≤ self.new.room + (8 + length bytes.now) }
    {
        let lsn = self.first + self.count as u64;
        put_frame(&mut self.buffer, bytes);
        self.count += 1;
        lsn
    }

    /// Writes the records that aren't flushed as one batch behind the log. A crash at any moment
    /// leaves the log with a prefix of them, and after Ok with all. It takes no memory.
    pub fn flush<D: Disk>(&mut self, disk: &mut D) -> Result<(), StoreFault>
        ensures any_moment { (first : ℕ) (bs : Batches) → IsSettled D.Disk disk.old → GoesOn first bs self.old (D.reads disk.old)
            → LeavesOnly D.Disk disk.old disk.new (IsFlushing first bs self.old (D.reads disk.old)) }
        ensures flushed { (first : ℕ) (bs : Batches) → IsTrue D.tells → GoesOn first bs self.old (D.reads disk.old)
            → OnOk result (OtherFilesStay self.old.file (D.reads disk.old) (D.reads disk.new) × GoesOn first (with_batch bs self.old.buffered) self.new (D.reads disk.new)) }
        // The log of an image, in one generation or in two, has a prefix of the records behind it.
        ensures kept_any_moment { (named oldest : ℕ) → IsSettled D.Disk disk.old → WritesBehind named oldest self.old (D.reads disk.old)
            → LeavesOnly D.Disk disk.old disk.new (KeepsPrefix self.old.file named oldest self.old.buffered (D.reads disk.old)) }
        ensures kept { (named oldest : ℕ) → IsTrue D.tells → WritesBehind named oldest self.old (D.reads disk.old)
            → OnOk result (GoesOnWith named oldest self.old.buffered self.new (D.reads disk.old) (D.reads disk.new)) }
        ensures emptied { IsEmptied self.old self.new result }
        ensures durable { IsDurable D.Disk disk.old → OnOk result (IsDurable D.Disk disk.new) }
        ensures counts { CountsFlush D.Disk self.old.place disk.old disk.new result }
    {
        if self.count == 0 {
            return Ok(());
        }
        let len = self.buffer.len();
        seal(&mut self.buffer, self.first, self.count);
        let written = write_batch(disk, self.file, self.place, &self.buffer);
        self.buffer.truncate(len);
        written?;
        self.place += 1 + len as u64;
        self.first += self.count as u64;
        self.count = 0;
        self.buffer.truncate(HEAD);
        Ok(())
    }

    /// Flushes what waits, and then begins a generation in the other file with this record, for which
    /// room was taken. So the new one begins once the current one is durable and whole: a crash at any
    /// moment leaves the log with a prefix of the records that waited and this one, and after Ok with
    /// all. It takes no memory.
    pub fn start_generation<D: Disk>(
        &mut self,
        disk: &mut D,
        first: &[u8],
    ) -> Result<(), StoreFault>
        requires { CanStart (length first.now) self.old }
        ensures any_moment { (named oldest : ℕ) → IsSettled D.Disk disk.old → WritesBehind named oldest self.old (D.reads disk.old)
            → LeavesOnly D.Disk disk.old disk.new (HoldsPrefix named oldest (self.old.buffered ++ first.now ∷ []) (D.reads disk.old)) }
        ensures begun { (named oldest : ℕ) → IsTrue D.tells → WritesBehind named oldest self.old (D.reads disk.old)
            → OnOk result (GoesOnBehind named oldest (self.old.buffered ++ first.now ∷ []) self.new (D.reads disk.old) (D.reads disk.new)) }
        ensures writer { OnOk result (IsStarted self.old self.new) }
        ensures durable { OnOk result (IsDurable D.Disk disk.new) }
        ensures counts { CountsFlush D.Disk self.old.place disk.old disk.new result }
    {
        match self.flush_before(disk, first) {
            Ok(()) => self.begin_generation(disk, first),
            Err(fault) => Err(fault),
        }
    }

    // Flushes what waits, before a generation begins with this record.
    fn flush_before<D: Disk>(&mut self, disk: &mut D, _first: &[u8]) -> Result<(), StoreFault>
        ensures any_moment { (named oldest : ℕ) → IsSettled D.Disk disk.old → WritesBehind named oldest self.old (D.reads disk.old)
            → LeavesOnly D.Disk disk.old disk.new (HoldsPrefix named oldest (self.old.buffered ++ _first.now ∷ []) (D.reads disk.old)) }
        ensures kept { (named oldest : ℕ) → IsTrue D.tells → WritesBehind named oldest self.old (D.reads disk.old)
            → OnOk result (GoesOnWith named oldest self.old.buffered self.new (D.reads disk.old) (D.reads disk.new)) }
        ensures emptied { IsEmptied self.old self.new result }
        ensures durable { IsDurable D.Disk disk.old → OnOk result (IsDurable D.Disk disk.new) }
        ensures counts { CountsFlush D.Disk self.old.place disk.old disk.new result }
    {
        self.flush(disk)
    }

    /// Begins a generation in the other file with this record, for which room was taken, where nothing waits. A crash at
    /// any moment leaves the log as it was, or with this record behind it, and the other files as they were. It takes no
    /// memory.
    pub fn begin_generation<D: Disk>(
        &mut self,
        disk: &mut D,
        first: &[u8],
    ) -> Result<(), StoreFault>
        requires { CanBegin (length first.now) self.old }
        ensures any_moment { (named oldest : ℕ) → IsSettled D.Disk disk.old → WritesBehind named oldest self.old (D.reads disk.old)
            → LeavesOnly D.Disk disk.old disk.new (KeepsPrefix (next_file self.old.file) named oldest (first.now ∷ []) (D.reads disk.old)) }
        ensures begun { (named oldest : ℕ) → IsTrue D.tells → WritesBehind named oldest self.old (D.reads disk.old)
            → OnOk result (GoesOnWith named oldest (first.now ∷ []) self.new (D.reads disk.old) (D.reads disk.new)) }
        // Whatever stands on the disk, the other file has this record alone.
        ensures alone { IsTrue D.tells → OnOk result (BeginsFile first.now self.old self.new (D.reads disk.old) (D.reads disk.new)) }
        ensures writer { OnOk result (IsStarted self.old self.new) }
        ensures keeps { KeepsWriter (length first.now) self.old self.new result }
        ensures durable { OnOk result (IsDurable D.Disk disk.new) }
        ensures refused { OnErr result (result ≡ Err Fault) }
        ensures counts { CountsAs D.Disk Fault disk.old disk.new result }
    {
        let file = next_file(self.file);
        shut_first(disk, file)?;
        put_frame(&mut self.buffer, first);
        seal(&mut self.buffer, self.first, 1);
        let len = self.buffer.len();
        let written = write_batch(disk, file, 0, &self.buffer);
        self.buffer.truncate(HEAD);
        written?;
        self.file = file;
        self.older = true;
        self.place = len as u64;
        self.start = self.first;
        self.first += 1;
        Ok(())
    }
}

/// The file for a generation behind one in this file.
pub(crate) fn next_file(file: File) -> File
    ensures { result ≡ next_file file }
{
    match file {
        File::LogA => File::LogB,
        _ => File::LogA,
    }
}

// Closes the first gate of a file, where that is open or the file is empty.
fn shut_first<D: Disk>(disk: &mut D, file: File) -> Result<(), Failed>
    ensures any_moment { IsSettled D.Disk disk.old → LeavesOnly D.Disk disk.old disk.new (StaysDropped file (D.reads disk.old)) }
    ensures shut { (next : ℕ) → IsTrue D.tells → OnOk result (StaysDropped file (D.reads disk.old) (D.reads disk.new) × HasBatches next [] (content file (D.reads disk.new))) }
    ensures durable { IsDurable D.Disk disk.old → OnOk result (IsDurable D.Disk disk.new) }
    ensures counts { Counts D.Disk disk.old disk.new result }
{
    if is_first_shut(disk, file)? {
        return Ok(());
    }
    write_through(disk, file, 0, &[0])
}

fn is_first_shut<D: Disk>(disk: &mut D, file: File) -> Result<bool, Failed>
    ensures told { WhereTold D.Disk (IfOk result (λ b. IsTrue b ↔ ((0 < length (content file (D.reads disk.old))) × (slice_index (content file (D.reads disk.old)) 0 ≢ 1)))) }
    ensures quiet { OnlyReads D.Disk disk.old disk.new }
    ensures counts { Counts D.Disk disk.old disk.new result }
{
    match disk.size(file) {
        Ok(0) => Ok(false),
        Ok(_) => is_gate_shut(disk, file),
        Err(failed) => Err(failed),
    }
}

// Whether the first byte of a file isn't that of an open gate.
fn is_gate_shut<D: Disk>(disk: &mut D, file: File) -> Result<bool, Failed>
    ensures told { WhereTold D.Disk (IfOk result (λ b. IsTrue b ↔ (slice_index (content file (D.reads disk.old)) 0 ≢ 1))) }
    ensures quiet { OnlyReads D.Disk disk.old disk.new }
    ensures counts { Counts D.Disk disk.old disk.new result }
{
    let mut gate = [0];
    disk.read(file, 0, &mut gate)?;
    Ok(gate[0] != 1)
}

fn put_frame(buffer: &mut Vec<u8>, bytes: &[u8])
    requires { vec_len buffer.old + 8 + length bytes.now ≤ vec_capacity buffer.old }
    ensures items { buffer.new.items ≡ buffer.old.items ++ frame bytes.now }
    ensures long { vec_len buffer.new ≡ vec_len buffer.old + (8 + length bytes.now) }
    ensures capacity { vec_capacity buffer.old ≤ vec_capacity buffer.new }
{
    let mut len = [0; 8];
    put_u64(&mut len, 0, bytes.len() as u64);
    put_bytes(buffer, &len);
    put_bytes(buffer, bytes);
}

fn put_bytes(buffer: &mut Vec<u8>, bytes: &[u8])
    requires { vec_len buffer.old + length bytes.now ≤ vec_capacity buffer.old }
    ensures items { buffer.new.items ≡ buffer.old.items ++ bytes.now }
    ensures long { vec_len buffer.new ≡ vec_len buffer.old + length bytes.now }
    ensures capacity { vec_capacity buffer.old ≤ vec_capacity buffer.new }
{
    let Ok(()) = buffer.extend_from_slice(bytes) else {
        unreachable!()
    };
}

// Fills in the head, and puts the closed gate behind the frames.
fn seal(buffer: &mut Vec<u8>, first: Lsn, count: u32)
    requires head { 20 ≤ vec_len buffer.old }
    requires spare { vec_len buffer.old < vec_capacity buffer.old }
    ensures items { buffer.new.items ≡ sealed first count (drop 20 buffer.old.items) }
    ensures long { vec_len buffer.new ≡ vec_len buffer.old + 1 }
    ensures capacity { vec_capacity buffer.old ≤ vec_capacity buffer.new }
{
    fill_head(buffer.as_mut_slice(), first, count);
    put_bytes(buffer, &[0]);
}

fn fill_head(body: &mut [u8], first: Lsn, count: u32)
    requires { 20 ≤ length body.old }
    ensures { body.new ≡ headed first count (drop 20 body.old) }
{
    let frames_len = (body.len() - HEAD) as u64;
    put_u64(body, 0, frames_len);
    put_u64(body, 8, first);
    put_u32(body, 16, count);
}

/// Writes the batch and the closed gate behind its own, and then opens that.
pub fn write_batch<D: Disk>(disk: &mut D, file: File, place: u64, body: &[u8]) -> Result<(), Failed>
    requires { place < 2 ^ 63 }
    ensures any_moment { (first : ℕ) (bs : Batches) (rs : List (List ℕ)) → IsSettled D.Disk disk.old
        → Extends first bs rs place body.now (content file (D.reads disk.old)) → LeavesOnly D.Disk disk.old disk.new (IsBeforeOrAfter file first bs rs (D.reads disk.old)) }
    ensures added { (first : ℕ) (bs : Batches) (rs : List (List ℕ)) → IsTrue D.tells
        → Extends first bs rs place body.now (content file (D.reads disk.old)) → OnOk result (IsAfter file first bs rs (D.reads disk.old) (D.reads disk.new)) }
    ensures durable { OnOk result (IsDurable D.Disk disk.new) }
    ensures later { D.moment_of disk.old ≤ D.moment_of disk.new }
    ensures fits { OnOk result (place + 1 + length body.now < 2 ^ 63) }
    ensures cause { HasCause (D.faults_of disk.old) (D.faults_of disk.new) result }
    ensures stray { place + 1 + length body.now < 2 ^ 63 → D.strays_of disk.new ≡ D.strays_of disk.old }
{
    write_through(disk, file, place + 1, body)?;
    write_through(disk, file, place, &[1])
}
