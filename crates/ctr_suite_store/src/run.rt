// Playing steps on a store in memory.
ghost use Rattle.std.specs.Prelude.{◌≡◌, false, IsTrue, OnOk};
ghost use Rattle.ctr_redo.specs.Overlaid.{overlay_of};
ghost use Rattle.ctr_redo.specs.Fitting.{LiesInside};
ghost use Rattle.ctr_store.specs.Changes.{IsChange};

use crate::generation;
use crate::opening::{created, opened_or_disk};
use crate::plain::Plain;
use crate::steps::{Overlay, Step};
use ctr_disk::StoreFault;
use ctr_mem_disk::{Image, MemDisk, SilentDisk};
use ctr_meta::room_for;
use ctr_rec::{Form, Record, decode, to_form};
use ctr_store::Store;
use ctr_types::List;
use std::alloc::{AllocError, Global};
use std::marker::Brand;

/// A store over a disk in memory.
pub type Mem = Store<SilentDisk, Brand>;

/// How many turns for room there are at most until there is room.
const TURNS: u32 = 3;

/// How many pages are looked at.
pub const PAGES: u32 = 200;

/// How far a run has come: the states behind each number of records, how many records are surely durable, how many pages are
/// counted, and whether a call was answered an error.
#[derive(Drop)]
pub struct Progress {
    pub plain: Plain,
    pub durable: usize,
    pub pages: u32,
    pub failed: bool,
}

impl Progress {
    /// Of a store in which so many pages are counted, and none has anything.
    pub fn new(alloc: Global, pages: u32) -> Result<Progress, AllocError> {
        Ok(Progress {
            plain: Plain::new(alloc, PAGES)?,
            durable: 0,
            pages,
            failed: false,
        })
    }
}

// Adds the bytes of a record on a page: this number, a transaction where there is one, eight such bytes at a place.
fn add_record(
    bytes: &mut Vec<u8>,
    tag: u8,
    xid: Option<u64>,
    overlay: Overlay,
) -> Result<(), AllocError> {
    bytes.push(tag)?;
    if let Some(xid) = xid {
        bytes.extend_from_slice(&xid.to_le_bytes())?;
    }
    bytes.push(1)?;
    bytes.extend_from_slice(&overlay.page.to_le_bytes())?;
    bytes.extend_from_slice(&overlay.at.to_le_bytes())?;
    bytes.extend_from_slice(&8u16.to_le_bytes())?;
    bytes.extend_from_slice(&[overlay.byte; 8])
}

// The bytes of such a record.
fn record_bytes(
    alloc: Global,
    tag: u8,
    xid: Option<u64>,
    overlay: Overlay,
) -> Result<Vec<u8>, AllocError> {
    let mut bytes = Vec::new(alloc);
    add_record(&mut bytes, tag, xid, overlay)?;
    Ok(bytes)
}

// The bytes of a Begin.
fn begin_bytes(alloc: Global, xid: u64) -> Result<Vec<u8>, AllocError> {
    let mut bytes = Vec::new(alloc);
    bytes.push(2)?;
    bytes.extend_from_slice(&xid.to_le_bytes())?;
    bytes.push(0)?;
    Ok(bytes)
}

// Whether a record is no Checkpoint, and lies on a counted page where it is on one.
fn is_inside(rec: &Record, counted: u32) -> bool
    ensures { IsTrue result → IsChange rec.now × LiesInside counted (overlay_of rec.now) }
{
    let Form::Fields(parts) = to_form(rec) else {
        return false;
    };
    match parts.overlay {
        Some(overlay) => overlay.page < counted,
        None => true,
    }
}

// Logs the record that bytes are, where that may be; it says whether it did.
fn log_bytes(store: &mut Mem, bytes: &[u8]) -> Result<bool, StoreFault>
    requires going { store.old.stopped ≡ false }
    ensures going { OnOk result (store.new.stopped ≡ false) }
{
    let Ok(rec) = decode(bytes) else {
        return Ok(false);
    };
    if !is_inside(&rec, store.counted()) {
        return Ok(false);
    }
    let room = room_for(&rec);
    if store.reserve(room.opens, room.items).is_err() {
        return Ok(false);
    }
    if !store.room() || store.next() >= 1 << 62 {
        return Ok(false);
    }
    store.log(&rec)?;
    Ok(true)
}

// The bytes of a step's record, where it has one.
fn bytes_of(alloc: Global, step: Step, next: u64) -> Option<Vec<u8>> {
    let made = match step {
        Step::Begin => begin_bytes(alloc, next),
        Step::Keep(overlay) => record_bytes(alloc, 16, Some(1), overlay),
        Step::Trim(overlay) => record_bytes(alloc, 18, None, overlay),
        _ => return None,
    };
    made.ok()
}

// What a step's record makes of the plain pages.
fn put_plainly(plain: &mut Plain, step: Step) {
    let _ = match step {
        Step::Begin => plain.begin(),
        Step::Keep(overlay) => plain.put(overlay),
        Step::Trim(overlay) => plain.put(overlay),
        _ => Ok(()),
    };
}

// Takes a step that logs, of which the plain pages hear where it did.
fn do_log(alloc: Global, store: &mut Mem, plain: &mut Plain, step: Step) -> Result<(), StoreFault>
    requires going { store.old.stopped ≡ false }
    ensures going { OnOk result (store.new.stopped ≡ false) }
{
    let Some(bytes) = bytes_of(alloc, step, plain.last().next) else {
        return Ok(());
    };
    if log_bytes(store, &bytes)? {
        put_plainly(plain, step);
    }
    Ok(())
}

// Takes turns for room, at most so many, until there is room.
fn make_room(store: &mut Mem, most: u32) -> Result<(), StoreFault>
    requires going { store.old.stopped ≡ false }
    ensures going { OnOk result (store.new.stopped ≡ false) }
{
    if most == 0 || store.room() {
        return Ok(());
    }
    store.make_room()?;
    make_room(store, most - 1)
}

// Reads the first so many pages, one after another and again from the first.
fn read_pages(store: &mut Mem, times: u32, pages: u32) -> Result<(), StoreFault>
    requires going { store.old.stopped ≡ false }
    ensures going { OnOk result (store.new.stopped ≡ false) }
{
    let pages = pages.max(1);
    for i in 0..times {
        let _bytes = store.page(i % pages)?;
    }
    Ok(())
}

// Begins a generation, where one may begin.
fn switch(alloc: Global, store: &mut Mem) -> Result<(), StoreFault>
    requires going { store.old.stopped ≡ false }
    ensures going { OnOk result (store.new.stopped ≡ false) }
{
    if store.keeps_older() || !store.is_hardened() || store.next() >= 1 << 62 {
        return Ok(());
    }
    let _begun = store.begin_checkpoint(alloc)?;
    Ok(())
}

// Takes a step.
fn do_step(alloc: Global, store: &mut Mem, plain: &mut Plain, step: Step) -> Result<(), StoreFault>
    requires going { store.old.stopped ≡ false }
    ensures going { OnOk result (store.new.stopped ≡ false) }
{
    match step {
        Step::Harden => store.harden(),
        Step::Write => {
            let _wrote = store.write_one_dirty()?;
            Ok(())
        }
        Step::Grow => {
            if store.counted() >= 30_000 {
                return Ok(());
            }
            store.grow_extent()
        }
        Step::Room => make_room(store, TURNS),
        Step::Read { times, pages } => read_pages(store, times, pages),
        Step::Switch => switch(alloc, store),
        Step::Forget => {
            let _dropped = store.end_checkpoint()?;
            Ok(())
        }
        _ => do_log(alloc, store, plain, step),
    }
}

// Takes steps one after another, up to one that is answered an error; it says how many records are surely durable.
fn do_steps(alloc: Global, store: &mut Mem, plain: &mut Plain, steps: &[Step]) -> (usize, bool)
    requires going { store.old.stopped ≡ false }
{
    let mut durable = 0;
    for step in steps {
        if do_step(alloc, store, plain, *step).is_err() {
            return (durable, true);
        }
        if matches!(step, Step::Harden) {
            durable = plain.count();
        }
    }
    (durable, false)
}

// Takes steps on a store; what comes of that is told to the run.
fn take_steps(alloc: Global, store: &mut Mem, progress: &mut Progress, steps: &[Step])
    requires going { store.old.stopped ≡ false }
{
    let (hardened, failed) = do_steps(alloc, store, &mut progress.plain, steps);
    progress.durable = progress.durable.max(hardened);
    progress.pages = store.counted();
    progress.failed = failed;
}

// The same on a store that was opened for that; the disk that it leaves.
fn take_steps_on(alloc: Global, store: Mem, progress: &mut Progress, steps: &[Step]) -> SilentDisk
    requires going { store.stopped ≡ false }
{
    let mut store = store;
    take_steps(alloc, &mut store, progress, steps);
    store.into_disk()
}

// Opens the store of a disk, and takes steps on it, up to one that is answered an error; the disk that is left.
fn go_on(alloc: Global, disk: SilentDisk, progress: &mut Progress, steps: &[Step]) -> SilentDisk {
    match opened_or_disk::<SilentDisk, Brand>(alloc, disk) {
        Ok(store) => take_steps_on(alloc, store, progress, steps),
        Err(disk) => {
            progress.failed = true;
            disk
        }
    }
}

/// The files that a disk holds.
pub fn image_of(disk: SilentDisk) -> Image {
    disk.disk.into_image()
}

// A disk that holds these files, and of which these calls fail.
fn disk_of(alloc: Global, files: &Image, fails: List<u64>) -> Result<SilentDisk, AllocError> {
    let files = files.copy()?;
    let disk = MemDisk::new(alloc, files, fails)?;
    Ok(SilentDisk { disk })
}

// So many growths.
fn growing(alloc: Global, growths: u64) -> Result<Vec<Step>, AllocError> {
    let mut steps = Vec::new(alloc);
    for _ in 0..growths {
        steps.push(Step::Grow)?;
    }
    Ok(steps)
}

// A disk with no files.
fn empty_disk(alloc: Global) -> Result<SilentDisk, AllocError> {
    let disk = MemDisk::new(alloc, Image::new(alloc), List::new(alloc))?;
    Ok(SilentDisk { disk })
}

// The files of a new database, on whose store these steps were taken.
fn made_by(alloc: Global, steps: &[Step], progress: &mut Progress) -> Result<Image, AllocError> {
    let disk = created(empty_disk(alloc)?);
    Ok(image_of(go_on(alloc, disk, progress, steps)))
}

/// The files of a new store that has grown so often.
pub fn made(alloc: Global, growths: u64) -> Result<Image, AllocError> {
    let steps = growing(alloc, growths)?;
    let mut progress = Progress::new(alloc, 0)?;
    made_by(alloc, &steps, &mut progress)
}

// Begins a second generation behind a run, all of whose records are durable.
fn begin_generation(alloc: Global, disk: &mut SilentDisk, progress: &mut Progress) {
    let hardened = progress.durable == progress.plain.count();
    let begun = hardened && generation::begin(alloc, disk, &progress.plain);
    progress.failed = !begun;
}

// Takes steps on a disk; a generation is begun between two stores.
fn play_on(alloc: Global, disk: SilentDisk, progress: &mut Progress, steps: &[Step]) -> SilentDisk {
    let mut disk = disk;
    let mut first = true;
    for part in steps.split(|step| step.is_generation()) {
        if !first && !progress.failed {
            begin_generation(alloc, &mut disk, progress);
        }
        if !progress.failed {
            disk = go_on(alloc, disk, progress, part);
        }
        first = false;
    }
    disk
}

/// Takes steps on a store over these files, and of whose disk these calls fail, up to one that is answered an error; the disk that
/// is left.
pub fn play(
    alloc: Global,
    files: &Image,
    steps: &[Step],
    fails: List<u64>,
    progress: &mut Progress,
) -> Result<SilentDisk, AllocError> {
    let disk = disk_of(alloc, files, fails)?;
    Ok(play_on(alloc, disk, progress, steps))
}
