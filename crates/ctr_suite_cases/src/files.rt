// The files of a database, and stores that are opened on them. Whoever owns a disk or a store here does nothing else.
ghost use Rattle.std.specs.Prelude.{◌≡◌, ◌≤◌, false, IfSome, OnOk};

use crate::lists::set;
use crate::trouble::Trouble;
use ctr_base::Origin;
use ctr_disk::{Disk, StoreFault};
use ctr_mem_disk::{Image, MemDisk, SilentDisk};
use ctr_store::{Store, create};
use ctr_types::{File, List};
use std::alloc::{AllocError, Global};
use std::marker::Brand;

/// The files of a database, and whether stores over them have as few frames as there may be, 8, or 64.
#[derive(Drop)]
pub struct Files {
    pub image: Image,
    pub few: bool,
}

/// A store over a disk in memory.
pub type Mem = Store<SilentDisk, Brand>;

/// How many pages there may be, and how many frames a store has at most.
const MOST_PAGES: u32 = 30_000;

const MOST_FRAMES: u32 = 64;

// A disk that holds these files.
fn disk_of(alloc: Global, files: &Image) -> Result<SilentDisk, AllocError> {
    let files = files.copy()?;
    let disk = MemDisk::new(alloc, files, List::new(alloc))?;
    Ok(SilentDisk { disk })
}

// The one function that opens a store; none where the files are refused.
fn opened_on<D: Disk + Drop, O: Origin>(
    alloc: Global,
    disk: D,
    frames: usize,
) -> Option<Store<D, O>>
    requires named { O.first ≡ D.reads disk }
    requires frames { (8 ≤ frames) × (frames ≤ 4096) }
    ensures going { IfSome result (λ store. store.stopped ≡ false) }
{
    match Store::<D, O>::open(alloc, disk, frames) {
        Ok(store) => Some(store),
        Err(_) => None,
    }
}

/// A store over these files, unless they are refused.
pub fn opened(alloc: Global, files: &Files) -> Option<Mem>
    ensures going { IfSome result (λ store. store.stopped ≡ false) }
{
    let frames = if files.few { 8 } else { 64 };
    match disk_of(alloc, &files.image) {
        Ok(disk) => opened_on::<SilentDisk, Brand>(alloc, disk, frames),
        Err(_) => None,
    }
}

// The one function that makes a database; where that fails, opening it does too.
fn created<D: Disk + Drop>(disk: D) -> D {
    match create(disk) {
        Ok(disk) => disk,
        Err((_, disk)) => disk,
    }
}

/// The files of a new database.
pub fn made(alloc: Global) -> Result<Image, AllocError> {
    let disk = MemDisk::new(alloc, Image::new(alloc), List::new(alloc))?;
    Ok(files_of(created(SilentDisk { disk })))
}

// Writes all pages home, at most so many.
fn write_all(store: &mut Mem, most: u32) -> Result<(), StoreFault>
    requires going { store.old.stopped ≡ false }
    ensures going { OnOk result (store.new.stopped ≡ false) }
{
    for _ in 0..most {
        if !store.write_one_dirty()? {
            return Ok(());
        }
    }
    Ok(())
}

// Writes all pages of a store home that was opened for that: the disk that it leaves, and how it went.
fn settle(store: Mem) -> (SilentDisk, Result<(), StoreFault>)
    requires going { store.stopped ≡ false }
{
    let mut store = store;
    let done = write_all(&mut store, MOST_FRAMES);
    (store.into_disk(), done)
}

// A bit for each page that there may be, but the first three.
fn all_bits(alloc: Global) -> Result<Vec<u8>, AllocError> {
    let mut bits = Vec::new(alloc);
    bits.push(248)?;
    bits.resize(3_750, 255)?;
    Ok(bits)
}

fn write_bits(alloc: Global, image: &mut Image, bits: &[u8]) -> Result<(), AllocError> {
    image.write(alloc, File::Pages, 13, bits)?;
    image.write(alloc, File::Pages, 4_141, bits)
}

// In both homes of page 0 a bit for each page that there may be; a root that was written once counts them.
fn allocate_all(alloc: Global, image: &mut Image) -> Result<(), AllocError> {
    let bits = all_bits(alloc)?;
    let written = write_bits(alloc, image, &bits);
    drop(bits);
    written?;
    image.write(alloc, File::Root, 34, &MOST_PAGES.to_le_bytes())?;
    image.set_len(alloc, File::Pages, 8_256 * MOST_PAGES as u64)
}

/// Counts and allocates all pages that there may be, in files whose root was written once.
pub fn fill(alloc: Global, files: &mut Files) -> Result<(), Trouble> {
    let Some(store) = opened(alloc, files) else {
        return Err(Trouble::NotOpened);
    };
    let (disk, done) = settle(store);
    set(&mut files.image, files_of(disk));
    done?;
    allocate_all(alloc, &mut files.image)?;
    Ok(())
}

/// The files that a disk holds.
pub fn files_of(disk: SilentDisk) -> Image {
    disk.disk.into_image()
}
