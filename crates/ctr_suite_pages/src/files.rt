// The files of a database, and stores that are opened on them. Whoever owns a disk or a store here does nothing else.
ghost use Rattle.std.specs.Prelude.{◌≡◌, false, IfSome};

use crate::turns::{FRAMES, Mem};
use ctr_base::Origin;
use ctr_disk::Disk;
use ctr_mem_disk::{Image, MemDisk, SilentDisk};
use ctr_store::{Store, create};
use ctr_types::{File, List};
use std::alloc::{AllocError, Global};
use std::marker::Brand;

// A disk that holds these files.
fn disk_of(alloc: Global, files: &Image) -> Result<SilentDisk, AllocError> {
    let files = files.copy()?;
    let disk = MemDisk::new(alloc, files, List::new(alloc))?;
    Ok(SilentDisk { disk })
}

// The one function that opens a store; none where the files are refused.
fn opened_on<D: Disk + Drop, O: Origin>(alloc: Global, disk: D) -> Option<Store<D, O>>
    requires named { O.first ≡ D.reads disk }
    ensures going { IfSome result (λ store. store.stopped ≡ false) }
{
    match Store::<D, O>::open(alloc, disk, FRAMES) {
        Ok(store) => Some(store),
        Err(_) => None,
    }
}

/// A store over these files, unless they are refused.
pub fn opened(alloc: Global, files: &Image) -> Option<Mem>
    ensures going { IfSome result (λ store. store.stopped ≡ false) }
{
    match disk_of(alloc, files) {
        Ok(disk) => opened_on::<SilentDisk, Brand>(alloc, disk),
        Err(_) => None,
    }
}

// The one function that makes a database; where that fails, opening it does too.
fn created<D: Disk + Drop>(disk: D) -> D {
    match create(disk) {
        Ok(disk) => disk,
        Err((_, disk)) => disk,
    }
}

/// The files of a new database.
pub fn made(alloc: Global) -> Result<Image, AllocError> {
    let disk = MemDisk::new(alloc, Image::new(alloc), List::new(alloc))?;
    Ok(created(SilentDisk { disk }).disk.into_image())
}

/// The files that a store leaves. What isn't hardened is lost.
pub fn files_of(store: Mem) -> Image {
    store.into_disk().disk.into_image()
}

/// So many bytes of a page, from this one on, are this one in both its homes.
pub fn alter_page(
    alloc: Global,
    files: &mut Image,
    page: u32,
    at: u16,
    byte: u8,
    count: u16,
) -> Result<(), AllocError> {
    let mut bytes = Vec::new(alloc);
    bytes.resize(count as usize, byte)?;
    let home = 8_256 * page as u64 + 13 + at as u64;
    files.write(alloc, File::Pages, home, &bytes)?;
    files.write(alloc, File::Pages, home + 4_128, &bytes)
}

/// So many pages are counted, by a root that was written once.
pub fn count_pages(alloc: Global, files: &mut Image, pages: u32) -> Result<(), AllocError> {
    files.write(alloc, File::Root, 34, &pages.to_le_bytes())?;
    files.set_len(alloc, File::Pages, 8_256 * pages as u64)
}
