// Stores over disks. What an opening gives is taken apart here, at any disk, and nowhere else.
ghost use Rattle.std.specs.Prelude.{◌≡◌, false, [], IfOk};

use ctr_base::Origin;
use ctr_disk::Disk;
use ctr_log::OpenError;
use ctr_store::{Store, create};
use std::alloc::Global;

/// How many frames a store has.
pub const FRAMES: usize = 8;

/// The store of a disk, or why there is none.
pub fn opened_or_error<D: Disk + Drop, O: Origin>(
    alloc: Global,
    disk: D,
) -> Result<Store<D, O>, OpenError>
    requires named { O.first ≡ D.reads disk }
    ensures going { IfOk result (λ store. store.stopped ≡ false) }
{
    match Store::<D, O>::open(alloc, disk, FRAMES) {
        Ok(store) => Ok(store),
        Err((error, _)) => Err(error),
    }
}

/// The store of a disk, or the disk.
pub fn opened_or_disk<D: Disk, O: Origin>(alloc: Global, disk: D) -> Result<Store<D, O>, D>
    requires named { O.first ≡ D.reads disk }
    ensures going { IfOk result (λ store. store.stopped ≡ false) }
    ensures none { IfOk result (λ store. store.waiting ≡ []) }
{
    match Store::<D, O>::open(alloc, disk, FRAMES) {
        Ok(store) => Ok(store),
        Err((_, disk)) => Err(disk),
    }
}

/// The disk with a new database, or as far as that was made.
pub fn created<D: Disk>(disk: D) -> D {
    match create(disk) {
        Ok(disk) => disk,
        Err((_, disk)) => disk,
    }
}
