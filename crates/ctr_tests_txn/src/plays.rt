// A play over a store in memory: a database of nine tables, which are laid by hand.
ghost use Rattle.std.specs.Prelude.{◌≡◌, false, IfSome};

use crate::fixed_disk::FixedDisk;
use crate::refused::Refused;
use crate::turns::Mem;
use ctr_base::Origin;
use ctr_disk::{Disk, Failed};
use ctr_store::{Store, create};
use ctr_txn::Txns;
use ctr_types::File;
use std::alloc::{AllocError, Global};
use std::marker::Brand;

/// Calls on the transactions of a database of nine tables, where the next transaction is 2. What they were answered is kept in
/// the play.
pub trait Play {
    fn play(&mut self, alloc: Global, txns: &mut Txns, store: &mut Mem) -> Result<(), Refused>
        requires { store.old.stopped ≡ false };
}

// The one function that makes a database; where that fails, opening it does too.
fn created<D: Disk + Drop>(disk: D) -> D {
    match create(disk) {
        Ok(disk) => disk,
        Err((_, disk)) => disk,
    }
}

// Page 1 is open at home.
const HOME: [u8; 13] = *b"\x01\x01\0\0\0\x01\0\0\0\0\0\0\0";

// How the title of a table begins that transaction 1 made: its name, one byte, is behind it, and then one column k.
const TITLE: [u8; 18] = *b"\x01\x01\0\0\0\0\0\0\0\0\0\0\0\0\0\0\0\x01";

// The entries 0 to 8 are tables from a to i, and the next transaction is 2.
fn lay<D: Disk>(disk: &mut D) -> Result<(), Failed> {
    disk.write(File::LogA, 30, &[2])?;
    disk.write(File::Pages, 8_256, &HOME)?;
    for entry in 0..9_u8 {
        let at = 8_269 + 256 * entry as u64;
        disk.write(File::Pages, at, &TITLE)?;
        disk.write(File::Pages, at + 18, &[b'a' + entry])?;
        disk.write(File::Pages, at + 34, b"\x01\x01k")?;
    }
    Ok(())
}

// A disk that has them. Where it fails, opening it does too, or the play.
fn laid(alloc: Global) -> Result<FixedDisk, AllocError> {
    let mut disk = created(FixedDisk::new(alloc)?);
    let _ = lay(&mut disk);
    Ok(disk)
}

// The one function that opens a store.
fn opened_on<D: Disk + Drop, O: Origin>(alloc: Global, disk: D) -> Option<Store<D, O>>
    requires named { O.first ≡ D.reads disk }
    ensures going { IfSome result (λ store. store.stopped ≡ false) }
{
    match Store::<D, O>::open(alloc, disk, 8) {
        Ok(store) => Some(store),
        Err(_) => None,
    }
}

// The store of the nine tables.
fn opened(alloc: Global) -> Option<Mem>
    ensures going { IfSome result (λ store. store.stopped ≡ false) }
{
    match laid(alloc) {
        Ok(disk) => opened_on::<FixedDisk, Brand>(alloc, disk),
        Err(_) => None,
    }
}

// The one function that owns transactions.
fn play_over<P: Play>(alloc: Global, store: &mut Mem, play: &mut P) -> Result<(), Refused>
    requires { store.old.stopped ≡ false }
{
    let mut txns = Txns::new(alloc, store.meta().next())?;
    play.play(alloc, &mut txns, store)
}

fn play_on<P: Play>(alloc: Global, store: Mem, play: &mut P) -> Result<(), Refused>
    requires { store.stopped ≡ false }
{
    let mut store = store;
    play_over(alloc, &mut store, play)
}

/// Plays it over the nine tables.
pub fn played<P: Play>(alloc: Global, play: &mut P) -> Result<(), Refused> {
    match opened(alloc) {
        Some(store) => play_on(alloc, store, play),
        None => Err(Refused::NotAsked),
    }
}
