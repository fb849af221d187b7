// Turns of a store: room for a record, a transaction's begin.
ghost use Rattle.std.specs.Prelude.{◌≡◌, false, IsTrue, IfOk, OnOk};
ghost use Rattle.ctr_walk.specs.OneRecord.{HasRoomForOne};

use crate::told::Told;
use ctr_disk::StoreFault;
use ctr_mem_disk::SilentDisk;
use ctr_rec::Record;
use ctr_snap::Snapshot;
use ctr_store::Store;
use ctr_types::OutOfMemory;
use ctr_walk::log_record;
use std::alloc::Global;
use std::marker::Brand;

/// A store over a disk in memory.
pub type Mem = Store<SilentDisk, Brand>;

/// How many turns for room there are at most until there is room.
const TURNS: u32 = 3;

/// How many frames a store has.
pub const FRAMES: usize = 8;

// Takes turns for room, at most so many, until there is room.
fn make_room(store: &mut Mem, most: u32) -> Result<(), StoreFault>
    requires going { store.old.stopped ≡ false }
    ensures going { OnOk result (store.new.stopped ≡ false) }
    ensures counted { store.new.now.counted ≡ store.old.now.counted }
{
    if most == 0 || store.room() {
        return Ok(());
    }
    store.make_room()?;
    make_room(store, most - 1)
}

/// Makes room for one record more, and for the transactions and items that it adds; whether there is.
pub fn ready(store: &mut Mem, opens: usize, items: usize) -> Result<bool, StoreFault>
    requires going { store.old.stopped ≡ false }
    ensures going { OnOk result (store.new.stopped ≡ false) }
    ensures room { IfOk result (λ is. IsTrue is → HasRoomForOne opens items store.new) }
    ensures counted { store.new.now.counted ≡ store.old.now.counted }
{
    make_room(store, TURNS)?;
    if store.reserve(opens, items).is_err() {
        return Ok(false);
    }
    Ok(store.room() && store.next() < 1 << 62)
}

/// Begins the next transaction.
pub fn begin(store: &mut Mem) -> Result<Told, StoreFault>
    requires going { store.old.stopped ≡ false }
    ensures going { OnOk result (store.new.stopped ≡ false) }
{
    if !ready(store, 1, 0)? {
        return Ok(Told::NotAsked);
    }
    let x = store.meta().next();
    if x == u64::MAX {
        return Ok(Told::NotAsked);
    }
    let _lsn = log_record(store, &Record::Begin { x })?;
    Ok(Told::Number(x))
}

/// Commits a transaction.
pub fn commit(store: &mut Mem, x: u64) -> Result<Told, StoreFault>
    requires going { store.old.stopped ≡ false }
    ensures going { OnOk result (store.new.stopped ≡ false) }
{
    if !ready(store, 0, 0)? {
        return Ok(Told::NotAsked);
    }
    let _lsn = log_record(store, &Record::Commit { x })?;
    Ok(Told::Done)
}

/// Rolls a transaction back; its heads stay.
pub fn abort(store: &mut Mem, x: u64) -> Result<Told, StoreFault>
    requires going { store.old.stopped ≡ false }
    ensures going { OnOk result (store.new.stopped ≡ false) }
{
    if !ready(store, 0, 0)? {
        return Ok(Told::NotAsked);
    }
    let _lsn = log_record(store, &Record::Abort { x })?;
    Ok(Told::Done)
}

// Adds the transactions that are open.
fn add_open(open: &mut Vec<u64>, store: &Mem, alloc: Global) -> Result<(), OutOfMemory> {
    for (xid, _heads) in store.meta().opens(alloc)?.iter() {
        open.push(*xid)?;
    }
    Ok(())
}

/// A snapshot of what is committed now.
pub fn snap(alloc: Global, store: &Mem) -> Result<Snapshot, OutOfMemory> {
    let mut open = Vec::new(alloc);
    add_open(&mut open, store, alloc)?;
    let snapshot = Snapshot::take(alloc, store.meta().next(), &open);
    drop(open);
    snapshot
}

// Writes all pages home, at most so many.
fn write_all(store: &mut Mem, most: usize) -> bool
    requires going { store.old.stopped ≡ false }
{
    if most == 0 {
        return true;
    }
    match store.write_one_dirty() {
        Ok(true) => write_all(store, most - 1),
        Ok(false) => true,
        Err(_) => false,
    }
}

/// All is hardened, and written home; whether that was done.
pub fn settle(store: &mut Mem) -> bool
    requires going { store.old.stopped ≡ false }
{
    ready(store, 0, 0).is_ok() && write_all(store, FRAMES)
}
