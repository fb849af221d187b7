// Reads along the versions of a row, and what they cost.
ghost use Rattle.std.specs.Prelude.{◌≡◌, ◌<◌, false, IsTrue, OnOk};

use crate::files::opened;
use crate::told::Told;
use crate::turns::Mem;
use ctr_chain::{ReadRefusal, newest, visible};
use ctr_disk::StoreFault;
use ctr_mem_disk::{Call, Image, MemDisk};
use ctr_page::Place;
use ctr_snap::Snapshot;
use ctr_types::{File, Row, Value};
use std::alloc::Global;

// Whether the calls on a row at a place may be made.
fn may_read(store: &Mem, place: Place) -> bool
    ensures { IsTrue result → place.page < store.now.now.counted }
{
    place.page < store.counted()
}

// The first value behind the key, of a text its length; or the key.
fn first_value(row: &Row) -> Told {
    let values = row.values.as_slice();
    let value = match values.get(1) {
        Some(value) => Some(value),
        None => values.first(),
    };
    match value {
        Some(Value::Int(number)) => Told::Value(*number),
        Some(Value::Chars(text)) => Told::Number(text.as_slice().len() as u64),
        None => Told::None,
    }
}

/// What a snapshot sees of the row at a place, as a transaction or as none.
pub fn read(
    alloc: Global,
    store: &mut Mem,
    place: Place,
    snapshot: &Snapshot,
    me: Option<u64>,
) -> Result<Told, StoreFault>
    requires going { store.old.stopped ≡ false }
    ensures going { OnOk result (store.new.stopped ≡ false) }
{
    if !may_read(store, place) {
        return Ok(Told::NotAsked);
    }
    match visible(alloc, store, place, snapshot, me) {
        Ok(Some(row)) => Ok(first_value(&row)),
        Ok(None) => Ok(Told::None),
        Err(ReadRefusal::OutOfMemory) => Ok(Told::NoMemory),
        Err(ReadRefusal::Store(fault)) => Err(fault),
    }
}

/// Whose the newest committed version of the row at a place is.
pub fn newest_of(store: &mut Mem, place: Place) -> Result<Told, StoreFault>
    requires going { store.old.stopped ≡ false }
    ensures going { OnOk result (store.new.stopped ≡ false) }
{
    if !may_read(store, place) {
        return Ok(Told::NotAsked);
    }
    match newest(store, place)? {
        Some(x) => Ok(Told::Number(x)),
        None => Ok(Told::None),
    }
}

// Reads this page and those below it, so many.
fn read_down(store: &mut Mem, from: u32, count: u32) -> bool
    requires going { store.old.stopped ≡ false }
    ensures going { IsTrue result → store.new.stopped ≡ false }
{
    if count == 0 {
        return true;
    }
    store.page(from).is_ok() && read_down(store, from.wrapping_sub(1), count - 1)
}

// How many bodies of pages a disk was asked for.
fn bodies_read(disk: &MemDisk) -> usize {
    let mut count = 0usize;
    for recorded in disk.calls() {
        if let Call::Read { file, len, .. } = &recorded.call {
            if *file == File::Pages && *len == 4_096 {
                count = count.wrapping_add(1);
            }
        }
    }
    count
}

// On an open store the pages from 63 down to 40 are read, so that no other page is in a frame, and then a row by a snapshot where
// one is asked for; whether that was done.
fn read_apart(alloc: Global, store: &mut Mem, asked: Option<(Place, &Snapshot)>) -> bool
    requires going { store.old.stopped ≡ false }
{
    if !read_down(store, 63, 24) {
        return false;
    }
    match asked {
        Some((place, snapshot)) => read(alloc, store, place, snapshot, None).is_ok(),
        None => true,
    }
}

// How many bodies of pages such a store reads.
fn bodies_of(alloc: Global, store: Mem, asked: Option<(Place, &Snapshot)>) -> Option<usize>
    requires going { store.stopped ≡ false }
{
    let mut store = store;
    let done = read_apart(alloc, &mut store, asked);
    let disk = store.into_disk();
    let bodies = bodies_read(&disk.disk);
    drop(disk);
    if done { Some(bodies) } else { None }
}

// The same of a store that is opened on these files.
fn cost_with(alloc: Global, files: &Image, asked: Option<(Place, &Snapshot)>) -> Option<usize> {
    match opened(alloc, files) {
        Some(store) => bodies_of(alloc, store, asked),
        None => None,
    }
}

/// How many pages are read from the disk where a snapshot reads the row at a place, and no page that it needs is in a frame.
pub fn cost(alloc: Global, files: &Image, place: Place, snapshot: &Snapshot) -> Told {
    let without = cost_with(alloc, files, None);
    let with = cost_with(alloc, files, Some((place, snapshot)));
    match (without, with) {
        (Some(without), Some(with)) => Told::Number(with.saturating_sub(without) as u64),
        _ => Told::NotAsked,
    }
}
