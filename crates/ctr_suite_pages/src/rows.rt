// Steps on rows.
ghost use Rattle.std.specs.Prelude.{◌≡◌, ◌≤◌, ◌<◌, ◌+◌, ℕ, false, IsTrue, IfSome, OnOk};
ghost use Rattle.ctr_page.specs.Places.{start_of, slot_size as size_of_slot};
ghost use Rattle.ctr_page.specs.Making.{IsVersion, IsPrevious, IsSlot};
ghost use Rattle.ctr_walk.specs.Tables.{IsChain};

use crate::pages::{make_empty, put_in_front, rows_header, take};
use crate::told::Told;
use crate::turns::{Mem, ready};
use ctr_disk::StoreFault;
use ctr_heap::{find, free_slot, put_slot};
use ctr_page::{Chain, Place, RowSlot, Tombstone, Use, Version, bucket_of, slot_size};
use ctr_rec::Bytes;
use ctr_walk::first_page;

/// The widest payload.
pub const WIDEST: usize = 512;

/// Whether a place on a page has a slot of rows so wide.
pub fn lies(place: Place, width: usize) -> bool
    ensures { IsTrue result → (width ≤ WIDEST) × (start_of (size_of_slot width) place.slot + size_of_slot width ≤ 4096) }
{
    if width > WIDEST {
        return false;
    }
    let size = slot_size(width);
    16 + place.slot as usize * size + size <= 4_096
}

/// A version of a transaction, of the first of these bytes.
pub fn version_of<'a>(x: u64, width: usize, bytes: &'a [u8; WIDEST]) -> Version<'a>
    requires { width ≤ WIDEST }
    ensures fits { IsVersion width result }
    ensures own { result.xid ≡ x }
{
    Version {
        xid: x,
        tombstone: Tombstone::NONE,
        payload: Bytes::new(&bytes[..width]),
    }
}

/// A slot of a row.
pub fn slot_of<'a>(
    key: i64,
    head: Version<'a>,
    previous: Option<Version<'a>>,
    older: Place,
) -> RowSlot<'a>
    ensures fits { (w : ℕ) → IsVersion w head.entry → IsPrevious w previous.entry → IsSlot w result }
{
    RowSlot {
        used: Use::USED,
        key,
        head,
        previous,
        older,
    }
}

/// Lays a slot so wide at a place, where that may be; whether it did.
pub fn lay_slot(
    store: &mut Mem,
    x: u64,
    over: u64,
    place: Place,
    width: usize,
    slot: &RowSlot,
) -> Result<bool, StoreFault>
    requires going { store.old.stopped ≡ false }
    requires slot { IsSlot width slot.now }
    requires lies { (width ≤ WIDEST) × (start_of (size_of_slot width) place.slot + size_of_slot width ≤ 4096) }
    ensures going { OnOk result (store.new.stopped ≡ false) }
{
    if !ready(store, 0, 0)? || place.page >= store.counted() {
        return Ok(false);
    }
    put_slot(store, x, over, place, slot)?;
    Ok(true)
}

// A slot of a key and zeros, which replaces that of the same transaction, or none.
fn lay(
    store: &mut Mem,
    x: u64,
    over: u64,
    place: Place,
    width: usize,
    key: i64,
) -> Result<Told, StoreFault>
    requires going { store.old.stopped ≡ false }
    ensures going { OnOk result (store.new.stopped ≡ false) }
{
    if !lies(place, width) {
        return Ok(Told::NotAsked);
    }
    let zeros = [0; WIDEST];
    let slot = slot_of(
        key,
        version_of(x, width, &zeros),
        None,
        Place { page: 0, slot: 0 },
    );
    match lay_slot(store, x, over, place, width, &slot)? {
        true => Ok(Told::At(place)),
        false => Ok(Told::NotAsked),
    }
}

/// The slot of a key.
pub fn found(store: &mut Mem, entry: u8, key: i64) -> Result<Told, StoreFault>
    requires going { store.old.stopped ≡ false }
    ensures going { OnOk result (store.new.stopped ≡ false) }
{
    if entry >= 32 {
        return Ok(Told::NotAsked);
    }
    match find(store, entry, key)? {
        Some(place) => Ok(Told::At(place)),
        None => Ok(Told::None),
    }
}

/// A free slot of a bucket.
pub fn room(store: &mut Mem, entry: u8, bucket: u8) -> Result<Told, StoreFault>
    requires going { store.old.stopped ≡ false }
    ensures going { OnOk result (store.new.stopped ≡ false) }
{
    if bucket >= 8 || entry >= 32 {
        return Ok(Told::NotAsked);
    }
    match free_slot(store, entry, bucket)? {
        Some(place) => Ok(Told::At(place)),
        None => Ok(Told::None),
    }
}

// The chain of a bucket, or that of the versions.
fn chain_of(entry: u8, bucket: Option<u8>) -> Option<Chain>
    ensures { IfSome result IsChain }
{
    if entry >= 32 {
        return None;
    }
    match bucket {
        None => Some(Chain::Versions { entry }),
        Some(bucket) => {
            if bucket < 8 {
                Some(Chain::Rows { entry, bucket })
            } else {
                None
            }
        }
    }
}

/// The first page of a chain, by its bucket or for the versions.
pub fn first(store: &mut Mem, entry: u8, bucket: Option<u8>) -> Result<Told, StoreFault>
    requires going { store.old.stopped ≡ false }
    ensures going { OnOk result (store.new.stopped ≡ false) }
{
    let Some(chain) = chain_of(entry, bucket) else {
        return Ok(Told::NotAsked);
    };
    match first_page(store, chain)? {
        Some(page) => Ok(Told::Number(page as u64)),
        None => Ok(Told::None),
    }
}

/// A page more in a bucket's chain, at the front.
fn add_page(store: &mut Mem, x: u64, entry: u8, bucket: u8) -> Result<Told, StoreFault>
    requires going { store.old.stopped ≡ false }
    requires bucket { bucket < 8 }
    ensures going { OnOk result (store.new.stopped ≡ false) }
{
    if entry >= 32 {
        return Ok(Told::NotAsked);
    }
    let told = take(store, x)?;
    let Told::Number(page) = told else {
        return Ok(told);
    };
    let page = u32::try_from(page).unwrap_or(0);
    let first = first_page(store, Chain::Rows { entry, bucket })?;
    let header = rows_header(entry, bucket, first.unwrap_or(0));
    let _made = make_empty(store, x, page, header)?;
    let _linked = put_in_front(store, x, page, entry, Some(bucket))?;
    room(store, entry, bucket)
}

/// A free slot for a key that has none, on a page more where there is no other.
pub fn place_for(store: &mut Mem, x: u64, entry: u8, key: i64) -> Result<Told, StoreFault>
    requires going { store.old.stopped ≡ false }
    ensures going { OnOk result (store.new.stopped ≡ false) }
{
    let bucket = bucket_of(key);
    match room(store, entry, bucket)? {
        Told::None => add_page(store, x, entry, bucket),
        free => Ok(free),
    }
}

/// The row of a key, with zeros: over the one that is there, in a free slot, or on a page more.
pub fn put(store: &mut Mem, x: u64, entry: u8, width: usize, key: i64) -> Result<Told, StoreFault>
    requires going { store.old.stopped ≡ false }
    ensures going { OnOk result (store.new.stopped ≡ false) }
{
    match found(store, entry, key)? {
        Told::At(place) => return lay(store, x, x, place, width, key),
        Told::None => {}
        other => return Ok(other),
    }
    match place_for(store, x, entry, key)? {
        Told::At(place) => lay(store, x, 0, place, width, key),
        other => Ok(other),
    }
}

/// Rows of so many keys, from one on: where the last stands.
pub fn fill(
    store: &mut Mem,
    x: u64,
    entry: u8,
    width: usize,
    from: i64,
    count: u64,
) -> Result<Told, StoreFault>
    requires going { store.old.stopped ≡ false }
    ensures going { OnOk result (store.new.stopped ≡ false) }
{
    let told = put(store, x, entry, width, from)?;
    if count <= 1 {
        return Ok(told);
    }
    fill(store, x, entry, width, from.wrapping_add(1), count - 1)
}

// How many of so many keys are found, from one on, behind some that were.
fn seek(store: &mut Mem, entry: u8, from: i64, count: u64, some: u64) -> Result<u64, StoreFault>
    requires going { store.old.stopped ≡ false }
    ensures going { OnOk result (store.new.stopped ≡ false) }
{
    if count == 0 {
        return Ok(some);
    }
    let is = match found(store, entry, from)? {
        Told::At(_) => 1,
        _ => 0,
    };
    seek(
        store,
        entry,
        from.wrapping_add(1),
        count - 1,
        some.wrapping_add(is),
    )
}

/// How many of so many keys are found, from one on.
pub fn sought(store: &mut Mem, entry: u8, from: i64, count: u64) -> Result<Told, StoreFault>
    requires going { store.old.stopped ≡ false }
    ensures going { OnOk result (store.new.stopped ≡ false) }
{
    let some = seek(store, entry, from, count, 0)?;
    Ok(Told::Of(some, count))
}
