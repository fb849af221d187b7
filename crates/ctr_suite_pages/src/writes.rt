// Rows that are written by the rules of versions: what must be kept is kept first.
ghost use Rattle.std.specs.Prelude.{◌≡◌, ◌≤◌, ◌<◌, ◌+◌, Bool, false, OnOk};
ghost use Rattle.ctr_page.specs.Places.{start_of, slot_size as size_of_slot};
ghost use Rattle.ctr_page.specs.Making.{IsVersion, IsSlot, IsEntry};
ghost use Rattle.ctr_heap.specs.Ways.{IsWay};

use crate::rows::{WIDEST, found, lay_slot, lies, place_for};
use crate::told::Told;
use crate::turns::{Mem, begin, commit};
use crate::versions::{add_page, entry_lies, keep_at, payload, spare};
use ctr_disk::StoreFault;
use ctr_heap::{Way, first, replaced, to_keep, way_of, written};
use ctr_page::{Place, RowSlot, Tombstone, Version, VersionEntry, read_slot};
use ctr_rec::Bytes;
use ctr_types::Fate;

/// A row that is to be written.
#[derive(Clone, Copy)]
pub struct NewRow {
    /// The entry of its table.
    pub entry: u8,
    pub width: usize,
    pub key: i64,
    /// The first byte behind the key, or none where the row is deleted.
    pub says: Option<u8>,
}

impl NewRow {
    /// The same, with this byte behind the key.
    pub fn saying(self, byte: u8) -> NewRow {
        NewRow {
            says: Some(byte),
            ..self
        }
    }
}

// The bytes of a row behind its key.
fn bytes_of(row: NewRow) -> [u8; WIDEST] {
    payload(row.says.unwrap_or(0))
}

// The version that a transaction writes, with the first of these bytes behind its key.
fn version_by<'a>(x: u64, row: NewRow, bytes: &'a [u8; WIDEST]) -> Version<'a>
    requires { row.width ≤ WIDEST }
    ensures { IsVersion row.width result }
{
    Version {
        xid: x,
        tombstone: if row.says.is_none() {
            Tombstone::DELETED
        } else {
            Tombstone::NONE
        },
        payload: Bytes::new(&bytes[..row.width]),
    }
}

// A version entry that isn't used, on a page more where there is none.
fn entry_for(store: &mut Mem, x: u64, entry: u8) -> Result<Told, StoreFault>
    requires going { store.old.stopped ≡ false }
    ensures going { OnOk result (store.new.stopped ≡ false) }
{
    match spare(store, entry)? {
        Told::None => {}
        free => return Ok(free),
    }
    match add_page(store, x, entry)? {
        Told::Number(_) => spare(store, entry),
        other => Ok(other),
    }
}

// A version is kept off its row; where.
fn keep_first(
    store: &mut Mem,
    x: u64,
    row: NewRow,
    version: &VersionEntry,
) -> Result<Told, StoreFault>
    requires going { store.old.stopped ≡ false }
    requires fits { IsEntry row.width version.now }
    ensures going { OnOk result (store.new.stopped ≡ false) }
{
    let place = match entry_for(store, x, row.entry)? {
        Told::At(place) => place,
        other => return Ok(other),
    };
    if entry_lies(place, row.width) && keep_at(store, x, place, row.width, version)? {
        return Ok(Told::At(place));
    }
    Ok(Told::NotAsked)
}

// The bytes of a page, for a slot that is read from them while others change.
fn copied(store: &mut Mem, page: u32) -> Result<[u8; 4_096], StoreFault>
    requires going { store.old.stopped ≡ false }
    ensures going { OnOk result (store.new.stopped ≡ false) }
{
    let mut bytes = [0; 4_096];
    bytes.copy_from_slice(store.page(page)?);
    Ok(bytes)
}

// Puts a slot in which a transaction writes a row over its head, where a version was kept before or nowhere.
fn put_over(
    store: &mut Mem,
    x: u64,
    row: NewRow,
    place: Place,
    slot: RowSlot,
    way: Way,
    kept: Place,
) -> Result<Told, StoreFault>
    requires going { store.old.stopped ≡ false }
    requires lies { (row.width ≤ WIDEST) × (start_of (size_of_slot row.width) place.slot + size_of_slot row.width ≤ 4096) }
    requires slot { IsSlot row.width slot × (0 < slot.head.xid) }
    requires way { (committed : Bool) × IsWay committed slot way }
    ensures going { OnOk result (store.new.stopped ≡ false) }
{
    let over = replaced(way, &slot);
    let bytes = bytes_of(row);
    let slot = written(way, kept, slot, version_by(x, row, &bytes));
    if !lay_slot(store, x, over, place, row.width, &slot)? {
        return Ok(Told::NotAsked);
    }
    if kept.page == 0 {
        return Ok(Told::At(place));
    }
    Ok(Told::Keeps { at: place, kept })
}

// Writes a row over the one at a place.
fn write_over(store: &mut Mem, x: u64, row: NewRow, place: Place) -> Result<Told, StoreFault>
    requires going { store.old.stopped ≡ false }
    ensures going { OnOk result (store.new.stopped ≡ false) }
{
    if !lies(place, row.width) {
        return Ok(Told::NotAsked);
    }
    let page = copied(store, place.page)?;
    let slot = read_slot(&page, row.width, place.slot);
    if slot.head.xid == 0 {
        return Ok(Told::NotAsked);
    }
    let way = way_of(&slot, store.meta().fate(slot.head.xid) == Fate::Committed);
    let kept = match to_keep(way, &slot) {
        None => Place { page: 0, slot: 0 },
        Some(version) => match keep_first(store, x, row, &version)? {
            Told::At(kept) => kept,
            other => return Ok(other),
        },
    };
    put_over(store, x, row, place, slot, way, kept)
}

// Writes the first version of a row.
fn write_first(store: &mut Mem, x: u64, row: NewRow) -> Result<Told, StoreFault>
    requires going { store.old.stopped ≡ false }
    ensures going { OnOk result (store.new.stopped ≡ false) }
{
    let place = match place_for(store, x, row.entry, row.key)? {
        Told::At(place) => place,
        other => return Ok(other),
    };
    if !lies(place, row.width) {
        return Ok(Told::NotAsked);
    }
    let bytes = bytes_of(row);
    let slot = first(row.key, version_by(x, row, &bytes));
    match lay_slot(store, x, 0, place, row.width, &slot)? {
        true => Ok(Told::At(place)),
        false => Ok(Told::NotAsked),
    }
}

/// Writes the row of a key, over the one that is there, in a free slot or on a page more: its place, and where a version was kept first.
pub fn write(store: &mut Mem, x: u64, row: NewRow) -> Result<Told, StoreFault>
    requires going { store.old.stopped ≡ false }
    ensures going { OnOk result (store.new.stopped ≡ false) }
{
    match found(store, row.entry, row.key)? {
        Told::At(place) => write_over(store, x, row, place),
        Told::None => write_first(store, x, row),
        other => Ok(other),
    }
}

/// So many transactions, one behind another, write the row of a key and commit: each says its own number. The last one's answer.
pub fn write_each(store: &mut Mem, row: NewRow, count: u64) -> Result<Told, StoreFault>
    requires going { store.old.stopped ≡ false }
    ensures going { OnOk result (store.new.stopped ≡ false) }
{
    let Told::Number(x) = begin(store)? else {
        return Ok(Told::NotAsked);
    };
    let told = write(store, x, row.saying(x.to_le_bytes()[0]))?;
    let _committed = commit(store, x)?;
    if count <= 1 {
        return Ok(told);
    }
    write_each(store, row, count - 1)
}
