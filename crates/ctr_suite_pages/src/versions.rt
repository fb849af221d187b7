// Steps on versions of rows, in their slots and off them.
ghost use Rattle.std.specs.Prelude.{◌≡◌, ◌≤◌, ◌+◌, false, IsTrue, OnOk};
ghost use Rattle.ctr_page.specs.Places.{start_of, kept_size as size_of_kept};
ghost use Rattle.ctr_page.specs.Making.{IsPrevious, IsEntry};

use crate::pages::{make_empty, put_in_front, take};
use crate::rows::{WIDEST, lay_slot, lies, slot_of, version_of};
use crate::told::{Seen, Told};
use crate::turns::{Mem, ready};
use ctr_disk::StoreFault;
use ctr_page::{
    Chain, Header, PageKind, Place, RowSlot, Use, Version, VersionEntry, kept_size, read_slot,
};
use ctr_pvs::{find_free_entry, free_entry, keep, row, version};
use ctr_revert::revert_row;
use ctr_walk::first_page;

/// A slot of a row that is to be laid.
#[derive(Clone, Copy)]
pub struct NewSlot {
    pub place: Place,
    pub width: usize,
    pub key: i64,
    /// The first byte of its head.
    pub says: u8,
    /// The version before its head; none where that is of no transaction.
    pub previous: Seen,
    /// Where an older version stands.
    pub older: Place,
}

/// A version of a row that is to be kept off it.
#[derive(Clone, Copy)]
pub struct NewEntry {
    pub place: Place,
    pub width: usize,
    pub key: i64,
    pub version: Seen,
    /// Where an older version stands.
    pub older: Place,
}

/// Whether a place on a page has a version entry of rows so wide.
pub fn entry_lies(place: Place, width: usize) -> bool
    ensures { IsTrue result → (width ≤ WIDEST) × (start_of (size_of_kept width) place.slot + size_of_kept width ≤ 4096) }
{
    if width > WIDEST {
        return false;
    }
    let size = kept_size(width);
    16 + place.slot as usize * size + size <= 4_096
}

/// A payload that begins with this byte, and zeros.
pub fn payload(says: u8) -> [u8; WIDEST] {
    let mut bytes = [0; WIDEST];
    bytes[0] = says;
    bytes
}

// What a version says: whose it is, and its first byte.
fn seen(version: &Version) -> Seen {
    let says = match version.payload.as_slice().first() {
        Some(byte) => *byte,
        None => 0,
    };
    Seen {
        x: version.xid,
        says,
    }
}

/// A page more for the versions of a table, at the front of their chain.
pub fn add_page(store: &mut Mem, x: u64, entry: u8) -> Result<Told, StoreFault>
    requires going { store.old.stopped ≡ false }
    ensures going { OnOk result (store.new.stopped ≡ false) }
{
    if entry >= 32 {
        return Ok(Told::NotAsked);
    }
    let told = take(store, x)?;
    let Told::Number(number) = told else {
        return Ok(told);
    };
    let page = u32::try_from(number).unwrap_or(0);
    let first = first_page(store, Chain::Versions { entry })?;
    let header = Header {
        kind: PageKind::VERSIONS,
        entry,
        bucket: 0,
        next: first.unwrap_or(0),
    };
    let _made = make_empty(store, x, page, header)?;
    let _linked = put_in_front(store, x, page, entry, None)?;
    Ok(Told::Number(number))
}

// The version before a row's head, where its slot has room for one.
fn previous_of<'a>(previous: Seen, width: usize, bytes: &'a [u8; WIDEST]) -> Option<Version<'a>>
    requires { width ≤ WIDEST }
    ensures { IsPrevious width result }
{
    if width > 200 || previous.x == 0 {
        return None;
    }
    Some(version_of(previous.x, width, bytes))
}

/// A slot of a row, whose versions begin with bytes, over one that counts for no transaction.
pub fn lay(store: &mut Mem, x: u64, row: NewSlot) -> Result<Told, StoreFault>
    requires going { store.old.stopped ≡ false }
    ensures going { OnOk result (store.new.stopped ≡ false) }
{
    if !lies(row.place, row.width) {
        return Ok(Told::NotAsked);
    }
    let new = payload(row.says);
    let old = payload(row.previous.says);
    let head = version_of(x, row.width, &new);
    let previous = previous_of(row.previous, row.width, &old);
    let slot = slot_of(row.key, head, previous, row.older);
    match lay_slot(store, x, 0, row.place, row.width, &slot)? {
        true => Ok(Told::Done),
        false => Ok(Told::NotAsked),
    }
}

/// Keeps a version of a row so wide at a place, where that may be; whether it did.
pub fn keep_at(
    store: &mut Mem,
    x: u64,
    place: Place,
    width: usize,
    entry: &VersionEntry,
) -> Result<bool, StoreFault>
    requires going { store.old.stopped ≡ false }
    requires entry { IsEntry width entry.now }
    requires lies { (width ≤ WIDEST) × (start_of (size_of_kept width) place.slot + size_of_kept width ≤ 4096) }
    ensures going { OnOk result (store.new.stopped ≡ false) }
{
    if !ready(store, 0, 0)? || place.page >= store.counted() {
        return Ok(false);
    }
    keep(store, x, place, entry)?;
    Ok(true)
}

/// A version that is kept off its row.
pub fn put_off(store: &mut Mem, x: u64, kept: NewEntry) -> Result<Told, StoreFault>
    requires going { store.old.stopped ≡ false }
    ensures going { OnOk result (store.new.stopped ≡ false) }
{
    if !entry_lies(kept.place, kept.width) {
        return Ok(Told::NotAsked);
    }
    let bytes = payload(kept.version.says);
    let entry = VersionEntry {
        used: Use::USED,
        key: kept.key,
        version: version_of(kept.version.x, kept.width, &bytes),
        older: kept.older,
    };
    match keep_at(store, x, kept.place, kept.width, &entry)? {
        true => Ok(Told::Done),
        false => Ok(Told::NotAsked),
    }
}

/// The first version entry of a table that isn't used.
pub fn spare(store: &mut Mem, entry: u8) -> Result<Told, StoreFault>
    requires going { store.old.stopped ≡ false }
    ensures going { OnOk result (store.new.stopped ≡ false) }
{
    if entry >= 32 {
        return Ok(Told::NotAsked);
    }
    match find_free_entry(store, entry)? {
        Some(place) => Ok(Told::At(place)),
        None => Ok(Told::None),
    }
}

/// A version entry is free again.
pub fn trim(store: &mut Mem, place: Place) -> Result<Told, StoreFault>
    requires going { store.old.stopped ≡ false }
    ensures going { OnOk result (store.new.stopped ≡ false) }
{
    if !ready(store, 0, 0)? || place.page >= store.counted() {
        return Ok(Told::NotAsked);
    }
    free_entry(store, place)?;
    Ok(Told::Done)
}

/// A row loses its head.
pub fn revert(store: &mut Mem, place: Place) -> Result<Told, StoreFault>
    requires going { store.old.stopped ≡ false }
    ensures going { OnOk result (store.new.stopped ≡ false) }
{
    if !ready(store, 0, 0)? || place.page >= store.counted() {
        return Ok(Told::NotAsked);
    }
    revert_row(store, place)?;
    Ok(Told::Done)
}

// The row in a slot that is used.
fn row_of(slot: &RowSlot) -> Told {
    Told::Row {
        key: slot.key,
        head: seen(&slot.head),
        previous: slot.previous.as_ref().map(seen),
        older: slot.older,
    }
}

/// What stands in a slot.
pub fn slot(store: &mut Mem, place: Place, width: usize) -> Result<Told, StoreFault>
    requires going { store.old.stopped ≡ false }
    ensures going { OnOk result (store.new.stopped ≡ false) }
{
    if !lies(place, width) {
        return Ok(Told::NotAsked);
    }
    let page = store.page(place.page)?;
    let slot = read_slot(page, width, place.slot);
    if slot.used == Use::FREE {
        return Ok(Told::Unused);
    }
    Ok(row_of(&slot))
}

/// The version entry at a place, lent from its page.
pub fn entry(store: &mut Mem, place: Place) -> Result<Told, StoreFault>
    requires going { store.old.stopped ≡ false }
    ensures going { OnOk result (store.new.stopped ≡ false) }
{
    if place.page >= store.counted() {
        return Ok(Told::NotAsked);
    }
    let lent = version(store, place)?;
    if lent.used == 0 {
        return Ok(Told::Unused);
    }
    Ok(Told::Row {
        key: lent.key,
        head: seen(&lent.entry().version),
        previous: None,
        older: lent.older,
    })
}

/// The slot at a place, lent from its page.
pub fn lent(store: &mut Mem, place: Place) -> Result<Told, StoreFault>
    requires going { store.old.stopped ≡ false }
    ensures going { OnOk result (store.new.stopped ≡ false) }
{
    if place.page >= store.counted() {
        return Ok(Told::NotAsked);
    }
    let lent = row(store, place)?;
    if lent.used == 0 {
        return Ok(Told::Unused);
    }
    Ok(row_of(&lent.slot()))
}
