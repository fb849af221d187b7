// Slots of rows, and entries of older versions.
ghost use Rattle.std.specs.Prelude.{◌≡◌, ◌≤◌, ◌+◌, ◌++◌, length, drop};
ghost use Rattle.ctr_page.specs.Places.{slot_size as size_of_slot, kept_size as size_of_kept, pointer_at as pointer_place, previous_at as previous_place, start_of as start_place};
ghost use Rattle.ctr_page.specs.Reading.{place_in, version_in, previous_in, slot_in, older_in, slot_at, older_at};
ghost use Rattle.ctr_page.specs.Making.{pointer_bytes, version_bytes, previous_bytes, slot_bytes, kept_bytes, PlaceFits, IsVersion, IsPrevious, IsSlot, IsEntry, PutsBytes};

use crate::putting::{put_byte, put_bytes, put_half, put_key, put_long, put_word, put_zeros};
use crate::table::{
    HEAD_AT, KEY_AT, TOMBSTONE_AT, VERSION_SIZE, has_previous, kept_pointer_at, kept_size,
    pointer_at, previous_at, slot_size, start_of,
};
use ctr_rec::{Bytes, PageNo, Xid, get_i64, get_u8, get_u16, get_u32, get_u64};
use std::marker::Model;

/// Whether a slot or a version entry is used: exactly where its byte is 1. Any byte is kept as it stood.
#[derive(Clone, Copy, Debug, PartialEq, Eq)]
pub struct Use {
    byte: u8,
}

impl Model for Use {
    ghost use Rattle.std.specs.Prelude.{ℕ};

    ghost Value = { ℕ };

    ghost view = { λ u. u.byte };

    ghost inverse = { λ n. record { byte = n } };
}

impl Use {
    /// It can be taken.
    pub const FREE: Use = Use { byte: 0 };

    /// It has a row, or a version of one.
    pub const USED: Use = Use { byte: 1 };

    /// The use that a byte says, whatever byte it is.
    pub fn from_byte(byte: u8) -> Use
        ensures { result ≡ byte }
    {
        Use { byte }
    }

    /// The byte that says it.
    pub fn byte(self) -> u8
        ensures { result ≡ self }
    {
        self.byte
    }
}

/// Whether a version is a tombstone: exactly where its byte isn't 0. Any byte is kept as it stood.
#[derive(Clone, Copy, Debug, PartialEq, Eq)]
pub struct Tombstone {
    byte: u8,
}

impl Model for Tombstone {
    ghost use Rattle.std.specs.Prelude.{ℕ};

    ghost Value = { ℕ };

    ghost view = { λ t. t.byte };

    ghost inverse = { λ n. record { byte = n } };
}

impl Tombstone {
    /// The version has a row.
    pub const NONE: Tombstone = Tombstone { byte: 0 };

    /// The row is deleted.
    pub const DELETED: Tombstone = Tombstone { byte: 1 };

    /// What a byte says, whatever byte it is.
    pub fn from_byte(byte: u8) -> Tombstone
        ensures { result ≡ byte }
    {
        Tombstone { byte }
    }

    /// The byte that says it.
    pub fn byte(self) -> u8
        ensures { result ≡ self }
    {
        self.byte
    }
}

/// The place of a slot or a version entry. Page 0 stands for none.
#[derive(Clone, Copy, Debug, PartialEq, Eq)]
pub struct Place {
    pub page: PageNo,
    /// Its number on the page, from 0.
    pub slot: u16,
}

/// A version of a row.
#[derive(Debug, Drop)]
pub struct Version<'a> {
    /// Whose it is.
    pub xid: Xid,
    /// Whether the row is deleted.
    pub tombstone: Tombstone,
    /// The row without its key, or zeros.
    pub payload: Bytes<'a>,
}

/// A row.
#[derive(Debug, Drop)]
pub struct RowSlot<'a> {
    /// Whether it is used.
    pub used: Use,
    pub key: i64,
    /// The newest version.
    pub head: Version<'a>,
    /// The one before it, where there is one and the slot has room for it.
    pub previous: Option<Version<'a>>,
    /// Where the next older version is kept.
    pub older: Place,
}

/// An older version of a row, off its slot.
#[derive(Debug, Drop)]
pub struct VersionEntry<'a> {
    /// Whether it is used.
    pub used: Use,
    pub key: i64,
    pub version: Version<'a>,
    /// Where the next older version is kept.
    pub older: Place,
}

// ---- reading

fn place_in(bytes: &[u8], at: usize) -> Place
    requires { at + 6 ≤ length bytes.now }
    ensures read { result ≡ place_in at bytes.now }
    ensures fits { PlaceFits result }
{
    Place {
        page: get_u32(bytes, at),
        slot: get_u16(bytes, at + 4),
    }
}

fn version_in<'a>(bytes: &'a [u8], w: usize, at: usize) -> Version<'a>
    requires { at + 9 + w ≤ length bytes.now }
    ensures read { result ≡ version_in w at bytes.now }
    ensures fits { IsVersion w result }
{
    let payload = at + VERSION_SIZE;
    Version {
        xid: get_u64(bytes, at),
        tombstone: Tombstone::from_byte(get_u8(bytes, at + TOMBSTONE_AT)),
        payload: Bytes::new(&bytes[payload..payload + w]),
    }
}

fn previous_in<'a>(bytes: &'a [u8], w: usize) -> Option<Version<'a>>
    requires width { w ≤ 2048 }
    requires room { size_of_slot w ≤ length bytes.now }
    ensures read { result ≡ previous_in w bytes.now }
    ensures fits { IsPrevious w result }
{
    if !has_previous(w) {
        return None;
    }
    let version = version_in(bytes, w, previous_at(w));
    if version.xid == 0 {
        return None;
    }
    Some(version)
}

fn slot_in<'a>(bytes: &'a [u8], w: usize) -> RowSlot<'a>
    requires width { w ≤ 2048 }
    requires room { size_of_slot w ≤ length bytes.now }
    ensures read { result ≡ slot_in w bytes.now }
    ensures fits { IsSlot w result }
{
    RowSlot {
        used: Use::from_byte(get_u8(bytes, 0)),
        key: get_i64(bytes, KEY_AT),
        head: version_in(bytes, w, HEAD_AT),
        previous: previous_in(bytes, w),
        older: place_in(bytes, pointer_at(w)),
    }
}

fn older_in<'a>(bytes: &'a [u8], w: usize) -> VersionEntry<'a>
    requires width { w ≤ 2048 }
    requires room { size_of_kept w ≤ length bytes.now }
    ensures read { result ≡ older_in w bytes.now }
    ensures fits { IsEntry w result }
{
    VersionEntry {
        used: Use::from_byte(get_u8(bytes, 0)),
        key: get_i64(bytes, KEY_AT),
        version: version_in(bytes, w, HEAD_AT),
        older: place_in(bytes, kept_pointer_at(w)),
    }
}

/// Reads a slot of a page of rows, whose width is w. It takes no memory.
pub fn read_slot<'a>(page: &'a [u8], w: usize, slot: u16) -> RowSlot<'a>
    requires width { w ≤ 2048 }
    requires inside { start_place (size_of_slot w) slot + size_of_slot w ≤ length page.now }
    ensures read { result ≡ slot_at w slot page.now }
    // What is read can be made.
    ensures fits { IsSlot w result }
{
    let size = slot_size(w);
    let start = start_of(size, slot);
    slot_in(&page[start..start + size], w)
}

/// Reads an entry of a page of versions, whose width is w. It takes no memory.
pub fn read_version<'a>(page: &'a [u8], w: usize, slot: u16) -> VersionEntry<'a>
    requires width { w ≤ 2048 }
    requires inside { start_place (size_of_kept w) slot + size_of_kept w ≤ length page.now }
    ensures read { result ≡ older_at w slot page.now }
    // What is read can be made.
    ensures fits { IsEntry w result }
{
    let size = kept_size(w);
    let start = start_of(size, slot);
    older_in(&page[start..start + size], w)
}

// ---- making

fn put_pointer(into: &mut [u8], at: usize, place: &Place) -> usize
    requires { at + 6 ≤ length into.old }
    ensures put { PutsBytes at (pointer_bytes place.now) into.old into.new result }
    ensures long { length into.new ≡ length into.old }
    ensures end { result ≡ at + 6 }
{
    let at = put_word(into, at, place.page);
    put_half(into, at, place.slot)
}

fn put_version(into: &mut [u8], at: usize, version: &Version) -> usize
    requires { at + 9 + length version.now.payload ≤ length into.old }
    ensures put { PutsBytes at (version_bytes version.now) into.old into.new result }
    ensures long { length into.new ≡ length into.old }
    ensures end { result ≡ at + 9 + length version.now.payload }
{
    let at = put_long(into, at, version.xid);
    let at = put_byte(into, at, version.tombstone.byte());
    put_bytes(into, at, version.payload.as_slice())
}

fn put_previous(into: &mut [u8], w: usize, previous: &Option<Version>) -> usize
    requires width { w ≤ 2048 }
    requires fits { IsPrevious w previous.now }
    requires room { pointer_place w ≤ length into.old }
    ensures put { PutsBytes (previous_place w) (previous_bytes w previous.now) into.old into.new result }
    ensures long { length into.new ≡ length into.old }
    ensures end { result ≡ pointer_place w }
{
    let at = previous_at(w);
    if !has_previous(w) {
        return at;
    }
    match previous {
        None => put_zeros(into, at, VERSION_SIZE + w),
        Some(version) => put_version(into, at, version),
    }
}

fn put_slot(w: usize, slot: &RowSlot, into: &mut [u8]) -> usize
    requires width { w ≤ 2048 }
    requires fits { IsSlot w slot.now }
    requires room { size_of_slot w ≤ length into.old }
    ensures put { PutsBytes 0 (slot_bytes w slot.now) into.old into.new result }
    ensures end { result ≡ size_of_slot w }
{
    let at = put_byte(into, 0, slot.used.byte());
    let at = put_key(into, at, slot.key);
    let _ = put_version(into, at, &slot.head);
    let at = put_previous(into, w, &slot.previous);
    put_pointer(into, at, &slot.older)
}

fn put_kept(w: usize, entry: &VersionEntry, into: &mut [u8]) -> usize
    requires width { w ≤ 2048 }
    requires fits { IsEntry w entry.now }
    requires room { size_of_kept w ≤ length into.old }
    ensures put { PutsBytes 0 (kept_bytes entry.now) into.old into.new result }
    ensures end { result ≡ size_of_kept w }
{
    let at = put_byte(into, 0, entry.used.byte());
    let at = put_key(into, at, entry.key);
    let at = put_version(into, at, &entry.version);
    put_pointer(into, at, &entry.older)
}

/// Makes the bytes of a slot of rows whose width is w, and says how many they are. It takes no memory.
pub fn make_slot(w: usize, slot: &RowSlot, into: &mut [u8]) -> usize
    requires width { w ≤ 2048 }
    requires fits { IsSlot w slot.now }
    requires room { size_of_slot w ≤ length into.old }
    ensures number { result ≡ size_of_slot w }
    ensures bytes { into.new ≡ slot_bytes w slot.now ++ drop result into.old }
    // What is made is read back.
    ensures read { slot_in w into.new ≡ slot.now }
{
    put_slot(w, slot, into)
}

/// Makes the bytes of a version entry of rows whose width is w, and says how many they are. It takes no
/// memory.
pub fn make_version(w: usize, entry: &VersionEntry, into: &mut [u8]) -> usize
    requires width { w ≤ 2048 }
    requires fits { IsEntry w entry.now }
    requires room { size_of_kept w ≤ length into.old }
    ensures number { result ≡ size_of_kept w }
    ensures bytes { into.new ≡ kept_bytes entry.now ++ drop result into.old }
    // What is made is read back.
    ensures read { older_in w into.new ≡ entry.now }
{
    put_kept(w, entry, into)
}
