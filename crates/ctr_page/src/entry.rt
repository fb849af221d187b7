// Entries of the catalog.
ghost use Rattle.std.specs.Prelude.{◌≡◌, ◌≤◌, ◌<◌, ◌+◌, ◌-◌, ◌*◌, ◌++◌, [], length, drop, take};
ghost use Rattle.std.specs.List.{flat_map};
ghost use Rattle.ctr_rec.specs.bytes_Fields.{field};
ghost use Rattle.ctr_value.specs.Columns.{ColumnsFit, column_bytes};
ghost use Rattle.ctr_page.specs.Columns.{entry_at as entry_of, kind_said, table_name_in, first_in, versions_first_in, column_kind_at, columns_in, kinds_of, columns_bytes, text_bytes, new_entry_bytes, IsNewTitle};
ghost use Rattle.ctr_page.specs.Making.{PutsBytes};
ghost use Rattle.ctr_rec.specs.types_Names.{IsName};

use crate::putting::{put_byte, put_long, put_zeros};
use crate::table::{
    COLUMN_SIZE, COLUMNS_AT, CREATOR_AT, DROPPER_AT, ENTRY_SIZE, FIRSTS_AT, MOST_COLUMNS, NAME_AT,
    NAME_MOST, VERSIONS_AT,
};
use ctr_rec::{Bytes, Column, Kind, Name, PageNo, Schema, Xid, get_u8, get_u32, get_u64};
use ctr_value::put_text;
use std::marker::Model;

/// Whether an entry of the catalog has a table. Its byte on the disk may be none of these; it is kept as it stood.
#[derive(Clone, Copy, Debug, PartialEq, Eq)]
pub struct EntryState {
    byte: u8,
}

impl Model for EntryState {
    ghost use Rattle.std.specs.Prelude.{ℕ};

    ghost Value = { ℕ };

    ghost view = { λ s. s.byte };

    ghost inverse = { λ n. record { byte = n } };
}

impl EntryState {
    /// No table.
    pub const FREE: EntryState = EntryState { byte: 0 };

    /// A table.
    pub const LIVE: EntryState = EntryState { byte: 1 };

    /// A table that was dropped, for good: its pages are still to be freed.
    pub const DEAD: EntryState = EntryState { byte: 2 };

    /// The state that a byte says, whatever byte it is.
    pub fn from_byte(byte: u8) -> EntryState
        ensures { result ≡ byte }
    {
        EntryState { byte }
    }

    /// The byte that says it.
    pub fn byte(self) -> u8
        ensures { result ≡ self }
    {
        self.byte
    }
}

/// An entry of the catalog: a table that was made.
#[derive(Debug, Drop)]
pub struct CatalogEntry<'a> {
    pub state: EntryState,
    /// Who made the table.
    pub creator: Xid,
    /// Who dropped it; 0 for nobody.
    pub dropper: Xid,
    /// All 256 bytes.
    pub bytes: Bytes<'a>,
}

/// Reads the entry of a number, from 0, on a page of the catalog. It takes no memory.
pub fn read_entry<'a>(page: &'a [u8], at: u8) -> CatalogEntry<'a>
    requires { ENTRY_SIZE * at + ENTRY_SIZE ≤ length page.now }
    ensures read { result ≡ entry_of at page.now }
    ensures whole { length result.bytes ≡ ENTRY_SIZE }
{
    let start = ENTRY_SIZE * at as usize;
    let bytes = &page[start..start + ENTRY_SIZE];
    CatalogEntry {
        state: EntryState::from_byte(get_u8(bytes, 0)),
        creator: get_u64(bytes, CREATOR_AT),
        dropper: get_u64(bytes, DROPPER_AT),
        bytes: Bytes::new(bytes),
    }
}

fn kind_said(number: u8) -> Kind
    ensures { result ≡ kind_said number }
{
    if number == 0 {
        Kind::Int
    } else {
        Kind::Chars(number)
    }
}

impl<'a> CatalogEntry<'a> {
    /// The name of the table, in an entry that passes its checks.
    pub fn name(&self) -> &'a [u8]
        requires whole { length self.now.bytes ≡ ENTRY_SIZE }
        requires short { field 1 NAME_AT self.now.bytes ≤ NAME_MOST }
        ensures { result.now ≡ table_name_in self.now.bytes }
    {
        let bytes = self.bytes.as_slice();
        let front = NAME_AT + 1;
        &bytes[front..front + get_u8(bytes, NAME_AT) as usize]
    }

    /// How many columns the table has.
    pub fn count(&self) -> u8
        requires whole { length self.now.bytes ≡ ENTRY_SIZE }
        ensures { result ≡ field 1 COLUMNS_AT self.now.bytes }
    {
        get_u8(self.bytes.as_slice(), COLUMNS_AT)
    }

    /// What a column holds, by its number from 0.
    pub fn kind(&self, column: u8) -> Kind
        requires whole { length self.now.bytes ≡ ENTRY_SIZE }
        requires there { column < MOST_COLUMNS }
        ensures { result ≡ kind_said (field 1 (column_kind_at (COLUMNS_AT + 1 + COLUMN_SIZE * column)) self.now.bytes) }
    {
        let at = COLUMNS_AT + 1 + COLUMN_SIZE * column as usize;
        kind_said(get_u8(self.bytes.as_slice(), at + COLUMN_SIZE - 1))
    }

    /// What the columns behind the key hold, in an entry that passes its checks: the first of these, one fewer than it has
    /// columns.
    pub fn kinds(&self) -> [Kind; 7]
        requires whole { length self.now.bytes ≡ ENTRY_SIZE }
        ensures { 1 ≤ field 1 COLUMNS_AT self.now.bytes → field 1 COLUMNS_AT self.now.bytes ≤ MOST_COLUMNS
            → take (field 1 COLUMNS_AT self.now.bytes - 1) result ≡ kinds_of (columns_in self.now.bytes) }
    {
        [
            self.kind(1),
            self.kind(2),
            self.kind(3),
            self.kind(4),
            self.kind(5),
            self.kind(6),
            self.kind(7),
        ]
    }

    /// The first page of a bucket; 0 for none.
    pub fn first(&self, bucket: u8) -> PageNo
        requires whole { length self.now.bytes ≡ ENTRY_SIZE }
        requires there { bucket < 8 }
        ensures { result ≡ first_in bucket self.now.bytes }
    {
        get_u32(self.bytes.as_slice(), FIRSTS_AT + 4 * bucket as usize)
    }

    /// The first page of versions; 0 for none.
    pub fn versions(&self) -> PageNo
        requires whole { length self.now.bytes ≡ ENTRY_SIZE }
        ensures { result ≡ versions_first_in self.now.bytes }
    {
        get_u32(self.bytes.as_slice(), VERSIONS_AT)
    }
}

// ---- making

fn kind_number(kind: Kind) -> u8
    ensures { result ≡ Rattle.ctr_value.specs.Columns.kind_number kind }
{
    match kind {
        Kind::Int => 0,
        Kind::Chars(most) => most,
    }
}

fn put_name(into: &mut [u8], at: usize, name: &Name) -> usize
    requires { at + 17 ≤ length into.old }
    ensures short { IsName name.now }
    ensures put { PutsBytes at (text_bytes NAME_MOST name.now) into.old into.new result }
    ensures long { length into.new ≡ length into.old }
    ensures end { result ≡ at + 17 }
{
    let end = at + 1 + NAME_MOST;
    put_text(name.as_slice(), &mut into[at..end]);
    end
}

fn put_column(into: &mut [u8], at: usize, column: &Column) -> usize
    requires { at + COLUMN_SIZE ≤ length into.old }
    ensures put { PutsBytes at (column_bytes column.now) into.old into.new result }
    ensures long { length into.new ≡ length into.old }
    ensures end { result ≡ at + COLUMN_SIZE }
{
    let at = put_name(into, at, &column.name);
    put_byte(into, at, kind_number(column.kind))
}

fn put_all(into: &mut [u8], at: usize, columns: &[Column]) -> usize
    requires { at + COLUMN_SIZE * length columns.now ≤ length into.old }
    ensures put { PutsBytes at (flat_map column_bytes columns.now) into.old into.new result }
    ensures long { length into.new ≡ length into.old }
    ensures end { result ≡ at + COLUMN_SIZE * length columns.now }
{
    let Some((column, others)) = columns.split_first() else {
        return at;
    };
    let at = put_column(into, at, column);
    put_all(into, at, others)
}

fn put_columns(into: &mut [u8], at: usize, columns: &[Column]) -> usize
    requires few { length columns.now ≤ MOST_COLUMNS }
    requires room { at + 145 ≤ length into.old }
    ensures put { PutsBytes at (columns_bytes columns.now) into.old into.new result }
    ensures long { length into.new ≡ length into.old }
    ensures end { result ≡ at + 145 }
{
    let at = put_byte(into, at, columns.len() as u8);
    let at = put_all(into, at, columns);
    put_zeros(into, at, COLUMN_SIZE * (MOST_COLUMNS - columns.len()))
}

fn put_entry(creator: Xid, name: &Name, columns: &[Column], into: &mut [u8]) -> usize
    requires few { length columns.now ≤ MOST_COLUMNS }
    requires room { ENTRY_SIZE ≤ length into.old }
    ensures short { IsName name.now }
    ensures put { PutsBytes 0 (new_entry_bytes creator name.now columns.now) into.old into.new result }
    ensures end { result ≡ ENTRY_SIZE }
{
    let at = put_byte(into, 0, EntryState::LIVE.byte());
    let at = put_long(into, at, creator);
    let at = put_long(into, at, 0);
    let at = put_name(into, at, name);
    let at = put_columns(into, at, columns);
    put_zeros(into, at, 77)
}

/// Makes the bytes of the entry of a new table, and says how many they are. It takes no memory.
pub fn make_entry(creator: Xid, name: &Name, schema: &Schema, into: &mut [u8]) -> usize
    requires fits { ColumnsFit schema.now.columns }
    requires room { ENTRY_SIZE ≤ length into.old }
    ensures number { result ≡ ENTRY_SIZE }
    ensures bytes { into.new ≡ new_entry_bytes creator name.now schema.now.columns ++ drop result into.old }
    // What is made is read back: live, its creator, no dropper.
    ensures title { IsNewTitle creator into.new }
    // Its name and its columns.
    ensures name { table_name_in into.new ≡ name.now }
    ensures columns { columns_in into.new ≡ schema.now.columns }
{
    put_entry(creator, name, schema.columns.as_slice(), into)
}
