// The table of the format: where each field stands, and how many bytes it has. The definitions, the readers
// and the makers take all places from here.
ghost use Rattle.std.specs.Prelude.{◌≡◌, ◌≤◌, ◌<◌};
ghost use Rattle.ctr_page.specs.Places.{has_previous, previous_at, pointer_at, slot_size, kept_pointer_at, kept_size, room_for, start_of, bucket_of};

/// The bytes of a page.
pub const PAGE_SIZE: usize = 4096;

/// The bytes of a header, behind which the slots or version entries of the page begin.
pub const HEADER_SIZE: usize = 16;

/// In a header: 1 for rows, 2 for versions, one byte.
pub const KIND_AT: usize = 0;

/// In a header: the table's entry of the catalog, one byte.
pub const OWNER_AT: usize = 1;

/// In a header: the bucket, one byte.
pub const BUCKET_AT: usize = 2;

/// In a header: the next page of the chain, 4 bytes.
pub const NEXT_AT: usize = 4;

/// In a slot or version entry, behind its byte for used: the key, 8 bytes.
pub const KEY_AT: usize = 1;

/// In a slot or version entry: its first version.
pub const HEAD_AT: usize = 9;

/// In a version, behind the 8 bytes of its transaction: whether it is a tombstone, one byte.
pub const TOMBSTONE_AT: usize = 8;

/// The bytes of a version before its payload.
pub const VERSION_SIZE: usize = 9;

/// The bytes of a pointer: a page, 4, and a slot on it, 2.
pub const POINTER_SIZE: usize = 6;

/// The widest row of which a slot has the previous version.
pub const WIDEST_PAIR: usize = 200;

/// The bytes of an entry of the catalog.
pub const ENTRY_SIZE: usize = 256;

/// In an entry, behind the byte of its state: the transaction that made the table, 8 bytes.
pub const CREATOR_AT: usize = 1;

/// In an entry: the transaction that dropped the table, 8 bytes.
pub const DROPPER_AT: usize = 9;

/// In an entry: the length of the name, one byte, and the name.
pub const NAME_AT: usize = 17;

/// The most bytes of a name.
pub const NAME_MOST: usize = 16;

/// In an entry: the number of columns, one byte, and the columns.
pub const COLUMNS_AT: usize = 34;

/// The bytes of a column: its name as that of the table, and its kind, one byte.
pub const COLUMN_SIZE: usize = 18;

/// The most columns of a table.
pub const MOST_COLUMNS: usize = 8;

/// In an entry: the first pages of the buckets 0 to 7, 4 bytes each.
pub const FIRSTS_AT: usize = 179;

/// In an entry: the first page of versions, 4 bytes.
pub const VERSIONS_AT: usize = 211;

/// Whether a slot of rows so wide has a previous version.
pub fn has_previous(w: usize) -> bool
    ensures { result ≡ has_previous w }
{
    w <= WIDEST_PAIR
}

/// Where the previous version stands in a slot.
pub fn previous_at(w: usize) -> usize
    requires { w ≤ 2048 }
    ensures { result ≡ previous_at w }
{
    HEAD_AT + VERSION_SIZE + w
}

/// Where the pointer stands in a slot.
pub fn pointer_at(w: usize) -> usize
    requires { w ≤ 2048 }
    ensures { result ≡ pointer_at w }
{
    if has_previous(w) {
        previous_at(w) + VERSION_SIZE + w
    } else {
        previous_at(w)
    }
}

/// The bytes of a slot.
pub fn slot_size(w: usize) -> usize
    requires { w ≤ 2048 }
    ensures value { result ≡ slot_size w }
    ensures some { 0 < result }
    ensures small { result ≤ 4133 }
{
    pointer_at(w) + POINTER_SIZE
}

/// Where the pointer stands in a version entry.
pub fn kept_pointer_at(w: usize) -> usize
    requires { w ≤ 2048 }
    ensures { result ≡ kept_pointer_at w }
{
    previous_at(w)
}

/// The bytes of a version entry.
pub fn kept_size(w: usize) -> usize
    requires { w ≤ 2048 }
    ensures value { result ≡ kept_size w }
    ensures some { 0 < result }
    ensures small { result ≤ 4133 }
{
    kept_pointer_at(w) + POINTER_SIZE
}

/// Where a slot or version entry of this size stands on a page, by its number from 0.
pub fn start_of(size: usize, number: u16) -> usize
    requires { size ≤ 4133 }
    ensures { result ≡ start_of size number }
{
    HEADER_SIZE + number as usize * size
}

/// How many slots or version entries of this size a page has.
pub fn room_for(size: usize) -> usize
    requires { 0 < size }
    ensures { result ≡ room_for size }
{
    (PAGE_SIZE - HEADER_SIZE) / size
}

/// The bucket in which the row of a key stands, 0 to 7.
pub fn bucket_of(key: i64) -> u8
    ensures value { result ≡ bucket_of key }
    ensures small { result < 8 }
{
    (key.cast_unsigned() % 8) as u8
}
