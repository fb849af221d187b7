// The header of a page.
ghost use Rattle.std.specs.Prelude.{◌≡◌, ◌≤◌, ◌++◌, length, drop};
ghost use Rattle.ctr_page.specs.Reading.{header_in};
ghost use Rattle.ctr_page.specs.Making.{header_bytes, IsHeader, PutsBytes};

use crate::putting::{put_byte, put_long, put_word};
use crate::table::{BUCKET_AT, HEADER_SIZE, KIND_AT, NEXT_AT, OWNER_AT};
use ctr_rec::{PageNo, get_u8, get_u32};
use std::marker::Model;

/// What a page holds. A page comes from a disk, so its byte may be none of these; it is kept as it stood.
#[derive(Clone, Copy, Debug, PartialEq, Eq)]
pub struct PageKind {
    byte: u8,
}

impl Model for PageKind {
    ghost use Rattle.std.specs.Prelude.{ℕ};

    ghost Value = { ℕ };

    ghost view = { λ k. k.byte };

    ghost inverse = { λ n. record { byte = n } };
}

impl PageKind {
    /// Nothing yet.
    pub const BLANK: PageKind = PageKind { byte: 0 };

    /// Rows, of a bucket of a table.
    pub const ROWS: PageKind = PageKind { byte: 1 };

    /// Older versions of a table's rows.
    pub const VERSIONS: PageKind = PageKind { byte: 2 };

    /// The kind that a byte says, whatever byte it is.
    pub fn from_byte(byte: u8) -> PageKind
        ensures { result ≡ byte }
    {
        PageKind { byte }
    }

    /// The byte that says it.
    pub fn byte(self) -> u8
        ensures { result ≡ self }
    {
        self.byte
    }
}

/// What the first bytes of a page say.
#[derive(Clone, Copy, Debug, PartialEq, Eq)]
pub struct Header {
    pub kind: PageKind,
    /// The table's entry of the catalog.
    pub entry: u8,
    /// The bucket; 0 in a page of versions.
    pub bucket: u8,
    /// The next page of the chain; 0 for none.
    pub next: PageNo,
}

/// Reads the header of a page. It takes no memory.
pub fn read_header(page: &[u8]) -> Header
    requires { HEADER_SIZE ≤ length page.now }
    ensures read { result ≡ header_in page.now }
    ensures fits { IsHeader result }
{
    Header {
        kind: PageKind::from_byte(get_u8(page, KIND_AT)),
        entry: get_u8(page, OWNER_AT),
        bucket: get_u8(page, BUCKET_AT),
        next: get_u32(page, NEXT_AT),
    }
}

fn put_header(header: &Header, into: &mut [u8]) -> usize
    requires { HEADER_SIZE ≤ length into.old }
    ensures put { PutsBytes 0 (header_bytes header.now) into.old into.new result }
    ensures number { result ≡ HEADER_SIZE }
{
    let at = put_byte(into, KIND_AT, header.kind.byte());
    let at = put_byte(into, at, header.entry);
    let at = put_byte(into, at, header.bucket);
    let at = put_byte(into, at, 0);
    let at = put_word(into, at, header.next);
    put_long(into, at, 0)
}

/// Makes the bytes of a header, and says how many they are. It takes no memory.
pub fn make_header(header: &Header, into: &mut [u8]) -> usize
    requires fits { IsHeader header.now }
    requires room { HEADER_SIZE ≤ length into.old }
    ensures number { result ≡ HEADER_SIZE }
    ensures bytes { into.new ≡ header_bytes header.now ++ drop result into.old }
    // What is made is read back.
    ensures read { header_in into.new ≡ header.now }
{
    put_header(header, into)
}
