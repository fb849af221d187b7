// Fields that are put one behind another: each call says where its own ends.
ghost use Rattle.std.specs.Prelude.{◌≡◌, ◌+◌, ◌≤◌, length, replicate};
ghost use Rattle.std.specs.Int.{w64, cast_unsigned};
ghost use Rattle.ctr_rec.specs.bytes_Fields.{spelled};
ghost use Rattle.ctr_page.specs.Making.{PutsBytes};

use ctr_rec::{put_i64, put_u8, put_u16, put_u32, put_u64};

/// PutsBytes one byte.
pub fn put_byte(into: &mut [u8], at: usize, v: u8) -> usize
    requires { at + 1 ≤ length into.old }
    ensures put { PutsBytes at (spelled 1 v) into.old into.new result }
    ensures long { length into.new ≡ length into.old }
    ensures end { result ≡ at + 1 }
{
    put_u8(into, at, v);
    at + 1
}

/// PutsBytes 2 bytes.
pub fn put_half(into: &mut [u8], at: usize, v: u16) -> usize
    requires { at + 2 ≤ length into.old }
    ensures put { PutsBytes at (spelled 2 v) into.old into.new result }
    ensures long { length into.new ≡ length into.old }
    ensures end { result ≡ at + 2 }
{
    put_u16(into, at, v);
    at + 2
}

/// PutsBytes 4 bytes.
pub fn put_word(into: &mut [u8], at: usize, v: u32) -> usize
    requires { at + 4 ≤ length into.old }
    ensures put { PutsBytes at (spelled 4 v) into.old into.new result }
    ensures long { length into.new ≡ length into.old }
    ensures end { result ≡ at + 4 }
{
    put_u32(into, at, v);
    at + 4
}

/// PutsBytes 8 bytes.
pub fn put_long(into: &mut [u8], at: usize, v: u64) -> usize
    requires { at + 8 ≤ length into.old }
    ensures put { PutsBytes at (spelled 8 v) into.old into.new result }
    ensures long { length into.new ≡ length into.old }
    ensures end { result ≡ at + 8 }
{
    put_u64(into, at, v);
    at + 8
}

/// PutsBytes a key of 8 bytes.
pub fn put_key(into: &mut [u8], at: usize, v: i64) -> usize
    requires { at + 8 ≤ length into.old }
    ensures put { PutsBytes at (spelled 8 (cast_unsigned w64 v)) into.old into.new result }
    ensures long { length into.new ≡ length into.old }
    ensures end { result ≡ at + 8 }
{
    put_i64(into, at, v);
    at + 8
}

/// PutsBytes these bytes.
pub fn put_bytes(into: &mut [u8], at: usize, bytes: &[u8]) -> usize
    requires { at + length bytes.now ≤ length into.old }
    ensures put { PutsBytes at bytes.now into.old into.new result }
    ensures long { length into.new ≡ length into.old }
    ensures end { result ≡ at + length bytes.now }
{
    let end = at + bytes.len();
    into[at..end].copy_from_slice(bytes);
    end
}

/// PutsBytes so many zeros.
pub fn put_zeros(into: &mut [u8], at: usize, count: usize) -> usize
    requires { at + count ≤ length into.old }
    ensures put { PutsBytes at (replicate count 0) into.old into.new result }
    ensures long { length into.new ≡ length into.old }
    ensures end { result ≡ at + count }
{
    let end = at + count;
    into[at..end].fill(0);
    end
}
