// Numbers in fields of a byte slice, the lowest byte first. A field lies inside its slice.
ghost use Rattle.std.specs.Prelude.{◌≡◌, ◌≤◌, ◌+◌, length};
ghost use Rattle.std.specs.Int.{w64, cast_signed, cast_unsigned};
ghost use Rattle.ctr_bytes.specs.Fields.{field, with_field};

use byteorder::{ByteOrder, LittleEndian};

/// The number in the byte at a place.
pub fn get_u8(bytes: &[u8], at: usize) -> u8
    requires { at + 1 ≤ length bytes.now }
    ensures got { result ≡ field 1 at bytes.now }
    ensures put_back { with_field 1 at result bytes.now ≡ bytes.now }
{
    bytes[at]
}

/// The number in the 2 bytes at a place.
pub fn get_u16(bytes: &[u8], at: usize) -> u16
    requires { at + 2 ≤ length bytes.now }
    ensures got { result ≡ field 2 at bytes.now }
    ensures put_back { with_field 2 at result bytes.now ≡ bytes.now }
{
    LittleEndian::read_u16(&bytes[at..])
}

/// The number in the 4 bytes at a place.
pub fn get_u32(bytes: &[u8], at: usize) -> u32
    requires { at + 4 ≤ length bytes.now }
    ensures got { result ≡ field 4 at bytes.now }
    ensures put_back { with_field 4 at result bytes.now ≡ bytes.now }
{
    LittleEndian::read_u32(&bytes[at..])
}

/// The number in the 8 bytes at a place.
pub fn get_u64(bytes: &[u8], at: usize) -> u64
    requires { at + 8 ≤ length bytes.now }
    ensures got { result ≡ field 8 at bytes.now }
    ensures put_back { with_field 8 at result bytes.now ≡ bytes.now }
{
    LittleEndian::read_u64(&bytes[at..])
}

/// The signed number in the 8 bytes at a place.
pub fn get_i64(bytes: &[u8], at: usize) -> i64
    requires { at + 8 ≤ length bytes.now }
    ensures got { result ≡ cast_signed w64 (field 8 at bytes.now) }
    ensures put_back { with_field 8 at (cast_unsigned w64 result) bytes.now ≡ bytes.now }
{
    get_u64(bytes, at).cast_signed()
}

/// Puts a number into the byte at a place.
pub fn put_u8(bytes: &mut [u8], at: usize, v: u8)
    requires { at + 1 ≤ length bytes.old }
    ensures put { bytes.new ≡ with_field 1 at v bytes.old }
    ensures got { field 1 at bytes.new ≡ v }
{
    bytes[at] = v;
}

/// Puts a number into the 2 bytes at a place.
pub fn put_u16(bytes: &mut [u8], at: usize, v: u16)
    requires { at + 2 ≤ length bytes.old }
    ensures put { bytes.new ≡ with_field 2 at v bytes.old }
    ensures got { field 2 at bytes.new ≡ v }
{
    LittleEndian::write_u16(&mut bytes[at..], v);
}

/// Puts a number into the 4 bytes at a place.
pub fn put_u32(bytes: &mut [u8], at: usize, v: u32)
    requires { at + 4 ≤ length bytes.old }
    ensures put { bytes.new ≡ with_field 4 at v bytes.old }
    ensures got { field 4 at bytes.new ≡ v }
{
    LittleEndian::write_u32(&mut bytes[at..], v);
}

/// Puts a number into the 8 bytes at a place.
pub fn put_u64(bytes: &mut [u8], at: usize, v: u64)
    requires { at + 8 ≤ length bytes.old }
    ensures put { bytes.new ≡ with_field 8 at v bytes.old }
    ensures got { field 8 at bytes.new ≡ v }
{
    LittleEndian::write_u64(&mut bytes[at..], v);
}

/// Puts a signed number into the 8 bytes at a place.
pub fn put_i64(bytes: &mut [u8], at: usize, v: i64)
    requires { at + 8 ≤ length bytes.old }
    ensures put { bytes.new ≡ with_field 8 at (cast_unsigned w64 v) bytes.old }
    ensures got { cast_signed w64 (field 8 at bytes.new) ≡ v }
{
    put_u64(bytes, at, v.cast_unsigned());
}
