// A part of a text.

/// Bytes, or a number in decimal.
#[derive(Clone, Copy)]
pub enum Piece<'a> {
    Bytes(&'a [u8]),
    Number(u64),
    Wide(u128),
    Signed(i64),
    WideSigned(i128),
}
