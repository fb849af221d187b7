// Writes of a file in memory, whole or torn.
ghost use Rattle.std.specs.Prelude.{◌≡◌, ◌≤◌, ◌<◌, ◌+◌, ◌^◌, nat_le, min, length, IfOk, OnOk};
ghost use Rattle.ctr_disk.specs.Image.{Torn, TornImage};

use crate::block::BLOCK;
use crate::{Bytes, Image};
use ctr_types::File;
use std::alloc::{AllocError, Global};

/// Whether a place plus a length isn't below 2^63.
pub fn is_past_last(at: u64, len: usize) -> bool
    requires { len < 2 ^ 63 }
    ensures { result ≡ nat_le (2 ^ 63) (at + len) }
{
    at >= (1 << 63) - len as u64
}

/// What a torn write makes of a file: the bytes at a place, and the end of the file.
#[derive(Drop)]
pub struct Piece {
    pub at: u64,
    pub bytes: Vec<u8>,
    pub end: u64,
}

/// What a digit, 0 to 7, leaves of a write at a place of a file of `len` bytes. It costs what is
/// written, however long the gap before it is.
pub fn piece_left(
    alloc: Global,
    digit: u64,
    at: u64,
    with: &[u8],
    len: u64,
) -> Result<Piece, AllocError>
    requires place { at + length with.now < 2 ^ 63 }
    requires length { len < 2 ^ 63 }
    ensures low { IfOk result (λ p. min at len ≤ p.at) }
    ensures high { IfOk result (λ p. p.at + length p.bytes.items ≤ at + length with.now) }
    ensures end { IfOk result (λ p. len ≤ p.end) }
{
    let low = at.min(len);
    let ones = low.max(at.saturating_sub(BLOCK));
    let last = at + with.len() as u64;
    let end = len.max(last);
    let inside = len + (end - len) / 2;
    let half = with.len() / 2;
    let all = (last - ones) as usize;
    let (at, bytes, end) = match digit {
        0 => (low, Vec::new(alloc), len),
        1 => (at, with.to_vec(alloc)?, end),
        2 => (at, with[..half].to_vec(alloc)?, end),
        3 => (at + half as u64, with[half..].to_vec(alloc)?, end),
        4 => (at, others(alloc, with)?, end),
        5 => (ones, vec![in alloc; 1u8; all]?, end),
        6 => (at, with.to_vec(alloc)?, inside),
        _ => (ones, vec![in alloc; 1u8; all]?, inside),
    };
    Ok(Piece { at, bytes, end })
}

// As many bytes, none of them the same.
fn others(alloc: Global, bytes: &[u8]) -> Result<Vec<u8>, AllocError>
    ensures { IfOk result (λ r. length r.items ≡ length bytes.now) }
{
    let mut all = Vec::with_capacity(alloc, bytes.len())?;
    for byte in bytes {
        all.push(255 - *byte)?;
    }
    Ok(all)
}

/// Leaves of a write what a digit says (`MemDisk::image`).
pub fn tear(
    alloc: Global,
    bytes: &mut Bytes,
    at: u64,
    with: &[u8],
    digit: u64,
) -> Result<(), AllocError>
    ensures { OnOk result (Torn at (length with.now) bytes.old bytes.new) }
{
    if is_past_last(at, with.len()) {
        return Err(AllocError);
    }
    let piece = piece_left(alloc, digit, at, with, bytes.len())?;
    bytes.write(alloc, piece.at, &piece.bytes)?;
    if piece.end < bytes.len() {
        return bytes.set_len(piece.end);
    }
    Ok(())
}

/// The same in a file of an image.
pub fn tear_file(
    alloc: Global,
    image: &mut Image,
    file: File,
    at: u64,
    with: &[u8],
    digit: u64,
) -> Result<(), AllocError>
    ensures { OnOk result (TornImage file at (length with.now) image.old image.new) }
{
    let mut bytes = image.taken(alloc, file);
    let result = tear(alloc, &mut bytes, at, with, digit);
    image.set(file, bytes);
    result
}
