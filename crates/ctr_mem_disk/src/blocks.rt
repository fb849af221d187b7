// The blocks of a file in memory, by their numbers. One that is all zeros needn't be kept.
ghost use Rattle.std.specs.Prelude.{◌≡◌, ◌+◌, ◌≤◌, ◌<◌, ◌^◌, ◌/◌, ◌%◌, ℕ, IsTrue, OnOk, OnErr, length, slice_index};
ghost use Rattle.ctr_mem_disk.specs.Blocks.{byte_in, StaysSame, Puts, HasBlocksFor, KeepsBlocks, IsBlankFrom, IsBlockZero};

use crate::block::{BLOCK, Block, clear, is_all_zero};
use std::alloc::{AllocError, Global};
use std::collections::BTreeMap;

// How many of the next bytes stand in the block of their place.
fn piece_at(at: u64, left: usize) -> usize
    ensures some { 0 < left → 0 < result }
    ensures most { result ≤ left }
    ensures fits { at % 4096 + result ≤ 4096 }
{
    let room = BLOCK - at % BLOCK;
    left.min(room as usize)
}

// Reads bytes of one block.
fn read_piece(blocks: &BTreeMap<u64, Block>, at: u64, into: &mut [u8])
    requires { at % 4096 + length into.old ≤ 4096 }
    ensures { (k : ℕ) → k < length into.new → slice_index into.new k ≡ byte_in blocks.now (at + k) }
{
    let start = (at % BLOCK) as usize;
    let len = into.len();
    match blocks.get(&(at / BLOCK)) {
        Some(block) => into.copy_from_slice(&block.bytes()[start..start + len]),
        None => clear(into),
    }
}

/// Reads bytes from a place on.
pub fn read_blocks(blocks: &BTreeMap<u64, Block>, at: u64, into: &mut [u8])
    requires { at + length into.old < 2 ^ 63 }
    ensures { (k : ℕ) → k < length into.new → slice_index into.new k ≡ byte_in blocks.now (at + k) }
{
    let mut done = 0;
    while done < into.len() {
        let place = at + done as u64;
        let len = piece_at(place, into.len() - done);
        read_piece(blocks, place, &mut into[done..done + len]);
        done += len;
    }
}

// Takes room for bytes of one block. Zeros need none.
fn make_room(
    alloc: Global,
    blocks: &mut BTreeMap<u64, Block>,
    at: u64,
    with: &[u8],
) -> Result<(), AllocError>
    requires { at % 4096 + length with.now ≤ 4096 }
    ensures same { StaysSame (byte_in blocks.old) (byte_in blocks.new) }
    ensures kept { KeepsBlocks blocks.old blocks.new }
    ensures room { OnOk result (HasBlocksFor at with.now blocks.new) }
{
    let number = at / BLOCK;
    if is_all_zero(with) || blocks.contains_key(&number) {
        return Ok(());
    }
    blocks.insert(number, Block::zeros(alloc)?)?;
    Ok(())
}

// The same of bytes of several blocks.
fn make_rooms(
    alloc: Global,
    blocks: &mut BTreeMap<u64, Block>,
    at: u64,
    with: &[u8],
) -> Result<(), AllocError>
    requires { at + length with.now < 2 ^ 63 }
    ensures same { StaysSame (byte_in blocks.old) (byte_in blocks.new) }
    ensures room { OnOk result (HasBlocksFor at with.now blocks.new) }
{
    let mut done = 0;
    while done < with.len() {
        let place = at + done as u64;
        let len = piece_at(place, with.len() - done);
        make_room(alloc, blocks, place, &with[done..done + len])?;
        done += len;
    }
    Ok(())
}

// Puts bytes into one block.
fn put_piece(blocks: &mut BTreeMap<u64, Block>, at: u64, with: &[u8])
    requires fits { at % 4096 + length with.now ≤ 4096 }
    requires room { HasBlocksFor at with.now blocks.old }
    ensures put { Puts at with.now (byte_in blocks.old) (byte_in blocks.new) }
    ensures kept { KeepsBlocks blocks.old blocks.new }
{
    let Some(block) = blocks.get_mut(&(at / BLOCK)) else {
        return;
    };
    block.put((at % BLOCK) as usize, with);
}

// The same with bytes of several blocks.
fn put_pieces(blocks: &mut BTreeMap<u64, Block>, at: u64, with: &[u8])
    requires place { at + length with.now < 2 ^ 63 }
    requires room { HasBlocksFor at with.now blocks.old }
    ensures { Puts at with.now (byte_in blocks.old) (byte_in blocks.new) }
{
    let mut done = 0;
    while done < with.len() {
        let place = at + done as u64;
        let len = piece_at(place, with.len() - done);
        put_piece(blocks, place, &with[done..done + len]);
        done += len;
    }
}

// Whether a block is kept that is all zeros.
fn is_zero_kept(blocks: &BTreeMap<u64, Block>, number: u64) -> bool
    ensures { IsTrue result → IsBlockZero blocks.now number }
{
    match blocks.get(&number) {
        Some(block) => block.is_zero(),
        None => false,
    }
}

// A block of zeros goes.
fn drop_zero(blocks: &mut BTreeMap<u64, Block>, number: u64)
    ensures { StaysSame (byte_in blocks.old) (byte_in blocks.new) }
{
    if is_zero_kept(blocks, number) {
        blocks.remove(&number);
    }
}

// Of the blocks with these places those that are all zeros go.
fn drop_zeros(blocks: &mut BTreeMap<u64, Block>, at: u64, len: usize)
    requires { at + len < 2 ^ 63 }
    ensures { StaysSame (byte_in blocks.old) (byte_in blocks.new) }
{
    for number in at / BLOCK..(at + len as u64) / BLOCK + 1 {
        drop_zero(blocks, number);
    }
}

/// Writes bytes at a place. Where memory is refused, nothing changes.
pub fn write_blocks(
    alloc: Global,
    blocks: &mut BTreeMap<u64, Block>,
    at: u64,
    with: &[u8],
) -> Result<(), AllocError>
    requires { at + length with.now < 2 ^ 63 }
    ensures ok { OnOk result (Puts at with.now (byte_in blocks.old) (byte_in blocks.new)) }
    ensures err { OnErr result (StaysSame (byte_in blocks.old) (byte_in blocks.new)) }
{
    let room = make_rooms(alloc, blocks, at, with);
    if room.is_ok() {
        put_pieces(blocks, at, with);
    }
    drop_zeros(blocks, at, with.len());
    room
}

// Puts zeros from a place on to the end of its block.
fn clear_piece(blocks: &mut BTreeMap<u64, Block>, at: u64)
    ensures below { (i : ℕ) → i < at → byte_in blocks.new i ≡ byte_in blocks.old i }
    ensures here { (i : ℕ) → at ≤ i → i / 4096 ≡ at / 4096 → byte_in blocks.new i ≡ 0 }
    ensures behind { (i : ℕ) → at / 4096 < i / 4096 → byte_in blocks.new i ≡ byte_in blocks.old i }
{
    let Some(block) = blocks.get_mut(&(at / BLOCK)) else {
        return;
    };
    block.clear_from((at % BLOCK) as usize);
}

/// Leaves the bytes below a place. Where memory is refused, nothing changes.
pub fn cut_blocks(blocks: &mut BTreeMap<u64, Block>, len: u64) -> Result<(), AllocError>
    requires { len < 2 ^ 63 }
    ensures below { OnOk result ((i : ℕ) → i < len → byte_in blocks.new i ≡ byte_in blocks.old i) }
    ensures behind { OnOk result (IsBlankFrom len (byte_in blocks.new)) }
    ensures err { OnErr result (StaysSame (byte_in blocks.old) (byte_in blocks.new)) }
{
    let end = (len + (BLOCK - 1)) / BLOCK;
    blocks.split_off(&end)?;
    clear_piece(blocks, len);
    drop_zero(blocks, len / BLOCK);
    Ok(())
}
