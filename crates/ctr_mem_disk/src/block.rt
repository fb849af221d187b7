// A block of a file in memory.
ghost use Rattle.std.specs.Prelude.{◌≡◌, ◌+◌, ◌≤◌, ◌<◌, ℕ, IsTrue, IfOk, length, slice_index};
ghost use Rattle.ctr_mem_disk.specs.Blocks.{Puts};

use std::alloc::{AllocError, Global};
use std::marker::Model;

/// How many bytes a block has.
pub const BLOCK: u64 = 4096;

/// 4,096 bytes.
#[derive(Drop)]
pub struct Block {
    bytes: Vec<u8>,
}

impl Model for Block {
    ghost use Rattle.std.specs.Prelude.{◌≡◌, List, ℕ, length};

    ghost Value = { List ℕ };

    ghost view = { λ a. a.bytes.items };

    ghost invariant = { λ a. length a.bytes.items ≡ 4096 };
}

impl Block {
    /// All zeros.
    pub fn zeros(alloc: Global) -> Result<Block, AllocError>
        ensures { IfOk result (λ block. (i : ℕ) → slice_index block i ≡ 0) }
    {
        let mut bytes = Vec::new(alloc);
        bytes.resize(BLOCK as usize, 0)?;
        Ok(Block { bytes })
    }

    pub fn bytes(&self) -> &[u8]
        ensures value { result.now ≡ self.now }
        ensures whole { length result.now ≡ 4096 }
    {
        &self.bytes
    }

    /// Puts bytes at a place.
    pub fn put(&mut self, at: usize, with: &[u8])
        requires { at + length with.now ≤ 4096 }
        ensures { Puts at with.now (slice_index self.old) (slice_index self.new) }
    {
        self.bytes[at..at + with.len()].copy_from_slice(with);
    }

    /// Puts zeros from a place on.
    pub fn clear_from(&mut self, at: usize)
        requires { at ≤ 4096 }
        ensures below { (i : ℕ) → i < at → slice_index self.new i ≡ slice_index self.old i }
        ensures behind { (i : ℕ) → at ≤ i → slice_index self.new i ≡ 0 }
    {
        clear(&mut self.bytes[at..]);
    }

    pub fn is_zero(&self) -> bool
        ensures { IsTrue result → (i : ℕ) → slice_index self.now i ≡ 0 }
    {
        is_all_zero(&self.bytes)
    }
}

impl Clone for Block {
    ghost use Rattle.std.specs.Prelude.{◌≡◌};

    ghost is_clone = { λ a b. b ≡ a };

    fn clone(&self) -> Result<Block, AllocError> {
        let mut bytes = Vec::new(*self.bytes.allocator());
        bytes.extend_from_slice(&self.bytes)?;
        Ok(Block { bytes })
    }
}

/// Puts zeros everywhere.
pub fn clear(bytes: &mut [u8])
    ensures { (i : ℕ) → slice_index bytes.new i ≡ 0 }
{
    for byte in bytes.iter_mut() {
        *byte = 0;
    }
}

/// Whether no byte is another than 0.
pub fn is_all_zero(bytes: &[u8]) -> bool
    ensures { IsTrue result → (i : ℕ) → slice_index bytes.now i ≡ 0 }
{
    for byte in bytes {
        if *byte != 0 {
            return false;
        }
    }
    true
}
