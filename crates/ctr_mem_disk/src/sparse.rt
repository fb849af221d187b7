// The bytes of a file in memory.
ghost use Rattle.std.specs.Prelude.{◌≡◌, ◌+◌, ◌<◌, ◌^◌, [], length, IfOk, OnOk, OnErr};
ghost use Rattle.ctr_disk.specs.Image.{section, written};

use crate::block::Block;
use crate::blocks::{cut_blocks, read_blocks, write_blocks};
use crate::tearing::is_past_last;
use std::alloc::{AllocError, Global};
use std::collections::BTreeMap;
use std::marker::Model;

/// Bytes in order, of which blocks of 4,096 bytes that are all zeros take no memory.
#[derive(Drop)]
pub struct Bytes {
    blocks: BTreeMap<u64, Block>,
    len: u64,
}

impl Model for Bytes {
    ghost use Rattle.std.specs.Prelude.{List, ℕ, ◌<◌, ◌^◌};
    ghost use Rattle.ctr_mem_disk.specs.Blocks.{byte_in, bytes_from, IsBlankFrom};

    ghost Value = { List ℕ };

    ghost view = { λ a. bytes_from (byte_in a.blocks) 0 a.len };

    ghost invariant = { λ a. (a.len < 2 ^ 63) × IsBlankFrom a.len (byte_in a.blocks) };
}

impl Bytes {
    /// No bytes. It takes no memory.
    pub fn new(alloc: Global) -> Bytes
        ensures { result ≡ [] }
    {
        Bytes {
            blocks: BTreeMap::new(alloc),
            len: 0,
        }
    }

    /// The same bytes. It takes time and memory by the blocks that are kept.
    pub fn copy(&self) -> Result<Bytes, AllocError>
        ensures { IfOk result (λ copied. copied ≡ self.now) }
    {
        Ok(Bytes {
            blocks: self.blocks.clone()?,
            len: self.len,
        })
    }

    /// How many bytes there are.
    pub fn len(&self) -> u64
        ensures value { result ≡ length self.now }
        ensures bound { result < 2 ^ 63 }
    {
        self.len
    }

    /// How many blocks of 4,096 bytes take memory. One that is all zeros takes none.
    pub fn kept(&self) -> usize {
        self.blocks.len()
    }

    /// Fills `into` from a place of the bytes, with zeros past their end.
    pub fn read(&self, at: u64, into: &mut [u8])
        requires { at + length into.old < 2 ^ 63 }
        ensures { into.new ≡ section at (length into.old) self.now }
    {
        read_blocks(&self.blocks, at, into);
    }

    /// Writes in place, with zeros in a gap past the end. It costs what is written, whatever the
    /// bytes grow by. A write that ends at 2^63 or later is refused; there nothing changes, nor
    /// where memory is refused.
    pub fn write(&mut self, alloc: Global, at: u64, with: &[u8]) -> Result<(), AllocError>
        ensures ok { OnOk result (self.new ≡ written at with.now self.old) }
        ensures err { OnErr result (self.new ≡ self.old) }
    {
        if is_past_last(at, with.len()) {
            return Err(AllocError);
        }
        write_blocks(alloc, &mut self.blocks, at, with)?;
        self.len = self.len.max(at + with.len() as u64);
        Ok(())
    }

    /// Cuts the bytes at a length, or puts zeros behind them up to it. It costs the blocks that go.
    /// A length of 2^63 or more is refused; there nothing changes, nor where memory is refused.
    pub fn set_len(&mut self, len: u64) -> Result<(), AllocError>
        ensures ok { OnOk result (self.new ≡ section 0 len self.old) }
        ensures err { OnErr result (self.new ≡ self.old) }
    {
        if is_past_last(len, 0) {
            return Err(AllocError);
        }
        if len < self.len {
            cut_blocks(&mut self.blocks, len)?;
        }
        self.len = len;
        Ok(())
    }
}
