//! Bytes of a file that were read ahead: a log is read in many small parts, one behind another, and a call of the system for each would
//! take longer than all that is done with them.
ghost use Rattle.std.specs.Prelude.{◌≡◌, true, false, Some};
ghost use Rattle.ctr_file.specs.Ahead.{has_none, IsPart};

use crate::folder::read_or_zeros;
use ctr_types::File as Which;
use std::alloc::Global;
use std::fs::File;

/// How many bytes are read ahead.
pub const AHEAD: usize = 16_384;

/// The bytes of one file from a place on, as they were read last, with zeros past its end. It takes memory when it is first filled; where
/// that is refused nothing is read ahead.
#[derive(Drop)]
pub struct Ahead {
    // whose bytes they are, where they are any
    of: Option<Which>,
    at: u64,
    bytes: Vec<u8>,
}

impl Ahead {
    /// Nothing was read ahead.
    pub fn new(alloc: Global) -> Self
        ensures { has_none result ≡ true }
    {
        Ahead {
            of: None,
            at: 0,
            bytes: Vec::new(alloc),
        }
    }

    /// Forgets what was read ahead.
    pub fn forget(&mut self)
        ensures { has_none self.new ≡ true }
    {
        self.of = None;
    }

    /// Copies bytes of a file from a place on, where all of them were read ahead; else nothing.
    pub fn copy(&self, file: Which, at: u64, into: &mut [u8]) -> bool
        ensures copied { result ≡ true → IsPart file at self.now into.new }
        ensures none { result ≡ false → into.new ≡ into.old }
    {
        if self.of != Some(file) || at < self.at || at - self.at > AHEAD as u64 {
            return false;
        }
        let start = (at - self.at) as usize;
        match self.bytes.get(start..start + into.len()) {
            Some(part) => {
                into.copy_from_slice(part);
                true
            }
            None => false,
        }
    }

    // Takes its memory, unless it has it.
    fn make_room(&mut self) -> bool
        ensures { self.new.of ≡ self.old.of }
    {
        if self.bytes.len() == AHEAD {
            return true;
        }
        self.bytes.clear();
        self.bytes.resize(AHEAD, 0).is_ok()
    }

    /// Reads ahead from a place of a file on; false where the system can't, or memory is refused, and then nothing is known.
    pub fn fill(&mut self, opened: &File, file: Which, at: u64) -> bool
        ensures filled { result ≡ true → (self.new.of ≡ Some file) × (self.new.at ≡ at) }
        ensures none { result ≡ false → has_none self.new ≡ true }
    {
        self.of = None;
        if !self.make_room() {
            return false;
        }
        if read_or_zeros(opened, at, &mut self.bytes).is_err() {
            return false;
        }
        self.of = Some(file);
        self.at = at;
        true
    }
}
