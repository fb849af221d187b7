// What is printed, in memory.
ghost use Rattle.std.specs.Prelude.{true};

use ctr_io::{Failed, Sink};
use ctr_print::{Printer, put_number, put_refusal, put_row};
use ctr_types::{Refusal, Row};
use std::alloc::Global;

/// A sink in memory. It takes all that is put, and fails only where memory is refused. It keeps that in mind, so that `add` need not
/// fail.
#[derive(Drop)]
pub struct Page {
    bytes: Vec<u8>,
    faults: u64,
}

impl Page {
    /// An empty page. It takes no memory.
    pub fn new(alloc: Global) -> Page {
        Page {
            bytes: Vec::new(alloc),
            faults: 0,
        }
    }

    pub fn bytes(&self) -> &[u8] {
        &self.bytes
    }

    pub fn into_bytes(self) -> Vec<u8> {
        let Page { bytes, faults: _ } = self;
        bytes
    }

    /// Whether memory was refused, so that a part is missing.
    pub fn is_cut(&self) -> bool {
        self.faults > 0
    }

    pub fn clear(&mut self) {
        self.bytes.clear();
    }

    pub fn add(&mut self, bytes: &[u8]) {
        if self.bytes.extend_from_slice(bytes).is_err() {
            self.faults = self.faults.saturating_add(1);
        }
    }

    /// A number behind some words.
    pub fn add_number(&mut self, words: &str, number: u64) {
        self.add(words.as_bytes());
        let mut out = Printer::new(self);
        put_number(&mut out, number);
        let _ = out.finish();
    }

    pub fn add_row(&mut self, row: &Row) {
        let mut out = Printer::new(self);
        put_row(&mut out, row);
        let _ = out.finish();
    }

    pub fn add_refusal(&mut self, refusal: Refusal) {
        let mut out = Printer::new(self);
        put_refusal(&mut out, refusal);
        let _ = out.finish();
    }
}

impl Sink for Page {
    ghost tells = { true };

    ghost taken = { λ page. page.bytes.items };

    ghost faults_of = { λ page. page.faults };

    fn put(&mut self, bytes: &[u8]) -> Result<usize, Failed> {
        if self.bytes.extend_from_slice(bytes).is_err() {
            self.faults = self.faults.saturating_add(1);
            return Err(Failed);
        }
        Ok(bytes.len())
    }

    fn faults(&self) -> u64 {
        self.faults
    }
}
