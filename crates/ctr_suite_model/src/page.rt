// What is printed, in memory.
ghost use Rattle.std.specs.Prelude.{◌≡◌, [], true};

use ctr_io::{Failed, Sink};
use ctr_print::{Printer, put_number, put_refusal, put_row, put_row_line};
use ctr_types::{Refusal, Row};
use std::alloc::Global;

/// A sink in memory. It takes all that is put, and fails only where memory is refused. It keeps
/// that in mind, so that `add` need not fail.
#[derive(Drop)]
pub struct Page {
    pub bytes: Vec<u8>,
    faults: u64,
}

impl Page {
    /// An empty page. It takes no memory.
    pub fn new(alloc: Global) -> Page
        ensures { result.bytes.items ≡ [] }
    {
        Page {
            bytes: Vec::new(alloc),
            faults: 0,
        }
    }

    pub fn into_bytes(self) -> Vec<u8>
        ensures { result.items ≡ self.bytes.items }
    {
        let Page { bytes, faults: _ } = self;
        bytes
    }

    pub fn add(&mut self, bytes: &[u8]) {
        if self.bytes.extend_from_slice(bytes).is_err() {
            self.faults = self.faults.saturating_add(1);
        }
    }

    /// A number behind some words.
    pub fn add_number(&mut self, words: &str, number: u64) {
        self.add(words.as_bytes());
        let mut out = Printer::new(self);
        put_number(&mut out, number);
        let _ = out.finish();
    }

    pub fn add_signed(&mut self, number: i64) {
        let mut out = Printer::new(self);
        put_number(&mut out, number);
        let _ = out.finish();
    }

    pub fn add_row(&mut self, row: &Row) {
        let mut out = Printer::new(self);
        put_row(&mut out, row);
        let _ = out.finish();
    }

    pub fn add_row_line(&mut self, row: &Row) {
        let mut out = Printer::new(self);
        put_row_line(&mut out, row);
        let _ = out.finish();
    }

    pub fn add_refusal(&mut self, refusal: Refusal) {
        let mut out = Printer::new(self);
        put_refusal(&mut out, refusal);
        let _ = out.finish();
    }

    /// Takes over what another page has.
    pub fn add_page(&mut self, other: &Page) {
        self.add(&other.bytes);
        self.faults = self.faults.saturating_add(other.faults);
    }
}

impl Sink for Page {
    ghost tells = { true };

    ghost taken = { λ page. page.bytes.items };

    ghost faults_of = { λ page. page.faults };

    fn put(&mut self, bytes: &[u8]) -> Result<usize, Failed> {
        if self.bytes.extend_from_slice(bytes).is_err() {
            self.faults = self.faults.saturating_add(1);
            return Err(Failed);
        }
        Ok(bytes.len())
    }

    fn faults(&self) -> u64 {
        self.faults
    }
}
