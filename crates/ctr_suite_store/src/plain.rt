// What records make of pages, plainly: every page in memory, each record laid over its page.
use crate::steps::Overlay;
use std::alloc::{AllocError, Global};

/// How many bytes a page has.
pub const PAGE: usize = 4096;

// A number that stands for a page's number and bytes; 0 for one that has nothing.
fn number_of(page: u64, bytes: &[u8]) -> u64 {
    let mut sum = page.wrapping_add(1).wrapping_mul(0x9E37_79B9_7F4A_7C15);
    let mut any = 0;
    for byte in bytes {
        any |= *byte;
        sum = (sum ^ *byte as u64).wrapping_mul(0x0100_0000_01B3);
    }
    if any == 0 { 0 } else { sum }
}

// Lays eight such bytes over a page, as far as it goes.
fn lay(page: &mut [u8], at: usize, byte: u8) {
    for i in 0..8 {
        if let Some(place) = page.get_mut(at.wrapping_add(i)) {
            *place = byte;
        }
    }
}

/// A state told by numbers: the sum of those of its pages, and the next transaction.
#[derive(Clone, Copy, PartialEq, Eq)]
pub struct Told {
    pub pages: u64,
    pub next: u64,
}

impl Told {
    /// Of no page, with the first transaction next.
    pub fn new() -> Told {
        Told { pages: 0, next: 1 }
    }

    /// With a page more.
    pub fn add_page(&mut self, page: u64, bytes: &[u8]) {
        self.pages = self.pages.wrapping_add(number_of(page, bytes));
    }

    fn take_page(&mut self, page: u64, bytes: &[u8]) {
        self.pages = self.pages.wrapping_sub(number_of(page, bytes));
    }
}

/// The pages with all records, and the states behind each number of records.
#[derive(Drop)]
pub struct Plain {
    alloc: Global,
    pages: Vec<Vec<u8>>,
    states: Vec<Told>,
}

impl Plain {
    /// Pages that have nothing.
    pub fn new(alloc: Global, count: u32) -> Result<Plain, AllocError> {
        let mut pages = Vec::new(alloc);
        for _ in 0..count {
            let mut page = Vec::new(alloc);
            page.resize(PAGE, 0)?;
            pages.push(page)?;
        }
        let mut states = Vec::new(alloc);
        states.push(Told::new())?;
        Ok(Plain {
            alloc,
            pages,
            states,
        })
    }

    /// The state behind the last record.
    pub fn last(&self) -> Told {
        match self.states.last() {
            Some(told) => *told,
            None => Told::new(),
        }
    }

    /// How many records there are.
    pub fn count(&self) -> usize {
        self.states.len().saturating_sub(1)
    }

    /// The state behind so many records.
    pub fn state(&self, count: usize) -> Option<Told> {
        match self.states.get(count) {
            Some(told) => Some(*told),
            None => None,
        }
    }

    /// How many records, of those that may be, make this state: the most.
    pub fn records_of(&self, told: Told, from: usize) -> Option<usize> {
        let mut found = None;
        for count in from..self.count().saturating_add(1) {
            if self.state(count) == Some(told) {
                found = Some(count);
            }
        }
        found
    }

    /// A Begin.
    pub fn begin(&mut self) -> Result<(), AllocError> {
        let mut told = self.last();
        told.next = told.next.wrapping_add(1);
        self.states.push(told)?;
        Ok(())
    }

    /// Eight such bytes at a place of a page.
    pub fn put(&mut self, overlay: Overlay) -> Result<(), AllocError> {
        let page = overlay.page as u64;
        let mut told = self.last();
        if let Some(bytes) = self.pages.get_mut(overlay.page as usize) {
            told.take_page(page, bytes);
            lay(bytes, overlay.at as usize, overlay.byte);
            told.add_page(page, bytes);
        }
        self.states.push(told)?;
        Ok(())
    }
}
