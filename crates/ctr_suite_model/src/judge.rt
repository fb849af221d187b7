// What the steps of a suite gave, beside what they were to give.
use crate::page::Page;
use crate::trouble::Trouble;
use ctr_io::Sink;
use std::alloc::Global;
use std::mem;

/// Compares, prints and counts.
#[derive(Drop)]
pub struct Judge {
    alloc: Global,
    page: Page,
    /// The number of the line, from 1, and that of the last step.
    line: u64,
    step: u64,
    /// What the last step gave.
    got: Page,
    wanted: Page,
    checks: u64,
    wrong: u64,
}

impl Judge {
    pub fn new(alloc: Global) -> Judge {
        Judge {
            alloc,
            page: Page::new(alloc),
            line: 0,
            step: 0,
            got: Page::new(alloc),
            wanted: Page::new(alloc),
            checks: 0,
            wrong: 0,
        }
    }

    pub fn begin_line(&mut self) {
        self.line = self.line.saturating_add(1);
    }

    pub fn begin_case(&mut self, name: &[u8]) {
        self.page.add(b"case ");
        self.page.add(name);
        self.page.add(b"\n");
    }

    /// A line that the last step was to give.
    pub fn want(&mut self, line: &[u8]) {
        self.wanted.add(line);
        self.wanted.add(b"\n");
    }

    /// What a step gave.
    pub fn give(&mut self, got: &Page) {
        self.got.add_page(got);
    }

    /// Compares what the last step gave with what was wanted. Where nothing was, it is printed.
    pub fn settle(&mut self) {
        let got = mem::replace(&mut self.got, Page::new(self.alloc));
        let wanted = mem::replace(&mut self.wanted, Page::new(self.alloc));
        if wanted.bytes.is_empty() {
            self.page.add_page(&got);
        } else {
            self.compare(&wanted, &got);
        }
        self.step = self.line;
    }

    fn compare(&mut self, wanted: &Page, got: &Page) {
        self.checks = self.checks.saturating_add(1);
        if wanted.bytes.as_slice() == got.bytes.as_slice() {
            return;
        }
        self.begin_wrong();
        self.page.add(b"this was wanted:\n");
        self.page.add_page(wanted);
        self.page.add(b"and this is it:\n");
        self.page.add_page(got);
    }

    fn begin_wrong(&mut self) {
        self.wrong = self.wrong.saturating_add(1);
        self.page.add_number("WRONG at line ", self.step);
        self.page.add(b": ");
    }

    /// Prints the verdict on a tape.
    pub fn verdict(&mut self, tape: &[u8], legal: bool, wanted: bool) {
        self.checks = self.checks.saturating_add(1);
        if legal != wanted {
            self.begin_wrong();
        }
        self.page
            .add(if legal { b"legal: " } else { b"not legal: " });
        self.page.add(tape);
        self.page.add(b"\n");
    }

    /// Says that a step can't be done.
    pub fn tell(&mut self, why: Trouble) {
        self.page.add_number("?? line ", self.line);
        self.page.add(b": ");
        self.page.add(why.text().as_bytes());
        self.page.add(b"\n");
    }

    /// What was printed, with the counts at its end.
    pub fn finish(&mut self) -> Page {
        let mut page = mem::replace(&mut self.page, Page::new(self.alloc));
        page.add_number("checks ", self.checks);
        page.add_number(", wrong ", self.wrong);
        page.add(b"\n");
        if page.faults() > 0 {
            page.add(b"out of memory\n");
        }
        page
    }
}
