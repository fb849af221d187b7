// What is printed: of each case a line with what its steps answered, and what came otherwise than is wanted.
use crate::suite::Line;
use crate::told::Told;
use ctr_suite::Words;
use std::alloc::{AllocError, Global};

/// A page that grows. Where memory is refused a part is missing, which shows as well as a wrong answer does.
#[derive(Drop)]
pub struct Page {
    alloc: Global,
    bytes: Vec<u8>,
    /// What the steps of the case have answered.
    answers: Vec<u8>,
    /// What the step has answered so far.
    told: Vec<u8>,
    /// What was told of the case's steps that went otherwise, and how many there were in all.
    otherwise: Vec<u8>,
    wrong: u64,
}

// Adds an answer behind others.
fn add_answer(answers: &mut Vec<u8>, answer: &[u8]) -> Result<(), AllocError> {
    if !answers.is_empty() {
        answers.extend_from_slice(b", ")?;
    }
    answers.extend_from_slice(answer)
}

// The numbers from one to another, one behind another.
fn add_numbers(
    alloc: Global,
    answers: &mut Vec<u8>,
    first: u64,
    last: u64,
) -> Result<(), AllocError> {
    for number in first..last.saturating_add(1) {
        add_answer(answers, format!(in alloc; "{number}")?.as_bytes())?;
    }
    Ok(())
}

// The first and the last number that `A to B` says.
fn numbers_of(wanted: &[u8]) -> Option<(u64, u64)> {
    let mut words = Words::new(wanted);
    let first = words.value();
    let to = words.word();
    let last = words.value();
    if to == b"to".as_slice() && words.are_right() {
        Some((first, last))
    } else {
        None
    }
}

// Whether these are the answers that are wanted.
fn is_wanted(alloc: Global, answers: &[u8], wanted: &[u8]) -> Result<bool, AllocError> {
    let Some((first, last)) = numbers_of(wanted) else {
        return Ok(answers == wanted);
    };
    let mut numbers = Vec::new(alloc);
    add_numbers(alloc, &mut numbers, first, last)?;
    Ok(answers == numbers.as_slice())
}

fn put(page: &mut Vec<u8>, bytes: &[u8]) {
    let _ = page.extend_from_slice(bytes);
}

fn put_number(alloc: Global, page: &mut Vec<u8>, number: u64) {
    if let Ok(text) = format!(in alloc; "{number}") {
        put(page, text.as_bytes());
    }
}

// Says of which step the answer is another one, and what it is.
fn tell_otherwise(alloc: Global, page: &mut Vec<u8>, line: &Line, answer: &[u8]) {
    put(page, b"otherwise in case ");
    put(page, line.case);
    put(page, b", line ");
    put_number(alloc, page, line.number);
    put(page, b": ");
    put(page, line.text);
    put(page, b"\n  wanted ");
    put(page, line.wanted);
    put(page, b"\n  came   ");
    put(page, answer);
    put(page, b"\n");
}

impl Page {
    pub fn new(alloc: Global) -> Page {
        Page {
            alloc,
            bytes: Vec::new(alloc),
            answers: Vec::new(alloc),
            told: Vec::new(alloc),
            otherwise: Vec::new(alloc),
            wrong: 0,
        }
    }

    pub fn bytes(&self) -> &[u8] {
        &self.bytes
    }

    /// A line isn't a step.
    pub fn refuse_line(&mut self, number: u64, line: &[u8]) {
        self.wrong = self.wrong.saturating_add(1);
        put(&mut self.bytes, b"no step in line ");
        put_number(self.alloc, &mut self.bytes, number);
        put(&mut self.bytes, b": ");
        put(&mut self.bytes, line);
        put(&mut self.bytes, b"\n");
    }

    /// A step answers; some have several answers.
    pub fn say(&mut self, told: Told) {
        if let Ok(text) = told.text(self.alloc) {
            let _ = add_answer(&mut self.told, text.as_bytes());
        }
    }

    /// The step of a line is done, or isn't reached: its answers are compared with what is wanted.
    pub fn end_step(&mut self, line: &Line) {
        if !self.told.is_empty() {
            let _ = add_answer(&mut self.answers, &self.told);
        }
        if is_wanted(self.alloc, &self.told, line.wanted) != Ok(true) {
            self.wrong = self.wrong.saturating_add(1);
            tell_otherwise(self.alloc, &mut self.otherwise, line, &self.told);
        }
        self.told.clear();
    }

    /// The case of a name is done.
    pub fn end_case(&mut self, name: &[u8]) {
        put(&mut self.bytes, name);
        put(&mut self.bytes, b":");
        if !self.answers.is_empty() {
            put(&mut self.bytes, b" ");
        }
        put(&mut self.bytes, &self.answers);
        put(&mut self.bytes, b"\n");
        put(&mut self.bytes, &self.otherwise);
        self.answers.clear();
        self.otherwise.clear();
    }

    /// All cases are done. How many lines went otherwise is said where there was one.
    pub fn end(&mut self) {
        if self.wrong > 0 {
            put_number(self.alloc, &mut self.bytes, self.wrong);
            put(&mut self.bytes, b" otherwise\n");
        }
    }
}
