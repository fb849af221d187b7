// Plays the cases.
use crate::bytes::unescaped;
use crate::told::{Page, tell_lines, tell_statement};
use ctr_io::MemSource;
use ctr_load::make;
use ctr_parse::{ParseRefusal, parse_statement};
use ctr_script::{ScriptError, read_script};
use ctr_suite::{Plays, Words};
use ctr_types::{List, Script, Statement, Text};
use std::alloc::{AllocError, Global};
use std::mem;

/// Where a suite stands.
#[derive(Drop)]
pub struct Player {
    alloc: Global,
    page: Page,
    /// What the last case gives, and the case.
    gives: Page,
    begun: Vec<u8>,
    right: u64,
    wrong: u64,
}

fn tell_script(alloc: Global, page: &mut Page, bytes: Vec<u8>) -> Result<(), AllocError> {
    let mut source = MemSource::new(Text::from_vec(bytes), List::new(alloc));
    let read = read_script(alloc, &mut source);
    tell_read(page, &read)
}

fn tell_read(page: &mut Page, read: &Result<Script, ScriptError>) -> Result<(), AllocError> {
    match read {
        Ok(script) => tell_lines(page, script.lines.as_slice()),
        Err(ScriptError::Refused { line, at }) => {
            page.add("refused ")?;
            page.add_number(*line)?;
            page.add(".")?;
            page.add_number(*at)
        }
        Err(ScriptError::TooLong) => page.add("too long"),
        Err(ScriptError::ReadFault) => page.add("read fault"),
        Err(ScriptError::OutOfMemory) => page.add("out of memory"),
    }
}

fn tell_text(alloc: Global, page: &mut Page, bytes: &[u8]) -> Result<(), AllocError> {
    match std::str::from_utf8(bytes) {
        Err(_) => page.add("not UTF-8"),
        Ok(text) => tell_parsed(page, &parse_statement(alloc, text)),
    }
}

fn tell_parsed(
    page: &mut Page,
    parsed: &Result<Statement, ParseRefusal>,
) -> Result<(), AllocError> {
    match parsed {
        Ok(statement) => tell_statement(page, statement),
        Err(ParseRefusal::ParseError { at }) => {
            page.add("refused ")?;
            page.add_number(*at as u64)
        }
        Err(ParseRefusal::OutOfMemory) => page.add("out of memory"),
    }
}

// A script that is generated, where these are numbers of one.
fn tell_load(alloc: Global, page: &mut Page, words: &mut Words<'_>) -> Result<(), AllocError> {
    let sessions = words.value::<u8>();
    let count = words.value::<u64>();
    let seed = words.value::<u64>();
    if !words.are_right() || sessions < 1 || sessions > 8 || count > 1_000_000 {
        return page.add("no load");
    }
    match make(alloc, sessions, count, seed) {
        Ok(script) => tell_lines(page, script.lines.as_slice()),
        Err(_) => page.add("out of memory"),
    }
}

fn behind<'a>(line: &'a [u8], word: &[u8]) -> Option<&'a [u8]> {
    if line.len() < word.len() {
        return None;
    }
    let (front, rest) = line.split_at(word.len());
    if front == word { Some(rest) } else { None }
}

impl Player {
    fn begin(&mut self, line: &[u8]) -> Result<(), AllocError> {
        self.begun = line.to_vec(self.alloc)?;
        self.gives = Page::new(self.alloc);
        Ok(())
    }

    // What the case must give.
    fn compare(&mut self, wanted: &[u8]) -> Result<(), AllocError> {
        if self.gives.bytes() == wanted {
            self.right = self.right.saturating_add(1);
            return Ok(());
        }
        self.wrong = self.wrong.saturating_add(1);
        self.page.add_bytes(&self.begun)?;
        self.page.add("\n  wanted ")?;
        self.page.add_bytes(wanted)?;
        self.page.add("\n  gives  ")?;
        self.page.add_bytes(self.gives.bytes())?;
        self.page.add("\n")
    }

    fn play(&mut self, line: &[u8]) -> Result<(), AllocError> {
        let alloc = self.alloc;
        if let Some(text) = behind(line, b"script ") {
            self.begin(line)?;
            let bytes = unescaped(alloc, text)?;
            return tell_script(alloc, &mut self.gives, bytes);
        }
        if let Some(text) = behind(line, b"statement ") {
            self.begin(line)?;
            let bytes = unescaped(alloc, text)?;
            return tell_text(alloc, &mut self.gives, &bytes);
        }
        if let Some(numbers) = behind(line, b"load ") {
            self.begin(line)?;
            return tell_load(alloc, &mut self.gives, &mut Words::new(numbers));
        }
        if let Some(wanted) = behind(line, b"= ") {
            return self.compare(wanted);
        }
        if line == b"=".as_slice() {
            return self.compare(b"");
        }
        Ok(())
    }

    fn add_end(&mut self) -> Result<(), AllocError> {
        self.page.add_number(self.right)?;
        self.page.add(" cases as expected, ")?;
        self.page.add_number(self.wrong)?;
        self.page.add(" not\n")
    }
}

impl Plays for Player {
    fn new(alloc: Global) -> Player {
        Player {
            alloc,
            page: Page::new(alloc),
            gives: Page::new(alloc),
            begun: Vec::new(alloc),
            right: 0,
            wrong: 0,
        }
    }

    fn take_line(&mut self, line: &[u8]) {
        if self.play(line).is_err() {
            self.wrong = self.wrong.saturating_add(1);
        }
    }

    // Each case that gave something else, and how many there were.
    fn finish(&mut self) -> Vec<u8> {
        let _ = self.add_end();
        mem::replace(&mut self.page, Page::new(self.alloc)).into_bytes()
    }
}
