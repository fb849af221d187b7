// The suite: cases, each of a name, of steps, one a line, and of a question, with what is wanted beside it.
use crate::cases::{Case, answer_of};
use crate::page::{Asked, Page};
use crate::reading::{Line, Question, line_of};
use std::alloc::Global;

// Where a suite stands: the number and the text of the line that it has come to, and the case so far.
#[derive(Drop)]
struct Reader<'a> {
    alloc: Global,
    number: u64,
    /// The name of a case that has asked nothing yet.
    name: Option<&'a [u8]>,
    case: Case<'a>,
}

// What stands before ` = `, and what is wanted behind it.
fn split_wanted(line: &[u8]) -> (&[u8], &[u8]) {
    match line.windows(3).position(|bytes| bytes == b" = ".as_slice()) {
        Some(at) => (line[..at].trim_ascii_end(), &line[at + 3..]),
        None => (line, &line[line.len()..]),
    }
}

impl<'a> Reader<'a> {
    // A case begins.
    fn begin_case(&mut self, name: &'a [u8], page: &mut Page) {
        self.end_case(page);
        self.name = Some(name);
        self.case.clear();
    }

    // A case that has asked nothing is told.
    fn end_case(&mut self, page: &mut Page) {
        if let Some(name) = self.name {
            page.refuse_line(self.number, b"no question before", name);
        }
        self.name = None;
    }

    // The question of the case, which ends it; whether there is a case.
    fn ask(&mut self, question: Question, text: &[u8], wanted: &[u8], page: &mut Page) -> bool {
        let Some(name) = self.name else {
            return false;
        };
        let asked = Asked {
            number: self.number,
            text,
            wanted,
        };
        match answer_of(self.alloc, &self.case, question) {
            Ok(answer) => page.answer(name, asked, answer.as_bytes()),
            Err(_) => page.answer(name, asked, b"no memory"),
        }
        self.name = None;
        true
    }

    // A line of a case; whether it says something, of a case that has asked nothing yet.
    fn take(&mut self, line: &'a [u8], page: &mut Page) -> bool {
        let (text, wanted) = split_wanted(line);
        match line_of(text) {
            Some(Line::Step(step)) => self.name.is_some() && self.case.add_step(step),
            Some(Line::Patch(patch)) => self.name.is_some() && self.case.add_patch(patch),
            Some(Line::Question(question)) => self.ask(question, text, wanted, page),
            None => false,
        }
    }

    // A line of the suite. Blank ones and those that begin with # say nothing.
    fn take_line(&mut self, line: &'a [u8], page: &mut Page) {
        self.number = self.number.saturating_add(1);
        if line.is_empty() || line[0] == b'#' {
            return;
        }
        if let Some(name) = line.strip_prefix(b"case ") {
            self.begin_case(name, page);
        } else if !self.take(line, page) {
            page.refuse_line(self.number, b"no step", line);
        }
    }
}

/// Plays all cases of a suite, one behind another.
pub fn play_suite(alloc: Global, suite: &[u8], page: &mut Page) {
    let mut reader = Reader {
        alloc,
        number: 0,
        name: None,
        case: Case::new(alloc),
    };
    for line in suite.split(|byte| *byte == b'\n') {
        reader.take_line(line.trim_ascii(), page);
    }
    reader.end_case(page);
    page.end();
}
