// Lines as they are written.
use crate::steps::{Overlay, Step};
use ctr_suite::{Words, named};
use ctr_types::File;

/// Bytes that are written into a file by hand.
#[derive(Clone, Copy)]
pub struct Patch<'a> {
    pub file: File,
    pub at: u64,
    /// Two digits in base 16 for each byte.
    pub digits: &'a [u8],
}

/// What is asked of a case.
#[derive(Clone, Copy)]
pub enum Question {
    /// What each stop of the steps leaves.
    Stops,
    /// The same of runs in which each call fails once.
    Failures,
    /// What an opening answers behind the steps and the patches.
    Opens,
    /// What each stop leaves of so many steps that are made from a number.
    Random { from: u64, count: u64 },
    /// The same of runs of them in which each call fails once.
    Failing { from: u64, count: u64 },
    /// What an opening answers behind so many records that are made from a number, each behind turns for room.
    Long { from: u64, count: u64 },
    /// The same where the log is cut behind each 500 of them.
    Cut { from: u64, count: u64 },
    /// What each stop leaves of so many steps that are made from a number, with generations that begin and go.
    Switching { from: u64, count: u64 },
}

/// A line of a case.
#[derive(Clone, Copy)]
pub enum Line<'a> {
    Step(Step),
    Patch(Patch<'a>),
    Question(Question),
}

fn read_overlay(words: &mut Words) -> Overlay {
    Overlay {
        page: words.value(),
        at: words.value(),
        byte: words.value(),
    }
}

const STEPS: &[(&str, Step)] = &[
    ("begin", Step::Begin),
    ("harden", Step::Harden),
    ("write", Step::Write),
    ("room", Step::Room),
    ("grow", Step::Grow),
    ("generation", Step::Generation),
    ("switch", Step::Switch),
    ("forget", Step::Forget),
];

fn read_step(verb: &[u8], words: &mut Words) -> Option<Step> {
    let step = match verb {
        b"keep" => Step::Keep(read_overlay(words)),
        b"trim" => Step::Trim(read_overlay(words)),
        b"read" => Step::Read {
            times: words.value(),
            pages: words.value(),
        },
        _ => return named(STEPS, verb),
    };
    Some(step)
}

fn read_file(words: &mut Words) -> File {
    match words.word() {
        b"root" => File::Root,
        b"loga" => File::LogA,
        b"logb" => File::LogB,
        b"pages" => File::Pages,
        _ => {
            words.refuse();
            File::Pages
        }
    }
}

fn read_patch<'a>(words: &mut Words<'a>) -> Patch<'a> {
    Patch {
        file: read_file(words),
        at: words.value(),
        digits: words.digits(),
    }
}

const QUESTIONS: &[(&str, Question)] = &[
    ("stops", Question::Stops),
    ("failures", Question::Failures),
    ("opens", Question::Opens),
];

// A question on so many steps or records that are made from a number.
fn made_question(verb: &[u8], from: u64, count: u64) -> Option<Question> {
    let questions = [
        ("random", Question::Random { from, count }),
        ("long", Question::Long { from, count }),
        ("cut", Question::Cut { from, count }),
        ("switching", Question::Switching { from, count }),
        ("failing", Question::Failing { from, count }),
    ];
    named(&questions, verb)
}

fn read_question(verb: &[u8], words: &mut Words) -> Option<Question> {
    if let Some(question) = named(QUESTIONS, verb) {
        return Some(question);
    }
    let from = words.value();
    let count = words.value();
    made_question(verb, from, count)
}

/// What a line says. It says nothing where a word is missing, isn't what it has to be, or stands behind the last one.
pub fn line_of(text: &[u8]) -> Option<Line> {
    let mut words = Words::new(text);
    let verb = words.word();
    let line = if verb == b"alter".as_slice() {
        Line::Patch(read_patch(&mut words))
    } else if let Some(step) = read_step(verb, &mut words) {
        Line::Step(step)
    } else {
        Line::Question(read_question(verb, &mut words)?)
    };
    if words.are_right() { Some(line) } else { None }
}
