// The suite: cases, each of a name and of steps, one a line, with what is wanted beside it.
use crate::play::play_case;
use crate::player::Player;
use crate::reading::step_of;
use crate::steps::Step;

/// A line with a step.
#[derive(Clone, Copy)]
pub struct Line<'a> {
    /// The name of its case.
    pub case: &'a [u8],
    /// Its number in the suite, from 1.
    pub number: u64,
    /// The step as it is written.
    pub text: &'a [u8],
    pub step: Step<'a>,
    /// What the step has to answer.
    pub wanted: &'a [u8],
}

// Where a suite stands: the lines of a case, which is played once they are all there.
#[derive(Drop)]
struct Reader<'a> {
    name: Option<&'a [u8]>,
    lines: Vec<Line<'a>>,
    number: u64,
}

// A step as it is written, and what is wanted behind ` = `.
fn split_wanted(line: &[u8]) -> (&[u8], &[u8]) {
    match line.windows(3).position(|bytes| bytes == b" = ".as_slice()) {
        Some(at) => (line[..at].trim_ascii_end(), &line[at + 3..]),
        None => (line, &line[line.len()..]),
    }
}

// The name of a case that begins in a line.
fn name_of(line: &[u8]) -> Option<&[u8]> {
    line.strip_prefix(b"case ")
}

impl<'a> Reader<'a> {
    // The case so far is played.
    fn end_case(&mut self, player: &mut Player) {
        if let Some(name) = self.name {
            play_case(player, name, &self.lines);
        }
        self.lines.clear();
    }

    // A line with a step; whether it is one, of a case that has begun.
    fn take_step(&mut self, line: &'a [u8]) -> bool {
        let (text, wanted) = split_wanted(line);
        let (Some(case), Some(step)) = (self.name, step_of(text)) else {
            return false;
        };
        let line = Line {
            case,
            number: self.number,
            text,
            step,
            wanted,
        };
        self.lines.push(line).is_ok()
    }

    // A line. Blank ones and those that begin with # say nothing.
    fn take_line(&mut self, line: &'a [u8], player: &mut Player) {
        self.number = self.number.saturating_add(1);
        if line.is_empty() || line[0] == b'#' {
            return;
        }
        if let Some(name) = name_of(line) {
            self.end_case(player);
            self.name = Some(name);
            return;
        }
        if !self.take_step(line) {
            player.page.refuse_line(self.number, line);
        }
    }
}

/// Plays all cases of a suite, one behind another.
pub fn play_suite(player: &mut Player, suite: &[u8]) {
    let mut reader = Reader {
        name: None,
        lines: Vec::new(player.alloc),
        number: 0,
    };
    for line in suite.split(|byte| *byte == b'\n') {
        reader.take_line(line.trim_ascii(), player);
    }
    reader.end_case(player);
    drop(reader);
    player.page.end();
}
