// Plays the lines of a suite.
use crate::meetings::{Meeting, Met, meet_all, put_meeting};
use crate::steps::{Step, step_of};
use ctr_suite::Plays;
use ctr_suite_cases::{Case, Trouble};
use std::alloc::Global;

/// Where a suite stands.
#[derive(Drop)]
pub struct Player {
    case: Case,
}

impl Player {
    fn meet(&mut self, count: u64, first: Meeting) -> Result<(), Trouble> {
        let mut met = Met::new();
        let case = &mut self.case;
        meet_all(case.alloc, &case.files, &case.base, count, first, &mut met)?;
        if first.cleans {
            met.put_judged(&mut case.page);
        } else {
            met.put(&mut case.page);
        }
        Ok(())
    }

    // Plays one, and prints it.
    fn show(&mut self, meeting: Meeting) -> Result<(), Trouble> {
        let case = &mut self.case;
        put_meeting(case.alloc, &mut case.page, &case.files, &case.base, meeting)
    }

    fn step(&mut self, step: Step) -> Result<(), Trouble> {
        match step {
            Step::Case { step } => self.case.step(step),
            Step::Meetings { count, first } => self.meet(count, first),
            Step::Meeting { meeting } => self.show(meeting),
        }
    }
}

impl Plays for Player {
    fn new(alloc: Global) -> Player {
        Player {
            case: Case::new(alloc),
        }
    }

    // Blank lines and those that begin with # say nothing.
    fn take_line(&mut self, line: &[u8]) {
        let line = line.trim_ascii();
        if line.is_empty() || line[0] == b'#' {
            return;
        }
        match step_of(line) {
            None => self.case.refuse(line, Trouble::Spelling),
            Some(step) => {
                if let Err(trouble) = self.step(step) {
                    self.case.refuse(line, trouble);
                }
            }
        }
    }

    fn finish(&mut self) -> Vec<u8> {
        self.case.finish()
    }
}
