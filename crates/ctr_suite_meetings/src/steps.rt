// Steps as they are written.
use crate::meetings::Meeting;
use ctr_suite::{Words, named, split_word};
use ctr_suite_cases::{CaseStep, case_step_of};

/// What a line of a suite asks for.
#[derive(Clone, Copy)]
pub enum Step<'a> {
    /// What any suite asks of a case.
    Case { step: CaseStep<'a> },
    /// So many generated runs, of this one and those behind it.
    Meetings { count: u64, first: Meeting },
    Meeting { meeting: Meeting },
}

// `500 1`
fn meetings_of(rest: &[u8], cleans: bool) -> Option<Step> {
    let mut words = Words::new(rest);
    let count = words.value();
    let number = words.value();
    let first = Meeting { number, cleans };
    let step = Step::Meetings { count, first };
    if words.are_right() { Some(step) } else { None }
}

fn meeting_of(rest: &[u8], cleans: bool) -> Option<Step> {
    let mut words = Words::new(rest);
    let number = words.value();
    let meeting = Meeting { number, cleans };
    let step = Step::Meeting { meeting };
    if words.are_right() { Some(step) } else { None }
}

// The first words of steps.
#[derive(Clone, Copy)]
enum Verb {
    Meetings,
    Meeting,
    CleanedMeetings,
    CleanedMeeting,
}

const VERBS: &[(&str, Verb)] = &[
    ("meetings", Verb::Meetings),
    ("meeting", Verb::Meeting),
    ("cleaned-meetings", Verb::CleanedMeetings),
    ("cleaned-meeting", Verb::CleanedMeeting),
];

/// What a line says.
pub fn step_of(line: &[u8]) -> Option<Step> {
    let (word, rest) = split_word(line);
    let Some(verb) = named(VERBS, word) else {
        return Some(Step::Case {
            step: case_step_of(line)?,
        });
    };
    match verb {
        Verb::Meetings => meetings_of(rest, false),
        Verb::Meeting => meeting_of(rest, false),
        Verb::CleanedMeetings => meetings_of(rest, true),
        Verb::CleanedMeeting => meeting_of(rest, true),
    }
}
