// Steps of a case as they are written.
use ctr_suite::{Words, named, split_word};

/// What a line of a suite asks of a case.
#[derive(Clone, Copy)]
pub enum CaseStep<'a> {
    Case { name: &'a [u8] },
    /// A line of the script.
    Line { text: &'a [u8] },
    /// A line for each number.
    Each { from: u64, to: u64, text: &'a [u8] },
    /// Of the next run the last so many turns alone are printed.
    Tail { turns: usize },
    /// Stores have 8 frames, and not 64, up to the end of the case.
    FewFrames,
    /// Plays the script, and prints each turn.
    Play { order: &'a [u8] },
    /// Looks at the files.
    Look { names: &'a [u8] },
}

/// An order of turns: digits of sessions, and 0 for the cleaner; or - for none.
pub fn order_of(word: &[u8]) -> Option<&[u8]> {
    if word == b"-".as_slice() {
        return Some(&word[word.len()..]);
    }
    if word.iter().all(|byte| matches!(byte, b'0'..=b'8')) {
        Some(word)
    } else {
        None
    }
}

// `1 20 1> INSERT ..`
fn each_of(rest: &[u8]) -> Option<CaseStep> {
    let (from, rest) = split_word(rest);
    let (to, text) = split_word(rest);
    let mut words = Words::new(rest);
    let step = CaseStep::Each {
        from: words.read(from),
        to: words.read(to),
        text,
    };
    let _text = words.word();
    Some(step)
}

fn tail_of(rest: &[u8]) -> Option<CaseStep> {
    let mut words = Words::new(rest);
    let step = CaseStep::Tail {
        turns: words.value(),
    };
    if words.are_right() { Some(step) } else { None }
}

fn play_of(rest: &[u8]) -> Option<CaseStep> {
    Some(CaseStep::Play {
        order: order_of(rest)?,
    })
}

// The first words of steps.
#[derive(Clone, Copy)]
enum Verb {
    Case,
    Each,
    Tail,
    FewFrames,
    Play,
    Look,
}

const VERBS: &[(&str, Verb)] = &[
    ("case", Verb::Case),
    ("each", Verb::Each),
    ("tail", Verb::Tail),
    ("few-frames", Verb::FewFrames),
    ("play", Verb::Play),
    ("look", Verb::Look),
];

/// What a line says. One that is no step is a line of the script.
pub fn case_step_of(line: &[u8]) -> Option<CaseStep> {
    let (word, rest) = split_word(line);
    let Some(verb) = named(VERBS, word) else {
        return Some(CaseStep::Line { text: line });
    };
    match verb {
        Verb::Case => Some(CaseStep::Case { name: rest }),
        Verb::Each => each_of(rest),
        Verb::Tail => tail_of(rest),
        Verb::FewFrames => Some(CaseStep::FewFrames),
        Verb::Play => play_of(rest),
        Verb::Look => Some(CaseStep::Look { names: rest }),
    }
}
