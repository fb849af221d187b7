// Steps as they are written.
use ctr_suite::{Words, named, split_word};
use ctr_suite_cases::{CaseStep, case_step_of, order_of};

/// What a line of a suite asks for.
#[derive(Clone, Copy)]
pub enum Step<'a> {
    /// What any suite asks of a case.
    Case {
        step: CaseStep<'a>,
    },
    /// Plays the script, and looks at what a stop leaves behind each turn; whether each is hardened.
    Stops {
        order: &'a [u8],
        hardens: bool,
        names: &'a [u8],
    },
    /// Plays it, each turn hardened, and goes on from what a stop behind so many turns leaves.
    Stopped {
        turn: u64,
        order: &'a [u8],
    },
    /// Undoes what is open in the files.
    Undo,
    /// A pass of the cleaner over them.
    Clean,
    /// The same, hardened behind each record, and looks at what stops leave.
    CleanStops {
        names: &'a [u8],
    },
    /// Says what is left to clean in the files.
    Bare,
    /// All pages that there may be are counted and allocated.
    Full,
}

// `1122 t u`: an order, and names.
fn stops_of(rest: &[u8], hardens: bool) -> Option<Step> {
    let (order, names) = split_word(rest);
    Some(Step::Stops {
        order: order_of(order)?,
        hardens,
        names,
    })
}

// `3 1122`: a turn, and an order.
fn stopped_of(rest: &[u8]) -> Option<Step> {
    let (turn, order) = split_word(rest);
    let mut words = Words::new(turn);
    let turn = words.value();
    if words.are_right() {
        Some(Step::Stopped {
            turn,
            order: order_of(order)?,
        })
    } else {
        None
    }
}

// The first words of steps.
#[derive(Clone, Copy)]
enum Verb {
    Stops,
    Hardened,
    Stopped,
    Undo,
    Clean,
    CleanStops,
    Bare,
    Full,
}

const VERBS: &[(&str, Verb)] = &[
    ("stops", Verb::Stops),
    ("hardened", Verb::Hardened),
    ("stopped", Verb::Stopped),
    ("undo", Verb::Undo),
    ("clean", Verb::Clean),
    ("clean-stops", Verb::CleanStops),
    ("bare", Verb::Bare),
    ("full", Verb::Full),
];

/// What a line says.
pub fn step_of(line: &[u8]) -> Option<Step> {
    let (word, rest) = split_word(line);
    let Some(verb) = named(VERBS, word) else {
        return Some(Step::Case {
            step: case_step_of(line)?,
        });
    };
    match verb {
        Verb::Stops => stops_of(rest, false),
        Verb::Hardened => stops_of(rest, true),
        Verb::Stopped => stopped_of(rest),
        Verb::Undo => Some(Step::Undo),
        Verb::Clean => Some(Step::Clean),
        Verb::CleanStops => Some(Step::CleanStops { names: rest }),
        Verb::Bare => Some(Step::Bare),
        Verb::Full => Some(Step::Full),
    }
}
