// The words of a suite's steps.
use ctr_suite::named;

/// What a line of a suite asks for.
#[derive(Clone, Copy)]
pub enum Step {
    Case,
    Table,
    Row,
    Stuck,
    Tape,
    Run,
    Go,
    Act,
    Release,
    Moment,
    Legal,
    Illegal,
    Shows,
    Replies,
    Tables,
    State,
    Ends,
    Cuts,
}

const STEPS: &[(&str, Step)] = &[
    ("case", Step::Case),
    ("table", Step::Table),
    ("row", Step::Row),
    ("stuck", Step::Stuck),
    ("tape", Step::Tape),
    ("run", Step::Run),
    ("go", Step::Go),
    ("act", Step::Act),
    ("release", Step::Release),
    ("moment", Step::Moment),
    ("legal", Step::Legal),
    ("illegal", Step::Illegal),
    ("shows", Step::Shows),
    ("replies", Step::Replies),
    ("tables", Step::Tables),
    ("state", Step::State),
    ("ends", Step::Ends),
    ("cuts", Step::Cuts),
];

/// The step of a line's first word.
pub fn step_of(word: &[u8]) -> Option<Step> {
    named(STEPS, word)
}

/// Whether a step has words behind its first one.
pub fn has_words(step: Step) -> bool {
    !matches!(
        step,
        Step::Run | Step::Legal | Step::Illegal | Step::Replies | Step::Tables | Step::State
    )
}
