// The steps of a suite, by their words.
use ctr_suite::named;

/// What a line of a suite asks for.
#[derive(Clone, Copy, PartialEq, Eq)]
pub enum Step {
    /// Another case begins, over four empty files.
    Case,
    /// `init d`.
    Init,
    /// `run d`, with the script that follows.
    Run,
    /// Any other words.
    Words,
    /// Device calls, which follow.
    Device,
    /// The root is written: its stamp, file and first LSN.
    Root,
    /// Calls of the disk, the source or the sink that fail in the next run.
    Disk,
    Source,
    Sink,
    /// The most bytes that the source gives, or the sink takes, at once in the next run.
    Gives,
    Takes,
    /// The clock, the faults and the strays with which the next run begins.
    Clock,
    Counted,
    /// How many frames the next run by turns has for its pages.
    Frames,
    /// Of the next run only the first lines and the last one are printed.
    Brief,
    /// The slow machine judges no more runs of this case.
    Unjudged,
    /// The disk may hold any number of the last run's commits.
    Any,
    /// Bytes of a file are altered, the same byte so often, or its length.
    Alter,
    Fill,
    Length,
    /// Goes on with what a crash of the last run leaves.
    After,
    /// Bytes of a file.
    Show,
    /// The calls of the last run; and what the disk has counted.
    Calls,
    Counts,
    /// How many commits of the last run the disk holds.
    Holds,
    /// The last run under every stop, and with each call failing.
    Stops,
    Failures,
    /// The tokens of the lines that follow; and whether each of them is a script.
    Tokens,
    Lines,
    /// Whether bytes are a record of the log; and what is said of each shorter length.
    Record,
    Cuts,
    /// The script that follows, by turns of these actors; and the commits that the last run answered, each at its moment.
    Turns,
    Answers,
    /// Generated scripts over what the disk holds, by generated lists of actors; and those of so many sessions, each under every stop.
    Generated,
    GeneratedStops,
}

const STEPS: [(&str, Step); 35] = [
    ("case", Step::Case),
    ("init", Step::Init),
    ("run", Step::Run),
    ("words", Step::Words),
    ("device", Step::Device),
    ("root", Step::Root),
    ("disk-fails", Step::Disk),
    ("source-fails", Step::Source),
    ("sink-fails", Step::Sink),
    ("source-gives", Step::Gives),
    ("sink-takes", Step::Takes),
    ("clock", Step::Clock),
    ("counted", Step::Counted),
    ("frames", Step::Frames),
    ("brief", Step::Brief),
    ("unjudged", Step::Unjudged),
    ("any", Step::Any),
    ("alter", Step::Alter),
    ("fill", Step::Fill),
    ("length", Step::Length),
    ("after", Step::After),
    ("show", Step::Show),
    ("calls", Step::Calls),
    ("counts", Step::Counts),
    ("holds", Step::Holds),
    ("each-stop", Step::Stops),
    ("each-failure", Step::Failures),
    ("tokens", Step::Tokens),
    ("lines", Step::Lines),
    ("record", Step::Record),
    ("cuts", Step::Cuts),
    ("turns", Step::Turns),
    ("answers", Step::Answers),
    ("generated", Step::Generated),
    ("generated-stops", Step::GeneratedStops),
];

/// The step that a word names.
pub fn step_of(word: &[u8]) -> Option<Step> {
    named(&STEPS, word)
}
