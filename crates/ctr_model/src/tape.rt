// Where a tape has led, and what a run reports at its end.
use crate::{Map, State};
use ctr_types::Damage;

/// How far a session is in its statements.
#[derive(Clone, Copy, Debug, PartialEq, Eq)]
pub struct Progress {
    /// Statements finished.
    pub finished: u64,
    /// Acts made of the next one.
    pub made: u64,
}

/// Where a run stands after the entries of a tape.
#[derive(Debug, Drop)]
pub struct Point {
    pub state: State,
    /// A session that isn't there has finished nothing.
    pub progress: Map<u8, Progress>,
    /// The moment of the last entry, or that of the start.
    pub moment: u64,
}

/// What the last line tells beside the status.
#[derive(Clone, Copy, Debug, PartialEq, Eq)]
pub enum Cause {
    Plain,
    /// The first place at which the bytes are no script: line and byte, both from 1.
    Script { line: u64, at: u64 },
    /// A check of the files failed.
    Damaged(Damage),
    /// A number that is too near the end of its type to go on.
    Worn { number: u64 },
}

/// Counts of a run.
#[derive(Clone, Copy, Debug, PartialEq, Eq)]
pub struct Report {
    /// Commits answered.
    pub commits: u64,
    /// Acts refused.
    pub refused: u64,
    /// Turns of undo that undid something.
    pub undo_turns: u64,
    /// Rows of the loaded table, and 0 for a command that loads none.
    pub rows: u64,
    /// The sum of its second column.
    pub sum: i128,
}

/// Counts of what the files hold.
#[derive(Clone, Copy, Debug, PartialEq, Eq)]
pub struct Survey {
    /// Committed tables.
    pub tables: u64,
    /// Committed rows.
    pub rows: u64,
    /// Transactions that a crash left open.
    pub orphans: u64,
    /// Entries of the aborted transaction map.
    pub aborted: u64,
    /// Records of the secondary log.
    pub items: u64,
}

/// What the program was asked to do, so far as its last line tells it.
#[derive(Clone, Copy, Debug, PartialEq, Eq)]
pub enum Command {
    /// Makes the empty database.
    Init,
    /// Runs the script of the source.
    Run,
    /// Runs a generated script of so many sessions and statements.
    Load { sessions: u64, statements: u64 },
    /// Tells what the files held at the start.
    Survey { start: Survey },
}
