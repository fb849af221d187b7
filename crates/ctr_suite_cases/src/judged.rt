// What the slow machine says of tapes.
ghost use Rattle.std.specs.Prelude.{◌≡◌};
ghost use Rattle.ctr_model.specs.Tape.{at_start};

use crate::lists::set;
use crate::run::Run;
use ctr_machine::is_legal;
use ctr_model::{Map, Point, State, Table};
use ctr_types::{Entry, Line, List, Name, OutOfMemory, Plain, Reply};
use std::alloc::{AllocError, Global};

/// The databases that commits lead to: one to begin with, and one more behind each commit that a run asked for.
pub type Tables = Map<Name, Table>;

// The start of a run over a database, with names that recovery holds.
fn starting(alloc: Global, base: Tables, stuck: List<Name>) -> Point
    ensures { result ≡ at_start 0 base stuck }
{
    Point {
        state: State::at_rest(alloc, base, stuck),
        progress: Map::new(alloc),
        moment: 0,
    }
}

/// The start over no tables, for what is led from elsewhere later.
pub fn nowhere(alloc: Global) -> Point {
    starting(alloc, Map::new(alloc), List::new(alloc))
}

/// The start over these tables.
pub fn resting(alloc: Global, base: &Tables) -> Result<Point, AllocError> {
    Ok(starting(alloc, base.copy(alloc)?, List::new(alloc)))
}

/// Whether a tape is legal from the start of a run over this database, with names that recovery holds; where it is, the point is where it
/// leads.
pub fn follow(
    alloc: Global,
    base: &Tables,
    run: &Run,
    point: &mut Point,
) -> Result<bool, OutOfMemory> {
    if run.tape.len() >= usize::MAX / 2 {
        return Err(OutOfMemory);
    }
    let stuck = run.stuck.copy(alloc)?;
    set(point, starting(alloc, base.copy(alloc)?, stuck));
    is_legal(alloc, run.lines.as_slice(), point, &run.tape)
}

/// How many commits were answered by a moment.
pub fn answered_by(entries: &[Entry], moment: u64) -> u64 {
    let mut count = 0u64;
    for entry in entries {
        if entry.moment <= moment && matches!(&entry.reply, Reply::Answered { .. }) {
            count = count.saturating_add(1);
        }
    }
    count
}

/// How many commits were asked for by a moment.
pub fn asked_by(entries: &[Entry], moment: u64) -> u64 {
    let mut count = 0u64;
    for entry in entries {
        if entry.moment <= moment && matches!(&entry.reply, Reply::Asked { .. }) {
            count = count.saturating_add(1);
        }
    }
    count
}

// The same of one database, at a point of one's own.
fn is_legal_from(alloc: Global, base: &Tables, run: &Run) -> Result<bool, OutOfMemory> {
    let mut point = nowhere(alloc);
    let legal = follow(alloc, base, run, &mut point);
    drop(point);
    legal
}

// The same of the database behind so many commits.
fn is_legal_behind(
    alloc: Global,
    state: &State,
    number: u64,
    run: &Run,
) -> Result<bool, OutOfMemory> {
    let base = state.rows_at(alloc, number)?;
    let legal = is_legal_from(alloc, &base, run);
    drop(base);
    legal
}

/// Behind how many commits, so many at least, the database of a state is one that the tape of a run is legal from.
pub fn commits_seen(
    alloc: Global,
    state: &State,
    least: u64,
    run: &Run,
) -> Result<Option<u64>, OutOfMemory> {
    let asked = state.asked.len() as u64;
    for number in least..asked.saturating_add(1) {
        if is_legal_behind(alloc, state, number, run)? {
            return Ok(Some(number));
        }
    }
    Ok(None)
}

/// The database that a state's commits lead to.
pub fn tables_of(alloc: Global, state: &State) -> Result<Tables, AllocError> {
    state.rows_at(alloc, state.answered)
}

/// The database behind so many commits of a state.
pub fn tables_at(alloc: Global, state: &State, number: u64) -> Result<Tables, AllocError> {
    state.rows_at(alloc, number)
}
