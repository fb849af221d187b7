// Each session's lines of the script, and how far it is.
ghost use Rattle.std.specs.Prelude.{◌≡◌, ◌==◌, ◌++◌, ◌∷◌, [], length, IfOk, OnOk, if◌then◌else◌};
ghost use Rattle.std.specs.List.{AllByRecursion};
ghost use Rattle.ctr_exec.specs.Runners.{places_of, IsUnbegun, IsRunnerOf, AreRunners};

use ctr_control::writing::looks::wishes::Prepared;
use ctr_control::writing::looks::{TableWrite, writes};
use ctr_types::{Line, List, OutOfMemory};
use std::alloc::Global;

/// What a session is in the middle of, between two of its turns.
#[derive(Drop)]
pub enum Stage {
    /// It has told no act of its next statement. It may be within a ROLLBACK, of which its transaction tells.
    Between,
    /// The Lock of a row was granted. The row's table has this entry of the catalog, its Write will do what was prepared, and is so far.
    Row {
        entry: u8,
        prepared: Prepared,
        stage: writes::Stage,
    },
    /// The Lock of a table's name was granted, and its Write will do this.
    Table(TableWrite),
    /// It asked for its commit, and has no act until that is answered.
    Asked,
}

/// A session of a script.
#[derive(Drop)]
pub struct Runner {
    /// Where its lines stand in the script, from 0.
    pub places: List<usize>,
    /// How many of its statements are finished.
    pub finished: usize,
    pub stage: Stage,
}

// One line more: its place is the session's, where the line is.
fn push_place(places: &mut List<usize>, n: usize, line: &Line, s: u8) -> Result<(), OutOfMemory>
    ensures { OnOk result (places.new ≡ (if line.now.session == s then places.old ++ n ∷ [] else places.old)) }
{
    if line.session != s {
        return Ok(());
    }
    places.push(n)?;
    Ok(())
}

// The places of a session's lines.
fn places(alloc: Global, lines: &[Line], s: u8) -> Result<List<usize>, OutOfMemory>
    ensures { IfOk result (λ ps. ps ≡ places_of s 0 lines.now) }
{
    let mut places = List::new(alloc);
    let mut n = 0;
    for line in lines {
        push_place(&mut places, n, line, s)?;
        n += 1;
    }
    Ok(places)
}

// A session that has begun none of its statements.
fn fresh(alloc: Global, lines: &[Line], s: u8) -> Result<Runner, OutOfMemory>
    ensures of { IfOk result (IsRunnerOf lines.now s) }
    ensures fresh { IfOk result IsUnbegun }
{
    Ok(Runner {
        places: places(alloc, lines, s)?,
        finished: 0,
        stage: Stage::Between,
    })
}

/// A runner for each of the sessions 1 to 8.
pub fn runners(alloc: Global, lines: &[Line]) -> Result<Vec<Runner>, OutOfMemory>
    ensures are { IfOk result (λ rs. AreRunners lines.now 1 rs.items) }
    ensures eight { IfOk result (λ rs. length rs.items ≡ 8) }
    ensures fresh { IfOk result (λ rs. AllByRecursion IsUnbegun rs.items) }
{
    let mut runners = Vec::new(alloc);
    for s in 1..9 {
        runners.push(fresh(alloc, lines, s)?)?;
    }
    Ok(runners)
}
