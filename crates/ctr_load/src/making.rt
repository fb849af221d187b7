// A script is made, round by round.
ghost use Rattle.std.specs.Prelude.{◌≡◌, ◌<◌, ◌≤◌, ◌+◌, ◌%◌, ◌^◌, ◌++◌, ◌∷◌, ◌==◌, [], ℕ, List, Bool, false, true, pos, replicate, length, vec_len, IfOk, OnOk, if◌then◌else◌};
ghost use Rattle.ctr_types.specs.declared.statement.Line.{Line};
ghost use Rattle.ctr_load.specs.Draws.{place_at, is_end_at, state_behind, stepped};
ghost use Rattle.ctr_load.specs.Generated.{line_at, table_lines, beginning, statement_of_case, statement_at, round_lines, marks_behind, commits_from, generated};

use crate::draws::Draws;
use crate::statements::{create, delete, insert, select, update};
use ctr_types::{Line, List, OutOfMemory, Script, Statement};
use std::alloc::Global;

// What a round draws: the place of its session, from 0, and what that says; and whether this ends its transaction.
#[derive(Drop)]
struct Round {
    place: usize,
    statement: Statement,
    ends: bool,
}

// The statement of a case. The last case draws once more: ROLLBACK at each fourth number, or else COMMIT.
fn draw_statement(
    alloc: Global,
    draws: &mut Draws,
    case: u64,
    key: i64,
    number: i64,
) -> Result<Statement, OutOfMemory>
    requires { case < 8 }
    ensures statement { IfOk result (λ s. s ≡ statement_of_case case key number draws.old.state) }
    ensures state { OnOk result (draws.new.state ≡ (if case == 7 then stepped draws.old.state else draws.old.state)) }
{
    match case {
        0..=2 => insert(alloc, key, number),
        3 | 4 => update(alloc, key, number),
        5 => delete(alloc, key),
        6 => select(alloc, key),
        _ => {
            if draws.draw() % 4 == 0 {
                Ok(Statement::Rollback)
            } else {
                Ok(Statement::Commit)
            }
        }
    }
}

// Round i.
fn draw_round(
    alloc: Global,
    draws: &mut Draws,
    sessions: usize,
    i: u64,
) -> Result<Round, OutOfMemory>
    requires sessions { 0 < sessions }
    requires number { i < 2 ^ 63 }
    ensures place { IfOk result (λ r. r.place ≡ place_at sessions draws.old.state) }
    ensures statement { IfOk result (λ r. r.statement ≡ statement_at i draws.old.state) }
    ensures ends { IfOk result (λ r. r.ends ≡ is_end_at draws.old.state) }
    ensures state { OnOk result (draws.new.state ≡ state_behind draws.old.state) }
{
    let place = draws.draw() as usize % sessions;
    let key = (draws.draw() % 97) as i64;
    let case = draws.draw() % 8;
    let statement = draw_statement(alloc, draws, case, key, i as i64)?;
    Ok(Round {
        place,
        statement,
        ends: case == 7,
    })
}

// The session at a place, from 0, says a statement.
fn say(lines: &mut List<Line>, place: usize, statement: Statement) -> Result<(), OutOfMemory>
    requires { place < 8 }
    ensures { OnOk result (lines.new ≡ lines.old ++ line_at place statement ∷ []) }
{
    lines.push(Line {
        session: place as u8 + 1,
        statement,
    })?;
    Ok(())
}

// BEGIN of the session at a place, where it isn't marked as in a transaction.
fn begin(lines: &mut List<Line>, marked: &[bool], place: usize) -> Result<(), OutOfMemory>
    requires place { place < length marked.now }
    requires most { length marked.now ≤ 8 }
    ensures { OnOk result (lines.new ≡ lines.old ++ beginning place marked.now) }
{
    if marked[place] {
        return Ok(());
    }
    say(lines, place, Statement::Begin)
}

// COMMIT of each session that is marked.
fn commit_all(lines: &mut List<Line>, marked: &[bool]) -> Result<(), OutOfMemory>
    requires { length marked.now ≤ 8 }
    ensures { OnOk result (lines.new ≡ lines.old ++ commits_from 0 marked.now) }
{
    for (place, marked) in marked.iter().enumerate() {
        if *marked {
            say(lines, place, Statement::Commit)?;
        }
    }
    Ok(())
}

// The first three lines: the table is made.
fn make_table(alloc: Global, lines: &mut List<Line>) -> Result<(), OutOfMemory>
    ensures { OnOk result (lines.new ≡ lines.old ++ table_lines) }
{
    say(lines, 0, Statement::Begin)?;
    say(lines, 0, create(alloc)?)?;
    say(lines, 0, Statement::Commit)
}

// A script that is being made.
#[derive(Drop)]
struct Making {
    lines: List<Line>,
    draws: Draws,
    // whether each session is in a transaction
    marked: Vec<bool>,
}

impl Making {
    // Round i.
    fn add_round(&mut self, alloc: Global, i: u64) -> Result<(), OutOfMemory>
        requires some { 0 < vec_len self.old.marked }
        requires most { vec_len self.old.marked ≤ 8 }
        requires number { i < 2 ^ 63 }
        ensures lines { OnOk result (self.new.lines ≡ self.old.lines ++ round_lines i self.old.draws.state self.old.marked.items) }
        ensures state { OnOk result (self.new.draws.state ≡ state_behind self.old.draws.state) }
        ensures marks { OnOk result (self.new.marked.items ≡ marks_behind self.old.draws.state self.old.marked.items) }
    {
        let round = draw_round(alloc, &mut self.draws, self.marked.len(), i)?;
        begin(&mut self.lines, &self.marked, round.place)?;
        self.marked[round.place] = !round.ends;
        say(&mut self.lines, round.place, round.statement)
    }
}

/// The script of 1 to 8 sessions and up to a million rounds, drawn from a seed. A table `load` is made. In each round a
/// session that was drawn adds, changes, removes or reads one row of it, or ends its transaction, and begins one before where
/// it is in none. At the end each session that is in a transaction commits.
pub fn make(alloc: Global, sessions: u8, count: u64, seed: u64) -> Result<Script, OutOfMemory>
    requires some { 1 ≤ sessions }
    requires most { sessions ≤ 8 }
    requires count { count ≤ 1000000 }
    ensures { IfOk result (λ script. script.lines ≡ generated sessions count seed) }
{
    let mut making = Making {
        lines: List::new(alloc),
        draws: Draws { state: seed },
        marked: vec![in alloc; false; sessions as usize]?,
    };
    make_table(alloc, &mut making.lines)?;
    for done in 0..count {
        making.add_round(alloc, done + 1)?;
    }
    commit_all(&mut making.lines, &making.marked)?;
    Ok(Script {
        lines: making.lines,
    })
}
