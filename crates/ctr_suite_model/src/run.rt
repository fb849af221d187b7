// A run of a script by the slow machine, turn by turn.
use crate::follow::nowhere;
use crate::lists::add_after;
use crate::trouble::Trouble;
use ctr_machine::{next_state, reply_to};
use ctr_model::{Point, Progress, State};
use ctr_types::{Act, Entry, Line, List, Name, Refusal, Reply, Statement, Tape};
use std::alloc::Global;

/// A tape, and where it has led.
#[derive(Drop)]
pub struct Run {
    pub tape: Tape,
    pub point: Point,
}

impl Run {
    /// No entries.
    pub fn new(alloc: Global) -> Run {
        let point = nowhere(alloc);
        let entries = List::new(alloc);
        Run {
            tape: Tape { entries },
            point,
        }
    }
}

fn progress_of(point: &Point, session: u8) -> Progress {
    match point.progress.get(&session) {
        Some(progress) => *progress,
        None => Progress {
            finished: 0,
            made: 0,
        },
    }
}

/// The statement that an entry is of; a release of recovery is of none.
pub fn statement_of<'a>(lines: &'a [Line], entry: &Entry) -> Option<&'a Statement> {
    match entry.statement {
        0 => None,
        number => statement_behind(lines, entry.session, number - 1),
    }
}

// The statement of a session behind those that are finished.
fn statement_behind(lines: &[Line], session: u8, finished: u64) -> Option<&Statement> {
    let mut left = finished;
    for line in lines {
        if line.session == session {
            if left == 0 {
                return Some(&line.statement);
            }
            left -= 1;
        }
    }
    None
}

// The first act of a statement, or its second.
fn act_of(statement: &Statement, second: bool) -> Act {
    match statement {
        Statement::Begin => Act::Begin,
        Statement::Rollback => Act::Rollback,
        Statement::Select { .. } => Act::Read,
        Statement::Commit => { if second { Act::Answer } else { Act::Ask } }
        _ => { if second { Act::Write } else { Act::Lock } }
    }
}

// The statement goes on after a lock and after an ask, and is finished after any other reply.
fn behind(progress: Progress, reply: &Reply) -> Result<Progress, Trouble> {
    if matches!(reply, Reply::Granted | Reply::Asked { .. }) {
        return Ok(Progress {
            finished: progress.finished,
            made: 1,
        });
    }
    let finished = progress.finished.checked_add(1).ok_or(Trouble::TooLong)?;
    Ok(Progress { finished, made: 0 })
}

/// Adds an entry to a run, with no word on whether it may come.
pub fn add(
    alloc: Global,
    run: &mut Run,
    statement: Option<&Statement>,
    entry: Entry,
) -> Result<(), Trouble> {
    let done = lead_on(alloc, &mut run.point, statement, &entry);
    add_after(done, &mut run.tape.entries, entry)
}

// The point that an entry leaves.
fn lead_on(
    alloc: Global,
    point: &mut Point,
    statement: Option<&Statement>,
    entry: &Entry,
) -> Result<(), Trouble> {
    go_on(alloc, &mut point.state, statement, entry)?;
    if statement.is_some() {
        let progress = behind(progress_of(point, entry.session), &entry.reply)?;
        point.progress.put(entry.session, progress)?;
    }
    Ok(())
}

/// The state that an entry leaves.
pub fn go_on(
    alloc: Global,
    state: &mut State,
    statement: Option<&Statement>,
    entry: &Entry,
) -> Result<(), Trouble> {
    if state.answered >= u64::MAX - 1 {
        return Err(Trouble::TooLong);
    }
    next_state(alloc, state, statement, entry)?;
    Ok(())
}

/// The machine's reply.
pub fn reply_at(
    alloc: Global,
    state: &State,
    session: u8,
    act: &Act,
    statement: Option<&Statement>,
) -> Result<Reply, Trouble> {
    if state.answered >= u64::MAX - 1 {
        return Err(Trouble::TooLong);
    }
    Ok(reply_to(alloc, state, session, act, statement)?)
}

/// The next act of a session, with this refusal or else with the machine's reply.
pub fn play_act(
    alloc: Global,
    lines: &[Line],
    run: &mut Run,
    session: u8,
    instead: Option<Refusal>,
) -> Result<(), Trouble> {
    let progress = progress_of(&run.point, session);
    let Some(statement) = statement_behind(lines, session, progress.finished) else {
        return Err(Trouble::NoStatement);
    };
    let second = progress.made > 0;
    let reply = match instead {
        Some(refusal) => Reply::Refused { refusal },
        None => reply_to_act(alloc, &run.point.state, session, second, statement)?,
    };
    let entry = Entry {
        session,
        statement: progress.finished.saturating_add(1),
        act: act_of(statement, second),
        reply,
        moment: run.point.moment,
    };
    add(alloc, run, Some(statement), entry)
}

fn reply_to_act(
    alloc: Global,
    state: &State,
    session: u8,
    second: bool,
    statement: &Statement,
) -> Result<Reply, Trouble> {
    let act = act_of(statement, second);
    reply_at(alloc, state, session, &act, Some(statement))
}

/// All acts of the next statement of a session.
pub fn play_statement(
    alloc: Global,
    lines: &[Line],
    run: &mut Run,
    session: u8,
) -> Result<(), Trouble> {
    play_act(alloc, lines, run, session, None)?;
    if progress_of(&run.point, session).made > 0 {
        play_act(alloc, lines, run, session, None)?;
    }
    Ok(())
}

/// Recovery gives a name free.
pub fn release(alloc: Global, run: &mut Run, name: Name) -> Result<(), Trouble> {
    let entry = Entry {
        session: 0,
        statement: 0,
        act: Act::Release { name },
        reply: Reply::Released,
        moment: run.point.moment,
    };
    add(alloc, run, None, entry)
}
