// What the answered commits of a load lead to: a plain fold of its tape, which looks at no snapshot and at no lock.
use ctr_types::{Act, Entry, Line, Reply, SetTo, Statement, Value};
use std::alloc::{AllocError, Global};

// The keys of a load are below this one.
const KEYS: usize = 97;

/// How many rows there are, and the sum of their second columns.
#[derive(Clone, Copy, Debug, PartialEq, Eq)]
pub struct Totals {
    pub rows: u64,
    pub sum: i128,
}

// What a session has made of a key's row and not committed; that of session 0 is done with.
#[derive(Clone, Copy)]
struct Change {
    session: u8,
    key: usize,
    number: Option<i64>,
}

// The second columns by key, and the changes behind them.
#[derive(Drop)]
struct Fold {
    rows: Vec<Option<i64>>,
    changes: Vec<Change>,
}

fn number_of(value: Option<&Value>) -> i64 {
    match value {
        Some(Value::Int(number)) => *number,
        _ => 0,
    }
}

// A session's statement of a number, from 1.
fn statement_of(lines: &[Line], session: u8, number: u64) -> Option<&Statement> {
    let mut left = number;
    for line in lines {
        if line.session == session {
            if left == 1 {
                return Some(&line.statement);
            }
            left = left.saturating_sub(1);
        }
    }
    None
}

// The key whose row a statement writes.
fn key_of(statement: &Statement) -> Option<i64> {
    match statement {
        Statement::Insert { values, .. } => Some(number_of(values.as_slice().first())),
        Statement::Update { at, .. } | Statement::Delete { at, .. } => Some(at.key),
        _ => None,
    }
}

// What a statement makes of the number in a row; none where the row goes.
fn number_behind(statement: &Statement, before: Option<i64>) -> Option<i64> {
    match statement {
        Statement::Insert { values, .. } => Some(number_of(values.as_slice().get(1))),
        Statement::Update { sets, .. } => match sets.as_slice().first() {
            Some(set) => match &set.to {
                SetTo::Sum(_, by) => Some(before.unwrap_or(0).wrapping_add(*by)),
                SetTo::Is(_) => before,
            },
            None => before,
        },
        _ => None,
    }
}

impl Fold {
    // The number in a key's row, as a session has it.
    fn number_at(&self, session: u8, key: usize) -> Option<i64> {
        let mut number = *self.rows.get(key).unwrap_or(&None);
        for change in self.changes.as_slice() {
            if change.session == session && change.key == key {
                number = change.number;
            }
        }
        number
    }

    fn write(&mut self, session: u8, statement: &Statement) -> Result<(), AllocError> {
        let Some(key) = key_of(statement) else {
            return Ok(());
        };
        let key = key.clamp(0, 96) as usize;
        let number = number_behind(statement, self.number_at(session, key));
        self.changes.push(Change {
            session,
            key,
            number,
        })?;
        Ok(())
    }

    // A session's transaction ends: its changes go to the rows, or nowhere.
    fn end(&mut self, session: u8, commits: bool) {
        for change in self.changes.iter_mut() {
            if change.session == session {
                change.session = 0;
                if commits {
                    put(&mut self.rows, change.key, change.number);
                }
            }
        }
    }

    fn take(&mut self, lines: &[Line], entry: &Entry) -> Result<(), AllocError> {
        match (&entry.act, &entry.reply) {
            (Act::Write, Reply::Done) => {
                match statement_of(lines, entry.session, entry.statement) {
                    Some(statement) => self.write(entry.session, statement),
                    None => Ok(()),
                }
            }
            (_, Reply::Answered { .. }) => {
                self.end(entry.session, true);
                Ok(())
            }
            (_, Reply::RolledBack) => {
                self.end(entry.session, false);
                Ok(())
            }
            _ => Ok(()),
        }
    }

    fn take_all(&mut self, lines: &[Line], entries: &[Entry]) -> Result<(), AllocError> {
        for entry in entries {
            self.take(lines, entry)?;
        }
        Ok(())
    }

    fn totals(&self) -> Totals {
        let mut totals = Totals { rows: 0, sum: 0 };
        for number in self.rows.as_slice() {
            if let Some(number) = number {
                totals.rows = totals.rows.saturating_add(1);
                totals.sum = totals.sum.saturating_add(i128::from(*number));
            }
        }
        totals
    }
}

fn put(rows: &mut Vec<Option<i64>>, key: usize, number: Option<i64>) {
    if let Some(row) = rows.get_mut(key) {
        *row = number;
    }
}

fn folded_by(fold: &mut Fold, lines: &[Line], entries: &[Entry]) -> Result<Totals, AllocError> {
    fold.take_all(lines, entries)?;
    Ok(fold.totals())
}

/// The totals behind the answered commits of a load on an empty database.
pub fn folded(alloc: Global, lines: &[Line], entries: &[Entry]) -> Result<Totals, AllocError> {
    let mut fold = Fold {
        rows: vec![in alloc; None; KEYS]?,
        changes: Vec::new(alloc),
    };
    let totals = folded_by(&mut fold, lines, entries);
    drop(fold);
    totals
}
