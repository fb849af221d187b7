// Why an act is refused: the machine's side of the definitions of the same names.
ghost use Rattle.std.specs.Prelude.{◌≡◌, ◌<◌, ◌+◌, ◌^◌, length};
ghost use Rattle.std.specs.Ordering.{nat_cmp};
ghost use Rattle.std.specs.List.{list_any};
ghost use Rattle.ctr_model.specs.Maps.{without};
ghost use Rattle.ctr_model.specs.State.{has_name};
ghost use Rattle.ctr_model.specs.Refusals.{others, is_busy, has_lock, first_session, busy_by, locked_by, is_schema_change, is_create_of, is_write_of, is_touching, answered_since, last_with, schema_changed_by, row_changed_by};

use ctr_model::{Change, Key, State, Transaction};
use ctr_statement::changes_schema;
use ctr_types::{List, Name, Statement};

pub fn has_name(name: &Name, names: &[Name]) -> bool
    ensures { result ≡ has_name name.now names.now }
{
    names.iter().any(|n| *n == *name)
}

fn is_busy(schema: bool, name: &Name, transaction: &Transaction) -> bool
    ensures { result ≡ is_busy schema name.now transaction.now }
{
    has_name(name, transaction.holds.as_slice())
        || schema && has_name(name, transaction.uses.as_slice())
}

fn has_lock(table: &Name, key: Key, transaction: &Transaction) -> bool
    ensures { result ≡ has_lock table.now key transaction.now }
{
    transaction
        .locks
        .as_slice()
        .iter()
        .any(|lock| lock.table == *table && lock.key == key.number())
}

// The first of the other sessions that keeps this one from the name.
fn first_busy(entries: &[(u8, Transaction)], session: u8, schema: bool, name: &Name) -> Option<u8>
    ensures { result ≡ first_session (is_busy schema name.now) (without nat_cmp session entries.now) }
{
    let (first, rest) = entries.split_first()?;
    if first.0 != session && is_busy(schema, name, &first.1) {
        return Some(first.0);
    }
    first_busy(rest, session, schema, name)
}

// The first of the other sessions that has the lock of the key.
fn first_locking(entries: &[(u8, Transaction)], session: u8, table: &Name, key: Key) -> Option<u8>
    ensures { result ≡ first_session (has_lock table.now key) (without nat_cmp session entries.now) }
{
    let (first, rest) = entries.split_first()?;
    if first.0 != session && has_lock(table, key, &first.1) {
        return Some(first.0);
    }
    first_locking(rest, session, table, key)
}

pub fn busy_by(state: &State, session: u8, statement: &Statement, name: &Name) -> Option<u8>
    ensures { result ≡ busy_by state.now session statement.now name.now }
{
    if has_name(name, state.stuck.as_slice()) {
        return Some(0);
    }
    let schema = changes_schema(statement);
    first_busy(state.sessions.entries(), session, schema, name)
}

pub fn locked_by(state: &State, session: u8, table: &Name, key: Key) -> Option<u8>
    ensures { result ≡ locked_by state.now session table.now key }
{
    first_locking(state.sessions.entries(), session, table, key)
}

fn is_schema_change(name: &Name, change: &Change) -> bool
    ensures { result ≡ is_schema_change name.now change.now }
{
    match change {
        Change::Create { table, .. } => *table == *name,
        Change::Drop { table } => *table == *name,
        Change::Put { .. } => false,
        Change::Remove { .. } => false,
    }
}

fn is_create_of(name: &Name, change: &Change) -> bool
    ensures { result ≡ is_create_of name.now change.now }
{
    match change {
        Change::Create { table, .. } => *table == *name,
        Change::Drop { .. } => false,
        Change::Put { .. } => false,
        Change::Remove { .. } => false,
    }
}

fn is_write_of(name: &Name, key: Key, change: &Change) -> bool
    ensures { result ≡ is_write_of name.now key change.now }
{
    match change {
        Change::Put { table, key: k, .. } => *table == *name && *k == key.number(),
        Change::Remove { table, key: k } => *table == *name && *k == key.number(),
        Change::Create { .. } => false,
        Change::Drop { .. } => false,
    }
}

// Whether a change writes the row of the key or, where none is given, makes or drops the table.
fn is_touching(name: &Name, key: &Option<Key>, change: &Change) -> bool
    ensures { result ≡ is_touching name.now key.now change.now }
{
    match key {
        Some(key) => is_write_of(name, *key, change),
        None => is_schema_change(name, change),
    }
}

fn has_touching(name: &Name, key: &Option<Key>, changes: &[Change]) -> bool
    ensures { result ≡ list_any (is_touching name.now key.now) changes.now }
{
    changes.iter().any(|change| is_touching(name, key, change))
}

// The number of the last transaction with such a change, where the first has this number.
fn last_touching(
    name: &Name,
    key: &Option<Key>,
    number: u64,
    transactions: &[List<Change>],
) -> Option<u64>
    requires { number + length transactions.now < 2 ^ 64 }
    ensures { result ≡ last_with (is_touching name.now key.now) number transactions.now }
{
    let (first, rest) = transactions.split_first()?;
    if let Some(later) = last_touching(name, key, number + 1, rest) {
        return Some(later);
    }
    if has_touching(name, key, first.as_slice()) {
        Some(number)
    } else {
        None
    }
}

// The last commit with such a change that was answered since the transaction began.
fn answered_touching(state: &State, me: &Transaction, name: &Name, key: &Option<Key>) -> Option<u64>
    ensures { result ≡ last_with (is_touching name.now key.now) (me.now.snapshot + 1) (answered_since state.now me.now) }
{
    let asked = state.asked.as_slice();
    let answered = if state.answered < asked.len() as u64 {
        &asked[..state.answered as usize]
    } else {
        asked
    };
    if me.snapshot >= answered.len() as u64 {
        return None;
    }
    last_touching(
        name,
        key,
        me.snapshot + 1,
        &answered[me.snapshot as usize..],
    )
}

pub fn schema_changed_by(state: &State, me: &Transaction, name: &Name) -> Option<u64>
    ensures { result ≡ schema_changed_by state.now me.now name.now }
{
    answered_touching(state, me, name, &None)
}

fn has_create_of(name: &Name, changes: &[Change]) -> bool
    ensures { result ≡ list_any (is_create_of name.now) changes.now }
{
    changes.iter().any(|change| is_create_of(name, change))
}

pub fn row_changed_by(state: &State, me: &Transaction, name: &Name, key: Key) -> Option<u64>
    ensures { result ≡ row_changed_by state.now me.now name.now key }
{
    if has_create_of(name, me.own.as_slice()) {
        return None;
    }
    answered_touching(state, me, name, &Some(key))
}
