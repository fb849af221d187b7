// The reply to an act: the machine's side of the definitions of the same names.
ghost use Rattle.std.specs.Prelude.{◌≡◌, ◌<◌, ◌+◌, ◌^◌, Some, [], ◌∷◌, length, map, ◌-◌, IfOk};
ghost use Rattle.std.specs.Option.{option_copied, option_to_list};
ghost use Rattle.ctr_model.specs.Database.{table_at};
ghost use Rattle.ctr_model.specs.State.{view};
ghost use Rattle.ctr_model.specs.Refusals.{first_of, presence_refusals, name_refusals, value_refusals, key_refusals, refusal_of, write_refusal, columns_of, row_of, update_refusal, updated};
ghost use Rattle.ctr_model.specs.Reply.{rows_in, rows_found, rows_read, refused_or, reply_inside, reply_outside, reply_to};

use crate::refusals::{busy_by, locked_by, row_changed_by, schema_changed_by};
use ctr_model::{Key, Map, State, Table, Transaction};
use ctr_statement::{bad_value, creates, key_locked, key_of, table_of, updated};
use ctr_types::{
    Act, Column, Entry, KeyIs, List, Name, OutOfMemory, Plain, Refusal, Reply, Row, Rows, Set,
    Statement,
};
use std::alloc::{AllocError, Global};

// ---- at Lock and Read

// The causes that concern what others do with the table.
fn name_refusal(
    state: &State,
    session: u8,
    me: &Transaction,
    statement: &Statement,
    name: &Name,
) -> Option<Refusal>
    ensures { result ≡ first_of (name_refusals state.now session me.now statement.now name.now) }
{
    if let Some(by) = busy_by(state, session, statement, name) {
        return Some(Refusal::TableBusy { by });
    }
    let commit = schema_changed_by(state, me, name)?;
    Some(Refusal::SchemaChanged { commit })
}

// The causes that concern a key.
fn lock_refusal(
    state: &State,
    session: u8,
    me: &Transaction,
    name: &Name,
    key: Key,
) -> Option<Refusal>
    ensures { result ≡ first_of (key_refusals state.now session me.now name.now (Some key)) }
{
    if let Some(by) = locked_by(state, session, name, key) {
        return Some(Refusal::RowLocked { by });
    }
    let commit = row_changed_by(state, me, name, key)?;
    Some(Refusal::RowChanged { commit })
}

fn key_refusal(
    state: &State,
    session: u8,
    me: &Transaction,
    name: &Name,
    key: Option<Key>,
) -> Option<Refusal>
    ensures { result ≡ first_of (key_refusals state.now session me.now name.now key) }
{
    match key {
        Some(key) => lock_refusal(state, session, me, name, key),
        None => None,
    }
}

// Whether the table is there as the statement wants it.
fn table_refusal(statement: &Statement, table: Option<&Table>) -> Option<Refusal>
    ensures { result ≡ first_of (presence_refusals statement.now (option_copied table.entry)) }
{
    match (table, creates(statement)) {
        (None, false) => Some(Refusal::NoTable),
        (Some(_), true) => Some(Refusal::TableExists),
        (None, true) => None,
        (Some(_), false) => None,
    }
}

fn value_refusal(statement: &Statement, table: Option<&Table>) -> Option<Refusal>
    ensures { result ≡ first_of (value_refusals statement.now (option_copied table.entry)) }
{
    let table = table?;
    let at = bad_value(table.schema.columns.as_slice(), statement)?;
    Some(Refusal::BadValue { at })
}

// Why a Lock or a Read is refused, where it is; the database is what the session sees.
fn refusal_of(
    state: &State,
    session: u8,
    me: &Transaction,
    act: &Act,
    statement: &Statement,
    sees: &Map<Name, Table>,
) -> Option<Refusal>
    requires { sees.now ≡ view state.now me.now }
    ensures { result ≡ refusal_of state.now session me.now act.now statement.now }
{
    let name = table_of(statement)?;
    let table = sees.get(name);
    let late = first(
        value_refusal(statement, table),
        key_refusal(state, session, me, name, key_locked(act, statement)),
    );
    let held = first(name_refusal(state, session, me, statement, name), late);
    first(table_refusal(statement, table), held)
}

// The first cause of two.
fn first(early: Option<Refusal>, late: Option<Refusal>) -> Option<Refusal>
    ensures { result ≡ first_of (early ∷ late ∷ []) }
{
    match early {
        Some(why) => Some(why),
        None => late,
    }
}

// ---- at Write

// The row of a key in a table, where both are there.
pub fn row_of<'a>(table: Option<&'a Table>, key: Key) -> Option<&'a Row>
    ensures { option_copied result ≡ row_of (option_copied table.entry) key }
{
    let table = table?;
    table.rows.get(&key)
}

pub fn columns_of<'a>(table: Option<&'a Table>) -> &'a [Column]
    ensures { result.now ≡ columns_of (option_copied table.entry) }
{
    match table {
        Some(table) => table.schema.columns.as_slice(),
        None => &[],
    }
}

fn update_refusal(
    alloc: Global,
    columns: &[Column],
    sets: &[Set],
    row: Option<&Row>,
) -> Result<Option<Refusal>, AllocError>
    ensures { IfOk result (λ why. why ≡ update_refusal columns.now sets.now (option_copied row.entry)) }
{
    let Some(row) = row else {
        return Ok(Some(Refusal::NotFound));
    };
    if updated(alloc, columns, sets, row)?.is_none() {
        return Ok(Some(Refusal::OutOfRange));
    }
    Ok(None)
}

// Why a Write is refused, where it is.
fn write_refusal(
    alloc: Global,
    sees: &Map<Name, Table>,
    statement: &Statement,
) -> Result<Option<Refusal>, AllocError>
    ensures { IfOk result (λ why. why ≡ write_refusal sees.now statement.now) }
{
    match statement {
        Statement::Insert { table, values } => {
            let key = Key::new(key_of(values.as_slice()));
            match row_of(sees.get(table), key) {
                Some(_) => Ok(Some(Refusal::Duplicate)),
                None => Ok(None),
            }
        }
        Statement::Update { table, sets, at } => {
            let table = sees.get(table);
            let row = row_of(table, Key::new(at.key));
            update_refusal(alloc, columns_of(table), sets.as_slice(), row)
        }
        Statement::Delete { table, at } => match row_of(sees.get(table), Key::new(at.key)) {
            Some(_) => Ok(None),
            None => Ok(Some(Refusal::NotFound)),
        },
        Statement::Begin | Statement::Commit | Statement::Rollback => Ok(None),
        Statement::Create { .. } => Ok(None),
        Statement::DropTable { .. } => Ok(None),
        Statement::Select { .. } => Ok(None),
    }
}

// ---- what a Read gives

fn all_rows(alloc: Global, entries: &[(Key, Row)]) -> Result<List<Row>, AllocError>
    ensures { IfOk result (λ rows. rows ≡ map (λ e. e.1) entries.now) }
{
    let mut rows = List::new(alloc);
    for entry in entries {
        rows.push(entry.1.copy(alloc)?)?;
    }
    Ok(rows)
}

fn listed(alloc: Global, row: Option<&Row>) -> Result<List<Row>, AllocError>
    ensures { IfOk result (λ rows. rows ≡ option_to_list (option_copied row.entry)) }
{
    let mut rows = List::new(alloc);
    let Some(row) = row else {
        return Ok(rows);
    };
    rows.push(row.copy(alloc)?)?;
    Ok(rows)
}

fn rows_in(alloc: Global, at: &Option<KeyIs>, table: &Table) -> Result<List<Row>, AllocError>
    ensures { IfOk result (λ rows. rows ≡ rows_in at.now table.now) }
{
    let Some(at) = at else {
        return all_rows(alloc, table.rows.entries());
    };
    listed(alloc, table.rows.get(&Key::new(at.key)))
}

fn rows_found(
    alloc: Global,
    at: &Option<KeyIs>,
    table: Option<&Table>,
) -> Result<List<Row>, AllocError>
    ensures { IfOk result (λ rows. rows ≡ rows_found at.now (option_copied table.entry)) }
{
    match table {
        Some(table) => rows_in(alloc, at, table),
        None => Ok(List::new(alloc)),
    }
}

fn rows_read(
    alloc: Global,
    sees: &Map<Name, Table>,
    statement: &Statement,
) -> Result<List<Row>, AllocError>
    ensures { IfOk result (λ rows. rows ≡ rows_read sees.now statement.now) }
{
    match statement {
        Statement::Select { table, at } => rows_found(alloc, at, sees.get(table)),
        Statement::Begin | Statement::Commit | Statement::Rollback => Ok(List::new(alloc)),
        Statement::Create { .. } | Statement::DropTable { .. } => Ok(List::new(alloc)),
        Statement::Insert { .. } => Ok(List::new(alloc)),
        Statement::Update { .. } => Ok(List::new(alloc)),
        Statement::Delete { .. } => Ok(List::new(alloc)),
    }
}

// ---- the reply

fn refused_or(why: Option<Refusal>, reply: Reply) -> Reply
    ensures { result ≡ refused_or why reply }
{
    match why {
        Some(refusal) => Reply::Refused { refusal },
        None => reply,
    }
}

fn reply_inside(
    alloc: Global,
    state: &State,
    session: u8,
    me: &Transaction,
    act: &Act,
    statement: &Statement,
) -> Result<Reply, AllocError>
    requires { state.now.answered < 2 ^ 64 - 1 }
    ensures { IfOk result (λ reply. reply ≡ reply_inside state.now session me.now act.now statement.now) }
{
    match act {
        Act::Begin => Ok(Reply::Refused {
            refusal: Refusal::InTransaction,
        }),
        Act::Read => {
            let sees = state.view(alloc, me)?;
            let rows = rows_read(alloc, &sees, statement)?;
            let why = refusal_of(state, session, me, act, statement, &sees);
            Ok(refused_or(
                why,
                Reply::Rows {
                    rows: Rows { rows },
                },
            ))
        }
        Act::Lock => {
            let sees = state.view(alloc, me)?;
            let why = refusal_of(state, session, me, act, statement, &sees);
            Ok(refused_or(why, Reply::Granted))
        }
        Act::Write => {
            let sees = state.view(alloc, me)?;
            let why = write_refusal(alloc, &sees, statement)?;
            Ok(refused_or(why, Reply::Done))
        }
        Act::Ask => {
            if me.writer {
                let k = state.asked.as_slice().len() as u64 + 1;
                Ok(Reply::Asked { k })
            } else {
                Ok(Reply::ReadOnly)
            }
        }
        Act::Answer => Ok(Reply::Answered {
            k: state.answered + 1,
        }),
        Act::Rollback => Ok(Reply::RolledBack),
        Act::Release { .. } => Ok(Reply::Released),
    }
}

fn reply_outside(state: &State, act: &Act) -> Reply
    ensures { result ≡ reply_outside state.now act.now }
{
    match act {
        Act::Begin => Reply::Began { n: state.answered },
        Act::Release { .. } => Reply::Released,
        Act::Read | Act::Lock | Act::Write | Act::Ask | Act::Answer | Act::Rollback => {
            Reply::Refused {
                refusal: Refusal::NoTransaction,
            }
        }
    }
}

/// The reply to an act of a session at a state, for the statement that it is of. Recovery's release
/// of a name is of none.
pub fn reply_to(
    alloc: Global,
    state: &State,
    session: u8,
    act: &Act,
    statement: Option<&Statement>,
) -> Result<Reply, OutOfMemory>
    requires { state.now.answered < 2 ^ 64 - 1 }
    ensures { IfOk result (λ reply. reply ≡ reply_to state.now session act.now (option_copied statement.entry)) }
{
    match (statement, state.sessions.get(&session)) {
        (Some(of), Some(me)) => Ok(reply_inside(alloc, state, session, me, act, of)?),
        (Some(_), None) => Ok(reply_outside(state, act)),
        (None, _) => Ok(reply_outside(state, act)),
    }
}

/// The reply to an entry's act at a state. What the entry says of a reply and a moment isn't read.
pub fn reply_of(
    alloc: Global,
    state: &State,
    statement: Option<&Statement>,
    entry: &Entry,
) -> Result<Reply, OutOfMemory>
    requires { state.now.answered < 2 ^ 64 - 1 }
    ensures { IfOk result (λ reply. reply ≡ reply_to state.now entry.now.session entry.now.act (option_copied statement.entry)) }
{
    reply_to(alloc, state, entry.session, &entry.act, statement)
}
