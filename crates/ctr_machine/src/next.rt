// The state that a reply leaves: the machine's side of the definitions of the same names.
ghost use Rattle.std.specs.Prelude.{◌≡◌, ◌<◌, ◌-◌, ◌^◌, Some, IfOk, OnOk, option_and_then};
ghost use Rattle.std.specs.Option.{option_copied, option_map, option_to_list};
ghost use Rattle.ctr_model.specs.Refusals.{updated};
ghost use Rattle.ctr_model.specs.State.{transaction_of};
ghost use Rattle.ctr_model.specs.Reply.{with_lock, with_use, on_table, granted, with_granted, with_read, changes_of, with_changes, next_inside, next_outside, released, without_name, next_state};

use crate::reply::{columns_of, row_of};
use ctr_model::{Change, Key, KeyLock, Map, State, Table, Transaction};
use ctr_statement::{key_locked, key_of, table_of, updated};
use ctr_types::{Act, Column, Entry, List, Name, OutOfMemory, Plain, Reply, Row, Set, Statement};
use std::alloc::{AllocError, Global};

fn with_use(alloc: Global, name: &Name, me: &Transaction) -> Result<Transaction, AllocError>
    ensures { IfOk result (λ new. new ≡ with_use name.now me.now) }
{
    let mut new = me.copy(alloc)?;
    new.uses.push(name.copy(alloc)?)?;
    Ok(new)
}

// The transaction with a lock of a key and a use of its table, or with a name.
fn with_lock(
    alloc: Global,
    key: Option<Key>,
    name: &Name,
    me: &Transaction,
) -> Result<Transaction, AllocError>
    ensures { IfOk result (λ new. new ≡ with_lock key name.now me.now) }
{
    let mut new = me.copy(alloc)?;
    new.writer = true;
    match key {
        Some(key) => {
            new.locks.push(KeyLock {
                table: name.copy(alloc)?,
                key: key.number(),
            })?;
            new.uses.push(name.copy(alloc)?)?;
        }
        None => new.holds.push(name.copy(alloc)?)?,
    }
    Ok(new)
}

// The transaction with what an act of the statement was granted.
fn granted(
    alloc: Global,
    act: &Act,
    statement: &Statement,
    me: &Transaction,
) -> Result<Transaction, AllocError>
    ensures { IfOk result (λ new. new ≡ granted act.now statement.now me.now) }
{
    match (act, table_of(statement)) {
        (Act::Lock, Some(name)) => with_lock(alloc, key_locked(act, statement), name, me),
        (Act::Lock, None) => me.copy(alloc),
        (Act::Begin | Act::Read | Act::Write | Act::Ask, _) => me.copy(alloc),
        (Act::Answer | Act::Rollback | Act::Release { .. }, _) => me.copy(alloc),
    }
}

fn with_granted(
    alloc: Global,
    act: &Act,
    statement: Option<&Statement>,
    me: &Transaction,
) -> Result<Transaction, AllocError>
    ensures { IfOk result (λ new. new ≡ with_granted act.now (option_copied statement.entry) me.now) }
{
    match statement {
        Some(statement) => granted(alloc, act, statement, me),
        None => me.copy(alloc),
    }
}

fn with_table_use(
    alloc: Global,
    table: Option<&Name>,
    me: &Transaction,
) -> Result<Transaction, AllocError>
    ensures { IfOk result (λ new. new ≡ on_table with_use (option_copied table.entry) me.now) }
{
    match table {
        Some(name) => with_use(alloc, name, me),
        None => me.copy(alloc),
    }
}

fn with_read(
    alloc: Global,
    statement: Option<&Statement>,
    me: &Transaction,
) -> Result<Transaction, AllocError>
    ensures { IfOk result (λ new. new ≡ with_read (option_copied statement.entry) me.now) }
{
    match statement {
        Some(statement) => with_table_use(alloc, table_of(statement), me),
        None => me.copy(alloc),
    }
}

// ---- the changes of a Write that is done

fn put_of(alloc: Global, table: &Name, key: Key, row: Row) -> Result<Change, AllocError>
    ensures { IfOk result (λ made. made ≡ Change.Put table.now key row) }
{
    Ok(Change::Put {
        table: table.copy(alloc)?,
        key: key.number(),
        row,
    })
}

fn updating(
    alloc: Global,
    table: &Name,
    key: Key,
    row: Option<Row>,
) -> Result<Option<Change>, AllocError>
    ensures { IfOk result (λ made. made ≡ option_map (Change.Put table.now key) row) }
{
    let Some(row) = row else {
        return Ok(None);
    };
    Ok(Some(put_of(alloc, table, key, row)?))
}

fn new_row(
    alloc: Global,
    columns: &[Column],
    sets: &[Set],
    row: Option<&Row>,
) -> Result<Option<Row>, AllocError>
    ensures { IfOk result (λ new. new ≡ option_and_then (updated columns.now sets.now) (option_copied row.entry)) }
{
    match row {
        Some(row) => updated(alloc, columns, sets, row),
        None => Ok(None),
    }
}

// The change of a statement, where it has one.
fn change_of(
    alloc: Global,
    sees: &Map<Name, Table>,
    statement: &Statement,
) -> Result<Option<Change>, AllocError>
    ensures { IfOk result (λ made. option_to_list made ≡ changes_of sees.now statement.now) }
{
    match statement {
        Statement::Create { table, schema } => Ok(Some(Change::Create {
            table: table.copy(alloc)?,
            schema: schema.copy(alloc)?,
        })),
        Statement::DropTable { table } => Ok(Some(Change::Drop {
            table: table.copy(alloc)?,
        })),
        Statement::Insert { table, values } => {
            let key = Key::new(key_of(values.as_slice()));
            let row = Row {
                values: values.copy(alloc)?,
            };
            Ok(Some(put_of(alloc, table, key, row)?))
        }
        Statement::Update { table, sets, at } => {
            let key = Key::new(at.key);
            let there = sees.get(table);
            let row = row_of(there, key);
            let new = new_row(alloc, columns_of(there), sets.as_slice(), row)?;
            updating(alloc, table, key, new)
        }
        Statement::Delete { table, at } => Ok(Some(Change::Remove {
            table: table.copy(alloc)?,
            key: at.key,
        })),
        Statement::Begin | Statement::Commit | Statement::Rollback => Ok(None),
        Statement::Select { .. } => Ok(None),
    }
}

fn with_change(
    alloc: Global,
    sees: &Map<Name, Table>,
    statement: &Statement,
    me: &Transaction,
) -> Result<Transaction, AllocError>
    ensures { IfOk result (λ new. new ≡ with_changes sees.now (Some statement.now) me.now) }
{
    let mut new = me.copy(alloc)?;
    let Some(change) = change_of(alloc, sees, statement)? else {
        return Ok(new);
    };
    new.own.push(change)?;
    Ok(new)
}

fn with_changes(
    alloc: Global,
    sees: &Map<Name, Table>,
    statement: Option<&Statement>,
    me: &Transaction,
) -> Result<Transaction, AllocError>
    ensures { IfOk result (λ new. new ≡ with_changes sees.now (option_copied statement.entry) me.now) }
{
    match statement {
        Some(statement) => with_change(alloc, sees, statement, me),
        None => me.copy(alloc),
    }
}

// ---- the next state

fn next_inside(
    alloc: Global,
    state: &mut State,
    session: u8,
    me: &Transaction,
    statement: Option<&Statement>,
    entry: &Entry,
) -> Result<(), AllocError>
    requires { state.old.answered < 2 ^ 64 - 1 }
    ensures { OnOk result (state.new ≡ next_inside state.old session me.now entry.now.act (option_copied statement.entry) entry.now.reply) }
{
    match &entry.reply {
        Reply::Granted => {
            let new = with_granted(alloc, &entry.act, statement, me)?;
            state.sessions.put(session, new)
        }
        Reply::Rows { .. } => state
            .sessions
            .put(session, with_read(alloc, statement, me)?),
        Reply::Done => {
            let sees = state.view(alloc, me)?;
            let new = with_changes(alloc, &sees, statement, me)?;
            state.sessions.put(session, new)
        }
        Reply::Asked { k } => {
            let mut new = me.copy(alloc)?;
            new.asked = Some(*k);
            state.asked.push(me.own.copy(alloc)?)?;
            state.sessions.put(session, new)
        }
        Reply::Answered { .. } => {
            state.answered += 1;
            state.sessions.remove(&session);
            Ok(())
        }
        Reply::ReadOnly | Reply::RolledBack => {
            state.sessions.remove(&session);
            Ok(())
        }
        Reply::Began { .. } | Reply::Released | Reply::Refused { .. } => Ok(()),
    }
}

// The names but this one.
fn without_name(alloc: Global, name: &Name, names: &[Name]) -> Result<List<Name>, AllocError>
    ensures { IfOk result (λ left. left ≡ without_name name.now names.now) }
{
    let mut left = List::new(alloc);
    for n in names {
        if *n != *name {
            left.push(n.copy(alloc)?)?;
        }
    }
    Ok(left)
}

// Recovery no longer holds the name that the act releases.
fn release(alloc: Global, state: &mut State, act: &Act) -> Result<(), AllocError>
    ensures { OnOk result (state.new ≡ released act.now state.old) }
{
    match act {
        Act::Release { name } => {
            state.stuck = without_name(alloc, name, state.stuck.as_slice())?;
            Ok(())
        }
        Act::Begin | Act::Read | Act::Lock | Act::Write => Ok(()),
        Act::Ask | Act::Answer | Act::Rollback => Ok(()),
    }
}

fn next_outside(
    alloc: Global,
    state: &mut State,
    session: u8,
    _statement: Option<&Statement>,
    entry: &Entry,
) -> Result<(), AllocError>
    ensures { OnOk result (state.new ≡ next_outside state.old session entry.now.act (option_copied _statement.entry) entry.now.reply) }
{
    match &entry.reply {
        Reply::Began { n } => state.sessions.put(session, Transaction::begun(alloc, *n)),
        Reply::Released => release(alloc, state, &entry.act),
        Reply::Granted | Reply::Rows { .. } | Reply::Done | Reply::Asked { .. } => Ok(()),
        Reply::ReadOnly | Reply::Answered { .. } | Reply::RolledBack => Ok(()),
        Reply::Refused { .. } => Ok(()),
    }
}

// The transaction that a session is in.
fn transaction_of(
    alloc: Global,
    state: &State,
    session: u8,
) -> Result<Option<Transaction>, AllocError>
    ensures { IfOk result (λ me. me ≡ transaction_of state.now session) }
{
    let Some(me) = state.sessions.get(&session) else {
        return Ok(None);
    };
    Ok(Some(me.copy(alloc)?))
}

fn next(
    alloc: Global,
    state: &mut State,
    statement: Option<&Statement>,
    entry: &Entry,
) -> Result<(), AllocError>
    requires { state.old.answered < 2 ^ 64 - 1 }
    ensures { OnOk result (state.new ≡ next_state state.old entry.now.session entry.now.act (option_copied statement.entry) entry.now.reply) }
{
    match transaction_of(alloc, state, entry.session)? {
        Some(me) => next_inside(alloc, state, entry.session, &me, statement, entry),
        None => next_outside(alloc, state, entry.session, statement, entry),
    }
}

/// The state that an entry's reply leaves, for the statement that the entry is of; recovery's
/// release of a name is of none. Where memory is refused, the state is of no more use.
pub fn next_state(
    alloc: Global,
    state: &mut State,
    statement: Option<&Statement>,
    entry: &Entry,
) -> Result<(), OutOfMemory>
    requires { state.old.answered < 2 ^ 64 - 1 }
    ensures { OnOk result (state.new ≡ next_state state.old entry.now.session entry.now.act (option_copied statement.entry) entry.now.reply) }
{
    Ok(next(alloc, state, statement, entry)?)
}
