// What a statement speaks of: the definitions of the same names.
ghost use Rattle.std.specs.Prelude.{◌≡◌};
ghost use Rattle.std.specs.Option.{option_copied};
ghost use Rattle.ctr_model.specs.Refusals.{table_of, key_of, key_written, key_locked, creates, changes_schema};

use ctr_model::Key;
use ctr_types::{Act, Name, Statement, Value};

/// The table that a statement speaks of.
pub fn table_of(statement: &Statement) -> Option<&Name>
    ensures { option_copied result ≡ table_of statement.now }
{
    match statement {
        Statement::Begin | Statement::Commit | Statement::Rollback => None,
        Statement::Create { table, .. } => Some(table),
        Statement::DropTable { table } => Some(table),
        Statement::Insert { table, .. } => Some(table),
        Statement::Select { table, .. } => Some(table),
        Statement::Update { table, .. } => Some(table),
        Statement::Delete { table, .. } => Some(table),
    }
}

/// The key of a new row: its first value.
pub fn key_of(values: &[Value]) -> i64
    ensures { result ≡ key_of values.now }
{
    match values.first() {
        Some(Value::Int(number)) => *number,
        Some(Value::Chars(_)) => 0,
        None => 0,
    }
}

/// The key of the row that a statement writes.
pub fn key_written(statement: &Statement) -> Option<Key>
    ensures { result ≡ key_written statement.now }
{
    match statement {
        Statement::Insert { values, .. } => Some(Key::new(key_of(values.as_slice()))),
        Statement::Update { at, .. } => Some(Key::new(at.key)),
        Statement::Delete { at, .. } => Some(Key::new(at.key)),
        Statement::Begin | Statement::Commit | Statement::Rollback => None,
        Statement::Create { .. } => None,
        Statement::DropTable { .. } => None,
        Statement::Select { .. } => None,
    }
}

/// The key that an act of a statement locks; where there is none, a Lock is of the table's name.
pub fn key_locked(act: &Act, statement: &Statement) -> Option<Key>
    ensures { result ≡ key_locked act.now statement.now }
{
    match act {
        Act::Lock => key_written(statement),
        Act::Begin | Act::Read | Act::Write | Act::Ask | Act::Answer | Act::Rollback => None,
        Act::Release { .. } => None,
    }
}

/// Whether it makes a table.
pub fn creates(statement: &Statement) -> bool
    ensures { result ≡ creates statement.now }
{
    matches!(statement, Statement::Create { .. })
}

/// Whether it makes or drops a table.
pub fn changes_schema(statement: &Statement) -> bool
    ensures { result ≡ changes_schema statement.now }
{
    matches!(
        statement,
        Statement::Create { .. } | Statement::DropTable { .. }
    )
}
