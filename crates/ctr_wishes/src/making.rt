// What a Write lays, by the table's columns and the row that is there.
ghost use Rattle.std.specs.Prelude.{◌≡◌, true, is_none, is_some, IfOk, Some, None};
ghost use Rattle.ctr_types.specs.declared.tape.Refusal.TheVariants as refusal;
ghost use Rattle.ctr_model.specs.Refusals.{key_written, updated, when};
ghost use Rattle.ctr_value.specs.Columns.{ColumnsFit};
ghost use Rattle.ctr_wishes.specs.Heads.{IsLaid, IsRefusedOr, IsWished};

use crate::fitting::bad_from;
use crate::head::Head;
use ctr_reading::an_entry_has_columns;
use ctr_statement::updated;
use ctr_types::{OutOfMemory, Plain, Refusal, Row, Schema, Set, Statement};
use ctr_value::{encode_row, width};
use std::alloc::Global;

/// What a Write will do.
#[derive(Drop)]
pub enum Prepared {
    /// It is refused: Duplicate, NotFound or OutOfRange. BadValue and NoTable too are refusals of a Lock, and no Write comes to them whose
    /// Lock was granted: `what_is_prepared_is_the_models`.
    Refused(Refusal),
    /// It lays this head.
    Lays(Head),
}

// The head of a row, where its values suit the columns.
fn lay_row(alloc: Global, schema: &Schema, row: &Row) -> Result<Prepared, OutOfMemory>
    requires fits { ColumnsFit schema.now.columns }
    ensures { IfOk result (IsLaid schema.now.columns (Some row.now)) }
{
    an_entry_has_columns();
    if let Some(at) = bad_from(1, schema.columns.as_slice(), row.values.as_slice()) {
        return Ok(Prepared::Refused(Refusal::BadValue { at }));
    }
    let mut payload = vec![in alloc; 0u8; width(schema)]?;
    encode_row(schema, row, &mut payload);
    Ok(Prepared::Lays(Head::of_row(payload)))
}

// The head of a tombstone.
fn lay_none(alloc: Global, schema: &Schema) -> Result<Prepared, OutOfMemory>
    requires fits { ColumnsFit schema.now.columns }
    ensures { IfOk result (IsLaid schema.now.columns None) }
{
    let zeros = vec![in alloc; 0u8; width(schema)]?;
    Ok(Prepared::Lays(Head::of_none(zeros)))
}

// The head of the row that an update makes.
fn lay_updated(
    alloc: Global,
    schema: &Schema,
    sets: &[Set],
    row: &Row,
) -> Result<Prepared, OutOfMemory>
    requires fits { ColumnsFit schema.now.columns }
    ensures { IfOk result (IsRefusedOr (when (is_none (updated schema.now.columns sets.now row.now)) refusal.OutOfRange)
        schema.now.columns (updated schema.now.columns sets.now row.now)) }
{
    let Some(new) = updated(alloc, schema.columns.as_slice(), sets, row)? else {
        return Ok(Prepared::Refused(Refusal::OutOfRange));
    };
    lay_row(alloc, schema, &new)
}

/// What the Write of a statement will do, by the columns of its table and the row of its key.
pub(crate) fn wished(
    alloc: Global,
    schema: &Schema,
    statement: &Statement,
    row: &Option<Row>,
) -> Result<Prepared, OutOfMemory>
    requires writes { is_some (key_written statement.now) ≡ true }
    requires fits { ColumnsFit schema.now.columns }
    ensures { IfOk result (IsWished schema.now.columns statement.now row.now) }
{
    match (statement, row) {
        (Statement::Insert { .. }, Some(_)) => Ok(Prepared::Refused(Refusal::Duplicate)),
        (Statement::Insert { values, .. }, None) => {
            let values = values.copy(alloc)?;
            lay_row(alloc, schema, &Row { values })
        }
        (Statement::Update { .. } | Statement::Delete { .. }, None) => {
            Ok(Prepared::Refused(Refusal::NotFound))
        }
        (Statement::Update { sets, .. }, Some(row)) => {
            lay_updated(alloc, schema, sets.as_slice(), row)
        }
        (Statement::Delete { .. }, Some(_)) => lay_none(alloc, schema),
        (Statement::Begin | Statement::Commit | Statement::Rollback, _) => unreachable!(),
        (Statement::Create { .. } | Statement::DropTable { .. }, _) => unreachable!(),
        (Statement::Select { .. }, _) => unreachable!(),
    }
}
