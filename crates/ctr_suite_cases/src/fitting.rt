// Columns that a table may have.
ghost use Rattle.std.specs.Prelude.{◌≡◌, true};
ghost use Rattle.std.specs.List.{AllByRecursion};
ghost use Rattle.ctr_types.specs.declared.statement.Line.{Line as LineIs};
ghost use Rattle.ctr_page.specs.ctr_value.Columns.{ColumnFits, ColumnsFit, KindFits};
ghost use Rattle.ctr_exec.specs.ctr_writing.Tables.{HasFittingColumns};

use ctr_types::{Column, Kind, Line, Statement};

fn kind_fits(kind: &Kind, most: u8) -> bool
    ensures { result ≡ true → KindFits most kind.now }
{
    match kind {
        Kind::Int => true,
        Kind::Chars(n) => 1 <= *n && *n <= most,
    }
}

fn column_fits(column: &Column, most: u8) -> bool
    ensures { result ≡ true → ColumnFits most column.now }
{
    let _name = column.name.as_slice();
    kind_fits(&column.kind, most)
}

fn all_fit(columns: &[Column]) -> bool
    ensures { result ≡ true → AllByRecursion (ColumnFits 64) columns.now }
{
    let Some((first, rest)) = columns.split_first() else {
        return true;
    };
    column_fits(first, 64) && all_fit(rest)
}

fn columns_fit(columns: &[Column]) -> bool
    ensures { result ≡ true → ColumnsFit columns.now }
{
    let Some((first, rest)) = columns.split_first() else {
        return false;
    };
    column_fits(first, 0) && rest.len() < 8 && all_fit(rest)
}

fn statement_fits(statement: &Statement) -> bool
    ensures { result ≡ true → HasFittingColumns statement.now }
{
    match statement {
        Statement::Create { schema, .. } => columns_fit(schema.columns.as_slice()),
        Statement::Begin
        | Statement::Commit
        | Statement::Rollback
        | Statement::DropTable { .. }
        | Statement::Insert { .. }
        | Statement::Select { .. }
        | Statement::Update { .. }
        | Statement::Delete { .. } => true,
    }
}

/// Whether the columns of each table that these lines make are such as a table may have.
pub fn lines_fit(lines: &[Line]) -> bool
    ensures { result ≡ true → AllByRecursion (λ (l : LineIs). HasFittingColumns l.statement) lines.now }
{
    let Some((first, rest)) = lines.split_first() else {
        return true;
    };
    statement_fits(&first.statement) && lines_fit(rest)
}
