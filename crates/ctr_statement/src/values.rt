// Which values and assignments suit a table, and what an update makes of a row: the definitions of the same names.
ghost use Rattle.std.specs.Prelude.{◌≡◌, ◌<◌, ◌+◌, ◌^◌, [], length, IfOk, OnOk};
ghost use Rattle.std.specs.Option.{option_map};
ghost use Rattle.ctr_model.specs.Refusals.{fits, bad_from, is_first_column, kind_of, is_int, suits, bad_right_side, is_bad_set, is_assigned, bad_set_after, bad_where, bad_value, number_in, sum_of, right_side, with_value, assigned, updated};

use ctr_types::{
    Column, KeyIs, Kind, List, Name, Plain, Row, Set, SetTo, Statement, Value, copy_all,
};
use std::alloc::{AllocError, Global};

fn fits(kind: Kind, value: &Value) -> bool
    ensures { result ≡ fits kind value.now }
{
    match (kind, value) {
        (Kind::Int, Value::Int(_)) => true,
        (Kind::Chars(most), Value::Chars(text)) => text.len() <= most as usize,
        (Kind::Int, Value::Chars(_)) => false,
        (Kind::Chars(_), Value::Int(_)) => false,
    }
}

// The position of the first bad value, where the first has this position.
fn bad_from(at: u64, columns: &[Column], values: &[Value]) -> Option<u64>
    requires { at + length values.now < 2 ^ 64 }
    ensures { result ≡ bad_from at columns.now values.now }
{
    match (columns.split_first(), values.split_first()) {
        (None, None) => None,
        (None, Some(_)) => Some(at),
        (Some(_), None) => Some(at),
        (Some((column, columns)), Some((value, values))) => {
            if fits(column.kind, value) {
                bad_from(at + 1, columns, values)
            } else {
                Some(at)
            }
        }
    }
}

fn is_first_column(name: &Name, columns: &[Column]) -> bool
    ensures { result ≡ is_first_column name.now columns.now }
{
    match columns.first() {
        Some(column) => *name == column.name,
        None => false,
    }
}

fn kind_of(name: &Name, columns: &[Column]) -> Option<Kind>
    ensures { result ≡ kind_of name.now columns.now }
{
    let (first, rest) = columns.split_first()?;
    if *name == first.name {
        return Some(first.kind);
    }
    kind_of(name, rest)
}

fn is_int(kind: Option<Kind>) -> bool
    ensures { result ≡ is_int kind }
{
    match kind {
        Some(Kind::Int) => true,
        Some(Kind::Chars(_)) => false,
        None => false,
    }
}

fn suits(kind: Option<Kind>, value: &Value) -> bool
    ensures { result ≡ suits kind value.now }
{
    match kind {
        Some(kind) => fits(kind, value),
        None => false,
    }
}

fn bad_right_side(columns: &[Column], column: &Name, to: &SetTo) -> bool
    ensures { result ≡ bad_right_side columns.now column.now to.now }
{
    match to {
        SetTo::Is(value) => !suits(kind_of(column, columns), value),
        SetTo::Sum(other, _) => {
            !(is_int(kind_of(column, columns)) && is_int(kind_of(other, columns)))
        }
    }
}

// Whether one of the assignments is to the column.
fn is_assigned(name: &Name, sets: &[Set]) -> bool
    ensures { result ≡ is_assigned name.now sets.now }
{
    sets.iter().any(|set| set.column == *name)
}

fn is_bad_set(columns: &[Column], before: &[Set], set: &Set) -> bool
    ensures { result ≡ is_bad_set columns.now before.now set.now }
{
    kind_of(&set.column, columns).is_none()
        || is_first_column(&set.column, columns)
        || is_assigned(&set.column, before)
        || bad_right_side(columns, &set.column, &set.to)
}

// The position of the first bad assignment.
fn bad_set(columns: &[Column], sets: &[Set]) -> Option<u64>
    ensures { result ≡ bad_set_after columns.now [] sets.now }
{
    for i in 0..sets.len() {
        if is_bad_set(columns, &sets[..i], &sets[i]) {
            return Some(i as u64 + 1);
        }
    }
    None
}

fn bad_where(columns: &[Column], at: &KeyIs) -> Option<u64>
    ensures { result ≡ bad_where columns.now at.now }
{
    if is_first_column(&at.column, columns) {
        None
    } else {
        Some(0)
    }
}

/// The position, from 1, of the first bad value or assignment of a statement on a table with these columns, or 0
/// for a WHERE on another column than the first.
pub fn bad_value(columns: &[Column], statement: &Statement) -> Option<u64>
    ensures { result ≡ bad_value columns.now statement.now }
{
    match statement {
        Statement::Insert { values, .. } => bad_from(1, columns, values.as_slice()),
        Statement::Select { at: Some(at), .. } => bad_where(columns, at),
        Statement::Select { at: None, .. } => None,
        Statement::Update { sets, at, .. } => {
            if let Some(position) = bad_where(columns, at) {
                return Some(position);
            }
            bad_set(columns, sets.as_slice())
        }
        Statement::Delete { at, .. } => bad_where(columns, at),
        Statement::Begin | Statement::Commit | Statement::Rollback => None,
        Statement::Create { .. } => None,
        Statement::DropTable { .. } => None,
    }
}

// ---- an update

// A column's value in a row, as a number.
fn number_in(name: &Name, columns: &[Column], values: &[Value]) -> i64
    ensures { result ≡ number_in name.now columns.now values.now }
{
    let (Some((column, columns)), Some((value, values))) = (
        columns.split_first(),
        values.split_first(),
    ) else {
        return 0;
    };
    if *name != column.name {
        return number_in(name, columns, values);
    }
    match value {
        Value::Int(number) => *number,
        Value::Chars(_) => 0,
    }
}

fn sum_of(a: i64, b: i64) -> Option<Value>
    ensures { result ≡ sum_of a b }
{
    let sum = a.checked_add(b)?;
    Some(Value::Int(sum))
}

// What a right side gives, by the row as it was; none where a sum is out of range.
fn right_side(
    alloc: Global,
    columns: &[Column],
    old: &[Value],
    to: &SetTo,
) -> Result<Option<Value>, AllocError>
    ensures { IfOk result (λ new. new ≡ right_side columns.now old.now to.now) }
{
    match to {
        SetTo::Is(value) => Ok(Some(value.copy(alloc)?)),
        SetTo::Sum(other, number) => Ok(sum_of(number_in(other, columns, old), *number)),
    }
}

// The values, with this one in the column of the name.
fn with_value(
    alloc: Global,
    name: &Name,
    new: Value,
    columns: &[Column],
    values: &[Value],
) -> Result<Vec<Value>, AllocError>
    ensures { IfOk result (λ made. made.items ≡ with_value name.now new columns.now values.now) }
{
    let Some((column, columns)) = columns.split_first() else {
        return copy_all(alloc, values);
    };
    let Some((value, values)) = values.split_first() else {
        return Ok(Vec::new(alloc));
    };
    let (first, mut rest) = if column.name == *name {
        (new, copy_all(alloc, values)?)
    } else {
        (
            value.copy(alloc)?,
            with_value(alloc, name, new, columns, values)?,
        )
    };
    rest.insert(0, first)?;
    Ok(rest)
}

// The values with the assignments made, each by the row as it was before all of them.
fn assigned(
    alloc: Global,
    columns: &[Column],
    old: &[Value],
    sets: &[Set],
    values: &[Value],
) -> Result<Option<Vec<Value>>, AllocError>
    ensures { IfOk result (λ new. option_map (λ v. v.items) new ≡ assigned columns.now old.now sets.now values.now) }
{
    let Some((set, sets)) = sets.split_first() else {
        return Ok(Some(copy_all(alloc, values)?));
    };
    let Some(new) = right_side(alloc, columns, old, &set.to)? else {
        return Ok(None);
    };
    let values = with_value(alloc, &set.column, new, columns, values)?;
    assigned(alloc, columns, old, sets, &values)
}

/// The row that an update makes of a row; none where a sum isn't a whole number of 64 bits.
pub fn updated(
    alloc: Global,
    columns: &[Column],
    sets: &[Set],
    row: &Row,
) -> Result<Option<Row>, AllocError>
    ensures { IfOk result (λ new. new ≡ updated columns.now sets.now row.now) }
{
    let old = row.values.as_slice();
    let Some(values) = assigned(alloc, columns, old, sets, old)? else {
        return Ok(None);
    };
    Ok(Some(Row {
        values: List::from_vec(values),
    }))
}
