// The row that a payload says, by the kinds of its columns, whatever bytes it has.
ghost use Rattle.std.specs.Prelude.{◌≡◌, ◌≤◌, ◌++◌, length, take, drop, IfOk, OnOk};
ghost use Rattle.ctr_bytes.specs.Fields.{field as field_of};
ghost use Rattle.ctr_value.specs.Payload.{field_width as width_of_field, kinds_width as width_of_kinds};
ghost use Rattle.ctr_value.specs.Values.{value_said, values_of, row_by_kinds};

use crate::payload::field_width;
use ctr_bytes::{get_i64, get_u8};
use ctr_print::{Kind, List, OutOfMemory, Row, Text, Value};
use std::alloc::Global;

/// The text of a field, of as many bytes as its first one says.
fn text_in(alloc: Global, field: &[u8]) -> Result<Text, OutOfMemory>
    requires some { 1 ≤ length field.now }
    ensures { IfOk result (λ text. text ≡ take (field_of 1 0 field.now) (drop 1 field.now)) }
{
    let said = get_u8(field, 0) as usize;
    let room = &field[1..];
    if said < room.len() {
        return Ok(Text::from_slice(alloc, &room[..said])?);
    }
    Ok(Text::from_slice(alloc, room)?)
}

/// The value of the first field of some.
fn value_in(alloc: Global, kind: Kind, fields: &[u8]) -> Result<Value, OutOfMemory>
    requires room { width_of_field kind ≤ length fields.now }
    ensures { IfOk result (λ v. v ≡ value_said kind fields.now) }
{
    match kind {
        Kind::Int => Ok(Value::Int(get_i64(fields, 0))),
        Kind::Chars(_) => Ok(Value::Chars(text_in(alloc, fields)?)),
    }
}

/// Adds the values of fields of these kinds.
fn add_values(
    alloc: Global,
    kinds: &[Kind],
    fields: &[u8],
    values: &mut Vec<Value>,
) -> Result<(), OutOfMemory>
    requires room { width_of_kinds kinds.now ≤ length fields.now }
    ensures { OnOk result (values.new.items ≡ values.old.items ++ values_of kinds.now fields.now) }
{
    let Some((kind, others)) = kinds.split_first() else {
        return Ok(());
    };
    values.push(value_in(alloc, *kind, fields)?)?;
    add_values(alloc, others, &fields[field_width(*kind)..], values)
}

/// The row of a key whose columns behind it are of these kinds, at most 7, by its payload, which may be
/// any bytes that have their width or more. A text has as many bytes as its length says, where so many
/// follow. It fails for want of memory alone.
pub fn row_by_kinds(
    alloc: Global,
    kinds: &[Kind],
    key: i64,
    payload: &[u8],
) -> Result<Row, OutOfMemory>
    requires few { length kinds.now ≤ 7 }
    requires room { width_of_kinds kinds.now ≤ length payload.now }
    ensures { IfOk result (λ row. row ≡ row_by_kinds kinds.now key payload.now) }
{
    let mut values = Vec::with_capacity(alloc, kinds.len() + 1)?;
    values.push(Value::Int(key))?;
    add_values(alloc, kinds, payload, &mut values)?;
    Ok(Row {
        values: List::from_vec(values),
    })
}
