// The payload of a row: its values after the key, each in the width of its column.
ghost use Rattle.std.specs.Prelude.{◌≡◌, ◌≤◌, ◌<◌, ◌+◌, ◌-◌, ℕ, ℤ, replicate, List, ◌∷◌, ◌++◌, length, map, take, drop, IfOk, OnOk, IfErr, MatchResult};
ghost use Rattle.ctr_print.specs.types_Column.{Column};
ghost use Rattle.ctr_print.specs.types_Kind.TheVariants.{Chars};
ghost use Rattle.ctr_print.specs.types_Value.{Value};
ghost use Rattle.ctr_print.specs.ctr_model.Refusals.{key_of};
ghost use Rattle.ctr_value.specs.Values.{row_values};
ghost use Rattle.ctr_value.specs.declared.payload.PayloadError.TheVariants.{OutOfMemory};
ghost use Rattle.ctr_value.specs.Payload.{IsOf, AreOf, IsKeyed, IsRow, field_width as width_of_field, width as width_of_all, field_of, payload_of, IsField, IsPayload, IsRowOf, HasField, IsBadField, HasBadField, IsBadPayload, IsNoPayload};

use crate::said::row_by_kinds;
use ctr_bytes::put_i64;
use ctr_print::{Column, Kind, OutOfMemory as NoMemory, Row, Schema, Value};
use std::alloc::Global;

/// Why a payload isn't read.
#[derive(Clone, Copy, Debug, PartialEq, Eq)]
pub enum PayloadError {
    OutOfMemory,
    /// A place in the payload, what is wanted there and what is there.
    Bad { at: usize, want: usize, got: usize },
}

impl From<NoMemory> for PayloadError {
    ghost from_gives = { λ _ e. e ≡ OutOfMemory };

    fn from(_: NoMemory) -> PayloadError {
        PayloadError::OutOfMemory
    }
}

// The columns or values after the first.
fn behind_key<T>(items: &[T]) -> &[T]
    ensures { result.now ≡ drop 1 items.now }
{
    if items.is_empty() {
        return items;
    }
    &items[1..]
}

/// The bytes of a field of a column.
pub fn field_width(kind: Kind) -> usize
    ensures value { result ≡ width_of_field kind }
    ensures small { result ≤ 256 }
{
    match kind {
        Kind::Int => 8,
        Kind::Chars(most) => most as usize + 1,
    }
}

// The bytes of the fields of these columns.
fn fields_width(columns: &[Column]) -> usize
    requires { length columns.now ≤ 8 }
    ensures value { result ≡ width_of_all columns.now }
    ensures small { result ≤ 2048 }
{
    let mut total = 0;
    for i in 0..columns.len() {
        total += field_width(columns[i].kind);
    }
    total
}

/// The bytes of a payload, 455 at most.
pub fn width(schema: &Schema) -> usize
    requires { length schema.now.columns ≤ 8 }
    ensures value { result ≡ width_of_all (drop 1 schema.now.columns) }
    ensures small { result ≤ 2048 }
{
    fields_width(behind_key(schema.columns.as_slice()))
}

// Fills the room of a field with a value.
fn put_value(kind: Kind, value: &Value, into: &mut [u8])
    requires value { IsOf kind value.now }
    requires room { length into.old ≡ width_of_field kind }
    ensures { into.new ≡ field_of kind value.now }
{
    match value {
        Value::Int(number) => put_i64(into, 0, *number),
        Value::Chars(text) => put_text(text.as_slice(), into),
    }
}

/// Fills the room of a text: its length, its bytes and zeros.
pub fn put_text(text: &[u8], into: &mut [u8])
    requires fits { length text.now < length into.old }
    requires short { length text.now < 256 }
    ensures { into.new ≡ length text.now ∷ (text.now ++ replicate (length into.old - 1 - length text.now) 0) }
{
    into.fill(0);
    into[0] = text.len() as u8;
    into[1..text.len() + 1].copy_from_slice(text);
}

// Fills the room of the fields of these columns.
fn put_values(columns: &[Column], values: &[Value], into: &mut [u8])
    requires values { AreOf columns.now values.now }
    requires room { length into.old ≡ width_of_all columns.now }
    ensures { into.new ≡ payload_of columns.now values.now }
{
    let mut at = 0;
    for i in 0..columns.len() {
        let kind = columns[i].kind;
        let end = at + field_width(kind);
        put_value(kind, &values[i], &mut into[at..end]);
        at = end;
    }
}

/// Writes the payload of a row of the schema. It takes no memory.
pub fn encode_row(schema: &Schema, row: &Row, into: &mut [u8])
    requires row { IsRow schema.now.columns row.now.values }
    requires room { length into.old ≡ width_of_all (drop 1 schema.now.columns) }
    ensures { into.new ≡ payload_of (drop 1 schema.now.columns) (drop 1 row.now.values) }
{
    put_values(
        behind_key(schema.columns.as_slice()),
        behind_key(row.values.as_slice()),
        into,
    );
}

// Checks the text of a field at a place: it is no longer than its column.
fn check_text(most: u8, at: usize, payload: &[u8]) -> Result<(), PayloadError>
    requires { at + (most + 1) ≤ length payload.now }
    ensures passed { OnOk result (HasField (Chars most) at payload.now) }
    ensures refused { IfErr result (IsNoPayload (IsBadField (Chars most) at payload.now)) }
{
    let len = payload[at];
    if len > most {
        return Err(PayloadError::Bad {
            at,
            want: most as usize,
            got: len as usize,
        });
    }
    Ok(())
}

// Checks the field of a column at a place.
fn check_field(kind: Kind, at: usize, payload: &[u8]) -> Result<(), PayloadError>
    requires { at + width_of_field kind ≤ length payload.now }
    ensures passed { OnOk result (HasField kind at payload.now) }
    ensures refused { IfErr result (IsNoPayload (IsBadField kind at payload.now)) }
{
    match kind {
        Kind::Int => Ok(()),
        Kind::Chars(most) => check_text(most, at, payload),
    }
}

// Checks these columns' fields, which take all of the payload from a place on.
fn check_fields(columns: &[Column], at: usize, payload: &[u8]) -> Result<(), PayloadError>
    requires { at + width_of_all columns.now ≡ length payload.now }
    ensures passed { OnOk result ((vs : List Value) × AreOf columns.now vs × IsPayload columns.now vs (drop at payload.now)) }
    ensures refused { IfErr result (IsNoPayload (HasBadField columns.now at payload.now)) }
{
    let Some((column, others)) = columns.split_first() else {
        return Ok(());
    };
    check_field(column.kind, at, payload)?;
    check_fields(others, at + field_width(column.kind), payload)
}

// The kinds of these columns, with others behind them.
fn kinds_of(columns: &[Column]) -> [Kind; 8]
    requires { length columns.now ≤ 8 }
    ensures { take (length columns.now) result ≡ map (λ (c : Column). c.kind) columns.now }
{
    let mut kinds = [Kind::Int; 8];
    for i in 0..columns.len() {
        kinds[i] = columns[i].kind;
    }
    kinds
}

/// Reads the row of a key from its payload, which may be any bytes. What follows a text in its
/// room is not looked at.
pub fn decode_row(
    alloc: Global,
    schema: &Schema,
    key: i64,
    payload: &[u8],
) -> Result<Row, PayloadError>
    requires keyed { IsKeyed schema.now.columns }
    requires few { length schema.now.columns ≤ 8 }
    // The payload is the one of the row that is read.
    ensures found { IfOk result (λ row. IsRowOf schema.now.columns key payload.now row.values) }
    // The row whose payload it is is read, unless memory runs out.
    ensures only { (vs : List Value) → IsRowOf schema.now.columns key payload.now vs → MatchResult result (λ row. row.values ≡ vs) (λ e. e ≡ OutOfMemory) }
    // Other bytes are refused by what is bad in them.
    ensures refused { IfErr result (IsNoPayload (IsBadPayload (drop 1 schema.now.columns) payload.now)) }
{
    let columns = behind_key(schema.columns.as_slice());
    let want = fields_width(columns);
    if payload.len() != want {
        return Err(PayloadError::Bad {
            at: 0,
            want,
            got: payload.len(),
        });
    }
    check_fields(columns, 0, payload)?;
    let kinds = kinds_of(columns);
    let row = row_by_kinds(alloc, &kinds[..columns.len()], key, payload)?;
    Ok(row)
}

/// A row is determined by its key and its payload.
pub fn one_payload()
    ensures { (cs : List Column) (key : ℤ) (bytes : List ℕ) (vs ws : List Value) → IsRowOf cs key bytes vs → IsRowOf cs key bytes ws → vs ≡ ws }
{}

/// What is written for a row is its payload.
pub fn written_payload()
    ensures { (cs : List Column) (vs : List Value) → IsRow cs vs → IsRowOf cs (key_of vs) (payload_of (drop 1 cs) (drop 1 vs)) vs }
{}

/// The row of a payload is what the payload says.
pub fn said_by_payload()
    ensures { (cs : List Column) (key : ℤ) (bytes : List ℕ) (vs : List Value) → IsRowOf cs key bytes vs → vs ≡ row_values cs key bytes }
{}
