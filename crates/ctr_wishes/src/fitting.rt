// Whether values are those of a row of some columns.
ghost use Rattle.std.specs.Prelude.{◌≡◌, ◌<◌, ◌+◌, ◌^◌, true, None, FitsSigned, length};
ghost use Rattle.std.specs.Int.{w64};
ghost use Rattle.ctr_model.specs.Refusals.{fits, bad_from};
ghost use Rattle.ctr_value.specs.Payload.{AreOf, IsOf};

use ctr_types::{Column, Kind, Value};

// What the type of a number says of it. A call does nothing: what it ensures is the law.
fn a_number_has_64_bits(number: i64)
    ensures { FitsSigned w64 number }
{}

// Whether a value is of a column's kind, as the model has it; and then it has a field.
fn suits(kind: Kind, value: &Value) -> bool
    ensures fits { result ≡ fits kind value.now }
    ensures is { fits kind value.now ≡ true → IsOf kind value.now }
{
    match (kind, value) {
        (Kind::Int, Value::Int(number)) => {
            a_number_has_64_bits(*number);
            true
        }
        (Kind::Chars(most), Value::Chars(text)) => text.len() <= most as usize,
        (Kind::Int, Value::Chars(_)) => false,
        (Kind::Chars(_), Value::Int(_)) => false,
    }
}

/// The position of the first value that doesn't suit its column, or that is missing or surplus, where the first one has this position.
pub(crate) fn bad_from(at: u64, columns: &[Column], values: &[Value]) -> Option<u64>
    requires { at + length values.now < 2 ^ 64 }
    ensures is { result ≡ bad_from at columns.now values.now }
    // Where there is none, they have a payload.
    ensures are { bad_from at columns.now values.now ≡ None → AreOf columns.now values.now }
{
    match (columns.split_first(), values.split_first()) {
        (None, None) => None,
        (None, Some(_)) => Some(at),
        (Some(_), None) => Some(at),
        (Some((column, columns)), Some((value, values))) => {
            if suits(column.kind, value) {
                bad_from(at + 1, columns, values)
            } else {
                Some(at)
            }
        }
    }
}
