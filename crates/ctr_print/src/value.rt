// Values and rows on a sink.
ghost use Rattle.std.specs.Prelude.{List, ℕ, ◌++◌, codes};
ghost use Rattle.ctr_model.specs.Texts.{doubled, quoted, value_text, values_text, row_text, row_line};
ghost use Rattle.ctr_print.specs.Prints.{PrintsMore};

use crate::form::{Form, put_each};
use crate::pieces::put_number;
use crate::printer::Printer;
use ctr_io::{Row, Sink, Value};

// A byte of a text between quotes.
struct Doubled;

impl Form<u8> for Doubled {
    ghost text = { doubled };

    fn put<K: Sink>(out: &mut Printer<K>, byte: &u8) {
        if *byte == b'\'' {
            out.put(b"''");
        } else {
            out.put(&[*byte]);
        }
    }
}

/// Puts a text between quotes, each quote in it doubled.
pub fn put_quoted<K: Sink>(out: &mut Printer<K>, text: &[u8])
    ensures { PrintsMore K.Sink (quoted text.now) out.old out.new }
{
    out.put(b"'");
    put_each::<Doubled, u8, K>(out, text);
    out.put(b"'");
}

/// Puts a value: a number in decimal, or a text between quotes.
pub fn put_value<K: Sink>(out: &mut Printer<K>, value: &Value)
    ensures { PrintsMore K.Sink (value_text value.now) out.old out.new }
{
    match value {
        Value::Int(n) => put_number(out, *n),
        Value::Chars(text) => put_quoted(out, text.as_slice()),
    }
}

// A value behind another.
struct Following;

impl Form<Value> for Following {
    ghost text = { λ value. codes ", " ++ value_text value };

    fn put<K: Sink>(out: &mut Printer<K>, value: &Value) {
        out.put(b", ");
        put_value(out, value);
    }
}

/// Puts values with a comma and a blank between.
pub fn put_values<K: Sink>(out: &mut Printer<K>, values: &[Value])
    ensures { PrintsMore K.Sink (values_text values.now) out.old out.new }
{
    let Some((first, others)) = values.split_first() else {
        return;
    };
    put_value(out, first);
    put_each::<Following, Value, K>(out, others);
}

/// Puts a row: its values between brackets.
pub fn put_row<K: Sink>(out: &mut Printer<K>, row: &Row)
    ensures { PrintsMore K.Sink (row_text row.now) out.old out.new }
{
    out.put(b"(");
    put_values(out, row.values.as_slice());
    out.put(b")");
}

/// Puts a row on a line of its own, behind two blanks.
pub fn put_row_line<K: Sink>(out: &mut Printer<K>, row: &Row)
    ensures { PrintsMore K.Sink (row_line row.now) out.old out.new }
{
    out.put(b"  ");
    put_row(out, row);
    out.put(b"\n");
}
