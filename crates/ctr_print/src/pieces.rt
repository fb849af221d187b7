// Texts of several pieces on a sink.
ghost use Rattle.std.specs.Prelude.{[]};
ghost use Rattle.ctr_print.specs.Prints.{PrintsMore};
ghost use Rattle.ctr_print.specs.Pieces.{piece_text, joined};

use crate::form::{Form, put_each};
use crate::piece::Piece;
use crate::printer::Printer;
use ctr_io::Sink;
use itoa::{Buffer, Integer};

/// Puts a number in decimal.
pub fn put_number<I: Integer, K: Sink>(out: &mut Printer<K>, n: I)
    ensures { PrintsMore K.Sink (I.text n) out.old out.new }
{
    let mut buffer = Buffer::new();
    out.put(buffer.format(n).as_bytes());
}

struct Part;

impl<'a> Form<Piece<'a>> for Part {
    ghost text = { piece_text };

    fn put<K: Sink>(out: &mut Printer<K>, piece: &Piece<'a>) {
        match piece {
            Piece::Bytes(bytes) => out.put(bytes),
            Piece::Number(n) => put_number(out, *n),
            Piece::Wide(n) => put_number(out, *n),
            Piece::Signed(n) => put_number(out, *n),
            Piece::WideSigned(n) => put_number(out, *n),
        }
    }
}

/// Puts the pieces in order.
pub fn put_pieces<K: Sink>(out: &mut Printer<K>, pieces: &[Piece])
    ensures { PrintsMore K.Sink (joined [] pieces.now) out.old out.new }
{
    put_each::<Part, Piece, K>(out, pieces);
}
