// Refusals on a sink.
ghost use Rattle.std.specs.Prelude.{◌≡◌, ◌++◌, MatchOption};
ghost use Rattle.std.specs.Fmt.{decimal};
ghost use Rattle.ctr_model.specs.Texts.{refusal_text};
ghost use Rattle.ctr_print.specs.Prints.{PrintsMore};

use crate::piece::Piece;
use crate::pieces::put_pieces;
use crate::printer::Printer;
use ctr_io::{Refusal, Sink};

// The words of a refusal, and the number behind them where it has one.
fn words_of(refusal: Refusal) -> (&'static [u8], Option<u64>)
    ensures { MatchOption result.1 (result.0.now ≡ refusal_text refusal) (λ n. result.0.now ++ decimal n ≡ refusal_text refusal) }
{
    match refusal {
        Refusal::NoTransaction => (b"NoTransaction", None),
        Refusal::InTransaction => (b"InTransaction", None),
        Refusal::NoTable => (b"NoTable", None),
        Refusal::TableExists => (b"TableExists", None),
        Refusal::TableBusy { by: 0 } => (b"TableBusy by recovery", None),
        Refusal::TableBusy { by } => (b"TableBusy by ", Some(u64::from(by))),
        Refusal::SchemaChanged { commit } => (b"SchemaChanged by commit ", Some(commit)),
        Refusal::BadValue { at } => (b"BadValue ", Some(at)),
        Refusal::RowLocked { by } => (b"RowLocked by ", Some(u64::from(by))),
        Refusal::RowChanged { commit } => (b"RowChanged by commit ", Some(commit)),
        Refusal::OutOfMemory => (b"OutOfMemory", None),
        Refusal::Duplicate => (b"Duplicate", None),
        Refusal::NotFound => (b"NotFound", None),
        Refusal::OutOfRange => (b"OutOfRange", None),
        Refusal::CatalogFull { limit } => (b"CatalogFull ", Some(u64::from(limit))),
        Refusal::Full { limit } => (b"Full ", Some(u64::from(limit))),
    }
}

/// Puts why an act was refused.
pub fn put_refusal<K: Sink>(out: &mut Printer<K>, refusal: Refusal)
    ensures { PrintsMore K.Sink (refusal_text refusal) out.old out.new }
{
    match words_of(refusal) {
        (words, None) => out.put(words),
        (words, Some(number)) => put_pieces(out, &[Piece::Bytes(words), Piece::Number(number)]),
    }
}
