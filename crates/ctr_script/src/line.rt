// One line, without its end.
ghost use Rattle.std.specs.Prelude.{◌≡◌, ◌<◌, ◌↔◌, ◌∷◌, ℕ, List, IsTrue, length, slice_index, take, MatchOption};
ghost use Rattle.std.specs.List.{AllByRecursion};
ghost use Rattle.ctr_model.specs.Grammar.{IsBlank};
ghost use Rattle.ctr_model.specs.Lines.{IsComment, IsPlain};
ghost use Rattle.ctr_script.specs.Written.{LineSays};

use crate::error::ScriptError;
use ctr_lex::blanks_len;
use ctr_parse::{ParseRefusal, parse_line};
use ctr_types::Line;
use std::alloc::Global;

// Whether a line is of blanks alone.
fn is_skipped(line: &[u8]) -> bool
    ensures { IsTrue result ↔ AllByRecursion IsBlank line.now }
{
    line.iter().all(|byte| *byte == b' ' || *byte == b'\t')
}

// Printable, or a tab.
fn is_plain(byte: u8) -> bool
    ensures { IsTrue result ↔ IsPlain byte }
{
    b' ' <= byte && byte <= b'~' || byte == b'\t'
}

// The first byte that is neither printable nor a tab.
fn unplain(line: &[u8]) -> Option<usize>
    ensures { MatchOption result (AllByRecursion IsPlain line.now)
        (λ i. (i < length line.now) × AllByRecursion IsPlain (take i line.now) × (IsPlain (slice_index line.now i) → ⊥)) }
{
    for (i, byte) in line.iter().enumerate() {
        if !is_plain(*byte) {
            return Some(i);
        }
    }
    None
}

// Whether they begin with --.
fn are_dashes(bytes: &[u8]) -> bool
    ensures { IsTrue result ↔ ((more : List ℕ) × (bytes.now ≡ 45 ∷ 45 ∷ more)) }
{
    let Some((first, more)) = bytes.split_first() else {
        return false;
    };
    let Some((second, _)) = more.split_first() else {
        return false;
    };
    *first == b'-' && *second == b'-'
}

// Whether the first two bytes that aren't blanks are --.
fn is_comment(line: &[u8]) -> bool
    ensures { IsTrue result ↔ IsComment line.now }
{
    let (_, rest) = line.split_at(blanks_len(line));
    are_dashes(rest)
}

/// What a line of this number says: a statement or nothing.
pub fn said(alloc: Global, line: &[u8], number: u64) -> Result<Option<Line>, ScriptError>
    ensures { LineSays line.now number result }
{
    if is_skipped(line) {
        return Ok(None);
    }
    if is_comment(line) {
        return match unplain(line) {
            None => Ok(None),
            Some(i) => Err(ScriptError::Refused {
                line: number,
                at: i as u64 + 1,
            }),
        };
    }
    match parse_line(alloc, line) {
        Ok(line) => Ok(Some(line)),
        Err(ParseRefusal::OutOfMemory) => Err(ScriptError::OutOfMemory),
        Err(ParseRefusal::ParseError { at }) => Err(ScriptError::Refused {
            line: number,
            at: at as u64,
        }),
    }
}
