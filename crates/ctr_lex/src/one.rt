// One token: the longest prefix of what follows that is a token.
ghost use Rattle.std.specs.Prelude.{◌+◌, ◌∷◌, MatchOption};
ghost use Rattle.ctr_model.specs.Places.{NoneBegins};
ghost use Rattle.ctr_lex.specs.One.{IsLongestToken};

use crate::bytes::{digits_len, is_digit, is_letter, is_printable, is_sign, word_len};

const QUOTE: u8 = b'\'';

// How long the text is whose first quote stands before these bytes, without that quote; none where
// no text ends. Where two quotes stand together and no quote follows that ends the text, it ends at
// the first of the two.
fn text_len(bytes: &[u8]) -> Option<usize>
    ensures { MatchOption result (NoneBegins (39 ∷ bytes.now)) (λ n. IsLongestToken (39 ∷ bytes.now) (1 + n)) }
{
    let mut closed = false;
    let mut end = None;
    for (i, byte) in bytes.iter().enumerate() {
        let quote = *byte == QUOTE;
        if closed && !quote || !is_printable(*byte) {
            return end;
        }
        closed = quote && !closed;
        if closed {
            end = Some(i + 1);
        }
    }
    end
}

// The same of a first byte and what follows it.
fn len_from(first: u8, rest: &[u8]) -> Option<usize>
    ensures { MatchOption result (NoneBegins (first ∷ rest.now)) (λ n. IsLongestToken (first ∷ rest.now) n) }
{
    if is_letter(first) {
        return Some(1 + word_len(rest));
    }
    if is_digit(first) {
        return Some(1 + digits_len(rest));
    }
    if first == b'-' {
        let digits = digits_len(rest);
        return if digits == 0 { None } else { Some(1 + digits) };
    }
    if first == QUOTE {
        return Some(1 + text_len(rest)?);
    }
    if is_sign(first) { Some(1) } else { None }
}

/// How long the longest token is that begins the bytes; none where none does.
pub(crate) fn token_len(bytes: &[u8]) -> Option<usize>
    ensures { MatchOption result (NoneBegins bytes.now) (λ n. IsLongestToken bytes.now n) }
{
    let (first, rest) = bytes.split_first()?;
    len_from(*first, rest)
}
