// The tokens of a line.
ghost use Rattle.std.specs.Prelude.{◌≡◌, ◌≤◌, ◌<◌, List, ℕ, None, length, take, IfOk, MatchOption};
ghost use Rattle.ctr_model.specs.Grammar.{Lexes};
ghost use Rattle.ctr_model.specs.Places.{IsBadAt};
ghost use Rattle.ctr_lex.specs.Tokens.{texts_of, StandFrom, AreAt};

use crate::bytes::blanks_len;
use crate::one::token_len;
use crate::token::{Token, Tokens};
use ctr_types::{List, OutOfMemory};
use std::alloc::Global;

/// The first tokens of a line, given without its end, and no more than so many. Each byte up to
/// their end is looked at a few times at most. Only memory can be wanting.
pub fn tokens(alloc: Global, line: &[u8], most: usize) -> Result<Tokens<'_>, OutOfMemory>
    ensures few { IfOk result (λ ts. (length ts.items ≤ most) × (length ts.items ≤ length line.now)) }
    // Fewer than so many are all: the line is the tokens with blanks between, or there is a first
    // byte at which none begins.
    ensures found { IfOk result (λ ts. length ts.items < most
        → MatchOption ts.bad (Lexes line.now (texts_of ts.items)) (λ i. IsBadAt line.now (texts_of ts.items) i)) }
    // Behind so many nothing is told.
    ensures full { IfOk result (λ ts. length ts.items ≡ most → ts.bad ≡ None) }
    // What lexes the line begins with what is found, so nothing lexes a line with a bad byte.
    ensures only { IfOk result (λ ts. (us : List (List ℕ)) → Lexes line.now us → (ts.bad ≡ None) × (texts_of ts.items ≡ take most us)) }
    // So do the tokens before a bad byte.
    ensures only_bad { IfOk result (λ ts. (us : List (List ℕ)) (i : ℕ) → IsBadAt line.now us i → texts_of ts.items ≡ take most us) }
    // Where each token stands.
    ensures places { IfOk result (λ ts. StandFrom 0 line.now ts.items) }
    // Each of them is the token that stands there, behind those before it.
    ensures at { IfOk result (λ ts. AreAt line.now ts.items) }
{
    let mut items = List::new(alloc);
    let mut rest = line;
    while items.len() < most {
        let (_, from) = rest.split_at(blanks_len(rest));
        if from.is_empty() {
            return Ok(Tokens { items, bad: None });
        }
        let at = line.len() - from.len();
        let Some(len) = token_len(from) else {
            return Ok(Tokens {
                items,
                bad: Some(at),
            });
        };
        let (text, after) = from.split_at(len);
        items.push(Token { text, at })?;
        rest = after;
    }
    Ok(Tokens { items, bad: None })
}
