// One token. Each function says how reading goes on behind it, whatever may follow.
ghost use Rattle.std.specs.Prelude.{◌≡◌, ◌∷◌, [], ℕ, ℤ, List, IfOk, MatchResult};
ghost use Rattle.ctr_types.specs.declared.statement.Line.{Line};
ghost use Rattle.ctr_parse.specs.Trees.{Tree, read, outcome, Follows, done, keyword_then, sign_then, name_then, int_then};

use crate::names::is_spelled;
use crate::numeral::int_of;
use crate::stop::Stop;
use crate::word::name_in;
use ctr_lex::Token;
use ctr_types::Name;
use std::alloc::Global;

/// The next token, and those behind it.
pub fn next<'a>(tokens: &'a [Token<'a>]) -> Result<(Token<'a>, &'a [Token<'a>]), Stop>
    ensures { MatchResult result (λ x. tokens.now ≡ x.0 ∷ x.1.now) (λ e. (e ≡ Stop.Missing) × (tokens.now ≡ [])) }
{
    let (first, rest) = tokens.split_first().ok_or(Stop::Missing)?;
    Ok((*first, rest))
}

/// A whole number of 64 bits.
#[tactic(auto, unfolding(crate::specs::Trees::int_then))]
pub fn int<'a>(tokens: &'a [Token<'a>]) -> Result<(i64, &'a [Token<'a>]), Stop>
    ensures { (k : ℤ → Tree Line) → Follows (λ x. outcome (k x.0) x.1.now) result (outcome (int_then k) tokens.now) }
{
    let (token, rest) = next(tokens)?;
    let number = int_of(token.text).ok_or(Stop::Wrong(token.at))?;
    Ok((number, rest))
}

/// A token of one byte.
#[tactic(auto, unfolding(crate::specs::Trees::sign_then, crate::specs::Trees::sign_of))]
pub fn sign<'a>(tokens: &'a [Token<'a>], byte: u8) -> Result<&'a [Token<'a>], Stop>
    ensures { (k : Tree Line) → Follows (λ x. outcome k x.now) result (outcome (sign_then byte k) tokens.now) }
{
    let (token, rest) = next(tokens)?;
    if token.text == [byte].as_slice() {
        Ok(rest)
    } else {
        Err(Stop::Wrong(token.at))
    }
}

/// A keyword, in any case.
#[tactic(auto, unfolding(crate::specs::Trees::keyword_then, crate::specs::Trees::keyword_of))]
pub fn keyword<'a>(tokens: &'a [Token<'a>], keyword: &[u8]) -> Result<&'a [Token<'a>], Stop>
    ensures { (k : Tree Line) → Follows (λ x. outcome k x.now) result (outcome (keyword_then keyword.now k) tokens.now) }
{
    let (token, rest) = next(tokens)?;
    if is_spelled(keyword, token.text) {
        Ok(rest)
    } else {
        Err(Stop::Wrong(token.at))
    }
}

/// A name.
#[tactic(auto, unfolding(crate::specs::Trees::name_then))]
pub fn name<'a>(alloc: Global, tokens: &'a [Token<'a>]) -> Result<(Name, &'a [Token<'a>]), Stop>
    ensures { (k : List ℕ → Tree Line) → Follows (λ x. outcome (k x.0) x.1.now) result (outcome (name_then k) tokens.now) }
{
    let (token, rest) = next(tokens)?;
    let name = name_in(alloc, token.text, token.at)?;
    Ok((name, rest))
}

/// What was read, where nothing more follows.
pub fn end<T: Drop>(item: T, tokens: &[Token<'_>]) -> Result<T, Stop>
    ensures follows { (l : Line) → Follows (λ _. read l) result (outcome (done l) tokens.now) }
    ensures same { IfOk result (λ x. x ≡ item) }
{
    match tokens.first() {
        Some(token) => Err(Stop::Wrong(token.at)),
        None => Ok(item),
    }
}
