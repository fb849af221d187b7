// Parts of statements: WHERE, values and assignments.
ghost use Rattle.std.specs.Prelude.{◌≡◌, ◌∷◌, ◌++◌, [], Bool, List, Option, Some, None, IfOk, MatchOption, codes};
ghost use Rattle.ctr_types.specs.declared.statement.Line.{Line};
ghost use Rattle.ctr_types.specs.declared.statement.KeyIs.{KeyIs};
ghost use Rattle.ctr_types.specs.declared.statement.Set.{Set};
ghost use Rattle.ctr_types.specs.declared.statement.SetTo.{SetTo};
ghost use Rattle.ctr_types.specs.declared.value.Value.{Value};
ghost use Rattle.ctr_parse.specs.Trees.{Tree, outcome, Follows, one_then, or_then, keyword_of, literal_of, right_of, right_then, comma_or_end as comma_or_closed, comma_or_where as comma_or_key, key_is_then, optional_then, values_then, set_then, sets_then};

use crate::cursor::{int, keyword, name, next, sign};
use crate::names::is_spelled;
use crate::stop::Stop;
use crate::word::{Right, comma_or_end, comma_or_where, literal_in, right_in};
use ctr_lex::Token;
use ctr_types::{KeyIs, List, Set, SetTo, Value};
use std::alloc::{AllocError, Global};

/// Behind WHERE: a column and its value.
#[tactic(auto, unfolding(crate::specs::Trees::key_is_then))]
pub fn key_is<'a>(alloc: Global, tokens: &'a [Token<'a>]) -> Result<(KeyIs, &'a [Token<'a>]), Stop>
    ensures { (k : KeyIs → Tree Line) → Follows (λ x. outcome (k x.0) x.1.now) result (outcome (key_is_then k) tokens.now) }
{
    let (column, rest) = name(alloc, tokens)?;
    let rest = sign(rest, b'=')?;
    let (key, rest) = int(rest)?;
    Ok((KeyIs { column, key }, rest))
}

// What stands behind WHERE, where that stands here.
#[tactic(auto, unfolding(crate::specs::Trees::keyword_of))]
fn behind_where<'a>(tokens: &'a [Token<'a>]) -> Option<&'a [Token<'a>]>
    ensures { (k other : Tree Line) → MatchOption result
        (outcome (or_then (keyword_of (codes "WHERE")) (λ _. k) other) tokens.now ≡ outcome other tokens.now)
        (λ rest. outcome (or_then (keyword_of (codes "WHERE")) (λ _. k) other) tokens.now ≡ outcome k rest.now) }
{
    let (first, rest) = tokens.split_first()?;
    if is_spelled(b"WHERE", first.text) {
        Some(rest)
    } else {
        None
    }
}

// Behind a WHERE that needn't be there.
fn some_key<'a>(
    alloc: Global,
    tokens: &'a [Token<'a>],
) -> Result<(Option<KeyIs>, &'a [Token<'a>]), Stop>
    ensures { (k : Option KeyIs → Tree Line) → Follows (λ x. outcome (k x.0) x.1.now) result (outcome (key_is_then (λ at. k (Some at))) tokens.now) }
{
    let (at, rest) = key_is(alloc, tokens)?;
    Ok((Some(at), rest))
}

/// WHERE with what stands behind it, or nothing.
#[tactic(auto, unfolding(crate::specs::Trees::optional_then))]
pub fn optional<'a>(
    alloc: Global,
    tokens: &'a [Token<'a>],
) -> Result<(Option<KeyIs>, &'a [Token<'a>]), Stop>
    ensures { (k : Option KeyIs → Tree Line) → Follows (λ x. outcome (k x.0) x.1.now) result (outcome (optional_then k) tokens.now) }
{
    let Some(rest) = behind_where(tokens) else {
        return Ok((None, tokens));
    };
    some_key(alloc, rest)
}

// A value.
fn literal<'a>(alloc: Global, tokens: &'a [Token<'a>]) -> Result<(Value, &'a [Token<'a>]), Stop>
    ensures { (k : Value → Tree Line) → Follows (λ x. outcome (k x.0) x.1.now) result (outcome (one_then literal_of k) tokens.now) }
{
    let (token, rest) = next(tokens)?;
    let value = literal_in(alloc, token.text, token.at)?;
    Ok((value, rest))
}

/// Whether a comma stands here, or a ).
pub fn more<'a>(tokens: &'a [Token<'a>]) -> Result<(bool, &'a [Token<'a>]), Stop>
    ensures { (k : Bool → Tree Line) → Follows (λ x. outcome (k x.0) x.1.now) result (outcome (one_then comma_or_closed k) tokens.now) }
{
    let (token, rest) = next(tokens)?;
    let more = comma_or_end(token.text).ok_or(Stop::Wrong(token.at))?;
    Ok((more, rest))
}

// So many further values at most behind the next one and those that were read, and the ).
#[tactic(auto, unfolding(crate::specs::Trees::values_then))]
fn values_from<'a>(
    alloc: Global,
    most: u8,
    values: List<Value>,
    tokens: &'a [Token<'a>],
) -> Result<(List<Value>, &'a [Token<'a>]), Stop>
    ensures { (k : List Value → Tree Line) → Follows (λ x. outcome (k x.0) x.1.now) result (outcome (values_then most values k) tokens.now) }
{
    let (one, rest) = literal(alloc, tokens)?;
    let mut values = values;
    values.push(one)?;
    if most == 0 {
        return Ok((values, sign(rest, b')')?));
    }
    let (more, rest) = more(rest)?;
    if !more {
        return Ok((values, rest));
    }
    values_from(alloc, most - 1, values, rest)
}

/// 1 to 8 values with commas between, and the ).
pub fn values<'a>(
    alloc: Global,
    tokens: &'a [Token<'a>],
) -> Result<(List<Value>, &'a [Token<'a>]), Stop>
    ensures { (k : List Value → Tree Line) → Follows (λ x. outcome (k x.0) x.1.now) result (outcome (values_then 7 [] k) tokens.now) }
{
    values_from(alloc, 7, List::new(alloc), tokens)
}

// What the right side of an assignment begins with.
fn begun<'a>(alloc: Global, tokens: &'a [Token<'a>]) -> Result<(Right, &'a [Token<'a>]), Stop>
    ensures { (k : Right → Tree Line) → Follows (λ x. outcome (k x.0) x.1.now) result (outcome (one_then right_of k) tokens.now) }
{
    let (token, rest) = next(tokens)?;
    let right = right_in(alloc, token.text, token.at)?;
    Ok((right, rest))
}

// The right side of an assignment.
#[tactic(auto, unfolding(crate::specs::Trees::right_then))]
fn right<'a>(alloc: Global, tokens: &'a [Token<'a>]) -> Result<(SetTo, &'a [Token<'a>]), Stop>
    ensures { (k : SetTo → Tree Line) → Follows (λ x. outcome (k x.0) x.1.now) result (outcome (right_then k) tokens.now) }
{
    let (right, rest) = begun(alloc, tokens)?;
    match right {
        Right::Is(value) => Ok((SetTo::Is(value), rest)),
        Right::Of(column) => {
            let rest = sign(rest, b'+')?;
            let (number, rest) = int(rest)?;
            Ok((SetTo::Sum(column, number), rest))
        }
    }
}

// An assignment.
#[tactic(auto, unfolding(crate::specs::Trees::set_then))]
fn set<'a>(alloc: Global, tokens: &'a [Token<'a>]) -> Result<(Set, &'a [Token<'a>]), Stop>
    ensures { (k : Set → Tree Line) → Follows (λ x. outcome (k x.0) x.1.now) result (outcome (set_then k) tokens.now) }
{
    let (column, rest) = name(alloc, tokens)?;
    let rest = sign(rest, b'=')?;
    let (to, rest) = right(alloc, rest)?;
    Ok((Set { column, to }, rest))
}

// Whether a comma stands here, or WHERE.
fn another<'a>(tokens: &'a [Token<'a>]) -> Result<(bool, &'a [Token<'a>]), Stop>
    ensures { (k : Bool → Tree Line) → Follows (λ x. outcome (k x.0) x.1.now) result (outcome (one_then comma_or_key k) tokens.now) }
{
    let (token, rest) = next(tokens)?;
    let more = comma_or_where(token.text).ok_or(Stop::Wrong(token.at))?;
    Ok((more, rest))
}

// So many further assignments at most behind the next one and those that were read, and WHERE.
#[tactic(auto, unfolding(crate::specs::Trees::sets_then))]
fn sets_from<'a>(
    alloc: Global,
    most: u8,
    sets: List<Set>,
    tokens: &'a [Token<'a>],
) -> Result<(List<Set>, &'a [Token<'a>]), Stop>
    ensures { (k : List Set → Tree Line) → Follows (λ x. outcome (k x.0) x.1.now) result (outcome (sets_then most sets k) tokens.now) }
{
    let (one, rest) = set(alloc, tokens)?;
    let mut sets = sets;
    sets.push(one)?;
    if most == 0 {
        return Ok((sets, keyword(rest, b"WHERE")?));
    }
    let (more, rest) = another(rest)?;
    if !more {
        return Ok((sets, rest));
    }
    sets_from(alloc, most - 1, sets, rest)
}

// Room for as many assignments as commas stand here, and one more. A list that grows by itself takes
// room for eight at its fifth.
fn room_for_sets(alloc: Global, tokens: &[Token<'_>]) -> Result<List<Set>, AllocError>
    ensures { IfOk result (λ sets. sets ≡ []) }
{
    let mut room = 1;
    for token in tokens {
        if room < 8 && token.text == b",".as_slice() {
            room += 1;
        }
    }
    Ok(List::from_vec(Vec::with_capacity(alloc, room)?))
}

/// 1 to 8 assignments with commas between, and WHERE.
pub fn sets<'a>(
    alloc: Global,
    tokens: &'a [Token<'a>],
) -> Result<(List<Set>, &'a [Token<'a>]), Stop>
    ensures { (k : List Set → Tree Line) → Follows (λ x. outcome (k x.0) x.1.now) result (outcome (sets_then 7 [] k) tokens.now) }
{
    sets_from(alloc, 7, room_for_sets(alloc, tokens)?, tokens)
}
