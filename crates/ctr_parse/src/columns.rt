// The columns of a CREATE.
ghost use Rattle.std.specs.Prelude.{◌≡◌, ◌∷◌, ◌++◌, [], ℕ, Bool, List, codes};
ghost use Rattle.ctr_types.specs.declared.statement.Line.{Line};
ghost use Rattle.ctr_types.specs.declared.value.Column.{Column};
ghost use Rattle.ctr_types.specs.declared.value.Kind.{Kind};
ghost use Rattle.ctr_parse.specs.Trees.{Tree, outcome, Follows, one_then, fresh_of, room_of as room_meant, int_or_text as either_kind, keyword_then, kind_then, columns_then, schema_then};

use crate::clause::more;
use crate::cursor::{keyword, name, next, sign};
use crate::stop::Stop;
use crate::word::{fresh_in, int_or_text, room_of};
use ctr_lex::Token;
use ctr_types::{Column, Kind, List, Name, Schema};
use std::alloc::Global;

// Whether INT stands here, or TEXT.
fn is_int<'a>(tokens: &'a [Token<'a>]) -> Result<(bool, &'a [Token<'a>]), Stop>
    ensures { (k : Bool → Tree Line) → Follows (λ x. outcome (k x.0) x.1.now) result (outcome (one_then either_kind k) tokens.now) }
{
    let (token, rest) = next(tokens)?;
    let is_int = int_or_text(token.text).ok_or(Stop::Wrong(token.at))?;
    Ok((is_int, rest))
}

// The room of a text column.
fn room<'a>(tokens: &'a [Token<'a>]) -> Result<(u8, &'a [Token<'a>]), Stop>
    ensures { (k : ℕ → Tree Line) → Follows (λ x. outcome (k x.0) x.1.now) result (outcome (one_then room_meant k) tokens.now) }
{
    let (token, rest) = next(tokens)?;
    let room = room_of(token.text).ok_or(Stop::Wrong(token.at))?;
    Ok((room, rest))
}

// INT, or TEXT with its room.
#[tactic(auto, unfolding(crate::specs::Trees::kind_then))]
fn kind<'a>(tokens: &'a [Token<'a>]) -> Result<(Kind, &'a [Token<'a>]), Stop>
    ensures { (k : Kind → Tree Line) → Follows (λ x. outcome (k x.0) x.1.now) result (outcome (kind_then k) tokens.now) }
{
    let (is_int, rest) = is_int(tokens)?;
    if is_int {
        return Ok((Kind::Int, rest));
    }
    let rest = sign(rest, b'(')?;
    let (most, rest) = room(rest)?;
    let rest = sign(rest, b')')?;
    Ok((Kind::Chars(most), rest))
}

// A name that none of these columns has.
fn fresh<'a>(
    alloc: Global,
    columns: &[Column],
    tokens: &'a [Token<'a>],
) -> Result<(Name, &'a [Token<'a>]), Stop>
    ensures { (k : List ℕ → Tree Line) → Follows (λ x. outcome (k x.0) x.1.now) result (outcome (one_then (fresh_of columns.now) k) tokens.now) }
{
    let (token, rest) = next(tokens)?;
    let name = fresh_in(alloc, columns, token.text, token.at)?;
    Ok((name, rest))
}

// So many further columns at most behind those that were read, and the ).
#[tactic(auto, unfolding(crate::specs::Trees::columns_then))]
fn columns_from<'a>(
    alloc: Global,
    most: u8,
    columns: List<Column>,
    tokens: &'a [Token<'a>],
) -> Result<(List<Column>, &'a [Token<'a>]), Stop>
    ensures { (k : List Column → Tree Line) → Follows (λ x. outcome (k x.0) x.1.now) result (outcome (columns_then most columns k) tokens.now) }
{
    if most == 0 {
        return Ok((columns, sign(tokens, b')')?));
    }
    let (more, rest) = more(tokens)?;
    if !more {
        return Ok((columns, rest));
    }
    let (name, rest) = fresh(alloc, columns.as_slice(), rest)?;
    let (kind, rest) = kind(rest)?;
    let mut columns = columns;
    columns.push(Column { name, kind })?;
    columns_from(alloc, most - 1, columns, rest)
}

// INT PRIMARY KEY.
fn int_primary_key<'a>(tokens: &'a [Token<'a>]) -> Result<&'a [Token<'a>], Stop>
    ensures { (k : Tree Line) → Follows (λ x. outcome k x.now) result (outcome (keyword_then (codes "INT") (keyword_then (codes "PRIMARY") (keyword_then (codes "KEY") k))) tokens.now) }
{
    let rest = keyword(tokens, b"INT")?;
    let rest = keyword(rest, b"PRIMARY")?;
    keyword(rest, b"KEY")
}

/// The columns of a table, and the ).
#[tactic(auto, unfolding(crate::specs::Trees::schema_then))]
pub fn schema<'a>(alloc: Global, tokens: &'a [Token<'a>]) -> Result<(Schema, &'a [Token<'a>]), Stop>
    ensures { (k : List Column → Tree Line) → Follows (λ x. outcome (k x.0.columns) x.1.now) result (outcome (schema_then k) tokens.now) }
{
    let (name, rest) = name(alloc, tokens)?;
    let rest = int_primary_key(rest)?;
    let mut columns = List::new(alloc);
    columns.push(Column {
        name,
        kind: Kind::Int,
    })?;
    let (columns, rest) = columns_from(alloc, 7, columns, rest)?;
    Ok((Schema { columns }, rest))
}
