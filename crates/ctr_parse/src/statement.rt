// Statements and lines.
ghost use Rattle.std.specs.Prelude.{◌≡◌, [], ℕ, codes, List};
ghost use Rattle.ctr_types.specs.declared.value.Value.{Value};
ghost use Rattle.ctr_types.specs.declared.statement.KeyIs.{KeyIs};
ghost use Rattle.ctr_types.specs.declared.statement.Line.{Line};
ghost use Rattle.ctr_types.specs.declared.statement.Statement.{Statement};
ghost use Rattle.ctr_parse.specs.declared.word.Verb.{Verb};
ghost use Rattle.ctr_parse.specs.Trees.{Tree, read, outcome, Follows, one_then, keyword_then, sign_then, values_then, key_is_then, session_of as session_meant, verb_of as verb_meant, create_then, drop_then, insert_then, select_then, update_then, delete_then, verb_then, statement_then, alone as alone_tree, whole_line};

use crate::clause::{key_is, optional, sets, values};
use crate::columns::schema;
use crate::cursor::{end, keyword, name, next, sign};
use crate::stop::Stop;
use crate::word::{Verb, session_of, verb_of};
use ctr_lex::Token;
use ctr_types::{KeyIs, Line, List, Statement, Value};
use std::alloc::Global;

// Behind CREATE.
#[tactic(auto, unfolding(crate::specs::Trees::create_then))]
fn create<'a>(alloc: Global, tokens: &'a [Token<'a>]) -> Result<(Statement, &'a [Token<'a>]), Stop>
    ensures { (k : Statement → Tree Line) → Follows (λ x. outcome (k x.0) x.1.now) result (outcome (create_then k) tokens.now) }
{
    let rest = keyword(tokens, b"TABLE")?;
    let (table, rest) = name(alloc, rest)?;
    let rest = sign(rest, b'(')?;
    let (schema, rest) = schema(alloc, rest)?;
    Ok((Statement::Create { table, schema }, rest))
}

// Behind DROP.
#[tactic(auto, unfolding(crate::specs::Trees::drop_then))]
fn drop<'a>(alloc: Global, tokens: &'a [Token<'a>]) -> Result<(Statement, &'a [Token<'a>]), Stop>
    ensures { (k : Statement → Tree Line) → Follows (λ x. outcome (k x.0) x.1.now) result (outcome (drop_then k) tokens.now) }
{
    let rest = keyword(tokens, b"TABLE")?;
    let (table, rest) = name(alloc, rest)?;
    Ok((Statement::DropTable { table }, rest))
}

// VALUES and the values.
fn given<'a>(alloc: Global, tokens: &'a [Token<'a>]) -> Result<(List<Value>, &'a [Token<'a>]), Stop>
    ensures { (k : List Value → Tree Line) → Follows (λ x. outcome (k x.0) x.1.now) result (outcome (keyword_then (codes "VALUES") (sign_then 40 (values_then 7 [] k))) tokens.now) }
{
    let rest = keyword(tokens, b"VALUES")?;
    let rest = sign(rest, b'(')?;
    values(alloc, rest)
}

// Behind INSERT.
#[tactic(auto, unfolding(crate::specs::Trees::insert_then))]
fn insert<'a>(alloc: Global, tokens: &'a [Token<'a>]) -> Result<(Statement, &'a [Token<'a>]), Stop>
    ensures { (k : Statement → Tree Line) → Follows (λ x. outcome (k x.0) x.1.now) result (outcome (insert_then k) tokens.now) }
{
    let rest = keyword(tokens, b"INTO")?;
    let (table, rest) = name(alloc, rest)?;
    let (values, rest) = given(alloc, rest)?;
    Ok((Statement::Insert { table, values }, rest))
}

// Behind SELECT.
#[tactic(auto, unfolding(crate::specs::Trees::select_then))]
fn select<'a>(alloc: Global, tokens: &'a [Token<'a>]) -> Result<(Statement, &'a [Token<'a>]), Stop>
    ensures { (k : Statement → Tree Line) → Follows (λ x. outcome (k x.0) x.1.now) result (outcome (select_then k) tokens.now) }
{
    let rest = sign(tokens, b'*')?;
    let rest = keyword(rest, b"FROM")?;
    let (table, rest) = name(alloc, rest)?;
    let (at, rest) = optional(alloc, rest)?;
    Ok((Statement::Select { table, at }, rest))
}

// Behind UPDATE.
#[tactic(auto, unfolding(crate::specs::Trees::update_then))]
fn update<'a>(alloc: Global, tokens: &'a [Token<'a>]) -> Result<(Statement, &'a [Token<'a>]), Stop>
    ensures { (k : Statement → Tree Line) → Follows (λ x. outcome (k x.0) x.1.now) result (outcome (update_then k) tokens.now) }
{
    let (table, rest) = name(alloc, tokens)?;
    let rest = keyword(rest, b"SET")?;
    let (sets, rest) = sets(alloc, rest)?;
    let (at, rest) = key_is(alloc, rest)?;
    Ok((Statement::Update { table, sets, at }, rest))
}

// WHERE, a column and its value.
fn at_key<'a>(alloc: Global, tokens: &'a [Token<'a>]) -> Result<(KeyIs, &'a [Token<'a>]), Stop>
    ensures { (k : KeyIs → Tree Line) → Follows (λ x. outcome (k x.0) x.1.now) result (outcome (keyword_then (codes "WHERE") (key_is_then k)) tokens.now) }
{
    let rest = keyword(tokens, b"WHERE")?;
    key_is(alloc, rest)
}

// Behind DELETE.
#[tactic(auto, unfolding(crate::specs::Trees::delete_then))]
fn delete<'a>(alloc: Global, tokens: &'a [Token<'a>]) -> Result<(Statement, &'a [Token<'a>]), Stop>
    ensures { (k : Statement → Tree Line) → Follows (λ x. outcome (k x.0) x.1.now) result (outcome (delete_then k) tokens.now) }
{
    let rest = keyword(tokens, b"FROM")?;
    let (table, rest) = name(alloc, rest)?;
    let (at, rest) = at_key(alloc, rest)?;
    Ok((Statement::Delete { table, at }, rest))
}

// The word that begins a statement.
fn verb<'a>(tokens: &'a [Token<'a>]) -> Result<(Verb, &'a [Token<'a>]), Stop>
    ensures { (k : Verb → Tree Line) → Follows (λ x. outcome (k x.0) x.1.now) result (outcome (one_then verb_meant k) tokens.now) }
{
    let (token, rest) = next(tokens)?;
    let verb = verb_of(token.text).ok_or(Stop::Wrong(token.at))?;
    Ok((verb, rest))
}

// A statement.
#[tactic(auto, unfolding(crate::specs::Trees::statement_then))]
fn statement<'a>(
    alloc: Global,
    tokens: &'a [Token<'a>],
) -> Result<(Statement, &'a [Token<'a>]), Stop>
    ensures { (k : Statement → Tree Line) → Follows (λ x. outcome (k x.0) x.1.now) result (outcome (statement_then k) tokens.now) }
{
    let (verb, rest) = verb(tokens)?;
    match verb {
        Verb::Begin => Ok((Statement::Begin, rest)),
        Verb::Commit => Ok((Statement::Commit, rest)),
        Verb::Rollback => Ok((Statement::Rollback, rest)),
        Verb::Create => create(alloc, rest),
        Verb::Remove => drop(alloc, rest),
        Verb::Insert => insert(alloc, rest),
        Verb::Select => select(alloc, rest),
        Verb::Update => update(alloc, rest),
        Verb::Delete => delete(alloc, rest),
    }
}

/// A statement alone.
#[tactic(auto, unfolding(crate::specs::Trees::alone))]
pub fn alone(alloc: Global, tokens: &[Token<'_>]) -> Result<Statement, Stop>
    ensures { Follows (λ s. read (record { session = 1; statement = s })) result (outcome alone_tree tokens.now) }
{
    let (statement, rest) = statement(alloc, tokens)?;
    end(statement, rest)
}

// A session's number.
fn session<'a>(tokens: &'a [Token<'a>]) -> Result<(u8, &'a [Token<'a>]), Stop>
    ensures { (k : ℕ → Tree Line) → Follows (λ x. outcome (k x.0) x.1.now) result (outcome (one_then session_meant k) tokens.now) }
{
    let (token, rest) = next(tokens)?;
    let session = session_of(token.text).ok_or(Stop::Wrong(token.at))?;
    Ok((session, rest))
}

/// A session's number, >, a statement and ;.
#[tactic(auto, unfolding(crate::specs::Trees::whole_line))]
pub fn line(alloc: Global, tokens: &[Token<'_>]) -> Result<Line, Stop>
    ensures { Follows (λ l. read l) result (outcome whole_line tokens.now) }
{
    let (session, rest) = session(tokens)?;
    let rest = sign(rest, b'>')?;
    let (statement, rest) = statement(alloc, rest)?;
    let rest = sign(rest, b';')?;
    end(Line { session, statement }, rest)
}
