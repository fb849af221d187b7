// What a token means in its place.
ghost use Rattle.std.specs.Prelude.{◌≡◌, ◌≢◌, ◌∷◌, [], MatchOption, length, map};
ghost use Rattle.ctr_types.specs.declared.value.Column.{Column};
ghost use Rattle.ctr_model.specs.State.{has_name as is_in, same_name};
ghost use Rattle.ctr_parse.specs.Trees.{Means, name_of as name_meant, fresh_of, literal_of, right_of, comma_or_end as comma_or_closed, comma_or_where as comma_or_key, int_or_text as either_kind, room_of as room_meant, verb_of as verb_meant, session_of as session_meant};

use crate::names::{is_name, is_spelled};
use crate::numeral::int_of;
use crate::quoted::text_of;
use crate::stop::Stop;
use ctr_types::{Column, Name, Text, Value};
use std::alloc::Global;

/// The word that begins a statement.
#[derive(Clone, Copy, Debug, PartialEq, Eq)]
pub enum Verb {
    Begin,
    Commit,
    Rollback,
    Create,
    Remove,
    Insert,
    Select,
    Update,
    Delete,
}

/// What an assignment's right side begins with.
#[derive(Debug, Drop)]
pub enum Right {
    Is(Value),
    Of(Name),
}

/// The name that a token at this place is.
#[tactic(auto, unfolding(crate::specs::Trees::name_of))]
pub fn name_in(alloc: Global, text: &[u8], at: usize) -> Result<Name, Stop>
    ensures { Means (name_meant text.now) at result }
{
    if !is_name(text) {
        return Err(Stop::Wrong(at));
    }
    let Some(name) = Name::new(Text::from_slice(alloc, text)?) else {
        unreachable!()
    };
    Ok(name)
}

// Whether the column has this name.
fn bears(column: &Column, name: &[u8]) -> bool
    ensures { result ≡ same_name column.now.name name.now }
{
    column.name.as_slice() == name
}

/// Whether a column has this name.
pub fn has_name(name: &[u8], columns: &[Column]) -> bool
    ensures { result ≡ is_in name.now (map (λ c. c.name) columns.now) }
{
    columns.iter().any(|column| bears(column, name))
}

/// A name that none of these columns has.
#[tactic(auto, unfolding(crate::specs::Trees::fresh_of, crate::specs::Trees::name_of))]
pub fn fresh_in(alloc: Global, columns: &[Column], text: &[u8], at: usize) -> Result<Name, Stop>
    ensures { Means (fresh_of columns.now text.now) at result }
{
    if has_name(text, columns) {
        return Err(Stop::Wrong(at));
    }
    name_in(alloc, text, at)
}

/// The value that a token at this place is.
#[tactic(auto, unfolding(crate::specs::Trees::literal_of))]
pub fn literal_in(alloc: Global, text: &[u8], at: usize) -> Result<Value, Stop>
    ensures { Means (literal_of text.now) at result }
{
    if let Some(number) = int_of(text) {
        return Ok(Value::Int(number));
    }
    match text_of(alloc, text)? {
        Some(chars) => Ok(Value::Chars(chars)),
        None => Err(Stop::Wrong(at)),
    }
}

/// What the right side of an assignment begins with.
#[tactic(auto, unfolding(crate::specs::Trees::right_of))]
pub fn right_in(alloc: Global, text: &[u8], at: usize) -> Result<Right, Stop>
    ensures { Means (right_of text.now) at result }
{
    match literal_in(alloc, text, at) {
        Ok(value) => Ok(Right::Is(value)),
        Err(Stop::OutOfMemory) => Err(Stop::OutOfMemory),
        Err(_) => Ok(Right::Of(name_in(alloc, text, at)?)),
    }
}

/// Whether a comma stands here, or a ).
#[tactic(auto, unfolding(crate::specs::Trees::comma_or_end))]
pub fn comma_or_end(text: &[u8]) -> Option<bool>
    ensures { result ≡ comma_or_closed text.now }
{
    if text == b",".as_slice() {
        return Some(true);
    }
    if text == b")".as_slice() {
        return Some(false);
    }
    None
}

/// Whether a comma stands here, or WHERE.
#[tactic(auto, unfolding(crate::specs::Trees::comma_or_where))]
pub fn comma_or_where(text: &[u8]) -> Option<bool>
    ensures { result ≡ comma_or_key text.now }
{
    if text == b",".as_slice() {
        return Some(true);
    }
    if is_spelled(b"WHERE", text) {
        return Some(false);
    }
    None
}

/// Whether INT stands here, or TEXT.
#[tactic(auto, unfolding(crate::specs::Trees::int_or_text))]
pub fn int_or_text(text: &[u8]) -> Option<bool>
    ensures { result ≡ either_kind text.now }
{
    if is_spelled(b"INT", text) {
        return Some(true);
    }
    if is_spelled(b"TEXT", text) {
        return Some(false);
    }
    None
}

/// The room of a text column, 1 to 64 bytes.
#[tactic(auto, unfolding(crate::specs::Trees::room_of))]
pub fn room_of(text: &[u8]) -> Option<u8>
    ensures { result ≡ room_meant text.now }
{
    let room = int_of(text)?;
    if room < 1 || room > 64 {
        return None;
    }
    Some(room as u8)
}

/// The word that begins a statement.
#[tactic(auto, unfolding(crate::specs::Trees::verb_of))]
pub fn verb_of(text: &[u8]) -> Option<Verb>
    ensures { result ≡ verb_meant text.now }
{
    if is_spelled(b"BEGIN", text) {
        return Some(Verb::Begin);
    }
    if is_spelled(b"COMMIT", text) {
        return Some(Verb::Commit);
    }
    if is_spelled(b"ROLLBACK", text) {
        return Some(Verb::Rollback);
    }
    if is_spelled(b"CREATE", text) {
        return Some(Verb::Create);
    }
    if is_spelled(b"DROP", text) {
        return Some(Verb::Remove);
    }
    if is_spelled(b"INSERT", text) {
        return Some(Verb::Insert);
    }
    if is_spelled(b"SELECT", text) {
        return Some(Verb::Select);
    }
    if is_spelled(b"UPDATE", text) {
        return Some(Verb::Update);
    }
    if is_spelled(b"DELETE", text) {
        return Some(Verb::Delete);
    }
    None
}

// The byte of a token that is one byte.
fn only_byte(text: &[u8]) -> Option<u8>
    ensures { MatchOption result (length text.now ≢ 1) (λ byte. text.now ≡ byte ∷ []) }
{
    let (first, more) = text.split_first()?;
    if more.is_empty() { Some(*first) } else { None }
}

#[tactic(auto, unfolding(crate::specs::Trees::session_of))]
fn session_in(byte: u8) -> Option<u8>
    ensures { result ≡ session_meant (byte ∷ []) }
{
    if byte < b'1' || byte > b'8' {
        return None;
    }
    Some(byte - b'0')
}

/// A session's number, 1 to 8 in one digit.
#[tactic(auto, using(crate::proofs::Lists::session_of_none))]
pub fn session_of(text: &[u8]) -> Option<u8>
    ensures { result ≡ session_meant text.now }
{
    match only_byte(text) {
        Some(byte) => session_in(byte),
        None => None,
    }
}
