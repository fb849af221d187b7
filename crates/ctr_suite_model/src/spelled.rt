// Statements and their parts as text. A statement stands here without session and `;`, and a part is
// read behind the words that make it a statement.
use crate::trouble::Trouble;
use ctr_parse::parse_statement;
use ctr_types::{Name, Plain, Statement};
use std::alloc::Global;

/// A text with words before it.
pub fn behind(alloc: Global, words: &str, rest: &[u8]) -> Result<Vec<u8>, Trouble> {
    let mut text = Vec::new(alloc);
    text.extend_from_slice(words.as_bytes())?;
    text.extend_from_slice(rest)?;
    Ok(text)
}

/// The statement that a text is.
pub fn read_statement(alloc: Global, text: &[u8]) -> Result<Statement, Trouble> {
    match std::str::from_utf8(text) {
        Ok(text) => Ok(parse_statement(alloc, text)?),
        Err(_) => Err(Trouble::Spelling),
    }
}

/// The name that a word is.
pub fn read_name(alloc: Global, word: &[u8]) -> Result<Name, Trouble> {
    let text = behind(alloc, "DROP TABLE ", word)?;
    let statement = read_statement(alloc, &text)?;
    name_in(alloc, &statement)
}

fn name_in(alloc: Global, statement: &Statement) -> Result<Name, Trouble> {
    match statement {
        Statement::DropTable { table } => Ok(table.copy(alloc)?),
        _ => Err(Trouble::Spelling),
    }
}
