// Statements and lines from their bytes.
ghost use Rattle.std.specs.Prelude.{◌≡◌};
ghost use Rattle.ctr_model.specs.Language.{SpellsStatement, SpellsLine};
ghost use Rattle.ctr_parse.specs.Answers.{IsParsed, IsDecidedBy};

use crate::laws::one_reading;
use crate::refusal::{ParseRefusal, refusal_of};
use crate::statement::{alone, line};
use ctr_lex::tokens;
use ctr_types::{Line, Statement};
use std::alloc::Global;

/// The most tokens that a line has: those of an UPDATE of eight sums. Of one more, a token is wrong,
/// so nothing behind them is read.
const MOST_TOKENS: usize = 57;

fn statement_of(alloc: Global, bytes: &[u8]) -> Result<Statement, ParseRefusal>
    ensures { IsParsed SpellsStatement bytes.now result }
{
    let Ok(tokens) = tokens(alloc, bytes, MOST_TOKENS + 1) else {
        return Err(ParseRefusal::OutOfMemory);
    };
    match alone(alloc, tokens.as_slice()) {
        Err(stop) => Err(refusal_of(stop, tokens.bad, bytes.len())),
        Ok(statement) => {
            if let Some(at) = tokens.bad {
                return Err(ParseRefusal::ParseError { at: at + 1 });
            }
            Ok(statement)
        }
    }
}

/// The statement that a text is, without session, `>` and `;`.
pub fn parse_statement(alloc: Global, text: &str) -> Result<Statement, ParseRefusal>
    ensures parsed { IsParsed SpellsStatement text.now result }
    ensures only { IsDecidedBy SpellsStatement text.now result }
{
    one_reading();
    statement_of(alloc, text.as_bytes())
}

fn line_of(alloc: Global, bytes: &[u8]) -> Result<Line, ParseRefusal>
    ensures { IsParsed SpellsLine bytes.now result }
{
    let Ok(tokens) = tokens(alloc, bytes, MOST_TOKENS + 1) else {
        return Err(ParseRefusal::OutOfMemory);
    };
    match line(alloc, tokens.as_slice()) {
        Err(stop) => Err(refusal_of(stop, tokens.bad, bytes.len())),
        Ok(line) => {
            if let Some(at) = tokens.bad {
                return Err(ParseRefusal::ParseError { at: at + 1 });
            }
            Ok(line)
        }
    }
}

/// The session and the statement that a line of a script is, without its end.
pub fn parse_line(alloc: Global, line: &[u8]) -> Result<Line, ParseRefusal>
    ensures parsed { IsParsed SpellsLine line.now result }
    ensures only { IsDecidedBy SpellsLine line.now result }
{
    one_reading();
    line_of(alloc, line)
}
