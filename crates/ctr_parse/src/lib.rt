//! The parser: the tokens of a text to its statement, those of a line to its session and statement, with the place
//! of each refusal.
#![tactic(auto)]

mod clause;
mod columns;
mod cursor;
mod laws;
mod names;
mod numeral;
mod parse;
mod quoted;
mod refusal;
mod statement;
mod stop;
mod word;

pub use laws::one_reading;
pub use parse::{parse_line, parse_statement};
pub use refusal::ParseRefusal;
