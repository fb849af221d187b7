//! The tokens of a line of a script: words, integers, texts and signs, with blanks between.
//!
//! A token is the longest prefix of what follows that is one, so a line is taken apart in one way
//! only.
#![tactic(auto)]

mod bytes;
mod laws;
mod lex;
mod one;
mod token;

pub use bytes::blanks_len;
pub use laws::{each_line_is_taken, one_bad_byte, one_lexing, tokens_stand};
pub use lex::tokens;
pub use token::{Token, Tokens};
