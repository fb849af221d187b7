//! Scripts: the bytes of a source to its statements.
//!
//! A source is read whole, up to the longest script and a byte, and then taken apart line by line.
#![tactic(auto)]

mod bytes;
mod error;
mod laws;
mod line;
mod script;

pub use error::ScriptError;
pub use laws::one_script;
pub use script::read_script;
