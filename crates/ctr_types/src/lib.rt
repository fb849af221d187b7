//! The plain data of the engine: values, rows, schemas, statements, scripts, replies and tapes.
//!
//! Nothing here computes: the types are what every other crate speaks of. A list or a text inside
//! them is a type of this crate, which contracts see as a list.
#![tactic(auto)]

mod file;
mod list;
mod memory;
mod name;
mod plain;
mod statement;
mod tape;
mod text;
mod value;
mod xid;

pub use file::{Damage, File};
pub use list::List;
pub use memory::OutOfMemory;
pub use name::Name;
pub use plain::{Plain, copy_all, same_all};
pub use statement::{KeyIs, Line, Script, Set, SetTo, Statement};
pub use tape::{Act, Actor, Entry, Refusal, Reply, Tape, Turn};
pub use text::Text;
pub use value::{Column, Kind, Row, Rows, Schema, Value};
pub use xid::{Fate, Xid};
