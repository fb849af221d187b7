//! What a statement says by itself: its table and key, whether its values suit a table's columns, the row that an
//! update makes. Each call's contract is the model's definition of the same name; no session, version or lock is spoken of.
#![tactic(auto)]

mod parts;
mod values;

pub use parts::{changes_schema, creates, key_locked, key_of, key_written, table_of};
pub use values::{bad_value, updated};
