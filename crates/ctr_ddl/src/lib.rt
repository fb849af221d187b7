//! The Write of a CREATE TABLE and of a DROP TABLE on pages, each a turn of one record.
//!
//! Nothing here takes memory.
#![tactic(auto)]

mod dropping;
mod making;

pub use dropping::drop_live;
pub use making::{Made, make_table};
