//! The Write of a row, and of a table, over pages: what each turn leaves, what it answers, and what it makes of transactions, locks and pages.
#![tactic(auto)]

mod laws;
mod room;
mod rows;
mod tables;

pub use ctr_looks as looks;
pub use ctr_looks::session_world;
pub use laws::what_a_write_counts_on_stays;
pub use rows::{Wrote, write_row};
pub use tables::write_table;
