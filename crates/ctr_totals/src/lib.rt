//! What a generated load has left of its table: how many rows it has, and the sum of a column of theirs, counted on the pages.
//!
//! Nothing here takes memory.
#![tactic(auto)]

mod chains;
mod columns;
mod counting;
mod facts;
mod finding;
mod load;
mod looking;

pub use counting::Totals;
pub use load::totals;
