//! What the database of a store holds, in numbers, counted on its pages: committed tables with their rows, and what recovery would
//! find.
#![tactic(auto)]

mod counting;
mod entries;
mod laws;
mod noting;
mod surveying;

pub use ctr_stops::an_opened_store_keeps_commits;
pub use surveying::{SurveyRefusal, survey};
