//! Versions: what a chain of versions shows to whom, transactions with their fates, and the laws by which an
//! engine of them shows the model's state. Definitions are in specs/, laws of each step in specs/Laws.antt and Undoing.antt;
//! nothing here says how versions are kept.
#![tactic(auto)]

mod laws;

pub use laws::{
    first_committer_wins, grants_are_shown, rows_stand_at_each_number, sessions_see_their_views,
    single_records_are_shown,
};
