//! What suites of sessions by turns have in common: a case is a database in files in memory and a script, which is played over it by turns of sessions
//! and of the cleaner, opened after stops, undone, cleaned and judged.
#![tactic(auto)]

mod bare;
mod case;
mod cleaned;
mod files;
mod fitting;
mod judged;
mod lines;
mod lists;
mod logged;
mod looked;
mod opened;
mod page;
mod printed;
mod run;
mod steps;
mod stops;
mod told;
mod trouble;
mod turns;
mod undone;

pub use bare::{is_bare_behind, left_in};
pub use case::Case;
pub use cleaned::{clean_disk, clean_files};
pub use files::{Files, files_of, fill};
pub use judged::{Tables, asked_by, follow, nowhere, resting, tables_at};
pub use lines::add_line;
pub use lists::set;
pub use logged::put_records;
pub use page::Page;
pub use printed::put_turns;
pub use run::{Order, Run, play_files};
pub use steps::{CaseStep, case_step_of, order_of};
pub use stops::{Judging, Looking, count_wrong, files_by, is_left_well, put_stops};
pub use trouble::Trouble;
pub use turns::{CLEANER, Noted};
pub use undone::undo_files;
