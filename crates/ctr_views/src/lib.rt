//! What a session finds and reads on pages is its view, and who changed it since its snapshot, where a scene is shown.
//! Definitions and laws; no program computes them.
#![tactic(auto)]

mod changes;
mod names;
mod rows;

pub use changes::what_newest_answers_is_in_the_model;
pub use ctr_catalog::{ChangeAt, SchemaRefusal, changed, changed_from, find, schema};
pub use ctr_chain::{
    ReadRefusal, newest, records_without_bytes_lie_as_their_actions, row_in, table_on, visible,
    visible_of,
};
pub use ctr_paged::{
    an_action_gives_its_fact, an_action_meets_its_needs, ones_own_action_leaves_what_is_held,
    what_is_done_stays, what_is_held_pays,
};
pub use names::{
    the_newest_change_of_a_name_is_told, what_changed_answers_is_in_the_model,
    what_find_answers_is_in_the_view,
};
pub use rows::{a_scan_gives_the_table, the_view_has_what_slots_show};
