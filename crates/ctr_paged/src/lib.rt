//! What the pages show: a site, in a run, is an engine of versions that shows a state of the model. Definitions, and
//! laws of them, an action each. No program computes them.
#![tactic(auto)]

mod laws;

pub use ctr_actions::{
    a_logged_record_is_its_action, an_action_gives_its_fact, an_action_meets_its_needs,
    another_leaves_what_is_held, ones_own_action_leaves_what_is_held, tables_in_use_stay_live,
    what_is_done_stays, what_is_held_pays,
};
pub use laws::{
    a_sound_site_opens, a_turn_without_a_record_is_shown, an_action_is_shown, an_image_opens,
    the_image_is_what_asked, the_low_mark_is_old, what_is_shown_has_begun,
};
