//! What a World on pages keeps between any two turns, and that each kind of turn keeps it. Definitions, and laws of them.
//! No program computes them.
#![tactic(auto)]

mod recovery;
mod sessions;
mod silent;
mod walks;

pub use ctr_paged::an_image_opens;
pub use recovery::{
    a_dying_table_is_away, a_page_is_given_back, a_table_is_undone, an_action_of_nobodys_is_kept,
    an_orphan_is_ended, recovery_is_in_no_transaction, undo_is_counted,
    where_nobody_is_inside_none_is_open,
};
pub use sessions::{
    a_commit_is_asked_for, a_number_is_drawn, a_rollback_ends, a_turn_without_an_entry_is_kept,
    a_write_is_kept, who_draws_a_number_has_no_page,
};
pub use silent::{
    a_reader_ends, a_refusal_outside_is_kept, a_rollback_begins, a_session_begins,
    locks_and_reads_are_kept, who_rolls_back_is_at_its_rollback,
};
pub use walks::{a_walk_begins, commits_are_answered, time_and_growth_are_kept};
