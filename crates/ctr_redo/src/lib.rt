//! The state that an image folds to: pages and tables, as the records of the log leave them.
#![tactic(auto)]

mod images;
mod laws;

pub use ctr_log::{
    Block, Check, Home, LogFile, Lsn, OpenError, ReadError, Root, Visit, Visitor, is_open, judge,
    make_logs, read_all, read_home, read_root, write_home, write_root,
};
pub use ctr_meta::{Bytes, Meta, Overlay, PageNo, room_for};
pub use ctr_pool::{Backing, Pool};
pub use images::{
    a_flush_leaves_a_prefix, a_generation_leaves_the_state, a_new_database_is_empty,
    a_page_that_isnt_counted_is_blank, a_writing_home_leaves_the_state, an_older_generation_can_go,
    more_pages_can_be_counted,
};
pub use laws::{
    a_checkpoint_is_no_step, a_page_can_go_home, a_page_is_its_home_overlaid, older_records_can_go,
    records_are_steps,
};
