//! What every crash leaves whole: the log, in one generation or two, and that of a new database.
#![tactic(auto)]

mod batches;
mod damage;
mod gathered;
mod kept;
mod laws;
mod log;
mod making;
mod opening;
mod reading;
mod visitor;

pub use ctr_home::{
    Block, Check, Home, Root, is_open, judge, read_home, read_root, write_home, write_root,
};
pub use gathered::Gathered;
pub use kept::read_all;
pub use laws::{sound_visits_are_first, the_newer_is_kept_alone, visits_are_the_log};
pub use log::{LogFile, Lsn};
pub use making::make_logs;
pub use opening::OpenError;
pub use reading::ReadError;
pub use visitor::{Visit, VisitError, Visitor};
