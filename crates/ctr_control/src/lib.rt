//! BEGIN, COMMIT and ROLLBACK over pages: what each answers, and what it makes of transactions, locks and pages.
#![tactic(auto)]

mod answering;
mod beginning;
mod ending;
mod marks;
mod rolling;

pub use answering::{answer_one, flush, make_room};
pub use beginning::begin;
pub use ctr_writing as writing;
pub use ctr_writing::session_world;
pub use ctr_writing::session_world::Txns;
pub use ending::ask;
pub use rolling::{a_writer_may_roll_back, roll_back};
