//! Sessions over versions: what an engine of them answers a session that its locks let act, and that this is
//! what the model answers. Definitions are in specs/, the laws in specs/Laws.antt; nothing here says how
//! versions or locks are kept.
#![tactic(auto)]

mod laws;

pub use laws::{
    ends_show, locks_and_reads_show, locks_keep_others_off, refusals_are_the_models,
    rows_are_the_views, views_stay, what_is_free_is_nobodys, writes_are_the_models, writes_show,
};
