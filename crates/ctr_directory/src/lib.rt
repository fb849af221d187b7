//! Where the keys of a table's buckets stand, as it is remembered of pages that were read.
#![tactic(auto)]

mod bucket;
mod directory;
mod laws;
mod remembered;
mod slots;
mod spare;

pub use ctr_page::{Place, bucket_of};
pub use directory::{Directory, MOST_KEYS};
pub use laws::growth_keeps_all;
pub use remembered::Remembered;
pub use slots::{Span, Unkept, renew};
