// What is wrong with a chain of pages.
use crate::checks::BadPage;
use ctr_rec::PageNo;

/// What is wrong with a chain of pages.
#[derive(Clone, Copy, Debug, PartialEq, Eq)]
pub enum BadChain {
    /// The header of one of its pages.
    OnPage(PageNo, BadPage),
    /// It goes on behind this page, and has as many pages as the counted pages can hold.
    TooLong { last: PageNo, most: u32 },
}
