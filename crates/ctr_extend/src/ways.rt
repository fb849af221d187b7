// How far a page is on its way to a chain.
use ctr_rec::PageNo;

/// How far a page is on its way to the front of a chain. It is what a session keeps between two turns; all else is looked up again.
#[derive(Clone, Copy, Debug, PartialEq, Eq)]
pub enum OnWay {
    /// It is to be had.
    Wanted,
    /// It is allocated.
    Taken(PageNo),
    /// It is empty, and leads on to the page that was the first of the chain then; 0 for none.
    Made { page: PageNo, next: PageNo },
}

/// What a turn did for a page on its way.
#[derive(Clone, Copy, Debug, PartialEq, Eq)]
pub enum Extended {
    /// It is so far now.
    On(OnWay),
    /// It is the first page of its chain.
    Linked,
    /// No counted page was free, and more are counted now.
    Grown,
    /// No page is free, and no more can be counted.
    Full,
}
