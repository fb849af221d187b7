// How far the Write of a row is.
use ctr_extend::OnWay;
use ctr_page::{Chain, Place};

/// How far the Write of a row is. It is what a session keeps of it between two turns; all else is looked up again.
#[derive(Clone, Copy, Debug, PartialEq, Eq)]
pub enum Stage {
    /// The row's slot is to be looked for.
    Looking,
    /// A page is on its way to a chain of the table: that of the key's bucket, or that of its versions.
    Extending { chain: Chain, way: OnWay },
    /// The version that had to be kept off the row first is at this place.
    Kept(Place),
}

/// What a turn of a Write did.
#[derive(Clone, Copy, Debug, PartialEq, Eq)]
pub enum Written {
    /// It is so far now.
    On(Stage),
    /// The row is written.
    Done,
    /// More pages are counted, and the row's slot is looked for again.
    Grown,
    /// No page is free for it, and no more can be counted.
    Full,
}
