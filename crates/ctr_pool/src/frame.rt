// A page in memory.
use crate::{Body, Lsn};
use ctr_rec::PageNo;

/// A page in memory.
#[derive(Debug, Drop)]
pub struct Frame {
    pub page: PageNo,
    /// The LSN of the last record in it.
    pub lsn: Lsn,
    /// The LSN of its first change that isn't saved.
    pub since: Option<Lsn>,
    pub body: Body,
}
