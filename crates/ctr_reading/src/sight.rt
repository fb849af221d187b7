// Who reads.
use ctr_snap::Snapshot;
use ctr_types::Xid;

/// Who reads: a session's snapshot, and the number of its own transaction, or none where it has drawn none.
#[derive(Clone, Copy)]
pub struct Sight<'a> {
    pub snapshot: &'a Snapshot,
    pub me: Option<Xid>,
}
