// A snapshot.
ghost use Rattle.std.specs.Prelude.{◌≡◌, IfOk};
ghost use Rattle.ctr_snap.specs.Seeing.{has, is_own, sees_or_own, least, named};

use crate::low::least_of;
use ctr_types::{Fate, OutOfMemory, Xid};
use std::alloc::Global;
use std::marker::Model;

/// What a session sees beside its own: the transactions that had asked for their commit and were
/// answered when it was taken.
#[derive(Debug, Drop)]
pub struct Snapshot {
    next: Xid,
    listed: Vec<Xid>,
}

impl Model for Snapshot {
    ghost use Rattle.ctr_snap.specs.Seeing.{SnapshotTaken};

    ghost Value = { SnapshotTaken };

    ghost view = { λ s. record { next = s.next; listed = s.listed.items } };
}

impl Snapshot {
    /// The snapshot at a moment: the next number to be drawn, and the transactions that are open, or
    /// have asked for their commit and aren't answered.
    pub fn take(alloc: Global, next: Xid, listed: &[Xid]) -> Result<Snapshot, OutOfMemory>
        ensures { IfOk result (λ s. s ≡ record { next = next; listed = listed.now }) }
    {
        let mut kept = Vec::new(alloc);
        kept.extend_from_slice(listed)?;
        Ok(Snapshot { next, listed: kept })
    }

    /// Whether a transaction is seen, by how it stands now: the session's own, or one that is
    /// committed, was drawn before the snapshot and isn't listed.
    pub fn sees(&self, xid: Xid, fate: Fate, me: Option<Xid>) -> bool
        ensures { result ≡ sees_or_own self.now me fate xid }
    {
        is_own(me, xid) || (fate == Fate::Committed && xid < self.next && !has(xid, &self.listed))
    }

    /// The same snapshot again.
    pub fn copy(&self, alloc: Global) -> Result<Snapshot, OutOfMemory>
        ensures { IfOk result (λ s. s ≡ self.now) }
    {
        Snapshot::take(alloc, self.next, &self.listed)
    }

    /// The least of a number and those that the snapshot names: its next, and its list.
    pub fn lower(&self, mark: Xid) -> Xid
        ensures { result ≡ least mark (named self.now) }
    {
        least_of(mark.min(self.next), &self.listed)
    }
}

fn is_own(me: Option<Xid>, xid: Xid) -> bool
    ensures { result ≡ is_own me xid }
{
    match me {
        Some(own) => xid == own,
        None => false,
    }
}

/// Whether a transaction is one of these.
pub fn has(xid: Xid, xids: &[Xid]) -> bool
    ensures { result ≡ has xid xids.now }
{
    let Some((first, rest)) = xids.split_first() else {
        return false;
    };
    xid == *first || has(xid, rest)
}
