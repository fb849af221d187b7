// A session's transaction.
ghost use Rattle.std.specs.Prelude.{◌≡◌, None, nat_lt, ◌&&◌, is_none};
ghost use Rattle.ctr_txn.specs.Held.{may_ask};

use ctr_snap::Snapshot;
use ctr_types::Xid;
use std::marker::Model;

/// What a COMMIT asked for.
#[derive(Clone, Copy, Debug, PartialEq, Eq)]
pub struct Asked {
    /// The commit number.
    pub k: u64,
    /// The number of the COMMIT among the session's statements.
    pub statement: u64,
}

/// The one record of a session's transaction: who is in none has none.
#[derive(Debug, Drop)]
pub struct Txn {
    /// Its number; 0 where none is drawn yet.
    pub me: Xid,
    pub snapshot: Snapshot,
    /// Whether it is within its rollback. Its snapshot isn't live then.
    pub undoing: bool,
    /// Of how many commits its snapshot is.
    pub since: u64,
    pub asked: Option<Asked>,
    /// Whether room is kept for an item of its own in the secondary log.
    pub item: bool,
}

impl Model for Txn {
    ghost use Rattle.ctr_txn.specs.Held.{TxnHeld};

    ghost Value = { TxnHeld };

    ghost view = { λ a. record { session = record { me = a.me; snapshot = a.snapshot; undoing = a.undoing }; since = a.since; asked = a.asked; item = a.item } };
}

impl Txn {
    /// Whether it has a number, and hasn't asked for its commit.
    pub fn may_ask(&self) -> bool
        ensures { result ≡ may_ask self.now }
    {
        0 < self.me && self.asked.is_none()
    }
}
