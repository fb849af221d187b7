// Who asks, and what it is answered.
ghost use Rattle.std.specs.Prelude.{◌≡◌};
ghost use Rattle.ctr_asking.specs.Asking.{me_held};

use ctr_locks::KeyLocks;
use ctr_txn::{Txn, Txns};
use ctr_types::{List, Name, Refusal, Xid};

/// A session, from 1 to 8, and what is held beside the store.
#[derive(Clone, Copy)]
pub struct Asker<'a> {
    pub s: u8,
    pub txns: &'a Txns,
    pub locks: &'a KeyLocks,
    /// The names that recovery holds.
    pub stuck: &'a List<Name>,
}

/// What a session is answered that asks for a Lock or a Read.
#[derive(Clone, Copy, Debug, PartialEq, Eq)]
pub enum Answer {
    /// The act is refused.
    Refused(Refusal),
    /// Nothing speaks against it. Of the statement's table the entry of the catalog; none where it is to be made.
    Free(Option<u8>),
}

/// The number that a transaction has drawn, or none.
pub fn me_of(txn: &Txn) -> Option<Xid>
    ensures { result ≡ me_held txn.now }
{
    if txn.me == 0 { None } else { Some(txn.me) }
}
