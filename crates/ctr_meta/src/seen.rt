// Which transactions a session sees, by its snapshot and by how the tables say that they stand now.
//
// Nothing here takes memory.

ghost use Rattle.std.specs.Prelude.{◌≡◌};
ghost use Rattle.ctr_snap.specs.Seeing.{is_committed as has_committed};
ghost use Rattle.ctr_meta.specs.Seen.{xid_is_seen, xid_is_changed};

use crate::Meta;
use ctr_rec::{Fate, Xid};
use ctr_snap::Snapshot;

/// Whether a session sees what a transaction did: its own (`me`), or one that is committed, was drawn before the snapshot and isn't in its
/// list. It sees nothing of 0, which is nobody.
pub fn is_seen(meta: &Meta, snapshot: &Snapshot, me: Option<Xid>, x: Xid) -> bool
    ensures { result ≡ xid_is_seen meta.now.tables snapshot.now me x }
{
    x != 0 && snapshot.sees(x, meta.fate(x), me)
}

fn is_committed(fate: Fate) -> bool
    ensures { result ≡ has_committed fate }
{
    match fate {
        Fate::Open => false,
        Fate::Aborted => false,
        Fate::Committed => true,
        Fate::Later => false,
    }
}

/// Whether a transaction is committed that a snapshot doesn't see.
pub fn is_changed(meta: &Meta, snapshot: &Snapshot, x: Xid) -> bool
    ensures { result ≡ xid_is_changed meta.now.tables snapshot.now x }
{
    x != 0 && is_committed(meta.fate(x)) && !snapshot.sees(x, meta.fate(x), None)
}
