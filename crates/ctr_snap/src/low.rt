// The low mark.
ghost use Rattle.std.specs.Prelude.{◌≡◌, ◌∷◌, ◌++◌};
ghost use Rattle.ctr_snap.specs.Seeing.{least, all_named, AreFrom};

use crate::Snapshot;
use ctr_types::Xid;

/// The low mark: the least of the next number to be drawn, of the transactions that are open or have
/// asked for their commit and aren't answered, and of what the live snapshots name. What is committed
/// below it is seen by every snapshot, and by each that is taken later.
#[tactic(auto, using(crate::proofs::Least::least_append))]
pub fn low_mark(next: Xid, unanswered: &[Xid], live: &[Option<Snapshot>; 8]) -> Xid
    ensures value { result ≡ least next (unanswered.now ++ all_named live.now) }
    ensures below { AreFrom result (next ∷ unanswered.now ++ all_named live.now) }
{
    least_named(least_of(next, unanswered), live)
}

/// The least of a number and these.
pub fn least_of(mark: Xid, xids: &[Xid]) -> Xid
    ensures { result ≡ least mark xids.now }
{
    let Some((first, rest)) = xids.split_first() else {
        return mark;
    };
    least_of(mark.min(*first), rest)
}

#[tactic(auto, using(crate::proofs::Least::least_append))]
fn least_named(mark: Xid, live: &[Option<Snapshot>]) -> Xid
    ensures { result ≡ least mark (all_named live.now) }
{
    let Some((first, rest)) = live.split_first() else {
        return mark;
    };
    match first {
        Some(snapshot) => least_named(snapshot.lower(mark), rest),
        None => least_named(mark, rest),
    }
}
