// Each call once, with what its numbers say by hand.
use ctr_snap::{Snapshot, low_mark};
use ctr_types::Fate;
use std::test::Fail;

#[test]
fn a_snapshot_sees_what_was_answered_and_its_own(rt: HostRuntime) -> Result<(), Fail> {
    let taken = Snapshot::take(rt.alloc(), 7, &[3, 5])?;
    assert!(rt; taken.sees(2, Fate::Committed, None) && !taken.sees(3, Fate::Committed, None));
    assert!(rt; !taken.sees(2, Fate::Aborted, None) && taken.sees(8, Fate::Open, Some(8)));
    let live = [None, Some(taken), None, None, None, None, None, None];
    assert_eq!(rt; low_mark(9, &[5, 8], &live), 3);
    Ok(())
}
