// Each call once, with what its numbers say by hand.
use ctr_meta::{Meta, is_changed, is_seen, room_for};
use ctr_rec::decode;
use ctr_snap::Snapshot;
use ctr_types::OutOfMemory;
use std::alloc::Global;
use std::test::Fail;

// A Checkpoint: the next transaction is 5, 2 is open, 3 was rolled back with a head left; so 1 and 4 are committed.
const TABLES: [u8; 66] =
    *b"\x01\x05\0\0\0\0\0\0\0\x01\0\0\0\0\0\0\0\x02\0\0\0\0\0\0\0\0\0\0\0\0\0\0\0\x01\0\0\0\0\0\0\0\x03\0\0\0\0\0\0\0\x01\0\0\0\0\0\0\0\0\0\0\0\0\0\0\0\0";

fn fill(meta: &mut Meta) -> Result<(), OutOfMemory> {
    let Ok(rec) = decode(&TABLES) else {
        return Ok(());
    };
    let room = room_for(&rec);
    meta.reserve(room.opens, room.items)?;
    if meta.check(&rec) == Ok(()) && meta.has_numbers(&rec) {
        meta.apply(&rec);
    }
    Ok(())
}

// Whether the transactions 1, 0, 2, the session's own 2, 3 and 4 are seen, and whether 4 and 1 are changed.
fn shown_below_4(alloc: Global, meta: &Meta) -> Result<([bool; 6], [bool; 2]), OutOfMemory> {
    let taken = Snapshot::take(alloc, 4, &[])?;
    let seen = [
        is_seen(meta, &taken, None, 1),
        is_seen(meta, &taken, None, 0),
        is_seen(meta, &taken, None, 2),
        is_seen(meta, &taken, Some(2), 2),
        is_seen(meta, &taken, None, 3),
        is_seen(meta, &taken, None, 4),
    ];
    let changed = [is_changed(meta, &taken, 4), is_changed(meta, &taken, 1)];
    Ok((seen, changed))
}

// Whether 1 is seen and is changed where it is listed.
fn shown_listed(alloc: Global, meta: &Meta) -> Result<(bool, bool), OutOfMemory> {
    let listed = Snapshot::take(alloc, 5, &[1])?;
    let seen = is_seen(meta, &listed, None, 1);
    Ok((seen, is_changed(meta, &listed, 1)))
}

type Shown = (([bool; 6], [bool; 2]), (bool, bool));

fn shown_on(alloc: Global, meta: &mut Meta) -> Result<Shown, OutOfMemory> {
    fill(meta)?;
    let below = shown_below_4(alloc, meta)?;
    let listed = shown_listed(alloc, meta)?;
    Ok((below, listed))
}

fn show(alloc: Global) -> Result<Shown, OutOfMemory> {
    let mut meta = Meta::new(alloc);
    shown_on(alloc, &mut meta)
}

#[test]
fn what_a_session_sees(rt: HostRuntime) -> Result<(), Fail> {
    let ((seen, changed), listed) = show(rt.alloc())?;
    assert_eq!(rt; seen, [true, false, false, true, false, false]);
    assert_eq!(rt; changed, [true, false]);
    assert_eq!(rt; listed, (false, true));
    Ok(())
}
