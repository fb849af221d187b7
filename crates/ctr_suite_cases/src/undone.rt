// Undo of what a stop left open, turn by turn.
ghost use Rattle.std.specs.Prelude.{◌≡◌, ◌<◌, false, OnOk};
ghost use Rattle.ctr_walk.specs.OneRecord.{HasRoomForOne};
ghost use Rattle.ctr_suite_cases.specs.Over.{LeavesBeside};

use crate::files::{Files, Mem, files_of, opened};
use crate::lists::set;
use crate::logged::gather;
use crate::trouble::Trouble;
use ctr_disk::StoreFault;
use ctr_log::Gathered;
use ctr_mem_disk::SilentDisk;
use ctr_tally::Steps;
use ctr_undo::{UndoList, UndoTurn, turn};
use std::alloc::Global;
use std::marker::Brand;
use std::sync::ledger::{Blank, Ledger};

/// How many turns for room there are at most until there is room, and how many turns undo takes.
const TURNS: u32 = 3;

const MOST_TURNS: u32 = 100_000;

/// A record has no number from this on.
const LAST_NUMBER: u64 = 1 << 62;

// Takes turns for room, at most so many, until there is room.
fn make_room(store: &mut Mem, most: u32) -> Result<(), StoreFault>
    requires going { store.old.stopped ≡ false }
    ensures beside { OnOk result (LeavesBeside store.old store.new) }
{
    if most == 0 || store.room() {
        return Ok(());
    }
    store.make_room()?;
    make_room(store, most - 1)
}

/// Makes room for a record more, which may add so many items to the secondary log.
pub fn make_ready(store: &mut Mem, items: usize) -> Result<(), Trouble>
    requires going { store.old.stopped ≡ false }
    ensures beside { OnOk result (LeavesBeside store.old store.new) }
    ensures room { OnOk result (HasRoomForOne 0 items store.new) }
{
    make_room(store, TURNS)?;
    store.reserve(0, items)?;
    if !store.room() {
        return Err(Trouble::NotOver);
    }
    if store.next() >= LAST_NUMBER {
        return Err(Trouble::Worn);
    }
    Ok(())
}

// A turn of undo; whether something is left.
fn take_turn<L: Ledger>(
    store: &mut Mem,
    list: &mut UndoList,
    steps: &mut Steps<L>,
) -> Result<bool, Trouble>
    requires going { store.old.stopped ≡ false }
    ensures going { OnOk result (store.new.stopped ≡ false) }
{
    make_ready(store, 0)?;
    Ok(turn(store, list, steps)? == UndoTurn::Undone)
}

// Turns until nothing is left.
fn take_all<L: Ledger>(
    store: &mut Mem,
    list: &mut UndoList,
    steps: &mut Steps<L>,
) -> Result<(), Trouble>
    requires going { store.old.stopped ≡ false }
    ensures going { OnOk result (store.new.stopped ≡ false) }
{
    for _ in 0..MOST_TURNS {
        if !take_turn(store, list, steps)? {
            return Ok(());
        }
    }
    Err(Trouble::NotOver)
}

// The same of a list that was made for that.
fn take_list<L: Ledger>(store: &mut Mem, list: UndoList, blank: Blank) -> Result<(), Trouble>
    requires name { blank.name ≡ L.name }
    requires parts { (blank.parts ≡ L.parts) × (0 < blank.parts) }
    requires going { store.old.stopped ≡ false }
    ensures going { OnOk result (store.new.stopped ≡ false) }
{
    let mut list = list;
    let mut steps = Steps::<L>::new(blank);
    take_all(store, &mut list, &mut steps)
}

/// Undoes all that is open in a store, which is hardened behind it: the first record of that, and the first behind it.
pub fn undo_over(alloc: Global, store: &mut Mem) -> Result<(u64, u64), Trouble>
    requires going { store.old.stopped ≡ false }
    ensures going { OnOk result (store.new.stopped ≡ false) }
{
    let from = store.next();
    let list = UndoList::of(alloc, store.meta())?;
    take_list::<Brand>(store, list, Blank::new(1))?;
    store.harden()?;
    Ok((from, store.next()))
}

// The same over a store that was opened for that: the disk that it leaves, and how it went.
fn undo_on(alloc: Global, store: Mem) -> (SilentDisk, Result<(u64, u64), Trouble>)
    requires going { store.stopped ≡ false }
{
    let mut store = store;
    let done = undo_over(alloc, &mut store);
    (store.into_disk(), done)
}

// The records of the log that undo leaves.
fn read_log(alloc: Global, disk: &mut SilentDisk, log: &mut Gathered) {
    let _read = gather(alloc, disk, log);
}

/// Undoes all that is open in files: the first record of that, and the first behind it.
pub fn undo_files(
    alloc: Global,
    files: &mut Files,
    log: &mut Gathered,
) -> Result<(u64, u64), Trouble> {
    let Some(store) = opened(alloc, files) else {
        return Err(Trouble::NotOpened);
    };
    let (mut disk, done) = undo_on(alloc, store);
    read_log(alloc, &mut disk, log);
    set(&mut files.image, files_of(disk));
    done
}
