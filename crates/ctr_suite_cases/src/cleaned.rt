// Steps of the cleaner: a pass over what stands in files, while no session is at work, and one beside sessions.
ghost use Rattle.std.specs.Prelude.{◌≡◌, ◌<◌, true, false, OnOk};
ghost use Rattle.ctr_walk.specs.OneRecord.{HasRoomForOne};
ghost use Rattle.ctr_emptying.specs.cursor_Standing.{IsCountedPosition};
ghost use Rattle.ctr_suite_cases.specs.Over.{LeavesBeside};

use crate::files::{Files, Mem, files_of, opened};
use crate::lists::set;
use crate::logged::gather;
use crate::trouble::Trouble;
use crate::undone::make_ready;
use ctr_emptying::{
    Emptied, Position, Step, advance, clean_slot, cut_at, forget_at, free_entry_at, free_older_at,
    make_dead_at, reclaim, revert_at, title_at, unlink_rows_at, unlink_versions_at,
};
use ctr_locks::KeyLocks;
use ctr_log::Gathered;
use ctr_mem_disk::SilentDisk;
use ctr_page::{EntryState, Place};
use ctr_types::Xid;
use std::alloc::Global;

/// The entries of the catalog, and the buckets of a table.
const ENTRIES: u8 = 32;

const BUCKETS: u8 = 8;

/// The first position of a pass.
pub const FIRST: Position = Position::Entry { entry: 0 };

/// How many steps a pass takes at most.
const MOST_STEPS: u32 = 100_000;

/// What may be done at a position.
#[derive(Clone, Copy)]
enum Task {
    /// A slot of a live table is cleaned.
    Live { entry: u8, place: Place },
    /// The chain of a slot of a live table may be cut behind a version entry.
    Chain { entry: u8, place: Place },
    /// A slot of a dead table may lose its head.
    Dead { entry: u8, place: Place },
    /// A version entry of a live table that no chain has may be freed.
    Kept { entry: u8, place: Place },
    /// A page that left its chain may be given back.
    Reclaim,
    /// The table of an entry of the catalog may be made dead.
    Entry { entry: u8 },
    /// An aborted transaction may be forgotten.
    Aborted { nth: usize },
    Nothing,
}

// What may be done at a version entry, by its table.
fn task_kept(store: &mut Mem, entry: u8, place: Place) -> Result<Task, Trouble>
    requires going { store.old.stopped ≡ false }
    ensures beside { OnOk result (LeavesBeside store.old store.new) }
{
    if entry >= ENTRIES {
        return Err(Trouble::Damaged);
    }
    if title_at(store, entry)?.state == EntryState::LIVE {
        Ok(Task::Kept { entry, place })
    } else {
        Ok(Task::Nothing)
    }
}

// What may be done at a slot, by its table.
fn task_in(store: &mut Mem, entry: u8, place: Place) -> Result<Task, Trouble>
    requires going { store.old.stopped ≡ false }
    ensures beside { OnOk result (LeavesBeside store.old store.new) }
{
    if entry >= ENTRIES {
        return Err(Trouble::Damaged);
    }
    let state = title_at(store, entry)?.state;
    if state == EntryState::LIVE {
        Ok(Task::Live { entry, place })
    } else if state == EntryState::DEAD {
        Ok(Task::Dead { entry, place })
    } else {
        Ok(Task::Nothing)
    }
}

fn task_at(store: &mut Mem, position: Position) -> Result<Task, Trouble>
    requires going { store.old.stopped ≡ false }
    ensures beside { OnOk result (LeavesBeside store.old store.new) }
{
    match position {
        Position::Slot { entry, place, .. } => task_in(store, entry, place),
        Position::Aborted { nth } => Ok(Task::Aborted { nth }),
        Position::Entry { entry } => Ok(Task::Entry { entry }),
        Position::Kept { entry, place } => task_kept(store, entry, place),
    }
}

// Who has locked a row, and below which number everybody sees what is committed.
#[derive(Clone, Copy)]
pub struct Beside<'a> {
    pub locks: &'a KeyLocks,
    pub low: Xid,
}

// What is to be done is done, by one record at most.
fn clean(store: &mut Mem, beside: Beside, task: Task) -> Result<Step, Trouble>
    requires room { HasRoomForOne 0 0 store.old }
    ensures beside { OnOk result (LeavesBeside store.old store.new) }
{
    let Beside { locks, low } = beside;
    match task {
        Task::Live { entry, place } if place.page < store.counted() => {
            Ok(clean_slot(store, locks, low, entry, place)?)
        }
        Task::Chain { entry, place } if place.page < store.counted() => {
            Ok(cut_at(store, locks, low, entry, place)?)
        }
        Task::Dead { entry, place } if place.page < store.counted() => {
            Ok(revert_at(store, locks, entry, place)?)
        }
        Task::Kept { entry, place } if entry < ENTRIES && place.page < store.counted() => {
            Ok(free_older_at(store, locks, low, entry, place)?)
        }
        Task::Reclaim => Ok(reclaim(store, 0)?),
        Task::Entry { entry } if entry < ENTRIES => Ok(make_dead_at(store, low, entry)?),
        Task::Aborted { nth } => Ok(forget_at(store, nth)?),
        _ => Ok(Step::Nothing),
    }
}

// The same behind turns for room; whether a record was logged.
fn clean_by(store: &mut Mem, beside: Beside, task: Task) -> Result<bool, Trouble>
    requires going { store.old.stopped ≡ false }
    ensures beside { OnOk result (LeavesBeside store.old store.new) }
{
    make_ready(store, 0)?;
    Ok(clean(store, beside, task)? == Step::Cleaned)
}

// What may be done where that was not.
fn chain_of(task: Task) -> Task {
    match task {
        Task::Live { entry, place } => Task::Chain { entry, place },
        _ => Task::Nothing,
    }
}

// The same at a position. A page that left its chain is given back before anything else is done.
fn clean_at(store: &mut Mem, beside: Beside, position: Position) -> Result<bool, Trouble>
    requires going { store.old.stopped ≡ false }
    ensures beside { OnOk result (LeavesBeside store.old store.new) }
{
    if clean_by(store, beside, Task::Reclaim)? {
        return Ok(true);
    }
    let task = task_at(store, position)?;
    if clean_by(store, beside, task)? {
        return Ok(true);
    }
    clean_by(store, beside, chain_of(task))
}

// A step in a table that is dead, by one record at most: a page of this bucket leaves it, and where there is no such bucket a page of
// versions, or the entry is freed. Whether a record was logged.
fn empty(store: &mut Mem, entry: u8, bucket: u8) -> Result<bool, Trouble>
    requires going { store.old.stopped ≡ false }
    requires there { entry < ENTRIES }
    ensures going { OnOk result (store.new.stopped ≡ false) }
{
    make_ready(store, 1)?;
    let step = if bucket < BUCKETS {
        unlink_rows_at(store, entry, bucket)?
    } else if bucket == BUCKETS {
        unlink_versions_at(store, entry)?
    } else {
        free_entry_at(store, entry)?
    };
    Ok(step == Emptied::OneRecord)
}

// The same for each bucket, the versions and the entry, up to the first record.
fn empty_table(store: &mut Mem, entry: u8) -> Result<bool, Trouble>
    requires going { store.old.stopped ≡ false }
    requires there { entry < ENTRIES }
    ensures going { OnOk result (store.new.stopped ≡ false) }
{
    for bucket in 0..BUCKETS + 2 {
        if empty(store, entry, bucket)? {
            return Ok(true);
        }
    }
    Ok(false)
}

// The same at a position: there is nothing to be done but at an entry whose table is dead.
fn empty_at(store: &mut Mem, position: Position) -> Result<bool, Trouble>
    requires going { store.old.stopped ≡ false }
    ensures going { OnOk result (store.new.stopped ≡ false) }
{
    match position {
        Position::Entry { entry } if entry < ENTRIES => {
            if title_at(store, entry)?.state != EntryState::DEAD {
                return Ok(false);
            }
            empty_table(store, entry)
        }
        _ => Ok(false),
    }
}

// What a pass does at a position, where no session is at work.
fn pass_at(store: &mut Mem, beside: Beside, position: Position) -> Result<bool, Trouble>
    requires going { store.old.stopped ≡ false }
    ensures going { OnOk result (store.new.stopped ≡ false) }
{
    if clean_at(store, beside, position)? {
        return Ok(true);
    }
    empty_at(store, position)
}

// Whether a position names an entry, a bucket and a counted page.
fn is_within(counted: u32, position: Position) -> bool
    ensures { result ≡ true → IsCountedPosition counted position }
{
    match position {
        Position::Entry { entry } => entry < ENTRIES,
        Position::Slot {
            entry,
            bucket,
            place,
        } => entry < ENTRIES && bucket < BUCKETS && place.page < counted,
        Position::Kept { entry, place } => entry < ENTRIES && place.page < counted,
        Position::Aborted { .. } => true,
    }
}

// The position behind one.
fn next(store: &mut Mem, position: Position) -> Result<Option<Position>, Trouble>
    requires going { store.old.stopped ≡ false }
    ensures beside { OnOk result (LeavesBeside store.old store.new) }
{
    if !is_within(store.counted(), position) {
        return Err(Trouble::Damaged);
    }
    Ok(advance(store, position)?)
}

/// A step beside sessions, at a position or at the one behind it: one record at most, or turns for room. A pass behind another begins
/// anew. Whether a record was logged.
pub fn clean_beside(store: &mut Mem, beside: Beside, at: &mut Position) -> Result<bool, Trouble>
    requires going { store.old.stopped ≡ false }
    ensures beside { OnOk result (LeavesBeside store.old store.new) }
{
    if clean_at(store, beside, *at)? {
        return Ok(true);
    }
    *at = match next(store, *at)? {
        None => FIRST,
        Some(behind) => behind,
    };
    Ok(false)
}

// What a pass does at a position, and a hardening behind a record where that is wanted.
fn pass_hardened(
    store: &mut Mem,
    beside: Beside,
    position: Position,
    hardens: bool,
) -> Result<bool, Trouble>
    requires going { store.old.stopped ≡ false }
    ensures going { OnOk result (store.new.stopped ≡ false) }
{
    let cleaned = pass_at(store, beside, position)?;
    if cleaned && hardens {
        store.harden()?;
    }
    Ok(cleaned)
}

// A pass, at each position as long as there is something to do.
fn clean_all(store: &mut Mem, locks: &KeyLocks, hardens: bool) -> Result<(), Trouble>
    requires going { store.old.stopped ≡ false }
    ensures going { OnOk result (store.new.stopped ≡ false) }
{
    let mut at = FIRST;
    for _ in 0..MOST_STEPS {
        let low = store.meta().least_open(store.meta().next());
        if !pass_hardened(store, Beside { locks, low }, at, hardens)? {
            let Some(behind) = next(store, at)? else {
                return Ok(());
            };
            at = behind;
        }
    }
    Err(Trouble::NotOver)
}

// A pass over a store, which is hardened behind it: its first record, and the first behind it.
fn clean_over(alloc: Global, store: &mut Mem, hardens: bool) -> Result<(u64, u64), Trouble>
    requires going { store.old.stopped ≡ false }
    ensures going { OnOk result (store.new.stopped ≡ false) }
{
    let from = store.next();
    clean_all(store, &KeyLocks::new(alloc), hardens)?;
    store.harden()?;
    Ok((from, store.next()))
}

// The same over a store that was opened for that: the disk that it leaves, and how it went.
fn clean_on(alloc: Global, store: Mem, hardens: bool) -> (SilentDisk, Result<(u64, u64), Trouble>)
    requires going { store.stopped ≡ false }
{
    let mut store = store;
    let done = clean_over(alloc, &mut store, hardens);
    (store.into_disk(), done)
}

// The records of the log that a pass leaves.
fn read_log(alloc: Global, disk: &mut SilentDisk, log: &mut Gathered) {
    let _read = gather(alloc, disk, log);
}

/// A pass of the cleaner over files, where that is wanted hardened behind each record: the disk that it leaves, and how it went, with its
/// first record, and the first behind it; none where the files aren't opened.
pub fn clean_disk(
    alloc: Global,
    files: &Files,
    hardens: bool,
    log: &mut Gathered,
) -> Option<(SilentDisk, Result<(u64, u64), Trouble>)> {
    let store = opened(alloc, files)?;
    let (mut disk, done) = clean_on(alloc, store, hardens);
    read_log(alloc, &mut disk, log);
    Some((disk, done))
}

/// A pass of the cleaner over files: its first record, and the first behind it.
pub fn clean_files(
    alloc: Global,
    files: &mut Files,
    log: &mut Gathered,
) -> Result<(u64, u64), Trouble> {
    let Some((disk, done)) = clean_disk(alloc, files, false, log) else {
        return Err(Trouble::NotOpened);
    };
    set(&mut files.image, files_of(disk));
    done
}
