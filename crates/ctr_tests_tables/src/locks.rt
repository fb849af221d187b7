// What sessions are answered, step by step, by hand: each refusal with the session that it names, the lowest of those that
// have what was wanted, and who has what before and behind it.
use ctr_locks::{Held, KeyLocks};
use ctr_model::Key;
use ctr_types::{Name, OutOfMemory, Text};
use std::alloc::Global;
use std::test::Fail;

// A table's name.
#[derive(Clone, Copy)]
enum Named {
    Accounts,
    Orders,
}

// A step: the session first, where there is one, then an entry and a key, or a name.
#[derive(Clone, Copy)]
enum Step {
    // Takes room alone.
    KeyRoom(u8, u8, i64),
    NameRoom(u8, Named),
    // Takes room, and asks.
    Lock(u8, u8, i64),
    Use(u8, Named),
    Hold(u8, Named),
    Release(u8),
    // Who has a key's lock, of all sessions and of all but one.
    Locked(u8, i64),
    LockedTo(u8, u8, i64),
    // Who keeps a session from a use of a name, and from a change of its schema.
    BusyToUse(u8, Named),
    BusyToChange(u8, Named),
}

// A step, and the session that it names; none where it is granted, or nobody is found.
#[derive(Clone, Copy)]
struct Line(Step, Option<u8>);

#[derive(Drop)]
struct Names {
    accounts: Name,
    orders: Name,
}

fn name_of(alloc: Global, name: &[u8]) -> Result<Name, OutOfMemory> {
    Name::new(Text::from_slice(alloc, name)?).ok_or(OutOfMemory)
}

fn make_names(alloc: Global) -> Result<Names, OutOfMemory> {
    Ok(Names {
        accounts: name_of(alloc, b"accounts")?,
        orders: name_of(alloc, b"orders")?,
    })
}

impl Names {
    fn get(&self, named: Named) -> &Name {
        match named {
            Named::Accounts => &self.accounts,
            Named::Orders => &self.orders,
        }
    }
}

fn named_by(asked: Result<(), Held>) -> Option<u8> {
    match asked {
        Ok(()) => None,
        Err(held) => Some(held.by),
    }
}

fn lock(
    alloc: Global,
    locks: &mut KeyLocks,
    s: u8,
    entry: u8,
    key: Key,
) -> Result<Option<u8>, OutOfMemory> {
    locks.reserve_key(alloc, s, entry, key)?;
    Ok(named_by(locks.try_lock(s, entry, key)))
}

fn use_it(
    alloc: Global,
    locks: &mut KeyLocks,
    s: u8,
    name: &Name,
) -> Result<Option<u8>, OutOfMemory> {
    locks.reserve_name(alloc, s, name)?;
    Ok(named_by(locks.use_table(s, name)))
}

fn hold(
    alloc: Global,
    locks: &mut KeyLocks,
    s: u8,
    name: &Name,
) -> Result<Option<u8>, OutOfMemory> {
    locks.reserve_name(alloc, s, name)?;
    Ok(named_by(locks.hold_name(s, name)))
}

// The session that a step names.
fn take(
    alloc: Global,
    locks: &mut KeyLocks,
    names: &Names,
    step: Step,
) -> Result<Option<u8>, OutOfMemory> {
    match step {
        Step::KeyRoom(s, entry, key) => {
            locks.reserve_key(alloc, s, entry, Key::new(key))?;
            Ok(None)
        }
        Step::NameRoom(s, name) => {
            locks.reserve_name(alloc, s, names.get(name))?;
            Ok(None)
        }
        Step::Lock(s, entry, key) => lock(alloc, locks, s, entry, Key::new(key)),
        Step::Use(s, name) => use_it(alloc, locks, s, names.get(name)),
        Step::Hold(s, name) => hold(alloc, locks, s, names.get(name)),
        Step::Release(s) => {
            locks.release_all(s);
            Ok(None)
        }
        Step::Locked(entry, key) => Ok(locks.locked(entry, Key::new(key))),
        Step::LockedTo(s, entry, key) => Ok(locks.locked_to(s, entry, Key::new(key))),
        Step::BusyToUse(s, name) => Ok(locks.busy(s, false, names.get(name))),
        Step::BusyToChange(s, name) => Ok(locks.busy(s, true, names.get(name))),
    }
}

// The first line, from 0 on, whose step names another session; none where each is as it has to be.
fn first_wrong(
    alloc: Global,
    locks: &mut KeyLocks,
    names: &Names,
    lines: &[Line],
) -> Result<Option<usize>, OutOfMemory> {
    let mut at = 0;
    for Line(step, named) in lines {
        if take(alloc, locks, names, *step)? != *named {
            return Ok(Some(at));
        }
        at = at.saturating_add(1);
    }
    Ok(None)
}

fn played(alloc: Global, lines: &[Line]) -> Result<Option<usize>, OutOfMemory> {
    let names = make_names(alloc)?;
    let mut locks = KeyLocks::new(alloc);
    first_wrong(alloc, &mut locks, &names, lines)
}

const KEYS: [Line; 31] = [
    // room is no lock
    Line(Step::KeyRoom(5, 31, -7), None),
    Line(Step::Locked(31, -7), None),
    Line(Step::LockedTo(1, 31, -7), None),
    // one has it, and refuses all others, a lower one and a higher one
    Line(Step::Lock(2, 31, -7), None),
    Line(Step::Lock(1, 31, -7), Some(2)),
    Line(Step::Lock(3, 31, -7), Some(2)),
    Line(Step::Lock(5, 31, -7), Some(2)),
    Line(Step::Lock(2, 31, -7), None),
    Line(Step::Locked(31, -7), Some(2)),
    Line(Step::LockedTo(3, 31, -7), Some(2)),
    Line(Step::LockedTo(2, 31, -7), None),
    // the same key of another entry is another's, and so is another key of the same
    Line(Step::Locked(30, -7), None),
    Line(Step::Locked(31, 7), None),
    Line(Step::Lock(3, 30, -7), None),
    Line(Step::Lock(1, 31, 7), None),
    Line(Step::Lock(2, 30, -7), Some(3)),
    Line(Step::Lock(2, 31, 7), Some(1)),
    // the least key and the greatest one
    Line(Step::Lock(8, 0, i64::MIN), None),
    Line(Step::Lock(8, 0, i64::MAX), None),
    Line(Step::Lock(7, 0, i64::MIN), Some(8)),
    Line(Step::Lock(1, 0, i64::MAX), Some(8)),
    // who has nothing leaves nothing; who lets go leaves all of his, and nothing of others
    Line(Step::Release(6), None),
    Line(Step::Release(5), None),
    Line(Step::Locked(31, -7), Some(2)),
    Line(Step::Release(2), None),
    Line(Step::Locked(31, -7), None),
    Line(Step::Locked(31, 7), Some(1)),
    Line(Step::Locked(30, -7), Some(3)),
    Line(Step::Lock(3, 31, -7), None),
    Line(Step::Lock(2, 31, -7), Some(3)),
    Line(Step::Locked(0, i64::MAX), Some(8)),
];

#[test]
fn a_key_has_one_holder(rt: HostRuntime) -> Result<(), Fail> {
    assert_eq!(rt; played(rt.alloc(), &KEYS)?, None);
    Ok(())
}

const NAMES: [Line; 43] = [
    // room is neither use nor hold
    Line(Step::NameRoom(1, Named::Accounts), None),
    Line(Step::BusyToUse(2, Named::Accounts), None),
    Line(Step::BusyToChange(2, Named::Accounts), None),
    // several use a table; a hold is refused by the lowest other one, and none refuses himself
    Line(Step::Use(5, Named::Accounts), None),
    Line(Step::Use(3, Named::Accounts), None),
    Line(Step::Use(7, Named::Accounts), None),
    Line(Step::Hold(4, Named::Accounts), Some(3)),
    Line(Step::Hold(8, Named::Accounts), Some(3)),
    Line(Step::Hold(1, Named::Accounts), Some(3)),
    Line(Step::Hold(3, Named::Accounts), Some(5)),
    Line(Step::Hold(5, Named::Accounts), Some(3)),
    Line(Step::BusyToUse(1, Named::Accounts), None),
    Line(Step::BusyToChange(1, Named::Accounts), Some(3)),
    Line(Step::BusyToChange(3, Named::Accounts), Some(5)),
    // a refused one has nothing
    Line(Step::Release(3), None),
    Line(Step::Release(5), None),
    Line(Step::Hold(4, Named::Accounts), Some(7)),
    Line(Step::Use(4, Named::Accounts), None),
    Line(Step::Hold(7, Named::Accounts), Some(4)),
    Line(Step::Release(4), None),
    // another name is another's
    Line(Step::Hold(2, Named::Orders), None),
    Line(Step::Use(6, Named::Orders), Some(2)),
    Line(Step::Use(6, Named::Accounts), None),
    Line(Step::Release(6), None),
    // who uses a table alone may hold its name; then nobody else may use or hold it
    Line(Step::Hold(7, Named::Accounts), None),
    Line(Step::Use(1, Named::Accounts), Some(7)),
    Line(Step::Use(8, Named::Accounts), Some(7)),
    Line(Step::Hold(1, Named::Accounts), Some(7)),
    Line(Step::Hold(8, Named::Accounts), Some(7)),
    Line(Step::Use(7, Named::Accounts), None),
    Line(Step::Hold(7, Named::Accounts), None),
    Line(Step::BusyToUse(1, Named::Accounts), Some(7)),
    Line(Step::BusyToChange(1, Named::Accounts), Some(7)),
    Line(Step::BusyToUse(7, Named::Accounts), None),
    // a use and a hold go together, and nothing of others
    Line(Step::Release(7), None),
    Line(Step::BusyToChange(1, Named::Accounts), None),
    Line(Step::BusyToUse(1, Named::Orders), Some(2)),
    // a hold without a use
    Line(Step::Hold(6, Named::Accounts), None),
    Line(Step::Use(5, Named::Accounts), Some(6)),
    Line(Step::Hold(2, Named::Accounts), Some(6)),
    Line(Step::Hold(6, Named::Orders), Some(2)),
    Line(Step::Release(2), None),
    Line(Step::Hold(6, Named::Orders), None),
];

#[test]
fn a_name_is_used_or_held(rt: HostRuntime) -> Result<(), Fail> {
    assert_eq!(rt; played(rt.alloc(), &NAMES)?, None);
    Ok(())
}
