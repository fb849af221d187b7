// What a session does, each step once everything that its calls ask is there. A step that is handed no allocator takes no
// memory but the disk's own.
ghost use Rattle.std.specs.Prelude.{◌≡◌, ◌<◌, false, true, IsTrue, None, Some, IfSome, OnOk};
ghost use Rattle.ctr_walk.specs.OneRecord.{HasRoomForOne};
ghost use Rattle.ctr_txn.specs.Held.{TxnHeld, txn_of, IsOneOfEight, IsReading, IsWriting, HasNumberRoom};
ghost use Rattle.ctr_txn.specs.Calls.{IsOverStore};
ghost use Rattle.ctr_tests_txn.specs.StandsReady.{StandsReady};

use crate::refused::Refused;
use crate::turns::{Mem, ready};
use ctr_catalog::{drop_table, undo_item};
use ctr_rec::SlogItem;
use ctr_txn::{Asked, Txns, room_that_is_kept_is_there};
use ctr_types::Xid;
use std::alloc::Global;

// Whether there is such a session.
fn is_session(s: u8) -> bool
    ensures { IsTrue result → IsOneOfEight s }
{
    1 <= s && s <= 8
}

// Whether the transactions are over the store.
fn are_over(txns: &Txns, store: &Mem) -> bool
    ensures { IsTrue result → IsOverStore txns.now store.now }
{
    txns.next() == store.meta().next()
}

// Whether a session is in no transaction.
fn is_out(txns: &Txns, s: u8) -> bool
    requires { IsOneOfEight s }
    ensures { IsTrue result → txn_of s txns.now ≡ None }
{
    match txns.txn(s) {
        Some(_) => false,
        None => true,
    }
}

/// BEGIN, and how many commits are seen.
pub fn begin(global: Global, txns: &mut Txns, store: &Mem, s: u8) -> Result<u64, Refused> {
    if !is_session(s) || !is_out(txns, s) {
        return Err(Refused::NotAsked);
    }
    Ok(txns.begin(global, store.meta(), s)?)
}

// Room for all that a Lock wants.
fn reserve(txns: &mut Txns, store: &mut Mem, s: u8) -> Result<(), Refused>
    requires one { IsOneOfEight s }
    requires room { HasRoomForOne 0 0 store.old }
    ensures stands { OnOk result (StandsReady txns.new store.new) }
    ensures numbers { OnOk result (HasNumberRoom txns.new) }
    ensures room { OnOk result (HasRoomForOne 1 0 store.new) }
{
    Ok(txns.reserve(store, s)?)
}

/// A Lock: all its room, and the session's number where it has none.
pub fn lock(txns: &mut Txns, store: &mut Mem, s: u8) -> Result<Xid, Refused>
    requires going { store.old.stopped ≡ false }
    ensures stands { OnOk result (StandsReady txns.new store.new) }
{
    if !is_session(s) || !ready(store)? {
        return Err(Refused::NotAsked);
    }
    reserve(txns, store, s)?;
    if txns.is_writing(s) {
        return Ok(txns.me(s));
    }
    if !txns.is_reading(s) || !are_over(txns, store) {
        return Err(Refused::NotAsked);
    }
    Ok(txns.first_write(store, s)?)
}

/// A transaction begins, and has its first Lock.
pub fn open(global: Global, txns: &mut Txns, store: &mut Mem, s: u8) -> Result<Xid, Refused>
    requires going { store.old.stopped ≡ false }
    ensures stands { OnOk result (StandsReady txns.new store.new) }
{
    begin(global, txns, store, s)?;
    lock(txns, store, s)
}

// The number of a session that writes, and for which room for an item is kept.
fn may_add(txns: &Txns, s: u8) -> Option<Xid>
    requires one { IsOneOfEight s }
    ensures { IfSome result (λ _. (t : TxnHeld) × (txn_of s txns.now ≡ Some t) × (t.item ≡ true)) }
{
    match txns.txn(s) {
        Some(txn) => {
            if txn.item && txn.may_ask() {
                return Some(txn.me);
            }
            None
        }
        None => None,
    }
}

// A table is dropped by the room that was kept for the session.
fn drop_kept(txns: &mut Txns, store: &mut Mem, s: u8, x: Xid, entry: u8) -> Result<(), Refused>
    requires stands { StandsReady txns.old store.old }
    requires one { IsOneOfEight s }
    requires item { (t : TxnHeld) × (txn_of s txns.old ≡ Some t) × (t.item ≡ true) }
    requires room { HasRoomForOne 0 0 store.old }
    requires low { entry < 32 }
    ensures stands { OnOk result (StandsReady txns.new store.new) }
{
    room_that_is_kept_is_there();
    drop_table(store, x, entry)?;
    txns.keep_item(s, false);
    Ok(())
}

/// A Write that adds an item: a table is dropped, by the room that was kept for the session.
pub fn write(txns: &mut Txns, store: &mut Mem, s: u8, entry: u8) -> Result<(), Refused>
    requires stands { StandsReady txns.old store.old }
    ensures stands { OnOk result (StandsReady txns.new store.new) }
{
    if !is_session(s) || entry >= 32 || !ready(store)? {
        return Err(Refused::NotAsked);
    }
    match may_add(txns, s) {
        Some(x) => drop_kept(txns, store, s, x, entry),
        None => Err(Refused::NotAsked),
    }
}

// The same by the cleaner's room.
fn drop_cleaners(txns: &mut Txns, store: &mut Mem, x: Xid, entry: u8) -> Result<(), Refused>
    requires stands { StandsReady txns.old store.old }
    requires cleaner { txns.old.cleaner ≡ true }
    requires room { HasRoomForOne 0 0 store.old }
    requires low { entry < 32 }
    ensures stands { OnOk result (StandsReady txns.new store.new) }
{
    room_that_is_kept_is_there();
    drop_table(store, x, entry)?;
    txns.keep_cleaners(false);
    Ok(())
}

/// The same by the cleaner's room. Whose item it is doesn't matter to the room.
pub fn write_cleaners(txns: &mut Txns, store: &mut Mem, s: u8, entry: u8) -> Result<(), Refused>
    requires stands { StandsReady txns.old store.old }
    ensures stands { OnOk result (StandsReady txns.new store.new) }
{
    if !is_session(s) || entry >= 32 || !ready(store)? || !txns.keeps_cleaners() {
        return Err(Refused::NotAsked);
    }
    let x = txns.me(s);
    drop_cleaners(txns, store, x, entry)
}

/// COMMIT asks.
pub fn ask(txns: &mut Txns, store: &mut Mem, s: u8, statement: u64) -> Result<u64, Refused>
    requires stands { StandsReady txns.old store.old }
    ensures stands { OnOk result (StandsReady txns.new store.new) }
{
    if !is_session(s) || !ready(store)? {
        return Err(Refused::NotAsked);
    }
    if !txns.is_writing(s) || !are_over(txns, store) {
        return Err(Refused::NotAsked);
    }
    Ok(txns.ask_commit(store, s, statement)?)
}

/// The latest item of a session's is taken: what it says is undone, and its room is kept again. None where there is none.
pub fn take_item(txns: &mut Txns, store: &mut Mem, s: u8) -> Result<Option<SlogItem>, Refused>
    requires going { store.old.stopped ≡ false }
    ensures going { OnOk result (store.new.stopped ≡ false) }
{
    if !is_session(s) {
        return Err(Refused::NotAsked);
    }
    let Some(item) = store.meta().latest_item(txns.me(s)) else {
        return Ok(None);
    };
    if !ready(store)? {
        return Err(Refused::NotAsked);
    }
    undo_item(store, &item)?;
    txns.keep_item(s, true);
    Ok(Some(item))
}

/// ROLLBACK ends by its mark.
pub fn mark(txns: &mut Txns, store: &mut Mem, s: u8) -> Result<(), Refused>
    requires going { store.old.stopped ≡ false }
    ensures going { OnOk result (store.new.stopped ≡ false) }
{
    if !is_session(s) || !ready(store)? {
        return Err(Refused::NotAsked);
    }
    if !txns.is_writing(s) || !are_over(txns, store) {
        return Err(Refused::NotAsked);
    }
    Ok(txns.mark_abort(store, s)?)
}

/// A reader's transaction ends.
pub fn end_reader(txns: &mut Txns, s: u8) -> Result<(), Refused> {
    if !is_session(s) || !txns.is_reading(s) {
        return Err(Refused::NotAsked);
    }
    txns.end_reader(s);
    Ok(())
}

/// The session, the commit number and the statement of a commit that is answered.
pub fn told(answer: Option<(u8, Asked)>) -> (u8, u64, u64) {
    match answer {
        Some((s, asked)) => (s, asked.k, asked.statement),
        None => (0, 0, 0),
    }
}
