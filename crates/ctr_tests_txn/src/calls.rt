// Each call once, on the way of four transactions: one that commits, one that reads, one that begins between a COMMIT's record
// and its answer, and one that rolls back.
ghost use Rattle.std.specs.Prelude.{◌≡◌, false, OnOk};
ghost use Rattle.ctr_txn.specs.Held.{IsOneOfEight};
ghost use Rattle.ctr_tests_txn.specs.StandsReady.{StandsReady};

use crate::plays::{Play, played};
use crate::refused::Refused;
use crate::steps::{ask, begin, end_reader, lock, mark, told, write};
use crate::turns::Mem;
use ctr_txn::{Asked, Txn, Txns};
use ctr_types::{Fate, Xid};
use std::alloc::Global;
use std::test::Fail;

// A session's transaction: its number, of how many commits its snapshot is, what it asked, and whether it is within its
// rollback and room for an item is kept.
#[derive(Clone, Copy, PartialEq, Eq)]
struct Seen {
    me: Xid,
    since: u64,
    asked: Option<(u64, u64)>,
    undoing: bool,
    item: bool,
}

fn asked_by(asked: Option<Asked>) -> Option<(u64, u64)> {
    match asked {
        Some(asked) => Some((asked.k, asked.statement)),
        None => None,
    }
}

fn seen_of(txn: &Option<Txn>) -> Option<Seen> {
    match txn {
        Some(txn) => Some(Seen {
            me: txn.me,
            since: txn.since,
            asked: asked_by(txn.asked),
            undoing: txn.undoing,
            item: txn.item,
        }),
        None => None,
    }
}

// What is told of a session: its transaction, its number, and whether it reads, and writes.
type Told = (Option<Seen>, Xid, bool, bool);

fn told_of(txns: &Txns, s: u8) -> Told
    requires { IsOneOfEight s }
{
    let seen = seen_of(txns.txn(s));
    (seen, txns.me(s), txns.is_reading(s), txns.is_writing(s))
}

// Whether a session's snapshot sees a transaction that the tables have as committed.
fn sees(txns: &Txns, s: u8, xid: Xid) -> bool
    requires { IsOneOfEight s }
{
    match txns.txn(s) {
        Some(txn) => txn.snapshot.sees(xid, Fate::Committed, None),
        None => false,
    }
}

#[derive(Drop)]
struct Calls {
    // before, behind BEGIN, the Lock, the Write, ASK and the answer
    first: [Told; 6],
    answers: [(u8, u64, u64); 3],
    numbers: [(Option<u64>, u64, Xid); 3],
    // whether the first commit is seen by who began before it asked, between, and behind the answer
    seen: [bool; 3],
    // behind the Lock of the one that rolls back, the beginning of its rollback, and its end
    last: [Told; 3],
    reader: [Told; 2],
    marks: [Xid; 2],
    cleaners: [bool; 2],
}

impl Calls {
    fn new() -> Calls {
        let nobody = (None, 9, true, true);
        Calls {
            first: [nobody; 6],
            answers: [(9, 9, 9); 3],
            numbers: [(None, 9, 9); 3],
            seen: [true, true, false],
            last: [nobody; 3],
            reader: [nobody; 2],
            marks: [0; 2],
            cleaners: [true, false],
        }
    }

    fn lock_first(&mut self, alloc: Global, txns: &mut Txns, store: &mut Mem) -> Result<(), Refused>
        requires going { store.old.stopped ≡ false }
        ensures stands { OnOk result (StandsReady txns.new store.new) }
    {
        self.first[0] = told_of(txns, 1);
        self.numbers[0] = (txns.number(2), txns.answered(), txns.next());
        begin(alloc, txns, store, 1)?;
        self.first[1] = told_of(txns, 1);
        begin(alloc, txns, store, 2)?;
        lock(txns, store, 1)?;
        self.first[2] = told_of(txns, 1);
        Ok(())
    }

    fn ask_first(&mut self, alloc: Global, txns: &mut Txns, store: &mut Mem) -> Result<(), Refused>
        requires stands { StandsReady txns.old store.old }
        ensures going { OnOk result (store.new.stopped ≡ false) }
    {
        write(txns, store, 1, 0)?;
        self.first[3] = told_of(txns, 1);
        ask(txns, store, 1, 4)?;
        self.first[4] = told_of(txns, 1);
        self.numbers[1] = (txns.number(2), txns.answered(), txns.next());
        self.answers[0] = told(txns.answer_hardened(store));
        begin(alloc, txns, store, 4)?;
        Ok(())
    }

    fn answer_first(
        &mut self,
        alloc: Global,
        txns: &mut Txns,
        store: &mut Mem,
    ) -> Result<(), Refused>
        requires going { store.old.stopped ≡ false }
        ensures going { OnOk result (store.new.stopped ≡ false) }
    {
        store.harden()?;
        self.answers[1] = told(txns.answer_hardened(store));
        self.first[5] = told_of(txns, 1);
        self.numbers[2] = (txns.number(2), txns.answered(), txns.next());
        begin(alloc, txns, store, 3)?;
        self.seen = [sees(txns, 2, 2), sees(txns, 4, 2), sees(txns, 3, 2)];
        self.answers[2] = told(txns.answer_hardened(store));
        Ok(())
    }

    fn end_others(&mut self, txns: &mut Txns, store: &mut Mem) -> Result<(), Refused>
        requires going { store.old.stopped ≡ false }
    {
        txns.counts_sessions();
        self.reader[0] = told_of(txns, 2);
        end_reader(txns, 2)?;
        self.reader[1] = told_of(txns, 2);
        end_reader(txns, 4)?;
        self.cleaners[0] = txns.keeps_cleaners();
        txns.keep_cleaners(true);
        self.cleaners[1] = txns.keeps_cleaners();
        self.marks[0] = txns.low_mark(store.meta());
        lock(txns, store, 3)?;
        self.last[0] = told_of(txns, 3);
        txns.keep_item(3, false);
        txns.begin_rollback(3);
        self.last[1] = told_of(txns, 3);
        mark(txns, store, 3)?;
        self.last[2] = told_of(txns, 3);
        self.marks[1] = txns.low_mark(store.meta());
        Ok(())
    }
}

impl Play for Calls {
    fn play(&mut self, alloc: Global, txns: &mut Txns, store: &mut Mem) -> Result<(), Refused> {
        self.lock_first(alloc, txns, store)?;
        self.ask_first(alloc, txns, store)?;
        self.answer_first(alloc, txns, store)?;
        self.end_others(txns, store)
    }
}

// A transaction that saw so many commits.
fn since(since: u64) -> Seen {
    Seen {
        me: 0,
        since,
        asked: None,
        undoing: false,
        item: false,
    }
}

impl Calls {
    // What has to come, by hand, of the session that commits.
    fn first_is_right(&self) -> bool {
        let nobody = (None, 0, false, false);
        let first = Seen { me: 2, ..since(0) };
        let locked = Seen {
            item: true,
            ..first
        };
        let waiting = Seen {
            asked: Some((1, 4)),
            ..first
        };
        let told = [
            nobody,
            (Some(since(0)), 0, true, false),
            (Some(locked), 2, false, true),
            (Some(first), 2, false, true),
            (Some(waiting), 2, false, false),
            nobody,
        ];
        self.first == told
            && self.answers == [(0, 0, 0), (1, 1, 4), (0, 0, 0)]
            && self.numbers == [(None, 0, 2), (Some(1), 0, 3), (Some(1), 1, 3)]
    }

    // Of the others.
    fn others_are_right(&self) -> bool {
        let nobody = (None, 0, false, false);
        let third = Seen { me: 3, ..since(1) };
        let locked = Seen {
            item: true,
            ..third
        };
        let undoing = Seen {
            undoing: true,
            ..third
        };
        let told = [
            (Some(locked), 3, false, true),
            (Some(undoing), 3, false, true),
            nobody,
        ];
        self.seen == [false, false, true]
            && self.reader == [(Some(since(0)), 0, true, false), nobody]
            && self.last == told
            && self.cleaners == [false, true]
            && self.marks == [3, 4]
    }
}

fn goes_its_way(alloc: Global) -> bool {
    let mut calls = Calls::new();
    played(alloc, &mut calls) == Ok(()) && calls.first_is_right() && calls.others_are_right()
}

#[test]
fn each_call_on_its_way(rt: HostRuntime) -> Result<(), Fail> {
    assert!(rt; goes_its_way(rt.alloc()));
    Ok(())
}
