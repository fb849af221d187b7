// The ways of a rollback: its own items are taken, and then it is marked; a mark before that is refused.
ghost use Rattle.std.specs.Prelude.{◌≡◌, false, OnOk};

use crate::plays::{Play, played};
use crate::refused::Refused;
use crate::steps::{lock, mark, open, take_item, told, write};
use crate::turns::Mem;
use ctr_rec::SlogItem;
use ctr_txn::Txns;
use ctr_types::{Damage, Fate, File, Xid};
use std::alloc::Global;
use std::test::Fail;

// A session drops two tables, each behind a Lock of its own.
fn write_two(alloc: Global, txns: &mut Txns, store: &mut Mem) -> Result<(), Refused>
    requires going { store.old.stopped ≡ false }
    ensures going { OnOk result (store.new.stopped ≡ false) }
{
    open(alloc, txns, store, 1)?;
    write(txns, store, 1, 0)?;
    lock(txns, store, 1)?;
    write(txns, store, 1, 5)
}

// The items that are taken, and none behind them; how many there were before and how many are left; the session's number in
// the end, its commit number, and how it stands; what is answered once all is hardened.
#[derive(Drop)]
struct Rollback {
    taken: [Option<SlogItem>; 3],
    items: [usize; 2],
    ends: (Xid, Option<u64>, Fate),
    answer: (u8, u64, u64),
}

impl Rollback {
    // What has to come, by hand. It has no head, so the aborted transaction map doesn't have it, and it counts as committed.
    fn is_right(&self) -> bool {
        let latest = SlogItem::DropOf(2, 5);
        let first = SlogItem::DropOf(2, 0);
        self.taken == [Some(latest), Some(first), None]
            && self.items == [2, 0]
            && self.ends == (0, None, Fate::Committed)
            && self.answer == (0, 0, 0)
    }

    fn undo(&mut self, txns: &mut Txns, store: &mut Mem) -> Result<(), Refused>
        requires going { store.old.stopped ≡ false }
        ensures going { OnOk result (store.new.stopped ≡ false) }
    {
        self.items[0] = store.meta().items().len();
        txns.begin_rollback(1);
        for i in 0..3 {
            self.taken[i] = take_item(txns, store, 1)?;
        }
        self.items[1] = store.meta().items().len();
        mark(txns, store, 1)
    }

    fn look(&mut self, txns: &mut Txns, store: &mut Mem) -> Result<(), Refused>
        requires going { store.old.stopped ≡ false }
    {
        self.ends = (txns.me(1), txns.number(2), store.meta().fate(2));
        store.harden()?;
        self.answer = told(txns.answer_hardened(store));
        Ok(())
    }
}

impl Play for Rollback {
    fn play(&mut self, alloc: Global, txns: &mut Txns, store: &mut Mem) -> Result<(), Refused> {
        write_two(alloc, txns, store)?;
        self.undo(txns, store)?;
        self.look(txns, store)
    }
}

fn takes_items_first(alloc: Global) -> bool {
    let mut rollback = Rollback {
        taken: [None; 3],
        items: [9; 2],
        ends: (9, Some(9), Fate::Later),
        answer: (9, 9, 9),
    };
    played(alloc, &mut rollback) == Ok(()) && rollback.is_right()
}

#[test]
fn a_rollback_takes_its_own_items_first(rt: HostRuntime) -> Result<(), Fail> {
    assert!(rt; takes_items_first(rt.alloc()));
    Ok(())
}

// A mark while items of its own are there: how it ends, and the session's number behind it.
#[derive(Drop)]
struct Early {
    marked: Result<(), Refused>,
    me: Xid,
    writes: bool,
}

impl Play for Early {
    fn play(&mut self, alloc: Global, txns: &mut Txns, store: &mut Mem) -> Result<(), Refused> {
        open(alloc, txns, store, 1)?;
        write(txns, store, 1, 0)?;
        self.marked = mark(txns, store, 1);
        self.me = txns.me(1);
        self.writes = txns.is_writing(1);
        Ok(())
    }
}

impl Early {
    // The place is behind the Checkpoint's batch, at 63, its header, a Begin and a Drop in their frames.
    fn is_right(&self) -> bool {
        let damage = Damage {
            file: File::LogA,
            at: 63 + 21 + (8 + 10) + (8 + 27) + 8,
            want: 0,
            got: 1,
        };
        self.marked == Err(Refused::Damaged(damage)) && self.me == 2 && self.writes
    }
}

fn refuses_early(alloc: Global) -> bool {
    let mut early = Early {
        marked: Ok(()),
        me: 0,
        writes: false,
    };
    played(alloc, &mut early) == Ok(()) && early.is_right()
}

#[test]
fn a_mark_over_an_item_is_refused(rt: HostRuntime) -> Result<(), Fail> {
    assert!(rt; refuses_early(rt.alloc()));
    Ok(())
}
