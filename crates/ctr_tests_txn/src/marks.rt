// The low mark, as transactions come and go.
ghost use Rattle.std.specs.Prelude.{◌≡◌, false, OnOk};
ghost use Rattle.ctr_tests_txn.specs.StandsReady.{StandsReady};

use crate::plays::{Play, played};
use crate::refused::Refused;
use crate::steps::{ask, begin, end_reader, mark, open};
use crate::turns::Mem;
use ctr_txn::Txns;
use ctr_types::Xid;
use std::alloc::Global;
use std::test::Fail;

#[derive(Drop)]
struct Marks([Xid; 13]);

// A session commits, and is answered.
fn commit(txns: &mut Txns, store: &mut Mem, s: u8) -> Result<(), Refused>
    requires stands { StandsReady txns.old store.old }
    ensures going { OnOk result (store.new.stopped ≡ false) }
{
    ask(txns, store, s, 1)?;
    store.harden()?;
    let _ = txns.answer_hardened(store);
    Ok(())
}

impl Marks {
    // The snapshot of the first holds the mark while the second commits.
    fn hold(&mut self, alloc: Global, txns: &mut Txns, store: &mut Mem) -> Result<(), Refused>
        requires going { store.old.stopped ≡ false }
        ensures going { OnOk result (store.new.stopped ≡ false) }
    {
        self.0[0] = txns.low_mark(store.meta());
        begin(alloc, txns, store, 1)?;
        open(alloc, txns, store, 2)?;
        self.0[1] = txns.low_mark(store.meta());
        commit(txns, store, 2)?;
        self.0[2] = txns.low_mark(store.meta());
        end_reader(txns, 1)?;
        self.0[3] = txns.low_mark(store.meta());
        Ok(())
    }

    // The fifth begins while the fourth is open, and so names its number.
    fn name(&mut self, alloc: Global, txns: &mut Txns, store: &mut Mem) -> Result<(), Refused>
        requires going { store.old.stopped ≡ false }
        ensures going { OnOk result (store.new.stopped ≡ false) }
    {
        open(alloc, txns, store, 4)?;
        begin(alloc, txns, store, 5)?;
        open(alloc, txns, store, 6)?;
        commit(txns, store, 6)?;
        self.0[4] = txns.low_mark(store.meta());
        open(alloc, txns, store, 3)?;
        self.0[5] = txns.low_mark(store.meta());
        end_reader(txns, 5)?;
        self.0[6] = txns.low_mark(store.meta());
        Ok(())
    }

    // A transaction that asked holds it until it is answered.
    fn wait(&mut self, txns: &mut Txns, store: &mut Mem) -> Result<(), Refused>
        requires going { store.old.stopped ≡ false }
        ensures going { OnOk result (store.new.stopped ≡ false) }
    {
        mark(txns, store, 4)?;
        self.0[7] = txns.low_mark(store.meta());
        txns.begin_rollback(3);
        self.0[8] = txns.low_mark(store.meta());
        mark(txns, store, 3)?;
        self.0[9] = txns.low_mark(store.meta());
        Ok(())
    }

    fn ask(&mut self, alloc: Global, txns: &mut Txns, store: &mut Mem) -> Result<(), Refused>
        requires going { store.old.stopped ≡ false }
    {
        open(alloc, txns, store, 7)?;
        ask(txns, store, 7, 1)?;
        begin(alloc, txns, store, 8)?;
        self.0[10] = txns.low_mark(store.meta());
        store.harden()?;
        let _ = txns.answer_hardened(store);
        self.0[11] = txns.low_mark(store.meta());
        end_reader(txns, 8)?;
        self.0[12] = txns.low_mark(store.meta());
        Ok(())
    }
}

impl Play for Marks {
    fn play(&mut self, alloc: Global, txns: &mut Txns, store: &mut Mem) -> Result<(), Refused> {
        self.hold(alloc, txns, store)?;
        self.name(alloc, txns, store)?;
        self.wait(txns, store)?;
        self.ask(alloc, txns, store)
    }
}

fn marks_all(alloc: Global) -> bool {
    let mut marks = Marks([0; 13]);
    played(alloc, &mut marks) == Ok(()) && marks.0 == [2, 2, 2, 3, 3, 3, 3, 3, 5, 6, 6, 6, 7]
}

#[test]
fn the_low_mark_waits_for_all(rt: HostRuntime) -> Result<(), Fail> {
    assert!(rt; marks_all(rt.alloc()));
    Ok(())
}
