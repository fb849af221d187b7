// Eight sessions between their Locks and their Writes, with the cleaner beside them: what they still do takes the room that
// was kept, and no memory. What runs behind the Locks is handed no allocator; and where this is asked for, all memory is
// taken there, so that whatever asks for some is refused it.
ghost use Rattle.std.specs.Prelude.{◌≡◌, false, OnOk};
ghost use Rattle.ctr_tests_txn.specs.StandsReady.{StandsReady};

use crate::hoard::Hoard;
use crate::plays::{Play, played};
use crate::refused::Refused;
use crate::steps::{ask, begin, lock, told, write, write_cleaners};
use crate::turns::Mem;
use ctr_txn::Txns;
use ctr_types::Xid;
use std::alloc::Global;
use std::env;
use std::test::Fail;

// checks/refused sets it: memory has a limit there, and is to be refused behind the Locks.
const REFUSE: &str = "CTR_REFUSE";

// What each session was answered, from 1 on; how many items there are once all have written; and the answers of commits, each
// a session, a commit number and a statement, before all was hardened and behind it.
#[derive(Drop)]
struct Eight {
    begun: [u64; 8],
    numbers: [Xid; 8],
    items: usize,
    asked: [u64; 8],
    early: (u8, u64, u64),
    answered: [(u8, u64, u64); 9],
    // what takes the memory that there is, if it is to be refused; and whether none was left, each time
    hoard: Option<Hoard>,
    refused: bool,
}

impl Eight {
    fn new(hoard: Option<Hoard>) -> Eight {
        Eight {
            begun: [9; 8],
            numbers: [0; 8],
            items: 0,
            asked: [0; 8],
            early: (9, 9, 9),
            answered: [(9, 9, 9); 9],
            hoard,
            refused: true,
        }
    }

    // What has to come, by hand: 2 is the first number that is drawn, the last session asks first, and each item of
    // the nine is there once all have written.
    fn is_right(&self) -> bool {
        let answered = [
            (8, 1, 18),
            (7, 2, 17),
            (6, 3, 16),
            (5, 4, 15),
            (4, 5, 14),
            (3, 6, 13),
            (2, 7, 12),
            (1, 8, 11),
            (0, 0, 0),
        ];
        self.begun == [0; 8]
            && self.numbers == [2, 3, 4, 5, 6, 7, 8, 9]
            && self.items == 9
            && self.asked == [8, 7, 6, 5, 4, 3, 2, 1]
            && self.early == (0, 0, 0)
            && self.answered == answered
            && self.refused
    }

    // From here on memory is refused, if it is to be. It is called again behind each call, which may have let go of some.
    fn refuse(&mut self) {
        if let Some(hoard) = &mut self.hoard {
            self.refused = hoard.take_all() && self.refused;
        }
    }

    fn begin_all(&mut self, alloc: Global, txns: &mut Txns, store: &Mem) -> Result<(), Refused> {
        for s in 1..9_u8 {
            self.begun[s as usize - 1] = begin(alloc, txns, store, s)?;
        }
        Ok(())
    }

    // The room of all and the cleaner's is there behind the last Lock.
    fn lock_all(&mut self, txns: &mut Txns, store: &mut Mem) -> Result<(), Refused>
        requires going { store.old.stopped ≡ false }
        ensures stands { OnOk result (StandsReady txns.new store.new) }
    {
        for s in 1..8_u8 {
            self.numbers[s as usize - 1] = lock(txns, store, s)?;
        }
        txns.keep_cleaners(true);
        self.numbers[7] = lock(txns, store, 8)?;
        Ok(())
    }

    fn write_all(&mut self, txns: &mut Txns, store: &mut Mem) -> Result<(), Refused>
        requires stands { StandsReady txns.old store.old }
        ensures stands { OnOk result (StandsReady txns.new store.new) }
    {
        for s in 1..9_u8 {
            write(txns, store, s, s - 1)?;
            self.refuse();
        }
        write_cleaners(txns, store, 1, 8)?;
        self.refuse();
        self.items = store.meta().items().len();
        Ok(())
    }

    // The last session asks first.
    fn ask_all(&mut self, txns: &mut Txns, store: &mut Mem) -> Result<(), Refused>
        requires stands { StandsReady txns.old store.old }
        ensures stands { OnOk result (StandsReady txns.new store.new) }
    {
        for i in 0..8_u8 {
            let s = 8 - i;
            self.asked[s as usize - 1] = ask(txns, store, s, 10 + s as u64)?;
            self.refuse();
        }
        Ok(())
    }

    fn answer_all(&mut self, txns: &mut Txns, store: &Mem) {
        for i in 0..9 {
            self.answered[i] = told(txns.answer_hardened(store));
            self.refuse();
        }
    }

    // All that is behind the Locks.
    fn finish(&mut self, txns: &mut Txns, store: &mut Mem) -> Result<(), Refused>
        requires stands { StandsReady txns.old store.old }
    {
        self.refuse();
        self.write_all(txns, store)?;
        self.ask_all(txns, store)?;
        self.early = told(txns.answer_hardened(store));
        store.harden()?;
        self.refuse();
        self.answer_all(txns, store);
        Ok(())
    }
}

impl Play for Eight {
    fn play(&mut self, alloc: Global, txns: &mut Txns, store: &mut Mem) -> Result<(), Refused> {
        self.begin_all(alloc, txns, store)?;
        self.lock_all(txns, store)?;
        self.finish(txns, store)
    }
}

fn finishes(alloc: Global, hoard: Option<Hoard>) -> bool {
    let mut eight = Eight::new(hoard);
    played(alloc, &mut eight) == Ok(()) && eight.is_right()
}

#[test]
fn eight_locked_sessions_finish_by_the_room_that_was_kept(rt: HostRuntime) -> Result<(), Fail> {
    assert!(rt; finishes(rt.alloc(), None));
    // By now the stack has grown as far as it has to, which takes memory too.
    if env::var(&rt, REFUSE).is_ok() {
        assert!(rt;
            finishes(rt.alloc(), Some(Hoard::new(rt.alloc())?)),
            "all memory was refused, and the sessions finished"
        );
    }
    Ok(())
}
