// A generation of the log for which memory is refused isn't begun, and the log goes on as it was; with memory it is begun.
ghost use Rattle.std.specs.Prelude.{◌≡◌, false, OnOk};

use crate::hoard::Hoard;
use crate::plays::{Play, played};
use crate::refused::Refused;
use crate::steps::open;
use crate::turns::Mem;
use ctr_store::Generation;
use ctr_txn::Txns;
use std::alloc::Global;
use std::env;
use std::test::Fail;

// checks/refused sets it: memory has a limit there, and is to be refused.
const REFUSE: &str = "CTR_REFUSE";

// Begins a generation; None where none may begin.
fn begin(alloc: Global, store: &mut Mem) -> Result<Option<Generation>, Refused>
    requires going { store.old.stopped ≡ false }
    ensures going { OnOk result (store.new.stopped ≡ false) }
{
    if store.keeps_older() || !store.is_hardened() || store.next() >= 1 << 62 {
        return Ok(None);
    }
    Ok(Some(store.begin_checkpoint(alloc)?))
}

#[derive(Drop)]
struct Switch {
    // what takes the memory that there is, if it is to be refused; and whether none was left
    hoard: Option<Hoard>,
    refused: bool,
    // what was answered without memory, and with it
    answers: [Option<Generation>; 2],
    // the next number of a record before both, between them and behind them
    numbers: [u64; 3],
}

impl Switch {
    fn new(hoard: Option<Hoard>) -> Switch {
        Switch {
            hoard,
            refused: false,
            answers: [None; 2],
            numbers: [0; 3],
        }
    }

    fn begin_refused(&mut self, alloc: Global, store: &mut Mem) -> Result<(), Refused>
        requires going { store.old.stopped ≡ false }
        ensures going { OnOk result (store.new.stopped ≡ false) }
    {
        if let Some(hoard) = &mut self.hoard {
            self.refused = hoard.take_all();
            self.answers[0] = begin(alloc, store)?;
        }
        Ok(())
    }

    fn switch(&mut self, alloc: Global, store: &mut Mem) -> Result<(), Refused>
        requires going { store.old.stopped ≡ false }
    {
        self.numbers[0] = store.next();
        self.begin_refused(alloc, store)?;
        self.numbers[1] = store.next();
        self.hoard = None;
        self.answers[1] = begin(alloc, store)?;
        self.numbers[2] = store.next();
        Ok(())
    }

    // The Checkpoint is the one record that came.
    fn is_right(&self, refuses: bool) -> bool {
        let first = if refuses {
            Some(Generation::OutOfMemory)
        } else {
            None
        };
        self.refused == refuses
            && self.answers == [first, Some(Generation::Begun)]
            && self.numbers[1] == self.numbers[0]
            && self.numbers[2] == self.numbers[1].saturating_add(1)
    }
}

// A transaction is open, and all is durable.
impl Play for Switch {
    fn play(&mut self, alloc: Global, txns: &mut Txns, store: &mut Mem) -> Result<(), Refused> {
        let _number = open(alloc, txns, store, 1)?;
        store.harden()?;
        self.switch(alloc, store)
    }
}

fn switches(alloc: Global, hoard: Option<Hoard>) -> bool {
    let refuses = hoard.is_some();
    let mut switch = Switch::new(hoard);
    played(alloc, &mut switch) == Ok(()) && switch.is_right(refuses)
}

#[test]
fn a_generation_that_is_refused_memory_changes_nothing(rt: HostRuntime) -> Result<(), Fail> {
    assert!(rt; switches(rt.alloc(), None));
    if env::var(&rt, REFUSE).is_ok() {
        assert!(rt;
            switches(rt.alloc(), Some(Hoard::new(rt.alloc())?)),
            "all memory was refused, and the generation with it"
        );
    }
    Ok(())
}
