// Ten thousand commits of one run, each number looked up.
ghost use Rattle.std.specs.Prelude.{◌≡◌, false, OnOk};
ghost use Rattle.ctr_tests_txn.specs.StandsReady.{StandsReady};

use crate::plays::{Play, played};
use crate::refused::Refused;
use crate::steps::{ask, open, told};
use crate::turns::Mem;
use ctr_txn::Txns;
use std::alloc::Global;
use std::test::Fail;

// How often eight sessions commit.
const ROUNDS: u64 = 1250;

// How often each number is looked up: so often that a search through the run would take minutes.
const LOOKS: u64 = 1000;

// How many commits were answered in the order in which they were asked for, and how many numbers were looked up that
// are those by hand.
#[derive(Drop)]
struct Commits {
    in_order: u64,
    right: u64,
    answered: u64,
    outside: [Option<u64>; 2],
}

// Eight sessions begin and lock.
fn lock_all(alloc: Global, txns: &mut Txns, store: &mut Mem) -> Result<(), Refused>
    requires going { store.old.stopped ≡ false }
    ensures stands { OnOk result (StandsReady txns.new store.new) }
{
    for s in 1..8_u8 {
        open(alloc, txns, store, s)?;
    }
    open(alloc, txns, store, 8)?;
    Ok(())
}

// The last session asks first.
fn ask_all(txns: &mut Txns, store: &mut Mem, round: u64) -> Result<(), Refused>
    requires stands { StandsReady txns.old store.old }
    ensures going { OnOk result (store.new.stopped ≡ false) }
{
    for i in 0..8_u8 {
        ask(txns, store, 8 - i, round)?;
    }
    Ok(())
}

// How many of the eight are answered in that order.
fn answer_all(txns: &mut Txns, store: &Mem, round: u64) -> u64 {
    let mut count = 0_u64;
    for i in 0..8_u8 {
        let k = round.saturating_mul(8).saturating_add(1 + i as u64);
        if told(txns.answer_hardened(store)) == (8 - i, k, round) {
            count = count.saturating_add(1);
        }
    }
    count
}

fn commit_all(alloc: Global, txns: &mut Txns, store: &mut Mem, round: u64) -> Result<u64, Refused>
    requires going { store.old.stopped ≡ false }
    ensures going { OnOk result (store.new.stopped ≡ false) }
{
    lock_all(alloc, txns, store)?;
    ask_all(txns, store, round)?;
    store.harden()?;
    Ok(answer_all(txns, store, round))
}

// How many of a round's numbers are those by hand: the session s drew the number 8 * round + s + 1, and asked as the (9 - s)th.
fn right_in(txns: &Txns, round: u64) -> u64 {
    let before = round.saturating_mul(8);
    let mut count = 0_u64;
    for s in 1..9_u64 {
        if txns.number(before.saturating_add(s + 1)) == Some(before.saturating_add(9 - s)) {
            count = count.saturating_add(1);
        }
    }
    count
}

fn right_in_all(txns: &Txns) -> u64 {
    let mut count = 0_u64;
    for round in 0..ROUNDS {
        count = count.saturating_add(right_in(txns, round));
    }
    count
}

impl Commits {
    fn is_right(&self) -> bool {
        self.in_order == 10_000
            && self.right == 10_000_000
            && self.answered == 10_000
            && self.outside == [None; 2]
    }

    fn commit(&mut self, alloc: Global, txns: &mut Txns, store: &mut Mem) -> Result<(), Refused>
        requires going { store.old.stopped ≡ false }
    {
        for round in 0..ROUNDS {
            let count = commit_all(alloc, txns, store, round)?;
            self.in_order = self.in_order.saturating_add(count);
        }
        Ok(())
    }

    fn look(&mut self, txns: &Txns) {
        for _ in 0..LOOKS {
            self.right = self.right.saturating_add(right_in_all(txns));
        }
        self.answered = txns.answered();
        self.outside = [txns.number(1), txns.number(10_002)];
    }
}

impl Play for Commits {
    fn play(&mut self, alloc: Global, txns: &mut Txns, store: &mut Mem) -> Result<(), Refused> {
        self.commit(alloc, txns, store)?;
        self.look(txns);
        Ok(())
    }
}

fn commits_all(alloc: Global) -> bool {
    let mut commits = Commits {
        in_order: 0,
        right: 0,
        answered: 0,
        outside: [Some(0); 2],
    };
    played(alloc, &mut commits) == Ok(()) && commits.is_right()
}

#[test]
fn ten_thousand_commits_of_one_run_are_looked_up(rt: HostRuntime) -> Result<(), Fail> {
    assert!(rt; commits_all(rt.alloc()));
    Ok(())
}
