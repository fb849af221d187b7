// Commits of three sessions, asked for one behind another, that are answered by one call.
ghost use Rattle.std.specs.Prelude.{◌-◌, vec_len, vec_capacity};
ghost use Rattle.ctr_tests_txn.specs.StandsReady.{StandsReady};

use crate::plays::{Play, played};
use crate::refused::Refused;
use crate::steps::{ask, open};
use crate::turns::Mem;
use ctr_txn::{Answering, Asked, Txns};
use std::alloc::Global;
use std::test::Fail;

// What it was told, with room for as many as the list has been given.
#[derive(Drop)]
struct Answers {
    list: Vec<(u8, Asked)>,
}

impl Answering for Answers {
    ghost told = { λ self. self.list.items };

    ghost room = { λ self. vec_capacity self.list - vec_len self.list };

    fn answer(&mut self, s: u8, asked: Asked) {
        self.list.push_reserved((s, asked));
    }
}

// Answers all, where there is room to tell them.
fn answer(txns: &mut Txns, store: &Mem, answers: &mut Answers) {
    let room = answers.list.capacity().saturating_sub(answers.list.len());
    if txns.asked() <= txns.answered().saturating_add(room as u64) {
        txns.answer_all(store, answers);
    }
}

// How many were answered while a record waited; and those that were behind it, each a session, a commit number and a
// statement.
#[derive(Drop)]
struct AtOnce {
    early: usize,
    told: [(u8, u64, u64); 4],
}

impl AtOnce {
    fn tell(&mut self, answers: &[(u8, Asked)]) {
        for i in 0..4 {
            if let Some((s, asked)) = answers.get(i) {
                self.told[i] = (*s, asked.k, asked.statement);
            }
        }
    }

    fn ask_and_answer(
        &mut self,
        txns: &mut Txns,
        store: &mut Mem,
        answers: &mut Answers,
    ) -> Result<(), Refused>
        requires stands { StandsReady txns.old store.old }
    {
        ask(txns, store, 3, 13)?;
        ask(txns, store, 1, 11)?;
        ask(txns, store, 2, 12)?;
        answer(txns, store, answers);
        self.early = answers.list.len();
        store.harden()?;
        answer(txns, store, answers);
        self.tell(answers.list.as_slice());
        Ok(())
    }
}

impl Play for AtOnce {
    fn play(&mut self, alloc: Global, txns: &mut Txns, store: &mut Mem) -> Result<(), Refused> {
        let mut answers = Answers {
            list: Vec::new(alloc),
        };
        if answers.list.reserve(3).is_err() {
            return Err(Refused::NotAsked);
        }
        open(alloc, txns, store, 1)?;
        open(alloc, txns, store, 2)?;
        open(alloc, txns, store, 3)?;
        self.ask_and_answer(txns, store, &mut answers)
    }
}

fn answers_in_order(alloc: Global) -> bool {
    let mut play = AtOnce {
        early: 9,
        told: [(9, 9, 9); 4],
    };
    let told = [(3, 1, 13), (1, 2, 11), (2, 3, 12), (9, 9, 9)];
    played(alloc, &mut play) == Ok(()) && play.early == 0 && play.told == told
}

#[test]
fn all_that_asked_are_answered_by_one_call(rt: HostRuntime) -> Result<(), Fail> {
    assert!(rt; answers_in_order(rt.alloc()));
    Ok(())
}
