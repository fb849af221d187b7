// Each turn behind its own call of the gate, with the number of the turn.
use crate::seats::{SEATS, seat};
use ctr_types::{Actor, Turn};
use ctr_workers::{Gate, Turns, run_turns};
use std::sync::atomic::{AtomicU64, Ordering};
use std::test::Fail;

// How many turns a session and undo have.
const EACH: u64 = 1000;

// The number of each actor's last call, from 1, and how many calls didn't follow on the one before.
#[derive(Drop)]
struct Notes {
    second: AtomicU64,
    fifth: AtomicU64,
    eighth: AtomicU64,
    undo: AtomicU64,
    flusher: AtomicU64,
    cleaner: AtomicU64,
    others: AtomicU64,
    wrong: AtomicU64,
}

impl Notes {
    fn new() -> Notes {
        Notes {
            second: AtomicU64::new(0),
            fifth: AtomicU64::new(0),
            eighth: AtomicU64::new(0),
            undo: AtomicU64::new(0),
            flusher: AtomicU64::new(0),
            cleaner: AtomicU64::new(0),
            others: AtomicU64::new(0),
            wrong: AtomicU64::new(0),
        }
    }

    fn last(&self, actor: Actor) -> &AtomicU64 {
        match actor {
            Actor::Session(2) => &self.second,
            Actor::Session(5) => &self.fifth,
            Actor::Session(8) => &self.eighth,
            Actor::Session(_) => &self.others,
            Actor::Undo => &self.undo,
            Actor::Flusher => &self.flusher,
            Actor::Cleaner => &self.cleaner,
        }
    }
}

impl Gate for Notes {
    fn before(&self, actor: Actor, n: u64) {
        if self.last(actor).swap(n, Ordering::SeqCst) != n.wrapping_sub(1) {
            self.wrong.fetch_add(1, Ordering::SeqCst);
        }
    }
}

// Turns that look at the notes: an actor's n-th turn comes behind its n-th call of the gate, and before the next one.
#[derive(Drop)]
struct Looked<'a> {
    notes: &'a Notes,
    had: [u64; SEATS],
    wrong: u64,
}

impl<'a> Turns for Looked<'a> {
    ghost takes = { λ _. Unit {0} };

    ghost took = { λ _ _ _ _. Unit {0} };

    fn turn(&mut self, actor: Actor) -> Turn {
        let seat = seat(actor);
        self.had[seat] = self.had[seat].wrapping_add(1);
        if self.notes.last(actor).load(Ordering::SeqCst) != self.had[seat] {
            self.wrong = self.wrong.saturating_add(1);
        }
        match actor {
            Actor::Session(_) | Actor::Undo if self.had[seat] == EACH => Turn::Over,
            Actor::Flusher => Turn::Idle,
            Actor::Cleaner => Turn::Short,
            _ => Turn::Went,
        }
    }

    fn done(&self) -> bool {
        self.had[2] == EACH && self.had[5] == EACH && self.had[8] == EACH
    }
}

#[test]
fn each_turn_is_behind_its_gate(rt: HostRuntime) -> Result<(), Fail> {
    let notes = Notes::new();
    let looked = Looked {
        notes: &notes,
        had: [0; SEATS],
        wrong: 0,
    };
    let looked = run_turns(&rt, looked, 0b1001_0010, &notes);
    assert!(rt; looked.wrong == 0 && notes.wrong.load(Ordering::SeqCst) == 0);
    assert_eq!(rt;
        &looked.had[..10],
        [0, 0, EACH, 0, 0, EACH, 0, 0, EACH, EACH].as_slice()
    );
    assert!(rt; 1 <= looked.had[10] && 1 <= looked.had[11]);
    Ok(())
}
