// How workers end, and which there are.
use crate::seats::{SEATS, seat};
use ctr_types::{Actor, Turn};
use ctr_workers::{OpenGate, Turns, run_turns};
use std::test::Fail;

// Every turn has this answer.
#[derive(Drop)]
struct Same {
    answer: Turn,
    done: bool,
    had: [u64; SEATS],
}

impl Turns for Same {
    ghost takes = { λ _. Unit {0} };

    ghost took = { λ _ _ _ _. Unit {0} };

    fn turn(&mut self, actor: Actor) -> Turn {
        let seat = seat(actor);
        self.had[seat] = self.had[seat].saturating_add(1);
        self.answer
    }

    fn done(&self) -> bool {
        self.done
    }
}

// How many turns each had, where all have the same answer. Of session 0 there is none.
const CASES: [(u8, Turn, [u64; SEATS]); 5] = [
    (0, Turn::Over, [0, 0, 0, 0, 0, 0, 0, 0, 0, 1, 1, 1]),
    (1, Turn::Over, [0, 1, 0, 0, 0, 0, 0, 0, 0, 1, 1, 1]),
    (
        0b1000_0001,
        Turn::Stopped,
        [0, 1, 0, 0, 0, 0, 0, 0, 1, 1, 1, 1],
    ),
    (
        0b0111_1110,
        Turn::Over,
        [0, 0, 1, 1, 1, 1, 1, 1, 0, 1, 1, 1],
    ),
    (255, Turn::Stopped, [0, 1, 1, 1, 1, 1, 1, 1, 1, 1, 1, 1]),
];

#[test]
fn a_worker_ends_at_over_and_at_stopped(rt: HostRuntime) -> Result<(), Fail> {
    for (sessions, answer, had) in CASES {
        for done in [false, true] {
            let same = Same {
                answer,
                done,
                had: [0; SEATS],
            };
            let same = run_turns(&rt, same, sessions, &OpenGate);
            assert_eq!(rt; same.had, had, "sessions {sessions}");
        }
    }
    Ok(())
}
