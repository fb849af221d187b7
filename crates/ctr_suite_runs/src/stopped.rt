// Generated scripts of so many sessions, each under every stop.
use crate::meetings::made;
use crate::sweep::{Swept, sweep_rested};
use ctr_mem_disk::Image;
use ctr_suite_judge::{Ask, Engine, Ran, Right, Setup, Wrong, led_from};
use ctr_suite_steps::{Length, Maker, Page};
use ctr_types::OutOfMemory;
use std::alloc::Global;

/// A script is short, since it has many stops.
const LENGTH: Length = Length {
    transactions: 1,
    statements: 2,
};

/// What was played, and what stops left of it.
#[derive(Clone, Copy)]
pub struct Stopped {
    orders: u64,
    /// Runs that weren't finished, or whose tapes weren't legal.
    illegal: u64,
    swept: Swept,
}

impl Stopped {
    pub fn new() -> Stopped {
        Stopped {
            orders: 0,
            illegal: 0,
            swept: Swept::new(),
        }
    }

    // One that is wrong as a whole.
    fn refuse(&mut self) {
        self.illegal = self.illegal.saturating_add(1);
    }

    pub fn put(self, alloc: Global, page: &mut Page) {
        page.put_number(alloc, "orders ", self.orders);
        page.put_number(alloc, ", illegal ", self.illegal);
        page.put_number(alloc, ", stops ", self.swept.stops);
        page.put_number(alloc, ", images ", self.swept.images);
        page.put_number(alloc, ", wrong ", self.swept.wrong);
        page.put(b"\n");
    }

    // What was wrong first.
    fn wrong(self) -> Wrong {
        if self.illegal > 0 {
            return Some("it isn't finished, or its tape isn't legal");
        }
        self.swept.first
    }
}

// Sweeps the stops of a run, after which its tape leads to what is right.
fn sweep_ran<E: Engine>(
    alloc: Global,
    setup: &Setup,
    before: &Right,
    ran: &Ran,
    stopped: &mut Stopped,
) -> Result<(), OutOfMemory> {
    stopped.orders = stopped.orders.saturating_add(1);
    if ran.status != 0 {
        stopped.refuse();
        return Ok(());
    }
    match led_from::<E>(alloc, before, setup, ran)? {
        None => {
            stopped.refuse();
            Ok(())
        }
        Some(right) => {
            let done = sweep_rested::<E>(alloc, setup, &right, &mut stopped.swept);
            drop(right);
            done
        }
    }
}

fn sweep_setup<E: Engine>(
    alloc: Global,
    setup: &Setup,
    before: &Right,
    stopped: &mut Stopped,
) -> Result<(), OutOfMemory> {
    let ran = E::play(alloc, setup, Ask::Last)?;
    let done = sweep_ran::<E>(alloc, setup, before, &ran, stopped);
    drop(ran);
    done
}

fn sweep_made<E: Engine>(
    alloc: Global,
    image: &Image,
    before: &Right,
    maker: &mut Maker,
    stopped: &mut Stopped,
) -> Result<(), OutOfMemory> {
    let setup = made(alloc, image, maker)?;
    let done = sweep_setup::<E>(alloc, &setup, before, stopped);
    drop(setup);
    done
}

// The script of a number, if it is one of so many sessions.
fn sweep_number<E: Engine>(
    alloc: Global,
    image: &Image,
    before: &Right,
    number: u64,
    sessions: u64,
    stopped: &mut Stopped,
) -> Result<(), OutOfMemory> {
    let mut maker = Maker::new(alloc, number, LENGTH);
    let mut done = Ok(());
    if maker.sessions() == sessions {
        done = sweep_made::<E>(alloc, image, before, &mut maker, stopped);
    }
    drop(maker);
    done
}

// Names the first script of which something is wrong.
fn tell(alloc: Global, page: &mut Page, number: u64, before: Stopped, stopped: Stopped) {
    if before.wrong().is_some() {
        return;
    }
    if let Some(wrong) = stopped.wrong() {
        page.put_number(alloc, "WRONG: first in script ", number);
        page.put(b": ");
        page.put(wrong.as_bytes());
        page.put(b"\n");
    }
}

/// Plays those of the scripts from one number to another that have so many sessions, each with a stop behind each of its calls, and judges what
/// each leaves: rows of a prefix of the commits, and behind undo and the cleaner the same ones, and nothing else.
pub fn stop_each<E: Engine>(
    alloc: Global,
    image: &Image,
    right: &Right,
    (from, to): (u64, u64),
    sessions: u64,
    page: &mut Page,
) -> Result<(), OutOfMemory> {
    let mut stopped = Stopped::new();
    for number in from..=to {
        let before = stopped;
        sweep_number::<E>(alloc, image, right, number, sessions, &mut stopped)?;
        tell(alloc, page, number, before, stopped);
    }
    stopped.put(alloc, page);
    Ok(())
}
