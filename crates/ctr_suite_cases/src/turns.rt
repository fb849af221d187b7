// Turns of the sessions of a script and of the cleaner, over a store, and what is noted of each.
ghost use Rattle.std.specs.Prelude.{◌≡◌, ◌<◌, OnOk};
ghost use Rattle.ctr_suite_cases.specs.Over.{AreOver};

use crate::cleaned::{Beside, FIRST, clean_beside};
use crate::files::Mem;
use crate::trouble::Trouble;
use ctr_emptying::Position;
use ctr_exec::Sessions;
use ctr_exec::control::flush;
use ctr_tally::Steps;
use ctr_types::Turn;
use std::alloc::Global;
use std::sync::ledger::{Blank, Ledger};

/// How many turns a session takes at most from the end of the order to its own.
const MOST_TURNS: u32 = 100_000;

/// How many positions the cleaner passes in a turn at most.
const POSITIONS: u32 = 32;

/// The cleaner's digit in an order of turns.
pub const CLEANER: u8 = b'0';

/// A record has no number from this on.
const LAST_NUMBER: u64 = (1 << 63) - 1;

/// What is noted of a turn.
#[derive(Clone, Copy)]
pub struct Noted {
    /// 0 is the cleaner.
    pub session: u8,
    /// Its session was over.
    pub over: bool,
    /// The first record behind the turn before, and the first behind this.
    pub records: (u64, u64),
    /// How many entries the tape had before it, and has behind it.
    pub entries: (usize, usize),
    /// How many pages are counted then; 0 where as many as before.
    pub counted: u32,
    /// Whether a file was written or synced in it.
    pub moved: bool,
    /// The disk's moment at its end.
    pub moment: u64,
}

// What is noted of the turn that begins here: nothing yet.
fn begun(store: &Mem, sessions: &Sessions, s: u8) -> Noted {
    Noted {
        session: s,
        over: false,
        records: (store.next(), store.next()),
        entries: (sessions.tape.len(), sessions.tape.len()),
        counted: store.counted(),
        moved: false,
        moment: store.moment(),
    }
}

// The same at its end.
fn ended(store: &Mem, sessions: &Sessions, noted: Noted, over: bool) -> Noted {
    let counted = store.counted();
    Noted {
        session: noted.session,
        over,
        records: (noted.records.0, store.next()),
        entries: (noted.entries.0, sessions.tape.len()),
        counted: if counted == noted.counted { 0 } else { counted },
        moved: store.moment() != noted.moment,
        moment: store.moment(),
    }
}

// A turn of a session, and a hardening behind it where that is wanted; whether the session isn't over.
fn take_turn<L: Ledger>(
    alloc: Global,
    store: &mut Mem,
    sessions: &mut Sessions,
    s: u8,
    hardens: bool,
    steps: &mut Steps<L>,
    notes: &mut Vec<Noted>,
) -> Result<bool, Trouble>
    requires over { AreOver sessions.old store.old }
    ensures over { OnOk result (AreOver sessions.new store.new) }
{
    if s < 1 || s > 8 {
        return Err(Trouble::Spelling);
    }
    if store.next() >= LAST_NUMBER {
        return Err(Trouble::Worn);
    }
    let noted = begun(store, sessions, s);
    let over = sessions.turn(alloc, store, s, steps)? == Turn::Over;
    let mut noted = ended(store, sessions, noted, over);
    if hardens && !over {
        flush(store)?;
        noted.moment = store.moment();
    }
    notes.push(noted)?;
    Ok(!over)
}

// Steps of the cleaner up to its first record, at so many positions at most.
fn clean(store: &mut Mem, sessions: &Sessions, at: &mut Position) -> Result<(), Trouble>
    requires over { AreOver sessions.now store.old }
    ensures over { OnOk result (AreOver sessions.now store.new) }
{
    for _ in 0..POSITIONS {
        let beside = Beside {
            locks: &sessions.locks,
            low: sessions.txns.low_mark(store.meta()),
        };
        if clean_beside(store, beside, at)? {
            return Ok(());
        }
    }
    Ok(())
}

// A turn of the cleaner, and a hardening behind it where that is wanted.
fn take_cleaning(
    store: &mut Mem,
    sessions: &Sessions,
    at: &mut Position,
    hardens: bool,
    notes: &mut Vec<Noted>,
) -> Result<(), Trouble>
    requires over { AreOver sessions.now store.old }
    ensures over { OnOk result (AreOver sessions.now store.new) }
{
    let noted = begun(store, sessions, 0);
    clean(store, sessions, at)?;
    let mut noted = ended(store, sessions, noted, false);
    if hardens {
        flush(store)?;
        noted.moment = store.moment();
    }
    notes.push(noted)?;
    Ok(())
}

// Turns in this order, each a session's digit or the cleaner's.
fn take_order<L: Ledger>(
    alloc: Global,
    store: &mut Mem,
    sessions: &mut Sessions,
    order: &[u8],
    hardens: bool,
    steps: &mut Steps<L>,
    notes: &mut Vec<Noted>,
) -> Result<(), Trouble>
    requires over { AreOver sessions.old store.old }
    ensures over { OnOk result (AreOver sessions.new store.new) }
{
    let mut at = FIRST;
    for digit in order {
        if *digit == CLEANER {
            take_cleaning(store, sessions, &mut at, hardens, notes)?;
        } else {
            let s = digit.saturating_sub(b'0');
            let _goes_on = take_turn(alloc, store, sessions, s, hardens, steps, notes)?;
        }
    }
    Ok(())
}

// Turns of a session until it is over, of which the last isn't noted.
fn take_rest<L: Ledger>(
    alloc: Global,
    store: &mut Mem,
    sessions: &mut Sessions,
    s: u8,
    hardens: bool,
    steps: &mut Steps<L>,
    notes: &mut Vec<Noted>,
) -> Result<(), Trouble>
    requires over { AreOver sessions.old store.old }
    ensures over { OnOk result (AreOver sessions.new store.new) }
{
    for _ in 0..MOST_TURNS {
        if !take_turn(alloc, store, sessions, s, hardens, steps, notes)? {
            let _over = notes.pop();
            return Ok(());
        }
    }
    Err(Trouble::NotOver)
}

// The turns of the order, and then those of each session to its end.
fn take_all<L: Ledger>(
    alloc: Global,
    store: &mut Mem,
    sessions: &mut Sessions,
    order: &[u8],
    hardens: bool,
    steps: &mut Steps<L>,
    notes: &mut Vec<Noted>,
) -> Result<(), Trouble>
    requires over { AreOver sessions.old store.old }
    ensures over { OnOk result (AreOver sessions.new store.new) }
{
    take_order(alloc, store, sessions, order, hardens, steps, notes)?;
    for s in 1..9 {
        take_rest(alloc, store, sessions, s, hardens, steps, notes)?;
    }
    Ok(())
}

/// Plays the sessions over a store by turns in this order, each a session's digit or the cleaner's, and then each session to its end, in
/// order of number; a hardening stands behind each turn where that is wanted.
pub fn play<L: Ledger>(
    alloc: Global,
    store: &mut Mem,
    sessions: &mut Sessions,
    order: &[u8],
    hardens: bool,
    notes: &mut Vec<Noted>,
    blank: Blank,
) -> Result<(), Trouble>
    requires name { blank.name ≡ L.name }
    requires parts { (blank.parts ≡ L.parts) × (0 < blank.parts) }
    requires over { AreOver sessions.old store.old }
    ensures over { OnOk result (AreOver sessions.new store.new) }
{
    let mut steps = Steps::<L>::new(blank);
    take_all(alloc, store, sessions, order, hardens, &mut steps, notes)
}
