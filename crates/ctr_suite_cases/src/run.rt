// Runs of a script over the files of a database. Whoever owns a disk, a store or sessions here does nothing else.
ghost use Rattle.std.specs.Prelude.{◌≡◌, false, OnOk};
ghost use Rattle.ctr_suite_cases.specs.Over.{AreOver};

use crate::files::{Files, Mem, opened};
use crate::fitting::lines_fit;
use crate::lists::{given, set};
use crate::logged::gather;
use crate::opened::stuck_names;
use crate::trouble::Trouble;
use crate::turns::{Noted, play};
use ctr_exec::Sessions;
use ctr_log::Gathered;
use ctr_mem_disk::SilentDisk;
use ctr_types::{Entry, Line, List, Name, Script};
use std::alloc::Global;
use std::marker::Brand;
use std::sync::ledger::Blank;

/// How many lines a script may have, and one more.
const MOST_LINES: usize = 1 << 24;

/// What came of a run.
#[derive(Drop)]
pub struct Run {
    pub notes: Vec<Noted>,
    pub lines: List<Line>,
    /// The names that recovery holds.
    pub stuck: List<Name>,
    pub tape: Vec<Entry>,
    /// The records of the log at its end.
    pub log: Gathered,
}

impl Run {
    /// Nothing came yet.
    pub fn new(alloc: Global) -> Run {
        Run {
            notes: Vec::new(alloc),
            lines: List::new(alloc),
            stuck: List::new(alloc),
            tape: Vec::new(alloc),
            log: Gathered::new(alloc),
        }
    }
}

/// In which order turns are taken, each a session's digit or the cleaner's, and whether a hardening stands behind each.
#[derive(Clone, Copy)]
pub struct Order<'a> {
    pub digits: &'a [u8],
    pub hardens: bool,
}

// What sessions leave.
fn take_over(run: &mut Run, sessions: Sessions) {
    let Sessions {
        txns: _,
        locks: _,
        stuck,
        script,
        runners: _,
        tape,
    } = sessions;
    set(&mut run.stuck, stuck);
    set(&mut run.lines, script.lines);
    set(&mut run.tape, tape);
}

// Plays sessions that were made for that.
fn play_sessions(
    alloc: Global,
    store: &mut Mem,
    sessions: Sessions,
    order: Order,
    run: &mut Run,
) -> Result<(), Trouble>
    requires over { AreOver sessions store.old }
    ensures going { OnOk result (store.new.stopped ≡ false) }
{
    let mut sessions = sessions;
    let done = play::<Brand>(
        alloc,
        store,
        &mut sessions,
        order.digits,
        order.hardens,
        &mut run.notes,
        Blank::new(1),
    );
    take_over(run, sessions);
    done
}

/// Plays a script over an open store, which is hardened behind it.
pub fn play_over(
    alloc: Global,
    store: &mut Mem,
    lines: List<Line>,
    order: Order,
    run: &mut Run,
) -> Result<(), Trouble>
    requires going { store.old.stopped ≡ false }
    ensures going { OnOk result (store.new.stopped ≡ false) }
{
    if lines.len() >= MOST_LINES || !lines_fit(lines.as_slice()) {
        return Err(Trouble::Spelling);
    }
    let stuck = stuck_names(alloc, store)?;
    let next = store.meta().next();
    if next == 0 {
        return Err(Trouble::NotOpened);
    }
    let sessions = Sessions::new(alloc, next, stuck, Script { lines })?;
    play_sessions(alloc, store, sessions, order, run)?;
    store.harden()?;
    Ok(())
}

// The same over a store that was opened for that: the disk that it leaves, and how it went.
fn play_on(
    alloc: Global,
    store: Mem,
    lines: List<Line>,
    order: Order,
    run: &mut Run,
) -> (SilentDisk, Result<(), Trouble>)
    requires going { store.stopped ≡ false }
{
    let mut store = store;
    let done = play_over(alloc, &mut store, lines, order, run);
    (store.into_disk(), done)
}

// The records of the log that a run leaves.
fn read_log(alloc: Global, disk: &mut SilentDisk, run: &mut Run) {
    let _read = gather(alloc, disk, &mut run.log);
}

/// Plays a script over files: the disk that is left, and how it went.
pub fn play_files(
    alloc: Global,
    files: &Files,
    lines: List<Line>,
    order: Order,
    run: &mut Run,
) -> Result<SilentDisk, Trouble> {
    let Some(store) = opened(alloc, files) else {
        return Err(Trouble::NotOpened);
    };
    let (mut disk, done) = play_on(alloc, store, lines, order, run);
    read_log(alloc, &mut disk, run);
    given(done, disk)
}
