// Sessions on threads: that they come between each other's statements, and that their tapes are right.
use crate::gates::{Crossing, Crowd};
use crate::judged::{Base, Verdict, command, judged, prepared};
use crate::met::Met;
use crate::play::play;
use ctr_suite_judge::Setup;
use ctr_suite_steps::{Length, Maker};
use ctr_top::Gate;
use ctr_types::OutOfMemory;
use std::alloc::Global;
use std::sync::Wait;
use std::test::Fail;
use std::thread::Threads;

// What makes the database: tables with the columns and keys of scripts that are made from a number.
const BEFORE: &[u8] = b"1> BEGIN;
1> CREATE TABLE a (k INT PRIMARY KEY, v INT, t TEXT(1));
1> CREATE TABLE b (k INT PRIMARY KEY, v INT, t TEXT(1));
1> INSERT INTO a VALUES (1, 10, 'a');
1> INSERT INTO a VALUES (2, 20, 'b');
1> INSERT INTO b VALUES (1, 30, 'c');
1> COMMIT;
";

// Two sessions of three statements each.
const CROSSING: &[u8] = b"1> BEGIN;
1> UPDATE a SET v = 1 WHERE k = 1;
1> COMMIT;
2> BEGIN;
2> UPDATE a SET v = 2 WHERE k = 2;
2> COMMIT;
";

const LENGTH: Length = Length {
    transactions: 3,
    statements: 4,
};

// Plays a command on threads behind a gate, judges it, and counts what was met.
fn met_by<R: Threads + Wait + Sync, G: Gate + Sync>(
    rt: &R,
    alloc: Global,
    base: &Base,
    setup: &Setup,
    gate: &G,
    met: &mut Met,
) -> Result<Verdict, OutOfMemory> {
    let told = play(rt, alloc, setup, gate)?;
    met.count(told.ran.tape.entries.as_slice());
    let verdict = judged(alloc, &base.right, setup, &told.ran);
    drop(told);
    verdict
}

// The same of a script on threads.
fn met_on_threads<R: Threads + Wait + Sync, G: Gate + Sync>(
    rt: &R,
    alloc: Global,
    base: &Base,
    script: &[u8],
    gate: &G,
    met: &mut Met,
) -> Result<Verdict, OutOfMemory> {
    let setup = command(alloc, "run d --threads", script, &base.image)?;
    let verdict = met_by(rt, alloc, base, &setup, gate, met);
    drop(setup);
    verdict
}

// The script of a number, where that has eight sessions.
fn made(alloc: Global, number: u64) -> Result<Option<Vec<u8>>, OutOfMemory> {
    let mut maker = Maker::new(alloc, number, LENGTH);
    let script = if maker.sessions() == 8 {
        Some(maker.script())
    } else {
        None
    };
    drop(maker);
    script.transpose()
}

// Plays a script on threads, and judges it.
fn meet<R: Threads + Wait + Sync>(
    rt: &R,
    alloc: Global,
    base: &Base,
    script: Vec<u8>,
    met: &mut Met,
) -> Result<Verdict, OutOfMemory> {
    let gate = Crowd::new();
    let verdict = met_on_threads(rt, alloc, base, &script, &gate, met);
    drop(script);
    verdict
}

// What came of the scripts of a test.
#[derive(Clone, Copy, Debug)]
struct Played {
    met: Met,
    // Scripts of eight sessions that were come by, and those of them that were played.
    come: u64,
    scripts: u64,
    // The last script that was played wrongly.
    wrong: Option<(u64, Verdict)>,
}

impl Played {
    fn count(&mut self, number: u64, verdict: Verdict) {
        self.scripts = self.scripts.saturating_add(1);
        if verdict != Verdict::Well {
            self.wrong = Some((number, verdict));
        }
    }

    // Whether the next script of eight sessions is one of the half that is played: the first, the third and so on, or the others.
    fn is_due(&mut self, first: bool) -> bool {
        let is_first = self.come % 2 == 0;
        self.come = self.come.saturating_add(1);
        is_first == first
    }

    fn is_right(self) -> bool {
        self.scripts == 25 && self.wrong.is_none() && self.met.has_all(12)
    }
}

fn meet_all<R: Threads + Wait + Sync>(
    rt: &R,
    alloc: Global,
    base: &Base,
    (from, to): (u64, u64),
    first: bool,
) -> Result<Played, OutOfMemory> {
    let mut played = Played {
        met: Met::new(),
        come: 0,
        scripts: 0,
        wrong: None,
    };
    for number in from..=to {
        let Some(script) = made(alloc, number)? else {
            continue;
        };
        if !played.is_due(first) {
            drop(script);
            continue;
        }
        let verdict = meet(rt, alloc, base, script, &mut played.met)?;
        played.count(number, verdict);
    }
    Ok(played)
}

// Plays half of the fifty scripts of eight sessions among those of these numbers.
fn meet_half<R: Threads + Wait + Sync>(
    rt: &R,
    alloc: Global,
    numbers: (u64, u64),
    first: bool,
) -> Result<Played, OutOfMemory> {
    let base = prepared(alloc, BEFORE)?;
    let played = meet_all(rt, alloc, &base, numbers, first);
    drop(base);
    played
}

#[test]
fn scripts_of_eight_sessions_are_right_1(rt: HostRuntime) -> Result<(), Fail> {
    let played = meet_half(&rt, rt.alloc(), (1, 346), true)?;
    assert!(rt; played.is_right(), "{played:?}");
    Ok(())
}

#[test]
fn scripts_of_eight_sessions_are_right_2(rt: HostRuntime) -> Result<(), Fail> {
    let played = meet_half(&rt, rt.alloc(), (1, 346), false)?;
    assert!(rt; played.is_right(), "{played:?}");
    Ok(())
}

#[test]
fn scripts_of_eight_sessions_are_right_3(rt: HostRuntime) -> Result<(), Fail> {
    let played = meet_half(&rt, rt.alloc(), (347, 739), true)?;
    assert!(rt; played.is_right(), "{played:?}");
    Ok(())
}

#[test]
fn scripts_of_eight_sessions_are_right_4(rt: HostRuntime) -> Result<(), Fail> {
    let played = meet_half(&rt, rt.alloc(), (347, 739), false)?;
    assert!(rt; played.is_right(), "{played:?}");
    Ok(())
}

#[test]
fn scripts_of_eight_sessions_are_right_5(rt: HostRuntime) -> Result<(), Fail> {
    let played = meet_half(&rt, rt.alloc(), (740, 1224), true)?;
    assert!(rt; played.is_right(), "{played:?}");
    Ok(())
}

#[test]
fn scripts_of_eight_sessions_are_right_6(rt: HostRuntime) -> Result<(), Fail> {
    let played = meet_half(&rt, rt.alloc(), (740, 1224), false)?;
    assert!(rt; played.is_right(), "{played:?}");
    Ok(())
}

#[test]
fn scripts_of_eight_sessions_are_right_7(rt: HostRuntime) -> Result<(), Fail> {
    let played = meet_half(&rt, rt.alloc(), (1225, 1611), true)?;
    assert!(rt; played.is_right(), "{played:?}");
    Ok(())
}

#[test]
fn scripts_of_eight_sessions_are_right_8(rt: HostRuntime) -> Result<(), Fail> {
    let played = meet_half(&rt, rt.alloc(), (1225, 1611), false)?;
    assert!(rt; played.is_right(), "{played:?}");
    Ok(())
}

// Where one session's turns all come behind the other's, the first to come looks a million times for the other's second turn, in vain, and has missed it.
#[test]
fn second_turns_of_two_sessions_wait_for_each_other(rt: HostRuntime) -> Result<(), Fail> {
    let alloc = rt.alloc();
    let base = prepared(alloc, BEFORE)?;
    let gate = Crossing::new();
    let mut met = Met::new();
    let verdict = met_on_threads(&rt, alloc, &base, CROSSING, &gate, &mut met)?;
    assert!(rt; gate.has_come() && !gate.has_missed());
    assert_eq!(rt; verdict, Verdict::Well);
    Ok(())
}
