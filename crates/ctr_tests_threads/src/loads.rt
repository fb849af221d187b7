// Generated loads on threads: they tell what their tapes lead to.
ghost use Rattle.std.specs.Prelude.{◌≤◌};

use crate::fold::{Totals, folded};
use crate::judged::{Verdict, command, empty, judged};
use crate::play::{Told, play};
use ctr_load::make;
use ctr_mem_disk::Image;
use ctr_suite_judge::{Ran, Right, Setup};
use ctr_top::OpenGate;
use ctr_types::{OutOfMemory, Script};
use std::alloc::{AllocError, Global};
use std::sync::Wait;
use std::test::Fail;
use std::thread::Threads;

// What a load's words say.
#[derive(Clone, Copy, Debug)]
struct Load {
    sessions: u8,
    count: u64,
    seed: u64,
    // Whether the slow machine judges its tape, for which it goes through all commits at each entry.
    judged: bool,
}

const LOADS: [Load; 3] = [
    Load {
        sessions: 1,
        count: 0,
        seed: 0,
        judged: true,
    },
    Load {
        sessions: 8,
        count: 200,
        seed: 3,
        judged: true,
    },
    Load {
        sessions: 4,
        count: 2000,
        seed: 7,
        judged: false,
    },
];

// What is said of a load.
#[derive(Clone, Copy, Debug)]
struct Said {
    told: Totals,
    folded: Totals,
    verdict: Verdict,
}

impl Said {
    fn is_right(self) -> bool {
        self.told == self.folded && self.verdict == Verdict::Well
    }
}

// The load's script.
fn script_of(alloc: Global, load: Load) -> Result<Script, OutOfMemory> {
    make(
        alloc,
        load.sessions.clamp(1, 8),
        load.count.min(1_000_000),
        load.seed,
    )
}

fn setup_of(alloc: Global, load: Load, image: &Image) -> Result<Setup, AllocError> {
    let Load {
        sessions,
        count,
        seed,
        judged: _,
    } = load;
    let words = format!(in alloc;
        "load d --threads --sessions {sessions} --count {count} --seed {seed}"
    )?;
    let setup = command(alloc, words.as_str(), b"", image);
    drop(words);
    setup
}

fn totals_by(alloc: Global, load: Load, ran: &Ran) -> Result<Totals, OutOfMemory> {
    let script = script_of(alloc, load)?;
    let totals = folded(alloc, script.lines.as_slice(), ran.tape.entries.as_slice());
    drop(script);
    Ok(totals?)
}

fn verdict_on(alloc: Global, load: Load, setup: &Setup, ran: &Ran) -> Result<Verdict, OutOfMemory> {
    if !load.judged {
        return Ok(if ran.status == 0 {
            Verdict::Well
        } else {
            Verdict::Unfinished
        });
    }
    let before = Right::empty(alloc, false)?;
    let verdict = judged(alloc, &before, setup, ran);
    drop(before);
    verdict
}

fn said_of(alloc: Global, load: Load, setup: &Setup, told: &Told) -> Result<Said, OutOfMemory> {
    Ok(Said {
        told: Totals {
            rows: told.rows,
            sum: told.sum,
        },
        folded: totals_by(alloc, load, &told.ran)?,
        verdict: verdict_on(alloc, load, setup, &told.ran)?,
    })
}

fn said_by<R: Threads + Wait + Sync>(
    rt: &R,
    alloc: Global,
    load: Load,
    setup: &Setup,
) -> Result<Said, OutOfMemory> {
    let told = play(rt, alloc, setup, &OpenGate)?;
    let said = said_of(alloc, load, setup, &told);
    drop(told);
    said
}

fn loaded<R: Threads + Wait + Sync>(
    rt: &R,
    alloc: Global,
    load: Load,
    image: &Image,
) -> Result<Said, OutOfMemory> {
    let setup = setup_of(alloc, load, image)?;
    let said = said_by(rt, alloc, load, &setup);
    drop(setup);
    said
}

#[test]
fn loads_tell_what_their_tapes_lead_to(rt: HostRuntime) -> Result<(), Fail> {
    let alloc = rt.alloc();
    let image = empty(alloc)?;
    for load in LOADS {
        let said = loaded(&rt, alloc, load, &image)?;
        assert!(rt; said.is_right(), "{load:?}: {said:?}");
    }
    Ok(())
}
