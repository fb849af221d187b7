// One run over a disk in memory: plain data before it and behind it.
//
// Whoever owns the disk, or what a run has left of it, does nothing else: each step beside it that can fail has a proof that frees all of it.
ghost use Rattle.std.specs.Prelude.{◌≤◌};

use ctr_disk::Disk;
use ctr_io::{MemSink, MemSource, Sink, Source};
use ctr_mem_disk::{Image, MemDisk};
use ctr_model::Survey;
use ctr_suite_judge::{
    Ask, Engine, Ran, Seen, Setup, UNCOUNTED, Work, Wrong, disk_of, look_at, sink_of, source_of,
};
use ctr_top::{Gate, Schedule, run, run_script, run_serial};
use ctr_types::{Actor, OutOfMemory, Tape};
use std::alloc::{AllocError, Global};
use std::sync::Wait;
use std::thread::Threads;

// What a run leaves, without what its sessions have in memory.
#[derive(Drop)]
struct Left<D> {
    status: u8,
    tape: Tape,
    rows: u64,
    sum: i128,
    survey: Survey,
    disk: D,
}

/// What a command has left, and the totals that it tells.
#[derive(Drop)]
pub struct Told {
    pub ran: Ran,
    pub rows: u64,
    pub sum: i128,
}

// The tape alone.
fn tape_of<D: Drop>(left: Left<D>) -> Tape {
    left.tape
}

// The one function that calls `run`.
fn run_plainly<R: Threads + Wait + Sync, D: Disk + Send, S: Source, K: Sink, G: Gate + Sync>(
    rt: &R,
    alloc: Global,
    words: &[String],
    disk: D,
    source: &mut S,
    sink: &mut K,
    gate: &G,
) -> Left<D> {
    let ended = run(rt, alloc, words, disk, source, sink, gate);
    let left = ended.left;
    Left {
        status: ended.ending.status(),
        tape: left.tape,
        rows: ended.report.rows,
        sum: ended.report.sum,
        survey: UNCOUNTED,
        disk: left.disk,
    }
}

// The one function that calls `run_serial`.
fn serial_plainly<D: Disk, S: Source, K: Sink>(
    alloc: Global,
    words: &[String],
    disk: D,
    source: &mut S,
    sink: &mut K,
) -> Left<D> {
    let ended = run_serial(alloc, words, disk, source, sink);
    let left = ended.left;
    Left {
        status: ended.ending.status(),
        tape: left.tape,
        rows: 0,
        sum: 0,
        survey: ended.survey,
        disk: left.disk,
    }
}

// The one function that calls `run_script`. With few frames go few keys that are remembered, so that buckets are forgotten too.
fn turns_plainly<D: Disk, S: Source>(
    alloc: Global,
    disk: D,
    frames: usize,
    source: &mut S,
    actors: &[Actor],
) -> Left<D>
    requires frames { (8 ≤ frames) × (frames ≤ 4096) }
{
    let keys = if frames < 64 { frames } else { 1 << 20 };
    let outcome = run_script(alloc, disk, frames, keys, source, Schedule::Turns(actors));
    let left = outcome.left;
    Left {
        status: outcome.ending.status(),
        tape: left.tape,
        rows: 0,
        sum: 0,
        survey: UNCOUNTED,
        disk: left.disk,
    }
}

// What the disk holds at the end.
fn seen_of(alloc: Global, left: &Left<MemDisk>) -> Result<Seen, AllocError> {
    look_at(alloc, &left.disk, Vec::new(alloc), Ask::Last)
}

// What a run has left, where memory was given for all that is told of it.
fn ran_of(
    alloc: Global,
    status: u8,
    survey: Survey,
    tape: Tape,
    seen: Result<Seen, AllocError>,
) -> Result<Ran, AllocError> {
    match seen {
        Ok(seen) => Ok(Ran {
            status,
            tape,
            text: Vec::new(alloc),
            survey,
            seen,
        }),
        Err(_) => Err(AllocError),
    }
}

fn told_of(ran: Result<Ran, AllocError>, rows: u64, sum: i128) -> Result<Told, AllocError> {
    match ran {
        Ok(ran) => Ok(Told { ran, rows, sum }),
        Err(_) => Err(AllocError),
    }
}

fn run_put<R: Threads + Wait + Sync, G: Gate + Sync>(
    rt: &R,
    alloc: Global,
    setup: &Setup,
    source: &mut MemSource,
    sink: &mut MemSink,
    gate: &G,
) -> Result<Told, AllocError> {
    let disk = disk_of(alloc, setup)?;
    let left = run_plainly(rt, alloc, &setup.words, disk, source, sink, gate);
    let seen = seen_of(alloc, &left);
    let (status, rows, sum) = (left.status, left.rows, left.sum);
    told_of(
        ran_of(alloc, status, UNCOUNTED, tape_of(left), seen),
        rows,
        sum,
    )
}

fn run_from<R: Threads + Wait + Sync, G: Gate + Sync>(
    rt: &R,
    alloc: Global,
    setup: &Setup,
    source: &mut MemSource,
    gate: &G,
) -> Result<Told, AllocError> {
    let mut sink = sink_of(alloc, setup)?;
    let told = run_put(rt, alloc, setup, source, &mut sink, gate);
    drop(sink);
    told
}

/// Runs the command of a setup, with threads at hand.
pub fn play<R: Threads + Wait + Sync, G: Gate + Sync>(
    rt: &R,
    alloc: Global,
    setup: &Setup,
    gate: &G,
) -> Result<Told, AllocError> {
    let mut source = source_of(alloc, setup)?;
    let told = run_from(rt, alloc, setup, &mut source, gate);
    drop(source);
    told
}

// The frames of a run by turns, of which there may be 8 to 4,096.
fn frames_of(setup: &Setup) -> usize
    ensures { (8 ≤ result) × (result ≤ 4096) }
{
    setup.frames.clamp(8, 4096) as usize
}

fn turns_from(alloc: Global, setup: &Setup, source: &mut MemSource) -> Result<Ran, AllocError> {
    let disk = disk_of(alloc, setup)?;
    let left = turns_plainly(alloc, disk, frames_of(setup), source, &setup.actors);
    let seen = seen_of(alloc, &left);
    ran_of(alloc, left.status, left.survey, tape_of(left), seen)
}

fn serial_put(
    alloc: Global,
    setup: &Setup,
    source: &mut MemSource,
    sink: &mut MemSink,
) -> Result<Ran, AllocError> {
    let disk = disk_of(alloc, setup)?;
    let left = serial_plainly(alloc, &setup.words, disk, source, sink);
    let seen = seen_of(alloc, &left);
    ran_of(alloc, left.status, left.survey, tape_of(left), seen)
}

fn serial_from(alloc: Global, setup: &Setup, source: &mut MemSource) -> Result<Ran, AllocError> {
    let mut sink = sink_of(alloc, setup)?;
    let ran = serial_put(alloc, setup, source, &mut sink);
    drop(sink);
    ran
}

fn ran_from(alloc: Global, setup: &Setup, source: &mut MemSource) -> Result<Ran, AllocError> {
    match setup.work {
        Work::Turns => turns_from(alloc, setup, source),
        _ => serial_from(alloc, setup, source),
    }
}

/// Commands and turns without threads: so the judge looks at a disk.
#[derive(Clone, Copy)]
pub struct Alone;

impl Engine for Alone {
    fn play(alloc: Global, setup: &Setup, _ask: Ask) -> Result<Ran, AllocError> {
        let mut source = source_of(alloc, setup)?;
        let ran = ran_from(alloc, setup, &mut source);
        drop(source);
        ran
    }

    fn left_in(_alloc: Global, _image: &Image) -> Result<Wrong, OutOfMemory> {
        Ok(Some("nobody has looked"))
    }
}
