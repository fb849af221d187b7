// One run of a command over a disk in memory.
//
// Whoever owns a disk, or what a run has left of it, does nothing else: each step beside it that can fail has a proof
// that frees all of it.
ghost use Rattle.std.specs.Prelude.{◌≤◌};

use ctr_disk::Disk;
use ctr_io::{MemSink, MemSource, Sink, Source};
use ctr_mem_disk::{Image, MemDisk};
use ctr_model::{Command, Report, Survey};
use ctr_print::{count_answers, count_refusals};
use ctr_suite_cases::{Files, Trouble, left_in};
use ctr_suite_judge::{
    Ask, Engine, Ran, Seen, Setup, UNCOUNTED, Work, Wrong, disk_of, look_at, play_calls, play_root,
    printing_of, sessions_of, sink_of, source_of, statements_of,
};
use ctr_top::{Ending, Schedule, run_script, run_serial};
use ctr_types::{Actor, OutOfMemory, Plain, Tape};
use std::alloc::{AllocError, Global};

// What a run leaves, without what its sessions have in memory.
#[derive(Drop)]
struct Left<D> {
    ending: Ending,
    tape: Tape,
    report: Report,
    survey: Survey,
    disk: D,
}

// The tape alone.
fn tape_of<D: Drop>(left: Left<D>) -> Tape {
    left.tape
}

// The one function that calls `run_serial`.
fn run_plainly<D: Disk, S: Source, K: Sink>(
    alloc: Global,
    words: &[String],
    disk: D,
    source: &mut S,
    sink: &mut K,
) -> Left<D> {
    let ended = run_serial(alloc, words, disk, source, sink);
    let left = ended.left;
    Left {
        ending: ended.ending,
        tape: left.tape,
        report: ended.report,
        survey: ended.survey,
        disk: left.disk,
    }
}

// The one function that calls `run_script`. With few frames go few keys that are remembered, so that buckets are forgotten too.
fn turns_plainly<D: Disk, S: Source>(
    alloc: Global,
    disk: D,
    frames: usize,
    source: &mut S,
    actors: &[Actor],
) -> Left<D>
    requires frames { (8 ≤ frames) × (frames ≤ 4096) }
{
    let keys = if frames < 64 { frames } else { 1 << 20 };
    let outcome = run_script(alloc, disk, frames, keys, source, Schedule::Turns(actors));
    let left = outcome.left;
    Left {
        ending: outcome.ending,
        report: report_of(&left.tape, left.undone),
        survey: UNCOUNTED,
        tape: left.tape,
        disk: left.disk,
    }
}

// The command whose last line was to be printed.
fn command_of(setup: &Setup, survey: Survey, statements: u64) -> Command {
    if setup.is_command("init") {
        return Command::Init;
    }
    if setup.is_command("report") {
        return Command::Survey { start: survey };
    }
    if setup.is_command("load") {
        return Command::Load {
            sessions: sessions_of(setup),
            statements,
        };
    }
    Command::Run
}

// What a run's end shows.
fn seen_of(
    alloc: Global,
    command: &Command,
    left: &Left<MemDisk>,
    ask: Ask,
) -> Result<Seen, AllocError> {
    let printing = printing_of(
        alloc,
        command,
        left.ending.status(),
        &left.ending.cause(),
        &left.tape,
        &left.report,
    );
    look_at(alloc, &left.disk, printing, ask)
}

// Runs a command.
fn play_command(alloc: Global, setup: &Setup, ask: Ask) -> Result<Ran, AllocError> {
    let mut source = source_of(alloc, setup)?;
    let ran = command_from(alloc, setup, ask, &mut source);
    drop(source);
    ran
}

fn command_from(
    alloc: Global,
    setup: &Setup,
    ask: Ask,
    source: &mut MemSource,
) -> Result<Ran, AllocError> {
    let mut sink = sink_of(alloc, setup)?;
    let ran = command_put(alloc, setup, ask, source, &mut sink);
    drop(sink);
    ran
}

fn command_put(
    alloc: Global,
    setup: &Setup,
    ask: Ask,
    source: &mut MemSource,
    sink: &mut MemSink,
) -> Result<Ran, AllocError> {
    let statements = statements_of(alloc, setup)?;
    let disk = disk_of(alloc, setup)?;
    let left = run_plainly(alloc, &setup.words, disk, source, sink);
    let command = command_of(setup, left.survey, statements);
    let seen = seen_of(alloc, &command, &left, ask);
    let text = sink.bytes().to_vec(alloc);
    let survey = left.survey;
    ran_of(left.ending.status(), survey, tape_of(left), text, seen)
}

// What a run has left, where memory was given for all that is told of it.
fn ran_of(
    status: u8,
    survey: Survey,
    tape: Tape,
    text: Result<Vec<u8>, AllocError>,
    seen: Result<Seen, AllocError>,
) -> Result<Ran, AllocError> {
    match (text, seen) {
        (Ok(text), Ok(seen)) => Ok(Ran {
            status,
            tape,
            text,
            survey,
            seen,
        }),
        _ => Err(AllocError),
    }
}

// How often commits were answered and acts refused, and how many turns undo took.
fn report_of(tape: &Tape, undone: usize) -> Report {
    Report {
        commits: count_answers(tape),
        refused: count_refusals(tape),
        undo_turns: undone as u64,
        rows: 0,
        sum: 0,
    }
}

// The frames of a run by turns, of which there may be 8 to 4,096.
fn frames_of(setup: &Setup) -> usize
    ensures { (8 ≤ result) × (result ≤ 4096) }
{
    setup.frames.clamp(8, 4096) as usize
}

// Runs a script by turns of the setup's actors.
fn play_turns(alloc: Global, setup: &Setup, ask: Ask) -> Result<Ran, AllocError> {
    let mut source = source_of(alloc, setup)?;
    let ran = turns_put(alloc, setup, ask, &mut source);
    drop(source);
    ran
}

fn turns_put(
    alloc: Global,
    setup: &Setup,
    ask: Ask,
    source: &mut MemSource,
) -> Result<Ran, AllocError> {
    let disk = disk_of(alloc, setup)?;
    let left = turns_plainly(alloc, disk, frames_of(setup), source, &setup.actors);
    let seen = seen_of(alloc, &Command::Run, &left, ask);
    let text = printed_in(alloc, &seen);
    ran_of(left.ending.status(), UNCOUNTED, tape_of(left), text, seen)
}

// A run by turns prints nothing itself, so what it puts is what it has to.
fn printed_in(alloc: Global, seen: &Result<Seen, AllocError>) -> Result<Vec<u8>, AllocError> {
    match seen {
        Ok(seen) => seen.printing.to_vec(alloc),
        Err(_) => Err(AllocError),
    }
}

// Does what a setup says.
fn play(alloc: Global, setup: &Setup, ask: Ask) -> Result<Ran, AllocError> {
    match setup.work {
        Work::Command => play_command(alloc, setup, ask),
        Work::Turns => play_turns(alloc, setup, ask),
        Work::Calls => play_calls(alloc, setup, ask),
        Work::WriteRoot(root) => play_root(alloc, setup, root, ask),
    }
}

// What is left to undo or to clean in an image, as its bytes say.
fn left_behind(alloc: Global, image: &Image) -> Result<Wrong, OutOfMemory> {
    let files = Files {
        image: image.copy()?,
        few: true,
    };
    let left = left_in(alloc, &files);
    drop(files);
    match left {
        Ok(left) => Ok(left),
        Err(Trouble::OutOfMemory) => Err(OutOfMemory),
        Err(trouble) => Ok(Some(trouble.text())),
    }
}

/// The commands, as this repository has them.
#[derive(Clone, Copy)]
pub struct Commands;

impl Engine for Commands {
    fn play(alloc: Global, setup: &Setup, ask: Ask) -> Result<Ran, AllocError> {
        play(alloc, setup, ask)
    }

    fn left_in(alloc: Global, image: &Image) -> Result<Wrong, OutOfMemory> {
        left_behind(alloc, image)
    }
}
