// Runs a generated script.
ghost use Rattle.std.specs.Prelude.{true, false, ◌≡◌, ◌⊎◌, ◌≤◌, length};
ghost use Rattle.ctr_load.specs.Generated.{generated};
ghost use Rattle.ctr_top.specs.declared.ending.Ending.TheVariants.{OutOfMemory};
ghost use Rattle.ctr_top.specs.Top.{Loads};

use crate::ending::{Ending, ended};
use crate::outcome::Outcome;
use ctr_database::running::{Gate, Schedule, Workers, run, run_on_threads};
use ctr_disk::Disk;
use ctr_load::{generated_lines_are_of_the_language, make};
use std::alloc::Global;
use std::sync::Wait;
use std::thread::Threads;

/// Runs the generated script of so many sessions and rounds, drawn from a seed, over the database of a disk, in serial order, with so many
/// frames for its pages, 8 to 4,096, and so many keys of rows remembered at most; and tells how many statements the script has. It is made before the disk is touched.
pub fn load<D: Disk>(
    alloc: Global,
    disk: D,
    frames: usize,
    keys: usize,
    sessions: u8,
    count: u64,
    seed: u64,
) -> (u64, Outcome<D>)
    requires frames { (8 ≤ frames) × (frames ≤ 4096) }
    requires sessions { (1 ≤ sessions) × (sessions ≤ 8) }
    requires count { count ≤ 1000000 }
    ensures loads { Loads D.Disk disk (generated sessions count seed) false result.1 }
    // Where memory is refused for the script, its statements aren't counted.
    ensures statements { (result.0 ≡ length (generated sessions count seed)) ⊎ (result.1.ending ≡ OutOfMemory) }
    ensures faults { D.faults_of disk ≤ D.faults_of result.1.left.disk }
    ensures later { D.moment_of disk ≤ D.moment_of result.1.left.disk }
{
    generated_lines_are_of_the_language();
    match make(alloc, sessions, count, seed) {
        Ok(script) => {
            let statements = script.lines.len() as u64;
            let ran = run(alloc, disk, frames, keys, script, Schedule::Serial, true);
            let outcome = Outcome {
                ending: ended(ran.end),
                left: ran.left,
            };
            (statements, outcome)
        }
        Err(_) => (0, Outcome::without_tape(alloc, Ending::OutOfMemory, disk)),
    }
}

/// Runs the generated script as `load` does, but on threads. The three lines that make its table are to come first.
pub fn load_on_threads<R: Threads + Wait + Sync, D: Disk + Send, G: Gate + Sync>(
    workers: Workers<'_, R, G>,
    alloc: Global,
    disk: D,
    frames: usize,
    keys: usize,
    sessions: u8,
    count: u64,
    seed: u64,
) -> (u64, Outcome<D>)
    requires frames { (8 ≤ frames) × (frames ≤ 4096) }
    requires sessions { (1 ≤ sessions) × (sessions ≤ 8) }
    requires count { count ≤ 1000000 }
    ensures loads { Loads D.Disk disk (generated sessions count seed) true result.1 }
    ensures statements { (result.0 ≡ length (generated sessions count seed)) ⊎ (result.1.ending ≡ OutOfMemory) }
    ensures faults { D.faults_of disk ≤ D.faults_of result.1.left.disk }
    ensures later { D.moment_of disk ≤ D.moment_of result.1.left.disk }
{
    generated_lines_are_of_the_language();
    match make(alloc, sessions, count, seed) {
        Ok(script) => {
            let statements = script.lines.len() as u64;
            let ran = run_on_threads(workers, alloc, disk, frames, keys, script, true);
            let outcome = Outcome {
                ending: ended(ran.end),
                left: ran.left,
            };
            (statements, outcome)
        }
        Err(_) => (0, Outcome::without_tape(alloc, Ending::OutOfMemory, disk)),
    }
}
