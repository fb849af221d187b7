// Runs a script over the database of a disk.
ghost use Rattle.std.specs.Prelude.{◌≡◌, ◌≤◌, Bool, List, length, map, IsTrue, IfErr, IfOk};
ghost use Rattle.std.specs.List.{AllByRecursion};
ghost use Rattle.ctr_types.specs.declared.statement.Line.{Line as HeldLine};
ghost use Rattle.ctr_disk.specs.Crash.{Within};
ghost use Rattle.ctr_log.specs.declared.opening.OpenError.{OpenError as HeldError};
ghost use Rattle.ctr_model.specs.Tape.{IsSerial};
ghost use Rattle.ctr_redo.specs.States.{State};
ghost use Rattle.ctr_record_effects.specs.Standing.{StandsForDatabase};
ghost use Rattle.ctr_world.specs.Ended.{IsUnbegunWorld, PassesOpening};
ghost use Rattle.ctr_world.specs.Opened.{IsOpenedOn, IsRunLine, CanRun};
ghost use Rattle.ctr_world.specs.Turns.{FinishesBy};
ghost use Rattle.ctr_run.specs.declared.lines.Schedule.TheVariants.{Serial};
ghost use Rattle.ctr_run.specs.declared.ran.RunEnd.TheVariants.{Finished, Unopened};
ghost use Rattle.ctr_run.specs.Beside.{CameByTurns};
ghost use Rattle.ctr_run.specs.Counting.{CountsAsked};
ghost use Rattle.ctr_run.specs.Lines.{RanOrStopped};
ghost use Rattle.ctr_run.specs.Promises.{IsRunOf, IsUnopened};
ghost use Rattle.ctr_run.specs.Running.{EndsAsAsked, EndsRunFor, RunsInOrder, RunsNone, RunsOver};

use crate::beside::{Workers, run_workers};
use crate::lines::{Schedule, run_first, run_turns};
use crate::ran::{Left, Ran, ended};
use ctr_base::Origin;
use ctr_disk::Disk;
use ctr_log::OpenError;
use ctr_types::{OutOfMemory, Script};
use ctr_workers::Gate;
use ctr_world::{Opening, World};
use std::alloc::Global;
use std::marker::Brand;
use std::sync::Wait;
use std::thread::Threads;

// The sessions of a script's lines, in order.
fn sessions_of(alloc: Global, script: &Script) -> Result<Vec<u8>, OutOfMemory>
    ensures { IfOk result (λ sessions. sessions.items ≡ map (λ l. l.session) script.now.lines) }
{
    let mut sessions = Vec::new(alloc);
    for line in script.lines.as_slice() {
        sessions.push(line.session)?;
    }
    Ok(sessions)
}

// The sessions of a script's lines: bit s - 1 is set for session s.
fn named_sessions(script: &Script) -> u8 {
    let mut sessions = 0;
    for line in script.lines.as_slice() {
        if matches!(line.session, 1..=8) {
            sessions |= 1 << (line.session - 1);
        }
    }
    sessions
}

// The World of a script over the disk that a type names, which remembers so many keys of rows at most; or a run of nothing.
fn opened<D: Disk, B: Origin + Opening>(
    alloc: Global,
    disk: D,
    frames: usize,
    keys: usize,
    script: Script,
) -> Result<World<D, B>, Ran<D>>
    requires named { IsOpenedOn B.Opening B.first D.Disk disk script.lines }
    requires frames { (8 ≤ frames) × (frames ≤ 4096) }
    requires runs { CanRun script.lines }
    ensures begins { IfOk result (IsUnbegunWorld script.lines) }
    ensures passes { IsTrue D.tells → IfOk result (λ w. PassesOpening B.first) }
    ensures refused { IfErr result (λ r. (totals : Bool) → IsRunOf D.Disk disk script.lines totals r) }
    ensures none { IfErr result IsUnopened }
{
    match World::<D, B>::open(alloc, disk, frames, script) {
        Ok(mut world) => {
            world.allow_keys(keys);
            Ok(world)
        }
        Err((error, disk)) => Err(Ran::none(alloc, error, disk)),
    }
}

// A World is finished, whatever turns it had.
fn finished<D: Disk, B: Origin + Opening>(alloc: Global, world: World<D, B>, totals: bool) -> Ran<D>
    ensures runs { (disk : D) (lines : List HeldLine) → IsOpenedOn B.Opening B.first D.Disk disk lines → Within B.before (D.images disk)
        → (IsTrue D.tells → PassesOpening B.first) → IsRunOf D.Disk disk lines totals result }
    ensures serial { RanOrStopped B.start B.lines (length B.lines) world → AllByRecursion IsRunLine B.lines → IsSerial B.lines result.left.tape.entries }
    ensures turns { FinishesBy D.Disk world result.left.tape.entries }
{
    world.stands_in_order();
    let finished = world.finish(alloc, totals);
    Ran {
        end: ended(finished.stop),
        left: Left {
            tape: finished.tape,
            undone: finished.undone,
            totals: finished.totals,
            disk: finished.disk,
        },
    }
}

// Over the disk and the script that a type names, in the order of a schedule.
fn run_opened<D: Disk, B: Origin + Opening>(
    alloc: Global,
    disk: D,
    frames: usize,
    keys: usize,
    script: Script,
    schedule: Schedule<'_>,
    totals: bool,
) -> Ran<D>
    requires named { IsOpenedOn B.Opening B.first D.Disk disk script.lines }
    requires before { Within B.before (D.images disk) }
    requires frames { (8 ≤ frames) × (frames ≤ 4096) }
    requires runs { CanRun script.lines }
    ensures runs { IsRunOf D.Disk disk script.lines totals result }
    ensures serial { schedule.entry ≡ Serial → IsSerial script.lines result.left.tape.entries }
{
    let Ok(sessions) = sessions_of(alloc, &script) else {
        return Ran::none(alloc, OpenError::OutOfMemory, disk);
    };
    let mut world = match opened::<D, B>(alloc, disk, frames, keys, script) {
        Ok(world) => world,
        Err(ran) => return ran,
    };
    run_turns(alloc, &mut world, schedule, sessions.as_slice());
    finished(alloc, world, totals)
}

// Over the disk and the script that a type names, on threads.
fn run_opened_on_threads<
    R: Threads + Wait + Sync,
    D: Disk + Send,
    B: Origin + Opening + Send,
    G: Gate + Sync,
>(
    workers: Workers<'_, R, G>,
    alloc: Global,
    disk: D,
    frames: usize,
    keys: usize,
    script: Script,
    totals: bool,
) -> Ran<D>
    requires named { IsOpenedOn B.Opening B.first D.Disk disk script.lines }
    requires before { Within B.before (D.images disk) }
    requires frames { (8 ≤ frames) × (frames ≤ 4096) }
    requires runs { CanRun script.lines }
    ensures runs { IsRunOf D.Disk disk script.lines totals result }
    ensures turns { workers.entry.first ≡ 0 → ((e : HeldError) → result.end ≡ Unopened e → ⊥) → ∥ CameByTurns D.Disk script.lines result.left.tape.entries ∥₁ }
{
    let sessions = named_sessions(&script);
    let mut world = match opened::<D, B>(alloc, disk, frames, keys, script) {
        Ok(world) => world,
        Err(ran) => return ran,
    };
    run_first(alloc, &mut world, workers.first);
    let world = run_workers(workers, alloc, world, sessions);
    finished(alloc, world, totals)
}

/// Runs a script over the database of a disk, with so many frames for its pages, 8 to 4,096, and so many keys of rows remembered at most, and makes all
/// durable. It goes on until all statements are finished and nothing is left of recovery's undo, or the World stops. Memory is refused only before the first entry, or by replies. A run that is
/// finished counts the rows of the loaded table, where that is asked for, and the sum of its second column.
pub fn run<D: Disk>(
    alloc: Global,
    disk: D,
    frames: usize,
    keys: usize,
    script: Script,
    schedule: Schedule<'_>,
    totals: bool,
) -> Ran<D>
    requires frames { (8 ≤ frames) × (frames ≤ 4096) }
    requires runs { CanRun script.lines }
    // Over a database the tape is legal, and a crash at any moment from the call's start to its end leaves the rows of a prefix of the commit order with
    // every commit answered by then, or, before the first entry, what it might have left as the call began; what is finished is complete.
    ensures ran { (s : State) → IsTrue D.tells → StandsForDatabase (D.reads disk) s → RunsOver D.Disk disk s script.lines (result.end ≡ Finished) result.left }
    // Whatever the disk tells, the tape stands in the order of the script.
    ensures order { RunsInOrder D.Disk disk script.lines (result.end ≡ Finished) result.left }
    // In the serial order the statements stand on the tape in the order of the script's lines, each one's entries together.
    ensures serial { schedule.entry ≡ Serial → IsSerial script.lines result.left.tape.entries }
    // Where the database isn't opened, nothing is run, and a crash leaves it as it was.
    ensures none { (e : HeldError) → result.end ≡ Unopened e → RunsNone D.Disk disk result.left }
    // Each end has its cause.
    ensures ends { EndsRunFor D.Disk disk result.left.disk result.end }
    // What was counted of the loaded table: over a database, where the run is finished, the totals of all that asked for a commit.
    ensures counts { CountsAsked D.Disk disk script.lines totals result }
    // Where nothing fails, what is opened is finished, or comes to the last number of a record.
    ensures complete { (s : State) → IsTrue D.tells → StandsForDatabase (D.reads disk) s → EndsAsAsked D.Disk disk result.left.disk result.end }
{
    run_opened::<D, Brand>(alloc, disk, frames, keys, script, schedule, totals)
}

/// Runs a script as `run` does, but each session that it names, the flusher, the cleaner and undo have a thread of their own, and take their turns as the
/// World comes to them. It promises what `run` does, but for the order of the statements of different sessions.
pub fn run_on_threads<R: Threads + Wait + Sync, D: Disk + Send, G: Gate + Sync>(
    workers: Workers<'_, R, G>,
    alloc: Global,
    disk: D,
    frames: usize,
    keys: usize,
    script: Script,
    totals: bool,
) -> Ran<D>
    requires frames { (8 ≤ frames) × (frames ≤ 4096) }
    requires runs { CanRun script.lines }
    ensures runs { IsRunOf D.Disk disk script.lines totals result }
    // Where no lines come first, and the database was opened, the tape is that of the World that was, led on by steps of actors, one at a time, and then
    // finished.
    ensures turns { workers.entry.first ≡ 0 → ((e : HeldError) → result.end ≡ Unopened e → ⊥) → ∥ CameByTurns D.Disk script.lines result.left.tape.entries ∥₁ }
{
    run_opened_on_threads::<R, D, Brand, G>(workers, alloc, disk, frames, keys, script, totals)
}
