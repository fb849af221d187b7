// The lines of a script, one after another, over a World.
ghost use Rattle.std.specs.Prelude.{◌≡◌, ◌≤◌, ◌+◌, ℕ, List, length, map, slice_get, Some, None};
ghost use Rattle.std.specs.List.{AllByRecursion};
ghost use Rattle.ctr_types.specs.declared.statement.Line.{Line as HeldLine};
ghost use Rattle.ctr_world.specs.Opened.{IsRunLine};
ghost use Rattle.ctr_run.specs.declared.lines.Schedule.TheVariants.{Serial};
ghost use Rattle.ctr_run.specs.Lines.{IsBetween, RanOrStopped};

use ctr_base::Origin;
use ctr_disk::Disk;
use ctr_types::{Actor, Turn};
use ctr_world::{Opening, World};
use std::alloc::Global;

/// In which order the actors of a run take their turns.
#[derive(Clone, Copy)]
pub enum Schedule<'a> {
    /// The statements stand in the order of the script's lines, each one's acts together; behind each come a turn of undo, of the flusher and of
    /// the cleaner.
    Serial,
    /// A turn of each of these actors; then the sessions, in order of number, go to the end of their statements, and undo to its own.
    Turns(&'a [Actor]),
}

// Turns of a session until its statement is finished, or the World stops.
fn run_statement<D: Disk, B: Origin + Opening>(alloc: Global, world: &mut World<D, B>, session: u8)
    requires some { 1 ≤ session }
    ensures { (k : ℕ) (l : HeldLine) → slice_get B.lines k ≡ Some l → l.session ≡ session → AllByRecursion IsRunLine B.lines
        → RanOrStopped B.start B.lines k world.old → RanOrStopped B.start B.lines (k + 1) world.new }
{
    world.stands_in_order();
    let count = world.finished(session);
    while world.finished(session) == count {
        world.stands_in_order();
        match world.step(alloc, Actor::Session(session)) {
            Turn::Went => world.stands_in_order(),
            _ => return,
        }
    }
}

// A turn of an actor between two lines.
fn step_between<D: Disk, B: Origin + Opening>(alloc: Global, world: &mut World<D, B>, actor: Actor)
    requires behind { IsBetween actor }
    ensures { (k : ℕ) → AllByRecursion IsRunLine B.lines → RanOrStopped B.start B.lines k world.old → RanOrStopped B.start B.lines k world.new }
{
    world.stands_in_order();
    let _ = world.step(alloc, actor);
    world.stands_in_order();
}

// Turns of a line's session until its statement is finished, and then one each of undo, flusher and cleaner.
fn run_line<D: Disk, B: Origin + Opening>(alloc: Global, world: &mut World<D, B>, session: u8)
    requires some { 1 ≤ session }
    ensures { (k : ℕ) (l : HeldLine) → slice_get B.lines k ≡ Some l → l.session ≡ session → AllByRecursion IsRunLine B.lines
        → RanOrStopped B.start B.lines k world.old → RanOrStopped B.start B.lines (k + 1) world.new }
{
    run_statement(alloc, world, session);
    step_between(alloc, world, Actor::Undo);
    step_between(alloc, world, Actor::Flusher);
    step_between(alloc, world, Actor::Cleaner);
}

// The lines of these sessions, in order.
fn run_lines<D: Disk, B: Origin + Opening>(alloc: Global, world: &mut World<D, B>, sessions: &[u8])
    requires named { sessions.now ≡ map (λ l. l.session) B.lines }
    requires runs { AllByRecursion IsRunLine B.lines }
    ensures { RanOrStopped B.start B.lines 0 world.old → RanOrStopped B.start B.lines (length B.lines) world.new }
{
    for session in sessions {
        run_line(alloc, world, *session);
    }
}

/// So many lines of session 1.
pub(crate) fn run_first<D: Disk, B: Origin + Opening>(
    alloc: Global,
    world: &mut World<D, B>,
    lines: u8,
)
    ensures { lines ≡ 0 → world.new ≡ world.old }
{
    if lines == 0 {
        return;
    }
    for _ in 0..lines {
        run_line(alloc, world, 1);
    }
}

// A turn of each of these actors.
fn run_actors<D: Disk, B: Origin + Opening>(
    alloc: Global,
    world: &mut World<D, B>,
    actors: &[Actor],
) {
    for actor in actors {
        let _ = world.step(alloc, *actor);
    }
}

/// The turns of a schedule.
pub(crate) fn run_turns<D: Disk, B: Origin + Opening>(
    alloc: Global,
    world: &mut World<D, B>,
    schedule: Schedule<'_>,
    sessions: &[u8],
)
    requires named { sessions.now ≡ map (λ l. l.session) B.lines }
    requires runs { AllByRecursion IsRunLine B.lines }
    ensures { schedule.entry ≡ Serial → RanOrStopped B.start B.lines 0 world.old → RanOrStopped B.start B.lines (length B.lines) world.new }
{
    match schedule {
        Schedule::Serial => run_lines(alloc, world, sessions),
        Schedule::Turns(actors) => run_actors(alloc, world, actors),
    }
}
