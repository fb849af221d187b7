// What a run leaves, and how it ended.
ghost use Rattle.std.specs.Prelude.{◌≡◌, []};
ghost use Rattle.ctr_run.specs.declared.ran.RunEnd.TheVariants.{Unopened};
ghost use Rattle.ctr_run.specs.Running.{end_by};
ghost use Rattle.ctr_world.specs.totals_Totals.{no_totals};

use ctr_disk::Stop;
use ctr_log::OpenError;
use ctr_types::{List, Tape};
use ctr_world::Totals;
use std::alloc::Global;

/// How a run ended.
#[derive(Clone, Copy, Debug, PartialEq, Eq)]
pub enum RunEnd {
    /// All statements were run, nothing is left of undo, and all is durable.
    Finished,
    /// The database wasn't opened, or memory was refused for what a run begins with.
    Unopened(OpenError),
    /// The World was stopped.
    Stopped(Stop),
}

/// What a run leaves.
#[derive(Drop)]
pub struct Left<D> {
    /// Every act with its reply.
    pub tape: Tape,
    /// How many turns recovery's undo took.
    pub undone: usize,
    /// The rows of the loaded table, and the sum of its second column; both 0 where they weren't asked for, or the run isn't finished.
    pub totals: Totals,
    /// The disk that it ran on.
    pub disk: D,
}

impl<D> Left<D> {
    /// What is left where nothing is run: no entry, and the disk.
    pub fn none(alloc: Global, disk: D) -> Left<D>
        ensures tape { result.tape.entries ≡ [] }
        ensures undone { result.undone ≡ 0 }
        ensures totals { result.totals ≡ no_totals }
        ensures disk { result.disk ≡ disk }
    {
        Left {
            tape: Tape {
                entries: List::new(alloc),
            },
            undone: 0,
            totals: Totals::NONE,
            disk,
        }
    }
}

/// How a run ended, and what it leaves.
#[derive(Drop)]
pub struct Ran<D> {
    pub end: RunEnd,
    pub left: Left<D>,
}

impl<D> Ran<D> {
    /// Nothing was run.
    pub(crate) fn none(alloc: Global, error: OpenError, disk: D) -> Ran<D>
        ensures end { result.end ≡ Unopened error }
        ensures tape { result.left.tape.entries ≡ [] }
        ensures undone { result.left.undone ≡ 0 }
        ensures totals { result.left.totals ≡ no_totals }
        ensures disk { result.left.disk ≡ disk }
    {
        Ran {
            end: RunEnd::Unopened(error),
            left: Left::none(alloc, disk),
        }
    }
}

/// How a run ended, by why its World stopped.
pub(crate) fn ended(stop: Option<Stop>) -> RunEnd
    ensures { result ≡ end_by stop }
{
    match stop {
        None => RunEnd::Finished,
        Some(stop) => RunEnd::Stopped(stop),
    }
}
