// What the work of a command leaves, before its text is put.
ghost use Rattle.std.specs.Prelude.{◌≡◌, []};
ghost use Rattle.ctr_database.specs.ctr_run.ctr_world.totals_Totals.{no_totals};

use crate::ending::Ending;
use ctr_database::running::Left;
use std::alloc::Global;

/// What the work of a command leaves.
#[derive(Drop)]
pub struct Outcome<D> {
    pub ending: Ending,
    /// Its entries, the turns of undo, what was counted of the loaded table, and the disk.
    pub left: Left<D>,
}

impl<D> Outcome<D> {
    /// A command that has no entries.
    pub fn without_tape(alloc: Global, ending: Ending, disk: D) -> Outcome<D>
        ensures ending { result.ending ≡ ending }
        ensures tape { result.left.tape.entries ≡ [] }
        ensures undone { result.left.undone ≡ 0 }
        ensures totals { result.left.totals ≡ no_totals }
        ensures disk { result.left.disk ≡ disk }
    {
        Outcome {
            ending,
            left: Left::none(alloc, disk),
        }
    }
}
