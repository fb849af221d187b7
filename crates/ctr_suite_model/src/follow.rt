// Where a tape leads.
ghost use Rattle.std.specs.Prelude.{◌≡◌, ◌↔◌, IsTrue, IfOk};
ghost use Rattle.ctr_model.specs.Tape.{at_start, Legal, final};

use ctr_machine::is_legal;
use ctr_model::{Map, Point, State, Table};
use ctr_types::{Entry, Line, List, Name, OutOfMemory, Plain};
use std::alloc::Global;

/// The start of a run over a database, with names that recovery holds.
fn starting(alloc: Global, base: Map<Name, Table>, stuck: List<Name>) -> Point
    ensures { result ≡ at_start 0 base stuck }
{
    Point {
        state: State::at_rest(alloc, base, stuck),
        progress: Map::new(alloc),
        moment: 0,
    }
}

/// The start over no tables, for what is led from elsewhere later.
pub fn nowhere(alloc: Global) -> Point {
    starting(alloc, Map::new(alloc), List::new(alloc))
}

/// The start over copies.
pub fn start_of(
    alloc: Global,
    base: &Map<Name, Table>,
    stuck: &List<Name>,
) -> Result<Point, OutOfMemory>
    ensures { IfOk result (λ point. point ≡ at_start 0 base.now stuck.now) }
{
    let stuck = stuck.copy(alloc)?;
    Ok(starting(alloc, base.copy(alloc)?, stuck))
}

/// Whether a tape is legal from the start of a run over this database, with names that recovery holds; where it is, the
/// point is where it leads. The point is lent, since each step beside one that is owned has a proof that frees all of it.
pub fn follow(
    alloc: Global,
    base: &Map<Name, Table>,
    stuck: &List<Name>,
    lines: &[Line],
    entries: &[Entry],
    point: &mut Point,
) -> Result<bool, OutOfMemory>
    ensures legal { IfOk result (λ yes. IsTrue yes ↔ Legal lines.now (at_start 0 base.now stuck.now) entries.now) }
    ensures point { IfOk result (λ yes. IsTrue yes → point.new ≡ final lines.now (at_start 0 base.now stuck.now) entries.now) }
{
    if entries.len() >= usize::MAX / 2 {
        return Err(OutOfMemory);
    }
    *point = start_of(alloc, base, stuck)?;
    is_legal(alloc, lines, point, entries)
}
