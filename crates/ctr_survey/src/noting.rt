// What the tables of transactions say.
ghost use Rattle.std.specs.Prelude.{IfOk};
ghost use Rattle.ctr_survey.specs.Standing.{IsNoted};

use ctr_meta::Meta;
use ctr_snap::Snapshot;
use ctr_types::OutOfMemory;
use std::alloc::Global;

/// The snapshot of a moment, and how many transactions are open or aborted then, and how many items the secondary log has.
#[derive(Debug, Drop)]
pub(crate) struct Noted {
    pub(crate) snapshot: Snapshot,
    pub(crate) orphans: u64,
    pub(crate) aborted: u64,
    pub(crate) items: u64,
}

/// What the tables say now. It takes memory for the numbers of open transactions, and for the aborted ones.
pub(crate) fn note(alloc: Global, meta: &Meta) -> Result<Noted, OutOfMemory>
    ensures { IfOk result (IsNoted meta.now.tables) }
{
    let open = meta.open_xids(alloc)?;
    let aborted = meta.aborted(alloc)?;
    let snapshot = Snapshot::take(alloc, meta.next(), &open)?;
    Ok(Noted {
        snapshot,
        orphans: open.len() as u64,
        aborted: aborted.len() as u64,
        items: meta.items().len() as u64,
    })
}
