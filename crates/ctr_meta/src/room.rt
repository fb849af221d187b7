// What a record adds to the tables.
ghost use Rattle.std.specs.Prelude.{◌≡◌, ◌+◌, ◌^◌, ◌<◌, ℕ, List, [], ◌∷◌, ◌++◌};
ghost use Rattle.ctr_rec.specs.declared.record.Record.{Record as Logged};
ghost use Rattle.ctr_meta.specs.Tables.{Tables, no_tables};
ghost use Rattle.ctr_meta.specs.Effects.{effect, tables_of};
ghost use Rattle.ctr_meta.specs.Kept.{IsLogged, opens_added, items_added, XidsLast};

use crate::listing::counts_in;
use ctr_rec::Record;

/// How many transactions and items a record may add: what to reserve before it.
#[derive(Clone, Copy, Debug, PartialEq, Eq)]
pub struct Room {
    pub opens: usize,
    pub items: usize,
}

fn added(opens: usize, items: usize) -> Room
    ensures { result ≡ record { opens = opens; items = items } }
{
    Room { opens, items }
}

/// How many transactions and items a record may add, those of a Checkpoint counted all.
pub fn room_for(rec: &Record) -> Room
    requires { IsLogged rec.now }
    ensures opens { result.opens ≡ opens_added rec.now }
    ensures items { result.items ≡ items_added rec.now }
{
    match rec {
        Record::Checkpoint { next, lists } => {
            let counts = counts_in(*next, lists.as_slice());
            added(counts.opens + counts.aborted, counts.items)
        }
        Record::Begin { .. } => added(1, 0),
        Record::Alloc { .. } => added(0, 1),
        Record::Unlink { .. } => added(0, 1),
        Record::Create { .. } => added(0, 1),
        Record::Drop { .. } => added(0, 1),
        _ => added(0, 0),
    }
}

/// What holds of the transactions of any tables, that they are from 1 to below the next, each once and none
/// both open and aborted, lasts over each record whose needs are met.
pub fn xids_last()
    ensures { (r : Logged) (t : Tables) → XidsLast r t }
{}

/// A new Meta has the tables of a log without records; those of a log with one record more are the record's effect
/// on the log's. So a Meta to which each record of a log was applied has the tables of the log.
pub fn tables_fold()
    ensures none { tables_of [] ≡ no_tables }
    ensures more { (rs : List Logged) (r : Logged) → tables_of (rs ++ r ∷ []) ≡ effect r (tables_of rs) }
{}
