// A turn of a rollback.
ghost use Rattle.std.specs.Prelude.{OnOk};
ghost use Rattle.ctr_page_turns.specs.base_Base.{WhereSound};
ghost use Rattle.ctr_page_turns.specs.Turns.{LogsSome};
ghost use Rattle.ctr_txn.specs.Held.{number_drawn};
ghost use Rattle.ctr_txn.specs.Rooms.{HasItemRoom};
ghost use Rattle.ctr_txn.specs.Calls.{MayEnd, IsOverStore};
ghost use Rattle.ctr_rollback.specs.Rolling.{MayRoll, EndsRoll, RollsTxns, TakesSteps};

use crate::calls::{mark, next_item, undo};
use ctr_disk::{Disk, StoreFault};
use ctr_page_turns::{Origin, the_latest_item_can_be_undone, what_is_held_pays};
use ctr_record_laws::pages_are_in_bounds;
use ctr_stops::Store;
use ctr_tally::Steps;
use ctr_txn::Txns;
use std::sync::ledger::Ledger;

/// What a turn of a rollback did.
#[derive(Clone, Copy, Debug, PartialEq, Eq)]
pub enum Rolled {
    /// The latest item of the transaction was undone.
    Undone,
    /// None was left, and the transaction is aborted.
    Back,
}

/// A turn of a session's rollback: the latest item of its transaction is undone, or, where it has none, the transaction is aborted. Each is
/// one record, on one page at most, and isn't hardened yet. Where an error is answered nothing was logged. It takes no memory.
pub fn turn<D: Disk, O: Origin, L: Ledger>(
    store: &mut Store<D, O>,
    txns: &mut Txns,
    s: u8,
    steps: &mut Steps<L>,
) -> Result<Rolled, StoreFault>
    requires may { MayEnd s txns.old store.old }
    ensures one { LogsSome O.first D.Disk store.old store.new result }
    // With the first record the session is within its rollback, and with the last its transaction is gone.
    ensures txns { RollsTxns s txns.old txns.new result }
    // The room that is kept for items of all is there still.
    ensures items { OnOk result (HasItemRoom txns.old store.old.meta → HasItemRoom txns.new store.new.meta) }
    ensures over { OnOk result (IsOverStore txns.new store.new) }
    // An item went, or there was none and this is the mark; it is refused for no other cause than that the disk failed.
    ensures rolls { WhereSound O.first D.Disk (MayRoll (number_drawn s txns.old) store.old.now → EndsRoll (number_drawn s txns.old) store.old.now store.new.now result) }
    ensures steps { TakesSteps result steps.old steps.new }
{
    what_is_held_pays();
    the_latest_item_can_be_undone();
    pages_are_in_bounds();
    txns.counts_sessions();
    let x = txns.me(s);
    match next_item(store.meta(), x) {
        None => match mark(store, txns, s, steps) {
            Ok(()) => Ok(Rolled::Back),
            Err(fault) => Err(fault),
        },
        Some(item) => match undo(store, &item, steps) {
            Ok(()) => {
                txns.begin_rollback(s);
                Ok(Rolled::Undone)
            }
            Err(fault) => Err(fault),
        },
    }
}
