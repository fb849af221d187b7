// A turn of undo.
ghost use Rattle.std.specs.Prelude.{◌≡◌, false, OnOk};
ghost use Rattle.ctr_base.specs.Base.{WhereSound};
ghost use Rattle.ctr_walk.specs.OneRecord.{HasRoomForOne};
ghost use Rattle.ctr_rollback.specs.page_turns_Rooms.{AddsItems};
ghost use Rattle.ctr_undo.specs.Turns.{LogsNext, TakesNextItem, MayUndo, EndsUndoTurn, TakesUndoSteps};

use crate::calls::undo_next;
use crate::list::UndoList;
use ctr_actions::the_latest_item_can_be_undone;
use ctr_base::Origin;
use ctr_disk::{Disk, StoreFault};
use ctr_store::Store;
use ctr_tally::Steps;
use std::sync::ledger::Ledger;

/// What a turn of undo did.
#[derive(Clone, Copy, Debug, PartialEq, Eq)]
pub enum UndoTurn {
    /// What was next in the list is undone.
    Undone,
    /// Nothing is left.
    Over,
}

/// A turn of undo: what is next in the list is undone by one record, on one page at most, and goes from the list. It isn't hardened yet.
/// Where nothing is left nothing is done. Where an error is answered nothing was logged, and the list is as it was. It takes no memory.
pub fn turn<D: Disk, O: Origin, L: Ledger>(
    store: &mut Store<D, O>,
    list: &mut UndoList,
    steps: &mut Steps<L>,
) -> Result<UndoTurn, StoreFault>
    requires room { HasRoomForOne 0 0 store.old }
    // The record of what is next is logged, or why not; where nothing is left the store is as it was.
    ensures one { LogsNext O.first D.Disk list.old store.old store.new result }
    // What is next goes from the list; it is over exactly where nothing is left.
    ensures takes { TakesNextItem list.old list.new result }
    // It is the action that undoes it, which owes nothing more; it is refused for no other cause than that the disk failed.
    ensures undoes { WhereSound O.first D.Disk (MayUndo list.old store.old.now → EndsUndoTurn list.old list.new store.old.now store.new.now result) }
    // The room of the tables is there still, and no number is drawn.
    ensures going { OnOk result (store.new.stopped ≡ false) }
    ensures left { OnOk result (AddsItems 0 store.old.meta store.new.meta) }
    ensures steps { TakesUndoSteps list.old result steps.old steps.new }
{
    the_latest_item_can_be_undone();
    match list.next() {
        None => Ok(UndoTurn::Over),
        Some(next) => match undo_next(store, next, steps) {
            Ok(()) => {
                list.go_on();
                Ok(UndoTurn::Undone)
            }
            Err(fault) => Err(fault),
        },
    }
}
