// What a turn undoes, by one record, beside the steps that it takes.
ghost use Rattle.std.specs.Prelude.{◌≡◌, ◌+◌, ℕ, OnOk, IfErr};
ghost use Rattle.ctr_disk.specs.declared.fault.StoreFault.TheVariants.{Fault};
ghost use Rattle.ctr_rec.specs.declared.record.Record.TheVariants.{Abort};
ghost use Rattle.ctr_record_effects.specs.Standing.{IsDatabaseState};
ghost use Rattle.ctr_actions.specs.Sites.{site_of};
ghost use Rattle.ctr_actions.specs.Actions.{Aborts, Owes};
ghost use Rattle.ctr_base.specs.Base.{WhereSound};
ghost use Rattle.ctr_walk.specs.OneRecord.{HasRoomForOne, LogsOne};
ghost use Rattle.ctr_rollback.specs.page_turns_Acts.{ActsBy};
ghost use Rattle.ctr_undo.specs.Left.{NextFits};
ghost use Rattle.ctr_undo.specs.Turns.{record_for, OwesNext, DoesNext, steps_for};

use crate::list::UndoItem;
use ctr_actions::a_logged_record_is_its_action;
use ctr_base::Origin;
use ctr_disk::{Disk, StoreFault};
use ctr_rec::Record;
use ctr_rollback::{
    a_record_acts, a_record_is_refused_by_the_disk_alone,
    records_without_bytes_lie_as_their_actions, undo,
};
use ctr_store::Store;
use ctr_tally::Steps;
use ctr_types::Xid;
use ctr_walk::log_record;
use std::sync::ledger::Ledger;

// A transaction that a stop left open is marked as aborted: a record on no page.
fn end<D: Disk, O: Origin, L: Ledger>(
    store: &mut Store<D, O>,
    x: Xid,
    steps: &mut Steps<L>,
) -> Result<(), StoreFault>
    requires room { HasRoomForOne 0 0 store.old }
    ensures one { LogsOne O.first D.Disk (Abort x) store.old store.new result }
    ensures acts { WhereSound O.first D.Disk (Owes x Aborts (site_of store.old.now) → OnOk result (ActsBy x Aborts store.old.now store.new.now)) }
    ensures refused { WhereSound O.first D.Disk (IsDatabaseState store.old.now → Owes x Aborts (site_of store.old.now) → IfErr result (λ e. e ≡ Fault)) }
    ensures steps { steps.new ≡ steps.old + 1 }
{
    a_logged_record_is_its_action();
    a_record_acts::<D>();
    a_record_is_refused_by_the_disk_alone::<D, ()>();
    records_without_bytes_lie_as_their_actions();
    let _tables = store.meta();
    steps.log_record();
    match log_record(store, &Record::Abort { x }) {
        Ok(_) => Ok(()),
        Err(fault) => Err(fault),
    }
}

/// An item of the secondary log is undone, or a transaction is marked as aborted.
pub(crate) fn undo_next<D: Disk, O: Origin, L: Ledger>(
    store: &mut Store<D, O>,
    next: UndoItem,
    steps: &mut Steps<L>,
) -> Result<(), StoreFault>
    requires room { HasRoomForOne 0 0 store.old }
    requires fits { NextFits next }
    ensures one { (byte : ℕ) × LogsOne O.first D.Disk (record_for next byte) store.old store.new result }
    ensures acts { WhereSound O.first D.Disk (IsDatabaseState store.old.now → OwesNext next store.old.now → OnOk result (DoesNext next store.old.now store.new.now)) }
    ensures refused { WhereSound O.first D.Disk (IsDatabaseState store.old.now → OwesNext next store.old.now → IfErr result (λ e. e ≡ Fault)) }
    ensures steps { steps.new ≡ steps.old + steps_for next }
{
    match next {
        UndoItem::Slog(item) => undo(store, &item, steps),
        UndoItem::Orphan(x) => end(store, x, steps),
    }
}
