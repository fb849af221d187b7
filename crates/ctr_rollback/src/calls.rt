// Which item is undone next, and the two calls of a rollback that log a record, each beside the steps that it takes.
ghost use Rattle.std.specs.Prelude.{◌≡◌, ◌+◌, ℕ, None, [], filter, IfSome, OnOk, IfErr};
ghost use Rattle.ctr_disk.specs.declared.fault.StoreFault.TheVariants.{Fault};
ghost use Rattle.ctr_rec.specs.declared.record.Record.TheVariants.{Abort};
ghost use Rattle.ctr_rec.specs.Members.{ItemFits};
ghost use Rattle.ctr_meta.specs.Items.{is_item_by};
ghost use Rattle.ctr_page_turns.specs.record_effects_Standing.{IsDatabaseState};
ghost use Rattle.ctr_record_laws.specs.Owed.{IsLastItem};
ghost use Rattle.ctr_page_turns.specs.actions_Sites.{site_of};
ghost use Rattle.ctr_page_turns.specs.actions_Actions.{Aborts, Owes, undoing};
ghost use Rattle.ctr_page_turns.specs.base_Base.{WhereSound};
ghost use Rattle.ctr_page_turns.specs.walk_OneRecord.{HasRoomForOne, LogsOne};
ghost use Rattle.ctr_catalog.specs.Writing.{undo_record};
ghost use Rattle.ctr_txn.specs.Held.{number_drawn};
ghost use Rattle.ctr_txn.specs.Rooms.{HasItemRoom};
ghost use Rattle.ctr_txn.specs.Calls.{MayEnd, IsOverStore, EndsFor};
ghost use Rattle.ctr_page_turns.specs.Acts.{ActsBy};

use ctr_catalog::undo_item;
use ctr_disk::{Disk, StoreFault};
use ctr_meta::Meta;
use ctr_page_turns::{
    Origin, a_record_acts, an_action_meets_its_needs, owed_records_are_laid_as_their_actions,
    pages_lie_as_their_actions, records_without_bytes_lie_as_their_actions,
};
use ctr_rec::SlogItem;
use ctr_record_laws::pages_are_in_bounds;
use ctr_stops::Store;
use ctr_tally::Steps;
use ctr_txn::Txns;
use ctr_types::Xid;
use std::sync::ledger::Ledger;

/// The item that a transaction's rollback undoes next: its latest one.
pub(crate) fn next_item(meta: &Meta, x: Xid) -> Option<SlogItem>
    ensures latest { IfSome result (λ i. IsLastItem x i meta.now.tables.items) }
    ensures none { result ≡ None → filter (is_item_by x) meta.now.tables.items ≡ [] }
    ensures fits { IfSome result ItemFits }
{
    meta.latest_item(x)
}

/// An item of the secondary log is undone: the page of its record is read, and the record is logged. That is two steps, and takes no memory.
/// Where an error is answered nothing was logged.
pub fn undo<D: Disk, O: Origin, L: Ledger>(
    store: &mut Store<D, O>,
    item: &SlogItem,
    steps: &mut Steps<L>,
) -> Result<(), StoreFault>
    requires room { HasRoomForOne 0 0 store.old }
    requires fits { ItemFits item.now }
    ensures one { (byte : ℕ) × LogsOne O.first D.Disk (undo_record item.now byte) store.old store.new result }
    // Where what undoes it owes nothing more, it is that action.
    ensures acts { (x : ℕ) → WhereSound O.first D.Disk (IsDatabaseState store.old.now → Owes x (undoing item.now) (site_of store.old.now)
        → OnOk result (ActsBy x (undoing item.now) store.old.now store.new.now)) }
    // There it is refused for no other cause than that the disk failed.
    ensures refused { (x : ℕ) → WhereSound O.first D.Disk (IsDatabaseState store.old.now → Owes x (undoing item.now) (site_of store.old.now)
        → IfErr result (λ e. e ≡ Fault)) }
    ensures steps { steps.new ≡ steps.old + 2 }
{
    an_action_meets_its_needs();
    pages_are_in_bounds();
    pages_lie_as_their_actions();
    owed_records_are_laid_as_their_actions();
    a_record_acts::<D>();
    let _tables = store.meta();
    steps.read_page();
    steps.log_record();
    undo_item(store, item)
}

/// A session's transaction ends by its one mark: a record on no page.
pub(crate) fn mark<D: Disk, O: Origin, L: Ledger>(
    store: &mut Store<D, O>,
    txns: &mut Txns,
    s: u8,
    steps: &mut Steps<L>,
) -> Result<(), StoreFault>
    requires may { MayEnd s txns.old store.old }
    ensures ends { EndsFor s txns.old txns.new result }
    ensures over { OnOk result (IsOverStore txns.new store.new) }
    ensures items { OnOk result (HasItemRoom txns.old store.old.meta → HasItemRoom txns.new store.new.meta) }
    ensures one { LogsOne O.first D.Disk (Abort (number_drawn s txns.old)) store.old store.new result }
    ensures acts { WhereSound O.first D.Disk (Owes (number_drawn s txns.old) Aborts (site_of store.old.now)
        → OnOk result (ActsBy (number_drawn s txns.old) Aborts store.old.now store.new.now)) }
    ensures refused { WhereSound O.first D.Disk (IsDatabaseState store.old.now → Owes (number_drawn s txns.old) Aborts (site_of store.old.now)
        → IfErr result (λ e. e ≡ Fault)) }
    ensures steps { steps.new ≡ steps.old + 1 }
{
    an_action_meets_its_needs();
    pages_are_in_bounds();
    records_without_bytes_lie_as_their_actions();
    a_record_acts::<D>();
    let _tables = store.meta();
    steps.log_record();
    txns.mark_abort(store, s)
}
