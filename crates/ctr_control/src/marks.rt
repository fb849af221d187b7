// A record of a session's transaction that is on no page, as the action that it is.
ghost use Rattle.std.specs.Prelude.{◌≡◌, OnOk, IfErr};
ghost use Rattle.ctr_disk.specs.declared.fault.StoreFault.TheVariants.{Fault};
ghost use Rattle.ctr_rec.specs.declared.record.Record.TheVariants.{Commit};
ghost use Rattle.ctr_record_effects.specs.Standing.{IsDatabaseState};
ghost use Rattle.ctr_actions.specs.Actions.{Commits, Owes};
ghost use Rattle.ctr_actions.specs.Sites.{site_of};
ghost use Rattle.ctr_base.specs.Base.{WhereSound};
ghost use Rattle.ctr_writing.specs.ctr_session_world.walk_OneRecord.{LogsOne};
ghost use Rattle.ctr_writing.specs.ctr_session_world.txn_Held.{number_drawn};
ghost use Rattle.ctr_writing.specs.ctr_session_world.txn_Rooms.{HasItemRoom};
ghost use Rattle.ctr_writing.specs.ctr_session_world.txn_Calls.{MayEnd, IsOverStore, AsksFor};
ghost use Rattle.ctr_control.specs.Marks.{IsMarkedBy};

use ctr_actions::an_action_meets_its_needs;
use ctr_base::Origin;
use ctr_disk::{Disk, StoreFault};
use ctr_record_laws::pages_are_in_bounds;
use ctr_store::Store;
use ctr_writing::session_world::{
    Txns, a_record_acts, a_record_is_refused_by_the_disk_alone,
    records_without_bytes_lie_as_their_actions,
};

/// A session asks for its commit, by this statement.
pub(crate) fn ask_for<D: Disk, O: Origin>(
    store: &mut Store<D, O>,
    txns: &mut Txns,
    s: u8,
    statement: u64,
) -> Result<u64, StoreFault>
    requires may { MayEnd s txns.old store.old }
    ensures asks { AsksFor s statement txns.old txns.new result }
    ensures over { OnOk result (IsOverStore txns.new store.new) }
    ensures items { OnOk result (HasItemRoom txns.old store.old.meta → HasItemRoom txns.new store.new.meta) }
    ensures one { LogsOne O.first D.Disk (Commit (number_drawn s txns.old)) store.old store.new result }
    ensures marks { WhereSound O.first D.Disk (Owes (number_drawn s txns.old) Commits (site_of store.old.now)
        → OnOk result (IsMarkedBy D.Disk (number_drawn s txns.old) Commits store.old store.new)) }
    ensures refused { WhereSound O.first D.Disk (IsDatabaseState store.old.now → Owes (number_drawn s txns.old) Commits (site_of store.old.now)
        → IfErr result (λ e. e ≡ Fault)) }
{
    an_action_meets_its_needs();
    pages_are_in_bounds();
    records_without_bytes_lie_as_their_actions();
    a_record_acts::<D>();
    let _tables = store.meta();
    let asked = txns.ask_commit(store, s, statement);
    store.rests();
    asked
}
