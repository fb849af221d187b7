// Why an act is refused by what tells of its table's name: each cause in its order.
ghost use Rattle.std.specs.Prelude.{◌≡◌, ◌++◌, false, Ok, IfOk, IfErr, ⊤};
ghost use Rattle.std.specs.Option.{option_map};
ghost use Rattle.ctr_types.specs.declared.tape.Refusal.TheVariants as refusal;
ghost use Rattle.ctr_disk.specs.declared.fault.StoreFault.TheVariants.{Fault};
ghost use Rattle.ctr_model.specs.Database.{table_at};
ghost use Rattle.ctr_model.specs.State.{view};
ghost use Rattle.ctr_model.specs.Refusals.{first_of, presence_refusals, name_refusals};
ghost use Rattle.ctr_base.specs.Base.{WhereSound};
ghost use Rattle.ctr_store.specs.Store.{View, LeavesPage};
ghost use Rattle.ctr_record_effects.specs.Standing.{IsDatabaseState};
ghost use Rattle.ctr_walk.specs.Damage.{ReadsPages};
ghost use Rattle.ctr_wishes.specs.actions_Sites.{site_of};
ghost use Rattle.ctr_txn.specs.Held.{txn_of};
ghost use Rattle.ctr_asking.specs.Asking.{Asking, FindsFor};

use crate::asker::Asker;
use crate::laws::what_tells_of_a_name_is_the_models;
use crate::names::{busy, last_change, presence};
use ctr_base::Origin;
use ctr_disk::{Disk, StoreFault};
use ctr_store::Store;
use ctr_txn::Txn;
use ctr_types::{Name, Refusal, Statement};

fn name_refusal(last: Option<u64>) -> Option<Refusal>
    ensures { result ≡ option_map refusal.SchemaChanged last }
{
    match last {
        None => None,
        Some(commit) => Some(Refusal::SchemaChanged { commit }),
    }
}

// Where the table was looked for: by whether it is there, who keeps the session from the name, and the last commit that changed it. It
// goes on from pages that were read.
pub(crate) fn refused_by_name<D: Disk, O: Origin>(
    store: &mut Store<D, O>,
    asker: &Asker,
    txn: &Txn,
    statement: &Statement,
    name: &Name,
    found: Option<u8>,
) -> Result<Option<Refusal>, StoreFault>
    requires going { store.old.stopped ≡ false }
    requires in_it { txn_of asker.now.s asker.now.txns.now ≡ Some txn.now }
    ensures model { WhereSound O.first D.Disk ((k : Asking asker.now (site_of store.old.now)) → FindsFor (site_of store.old.now) k.txn name.now found
        → IfOk result (λ r. r ≡ first_of (presence_refusals statement.now (table_at (view k.state k.t) name.now) ++ name_refusals k.state asker.now.s k.t statement.now name.now))) }
    ensures refused { WhereSound O.first D.Disk (IsDatabaseState store.old.now → IfErr result (λ e. e ≡ Fault)) }
    ensures leaves { (a : View D) → LeavesPage {T = ⊤} O.first D.Disk a store.old (Ok tt) → ReadsPages O.first D.Disk a store.new result }
{
    what_tells_of_a_name_is_the_models();
    asker.locks.stands_in_order();
    if let Some(why) = presence(statement, found) {
        return Ok(Some(why));
    }
    if let Some(by) = busy(asker, statement, name) {
        return Ok(Some(Refusal::TableBusy { by }));
    }
    let last = match last_change(store, name, &txn.snapshot, asker.txns) {
        Err(fault) => return Err(fault),
        Ok(last) => last,
    };
    Ok(name_refusal(last))
}
