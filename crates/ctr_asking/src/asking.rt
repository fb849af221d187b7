// Why an act of a statement is refused: the table is looked for, and then each cause in its order.
ghost use Rattle.std.specs.Prelude.{◌≡◌, ℕ, List, Some, false, IsSome, IfOk, IfErr};
ghost use Rattle.ctr_disk.specs.declared.fault.StoreFault.TheVariants.{Fault};
ghost use Rattle.ctr_model.specs.Refusals.{table_of, table_refusals, first_of, refusal_of};
ghost use Rattle.ctr_base.specs.Base.{WhereSound};
ghost use Rattle.ctr_record_effects.specs.Standing.{IsDatabaseState};
ghost use Rattle.ctr_walk.specs.Damage.{ReadsPages};
ghost use Rattle.ctr_wishes.specs.actions_Sites.{site_of};
ghost use Rattle.ctr_txn.specs.Held.{txn_of};
ghost use Rattle.ctr_asking.specs.Asking.{Asking, IsInside, refusal_told, IsInCatalog, FindsTable};

use crate::asker::{Answer, Asker, me_of};
use crate::found::ask_found;
use crate::laws::what_tells_of_a_name_is_the_models;
use crate::named::refused_by_name;
use ctr_base::Origin;
use ctr_disk::{Disk, StoreFault};
use ctr_statement::table_of;
use ctr_store::Store;
use ctr_txn::Txn;
use ctr_types::{Act, Name, Statement};
use ctr_wishes::reading::a_catalog_search_meets_no_damage;
use ctr_wishes::reading::views::find;

// On the table of a name.
fn ask_named<D: Disk, O: Origin>(
    store: &mut Store<D, O>,
    asker: &Asker,
    txn: &Txn,
    act: &Act,
    statement: &Statement,
    name: &Name,
) -> Result<Answer, StoreFault>
    requires going { store.old.stopped ≡ false }
    requires in_it { txn_of asker.now.s asker.now.txns.now ≡ Some txn.now }
    ensures inside { IfOk result IsInCatalog }
    ensures model { WhereSound O.first D.Disk ((k : Asking asker.now (site_of store.old.now)) → IfOk result (λ a. refusal_told a ≡ first_of (table_refusals k.state asker.now.s k.t act.now statement.now name.now))) }
    ensures found { WhereSound O.first D.Disk ((k : Asking asker.now (site_of store.old.now)) → IfOk result (FindsTable (site_of store.old.now) k.txn statement.now name.now)) }
    ensures refused { WhereSound O.first D.Disk (IsDatabaseState store.old.now → IfErr result (λ e. e ≡ Fault)) }
    ensures leaves { ReadsPages O.first D.Disk store.old store.new result }
{
    what_tells_of_a_name_is_the_models();
    a_catalog_search_meets_no_damage();
    let found = match find(store, name, &txn.snapshot, me_of(txn)) {
        Err(fault) => return Err(fault),
        Ok(found) => found,
    };
    let why = match refused_by_name(store, asker, txn, statement, name, found) {
        Err(fault) => return Err(fault),
        Ok(why) => why,
    };
    match why {
        Some(why) => Ok(Answer::Refused(why)),
        None => ask_found(store, asker, txn, act, statement, found),
    }
}

/// Why a Lock or a Read of a statement is refused, by the first cause that applies; or nothing speaks against it, and the statement's table
/// has this entry of the catalog. Each page is checked as it is read. It logs nothing, and takes no memory, so want of memory is no answer.
///
/// Whoever asks is in a transaction, and the statement is of a table.
pub fn ask<D: Disk, O: Origin>(
    store: &mut Store<D, O>,
    asker: &Asker,
    act: &Act,
    statement: &Statement,
) -> Result<Answer, StoreFault>
    requires going { store.old.stopped ≡ false }
    requires inside { IsInside asker.now.s asker.now.txns.now }
    requires of_table { IsSome (table_of statement.now) }
    // The entry is one of the 32 of the catalog.
    ensures inside { IfOk result IsInCatalog }
    // It is refused exactly where the model refuses it, for the same cause.
    ensures model { WhereSound O.first D.Disk ((k : Asking asker.now (site_of store.old.now)) → IfOk result (λ a. refusal_told a ≡ refusal_of k.state asker.now.s k.t act.now statement.now)) }
    // Where it isn't, the entry is that of the table which the session finds, and there is none where it is to be made.
    ensures found { (name : List ℕ) → WhereSound O.first D.Disk ((k : Asking asker.now (site_of store.old.now)) → table_of statement.now ≡ Some name → IfOk result (FindsTable (site_of store.old.now) k.txn statement.now name)) }
    // No damage is told where the pages may be a database's: then the disk failed.
    ensures refused { WhereSound O.first D.Disk (IsDatabaseState store.old.now → IfErr result (λ e. e ≡ Fault)) }
    // It logs nothing; and a fault is told where the disk counts one more, by `a_fault_of_reading_is_counted`.
    ensures leaves { ReadsPages O.first D.Disk store.old store.new result }
{
    let Some(name) = table_of(statement) else {
        unreachable!()
    };
    let Some(txn) = asker.txns.txn(asker.s) else {
        unreachable!()
    };
    ask_named(store, asker, txn, act, statement, name)
}
