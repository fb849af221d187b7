// Why an act is refused by all that doesn't tell of the table's name: each cause in its order. All here goes on from pages that were read.
ghost use Rattle.std.specs.Prelude.{◌≡◌, ◌<◌, ◌++◌, ℕ, List, Some, None, false, IfSome, Ok, IfOk, IfErr, ⊤};
ghost use Rattle.std.specs.Option.{option_map};
ghost use Rattle.ctr_types.specs.declared.tape.Refusal.TheVariants as refusal;
ghost use Rattle.ctr_types.specs.declared.statement.Statement.{Statement as Asks};
ghost use Rattle.ctr_disk.specs.declared.fault.StoreFault.TheVariants.{Fault};
ghost use Rattle.ctr_model.specs.Database.{table_at};
ghost use Rattle.ctr_model.specs.State.{view};
ghost use Rattle.ctr_model.specs.Refusals.{first_of, key_locked, presence_refusals, name_refusals, value_refusals, key_refusals};
ghost use Rattle.ctr_base.specs.Base.{WhereSound};
ghost use Rattle.ctr_store.specs.Store.{View, LeavesPage};
ghost use Rattle.ctr_record_effects.specs.Standing.{IsDatabaseState};
ghost use Rattle.ctr_walk.specs.Damage.{ReadsPages};
ghost use Rattle.ctr_wishes.specs.actions_Sites.{site_of};
ghost use Rattle.ctr_txn.specs.Held.{txn_of};
ghost use Rattle.ctr_asking.specs.Asking.{Asking, HasPassed, FindsFor, refusal_told, AnswersEntry};

use crate::asker::{Answer, Asker};
use crate::keys::row_changed;
use crate::laws::{what_tells_of_a_name_is_the_models, what_tells_of_a_row_is_the_models};
use crate::values::bad_value_in;
use ctr_base::Origin;
use ctr_disk::{Disk, StoreFault};
use ctr_model::Key;
use ctr_statement::key_locked;
use ctr_store::Store;
use ctr_txn::Txn;
use ctr_types::{Act, Refusal, Statement};

fn row_refusal(newer: Option<u64>) -> Option<Refusal>
    ensures { result ≡ option_map refusal.RowChanged newer }
{
    match newer {
        None => None,
        Some(commit) => Some(Refusal::RowChanged { commit }),
    }
}

// What is answered, by why the act is refused, if it is, and by the table's entry.
fn answer(why: Option<Refusal>, found: Option<u8>) -> Answer
    ensures told { refusal_told result ≡ why }
    ensures of { AnswersEntry found result }
{
    match why {
        None => Answer::Free(found),
        Some(why) => Answer::Refused(why),
    }
}

// By the lock of a key, and by its row.
fn ask_key<D: Disk, O: Origin>(
    store: &mut Store<D, O>,
    asker: &Asker,
    txn: &Txn,
    entry: u8,
    key: Key,
) -> Result<Option<Refusal>, StoreFault>
    requires going { store.old.stopped ≡ false }
    requires in_it { txn_of asker.now.s asker.now.txns.now ≡ Some txn.now }
    requires there { entry < 32 }
    ensures model { WhereSound O.first D.Disk ((k : Asking asker.now (site_of store.old.now)) (statement : Asks) (name : List ℕ) → HasPassed k statement name entry
        → IfOk result (λ r. r ≡ first_of (key_refusals k.state asker.now.s k.t name (Some key)))) }
    ensures refused { WhereSound O.first D.Disk (IsDatabaseState store.old.now → IfErr result (λ e. e ≡ Fault)) }
    ensures leaves { (a : View D) → LeavesPage {T = ⊤} O.first D.Disk a store.old (Ok tt) → ReadsPages O.first D.Disk a store.new result }
{
    what_tells_of_a_row_is_the_models();
    asker.locks.stands_in_order();
    if let Some(by) = asker.locks.locked_to(asker.s, entry, key) {
        return Ok(Some(Refusal::RowLocked { by }));
    }
    let newer = match row_changed(store, entry, key.number(), &txn.snapshot, asker.txns) {
        Err(fault) => return Err(fault),
        Ok(newer) => newer,
    };
    Ok(row_refusal(newer))
}

// By a key, where the act locks one.
fn ask_row<D: Disk, O: Origin>(
    store: &mut Store<D, O>,
    asker: &Asker,
    txn: &Txn,
    entry: u8,
    key: Option<Key>,
) -> Result<Answer, StoreFault>
    requires going { store.old.stopped ≡ false }
    requires in_it { txn_of asker.now.s asker.now.txns.now ≡ Some txn.now }
    requires there { entry < 32 }
    ensures of { IfOk result (AnswersEntry (Some entry)) }
    ensures model { WhereSound O.first D.Disk ((k : Asking asker.now (site_of store.old.now)) (statement : Asks) (name : List ℕ) → HasPassed k statement name entry
        → IfOk result (λ a. refusal_told a ≡ first_of (key_refusals k.state asker.now.s k.t name key))) }
    ensures refused { WhereSound O.first D.Disk (IsDatabaseState store.old.now → IfErr result (λ e. e ≡ Fault)) }
    ensures leaves { (a : View D) → LeavesPage {T = ⊤} O.first D.Disk a store.old (Ok tt) → ReadsPages O.first D.Disk a store.new result }
{
    let Some(key) = key else {
        return Ok(Answer::Free(Some(entry)));
    };
    let why = match ask_key(store, asker, txn, entry, key) {
        Err(fault) => return Err(fault),
        Ok(why) => why,
    };
    Ok(answer(why, Some(entry)))
}

// By the values and by a key, in the table of an entry.
fn ask_table<D: Disk, O: Origin>(
    store: &mut Store<D, O>,
    asker: &Asker,
    txn: &Txn,
    entry: u8,
    key: Option<Key>,
    statement: &Statement,
) -> Result<Answer, StoreFault>
    requires going { store.old.stopped ≡ false }
    requires in_it { txn_of asker.now.s asker.now.txns.now ≡ Some txn.now }
    requires there { entry < 32 }
    ensures of { IfOk result (AnswersEntry (Some entry)) }
    ensures model { WhereSound O.first D.Disk ((k : Asking asker.now (site_of store.old.now)) (name : List ℕ) → HasPassed k statement.now name entry
        → IfOk result (λ a. refusal_told a ≡ first_of (value_refusals statement.now (table_at (view k.state k.t) name) ++ key_refusals k.state asker.now.s k.t name key))) }
    ensures refused { WhereSound O.first D.Disk (IsDatabaseState store.old.now → IfErr result (λ e. e ≡ Fault)) }
    ensures leaves { (a : View D) → LeavesPage {T = ⊤} O.first D.Disk a store.old (Ok tt) → ReadsPages O.first D.Disk a store.new result }
{
    what_tells_of_a_row_is_the_models();
    let bad = match bad_value_in(store, entry, statement) {
        Err(fault) => return Err(fault),
        Ok(bad) => bad,
    };
    match bad {
        Some(at) => Ok(Answer::Refused(Refusal::BadValue { at })),
        None => ask_row(store, asker, txn, entry, key),
    }
}
// By all that doesn't tell of the name, where the table was looked for.
pub(crate) fn ask_found<D: Disk, O: Origin>(
    store: &mut Store<D, O>,
    asker: &Asker,
    txn: &Txn,
    act: &Act,
    statement: &Statement,
    found: Option<u8>,
) -> Result<Answer, StoreFault>
    requires going { store.old.stopped ≡ false }
    requires in_it { txn_of asker.now.s asker.now.txns.now ≡ Some txn.now }
    requires there { IfSome found (λ e. e < 32) }
    ensures of { IfOk result (AnswersEntry found) }
    ensures model { WhereSound O.first D.Disk ((k : Asking asker.now (site_of store.old.now)) (name : List ℕ) → FindsFor (site_of store.old.now) k.txn name found
        → first_of (presence_refusals statement.now (table_at (view k.state k.t) name) ++ name_refusals k.state asker.now.s k.t statement.now name) ≡ None
        → IfOk result (λ a. refusal_told a ≡ first_of (value_refusals statement.now (table_at (view k.state k.t) name) ++ key_refusals k.state asker.now.s k.t name (key_locked act.now statement.now)))) }
    ensures refused { WhereSound O.first D.Disk (IsDatabaseState store.old.now → IfErr result (λ e. e ≡ Fault)) }
    ensures leaves { (a : View D) → LeavesPage {T = ⊤} O.first D.Disk a store.old (Ok tt) → ReadsPages O.first D.Disk a store.new result }
{
    what_tells_of_a_name_is_the_models();
    match found {
        None => Ok(Answer::Free(None)),
        Some(entry) => {
            let key = key_locked(act, statement);
            ask_table(store, asker, txn, entry, key, statement)
        }
    }
}
