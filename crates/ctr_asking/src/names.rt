// What speaks against an act by its table's name: the table isn't there, or is; the name is busy; the table was changed.
ghost use Rattle.std.specs.Prelude.{◌≡◌, ◌<◌, ◌≤◌, ◌+◌, false, IfOk, IfErr, option_and_then};
ghost use Rattle.ctr_disk.specs.declared.fault.StoreFault.TheVariants.{Fault};
ghost use Rattle.ctr_model.specs.Refusals.{first_of};
ghost use Rattle.ctr_model.specs.State.{has_name};
ghost use Rattle.ctr_base.specs.Base.{WhereSound};
ghost use Rattle.ctr_record_effects.specs.Standing.{IsDatabaseState};
ghost use Rattle.ctr_walk.specs.Damage.{ReadsPages};
ghost use Rattle.ctr_wishes.specs.actions_Sites.{site_of};
ghost use Rattle.ctr_txn.specs.Numbered.{number_asked};
ghost use Rattle.ctr_asking.specs.Causes.{presence_refused, busy_at, later, change_number, last_change};

use crate::asker::Asker;
use ctr_base::Origin;
use ctr_disk::{Disk, StoreFault};
use ctr_snap::Snapshot;
use ctr_statement::{changes_schema, creates};
use ctr_store::Store;
use ctr_txn::Txns;
use ctr_types::{Name, Refusal, Statement, Xid};
use ctr_wishes::reading::a_catalog_search_meets_no_damage;
use ctr_wishes::reading::views::changed_from;

// Whether the table is there as the statement wants it.
pub(crate) fn presence(statement: &Statement, found: Option<u8>) -> Option<Refusal>
    ensures { result ≡ first_of (presence_refused statement.now found) }
{
    match (found, creates(statement)) {
        (None, false) => Some(Refusal::NoTable),
        (Some(_), true) => Some(Refusal::TableExists),
        (None, true) => None,
        (Some(_), false) => None,
    }
}

fn has_name(name: &Name, names: &[Name]) -> bool
    ensures { result ≡ has_name name.now names.now }
{
    names.iter().any(|n| *n == *name)
}

// Who keeps a session from the statement's table: recovery, whose number is 0, or the lowest other session.
pub(crate) fn busy(asker: &Asker, statement: &Statement, name: &Name) -> Option<u8>
    ensures { result ≡ busy_at asker.now statement.now name.now }
{
    if has_name(name, asker.stuck.as_slice()) {
        return Some(0);
    }
    asker.locks.busy(asker.s, changes_schema(statement), name)
}

// The later of two commits.
fn later(a: Option<u64>, b: Option<u64>) -> Option<u64>
    ensures { result ≡ later a b }
{
    match (a, b) {
        (None, b) => b,
        (a, None) => a,
        (Some(a), Some(b)) => { if a < b { Some(b) } else { Some(a) } }
    }
}

// The commit number of who changed a table, where anybody did.
fn number_of(txns: &Txns, who: Option<Xid>) -> Option<u64>
    ensures { result ≡ option_and_then (λ x. number_asked x txns.now.numbers.commits) who }
{
    match who {
        None => None,
        Some(x) => txns.number(x),
    }
}

// An entry of the catalog to which a look at some came, and the commit by which its table was changed.
#[derive(Clone, Copy, Debug, PartialEq, Eq)]
struct NumberAt {
    entry: u8,
    number: Option<u64>,
}

// The commit by which a table of a name was made or dropped, where a snapshot doesn't see it, of the entries from one on up to the one that
// is answered.
fn change_number<D: Disk, O: Origin>(
    store: &mut Store<D, O>,
    from: u8,
    name: &Name,
    snapshot: &Snapshot,
    txns: &Txns,
) -> Result<NumberAt, StoreFault>
    requires going { store.old.stopped ≡ false }
    requires there { from < 32 }
    ensures tells { WhereSound O.first D.Disk (IfOk result (λ at. last_change txns.now.numbers.commits (site_of store.old.now) snapshot.now name.now (at.entry + 1)
        ≡ later (last_change txns.now.numbers.commits (site_of store.old.now) snapshot.now name.now from) at.number)) }
    ensures inside { IfOk result (λ at. (from ≤ at.entry) × (at.entry < 32)) }
    ensures refused { WhereSound O.first D.Disk (IsDatabaseState store.old.now → IfErr result (λ e. e ≡ Fault)) }
    ensures leaves { ReadsPages O.first D.Disk store.old store.new result }
{
    a_catalog_search_meets_no_damage();
    let at = match changed_from(store, from, name, snapshot) {
        Err(fault) => return Err(fault),
        Ok(at) => at,
    };
    Ok(NumberAt {
        entry: at.entry,
        number: number_of(txns, at.who),
    })
}

/// The last commit by which a table of a name was made or dropped that a snapshot doesn't see.
pub(crate) fn last_change<D: Disk, O: Origin>(
    store: &mut Store<D, O>,
    name: &Name,
    snapshot: &Snapshot,
    txns: &Txns,
) -> Result<Option<u64>, StoreFault>
    requires going { store.old.stopped ≡ false }
    ensures tells { WhereSound O.first D.Disk (IfOk result (λ n. n ≡ last_change txns.now.numbers.commits (site_of store.old.now) snapshot.now name.now 32)) }
    ensures refused { WhereSound O.first D.Disk (IsDatabaseState store.old.now → IfErr result (λ e. e ≡ Fault)) }
    ensures leaves { ReadsPages O.first D.Disk store.old store.new result }
{
    let mut last = None;
    let mut entry = 0;
    while entry < 32 {
        let at = match change_number(store, entry, name, snapshot, txns) {
            Err(fault) => return Err(fault),
            Ok(at) => at,
        };
        last = later(last, at.number);
        entry = at.entry + 1;
    }
    Ok(last)
}
