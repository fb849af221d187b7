// Locks that are taken, where no other session forbids it.
ghost use Rattle.std.specs.Prelude.{◌≡◌, ℕ, T, true, false, List, None};
ghost use Rattle.std.specs.Ordering.{nat_cmp};
ghost use Rattle.std.specs.FinMap.Entries.{is_sorted};
ghost use Rattle.ctr_model.specs.declared.state.State.{State};
ghost use Rattle.ctr_model.specs.Refusals.{first_session, is_busy, others};
ghost use Rattle.ctr_locks.specs.Held.{OfSession, UsesName, HoldsName, LocksEntryKey, HasRoomForKey, HasRoomForName, held_by_session, locked_among};
ghost use Rattle.ctr_locks.specs.Shows.{ShowsKeyLocks};

use ctr_locks::{KeyLocks, key_locks_are_the_models};
use ctr_model::Key;
use ctr_types::{Name, Refusal};

/// A row of a table: the table's entry of the catalog and its name, and the key.
#[derive(Clone, Copy)]
pub struct RowAt<'a> {
    pub entry: u8,
    pub name: &'a Name,
    pub key: Key,
}

/// A session uses a table; or it is told who holds the name.
pub(crate) fn take_use(locks: &mut KeyLocks, s: u8, name: &Name) -> Option<Refusal>
    requires { HasRoomForName name.now (held_by_session s locks.old) }
    ensures taken { result ≡ None → OfSession s (UsesName name.now) locks.old locks.new }
    ensures free { (names : ℕ → List ℕ) (state : State) → ShowsKeyLocks names locks.old state → T (is_sorted nat_cmp state.sessions)
        → first_session (is_busy false name.now) (others s state) ≡ None → result ≡ None }
{
    key_locks_are_the_models();
    locks.stands_in_order();
    match locks.use_table(s, name) {
        Ok(()) => None,
        Err(held) => Some(Refusal::TableBusy { by: held.by }),
    }
}

/// A session locks a key; or it is told who has the lock.
pub(crate) fn take_key(locks: &mut KeyLocks, s: u8, row: &RowAt) -> Option<Refusal>
    requires { HasRoomForKey row.now.entry row.now.key (held_by_session s locks.old) }
    ensures taken { result ≡ None → OfSession s (LocksEntryKey row.now.entry row.now.key) locks.old locks.new }
    ensures free { locked_among s row.now.entry row.now.key locks.old ≡ None → result ≡ None }
{
    match locks.try_lock(s, row.entry, row.key) {
        Ok(()) => None,
        Err(held) => Some(Refusal::RowLocked { by: held.by }),
    }
}

/// A session holds a name; or it is told who holds or uses it.
pub(crate) fn take_name(locks: &mut KeyLocks, s: u8, name: &Name) -> Option<Refusal>
    requires { HasRoomForName name.now (held_by_session s locks.old) }
    ensures taken { result ≡ None → OfSession s (HoldsName name.now) locks.old locks.new }
    ensures free { (names : ℕ → List ℕ) (state : State) → ShowsKeyLocks names locks.old state → T (is_sorted nat_cmp state.sessions)
        → first_session (is_busy true name.now) (others s state) ≡ None → result ≡ None }
{
    key_locks_are_the_models();
    locks.stands_in_order();
    match locks.hold_name(s, name) {
        Ok(()) => None,
        Err(held) => Some(Refusal::TableBusy { by: held.by }),
    }
}
