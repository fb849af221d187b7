// Whether a row is locked.
ghost use Rattle.std.specs.Prelude.{◌≡◌, ◌≢◌, ◌<◌, ◌↔◌, true, false, IfErr, IfOk};
ghost use Rattle.ctr_disk.specs.declared.fault.StoreFault.TheVariants.{Fault};
ghost use Rattle.ctr_base.specs.Base.{WhereSound};
ghost use Rattle.ctr_record_effects.specs.States.{area_in};
ghost use Rattle.ctr_record_effects.specs.Standing.{IsDatabaseState};
ghost use Rattle.ctr_walk.specs.Damage.{ReadsPages};
ghost use Rattle.ctr_locking.specs.Locking.{names_of, IsNamedAs, LockSaid, LocksSaid};

use ctr_base::Origin;
use ctr_disk::{Disk, StoreFault};
use ctr_locks::KeyLocks;
use ctr_model::Key;
use ctr_page::EntryState;
use ctr_store::Store;
use ctr_titles::title_at;

/// The entries of the catalog.
const ENTRIES: u8 = 32;

/// Whether an entry has the name of another one that isn't free, or is free. It reads two pages.
fn is_named_as<D: Disk, O: Origin>(
    store: &mut Store<D, O>,
    entry: u8,
    other: u8,
) -> Result<bool, StoreFault>
    requires going { store.old.stopped ≡ false }
    requires there { (entry < 32) × (other < 32) }
    ensures tells { WhereSound O.first D.Disk (((area_in store.old.now).title entry).state ≢ 0 → IfOk result (λ is. (is ≡ true) ↔ IsNamedAs (area_in store.old.now) entry other)) }
    ensures refused { WhereSound O.first D.Disk (IsDatabaseState store.old.now → IfErr result (λ e. e ≡ Fault)) }
    ensures leaves { ReadsPages O.first D.Disk store.old store.new result }
{
    let mine = match title_at(store, entry) {
        Err(fault) => return Err(fault),
        Ok(title) => title,
    };
    let its = match title_at(store, other) {
        Err(fault) => return Err(fault),
        Ok(title) => title,
    };
    Ok(its.state == EntryState::FREE || its.name.is(&mine.name))
}

/// Whether a session has the lock of a key in another entry, or in the same, which has the name of the one or is free.
fn is_locked_in<D: Disk, O: Origin>(
    store: &mut Store<D, O>,
    locks: &KeyLocks,
    entry: u8,
    other: u8,
    key: Key,
) -> Result<bool, StoreFault>
    requires going { store.old.stopped ≡ false }
    requires there { (entry < 32) × (other < 32) }
    ensures tells { WhereSound O.first D.Disk (((area_in store.old.now).title entry).state ≢ 0 → IfOk result (LockSaid locks.now (area_in store.old.now) entry key other)) }
    ensures refused { WhereSound O.first D.Disk (IsDatabaseState store.old.now → IfErr result (λ e. e ≡ Fault)) }
    ensures leaves { ReadsPages O.first D.Disk store.old store.new result }
{
    store.rests();
    match locks.locked(other, key) {
        None => Ok(false),
        Some(_) => is_named_as(store, entry, other),
    }
}

/// Whether a session has the lock of a key in the table of an entry that isn't free, or in another entry of the same name, as where a session has
/// dropped a table and made it anew: the lock is of the name. Two pages are read for each other entry in which the key is locked. It takes no memory.
pub fn is_locked<D: Disk, O: Origin>(
    store: &mut Store<D, O>,
    locks: &KeyLocks,
    entry: u8,
    key: Key,
) -> Result<bool, StoreFault>
    requires going { store.old.stopped ≡ false }
    requires there { entry < 32 }
    ensures tells { WhereSound O.first D.Disk (((area_in store.old.now).title entry).state ≢ 0 → IfOk result (LocksSaid locks.now (area_in store.old.now) entry key)) }
    // In a state that may be a database's it is refused for no other cause than that the disk failed.
    ensures refused { WhereSound O.first D.Disk (IsDatabaseState store.old.now → IfErr result (λ e. e ≡ Fault)) }
    ensures leaves { ReadsPages O.first D.Disk store.old store.new result }
{
    for other in 0..ENTRIES {
        match is_locked_in(store, locks, entry, other, key) {
            Err(fault) => return Err(fault),
            Ok(true) => return Ok(true),
            Ok(false) => {}
        }
    }
    Ok(false)
}
