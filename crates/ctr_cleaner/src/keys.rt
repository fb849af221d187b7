// Whether a key is open to the cleaner.
ghost use Rattle.std.specs.Prelude.{◌≡◌, ◌≢◌, ◌<◌, false, IfOk, IfErr};
ghost use Rattle.ctr_disk.specs.declared.fault.StoreFault.TheVariants.{Fault};
ghost use Rattle.ctr_walk.specs.base_Base.{WhereSound};
ghost use Rattle.ctr_walk.specs.record_effects_States.{area_in};
ghost use Rattle.ctr_walk.specs.record_effects_Standing.{IsDatabaseState};
ghost use Rattle.ctr_walk.specs.Damage.{ReadsPages};
ghost use Rattle.ctr_cleaner.specs.Parts.{KeyLockSaid};

use ctr_disk::{Disk, StoreFault};
use ctr_locking::is_locked;
use ctr_locks::KeyLocks;
use ctr_model::Key;
use ctr_walk::{Origin, Store};

/// Whether no session has locked a key in an entry, or in another of its table's name. Where one has locked it in this entry, no page is read.
pub(crate) fn is_open_key<D: Disk, O: Origin>(
    store: &mut Store<D, O>,
    locks: &KeyLocks,
    entry: u8,
    key: Key,
) -> Result<bool, StoreFault>
    requires going { store.old.stopped ≡ false }
    requires there { entry < 32 }
    ensures tells { WhereSound O.first D.Disk (((area_in store.old.now).title entry).state ≢ 0 → IfOk result (KeyLockSaid locks.now entry key store.old.now)) }
    ensures leaves { ReadsPages O.first D.Disk store.old store.new result }
    ensures refused { WhereSound O.first D.Disk (IsDatabaseState store.old.now → IfErr result (λ f. f ≡ Fault)) }
{
    store.rests();
    if locks.locked(entry, key).is_some() {
        return Ok(false);
    }
    match is_locked(store, locks, entry, key) {
        Err(fault) => Err(fault),
        Ok(locked) => Ok(!locked),
    }
}
