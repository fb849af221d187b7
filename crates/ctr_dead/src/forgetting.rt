// One record gives back a page that left its chain, or forgets a rolled back transaction.
ghost use Rattle.std.specs.Prelude.{◌≡◌, ◌<◌, ℕ, OnOk, IfErr};
ghost use Rattle.ctr_disk.specs.declared.fault.StoreFault.TheVariants.{Fault};
ghost use Rattle.ctr_walk.specs.base_growing_TheConstants.{MOST_PAGES};
ghost use Rattle.ctr_walk.specs.base_Base.{WhereSound};
ghost use Rattle.ctr_rec.specs.declared.record.SlogItem.TheVariants.{FreeOf};
ghost use Rattle.ctr_rec.specs.declared.record.Record.TheVariants.{Forget};
ghost use Rattle.ctr_area.specs.Sound.{IsAmong};
ghost use Rattle.ctr_walk.specs.OneRecord.{HasRoomForOne, LogsOne};
ghost use Rattle.ctr_record_effects.specs.States.{IsWholePage};
ghost use Rattle.ctr_record_effects.specs.Changing.{free_record};
ghost use Rattle.ctr_record_effects.specs.Standing.{IsDatabaseState};
ghost use Rattle.ctr_record_laws.specs.Owed.{OwedByForget};
ghost use Rattle.ctr_alloc.specs.actions_Sites.{site_of};
ghost use Rattle.ctr_alloc.specs.actions_Actions.{Reclaims, Forgets, site_after};
ghost use Rattle.ctr_trim.specs.page_turns_Acts.{ActsBy};

use ctr_alloc::{a_logged_record_is_its_action, free};
use ctr_disk::{Disk, StoreFault};
use ctr_pvs::records_without_bytes_lie_as_their_actions;
use ctr_rec::{PageNo, Record};
use ctr_trim::{a_record_acts, a_record_is_refused_by_the_disk_alone, pages_lie_as_their_actions};
use ctr_types::Xid;
use ctr_walk::{Origin, Store, a_record_may_be_logged, log_record};

/// Gives back a page that left its chain, by one record, which isn't hardened yet: it is free again. It takes no memory.
pub fn give_back<D: Disk, O: Origin>(store: &mut Store<D, O>, p: PageNo) -> Result<(), StoreFault>
    requires room { HasRoomForOne 0 0 store.old }
    requires small { p < MOST_PAGES }
    ensures one { (byte : ℕ) × LogsOne O.first D.Disk (free_record p byte) store.old store.new result }
    ensures whole { WhereSound O.first D.Disk (OnOk result (IsWholePage 0 store.old.now)) }
    // The page is free, the secondary log has it no more, and nothing else in the pages and the tables changes.
    ensures leaves { (x : ℕ) → WhereSound O.first D.Disk (OnOk result (site_of store.new.now ≡ site_after x (Reclaims p) (site_of store.old.now))) }
    // Where the secondary log has the page it is that action, whose bytes lie on the map of allocated pages.
    ensures acts { (x : ℕ) → WhereSound O.first D.Disk (IsDatabaseState store.old.now → IsAmong (FreeOf p) store.old.now.tables.items
        → OnOk result (ActsBy x (Reclaims p) store.old.now store.new.now)) }
    // And it is refused for no other cause than that the disk failed.
    ensures refused { WhereSound O.first D.Disk (IsDatabaseState store.old.now → IsAmong (FreeOf p) store.old.now.tables.items → IfErr result (λ f. f ≡ Fault)) }
{
    let _tables = store.meta();
    a_record_acts::<D>();
    a_record_is_refused_by_the_disk_alone::<D, ()>();
    pages_lie_as_their_actions();
    free(store, p)
}

/// Forgets a rolled back transaction, by one record, which isn't hardened yet. It takes no memory.
pub fn forget<D: Disk, O: Origin>(store: &mut Store<D, O>, x: Xid) -> Result<(), StoreFault>
    requires room { HasRoomForOne 0 0 store.old }
    ensures one { LogsOne O.first D.Disk (Forget x) store.old store.new result }
    // The tables know it no more, and nothing else in them and in the pages changes.
    ensures leaves { (y : ℕ) → WhereSound O.first D.Disk (OnOk result (site_of store.new.now ≡ site_after y (Forgets x) (site_of store.old.now))) }
    // Where it is rolled back and has no head it is that action.
    ensures acts { (y : ℕ) → WhereSound O.first D.Disk (OwedByForget store.old.now.tables x → OnOk result (ActsBy y (Forgets x) store.old.now store.new.now)) }
    // And it is refused for no other cause than that the disk failed.
    ensures refused { WhereSound O.first D.Disk (IsDatabaseState store.old.now → OwedByForget store.old.now.tables x → IfErr result (λ f. f ≡ Fault)) }
{
    let _tables = store.meta();
    a_logged_record_is_its_action();
    a_record_acts::<D>();
    a_record_is_refused_by_the_disk_alone::<D, ()>();
    records_without_bytes_lie_as_their_actions();
    match log_record(store, &Record::Forget { x }) {
        Ok(_) => Ok(()),
        Err(fault) => Err(fault),
    }
}
