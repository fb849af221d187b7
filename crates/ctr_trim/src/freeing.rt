// One record frees a version entry that no chain has.
ghost use Rattle.std.specs.Prelude.{◌≡◌, ◌<◌, ℕ, false, OnOk, IfErr};
ghost use Rattle.ctr_disk.specs.declared.fault.StoreFault.TheVariants.{Fault};
ghost use Rattle.ctr_passed.specs.redo_States.{page_limit};
ghost use Rattle.ctr_pvs.specs.base_Base.{WhereSound};
ghost use Rattle.ctr_pvs.specs.store_Store.{LeavesPage};
ghost use Rattle.ctr_record_effects.specs.States.{area_in, IsWholePage};
ghost use Rattle.ctr_record_effects.specs.Standing.{IsDatabaseState};
ghost use Rattle.ctr_passed.specs.record_laws_Loose.{IsLoose};
ghost use Rattle.ctr_passed.specs.actions_Sites.{site_of};
ghost use Rattle.ctr_passed.specs.actions_Actions.{FreesOlder, site_after};
ghost use Rattle.ctr_pvs.specs.walk_OneRecord.{HasRoomForOne};
ghost use Rattle.ctr_pvs.specs.Writing.{DropsEntry};
ghost use Rattle.ctr_page_turns.specs.Acts.{ActsBy};

use ctr_disk::{Disk, StoreFault};
use ctr_page::Place;
use ctr_page_turns::{a_record_acts, a_record_is_refused_by_the_disk_alone};
use ctr_passed::owed_versions_are_laid_as_their_actions;
use ctr_pvs::{Origin, Store, free_entry};
use ctr_rec::PageNo;
use ctr_undamaged::{a_place_of_a_table_fits, a_version_entry_is_read_without_damage};

/// Brings a page into a frame: it is there, whole.
fn look<D: Disk, O: Origin>(store: &mut Store<D, O>, p: PageNo) -> Result<(), StoreFault>
    requires going { store.old.stopped ≡ false }
    requires there { p < page_limit }
    ensures whole { WhereSound O.first D.Disk (OnOk result (IsWholePage p store.old.now)) }
    ensures leaves { LeavesPage O.first D.Disk store.old store.new result }
{
    let _bytes = store.page(p)?;
    Ok(())
}

/// Frees the version entry at a place of a page of versions, by one record, which isn't hardened yet. Its page and the table's entry of the catalog
/// are checked as they are read. It takes no memory.
pub fn free_loose<D: Disk, O: Origin>(
    store: &mut Store<D, O>,
    place: Place,
) -> Result<(), StoreFault>
    requires room { HasRoomForOne 0 0 store.old }
    requires counted { place.page < store.old.now.counted }
    ensures one { DropsEntry O.first D.Disk place store.old store.new result }
    ensures whole { WhereSound O.first D.Disk (OnOk result (IsWholePage place.page store.old.now)) }
    // The version entry isn't used, and nothing else in the pages and the tables changes.
    ensures leaves { (x e : ℕ) → WhereSound O.first D.Disk (OnOk result (site_of store.new.now ≡ site_after x (FreesOlder e place) (site_of store.old.now))) }
    // Where it is one of a table, and no chain has it, it is that action, whose bytes lie at the version entry and pass their checks.
    ensures acts { (x e : ℕ) → WhereSound O.first D.Disk (IsDatabaseState store.old.now → IsLoose (area_in store.old.now) e place ((area_in store.old.now).older place)
        → OnOk result (ActsBy x (FreesOlder e place) store.old.now store.new.now)) }
    // And it is refused for no other cause than that the disk failed.
    ensures refused { (e : ℕ) → WhereSound O.first D.Disk (IsDatabaseState store.old.now → IsLoose (area_in store.old.now) e place ((area_in store.old.now).older place)
        → IfErr result (λ f. f ≡ Fault)) }
{
    let _tables = store.meta();
    a_record_acts::<D>();
    a_record_is_refused_by_the_disk_alone::<D, ()>();
    a_place_of_a_table_fits();
    a_version_entry_is_read_without_damage();
    owed_versions_are_laid_as_their_actions();
    store.counts_pages();
    match look(store, place.page) {
        Err(fault) => Err(fault),
        Ok(()) => free_entry(store, place),
    }
}
