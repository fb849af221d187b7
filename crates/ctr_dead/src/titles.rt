// One record makes a table dead, or frees its entry.
ghost use Rattle.std.specs.Prelude.{◌≡◌, ◌≢◌, ◌<◌, ◌+◌, ◌/◌, ℕ, Bool, OnOk, IfErr};
ghost use Rattle.ctr_disk.specs.declared.fault.StoreFault.TheVariants.{Fault};
ghost use Rattle.ctr_walk.specs.base_Base.{WhereSound};
ghost use Rattle.ctr_walk.specs.OneRecord.{HasRoomForOne, LogsOne};
ghost use Rattle.ctr_record_effects.specs.States.{area_in, IsWholePage};
ghost use Rattle.ctr_record_effects.specs.Standing.{IsDatabaseState};
ghost use Rattle.ctr_record_laws.specs.Owed.{OwedByDying, OwedByFreeing};
ghost use Rattle.ctr_alloc.specs.actions_Sites.{site_of};
ghost use Rattle.ctr_alloc.specs.actions_Actions.{MakesDead, site_after};
ghost use Rattle.ctr_trim.specs.page_turns_Acts.{ActsBy};
ghost use Rattle.ctr_dead.specs.Titles.{dying_record, freed_record, frees};

use crate::laws::a_trimmed_entry_changes_alone;
use ctr_alloc::a_logged_record_is_its_action;
use ctr_disk::{Disk, StoreFault};
use ctr_rec::Record;
use ctr_record_effects::over_entry;
use ctr_trim::{
    a_record_acts, a_record_is_refused_by_the_disk_alone, owed_records_are_laid_as_their_actions,
    tables_lie_as_their_actions, tables_pass_their_checks,
};
use ctr_walk::{Origin, Store, catalog_page, log_on_page};

/// Makes the table of an entry of the catalog dead, by one record, which isn't hardened yet. It takes no memory.
pub fn make_dead<D: Disk, O: Origin>(store: &mut Store<D, O>, entry: u8) -> Result<(), StoreFault>
    requires room { HasRoomForOne 0 0 store.old }
    requires there { entry < 32 }
    ensures one { LogsOne O.first D.Disk (dying_record entry) store.old store.new result }
    ensures whole { WhereSound O.first D.Disk (OnOk result (IsWholePage (1 + entry / 16) store.old.now)) }
    // Where the entry isn't free it is dead, and nothing else in the pages and the tables changes.
    ensures leaves { (x : ℕ) (passes : ℕ → Bool) → WhereSound O.first D.Disk (((area_in store.old.now).title entry).state ≢ 0
        → OnOk result (site_of store.new.now ≡ site_after x (MakesDead passes entry) (site_of store.old.now))) }
    // Where no more is owed it is that action, whose bytes lie in the entry and pass their checks.
    ensures acts { (x : ℕ) (passes : ℕ → Bool) → WhereSound O.first D.Disk (IsDatabaseState store.old.now
        → OwedByDying passes store.old.now.tables (area_in store.old.now) entry → OnOk result (ActsBy x (MakesDead passes entry) store.old.now store.new.now)) }
    // And it is refused for no other cause than that the disk failed.
    ensures refused { (passes : ℕ → Bool) → WhereSound O.first D.Disk (IsDatabaseState store.old.now
        → OwedByDying passes store.old.now.tables (area_in store.old.now) entry → IfErr result (λ f. f ≡ Fault)) }
{
    a_trimmed_entry_changes_alone();
    a_logged_record_is_its_action();
    a_record_acts::<D>();
    a_record_is_refused_by_the_disk_alone::<D, ()>();
    owed_records_are_laid_as_their_actions();
    let _tables = store.meta();
    store.counts_pages();
    let rec = Record::Trim {
        overlay: over_entry(entry, 0, &[2]),
    };
    log_on_page(store, catalog_page(entry), &rec)
}

/// Frees an entry of the catalog, by one record, which isn't hardened yet. It takes no memory.
pub fn free_table<D: Disk, O: Origin>(store: &mut Store<D, O>, entry: u8) -> Result<(), StoreFault>
    requires room { HasRoomForOne 0 0 store.old }
    requires there { entry < 32 }
    ensures one { LogsOne O.first D.Disk (freed_record entry) store.old store.new result }
    ensures whole { WhereSound O.first D.Disk (OnOk result (IsWholePage (1 + entry / 16) store.old.now)) }
    // The entry is free and has no page, and nothing else in the pages and the tables changes.
    ensures leaves { (x : ℕ) → WhereSound O.first D.Disk (OnOk result (site_of store.new.now ≡ site_after x (frees entry (area_in store.old.now)) (site_of store.old.now))) }
    // Where no more is owed it is that action, whose bytes lie in the entry and pass their checks.
    ensures acts { (x : ℕ) → WhereSound O.first D.Disk (IsDatabaseState store.old.now
        → OwedByFreeing (area_in store.old.now) entry → OnOk result (ActsBy x (frees entry (area_in store.old.now)) store.old.now store.new.now)) }
    // And it is refused for no other cause than that the disk failed.
    ensures refused { WhereSound O.first D.Disk (IsDatabaseState store.old.now → OwedByFreeing (area_in store.old.now) entry → IfErr result (λ f. f ≡ Fault)) }
{
    a_trimmed_entry_changes_alone();
    a_logged_record_is_its_action();
    a_record_acts::<D>();
    a_record_is_refused_by_the_disk_alone::<D, ()>();
    tables_lie_as_their_actions();
    tables_pass_their_checks();
    let _tables = store.meta();
    store.counts_pages();
    let rec = Record::Trim {
        overlay: over_entry(entry, 0, &[0]),
    };
    log_on_page(store, catalog_page(entry), &rec)
}
