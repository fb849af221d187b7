// One record cuts a chain behind a version entry.
ghost use Rattle.std.specs.Prelude.{◌≡◌, ◌≤◌, ◌<◌, ◌+◌, ℕ, Bool, false, IsTrue, OnOk, IfOk, IfErr, take};
ghost use Rattle.ctr_disk.specs.declared.fault.StoreFault.TheVariants.{Fault};
ghost use Rattle.ctr_pvs.specs.base_Base.{WhereSound, IsSoundImage};
ghost use Rattle.ctr_rec.specs.declared.record.Record.TheVariants.{Trim};
ghost use Rattle.ctr_page.specs.declared.rows.Place.{Place as PlaceOf};
ghost use Rattle.ctr_page.specs.Places.{kept_size as size_of_kept};
ghost use Rattle.ctr_passed.specs.area_Chains.{older_places};
ghost use Rattle.ctr_passed.specs.area_Sound.{IsAmong};
ghost use Rattle.ctr_record_effects.specs.States.{pages_in, area_in, IsWholePage};
ghost use Rattle.ctr_record_effects.specs.Changing.{laid_on_place};
ghost use Rattle.ctr_record_effects.specs.Standing.{IsDatabaseState};
ghost use Rattle.ctr_passed.specs.record_laws_Owed.{OwedByCut};
ghost use Rattle.ctr_passed.specs.actions_Sites.{site_of};
ghost use Rattle.ctr_passed.specs.actions_Actions.{Cuts, site_after};
ghost use Rattle.ctr_pvs.specs.walk_OneRecord.{HasRoomForOne, LogsOne};
ghost use Rattle.ctr_pvs.specs.walk_Damage.{damage_told, EndsTold, ReadsPages};
ghost use Rattle.ctr_pvs.specs.Reading.{version_check_at};
ghost use Rattle.ctr_pvs.specs.Lending.{VersionLiesAt};
ghost use Rattle.ctr_page_turns.specs.Acts.{ActsBy};
ghost use Rattle.ctr_trim.specs.Trimming.{EndsCheck};
ghost use Rattle.ctr_trim.specs.Cutting.{LaysCut, CutsEntry, EndsCutting};

use crate::entries::{EntryLaid, cut_bytes};
use ctr_disk::{Disk, StoreFault};
use ctr_page::{Place, kept_size};
use ctr_page_turns::{a_record_acts, a_record_is_refused_by_the_disk_alone};
use ctr_passed::{a_logged_record_is_its_action, owed_versions_are_laid_as_their_actions};
use ctr_pvs::{Origin, Store, log_on_page, version};
use ctr_rec::Record;
use ctr_record_effects::{a_version_is_laid, over_place};
use ctr_undamaged::{
    a_place_of_a_table_fits, a_version_entry_is_read_without_damage, a_version_is_put_at_its_place,
};

/// What is left of the version entry at a place, in bytes of its own, since its page may go while a record is logged.
fn read_cut<D: Disk, O: Origin>(
    store: &mut Store<D, O>,
    place: Place,
) -> Result<EntryLaid, StoreFault>
    requires going { store.old.stopped ≡ false }
    requires counted { place.page < store.old.now.counted }
    ensures laid { IfOk result (LaysCut (IsTrue D.Disk.tells × IsSoundImage O.first) place store.old.now) }
    ensures ends { WhereSound O.first D.Disk (EndsTold (damage_told D.Disk store.new) (EndsCheck (version_check_at store.old.now.counted (pages_in store.old.now) place)) result) }
    ensures leaves { ReadsPages O.first D.Disk store.old store.new result }
{
    match version(store, place) {
        Err(fault) => Err(fault),
        Ok(lent) => Ok(cut_bytes(&lent)),
    }
}

/// Lays it over the version entry.
fn lay_cut<D: Disk, O: Origin>(
    store: &mut Store<D, O>,
    place: Place,
    laid: &EntryLaid,
) -> Result<(), StoreFault>
    requires room { HasRoomForOne 0 0 store.old }
    requires counted { place.page < store.old.now.counted }
    requires lies { VersionLiesAt place laid.now.w }
    ensures one { LogsOne O.first D.Disk (Trim (laid_on_place place (size_of_kept laid.now.w) (take (size_of_kept laid.now.w) laid.now.bytes))) store.old store.new result }
    ensures whole { WhereSound O.first D.Disk (OnOk result (IsWholePage place.page store.old.now)) }
{
    store.counts_pages();
    let size = kept_size(laid.w);
    let rec = Record::Trim {
        overlay: over_place(place, size, &laid.bytes[..size]),
    };
    log_on_page(store, place.page, &rec)
}

/// Cuts off what is behind the version entry at a place of a page of versions, by one record, which isn't hardened yet: it leads nowhere. The
/// version entry, its page and the table's entry of the catalog are checked as they are read. It takes no memory.
pub fn cut_behind<D: Disk, O: Origin>(
    store: &mut Store<D, O>,
    place: Place,
) -> Result<(), StoreFault>
    requires room { HasRoomForOne 0 0 store.old }
    requires counted { place.page < store.old.now.counted }
    ensures one { CutsEntry O.first D.Disk place store.old store.new result }
    // Damage is told where it stands in the file of pages.
    ensures ends { WhereSound O.first D.Disk (EndsCutting (damage_told D.Disk store.new) place store.old store.new result) }
    ensures whole { WhereSound O.first D.Disk (OnOk result (IsWholePage place.page store.old.now)) }
    // Of a place of a table's versions, used or not, the version entry leads nowhere, and nothing else in the pages and the tables changes.
    ensures leaves { (x e : ℕ) (passes : ℕ → Bool) → WhereSound O.first D.Disk (IsDatabaseState store.old.now → IsAmong place (older_places (area_in store.old.now) e)
        → OnOk result (site_of store.new.now ≡ site_after x (Cuts passes e place place) (site_of store.old.now))) }
    // Where no more is owed it is that action, whose bytes lie at the version entry and pass their checks.
    ensures acts { (x e : ℕ) (passes : ℕ → Bool) (at : PlaceOf) → WhereSound O.first D.Disk (IsDatabaseState store.old.now
        → OwedByCut passes (area_in store.old.now) e at place → OnOk result (ActsBy x (Cuts passes e at place) store.old.now store.new.now)) }
    // And it is refused for no other cause than that the disk failed.
    ensures refused { (e : ℕ) (passes : ℕ → Bool) (at : PlaceOf) → WhereSound O.first D.Disk (IsDatabaseState store.old.now
        → OwedByCut passes (area_in store.old.now) e at place → IfErr result (λ f. f ≡ Fault)) }
{
    let _tables = store.meta();
    a_version_is_laid();
    a_logged_record_is_its_action();
    a_record_acts::<D>();
    a_record_is_refused_by_the_disk_alone::<D, ()>();
    a_place_of_a_table_fits();
    a_version_is_put_at_its_place();
    a_version_entry_is_read_without_damage();
    owed_versions_are_laid_as_their_actions();
    match read_cut(store, place) {
        Err(fault) => Err(fault),
        Ok(laid) => lay_cut(store, place, &laid),
    }
}
