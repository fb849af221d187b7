// A version is kept off its row.
ghost use Rattle.std.specs.Prelude.{◌≡◌, ◌≤◌, ◌<◌, ◌+◌, ℕ, IsTrue, ◌↔◌, IfOk, IfErr, Ok, ⊤};
ghost use Rattle.ctr_disk.specs.declared.fault.StoreFault.TheVariants.{Fault};
ghost use Rattle.ctr_base.specs.Base.{WhereSound};
ghost use Rattle.ctr_page.specs.declared.rows.Place.{Place as PlaceOf};
ghost use Rattle.ctr_page.specs.declared.table.TheConstants.{PAGE_SIZE};
ghost use Rattle.ctr_page.specs.Places.{kept_size as size_of_kept, start_of};
ghost use Rattle.ctr_page.specs.Making.{IsEntry};
ghost use Rattle.ctr_area.specs.Areas.{RowVersion};
ghost use Rattle.ctr_extend.specs.store_Store.{View, LeavesPage};
ghost use Rattle.ctr_extend.specs.walk_OneRecord.{HasRoomForOne};
ghost use Rattle.ctr_extend.specs.pvs_Writing.{EntryLies, entry_width};
ghost use Rattle.ctr_extend.specs.page_turns_Turns.{Turns};
ghost use Rattle.ctr_write.specs.declared.stages.Stage.TheVariants.{Kept};
ghost use Rattle.ctr_write.specs.declared.stages.Written.TheVariants.{On};
ghost use Rattle.ctr_write.specs.Stages.{LeavesItem, MovesWrite};
ghost use Rattle.ctr_write.specs.Keeping.{IsCopyFor, MayKeepAt, off, KeepsOff};

use crate::misfit::misfit;
use crate::stages::{Stage, Written};
use ctr_base::Origin;
use ctr_disk::{Disk, StoreFault};
use ctr_extend::{
    Store, a_place_of_a_table_fits, a_record_acts, a_record_is_refused_by_the_disk_alone,
    a_turn_goes_on, a_version_is_put_at_its_place, an_action_gives_its_fact, keep,
    owed_versions_are_laid_as_their_actions, what_is_done_stays,
};
use ctr_page::{Place, VersionEntry, kept_size};
use ctr_types::Xid;

/// The bytes of a page.
const PAGE: usize = 4_096;

/// The bytes of its header.
const HEADER: usize = 16;

/// The most bytes of a payload.
const WIDEST: usize = 2_048;

// Whether a version entry of rows so wide lies on a page at a place.
fn entry_lies(place: Place, width: usize) -> bool
    ensures { IsTrue result ↔ ((width ≤ 2048) × (start_of (size_of_kept width) place.slot + size_of_kept width ≤ PAGE_SIZE)) }
{
    if width > WIDEST {
        return false;
    }
    let size = kept_size(width);
    HEADER + place.slot as usize * size + size <= PAGE
}

// The version entry is laid at a place where it lies.
fn lay<D: Disk, O: Origin>(
    store: &mut Store<D, O>,
    x: Xid,
    place: Place,
    version: &VersionEntry,
) -> Result<Written, StoreFault>
    requires room { HasRoomForOne 0 0 store.old }
    requires counted { place.page < store.old.now.counted }
    requires lies { EntryLies place version.now }
    ensures turns { Turns O.first D.Disk store.old store.new result }
    ensures is { IfOk result (λ w. (w ≡ On (Kept place)) × LeavesItem 1 w store.old.meta store.new.meta) }
    ensures numbers { IfOk result (λ w. MovesWrite w store.old store.new) }
    ensures steps { (e : ℕ) (at : PlaceOf) (v : RowVersion) → WhereSound O.first D.Disk (MayKeepAt x e place store.old.now → IsCopyFor e at v version.now store.old.now
        → IfOk result (λ w. KeepsOff (off x e at v) place store.old.now store.new.now)) }
    ensures refused { (e : ℕ) (at : PlaceOf) (v : RowVersion) → WhereSound O.first D.Disk (MayKeepAt x e place store.old.now → IsCopyFor e at v version.now store.old.now → IfErr result (λ f. f ≡ Fault)) }
{
    let _tables = store.meta();
    a_record_is_refused_by_the_disk_alone::<D, ()>();
    a_turn_goes_on::<D, (), Written>();
    a_record_acts::<D>();
    owed_versions_are_laid_as_their_actions();
    a_version_is_put_at_its_place();
    a_place_of_a_table_fits();
    an_action_gives_its_fact();
    what_is_done_stays();
    match keep(store, x, place, version) {
        Ok(()) => Ok(Written::On(Stage::Kept(place))),
        Err(fault) => Err(fault),
    }
}

/// A version is kept off its row for a transaction, at a place of the table's versions that isn't used. It goes on behind pages that were
/// read.
pub(crate) fn keep_off<D: Disk, O: Origin>(
    store: &mut Store<D, O>,
    x: Xid,
    place: Place,
    version: &VersionEntry,
) -> Result<Written, StoreFault>
    requires room { HasRoomForOne 0 0 store.old }
    requires counted { place.page < store.old.now.counted }
    requires fits { IsEntry (entry_width version.now) version.now }
    ensures turns { (a : View D) → LeavesPage {T = ⊤} O.first D.Disk a store.old (Ok tt) → Turns O.first D.Disk a store.new result }
    ensures is { IfOk result (λ w. (w ≡ On (Kept place)) × LeavesItem 1 w store.old.meta store.new.meta) }
    ensures numbers { IfOk result (λ w. MovesWrite w store.old store.new) }
    ensures steps { (e : ℕ) (at : PlaceOf) (v : RowVersion) → WhereSound O.first D.Disk (MayKeepAt x e place store.old.now → IsCopyFor e at v version.now store.old.now
        → IfOk result (λ w. KeepsOff (off x e at v) place store.old.now store.new.now)) }
    ensures refused { (e : ℕ) (at : PlaceOf) (v : RowVersion) → WhereSound O.first D.Disk (MayKeepAt x e place store.old.now → IsCopyFor e at v version.now store.old.now → IfErr result (λ f. f ≡ Fault)) }
{
    a_turn_goes_on::<D, (), Written>();
    a_place_of_a_table_fits();
    let width = version.version.payload.as_slice().len();
    if !entry_lies(place, width) {
        return misfit(store, place.page, width as u64, place.slot as u64);
    }
    lay(store, x, place, version)
}
