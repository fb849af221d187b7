// One record lays a version entry, or frees one.
ghost use Rattle.std.specs.Prelude.{◌≡◌, ◌≤◌, ◌<◌, ◌+◌, ℕ, false, OnOk, IfOk, length, take};
ghost use Rattle.ctr_passed.specs.redo_States.{page_at};
ghost use Rattle.ctr_page.specs.Making.{kept_bytes};
ghost use Rattle.ctr_walk.specs.base_Base.{WhereSound};
ghost use Rattle.ctr_page.specs.declared.table.TheConstants.{PAGE_SIZE};
ghost use Rattle.ctr_page.specs.Places.{kept_size as size_of_kept, start_of as start_place};
ghost use Rattle.ctr_passed.specs.area_Areas.{free_older};
ghost use Rattle.ctr_passed.specs.area_Reading.{width_on};
ghost use Rattle.ctr_passed.specs.area_Changes.{with_older, IsPlaceOf};
ghost use Rattle.ctr_walk.specs.OneRecord.{HasRoomForOne, LogsOne};
ghost use Rattle.ctr_walk.specs.Damage.{damage_told, searched, EndsTold};
ghost use Rattle.ctr_walk.specs.store_Store.{LeavesPage};
ghost use Rattle.ctr_passed.specs.record_effects_States.{pages_in, area_in, IsWholePage};
ghost use Rattle.ctr_pvs.specs.Reading.{EndsAt};
ghost use Rattle.ctr_passed.specs.record_laws_Owed.{IsInNoChain};
ghost use Rattle.ctr_passed.specs.record_effects_Standing.{HasSoundArea, ShowsAlike};
ghost use Rattle.ctr_passed.specs.actions_Sites.{site_of};
ghost use Rattle.ctr_passed.specs.actions_Actions.{Keeps, FreesOlder, site_after};
ghost use Rattle.ctr_pvs.specs.Showing.{older_laid, MayKeep, KeepsVersion};
ghost use Rattle.ctr_pvs.specs.Writing.{EntryLies, keep_record, HasPlaceOfVersion, blank_entry, blank_record, drop_check, DropsEntry};

use crate::reading::check_lies;
use crate::table::table_on;
use ctr_disk::{Disk, StoreFault};
use ctr_page::{
    PageKind, Place, Tombstone, Use, Version, VersionEntry, kept_size, kinds_width, make_version,
};
use ctr_passed::{
    a_free_entry_shows_the_same, a_keep_shows_the_same, a_kept_version_is_spare,
    a_logged_record_is_its_action,
};
use ctr_rec::{Bytes, Record};
use ctr_types::Xid;
use ctr_walk::{
    Origin, SearchFault, Store, a_version_is_laid, found_on, log_on_page, over_place, tell,
};

/// The most bytes of a version entry.
const ENTRY_MOST: usize = 2_072;

/// The most bytes of a payload.
const WIDEST: usize = 2_048;

/// Keeps a version off its row for a transaction, by one record, which isn't hardened yet.
pub fn keep<D: Disk, O: Origin>(
    store: &mut Store<D, O>,
    x: Xid,
    place: Place,
    version: &VersionEntry,
) -> Result<(), StoreFault>
    requires room { HasRoomForOne 0 0 store.old }
    requires counted { place.page < store.old.now.counted }
    requires lies { EntryLies place version.now }
    ensures one { LogsOne O.first D.Disk (keep_record x place version.now) store.old store.new result }
    ensures whole { WhereSound O.first D.Disk (OnOk result (IsWholePage place.page store.old.now)) }
    // The version entry at the place is this one, and nothing else in the pages and the tables changes.
    ensures leaves { WhereSound O.first D.Disk ((e : ℕ) → HasPlaceOfVersion (pages_in store.old.now) place version.now
        → OnOk result (site_of store.new.now ≡ site_after x (Keeps e place (older_laid store.old.now place version.now)) (site_of store.old.now))) }
    // In a sound state nothing else is shown than before.
    ensures shows { WhereSound O.first D.Disk ((e : ℕ) → MayKeep store.old.now e place version.now → OnOk result (KeepsVersion e place version.now store.old.now store.new.now)) }
{
    a_version_is_laid();
    a_logged_record_is_its_action();
    store.counts_pages();
    a_keep_shows_the_same();
    a_kept_version_is_spare();
    let w = version.version.payload.as_slice().len();
    let mut bytes = [0; ENTRY_MOST];
    let size = make_version(w, version, &mut bytes);
    let rec = Record::Keep {
        x,
        overlay: over_place(place, kept_size(w), &bytes[..size]),
    };
    log_on_page(store, place.page, &rec)
}

/// The bytes of a version entry that isn't used, at the front of others.
fn blank_made(w: usize) -> [u8; ENTRY_MOST]
    requires { w ≤ 2048 }
    ensures { take (size_of_kept w) result ≡ kept_bytes (blank_entry w) }
{
    let zeros = [0; WIDEST];
    let blank = VersionEntry {
        used: Use::FREE,
        key: 0,
        version: Version {
            xid: 0,
            tombstone: Tombstone::NONE,
            payload: Bytes::new(&zeros[..w]),
        },
        older: Place { page: 0, slot: 0 },
    };
    let mut bytes = [0; ENTRY_MOST];
    let _ = make_version(w, &blank, &mut bytes);
    bytes
}

/// Frees a place of version entries of rows so wide.
fn lay_blank<D: Disk, O: Origin>(
    store: &mut Store<D, O>,
    place: Place,
    w: usize,
) -> Result<(), StoreFault>
    requires room { HasRoomForOne 0 0 store.old }
    requires counted { place.page < store.old.now.counted }
    requires narrow { w ≤ 2048 }
    requires inside { start_place (size_of_kept w) place.slot + size_of_kept w ≤ PAGE_SIZE }
    ensures one { LogsOne O.first D.Disk (blank_record place w) store.old store.new result }
    ensures freed { WhereSound O.first D.Disk (IsPlaceOf 2 (pages_in store.old.now) place → width_on (pages_in store.old.now) place.page ≡ w
        → OnOk result (area_in store.new.now ≡ with_older place free_older (area_in store.old.now))) }
    ensures whole { WhereSound O.first D.Disk (OnOk result (length (page_at place.page store.old.now.pages) ≡ PAGE_SIZE)) }
{
    a_version_is_laid();
    store.counts_pages();
    let size = kept_size(w);
    let bytes = blank_made(w);
    let rec = Record::Trim {
        overlay: over_place(place, size, &bytes[..size]),
    };
    log_on_page(store, place.page, &rec)
}

/// The width of a table's rows, by the page of a version entry that is to be freed.
fn width_to_free<D: Disk, O: Origin>(
    store: &mut Store<D, O>,
    place: Place,
) -> Result<usize, SearchFault>
    requires going { store.old.stopped ≡ false }
    requires counted { place.page < store.old.now.counted }
    ensures ends { WhereSound O.first D.Disk (IfOk (searched result) (EndsAt (drop_check store.old.now.counted (pages_in store.old.now) place) (pages_in store.old.now) place)) }
    ensures fits { IfOk result (λ w. (w ≤ 2048) × (start_place (size_of_kept w) place.slot + size_of_kept w ≤ PAGE_SIZE)) }
    ensures leaves { LeavesPage O.first D.Disk store.old store.new (searched result) }
{
    let table = table_on(store, PageKind::VERSIONS, place.page)?;
    let w = kinds_width(table.kinds());
    found_on(place.page, check_lies(kept_size(w), place.slot))?;
    Ok(w)
}

/// Frees a version entry, by one record, which isn't hardened yet. Its page and the table's entry of the catalog are checked as they are
/// read; the version entry itself may be any.
pub fn free_entry<D: Disk, O: Origin>(
    store: &mut Store<D, O>,
    place: Place,
) -> Result<(), StoreFault>
    requires room { HasRoomForOne 0 0 store.old }
    requires counted { place.page < store.old.now.counted }
    // Damage is told where it stands in the file of pages.
    ensures ends { WhereSound O.first D.Disk (EndsTold (damage_told D.Disk store.new) (λ r. r ≡ drop_check store.old.now.counted (pages_in store.old.now) place) result) }
    ensures one { DropsEntry O.first D.Disk place store.old store.new result }
    // The version entry isn't used, and nothing else in the pages and the tables changes.
    ensures leaves { (x e : ℕ) → WhereSound O.first D.Disk (OnOk result (site_of store.new.now ≡ site_after x (FreesOlder e place) (site_of store.old.now))) }
    // Where no chain has it, nothing else is shown than before.
    ensures shows { WhereSound O.first D.Disk (HasSoundArea store.old.now → IsInNoChain (area_in store.old.now) place
        → OnOk result (ShowsAlike store.old.now store.new.now)) }
{
    a_logged_record_is_its_action();
    a_free_entry_shows_the_same();
    let found = width_to_free(store, place);
    let w = tell(store, found)?;
    lay_blank(store, place, w)
}
