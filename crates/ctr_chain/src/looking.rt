// The transactions of the versions of a row, as they are read.
ghost use Rattle.std.specs.Prelude.{◌≡◌, ◌≤◌, ◌<◌, false, IfOk, length};
ghost use Rattle.ctr_pvs.specs.base_Base.{WhereSound};
ghost use Rattle.ctr_pvs.specs.base_growing_TheConstants.{MOST_PAGES};
ghost use Rattle.ctr_pvs.specs.store_Parts.{MayCount};
ghost use Rattle.ctr_pvs.specs.store_Store.{LeavesPage};
ghost use Rattle.ctr_page.specs.declared.table.TheConstants.{PAGE_SIZE};
ghost use Rattle.ctr_pvs.specs.record_effects_States.{pages_in};
ghost use Rattle.ctr_pvs.specs.walk_Damage.{searched, EndsOnPage};
ghost use Rattle.ctr_chain.specs.Looking.{xid_there, look_of_slot, look_of_entry, LooksAtRow, LooksAtEntry};

use ctr_disk::Disk;
use ctr_page::{BadPage, Place, RowSlot, Use, Version, VersionEntry};
use ctr_pvs::{
    Origin, SearchFault, Store, TableOf, check_versions_there, found_on, row_in, version_in,
};
use ctr_types::Xid;

/// Whose the versions of a slot are, 0 for none, and where the next one is.
#[derive(Clone, Copy, Debug, PartialEq, Eq)]
pub(crate) struct SlotLook {
    pub(crate) head: Xid,
    pub(crate) previous: Xid,
    pub(crate) older: Place,
}

/// The same of a version entry.
#[derive(Clone, Copy, Debug, PartialEq, Eq)]
pub(crate) struct KeptLook {
    pub(crate) xid: Xid,
    pub(crate) older: Place,
}

/// The place that names none.
const NOWHERE: Place = Place { page: 0, slot: 0 };

fn xid_there(version: &Option<Version>) -> Xid
    ensures { result ≡ xid_there version.now }
{
    match version {
        Some(version) => version.xid,
        None => 0,
    }
}

fn look_of_slot(slot: &RowSlot) -> SlotLook
    ensures { result ≡ look_of_slot slot.now }
{
    if slot.used != Use::USED {
        return SlotLook {
            head: 0,
            previous: 0,
            older: NOWHERE,
        };
    }
    SlotLook {
        head: slot.head.xid,
        previous: xid_there(&slot.previous),
        older: slot.older,
    }
}

fn look_of_entry(entry: &VersionEntry) -> KeptLook
    ensures { result ≡ look_of_entry entry.now }
{
    if entry.used != Use::USED {
        return KeptLook {
            xid: 0,
            older: NOWHERE,
        };
    }
    KeptLook {
        xid: entry.version.xid,
        older: entry.older,
    }
}

fn row_looked(table: &TableOf, counted: u32, number: u16, page: &[u8]) -> Result<SlotLook, BadPage>
    requires some { 0 < counted }
    requires few { table.now.count ≤ 7 }
    requires whole { length page.now ≡ PAGE_SIZE }
    ensures { LooksAtRow counted table.now number page.now result }
{
    let slot = row_in(table, counted, number, page)?;
    Ok(look_of_slot(&slot))
}

/// Looks at the slot of a table at a place.
pub(crate) fn look_at_row<D: Disk, O: Origin>(
    store: &mut Store<D, O>,
    table: &TableOf,
    counted: u32,
    place: Place,
) -> Result<SlotLook, SearchFault>
    requires going { store.old.stopped ≡ false }
    requires some { 0 < counted }
    requires there { place.page < MOST_PAGES }
    requires few { table.now.count ≤ 7 }
    ensures looks { WhereSound O.first D.Disk (IfOk (searched result) (EndsOnPage place.page (LooksAtRow counted table.now place.slot (pages_in store.old.now place.page)))) }
    ensures leaves { LeavesPage O.first D.Disk store.old store.new (searched result) }
{
    let page = store.page(place.page)?;
    found_on(place.page, row_looked(table, counted, place.slot, page))
}

fn entry_looked(
    table: &TableOf,
    counted: u32,
    place: Place,
    page: &[u8],
) -> Result<KeptLook, BadPage>
    requires some { 0 < counted }
    requires few { table.now.count ≤ 7 }
    requires whole { length page.now ≡ PAGE_SIZE }
    ensures { LooksAtEntry counted table.now place page.now result }
{
    check_versions_there(table.entry, counted, place.page, page)?;
    let entry = version_in(table, counted, place.slot, page)?;
    Ok(look_of_entry(&entry))
}

/// Looks at the version entry of a table at a place.
pub(crate) fn look_at_entry<D: Disk, O: Origin>(
    store: &mut Store<D, O>,
    table: &TableOf,
    counted: u32,
    place: Place,
) -> Result<KeptLook, SearchFault>
    requires going { store.old.stopped ≡ false }
    requires some { MayCount counted }
    requires few { table.now.count ≤ 7 }
    ensures looks { WhereSound O.first D.Disk (IfOk (searched result) (EndsOnPage place.page (LooksAtEntry counted table.now place (pages_in store.old.now place.page)))) }
    ensures leaves { LeavesPage O.first D.Disk store.old store.new (searched result) }
{
    let page = store.page(place.page)?;
    found_on(place.page, entry_looked(table, counted, place, page))
}
