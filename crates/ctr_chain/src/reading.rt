// The row of a version that was found, read from the page that it stands on.
ghost use Rattle.std.specs.Prelude.{◌≡◌, ◌≤◌, ◌<◌, false, Ok, IfOk, length};
ghost use Rattle.ctr_pvs.specs.base_growing_TheConstants.{MOST_PAGES};
ghost use Rattle.ctr_pvs.specs.base_Base.{WhereSound};
ghost use Rattle.ctr_pvs.specs.store_Store.{LeavesPage};
ghost use Rattle.ctr_page.specs.declared.table.TheConstants.{PAGE_SIZE};
ghost use Rattle.ctr_page.specs.Columns.{kinds_width as width_of_kinds};
ghost use Rattle.ctr_page.specs.Making.{IsSlot};
ghost use Rattle.ctr_pvs.specs.walk_Tables.{kinds_said};
ghost use Rattle.ctr_pvs.specs.record_effects_States.{pages_in};
ghost use Rattle.ctr_pvs.specs.walk_Damage.{searched, EndsOnPage};
ghost use Rattle.ctr_pvs.specs.Reading.{lies_check};
ghost use Rattle.ctr_chain.specs.Reading.{place_of_version, found_check, ReadAgain, RowSaidAt};

use crate::rows::{head_row, kept_row, previous_row};
use crate::seeking::VersionAt;
use ctr_disk::Disk;
use ctr_page::{BadPage, Place, RowSlot, kinds_width, read_slot, room_for, slot_size};
use ctr_pvs::{Origin, SearchFault, Store, TableOf, found_on, version_in};
use ctr_rec::at_most;
use ctr_types::{OutOfMemory, Row};
use std::alloc::Global;

/// A row, or none for a tombstone, unless memory runs out.
pub(crate) type Given = Result<Option<Row>, OutOfMemory>;

/// The place of the slot or version entry that has a version of the row at a place.
pub(crate) fn place_of_version(row: Place, at: VersionAt) -> Place
    ensures { result ≡ place_of_version row at }
{
    match at {
        VersionAt::Head => row,
        VersionAt::Previous => row,
        VersionAt::Kept(place) => place,
    }
}

/// Checks that a page has a slot of a number, where slots are of this size.
fn check_lies(size: usize, number: u16) -> Result<(), BadPage>
    requires some { 0 < size }
    ensures { result ≡ lies_check size number }
{
    let most = room_for(size).saturating_sub(1);
    at_most(0, most as u64, number as u64)
}

/// The slot of a number on a page of rows of a table, which has passed its checks before. It is asked once more whether it lies on the page.
fn row_again<'a>(table: &TableOf, number: u16, page: &'a [u8]) -> Result<RowSlot<'a>, BadPage>
    requires few { table.now.count ≤ 7 }
    requires whole { length page.now ≡ PAGE_SIZE }
    ensures said { ReadAgain table.now number page.now result }
    // What is read can be made.
    ensures fits { IfOk result (IsSlot (width_of_kinds (kinds_said table.now))) }
{
    let kinds = table.kinds();
    check_lies(slot_size(kinds_width(kinds)), number)?;
    Ok(read_slot(page, kinds_width(kinds), number))
}

/// The row of a version of a table on a page, in the slot or version entry of a number, which has passed its checks before.
fn row_on(
    alloc: Global,
    table: &TableOf,
    counted: u32,
    at: VersionAt,
    number: u16,
    page: &[u8],
) -> Result<Given, BadPage>
    requires some { 0 < counted }
    requires few { table.now.count ≤ 7 }
    requires whole { length page.now ≡ PAGE_SIZE }
    ensures { found_check counted table.now at number page.now ≡ Ok tt → RowSaidAt counted table.now at number page.now result }
{
    let kinds = table.kinds();
    match at {
        VersionAt::Head => Ok(head_row(alloc, kinds, &row_again(table, number, page)?)),
        VersionAt::Previous => Ok(previous_row(alloc, kinds, &row_again(table, number, page)?)),
        VersionAt::Kept(_) => Ok(kept_row(
            alloc,
            kinds,
            &version_in(table, counted, number, page)?,
        )),
    }
}

/// The same of a page of a store.
pub(crate) fn read_row<D: Disk, O: Origin>(
    alloc: Global,
    store: &mut Store<D, O>,
    table: &TableOf,
    counted: u32,
    row: Place,
    at: VersionAt,
) -> Result<Given, SearchFault>
    requires going { store.old.stopped ≡ false }
    requires some { 0 < counted }
    requires few { table.now.count ≤ 7 }
    ensures said { WhereSound O.first D.Disk ((place_of_version row at).page < MOST_PAGES
        → found_check counted table.now at (place_of_version row at).slot (pages_in store.old.now (place_of_version row at).page) ≡ Ok tt
        → IfOk (searched result) (EndsOnPage (place_of_version row at).page (RowSaidAt counted table.now at (place_of_version row at).slot (pages_in store.old.now (place_of_version row at).page)))) }
    ensures leaves { LeavesPage O.first D.Disk store.old store.new (searched result) }
{
    let from = place_of_version(row, at);
    let page = store.page(from.page)?;
    found_on(
        from.page,
        row_on(alloc, table, counted, at, from.slot, page),
    )
}
