// Version entries, checked as they are read.
ghost use Rattle.std.specs.Prelude.{◌≡◌, ◌≤◌, ◌<◌, List, IfOk, length};
ghost use Rattle.ctr_types.specs.declared.value.Column.{Column};
ghost use Rattle.ctr_page.specs.ctr_value.Payload.{IsKeyed};
ghost use Rattle.ctr_page.specs.declared.table.TheConstants.{PAGE_SIZE};
ghost use Rattle.ctr_page.specs.Columns.{kinds_of, kinds_width as width_of_kinds};
ghost use Rattle.ctr_passed.specs.Logged.{IsSlotOf, IsOlderOf};
ghost use Rattle.ctr_page.specs.Making.{IsSlot, IsEntry};
ghost use Rattle.ctr_walk.specs.Tables.{kinds_said};
ghost use Rattle.ctr_pvs.specs.Reading.{lies_check, versions_there, VersionSaid, RowSaid};

use crate::table::check_there;
use ctr_page::{
    BadPage, Chain, RowSlot, VersionEntry, check_header, check_slot, check_version, kept_size,
    kinds_width, read_header, read_slot, read_version, room_for, slot_size,
};
use ctr_rec::{PageNo, at_most};
use ctr_walk::TableOf;

/// Checks that a page has a slot or a version entry of a number, where they are of this size.
pub(crate) fn check_lies(size: usize, number: u16) -> Result<(), BadPage>
    requires some { 0 < size }
    ensures { result ≡ lies_check size number }
{
    let most = room_for(size).saturating_sub(1);
    at_most(0, most as u64, number as u64)
}

/// Checks a page to which a chain of versions of an entry of the catalog leads, where so many pages are counted.
pub fn check_versions_there(entry: u8, counted: u32, p: PageNo, page: &[u8]) -> Result<(), BadPage>
    requires some { 0 < counted }
    requires whole { length page.now ≡ PAGE_SIZE }
    ensures { result ≡ versions_there counted entry p page.now }
{
    let header = check_header(Chain::Versions { entry }, counted, page);
    check_there(header, counted, p)
}

/// The version entry of a number on a page to which a chain of versions of a table leads, where so many pages are counted: the page's
/// header and the version entry are checked first. It takes no memory.
pub fn version_in<'a>(
    table: &TableOf,
    counted: u32,
    number: u16,
    page: &'a [u8],
) -> Result<VersionEntry<'a>, BadPage>
    requires some { 0 < counted }
    requires few { table.now.count ≤ 7 }
    requires whole { length page.now ≡ PAGE_SIZE }
    ensures said { VersionSaid counted table.now number page.now result }
    // What is read can be made.
    ensures fits { IfOk result (IsEntry (width_of_kinds (kinds_said table.now))) }
    // It is well made by the table's columns.
    ensures made { (columns : List Column) → IsKeyed columns → kinds_of columns ≡ kinds_said table.now → IfOk result (IsOlderOf counted columns) }
{
    let kinds = table.kinds();
    let entry = table.entry;
    check_header(Chain::Versions { entry }, counted, page)?;
    check_lies(kept_size(kinds_width(kinds)), number)?;
    check_version(kinds, counted, number, page)?;
    Ok(read_version(page, kinds_width(kinds), number))
}

/// The slot of a number on a page of rows of a table, where so many pages are counted, likewise.
pub fn row_in<'a>(
    table: &TableOf,
    counted: u32,
    number: u16,
    page: &'a [u8],
) -> Result<RowSlot<'a>, BadPage>
    requires some { 0 < counted }
    requires few { table.now.count ≤ 7 }
    requires whole { length page.now ≡ PAGE_SIZE }
    ensures said { RowSaid counted table.now number page.now result }
    // What is read can be made.
    ensures fits { IfOk result (IsSlot (width_of_kinds (kinds_said table.now))) }
    // It is well made by the table's columns.
    ensures made { (columns : List Column) → IsKeyed columns → kinds_of columns ≡ kinds_said table.now → IfOk result (IsSlotOf counted columns) }
{
    let kinds = table.kinds();
    let entry = table.entry;
    let bucket = read_header(page).bucket;
    check_header(Chain::Rows { entry, bucket }, counted, page)?;
    check_lies(slot_size(kinds_width(kinds)), number)?;
    check_slot(kinds, counted, number, page)?;
    Ok(read_slot(page, kinds_width(kinds), number))
}
