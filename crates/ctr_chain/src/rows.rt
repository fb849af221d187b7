// The row of a version, by what its payload says.
ghost use Rattle.std.specs.Prelude.{◌≤◌, length};
ghost use Rattle.ctr_page.specs.Columns.{kinds_width as width_of_kinds};
ghost use Rattle.ctr_page.specs.Making.{IsVersion, IsPrevious, IsSlot, IsEntry};
ghost use Rattle.ctr_chain.specs.Rows.{row_of_version, row_if_any, head_row, previous_row, kept_row, GivesRow};

use ctr_page::{RowSlot, Tombstone, Use, Version, VersionEntry, row_by_kinds};
use ctr_types::{Kind, OutOfMemory, Row};
use std::alloc::Global;

/// The row of a version, or none for a tombstone.
fn version_row(
    alloc: Global,
    kinds: &[Kind],
    key: i64,
    version: &Version,
) -> Result<Option<Row>, OutOfMemory>
    requires few { length kinds.now ≤ 7 }
    requires fits { IsVersion (width_of_kinds kinds.now) version.now }
    ensures { GivesRow (row_of_version kinds.now key version.now) result }
{
    if version.tombstone != Tombstone::NONE {
        return Ok(None);
    }
    match row_by_kinds(alloc, kinds, key, version.payload.as_slice()) {
        Ok(row) => Ok(Some(row)),
        Err(want) => Err(want),
    }
}

/// The row of the newest version in a slot; one that isn't used has none.
pub(crate) fn head_row(
    alloc: Global,
    kinds: &[Kind],
    slot: &RowSlot,
) -> Result<Option<Row>, OutOfMemory>
    requires few { length kinds.now ≤ 7 }
    requires fits { IsSlot (width_of_kinds kinds.now) slot.now }
    ensures { GivesRow (head_row kinds.now slot.now) result }
{
    if slot.used != Use::USED {
        return Ok(None);
    }
    version_row(alloc, kinds, slot.key, &slot.head)
}

/// The row of a version that may be there.
fn row_if_any(
    alloc: Global,
    kinds: &[Kind],
    key: i64,
    version: &Option<Version>,
) -> Result<Option<Row>, OutOfMemory>
    requires few { length kinds.now ≤ 7 }
    requires fits { IsPrevious (width_of_kinds kinds.now) version.now }
    ensures { GivesRow (row_if_any kinds.now key version.now) result }
{
    match version {
        Some(version) => version_row(alloc, kinds, key, version),
        None => Ok(None),
    }
}

/// The row of the version before the newest in a slot.
pub(crate) fn previous_row(
    alloc: Global,
    kinds: &[Kind],
    slot: &RowSlot,
) -> Result<Option<Row>, OutOfMemory>
    requires few { length kinds.now ≤ 7 }
    requires fits { IsSlot (width_of_kinds kinds.now) slot.now }
    ensures { GivesRow (previous_row kinds.now slot.now) result }
{
    if slot.used != Use::USED {
        return Ok(None);
    }
    row_if_any(alloc, kinds, slot.key, &slot.previous)
}

/// The row of a version entry.
pub(crate) fn kept_row(
    alloc: Global,
    kinds: &[Kind],
    entry: &VersionEntry,
) -> Result<Option<Row>, OutOfMemory>
    requires few { length kinds.now ≤ 7 }
    requires fits { IsEntry (width_of_kinds kinds.now) entry.now }
    ensures { GivesRow (kept_row kinds.now entry.now) result }
{
    if entry.used != Use::USED {
        return Ok(None);
    }
    version_row(alloc, kinds, entry.key, &entry.version)
}
