// The row that a session sees at a place.
ghost use Rattle.std.specs.Prelude.{◌≡◌, ◌≤◌, ◌<◌, false, Ok, IfOk};
ghost use Rattle.ctr_pvs.specs.base_Base.{WhereSound};
ghost use Rattle.ctr_pvs.specs.store_Store.{LeavesPage};
ghost use Rattle.ctr_pvs.specs.walk_Damage.{damage_told, searched, EndsTold, ReadsPages};
ghost use Rattle.ctr_pvs.specs.record_effects_States.{pages_in, area_in};
ghost use Rattle.ctr_pvs.specs.Table.{TableSaid};
ghost use Rattle.ctr_names.specs.meta_Seen.{xid_is_seen};
ghost use Rattle.ctr_chain.specs.Seeking.{sought_at};
ghost use Rattle.ctr_chain.specs.Rows.{GivesRow};
ghost use Rattle.ctr_chain.specs.Visible.{as_read, EndsReading, visible_row};

use crate::reading::{Given, read_row};
use crate::seeking::{Sought, seek_in};
use ctr_disk::{Disk, StoreFault};
use ctr_page::{PageKind, Place};
use ctr_pvs::{Origin, SearchFault, Store, TableOf, table_on, tell};
use ctr_snap::Snapshot;
use ctr_types::{OutOfMemory, Row, Xid};
use std::alloc::Global;

/// Why a row isn't read.
#[derive(Clone, Copy, Debug, PartialEq, Eq)]
pub enum ReadRefusal {
    /// The disk failed, or what stands on it is damaged.
    Store(StoreFault),
    /// There was no memory for the row.
    OutOfMemory,
}

/// What a reading answers, by what it was told.
fn answer(told: Result<Given, StoreFault>) -> Result<Option<Row>, ReadRefusal>
    ensures { as_read result ≡ told }
{
    match told {
        Ok(Ok(row)) => Ok(row),
        Ok(Err(OutOfMemory)) => Err(ReadRefusal::OutOfMemory),
        Err(fault) => Err(ReadRefusal::Store(fault)),
    }
}

/// What the search for the row that a session sees found, at a place on a page whose table is this.
fn found_of<D: Disk, O: Origin>(
    alloc: Global,
    store: &mut Store<D, O>,
    table: &TableOf,
    place: Place,
    snapshot: &Snapshot,
    me: Option<Xid>,
) -> Result<Given, SearchFault>
    requires going { store.old.stopped ≡ false }
    requires counted { place.page < store.old.now.counted }
    requires few { table.now.count ≤ 7 }
    ensures ends { WhereSound O.first D.Disk (TableSaid 1 store.old.now.counted (pages_in store.old.now) place.page (Ok table.now)
        → IfOk (searched result) (EndsReading (sought_at (xid_is_seen store.old.meta.tables snapshot.now me) store.old.now.counted (pages_in store.old.now) place))) }
    ensures shows { WhereSound O.first D.Disk (TableSaid 1 store.old.now.counted (pages_in store.old.now) place.page (Ok table.now)
        → IfOk result (GivesRow (visible_row (xid_is_seen store.old.meta.tables snapshot.now me) (area_in store.old.now) place))) }
    ensures leaves { LeavesPage O.first D.Disk store.old store.new (searched result) }
{
    store.counts_pages();
    let counted = store.counted();
    let found = seek_in(store, table, place, &Sought::Seen { snapshot, me })?;
    let Some(found) = found else {
        return Ok(Ok(None));
    };
    read_row(alloc, store, table, counted, place, found.at)
}

/// The same at a place on any page of rows, whose table is read first.
fn visible_found<D: Disk, O: Origin>(
    alloc: Global,
    store: &mut Store<D, O>,
    place: Place,
    snapshot: &Snapshot,
    me: Option<Xid>,
) -> Result<Given, SearchFault>
    requires going { store.old.stopped ≡ false }
    requires counted { place.page < store.old.now.counted }
    ensures ends { WhereSound O.first D.Disk (IfOk (searched result) (EndsReading (sought_at (xid_is_seen store.old.meta.tables snapshot.now me) store.old.now.counted (pages_in store.old.now) place))) }
    ensures shows { WhereSound O.first D.Disk (IfOk result (GivesRow (visible_row (xid_is_seen store.old.meta.tables snapshot.now me) (area_in store.old.now) place))) }
    ensures leaves { LeavesPage O.first D.Disk store.old store.new (searched result) }
{
    let table = table_on(store, PageKind::ROWS, place.page)?;
    found_of(alloc, store, &table, place, snapshot, me)
}

/// The row that a session sees at a place, by its snapshot or as its own: of the first version of the row's chain that it sees; none
/// where there is no such version, or it is a tombstone. The slot, its table and each version entry that the search passes are checked as
/// they are read; versions in the slot cost no version entry. It logs nothing, and takes no memory but the row that it gives.
pub fn visible<D: Disk, O: Origin>(
    alloc: Global,
    store: &mut Store<D, O>,
    place: Place,
    snapshot: &Snapshot,
    me: Option<Xid>,
) -> Result<Option<Row>, ReadRefusal>
    requires going { store.old.stopped ≡ false }
    requires counted { place.page < store.old.now.counted }
    // Damage is of the first on the way that fails its checks, or of a chain that is too long, and is told where that stands in the file.
    ensures ends { WhereSound O.first D.Disk (EndsTold (damage_told D.Disk store.new) (EndsReading (sought_at (xid_is_seen store.old.now.tables snapshot.now me) store.old.now.counted (pages_in store.old.now) place)) (as_read result)) }
    // It is the row that the session sees. Memory runs out only where there is one.
    ensures shows { WhereSound O.first D.Disk (IfOk (as_read result) (GivesRow (visible_row (xid_is_seen store.old.now.tables snapshot.now me) (area_in store.old.now) place))) }
    ensures leaves { ReadsPages O.first D.Disk store.old store.new (as_read result) }
{
    let _tables = store.meta();
    let found = visible_found(alloc, store, place, snapshot, me);
    answer(tell(store, found))
}

/// The same as `visible` at a place on a page whose table is known, so that it isn't read once more: it is what `table_on` answers of the page.
pub fn visible_of<D: Disk, O: Origin>(
    alloc: Global,
    store: &mut Store<D, O>,
    table: &TableOf,
    place: Place,
    snapshot: &Snapshot,
    me: Option<Xid>,
) -> Result<Option<Row>, ReadRefusal>
    requires going { store.old.stopped ≡ false }
    requires counted { place.page < store.old.now.counted }
    requires few { table.now.count ≤ 7 }
    ensures ends { WhereSound O.first D.Disk (TableSaid 1 store.old.now.counted (pages_in store.old.now) place.page (Ok table.now)
        → EndsTold (damage_told D.Disk store.new) (EndsReading (sought_at (xid_is_seen store.old.now.tables snapshot.now me) store.old.now.counted (pages_in store.old.now) place)) (as_read result)) }
    // It is the row that the session sees. Memory runs out only where there is one.
    ensures shows { WhereSound O.first D.Disk (TableSaid 1 store.old.now.counted (pages_in store.old.now) place.page (Ok table.now)
        → IfOk (as_read result) (GivesRow (visible_row (xid_is_seen store.old.now.tables snapshot.now me) (area_in store.old.now) place))) }
    ensures leaves { ReadsPages O.first D.Disk store.old store.new (as_read result) }
{
    let _tables = store.meta();
    let found = found_of(alloc, store, table, place, snapshot, me);
    answer(tell(store, found))
}
