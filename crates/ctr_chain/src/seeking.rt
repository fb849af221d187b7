// The search through the versions of a row.
ghost use Rattle.std.specs.Prelude.{◌≡◌, ◌≢◌, ◌≤◌, ◌<◌, ◌*◌, false, Ok, IfOk};
ghost use Rattle.ctr_pvs.specs.base_Base.{WhereSound};
ghost use Rattle.ctr_pvs.specs.store_Parts.{MayCount};
ghost use Rattle.ctr_pvs.specs.store_Store.{LeavesPage};
ghost use Rattle.ctr_pvs.specs.record_effects_States.{pages_in, area_in};
ghost use Rattle.ctr_page.specs.Columns.{kinds_width as width_of_kinds};
ghost use Rattle.ctr_page.specs.Places.{kept_size as size_of_kept, room_for as room_of};
ghost use Rattle.ctr_page.specs.Walking.{most_in_chain};
ghost use Rattle.ctr_pvs.specs.area_Checked.{kinds_at};
ghost use Rattle.ctr_pvs.specs.walk_Tables.{kinds_said};
ghost use Rattle.ctr_pvs.specs.walk_Damage.{searched};
ghost use Rattle.ctr_chain.specs.Seeing.{sought_by};
ghost use Rattle.ctr_chain.specs.Seeking.{sought_along, FoundIn, sought_at};
ghost use Rattle.ctr_pvs.specs.Table.{TableSaid};

use crate::looking::{SlotLook, look_at_entry, look_at_row};
use ctr_disk::Disk;
use ctr_names::{Meta, is_seen};
use ctr_page::{BadChain, PageKind, Place, kept_size, kinds_width, room_for};
use ctr_pvs::{Origin, SearchFault, Store, TableOf, table_on};
use ctr_rec::PageNo;
use ctr_snap::Snapshot;
use ctr_types::{Fate, Xid};

/// Which version of a row is sought.
#[derive(Drop)]
pub(crate) enum Sought<'a> {
    /// What a snapshot sees, and what is a session's own.
    Seen {
        snapshot: &'a Snapshot,
        me: Option<Xid>,
    },
    /// What is committed.
    Committed,
}

impl<'a> Sought<'a> {
    /// Whether the version of a transaction is sought; 0 is nobody.
    fn is(&self, meta: &Meta, x: Xid) -> bool
        ensures { result ≡ sought_by meta.now.tables self.now x }
    {
        match self {
            Sought::Seen { snapshot, me } => is_seen(meta, snapshot, *me, x),
            Sought::Committed => x != 0 && meta.fate(x) == Fate::Committed,
        }
    }
}

/// Where a version of a row stands.
#[derive(Clone, Copy, Debug, PartialEq, Eq)]
pub(crate) enum VersionAt {
    /// In the slot, the newest.
    Head,
    /// In the slot, the one before it.
    Previous,
    /// In a version entry.
    Kept(Place),
}

/// A version of a row: whose it is, and where it stands.
#[derive(Clone, Copy, Debug, PartialEq, Eq)]
pub(crate) struct Found {
    /// Its transaction.
    pub(crate) xid: Xid,
    pub(crate) at: VersionAt,
}

/// What a slot alone says of the search: the version that is sought, where it is in the slot; none, where it isn't and nothing is kept
/// behind the slot; or nothing, where the search goes on there.
fn found_in(sought: &Sought, meta: &Meta, look: SlotLook) -> Option<Option<Found>>
    ensures { FoundIn (sought_by meta.now.tables sought.now) look result }
{
    if sought.is(meta, look.head) {
        return Some(Some(Found {
            xid: look.head,
            at: VersionAt::Head,
        }));
    }
    if sought.is(meta, look.previous) {
        return Some(Some(Found {
            xid: look.previous,
            at: VersionAt::Previous,
        }));
    }
    if look.older.page == 0 {
        return Some(None);
    }
    None
}

/// The most version entries that a chain of a table can have: as many as fit on the counted pages.
fn most_entries(table: &TableOf, counted: u32) -> u32
    requires few { table.now.count ≤ 7 }
    requires counted { MayCount counted }
    ensures value { result ≡ most_in_chain counted * room_of (size_of_kept (width_of_kinds (kinds_said table.now))) }
    ensures some { 0 < result }
{
    let room = room_for(kept_size(kinds_width(table.kinds())));
    counted.saturating_sub(3) * room as u32
}

/// The first version that is sought along the pointers, from a place on, behind a page.
fn seek_along<D: Disk, O: Origin>(
    store: &mut Store<D, O>,
    table: &TableOf,
    counted: u32,
    sought: &Sought,
    from: Place,
    home: PageNo,
) -> Result<Option<Found>, SearchFault>
    requires going { store.old.stopped ≡ false }
    requires some { from.page ≢ 0 }
    requires counted { MayCount counted }
    requires few { table.now.count ≤ 7 }
    ensures ends { WhereSound O.first D.Disk (kinds_said table.now ≡ kinds_at (area_in store.old.now) table.now.entry
        → IfOk (searched result) (λ r. r ≡ sought_along (sought_by store.old.meta.tables sought.now) (record { counted = counted; pages = pages_in store.old.now; entry = table.now.entry })
        (most_in_chain counted * room_of (size_of_kept (width_of_kinds (kinds_said table.now)))) home from)) }
    ensures leaves { LeavesPage O.first D.Disk store.old store.new (searched result) }
{
    let most = most_entries(table, counted);
    let mut at = from;
    let mut last = home;
    let mut left = most;
    while at.page != 0 {
        if left == 0 {
            return Err(SearchFault::Bad(BadChain::TooLong { last, most }));
        }
        let look = look_at_entry(store, table, counted, at)?;
        if sought.is(store.meta(), look.xid) {
            let xid = look.xid;
            let at = VersionAt::Kept(at);
            return Ok(Some(Found { xid, at }));
        }
        last = at.page;
        at = look.older;
        left -= 1;
    }
    Ok(None)
}

/// The first version that is sought of the row at a place on a page whose table is this.
pub(crate) fn seek_in<D: Disk, O: Origin>(
    store: &mut Store<D, O>,
    table: &TableOf,
    place: Place,
    sought: &Sought,
) -> Result<Option<Found>, SearchFault>
    requires going { store.old.stopped ≡ false }
    requires counted { place.page < store.old.now.counted }
    requires few { table.now.count ≤ 7 }
    ensures ends { WhereSound O.first D.Disk (TableSaid 1 store.old.now.counted (pages_in store.old.now) place.page (Ok table.now)
        → IfOk (searched result) (λ r. r ≡ sought_at (sought_by store.old.meta.tables sought.now) store.old.now.counted (pages_in store.old.now) place)) }
    ensures leaves { LeavesPage O.first D.Disk store.old store.new (searched result) }
{
    store.counts_pages();
    let counted = store.counted();
    let look = look_at_row(store, table, counted, place)?;
    if let Some(found) = found_in(sought, store.meta(), look) {
        return Ok(found);
    }
    seek_along(store, table, counted, sought, look.older, place.page)
}

/// The first version that is sought of the row at a place.
pub(crate) fn seek<D: Disk, O: Origin>(
    store: &mut Store<D, O>,
    place: Place,
    sought: &Sought,
) -> Result<Option<Found>, SearchFault>
    requires going { store.old.stopped ≡ false }
    requires counted { place.page < store.old.now.counted }
    ensures ends { WhereSound O.first D.Disk (IfOk (searched result) (λ r. r ≡ sought_at (sought_by store.old.meta.tables sought.now) store.old.now.counted (pages_in store.old.now) place)) }
    ensures leaves { LeavesPage O.first D.Disk store.old store.new (searched result) }
{
    let table = table_on(store, PageKind::ROWS, place.page)?;
    seek_in(store, &table, place, sought)
}
