// The table of a name that a snapshot sees, and whether one was changed since it was taken.
ghost use Rattle.std.specs.Prelude.{◌≡◌, ◌<◌, ◌≤◌, ◌+◌, ◌/◌, ◌%◌, false, IfOk, IfSome, length};
ghost use Rattle.ctr_alloc.specs.base_Base.{WhereSound};
ghost use Rattle.ctr_names.specs.page_table_TheConstants.{PAGE_SIZE};
ghost use Rattle.ctr_alloc.specs.store_Store.{LeavesPage};
ghost use Rattle.ctr_alloc.specs.record_effects_States.{pages_in, area_in};
ghost use Rattle.ctr_alloc.specs.walk_Damage.{damage_told, searched, EndsOnPage, EndsTold, ReadsPages};
ghost use Rattle.ctr_catalog.specs.Finding.{NamedSaid, EndsNamed, stands_seen, change_since, is_made_so, change_made, checks_at, entry_seen, changed_in, EndsEntries, EndsEntry, EndsChange};

use crate::entries::is_live_of;
use ctr_alloc::{Origin, SearchFault, Store, catalog_page, found_on, tell};
use ctr_disk::{Disk, StoreFault};
use ctr_names::{BadPage, Meta, check_entry, is_changed, is_seen, read_entry};
use ctr_snap::Snapshot;
use ctr_types::{Name, Xid};

/// Who made a table, and who dropped it, 0 for nobody.
#[derive(Clone, Copy, Debug, PartialEq, Eq)]
pub(crate) struct MadeBy {
    pub(crate) creator: Xid,
    pub(crate) dropper: Xid,
}

/// Who made and dropped the live table of a name that an entry on a page of the catalog is, or none where it is another.
fn named_in(name: &Name, entry: u8, counted: u32, page: &[u8]) -> Result<Option<MadeBy>, BadPage>
    requires some { 0 < counted }
    requires there { entry < 16 }
    requires whole { length page.now ≡ PAGE_SIZE }
    ensures { NamedSaid counted name.now entry page.now result }
{
    check_entry(counted, entry, page)?;
    let table = read_entry(page, entry);
    if !is_live_of(name, &table) {
        return Ok(None);
    }
    Ok(Some(MadeBy {
        creator: table.creator,
        dropper: table.dropper,
    }))
}

/// An entry of the catalog to which a look at some came, and who made and dropped the live table of the name that it is.
#[derive(Clone, Copy, Debug, PartialEq, Eq)]
pub(crate) struct MadeAt {
    pub(crate) entry: u8,
    pub(crate) made: Option<MadeBy>,
}

/// The same of the entries from one on that stand with it on a page, up to the first that is such a table, or the last of the page.
fn named_from(name: &Name, from: u8, counted: u32, page: &[u8]) -> Result<MadeAt, BadPage>
    requires some { 0 < counted }
    requires there { from < 32 }
    requires whole { length page.now ≡ PAGE_SIZE }
    ensures said { EndsNamed counted name.now from page.now result }
    ensures inside { IfOk result (λ at. (from ≤ at.entry) × (at.entry < 32)) }
{
    let end = from / 16 * 16 + 16;
    for entry in from..end {
        let made = named_in(name, entry % 16, counted, page)?;
        if made.is_some() {
            return Ok(MadeAt { entry, made });
        }
    }
    let entry = end - 1;
    Ok(MadeAt { entry, made: None })
}

/// The same of an entry of a store's catalog.
fn named_at<D: Disk, O: Origin>(
    store: &mut Store<D, O>,
    name: &Name,
    entry: u8,
    counted: u32,
) -> Result<Option<MadeBy>, SearchFault>
    requires going { store.old.stopped ≡ false }
    requires some { 0 < counted }
    requires there { entry < 32 }
    ensures said { WhereSound O.first D.Disk (IfOk (searched result) (EndsOnPage (1 + entry / 16) (NamedSaid counted name.now (entry % 16) (pages_in store.old.now (1 + entry / 16))))) }
    ensures leaves { LeavesPage O.first D.Disk store.old store.new (searched result) }
{
    let at = catalog_page(entry);
    let page = store.page(at)?;
    found_on(at, named_in(name, entry % 16, counted, page))
}

/// The same of the entries from one on that stand with it on its page of a store's catalog.
fn named_behind<D: Disk, O: Origin>(
    store: &mut Store<D, O>,
    name: &Name,
    from: u8,
    counted: u32,
) -> Result<MadeAt, SearchFault>
    requires going { store.old.stopped ≡ false }
    requires some { 0 < counted }
    requires there { from < 32 }
    ensures said { WhereSound O.first D.Disk (IfOk (searched result) (EndsOnPage (1 + from / 16) (EndsNamed counted name.now from (pages_in store.old.now (1 + from / 16))))) }
    ensures inside { IfOk result (λ at. (from ≤ at.entry) × (at.entry < 32)) }
    ensures leaves { LeavesPage O.first D.Disk store.old store.new (searched result) }
{
    let at = catalog_page(from);
    let page = store.page(at)?;
    found_on(at, named_from(name, from, counted, page))
}

/// Whether a table stands for a snapshot: it sees who made it, and not who dropped it.
fn stands(meta: &Meta, snapshot: &Snapshot, me: Option<Xid>, made: MadeBy) -> bool
    ensures { result ≡ stands_seen meta.now.tables snapshot.now me made }
{
    is_seen(meta, snapshot, me, made.creator) && !is_seen(meta, snapshot, me, made.dropper)
}

/// The same of a table, or none.
fn is_sought(meta: &Meta, snapshot: &Snapshot, me: Option<Xid>, found: Option<MadeBy>) -> bool
    ensures { result ≡ is_made_so (stands_seen meta.now.tables snapshot.now me) found }
{
    match found {
        None => false,
        Some(made) => stands(meta, snapshot, me, made),
    }
}

/// Who changed a table since a snapshot was taken.
fn change(meta: &Meta, snapshot: &Snapshot, made: MadeBy) -> Option<Xid>
    ensures { result ≡ change_since meta.now.tables snapshot.now made }
{
    if is_changed(meta, snapshot, made.dropper) {
        return Some(made.dropper);
    }
    if is_changed(meta, snapshot, made.creator) {
        return Some(made.creator);
    }
    None
}

/// The same of a table, or none.
fn change_found(meta: &Meta, snapshot: &Snapshot, found: Option<MadeBy>) -> Option<Xid>
    ensures { result ≡ change_made (change_since meta.now.tables snapshot.now) found }
{
    match found {
        None => None,
        Some(made) => change(meta, snapshot, made),
    }
}

/// The first live entry of a name whose creator a snapshot sees, and whose dropper it doesn't. Each is checked as it is read.
fn search_entries<D: Disk, O: Origin>(
    store: &mut Store<D, O>,
    name: &Name,
    snapshot: &Snapshot,
    me: Option<Xid>,
) -> Result<Option<u8>, SearchFault>
    requires going { store.old.stopped ≡ false }
    ensures ends { WhereSound O.first D.Disk (IfOk (searched result) (EndsEntries (checks_at store.old.now.counted (pages_in store.old.now)) (entry_seen store.old.meta.tables snapshot.now me name.now (area_in store.old.now)))) }
    ensures inside { IfOk result (λ found. IfSome found (λ e. e < 32)) }
    ensures leaves { LeavesPage O.first D.Disk store.old store.new (searched result) }
{
    store.counts_pages();
    let counted = store.counted();
    for entry in 0..32 {
        let found = named_at(store, name, entry, counted)?;
        if is_sought(store.meta(), snapshot, me, found) {
            return Ok(Some(entry));
        }
    }
    Ok(None)
}

/// The table of a name that a snapshot sees, by its entry of the catalog: the first live entry of the name whose creator it sees, and
/// whose dropper it doesn't. Each entry is checked as it is read; damage is told where it stands in the file of pages. It logs
/// nothing, and takes no memory.
pub fn find<D: Disk, O: Origin>(
    store: &mut Store<D, O>,
    name: &Name,
    snapshot: &Snapshot,
    me: Option<Xid>,
) -> Result<Option<u8>, StoreFault>
    requires going { store.old.stopped ≡ false }
    ensures ends { WhereSound O.first D.Disk (EndsTold (damage_told D.Disk store.new) (EndsEntries (checks_at store.old.now.counted (pages_in store.old.now)) (entry_seen store.old.now.tables snapshot.now me name.now (area_in store.old.now))) result) }
    // It is an entry of the catalog.
    ensures inside { IfOk result (λ found. IfSome found (λ e. e < 32)) }
    ensures leaves { ReadsPages O.first D.Disk store.old store.new result }
{
    let _tables = store.meta();
    let found = search_entries(store, name, snapshot, me);
    tell(store, found)
}

/// Who changed the table of a name that an entry is since a snapshot was taken. The entry is checked.
fn change_of<D: Disk, O: Origin>(
    store: &mut Store<D, O>,
    entry: u8,
    name: &Name,
    snapshot: &Snapshot,
) -> Result<Option<Xid>, SearchFault>
    requires going { store.old.stopped ≡ false }
    requires there { entry < 32 }
    ensures ends { WhereSound O.first D.Disk (IfOk (searched result) (EndsEntry (checks_at store.old.now.counted (pages_in store.old.now) entry) (changed_in store.old.meta.tables snapshot.now name.now (area_in store.old.now) entry) entry)) }
    ensures leaves { LeavesPage O.first D.Disk store.old store.new (searched result) }
{
    store.counts_pages();
    let counted = store.counted();
    let found = named_at(store, name, entry, counted)?;
    Ok(change_found(store.meta(), snapshot, found))
}

/// Who changed the table of a name that an entry is, so that a snapshot doesn't see it: who dropped it, or else who made it, where this
/// transaction is committed. None where the entry isn't a live one of the name; damage is told where it stands in the file of pages.
/// It logs nothing, and takes no memory.
pub fn changed<D: Disk, O: Origin>(
    store: &mut Store<D, O>,
    entry: u8,
    name: &Name,
    snapshot: &Snapshot,
) -> Result<Option<Xid>, StoreFault>
    requires going { store.old.stopped ≡ false }
    requires there { entry < 32 }
    ensures ends { WhereSound O.first D.Disk (EndsTold (damage_told D.Disk store.new) (EndsEntry (checks_at store.old.now.counted (pages_in store.old.now) entry) (changed_in store.old.now.tables snapshot.now name.now (area_in store.old.now) entry) entry) result) }
    ensures leaves { ReadsPages O.first D.Disk store.old store.new result }
{
    let _tables = store.meta();
    let found = change_of(store, entry, name, snapshot);
    tell(store, found)
}

/// An entry of the catalog to which a look at some came, and who changed the table that it is.
#[derive(Clone, Copy, Debug, PartialEq, Eq)]
pub struct ChangeAt {
    /// Its number, below 32.
    pub entry: u8,
    /// Who changed it, where anybody did.
    pub who: Option<Xid>,
}

/// Who changed a table of a name since a snapshot was taken, of the entries from one on that stand on its page. Each is checked.
fn change_behind<D: Disk, O: Origin>(
    store: &mut Store<D, O>,
    from: u8,
    name: &Name,
    snapshot: &Snapshot,
) -> Result<ChangeAt, SearchFault>
    requires going { store.old.stopped ≡ false }
    requires there { from < 32 }
    ensures ends { WhereSound O.first D.Disk (IfOk (searched result) (EndsChange (checks_at store.old.now.counted (pages_in store.old.now)) (changed_in store.old.meta.tables snapshot.now name.now (area_in store.old.now)) from)) }
    ensures inside { IfOk result (λ at. (from ≤ at.entry) × (at.entry < 32)) }
    ensures leaves { LeavesPage O.first D.Disk store.old store.new (searched result) }
{
    store.counts_pages();
    let counted = store.counted();
    let found = named_behind(store, name, from, counted)?;
    Ok(ChangeAt {
        entry: found.entry,
        who: change_found(store.meta(), snapshot, found.made),
    })
}

/// The same as `changed` of several entries, from one on, for one reading of the page that they stand on: nobody is answered of those before the
/// last that was looked at, and this is who is answered of it. To ask of all go on behind it. It logs nothing, and takes no memory.
pub fn changed_from<D: Disk, O: Origin>(
    store: &mut Store<D, O>,
    from: u8,
    name: &Name,
    snapshot: &Snapshot,
) -> Result<ChangeAt, StoreFault>
    requires going { store.old.stopped ≡ false }
    requires there { from < 32 }
    ensures ends { WhereSound O.first D.Disk (EndsTold (damage_told D.Disk store.new) (EndsChange (checks_at store.old.now.counted (pages_in store.old.now)) (changed_in store.old.now.tables snapshot.now name.now (area_in store.old.now)) from) result) }
    // It is an entry of the catalog, and not before the first.
    ensures inside { IfOk result (λ at. (from ≤ at.entry) × (at.entry < 32)) }
    ensures leaves { ReadsPages O.first D.Disk store.old store.new result }
{
    let _tables = store.meta();
    let found = change_behind(store, from, name, snapshot);
    tell(store, found)
}
