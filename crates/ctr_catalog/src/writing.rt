// One record makes a table, drops one, or undoes an item of the secondary log.
ghost use Rattle.std.specs.Prelude.{◌≡◌, ◌≢◌, ◌<◌, ◌+◌, ◌/◌, ℕ, IfOk, OnOk};
ghost use Rattle.ctr_bytes.specs.Fields.{spelled};
ghost use Rattle.ctr_types.specs.Names.{IsName};
ghost use Rattle.ctr_names.specs.value_Columns.{ColumnsFit};
ghost use Rattle.ctr_alloc.specs.base_Base.{WhereSound};
ghost use Rattle.ctr_names.specs.page_Columns.{new_entry_bytes};
ghost use Rattle.ctr_names.specs.area_Changes.{new_title, empty_chains, ChangesEntry};
ghost use Rattle.ctr_alloc.specs.walk_OneRecord.{HasRoomForOne, LogsOne};
ghost use Rattle.ctr_alloc.specs.record_effects_States.{area_in, IsWholePage};
ghost use Rattle.ctr_alloc.specs.actions_Sites.{site_of};
ghost use Rattle.ctr_alloc.specs.actions_Actions.{Creates, Drops, Uncreates, Undrops, site_after, undoing};
ghost use Rattle.ctr_alloc.specs.record_effects_Changing.{create_record, drop_record, uncreate_record, undrop_record};
ghost use Rattle.ctr_rec.specs.Members.{ItemFits};
ghost use Rattle.ctr_alloc.specs.walk_Damage.{damage_told};
ghost use Rattle.ctr_catalog.specs.Writing.{EndsMaking, MakesTable, undo_record, undo_page, HasMade};

use crate::store::find_free_entry;
use ctr_alloc::{
    Origin, Store, a_drop_changes_its_title, a_logged_record_is_its_action,
    a_new_table_has_its_entry, a_record_behind_a_page, an_uncreate_changes_its_title,
    an_undrop_changes_its_title, catalog_page, free, log_on_page, over_entry, over_page,
};
use ctr_bytes::put_u64;
use ctr_disk::{Disk, StoreFault};
use ctr_names::make_entry;
use ctr_rec::{Record, SlogItem};
use ctr_types::{Name, Schema, Xid};

/// Why no table was made.
#[derive(Clone, Copy, Debug, PartialEq, Eq)]
pub enum CatalogRefusal {
    /// No entry of the catalog is free.
    CatalogFull,
    /// The store refused, or an entry of the catalog is damaged.
    Store(StoreFault),
}

/// The bytes of an entry.
const ENTRY: usize = 256;

/// Where an entry has its dropper.
const DROPPER_AT: u8 = 9;

/// The bytes of the entry of a new table.
fn entry_made(x: Xid, name: &Name, schema: &Schema) -> [u8; ENTRY]
    requires { ColumnsFit schema.now.columns }
    ensures { result ≡ new_entry_bytes x name.now schema.now.columns }
{
    let mut bytes = [0; ENTRY];
    let _ = make_entry(x, name, schema, &mut bytes);
    bytes
}

/// A name has 1 to 16 bytes.
fn has_room(name: &Name)
    ensures { IsName name.now }
{
    let _bytes = name.as_slice();
}

/// The record of a new table.
fn log_created<D: Disk, O: Origin>(
    store: &mut Store<D, O>,
    x: Xid,
    entry: u8,
    name: &Name,
    schema: &Schema,
) -> Result<(), StoreFault>
    requires room { HasRoomForOne 0 1 store.old }
    requires there { entry < 32 }
    requires fits { ColumnsFit schema.now.columns }
    ensures one { LogsOne O.first D.Disk (create_record x entry name.now schema.now.columns) store.old store.new result }
    ensures whole { WhereSound O.first D.Disk (OnOk result (IsWholePage (1 + entry / 16) store.old.now)) }
    ensures made { WhereSound O.first D.Disk (OnOk result (ChangesEntry entry (new_title x name.now schema.now.columns) empty_chains (area_in store.old.now) (area_in store.new.now))) }
    ensures leaves { WhereSound O.first D.Disk (OnOk result (site_of store.new.now ≡ site_after x (Creates entry name.now schema.now.columns (area_in store.new.now)) (site_of store.old.now))) }
{
    a_new_table_has_its_entry();
    a_logged_record_is_its_action();
    store.counts_pages();
    has_room(name);
    let bytes = entry_made(x, name, schema);
    let rec = Record::Create {
        x,
        e: entry,
        overlay: over_page(catalog_page(entry), 256 * (entry % 16) as u16, &bytes),
    };
    log_on_page(store, catalog_page(entry), &rec)
}

/// Makes a table for a transaction, in the lowest free entry of the catalog, by one record, which isn't hardened yet; it answers the
/// entry.
pub fn create<D: Disk, O: Origin>(
    store: &mut Store<D, O>,
    x: Xid,
    name: &Name,
    schema: &Schema,
) -> Result<u8, CatalogRefusal>
    requires room { HasRoomForOne 0 1 store.old }
    requires fits { ColumnsFit schema.now.columns }
    // CatalogFull comes exactly where no entry is free.
    ensures ends { WhereSound O.first D.Disk (EndsMaking (damage_told D.Disk store.new) (λ e. create_record x e name.now schema.now.columns) store.old store.new result) }
    ensures few { IfOk result (λ e. e < 32) }
    ensures one { MakesTable O.first D.Disk (λ e. create_record x e name.now schema.now.columns) store.old store.new result }
    ensures whole { WhereSound O.first D.Disk (IfOk result (λ e. IsWholePage (1 + e / 16) store.old.now)) }
    // The entry has the title of the new table and no page; other entries and what stands on their pages stay.
    ensures made { WhereSound O.first D.Disk (IfOk result (λ e. ChangesEntry e (new_title x name.now schema.now.columns) empty_chains (area_in store.old.now) (area_in store.new.now))) }
    // There is an item to undo this, and nothing else in the tables changes.
    ensures leaves { WhereSound O.first D.Disk (IfOk result (λ e. site_of store.new.now ≡ site_after x (Creates e name.now schema.now.columns (area_in store.new.now)) (site_of store.old.now))) }
{
    a_record_behind_a_page::<D, (), u8>();
    let entry = match find_free_entry(store) {
        Err(fault) => return Err(CatalogRefusal::Store(fault)),
        Ok(None) => return Err(CatalogRefusal::CatalogFull),
        Ok(Some(entry)) => entry,
    };
    match log_created(store, x, entry, name, schema) {
        Ok(()) => Ok(entry),
        Err(fault) => Err(CatalogRefusal::Store(fault)),
    }
}

/// The bytes of a transaction's number.
fn number_made(x: Xid) -> [u8; 8]
    ensures { result ≡ spelled 8 x }
{
    let mut bytes = [0; 8];
    put_u64(&mut bytes, 0, x);
    bytes
}

/// Drops the table of an entry for a transaction, by one record, which isn't hardened yet.
pub fn drop_table<D: Disk, O: Origin>(
    store: &mut Store<D, O>,
    x: Xid,
    entry: u8,
) -> Result<(), StoreFault>
    requires room { HasRoomForOne 0 1 store.old }
    requires there { entry < 32 }
    ensures one { LogsOne O.first D.Disk (drop_record x entry) store.old store.new result }
    ensures whole { WhereSound O.first D.Disk (OnOk result (IsWholePage (1 + entry / 16) store.old.now)) }
    // The transaction is its dropper, there is an item to undo this, and nothing else in the pages and the tables changes.
    ensures leaves { WhereSound O.first D.Disk (OnOk result (site_of store.new.now ≡ site_after x (Drops entry) (site_of store.old.now))) }
{
    a_drop_changes_its_title();
    a_logged_record_is_its_action();
    store.counts_pages();
    let bytes = number_made(x);
    let rec = Record::Drop {
        x,
        e: entry,
        overlay: over_entry(entry, DROPPER_AT, &bytes),
    };
    log_on_page(store, catalog_page(entry), &rec)
}

/// The table of an entry was never made: it is dead.
fn uncreate<D: Disk, O: Origin>(store: &mut Store<D, O>, entry: u8) -> Result<(), StoreFault>
    requires room { HasRoomForOne 0 0 store.old }
    requires there { entry < 32 }
    ensures one { LogsOne O.first D.Disk (uncreate_record entry) store.old store.new result }
    ensures whole { WhereSound O.first D.Disk (OnOk result (IsWholePage (1 + entry / 16) store.old.now)) }
    ensures leaves { (x : ℕ) → WhereSound O.first D.Disk (((area_in store.old.now).title entry).state ≢ 0
        → OnOk result (site_of store.new.now ≡ site_after x (Uncreates entry) (site_of store.old.now))) }
{
    an_uncreate_changes_its_title();
    a_logged_record_is_its_action();
    store.counts_pages();
    let rec = Record::Uncreate {
        e: entry,
        overlay: over_entry(entry, 0, &[2]),
    };
    log_on_page(store, catalog_page(entry), &rec)
}

/// Nobody dropped the table of an entry.
fn undrop<D: Disk, O: Origin>(store: &mut Store<D, O>, entry: u8) -> Result<(), StoreFault>
    requires room { HasRoomForOne 0 0 store.old }
    requires there { entry < 32 }
    ensures one { LogsOne O.first D.Disk (undrop_record entry) store.old store.new result }
    ensures whole { WhereSound O.first D.Disk (OnOk result (IsWholePage (1 + entry / 16) store.old.now)) }
    ensures leaves { (x : ℕ) → WhereSound O.first D.Disk (OnOk result (site_of store.new.now ≡ site_after x (Undrops entry) (site_of store.old.now))) }
{
    an_undrop_changes_its_title();
    a_logged_record_is_its_action();
    store.counts_pages();
    let bytes = number_made(0);
    let rec = Record::Undrop {
        e: entry,
        overlay: over_entry(entry, DROPPER_AT, &bytes),
    };
    log_on_page(store, catalog_page(entry), &rec)
}

/// Undoes an item of the secondary log, by one record, which isn't hardened yet: a page is free again, a table that was made is dead, one
/// that was dropped isn't.
pub fn undo_item<D: Disk, O: Origin>(
    store: &mut Store<D, O>,
    item: &SlogItem,
) -> Result<(), StoreFault>
    requires room { HasRoomForOne 0 0 store.old }
    requires fits { ItemFits item.now }
    ensures one { (byte : ℕ) × LogsOne O.first D.Disk (undo_record item.now byte) store.old store.new result }
    // The page of its record is there, whole.
    ensures whole { WhereSound O.first D.Disk (OnOk result (IsWholePage (undo_page item.now) store.old.now)) }
    // What the item says of one page or one title is undone, the item is gone, and nothing else in the pages and the tables changes.
    ensures leaves { (x : ℕ) → WhereSound O.first D.Disk (HasMade item.now (area_in store.old.now)
        → OnOk result (site_of store.new.now ≡ site_after x (undoing item.now) (site_of store.old.now))) }
{
    match *item {
        SlogItem::AllocOf(_, p) => free(store, p),
        SlogItem::FreeOf(p) => free(store, p),
        SlogItem::CreateOf(_, entry) => uncreate(store, entry),
        SlogItem::DropOf(_, entry) => undrop(store, entry),
    }
}
