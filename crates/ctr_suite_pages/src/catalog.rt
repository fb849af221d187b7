// Steps on the catalog.
ghost use Rattle.std.specs.Prelude.{◌≡◌, false, true, IsTrue, OnOk};
ghost use Rattle.std.specs.List.{AllByRecursion};
ghost use Rattle.ctr_types.specs.Names.{IsName};
ghost use Rattle.ctr_rec.specs.Members.{ItemFits};
ghost use Rattle.ctr_value.specs.Columns.{ColumnFits, ColumnsFit, KindFits};

use crate::told::Told;
use crate::turns::{Mem, ready};
use ctr_catalog::{CatalogRefusal, changed, create, drop_table, find, undo_item};
use ctr_disk::StoreFault;
use ctr_rec::SlogItem;
use ctr_snap::Snapshot;
use ctr_types::{Column, Kind, List, Name, OutOfMemory, Schema, Text};
use std::alloc::Global;

fn is_named(name: &Name) -> bool
    ensures { IsName name.now }
{
    !name.as_slice().is_empty()
}

fn kind_fits(kind: Kind, most: u8) -> bool
    ensures { IsTrue result → KindFits most kind }
{
    match kind {
        Kind::Int => true,
        Kind::Chars(n) => 1 <= n && n <= most,
    }
}

fn column_fits(column: &Column, most: u8) -> bool
    ensures { IsTrue result → ColumnFits most column.now }
{
    is_named(&column.name) && kind_fits(column.kind, most)
}

fn others_fit(columns: &[Column]) -> bool
    ensures { IsTrue result → AllByRecursion (ColumnFits 64) columns.now }
{
    match columns.split_first() {
        None => true,
        Some((column, others)) => column_fits(column, 64) && others_fit(others),
    }
}

// Whether a table may have such columns.
fn columns_fit(columns: &[Column]) -> bool
    ensures { IsTrue result → ColumnsFit columns.now }
{
    match columns.split_first() {
        None => false,
        Some((key, others)) => column_fits(key, 0) && others.len() < 8 && others_fit(others),
    }
}

fn name_of(alloc: Global, bytes: &[u8]) -> Result<Name, OutOfMemory> {
    Name::new(Text::from_slice(alloc, bytes)?).ok_or(OutOfMemory)
}

// A column more.
fn add_column(
    alloc: Global,
    columns: &mut Vec<Column>,
    name: &[u8],
    kind: Kind,
) -> Result<(), OutOfMemory> {
    let name = name_of(alloc, name)?;
    columns.push(Column { name, kind })?;
    Ok(())
}

// An INT for the key, and columns of these kinds.
fn add_columns(
    alloc: Global,
    columns: &mut Vec<Column>,
    kinds: &[Option<Kind>],
) -> Result<(), OutOfMemory> {
    add_column(alloc, columns, b"k", Kind::Int)?;
    for kind in kinds {
        if let Some(kind) = kind {
            add_column(alloc, columns, b"v", *kind)?;
        }
    }
    Ok(())
}

fn schema_of(alloc: Global, kinds: &[Option<Kind>]) -> Result<Schema, OutOfMemory> {
    let mut columns = Vec::new(alloc);
    add_columns(alloc, &mut columns, kinds)?;
    Ok(Schema {
        columns: List::from_vec(columns),
    })
}

// A table of such columns.
fn make_table(store: &mut Mem, x: u64, name: &Name, schema: &Schema) -> Result<Told, StoreFault>
    requires going { store.old.stopped ≡ false }
    ensures going { OnOk result (store.new.stopped ≡ false) }
{
    if !columns_fit(schema.columns.as_slice()) || !ready(store, 0, 1)? {
        return Ok(Told::NotAsked);
    }
    match create(store, x, name, schema) {
        Ok(entry) => Ok(Told::Number(entry as u64)),
        Err(CatalogRefusal::CatalogFull) => Ok(Told::CatalogFull),
        Err(CatalogRefusal::Store(fault)) => Err(fault),
    }
}

/// A table of a name, of an INT and of columns of these kinds.
pub fn make(
    alloc: Global,
    store: &mut Mem,
    x: u64,
    name: &[u8],
    kinds: &[Option<Kind>],
) -> Result<Told, StoreFault>
    requires going { store.old.stopped ≡ false }
    ensures going { OnOk result (store.new.stopped ≡ false) }
{
    let Ok(name) = name_of(alloc, name) else {
        return Ok(Told::NotAsked);
    };
    let Ok(schema) = schema_of(alloc, kinds) else {
        return Ok(Told::NotAsked);
    };
    make_table(store, x, &name, &schema)
}

/// The table of an entry is dropped.
pub fn drop_entry(store: &mut Mem, x: u64, entry: u8) -> Result<Told, StoreFault>
    requires going { store.old.stopped ≡ false }
    ensures going { OnOk result (store.new.stopped ≡ false) }
{
    if entry >= 32 || !ready(store, 0, 1)? {
        return Ok(Told::NotAsked);
    }
    drop_table(store, x, entry)?;
    Ok(Told::Done)
}

// Whether an item is of a page or an entry that there may be.
fn item_fits(item: &SlogItem) -> bool
    ensures { IsTrue result → ItemFits item.now }
{
    match *item {
        SlogItem::AllocOf(_, p) => p < 30_000,
        SlogItem::FreeOf(p) => p < 30_000,
        SlogItem::CreateOf(_, entry) => entry < 32,
        SlogItem::DropOf(_, entry) => entry < 32,
    }
}

/// The last item is undone.
pub fn undo(store: &mut Mem) -> Result<Told, StoreFault>
    requires going { store.old.stopped ≡ false }
    ensures going { OnOk result (store.new.stopped ≡ false) }
{
    let Some(item) = store.meta().items().last() else {
        return Ok(Told::None);
    };
    let item = *item;
    if !item_fits(&item) || !ready(store, 0, 0)? {
        return Ok(Told::NotAsked);
    }
    undo_item(store, &item)?;
    Ok(Told::Done)
}

/// The table of a name that a snapshot sees.
pub fn named(
    alloc: Global,
    store: &mut Mem,
    name: &[u8],
    snapshot: &Snapshot,
    me: Option<u64>,
) -> Result<Told, StoreFault>
    requires going { store.old.stopped ≡ false }
    ensures going { OnOk result (store.new.stopped ≡ false) }
{
    let Ok(name) = name_of(alloc, name) else {
        return Ok(Told::NotAsked);
    };
    let found = find(store, &name, snapshot, me);
    drop(name);
    match found? {
        Some(entry) => Ok(Told::Number(entry as u64)),
        None => Ok(Told::None),
    }
}

/// Who changed a table since a snapshot was taken.
pub fn changer(
    alloc: Global,
    store: &mut Mem,
    entry: u8,
    name: &[u8],
    snapshot: &Snapshot,
) -> Result<Told, StoreFault>
    requires going { store.old.stopped ≡ false }
    ensures going { OnOk result (store.new.stopped ≡ false) }
{
    if entry >= 32 {
        return Ok(Told::NotAsked);
    }
    let Ok(name) = name_of(alloc, name) else {
        return Ok(Told::NotAsked);
    };
    let changed = changed(store, entry, &name, snapshot);
    drop(name);
    match changed? {
        Some(x) => Ok(Told::Number(x)),
        None => Ok(Told::None),
    }
}
