// The names of the tables of what is left of undo.
ghost use Rattle.std.specs.Prelude.{◌≡◌, ◌≢◌, ◌⊎◌, ◌≤◌, ◌<◌, ◌+◌, ◌/◌, ◌%◌, ◌++◌, false, IfOk, IfErr, OnOk, length};
ghost use Rattle.ctr_bytes.specs.Fields.{field};
ghost use Rattle.ctr_base.specs.Base.{WhereSound};
ghost use Rattle.ctr_store.specs.Store.{LeavesPage};
ghost use Rattle.ctr_rec.specs.Members.{ItemFits};
ghost use Rattle.ctr_page.specs.declared.table.TheConstants.{PAGE_SIZE, ENTRY_SIZE, NAME_AT, NAME_MOST};
ghost use Rattle.ctr_area.specs.Reading.{title_of};
ghost use Rattle.ctr_names.specs.Held.{names_of_items};
ghost use Rattle.ctr_record_effects.specs.States.{pages_in, area_in};
ghost use Rattle.ctr_record_effects.specs.Standing.{IsDatabaseState};
ghost use Rattle.ctr_walk.specs.Damage.{searched, EndsOnPage, ReadsPages};
ghost use Rattle.ctr_undo.specs.Naming.{name_said, GivesName, NameSaid, name_read, name_listed, answered, named_by};

use crate::list::UndoList;
use ctr_base::Origin;
use ctr_disk::{Disk, StoreFault};
use ctr_page::{BadPage, CatalogEntry, EntryState, check_entry, read_entry};
use ctr_rec::SlogItem;
use ctr_store::Store;
use ctr_types::{Name, OutOfMemory, Text};
use ctr_walk::{SearchFault, catalog_page, found_on, tell};
use std::alloc::Global;

/// Why the names of tables aren't given.
#[derive(Clone, Copy, Debug, PartialEq, Eq)]
pub enum NamesRefusal {
    /// The disk failed, or an entry is damaged.
    Store(StoreFault),
    /// There was no memory for the names.
    OutOfMemory,
}

/// The name of an entry's table, or none where the entry is free, unless memory runs out.
type Given = Result<Option<Name>, OutOfMemory>;

// The name of the table of an entry whose name has 1 to 16 bytes.
fn name_in(alloc: Global, table: &CatalogEntry) -> Given
    requires whole { length table.now.bytes ≡ ENTRY_SIZE }
    requires named { table.now.state ≢ 0 → (1 ≤ field 1 NAME_AT table.now.bytes) × (field 1 NAME_AT table.now.bytes ≤ NAME_MOST) }
    ensures { GivesName (name_said (title_of table.now)) result }
{
    if table.state == EntryState::FREE {
        return Ok(None);
    }
    let text = Text::from_slice(alloc, table.name())?;
    Ok(Name::new(text))
}

// The same of an entry on a page of the catalog, which is checked.
fn name_on(alloc: Global, entry: u8, counted: u32, page: &[u8]) -> Result<Given, BadPage>
    requires some { 0 < counted }
    requires there { entry < 16 }
    requires whole { length page.now ≡ PAGE_SIZE }
    ensures { NameSaid counted entry page.now result }
{
    check_entry(counted, entry, page)?;
    let table = read_entry(page, entry);
    Ok(name_in(alloc, &table))
}

// The same of an entry of a store's catalog.
fn name_at<D: Disk, O: Origin>(
    alloc: Global,
    store: &mut Store<D, O>,
    entry: u8,
    counted: u32,
) -> Result<Given, SearchFault>
    requires going { store.old.stopped ≡ false }
    requires some { 0 < counted }
    requires there { entry < 32 }
    ensures said { WhereSound O.first D.Disk (IfOk (searched result) (EndsOnPage (1 + entry / 16) (NameSaid counted (entry % 16) (pages_in store.old.now (1 + entry / 16))))) }
    ensures leaves { LeavesPage O.first D.Disk store.old store.new (searched result) }
{
    let at = catalog_page(entry);
    let page = store.page(at)?;
    found_on(at, name_on(alloc, entry % 16, counted, page))
}

// The answer, by what was told.
fn answer(told: Result<Given, StoreFault>) -> Result<Option<Name>, NamesRefusal>
    ensures { result ≡ answered told }
{
    match told {
        Ok(Ok(name)) => Ok(name),
        Ok(Err(OutOfMemory)) => Err(NamesRefusal::OutOfMemory),
        Err(fault) => Err(NamesRefusal::Store(fault)),
    }
}

// The name of the table of an entry, or none where it is free. The entry is checked as it is read.
fn name<D: Disk, O: Origin>(
    alloc: Global,
    store: &mut Store<D, O>,
    entry: u8,
) -> Result<Option<Name>, NamesRefusal>
    requires going { store.old.stopped ≡ false }
    requires there { entry < 32 }
    ensures gives { WhereSound O.first D.Disk (IfOk result (λ found. found ≡ name_said ((area_in store.old.now).title entry))) }
    ensures undamaged { WhereSound O.first D.Disk (IsDatabaseState store.old.now → IfErr result (λ e. (e ≡ NamesRefusal.OutOfMemory) ⊎ (e ≡ NamesRefusal.Store StoreFault.Fault))) }
    ensures leaves { ReadsPages O.first D.Disk store.old store.new (named_by result) }
{
    store.counts_pages();
    let counted = store.counted();
    let found = name_at(alloc, store, entry, counted);
    answer(tell(store, found))
}

// The name of the table of an item; of a page there is none.
fn name_of<D: Disk, O: Origin>(
    alloc: Global,
    store: &mut Store<D, O>,
    item: SlogItem,
) -> Result<Option<Name>, NamesRefusal>
    requires going { store.old.stopped ≡ false }
    requires fits { ItemFits item }
    ensures gives { WhereSound O.first D.Disk (IfOk result (λ found. found ≡ name_read (area_in store.old.now) item)) }
    ensures undamaged { WhereSound O.first D.Disk (IsDatabaseState store.old.now → IfErr result (λ e. (e ≡ NamesRefusal.OutOfMemory) ⊎ (e ≡ NamesRefusal.Store StoreFault.Fault))) }
    ensures leaves { ReadsPages O.first D.Disk store.old store.new (named_by result) }
{
    match item {
        SlogItem::AllocOf(..) | SlogItem::FreeOf(_) => {
            store.rests();
            Ok(None)
        }
        SlogItem::CreateOf(_, entry) | SlogItem::DropOf(_, entry) => name(alloc, store, entry),
    }
}

// A name that was found goes behind others.
fn push(names: &mut Vec<Name>, found: Option<Name>) -> Result<(), NamesRefusal>
    ensures added { OnOk result (names.new.items ≡ names.old.items ++ name_listed found) }
    ensures refused { IfErr result (λ e. e ≡ NamesRefusal.OutOfMemory) }
{
    match found {
        None => Ok(()),
        Some(name) => match names.push(name) {
            Ok(()) => Ok(()),
            Err(_) => Err(NamesRefusal::OutOfMemory),
        },
    }
}

// The name of the table of an item, where there is one, goes behind others.
fn add<D: Disk, O: Origin>(
    alloc: Global,
    store: &mut Store<D, O>,
    item: SlogItem,
    names: &mut Vec<Name>,
) -> Result<(), NamesRefusal>
    requires going { store.old.stopped ≡ false }
    requires fits { ItemFits item }
    ensures added { WhereSound O.first D.Disk (OnOk result (names.new.items ≡ names.old.items ++ name_listed (name_read (area_in store.old.now) item))) }
    ensures undamaged { WhereSound O.first D.Disk (IsDatabaseState store.old.now → IfErr result (λ e. (e ≡ NamesRefusal.OutOfMemory) ⊎ (e ≡ NamesRefusal.Store StoreFault.Fault))) }
    ensures leaves { ReadsPages O.first D.Disk store.old store.new (named_by result) }
{
    match name_of(alloc, store, item) {
        Ok(found) => push(names, found),
        Err(refused) => Err(refused),
    }
}

impl UndoList {
    /// The names of the tables of the items that are left, in their order: an item of a page has none, nor one of an entry that is
    /// free, as no sound database has. Each entry is checked as it is read. It logs nothing, and takes no memory but the names.
    pub fn names<D: Disk, O: Origin>(
        &self,
        alloc: Global,
        store: &mut Store<D, O>,
    ) -> Result<Vec<Name>, NamesRefusal>
        requires going { store.old.stopped ≡ false }
        ensures names { WhereSound O.first D.Disk (IsDatabaseState store.old.now → store.old.now.tables.items ≡ self.now.items → IfOk result (λ names. names.items ≡ names_of_items (area_in store.old.now).title self.now.items)) }
        // There an entry is damaged nowhere: it is refused by the disk, or for want of memory.
        ensures undamaged { WhereSound O.first D.Disk (IsDatabaseState store.old.now → store.old.now.tables.items ≡ self.now.items → IfErr result (λ e. (e ≡ NamesRefusal.OutOfMemory) ⊎ (e ≡ NamesRefusal.Store StoreFault.Fault))) }
        ensures leaves { ReadsPages O.first D.Disk store.old store.new (named_by result) }
    {
        store.rests();
        let mut names = Vec::new(alloc);
        let items = self.items();
        for item in items {
            match add(alloc, store, *item, &mut names) {
                Ok(()) => {}
                Err(refused) => return Err(refused),
            }
        }
        Ok(names)
    }
}
