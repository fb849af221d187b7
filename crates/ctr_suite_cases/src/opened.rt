// What is open in a store that was opened: transactions, what the secondary log has, and the names that recovery holds.
ghost use Rattle.std.specs.Prelude.{◌≡◌, false, OnOk};

use crate::files::Mem;
use crate::logged::put_item;
use crate::page::Page;
use crate::trouble::Trouble;
use ctr_meta::Meta;
use ctr_rec::SlogItem;
use ctr_types::{List, Name, OutOfMemory, Plain, Text, Xid};
use std::alloc::{AllocError, Global};

/// How many bytes an entry of the catalog has, and how many entries a page.
const ENTRY_SIZE: usize = 256;

const ON_PAGE: u8 = 16;

/// The byte of an entry that has the length of its name, which stands behind it.
const NAME_AT: usize = 17;

// The name in an entry of a page of the catalog.
fn name_in(alloc: Global, page: &[u8], at: u8) -> Result<Option<Name>, AllocError> {
    let start = ENTRY_SIZE * at as usize + NAME_AT;
    let length = match page.get(start) {
        Some(length) => *length as usize,
        None => 0,
    };
    let bytes = page.get(start + 1..start + 1 + length).unwrap_or(b"");
    Ok(Name::new(Text::from_slice(alloc, bytes)?))
}

// The entry of the catalog that an item is of.
fn entry_of(item: SlogItem) -> Option<u8> {
    match item {
        SlogItem::CreateOf(_, e) => Some(e),
        SlogItem::DropOf(_, e) => Some(e),
        SlogItem::AllocOf(_, _) | SlogItem::FreeOf(_) => None,
    }
}

// A name more, unless it is there.
fn add_name(names: &mut List<Name>, name: Name) -> Result<(), OutOfMemory> {
    if !names.as_slice().iter().any(|other| other.same(&name)) {
        names.push(name)?;
    }
    Ok(())
}

// The name of an item's table, where it is of one.
fn add_name_of(
    alloc: Global,
    store: &mut Mem,
    names: &mut List<Name>,
    item: SlogItem,
) -> Result<(), Trouble>
    requires going { store.old.stopped ≡ false }
    ensures going { OnOk result (store.new.stopped ≡ false) }
{
    let Some(entry) = entry_of(item) else {
        return Ok(());
    };
    let page = 1 + (entry / ON_PAGE) as u32;
    if page >= store.counted() {
        return Ok(());
    }
    if let Some(name) = name_in(alloc, store.page(page)?, entry % ON_PAGE)? {
        add_name(names, name)?;
    }
    Ok(())
}

// The items of the secondary log.
fn items_of(alloc: Global, meta: &Meta) -> Result<Vec<SlogItem>, AllocError> {
    let mut items = Vec::new(alloc);
    items.extend_from_slice(meta.items())?;
    Ok(items)
}

/// The names of the tables that the secondary log has an item of, which recovery holds.
pub fn stuck_names(alloc: Global, store: &mut Mem) -> Result<List<Name>, Trouble>
    requires going { store.old.stopped ≡ false }
    ensures going { OnOk result (store.new.stopped ≡ false) }
{
    let items = items_of(alloc, store.meta())?;
    let mut names = List::new(alloc);
    for item in &items {
        add_name_of(alloc, store, &mut names, *item)?;
    }
    Ok(names)
}

// Transactions with their heads.
fn put_heads(page: &mut Page, words: &str, pairs: &[(Xid, u64)]) {
    page.add(words.as_bytes());
    if pairs.is_empty() {
        page.add(b" none");
    }
    for (x, heads) in pairs {
        page.add_number(" ", *x);
        page.add_number(" with ", *heads);
    }
}

// The items of the secondary log.
fn put_items(alloc: Global, page: &mut Page, items: &[SlogItem]) {
    page.add(b"; items");
    if items.is_empty() {
        page.add(b" none");
    }
    for item in items {
        page.add(b" ");
        put_item(alloc, page, *item);
    }
}

/// The next transaction, those that are open and those that are rolled back, and the secondary log.
pub fn put_open(alloc: Global, page: &mut Page, meta: &Meta) -> Result<(), OutOfMemory> {
    page.add_number("next ", meta.next());
    put_heads(page, "; open", &meta.opens(alloc)?);
    put_heads(page, "; aborted", &meta.aborted(alloc)?);
    put_items(alloc, page, meta.items());
    Ok(())
}
