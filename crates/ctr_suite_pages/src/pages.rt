// Steps on whole pages.
ghost use Rattle.std.specs.Prelude.{◌≡◌, false, OnOk};

use crate::told::Told;
use crate::turns::{Mem, ready};
use ctr_alloc::{NextFree, alloc, free, next_free};
use ctr_disk::StoreFault;
use ctr_heap::{format, link};
use ctr_page::{Header, PageKind};

/// The next free page, and its allocation.
pub fn take(store: &mut Mem, x: u64) -> Result<Told, StoreFault>
    requires going { store.old.stopped ≡ false }
    ensures going { OnOk result (store.new.stopped ≡ false) }
{
    let p = match next_free(store)? {
        NextFree::Page(p) => p,
        NextFree::Grow => return Ok(Told::Grow),
        NextFree::Full => return Ok(Told::Full),
    };
    if !ready(store, 0, 1)? || p >= 30_000 {
        return Ok(Told::NotAsked);
    }
    alloc(store, x, p)?;
    Ok(Told::Number(p as u64))
}

/// A page is free again.
pub fn give_back(store: &mut Mem, page: u32) -> Result<Told, StoreFault>
    requires going { store.old.stopped ≡ false }
    ensures going { OnOk result (store.new.stopped ≡ false) }
{
    if !ready(store, 0, 0)? || page >= 30_000 {
        return Ok(Told::NotAsked);
    }
    free(store, page)?;
    Ok(Told::Done)
}

/// More pages are counted, so many times.
pub fn grow(store: &mut Mem, count: u64) -> Result<Told, StoreFault>
    requires going { store.old.stopped ≡ false }
    ensures going { OnOk result (store.new.stopped ≡ false) }
{
    if count == 0 || store.counted() >= 30_000 {
        return Ok(Told::Number(store.counted() as u64));
    }
    store.grow_extent()?;
    grow(store, count - 1)
}

/// The header of a page of rows.
pub fn rows_header(entry: u8, bucket: u8, next: u32) -> Header {
    Header {
        kind: PageKind::ROWS,
        entry,
        bucket,
        next,
    }
}

/// A page is empty, with this header.
pub fn make_empty(store: &mut Mem, x: u64, page: u32, header: Header) -> Result<Told, StoreFault>
    requires going { store.old.stopped ≡ false }
    ensures going { OnOk result (store.new.stopped ≡ false) }
{
    if !ready(store, 0, 0)? || page >= store.counted() {
        return Ok(Told::NotAsked);
    }
    format(store, x, page, &header)?;
    Ok(Told::Done)
}

/// A page is at the front of a bucket's chain, or of that of the versions.
pub fn put_in_front(
    store: &mut Mem,
    x: u64,
    page: u32,
    entry: u8,
    bucket: Option<u8>,
) -> Result<Told, StoreFault>
    requires going { store.old.stopped ≡ false }
    ensures going { OnOk result (store.new.stopped ≡ false) }
{
    if page >= 30_000 || entry >= 32 || bucket.is_some_and(|bucket| bucket >= 8) {
        return Ok(Told::NotAsked);
    }
    if !ready(store, 0, 0)? {
        return Ok(Told::NotAsked);
    }
    link(store, x, page, entry, bucket)?;
    Ok(Told::Done)
}
