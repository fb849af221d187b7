// The records of a log as text.
ghost use Rattle.std.specs.Prelude.{◌≡◌};

use crate::page::Page;
use ctr_disk::Disk;
use ctr_home::read_root;
use ctr_log::{Gathered, Visit, read_all};
use ctr_mem_disk::SilentDisk;
use ctr_rec::{Overlay, Record, SlogItem, decode};
use std::alloc::{AllocError, Global};

/// The records of the log that a disk holds; none where it can't be read.
pub fn gather<D: Disk>(alloc: Global, disk: &mut D, into: &mut Gathered) -> bool {
    match read_root(disk) {
        Ok(Some(root)) => read_all(alloc, disk, &root, into).is_ok(),
        _ => false,
    }
}

// A record that has a transaction or a page alone, or both.
fn plain_text(alloc: Global, rec: &Record) -> Option<Result<String, AllocError>> {
    let text = match rec {
        Record::Checkpoint { next, lists: _ } => format!(in alloc; "Checkpoint {next}"),
        Record::Begin { x } => format!(in alloc; "Begin {x}"),
        Record::Commit { x } => format!(in alloc; "Commit {x}"),
        Record::Abort { x } => format!(in alloc; "Abort {x}"),
        Record::Forget { x } => format!(in alloc; "Forget {x}"),
        Record::Alloc { x, p, overlay: _ } => format!(in alloc; "Alloc {x} page {p}"),
        Record::Format { x, p, overlay: _ } => format!(in alloc; "Format {x} page {p}"),
        Record::Link { x, p, overlay: _ } => format!(in alloc; "Link {x} page {p}"),
        Record::Free { p, overlay: _ } => format!(in alloc; "Free page {p}"),
        Record::Unlink { p, overlay: _ } => format!(in alloc; "Unlink page {p}"),
        Record::Create { x, e, overlay: _ } => format!(in alloc; "Create {x} entry {e}"),
        Record::Uncreate { e, overlay: _ } => format!(in alloc; "Uncreate entry {e}"),
        Record::Drop { x, e, overlay: _ } => format!(in alloc; "Drop {x} entry {e}"),
        Record::Undrop { e, overlay: _ } => format!(in alloc; "Undrop entry {e}"),
        _ => return None,
    };
    Some(text)
}

// The place of an overlay: page and byte.
fn put_place(page: &mut Page, overlay: &Overlay) {
    page.add_number(" at ", u64::from(overlay.page));
    page.add_number(".", u64::from(overlay.offset));
}

// A record of versions, with its place.
fn put_version(page: &mut Page, rec: &Record) {
    match rec {
        Record::Row { x, over, overlay } => {
            page.add_number("Row ", *x);
            page.add_number(" over ", *over);
            put_place(page, overlay);
        }
        Record::Keep { x, overlay } => {
            page.add_number("Keep ", *x);
            put_place(page, overlay);
        }
        Record::Revert { x, overlay } => {
            page.add_number("Revert ", *x);
            put_place(page, overlay);
        }
        Record::Trim { overlay } => {
            page.add(b"Trim");
            put_place(page, overlay);
        }
        _ => {}
    }
}

// A record.
fn put_record(alloc: Global, page: &mut Page, rec: &Record) {
    match plain_text(alloc, rec) {
        Some(Ok(text)) => page.add(text.as_bytes()),
        Some(Err(_)) => page.add(b"?"),
        None => put_version(page, rec),
    }
}

// A record by its bytes.
fn put_visit(alloc: Global, page: &mut Page, visit: &Visit) {
    match decode(visit.bytes.as_slice()) {
        Ok(rec) => put_record(alloc, page, &rec),
        Err(_) => page.add(b"?"),
    }
}

/// The records from this number on up to another, with commas between; how many there are.
pub fn put_records(alloc: Global, page: &mut Page, log: &[Visit], from: u64, to: u64) -> u64 {
    let mut count = 0u64;
    for visit in log {
        if from <= visit.lsn && visit.lsn < to {
            if count > 0 {
                page.add(b", ");
            }
            put_visit(alloc, page, visit);
            count = count.saturating_add(1);
        }
    }
    count
}

/// An item of the secondary log.
pub fn put_item(alloc: Global, page: &mut Page, item: SlogItem) {
    let text = match item {
        SlogItem::AllocOf(x, p) => format!(in alloc; "AllocOf {x} page {p}"),
        SlogItem::FreeOf(p) => format!(in alloc; "FreeOf page {p}"),
        SlogItem::CreateOf(x, e) => format!(in alloc; "CreateOf {x} entry {e}"),
        SlogItem::DropOf(x, e) => format!(in alloc; "DropOf {x} entry {e}"),
    };
    match text {
        Ok(text) => page.add(text.as_bytes()),
        Err(_) => page.add(b"?"),
    }
}
