// Whether nothing is left to clean in files, by what their bytes say: each used slot of a live table has one version, which is no
// tombstone; no version entry is used; nothing is open, rolled back or owed; and no table is dead.
ghost use Rattle.std.specs.Prelude.{◌≡◌, ◌<◌, false, OnOk};

use crate::cleaned::clean_files;
use crate::files::{Files, Mem, opened};
use crate::judged::answered_by;
use crate::stops::{Judging, are_files_well, files_at_end};
use crate::trouble::Trouble;
use crate::undone::undo_files;
use ctr_log::Gathered;
use ctr_mem_disk::SilentDisk;
use std::alloc::Global;

/// Where fields stand in an entry of the catalog, whose first byte is its state.
const ENTRY: usize = 256;

const ON_PAGE: usize = 16;

const COLUMNS_AT: usize = 34;

const KIND_AT: usize = 52;

const COLUMN: usize = 18;

const LIVE: u8 = 1;

/// The first slot or version entry of a page; and in these the tombstone, and the first byte behind the head's payload less its width.
const FIRST_AT: usize = 16;

const TOMBSTONE_AT: usize = 17;

const HEAD: usize = 18;

/// The widest payload with a previous version in the slot.
const WIDEST_PAIR: usize = 200;

/// The widest payload.
const WIDEST: usize = 2_048;

/// The kinds of pages.
const ROWS: u8 = 1;

const VERSIONS: u8 = 2;

/// How many passes of the cleaner there are at most until one finds nothing.
const PASSES: u32 = 8;

// What is left, in words; none where nothing is.
type Left = Option<&'static str>;

// The tables: the state of each entry, and the width of its rows.
#[derive(Clone, Copy)]
struct Widths {
    states: [u8; 32],
    widths: [usize; 32],
}

fn byte(bytes: &[u8], at: usize) -> u8 {
    *bytes.get(at).unwrap_or(&0)
}

// Whether so many bytes from a place on are zeros.
fn are_zeros(bytes: &[u8], from: usize, count: usize) -> bool {
    for at in from..from.saturating_add(count) {
        if byte(bytes, at) != 0 {
            return false;
        }
    }
    true
}

// The width of a column by its kind.
fn column_width(kind: u8) -> usize {
    if kind == 0 { 8 } else { kind as usize + 1 }
}

// The width of the rows of a table, by an entry's bytes: that of each column but the key.
fn width_in(entry: &[u8]) -> usize {
    let mut width = 0usize;
    for column in 1..byte(entry, COLUMNS_AT).min(8) as usize {
        width = width.saturating_add(column_width(byte(entry, KIND_AT + COLUMN * column)));
    }
    width
}

// Reads the entries of a page of the catalog.
fn read_entries(page: &[u8], from: usize, tables: &mut Widths) {
    for at in 0..ON_PAGE {
        let entry = page.get(ENTRY * at..ENTRY * at + ENTRY).unwrap_or(&[]);
        let number = from.saturating_add(at) % 32;
        tables.states[number] = byte(entry, 0);
        tables.widths[number] = width_in(entry);
    }
}

fn widths_of(store: &mut Mem) -> Result<Widths, Trouble>
    requires going { store.old.stopped ≡ false }
    ensures going { OnOk result (store.new.stopped ≡ false) }
{
    let mut tables = Widths {
        states: [0; 32],
        widths: [0; 32],
    };
    read_entries(store.page(1)?, 0, &mut tables);
    read_entries(store.page(2)?, ON_PAGE, &mut tables);
    Ok(tables)
}

// What is left in a slot so wide.
fn left_in_slot(slot: &[u8], width: usize) -> Left {
    if byte(slot, 0) == 0 {
        return None;
    }
    if byte(slot, TOMBSTONE_AT) != 0 {
        return Some("a deleted row");
    }
    // behind the head stand the previous version, where there is room for one, and the page of the next older one
    let behind = HEAD.saturating_add(width);
    if are_zeros(slot, behind, slot.len().saturating_sub(behind)) {
        None
    } else {
        Some("a version more")
    }
}

// The bytes of a slot of rows so wide.
fn slot_size(width: usize) -> usize
    ensures some { 0 < result }
{
    let width = width.min(WIDEST);
    if width <= WIDEST_PAIR {
        33 + 2 * width
    } else {
        24 + width
    }
}

// The bytes of a version entry of rows so wide.
fn kept_size(width: usize) -> usize
    ensures some { 0 < result }
{
    24 + width.min(WIDEST)
}

// What is left in the slots of a page.
fn left_in_rows(page: &[u8], width: usize) -> Left {
    for slot in page
        .get(FIRST_AT..)
        .unwrap_or(&[])
        .chunks_exact(slot_size(width))
    {
        if let Some(left) = left_in_slot(slot, width) {
            return Some(left);
        }
    }
    None
}

// What is left in the version entries of a page.
fn left_in_versions(page: &[u8], width: usize) -> Left {
    for entry in page
        .get(FIRST_AT..)
        .unwrap_or(&[])
        .chunks_exact(kept_size(width))
    {
        if byte(entry, 0) != 0 {
            return Some("a version entry");
        }
    }
    None
}

// What is left on a page that is taken, by its header.
fn left_on(page: &[u8], tables: &Widths) -> Left {
    let number = byte(page, 1) as usize % 32;
    let width = tables.widths[number];
    match byte(page, 0) {
        ROWS => left_in_rows(page, width),
        VERSIONS => left_in_versions(page, width),
        _ => Some("a page that is taken, and of no table"),
    }
}

// Whether a page is taken.
fn is_taken(store: &mut Mem, p: u32) -> Result<bool, Trouble>
    requires going { store.old.stopped ≡ false }
    ensures going { OnOk result (store.new.stopped ≡ false) }
{
    let bits = byte(store.page(0)?, (p / 8) as usize);
    Ok(bits & (1u8 << (p % 8)) != 0)
}

// What is left on a page.
fn left_at(store: &mut Mem, tables: &Widths, p: u32) -> Result<Left, Trouble>
    requires going { store.old.stopped ≡ false }
    ensures going { OnOk result (store.new.stopped ≡ false) }
{
    if !is_taken(store, p)? {
        return Ok(None);
    }
    Ok(left_on(store.page(p)?, tables))
}

// What is left on the pages behind the catalog.
fn left_on_pages(store: &mut Mem, tables: &Widths) -> Result<Left, Trouble>
    requires going { store.old.stopped ≡ false }
    ensures going { OnOk result (store.new.stopped ≡ false) }
{
    for p in 3..store.counted() {
        let left = left_at(store, tables, p)?;
        if left.is_some() {
            return Ok(left);
        }
    }
    Ok(None)
}

// Whether each entry of the catalog is free or live.
fn are_live(tables: &Widths) -> bool {
    tables.states.iter().all(|state| *state <= LIVE)
}

// Whether nothing is open, rolled back or owed.
fn is_at_rest(alloc: Global, store: &Mem) -> Result<bool, Trouble> {
    let meta = store.meta();
    let opens = meta.opens(alloc)?;
    let aborted = meta.aborted(alloc)?;
    Ok(opens.is_empty() && aborted.is_empty() && meta.items().is_empty())
}

// What is left in a store.
fn left_over(alloc: Global, store: &mut Mem) -> Result<Left, Trouble>
    requires going { store.old.stopped ≡ false }
    ensures going { OnOk result (store.new.stopped ≡ false) }
{
    if !is_at_rest(alloc, store)? {
        return Ok(Some("a transaction or an item"));
    }
    let tables = widths_of(store)?;
    if !are_live(&tables) {
        return Ok(Some("a dead table"));
    }
    left_on_pages(store, &tables)
}

// The same over a store that was opened for that.
fn left_by(alloc: Global, store: Mem) -> (SilentDisk, Result<Left, Trouble>)
    requires going { store.stopped ≡ false }
{
    let mut store = store;
    let left = left_over(alloc, &mut store);
    (store.into_disk(), left)
}

/// What is left to clean in files, in words; none where nothing is.
pub fn left_in(alloc: Global, files: &Files) -> Result<Left, Trouble> {
    let Some(store) = opened(alloc, files) else {
        return Err(Trouble::NotOpened);
    };
    let (disk, left) = left_by(alloc, store);
    drop(disk);
    left
}

// Undoes what is open in files, and goes over them with the cleaner until a pass finds nothing.
fn clean_up(alloc: Global, files: &mut Files, log: &mut Gathered) -> Result<(), Trouble> {
    let _undone = undo_files(alloc, files, log)?;
    for _ in 0..PASSES {
        let (from, to) = clean_files(alloc, files, log)?;
        if from == to {
            return Ok(());
        }
    }
    Err(Trouble::NotOver)
}

fn cleaned_up(alloc: Global, files: &mut Files) -> Result<(), Trouble> {
    let mut log = Gathered::new(alloc);
    let done = clean_up(alloc, files, &mut log);
    drop(log);
    done
}

// Whether files are bare behind that, with the rows behind all commits of a run.
fn is_bare_in(alloc: Global, judging: Judging, files: &mut Files) -> Result<bool, Trouble> {
    cleaned_up(alloc, files)?;
    if left_in(alloc, files)?.is_some() {
        return Ok(false);
    }
    let all = answered_by(&judging.run.tape, u64::MAX);
    are_files_well(alloc, judging, all, files)
}

/// Whether the files that a run leaves are bare once what is open in them is undone and the cleaner is through, with the rows behind all
/// of the run's commits.
pub fn is_bare_behind(alloc: Global, judging: Judging) -> Result<bool, Trouble> {
    let mut files = files_at_end(judging.looking)?;
    let bare = is_bare_in(alloc, judging, &mut files);
    drop(files);
    bare
}
