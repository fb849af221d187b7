// What a fresh session finds in the files that a stop leaves, before undo and behind it.
ghost use Rattle.std.specs.Prelude.{◌≡◌, false, OnOk};

use crate::files::{Files, Mem, opened};
use crate::lines::looks_at;
use crate::logged::{gather, put_records};
use crate::opened::put_open;
use crate::page::Page;
use crate::run::{Order, Run, play_over};
use crate::told::put_reply;
use crate::trouble::Trouble;
use crate::undone::undo_over;
use ctr_log::Gathered;
use ctr_mem_disk::SilentDisk;
use std::alloc::Global;

/// What was found.
#[derive(Drop)]
pub struct Found {
    /// What is open.
    open: Page,
    /// What a session reads before undo.
    pub before: Run,
    /// The records of undo: the first, and the first behind them.
    undo: (u64, u64),
    /// What a session reads behind it.
    pub behind: Run,
    log: Gathered,
}

impl Found {
    pub fn new(alloc: Global) -> Found {
        Found {
            open: Page::new(alloc),
            before: Run::new(alloc),
            undo: (0, 0),
            behind: Run::new(alloc),
            log: Gathered::new(alloc),
        }
    }

    /// It in words: what is open, what is read of each table; and undo, and what is read behind it, where there was something to undo.
    pub fn put(&self, alloc: Global, page: &mut Page, names: &[u8]) {
        page.add(self.open.bytes());
        put_looks(page, names, &self.before);
        if self.undo.0 < self.undo.1 {
            page.add(b"; undo ");
            put_records(alloc, page, self.log.visits(), self.undo.0, self.undo.1);
            put_looks(page, names, &self.behind);
        }
    }
}

// What was read of each table.
fn put_looks(page: &mut Page, names: &[u8], run: &Run) {
    let names = names.split(|byte| *byte == b' ');
    for (name, entry) in names.zip(run.tape.iter().skip(1)) {
        page.add(b"; ");
        page.add(name);
        page.add(b" ");
        put_reply(page, &entry.reply);
    }
}

// A fresh session reads tables.
fn look(alloc: Global, store: &mut Mem, names: &[u8], run: &mut Run) -> Result<(), Trouble>
    requires going { store.old.stopped ≡ false }
    ensures going { OnOk result (store.new.stopped ≡ false) }
{
    let lines = looks_at(alloc, names)?;
    let order = Order {
        digits: b"",
        hardens: false,
    };
    play_over(alloc, store, lines, order, run)
}

// Looks at an open store.
fn look_over(alloc: Global, store: &mut Mem, names: &[u8], found: &mut Found) -> Result<(), Trouble>
    requires going { store.old.stopped ≡ false }
    ensures going { OnOk result (store.new.stopped ≡ false) }
{
    put_open(alloc, &mut found.open, store.meta())?;
    look(alloc, store, names, &mut found.before)?;
    found.undo = undo_over(alloc, store)?;
    look(alloc, store, names, &mut found.behind)
}

// The same over a store that was opened for that: the disk that it leaves, and how it went.
fn look_on(
    alloc: Global,
    store: Mem,
    names: &[u8],
    found: &mut Found,
) -> (SilentDisk, Result<(), Trouble>)
    requires going { store.stopped ≡ false }
{
    let mut store = store;
    let done = look_over(alloc, &mut store, names, found);
    (store.into_disk(), done)
}

// The records of the log that is left.
fn read_log(alloc: Global, disk: &mut SilentDisk, found: &mut Found) {
    let _read = gather(alloc, disk, &mut found.log);
}

/// Finds what is open in files, what a fresh session reads of these tables, what undo logs, and what is read behind it.
pub fn look_into(
    alloc: Global,
    files: &Files,
    names: &[u8],
    found: &mut Found,
) -> Result<(), Trouble> {
    let Some(store) = opened(alloc, files) else {
        return Err(Trouble::NotOpened);
    };
    let (mut disk, done) = look_on(alloc, store, names, found);
    read_log(alloc, &mut disk, found);
    drop(disk);
    done
}

fn put_found(
    alloc: Global,
    page: &mut Page,
    files: &Files,
    names: &[u8],
    found: &mut Found,
) -> Result<(), Trouble> {
    look_into(alloc, files, names, found)?;
    found.put(alloc, page, names);
    Ok(())
}

/// Prints what is found in files.
pub fn put_look(
    alloc: Global,
    page: &mut Page,
    files: &Files,
    names: &[u8],
) -> Result<(), Trouble> {
    let mut found = Found::new(alloc);
    let put = put_found(alloc, page, files, names, &mut found);
    drop(found);
    put
}
