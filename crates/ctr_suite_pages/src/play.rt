// What a case's steps do, one after another.
ghost use Rattle.std.specs.Prelude.{◌≡◌, false, IsTrue, OnOk};

use crate::catalog::{changer, drop_entry, make, named, undo};
use crate::files::{alter_page, count_pages, files_of, made, opened};
use crate::pages::{give_back, grow, make_empty, put_in_front, rows_header, take};
use crate::player::Player;
use crate::reads::{cost, newest_of, read};
use crate::rows::{fill, first, found, put, room, sought};
use crate::steps::{OutsideStep, PageStep, RowStep, Step, TableStep, TurnStep, VersionStep};
use crate::suite::Line;
use crate::told::Told;
use crate::turns::{Mem, abort, begin, commit, settle};
use crate::versions::{add_page, entry as entry_at, lay, lent, put_off, revert, slot, spare, trim};
use crate::writes::{write, write_each};
use ctr_disk::StoreFault;
use ctr_mem_disk::Image;
use ctr_page::Place;
use std::alloc::AllocError;

// A step of transactions and snapshots.
fn play_turn(store: &mut Mem, player: &mut Player, step: TurnStep) -> Result<Told, StoreFault>
    requires going { store.old.stopped ≡ false }
    ensures going { OnOk result (store.new.stopped ≡ false) }
{
    match step {
        TurnStep::Begin => {
            let told = begin(store)?;
            if let Told::Number(x) = told {
                player.x = x;
            }
            Ok(told)
        }
        TurnStep::Commit => commit(store, player.x),
        TurnStep::Abort => abort(store, player.x),
        TurnStep::Heads { x } => Ok(Told::Number(store.meta().heads(x))),
        TurnStep::Snap { number } => Ok(player.take_snapshot(store, number)),
    }
}

// Takes the next free page so many times, and says each but the last.
fn take_some(store: &mut Mem, player: &mut Player, count: u64) -> Result<Told, StoreFault>
    requires going { store.old.stopped ≡ false }
    ensures going { OnOk result (store.new.stopped ≡ false) }
{
    let told = take(store, player.x)?;
    if count <= 1 {
        return Ok(told);
    }
    player.page.say(told);
    take_some(store, player, count - 1)
}

// A step on whole pages.
fn play_page(store: &mut Mem, player: &mut Player, step: PageStep) -> Result<Told, StoreFault>
    requires going { store.old.stopped ≡ false }
    ensures going { OnOk result (store.new.stopped ≡ false) }
{
    match step {
        PageStep::Take { count } => take_some(store, player, count),
        PageStep::Free { page } => give_back(store, page),
        PageStep::Grow { count } => grow(store, count),
        PageStep::Format {
            page,
            entry,
            bucket,
            next,
        } => make_empty(store, player.x, page, rows_header(entry, bucket, next)),
        PageStep::Link {
            page,
            entry,
            bucket,
        } => put_in_front(store, player.x, page, entry, Some(bucket)),
    }
}

// A step on the catalog.
fn play_table(store: &mut Mem, player: &mut Player, step: TableStep) -> Result<Told, StoreFault>
    requires going { store.old.stopped ≡ false }
    ensures going { OnOk result (store.new.stopped ≡ false) }
{
    let alloc = player.alloc;
    match step {
        TableStep::Create { name, kinds } => make(alloc, store, player.x, name, &kinds),
        TableStep::Drop { entry } => drop_entry(store, player.x, entry),
        TableStep::Undo => undo(store),
        TableStep::Name { name, own } => match player.snapshot(0) {
            Some(snapshot) => named(alloc, store, name, snapshot, player.as_own(own)),
            None => Ok(Told::NotAsked),
        },
        TableStep::Changed { entry, name } => match player.snapshot(0) {
            Some(snapshot) => changer(alloc, store, entry, name, snapshot),
            None => Ok(Told::NotAsked),
        },
        TableStep::First { entry, bucket } => first(store, entry, bucket),
    }
}

// A read by the snapshot of a number.
fn read_by(
    store: &mut Mem,
    player: &Player,
    place: Place,
    number: usize,
    own: bool,
) -> Result<Told, StoreFault>
    requires going { store.old.stopped ≡ false }
    ensures going { OnOk result (store.new.stopped ≡ false) }
{
    match player.snapshot(number) {
        Some(snapshot) => read(player.alloc, store, place, snapshot, player.as_own(own)),
        None => Ok(Told::NotAsked),
    }
}

// A step on rows.
fn play_row(store: &mut Mem, player: &mut Player, step: RowStep) -> Result<Told, StoreFault>
    requires going { store.old.stopped ≡ false }
    ensures going { OnOk result (store.new.stopped ≡ false) }
{
    let x = player.x;
    match step {
        RowStep::Put { entry, width, key } => { put(store, x, entry, width, key) }
        RowStep::Fill {
            entry,
            width,
            from,
            count,
        } => fill(store, x, entry, width, from, count),
        RowStep::Find { entry, key } => found(store, entry, key),
        RowStep::Seek { entry, from, count } => sought(store, entry, from, count),
        RowStep::Room { entry, bucket } => room(store, entry, bucket),
        RowStep::Write(row) => write(store, x, row),
        RowStep::Each { row, count } => write_each(store, row, count),
        RowStep::Read { place, number, own } => read_by(store, player, place, number, own),
        RowStep::Newest { place } => newest_of(store, place),
    }
}

// A step on versions.
fn play_version(store: &mut Mem, player: &mut Player, step: VersionStep) -> Result<Told, StoreFault>
    requires going { store.old.stopped ≡ false }
    ensures going { OnOk result (store.new.stopped ≡ false) }
{
    match step {
        VersionStep::Versions { entry } => add_page(store, player.x, entry),
        VersionStep::Spare { entry } => spare(store, entry),
        VersionStep::Row(slot) => lay(store, player.x, slot),
        VersionStep::Keep(entry) => put_off(store, player.x, entry),
        VersionStep::Trim { place } => trim(store, place),
        VersionStep::Revert { place } => revert(store, place),
        VersionStep::Slot { place, width } => slot(store, place, width),
        VersionStep::Entry { place } => entry_at(store, place),
        VersionStep::Lent { place } => lent(store, place),
    }
}

// A step on an open store; one that is done outside answers nothing there.
fn play_step(store: &mut Mem, player: &mut Player, step: Step) -> Result<Option<Told>, StoreFault>
    requires going { store.old.stopped ≡ false }
    ensures going { OnOk result (store.new.stopped ≡ false) }
{
    let told = match step {
        Step::Turn(step) => play_turn(store, player, step),
        Step::Page(step) => play_page(store, player, step),
        Step::Table(step) => play_table(store, player, step),
        Step::Row(step) => play_row(store, player, step),
        Step::Version(step) => play_version(store, player, step),
        Step::Outside(_) => return Ok(None),
    };
    Ok(Some(told?))
}

// The step of a line on an open store; whether the case goes on.
fn play_line(store: &mut Mem, player: &mut Player, line: &Line) -> bool
    requires going { store.old.stopped ≡ false }
    ensures going { IsTrue result → store.new.stopped ≡ false }
{
    match play_step(store, player, line.step) {
        Ok(Some(told)) => player.end_step(line, Some(told)),
        Ok(None) => {}
        Err(fault) => {
            player.end_step(line, Some(Told::Fault(fault)));
            return false;
        }
    }
    true
}

// The lines of a case on an open store, which is written home behind them; whether the case goes on.
fn play_lines(store: &mut Mem, player: &mut Player, lines: &[Line]) -> bool
    requires going { store.old.stopped ≡ false }
{
    for line in lines {
        if !play_line(store, player, line) {
            return false;
        }
    }
    settle(store)
}

// The same on a store that was opened over files. They are then as it leaves them.
fn play_on(store: Mem, files: &mut Image, player: &mut Player, lines: &[Line]) -> bool
    requires going { store.stopped ≡ false }
{
    let mut store = store;
    let goes_on = play_lines(&mut store, player, lines);
    *files = files_of(store);
    goes_on
}

// A step that is done while the database isn't open.
fn play_outside(
    files: &mut Image,
    player: &mut Player,
    step: OutsideStep,
) -> Result<Option<Told>, AllocError> {
    match step {
        OutsideStep::Alter {
            page,
            at,
            byte,
            count,
        } => alter_page(player.alloc, files, page, at, byte, count)?,
        OutsideStep::Count { pages } => count_pages(player.alloc, files, pages)?,
        OutsideStep::Cost { place, number } => {
            let Some(snapshot) = player.snapshot(number) else {
                return Ok(Some(Told::NotAsked));
            };
            return Ok(Some(cost(player.alloc, files, place, snapshot)));
        }
    }
    Ok(None)
}

// The last line of a part, where its step is done outside; whether the case goes on.
fn play_last(files: &mut Image, player: &mut Player, line: &Line) -> bool {
    let Step::Outside(step) = line.step else {
        return true;
    };
    match play_outside(files, player, step) {
        Ok(told) => player.end_step(line, told),
        Err(_) => {
            player.end_step(line, Some(Told::NoMemory));
            return false;
        }
    }
    true
}

// Lines of a case of which the last one alone may be done outside; whether the case goes on.
fn play_part(files: &mut Image, player: &mut Player, lines: &[Line]) -> bool {
    let (Some(first), Some(last)) = (lines.first(), lines.last()) else {
        return true;
    };
    match opened(player.alloc, files) {
        Some(store) => play_on(store, files, player, lines) && play_last(files, player, last),
        None => {
            player.end_step(first, Some(Told::NotOpened));
            false
        }
    }
}

// The lines of a case, over these files.
fn play_parts(files: &mut Image, player: &mut Player, lines: &[Line]) {
    for part in lines.split_inclusive(|line| line.step.is_outside()) {
        if !play_part(files, player, part) {
            return;
        }
    }
}

// The same over the files of a new database.
fn play_new(player: &mut Player, lines: &[Line]) -> Result<(), AllocError> {
    let mut files = made(player.alloc)?;
    play_parts(&mut files, player, lines);
    drop(files);
    Ok(())
}

/// Plays a case.
pub fn play_case(player: &mut Player, name: &[u8], lines: &[Line]) {
    player.begin_case();
    let _played = play_new(player, lines);
    player.end_case(name, lines);
}
