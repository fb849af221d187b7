// What the stops of a run leave, each opened and looked at.
use crate::files::Files;
use crate::judged::{answered_by, commits_seen};
use crate::looked::{Found, look_into, put_look};
use crate::page::Page;
use crate::run::Run;
use crate::trouble::Trouble;
use ctr_mem_disk::{Call, MemDisk, Recorded};
use ctr_model::State;
use std::alloc::{AllocError, Global};

/// How many images of each stop are looked at.
const EACH: u64 = 9;

/// How the stops of a run are looked at: its disk, whether stores have few frames, and the tables that are read.
#[derive(Clone, Copy)]
pub struct Looking<'a> {
    pub disk: &'a MemDisk,
    pub few: bool,
    pub names: &'a [u8],
}

// How many calls the disk had had by a moment.
fn calls_by(calls: &[Recorded], moment: u64) -> usize {
    let mut count = 0usize;
    for call in calls {
        if call.moment <= moment {
            count = count.saturating_add(1);
        }
    }
    count
}

// What is looked at of a stop: the files that it leaves, by the number of an image.
fn files_after(looking: Looking, count: usize, k: u64) -> Result<Files, AllocError> {
    let image = looking.disk.image_after(count, k)?;
    Ok(Files {
        image,
        few: looking.few,
    })
}

/// What a run leaves at its end, of what is synced.
pub fn files_at_end(looking: Looking) -> Result<Files, AllocError> {
    files_after(looking, looking.disk.calls().len(), 0)
}

/// What a stop at a moment leaves, of what is synced.
pub fn files_by(looking: Looking, moment: u64) -> Result<Files, AllocError> {
    files_after(looking, calls_by(looking.disk.calls(), moment), 0)
}

// What a crash leaves of which nothing is written but what is synced.
fn put_stop(alloc: Global, page: &mut Page, looking: Looking, moment: u64) -> Result<(), Trouble> {
    let files = files_by(looking, moment)?;
    let put = put_look(alloc, page, &files, looking.names);
    drop(files);
    put
}

/// Turns behind which a stop leaves the same.
#[derive(Drop)]
struct Group {
    from: u64,
    to: u64,
    text: Page,
}

impl Group {
    // The turns of the group, and what is left.
    fn put(&self, page: &mut Page) {
        page.add_number("stop ", self.from);
        if self.from < self.to {
            page.add_number(" to ", self.to);
        }
        page.add(b": ");
        page.add(self.text.bytes());
        page.add(b"\n");
    }

    // One turn more, behind which this is left.
    fn take(&mut self, page: &mut Page, turn: u64, text: Page) {
        if text.bytes() == self.text.bytes() {
            self.to = turn;
            return;
        }
        self.put(page);
        self.from = turn;
        self.to = turn;
        self.text = text;
    }
}

// What a stop at a moment leaves, in words.
fn stop_text(alloc: Global, looking: Looking, moment: u64) -> Result<Page, Trouble> {
    let mut text = Page::new(alloc);
    match put_stop(alloc, &mut text, looking, moment) {
        Ok(()) => Ok(text),
        Err(trouble) => Err(trouble),
    }
}

// What a stop behind a turn leaves.
fn take_stop(
    alloc: Global,
    page: &mut Page,
    group: &mut Group,
    looking: Looking,
    turn: u64,
    moment: u64,
) -> Result<(), Trouble> {
    let text = stop_text(alloc, looking, moment)?;
    group.take(page, turn, text);
    Ok(())
}

// What stops behind the turns of a run leave, from the first on.
fn take_stops(
    alloc: Global,
    page: &mut Page,
    group: &mut Group,
    looking: Looking,
    run: &Run,
) -> Result<(), Trouble> {
    let mut turn = 0u64;
    for noted in &run.notes {
        turn = turn.saturating_add(1);
        take_stop(alloc, page, group, looking, turn, noted.moment)?;
    }
    Ok(())
}

/// Prints what a stop leaves before the first turn of a run and behind each, where nothing is written but what is synced.
pub fn put_stops(
    alloc: Global,
    page: &mut Page,
    looking: Looking,
    run: &Run,
) -> Result<(), Trouble> {
    let text = stop_text(alloc, looking, 0)?;
    let mut group = Group {
        from: 0,
        to: 0,
        text,
    };
    let done = take_stops(alloc, page, &mut group, looking, run);
    group.put(page);
    drop(group);
    done
}

/// What stops of a run are judged by: its tape, and the state that this leads to.
#[derive(Clone, Copy)]
pub struct Judging<'a> {
    pub looking: Looking<'a>,
    pub run: &'a Run,
    pub state: &'a State,
}

// Whether what was found are the rows behind commits, as many as were answered at least, before undo and behind it.
fn is_found(alloc: Global, judging: Judging, least: u64, found: &Found) -> Result<bool, Trouble> {
    match commits_seen(alloc, judging.state, least, &found.before)? {
        None => Ok(false),
        Some(number) => {
            let behind = commits_seen(alloc, judging.state, number, &found.behind)?;
            Ok(behind.is_some() && found.behind.stuck.is_empty())
        }
    }
}

fn are_found_well(
    alloc: Global,
    judging: Judging,
    least: u64,
    files: &Files,
    found: &mut Found,
) -> Result<bool, Trouble> {
    if look_into(alloc, files, judging.looking.names, found).is_err() {
        return Ok(false);
    }
    is_found(alloc, judging, least, found)
}

/// Whether files have the rows behind commits, as many as were answered at least, before undo and behind it.
pub fn are_files_well(
    alloc: Global,
    judging: Judging,
    least: u64,
    files: &Files,
) -> Result<bool, Trouble> {
    let mut found = Found::new(alloc);
    let well = are_found_well(alloc, judging, least, files, &mut found);
    drop(found);
    well
}

// The disk's moment after so many calls.
fn moment_after(calls: &[Recorded], count: usize) -> u64 {
    match count.checked_sub(1) {
        None => 0,
        Some(last) => match calls.get(last) {
            None => u64::MAX,
            Some(call) => call.moment,
        },
    }
}

/// Whether the image of a number, of what a crash leaves after so many calls, has the rows behind commits, as many as were answered by
/// then at least, before undo and behind it.
pub fn is_left_well(
    alloc: Global,
    judging: Judging,
    count: usize,
    k: u64,
) -> Result<bool, Trouble> {
    let files = files_after(judging.looking, count, k)?;
    let moment = moment_after(judging.looking.disk.calls(), count);
    let least = answered_by(&judging.run.tape, moment);
    let well = are_files_well(alloc, judging, least, &files);
    drop(files);
    well
}

// How many images of a stop after so many calls are wrong.
fn wrong_after(alloc: Global, judging: Judging, count: usize) -> Result<u64, Trouble> {
    let mut wrong = 0u64;
    for k in 0..EACH {
        if !is_left_well(alloc, judging, count, k)? {
            wrong = wrong.saturating_add(1);
        }
    }
    Ok(wrong)
}

// Whether a call may leave other files than it found.
fn is_change(call: &Recorded) -> bool {
    matches!(&call.call, Call::Write { .. } | Call::Sync)
}

/// How many images are wrong, of the stops after each call of the disk by which files may change.
pub fn count_wrong(alloc: Global, judging: Judging) -> Result<u64, Trouble> {
    let mut wrong = 0u64;
    for (at, call) in judging.looking.disk.calls().iter().enumerate() {
        if is_change(call) {
            wrong = wrong.saturating_add(wrong_after(alloc, judging, at.saturating_add(1))?);
        }
    }
    Ok(wrong)
}
