// A run under every stop, and under every failing call.
use crate::rested::wrong_rested;
use ctr_mem_disk::Image;
use ctr_suite_judge::{
    Ask, Engine, Found, Probe, Ran, Right, Setup, Wrong, answered_by, found_alone, found_in,
    led_from,
};
use ctr_suite_steps::{Page, one, set};
use ctr_types::OutOfMemory;
use std::alloc::Global;
use std::mem;

/// The status of a run that finds no database.
pub const NO_DATABASE: u8 = 3;

/// The images behind so many calls are held at once.
const PART: u64 = 32;

/// How many images held each number of commits, and how many were wrong.
#[derive(Drop)]
struct Tally {
    looked: u64,
    held: Vec<u64>,
    /// Images in which there was no database, rightly.
    without: u64,
    wrong: u64,
}

impl Tally {
    fn new(alloc: Global, right: &Right) -> Result<Tally, OutOfMemory> {
        let mut held = Vec::new(alloc);
        for _database in right.list.iter() {
            held.push(0)?;
        }
        Ok(Tally {
            looked: 0,
            held,
            without: 0,
            wrong: 0,
        })
    }

    // Counts what was found, where at least so many commits are owed, or may no database be there.
    fn count(&mut self, found: Found, least: usize, may_lack: bool) {
        self.looked = self.looked.saturating_add(1);
        match found {
            Found::Commits(number) if number >= least => match self.held.get_mut(number) {
                Some(held) => *held = held.saturating_add(1),
                None => self.wrong = self.wrong.saturating_add(1),
            },
            Found::Status(NO_DATABASE) if may_lack => {
                self.without = self.without.saturating_add(1);
            }
            _ => self.wrong = self.wrong.saturating_add(1),
        }
    }

    fn put(&self, alloc: Global, page: &mut Page) {
        page.put_number(alloc, "images ", self.looked);
        page.put(b":");
        for (number, held) in self.held.iter().enumerate() {
            page.put_number(alloc, " ", *held);
            page.put_number(alloc, " with ", number as u64);
            page.put(b",");
        }
        page.put_number(alloc, " no database ", self.without);
        page.put_number(alloc, ", wrong ", self.wrong);
        page.put(b"\n");
    }
}

// The clock after so many calls.
fn clock(start: u64, moments: &[u64], calls: usize) -> u64 {
    if calls == 0 {
        return start;
    }
    moments.get(calls - 1).copied().unwrap_or(start)
}

/// How many commits are owed after so many calls.
pub fn owed(setup: &Setup, ran: &Ran, right: &Right, calls: usize) -> usize {
    if ran.tape.entries.is_empty() {
        return right.least;
    }
    if calls >= ran.seen.moments.len() && ran.status == 0 {
        return right.list.len().saturating_sub(1);
    }
    let moment = clock(setup.moment, &ran.seen.moments, calls);
    answered_by(ran.tape.entries.as_slice(), moment)
}

// Judges each image of a run.
fn tally_of<E: Engine>(
    alloc: Global,
    setup: &Setup,
    right: &Right,
    was_none: bool,
    ran: &Ran,
    probe: &Probe,
    tally: &mut Tally,
) -> Result<(), OutOfMemory> {
    for taken in ran.seen.images.iter() {
        let calls = taken.calls as usize;
        let least = owed(setup, ran, right, calls);
        let may_lack = was_none && (calls < ran.seen.moments.len() || right.none);
        let found = found_in::<E>(alloc, right, probe, &taken.image)?;
        tally.count(found, least, may_lack);
    }
    Ok(())
}

/// Judges the images that a crash leaves after each number of calls of a run. The databases that are right are those
/// after it; before it there may have been none.
pub fn sweep_stops<E: Engine>(
    alloc: Global,
    setup: &Setup,
    right: &Right,
    was_none: bool,
    page: &mut Page,
) -> Result<(), OutOfMemory> {
    let mut tally = Tally::new(alloc, right)?;
    let done = tally_stops::<E>(alloc, setup, right, was_none, &mut tally);
    page.put(b"each stop: ");
    tally.put(alloc, page);
    drop(tally);
    done
}

fn tally_stops<E: Engine>(
    alloc: Global,
    setup: &Setup,
    right: &Right,
    was_none: bool,
    tally: &mut Tally,
) -> Result<(), OutOfMemory> {
    let calls = calls_of::<E>(alloc, setup)?;
    let probe = Probe::new(alloc, right)?;
    let done = tally_parts::<E>(alloc, setup, right, was_none, calls, &probe, tally);
    drop(probe);
    done
}

fn tally_parts<E: Engine>(
    alloc: Global,
    setup: &Setup,
    right: &Right,
    was_none: bool,
    calls: u64,
    probe: &Probe,
    tally: &mut Tally,
) -> Result<(), OutOfMemory> {
    for part in 0..=calls / PART {
        tally_part::<E>(alloc, setup, right, was_none, part, probe, tally)?;
    }
    Ok(())
}

// The images behind the calls of a part.
fn part_of(part: u64) -> Ask {
    let from = part.saturating_mul(PART);
    Ask::Between(from, from.saturating_add(PART - 1))
}

fn tally_part<E: Engine>(
    alloc: Global,
    setup: &Setup,
    right: &Right,
    was_none: bool,
    part: u64,
    probe: &Probe,
    tally: &mut Tally,
) -> Result<(), OutOfMemory> {
    let ran = E::play(alloc, setup, part_of(part))?;
    let done = tally_of::<E>(alloc, setup, right, was_none, &ran, probe, tally);
    drop(ran);
    done
}

/// How many stops and images were looked at, how many images were wrong, and what was wrong with the first of these.
#[derive(Clone, Copy)]
pub struct Swept {
    pub stops: u64,
    pub images: u64,
    pub wrong: u64,
    pub first: Wrong,
}

impl Swept {
    pub fn new() -> Swept {
        Swept {
            stops: 0,
            images: 0,
            wrong: 0,
            first: None,
        }
    }

    // Counts an image, and a stop where it is the first one there.
    fn count(&mut self, is_stop: bool, wrong: Wrong) {
        self.images = self.images.saturating_add(1);
        if is_stop {
            self.stops = self.stops.saturating_add(1);
        }
        if wrong.is_some() {
            self.wrong = self.wrong.saturating_add(1);
            self.first = self.first.or(wrong);
        }
    }
}

// What is wrong with an image of a run, where at least so many commits are owed: it holds no prefix of them, or isn't undone and clean in the end.
fn judge_image<E: Engine>(
    alloc: Global,
    right: &Right,
    probe: &Probe,
    image: &Image,
    least: usize,
) -> Result<Wrong, OutOfMemory> {
    match found_in::<E>(alloc, right, probe, image)? {
        Found::Commits(number) if number >= least => {
            wrong_rested::<E>(alloc, right, probe, image, number)
        }
        _ => Ok(Some("other rows")),
    }
}

// Judges each image of a run.
fn judge_images<E: Engine>(
    alloc: Global,
    setup: &Setup,
    right: &Right,
    ran: &Ran,
    probe: &Probe,
    swept: &mut Swept,
) -> Result<(), OutOfMemory> {
    let mut last = u64::MAX;
    for taken in ran.seen.images.iter() {
        let least = owed(setup, ran, right, taken.calls as usize);
        let wrong = judge_image::<E>(alloc, right, probe, &taken.image, least)?;
        swept.count(taken.calls != last, wrong);
        last = taken.calls;
    }
    Ok(())
}

fn judge_part<E: Engine>(
    alloc: Global,
    setup: &Setup,
    right: &Right,
    part: u64,
    probe: &Probe,
    swept: &mut Swept,
) -> Result<(), OutOfMemory> {
    let ran = E::play(alloc, setup, part_of(part))?;
    let done = judge_images::<E>(alloc, setup, right, &ran, probe, swept);
    drop(ran);
    done
}

fn judge_parts<E: Engine>(
    alloc: Global,
    setup: &Setup,
    right: &Right,
    calls: u64,
    probe: &Probe,
    swept: &mut Swept,
) -> Result<(), OutOfMemory> {
    for part in 0..=calls / PART {
        judge_part::<E>(alloc, setup, right, part, probe, swept)?;
    }
    Ok(())
}

/// Judges the images that a crash leaves after each number of calls of a run, each also behind undo and the cleaner.
pub fn sweep_rested<E: Engine>(
    alloc: Global,
    setup: &Setup,
    right: &Right,
    swept: &mut Swept,
) -> Result<(), OutOfMemory> {
    let calls = calls_of::<E>(alloc, setup)?;
    let probe = Probe::new(alloc, right)?;
    let done = judge_parts::<E>(alloc, setup, right, calls, &probe, swept);
    drop(probe);
    done
}

/// How a run ended whose call failed, as far as a line tells it.
#[derive(Clone, Copy, PartialEq, Eq)]
struct Failing {
    status: u8,
    answered: usize,
    /// The number of commits that were found, or what was wrong.
    held: Option<usize>,
    without: bool,
}

fn put_failing(alloc: Global, page: &mut Page, first: u64, last: u64, failing: Failing) {
    page.put_number(alloc, "call ", first);
    if last > first {
        page.put_number(alloc, " to ", last);
    }
    page.put_number(alloc, " fails: status ", failing.status as u64);
    page.put_number(alloc, ", answered ", failing.answered as u64);
    match failing.held {
        Some(number) => page.put_number(alloc, ", holds ", number as u64),
        None if failing.without => page.put(b", no database"),
        None => page.put(b", WRONG"),
    }
    page.put(b"\n");
}

// What is right after a run, if its text and its tape are.
fn right_after<E: Engine>(
    alloc: Global,
    before: &Right,
    setup: &Setup,
    ran: &Ran,
) -> Result<Option<Right>, OutOfMemory> {
    if ran.text.as_slice() != ran.seen.printing.as_slice() {
        return Ok(None);
    }
    if setup.is_command("init") {
        return Ok(Some(Right::empty(alloc, true)?));
    }
    led_from::<E>(alloc, before, setup, ran)
}

// How the run ends, and what its disk holds then.
fn judge_failing<E: Engine>(
    alloc: Global,
    before: &Right,
    setup: &Setup,
    ran: &Ran,
) -> Result<Failing, OutOfMemory> {
    let failing = Failing {
        status: ran.status,
        answered: answered_by(ran.tape.entries.as_slice(), u64::MAX),
        held: None,
        without: false,
    };
    match right_after::<E>(alloc, before, setup, ran)? {
        Some(right) => {
            let held = held_by::<E>(alloc, &right, before.none, ran, failing);
            drop(right);
            held
        }
        None => Ok(failing),
    }
}

fn held_by<E: Engine>(
    alloc: Global,
    right: &Right,
    was_none: bool,
    ran: &Ran,
    failing: Failing,
) -> Result<Failing, OutOfMemory> {
    let Some(taken) = ran.seen.images.first() else {
        return Ok(failing);
    };
    let mut judged = failing;
    match found_alone::<E>(alloc, right, &taken.image)? {
        Found::Commits(number) if right.has(number) => judged.held = Some(number),
        Found::Status(NO_DATABASE) => judged.without = was_none,
        _ => {}
    }
    Ok(judged)
}

// A run once more, with one call that fails.
fn fail_once<E: Engine>(
    alloc: Global,
    setup: &mut Setup,
    before: &Right,
    number: u64,
) -> Result<Failing, OutOfMemory> {
    let fails = one(alloc, number)?;
    let kept = mem::replace(&mut setup.disk_fails, fails);
    let failing = play_failing::<E>(alloc, setup, before);
    set(&mut setup.disk_fails, kept);
    failing
}

fn play_failing<E: Engine>(
    alloc: Global,
    setup: &Setup,
    before: &Right,
) -> Result<Failing, OutOfMemory> {
    let ran = E::play(alloc, setup, Ask::Last)?;
    let failing = judge_failing::<E>(alloc, before, setup, &ran);
    drop(ran);
    failing
}

// How many device calls a run makes.
fn calls_of<E: Engine>(alloc: Global, setup: &Setup) -> Result<u64, OutOfMemory> {
    let ran = E::play(alloc, setup, Ask::Last)?;
    let calls = ran.seen.moments.len() as u64;
    drop(ran);
    Ok(calls)
}

/// Lets each device call of a run fail in turn, and judges what it says and leaves. Calls that end alike are one line.
pub fn sweep_failures<E: Engine>(
    alloc: Global,
    setup: &mut Setup,
    before: &Right,
    page: &mut Page,
) -> Result<(), OutOfMemory> {
    let calls = calls_of::<E>(alloc, setup)?;
    let mut first = 1u64;
    let mut last = None;
    for number in 1..=calls {
        let failing = fail_once::<E>(alloc, setup, before, number)?;
        if last != Some(failing) {
            put_group(alloc, page, first, number - 1, last);
            first = number;
            last = Some(failing);
        }
    }
    put_group(alloc, page, first, calls, last);
    Ok(())
}

fn put_group(alloc: Global, page: &mut Page, first: u64, last: u64, failing: Option<Failing>) {
    if let Some(failing) = failing {
        put_failing(alloc, page, first, last, failing);
    }
}
