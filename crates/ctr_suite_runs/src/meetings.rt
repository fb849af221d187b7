// Generated scripts, played by generated lists of actors, each judged, and how often each reply was met.
use crate::sweep::owed;
use ctr_mem_disk::Image;
use ctr_suite_judge::{
    Ask, Engine, Found, Probe, Ran, Right, Setup, found_in, led_from, plain_turns,
};
use ctr_suite_steps::{Length, Maker, Page};
use ctr_types::{OutOfMemory, Refusal, Reply};
use std::alloc::Global;

/// The replies and refusals that a run over one database gives, by their places in a `Met`.
const NAMES: [&str; 21] = [
    "Began",
    "Granted",
    "Rows",
    "Done",
    "Asked",
    "ReadOnly",
    "Answered",
    "RolledBack",
    "NoTransaction",
    "InTransaction",
    "NoTable",
    "TableExists",
    "TableBusy",
    "SchemaChanged",
    "BadValue",
    "RowLocked",
    "RowChanged",
    "Duplicate",
    "NotFound",
    "OutOfRange",
    "another",
];

/// The place of what isn't to be met: want of memory or room, and recovery's.
const ANOTHER: usize = 20;

fn place_of(reply: &Reply) -> usize {
    match reply {
        Reply::Began { .. } => 0,
        Reply::Granted => 1,
        Reply::Rows { .. } => 2,
        Reply::Done => 3,
        Reply::Asked { .. } => 4,
        Reply::ReadOnly => 5,
        Reply::Answered { .. } => 6,
        Reply::RolledBack => 7,
        Reply::Released => ANOTHER,
        Reply::Refused { refusal } => refused_place(*refusal),
    }
}

fn refused_place(refusal: Refusal) -> usize {
    match refusal {
        Refusal::NoTransaction => 8,
        Refusal::InTransaction => 9,
        Refusal::NoTable => 10,
        Refusal::TableExists => 11,
        Refusal::TableBusy { .. } => 12,
        Refusal::SchemaChanged { .. } => 13,
        Refusal::BadValue { .. } => 14,
        Refusal::RowLocked { .. } => 15,
        Refusal::RowChanged { .. } => 16,
        Refusal::Duplicate => 17,
        Refusal::NotFound => 18,
        Refusal::OutOfRange => 19,
        Refusal::OutOfMemory | Refusal::CatalogFull { .. } | Refusal::Full { .. } => ANOTHER,
    }
}

/// How often each reply was met, and how many runs were wrong.
#[derive(Drop)]
pub struct Met {
    counts: [u64; 21],
    /// Flushes that made more than one commit durable.
    together: u64,
    wrong: u64,
}

impl Met {
    pub fn new() -> Met {
        Met {
            counts: [0; 21],
            together: 0,
            wrong: 0,
        }
    }

    fn count(&mut self, ran: &Ran) {
        let mut last = u64::MAX;
        for entry in ran.tape.entries.as_slice() {
            let place = place_of(&entry.reply).min(ANOTHER);
            self.counts[place] = self.counts[place].saturating_add(1);
            if let Reply::Answered { .. } = &entry.reply {
                if entry.moment == last {
                    self.together = self.together.saturating_add(1);
                }
                last = entry.moment;
            }
        }
    }

    /// Which were met so often at least; the others with how often they were.
    pub fn put(&self, alloc: Global, page: &mut Page, least: u64) {
        for (place, name) in NAMES.iter().enumerate() {
            put_met(alloc, page, name, self.counts[place.min(ANOTHER)], least);
        }
        put_met(alloc, page, "answered with another", self.together, least);
        page.put_number(alloc, "wrong ", self.wrong);
        page.put(b"\n");
    }
}

fn put_met(alloc: Global, page: &mut Page, name: &str, count: u64, least: u64) {
    page.put(name.as_bytes());
    if count < least {
        page.put_number(alloc, " ", count);
    } else {
        page.put_number(alloc, " at least ", least);
    }
    page.put(b"\n");
}

/// How long a script is of which one stop is looked at.
const LENGTH: Length = Length {
    transactions: 3,
    statements: 4,
};

// Why a generated run is wrong.
#[derive(Clone, Copy)]
enum Fault {
    Unfinished,
    Illegal,
    OtherRows,
}

impl Fault {
    fn text(self) -> &'static str {
        match self {
            Fault::Unfinished => "it isn't finished",
            Fault::Illegal => "the tape isn't legal",
            Fault::OtherRows => "the disk is left with other rows",
        }
    }
}

fn tell(alloc: Global, page: &mut Page, met: &mut Met, number: u64, fault: Fault) {
    met.wrong = met.wrong.saturating_add(1);
    page.put_number(alloc, "WRONG: script ", number);
    page.put(b": ");
    page.put(fault.text().as_bytes());
    page.put(b"\n");
}

// What the disk is left with at the end, and by a stop at one moment: rows of right commits, as many as are owed.
fn is_left_well<E: Engine>(
    alloc: Global,
    setup: &Setup,
    right: &Right,
    ran: &Ran,
    probe: &Probe,
    maker: &mut Maker,
) -> Result<bool, OutOfMemory> {
    let at_end = ran.seen.moments.len();
    let calls = maker.number((at_end as u64).saturating_add(1));
    let digits = maker.number(64);
    Ok(
        is_stopped_well::<E>(alloc, setup, right, ran, probe, calls, digits)?
            && is_found::<E>(alloc, setup, right, ran, probe, ran, at_end)?,
    )
}

fn is_stopped_well<E: Engine>(
    alloc: Global,
    setup: &Setup,
    right: &Right,
    ran: &Ran,
    probe: &Probe,
    calls: u64,
    digits: u64,
) -> Result<bool, OutOfMemory> {
    let stopped = E::play(alloc, setup, Ask::Stop(calls, digits))?;
    let found = is_found::<E>(alloc, setup, right, ran, probe, &stopped, calls as usize);
    drop(stopped);
    found
}

// Whether the image of a run holds as many commits as are owed after so many calls.
fn is_found<E: Engine>(
    alloc: Global,
    setup: &Setup,
    right: &Right,
    ran: &Ran,
    probe: &Probe,
    image: &Ran,
    calls: usize,
) -> Result<bool, OutOfMemory> {
    let Some(taken) = image.seen.images.first() else {
        return Ok(false);
    };
    let least = owed(setup, ran, right, calls);
    match found_in::<E>(alloc, right, probe, &taken.image)? {
        Found::Commits(number) => Ok(number >= least),
        Found::Status(_) | Found::Other => Ok(false),
    }
}

// What is wrong with a disk that a run has left, after which these databases are right.
fn judge_left<E: Engine>(
    alloc: Global,
    setup: &Setup,
    right: &Right,
    ran: &Ran,
    maker: &mut Maker,
) -> Result<Option<Fault>, OutOfMemory> {
    let probe = Probe::new(alloc, right)?;
    let left = is_left_well::<E>(alloc, setup, right, ran, &probe, maker);
    drop(probe);
    match left {
        Ok(true) => Ok(None),
        Ok(false) => Ok(Some(Fault::OtherRows)),
        Err(error) => Err(error),
    }
}

fn judge_ran<E: Engine>(
    alloc: Global,
    setup: &Setup,
    before: &Right,
    ran: &Ran,
    maker: &mut Maker,
    met: &mut Met,
) -> Result<Option<Fault>, OutOfMemory> {
    met.count(ran);
    if ran.status != 0 {
        return Ok(Some(Fault::Unfinished));
    }
    match led_from::<E>(alloc, before, setup, ran)? {
        None => Ok(Some(Fault::Illegal)),
        Some(right) => {
            let fault = judge_left::<E>(alloc, setup, &right, ran, maker);
            drop(right);
            fault
        }
    }
}

fn judge_setup<E: Engine>(
    alloc: Global,
    setup: &Setup,
    before: &Right,
    maker: &mut Maker,
    met: &mut Met,
) -> Result<Option<Fault>, OutOfMemory> {
    let ran = E::play(alloc, setup, Ask::Last)?;
    let fault = judge_ran::<E>(alloc, setup, before, &ran, maker, met);
    drop(ran);
    fault
}

/// What is made over a disk.
pub fn made(alloc: Global, image: &Image, maker: &mut Maker) -> Result<Setup, OutOfMemory> {
    let script = maker.script()?;
    let mut setup = plain_turns(alloc, image, script, maker.actors()?)?;
    setup.frames = maker.frames();
    Ok(setup)
}

// Plays what is made over a disk.
fn play_made<E: Engine>(
    alloc: Global,
    image: &Image,
    before: &Right,
    maker: &mut Maker,
    met: &mut Met,
) -> Result<Option<Fault>, OutOfMemory> {
    let setup = made(alloc, image, maker)?;
    let fault = judge_setup::<E>(alloc, &setup, before, maker, met);
    drop(setup);
    fault
}

/// Plays the script of a number over a disk, by its list of actors, and judges it: the tape is legal, the run is
/// finished, and the disk is left with a prefix of the commits, at the end and by a stop at one moment.
fn meet<E: Engine>(
    alloc: Global,
    image: &Image,
    before: &Right,
    number: u64,
    met: &mut Met,
    page: &mut Page,
) -> Result<(), OutOfMemory> {
    let mut maker = Maker::new(alloc, number, LENGTH);
    let fault = play_made::<E>(alloc, image, before, &mut maker, met);
    drop(maker);
    match fault {
        Ok(None) => Ok(()),
        Ok(Some(fault)) => {
            tell(alloc, page, met, number, fault);
            Ok(())
        }
        Err(error) => Err(error),
    }
}

/// Meets the scripts of these numbers, from the first to the last, and tells what was met, where it was so often at least.
pub fn meet_each<E: Engine>(
    alloc: Global,
    image: &Image,
    right: &Right,
    (from, to): (u64, u64),
    least: u64,
    page: &mut Page,
) -> Result<(), OutOfMemory> {
    let mut met = Met::new();
    for script in from..=to {
        meet::<E>(alloc, image, right, script, &mut met, page)?;
    }
    met.put(alloc, page, least);
    Ok(())
}
