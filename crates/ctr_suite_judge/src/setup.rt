// What a run begins with, and what it leaves: plain data. A disk lives inside a run alone.
use ctr_home::Root;
use ctr_mem_disk::Image;
use ctr_model::Survey;
use ctr_suite_steps::{Page, add, set};
use ctr_types::{Actor, Tape};
use std::alloc::{AllocError, Global};

/// What is done.
#[derive(Clone, Copy)]
pub enum Work {
    /// The command of the words.
    Command,
    /// The script, by turns of a list of actors.
    Turns,
    /// The device calls that the script lists.
    Calls,
    /// The root is written.
    WriteRoot(Root),
}

/// What a run begins with.
#[derive(Drop)]
pub struct Setup {
    pub work: Work,
    pub words: Vec<String>,
    pub script: Vec<u8>,
    pub actors: Vec<Actor>,
    /// How many frames a run by turns has for its pages; a command's words say it themselves.
    pub frames: u64,
    pub image: Image,
    /// The numbers, from 1, of the calls that fail.
    pub disk_fails: Vec<u64>,
    pub source_fails: Vec<u64>,
    pub sink_fails: Vec<u64>,
    /// The most bytes that are taken, or put, at once.
    pub taken_most: u64,
    pub put_most: u64,
    /// The disk's clock at the start.
    pub moment: u64,
    /// The faults and strays that the disk has counted before.
    pub faults: u64,
    pub strays: u64,
}

/// Which images of a run are asked for.
#[derive(Clone, Copy)]
pub enum Ask {
    /// What a read gives at its end.
    Last,
    /// What a crash leaves after so many calls, by these digits.
    Stop(u64, u64),
    /// What a crash leaves at the start, and behind each write and sync from one call up to another: by each number of digits where there were at
    /// most two writes since the last sync; of more behind the last one alone, by those that say the same of each.
    Between(u64, u64),
    /// No image, but a line for each call.
    Calls,
}

/// What a disk has counted.
#[derive(Clone, Copy)]
pub struct Counts {
    /// Calls that were carried out, failed or were refused, but for want of memory.
    pub calls: u64,
    pub faults: u64,
    pub strays: u64,
    /// Calls that failed for want of memory.
    pub starved: u64,
    pub moment: u64,
}

impl Counts {
    /// Puts them on a line.
    pub fn put(self, alloc: Global, page: &mut Page) {
        page.put_number(alloc, "calls ", self.calls);
        page.put_number(alloc, ", faults ", self.faults);
        page.put_number(alloc, ", strays ", self.strays);
        page.put_number(alloc, ", starved ", self.starved);
        page.put_number(alloc, ", moment ", self.moment);
        page.put(b"\n");
    }
}

/// What a run has left.
#[derive(Drop)]
pub struct Ran {
    pub status: u8,
    pub tape: Tape,
    /// What was put.
    pub text: Vec<u8>,
    /// What a report that is finished has counted.
    pub survey: Survey,
    pub seen: Seen,
}

/// An image, and the number of calls behind which it was taken.
#[derive(Drop)]
pub struct Taken {
    pub calls: u64,
    pub image: Image,
}

/// What was asked of a run before its disk went.
#[derive(Drop)]
pub struct Seen {
    /// What is to be put by the tape, the status and the cause.
    pub printing: Vec<u8>,
    /// The clock after each call.
    pub moments: Vec<u64>,
    pub images: Vec<Taken>,
    pub listing: Page,
    pub counts: Counts,
}

/// What is counted where nothing is.
pub const UNCOUNTED: Survey = Survey {
    tables: 0,
    rows: 0,
    orphans: 0,
    aborted: 0,
    items: 0,
};

/// The frames that a run has where nothing else is said.
const FRAMES: u64 = 64;

impl Setup {
    pub fn new(alloc: Global, image: Image) -> Setup {
        Setup {
            work: Work::Command,
            words: Vec::new(alloc),
            script: Vec::new(alloc),
            actors: Vec::new(alloc),
            frames: FRAMES,
            image,
            disk_fails: Vec::new(alloc),
            source_fails: Vec::new(alloc),
            sink_fails: Vec::new(alloc),
            taken_most: u64::MAX,
            put_most: u64::MAX,
            moment: 0,
            faults: 0,
            strays: 0,
        }
    }

    /// Whether the command is this one.
    pub fn is_command(&self, name: &str) -> bool {
        match self.words.first() {
            Some(word) => matches!(self.work, Work::Command) && word.as_str() == name,
            None => false,
        }
    }
}

// The words of a command on `d`.
fn command_words(alloc: Global, command: &str) -> Result<Vec<String>, AllocError> {
    let mut words = Vec::new(alloc);
    add(&mut words, String::from_str(alloc, command)?)?;
    add(&mut words, String::from_str(alloc, "d")?)?;
    Ok(words)
}

/// The words `run d`.
pub fn run_words(alloc: Global) -> Result<Vec<String>, AllocError> {
    command_words(alloc, "run")
}

/// A run of a script over an image, in which nothing fails.
pub fn plain_run(alloc: Global, image: &Image, script: &[u8]) -> Result<Setup, AllocError> {
    let words = run_words(alloc)?;
    let script = script.to_vec(alloc)?;
    let mut setup = Setup::new(alloc, image.copy()?);
    set(&mut setup.words, words);
    set(&mut setup.script, script);
    Ok(setup)
}

/// A report of an image, in which nothing fails.
pub fn plain_report(alloc: Global, image: &Image) -> Result<Setup, AllocError> {
    let words = command_words(alloc, "report")?;
    let mut setup = Setup::new(alloc, image.copy()?);
    set(&mut setup.words, words);
    Ok(setup)
}

/// A script over an image by turns of these actors, in which nothing fails.
pub fn plain_turns(
    alloc: Global,
    image: &Image,
    script: Vec<u8>,
    actors: Vec<Actor>,
) -> Result<Setup, AllocError> {
    let mut setup = Setup::new(alloc, image.copy()?);
    setup.work = Work::Turns;
    set(&mut setup.script, script);
    set(&mut setup.actors, actors);
    Ok(setup)
}
