// What is said of a command on threads, by the slow machine and by a run without threads that looks at its disk.
use crate::play::Alone;
use ctr_mem_disk::Image;
use ctr_suite_judge::{Ask, Engine, Found, Ran, Right, Setup, found_alone, led_from};
use ctr_suite_steps::{add, set};
use ctr_types::OutOfMemory;
use std::alloc::{AllocError, Global};

/// Files, and the databases that they may hold.
#[derive(Drop)]
pub struct Base {
    pub image: Image,
    pub right: Right,
}

/// What is said of a run.
#[derive(Clone, Copy, Debug, PartialEq, Eq)]
pub enum Verdict {
    Well,
    Unfinished,
    /// The tape isn't legal.
    Illegal,
    /// The disk is left with other rows than those behind the commits of the tape.
    OtherRows,
}

// The words of a text.
fn words_of(alloc: Global, text: &str) -> Result<Vec<String>, AllocError> {
    let mut words = Vec::new(alloc);
    for word in text.split_whitespace() {
        add(&mut words, String::from_str(alloc, word)?)?;
    }
    Ok(words)
}

/// The command of these words over the files of an image, with a script on its standard input.
pub fn command(
    alloc: Global,
    words: &str,
    script: &[u8],
    image: &Image,
) -> Result<Setup, AllocError> {
    let words = words_of(alloc, words)?;
    let script = script.to_vec(alloc)?;
    let mut setup = Setup::new(alloc, image.copy()?);
    set(&mut setup.words, words);
    set(&mut setup.script, script);
    Ok(setup)
}

/// The files that a run has left.
pub fn image_of(ran: &Ran) -> Result<Image, AllocError> {
    match ran.seen.images.first() {
        Some(taken) => taken.image.copy(),
        None => Err(AllocError),
    }
}

// Whether a run and a report find in the files the rows behind the last of these commits.
fn is_last(alloc: Global, right: &Right, image: &Image) -> Result<bool, OutOfMemory> {
    match found_alone::<Alone>(alloc, right, image)? {
        Found::Commits(number) => Ok(number == right.most),
        Found::Status(_) | Found::Other => Ok(false),
    }
}

fn looked(alloc: Global, right: &Right, ran: &Ran) -> Result<Verdict, OutOfMemory> {
    let image = image_of(ran)?;
    let is_last = is_last(alloc, right, &image);
    drop(image);
    if is_last? {
        Ok(Verdict::Well)
    } else {
        Ok(Verdict::OtherRows)
    }
}

/// Judges a run of status 0 from these databases on: its tape by the slow machine, and its disk by the rows to which that leads.
pub fn judged(
    alloc: Global,
    before: &Right,
    setup: &Setup,
    ran: &Ran,
) -> Result<Verdict, OutOfMemory> {
    if ran.status != 0 {
        return Ok(Verdict::Unfinished);
    }
    match led_from::<Alone>(alloc, before, setup, ran)? {
        None => Ok(Verdict::Illegal),
        Some(right) => {
            let verdict = looked(alloc, &right, ran);
            drop(right);
            verdict
        }
    }
}

fn image_behind(alloc: Global, setup: &Setup) -> Result<Image, AllocError> {
    let ran = Alone::play(alloc, setup, Ask::Last)?;
    let image = image_of(&ran);
    drop(ran);
    image
}

/// The files of the empty database.
pub fn empty(alloc: Global) -> Result<Image, AllocError> {
    let setup = command(alloc, "init d", b"", &Image::new(alloc))?;
    let image = image_behind(alloc, &setup);
    drop(setup);
    image
}

fn based(image: Result<Image, AllocError>, right: Right) -> Result<Base, OutOfMemory> {
    match image {
        Ok(image) => Ok(Base { image, right }),
        Err(_) => Err(OutOfMemory),
    }
}

fn led_behind(alloc: Global, setup: &Setup, ran: &Ran) -> Result<Option<Right>, OutOfMemory> {
    let right = Right::empty(alloc, false)?;
    let led = led_from::<Alone>(alloc, &right, setup, ran);
    drop(right);
    led
}

fn base_of(alloc: Global, setup: &Setup, ran: &Ran) -> Result<Base, OutOfMemory> {
    match led_behind(alloc, setup, ran)? {
        Some(right) => based(image_of(ran), right),
        None => Err(OutOfMemory),
    }
}

fn base_behind(alloc: Global, setup: &Setup) -> Result<Base, OutOfMemory> {
    let ran = Alone::play(alloc, setup, Ask::Last)?;
    let base = base_of(alloc, setup, &ran);
    drop(ran);
    base
}

/// The database that a script makes of the empty one.
pub fn prepared(alloc: Global, script: &[u8]) -> Result<Base, OutOfMemory> {
    let image = empty(alloc)?;
    let setup = command(alloc, "run d", script, &image);
    drop(image);
    let setup = setup?;
    let base = base_behind(alloc, &setup);
    drop(setup);
    base
}
