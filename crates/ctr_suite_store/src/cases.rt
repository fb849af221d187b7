// The cases of a suite.
use crate::patches::{answer, patch};
use crate::plain::Plain;
use crate::reading::{Patch, Question};
use crate::run::{Progress, image_of, made, play};
use crate::runs::{Runs, Start};
use crate::steps::{Step, add_long, add_random, add_switching};
use crate::stops::Seen;
use ctr_mem_disk::Image;
use ctr_types::List;
use std::alloc::{AllocError, Global};

/// How many images of each stop are looked at where the steps are written down.
const EACH: u64 = 9;

/// How many where they are made from a number, and where a call fails.
const EACH_RANDOM: u64 = 2;

/// How often a store has grown before its steps are made from a number: 256 pages are counted.
const GROWTHS: u32 = 3;

/// What a case is made of.
#[derive(Drop)]
pub struct Case<'a> {
    steps: Vec<Step>,
    patches: Vec<Patch<'a>>,
}

impl<'a> Case<'a> {
    pub fn new(alloc: Global) -> Case<'a> {
        Case {
            steps: Vec::new(alloc),
            patches: Vec::new(alloc),
        }
    }

    pub fn clear(&mut self) {
        self.steps.clear();
        self.patches.clear();
    }

    /// A step more; whether it could be added. There is none behind a patch.
    pub fn add_step(&mut self, step: Step) -> bool {
        self.patches.is_empty() && self.steps.push(step).is_ok()
    }

    /// A patch more; whether it could be added.
    pub fn add_patch(&mut self, patch: Patch<'a>) -> bool {
        self.patches.push(patch).is_ok()
    }
}

// What the stops of steps leave that are written down.
fn stops(runs: &mut Runs) -> Result<String, AllocError> {
    let _records = runs.look_at_steps()?;
    told_range(runs)
}

fn told_range(runs: &Runs) -> Result<String, AllocError> {
    let seen = runs.seen;
    format!(in runs.alloc;
        "{} wrong, {} to {} records",
        seen.wrong, seen.fewest, seen.most
    )
}

// What the stops of steps leave that are made from a number, of which a quarter at least are records.
fn random_stops(runs: &mut Runs) -> Result<String, AllocError> {
    let records = runs.look_at_steps()?;
    let seen = runs.seen;
    if seen.fewest == 0 && seen.most == records && records >= runs.steps.len() / 4 {
        return format!(in runs.alloc; "{} wrong, none to all records", seen.wrong);
    }
    told_range(runs)
}

// What is left of runs in which each call fails once.
fn failures(runs: &mut Runs) -> Result<String, AllocError> {
    let hidden = runs.look_at_failures()?;
    if runs.seen.images == 0 {
        return format!(in runs.alloc; "nothing seen");
    }
    format!(in runs.alloc; "{} wrong, {hidden} failures hidden", runs.seen.wrong)
}

// What an opening answers of files that are patched.
fn patched(
    alloc: Global,
    files: &mut Image,
    patches: &[Patch],
    plain: &Plain,
) -> Result<String, AllocError> {
    patch(alloc, files, patches)?;
    answer(alloc, plain, files.copy()?)
}

// The same of the files that steps leave.
fn patched_behind(
    alloc: Global,
    start: &Start,
    case: &Case,
    progress: &mut Progress,
) -> Result<String, AllocError> {
    let mut files = image_of(play(alloc, &start.files, &case.steps, List::new(alloc), progress)?);
    let answer = patched(alloc, &mut files, &case.patches, &progress.plain);
    drop(files);
    answer
}

// What an opening answers behind the steps and the patches of a case.
fn opens(alloc: Global, start: &Start, case: &Case) -> Result<String, AllocError> {
    let mut progress = Progress::new(alloc, start.pages)?;
    let answer = patched_behind(alloc, start, case, &mut progress);
    drop(progress);
    answer
}

// The same behind steps that are made from a number.
fn opens_long(alloc: Global, start: &Start, steps: &[Step]) -> Result<String, AllocError> {
    let mut progress = Progress::new(alloc, start.pages)?;
    let files = image_of(play(alloc, &start.files, steps, List::new(alloc), &mut progress)?);
    answer(alloc, &progress.plain, files)
}

// Runs of steps.
fn runs<'a>(alloc: Global, start: &'a Start, steps: &'a [Step], each: u64) -> Runs<'a> {
    Runs {
        alloc,
        start,
        steps,
        each,
        seen: Seen::new(),
    }
}

// Adds the steps that a question has made from a number.
fn add_made(steps: &mut Vec<Step>, question: Question) -> Result<(), AllocError> {
    match question {
        Question::Random { from, count } => add_random(steps, from, count),
        Question::Failing { from, count } => add_random(steps, from, count),
        Question::Switching { from, count } => add_switching(steps, from, count),
        Question::Long { from, count } => add_long(steps, from, count, false),
        Question::Cut { from, count } => add_long(steps, from, count, true),
        Question::Stops | Question::Failures | Question::Opens => Ok(()),
    }
}

// What a case answers whose steps are made from a number.
fn answer_made(
    alloc: Global,
    start: &Start,
    steps: &[Step],
    question: Question,
) -> Result<String, AllocError> {
    match question {
        Question::Long { .. } | Question::Cut { .. } => opens_long(alloc, start, steps),
        Question::Failing { .. } => failures(&mut runs(alloc, start, steps, EACH_RANDOM)),
        _ => random_stops(&mut runs(alloc, start, steps, EACH_RANDOM)),
    }
}

// The same, whose steps are made here.
fn answer_by(alloc: Global, start: &Start, question: Question) -> Result<String, AllocError> {
    let mut steps = Vec::new(alloc);
    add_made(&mut steps, question)?;
    let answer = answer_made(alloc, start, &steps, question);
    drop(steps);
    answer
}

// What a case answers on these files.
fn answer_on(
    alloc: Global,
    start: &Start,
    case: &Case,
    question: Question,
) -> Result<String, AllocError> {
    match question {
        Question::Stops => stops(&mut runs(alloc, start, &case.steps, EACH)),
        Question::Failures => failures(&mut runs(alloc, start, &case.steps, EACH_RANDOM)),
        Question::Opens => opens(alloc, start, case),
        _ => answer_by(alloc, start, question),
    }
}

/// What a case answers.
pub fn answer_of(alloc: Global, case: &Case, question: Question) -> Result<String, AllocError> {
    let growths = match question {
        Question::Stops | Question::Failures | Question::Opens => 0,
        _ => GROWTHS,
    };
    let start = Start {
        files: made(alloc, growths as u64)?,
        pages: growths * 64 + 64,
    };
    let answer = answer_on(alloc, &start, case, question);
    drop(start);
    answer
}
