// What undo and the cleaner leave of an image: nothing to undo or to clean, and the same rows.
use ctr_mem_disk::Image;
use ctr_suite_judge::{
    Ask, Engine, Probe, Ran, Right, Setup, UNDO_TURNS, Wrong, has_kept, plain_turns,
};
use ctr_types::{Actor, OutOfMemory};
use std::alloc::Global;

/// How many turns the cleaner has behind undo: more than it wants in any case.
const CLEANER_TURNS: usize = 900;

// A run without statements: undo to its end, and then the cleaner.
fn resting(alloc: Global, image: &Image) -> Result<Setup, OutOfMemory> {
    let mut actors = vec![in alloc; Actor::Undo; UNDO_TURNS]?;
    actors.resize(UNDO_TURNS + CLEANER_TURNS, Actor::Cleaner)?;
    Ok(plain_turns(alloc, image, Vec::new(alloc), actors)?)
}

/// What is wrong with what undo and the cleaner leave of an image of so many commits: something is left to undo or to clean, or there are
/// other rows.
pub fn wrong_rested<E: Engine>(
    alloc: Global,
    right: &Right,
    probe: &Probe,
    image: &Image,
    commits: usize,
) -> Result<Wrong, OutOfMemory> {
    let setup = resting(alloc, image)?;
    let wrong = wrong_by::<E>(alloc, right, probe, &setup, commits);
    drop(setup);
    wrong
}

fn wrong_by<E: Engine>(
    alloc: Global,
    right: &Right,
    probe: &Probe,
    setup: &Setup,
    commits: usize,
) -> Result<Wrong, OutOfMemory> {
    let ran = E::play(alloc, setup, Ask::Last)?;
    let wrong = wrong_in::<E>(alloc, right, probe, &ran, commits);
    drop(ran);
    wrong
}

fn wrong_in<E: Engine>(
    alloc: Global,
    right: &Right,
    probe: &Probe,
    ran: &Ran,
    commits: usize,
) -> Result<Wrong, OutOfMemory> {
    let Some(taken) = ran.seen.images.first() else {
        return Ok(Some("there is no image"));
    };
    if ran.status != 0 {
        return Ok(Some("undo and the cleaner aren't finished"));
    }
    let left = E::left_in(alloc, &taken.image)?;
    if left.is_some() {
        return Ok(left);
    }
    if has_kept::<E>(alloc, right, probe, &taken.image, commits)? {
        Ok(None)
    } else {
        Ok(Some("other rows behind undo and the cleaner"))
    }
}
