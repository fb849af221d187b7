// The steps of a case.
use rand_core::{Rng, SeedableRng};
use rand_xoshiro::Xoshiro256PlusPlus;
use std::alloc::AllocError;

/// A call on a store.
#[derive(Clone, Copy)]
pub enum Step {
    /// A Begin of the next transaction.
    Begin,
    /// A Keep of the first transaction: eight such bytes at a place of a page.
    Keep(Overlay),
    /// The same by a Trim.
    Trim(Overlay),
    Harden,
    Write,
    /// Turns for room, until there is room.
    Room,
    /// So many readings of the first so many pages, one after another and again from the first.
    Read { times: u32, pages: u32 },
    Grow,
    /// Begins a second generation behind records that are all hardened, by bytes written by hand.
    Generation,
    /// Begins a generation, where no older one is kept and all records are hardened.
    Switch,
    /// Drops the older generation, where it can go.
    Forget,
}

/// Eight such bytes at a place of a page.
#[derive(Clone, Copy)]
pub struct Overlay {
    pub page: u32,
    pub at: u16,
    pub byte: u8,
}

impl Step {
    pub fn is_generation(self) -> bool {
        matches!(self, Step::Generation)
    }
}

// Bytes at a place of a page, by a number.
fn overlay_by(n: u64) -> Overlay {
    Overlay {
        page: u32::try_from(n / 16 % 200).unwrap_or(0),
        at: u16::try_from(n / 4096 % 512 * 8).unwrap_or(0),
        byte: u8::try_from(n / 4_194_304 % 256).unwrap_or(0),
    }
}

// A step by a number.
fn step_by(n: u64) -> Step {
    let overlay = overlay_by(n);
    match n % 16 {
        0 => Step::Begin,
        1..=3 => Step::Keep(overlay),
        4 => Step::Harden,
        5..=10 => Step::Write,
        _ => Step::Trim(overlay),
    }
}

/// Adds so many steps from a number: a Begin first, a growth in the middle, and at the end a hardening.
pub fn add_random(steps: &mut Vec<Step>, from: u64, count: u64) -> Result<(), AllocError> {
    let mut rng = Xoshiro256PlusPlus::seed_from_u64(from);
    steps.push(Step::Begin)?;
    for i in 0..count {
        if i == count / 2 {
            steps.push(Step::Grow)?;
        }
        steps.push(step_by(rng.next_u64()))?;
    }
    steps.push(Step::Harden)?;
    Ok(())
}

/// Adds so many steps from a number, with generations that begin behind hardenings and go again.
pub fn add_switching(steps: &mut Vec<Step>, from: u64, count: u64) -> Result<(), AllocError> {
    let mut rng = Xoshiro256PlusPlus::seed_from_u64(from);
    steps.push(Step::Begin)?;
    for i in 0..count {
        steps.push(step_by(rng.next_u64()))?;
        match i % 12 {
            5 => {
                steps.push(Step::Harden)?;
                steps.push(Step::Switch)?;
            }
            8 | 11 => steps.push(Step::Forget)?,
            _ => {}
        }
    }
    steps.push(Step::Harden)?;
    Ok(())
}

// Begins a generation, and drops the older one once all pages are home.
fn add_cut(steps: &mut Vec<Step>) -> Result<(), AllocError> {
    steps.push(Step::Harden)?;
    steps.push(Step::Switch)?;
    for _ in 0..8 {
        steps.push(Step::Write)?;
    }
    steps.push(Step::Forget)?;
    Ok(())
}

/// Adds a Begin and so many Keeps from a number, each behind turns for room, and at the end a hardening; where the log is to be
/// cut, it is behind each 500.
pub fn add_long(
    steps: &mut Vec<Step>,
    from: u64,
    count: u64,
    is_cut: bool,
) -> Result<(), AllocError> {
    let mut rng = Xoshiro256PlusPlus::seed_from_u64(from);
    steps.push(Step::Begin)?;
    for i in 0..count {
        steps.push(Step::Room)?;
        steps.push(Step::Keep(overlay_by(rng.next_u64())))?;
        if is_cut && i % 500 == 499 {
            add_cut(steps)?;
        }
    }
    steps.push(Step::Harden)?;
    Ok(())
}
