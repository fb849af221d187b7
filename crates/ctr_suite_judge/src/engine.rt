// What runs are played by: the engine, as far as the judge and the sweeps know it.
use crate::setup::{Ask, Ran, Setup};
use ctr_mem_disk::Image;
use ctr_types::OutOfMemory;
use std::alloc::{AllocError, Global};

/// What is wrong, in words; none where nothing is.
pub type Wrong = Option<&'static str>;

/// What runs are played by.
pub trait Engine: Drop {
    /// Does what a setup says.
    fn play(alloc: Global, setup: &Setup, ask: Ask) -> Result<Ran, AllocError>;

    /// What is left to undo or to clean in an image, as its bytes say.
    fn left_in(alloc: Global, image: &Image) -> Result<Wrong, OutOfMemory>;
}
