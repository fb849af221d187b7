// What the stops of a run leave, each opened and read.
ghost use Rattle.std.specs.Prelude.{◌≡◌, false, OnOk};

use crate::opening::opened_or_error;
use crate::plain::{Plain, Told};
use crate::run::{Mem, PAGES};
use ctr_disk::StoreFault;
use ctr_log::OpenError;
use ctr_mem_disk::{Image, MemDisk, SilentDisk};
use ctr_types::List;
use std::alloc::{AllocError, Global};
use std::marker::Brand;

/// How many images of stops there were: in all, those that fold to no prefix that may be, and the fewest and the most
/// records of one.
#[derive(Clone, Copy)]
pub struct Seen {
    pub images: u64,
    pub wrong: u64,
    pub fewest: usize,
    pub most: usize,
}

impl Seen {
    pub fn new() -> Seen {
        Seen {
            images: 0,
            wrong: 0,
            fewest: usize::MAX,
            most: 0,
        }
    }

    fn add(&mut self, found: Option<usize>) {
        self.images = self.images.wrapping_add(1);
        match found {
            Some(count) => {
                self.fewest = self.fewest.min(count);
                self.most = self.most.max(count);
            }
            None => self.wrong = self.wrong.wrapping_add(1),
        }
    }
}

/// Between which numbers of records and of counted pages an image of a stop may be.
#[derive(Clone, Copy)]
pub struct Bounds {
    pub durable: usize,
    pub pages: (u32, u32),
}

/// What an opening found: the state that an image folds to and how many pages it counts; why it isn't opened; or what was
/// wrong with a page that was read then.
#[derive(Clone, Copy)]
pub enum Finding {
    Folds(Told, u32),
    Refused(OpenError),
    Broken(StoreFault),
}

// Reads a page.
fn add_page(store: &mut Mem, told: &mut Told, page: u32) -> Result<(), StoreFault>
    requires { store.old.stopped ≡ false }
    ensures { OnOk result (store.new.stopped ≡ false) }
{
    let bytes = store.page(page)?;
    told.add_page(page as u64, bytes);
    Ok(())
}

// The state of a store, read page by page.
fn told_of(store: &mut Mem) -> Result<Told, StoreFault>
    requires { store.old.stopped ≡ false }
{
    let mut told = Told::new();
    told.next = store.meta().next();
    let pages = PAGES.min(store.counted());
    for page in 0..pages {
        add_page(store, &mut told, page)?;
    }
    Ok(told)
}

// What a store has.
fn finding_of(store: &mut Mem) -> Finding
    requires { store.old.stopped ≡ false }
{
    let counted = store.counted();
    match told_of(store) {
        Ok(told) => Finding::Folds(told, counted),
        Err(fault) => Finding::Broken(fault),
    }
}

// The same of one that was opened for that. It is dropped by a call, since at the end of a scope the proof frees all of it here.
fn read(store: Mem) -> Finding
    requires { store.stopped ≡ false }
{
    let mut store = store;
    let finding = finding_of(&mut store);
    drop(store);
    finding
}

/// Opens an image, and reads it.
pub fn opened(alloc: Global, image: Image) -> Result<Finding, AllocError> {
    let disk = MemDisk::new(alloc, image, List::new(alloc))?;
    match opened_or_error::<SilentDisk, Brand>(alloc, SilentDisk { disk }) {
        Ok(store) => Ok(read(store)),
        Err(error) => Ok(Finding::Refused(error)),
    }
}

// How many records an image of a stop has, where it has its bounds.
fn found_in(
    alloc: Global,
    plain: &Plain,
    bounds: Bounds,
    image: Image,
) -> Result<Option<usize>, AllocError> {
    let Finding::Folds(told, counted) = opened(alloc, image)? else {
        return Ok(None);
    };
    if counted != bounds.pages.0 && counted != bounds.pages.1 {
        return Ok(None);
    }
    Ok(plain.records_of(told, bounds.durable))
}

/// Looks at what a crash may leave after the calls of a run from one number to another: so many images of each stop.
pub fn look(
    alloc: Global,
    disk: &MemDisk,
    plain: &Plain,
    bounds: Bounds,
    calls: (usize, usize),
    each: u64,
    seen: &mut Seen,
) -> Result<(), AllocError> {
    for count in calls.0..calls.1 {
        for k in 0..each {
            let image = disk.image_after(count, k)?;
            seen.add(found_in(alloc, plain, bounds, image)?);
        }
    }
    Ok(())
}

/// Opens the files as they read behind a run, and looks at what they fold to.
pub fn look_again(
    alloc: Global,
    disk: &MemDisk,
    plain: &Plain,
    bounds: Bounds,
    seen: &mut Seen,
) -> Result<(), AllocError> {
    let image = disk.image_now().copy()?;
    seen.add(found_in(alloc, plain, bounds, image)?);
    Ok(())
}
