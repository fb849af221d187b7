// What is asked of a disk once a run is over: its images and the shapes of its calls.
use crate::setup::{Ask, Counts, Taken};
use ctr_disk::Disk;
use ctr_mem_disk::{Call, Image, MemDisk, Outcome, Recorded};
use ctr_suite_steps::{Page, add, name_of, one};
use std::alloc::{AllocError, Global};

/// The clock after each call.
pub fn moments_of(alloc: Global, calls: &[Recorded]) -> Result<Vec<u64>, AllocError> {
    let mut moments = Vec::new(alloc);
    for recorded in calls {
        moments.push(recorded.moment)?;
    }
    Ok(moments)
}

pub fn counts_of(disk: &MemDisk) -> Counts {
    Counts {
        calls: disk.calls().len() as u64,
        faults: disk.faults(),
        strays: disk.strays(),
        starved: disk.starved(),
        moment: disk.moment(),
    }
}

fn taken(calls: u64, image: Image) -> Taken {
    Taken { calls, image }
}

// How many writes there were since the last sync, with one more call.
fn writes_with(recorded: &Recorded, writes: u64) -> u64 {
    match (&recorded.call, recorded.outcome) {
        (Call::Write { .. }, Outcome::Done | Outcome::Failed) => writes.saturating_add(1),
        (Call::Sync, Outcome::Done) => 0,
        _ => writes,
    }
}

// Behind a read, or what was refused, a crash leaves what it might have left before.
fn changes_nothing(recorded: &Recorded) -> bool {
    match (&recorded.call, recorded.outcome) {
        (Call::Size { .. } | Call::Read { .. }, _) | (_, Outcome::Refused) => true,
        _ => false,
    }
}

/// The digit 1 for as many writes as a number has digits for.
const ONES: u64 = 0o111_111_111_111_111_111_111;

// Whether no write comes behind so many calls.
fn is_last(disk: &MemDisk, count: usize) -> bool {
    match disk.calls().get(count) {
        Some(next) => !matches!(next.call, Call::Write { .. }),
        None => true,
    }
}

// How many images there are behind so many writes since the last sync.
fn images_behind(writes: u64) -> u64 {
    match writes {
        0 => 1,
        2 => 64,
        _ => 8,
    }
}

// The digits of an image: each number of them for one write and for two, the same for all where there are more.
fn digits_of(writes: u64, image: u64) -> u64 {
    if writes <= 2 {
        image
    } else {
        image.saturating_mul(ONES)
    }
}

fn add_images(
    disk: &MemDisk,
    images: &mut Vec<Taken>,
    count: usize,
    writes: u64,
) -> Result<(), AllocError> {
    for image in 0..images_behind(writes) {
        let left = disk.image_after(count, digits_of(writes, image))?;
        add(images, taken(count as u64, left))?;
    }
    Ok(())
}

fn add_between(
    disk: &MemDisk,
    images: &mut Vec<Taken>,
    from: u64,
    to: u64,
) -> Result<(), AllocError> {
    let mut writes = 0;
    if from == 0 {
        add_images(disk, images, 0, 0)?;
    }
    for (number, recorded) in disk.calls().iter().enumerate() {
        let count = number.saturating_add(1);
        writes = writes_with(recorded, writes);
        let looks = !changes_nothing(recorded) && (writes <= 2 || is_last(disk, count));
        if looks && from <= count as u64 && count as u64 <= to {
            add_images(disk, images, count, writes)?;
        }
    }
    Ok(())
}

fn images_between(
    alloc: Global,
    disk: &MemDisk,
    from: u64,
    to: u64,
) -> Result<Vec<Taken>, AllocError> {
    let mut images = Vec::new(alloc);
    add_between(disk, &mut images, from, to)?;
    Ok(images)
}

/// The images that are asked for.
pub fn images_of(alloc: Global, disk: &MemDisk, ask: Ask) -> Result<Vec<Taken>, AllocError> {
    match ask {
        Ask::Last => one(
            alloc,
            taken(disk.calls().len() as u64, disk.image_now().copy()?),
        ),
        Ask::Stop(count, digits) => one(
            alloc,
            taken(count, disk.image_after(count as usize, digits)?),
        ),
        Ask::Between(from, to) => images_between(alloc, disk, from, to),
        Ask::Calls => Ok(Vec::new(alloc)),
    }
}

fn put_call(alloc: Global, page: &mut Page, call: &Call) {
    match call {
        Call::Size { file } => page.put_place(alloc, "size", name_of(*file)),
        Call::Read { file, at, len } => {
            page.put_place(alloc, "read", name_of(*file));
            page.put_number(alloc, " ", *at);
            page.put_number(alloc, " ", *len);
        }
        Call::Write { file, at, bytes } => {
            page.put_place(alloc, "write", name_of(*file));
            page.put_number(alloc, " ", *at);
            page.put_number(alloc, " ", bytes.len() as u64);
            if let Some(first) = bytes.as_slice().first() {
                page.put(b" from");
                page.put_hex(alloc, *first);
            }
        }
        Call::Sync => page.put(b"sync"),
    }
}

/// A line for each call, where they are asked for.
pub fn listing_of(alloc: Global, calls: &[Recorded], ask: Ask) -> Page {
    let mut page = Page::new(alloc);
    if !matches!(ask, Ask::Calls) {
        return page;
    }
    for (number, recorded) in calls.iter().enumerate() {
        page.put_number(alloc, "", (number as u64).saturating_add(1));
        page.put(b" ");
        put_call(alloc, &mut page, &recorded.call);
        match recorded.outcome {
            Outcome::Done => {}
            Outcome::Failed => page.put(b" failed"),
            Outcome::Refused => page.put(b" refused"),
        }
        page.put_number(alloc, " @", recorded.moment);
        page.put(b"\n");
    }
    page
}
