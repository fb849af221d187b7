// The disk, the source and the sink of a run, and what is asked of the disk behind it.
ghost use Rattle.std.specs.Prelude.{◌<◌};

use crate::calls::{counts_of, images_of, listing_of, moments_of};
use crate::setup::{Ask, Seen, Setup};
use ctr_io::{MemSink, MemSource};
use ctr_mem_disk::MemDisk;
use ctr_types::{List, Plain, Text};
use std::alloc::{AllocError, Global};

fn listed(alloc: Global, numbers: &[u64]) -> Result<List<u64>, AllocError> {
    Ok(List::from_vec(numbers.to_vec(alloc)?))
}

// At least 1.
fn most_of(pieces: u64) -> usize
    ensures { 0 < result }
{
    if pieces == 0 {
        usize::MAX
    } else {
        pieces as usize
    }
}

/// The source that gives the script.
pub fn source_of(alloc: Global, setup: &Setup) -> Result<MemSource, AllocError> {
    let script = Text::from_slice(alloc, &setup.script)?;
    let fails = listed(alloc, &setup.source_fails)?;
    Ok(MemSource::in_pieces(script, fails, most_of(setup.taken_most)))
}

/// The sink that takes the text.
pub fn sink_of(alloc: Global, setup: &Setup) -> Result<MemSink, AllocError> {
    let fails = listed(alloc, &setup.sink_fails)?;
    Ok(MemSink::in_pieces(alloc, fails, most_of(setup.put_most)))
}

/// The disk that a run begins with.
pub fn disk_of(alloc: Global, setup: &Setup) -> Result<MemDisk, AllocError> {
    let fails = listed(alloc, &setup.disk_fails)?;
    let disk = MemDisk::at_moment(alloc, setup.image.copy()?, fails, setup.moment)?;
    Ok(disk.counted(setup.faults, setup.strays))
}

/// What is asked of a disk.
pub fn look_at(
    alloc: Global,
    disk: &MemDisk,
    printing: Vec<u8>,
    ask: Ask,
) -> Result<Seen, AllocError> {
    let moments = moments_of(alloc, disk.calls())?;
    let images = images_of(alloc, disk, ask)?;
    Ok(Seen {
        printing,
        moments,
        images,
        listing: listing_of(alloc, disk.calls(), ask),
        counts: counts_of(disk),
    })
}
