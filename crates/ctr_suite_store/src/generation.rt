// A second generation of the log, begun by hand, so that a case can alter it at known places.
use crate::plain::Plain;
use ctr_disk::{Disk, Failed};
use ctr_mem_disk::SilentDisk;
use ctr_types::File;
use std::alloc::{AllocError, Global};

// Adds the bytes of a Checkpoint: the next transaction, and all below it open with no heads.
fn add_checkpoint(bytes: &mut Vec<u8>, next: u64) -> Result<(), AllocError> {
    bytes.push(1)?;
    bytes.extend_from_slice(&next.to_le_bytes())?;
    bytes.extend_from_slice(&next.saturating_sub(1).to_le_bytes())?;
    for xid in 1..next {
        bytes.extend_from_slice(&xid.to_le_bytes())?;
        bytes.extend_from_slice(&[0; 8])?;
    }
    bytes.extend_from_slice(&[0; 17])
}

// Adds what stands behind the first gate of a file whose one record this is.
fn add_batch(bytes: &mut Vec<u8>, lsn: u64, record: &[u8]) -> Result<(), AllocError> {
    let len = record.len() as u64;
    bytes.extend_from_slice(&len.wrapping_add(8).to_le_bytes())?;
    bytes.extend_from_slice(&lsn.to_le_bytes())?;
    bytes.extend_from_slice(&1u32.to_le_bytes())?;
    bytes.extend_from_slice(&len.to_le_bytes())?;
    bytes.extend_from_slice(record)?;
    bytes.push(0)?;
    Ok(())
}

// The bytes of a file whose one record is such a Checkpoint, behind its first gate.
fn batch_bytes(alloc: Global, lsn: u64, next: u64) -> Result<Vec<u8>, AllocError> {
    let mut record = Vec::new(alloc);
    let mut bytes = Vec::new(alloc);
    add_checkpoint(&mut record, next)?;
    add_batch(&mut bytes, lsn, &record)?;
    Ok(bytes)
}

// Writes a batch behind the closed first gate of LogB, and opens that.
fn write_batch(disk: &mut SilentDisk, bytes: &[u8]) -> Result<(), Failed> {
    disk.write(File::LogB, 1, bytes)?;
    disk.sync()?;
    disk.write(File::LogB, 0, &[1])?;
    disk.sync()
}

/// Begins a generation in LogB behind so many records, all of which are durable in LogA; it says whether that went well.
pub fn begin(alloc: Global, disk: &mut SilentDisk, plain: &Plain) -> bool {
    let lsn = (plain.count() as u64).wrapping_add(2);
    match batch_bytes(alloc, lsn, plain.last().next) {
        Ok(bytes) => write_batch(disk, &bytes).is_ok(),
        Err(_) => false,
    }
}
