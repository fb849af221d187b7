// Device calls that a suite lists, and the writing of a root, over a disk in memory.
use crate::disks::{disk_of, look_at};
use crate::setup::{Ask, Ran, Setup, UNCOUNTED};
use ctr_disk::Disk;
use ctr_home::{Root, read_root, write_root};
use ctr_mem_disk::MemDisk;
use ctr_suite::split_word;
use ctr_suite_steps::{Page, hex_bytes, split_file, split_number};
use ctr_types::{File, List, Tape};
use std::alloc::{AllocError, Global};

/// The most bytes that a listed call reads.
const READ_MOST: usize = 64;

fn put_failed(page: &mut Page) {
    page.put(b"failed\n");
}

fn read(alloc: Global, disk: &mut MemDisk, page: &mut Page, file: File, at: u64, len: usize) {
    let mut buffer = [9; READ_MOST];
    let into = &mut buffer[..len.min(READ_MOST)];
    if disk.read(file, at, into).is_err() {
        put_failed(page);
        return;
    }
    page.put(b"read");
    for byte in into.iter() {
        page.put_hex(alloc, *byte);
    }
    page.put(b"\n");
}

fn size(alloc: Global, disk: &mut MemDisk, page: &mut Page, file: File) {
    match disk.size(file) {
        Ok(size) => {
            page.put_number(alloc, "size ", size);
            page.put(b"\n");
        }
        Err(_) => put_failed(page),
    }
}

fn write(disk: &mut MemDisk, page: &mut Page, file: File, at: u64, bytes: &[u8]) {
    if disk.write(file, at, bytes).is_err() {
        put_failed(page);
    }
}

fn write_hex(
    alloc: Global,
    disk: &mut MemDisk,
    page: &mut Page,
    file: File,
    at: u64,
    digits: &[u8],
) -> Result<Option<()>, AllocError> {
    let Some(bytes) = hex_bytes(alloc, digits)? else {
        return Ok(None);
    };
    write(disk, page, file, at, &bytes);
    drop(bytes);
    Ok(Some(()))
}

// A call on a file: `size FILE`, `read FILE FROM LENGTH` or `write FILE FROM BYTES`. None where it is none.
fn call_on_file(
    alloc: Global,
    disk: &mut MemDisk,
    page: &mut Page,
    line: &[u8],
) -> Result<Option<()>, AllocError> {
    let (word, rest) = split_word(line);
    let Some((file, rest)) = split_file(rest) else {
        return Ok(None);
    };
    if word == b"size".as_slice() {
        size(alloc, disk, page, file);
        return Ok(Some(()));
    }
    let Some((at, rest)) = split_number(rest) else {
        return Ok(None);
    };
    if word == b"read".as_slice() {
        if let Some((len, _)) = split_number(rest) {
            read(alloc, disk, page, file, at, len as usize);
            return Ok(Some(()));
        }
    }
    if word == b"write".as_slice() {
        return write_hex(alloc, disk, page, file, at, rest);
    }
    Ok(None)
}

fn make_call(
    alloc: Global,
    disk: &mut MemDisk,
    page: &mut Page,
    line: &[u8],
) -> Result<(), AllocError> {
    if line.is_empty() {
        return Ok(());
    }
    if line == b"sync".as_slice() {
        if disk.sync().is_err() {
            put_failed(page);
        }
        return Ok(());
    }
    if call_on_file(alloc, disk, page, line)?.is_none() {
        page.put(b"?? no such call\n");
    }
    Ok(())
}

fn make_calls(
    alloc: Global,
    disk: &mut MemDisk,
    page: &mut Page,
    script: &[u8],
) -> Result<(), AllocError> {
    for line in script.split(|byte| *byte == b'\n') {
        make_call(alloc, disk, page, line)?;
    }
    Ok(())
}

fn ended(alloc: Global, disk: &MemDisk, page: &Page, ask: Ask) -> Result<Ran, AllocError> {
    let text = page.bytes().to_vec(alloc)?;
    let printing = page.bytes().to_vec(alloc)?;
    let seen = look_at(alloc, disk, printing, ask)?;
    Ok(Ran {
        status: 0,
        tape: Tape {
            entries: List::new(alloc),
        },
        text,
        survey: UNCOUNTED,
        seen,
    })
}

/// Makes the calls that the script lists.
pub fn play_calls(alloc: Global, setup: &Setup, ask: Ask) -> Result<Ran, AllocError> {
    let mut disk = disk_of(alloc, setup)?;
    let ran = calls_on(alloc, &mut disk, &setup.script, ask);
    drop(disk);
    ran
}

fn calls_on(alloc: Global, disk: &mut MemDisk, script: &[u8], ask: Ask) -> Result<Ran, AllocError> {
    let mut page = Page::new(alloc);
    make_calls(alloc, disk, &mut page, script)?;
    let ran = ended(alloc, disk, &page, ask);
    drop(page);
    ran
}

// Writes a root whose stamp is above that of the root that is there.
fn write_above(disk: &mut MemDisk, page: &mut Page, root: &Root) {
    match read_root(disk) {
        Ok(Some(old)) if old.stamp < root.stamp => {
            if write_root(disk, root).is_err() {
                put_failed(page);
            }
        }
        Ok(_) => page.put(b"?? no root with a smaller stamp\n"),
        Err(_) => put_failed(page),
    }
}

/// Writes the root.
pub fn play_root(alloc: Global, setup: &Setup, root: Root, ask: Ask) -> Result<Ran, AllocError> {
    let mut disk = disk_of(alloc, setup)?;
    let ran = root_on(alloc, &mut disk, &root, ask);
    drop(disk);
    ran
}

fn root_on(alloc: Global, disk: &mut MemDisk, root: &Root, ask: Ask) -> Result<Ran, AllocError> {
    let mut page = Page::new(alloc);
    write_above(disk, &mut page, root);
    let ran = ended(alloc, disk, &page, ask);
    drop(page);
    ran
}
