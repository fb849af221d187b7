// Bytes in memory: those that stand in two blocks of 4,096, and what zeros cost in a file of 240 MB.
ghost use Rattle.std.specs.Prelude.{◌≤◌};

use ctr_mem_disk::Bytes;
use std::alloc::{AllocError, Global};
use std::test::Fail;

// A file of 4,093 zeros, in which 1, 2, 3 and 4 stand from a place on.
fn fill(alloc: Global, bytes: &mut Bytes, put: u64) -> Result<(), AllocError> {
    bytes.set_len(4093)?;
    bytes.write(alloc, put, &[1, 2, 3, 4])
}

// Six bytes at a place of that file.
fn read(alloc: Global, put: u64, at: u64) -> Result<[u8; 6], AllocError>
    requires { at ≤ 4096 }
{
    let mut into = [9; 6];
    let mut bytes = Bytes::new(alloc);
    fill(alloc, &mut bytes, put)?;
    bytes.read(at, &mut into);
    Ok(into)
}

#[test]
fn bytes_over_two_blocks(rt: HostRuntime) -> Result<(), Fail> {
    assert!(rt; read(rt.alloc(), 4094, 4093)? == [0, 1, 2, 3, 4, 0]);
    assert!(rt; read(rt.alloc(), 4090, 4088)? == [0, 0, 1, 2, 3, 4]);
    assert!(rt; read(rt.alloc(), 4096, 4095)? == [0, 1, 2, 3, 4, 0]);
    assert!(rt; read(rt.alloc(), 0, 4096)? == [0; 6]);
    Ok(())
}

// The homes of 30,000 pages.
const FILE: u64 = 247_680_000;

// The first home of page 15,000. It begins and ends in the middle of blocks.
const PAGE: u64 = 123_840_000;

// A change of a file, and how long it is and how many blocks of it are kept then.
enum Change {
    Length(u64),
    Write(u64, u8),
}

struct Row(Change, u64, usize);

const ROWS: [Row; 10] = [
    Row(Change::Length(FILE), FILE, 0),
    // Zeros, within the file and past its end.
    Row(Change::Write(PAGE, 0), FILE, 0),
    Row(Change::Write(FILE, 0), FILE + 4128, 0),
    Row(Change::Write(PAGE, 7), FILE + 4128, 2),
    Row(Change::Write(0, 7), FILE + 4128, 4),
    // Zeros over a page: its blocks go.
    Row(Change::Write(PAGE, 0), FILE + 4128, 2),
    Row(Change::Length(4097), 4097, 2),
    Row(Change::Length(4096), 4096, 1),
    Row(Change::Length(FILE), FILE, 1),
    Row(Change::Write(FILE, 7), FILE + 4128, 3),
];

fn apply(alloc: Global, bytes: &mut Bytes, row: &Row) -> Result<(u64, usize), AllocError> {
    match row.0 {
        Change::Length(len) => bytes.set_len(len)?,
        Change::Write(at, byte) => bytes.write(alloc, at, &[byte; 4128])?,
    }
    Ok((bytes.len(), bytes.kept()))
}

// The first of the changes after which the file isn't what its row says.
fn first_wrong(alloc: Global, bytes: &mut Bytes) -> Result<Option<usize>, AllocError> {
    for (at, row) in ROWS.iter().enumerate() {
        if apply(alloc, bytes, row)? != (row.1, row.2) {
            return Ok(Some(at));
        }
    }
    Ok(None)
}

fn first_wrong_of(alloc: Global) -> Result<Option<usize>, AllocError> {
    let mut bytes = Bytes::new(alloc);
    first_wrong(alloc, &mut bytes)
}

#[test]
fn zeros_are_not_kept(rt: HostRuntime) -> Result<(), Fail> {
    assert_eq!(rt; first_wrong_of(rt.alloc())?, None);
    Ok(())
}
