// Streams that are long, and streams that are cut short.
ghost use Rattle.std.specs.Prelude.{◌≤◌, IfOk};

use ctr_io::{Failed, ReadSource, Sink, Source, WriteSink};
use std::alloc::{AllocError, Global};
use std::io::{self, ErrorKind, Read, Write};
use std::test::Fail;
use std::{fs, mem};

// A million bytes whose values tell where they stand.
fn million(alloc: Global) -> Result<Vec<u8>, AllocError> {
    let mut bytes = Vec::new(alloc);
    for n in 0..1_000_000u32 {
        bytes.push((n % 251) as u8)?;
    }
    Ok(bytes)
}

// Puts all bytes, piece by piece as the sink takes them.
fn put_all<W: Write>(sink: &mut WriteSink<W>, bytes: &[u8]) -> bool {
    let mut rest = bytes;
    for _ in 0..1_000_000u32 {
        if rest.is_empty() {
            return true;
        }
        match sink.put(rest) {
            Ok(n) if n > 0 && n <= rest.len() => rest = &rest[n..],
            _ => return false,
        }
    }
    false
}

// Takes all bytes there are.
fn take_all<R: Read>(alloc: Global, source: &mut ReadSource<R>) -> Result<Vec<u8>, Fail> {
    let mut bytes = Vec::new(alloc);
    let mut buffer = [0; 4096];
    for _ in 0..1_000_000u32 {
        match source.take(&mut buffer) {
            Ok(0) => return Ok(bytes),
            Ok(n) => bytes.extend_from_slice(&buffer[..n.min(4096)])?,
            Err(_) => return Err(Fail::new("a take failed")),
        }
    }
    Err(Fail::new("no end"))
}

const LONG: &str = "a_long_file";

// Whether all bytes were put in a file, and how many puts failed.
fn put_in_file(rt: HostRuntime, bytes: &[u8]) -> io::Result<(bool, u64)> {
    let file = fs::File::create(&rt, LONG)?;
    let mut sink = WriteSink::new(file);
    let has_put = put_all(&mut sink, bytes);
    Ok((has_put, sink.faults()))
}

fn take_counting<R: Read>(
    alloc: Global,
    source: &mut ReadSource<R>,
) -> Result<(Vec<u8>, u64), Fail> {
    let bytes = take_all(alloc, source)?;
    Ok((bytes, source.faults()))
}

// The bytes that were taken from that file, and how many takes failed.
fn take_from_file(rt: HostRuntime) -> Result<(Vec<u8>, u64), Fail> {
    let file = fs::File::open(&rt, LONG)?;
    let mut source = ReadSource::new(file);
    take_counting(rt.alloc(), &mut source)
}

// Whether what a sink puts in a file is what a source takes from it, and no call failed.
fn pass(rt: HostRuntime, bytes: &[u8]) -> Result<bool, Fail> {
    let (has_put, failed) = put_in_file(rt, bytes)?;
    let (read, faults) = take_from_file(rt)?;
    Ok(has_put && failed == 0 && faults == 0 && read.as_slice() == bytes)
}

#[test]
fn a_million_bytes_through_a_file(rt: HostRuntime) -> Result<(), Fail> {
    let bytes = million(rt.alloc())?;
    assert!(rt; pass(rt, &bytes)?);
    fs::remove_file(&rt, LONG)?;
    Ok(())
}

// What a stream does at its next calls, the last one ever after.
#[derive(Clone, Copy)]
enum Turn {
    Interrupted,
    One,
    Nothing,
    Broken,
}

#[derive(Drop)]
struct Halting {
    next: Turn,
    then: Turn,
}

impl Halting {
    fn turn(&mut self) -> io::Result<usize>
        ensures { IfOk result (λ n. n ≤ 1) }
    {
        let then = self.then;
        match mem::replace(&mut self.next, then) {
            Turn::Interrupted => Err(io::Error::from(ErrorKind::Interrupted)),
            Turn::One => Ok(1),
            Turn::Nothing => Ok(0),
            Turn::Broken => Err(io::Error::from(ErrorKind::BrokenPipe)),
        }
    }
}

impl Read for Halting {
    fn read(&mut self, buf: &mut [u8]) -> io::Result<usize> {
        let n = self.turn()?;
        Ok(n.min(buf.len()))
    }
}

impl Write for Halting {
    fn write(&mut self, buf: &[u8]) -> io::Result<usize> {
        let n = self.turn()?;
        Ok(n.min(buf.len()))
    }

    fn flush(&mut self) -> io::Result<()> {
        Ok(())
    }
}

// A stream's next turns, what a call answers, and how many have failed then.
struct Case(Turn, Turn, Result<usize, Failed>, u64);

const TAKES: [Case; 3] = [
    Case(Turn::Interrupted, Turn::One, Ok(1), 0),
    Case(Turn::Nothing, Turn::One, Ok(0), 0),
    Case(Turn::Broken, Turn::One, Err(Failed), 1),
];

const PUTS: [Case; 3] = [
    Case(Turn::Interrupted, Turn::One, Ok(1), 0),
    Case(Turn::Nothing, Turn::One, Err(Failed), 1),
    Case(Turn::Interrupted, Turn::Broken, Err(Failed), 1),
];

impl Case {
    fn stream(&self) -> Halting {
        Halting {
            next: self.0,
            then: self.1,
        }
    }

    fn takes(&self) -> (Result<usize, Failed>, u64) {
        let mut source = ReadSource::new(self.stream());
        (source.take(&mut [0; 4]), source.faults())
    }

    fn puts(&self) -> (Result<usize, Failed>, u64) {
        let mut sink = WriteSink::new(self.stream());
        (sink.put(b"abc"), sink.faults())
    }
}

#[test]
fn takes_of_a_reader(rt: HostRuntime) -> Result<(), Fail> {
    for case in &TAKES {
        assert_eq!(rt; case.takes(), (case.2, case.3));
    }
    Ok(())
}

#[test]
fn puts_on_a_writer(rt: HostRuntime) -> Result<(), Fail> {
    for case in &PUTS {
        assert_eq!(rt; case.puts(), (case.2, case.3));
    }
    Ok(())
}
