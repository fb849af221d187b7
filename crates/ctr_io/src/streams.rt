//! A source that reads and a sink that writes, which tell nothing of the bytes.
ghost use Rattle.std.specs.Prelude.{◌≤◌, ◌<◌, [], false, length, IfOk};

use crate::{Failed, Sink, Source};
use std::io::{ErrorKind, Read, Write};

/// The bytes of a reader.
#[derive(Drop)]
pub struct ReadSource<R: Read> {
    reader: R,
    faults: u64,
}

impl<R: Read> ReadSource<R> {
    /// The source of a reader, of which no call has failed.
    pub fn new(reader: R) -> Self {
        ReadSource { reader, faults: 0 }
    }
}

// Reads, again where a signal came in between.
fn read_some<R: Read>(reader: &mut R, into: &mut [u8]) -> Result<usize, Failed>
    ensures bound { IfOk result (λ n. n ≤ length into.old) }
{
    for _ in 0..u64::MAX {
        match reader.read(into) {
            Ok(n) => return Ok(n),
            Err(error) if error.kind() == ErrorKind::Interrupted => {}
            Err(_) => return Err(Failed),
        }
    }
    Err(Failed)
}

impl<R: Read> Source for ReadSource<R> {
    ghost tells = { false };

    ghost left = { λ _. [] };

    ghost faults_of = { λ s. s.faults };

    fn take(&mut self, into: &mut [u8]) -> Result<usize, Failed> {
        let taken = read_some(&mut self.reader, into);
        if taken.is_err() {
            self.faults = self.faults.saturating_add(1);
        }
        taken
    }

    fn faults(&self) -> u64 {
        self.faults
    }
}

/// A writer that takes bytes. Nothing is kept back: each put is a write.
#[derive(Drop)]
pub struct WriteSink<W: Write> {
    writer: W,
    faults: u64,
}

impl<W: Write> WriteSink<W> {
    /// The sink of a writer, of which no call has failed.
    pub fn new(writer: W) -> Self {
        WriteSink { writer, faults: 0 }
    }
}

// Writes, again where a signal came in between. A writer that takes nothing has failed.
fn write_some<W: Write>(writer: &mut W, bytes: &[u8]) -> Result<usize, Failed>
    ensures bound { IfOk result (λ n. (n ≤ length bytes.now) × (0 < length bytes.now → 0 < n)) }
{
    if bytes.is_empty() {
        return Ok(0);
    }
    for _ in 0..u64::MAX {
        match writer.write(bytes) {
            Ok(0) => return Err(Failed),
            Ok(n) => return Ok(n),
            Err(error) if error.kind() == ErrorKind::Interrupted => {}
            Err(_) => return Err(Failed),
        }
    }
    Err(Failed)
}

impl<W: Write> Sink for WriteSink<W> {
    ghost tells = { false };

    ghost taken = { λ _. [] };

    ghost faults_of = { λ s. s.faults };

    fn put(&mut self, bytes: &[u8]) -> Result<usize, Failed> {
        let done = write_some(&mut self.writer, bytes);
        if done.is_err() {
            self.faults = self.faults.saturating_add(1);
        }
        done
    }

    fn faults(&self) -> u64 {
        self.faults
    }
}
