// A source and a sink in memory.
ghost use Rattle.std.specs.Prelude.{◌≤◌, ◌<◌, length};

use crate::calls::Calls;
use crate::{Failed, Sink, Source};
use ctr_types::{List, Text};
use std::alloc::{AllocError, Global};

/// Bytes in memory that come in order. It takes no memory.
#[derive(Drop)]
pub struct MemSource {
    bytes: Text,
    /// How many bytes were taken.
    at: usize,
    calls: Calls,
    ghost inside: { at ≤ length bytes },
    ghost some: { 0 < calls.most },
}

impl MemSource {
    ghost use Rattle.std.specs.Prelude.{◌-◌, ◌^◌};
    ghost use Rattle.ctr_io.specs.Memory.{SourceStarts};

    /// A source of these bytes. The calls of `take` whose numbers, from 1, are in the list fail.
    pub fn new(bytes: Text, fails: List<u64>) -> Self
        ensures { SourceStarts bytes fails (2 ^ 64 - 1) result }
    {
        MemSource::in_pieces(bytes, fails, usize::MAX)
    }

    /// The same, which gives at most so many bytes a call.
    pub fn in_pieces(bytes: Text, fails: List<u64>, most: usize) -> Self
        requires { 0 < most }
        ensures { SourceStarts bytes fails most result }
    {
        MemSource {
            bytes,
            at: 0,
            calls: Calls::new(fails, most),
        }
    }
}

impl Source for MemSource {
    ghost use Rattle.std.specs.Prelude.{◌≡◌, ◌↔◌, [], min, true, is_err, IfOk, OnErr};
    ghost use Rattle.ctr_types.specs.Faults.{HasCause};
    ghost use Rattle.ctr_io.specs.Outside.{TakesNext};
    ghost use Rattle.ctr_io.specs.Memory.{bytes_left, takes, is_listed, CallCounts};

    ghost tells = { true };

    ghost left = { bytes_left };

    ghost faults_of = { λ s. (takes s).faults };

    fn take(&mut self, into: &mut [u8]) -> Result<usize, Failed>
        requires { 0 < length into.old }
        ensures bound { IfOk result (λ n. n ≤ length into.old) }
        ensures amount { IfOk result (λ n. n ≡ min (min (length (bytes_left self.old)) (length into.old)) (takes self.old).most) }
        ensures told { IfOk result (λ n. TakesNext n into.new (bytes_left self.old) (bytes_left self.new)) }
        ensures end { IfOk result (λ n. (n ≡ 0) ↔ (bytes_left self.old ≡ [])) }
        ensures err { OnErr result (bytes_left self.new ≡ bytes_left self.old) }
        ensures listed { is_err result ≡ is_listed (takes self.old) }
        ensures counts { CallCounts (takes self.old) (takes self.new) }
        ensures cause { HasCause (takes self.old).faults (takes self.new).faults result }
    {
        self.calls.call()?;
        let left = &self.bytes.as_slice()[self.at..];
        let n = left.len().min(into.len()).min(self.calls.most);
        for i in 0..n {
            into[i] = left[i];
        }
        self.at += n;
        Ok(n)
    }

    fn faults(&self) -> u64 {
        self.calls.faults
    }
}

/// Bytes that were put, in memory.
#[derive(Drop)]
pub struct MemSink {
    bytes: Vec<u8>,
    calls: Calls,
    starved: u64,
    ghost some: { 0 < calls.most },
}

impl MemSink {
    ghost use Rattle.std.specs.Prelude.{◌≡◌, ◌-◌, ◌^◌};
    ghost use Rattle.ctr_io.specs.Memory.{SinkStarts, bytes_put, starved_puts};

    /// An empty sink. The calls of `put` whose numbers, from 1, are in the list fail, and those to
    /// which memory is refused. It takes no memory.
    pub fn new(alloc: Global, fails: List<u64>) -> Self
        ensures { SinkStarts fails (2 ^ 64 - 1) result }
    {
        MemSink::in_pieces(alloc, fails, usize::MAX)
    }

    /// The same, which takes at most so many bytes a call.
    pub fn in_pieces(alloc: Global, fails: List<u64>, most: usize) -> Self
        requires { 0 < most }
        ensures { SinkStarts fails most result }
    {
        MemSink {
            bytes: Vec::new(alloc),
            calls: Calls::new(fails, most),
            starved: 0,
        }
    }

    /// The bytes that were put.
    pub fn bytes(&self) -> &[u8]
        ensures { result.now ≡ bytes_put self.now }
    {
        &self.bytes
    }

    /// The bytes that were put.
    pub fn into_bytes(self) -> Vec<u8>
        ensures { result.items ≡ bytes_put self }
    {
        let MemSink {
            bytes,
            calls: _,
            starved: _,
        } = self;
        bytes
    }

    /// How many calls failed since memory was refused. It stands still at the last value.
    pub fn starved(&self) -> u64
        ensures { result ≡ starved_puts self.now }
    {
        self.starved
    }
}

impl Sink for MemSink {
    ghost use Rattle.std.specs.Prelude.{◌≡◌, min, true, IfOk, OnErr};
    ghost use Rattle.ctr_types.specs.Faults.{HasCause};
    ghost use Rattle.ctr_io.specs.Outside.{PutsNext};
    ghost use Rattle.ctr_io.specs.Memory.{bytes_put, puts, CallCounts, PutFails};

    ghost tells = { true };

    ghost taken = { bytes_put };

    ghost faults_of = { λ s. (puts s).faults };

    fn put(&mut self, bytes: &[u8]) -> Result<usize, Failed>
        ensures bound { IfOk result (λ n. (n ≤ length bytes.now) × (0 < length bytes.now → 0 < n)) }
        ensures amount { IfOk result (λ n. n ≡ min (length bytes.now) (puts self.old).most) }
        ensures told { IfOk result (λ n. PutsNext n bytes.now (bytes_put self.old) (bytes_put self.new)) }
        ensures err { OnErr result (bytes_put self.new ≡ bytes_put self.old) }
        ensures fails { PutFails self.old self.new result }
        ensures counts { CallCounts (puts self.old) (puts self.new) }
        ensures cause { HasCause (puts self.old).faults (puts self.new).faults result }
    {
        self.calls.call()?;
        let n = bytes.len().min(self.calls.most);
        let Ok(()) = self.bytes.extend_from_slice(&bytes[..n]) else {
            self.starved = self.starved.saturating_add(1);
            self.calls.faults = self.calls.faults.saturating_add(1);
            return Err(Failed);
        };
        Ok(n)
    }

    fn faults(&self) -> u64 {
        self.calls.faults
    }
}
