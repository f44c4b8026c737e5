// A source and a sink in memory, whose reads and writes fail by number.
ghost use Rattle.std.specs.Prelude.{◌≡◌, ◌+◌, ◌-◌, ◌<◌, ◌≤◌, ◌↔◌, [], Some, IfOk, IsErr, IsTrue, OnErr, OnOk, Contains, length, take, min, ◌⊎◌};
ghost use Rattle.port_io.specs.Ports.{Risen, Gives, IsAtEnd, Gains};
ghost use Rattle.port_io.specs.Memory.{SourceState, after_read, after_failed_read, SinkState, after_write, after_failed_write};

use crate::{Failed, Sink, Source};
use stamp_base::NoMemory;
use std::alloc::Global;
use std::marker::Model;

/// Bytes to be read, and the numbers of the reads that fail.
#[derive(Drop)]
pub struct MemSource {
    bytes: Vec<u8>,
    at: usize,
    failing: Vec<u64>,
    reads: u64,
    faults: u64,
}

impl Model for MemSource {
    ghost use Rattle.std.specs.Prelude.{◌≤◌, drop, vec_len};
    ghost use Rattle.port_io.specs.Memory.{SourceState};

    ghost Value = { SourceState };

    ghost view = { λ s. record { left = drop s.at s.bytes.items; failing = s.failing.items; reads = s.reads; faults = s.faults } };

    ghost invariant = { λ s. s.at ≤ vec_len s.bytes };
}

impl MemSource {
    /// Reads are counted from 1. Those whose numbers stand in `failing` fail, take nothing and raise the count of
    /// faults.
    pub fn new(bytes: Vec<u8>, failing: Vec<u64>) -> MemSource
        ensures { result ≡ record { left = bytes.items; failing = failing.items; reads = 0; faults = 0 } }
    {
        MemSource {
            bytes,
            at: 0,
            failing,
            reads: 0,
            faults: 0,
        }
    }
}

impl Source for MemSource {
    ghost left = { λ s. Some s.left };

    ghost faults = { λ s. s.faults };

    fn read(&mut self, buf: &mut [u8]) -> Result<usize, Failed>
        ensures bound { IfOk result (λ n. n ≤ length buf.old) }
        ensures taken { IfOk result (λ n. Gives (Some self.old.left) (Some self.new.left) (take n buf.new)) }
        ensures end { IfOk result (λ n. n ≡ 0 → 0 < length buf.old → IsAtEnd (Some self.old.left)) }
        ensures untaken { OnErr result (Some self.new.left ≡ Some self.old.left) }
        ensures failed { OnErr result (Risen self.old.faults self.new.faults) }
        ensures worked { OnOk result (self.new.faults ≡ self.old.faults) }
        ensures no_fall { self.old.faults ≤ self.new.faults }

        ensures by_number { IsErr result ↔ Contains self.old.failing (self.old.reads + 1) }
        ensures count { IfOk result (λ n. n ≡ min (length buf.old) (length self.old.left)) }
        ensures ok { IfOk result (λ n. self.new ≡ after_read self.old n) }
        ensures err { OnErr result (self.new ≡ after_failed_read self.old) }
    {
        if is_named(&self.failing, self.reads) {
            self.reads = self.reads.saturating_add(1);
            self.faults = self.faults.saturating_add(1);
            return Err(Failed);
        }
        self.reads = self.reads.saturating_add(1);
        let n = buf.len().min(self.bytes.len() - self.at);
        buf[..n].copy_from_slice(&self.bytes[self.at..self.at + n]);
        self.at += n;
        Ok(n)
    }
}

/// What was written, up to a room that is taken at the start, and the numbers of the writes that fail.
#[derive(Drop)]
pub struct MemSink {
    bytes: Vec<u8>,
    room: usize,
    failing: Vec<u64>,
    writes: u64,
    faults: u64,
}

impl Model for MemSink {
    ghost use Rattle.std.specs.Prelude.{◌≤◌, vec_len, vec_capacity};
    ghost use Rattle.port_io.specs.Memory.{SinkState};

    ghost Value = { SinkState };

    ghost view = { λ s. record { held = s.bytes.items; room = s.room; failing = s.failing.items; writes = s.writes; faults = s.faults } };

    ghost invariant = { λ s. (s.room ≤ vec_capacity s.bytes) × (vec_len s.bytes ≤ s.room) };
}

impl MemSink {
    /// Room for `room` bytes. Writes are counted from 1. Those whose numbers stand in `failing` fail, take nothing and
    /// raise the count of faults.
    pub fn open(alloc: Global, room: usize, failing: Vec<u64>) -> Result<MemSink, NoMemory>
        ensures { IfOk result (λ sink.
            sink ≡ record { held = []; room = room; failing = failing.items; writes = 0; faults = 0 }) }
    {
        let bytes = Vec::with_capacity(alloc, room)?;
        Ok(MemSink {
            bytes,
            room,
            failing,
            writes: 0,
            faults: 0,
        })
    }

    /// What was written so far.
    pub fn bytes(&self) -> &[u8]
        ensures { result.now ≡ self.now.held }
    {
        self.bytes.as_slice()
    }
}

impl Sink for MemSink {
    ghost held = { λ s. Some s.held };

    ghost faults = { λ s. s.faults };

    fn write(&mut self, bytes: &[u8]) -> Result<usize, Failed>
        ensures bound { IfOk result (λ n. n ≤ length bytes.now) }
        ensures taken { IfOk result (λ n. Gains (Some self.old.held) (Some self.new.held) (take n bytes.now)) }
        ensures nothing { IfOk result (λ n. n ≡ 0 → 0 < length bytes.now → Risen self.old.faults self.new.faults) }
        ensures untaken { OnErr result (Some self.new.held ≡ Some self.old.held) }
        ensures failed { OnErr result (Risen self.old.faults self.new.faults) }
        ensures worked { IfOk result (λ n. (0 < n) ⊎ (length bytes.now ≡ 0) → self.new.faults ≡ self.old.faults) }
        ensures no_fall { self.old.faults ≤ self.new.faults }

        ensures by_number { IsErr result ↔ Contains self.old.failing (self.old.writes + 1) }
        ensures count { IfOk result (λ n. n ≡ min (length bytes.now) (self.old.room - length self.old.held)) }
        ensures ok { IfOk result (λ n. self.new ≡ after_write self.old bytes.now n) }
        ensures err { OnErr result (self.new ≡ after_failed_write self.old) }
    {
        if is_named(&self.failing, self.writes) {
            self.writes = self.writes.saturating_add(1);
            self.faults = self.faults.saturating_add(1);
            return Err(Failed);
        }
        self.writes = self.writes.saturating_add(1);
        let n = bytes.len().min(self.room - self.bytes.len());
        if n == 0 && !bytes.is_empty() {
            self.faults = self.faults.saturating_add(1);
            return Ok(0);
        }
        match self.bytes.extend_from_slice(&bytes[..n]) {
            Ok(()) => Ok(n),
            Err(_) => unreachable!(),
        }
    }
}

// Whether the call after so many is named. No number of 64 bits names a later one.
fn is_named(failing: &[u64], made: u64) -> bool
    ensures { IsTrue result ↔ Contains failing.now (made + 1) }
{
    match made.checked_add(1) {
        Some(number) => failing.contains(&number),
        None => false,
    }
}
