// Standard input and output. That the system read and wrote what it says is trusted.
ghost use Rattle.std.specs.Prelude.{◌≡◌, ◌≤◌, None, OnOk, OnErr};
ghost use Rattle.port_io.specs.Ports.{Risen};
ghost use Rattle.port_io.specs.declared.standard.TheConstants.{ROOM};

use crate::{Failed, Sink, Source};
use std::io::{Read, Stdin, Stdout, Write};

/// Standard input. It does not tell what is left.
#[derive(Drop)]
pub struct StdSource {
    input: Stdin,
    faults: u64,
}

impl StdSource {
    /// A source of standard input, of which no read failed yet.
    pub fn new(input: Stdin) -> StdSource
        ensures { ⟦<StdSource as Source>⟧.faults result ≡ 0 }
    {
        StdSource { input, faults: 0 }
    }
}

impl Source for StdSource {
    ghost left = { λ _. None };

    ghost faults = { λ s. s.faults };

    fn read(&mut self, buf: &mut [u8]) -> Result<usize, Failed> {
        match self.input.read(buf) {
            Ok(n) => Ok(n),
            Err(_) => {
                self.faults = self.faults.saturating_add(1);
                Err(Failed)
            }
        }
    }
}

/// How many bytes are kept back until they go out together.
const ROOM: usize = 16_384;

/// Standard output. It does not tell what it holds. It keeps bytes back until its room is full, so its owner has to end
/// it by `finish`: it cannot be dropped.
pub struct StdSink {
    out: Stdout,
    kept: [u8; ROOM],
    used: usize,
    faults: u64,
    ghost within: { used ≤ ROOM },
}

impl StdSink {
    /// A sink of standard output, to which nothing went yet.
    pub fn new(out: Stdout) -> StdSink
        ensures { ⟦<StdSink as Sink>⟧.faults result ≡ 0 }
    {
        StdSink {
            out,
            kept: [0; ROOM],
            used: 0,
            faults: 0,
        }
    }

    /// Writes what was kept back. Ok only where this worked and no write failed before, so that all went out; else Failed.
    pub fn finish(mut self) -> Result<(), Failed>
        ensures { OnOk result (⟦<StdSink as Sink>⟧.faults self ≡ 0) }
    {
        let last = self.flush();
        let StdSink {
            out: _,
            kept: _,
            used: _,
            faults,
        } = self;
        if faults > 0 { Err(Failed) } else { last }
    }

    // What could not be written is given up, and counted as a fault.
    fn flush(&mut self) -> Result<(), Failed>
        ensures empty { self.new.used ≡ 0 }
        ensures ok { OnOk result (self.new.faults ≡ self.old.faults) }
        ensures err { OnErr result (Risen self.old.faults self.new.faults) }
        ensures no_fall { self.old.faults ≤ self.new.faults }
    {
        let written = self.out.write_all(&self.kept[..self.used]);
        self.used = 0;
        match written {
            Ok(()) => Ok(()),
            Err(_) => {
                self.faults = self.faults.saturating_add(1);
                Err(Failed)
            }
        }
    }
}

impl Sink for StdSink {
    ghost held = { λ _. None };

    ghost faults = { λ s. s.faults };

    fn write(&mut self, bytes: &[u8]) -> Result<usize, Failed> {
        if self.used == ROOM {
            self.flush()?;
        }
        let n = bytes.len().min(ROOM - self.used);
        self.kept[self.used..self.used + n].copy_from_slice(&bytes[..n]);
        self.used += n;
        Ok(n)
    }
}
