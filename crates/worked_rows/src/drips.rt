// A source and a sink that move one byte at a time.
ghost use Rattle.std.specs.Prelude.{None, Some};

use port_io::{Failed, Sink, Source};

/// Gives one byte per read. It does not tell what is left.
#[derive(Drop)]
pub struct DripSource {
    pub bytes: Vec<u8>,
    pub at: usize,
}

impl Source for DripSource {
    ghost left = { λ _. None };

    ghost faults = { λ _. 0 };

    fn read(&mut self, buf: &mut [u8]) -> Result<usize, Failed> {
        match self.bytes.get(self.at) {
            Some(byte) if !buf.is_empty() => {
                buf[0] = *byte;
                self.at += 1;
                Ok(1)
            }
            _ => Ok(0),
        }
    }
}

/// Takes one byte per write. Want of memory counts as a fault.
#[derive(Drop)]
pub struct DripSink {
    pub bytes: Vec<u8>,
    pub faults: u64,
}

impl Sink for DripSink {
    ghost held = { λ s. Some s.bytes.items };

    ghost faults = { λ s. s.faults };

    fn write(&mut self, bytes: &[u8]) -> Result<usize, Failed> {
        let n = bytes.len().min(1);
        match self.bytes.extend_from_slice(&bytes[..n]) {
            Ok(()) => Ok(n),
            Err(_) => {
                self.faults = self.faults.saturating_add(1);
                Err(Failed)
            }
        }
    }
}
