// A call of the program, and the source and sink in memory that it is made with.
use omid_top::{Gate, omid};
use port_io::{MemSink, MemSource, Sink, Source};
use std::alloc::{AllocError, Global};
use std::sync::Wait;
use std::thread::Threads;

/// A source of these bytes, of which the reads of these numbers fail.
pub fn open_source(alloc: Global, bytes: &[u8], failing: &[u64]) -> Result<MemSource, AllocError> {
    let bytes = bytes.to_vec(alloc)?;
    Ok(MemSource::new(bytes, failing.to_vec(alloc)?))
}

/// A sink with this room, of which the writes of these numbers fail.
pub fn open_sink(alloc: Global, room: usize, failing: &[u64]) -> Result<MemSink, AllocError> {
    match MemSink::open(alloc, room, failing.to_vec(alloc)?) {
        Ok(sink) => Ok(sink),
        Err(_) => Err(AllocError),
    }
}

/// The names as words that the program takes.
pub(crate) fn words_of(alloc: Global, names: &[&str]) -> Result<Vec<String>, AllocError> {
    let mut words = Vec::new(alloc);
    for name in names {
        words.push(name.to_string(alloc)?)?;
    }
    Ok(words)
}

/// Calls the program with these words, from this source to this sink. The status that it ends with.
pub fn call<R: Threads + Wait + Sync, S: Source, K: Sink, G: Gate>(
    rt: &R,
    alloc: Global,
    names: &[&str],
    source: &mut S,
    sink: &mut K,
    gate: &G,
) -> Result<u8, AllocError> {
    let words = words_of(alloc, names)?;
    Ok(omid(rt, alloc, &words, source, sink, gate).code)
}
