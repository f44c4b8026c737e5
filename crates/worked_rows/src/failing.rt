// Calls whose source or sink fails.
use crate::ports::{call, open_sink, open_source};
use omid_top::OpenGate;
use std::alloc::{AllocError, Global};
use std::sync::Wait;
use std::thread::Threads;

/// More bytes than any text here has.
const ROOM: usize = 4096;

/// The first lines of the text.
pub fn first_lines(alloc: Global, text: &str, count: usize) -> Result<Vec<u8>, AllocError> {
    let mut front = Vec::new(alloc);
    for line in text.lines().take(count) {
        front.extend_from_slice(line.as_bytes())?;
        front.push(b'\n')?;
    }
    Ok(front)
}

/// Whether nothing is written where the read of this number fails.
pub fn reads_nothing<R: Threads + Wait + Sync>(
    rt: &R,
    alloc: Global,
    names: &[&str],
    input: &str,
    number: u64,
) -> Result<bool, AllocError> {
    let mut source = open_source(alloc, input.as_bytes(), &[number])?;
    let mut sink = open_sink(alloc, ROOM, &[])?;
    let status = call(rt, alloc, names, &mut source, &mut sink, &OpenGate)?;
    Ok(status == 4 && sink.bytes().is_empty())
}

/// Whether so many lines of the text went out where the write behind them fails.
pub fn keeps_lines<R: Threads + Wait + Sync>(
    rt: &R,
    alloc: Global,
    names: &[&str],
    input: &str,
    text: &str,
    sent: usize,
) -> Result<bool, AllocError> {
    let mut source = open_source(alloc, input.as_bytes(), &[])?;
    let mut sink = open_sink(alloc, ROOM, &[(sent as u64).saturating_add(1)])?;
    let status = call(rt, alloc, names, &mut source, &mut sink, &OpenGate)?;
    let lines = first_lines(alloc, text, sent)?;
    Ok(status == 5 && sink.bytes() == lines.as_slice())
}
