// What the program writes for words and bytes.
use crate::ports::{open_sink, open_source, words_of};
use omid_top::{OpenGate, omid};
use std::alloc::{AllocError, Global};
use std::sync::Wait;
use std::thread::Threads;

/// More bytes than any of the texts has.
const ROOM: usize = 262_144;

/// The pieces, one behind the other.
pub fn joined(alloc: Global, pieces: &[&str]) -> Result<Vec<u8>, AllocError> {
    let mut text = Vec::new(alloc);
    for piece in pieces {
        text.extend_from_slice(piece.as_bytes())?;
    }
    Ok(text)
}

/// What the program writes for the words and the input, and its status.
pub fn answer_of<R: Threads + Wait + Sync>(
    rt: &R,
    alloc: Global,
    names: &[&str],
    input: &[u8],
) -> Result<(Vec<u8>, u8), AllocError> {
    let words = words_of(alloc, names)?;
    written_for(rt, alloc, &words, input)
}

/// The same for words that are texts of their own.
pub fn written_for<R: Threads + Wait + Sync>(
    rt: &R,
    alloc: Global,
    words: &[String],
    input: &[u8],
) -> Result<(Vec<u8>, u8), AllocError> {
    let mut source = open_source(alloc, input, &[])?;
    let mut sink = open_sink(alloc, ROOM, &[])?;
    let status = omid(rt, alloc, words, &mut source, &mut sink, &OpenGate);
    let written = sink.bytes().to_vec(alloc)?;
    Ok((written, status.code))
}

/// Whether the program writes this for the words and the input, and ends with this status.
pub fn answers<R: Threads + Wait + Sync>(
    rt: &R,
    alloc: Global,
    names: &[&str],
    input: &[u8],
    text: &[u8],
    ended: u8,
) -> Result<bool, AllocError> {
    let (written, status) = answer_of(rt, alloc, names, input)?;
    Ok(status == ended && written.as_slice() == text)
}

/// Whether an audit finds the history isolated.
pub fn is_isolated<R: Threads + Wait + Sync>(
    rt: &R,
    alloc: Global,
    history: &[u8],
) -> Result<bool, AllocError> {
    let (_, status) = answer_of(rt, alloc, &["audit"], history)?;
    Ok(status == 0)
}

/// Whether the program, called with these words, carries out the script behind the setup, and its history passes the audit.
pub fn is_carried_out<R: Threads + Wait + Sync>(
    rt: &R,
    alloc: Global,
    names: &[&str],
    setup: &str,
    script: &[&str],
    audit: &[&str],
) -> Result<bool, AllocError> {
    let mut whole = joined(alloc, &[setup])?;
    whole.extend_from_slice(&joined(alloc, script)?)?;
    let (history, status) = answer_of(rt, alloc, names, &whole)?;
    let (_, verdict) = answer_of(rt, alloc, audit, &history)?;
    Ok(status == 0 && verdict == 0)
}
