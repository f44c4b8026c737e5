// Rows of tables, each a call of the program and what must come of it.
use crate::calls::{answers, joined};
use std::alloc::{AllocError, Global};
use std::sync::Wait;
use std::thread::Threads;
use worked_texts::Replay;

/// An input, what the program writes for it, and its status.
pub type Told = (&'static str, &'static str, u8);

/// The first input for which the program, called with these words, writes something else or ends otherwise. None where each row
/// is as it must be.
pub fn first_unlike<R: Threads + Wait + Sync>(
    rt: &R,
    alloc: Global,
    names: &[&str],
    rows: &[Told],
) -> Result<Option<&'static str>, AllocError> {
    for (input, text, ended) in rows {
        if !answers(rt, alloc, names, input.as_bytes(), text.as_bytes(), *ended)? {
            return Ok(Some(*input));
        }
    }
    Ok(None)
}

/// Whether the program writes the history of the example for its script and these words.
fn tells<R: Threads + Wait + Sync>(
    rt: &R,
    alloc: Global,
    names: &[&str],
    replay: &Replay,
) -> Result<bool, AllocError> {
    let script = joined(alloc, replay.script)?;
    let history = joined(alloc, replay.history)?;
    answers(rt, alloc, names, &script, &history, 0)
}

/// The name of the first example whose history the program does not write for its script and these words. None where each is told.
pub fn first_untold<R: Threads + Wait + Sync>(
    rt: &R,
    alloc: Global,
    names: &[&str],
    replays: &[Replay],
) -> Result<Option<&'static str>, AllocError> {
    for replay in replays {
        if !tells(rt, alloc, names, replay)? {
            return Ok(Some(replay.name));
        }
    }
    Ok(None)
}
