// The program around the top call: the words that it was called with, standard input and output, and the status that
// it ends with.
ghost use Rattle.std.specs.Prelude.{◌≡◌, ◌≢◌, ◌≤◌, ◌⊎◌, [], map, string_bytes, IfOk, OnErr, OnOk};
ghost use Rattle.std.specs.Str.{IsUtf8};
ghost use Rattle.omid_top.specs.Texts.{IsAnyAudit, IsKnown};

use crate::{ShowingGate, Status, omid};
use port_io::{Failed, StdSink, StdSource};
use stamp_base::NoMemory;
use std::alloc::Global;
use std::env::{Env, FillError};
use std::io::{Stderr, Stdin, Stdout};
use std::sync::Wait;
use std::thread::Threads;
use std::time::Clock;

/// Carries out what the words behind the program's name ask for, from standard input to standard output, and gives
/// the status that the process ends with. Where `errors` is a terminal, it shows there how far a long script is
/// carried out. The status is that of `omid`, or 5 where standard output did not take all to the
/// end, or 6 where there is no memory for the words.
pub fn program<R: Env + Alloc<A = Global> + Clock + Threads + Wait + Sync>(
    rt: &R,
    input: Stdin,
    output: Stdout,
    errors: Stderr,
) -> Status
    ensures { (result.code ≤ 9) × (result.code ≢ 1) }
{
    match words_behind(rt, rt.alloc()) {
        Ok(words) => carried_out(
            rt,
            &words,
            StdSource::new(input),
            StdSink::new(output),
            &ShowingGate::new(rt, errors),
        ),
        Err(NoMemory) => Status::NO_MEMORY,
    }
}

/// The longest word that is told from others. No word of a command is longer.
const LONGEST: usize = 64;

/// The words behind the program's name. One that is no text, or longer than any of a command, stands as an empty word: no command
/// has either. NoMemory where memory is refused.
pub fn words_behind<E: Env>(env: &E, alloc: Global) -> Result<Vec<String>, NoMemory> {
    let mut words = Vec::new(alloc);
    let mut word = [0; LONGEST];
    for place in 1..usize::MAX {
        match env.arg(place, &mut word) {
            Ok(len) => words.push(text_of(alloc, &word[..len])?)?,
            Err(FillError::TooLong) => words.push(String::new(alloc))?,
            Err(FillError::NotPresent) => break,
        }
    }
    Ok(words)
}

/// The text that the bytes are, empty where they are none.
fn text_of(alloc: Global, bytes: &[u8]) -> Result<String, NoMemory>
    ensures text { IfOk result (λ text. IsUtf8 bytes.now → string_bytes text ≡ bytes.now) }
    ensures none { IfOk result (λ text. (IsUtf8 bytes.now → ⊥) → string_bytes text ≡ []) }
{
    match str::from_utf8(bytes) {
        Ok(text) => Ok(text.to_string(alloc)?),
        Err(_) => Ok(String::new(alloc)),
    }
}

/// Calls `omid`, and then ends standard output.
fn carried_out<R: Alloc<A = Global> + Clock + Threads + Wait + Sync>(
    rt: &R,
    words: &[String],
    mut source: StdSource,
    mut sink: StdSink,
    gate: &ShowingGate<'_, R>,
) -> Status
    ensures usage { result.code ≡ 2 → IsKnown (map string_bytes words.now) → ⊥ }
    ensures no_command { (IsKnown (map string_bytes words.now) → ⊥) → (result.code ≡ 2) ⊎ (result.code ≡ 5) }
    ensures judged { result.code ≡ 7 → IsAnyAudit (map string_bytes words.now) }
    ensures codes { (result.code ≤ 9) × (result.code ≢ 1) }
{
    let status = omid(rt, rt.alloc(), words, &mut source, &mut sink, gate);
    last_status(status, sink.finish())
}

/// The status once standard output was ended: what it could not take to the end counts as a fault of the sink.
fn last_status(status: Status, ended: Result<(), Failed>) -> Status
    ensures ended { OnOk ended (result ≡ status) }
    ensures failed { OnErr ended (result.code ≡ 5) }
{
    match ended {
        Ok(()) => status,
        Err(Failed) => Status::SINK_FAILED,
    }
}
