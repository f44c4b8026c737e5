// What is said of a trace.
ghost use Rattle.std.specs.Prelude.{◌≡◌, IfOk};
ghost use Rattle.trace_reading.specs.FaultText.{fault_text};
ghost use Rattle.trace_index.specs.Attempts.{attempts_of};
ghost use Rattle.trace_report.specs.Verdict.{unclear_text};
ghost use Rattle.omid_check_top.specs.Verdicts.{IsOfRecording, IsRight, IsVerdict, too_long_text};

use crate::judged::judged;
use crate::status;
use crate::words::Question;
use stamp_base::NoMemory;
use std::alloc::Global;
use trace_index::{Fault, Unclear, attempts_of, index};
use trace_reading::{Recording, TraceFault, Want, fault_line, push_words, read_trace};
use trace_report::push_unclear;

/// A text, and the status that goes with it.
#[derive(Drop)]
pub struct Made {
    /// The text, in bytes of UTF-8.
    pub text: Vec<u8>,
    /// The status of the call.
    pub code: u8,
}

/// What is said of the trace that the bytes are. NoMemory where memory is refused.
#[tactic(auto, using(crate::proofs::MadeLemmas::of_bytes, crate::proofs::MadeLemmas::not_read))]
pub fn made_of(alloc: Global, question: Question, bytes: &[u8]) -> Result<Made, NoMemory>
    ensures right { IfOk result (λ made. IsRight question bytes.now made.code made.text.items) }
    ensures codes { IfOk result (λ made. IsVerdict made.code) }
{
    match read_trace(alloc, bytes) {
        Ok(recording) => of_recording(alloc, question, &recording),
        Err(TraceFault::At { line, want }) => not_read(alloc, line, want),
        Err(TraceFault::NoMemory) => Err(NoMemory),
    }
}

/// That the line of this number wants something.
fn not_read(alloc: Global, line: u64, want: Want) -> Result<Made, NoMemory>
    ensures code { IfOk result (λ made. made.code ≡ 3) }
    ensures told { IfOk result (λ made. made.text.items ≡ fault_text line want) }
{
    let text = fault_line(alloc, line, want)?;
    Ok(Made {
        text,
        code: status::BAD_INPUT,
    })
}

/// That the trace is too long. NoMemory where memory is refused.
pub fn too_long(alloc: Global) -> Result<Made, NoMemory>
    ensures code { IfOk result (λ made. made.code ≡ 3) }
    ensures told { IfOk result (λ made. made.text.items ≡ too_long_text) }
{
    let mut text = Vec::new(alloc);
    push_words(&mut text, "a trace of 1 GiB at most is wanted\n")?;
    Ok(Made {
        text,
        code: status::BAD_INPUT,
    })
}

/// What is said of the trace that was read.
#[tactic(auto, using(crate::proofs::MadeLemmas::of_index, crate::proofs::MadeLemmas::of_blame))]
fn of_recording(alloc: Global, question: Question, recording: &Recording) -> Result<Made, NoMemory>
    ensures right { IfOk result (λ made. IsOfRecording question recording.now made.code made.text.items) }
    ensures codes { IfOk result (λ made. IsVerdict made.code) }
{
    match index(alloc, recording) {
        Ok(indexed) => judged(alloc, question, recording, &indexed),
        Err(
            Fault::At {
                txn,
                member,
                key,
                value,
                what,
            },
        ) => unclear(alloc, recording, txn, member, key, value, what),
        Err(Fault::NoMemory) => Err(NoMemory),
    }
}

/// Of which operation it is not clear who wrote what.
fn unclear(
    alloc: Global,
    recording: &Recording,
    txn: usize,
    member: u64,
    key: u64,
    value: u64,
    what: Unclear,
) -> Result<Made, NoMemory>
    ensures code { IfOk result (λ made. made.code ≡ 3) }
    ensures told { IfOk result (λ made. made.text.items ≡ unclear_text recording.now.names (attempts_of recording.now.events) txn member key value what) }
{
    let attempts = attempts_of(alloc, recording.events())?;
    let mut text = Vec::new(alloc);
    push_unclear(
        &mut text, recording, &attempts, txn, member, key, value, what,
    )?;
    Ok(Made {
        text,
        code: status::BAD_INPUT,
    })
}
