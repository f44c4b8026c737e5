// Carrying scripts out: reading one or making the storm's, carrying it out in file order, and writing of its history.
ghost use Rattle.std.specs.Prelude.{◌≡◌, ◌≢◌, ◌≤◌, ◌⊎◌, vec_len, IfSome, IsErrAnd, IsOkAnd};
ghost use Rattle.stamp_base.specs.Ranges.{IsWithin};
ghost use Rattle.stamp_base.specs.declared.limits.TheConstants.{LINE_LIMIT};
ghost use Rattle.port_io.specs.Ports.{Risen, Gains};
ghost use Rattle.session_script.specs.Script.{script_of, data_of};
ghost use Rattle.session_script.specs.declared.mode.Mode.TheVariants.{Replay};
ghost use Rattle.command_semantics.specs.Runs.{replayed};
ghost use Rattle.omid_top.specs.Commands.{Replays, Storms};
ghost use Rattle.omid_top.specs.Promise.{KeepsPromise, GainsFront};
ghost use Rattle.omid_top.specs.Texts.{bad_line_text, replay_text, text_in};

use crate::bad_line::named;
use crate::form::Form;
use crate::progress::TellsGate;
use crate::script::{Mode, Script, ScriptCause, ScriptFault, read_script};
use crate::{Status, print};
use port_io::{Failed, ReadStop, Sink, Source, read_up_to};
use replay_driver::{replay_told, storm_script};
use run_driver::Gate;
use script_service::scripts_keep_service;
use stamp_base::{BYTE_LIMIT, NoMemory};
use std::alloc::Global;

/// Reads a script, carries it out in file order, and writes its history in this form. The gate is told how far it is.
pub fn replay_source<S: Source, K: Sink, G: Gate>(
    alloc: Global,
    form: Form,
    source: &mut S,
    sink: &mut K,
    gate: &G,
) -> Status
    ensures replay { Replays (text_in form) result.code (S.left source.old) (S.left source.new) (K.held sink.old) (K.held sink.new) }
    ensures source_failed { result.code ≡ 4 → Risen (S.faults source.old) (S.faults source.new) × (sink.new ≡ sink.old) }
    ensures source_worked { result.code ≢ 4 → S.faults source.new ≡ S.faults source.old }
    ensures sink_failed { result.code ≡ 5 → Risen (K.faults sink.old) (K.faults sink.new) }
    ensures sink_worked { result.code ≢ 5 → K.faults sink.new ≡ K.faults sink.old }
    ensures no_memory { result.code ≡ 6 → sink.new ≡ sink.old }
{
    match read_up_to(alloc, source, BYTE_LIMIT) {
        Ok(bytes) => replay_bytes(alloc, form, &bytes, sink, gate),
        Err(ReadStop::TooLong) => named(sink, 0, ScriptCause::TooLong),
        Err(ReadStop::Failed) => Status::SOURCE_FAILED,
        Err(ReadStop::NoMemory) => Status::NO_MEMORY,
    }
}

/// Carries out the script that the bytes are.
fn replay_bytes<K: Sink, G: Gate>(
    alloc: Global,
    form: Form,
    bytes: &[u8],
    sink: &mut K,
    gate: &G,
) -> Status
    ensures replayed { result.code ≡ 0 → IsOkAnd (script_of bytes.now Replay) (λ script.
        KeepsPromise script × Gains (K.held sink.old) (K.held sink.new) (text_in form (replayed script))) }
    ensures bad_line { result.code ≡ 3 → IsErrAnd (script_of bytes.now Replay) (λ bad.
        Gains (K.held sink.old) (K.held sink.new) (bad_line_text bad)) }
    ensures sink_failed { result.code ≡ 5 → Risen (K.faults sink.old) (K.faults sink.new) }
    ensures sink_worked { result.code ≢ 5 → K.faults sink.new ≡ K.faults sink.old }
    ensures cut { result.code ≡ 5 → GainsFront (K.held sink.old) (K.held sink.new) (replay_text (text_in form) (script_of bytes.now Replay)) }
    ensures no_memory { result.code ≡ 6 → sink.new ≡ sink.old }
    ensures codes { (result.code ≡ 0) ⊎ (result.code ≡ 3) ⊎ (result.code ≡ 5) ⊎ (result.code ≡ 6) }
{
    match read_script(alloc, bytes, Mode::Replay) {
        Ok(script) => replay_script(alloc, form, &script, sink, gate),
        Err(ScriptFault::At { line, cause }) => named(sink, line, cause),
        Err(ScriptFault::NoMemory) => Status::NO_MEMORY,
    }
}

/// Carries the script out and writes its history.
#[tactic(auto, using(crate::proofs::PromiseLemmas::promise_kept))]
fn replay_script<K: Sink, G: Gate>(
    alloc: Global,
    form: Form,
    script: &Script,
    sink: &mut K,
    gate: &G,
) -> Status
    requires { vec_len script.now.lines ≤ LINE_LIMIT }
    ensures replayed { result.code ≡ 0 → KeepsPromise (data_of script.now) × Gains (K.held sink.old) (K.held sink.new) (text_in form (replayed (data_of script.now))) }
    ensures sink_failed { result.code ≡ 5 → Risen (K.faults sink.old) (K.faults sink.new) }
    ensures sink_worked { result.code ≢ 5 → K.faults sink.new ≡ K.faults sink.old }
    ensures cut { result.code ≡ 5 → GainsFront (K.held sink.old) (K.held sink.new) (text_in form (replayed (data_of script.now))) }
    ensures no_memory { result.code ≡ 6 → sink.new ≡ sink.old }
    ensures codes { (result.code ≡ 0) ⊎ (result.code ≡ 5) ⊎ (result.code ≡ 6) }
{
    scripts_keep_service();
    match replay_told(alloc, script, &TellsGate { gate }) {
        Ok(cluster) => match print::print_in(form, sink, cluster.history()) {
            Ok(()) => Status::DONE,
            Err(Failed) => Status::SINK_FAILED,
        },
        Err(NoMemory) => Status::NO_MEMORY,
    }
}

/// Carries out the storm of so many transactions, and writes the summary of its history.
pub fn storm<K: Sink, G: Gate>(alloc: Global, transactions: u64, sink: &mut K, gate: &G) -> Status
    requires { IsWithin 1 20000 transactions }
    ensures storm { Storms transactions result.code (K.held sink.old) (K.held sink.new) }
    ensures sink_failed { result.code ≡ 5 → Risen (K.faults sink.old) (K.faults sink.new) }
    ensures sink_worked { result.code ≢ 5 → K.faults sink.new ≡ K.faults sink.old }
    ensures no_memory { result.code ≡ 6 → sink.new ≡ sink.old }
{
    match storm_script(alloc, transactions) {
        Ok(script) => replay_script(alloc, Form::Summary, &script, sink, gate),
        Err(NoMemory) => Status::NO_MEMORY,
    }
}
