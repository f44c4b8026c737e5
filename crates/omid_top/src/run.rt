// Carrying a script out on threads, and writing the history that came of it.
ghost use Rattle.std.specs.Prelude.{◌≡◌, ◌≢◌, ◌≤◌, ◌⊎◌, vec_len, IsErrAnd, IsOkAnd};
ghost use Rattle.stamp_base.specs.declared.limits.TheConstants.{LINE_LIMIT};
ghost use Rattle.port_io.specs.Ports.{Risen, Gains};
ghost use Rattle.session_script.specs.Script.{script_of, data_of};
ghost use Rattle.session_script.specs.declared.mode.Mode.TheVariants.{Run};
ghost use Rattle.turn_rules.specs.Told.{AreForThreads};
ghost use Rattle.omid_top.specs.Commands.{Runs};
ghost use Rattle.omid_top.specs.Promise.{GainsFront, WritesRun, IsCutRun};
ghost use Rattle.omid_top.specs.Texts.{bad_line_text};

use crate::bad_line::named;
use crate::form::Form;
use crate::script::{Mode, Script, ScriptCause, ScriptFault, read_script};
use crate::{Status, print};
use port_io::{Failed, ReadStop, Sink, Source, read_up_to};
use run_driver::Gate;
use stamp_base::{BYTE_LIMIT, NoMemory};
use std::alloc::Global;
use std::sync::Wait;
use std::thread::Threads;
use thread_scripts::run_scripts_are_for_threads;

/// Reads a script, carries it out on threads, and writes its history.
pub fn run_source<R: Threads + Wait + Sync, S: Source, K: Sink, G: Gate>(
    rt: &R,
    alloc: Global,
    source: &mut S,
    sink: &mut K,
    gate: &G,
) -> Status
    ensures run { Runs result.code (S.left source.old) (S.left source.new) (K.held sink.old) (K.held sink.new) }
    ensures source_failed { result.code ≡ 4 → Risen (S.faults source.old) (S.faults source.new) × (sink.new ≡ sink.old) }
    ensures source_worked { result.code ≢ 4 → S.faults source.new ≡ S.faults source.old }
    ensures sink_failed { result.code ≡ 5 → Risen (K.faults sink.old) (K.faults sink.new) }
    ensures sink_worked { result.code ≢ 5 → K.faults sink.new ≡ K.faults sink.old }
    ensures no_memory { result.code ≡ 6 → sink.new ≡ sink.old }
{
    match read_up_to(alloc, source, BYTE_LIMIT) {
        Ok(bytes) => run_bytes(rt, alloc, &bytes, sink, gate),
        Err(ReadStop::TooLong) => named(sink, 0, ScriptCause::TooLong),
        Err(ReadStop::Failed) => Status::SOURCE_FAILED,
        Err(ReadStop::NoMemory) => Status::NO_MEMORY,
    }
}

/// Carries out the script that the bytes are.
fn run_bytes<R: Threads + Wait + Sync, K: Sink, G: Gate>(
    rt: &R,
    alloc: Global,
    bytes: &[u8],
    sink: &mut K,
    gate: &G,
) -> Status
    ensures ran { result.code ≡ 0 → IsOkAnd (script_of bytes.now Run) (λ script. WritesRun script (Gains (K.held sink.old) (K.held sink.new))) }
    ensures bad_line { result.code ≡ 3 → IsErrAnd (script_of bytes.now Run) (λ bad. Gains (K.held sink.old) (K.held sink.new) (bad_line_text bad)) }
    ensures cut { result.code ≡ 5 → IsCutRun (script_of bytes.now Run) (K.held sink.old) (K.held sink.new) }
    ensures sink_failed { result.code ≡ 5 → Risen (K.faults sink.old) (K.faults sink.new) }
    ensures sink_worked { result.code ≢ 5 → K.faults sink.new ≡ K.faults sink.old }
    ensures no_memory { result.code ≡ 6 → sink.new ≡ sink.old }
    ensures codes { (result.code ≡ 0) ⊎ (result.code ≡ 3) ⊎ (result.code ≡ 5) ⊎ (result.code ≡ 6) }
{
    run_scripts_are_for_threads();
    match read_script(alloc, bytes, Mode::Run) {
        Ok(script) => run_script(rt, alloc, script, sink, gate),
        Err(ScriptFault::At { line, cause }) => named(sink, line, cause),
        Err(ScriptFault::NoMemory) => Status::NO_MEMORY,
    }
}

/// Carries the script out and writes its history.
fn run_script<R: Threads + Wait + Sync, K: Sink, G: Gate>(
    rt: &R,
    alloc: Global,
    script: Script,
    sink: &mut K,
    gate: &G,
) -> Status
    requires few { vec_len script.lines ≤ LINE_LIMIT }
    requires for_threads { AreForThreads script.lines.items }
    ensures ran { result.code ≡ 0 → WritesRun (data_of script) (Gains (K.held sink.old) (K.held sink.new)) }
    ensures cut { result.code ≡ 5 → WritesRun (data_of script) (GainsFront (K.held sink.old) (K.held sink.new)) }
    ensures sink_failed { result.code ≡ 5 → Risen (K.faults sink.old) (K.faults sink.new) }
    ensures sink_worked { result.code ≢ 5 → K.faults sink.new ≡ K.faults sink.old }
    ensures no_memory { result.code ≡ 6 → sink.new ≡ sink.old }
    ensures codes { (result.code ≡ 0) ⊎ (result.code ≡ 5) ⊎ (result.code ≡ 6) }
{
    match run_driver::run(rt, alloc, script, gate) {
        Ok((cluster, _turns)) => match print::print_in(Form::History, sink, cluster.history()) {
            Ok(()) => Status::DONE,
            Err(Failed) => Status::SINK_FAILED,
        },
        Err(NoMemory) => Status::NO_MEMORY,
    }
}
