// Carrying a script out on threads over split stores, and writing the history that came of it.
ghost use Rattle.std.specs.Prelude.{◌≡◌, ◌≢◌, ◌≤◌, ◌⊎◌, vec_len, IsErrAnd, IsOkAnd, OnErr, OnOk};
ghost use Rattle.stamp_base.specs.declared.limits.TheConstants.{LINE_LIMIT};
ghost use Rattle.stamp_base.specs.Setups.{numbers_of};
ghost use Rattle.port_io.specs.Ports.{Risen, Gains};
ghost use Rattle.session_script.specs.Script.{script_of, data_of};
ghost use Rattle.session_script.specs.declared.mode.Mode.TheVariants.{Split};
ghost use Rattle.command_semantics.specs.Answers.{Answers};
ghost use Rattle.command_semantics.specs.Planned.{Planned};
ghost use Rattle.log_refinement.specs.Served.{Served};
ghost use Rattle.service_rules.specs.Service.{KeepsService};
ghost use Rattle.split_driver.specs.Splits.{MaySplit, SplitsTo, SplitStops};
ghost use Rattle.omid_top.specs.Commands.{RunsSplit};
ghost use Rattle.omid_top.specs.Promise.{GainsFront, WritesSplit, WritesTorn, WritesFront, IsCutSplit};
ghost use Rattle.omid_top.specs.Texts.{bad_line_text, spent_text};

use crate::bad_line::named;
use crate::form::Form;
use crate::script::{Mode, Script, ScriptCause, ScriptFault, read_script};
use crate::{Status, print};
use cluster_core::Cluster;
use port_io::{Failed, ReadStop, Sink, Source, read_up_to};
use run_driver::{SplitStop, run_split, split_scripts_may_split};
use split_stores::OpenPartGate;
use stamp_base::BYTE_LIMIT;
use std::alloc::Global;
use std::sync::Wait;
use std::thread::Threads;

/// Reads a script, carries it out on threads over split stores, and writes its history.
pub fn split_source<R: Threads + Wait + Sync, S: Source, K: Sink>(
    rt: &R,
    alloc: Global,
    source: &mut S,
    sink: &mut K,
) -> Status
    ensures split { RunsSplit result.code (S.left source.old) (S.left source.new) (K.held sink.old) (K.held sink.new) }
    ensures source_failed { result.code ≡ 4 → Risen (S.faults source.old) (S.faults source.new) × (sink.new ≡ sink.old) }
    ensures source_worked { result.code ≢ 4 → S.faults source.new ≡ S.faults source.old }
    ensures sink_failed { result.code ≡ 5 → Risen (K.faults sink.old) (K.faults sink.new) }
    ensures sink_worked { result.code ≢ 5 → K.faults sink.new ≡ K.faults sink.old }
    ensures no_memory { result.code ≡ 6 → sink.new ≡ sink.old }
{
    match read_up_to(alloc, source, BYTE_LIMIT) {
        Ok(bytes) => split_bytes(rt, alloc, &bytes, sink),
        Err(ReadStop::TooLong) => named(sink, 0, ScriptCause::TooLong),
        Err(ReadStop::Failed) => Status::SOURCE_FAILED,
        Err(ReadStop::NoMemory) => Status::NO_MEMORY,
    }
}

/// Carries out the script that the bytes are.
fn split_bytes<R: Threads + Wait + Sync, K: Sink>(
    rt: &R,
    alloc: Global,
    bytes: &[u8],
    sink: &mut K,
) -> Status
    ensures ran { result.code ≡ 0 → IsOkAnd (script_of bytes.now Split) (λ script. WritesSplit script (Gains (K.held sink.old) (K.held sink.new))) }
    ensures torn { result.code ≡ 8 → IsOkAnd (script_of bytes.now Split) (λ script. WritesTorn script (Gains (K.held sink.old) (K.held sink.new))) }
    ensures spent { result.code ≡ 9 → IsOkAnd (script_of bytes.now Split) (λ script. Gains (K.held sink.old) (K.held sink.new) spent_text) }
    ensures bad_line { result.code ≡ 3 → IsErrAnd (script_of bytes.now Split) (λ bad. Gains (K.held sink.old) (K.held sink.new) (bad_line_text bad)) }
    ensures cut { result.code ≡ 5 → IsCutSplit (script_of bytes.now Split) (K.held sink.old) (K.held sink.new) }
    ensures sink_failed { result.code ≡ 5 → Risen (K.faults sink.old) (K.faults sink.new) }
    ensures sink_worked { result.code ≢ 5 → K.faults sink.new ≡ K.faults sink.old }
    ensures no_memory { result.code ≡ 6 → sink.new ≡ sink.old }
    ensures codes { (result.code ≡ 0) ⊎ (result.code ≡ 3) ⊎ (result.code ≡ 5) ⊎ (result.code ≡ 6) ⊎ (result.code ≡ 8) ⊎ (result.code ≡ 9) }
{
    split_scripts_may_split();
    match read_script(alloc, bytes, Mode::Split) {
        Ok(script) => split_script(rt, alloc, &script, sink),
        Err(ScriptFault::At { line, cause }) => named(sink, line, cause),
        Err(ScriptFault::NoMemory) => Status::NO_MEMORY,
    }
}

/// Carries the script out and writes its history, or why there is none.
fn split_script<R: Threads + Wait + Sync, K: Sink>(
    rt: &R,
    alloc: Global,
    script: &Script,
    sink: &mut K,
) -> Status
    requires few { vec_len script.now.lines ≤ LINE_LIMIT }
    requires may_split { MaySplit (data_of script.now) }
    ensures ran { result.code ≡ 0 → WritesSplit (data_of script.now) (Gains (K.held sink.old) (K.held sink.new)) }
    ensures torn { result.code ≡ 8 → WritesTorn (data_of script.now) (Gains (K.held sink.old) (K.held sink.new)) }
    ensures spent { result.code ≡ 9 → Gains (K.held sink.old) (K.held sink.new) spent_text }
    ensures cut { result.code ≡ 5 → WritesFront (data_of script.now) (GainsFront (K.held sink.old) (K.held sink.new)) }
    ensures sink_failed { result.code ≡ 5 → Risen (K.faults sink.old) (K.faults sink.new) }
    ensures sink_worked { result.code ≢ 5 → K.faults sink.new ≡ K.faults sink.old }
    ensures no_memory { result.code ≡ 6 → sink.new ≡ sink.old }
    ensures codes { (result.code ≡ 0) ⊎ (result.code ≡ 5) ⊎ (result.code ≡ 6) ⊎ (result.code ≡ 8) ⊎ (result.code ≡ 9) }
{
    match run_split(rt, alloc, script, &OpenPartGate) {
        Ok(cluster) => told(script, &cluster, sink),
        Err(stop) => stopped(script, stop, sink),
    }
}

/// Writes the history of the cluster that the script has come to.
fn told<K: Sink>(script: &Script, cluster: &Cluster, sink: &mut K) -> Status
    requires settles { SplitsTo (data_of script.now) cluster.now }
    requires answers { Answers (data_of script.now) cluster.now.history }
    requires served { Served (data_of script.now) cluster.now.history }
    requires planned { Planned (data_of script.now) cluster.now.history }
    requires service { KeepsService (data_of script.now).setup cluster.now.history }
    requires setup { cluster.now.state.setup ≡ numbers_of script.now.setup }
    ensures ran { result.code ≡ 0 → WritesSplit (data_of script.now) (Gains (K.held sink.old) (K.held sink.new)) }
    ensures cut { result.code ≡ 5 → WritesSplit (data_of script.now) (GainsFront (K.held sink.old) (K.held sink.new)) }
    ensures sink_failed { result.code ≡ 5 → Risen (K.faults sink.old) (K.faults sink.new) }
    ensures sink_worked { result.code ≢ 5 → K.faults sink.new ≡ K.faults sink.old }
    ensures no_memory { result.code ≡ 6 → sink.new ≡ sink.old }
    ensures codes { (result.code ≡ 0) ⊎ (result.code ≡ 5) ⊎ (result.code ≡ 6) }
{
    match print::print_in(Form::History, sink, cluster.history()) {
        Ok(()) => Status::DONE,
        Err(Failed) => Status::SINK_FAILED,
    }
}

/// Writes why the script has not come to its end.
fn stopped<K: Sink>(script: &Script, stop: SplitStop, sink: &mut K) -> Status
    requires { SplitStops (data_of script.now) stop }
    ensures torn { result.code ≡ 8 → WritesTorn (data_of script.now) (Gains (K.held sink.old) (K.held sink.new)) }
    ensures spent { result.code ≡ 9 → Gains (K.held sink.old) (K.held sink.new) spent_text }
    ensures cut { result.code ≡ 5 → WritesFront (data_of script.now) (GainsFront (K.held sink.old) (K.held sink.new)) }
    ensures sink_failed { result.code ≡ 5 → Risen (K.faults sink.old) (K.faults sink.new) }
    ensures sink_worked { result.code ≢ 5 → K.faults sink.new ≡ K.faults sink.old }
    ensures no_memory { result.code ≡ 6 → sink.new ≡ sink.old }
    ensures codes { (result.code ≡ 5) ⊎ (result.code ≡ 6) ⊎ (result.code ≡ 8) ⊎ (result.code ≡ 9) }
{
    let _script = script;
    match stop {
        SplitStop::Torn {
            tick,
            kept,
            replayed,
        } => written(
            print::print_torn(sink, tick, &kept, &replayed),
            Status::TORN,
        ),
        SplitStop::Spent { .. } => written(print::print_spent(sink), Status::SPENT),
        SplitStop::NoMemory => Status::NO_MEMORY,
    }
}

/// The status that goes with a text, unless the sink failed.
fn written(printed: Result<(), Failed>, status: Status) -> Status
    ensures done { OnOk printed (result ≡ status) }
    ensures failed { OnErr printed (result.code ≡ 5) }
{
    match printed {
        Ok(()) => status,
        Err(Failed) => Status::SINK_FAILED,
    }
}
