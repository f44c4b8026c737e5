// Carrying a script out in file order, compacting its stores at rest, and writing what a reader at the water finds there.
ghost use Rattle.std.specs.Prelude.{◌≡◌, ◌≢◌, ◌≤◌, ◌⊎◌, vec_len, IfOk, IsErrAnd, IsOkAnd};
ghost use Rattle.stamp_base.specs.declared.limits.TheConstants.{LINE_LIMIT};
ghost use Rattle.port_io.specs.Ports.{Risen, Gains};
ghost use Rattle.session_script.specs.Script.{script_of, data_of};
ghost use Rattle.session_script.specs.declared.mode.Mode.TheVariants.{Replay};
ghost use Rattle.omid_top.specs.Commands.{Compacts};
ghost use Rattle.omid_top.specs.Compaction.{KeepsCompaction, compact_text, compact_told};
ghost use Rattle.omid_top.specs.Promise.{GainsFront};
ghost use Rattle.omid_top.specs.Texts.{bad_line_text};

use crate::archive_text::text_of;
use crate::bad_line::named;
use crate::progress::TellsGate;
use crate::script::{Mode, Script, ScriptCause, ScriptFault, read_script};
use crate::{Status, print};
use cell_compaction::{Archive, compaction_keeps_snapshots, snapshots_are_visible};
use cluster_core::Stores;
use port_io::{ReadStop, Sink, Source, read_up_to};
use replay_driver::replay_told;
use run_driver::Gate;
use script_service::scripts_keep_service;
use stamp_base::{BYTE_LIMIT, NoMemory, Stamp};
use std::alloc::Global;

/// Reads a script, carries it out in file order, and writes what a reader at the water finds in its stores, compacted to that
/// water. The gate is told how far it is.
pub fn compact_source<S: Source, K: Sink, G: Gate>(
    alloc: Global,
    water: Stamp,
    source: &mut S,
    sink: &mut K,
    gate: &G,
) -> Status
    ensures compact { Compacts water result.code (S.left source.old) (S.left source.new) (K.held sink.old) (K.held sink.new) }
    ensures source_failed { result.code ≡ 4 → Risen (S.faults source.old) (S.faults source.new) × (sink.new ≡ sink.old) }
    ensures source_worked { result.code ≢ 4 → S.faults source.new ≡ S.faults source.old }
    ensures sink_failed { result.code ≡ 5 → Risen (K.faults sink.old) (K.faults sink.new) }
    ensures sink_worked { result.code ≢ 5 → K.faults sink.new ≡ K.faults sink.old }
    ensures no_memory { result.code ≡ 6 → sink.new ≡ sink.old }
{
    match read_up_to(alloc, source, BYTE_LIMIT) {
        Ok(bytes) => compact_bytes(alloc, water, &bytes, sink, gate),
        Err(ReadStop::TooLong) => named(sink, 0, ScriptCause::TooLong),
        Err(ReadStop::Failed) => Status::SOURCE_FAILED,
        Err(ReadStop::NoMemory) => Status::NO_MEMORY,
    }
}

/// Carries out the script that the bytes are.
fn compact_bytes<K: Sink, G: Gate>(
    alloc: Global,
    water: Stamp,
    bytes: &[u8],
    sink: &mut K,
    gate: &G,
) -> Status
    ensures compacted { result.code ≡ 0 → IsOkAnd (script_of bytes.now Replay) (λ script.
        KeepsCompaction script water × Gains (K.held sink.old) (K.held sink.new) (compact_text script water)) }
    ensures bad_line { result.code ≡ 3 → IsErrAnd (script_of bytes.now Replay) (λ bad.
        Gains (K.held sink.old) (K.held sink.new) (bad_line_text bad)) }
    ensures sink_failed { result.code ≡ 5 → Risen (K.faults sink.old) (K.faults sink.new) }
    ensures sink_worked { result.code ≢ 5 → K.faults sink.new ≡ K.faults sink.old }
    ensures cut { result.code ≡ 5 → GainsFront (K.held sink.old) (K.held sink.new) (compact_told water (script_of bytes.now Replay)) }
    ensures no_memory { result.code ≡ 6 → sink.new ≡ sink.old }
    ensures codes { (result.code ≡ 0) ⊎ (result.code ≡ 3) ⊎ (result.code ≡ 5) ⊎ (result.code ≡ 6) }
{
    match read_script(alloc, bytes, Mode::Replay) {
        Ok(script) => compact_script(alloc, water, &script, sink, gate),
        Err(ScriptFault::At { line, cause }) => named(sink, line, cause),
        Err(ScriptFault::NoMemory) => Status::NO_MEMORY,
    }
}

/// Carries the script out, and writes what a reader at the water finds. All memory is taken before the first byte is written.
fn compact_script<K: Sink, G: Gate>(
    alloc: Global,
    water: Stamp,
    script: &Script,
    sink: &mut K,
    gate: &G,
) -> Status
    requires { vec_len script.now.lines ≤ LINE_LIMIT }
    ensures compacted { result.code ≡ 0 → KeepsCompaction (data_of script.now) water × Gains (K.held sink.old) (K.held sink.new) (compact_text (data_of script.now) water) }
    ensures sink_failed { result.code ≡ 5 → Risen (K.faults sink.old) (K.faults sink.new) }
    ensures sink_worked { result.code ≢ 5 → K.faults sink.new ≡ K.faults sink.old }
    ensures cut { result.code ≡ 5 → GainsFront (K.held sink.old) (K.held sink.new) (compact_text (data_of script.now) water) }
    ensures no_memory { result.code ≡ 6 → sink.new ≡ sink.old }
    ensures codes { (result.code ≡ 0) ⊎ (result.code ≡ 5) ⊎ (result.code ≡ 6) }
{
    match compacted(alloc, water, script, gate) {
        Ok(text) => match print::print_text(sink, &text) {
            Ok(()) => Status::DONE,
            Err(_) => Status::SINK_FAILED,
        },
        Err(NoMemory) => Status::NO_MEMORY,
    }
}

/// What a reader at the water finds in the stores of the script, once it is carried out and they are compacted.
fn compacted<G: Gate>(
    alloc: Global,
    water: Stamp,
    script: &Script,
    gate: &G,
) -> Result<Vec<u8>, NoMemory>
    requires { vec_len script.now.lines ≤ LINE_LIMIT }
    ensures text { IfOk result (λ text. text.items ≡ compact_text (data_of script.now) water) }
    ensures keeps { IfOk result (λ text. KeepsCompaction (data_of script.now) water) }
{
    snapshots_are_visible();
    compaction_keeps_snapshots();
    scripts_keep_service();
    let cluster = replay_told(alloc, script, &TellsGate { gate })?;
    // That the history is isolated, serial and explained is known of the cluster alone, while it is whole.
    let _history = cluster.history();
    let Stores { cells, table, .. } = cluster.into_stores();
    let archive = Archive::compact(alloc, cells, &table, water)?;
    text_of(alloc, &archive, water)
}
