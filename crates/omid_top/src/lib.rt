//! The top call: words and bytes in, a history, a report or an error line out, and a status.
#![tactic(auto)]

ghost use Rattle.std.specs.Prelude.{◌≡◌, ◌≢◌, ℕ, ◌≤◌, ◌⊎◌, map, string_bytes};
ghost use Rattle.port_io.specs.Ports.{Risen};
ghost use Rattle.history_json.specs.Json.{json_printed};
ghost use Rattle.history_text.specs.Summary.{summarized};
ghost use Rattle.history_text.specs.Text.{printed};
ghost use Rattle.omid_top.specs.Commands.{Replays, Compacts, Runs, RunsSplit, Audits, Storms, SaysUsage};
ghost use Rattle.omid_top.specs.Texts.{IsReplay, IsReplaySummary, IsReplayJson, IsReplayCompact, IsRun, IsRunSplit, IsAudit, IsAuditStrict, IsAnyAudit, IsStorm, IsAnyStorm, IsKnown};

pub use session_script as script;

mod archive_text;
mod audit;
mod bad_line;
mod compact;
mod form;
mod print;
mod process;
mod progress;
mod replay;
mod report;
mod run;
mod split;
mod standard;
mod status;
mod usage;
mod waiting;
mod words;
mod yields;

use form::Form;
use port_io::{Sink, Source};
pub use process::{program, words_behind};
pub use progress::ShowingGate;
pub use run_driver::{Gate, GatePlace, OpenGate, WaitsFor};
use standard::Standard;
pub use status::Status;
use std::alloc::Global;
use std::sync::Wait;
use std::thread::Threads;
use words::Command;

/// Carries out what the words name.
///
/// `replay` reads a script from the source, carries it out in file order, and writes the history to the sink, one
/// line an item; `replay json` writes each item as an object of JSON on a line of its own, and `replay summary` the
/// summary of the history in its place. `replay compact N` compacts the stores that the script leaves to the water N,
/// and writes what a reader at the water finds at each key, and how many rows there were and are. `run` carries the
/// script out on threads, which pass the gate before each step of a stage, and writes the history that came of it;
/// `run split` does so over split stores, where no step passes the gate.
/// `storm N` writes the summary for a script of its own, of N transactions, and reads nothing. `audit` reads a history
/// from the source, as text or as JSON, and writes whether it is snapshot isolated; `audit strict` asks besides that it
/// is serial, in the order of its commits.
///
/// The status is 0 where all was done, and for an audit the history is as asked; 2 where the words are no command,
/// and the usage line is written; 3 where the bytes are no script (no history, for an audit), and the first bad line
/// is written, with its cause; 4 where the source failed, 5 where the sink did, and 6 where memory was refused; 7
/// where the history that was audited is not as asked, and the first broken rule and two items that break it are
/// written; 8 where over split stores something else was kept of an event than comes of it, and the first two items that
/// differ are written, and 9 where an actor has drawn all its ticks there. On 2 the source is not read, and on 3 nothing is carried
/// out. No error of memory comes from judging, and none once the first byte is written.
///
/// The words are text. A caller that has a word which is none hands in an empty one in its place, as `words_behind` does:
/// no command has either.
#[tactic(auto, using(crate::proofs::WordLemmas::one_command, crate::proofs::WordLemmas::one_storm))]
pub fn omid<R: Threads + Wait + Sync, S: Source, K: Sink, G: Gate>(
    rt: &R,
    alloc: Global,
    words: &[String],
    source: &mut S,
    sink: &mut K,
    gate: &G,
) -> Status
    // What is done for the words, status by status.
    ensures replay { IsReplay (map string_bytes words.now) →
        Replays printed result.code (S.left source.old) (S.left source.new) (K.held sink.old) (K.held sink.new) }
    ensures summary { IsReplaySummary (map string_bytes words.now) →
        Replays summarized result.code (S.left source.old) (S.left source.new) (K.held sink.old) (K.held sink.new) }
    ensures json { IsReplayJson (map string_bytes words.now) →
        Replays json_printed result.code (S.left source.old) (S.left source.new) (K.held sink.old) (K.held sink.new) }
    ensures compact { (water : ℕ) → IsReplayCompact water (map string_bytes words.now) →
        Compacts water result.code (S.left source.old) (S.left source.new) (K.held sink.old) (K.held sink.new) }
    ensures run { IsRun (map string_bytes words.now) →
        Runs result.code (S.left source.old) (S.left source.new) (K.held sink.old) (K.held sink.new) }
    ensures run_split { IsRunSplit (map string_bytes words.now) →
        RunsSplit result.code (S.left source.old) (S.left source.new) (K.held sink.old) (K.held sink.new) }
    ensures audit { IsAudit (map string_bytes words.now) →
        Audits Standard.Isolated result.code (S.left source.old) (S.left source.new) (K.held sink.old) (K.held sink.new) }
    ensures audit_strict { IsAuditStrict (map string_bytes words.now) →
        Audits Standard.Strict result.code (S.left source.old) (S.left source.new) (K.held sink.old) (K.held sink.new) }
    ensures storm { (transactions : ℕ) → IsStorm transactions (map string_bytes words.now) →
        Storms transactions result.code (K.held sink.old) (K.held sink.new) }
    ensures no_command { (IsKnown (map string_bytes words.now) → ⊥) → SaysUsage result.code (K.held sink.old) (K.held sink.new) }

    // Which words each status goes with, and which leave the source untouched.
    ensures usage { result.code ≡ 2 → IsKnown (map string_bytes words.now) → ⊥ }
    ensures judged { result.code ≡ 7 → IsAnyAudit (map string_bytes words.now) }
    ensures stopped { 8 ≤ result.code → IsRunSplit (map string_bytes words.now) }
    ensures codes { (result.code ≤ 9) × (result.code ≢ 1) }
    ensures unread { (IsKnown (map string_bytes words.now) → ⊥) ⊎ IsAnyStorm (map string_bytes words.now) → source.new ≡ source.old }

    // A fault of the source, a fault of the sink, want of memory.
    ensures source_failed { result.code ≡ 4 → Risen (S.faults source.old) (S.faults source.new) × (sink.new ≡ sink.old) }
    ensures source_worked { result.code ≢ 4 → S.faults source.new ≡ S.faults source.old }
    ensures sink_failed { result.code ≡ 5 → Risen (K.faults sink.old) (K.faults sink.new) }
    ensures sink_worked { result.code ≢ 5 → K.faults sink.new ≡ K.faults sink.old }
    ensures no_memory { result.code ≡ 6 → sink.new ≡ sink.old }
{
    match words::command_of(words) {
        Some(Command::Replay) => replay::replay_source(alloc, Form::History, source, sink, gate),
        Some(Command::ReplaySummary) => {
            replay::replay_source(alloc, Form::Summary, source, sink, gate)
        }
        Some(Command::ReplayJson) => replay::replay_source(alloc, Form::Json, source, sink, gate),
        Some(Command::ReplayCompact(water)) => {
            compact::compact_source(alloc, words::stamp_of(water), source, sink, gate)
        }
        Some(Command::Run) => run::run_source(rt, alloc, source, sink, gate),
        Some(Command::RunSplit) => split::split_source(rt, alloc, source, sink),
        Some(Command::Audit) => audit::audit_source(alloc, Standard::Isolated, source, sink),
        Some(Command::AuditStrict) => audit::audit_source(alloc, Standard::Strict, source, sink),
        Some(Command::Storm(transactions)) => replay::storm(alloc, transactions, sink, gate),
        None => usage::say_usage(sink),
    }
}
