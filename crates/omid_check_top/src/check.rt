// What the program does for its words.
ghost use Rattle.std.specs.Prelude.{◌≡◌, ◌≢◌, ◌≤◌, ◌⊎◌, None, OnOk, OnErr, Some, map, string_bytes};
ghost use Rattle.port_io.specs.Ports.{Risen, Gains};
ghost use Rattle.omid_check_top.specs.declared.words.Question.{Question as QuestionOf};
ghost use Rattle.omid_check_top.specs.declared.words.Command.TheVariants.{Check, Help};
ghost use Rattle.omid_check_top.specs.Words.{command_of};
ghost use Rattle.omid_check_top.specs.Verdicts.{IsVerdict, too_long_text};
ghost use Rattle.omid_check_top.specs.Commands.{Checks, GainsFront, SaysUsage, Told, ToldFront};

use crate::limit::TRACE_LIMIT;
use crate::made::{Made, made_of, too_long};
use crate::status;
use crate::words::{Command, Question, command_of};
use port_io::{Failed, ReadStop, Sink, Source, read_up_to, write_all_of};
use std::alloc::Global;

/// Carries out what the words name: reads a trace, judges it by what is asked, and writes the verdict, with a cycle where the
/// trace is not as asked; or writes how the program is used. The status is 0 where the trace is as asked, or help was, 2 where the
/// words are no command, 3 where the bytes are no trace or do not show who wrote what, 4 where the source failed, 5 where the
/// sink did, 6 where memory was refused, 7 where the trace is not as asked, and 8 where it does not decide. Of all levels a line
/// each is written, and the status is that of committed reads. Where stamps are asked for, the history with them is written in
/// place of the verdict, or with status 9 which limit of histories is not met. On 2, and for help, the source is not read.
pub fn omid_check<S: Source, K: Sink>(
    alloc: Global,
    words: &[String],
    source: &mut S,
    sink: &mut K,
) -> u8
    // What is done for the words.
    ensures checks { (question : QuestionOf) → command_of (map string_bytes words.now) ≡ Some (Check question) →
        Checks question result (S.left source.old) (S.left source.new) (K.held sink.old) (K.held sink.new) }
    ensures help { command_of (map string_bytes words.now) ≡ Some Help → SaysUsage 0 result (K.held sink.old) (K.held sink.new) }
    ensures no_command { command_of (map string_bytes words.now) ≡ None → SaysUsage 2 result (K.held sink.old) (K.held sink.new) }

    // Which words a status goes with, and which leave the source untouched.
    ensures usage { result ≡ 2 → command_of (map string_bytes words.now) ≡ None }
    ensures codes { (result ≤ 9) × (result ≢ 1) }
    ensures unread { (command_of (map string_bytes words.now) ≡ None) ⊎ (command_of (map string_bytes words.now) ≡ Some Help) → source.new ≡ source.old }

    // A fault of the source, a fault of the sink, want of memory.
    ensures source_failed { result ≡ 4 → Risen (S.faults source.old) (S.faults source.new) × (sink.new ≡ sink.old) }
    ensures source_worked { result ≢ 4 → S.faults source.new ≡ S.faults source.old }
    ensures sink_failed { result ≡ 5 → Risen (K.faults sink.old) (K.faults sink.new) }
    ensures sink_worked { result ≢ 5 → K.faults sink.new ≡ K.faults sink.old }
    ensures no_memory { result ≡ 6 → sink.new ≡ sink.old }
{
    match command_of(words) {
        Some(Command::Check { question }) => check_source(alloc, question, source, sink),
        Some(Command::Help) => say_usage(sink, status::DONE),
        None => say_usage(sink, status::USAGE),
    }
}

/// As `omid_check`, for a trace that is judged.
fn check_source<S: Source, K: Sink>(
    alloc: Global,
    question: Question,
    source: &mut S,
    sink: &mut K,
) -> u8
    ensures checks { Checks question result (S.left source.old) (S.left source.new) (K.held sink.old) (K.held sink.new) }
    ensures source_failed { result ≡ 4 → Risen (S.faults source.old) (S.faults source.new) × (sink.new ≡ sink.old) }
    ensures source_worked { result ≢ 4 → S.faults source.new ≡ S.faults source.old }
    ensures sink_failed { result ≡ 5 → Risen (K.faults sink.old) (K.faults sink.new) }
    ensures sink_worked { result ≢ 5 → K.faults sink.new ≡ K.faults sink.old }
    ensures no_memory { result ≡ 6 → sink.new ≡ sink.old }
{
    match read_up_to(alloc, source, TRACE_LIMIT) {
        Ok(bytes) => check_bytes(alloc, question, &bytes, sink),
        Err(ReadStop::TooLong) => say_too_long(alloc, sink),
        Err(ReadStop::Failed) => status::SOURCE_FAILED,
        Err(ReadStop::NoMemory) => status::NO_MEMORY,
    }
}

/// Writes what is said of the trace that the bytes are.
#[tactic(auto, using(crate::proofs::CheckLemmas::front_of))]
fn check_bytes<K: Sink>(alloc: Global, question: Question, bytes: &[u8], sink: &mut K) -> u8
    ensures told { IsVerdict result → Told question bytes.now result (K.held sink.old) (K.held sink.new) }
    ensures cut { result ≡ 5 → ToldFront question bytes.now (K.held sink.old) (K.held sink.new) }
    ensures sink_failed { result ≡ 5 → Risen (K.faults sink.old) (K.faults sink.new) }
    ensures sink_worked { result ≢ 5 → K.faults sink.new ≡ K.faults sink.old }
    ensures no_memory { result ≡ 6 → sink.new ≡ sink.old }
    ensures codes { IsVerdict result ⊎ (result ≡ 5) ⊎ (result ≡ 6) }
{
    match made_of(alloc, question, bytes) {
        Ok(made) => show(sink, &made),
        Err(_) => status::NO_MEMORY,
    }
}

/// Writes that the trace is too long.
fn say_too_long<K: Sink>(alloc: Global, sink: &mut K) -> u8
    ensures told { result ≡ 3 → Gains (K.held sink.old) (K.held sink.new) too_long_text }
    ensures cut { result ≡ 5 → GainsFront (K.held sink.old) (K.held sink.new) too_long_text }
    ensures sink_failed { result ≡ 5 → Risen (K.faults sink.old) (K.faults sink.new) }
    ensures sink_worked { result ≢ 5 → K.faults sink.new ≡ K.faults sink.old }
    ensures no_memory { result ≡ 6 → sink.new ≡ sink.old }
    ensures codes { (result ≡ 3) ⊎ (result ≡ 5) ⊎ (result ≡ 6) }
{
    match too_long(alloc) {
        Ok(made) => show(sink, &made),
        Err(_) => status::NO_MEMORY,
    }
}

/// Writes what was made.
fn show<K: Sink>(sink: &mut K, made: &Made) -> u8
    requires { IsVerdict made.now.code }
    ensures all { result ≢ 5 → (result ≡ made.now.code) × Gains (K.held sink.old) (K.held sink.new) made.now.text.items }
    ensures cut { result ≡ 5 → GainsFront (K.held sink.old) (K.held sink.new) made.now.text.items }
    ensures failed { result ≡ 5 → Risen (K.faults sink.old) (K.faults sink.new) }
    ensures worked { result ≢ 5 → K.faults sink.new ≡ K.faults sink.old }
    ensures codes { (result ≡ made.now.code) ⊎ (result ≡ 5) }
{
    match print_text(sink, &made.text) {
        Ok(()) => made.code,
        Err(Failed) => status::SINK_FAILED,
    }
}

/// Writes how the program is used, and gives this status.
fn say_usage<K: Sink>(sink: &mut K, code: u8) -> u8
    requires { code ≢ 5 }
    ensures usage { SaysUsage code result (K.held sink.old) (K.held sink.new) }
    ensures failed { result ≡ 5 → Risen (K.faults sink.old) (K.faults sink.new) }
    ensures worked { result ≢ 5 → K.faults sink.new ≡ K.faults sink.old }
{
    match print_text(
        sink,
        b"usage: omid_check [stamps] snapshot | serializable [session | real-time], committed, levels, or help\n",
    ) {
        Ok(()) => code,
        Err(Failed) => status::SINK_FAILED,
    }
}

/// Writes the text.
fn print_text<K: Sink>(sink: &mut K, text: &[u8]) -> Result<(), Failed>
    ensures all { OnOk result (Gains (K.held sink.old) (K.held sink.new) text.now) }
    ensures front { OnErr result (GainsFront (K.held sink.old) (K.held sink.new) text.now) }
    ensures failed { OnErr result (Risen (K.faults sink.old) (K.faults sink.new)) }
    ensures worked { OnOk result (K.faults sink.new ≡ K.faults sink.old) }
{
    match write_all_of(sink, text) {
        Ok(()) => Ok(()),
        Err(_) => Err(Failed),
    }
}

/// The status once standard output was ended: what it could not take to the end counts as a fault of the sink.
pub fn last_status(code: u8, ended: Result<(), Failed>) -> u8
    ensures ended { OnOk ended (result ≡ code) }
    ensures failed { OnErr ended (result ≡ 5) }
{
    match ended {
        Ok(()) => code,
        Err(Failed) => status::SINK_FAILED,
    }
}
