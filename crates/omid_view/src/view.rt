// What the program does for its words.
ghost use Rattle.std.specs.Prelude.{◌≡◌, ◌≢◌, ◌≤◌, ◌⊎◌, ◌++◌, ℕ, List, IfOk, OnOk, OnErr, map, string_bytes};
ghost use Rattle.port_io.specs.Ports.{Risen, Gains};
ghost use Rattle.omid_view.specs.Views.{GainsFront, IsEnd, IsJudging, IsKnown, Judges, IsSound, IsTold, LineCut, LineTold, Names, SaysUsage, Shown, ShownFront, ShownFrontOf, ShownOf, TellsLine, Views, bad_line_text, usage_text};
ghost use Rattle.omid_view.specs.declared.command.Command.{Command};

use crate::command::{Command, command_of};
use crate::made::{Made, made_of};
use crate::status;
use history_book::Item;
use history_json::read_history;
use history_reading::HistoryFault;
use history_text::LineBuf;
use history_view::Text;
use line_reasons::print_reason;
use port_io::{Failed, ReadStop, Sink, Source, read_up_to, write_all_of};
use stamp_base::{BYTE_LIMIT, NoMemory};
use std::alloc::Global;

/// Carries out what the words name: reads a history, and writes its picture or that of what is broken in it, what is broken and the
/// explanations of its refusals, or a page to explore it. The status is 0 where that was done, 2 where the words are no command, 3
/// where the bytes are no history, 4 where the source failed, 5 where the sink did, 6 where memory was refused, and 7 where a
/// history that was judged is not isolated or, by a strict command, not serial. On 2 the source is not read.
pub fn view<S: Source, K: Sink>(alloc: Global, words: &[String], source: &mut S, sink: &mut K) -> u8
    // What is done for the words.
    ensures views { (command : Command) → Names command (map string_bytes words.now) →
        Views command result (S.left source.old) (S.left source.new) (K.held sink.old) (K.held sink.new) }
    ensures no_command { (IsKnown (map string_bytes words.now) → ⊥) → SaysUsage result (K.held sink.old) (K.held sink.new) }

    // Which words a status goes with, and which leave the source untouched.
    ensures usage { result ≡ 2 → IsKnown (map string_bytes words.now) → ⊥ }
    ensures judged { result ≡ 7 → IsJudging (map string_bytes words.now) }
    ensures codes { (result ≤ 7) × (result ≢ 1) }
    ensures unread { (IsKnown (map string_bytes words.now) → ⊥) → source.new ≡ source.old }

    // A fault of the source, a fault of the sink, want of memory.
    ensures source_failed { result ≡ 4 → Risen (S.faults source.old) (S.faults source.new) × (sink.new ≡ sink.old) }
    ensures source_worked { result ≢ 4 → S.faults source.new ≡ S.faults source.old }
    ensures sink_failed { result ≡ 5 → Risen (K.faults sink.old) (K.faults sink.new) }
    ensures sink_worked { result ≢ 5 → K.faults sink.new ≡ K.faults sink.old }
    ensures no_memory { result ≡ 6 → sink.new ≡ sink.old }
{
    match command_of(words) {
        Some(command) => view_source(alloc, command, source, sink),
        None => say_usage(sink),
    }
}

/// As `view`, for this command.
fn view_source<S: Source, K: Sink>(
    alloc: Global,
    command: Command,
    source: &mut S,
    sink: &mut K,
) -> u8
    requires { IsSound command }
    ensures views { Views command result (S.left source.old) (S.left source.new) (K.held sink.old) (K.held sink.new) }
    ensures judged { result ≡ 7 → Judges command }
    ensures source_failed { result ≡ 4 → Risen (S.faults source.old) (S.faults source.new) × (sink.new ≡ sink.old) }
    ensures source_worked { result ≢ 4 → S.faults source.new ≡ S.faults source.old }
    ensures sink_failed { result ≡ 5 → Risen (K.faults sink.old) (K.faults sink.new) }
    ensures sink_worked { result ≢ 5 → K.faults sink.new ≡ K.faults sink.old }
    ensures no_memory { result ≡ 6 → sink.new ≡ sink.old }
{
    match read_up_to(alloc, source, BYTE_LIMIT) {
        Ok(bytes) => view_bytes(alloc, command, &bytes, sink),
        Err(ReadStop::TooLong) => bad_line(alloc, command, b"", 0, sink),
        Err(ReadStop::Failed) => status::SOURCE_FAILED,
        Err(ReadStop::NoMemory) => status::NO_MEMORY,
    }
}

/// Writes what the command makes of the history that the bytes are, or tells of the first line that is no item.
#[tactic(auto, using(crate::proofs::ViewLemmas::of_items, crate::proofs::ViewLemmas::front_of_items, crate::proofs::ViewLemmas::bad_shown, crate::proofs::ViewLemmas::bad_front, crate::proofs::ViewLemmas::items_judged))]
fn view_bytes<K: Sink>(alloc: Global, command: Command, bytes: &[u8], sink: &mut K) -> u8
    requires { IsSound command }
    ensures shown { IsTold result → Shown command bytes.now result (K.held sink.old) (K.held sink.new) }
    ensures cut { result ≡ 5 → ShownFront command bytes.now (K.held sink.old) (K.held sink.new) }
    ensures judged { result ≡ 7 → Judges command }
    ensures sink_failed { result ≡ 5 → Risen (K.faults sink.old) (K.faults sink.new) }
    ensures sink_worked { result ≢ 5 → K.faults sink.new ≡ K.faults sink.old }
    ensures no_memory { result ≡ 6 → sink.new ≡ sink.old }
    ensures codes { IsTold result ⊎ (result ≡ 5) ⊎ (result ≡ 6) }
{
    match read_history(alloc, bytes) {
        Ok(items) => view_items(alloc, command, &items, sink),
        Err(HistoryFault::At { line }) => bad_line(alloc, command, bytes, line, sink),
        Err(HistoryFault::NoMemory) => status::NO_MEMORY,
    }
}

/// Writes what the command makes of the items.
fn view_items<K: Sink>(alloc: Global, command: Command, items: &[Item], sink: &mut K) -> u8
    requires { IsSound command }
    ensures shown { IsEnd result → ShownOf command items.now result (K.held sink.old) (K.held sink.new) }
    ensures cut { result ≡ 5 → ShownFrontOf command items.now (K.held sink.old) (K.held sink.new) }
    ensures sink_failed { result ≡ 5 → Risen (K.faults sink.old) (K.faults sink.new) }
    ensures sink_worked { result ≢ 5 → K.faults sink.new ≡ K.faults sink.old }
    ensures no_memory { result ≡ 6 → sink.new ≡ sink.old }
    ensures codes { IsEnd result ⊎ (result ≡ 5) ⊎ (result ≡ 6) }
{
    match made_of(alloc, command, items) {
        Ok(made) => show(sink, &made),
        Err(_) => status::NO_MEMORY,
    }
}

/// Writes what was made.
fn show<K: Sink>(sink: &mut K, made: &Made) -> u8
    requires { IsEnd made.now.code }
    ensures all { result ≢ 5 → (result ≡ made.now.code) × Gains (K.held sink.old) (K.held sink.new) made.now.text }
    ensures cut { result ≡ 5 → GainsFront (K.held sink.old) (K.held sink.new) made.now.text }
    ensures failed { result ≡ 5 → Risen (K.faults sink.old) (K.faults sink.new) }
    ensures worked { result ≢ 5 → K.faults sink.new ≡ K.faults sink.old }
    ensures codes { IsEnd result ⊎ (result ≡ 5) }
{
    match print_made(sink, &made.text) {
        Ok(()) => made.code,
        Err(_) => status::SINK_FAILED,
    }
}

fn print_made<K: Sink>(sink: &mut K, text: &Text) -> Result<(), Failed>
    ensures all { OnOk result (Gains (K.held sink.old) (K.held sink.new) text.now) }
    ensures front { OnErr result (GainsFront (K.held sink.old) (K.held sink.new) text.now) }
    ensures failed { OnErr result (Risen (K.faults sink.old) (K.faults sink.new)) }
    ensures worked { OnOk result (K.faults sink.new ≡ K.faults sink.old) }
{
    print_text(sink, text.as_slice())
}

/// Names a line of the bytes that is no item, and for `explain` tells why. Line 0 stands for too many bytes.
fn bad_line<K: Sink>(alloc: Global, command: Command, bytes: &[u8], number: u64, sink: &mut K) -> u8
    ensures told { result ≡ 3 → LineTold command bytes.now number (K.held sink.old) (K.held sink.new) }
    ensures cut { result ≡ 5 → LineCut command bytes.now number (K.held sink.old) (K.held sink.new) }
    ensures failed { result ≡ 5 → Risen (K.faults sink.old) (K.faults sink.new) }
    ensures worked { result ≢ 5 → K.faults sink.new ≡ K.faults sink.old }
    ensures no_memory { result ≡ 6 → sink.new ≡ sink.old }
    ensures codes { (result ≡ 3) ⊎ (result ≡ 5) ⊎ (result ≡ 6) }
{
    match line_told(alloc, command, bytes, number) {
        Ok(text) => show_line(sink, &text),
        Err(_) => status::NO_MEMORY,
    }
}

fn show_line<K: Sink>(sink: &mut K, text: &Text) -> u8
    ensures told { result ≡ 3 → Gains (K.held sink.old) (K.held sink.new) text.now }
    ensures cut { result ≡ 5 → GainsFront (K.held sink.old) (K.held sink.new) text.now }
    ensures failed { result ≡ 5 → Risen (K.faults sink.old) (K.faults sink.new) }
    ensures worked { result ≢ 5 → K.faults sink.new ≡ K.faults sink.old }
    ensures codes { (result ≡ 3) ⊎ (result ≡ 5) }
{
    match print_made(sink, text) {
        Ok(()) => status::BAD_INPUT,
        Err(_) => status::SINK_FAILED,
    }
}

/// What is told of a line that is no item.
fn line_told(alloc: Global, command: Command, bytes: &[u8], number: u64) -> Result<Text, NoMemory>
    ensures { IfOk result (λ text. TellsLine command bytes.now number text) }
{
    let mut text = Text::new(alloc);
    print_bad_line(&mut text, number)?;
    if let Command::Explain { .. } = command {
        print_reason(alloc, &mut text, bytes, number)?;
    }
    Ok(text)
}

fn print_bad_line(text: &mut Text, number: u64) -> Result<(), NoMemory>
    ensures { OnOk result (text.new ≡ text.old ++ bad_line_text number) }
{
    let mut line = LineBuf::new();
    set_bad_line(&mut line, number);
    text.push(line.as_slice())
}

fn set_bad_line(line: &mut LineBuf, number: u64)
    ensures { line.new ≡ bad_line_text number }
{
    line.set_text(b"history line ");
    line.push_number(number);
    line.push_text(b": not an item\n");
}

/// Writes the usage line.
fn say_usage<K: Sink>(sink: &mut K) -> u8
    ensures usage { SaysUsage result (K.held sink.old) (K.held sink.new) }
    ensures failed { result ≡ 5 → Risen (K.faults sink.old) (K.faults sink.new) }
    ensures worked { result ≢ 5 → K.faults sink.new ≡ K.faults sink.old }
{
    match print_text(
        sink,
        b"usage: omid_view picture [brief] [FROM TO] | breach [strict] | explain [strict] | page [strict]\n",
    ) {
        Ok(()) => status::USAGE,
        Err(_) => status::SINK_FAILED,
    }
}

/// Writes the text.
fn print_text<K: Sink>(sink: &mut K, text: &[u8]) -> Result<(), Failed>
    ensures all { OnOk result (Gains (K.held sink.old) (K.held sink.new) text.now) }
    ensures front { OnErr result (GainsFront (K.held sink.old) (K.held sink.new) text.now) }
    ensures failed { OnErr result (Risen (K.faults sink.old) (K.faults sink.new)) }
    ensures worked { OnOk result (K.faults sink.new ≡ K.faults sink.old) }
{
    match write_all_of(sink, text) {
        Ok(()) => Ok(()),
        Err(_) => Err(Failed),
    }
}

/// The status once standard output was ended: what it could not take to the end counts as a fault of the sink.
pub fn last_status(code: u8, ended: Result<(), Failed>) -> u8
    ensures ended { OnOk ended (result ≡ code) }
    ensures failed { OnErr ended (result ≡ 5) }
{
    match ended {
        Ok(()) => code,
        Err(Failed) => status::SINK_FAILED,
    }
}
