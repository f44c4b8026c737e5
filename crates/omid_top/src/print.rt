// Writing texts and histories, which takes no memory.
ghost use Rattle.std.specs.Prelude.{◌≡◌, ◌<◌, ◌≤◌, OnOk, OnErr, length};
ghost use Rattle.port_io.specs.Ports.{Risen, Gains};
ghost use Rattle.history_text.specs.Text.{printed};
ghost use Rattle.history_text.specs.Summary.{summarized};
ghost use Rattle.history_json.specs.Json.{json_printed};
ghost use Rattle.omid_top.specs.Texts.{usage_text, bad_line_text, text_in, spent_text, tick_line, told_line, told_text, torn_text};
ghost use Rattle.omid_top.specs.Promise.{GainsFront};
ghost use Rattle.omid_top.specs.Audit.{report_text};

use crate::Status;
use crate::form::Form;
use crate::report::Report;
use crate::script::ScriptCause;
use history_book::Item;
use history_json::print_line;
use history_text::{LineBuf, Summary, print_body, print_item};
use port_io::{Failed, Sink, write_all_of};

/// Writes this text of the history. Failed where the sink fails, with a front of the text written. No form takes memory.
pub fn print_in<K: Sink>(form: Form, sink: &mut K, items: &[Item]) -> Result<(), Failed>
    ensures all { OnOk result (Gains (K.held sink.old) (K.held sink.new) (text_in form items.now)) }
    ensures front { OnErr result (GainsFront (K.held sink.old) (K.held sink.new) (text_in form items.now)) }
    ensures failed { OnErr result (Risen (K.faults sink.old) (K.faults sink.new)) }
    ensures worked { OnOk result (K.faults sink.new ≡ K.faults sink.old) }
{
    match form {
        Form::History => print_history(sink, items),
        Form::Json => print_json(sink, items),
        Form::Summary => print_summary(sink, items),
    }
}

/// Writes the items, each by one write of its line.
fn print_history<K: Sink>(sink: &mut K, items: &[Item]) -> Result<(), Failed>
    ensures all { OnOk result (Gains (K.held sink.old) (K.held sink.new) (printed items.now)) }
    ensures front { OnErr result (GainsFront (K.held sink.old) (K.held sink.new) (printed items.now)) }
    ensures failed { OnErr result (Risen (K.faults sink.old) (K.faults sink.new)) }
    ensures worked { OnOk result (K.faults sink.new ≡ K.faults sink.old) }
{
    let mut line = LineBuf::new();
    for item in items {
        print_item(item, &mut line);
        print_text(sink, line.as_slice())?;
    }
    Ok(())
}

/// Writes the items as JSON, each by one write of its line.
fn print_json<K: Sink>(sink: &mut K, items: &[Item]) -> Result<(), Failed>
    ensures all { OnOk result (Gains (K.held sink.old) (K.held sink.new) (json_printed items.now)) }
    ensures front { OnErr result (GainsFront (K.held sink.old) (K.held sink.new) (json_printed items.now)) }
    ensures failed { OnErr result (Risen (K.faults sink.old) (K.faults sink.new)) }
    ensures worked { OnOk result (K.faults sink.new ≡ K.faults sink.old) }
{
    let mut line = LineBuf::new();
    for item in items {
        print_line(item, &mut line);
        print_text(sink, line.as_slice())?;
    }
    Ok(())
}

/// Writes the summary of the items.
fn print_summary<K: Sink>(sink: &mut K, items: &[Item]) -> Result<(), Failed>
    ensures all { OnOk result (Gains (K.held sink.old) (K.held sink.new) (summarized items.now)) }
    ensures front { OnErr result (GainsFront (K.held sink.old) (K.held sink.new) (summarized items.now)) }
    ensures failed { OnErr result (Risen (K.faults sink.old) (K.faults sink.new)) }
    ensures worked { OnOk result (K.faults sink.new ≡ K.faults sink.old) }
{
    let mut line = LineBuf::new();
    Summary::of(items).print(&mut line);
    print_text(sink, line.as_slice())
}

/// Writes the usage line. Failed where the sink fails, with a front of it written.
pub fn print_usage<K: Sink>(sink: &mut K) -> Result<(), Failed>
    ensures all { OnOk result (Gains (K.held sink.old) (K.held sink.new) usage_text) }
    ensures front { OnErr result (GainsFront (K.held sink.old) (K.held sink.new) usage_text) }
    ensures failed { OnErr result (Risen (K.faults sink.old) (K.faults sink.new)) }
    ensures worked { OnOk result (K.faults sink.new ≡ K.faults sink.old) }
{
    print_text(
        sink,
        b"usage: omid replay [summary|json|compact N] | run [split] | audit [strict] | storm N\n",
    )
}

/// Writes the first bad line of a script and its first cause. Failed where the sink fails, with a front of the text written.
pub fn print_bad_line<K: Sink>(sink: &mut K, number: u64, cause: ScriptCause) -> Result<(), Failed>
    ensures all { OnOk result (Gains (K.held sink.old) (K.held sink.new) (bad_line_text (record { line = number; cause = cause }))) }
    ensures front { OnErr result (GainsFront (K.held sink.old) (K.held sink.new) (bad_line_text (record { line = number; cause = cause }))) }
    ensures failed { OnErr result (Risen (K.faults sink.old) (K.faults sink.new)) }
    ensures worked { OnOk result (K.faults sink.new ≡ K.faults sink.old) }
{
    let mut line = LineBuf::new();
    set_bad_line(&mut line, number, cause);
    print_text(sink, line.as_slice())
}

/// Writes what an audit reports. Failed where the sink fails, with a front of the text written.
pub fn print_report<K: Sink>(sink: &mut K, report: &Report) -> Result<(), Failed>
    ensures all { OnOk result (Gains (K.held sink.old) (K.held sink.new) (report_text report.now)) }
    ensures front { OnErr result (GainsFront (K.held sink.old) (K.held sink.new) (report_text report.now)) }
    ensures failed { OnErr result (Risen (K.faults sink.old) (K.faults sink.new)) }
    ensures worked { OnOk result (K.faults sink.new ≡ K.faults sink.old) }
{
    let mut line = LineBuf::new();
    report.print(&mut line);
    print_text(sink, line.as_slice())
}

/// Writes at which tick something else was kept of an event than comes of it, and the first pair of items that differ. Failed where
/// the sink fails, with a front of the text written.
pub fn print_torn<K: Sink>(
    sink: &mut K,
    tick: u64,
    kept: &Option<Item>,
    replayed: &Option<Item>,
) -> Result<(), Failed>
    ensures all { OnOk result (Gains (K.held sink.old) (K.held sink.new) (torn_text tick kept.now replayed.now)) }
    ensures front { OnErr result (GainsFront (K.held sink.old) (K.held sink.new) (torn_text tick kept.now replayed.now)) }
    ensures failed { OnErr result (Risen (K.faults sink.old) (K.faults sink.new)) }
    ensures worked { OnOk result (K.faults sink.new ≡ K.faults sink.old) }
{
    let mut line = LineBuf::new();
    set_tick(&mut line, tick);
    print_text(sink, line.as_slice())?;
    set_told(&mut line, b"kept ", kept);
    print_text(sink, line.as_slice())?;
    set_told(&mut line, b"replayed ", replayed);
    print_text(sink, line.as_slice())
}

/// Writes that an actor has drawn all its ticks. Failed where the sink fails, with a front of the text written.
pub fn print_spent<K: Sink>(sink: &mut K) -> Result<(), Failed>
    ensures all { OnOk result (Gains (K.held sink.old) (K.held sink.new) spent_text) }
    ensures front { OnErr result (GainsFront (K.held sink.old) (K.held sink.new) spent_text) }
    ensures failed { OnErr result (Risen (K.faults sink.old) (K.faults sink.new)) }
    ensures worked { OnOk result (K.faults sink.new ≡ K.faults sink.old) }
{
    print_text(sink, b"ticks spent\n")
}

fn set_tick(line: &mut LineBuf, tick: u64)
    ensures { line.new ≡ tick_line tick }
{
    line.set_text(b"torn tick=");
    line.push_number(tick);
    line.push_text(b"\n");
}

/// Leaves a line in the buffer with the word and the item, if there is one.
fn set_told(line: &mut LineBuf, word: &[u8], item: &Option<Item>)
    requires { length word.now ≤ 16 }
    ensures { line.new ≡ told_line word.now item.now }
{
    let mut body = LineBuf::new();
    set_body(&mut body, item);
    line.set_text(word);
    line.push_text(body.as_slice());
    line.push_text(b"\n");
}

fn set_body(body: &mut LineBuf, item: &Option<Item>)
    ensures text { body.new ≡ told_text item.now }
    ensures len { length body.new ≤ 200 }
{
    match item {
        Some(item) => print_body(item, body),
        None => body.set_text(b"none"),
    }
}

/// Leaves the text in the buffer that names a script's first bad line.
fn set_bad_line(line: &mut LineBuf, number: u64, cause: ScriptCause)
    ensures { line.new ≡ bad_line_text (record { line = number; cause = cause }) }
{
    line.set_text(b"script line ");
    line.push_number(number);
    line.push_text(b": ");
    line.push_text(cause.text());
    line.push_text(b"\n");
}

/// Writes the text. Most often the sink takes all of it at once. Failed where the sink fails, with a front of the text written.
pub fn print_text<K: Sink>(sink: &mut K, text: &[u8]) -> Result<(), Failed>
    ensures all { OnOk result (Gains (K.held sink.old) (K.held sink.new) text.now) }
    ensures front { OnErr result (GainsFront (K.held sink.old) (K.held sink.new) text.now) }
    ensures failed { OnErr result (Risen (K.faults sink.old) (K.faults sink.new)) }
    ensures worked { OnOk result (K.faults sink.new ≡ K.faults sink.old) }
{
    let taken = sink.write(text)?;
    if taken == text.len() {
        return Ok(());
    }
    if taken == 0 {
        return Err(Failed);
    }
    match write_all_of(sink, &text[taken..]) {
        Ok(()) => Ok(()),
        Err(_) => Err(Failed),
    }
}
