// Why a line of some bytes is no item.
ghost use Rattle.std.specs.Prelude.{◌≡◌, ◌++◌, ◌≤◌, ◌-◌, IfOk, IfSome, OnOk, slice_get};
ghost use Rattle.std.specs.Option.{option_map};
ghost use Rattle.history_reading.specs.History.{lines_of};
ghost use Rattle.line_reasons.specs.Reasons.{AddsReason, AddsReasonAt, Tells};

use crate::fault::{LineFault, print_fault};
use crate::object::json_fault;
use crate::text_line::text_fault;
use history_json::{Format, format_of};
use history_reading::cut_line;
use history_view::Text;
use stamp_base::NoMemory;
use std::alloc::Global;

/// Adds why the line of this number, counted from 1, is no item, as a line of words; nothing where no reason was found. Line 0
/// stands for too many bytes. NoMemory where memory is refused.
pub fn print_reason(
    alloc: Global,
    text: &mut Text,
    bytes: &[u8],
    number: u64,
) -> Result<(), NoMemory>
    ensures told { OnOk result (AddsReasonAt bytes.now number text.old text.new) }
{
    if number == 0 {
        return text.push(b"    a history has at most 16777216 bytes\n");
    }
    match line_at(bytes, number) {
        Some(line) => print_line(alloc, text, format_of(bytes), line),
        None => Ok(()),
    }
}

/// The line of this number.
fn line_at(bytes: &[u8], number: u64) -> Option<&[u8]>
    requires { 1 ≤ number }
    ensures { option_map (λ line. line.now) result ≡ slice_get (lines_of bytes.now) (number - 1) }
{
    let mut before = number - 1;
    let mut rest = bytes;
    while let Some((line, more)) = cut_line(rest) {
        if before == 0 {
            return Some(line);
        }
        before -= 1;
        rest = more;
    }
    if before == 0 { Some(rest) } else { None }
}

fn print_line(alloc: Global, text: &mut Text, format: Format, line: &[u8]) -> Result<(), NoMemory>
    ensures { OnOk result (AddsReason format line.now text.old text.new) }
{
    let fault = fault_of(alloc, format, line)?;
    print_fault(text, fault)
}

fn fault_of(alloc: Global, format: Format, line: &[u8]) -> Result<LineFault, NoMemory>
    ensures { IfOk result (Tells format line.now) }
{
    match format {
        Format::Text => text_fault(alloc, line),
        Format::Json => json_fault(alloc, line),
    }
}
