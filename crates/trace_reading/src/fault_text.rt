// The line that says what is wanted of a trace.
ghost use Rattle.std.specs.Prelude.{◌≡◌, ◌++◌, IfOk, OnOk};
ghost use Rattle.trace_reading.specs.FaultText.{fault_text, listed_text, member_text, part_text, wanted_text};

use crate::text::{push_number, push_words};
use crate::want::Want;
use stamp_base::NoMemory;
use std::alloc::Global;

/// The line, with its line feed, that says what the line of this number wants and in which member. NoMemory where memory is
/// refused.
pub fn fault_line(alloc: Global, line: u64, want: Want) -> Result<Vec<u8>, NoMemory>
    ensures { IfOk result (λ text. text.items ≡ fault_text line want) }
{
    let mut text = Vec::new(alloc);
    push_words(&mut text, "trace line ")?;
    push_number(&mut text, line)?;
    push_words(&mut text, ": ")?;
    push_member(&mut text, want)?;
    push_words(&mut text, wanted(want))?;
    push_words(&mut text, " is wanted\n")?;
    Ok(text)
}

/// Adds the member that lacks something.
fn push_member(text: &mut Vec<u8>, want: Want) -> Result<(), NoMemory>
    ensures { OnOk result (text.new.items ≡ text.old.items ++ member_text want) }
{
    match want {
        Want::Json | Want::Object => Ok(()),
        Want::Type => push_words(text, "type: "),
        Want::Process => push_words(text, "process: "),
        Want::Time => push_words(text, "time: "),
        Want::Began => push_words(text, "began: "),
        Want::Committing => push_words(text, "committing: "),
        Want::Operations => push_words(text, "value: "),
        Want::Function { operation } => push_part(text, operation, "][0]: "),
        Want::Key { operation } => push_part(text, operation, "][1]: "),
        Want::Answer { operation } | Want::Written { operation } => {
            push_part(text, operation, "][2]: ")
        }
        Want::Listed { operation, member } => push_listed(text, operation, member),
        Want::Version { operation } => push_part(text, operation, "][3]: "),
    }
}

/// Adds a member of an operation.
fn push_part(text: &mut Vec<u8>, operation: u64, part: &str) -> Result<(), NoMemory>
    ensures { OnOk result (text.new.items ≡ text.old.items ++ part_text operation part.now) }
{
    push_words(text, "value[")?;
    push_number(text, operation)?;
    push_words(text, part)
}

/// Adds a member of the array that an operation read.
fn push_listed(text: &mut Vec<u8>, operation: u64, member: u64) -> Result<(), NoMemory>
    ensures { OnOk result (text.new.items ≡ text.old.items ++ part_text operation (listed_text member)) }
{
    push_part(text, operation, "][2][")?;
    push_number(text, member)?;
    push_words(text, "]: ")
}

/// What shall stand there.
fn wanted(want: Want) -> &'static str
    ensures { result.now ≡ wanted_text want }
{
    match want {
        Want::Json => "JSON",
        Want::Object => "an object",
        Want::Type => "invoke, ok, fail or info",
        Want::Operations => "an array",
        Want::Function { .. } => "r, w or append",
        Want::Answer { .. } => "null, a text, a whole number or an array",
        Want::Process | Want::Key { .. } | Want::Listed { .. } | Want::Written { .. } => {
            "a text or a whole number"
        }
        Want::Time | Want::Began | Want::Committing | Want::Version { .. } => "a whole number",
    }
}
